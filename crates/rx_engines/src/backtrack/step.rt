//! What the backtracker does at a state.
ghost use Rattle.std.specs.Prelude.{◌≡◌, ◌+◌, ◌<◌, ◌≤◌, ◌∷◌, ◌++◌, length, map, Some};
ghost use Rattle.rx_nfa.specs.Automaton.{at, state_at};
ghost use Rattle.rx_engines.specs.Walk.{explore_all};
ghost use Rattle.rx_engines.specs.Simulation.{frames_of_state};
ghost use Rattle.rx_engines.specs.Onward.{frames_of, IsNear};
ghost use Rattle.rx_engines.specs.Backtrack.{AllInside, Stepped};
ghost use Rattle.rx_engines.specs.Search.{IsInside, graph_for};

use crate::onward::Onward;
use crate::search::{Search, in_any, in_range};
use crate::slots::Slot;
use crate::stack::{Stack, choose, save};
use rx_nfa::State;
use rx_search::{PatternID, StateID};

/// Tries the state at the place: what the search does next. The stack gets what it comes back to.
pub fn step(
    search: &Search<'_>,
    state: StateID,
    place: usize,
    stack: &mut Stack,
    slots: &mut [Slot],
) -> Onward<PatternID>
    requires search { IsInside search.now }
    requires state { state < length search.now.states.now }
    requires place { (search.now.first ≤ place) × (place ≤ search.now.end) }
    requires room { frames_of_state (state_at search.now.states.now state) + length stack.old.items ≤ stack.old.room }
    requires inside { AllInside search.now stack.old.items }
    ensures stepped { Stepped (graph_for search.now) (at state place) result
        stack.old.items stack.new.items slots.old slots.new }
    ensures inside { AllInside search.now (frames_of result stack.new.items) }
    ensures near { IsNear place result }
    ensures frames { length stack.new.items
        ≤ frames_of_state (state_at search.now.states.now state) + length stack.old.items }
    ensures room { stack.new.room ≡ stack.old.room }
    ensures width { length slots.new ≡ length slots.old }
{
    let states = search.states;
    match &states[state.as_usize()] {
        State::ByteRange { start, end, next } => {
            let byte = search.byte_at(place);
            Onward::to(in_range(*start, *end, *next, byte), place + 1)
        }
        State::Sparse { transitions } => {
            let byte = search.byte_at(place);
            Onward::to(in_any(transitions.as_slice(), byte), place + 1)
        }
        State::Look { look, next } => {
            let next = search.look_on(*look, *next, place);
            Onward::to(next, place)
        }
        State::Union { alternates } => {
            let first = choose(alternates.as_slice(), place, stack);
            Onward::to(first, place)
        }
        State::Capture { next, slot, .. } => {
            save(stack, slots, *slot, place);
            Onward::To {
                state: *next,
                place,
            }
        }
        State::Fail => Onward::Back,
        State::Match { pattern } => Onward::Stop(*pattern),
    }
}
