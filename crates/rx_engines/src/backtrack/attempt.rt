//! The depth-first search from one start.
ghost use Rattle.std.specs.Prelude.{◌≡◌, ◌^◌, ◌+◌, ◌-◌, ◌*◌, ◌<◌, ◌≤◌, ◌∷◌, length, Option, IfNone};
ghost use Rattle.rx_model.specs.Runs.{Passed, first_trace};
ghost use Rattle.rx_nfa.specs.Automaton.{at};
ghost use Rattle.rx_engines.specs.Walk.{Slots, Answer, answer};
ghost use Rattle.rx_engines.specs.declared.frame.Frame.TheVariants.{Explore};
ghost use Rattle.rx_engines.specs.Search.{IsInside, graph_for};
ghost use Rattle.rx_engines.specs.Backtrack.{AllInside, extent, passed_by, work, frames_left, IsDead, Searching, Followed, returned};

use crate::backtrack::step::step;
use crate::backtrack::visited::Visited;
use crate::frame::Frame;
use crate::onward::Onward;
use crate::search::Search;
use crate::slots::{Slot, write};
use crate::stack::Stack;
use rx_search::{HalfMatch, StateID};

/// The pattern and the end of the first run that starts at the place `from`. The slots get what it wrote.
pub fn attempt(
    search: &Search<'_>,
    from: usize,
    visited: &mut Visited,
    stack: &mut Stack,
    slots: &mut [Slot],
) -> Option<HalfMatch>
    requires search { IsInside search.now }
    requires small { extent search.now < 2 ^ 63 }
    requires from { (search.now.first ≤ from) × (from ≤ search.now.end) }
    requires room { extent search.now ≤ 64 * length visited.old }
    requires frames { frames_left search.now visited.old ≤ stack.old.room }
    requires dead { IsDead (graph_for search.now) (passed_by search.now visited.old) }
    ensures value { returned result slots.new
        ≡ answer slots.old (first_trace (graph_for search.now) (at search.now.start from)) }
    ensures undone { IfNone result (slots.new ≡ slots.old) }
    ensures dead { IfNone result (IsDead (graph_for search.now) (passed_by search.now visited.new)) }
    ensures frames { IfNone result (frames_left search.now visited.new ≤ stack.new.room) }
    ensures stack { stack.new.room ≡ stack.old.room }
    ensures room { length visited.new ≡ length visited.old }
    ensures width { length slots.new ≡ length slots.old }
{
    // `visited` stays from start to start (DECISIONS: what was passed is part of the definition of a run).
    stack.clear();
    if let Some(found) = follow(search, search.start, from, visited, stack, slots) {
        return Some(found);
    }
    while let Some(frame) = stack.pop() {
        match frame {
            Frame::Restore { slot, old } => write(slots, slot, old),
            Frame::Explore { state, place } => {
                if let Some(found) = follow(search, state, place, visited, stack, slots) {
                    return Some(found);
                }
            }
        }
    }
    None
}

/// Follows the preferred way from the state at the place, as far as it is new: the pattern and the place, where it
/// accepts. Else the search comes back to the stack.
fn follow(
    search: &Search<'_>,
    start: StateID,
    from: usize,
    visited: &mut Visited,
    stack: &mut Stack,
    slots: &mut [Slot],
) -> Option<HalfMatch>
    requires search { IsInside search.now }
    requires small { extent search.now < 2 ^ 63 }
    requires start { start < length search.now.states.now }
    requires from { (search.now.first ≤ from) × (from ≤ search.now.end) }
    requires room { extent search.now ≤ 64 * length visited.old }
    requires frames { frames_left search.now visited.old + length stack.old.items ≤ stack.old.room }
    requires inside { AllInside search.now stack.old.items }
    ensures followed { (before : Passed) (goal : Option Answer) (base : Slots)
        → Searching (graph_for search.now) before (passed_by search.now visited.old) goal base
        (Explore start from ∷ stack.old.items) slots.old
        → Followed result (graph_for search.now) before (passed_by search.now visited.new) goal base
        stack.new.items slots.new }
    ensures inside { AllInside search.now stack.new.items }
    ensures less { IfNone result (work search.now visited.new + length stack.new.items
        ≤ work search.now visited.old + length stack.old.items) }
    ensures frames { IfNone result (frames_left search.now visited.new + length stack.new.items
        ≤ stack.new.room) }
    ensures stack { stack.new.room ≡ stack.old.room }
    ensures room { length visited.new ≡ length visited.old }
    ensures width { length slots.new ≡ length slots.old }
{
    let states = search.states.len();
    let mut state = start;
    let mut place = from;
    let mut row = (from - search.first) * states;
    while visited.insert(row + state.as_usize()) {
        match step(search, state, place, stack, slots) {
            Onward::Stop(pattern) => return Some(HalfMatch::new(pattern, place)),
            Onward::To {
                state: next,
                place: at,
            } => {
                row = row_at(row, states, place, at);
                state = next;
                place = at;
            }
            Onward::Back => return None,
        }
    }
    None
}

/// Where the bits of `next` begin, which is the place or the one after it, if those of the place begin at `row`. A place has
/// a bit for each state, in order.
fn row_at(row: usize, states: usize, place: usize, next: usize) -> usize
    requires near { (place ≤ next) × (next ≤ place + 1) }
    requires small { row + states < 2 ^ 64 }
    ensures { result ≡ row + (next - place) * states }
{
    // A sum in place of a product (DECISIONS: the backtracker keeps where the bits of its place begin).
    if place < next { row + states } else { row }
}
