//! The step of all threads over a byte.
ghost use Rattle.std.specs.Prelude.{◌≡◌, ℕ, ◌+◌, ◌<◌, ◌≤◌, List, [], length, All, Option, IfNone, option_map};
ghost use Rattle.rx_model.specs.Runs.{Passed, nowhere};
ghost use Rattle.std.specs.Option.{option_or};
ghost use Rattle.rx_nfa.specs.Automaton.{byte_at};
ghost use Rattle.rx_nfa.specs.Ordered.{IsStable};
ghost use Rattle.rx_engines.specs.Simulation.{frames_of_states, Hit, among, best_hit, until, Stepped, act_of};
ghost use Rattle.rx_engines.specs.Buffers.{IsReady, KeepsRoom, curr_of, room_of};
ghost use Rattle.rx_engines.specs.Search.{IsInside, graph_until};

use crate::onward::Onward;
use crate::pikevm::buffers::Buffers;
use crate::pikevm::close::arrive;
use crate::pikevm::row::SlotRow;
use crate::pikevm::threads::Threads;
use crate::pikevm::walk::Walk;
use crate::search::{Search, in_any, in_range};
use rx_nfa::State;
use rx_search::{Match, PatternID, Span, StateID};

/// What a thread that accepts tells: the pattern, and where the match began.
#[derive(Clone, Copy)]
pub struct Accepted {
    pub pattern: PatternID,
    pub start: usize,
}

impl Accepted {
    /// The match that ends at this place.
    pub fn until(self, end: usize) -> Match
        requires { self.start ≤ end }
        ensures { result ≡ until end self }
    {
        let span = Span {
            start: self.start,
            end,
        };
        Match::new(self.pattern, span)
    }
}

/// What the state does where this byte stands, None at the end, and `after` is the place after it.
fn act(state: &State, byte: Option<u8>, after: usize) -> Onward<PatternID>
    ensures { result ≡ act_of state.now byte after }
{
    match state {
        State::ByteRange { start, end, next } => Onward::to(
            in_range(*start, *end, *next, byte),
            after,
        ),
        State::Sparse { transitions } => Onward::to(in_any(transitions.as_slice(), byte), after),
        State::Match { pattern } => Onward::Stop(*pattern),
        State::Look { .. } | State::Union { .. } | State::Capture { .. } | State::Fail => {
            Onward::Back
        }
    }
}

/// Moves the threads over the byte at the place, up to the first one that accepts, of which `best` gets the slots. Then the
/// lists change places. What it leaves is right for each end of the search before which that byte stands.
pub fn step(search: &Search<'_>, place: usize, buffers: &mut Buffers) -> Option<Accepted>
    requires search { IsInside search.now }
    requires place { place ≤ search.now.end }
    requires ready { IsReady search.now.states.now (length buffers.old.best.items) buffers.old }
    ensures stepped { (end : ℕ) (later : Passed → Option Hit) (goal : Option Hit)
        → place ≤ end
        → byte_at search.now.text.now end place ≡ byte_at search.now.text.now search.now.end place
        → IsStable (graph_until search.now end) later
        → option_or (among search.now.states.now (graph_until search.now end) nowhere place
        (curr_of buffers.old).table.items (curr_of buffers.old).set.items) (later nowhere) ≡ goal
        → Stepped result search.now.states.now (graph_until search.now end) place later
        (curr_of buffers.new).set.items (curr_of buffers.new).table.items buffers.new.best.items goal }
    ensures accepted { among search.now.states.now (graph_until search.now place) nowhere place
        (curr_of buffers.old).table.items (curr_of buffers.old).set.items
        ≡ best_hit (option_map (until place) result) buffers.new.best.items }
    ensures kept { IfNone result (buffers.new.best.items ≡ buffers.old.best.items) }
    ensures ready { IsReady search.now.states.now (length buffers.old.best.items) buffers.new }
    ensures room { KeepsRoom buffers.old buffers.new }
{
    if buffers.turned {
        buffers.turned = false;
        return step_over(
            search,
            place,
            &buffers.odd,
            &mut buffers.even,
            &mut buffers.walk,
            &mut buffers.best,
        );
    }
    buffers.turned = true;
    step_over(
        search,
        place,
        &buffers.even,
        &mut buffers.odd,
        &mut buffers.walk,
        &mut buffers.best,
    )
}

/// As `step`, from one list to the other.
#[inline(always)]
fn step_over(
    search: &Search<'_>,
    place: usize,
    curr: &Threads,
    next: &mut Threads,
    walk: &mut Walk,
    best: &mut SlotRow,
) -> Option<Accepted>
    requires search { IsInside search.now }
    requires place { place ≤ search.now.end }
    requires set { (curr.now.set.room ≡ length search.now.states.now) × (next.old.set.room ≡ length search.now.states.now) }
    requires table { (length curr.now.table.items ≡ length search.now.states.now)
        × (length next.old.table.items ≡ length search.now.states.now) }
    requires width { (curr.now.table.width ≡ length best.old.items) × (next.old.table.width ≡ length best.old.items)
        × (length walk.old.slots.items ≡ length best.old.items) }
    requires empty { walk.old.stack.items ≡ [] }
    requires stack { frames_of_states search.now.states.now (length search.now.states.now) ≤ walk.old.stack.room }
    ensures stepped { (end : ℕ) (later : Passed → Option Hit) (goal : Option Hit)
        → place ≤ end
        → byte_at search.now.text.now end place ≡ byte_at search.now.text.now search.now.end place
        → IsStable (graph_until search.now end) later
        → option_or (among search.now.states.now (graph_until search.now end) nowhere place
        curr.now.table.items curr.now.set.items) (later nowhere) ≡ goal
        → Stepped result search.now.states.now (graph_until search.now end) place later
        next.new.set.items next.new.table.items best.new.items goal }
    ensures accepted { among search.now.states.now (graph_until search.now place) nowhere place
        curr.now.table.items curr.now.set.items ≡ best_hit (option_map (until place) result) best.new.items }
    ensures kept { IfNone result (best.new.items ≡ best.old.items) }
    ensures set { next.new.set.room ≡ next.old.set.room }
    ensures table { length next.new.table.items ≡ length next.old.table.items }
    ensures width { next.new.table.width ≡ next.old.table.width }
    ensures capacity { room_of next.new ≡ room_of next.old }
    ensures slots { (length walk.new.slots.items ≡ length walk.old.slots.items) × (walk.new.slots.room ≡ walk.old.slots.room) }
    ensures best { (length best.new.items ≡ length best.old.items) × (best.new.room ≡ best.old.room) }
    ensures empty { walk.new.stack.items ≡ [] }
    ensures stack { walk.new.stack.room ≡ walk.old.stack.room }
{
    next.set.clear();
    let states = search.states;
    let byte = search.byte_at(place);
    for k in 0..curr.set.len() {
        let state = curr.set.get(k);
        match act(&states[state.as_usize()], byte, place + 1) {
            Onward::Stop(pattern) => {
                best.copy(curr.table.slots(state));
                let start = curr.table.start(state);
                return Some(Accepted { pattern, start });
            }
            Onward::To { state: target, .. } => {
                let start = curr.table.start(state);
                let slots = curr.table.slots(state);
                arrive(search, target, place + 1, start, slots, next, walk);
            }
            Onward::Back => {}
        }
    }
    None
}
