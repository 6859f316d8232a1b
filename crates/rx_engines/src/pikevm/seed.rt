//! The thread that starts at a place.
ghost use Rattle.std.specs.Prelude.{◌≡◌, ℕ, ◌+◌, ◌<◌, ◌≤◌, [], ◌∷◌, length, All, Bool, true, Option, None, is_some, replicate};
ghost use Rattle.rx_model.specs.Runs.{Passed, nowhere};
ghost use Rattle.std.specs.Option.{option_or};
ghost use Rattle.rx_nfa.specs.Automaton.{NamesBelow};
ghost use Rattle.rx_nfa.specs.Ordered.{passed_at, IsStable};
ghost use Rattle.rx_engines.specs.declared.frame.Frame.TheVariants.{Explore};
ghost use Rattle.rx_engines.specs.Simulation.{frames_of_states, Hit, Waits, Closed, IsVain, among, later_starts};
ghost use Rattle.rx_engines.specs.Buffers.{IsReady, KeepsRoom, curr_of, room_of};
ghost use Rattle.rx_engines.specs.Search.{IsInside, graph_until, may_begin};

use crate::pikevm::buffers::Buffers;
use crate::pikevm::close::close;
use crate::pikevm::set::SparseSet;
use crate::pikevm::threads::Threads;
use crate::pikevm::walk::Walk;
use crate::search::Search;
use crate::starts::is_allowed;
use rx_nfa::State;
use rx_search::StateID;

/// At how many states that write slots it is asked whether a thread would add none.
const WRITES: usize = 8;

/// Starts a thread here, after the others, unless there is a match already or none may start here.
pub fn seed(search: &Search<'_>, place: usize, matched: bool, buffers: &mut Buffers)
    requires search { IsInside search.now }
    requires place { place ≤ search.now.end }
    requires ready { IsReady search.now.states.now (length buffers.old.best.items) buffers.old }
    ensures seeded { (offered : ℕ → Bool) (end : ℕ) (best goal : Option Hit)
        → offered place ≡ may_begin search.now place
        → place ≤ end
        → matched ≡ is_some best
        → option_or (among search.now.states.now (graph_until search.now end) nowhere place
        (curr_of buffers.old).table.items (curr_of buffers.old).set.items)
        (later_starts offered search.now end (length buffers.old.best.items) best place (passed_at (curr_of buffers.old).set.items place))
        ≡ goal
        → option_or (among search.now.states.now (graph_until search.now end) nowhere place
        (curr_of buffers.new).table.items (curr_of buffers.new).set.items)
        (later_starts offered search.now end (length buffers.old.best.items) best (place + 1) nowhere)
        ≡ goal }
    ensures best { buffers.new.best ≡ buffers.old.best }
    ensures ready { IsReady search.now.states.now (length buffers.old.best.items) buffers.new }
    ensures room { KeepsRoom buffers.old buffers.new }
{
    if matched {
        return;
    }
    if search.last < place {
        return;
    }
    if !search.may_begin(place) {
        return;
    }
    if !is_allowed(search.text, search.utf8, place) {
        return;
    }
    if buffers.turned {
        begin(search, place, &mut buffers.odd, &mut buffers.walk);
        return;
    }
    begin(search, place, &mut buffers.even, &mut buffers.walk);
}

/// Starts a thread here, after the others, if it adds one.
#[inline(always)]
fn begin(search: &Search<'_>, place: usize, threads: &mut Threads, walk: &mut Walk)
    requires search { IsInside search.now }
    requires place { place ≤ search.now.end }
    requires set { threads.old.set.room ≡ length search.now.states.now }
    requires table { length threads.old.table.items ≡ length search.now.states.now }
    requires width { length walk.old.slots.items ≡ threads.old.table.width }
    requires empty { walk.old.stack.items ≡ [] }
    requires stack { frames_of_states search.now.states.now (length search.now.states.now) ≤ walk.old.stack.room }
    ensures closed { (end : ℕ) (later : Passed → Option Hit) (goal : Option Hit)
        → place ≤ end
        → IsStable (graph_until search.now end) later
        → Waits search.now.states.now (graph_until search.now end) place place later
        threads.old.set.items threads.old.table.items (Explore search.now.start place ∷ [])
        (replicate (length walk.old.slots.items) None) goal
        → Closed search.now.states.now (graph_until search.now end) place later
        threads.new.set.items threads.new.table.items goal }
    ensures set { threads.new.set.room ≡ threads.old.set.room }
    ensures table { length threads.new.table.items ≡ length threads.old.table.items }
    ensures width { threads.new.table.width ≡ threads.old.table.width }
    ensures capacity { room_of threads.new ≡ room_of threads.old }
    ensures slots { length walk.new.slots.items ≡ length walk.old.slots.items }
    ensures kept { walk.new.slots.room ≡ walk.old.slots.room }
    ensures empty { walk.new.stack.items ≡ [] }
    ensures stack { walk.new.stack.room ≡ walk.old.stack.room }
{
    if is_vain(search.states, search.start, &threads.set) {
        return;
    }
    walk.slots.clear();
    close(search, search.start, place, place, threads, walk);
}

/// Whether it is seen soon that a thread from the state would add none: past states that write slots, it comes to one that
/// is in the set.
#[inline(always)]
fn is_vain(states: &[State], from: StateID, set: &SparseSet) -> bool
    requires from { from < length states.now }
    requires names { All (NamesBelow (length states.now)) states.now }
    requires room { set.now.room ≡ length states.now }
    ensures { result ≡ true → IsVain states.now set.now.items from }
{
    let mut state = from;
    for _ in 0..WRITES {
        let State::Capture { next, .. } = &states[state.as_usize()] else {
            return set.contains(state);
        };
        state = *next;
    }
    false
}
