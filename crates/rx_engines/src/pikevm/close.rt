//! The walk over states that read nothing.
ghost use Rattle.std.specs.Prelude.{◌≡◌, ℕ, ◌+◌, ◌<◌, ◌≤◌, List, [], ◌∷◌, length, map, All, Option};
ghost use Rattle.rx_model.specs.Runs.{Passed};
ghost use Rattle.rx_nfa.specs.Automaton.{at, state_at};
ghost use Rattle.rx_engines.specs.declared.frame.Frame.TheVariants.{Explore};
ghost use Rattle.rx_engines.specs.Search.{IsInside, graph_until};
ghost use Rattle.rx_nfa.specs.Ordered.{is_resting, IsStable};
ghost use Rattle.rx_engines.specs.Simulation.{frames_of_state, frames_of_states, frames_to_come, Hit, Waits, Closed, Visited, rests};
ghost use Rattle.rx_engines.specs.Buffers.{room_of};
ghost use Rattle.rx_engines.specs.Walk.{AllWithin, explore_all};
ghost use Rattle.rx_engines.specs.Onward.{frames_of};

use crate::frame::Frame;
use crate::onward::Onward;
use crate::pikevm::threads::Threads;
use crate::pikevm::walk::Walk;
use crate::search::Search;
use crate::slots::Slot;
use crate::stack::choose;
use rx_nfa::State;
use rx_search::StateID;

/// Looks at the state. The walk's stack gets what it comes back to.
pub fn visit(search: &Search<'_>, state: StateID, place: usize, walk: &mut Walk) -> Onward<()>
    requires search { IsInside search.now }
    requires state { state < length search.now.states.now }
    requires place { place ≤ length search.now.text.now }
    requires room { frames_of_state (state_at search.now.states.now state) + length walk.old.stack.items ≤ walk.old.stack.room }
    requires inside { AllWithin (length search.now.states.now) place place walk.old.stack.items }
    ensures visited { Visited search.now.matcher search.now.states.now search.now.text.now state place (rests result) walk.old.stack.items
        (frames_of result walk.new.stack.items) walk.old.slots.items walk.new.slots.items }
    ensures frames { length walk.new.stack.items
        ≤ frames_of_state (state_at search.now.states.now state) + length walk.old.stack.items }
    ensures inside { AllWithin (length search.now.states.now) place place (frames_of result walk.new.stack.items) }
    ensures room { walk.new.stack.room ≡ walk.old.stack.room }
    ensures width { length walk.new.slots.items ≡ length walk.old.slots.items }
    ensures kept { walk.new.slots.room ≡ walk.old.slots.room }
{
    let states = search.states;
    match &states[state.as_usize()] {
        State::Capture { next, slot, .. } => {
            walk.slots.save(*slot, place, &mut walk.stack);
            Onward::To {
                state: *next,
                place,
            }
        }
        State::Look { look, next } => {
            let next = search.look_on(*look, *next, place);
            Onward::to(next, place)
        }
        State::Union { alternates } => {
            let first = choose(alternates.as_slice(), place, &mut walk.stack);
            Onward::to(first, place)
        }
        State::Fail => Onward::Back,
        State::ByteRange { .. } | State::Sparse { .. } | State::Match { .. } => Onward::Stop(()),
    }
}

/// Follows the preferred way from the state, over those that read no byte, as far as it is new. It leaves a thread where
/// the way comes to rest.
fn follow(
    search: &Search<'_>,
    from: StateID,
    place: usize,
    start: usize,
    threads: &mut Threads,
    walk: &mut Walk,
)
    requires search { IsInside search.now }
    requires from { from < length search.now.states.now }
    requires place { place ≤ length search.now.text.now }
    requires set { threads.old.set.room ≡ length search.now.states.now }
    requires table { length threads.old.table.items ≡ length search.now.states.now }
    requires width { length walk.old.slots.items ≡ threads.old.table.width }
    requires frames { frames_to_come search.now.states.now place threads.old.set.items + length walk.old.stack.items ≤ walk.old.stack.room }
    requires inside { AllWithin (length search.now.states.now) place place walk.old.stack.items }
    ensures followed { (end : ℕ) (later : Passed → Option Hit) (goal : Option Hit)
        → place ≤ end
        → IsStable (graph_until search.now end) later
        → Waits search.now.states.now (graph_until search.now end) place start later
        threads.old.set.items threads.old.table.items (Explore from place ∷ walk.old.stack.items) walk.old.slots.items goal
        → Waits search.now.states.now (graph_until search.now end) place start later
        threads.new.set.items threads.new.table.items walk.new.stack.items walk.new.slots.items goal }
    ensures inside { AllWithin (length search.now.states.now) place place walk.new.stack.items }
    ensures less { frames_to_come search.now.states.now place threads.new.set.items + length walk.new.stack.items
        ≤ frames_to_come search.now.states.now place threads.old.set.items + length walk.old.stack.items }
    ensures set { threads.new.set.room ≡ threads.old.set.room }
    ensures table { length threads.new.table.items ≡ length threads.old.table.items }
    ensures width { threads.new.table.width ≡ threads.old.table.width }
    ensures capacity { room_of threads.new ≡ room_of threads.old }
    ensures slots { length walk.new.slots.items ≡ length walk.old.slots.items }
    ensures kept { walk.new.slots.room ≡ walk.old.slots.room }
    ensures stack { walk.new.stack.room ≡ walk.old.stack.room }
{
    // The stack has what it comes back to (DECISIONS: a closure of the `PikeVM` follows the preferred way without its stack).
    let mut state = from;
    while threads.set.insert(state) {
        match visit(search, state, place, walk) {
            Onward::Stop(_) => {
                threads.table.set(state, start, walk.slots.as_slice());
                return;
            }
            Onward::To { state: next, .. } => state = next,
            Onward::Back => return,
        }
    }
}

/// Follows a thread from the state over those that read no byte, and adds the threads that come of it.
#[inline(never)]
pub fn close(
    search: &Search<'_>,
    state: StateID,
    place: usize,
    start: usize,
    threads: &mut Threads,
    walk: &mut Walk,
)
    requires search { IsInside search.now }
    requires state { state < length search.now.states.now }
    requires place { place ≤ length search.now.text.now }
    requires set { threads.old.set.room ≡ length search.now.states.now }
    requires table { length threads.old.table.items ≡ length search.now.states.now }
    requires width { length walk.old.slots.items ≡ threads.old.table.width }
    requires empty { walk.old.stack.items ≡ [] }
    requires stack { frames_of_states search.now.states.now (length search.now.states.now) ≤ walk.old.stack.room }
    ensures closed { (end : ℕ) (later : Passed → Option Hit) (goal : Option Hit)
        → place ≤ end
        → IsStable (graph_until search.now end) later
        → Waits search.now.states.now (graph_until search.now end) place start later
        threads.old.set.items threads.old.table.items (Explore state place ∷ []) walk.old.slots.items goal
        → Closed search.now.states.now (graph_until search.now end) place later
        threads.new.set.items threads.new.table.items goal }
    ensures set { threads.new.set.room ≡ threads.old.set.room }
    ensures table { length threads.new.table.items ≡ length threads.old.table.items }
    ensures width { threads.new.table.width ≡ threads.old.table.width }
    ensures capacity { room_of threads.new ≡ room_of threads.old }
    ensures slots { length walk.new.slots.items ≡ length walk.old.slots.items }
    ensures kept { walk.new.slots.room ≡ walk.old.slots.room }
    ensures empty { walk.new.stack.items ≡ [] }
    ensures stack { walk.new.stack.room ≡ walk.old.stack.room }
{
    follow(search, state, place, start, threads, walk);
    while let Some(frame) = walk.stack.pop() {
        match frame {
            Frame::Restore { slot, old } => walk.slots.write(slot, old),
            Frame::Explore { state, .. } => {
                follow(search, state, place, start, threads, walk);
            }
        }
    }
}

/// A thread with these slots comes to the state. From a union it comes to each of its alternates.
#[inline(always)]
pub fn arrive(
    search: &Search<'_>,
    state: StateID,
    place: usize,
    start: usize,
    slots: &[Slot],
    threads: &mut Threads,
    walk: &mut Walk,
)
    requires search { IsInside search.now }
    requires state { state < length search.now.states.now }
    requires place { place ≤ length search.now.text.now }
    requires set { threads.old.set.room ≡ length search.now.states.now }
    requires table { length threads.old.table.items ≡ length search.now.states.now }
    requires width { (length slots.now ≡ threads.old.table.width) × (length walk.old.slots.items ≡ threads.old.table.width) }
    requires empty { walk.old.stack.items ≡ [] }
    requires stack { frames_of_states search.now.states.now (length search.now.states.now) ≤ walk.old.stack.room }
    ensures closed { (end : ℕ) (later : Passed → Option Hit) (goal : Option Hit)
        → place ≤ end
        → IsStable (graph_until search.now end) later
        → Waits search.now.states.now (graph_until search.now end) place start later
        threads.old.set.items threads.old.table.items (Explore state place ∷ []) slots.now goal
        → Closed search.now.states.now (graph_until search.now end) place later
        threads.new.set.items threads.new.table.items goal }
    ensures set { threads.new.set.room ≡ threads.old.set.room }
    ensures table { length threads.new.table.items ≡ length threads.old.table.items }
    ensures width { threads.new.table.width ≡ threads.old.table.width }
    ensures capacity { room_of threads.new ≡ room_of threads.old }
    ensures slots { length walk.new.slots.items ≡ length walk.old.slots.items }
    ensures kept { walk.new.slots.room ≡ walk.old.slots.room }
    ensures empty { walk.new.stack.items ≡ [] }
    ensures stack { walk.new.stack.room ≡ walk.old.stack.room }
{
    let states = search.states;
    if let State::Union { alternates } = &states[state.as_usize()] {
        if !threads.set.insert(state) {
            return;
        }
        enter_all(
            search,
            alternates.as_slice(),
            place,
            start,
            slots,
            threads,
            walk,
        );
        return;
    }
    enter(search, state, place, start, slots, threads, walk);
}

/// A thread with these slots comes to each of the states, in order.
#[inline(always)]
fn enter_all(
    search: &Search<'_>,
    alternates: &[StateID],
    place: usize,
    start: usize,
    slots: &[Slot],
    threads: &mut Threads,
    walk: &mut Walk,
)
    requires search { IsInside search.now }
    requires names { All (λ q. q < length search.now.states.now) alternates.now }
    requires place { place ≤ length search.now.text.now }
    requires set { threads.old.set.room ≡ length search.now.states.now }
    requires table { length threads.old.table.items ≡ length search.now.states.now }
    requires width { (length slots.now ≡ threads.old.table.width) × (length walk.old.slots.items ≡ threads.old.table.width) }
    requires empty { walk.old.stack.items ≡ [] }
    requires stack { frames_of_states search.now.states.now (length search.now.states.now) ≤ walk.old.stack.room }
    ensures closed { (end : ℕ) (later : Passed → Option Hit) (goal : Option Hit)
        → place ≤ end
        → IsStable (graph_until search.now end) later
        → Waits search.now.states.now (graph_until search.now end) place start later
        threads.old.set.items threads.old.table.items (explore_all (map (λ q. at q place) alternates.now)) slots.now goal
        → Closed search.now.states.now (graph_until search.now end) place later
        threads.new.set.items threads.new.table.items goal }
    ensures set { threads.new.set.room ≡ threads.old.set.room }
    ensures table { length threads.new.table.items ≡ length threads.old.table.items }
    ensures width { threads.new.table.width ≡ threads.old.table.width }
    ensures capacity { room_of threads.new ≡ room_of threads.old }
    ensures slots { length walk.new.slots.items ≡ length walk.old.slots.items }
    ensures kept { walk.new.slots.room ≡ walk.old.slots.room }
    ensures empty { walk.new.stack.items ≡ [] }
    ensures stack { walk.new.stack.room ≡ walk.old.stack.room }
{
    for k in 0..alternates.len() {
        enter(search, alternates[k], place, start, slots, threads, walk);
    }
}

/// As `arrive`. A state that rests gets the slots as they are, and from another one the thread is followed.
#[inline(always)]
fn enter(
    search: &Search<'_>,
    state: StateID,
    place: usize,
    start: usize,
    slots: &[Slot],
    threads: &mut Threads,
    walk: &mut Walk,
)
    requires search { IsInside search.now }
    requires state { state < length search.now.states.now }
    requires place { place ≤ length search.now.text.now }
    requires set { threads.old.set.room ≡ length search.now.states.now }
    requires table { length threads.old.table.items ≡ length search.now.states.now }
    requires width { (length slots.now ≡ threads.old.table.width) × (length walk.old.slots.items ≡ threads.old.table.width) }
    requires empty { walk.old.stack.items ≡ [] }
    requires stack { frames_of_states search.now.states.now (length search.now.states.now) ≤ walk.old.stack.room }
    ensures closed { (end : ℕ) (later : Passed → Option Hit) (goal : Option Hit)
        → place ≤ end
        → IsStable (graph_until search.now end) later
        → Waits search.now.states.now (graph_until search.now end) place start later
        threads.old.set.items threads.old.table.items (Explore state place ∷ []) slots.now goal
        → Closed search.now.states.now (graph_until search.now end) place later
        threads.new.set.items threads.new.table.items goal }
    ensures set { threads.new.set.room ≡ threads.old.set.room }
    ensures table { length threads.new.table.items ≡ length threads.old.table.items }
    ensures width { threads.new.table.width ≡ threads.old.table.width }
    ensures capacity { room_of threads.new ≡ room_of threads.old }
    ensures slots { length walk.new.slots.items ≡ length walk.old.slots.items }
    ensures kept { walk.new.slots.room ≡ walk.old.slots.room }
    ensures empty { walk.new.stack.items ≡ [] }
    ensures stack { walk.new.stack.room ≡ walk.old.stack.room }
{
    let states = search.states;
    if !is_resting(&states[state.as_usize()]) {
        lead_on(search, state, place, start, slots, threads, walk);
        return;
    }
    if !threads.set.insert(state) {
        return;
    }
    threads.table.set(state, start, slots);
}

/// As `arrive`, from a state that does not rest. Past states that write slots the thread is led on at once: nothing is left
/// to come back to, so no old value is kept.
#[inline(always)]
fn lead_on(
    search: &Search<'_>,
    from: StateID,
    place: usize,
    start: usize,
    slots: &[Slot],
    threads: &mut Threads,
    walk: &mut Walk,
)
    requires search { IsInside search.now }
    requires from { from < length search.now.states.now }
    requires place { place ≤ length search.now.text.now }
    requires set { threads.old.set.room ≡ length search.now.states.now }
    requires table { length threads.old.table.items ≡ length search.now.states.now }
    requires width { (length slots.now ≡ threads.old.table.width) × (length walk.old.slots.items ≡ threads.old.table.width) }
    requires empty { walk.old.stack.items ≡ [] }
    requires stack { frames_of_states search.now.states.now (length search.now.states.now) ≤ walk.old.stack.room }
    ensures closed { (end : ℕ) (later : Passed → Option Hit) (goal : Option Hit)
        → place ≤ end
        → IsStable (graph_until search.now end) later
        → Waits search.now.states.now (graph_until search.now end) place start later
        threads.old.set.items threads.old.table.items (Explore from place ∷ []) slots.now goal
        → Closed search.now.states.now (graph_until search.now end) place later
        threads.new.set.items threads.new.table.items goal }
    ensures set { threads.new.set.room ≡ threads.old.set.room }
    ensures table { length threads.new.table.items ≡ length threads.old.table.items }
    ensures width { threads.new.table.width ≡ threads.old.table.width }
    ensures capacity { room_of threads.new ≡ room_of threads.old }
    ensures slots { length walk.new.slots.items ≡ length walk.old.slots.items }
    ensures kept { walk.new.slots.room ≡ walk.old.slots.room }
    ensures empty { walk.new.stack.items ≡ [] }
    ensures stack { walk.new.stack.room ≡ walk.old.stack.room }
{
    // Only such a walk has steps to write in (DECISIONS: a thread's slots are copied straight to a state that rests).
    walk.slots.copy(slots);
    let states = search.states;
    let mut state = from;
    while let State::Capture { next, slot, .. } = &states[state.as_usize()] {
        if !threads.set.insert(state) {
            return;
        }
        walk.slots.write(*slot, Slot::at(place));
        state = *next;
    }
    if !is_resting(&states[state.as_usize()]) {
        close(search, state, place, start, threads, walk);
        return;
    }
    if !threads.set.insert(state) {
        return;
    }
    threads.table.set(state, start, walk.slots.as_slice());
}

/// Whether a thread rests at the state: until the next byte, or for good.
fn is_resting(state: &State) -> bool
    ensures { result ≡ is_resting state.now }
{
    match state {
        State::ByteRange { .. } | State::Sparse { .. } | State::Match { .. } => true,
        State::Look { .. } | State::Union { .. } | State::Capture { .. } | State::Fail => false,
    }
}
