//! What is read off a list of states: where threads stay, what they accept, and where a byte leads them.
ghost use Rattle.std.specs.Prelude.{◌≡◌, ℕ, ◌<◌, ◌≤◌, [], ◌∷◌, ◌++◌, length, take, All, Bool, Option, OnOk, IfOk};
ghost use Rattle.rx_nfa.specs.Automaton.{NamesBelow, state_accepts};
ghost use Rattle.rx_nfa.specs.Ordered.{AreBelow, is_resting, resting as resting_of, target as target_of, targets as targets_of, first_told, cut as cut_of};
ghost use Rattle.rx_determinize.specs.Key.{is_look, one_asks as asks, accepts_in, accepted_by, with_pattern, counting as counting_of, looping as looping_of, matching as matching_of, listed};

use rx_nfa::{State, matches_byte};
use rx_search::{MatchKind, Memory, PatternID, StateID};

/// Appends to `into` the states of the list at which a thread stays.
pub fn resting(states: &[State], list: &[StateID], into: &mut Vec<StateID>) -> Result<(), Memory>
    requires { AreBelow (length states.now) list.now }
    ensures { OnOk result (into.new.items ≡ into.old.items ++ resting_of states.now list.now) }
{
    for state in list {
        if rests(&states[state.as_usize()]) {
            into.push(*state)?;
        }
    }
    Ok(())
}

/// Whether a thread stays at the state until a byte is read.
fn rests(state: &State) -> bool
    ensures { result ≡ is_resting state.now }
{
    match state {
        State::ByteRange { .. } | State::Sparse { .. } | State::Match { .. } => true,
        State::Look { .. } | State::Union { .. } | State::Capture { .. } | State::Fail => false,
    }
}

/// Whether one of these states asks for look-around.
pub fn one_asks(states: &[State], list: &[StateID]) -> bool
    requires { AreBelow (length states.now) list.now }
    ensures { result ≡ asks states.now list.now }
{
    for state in list {
        if asks_for_look(&states[state.as_usize()]) {
            return true;
        }
    }
    false
}

/// Whether the state asks for look-around.
fn asks_for_look(state: &State) -> bool
    ensures { result ≡ is_look state.now }
{
    match state {
        State::Look { .. } => true,
        State::ByteRange { .. }
        | State::Sparse { .. }
        | State::Union { .. }
        | State::Capture { .. }
        | State::Fail
        | State::Match { .. } => { false }
    }
}

/// The pattern that the state accepts.
fn accepts(state: &State) -> Option<PatternID>
    ensures { result ≡ state_accepts state.now }
{
    match state {
        State::Match { pattern } => Some(*pattern),
        State::ByteRange { .. }
        | State::Sparse { .. }
        | State::Look { .. }
        | State::Union { .. }
        | State::Capture { .. }
        | State::Fail => None,
    }
}

/// The state that the byte leads to.
pub fn target(state: &State, byte: u8) -> Option<StateID>
    ensures { result ≡ target_of state.now byte }
{
    match state {
        State::ByteRange { start, end, next } => {
            if *start <= byte && byte <= *end {
                Some(*next)
            } else {
                None
            }
        }
        State::Sparse { transitions } => matches_byte(transitions.as_slice(), byte),
        State::Look { .. }
        | State::Union { .. }
        | State::Capture { .. }
        | State::Fail
        | State::Match { .. } => None,
    }
}

/// The pattern that the first of these states accepts that accepts one.
fn first_accepted(states: &[State], list: &[StateID]) -> Option<PatternID>
    requires { AreBelow (length states.now) list.now }
    ensures { result ≡ first_told (accepts_in states.now) list.now }
{
    for state in list {
        if let Some(pattern) = accepts(&states[state.as_usize()]) {
            return Some(pattern);
        }
    }
    None
}

/// How many states there are up to and with the first that accepts.
fn cut_len(states: &[State], list: &[StateID]) -> usize
    requires { AreBelow (length states.now) list.now }
    ensures count { take result list.now ≡ cut_of (accepts_in states.now) list.now }
    ensures within { result ≤ length list.now }
{
    for k in 0..list.len() {
        if accepts(&states[list[k].as_usize()]).is_some() {
            return k + 1;
        }
    }
    list.len()
}

/// Leaves the threads that count.
pub fn cut(kind: MatchKind, states: &[State], list: &mut Vec<StateID>)
    requires { AreBelow (length states.now) list.old.items }
    ensures { list.new.items ≡ counting_of kind states.now list.old.items }
{
    match kind {
        MatchKind::All => {}
        MatchKind::LeftmostFirst => {
            let len = cut_len(states, list.as_slice());
            list.truncate(len);
        }
    }
}

/// Whether the loop counts behind these threads, where it is there.
pub fn looping(kind: MatchKind, states: &[State], list: &[StateID], loops: bool) -> bool
    requires { AreBelow (length states.now) list.now }
    ensures { result ≡ looping_of kind states.now list.now loops }
{
    match kind {
        MatchKind::All => loops,
        MatchKind::LeftmostFirst => loops && first_accepted(states, list).is_none(),
    }
}

/// Appends to `into`, which is empty, the patterns that match where the threads stay in these states.
pub fn matching(
    kind: MatchKind,
    states: &[State],
    list: &[StateID],
    into: &mut Vec<PatternID>,
) -> Result<(), Memory>
    requires below { AreBelow (length states.now) list.now }
    requires empty { into.old.items ≡ [] }
    ensures { OnOk result (into.new.items ≡ matching_of kind states.now list.now) }
{
    match kind {
        MatchKind::All => accepted(states, list, into),
        MatchKind::LeftmostFirst => {
            if let Some(pattern) = first_accepted(states, list) {
                into.push(pattern)?;
            }
            Ok(())
        }
    }
}

/// Puts the patterns that these states accept into the empty list, ascending.
fn accepted(states: &[State], list: &[StateID], into: &mut Vec<PatternID>) -> Result<(), Memory>
    requires below { AreBelow (length states.now) list.now }
    requires empty { into.old.items ≡ [] }
    ensures { OnOk result (into.new.items ≡ accepted_by states.now list.now) }
{
    let mut left = list.len();
    while left > 0 {
        left -= 1;
        if let Some(pattern) = accepts(&states[list[left].as_usize()]) {
            insert_pattern(pattern, into)?;
        }
    }
    Ok(())
}

/// Puts the pattern into the ascending list, if it is not there.
fn insert_pattern(pattern: PatternID, list: &mut Vec<PatternID>) -> Result<(), Memory>
    ensures { OnOk result (list.new.items ≡ with_pattern pattern list.old.items) }
{
    for place in 0..list.len() {
        if list[place] == pattern {
            return Ok(());
        }
        if pattern < list[place] {
            list.insert(place, pattern)?;
            return Ok(());
        }
    }
    list.push(pattern)?;
    Ok(())
}

/// Appends to `into` the states that the byte leads to from these.
pub fn targets(
    states: &[State],
    list: &[StateID],
    byte: u8,
    into: &mut Vec<StateID>,
) -> Result<(), Memory>
    requires { AreBelow (length states.now) list.now }
    ensures { OnOk result (into.new.items ≡ into.old.items ++ targets_of states.now byte list.now) }
{
    for state in list {
        if let Some(next) = target(&states[state.as_usize()], byte) {
            into.push(next)?;
        }
    }
    Ok(())
}
