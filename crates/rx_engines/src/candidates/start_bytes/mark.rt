//! What a walk over epsilon steps marks: the bytes that begin a run.

ghost use Rattle.std.specs.Prelude.{◌≡◌, ◌≤◌, ◌<◌, length, All, IfSome};
ghost use Rattle.rx_nfa.specs.Automaton.{NamesBelow};
ghost use Rattle.rx_engines.specs.StartBytes.{Marks, HasRange, BeginMarked};

use rx_nfa::{State, Transition};
use rx_search::StateID;

/// Marks each byte that can begin a run from this state, where look-arounds are taken as passing, by at most `left` looks
/// at states. Answers how many of these are left. None where a run can be empty, and where there were too few.
pub fn mark_from(
    states: &[State],
    state: StateID,
    left: usize,
    has: &mut [bool; 256],
) -> Option<usize>
    requires state { state < length states.now }
    requires names { All (NamesBelow (length states.now)) states.now }
    ensures marked { IfSome result (λ rest. (rest < left) × BeginMarked states.now has.new state) }
    ensures kept { Marks has.old has.new }
{
    if left == 0 {
        return None;
    }
    match &states[state.as_usize()] {
        State::ByteRange { start, end, .. } => {
            mark_range(*start, *end, has);
            Some(left - 1)
        }
        State::Sparse { transitions } => {
            mark_all(transitions.as_slice(), has);
            Some(left - 1)
        }
        State::Union { alternates } => {
            let alternates = alternates.as_slice();
            let mut rest = left - 1;
            for k in 0..alternates.len() {
                let Some(now) = mark_from(states, alternates[k], rest, has) else {
                    return None;
                };
                rest = now;
            }
            Some(rest)
        }
        State::Look { next, .. } => mark_from(states, *next, left - 1, has),
        State::Capture { next, .. } => mark_from(states, *next, left - 1, has),
        State::Fail => Some(left - 1),
        State::Match { .. } => None,
    }
}

/// Marks the bytes of the transitions.
fn mark_all(transitions: &[Transition], has: &mut [bool; 256])
    ensures marked { All (λ t. HasRange has.new t.start t.end) transitions.now }
    ensures kept { Marks has.old has.new }
{
    for k in 0..transitions.len() {
        mark_range(transitions[k].start, transitions[k].end, has);
    }
}

/// Marks the bytes from the first to the last.
fn mark_range(start: u8, end: u8, has: &mut [bool; 256])
    ensures marked { HasRange has.new start end }
    ensures kept { Marks has.old has.new }
{
    for byte in start as usize..end as usize + 1 {
        has[byte] = true;
    }
}
