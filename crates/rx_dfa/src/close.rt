//! The closure of a list of states: what they lead to before a byte is read.
ghost use Rattle.std.specs.Prelude.{◌≡◌, ℕ, ◌<◌, [], ◌++◌, length, reverse, All, OnOk};
ghost use Rattle.rx_nfa.specs.Automaton.{NamesBelow};
ghost use Rattle.rx_nfa.specs.Ordered.{AreBelow, close as closure, epsilon_successors};
ghost use Rattle.rx_dfa.specs.Beside.{known};

use crate::beside::Beside;
use crate::beside::tell::holds;
use crate::state_list::StateList;
use rx_nfa::State;
use rx_search::{LookMatcher, Memory, StateID};

/// What a closure is made with.
#[derive(Drop)]
pub struct Walk {
    /// The states to come, the next one last.
    pub stack: Vec<StateID>,
    /// The states that were come to.
    pub seen: StateList,
}

/// Comes to the states that these lead to before a byte is read, depth first and in order of preference, each once. They
/// are then the list of the walk.
pub fn close(
    states: &[State],
    matcher: &LookMatcher,
    beside: Beside,
    from: &[StateID],
    walk: &mut Walk,
) -> Result<(), Memory>
    requires names { All (NamesBelow (length states.now)) states.now }
    requires from { AreBelow (length states.now) from.now }
    requires room { length walk.old.seen.marks.items ≡ length states.now }
    ensures closed { OnOk result (walk.new.seen.items.items ≡ closure states.now (known matcher.now beside) (length states.now) from.now []) }
    ensures room { length walk.new.seen.marks.items ≡ length states.now }
{
    walk.seen.clear();
    walk.stack.clear();
    push_all(from, &mut walk.stack)?;
    while walk.seen.items.len() < states.len() {
        let Some(state) = walk.stack.pop() else {
            return Ok(());
        };
        if walk.seen.insert(state)? {
            go_on(&states[state.as_usize()], matcher, beside, &mut walk.stack)?;
        }
    }
    Ok(())
}

/// Puts these states on the stack, the first of them last.
fn push_all(states: &[StateID], stack: &mut Vec<StateID>) -> Result<(), Memory>
    ensures { OnOk result (reverse stack.new.items ≡ states.now ++ reverse stack.old.items) }
{
    let mut left = states.len();
    while left > 0 {
        left -= 1;
        stack.push(states[left])?;
    }
    Ok(())
}

/// Puts the states on the stack to which this one goes on at its place.
fn go_on(
    state: &State,
    matcher: &LookMatcher,
    beside: Beside,
    stack: &mut Vec<StateID>,
) -> Result<(), Memory>
    ensures { OnOk result (reverse stack.new.items
        ≡ epsilon_successors (known matcher.now beside) state.now ++ reverse stack.old.items) }
{
    match state {
        State::Look { look, next } => {
            if holds(beside, matcher, *look) {
                stack.push(*next)?;
            }
            Ok(())
        }
        State::Capture { next, .. } => {
            stack.push(*next)?;
            Ok(())
        }
        State::Union { alternates } => push_all(alternates.as_slice(), stack),
        State::ByteRange { .. } | State::Sparse { .. } | State::Fail | State::Match { .. } => Ok(
            (),
        ),
    }
}
