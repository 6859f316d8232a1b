//! Rows of transitions, and the states that have them.
ghost use Rattle.std.specs.Prelude.{◌≡◌, ◌<◌, ◌+◌, ℕ, length, IfOk, OnOk, Some, if◌then◌else◌, ◌==◌};
ghost use Rattle.rx_search.specs.Limits.{id_limit};
ghost use Rattle.rx_nfa.specs.Automaton.{route};
ghost use Rattle.rx_nfa.specs.Row.{reading, Ascends, IsReader, RoutesBelow, AddsReaders};
ghost use Rattle.rx_nfa.specs.States.{AreClosed};

use crate::state::{State, Transition, Transitions};
use rx_search::{Memory, StateID};

/// Lets the byte lead to the target, if there is one. The transitions so far are on lesser bytes.
pub fn add_target(
    row: &mut Vec<Transition>,
    byte: u8,
    target: Option<StateID>,
) -> Result<(), Memory>
    requires { Ascends 0 byte row.old.items }
    ensures ascends { OnOk result (Ascends 0 (byte + 1) row.new.items) }
    ensures routes { OnOk result ((b : ℕ) → route row.new.items b ≡ (if b == byte then target else route row.old.items b)) }
{
    match target {
        None => Ok(()),
        Some(next) => extend_or_push(row, byte, next),
    }
}

fn extend_or_push(row: &mut Vec<Transition>, byte: u8, next: StateID) -> Result<(), Memory>
    requires { Ascends 0 byte row.old.items }
    ensures ascends { OnOk result (Ascends 0 (byte + 1) row.new.items) }
    ensures routes { OnOk result ((b : ℕ) → route row.new.items b ≡ (if b == byte then Some next else route row.old.items b)) }
{
    if row.len() > 0 {
        let last = row.len() - 1;
        let before = row[last];
        if before.next == next && before.end + 1 == byte {
            row[last].end = byte;
            return Ok(());
        }
    }
    row.push(Transition {
        start: byte,
        end: byte,
        next,
    })?;
    Ok(())
}

/// The state that has these transitions.
pub fn reader(row: Vec<Transition>) -> State
    ensures { reading result ≡ Some row.items }
{
    match row.len() {
        0 => State::Fail,
        1 => {
            let Transition { start, end, next } = row[0];
            State::ByteRange { start, end, next }
        }
        _ => State::Sparse {
            transitions: Transitions::new(row),
        },
    }
}

/// Appends the state that has these transitions, and returns its number.
pub fn push_reader(states: &mut Vec<State>, row: Vec<Transition>) -> Result<StateID, Memory>
    requires ascends { Ascends 0 256 row.items }
    requires room { length states.old.items < id_limit }
    ensures is { IfOk result (λ q. q ≡ length states.old.items) }
    ensures reads { IfOk result (λ q. IsReader (length states.old.items) states.new.items q row.items) }
    ensures grows { OnOk result (AddsReaders states.old.items states.new.items) }
    ensures count { OnOk result (length states.new.items ≡ length states.old.items + 1) }
    ensures closed { OnOk result (RoutesBelow (length states.old.items) row.items → AreClosed states.old.items → AreClosed states.new.items) }
{
    let id = StateID::new(states.len()).unwrap();
    let state = reader(row);
    states.push(state)?;
    Ok(id)
}
