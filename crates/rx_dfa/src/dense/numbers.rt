//! The numbers of states while the table is made, and those that they have at the end.
ghost use Rattle.std.specs.Prelude.{◌≡◌, ◌<◌, ◌^◌, IfSome};
ghost use Rattle.rx_dfa.specs.Numbers.{settled};

use rx_search::StateID;

/// While the table is made, the states of the second sort are numbered from here on.
pub const SECOND: usize = 1 << 30;

/// The state in which the automaton quits. It has no row.
pub const QUIT: StateID = StateID::MAX;

/// The number that a state has at the end, where so many cells stand before the rows of the second sort.
pub fn settle(state: StateID, first: usize) -> Option<StateID>
    requires { first < 2 ^ 63 }
    ensures { IfSome result (λ s. s ≡ settled first state) }
{
    let number = state.as_usize();
    if number < SECOND {
        return Some(state);
    }
    if state == QUIT {
        return Some(state);
    }
    StateID::new(number - SECOND + first)
}
