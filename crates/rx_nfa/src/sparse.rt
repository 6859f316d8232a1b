//! Where a byte leads by several transitions.
ghost use Rattle.std.specs.Prelude.{◌≡◌};
ghost use Rattle.rx_nfa.specs.Automaton.{route};

use crate::state::Transition;
use rx_search::StateID;

/// The state that the byte leads to; None where no transition has the byte.
pub fn matches_byte(transitions: &[Transition], byte: u8) -> Option<StateID>
    ensures { result ≡ route transitions.now byte }
{
    for transition in transitions {
        if transition.start <= byte && byte <= transition.end {
            return Some(transition.next);
        }
    }
    None
}
