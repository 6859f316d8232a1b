//! Searches for a start, by a DFA that reads backwards.
ghost use Rattle.std.specs.Prelude.{◌≡◌, true};

use crate::ask::Ask;
use crate::failure::Failure;
use crate::told::Told;
use rx_dfa::{Automaton, try_search_half_rev};

/// Appends the start that the automaton finds in the input.
pub fn tell<A: Automaton>(ask: &Ask<'_>, dfa: &A, cache: &mut A::Cache, told: &mut Told)
    requires fits { A.fits dfa.now cache.old }
    requires backward { (A.dfa dfa.now).nfa.reverse ≡ true }
{
    match ask.bound_input(ask.input) {
        Some(input) => told.tell_half(try_search_half_rev(dfa, cache, &input)),
        None => told.refuse(Failure::Usage),
    }
}
