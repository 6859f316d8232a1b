//! Searches for all patterns that have a match.
ghost use Rattle.std.specs.Prelude.{◌≡◌, ◌≤◌, length, false};

use crate::ask::Ask;
use crate::failure::Failure;
use crate::told::Told;
use rx_dfa::{Automaton, try_which_overlapping};
use rx_search::PatternSet;

/// Appends the patterns that the automaton puts into the set, and why the search came to no end, if it did not.
pub fn tell<A: Automaton>(
    ask: &Ask<'_>,
    dfa: &A,
    cache: &mut A::Cache,
    set: &mut PatternSet,
    told: &mut Told,
)
    requires fits { A.fits dfa.now cache.old }
    requires forward { (A.dfa dfa.now).nfa.reverse ≡ false }
    requires room { length (A.dfa dfa.now).nfa.starts ≤ length set.old }
{
    let Some(input) = ask.input(ask.input) else {
        told.refuse(Failure::Usage);
        return;
    };
    let ended = try_which_overlapping(dfa, cache, &input, set);
    told.tell_set(set);
    if let Err(error) = ended {
        told.tell_error(error);
    }
}
