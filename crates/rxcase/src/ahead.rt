//! Searches for an end, by a DFA that reads forwards.
ghost use Rattle.std.specs.Prelude.{◌≡◌, false};

use crate::ask::Ask;
use crate::compile::prefilter;
use crate::failure::Failure;
use crate::told::Told;
use rx_dfa::{Automaton, try_search_half_fwd, try_search_half_fwd_by};
use rx_prefilter::Prefilter;
use rx_search::MatchKind;
use std::alloc::Global;

/// Appends the end that the automaton finds in the input, from candidate to candidate if there is a prefilter.
pub fn tell<A: Automaton>(
    alloc: Global,
    ask: &Ask<'_>,
    dfa: &A,
    cache: &mut A::Cache,
    told: &mut Told,
)
    requires fits { A.fits dfa.now cache.old }
    requires forward { (A.dfa dfa.now).nfa.reverse ≡ false }
{
    match prefilter(alloc, ask) {
        Ok(Some(pre)) => tell_by(ask, dfa, cache, &pre, told),
        Ok(None) => tell_all(ask, dfa, cache, told),
        Err(_) => told.refuse(Failure::Memory),
    }
}

/// Appends the end in the input.
fn tell_all<A: Automaton>(ask: &Ask<'_>, dfa: &A, cache: &mut A::Cache, told: &mut Told)
    requires fits { A.fits dfa.now cache.old }
    requires forward { (A.dfa dfa.now).nfa.reverse ≡ false }
{
    match ask.input(ask.input) {
        Some(input) => told.tell_half(try_search_half_fwd(dfa, cache, &input)),
        None => told.refuse(Failure::Usage),
    }
}

/// Appends the end in the input, from candidate to candidate.
fn tell_by<A: Automaton>(
    ask: &Ask<'_>,
    dfa: &A,
    cache: &mut A::Cache,
    pre: &Prefilter,
    told: &mut Told,
)
    requires fits { A.fits dfa.now cache.old }
    requires forward { (A.dfa dfa.now).nfa.reverse ≡ false }
{
    let Some(input) = ask.free_input(ask.input) else {
        told.refuse(Failure::Usage);
        return;
    };
    match dfa.match_kind() {
        MatchKind::LeftmostFirst => {
            told.tell_half(try_search_half_fwd_by(dfa, cache, pre, &input));
        }
        MatchKind::All => told.refuse(Failure::Usage),
    }
}
