//! The search for the end of a match that begins with one of several needles.
ghost use Rattle.std.specs.Prelude.{◌≡◌, ◌≤◌, ◌+◌, ◌<◌, false, IfOk, IfSome, MatchOption, length, Some};
ghost use Rattle.std.specs.Result.{IfErr};
ghost use Rattle.rx_model.specs.Search.{Patterns, is_anchored};
ghost use Rattle.rx_search.specs.Matches.{half_match_value};
ghost use Rattle.rx_search.specs.Promise.{Premises};
ghost use Rattle.rx_search.specs.Told.{HalfLiesIn};
ghost use Rattle.rx_search.specs.declared.anchored.MatchKind.TheVariants.{LeftmostFirst};
ghost use Rattle.rx_nfa.specs.Nfa.{IsNfaOf};
ghost use Rattle.rx_dfa.specs.Candidates.{HasNoneBefore};
ghost use Rattle.rx_dfa.specs.Search.{SearchFails, IsForwardAnswer, IsAnswerFor, AreAllOrdered};

use crate::automaton::Automaton;
use crate::search::course::run_course;
use crate::search::stop::Stop;
use rx_prefilter::Prefilter;
use rx_search::{HalfMatch, Input, MatchError, Span, Steps};
use std::marker::Brand;
use std::sync::ledger::{Blank, Ledger};

/// The end of the next match in the input's span, with its pattern; with `earliest` that of some match, where there is one. The
/// automaton is one of an NFA that reads forwards, under leftmost-first, the search is not anchored, and each match begins with one
/// of the prefilter's needles.
///
/// It goes from candidate to candidate: it begins at the first place at which a needle lies, and where the automaton comes back to the
/// state at which it began, with nothing met, it goes on at the next such place. It never goes back behind a place that it passed,
/// but where matches end inside characters.
///
/// # Errors
///
/// Those of `try_search_half_fwd`.
pub fn try_search_half_fwd_by<A: Automaton>(
    dfa: &A,
    cache: &mut A::Cache,
    pre: &Prefilter,
    input: &Input<'_>,
) -> Result<Option<HalfMatch>, MatchError>
    requires fits { A.fits dfa.now cache.old }
    requires forward { (A.dfa dfa.now).nfa.reverse ≡ false }
    requires leftmost { (A.dfa dfa.now).kind ≡ LeftmostFirst }
    requires free { is_anchored input.now.anchor ≡ false }
    ensures told { (r : Patterns) → Premises (IsNfaOf (A.dfa dfa.now).nfa r) (Some pre.now) r input.now → AreAllOrdered r
        → IfOk result (IsAnswerFor (A.dfa dfa.now).kind r input.now half_match_value) }
    ensures within { IfOk result (λ found. IfSome found (HalfLiesIn input.now)) }
    ensures in_range { IfOk result (λ found. IfSome found (λ h. h.pattern < length (A.dfa dfa.now).nfa.starts)) }
    ensures err { IfErr result (SearchFails (A.dfa dfa.now).nfa input.now (A.gives_up dfa.now cache.new) (A.wants dfa.now)) }
    ensures fits { A.fits dfa.now cache.new }
{
    // An input's span lies in its haystack.
    let _haystack = input.haystack();
    find_end_by::<A, Brand>(Blank::new(1), dfa, cache, pre, input)
}

/// The same, counted on this ledger. Where a search records no match, one begins again behind the first end that lies inside a
/// character.
fn find_end_by<A: Automaton, L: Ledger>(
    blank: Blank,
    dfa: &A,
    cache: &mut A::Cache,
    pre: &Prefilter,
    input: &Input<'_>,
) -> Result<Option<HalfMatch>, MatchError>
    requires name { blank.name ≡ L.name }
    requires parts { blank.parts ≡ L.parts }
    requires some { 0 < blank.parts }
    requires fits { A.fits dfa.now cache.old }
    requires forward { (A.dfa dfa.now).nfa.reverse ≡ false }
    requires leftmost { (A.dfa dfa.now).kind ≡ LeftmostFirst }
    requires free { is_anchored input.now.anchor ≡ false }
    ensures answer { (r : Patterns) → Premises (IsNfaOf (A.dfa dfa.now).nfa r) (Some pre.now) r input.now → AreAllOrdered r
        → IfOk result (IsForwardAnswer (A.dfa dfa.now).nfa input.now) }
    ensures within { IfOk result (λ found. IfSome found (HalfLiesIn input.now)) }
    ensures in_range { IfOk result (λ found. IfSome found (λ h. h.pattern < length (A.dfa dfa.now).nfa.starts)) }
    ensures err { IfErr result (SearchFails (A.dfa dfa.now).nfa input.now (A.gives_up dfa.now cache.new) (A.wants dfa.now)) }
    ensures fits { A.fits dfa.now cache.new }
{
    // The place behind the last one fits a `usize`.
    let _haystack = input.haystack();
    let mut steps = Steps::<L>::open(blank);
    let mut rest = input.clone();
    'starts: while !rest.is_done() {
        let Some(candidate) = next_candidate(pre, &rest) else {
            return Ok(None);
        };
        rest.set_start(candidate);
        let stop = match run_course(dfa, cache, &rest, &mut steps) {
            Ok(stop) => stop,
            Err(error) => return Err(error),
        };
        let met = match stop {
            Stop::Met(met) => met,
            Stop::Back(place) => {
                rest.set_start(place);
                continue;
            }
        };
        if let Some(best) = met.best {
            return Ok(Some(best));
        }
        let Some(refused) = met.refused else {
            return Ok(None);
        };
        rest.set_start(refused + 1);
    }
    Ok(None)
}

/// The first place of the input's span at which a needle lies in it.
fn next_candidate(pre: &Prefilter, input: &Input<'_>) -> Option<usize>
    requires in_order { input.now.start ≤ input.now.end }
    ensures { MatchOption result (HasNoneBefore pre.now input.now input.now.start (input.now.end + 1))
        (λ place. (input.now.start ≤ place) × (place ≤ input.now.end) × HasNoneBefore pre.now input.now input.now.start place) }
{
    match pre.find(input.haystack(), input.get_span()) {
        Some(found) => Some(found.start),
        None => None,
    }
}
