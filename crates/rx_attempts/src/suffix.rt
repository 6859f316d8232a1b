//! An attempt by a literal at the end of each match.
ghost use Rattle.std.specs.Prelude.{◌≡◌, ◌≤◌, ◌<◌, ◌+◌, ◌*◌, ◌∷◌, [], List, ℕ, true, false, None, IfOk, OnOk, IfSome, length};
ghost use Rattle.std.specs.Result.{IfErr};
ghost use Rattle.rx_model.specs.Search.{Patterns, is_anchored};
ghost use Rattle.rx_search.specs.Input.{span_len};
ghost use Rattle.rx_search.specs.Matches.{match_value};
ghost use Rattle.rx_search.specs.Promise.{Premises};
ghost use Rattle.rx_search.specs.Told.{LiesIn, HalfLiesIn};
ghost use Rattle.rx_nfa.specs.Nfa.{IsNfaOf};
ghost use Rattle.rx_dfa.specs.Search.{IsAnswerFor};
ghost use Rattle.rx_dfa.specs.Automaton.{Dfa};
ghost use Rattle.rx_limited.specs.Calls.{calls_forwards};
ghost use Rattle.rx_limited.specs.Retry.{JustFails};
ghost use Rattle.rx_attempts.specs.Inputs.{from_start};
ghost use Rattle.rx_attempts.specs.Premises.{IsBySuffix};
ghost use Rattle.rx_attempts.specs.Refusals.{SuffixFails};
ghost use Rattle.rx_attempts.specs.Stops.{StopsBy};
ghost use Rattle.rx_attempts.specs.Whole.{IsWhole};
ghost use Rattle.rx_attempts.specs.Suffix.{FirstSuffix, BackFails};
ghost use Rattle.rx_attempts.specs.Counts.{HasCountedFirst, HasCountedBack};

use crate::parts::{match_or_stop, next_candidate, up_to};
use crate::patience::{FIRST, Patience, Stop, is_lost, left_after};
use rx_dfa::Automaton;
use rx_limited::{RetryError, rev_limited};
use rx_prefilter::Prefilter;
use rx_search::{HalfMatch, Input, Match, Steps};
use std::sync::ledger::Ledger;

/// The next match in the input's span of one expression with a suffix, before whose first confirmed candidate no match starts: the
/// span is searched for the suffix, backwards from each place where it lies, and forwards from the first start that is so found. With
/// `earliest` it is some match from that start, where there is a match. The first automaton reads forwards, and the second one
/// backwards, both of that expression. The search is for one needle, the suffix, and the input is not anchored.
///
/// A span of n bytes takes at most 8 * (n + 1) steps, whatever the automata are.
///
/// # Errors
///
/// `Quadratic` as by `rev_limited`, from a candidate before which none is confirmed: bytes under the end of the candidate before it
/// would be read again, or a later start was found than that of the span. `Fail` with the place at which an automaton quit, or gave
/// up; `Memory`. `Dense`, where the patience was short and is lost.
pub fn reverse_suffix_attempt<F: Automaton, B: Automaton, L: Ledger>(
    pre: &Prefilter,
    fwd: &F,
    fwd_cache: &mut F::Cache,
    rev: &B,
    rev_cache: &mut B::Cache,
    input: &Input<'_>,
    patience: Patience,
    steps: &mut Steps<L>,
) -> Result<Option<Match>, Stop>
    requires fwd_fits { F.fits fwd.now fwd_cache.old }
    requires rev_fits { B.fits rev.now rev_cache.old }
    requires forward { (F.dfa fwd.now).nfa.reverse ≡ false }
    requires reverse { (B.dfa rev.now).nfa.reverse ≡ true }
    requires free { is_anchored input.now.anchor ≡ false }
    requires suffix { (s : List ℕ) × (pre.now ≡ s ∷ []) × (0 < length s) }
    ensures answer { (r : Patterns) → IsNfaOf (F.dfa fwd.now).nfa r → IsBySuffix (B.dfa rev.now) pre.now r input.now
        → IfOk result (IsAnswerFor (F.dfa fwd.now).kind r input.now match_value) }
    ensures within { IfOk result (λ found. IfSome found (LiesIn input.now)) }
    ensures in_range { IfOk result (λ found. IfSome found (λ m. m.pattern < length (F.dfa fwd.now).nfa.starts)) }
    ensures err { IfErr result (StopsBy patience (SuffixFails (F.dfa fwd.now) (B.dfa rev.now) pre.now input.now (F.gives_up fwd.now fwd_cache.new)
        (F.wants fwd.now) (B.gives_up rev.now rev_cache.new) (B.wants rev.now))) }
    ensures ticks { input.now.earliest ≡ false
        → IfOk result (HasCountedFirst (F.dfa fwd.now) (B.dfa rev.now) pre.now input.now (λ s. s.end) steps.old steps.new) }
    ensures few { steps.new ≤ steps.old + 8 * (span_len input.now + 1) }
    ensures fwd_fits { F.fits fwd.now fwd_cache.new }
    ensures rev_fits { B.fits rev.now rev_cache.new }
{
    let _haystack = input.haystack();
    if input.is_done() {
        return Ok(None);
    }
    let begins = match first_start(pre, rev, rev_cache, input, patience, steps) {
        Ok(begins) => begins,
        Err(stop) => return Err(stop),
    };
    let Some(start) = begins else {
        return Ok(None);
    };
    match match_from(fwd, fwd_cache, input, start, steps) {
        Ok(found) => Ok(found),
        Err(error) => Err(Stop::Retry(error)),
    }
}

/// The start of the first candidate that is confirmed.
fn first_start<B: Automaton, L: Ledger>(
    pre: &Prefilter,
    rev: &B,
    rev_cache: &mut B::Cache,
    input: &Input<'_>,
    patience: Patience,
    steps: &mut Steps<L>,
) -> Result<Option<HalfMatch>, Stop>
    requires fits { B.fits rev.now rev_cache.old }
    requires reverse { (B.dfa rev.now).nfa.reverse ≡ true }
    requires suffix { (s : List ℕ) × (pre.now ≡ s ∷ []) × (0 < length s) }
    requires in_order { input.now.start ≤ input.now.end }
    ensures first { IfOk result (FirstSuffix (B.dfa rev.now) pre.now input.now) }
    ensures lies { IfOk result (λ found. IfSome found (HalfLiesIn input.now)) }
    ensures err { IfErr result (StopsBy patience (BackFails (B.dfa rev.now) pre.now input.now (B.gives_up rev.now rev_cache.new) (B.wants rev.now))) }
    ensures ticks { (fwd : Dfa) → IfOk result (HasCountedBack fwd (B.dfa rev.now) pre.now input.now (λ s. s.end) steps.old steps.new) }
    ensures few { steps.new ≤ steps.old + 4 * span_len input.now }
    ensures fits { B.fits rev.now rev_cache.new }
{
    let _haystack = input.haystack();
    let mut from = input.start();
    let mut min_start = 0;
    let mut left = FIRST;
    'candidates: while let Some(found) = next_candidate(pre, input, from) {
        left = left_after(left, found.start - from);
        if is_lost(patience, left) {
            return Err(Stop::Dense);
        }
        let part = up_to(input, found.end);
        let begins = match rev_limited(rev, rev_cache, &part, min_start, steps) {
            Ok(begins) => begins,
            Err(error) => return Err(Stop::Retry(error)),
        };
        if let Some(start) = begins {
            return Ok(Some(start));
        }
        min_start = found.end;
        from = found.start + 1;
    }
    Ok(None)
}

/// The match from this start.
fn match_from<F: Automaton, L: Ledger>(
    fwd: &F,
    fwd_cache: &mut F::Cache,
    input: &Input<'_>,
    start: HalfMatch,
    steps: &mut Steps<L>,
) -> Result<Option<Match>, RetryError>
    requires fits { F.fits fwd.now fwd_cache.old }
    requires forward { (F.dfa fwd.now).nfa.reverse ≡ false }
    requires lies { HalfLiesIn input.now start }
    ensures whole { (r : Patterns) → Premises (IsNfaOf (F.dfa fwd.now).nfa r) None r (from_start input.now start)
        → IfOk result (IsWhole (F.dfa fwd.now).kind r input.now start) }
    ensures within { IfOk result (λ found. IfSome found (LiesIn input.now)) }
    ensures in_range { IfOk result (λ found. IfSome found (λ m. m.pattern < length (F.dfa fwd.now).nfa.starts)) }
    ensures err { IfErr result (JustFails (F.dfa fwd.now).nfa input.now (F.gives_up fwd.now fwd_cache.new) (F.wants fwd.now)) }
    ensures begins { IfOk result (λ found. IfSome found (λ m. m.start ≡ start.offset)) }
    ensures ticks { input.now.earliest ≡ false → OnOk result (steps.new ≡ steps.old + calls_forwards (F.dfa fwd.now) (from_start input.now start)) }
    ensures most { steps.new ≤ steps.old + span_len input.now + 1 }
    ensures fits { F.fits fwd.now fwd_cache.new }
{
    match match_or_stop(fwd, fwd_cache, input, start, steps) {
        Ok(Ok(whole)) => Ok(Some(whole)),
        Ok(Err(_)) => Ok(None),
        Err(error) => Err(error),
    }
}
