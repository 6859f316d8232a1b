//! An attempt by literals that lie within each match.
ghost use Rattle.std.specs.Prelude.{◌≡◌, ◌≤◌, ◌<◌, ◌+◌, ◌*◌, List, ℕ, true, false, IfOk, IfSome, length};
ghost use Rattle.std.specs.Result.{IfErr};
ghost use Rattle.rx_model.specs.Search.{Patterns, is_anchored};
ghost use Rattle.rx_search.specs.Input.{span_len};
ghost use Rattle.rx_search.specs.Matches.{match_value};
ghost use Rattle.rx_search.specs.Told.{LiesIn};
ghost use Rattle.rx_nfa.specs.Nfa.{IsNfaOf};
ghost use Rattle.rx_dfa.specs.Search.{IsAnswerFor};
ghost use Rattle.rx_attempts.specs.Candidates.{AreNotEmpty};
ghost use Rattle.rx_attempts.specs.Premises.{IsByInner};
ghost use Rattle.rx_attempts.specs.Refusals.{InnerFails};
ghost use Rattle.rx_attempts.specs.Stops.{StopsBy};
ghost use Rattle.rx_attempts.specs.Whole.{match_found};
ghost use Rattle.rx_attempts.specs.Inner.{IsTurn, IsTried, TakesFew};
ghost use Rattle.rx_attempts.specs.Counts.{HasCounted, HasTried};

use crate::parts::{match_or_stop, next_candidate, up_to};
use crate::patience::{FIRST, Patience, Stop, is_lost, left_after};
use rx_dfa::Automaton;
use rx_limited::{Quadratic, RetryError, rev_limited};
use rx_prefilter::Prefilter;
use rx_search::{Input, Match, Span, Steps};
use std::sync::ledger::Ledger;

/// The next match in the input's span of one expression with a prefix and literals behind it, before whose first confirmed candidate no
/// match starts: the span is searched for the literals, backwards from each place where one lies for the start that the prefix has, and
/// forwards from there. With `earliest` it is some match from the start of the next one, where there is a match. The first automaton
/// reads that expression forwards, and the second one reads the prefix backwards, also from inside a character. The search is for the
/// literals, which have a byte each, and the input is not anchored.
///
/// A span of n bytes takes at most 8 * (n + 1) steps, whatever the automata are.
///
/// # Errors
///
/// `Quadratic` from a candidate before which none is confirmed: as by `rev_limited`, where bytes under the end of the candidate before
/// it would be read again, or a later start was found than that of the span; and where the candidate lies before the place at which the
/// last search forwards stopped. `Fail` with the place at which an automaton quit, or gave up; `Memory`. `Dense`, where the patience was
/// short and is lost.
pub fn reverse_inner_attempt<F: Automaton, B: Automaton, L: Ledger>(
    pre: &Prefilter,
    fwd: &F,
    fwd_cache: &mut F::Cache,
    rev: &B,
    rev_cache: &mut B::Cache,
    input: &Input<'_>,
    patience: Patience,
    steps: &mut Steps<L>,
) -> Result<Option<Match>, Stop>
    requires fwd_fits { F.fits fwd.now fwd_cache.old }
    requires rev_fits { B.fits rev.now rev_cache.old }
    requires forward { (F.dfa fwd.now).nfa.reverse ≡ false }
    requires reverse { (B.dfa rev.now).nfa.reverse ≡ true }
    requires free { is_anchored input.now.anchor ≡ false }
    requires needles { AreNotEmpty pre.now }
    ensures answer { (r : Patterns) → IsNfaOf (F.dfa fwd.now).nfa r → IsByInner (B.dfa rev.now) pre.now r input.now
        → IfOk result (IsAnswerFor (F.dfa fwd.now).kind r input.now match_value) }
    ensures within { IfOk result (λ found. IfSome found (LiesIn input.now)) }
    ensures in_range { IfOk result (λ found. IfSome found (λ m. m.pattern < length (F.dfa fwd.now).nfa.starts)) }
    ensures err { IfErr result (StopsBy patience (InnerFails (F.dfa fwd.now) (B.dfa rev.now) pre.now input.now (F.gives_up fwd.now fwd_cache.new)
        (F.wants fwd.now) (B.gives_up rev.now rev_cache.new) (B.wants rev.now))) }
    ensures ticks { input.now.earliest ≡ false
        → IfOk result (HasCounted (F.dfa fwd.now) (B.dfa rev.now) pre.now input.now (λ s. s.start) steps.old steps.new) }
    ensures few { steps.new ≤ steps.old + 8 * (span_len input.now + 1) }
    ensures fwd_fits { F.fits fwd.now fwd_cache.new }
    ensures rev_fits { B.fits rev.now rev_cache.new }
{
    let _haystack = input.haystack();
    if input.is_done() {
        return Ok(None);
    }
    let mut from = input.start();
    let mut min_start = 0;
    let mut stopped = 0;
    let mut left = FIRST;
    'candidates: while let Some(found) = next_candidate(pre, input, from) {
        left = left_after(left, found.start - from);
        if is_lost(patience, left) {
            return Err(Stop::Dense);
        }
        let guards = Guards { min_start, stopped };
        let tried = match try_candidate(
            fwd, fwd_cache, rev, rev_cache, input, found, guards, steps,
        ) {
            Ok(tried) => tried,
            Err(error) => return Err(Stop::Retry(error)),
        };
        stopped = match tried {
            Ok(whole) => return Ok(Some(whole)),
            Err(place) => place,
        };
        min_start = found.end;
        from = found.start + 1;
    }
    Ok(None)
}

/// What the candidates before leave for the next one.
#[derive(Clone, Copy)]
struct Guards {
    /// Under this place nothing is read backwards again.
    min_start: usize,
    /// Where the last search forwards stopped.
    stopped: usize,
}

/// The match that the candidate leads to; or where the last search forwards stopped that found none.
fn try_candidate<F: Automaton, B: Automaton, L: Ledger>(
    fwd: &F,
    fwd_cache: &mut F::Cache,
    rev: &B,
    rev_cache: &mut B::Cache,
    input: &Input<'_>,
    found: Span,
    guards: Guards,
    steps: &mut Steps<L>,
) -> Result<Result<Match, usize>, RetryError>
    requires fwd_fits { F.fits fwd.now fwd_cache.old }
    requires rev_fits { B.fits rev.now rev_cache.old }
    requires forward { (F.dfa fwd.now).nfa.reverse ≡ false }
    requires reverse { (B.dfa rev.now).nfa.reverse ≡ true }
    requires low { input.now.start ≤ found.start }
    requires high { found.start ≤ input.now.end }
    requires stopped { guards.stopped ≤ input.now.end }
    ensures tried { (needles : List (List ℕ)) → AreNotEmpty needles
        → IsTurn (F.dfa fwd.now) (B.dfa rev.now) needles input.now found guards.min_start guards.stopped
        → IfOk result (IsTried (F.dfa fwd.now) (B.dfa rev.now) needles input.now found guards.stopped) }
    ensures guard { IfOk result (λ told. guards.stopped ≤ found.start) }
    ensures stops { IfOk result (λ told. IfErr told (λ place. place ≤ input.now.end)) }
    ensures within { IfOk result (λ told. IfSome (match_found told) (LiesIn input.now)) }
    ensures in_range { IfOk result (λ told. IfSome (match_found told) (λ m. m.pattern < length (F.dfa fwd.now).nfa.starts)) }
    ensures err { (needles : List (List ℕ)) → IsTurn (F.dfa fwd.now) (B.dfa rev.now) needles input.now found guards.min_start guards.stopped
        → IfErr result (InnerFails (F.dfa fwd.now) (B.dfa rev.now) needles input.now (F.gives_up fwd.now fwd_cache.new) (F.wants fwd.now)
        (B.gives_up rev.now rev_cache.new) (B.wants rev.now)) }
    ensures ticks { (needles : List (List ℕ)) → input.now.earliest ≡ false
        → IfOk result (HasTried (F.dfa fwd.now) (B.dfa rev.now) needles input.now (λ s. s.start) found guards.min_start guards.stopped
        steps.old steps.new) }
    ensures few { IfOk result (λ told. IfErr told (λ place. TakesFew input.now found.start guards.min_start steps.old steps.new place)) }
    ensures most { steps.new ≤ steps.old + 2 * span_len input.now + 2 }
    ensures fwd_fits { F.fits fwd.now fwd_cache.new }
    ensures rev_fits { B.fits rev.now rev_cache.new }
{
    let _haystack = input.haystack();
    if found.start < guards.stopped {
        return Err(RetryError::Quadratic(Quadratic::Candidate {
            start: found.start,
            stopped: guards.stopped,
        }));
    }
    let part = up_to(input, found.start);
    let begins = match rev_limited(rev, rev_cache, &part, guards.min_start, steps) {
        Ok(begins) => begins,
        Err(error) => return Err(error),
    };
    match begins {
        Some(start) => match_or_stop(fwd, fwd_cache, input, start, steps),
        None => Ok(Err(guards.stopped)),
    }
}
