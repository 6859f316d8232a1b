//! The search for the end of a match that tells where it stopped.
ghost use Rattle.std.specs.Prelude.{◌≡◌, ◌≤◌, ◌<◌, ◌+◌, ◌&&◌, true, false, None, is_some, IfOk, OnOk, IfSome, length};
ghost use Rattle.std.specs.Result.{IfErr};
ghost use Rattle.rx_model.specs.Search.{Patterns, is_anchored};
ghost use Rattle.rx_search.specs.Matches.{half_match_value};
ghost use Rattle.rx_search.specs.Promise.{Premises};
ghost use Rattle.rx_search.specs.Told.{HalfLiesIn};
ghost use Rattle.rx_search.specs.declared.anchored.MatchKind.TheVariants.{All, LeftmostFirst};
ghost use Rattle.rx_nfa.specs.Nfa.{IsNfaOf};
ghost use Rattle.rx_dfa.specs.Automaton.{IsSound};
ghost use Rattle.rx_dfa.specs.Search.{IsForwardAnswer, IsLastAnswer, IsAnswerFor};
ghost use Rattle.rx_limited.specs.Calls.{calls_forwards};
ghost use Rattle.rx_limited.specs.Retry.{JustFails};
ghost use Rattle.rx_limited.specs.Stopat.{stop_forwards, end_found, IsStopped};

use crate::parts::{byte_after, is_permitted_at, last_state, record, retry_of, retry_of_step};
use crate::retry_error::RetryError;
use rx_dfa::Automaton;
use rx_search::{HalfMatch, Input, Steps};
use std::sync::ledger::Ledger;

/// The end of a match from the start of the input's span, with its pattern; or the place at which the search stopped without one:
/// that of the byte after which there was nothing more to find, or the span's end. The automaton is one of an NFA that reads
/// forwards, and the input is anchored.
///
/// Under leftmost-first it is the end of the first match there. Under `All` it is the last place in the span at which any match
/// ends. With `earliest` it is the end of some match, where there is one.
///
/// # Errors
///
/// `Fail` with the place at which the automaton quit, or gave up; `Memory`.
pub fn fwd_stopat<A: Automaton, L: Ledger>(
    dfa: &A,
    cache: &mut A::Cache,
    input: &Input<'_>,
    steps: &mut Steps<L>,
) -> Result<Result<HalfMatch, usize>, RetryError>
    requires fits { A.fits dfa.now cache.old }
    requires forward { (A.dfa dfa.now).nfa.reverse ≡ false }
    requires anchored { is_anchored input.now.anchor ≡ true }
    ensures answer { (r : Patterns) → Premises (IsNfaOf (A.dfa dfa.now).nfa r) None r input.now → (A.dfa dfa.now).kind ≡ LeftmostFirst
        → IfOk result (λ told. IsForwardAnswer (A.dfa dfa.now).nfa input.now (end_found told)) }
    ensures last { (A.dfa dfa.now).kind ≡ All → IfOk result (λ told. IsLastAnswer (A.dfa dfa.now).nfa input.now (end_found told)) }
    ensures told { (r : Patterns) → Premises (IsNfaOf (A.dfa dfa.now).nfa r) None r input.now
        → IfOk result (λ told. IsAnswerFor (A.dfa dfa.now).kind r input.now half_match_value (end_found told)) }
    ensures stopped { IfOk result (λ told. IfErr told (λ place. place ≡ stop_forwards (A.dfa dfa.now) input.now)) }
    ensures within { IfOk result (λ told. IfSome (end_found told) (HalfLiesIn input.now)) }
    ensures in_range { IfOk result (λ told. IfSome (end_found told) (λ h. h.pattern < length (A.dfa dfa.now).nfa.starts)) }
    ensures err { IfErr result (JustFails (A.dfa dfa.now).nfa input.now (A.gives_up dfa.now cache.new) (A.wants dfa.now)) }
    ensures ticks { input.now.earliest ≡ false → OnOk result (steps.new ≡ steps.old + calls_forwards (A.dfa dfa.now) input.now) }
    ensures most { steps.new ≤ steps.old + calls_forwards (A.dfa dfa.now) input.now }
    ensures fits { A.fits dfa.now cache.new }
{
    let _haystack = input.haystack();
    if input.is_done() {
        return Ok(Err(input.end()));
    }
    match go_ahead(dfa, cache, input, steps) {
        Ok(reached) => Ok(end_or_place(reached.0, reached.1)),
        Err(error) => Err(error),
    }
}

/// The end that was found, or where the search stopped.
fn end_or_place(best: Option<HalfMatch>, place: usize) -> Result<HalfMatch, usize>
    ensures found { end_found result ≡ best }
    ensures stopped { IfErr result (λ at. (best ≡ None) × (at ≡ place)) }
{
    match best {
        Some(half) => Ok(half),
        None => Err(place),
    }
}

/// One search from the start of the input's span: the last end that it met by the span's end, or with `earliest` the first one,
/// and the place at which it stopped.
fn go_ahead<A: Automaton, L: Ledger>(
    dfa: &A,
    cache: &mut A::Cache,
    input: &Input<'_>,
    steps: &mut Steps<L>,
) -> Result<(Option<HalfMatch>, usize), RetryError>
    requires fits { A.fits dfa.now cache.old }
    requires in_order { input.now.start ≤ input.now.end }
    requires forward { (A.dfa dfa.now).nfa.reverse ≡ false }
    ensures sound { IsSound (A.dfa dfa.now) }
    ensures stopped { IfOk result (IsStopped (A.dfa dfa.now) input.now steps.old steps.new) }
    ensures err { IfErr result (JustFails (A.dfa dfa.now).nfa input.now (A.gives_up dfa.now cache.new) (A.wants dfa.now)) }
    ensures most { steps.new ≤ steps.old + calls_forwards (A.dfa dfa.now) input.now }
    ensures fits { A.fits dfa.now cache.new }
{
    let haystack = input.haystack();
    let end = input.end();
    let utf8 = dfa.is_utf8();
    let mut best = None;
    let mut at = input.start();
    let mut state = match dfa.start_forward(cache, input) {
        Ok(state) => state,
        Err(error) => return Err(retry_of(error)),
    };
    if dfa.is_dead(cache, state) {
        return Ok((None, at));
    }
    'bytes: while at < end {
        state = match dfa.next_state(cache, state, haystack[at], steps) {
            Ok(next) => next,
            Err(error) => return Err(retry_of_step(error, at, at)),
        };
        if !dfa.is_special(cache, state) {
            at += 1;
            continue;
        }
        let may = is_permitted_at(utf8, haystack, at);
        best = record(dfa, cache, state, may, at, best);
        if dfa.is_dead(cache, state) {
            return Ok((best, at));
        }
        if is_enough(&best, input.get_earliest()) {
            return Ok((best, at));
        }
        at += 1;
    }
    let byte = byte_after(haystack, end);
    let last = match last_state(dfa, cache, state, byte, steps) {
        Ok(last) => last,
        Err(error) => return Err(retry_of_step(error, end, end)),
    };
    let may_end = is_permitted_at(utf8, haystack, end);
    let found = record(dfa, cache, last, may_end, end, best);
    Ok((found, end))
}

/// Whether the search may stop at the first match, and there is one.
fn is_enough(best: &Option<HalfMatch>, earliest: bool) -> bool
    ensures { result ≡ (earliest && is_some best.now) }
{
    earliest && best.is_some()
}
