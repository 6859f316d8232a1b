//! The search for the end of a match, from the start of a span.
ghost use Rattle.std.specs.Prelude.{◌≡◌, ◌≤◌, ◌+◌, ◌-◌, ◌<◌, ℕ, false, None, IfOk, IfSome, length, slice_index};
ghost use Rattle.std.specs.Result.{IfErr};
ghost use Rattle.rx_model.specs.Search.{Patterns, is_anchored};
ghost use Rattle.rx_search.specs.Input.{InputValue, IsSpanned};
ghost use Rattle.rx_search.specs.Matches.{half_match_value};
ghost use Rattle.rx_search.specs.Promise.{Premises};
ghost use Rattle.rx_search.specs.Told.{HalfLiesIn};
ghost use Rattle.rx_search.specs.declared.anchored.MatchKind.TheVariants.{All, LeftmostFirst};
ghost use Rattle.rx_nfa.specs.Nfa.{IsNfaOf};
ghost use Rattle.rx_determinize.specs.Key.{Key, is_dead};
ghost use Rattle.rx_dfa.specs.Automaton.{IsSound};
ghost use Rattle.rx_dfa.specs.Course.{IsMetForwards, IsPassed};
ghost use Rattle.rx_dfa.specs.Search.{SearchFails, IsForwardAnswer, IsLastAnswer, IsAnswerFor};

use crate::automaton::Automaton;
use crate::search::parts::{
    byte_after, is_permitted_at, last_state, place_error, record, tells_every,
};
use crate::search::progress::Met;
use rx_search::{HalfMatch, Input, MatchError, StateID, Steps};
use std::marker::Brand;
use std::sync::ledger::{Blank, Ledger};

/// The end of a match in the input's span, with its pattern. The automaton is one of an NFA that reads forwards.
///
/// Under leftmost-first it is that of the next match, and with `earliest` the end of some match, where there is one. Under `All`
/// it is the last place in the span, of those at which a match may end, at which any match ends, with the least pattern of a match
/// that ends there; and with `earliest` the end of some match, where there is one.
///
/// # Errors
///
/// `Quit` with a byte above 7F in the span or directly beside it, and its place, where the NFA asks for words of Unicode;
/// `GaveUp` and `Memory` for the automaton's own reasons.
pub fn try_search_half_fwd<A: Automaton>(
    dfa: &A,
    cache: &mut A::Cache,
    input: &Input<'_>,
) -> Result<Option<HalfMatch>, MatchError>
    requires fits { A.fits dfa.now cache.old }
    requires forward { (A.dfa dfa.now).nfa.reverse ≡ false }
    ensures answer { (r : Patterns) → Premises (IsNfaOf (A.dfa dfa.now).nfa r) None r input.now → (A.dfa dfa.now).kind ≡ LeftmostFirst
        → IfOk result (IsForwardAnswer (A.dfa dfa.now).nfa input.now) }
    ensures last { (A.dfa dfa.now).kind ≡ All → IfOk result (IsLastAnswer (A.dfa dfa.now).nfa input.now) }
    ensures told { (r : Patterns) → Premises (IsNfaOf (A.dfa dfa.now).nfa r) None r input.now
        → IfOk result (IsAnswerFor (A.dfa dfa.now).kind r input.now half_match_value) }
    ensures within { IfOk result (λ found. IfSome found (HalfLiesIn input.now)) }
    ensures in_range { IfOk result (λ found. IfSome found (λ h. h.pattern < length (A.dfa dfa.now).nfa.starts)) }
    ensures err { IfErr result (SearchFails (A.dfa dfa.now).nfa input.now (A.gives_up dfa.now cache.new) (A.wants dfa.now)) }
    ensures fits { A.fits dfa.now cache.new }
{
    // An input's span lies in its haystack.
    let _haystack = input.haystack();
    find_end::<A, Brand>(Blank::new(1), dfa, cache, input)
}

/// The same, counted on this ledger: where a search records no match, one begins again behind the first end that lies inside a
/// character. Under `All` none begins again, since the first one told every end.
#[inline(never)]
fn find_end<A: Automaton, L: Ledger>(
    blank: Blank,
    dfa: &A,
    cache: &mut A::Cache,
    input: &Input<'_>,
) -> Result<Option<HalfMatch>, MatchError>
    requires name { blank.name ≡ L.name }
    requires parts { blank.parts ≡ L.parts }
    requires some { 0 < blank.parts }
    requires fits { A.fits dfa.now cache.old }
    requires forward { (A.dfa dfa.now).nfa.reverse ≡ false }
    ensures answer { (r : Patterns) → Premises (IsNfaOf (A.dfa dfa.now).nfa r) None r input.now → (A.dfa dfa.now).kind ≡ LeftmostFirst
        → IfOk result (IsForwardAnswer (A.dfa dfa.now).nfa input.now) }
    ensures last { (A.dfa dfa.now).kind ≡ All → IfOk result (IsLastAnswer (A.dfa dfa.now).nfa input.now) }
    ensures within { IfOk result (λ found. IfSome found (HalfLiesIn input.now)) }
    ensures in_range { IfOk result (λ found. IfSome found (λ h. h.pattern < length (A.dfa dfa.now).nfa.starts)) }
    ensures err { IfErr result (SearchFails (A.dfa dfa.now).nfa input.now (A.gives_up dfa.now cache.new) (A.wants dfa.now)) }
    ensures fits { A.fits dfa.now cache.new }
{
    // The place behind the last one fits a `usize`.
    let _haystack = input.haystack();
    let mut steps = Steps::<L>::open(blank);
    let mut rest = input.clone();
    'starts: while !rest.is_done() {
        let met = match run_forward(dfa, cache, &rest, &mut steps) {
            Ok(met) => met,
            Err(error) => return Err(error),
        };
        if let Some(best) = met.best {
            return Ok(Some(best));
        }
        if rest.get_anchored().is_anchored() {
            return Ok(None);
        }
        if tells_every(dfa.match_kind()) {
            return Ok(None);
        }
        let Some(refused) = met.refused else {
            return Ok(None);
        };
        rest.set_start(refused + 1);
    }
    Ok(None)
}

/// One search from the start of the input's span: what it met by the span's end, or with `earliest` by the first match.
#[inline(always)]
fn run_forward<A: Automaton, L: Ledger>(
    dfa: &A,
    cache: &mut A::Cache,
    input: &Input<'_>,
    steps: &mut Steps<L>,
) -> Result<Met, MatchError>
    requires fits { A.fits dfa.now cache.old }
    requires in_order { input.now.start ≤ input.now.end }
    requires forward { (A.dfa dfa.now).nfa.reverse ≡ false }
    ensures sound { IsSound (A.dfa dfa.now) }
    ensures met { IfOk result (IsMetForwards (A.dfa dfa.now) input.now) }
    ensures err { IfErr result (SearchFails (A.dfa dfa.now).nfa input.now (A.gives_up dfa.now cache.new) (A.wants dfa.now)) }
    ensures fits { A.fits dfa.now cache.new }
{
    let haystack = input.haystack();
    let end = input.end();
    let utf8 = dfa.is_utf8();
    let mut met = Met::new();
    let mut state = match dfa.start_forward(cache, input) {
        Ok(state) => state,
        Err(error) => return Err(error),
    };
    if dfa.is_dead(cache, state) {
        return Ok(met);
    }
    let mut at = input.start();
    'bytes: while at < end {
        let (next, place) = match ahead(dfa, cache, state, haystack, at, end, steps) {
            Ok(passed) => passed,
            Err(error) => return Err(error),
        };
        state = next;
        at = place;
        if at == end {
            continue;
        }
        let may = is_permitted_at(utf8, haystack, at);
        met = record(dfa, cache, state, may, at, met);
        if dfa.is_dead(cache, state) {
            return Ok(met);
        }
        if met.is_enough(input.get_earliest()) {
            return Ok(met);
        }
        at += 1;
    }
    let byte = byte_after(haystack, end);
    let last = match last_state(dfa, cache, state, byte, end, end, steps) {
        Ok(last) => last,
        Err(error) => return Err(error),
    };
    let may_end = is_permitted_at(utf8, haystack, end);
    let all = record(dfa, cache, last, may_end, end, met);
    Ok(all)
}

/// Goes on from this state at the place `from`: over plain states to the end, or to the first byte that does not lead to one. Answers
/// the state at the end, or behind that byte, with the place of the byte. From a state that is not plain it goes over one byte.
#[inline(always)]
fn ahead<A: Automaton, L: Ledger>(
    dfa: &A,
    cache: &mut A::Cache,
    state: StateID,
    haystack: &[u8],
    from: usize,
    end: usize,
    steps: &mut Steps<L>,
) -> Result<(StateID, usize), MatchError>
    requires fits { A.fits dfa.now cache.old }
    requires held { (key : Key) × A.holds dfa.now cache.old state key }
    requires some { from < end }
    requires within { end ≤ length haystack.now }
    ensures passed { (key : Key) → A.holds dfa.now cache.old state key → is_dead key ≡ false
        → IfOk result (λ p. IsPassed (A.holds dfa.now cache.new) (A.dfa dfa.now) (λ i. slice_index haystack.now (from + i)) key (p.1 - from) (end - from) p.0) }
    ensures between { IfOk result (λ p. (from ≤ p.1) × (p.1 ≤ end)) }
    ensures err { (v : InputValue) → v.haystack ≡ haystack.now → v.start ≤ from → end ≤ v.end
        → IfErr result (SearchFails (A.dfa dfa.now).nfa v (A.gives_up dfa.now cache.new) (A.wants dfa.now)) }
    ensures fits { A.fits dfa.now cache.new }
{
    if dfa.is_special(cache, state) {
        return match dfa.next_state(cache, state, haystack[from], steps) {
            Ok(next) => Ok((next, from)),
            Err(error) => Err(place_error(error, from, from)),
        };
    }
    pass(dfa, cache, state, haystack, from, end, steps)
}

/// The same from a plain state. So the compiler knows of each state from which this loop steps that it is plain.
#[inline(always)]
fn pass<A: Automaton, L: Ledger>(
    dfa: &A,
    cache: &mut A::Cache,
    state: StateID,
    haystack: &[u8],
    from: usize,
    end: usize,
    steps: &mut Steps<L>,
) -> Result<(StateID, usize), MatchError>
    requires fits { A.fits dfa.now cache.old }
    requires held { (key : Key) × A.holds dfa.now cache.old state key }
    requires some { from < end }
    requires within { end ≤ length haystack.now }
    ensures passed { (key : Key) → A.holds dfa.now cache.old state key → is_dead key ≡ false
        → IfOk result (λ p. IsPassed (A.holds dfa.now cache.new) (A.dfa dfa.now) (λ i. slice_index haystack.now (from + i)) key (p.1 - from) (end - from) p.0) }
    ensures between { IfOk result (λ p. (from ≤ p.1) × (p.1 ≤ end)) }
    ensures err { (v : InputValue) → v.haystack ≡ haystack.now → v.start ≤ from → end ≤ v.end
        → IfErr result (SearchFails (A.dfa dfa.now).nfa v (A.gives_up dfa.now cache.new) (A.wants dfa.now)) }
    ensures fits { A.fits dfa.now cache.new }
{
    let mut here = state;
    let mut at = from;
    'plain: while at < end {
        let next = match dfa.next_state(cache, here, haystack[at], steps) {
            Ok(next) => next,
            Err(error) => return Err(place_error(error, at, at)),
        };
        if dfa.is_special(cache, next) {
            return Ok((next, at));
        }
        here = next;
        at += 1;
    }
    Ok((here, at))
}
