//! The search for the start of a match, from the end of a span.
ghost use Rattle.std.specs.Prelude.{◌≡◌, ◌≤◌, ◌<◌, ◌-◌, ℕ, suc, true, false, None, IfOk, IfSome, length, slice_index};
ghost use Rattle.std.specs.Result.{IfErr};
ghost use Rattle.rx_model.specs.Search.{Patterns, is_anchored};
ghost use Rattle.rx_search.specs.Told.{HalfLiesIn};
ghost use Rattle.rx_search.specs.declared.anchored.MatchKind.TheVariants.{All};
ghost use Rattle.rx_nfa.specs.Nfa.{HasReverseRuns};
ghost use Rattle.rx_search.specs.Input.{InputValue};
ghost use Rattle.rx_determinize.specs.Key.{Key, is_dead};
ghost use Rattle.rx_dfa.specs.Automaton.{IsSound};
ghost use Rattle.rx_dfa.specs.Course.{IsMetBackwards, IsPassed};
ghost use Rattle.rx_dfa.specs.Search.{SearchFails, IsReverseAnswer};

use crate::automaton::Automaton;
use crate::search::parts::{
    byte_before, is_permitted_at, last_state, place_before, place_error, record,
};
use crate::search::progress::Met;
use rx_search::{HalfMatch, Input, MatchError, StateID, Steps};
use std::marker::Brand;
use std::sync::ledger::{Blank, Ledger};

/// The least start in the input's span of a part up to its end that a pattern means, and the least such pattern. The automaton is
/// one of an NFA that reads backwards, under `All`, and the input is anchored. With `earliest` it is any such start.
///
/// # Errors
///
/// `Quit` with a byte above 7F in the span or directly beside it, and its place, where the NFA asks for words of Unicode;
/// `GaveUp` and `Memory` for the automaton's own reasons.
pub fn try_search_half_rev<A: Automaton>(
    dfa: &A,
    cache: &mut A::Cache,
    input: &Input<'_>,
) -> Result<Option<HalfMatch>, MatchError>
    requires fits { A.fits dfa.now cache.old }
    requires reverse { (A.dfa dfa.now).nfa.reverse ≡ true }
    requires anchored { is_anchored input.now.anchor ≡ true }
    ensures answer { (r : Patterns) → HasReverseRuns (A.dfa dfa.now).nfa r → (A.dfa dfa.now).kind ≡ All
        → IfOk result (IsReverseAnswer (A.dfa dfa.now).nfa r input.now) }
    ensures within { IfOk result (λ found. IfSome found (HalfLiesIn input.now)) }
    ensures in_range { IfOk result (λ found. IfSome found (λ h. h.pattern < length (A.dfa dfa.now).nfa.starts)) }
    ensures err { IfErr result (SearchFails (A.dfa dfa.now).nfa input.now (A.gives_up dfa.now cache.new) (A.wants dfa.now)) }
    ensures fits { A.fits dfa.now cache.new }
{
    find_start::<A, Brand>(Blank::new(1), dfa, cache, input)
}

/// The same, counted on this ledger.
#[inline(never)]
fn find_start<A: Automaton, L: Ledger>(
    blank: Blank,
    dfa: &A,
    cache: &mut A::Cache,
    input: &Input<'_>,
) -> Result<Option<HalfMatch>, MatchError>
    requires name { blank.name ≡ L.name }
    requires parts { blank.parts ≡ L.parts }
    requires some { 0 < blank.parts }
    requires fits { A.fits dfa.now cache.old }
    requires reverse { (A.dfa dfa.now).nfa.reverse ≡ true }
    requires anchored { is_anchored input.now.anchor ≡ true }
    ensures answer { (r : Patterns) → HasReverseRuns (A.dfa dfa.now).nfa r → (A.dfa dfa.now).kind ≡ All
        → IfOk result (IsReverseAnswer (A.dfa dfa.now).nfa r input.now) }
    ensures within { IfOk result (λ found. IfSome found (HalfLiesIn input.now)) }
    ensures in_range { IfOk result (λ found. IfSome found (λ h. h.pattern < length (A.dfa dfa.now).nfa.starts)) }
    ensures err { IfErr result (SearchFails (A.dfa dfa.now).nfa input.now (A.gives_up dfa.now cache.new) (A.wants dfa.now)) }
    ensures fits { A.fits dfa.now cache.new }
{
    let _haystack = input.haystack();
    if input.is_done() {
        return Ok(None);
    }
    let mut steps = Steps::<L>::open(blank);
    match run_reverse(dfa, cache, input, &mut steps) {
        Ok(met) => Ok(met.best),
        Err(error) => Err(error),
    }
}

/// One search from the end of the input's span: what it met by the span's start, or with `earliest` by the first match.
#[inline(always)]
fn run_reverse<A: Automaton, L: Ledger>(
    dfa: &A,
    cache: &mut A::Cache,
    input: &Input<'_>,
    steps: &mut Steps<L>,
) -> Result<Met, MatchError>
    requires fits { A.fits dfa.now cache.old }
    requires in_order { input.now.start ≤ input.now.end }
    requires reverse { (A.dfa dfa.now).nfa.reverse ≡ true }
    ensures sound { IsSound (A.dfa dfa.now) }
    ensures met { IfOk result (IsMetBackwards (A.dfa dfa.now) input.now) }
    ensures err { IfErr result (SearchFails (A.dfa dfa.now).nfa input.now (A.gives_up dfa.now cache.new) (A.wants dfa.now)) }
    ensures fits { A.fits dfa.now cache.new }
{
    let haystack = input.haystack();
    let start = input.start();
    let utf8 = dfa.is_utf8();
    let mut met = Met::new();
    let mut state = match dfa.start_reverse(cache, input) {
        Ok(state) => state,
        Err(error) => return Err(error),
    };
    if dfa.is_dead(cache, state) {
        return Ok(met);
    }
    let mut at = input.end();
    'bytes: while start < at {
        let (next, place) = match back(dfa, cache, state, haystack, start, at, steps) {
            Ok(passed) => passed,
            Err(error) => return Err(error),
        };
        state = next;
        at = place;
        if at == start {
            continue;
        }
        let may = is_permitted_at(utf8, haystack, at);
        met = record(dfa, cache, state, may, at, met);
        if dfa.is_dead(cache, state) {
            return Ok(met);
        }
        if met.is_enough(input.get_earliest()) {
            return Ok(met);
        }
        at -= 1;
    }
    let byte = byte_before(haystack, start);
    let beside = place_before(start);
    let last = match last_state(dfa, cache, state, byte, beside, start, steps) {
        Ok(last) => last,
        Err(error) => return Err(error),
    };
    let may_start = is_permitted_at(utf8, haystack, start);
    let all = record(dfa, cache, last, may_start, start, met);
    Ok(all)
}

/// Goes back from this state at the place `from`: over plain states to the start, or to the first byte that does not lead to one. Answers
/// the state at the start, or before that byte, with the place behind the byte. From a state that is not plain it goes over one byte.
#[inline(always)]
fn back<A: Automaton, L: Ledger>(
    dfa: &A,
    cache: &mut A::Cache,
    state: StateID,
    haystack: &[u8],
    start: usize,
    from: usize,
    steps: &mut Steps<L>,
) -> Result<(StateID, usize), MatchError>
    requires fits { A.fits dfa.now cache.old }
    requires held { (key : Key) × A.holds dfa.now cache.old state key }
    requires some { start < from }
    requires within { from ≤ length haystack.now }
    ensures passed { (key : Key) → A.holds dfa.now cache.old state key → is_dead key ≡ false
        → IfOk result (λ p. IsPassed (A.holds dfa.now cache.new) (A.dfa dfa.now) (λ i. slice_index haystack.now (from - suc i)) key (from - p.1) (from - start)
        p.0) }
    ensures between { IfOk result (λ p. (start ≤ p.1) × (p.1 ≤ from)) }
    ensures err { (v : InputValue) → v.haystack ≡ haystack.now → v.start ≤ start → from ≤ v.end
        → IfErr result (SearchFails (A.dfa dfa.now).nfa v (A.gives_up dfa.now cache.new) (A.wants dfa.now)) }
    ensures fits { A.fits dfa.now cache.new }
{
    if dfa.is_special(cache, state) {
        return match dfa.next_state(cache, state, haystack[from - 1], steps) {
            Ok(next) => Ok((next, from)),
            Err(error) => Err(place_error(error, from - 1, from)),
        };
    }
    pass_back(dfa, cache, state, haystack, start, from, steps)
}

/// The same from a plain state. So the compiler knows of each state from which this loop steps that it is plain.
#[inline(always)]
fn pass_back<A: Automaton, L: Ledger>(
    dfa: &A,
    cache: &mut A::Cache,
    state: StateID,
    haystack: &[u8],
    start: usize,
    from: usize,
    steps: &mut Steps<L>,
) -> Result<(StateID, usize), MatchError>
    requires fits { A.fits dfa.now cache.old }
    requires held { (key : Key) × A.holds dfa.now cache.old state key }
    requires some { start < from }
    requires within { from ≤ length haystack.now }
    ensures passed { (key : Key) → A.holds dfa.now cache.old state key → is_dead key ≡ false
        → IfOk result (λ p. IsPassed (A.holds dfa.now cache.new) (A.dfa dfa.now) (λ i. slice_index haystack.now (from - suc i)) key (from - p.1) (from - start)
        p.0) }
    ensures between { IfOk result (λ p. (start ≤ p.1) × (p.1 ≤ from)) }
    ensures err { (v : InputValue) → v.haystack ≡ haystack.now → v.start ≤ start → from ≤ v.end
        → IfErr result (SearchFails (A.dfa dfa.now).nfa v (A.gives_up dfa.now cache.new) (A.wants dfa.now)) }
    ensures fits { A.fits dfa.now cache.new }
{
    let mut here = state;
    let mut at = from;
    'plain: while start < at {
        let before = at - 1;
        let next = match dfa.next_state(cache, here, haystack[before], steps) {
            Ok(next) => next,
            Err(error) => return Err(place_error(error, before, at)),
        };
        if dfa.is_special(cache, next) {
            return Ok((next, at));
        }
        here = next;
        at = before;
    }
    Ok((here, at))
}
