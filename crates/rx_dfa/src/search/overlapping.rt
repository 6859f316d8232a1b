//! The search for all patterns that have a match.
ghost use Rattle.std.specs.Prelude.{◌≡◌, ◌≤◌, ◌<◌, ◌+◌, true, false, None, OnOk, IfSome, MatchOption, length, slice_set};
ghost use Rattle.std.specs.Result.{IfErr};
ghost use Rattle.rx_model.specs.Search.{Patterns};
ghost use Rattle.rx_search.specs.Matches.{HalfMatchValue};
ghost use Rattle.rx_search.specs.Promise.{Premises};
ghost use Rattle.rx_search.specs.Sets.{KeepsMembers, AddsMatching, IsFilledFor};
ghost use Rattle.rx_search.specs.declared.anchored.MatchKind.TheVariants.{All};
ghost use Rattle.rx_nfa.specs.Nfa.{IsNfaOf};
ghost use Rattle.rx_nfa.specs.Ordered.{AreBelow};
ghost use Rattle.rx_determinize.specs.Key.{Key};
ghost use Rattle.rx_dfa.specs.Overlapping.{AddsTold, AddsEnds, HasEndsTo};
ghost use Rattle.rx_dfa.specs.Search.{SearchFails};

use crate::automaton::Automaton;
use crate::search::forward::try_search_half_fwd;
use crate::search::parts::{byte_after, is_permitted_at, last_state, place_error, tells_every};
use rx_search::{HalfMatch, Input, MatchError, PatternSet, StateID, Steps};
use std::marker::Brand;
use std::sync::ledger::{Blank, Ledger};

/// Adds patterns that have a match in the input's span to the set, which must have room for all patterns. The automaton is one of an
/// NFA that reads forwards.
///
/// Under `All` each pattern that has a match is added, under leftmost-first that of the next match, and with `earliest` that of some
/// match. What was added before an error stays in the set.
///
/// # Errors
///
/// Those of `try_search_half_fwd`.
pub fn try_which_overlapping<A: Automaton>(
    dfa: &A,
    cache: &mut A::Cache,
    input: &Input<'_>,
    set: &mut PatternSet,
) -> Result<(), MatchError>
    requires fits { A.fits dfa.now cache.old }
    requires forward { (A.dfa dfa.now).nfa.reverse ≡ false }
    requires room { length (A.dfa dfa.now).nfa.starts ≤ length set.old }
    ensures kept { KeepsMembers set.old set.new }
    ensures matching { AddsMatching (IsNfaOf (A.dfa dfa.now).nfa) None input.now set.old set.new }
    ensures filled { (r : Patterns) → Premises (IsNfaOf (A.dfa dfa.now).nfa r) None r input.now
        → OnOk result (IsFilledFor r input.now set.old set.new (A.dfa dfa.now).kind) }
    ensures err { IfErr result (SearchFails (A.dfa dfa.now).nfa input.now (A.gives_up dfa.now cache.new) (A.wants dfa.now)) }
    ensures fits { A.fits dfa.now cache.new }
{
    // An input's span lies in its haystack.
    let _haystack = input.haystack();
    if !tells_every(dfa.match_kind()) {
        return add_one(dfa, cache, input, set);
    }
    if input.get_earliest() {
        return add_one(dfa, cache, input, set);
    }
    fill::<A, Brand>(Blank::new(1), dfa, cache, input, set)
}

// One match tells the rest (DECISIONS: a set is filled by one match under leftmost-first, and with `earliest`).
/// Adds the pattern of the match whose end `try_search_half_fwd` answers.
fn add_one<A: Automaton>(
    dfa: &A,
    cache: &mut A::Cache,
    input: &Input<'_>,
    set: &mut PatternSet,
) -> Result<(), MatchError>
    requires fits { A.fits dfa.now cache.old }
    requires forward { (A.dfa dfa.now).nfa.reverse ≡ false }
    requires room { length (A.dfa dfa.now).nfa.starts ≤ length set.old }
    requires one { (A.dfa dfa.now).kind ≡ All → input.now.earliest ≡ false → ⊥ }
    ensures kept { KeepsMembers set.old set.new }
    ensures matching { AddsMatching (IsNfaOf (A.dfa dfa.now).nfa) None input.now set.old set.new }
    ensures filled { (r : Patterns) → Premises (IsNfaOf (A.dfa dfa.now).nfa r) None r input.now
        → OnOk result (IsFilledFor r input.now set.old set.new (A.dfa dfa.now).kind) }
    ensures err { IfErr result (SearchFails (A.dfa dfa.now).nfa input.now (A.gives_up dfa.now cache.new) (A.wants dfa.now)) }
    ensures fits { A.fits dfa.now cache.new }
{
    match try_search_half_fwd(dfa, cache, input) {
        Ok(found) => {
            add(found, set);
            Ok(())
        }
        Err(error) => Err(error),
    }
}

/// Adds the pattern that ends there to the set.
fn add(found: Option<HalfMatch>, set: &mut PatternSet)
    requires { IfSome found (λ h. h.pattern < length set.old) }
    ensures { MatchOption found (set.new ≡ set.old) (λ h. set.new ≡ slice_set set.old h.pattern true) }
{
    if let Some(found) = found {
        set.insert(found.pattern());
    }
}

/// Adds each pattern that has a match, counted on this ledger.
#[inline(never)]
fn fill<A: Automaton, L: Ledger>(
    blank: Blank,
    dfa: &A,
    cache: &mut A::Cache,
    input: &Input<'_>,
    set: &mut PatternSet,
) -> Result<(), MatchError>
    requires name { blank.name ≡ L.name }
    requires parts { blank.parts ≡ L.parts }
    requires some { 0 < blank.parts }
    requires fits { A.fits dfa.now cache.old }
    requires forward { (A.dfa dfa.now).nfa.reverse ≡ false }
    requires every { (A.dfa dfa.now).kind ≡ All }
    requires whole { input.now.earliest ≡ false }
    requires room { length (A.dfa dfa.now).nfa.starts ≤ length set.old }
    ensures adds { AddsEnds (A.dfa dfa.now).nfa input.now set.old set.new }
    ensures each { OnOk result (HasEndsTo (A.dfa dfa.now).nfa input.now (input.now.end + 1) set.new) }
    ensures err { IfErr result (SearchFails (A.dfa dfa.now).nfa input.now (A.gives_up dfa.now cache.new) (A.wants dfa.now)) }
    ensures fits { A.fits dfa.now cache.new }
{
    if input.is_done() {
        return Ok(());
    }
    let mut steps = Steps::<L>::open(blank);
    add_along(dfa, cache, input, set, &mut steps)
}

/// One search from the start of the input's span: adds the patterns that it meets by the span's end.
#[inline(always)]
fn add_along<A: Automaton, L: Ledger>(
    dfa: &A,
    cache: &mut A::Cache,
    input: &Input<'_>,
    set: &mut PatternSet,
    steps: &mut Steps<L>,
) -> Result<(), MatchError>
    requires fits { A.fits dfa.now cache.old }
    requires in_order { input.now.start ≤ input.now.end }
    requires forward { (A.dfa dfa.now).nfa.reverse ≡ false }
    requires every { (A.dfa dfa.now).kind ≡ All }
    requires whole { input.now.earliest ≡ false }
    requires room { length (A.dfa dfa.now).nfa.starts ≤ length set.old }
    ensures adds { AddsEnds (A.dfa dfa.now).nfa input.now set.old set.new }
    ensures each { OnOk result (HasEndsTo (A.dfa dfa.now).nfa input.now (input.now.end + 1) set.new) }
    ensures err { IfErr result (SearchFails (A.dfa dfa.now).nfa input.now (A.gives_up dfa.now cache.new) (A.wants dfa.now)) }
    ensures fits { A.fits dfa.now cache.new }
{
    let haystack = input.haystack();
    let end = input.end();
    let utf8 = dfa.is_utf8();
    let mut state = match dfa.start_forward(cache, input) {
        Ok(state) => state,
        Err(error) => return Err(error),
    };
    if dfa.is_dead(cache, state) {
        return Ok(());
    }
    let mut at = input.start();
    'bytes: while at < end {
        state = match dfa.next_state(cache, state, haystack[at], steps) {
            Ok(next) => next,
            Err(error) => return Err(place_error(error, at, at)),
        };
        if !dfa.is_special(cache, state) {
            at += 1;
            continue;
        }
        let may = is_permitted_at(utf8, haystack, at);
        add_told(dfa, cache, state, may, set);
        if dfa.is_dead(cache, state) {
            return Ok(());
        }
        if set.is_full() {
            return Ok(());
        }
        at += 1;
    }
    let byte = byte_after(haystack, end);
    let last = match last_state(dfa, cache, state, byte, end, end, steps) {
        Ok(last) => last,
        Err(error) => return Err(error),
    };
    let may_end = is_permitted_at(utf8, haystack, end);
    add_told(dfa, cache, last, may_end, set);
    Ok(())
}

/// Adds the patterns that match at the place before the state's last byte, where a match may end there. Each of them stands once, so they
/// are no more than the set has room for.
fn add_told<A: Automaton>(
    dfa: &A,
    cache: &A::Cache,
    state: StateID,
    may: bool,
    set: &mut PatternSet,
)
    requires { (key : Key) × A.holds dfa.now cache.now state key × AreBelow (length set.old) key.matches }
    ensures { (key : Key) → A.holds dfa.now cache.now state key → length key.matches ≤ length set.old → AddsTold may key.matches set.old set.new }
{
    if !may {
        return;
    }
    for index in 0..set.capacity() {
        let Some(pattern) = dfa.match_pattern(cache, state, index) else {
            return;
        };
        set.insert(pattern);
    }
}
