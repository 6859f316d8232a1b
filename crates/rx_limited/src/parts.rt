//! What a search in either direction is made of.
ghost use Rattle.std.specs.Prelude.{◌≡◌, ◌≤◌, ◌+◌, ◌-◌, ℕ, Bool, Option, false, length, IfOk, OnOk};
ghost use Rattle.std.specs.Result.{IfErr};
ghost use Rattle.rx_model.specs.Look.{byte_before, byte_after};
ghost use Rattle.rx_model.specs.Search.{is_permitted};
ghost use Rattle.rx_determinize.specs.Key.{Key, is_dead};
ghost use Rattle.rx_dfa.specs.Automaton.{IsReadable, StepFails};
ghost use Rattle.rx_dfa.specs.Course.{placed, end_of};
ghost use Rattle.rx_limited.specs.Retry.{retried};
ghost use Rattle.rx_limited.specs.Parts.{best_within};

use crate::retry_error::RetryError;
use rx_dfa::{Automaton, StepError};
use rx_search::{HalfMatch, MatchError, StateID, Steps, is_character_boundary};
use std::sync::ledger::Ledger;

/// The error of a search that had this one. That an automaton has one of the two others never comes.
pub(crate) fn retry_of(error: MatchError) -> RetryError
    ensures { result ≡ retried error }
{
    match error {
        MatchError::Quit { offset, .. } => RetryError::Fail { offset },
        MatchError::GaveUp { offset } => RetryError::Fail { offset },
        MatchError::HaystackTooLong { .. } => RetryError::Memory,
        MatchError::UnsupportedAnchored { .. } => RetryError::Memory,
        MatchError::Memory => RetryError::Memory,
    }
}

/// The error of a search that is at `place`, where the step over the byte at `beside` had this one.
pub(crate) fn retry_of_step(error: StepError, beside: usize, place: usize) -> RetryError
    ensures { result ≡ retried (placed beside place error) }
{
    match error {
        StepError::Quit { .. } => RetryError::Fail { offset: beside },
        StepError::GaveUp => RetryError::Fail { offset: place },
        StepError::Memory => RetryError::Memory,
    }
}

/// Whether a match may end, or start, at the place.
pub(crate) fn is_permitted_at(utf8: bool, haystack: &[u8], place: usize) -> bool
    requires { place ≤ length haystack.now }
    ensures { result ≡ is_permitted utf8 haystack.now place }
{
    if !utf8 {
        return true;
    }
    is_character_boundary(haystack, place)
}

/// The last match that was met, or the first of the patterns that match at the place before the state's last byte. At the place
/// a match may end or not.
pub(crate) fn record<A: Automaton>(
    dfa: &A,
    cache: &A::Cache,
    state: StateID,
    may: bool,
    place: usize,
    best: Option<HalfMatch>,
) -> Option<HalfMatch>
    requires { (key : Key) × A.holds dfa.now cache.now state key }
    ensures { (key : Key) → A.holds dfa.now cache.now state key → (test : ℕ → Bool) → test place ≡ may
        → result ≡ best_within test key.matches place best }
{
    match dfa.match_pattern(cache, state, 0) {
        Some(pattern) => {
            if may {
                Some(HalfMatch::new(pattern, place))
            } else {
                best
            }
        }
        None => best,
    }
}

/// The state at the end of a search: after the byte beside the span, or after the end of the text where there is none. It tells
/// what matches at the span's end.
pub(crate) fn last_state<A: Automaton, L: Ledger>(
    dfa: &A,
    cache: &mut A::Cache,
    state: StateID,
    byte: Option<u8>,
    steps: &mut Steps<L>,
) -> Result<StateID, StepError>
    requires fits { A.fits dfa.now cache.old }
    requires held { (key : Key) × A.holds dfa.now cache.old state key }
    ensures last { (key : Key) → A.holds dfa.now cache.old state key → IfOk result (λ next. (last : Key) × A.holds dfa.now cache.new next last
        × (last.matches ≡ (end_of (A.dfa dfa.now) key byte).matches)) }
    ensures readable { (key : Key) → A.holds dfa.now cache.old state key → is_dead key ≡ false → OnOk result (IsReadable (A.dfa dfa.now).nfa byte) }
    ensures err { IfErr result (StepFails (A.dfa dfa.now).nfa byte (A.gives_up dfa.now cache.new) (A.wants dfa.now)) }
    ensures ticks { steps.new ≡ steps.old + 1 }
    ensures fits { A.fits dfa.now cache.new }
{
    match byte {
        Some(byte) => match dfa.next_state(cache, state, byte, steps) {
            Ok(next) => Ok(next),
            Err(error) => Err(error),
        },
        None => match dfa.next_eoi(cache, state, steps) {
            Ok(next) => Ok(next),
            Err(error) => Err(error),
        },
    }
}

/// The byte before the place, if there is one.
pub(crate) fn byte_before(haystack: &[u8], place: usize) -> Option<u8>
    ensures { result ≡ byte_before haystack.now place }
{
    if place == 0 {
        return None;
    }
    haystack.get(place - 1).copied()
}

/// The byte at the place, if there is one.
pub(crate) fn byte_after(haystack: &[u8], place: usize) -> Option<u8>
    ensures { result ≡ byte_after haystack.now place }
{
    haystack.get(place).copied()
}

/// The place before this one, or the first place.
pub(crate) fn place_before(place: usize) -> usize
    ensures { result ≡ place - 1 }
{
    place.saturating_sub(1)
}
