//! What a search in either direction is made of.
ghost use Rattle.std.specs.Prelude.{◌≡◌, ◌≤◌, ◌-◌, ◌↔◌, ℕ, Bool, true, false, length, IfOk, OnOk, IsTrue};
ghost use Rattle.std.specs.Result.{IfErr};
ghost use Rattle.rx_model.specs.Look.{byte_before, byte_after};
ghost use Rattle.rx_model.specs.Search.{is_permitted};
ghost use Rattle.rx_search.specs.declared.anchored.MatchKind.TheVariants.{All};
ghost use Rattle.rx_determinize.specs.Key.{Key, is_dead};
ghost use Rattle.rx_determinize.specs.Permitted.{met_within};
ghost use Rattle.rx_dfa.specs.Automaton.{IsReadable, StartFails};
ghost use Rattle.rx_dfa.specs.Course.{placed, end_of};

use crate::automaton::Automaton;
use crate::search::progress::Met;
use crate::step_error::StepError;
use rx_search::{MatchError, MatchKind, StateID, Steps, is_character_boundary};
use std::sync::ledger::Ledger;

/// The error of a search that is at `place`, where the step over the byte at `beside` had this one.
pub(crate) fn place_error(error: StepError, beside: usize, place: usize) -> MatchError
    ensures { result ≡ placed beside place error }
{
    match error {
        StepError::Quit { byte } => MatchError::Quit {
            byte,
            offset: beside,
        },
        StepError::GaveUp => MatchError::GaveUp { offset: place },
        StepError::Memory => MatchError::Memory,
    }
}

/// Whether every match is told, and not the preferred one alone.
pub(crate) fn tells_every(kind: MatchKind) -> bool
    ensures { IsTrue result ↔ (kind ≡ All) }
{
    match kind {
        MatchKind::All => true,
        MatchKind::LeftmostFirst => false,
    }
}

/// Whether a match may end, or start, at the place.
pub(crate) fn is_permitted_at(utf8: bool, haystack: &[u8], place: usize) -> bool
    requires { place ≤ length haystack.now }
    ensures { result ≡ is_permitted utf8 haystack.now place }
{
    if !utf8 {
        return true;
    }
    is_character_boundary(haystack, place)
}

/// What was met, with the first of the patterns that match at the place before the state's last byte. At the place a match may
/// end or not.
pub(crate) fn record<A: Automaton>(
    dfa: &A,
    cache: &A::Cache,
    state: StateID,
    may: bool,
    place: usize,
    met: Met,
) -> Met
    requires { (key : Key) × A.holds dfa.now cache.now state key }
    ensures { (key : Key) → A.holds dfa.now cache.now state key → (test : ℕ → Bool) → test place ≡ may → result ≡ met_within test key.matches place met }
{
    match dfa.match_pattern(cache, state, 0) {
        Some(pattern) => met.with_match(may, pattern, place),
        None => met,
    }
}

/// The state at the end of a search: after the byte beside the span, which stands at `beside`, or after the end of the text where
/// there is none. It tells what matches at the span's end.
pub(crate) fn last_state<A: Automaton, L: Ledger>(
    dfa: &A,
    cache: &mut A::Cache,
    state: StateID,
    byte: Option<u8>,
    beside: usize,
    place: usize,
    steps: &mut Steps<L>,
) -> Result<StateID, MatchError>
    requires fits { A.fits dfa.now cache.old }
    requires held { (key : Key) × A.holds dfa.now cache.old state key }
    ensures last { (key : Key) → A.holds dfa.now cache.old state key → IfOk result (λ next. (last : Key) × A.holds dfa.now cache.new next last
        × (last.matches ≡ (end_of (A.dfa dfa.now) key byte).matches)) }
    ensures readable { (key : Key) → A.holds dfa.now cache.old state key → is_dead key ≡ false → OnOk result (IsReadable (A.dfa dfa.now).nfa byte) }
    ensures err { IfErr result (StartFails (A.dfa dfa.now).nfa byte beside place (A.gives_up dfa.now cache.new) (A.wants dfa.now)) }
    ensures fits { A.fits dfa.now cache.new }
{
    match byte {
        Some(byte) => match dfa.next_state(cache, state, byte, steps) {
            Ok(next) => Ok(next),
            Err(error) => Err(place_error(error, beside, place)),
        },
        None => match dfa.next_eoi(cache, state, steps) {
            Ok(next) => Ok(next),
            Err(error) => Err(place_error(error, beside, place)),
        },
    }
}

/// The byte before the place, if there is one.
pub(crate) fn byte_before(haystack: &[u8], place: usize) -> Option<u8>
    ensures { result ≡ byte_before haystack.now place }
{
    if place == 0 {
        return None;
    }
    haystack.get(place - 1).copied()
}

/// The byte at the place, if there is one.
pub(crate) fn byte_after(haystack: &[u8], place: usize) -> Option<u8>
    ensures { result ≡ byte_after haystack.now place }
{
    haystack.get(place).copied()
}

/// The place before this one, or the first place.
pub(crate) fn place_before(place: usize) -> usize
    ensures { result ≡ place - 1 }
{
    place.saturating_sub(1)
}
