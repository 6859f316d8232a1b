//! What is refused before a state is made.
ghost use Rattle.std.specs.Prelude.{◌≡◌, ◌+◌, ◌<◌, OnOk, IfErr, IfSome, IfNone};
ghost use Rattle.rx_model.specs.Look.{look_number};
ghost use Rattle.rx_search.specs.Look.{kind_of};
ghost use Rattle.rx_onepass_table.specs.Entry.{explicit_start};
ghost use Rattle.rx_onepass_build.specs.Config.{nothing_set};
ghost use Rattle.rx_onepass_build.specs.Build.{IsAdmitted, IsRefusalOf, HasFewLooks, IsFirstUnsupported, told_explicit, writes_from};
ghost use Rattle.rx_onepass_build.specs.declared.config.Config.{Config};

use crate::build_error::{BuildError, NotOnePass};
use rx_nfa::{NFA, State};
use rx_onepass_table::PATTERN_LIMIT;
use rx_search::Look;

/// The most explicit slots: as many have a bit in a word.
pub const SLOT_LIMIT: usize = 32;

/// Refuses an NFA of which a word could not tell all.
pub fn admit(nfa: &NFA) -> Result<(), BuildError>
    ensures ok { OnOk result (IsAdmitted nfa.now) }
    ensures err { (config : Config) → IfErr result (IsRefusalOf config nfa.now) }
{
    if let Some(look) = first_unsupported(nfa) {
        return Err(BuildError::UnsupportedLook { look });
    }
    if nfa.pattern_len() > PATTERN_LIMIT {
        return Err(BuildError::TooManyPatterns {
            limit: PATTERN_LIMIT,
        });
    }
    let given = told_explicit(nfa);
    if given > SLOT_LIMIT {
        return Err(BuildError::NotOnePass(NotOnePass::Slots { given }));
    }
    Ok(())
}

/// The first kind of look-around that the NFA asks for and that has no bit.
fn first_unsupported(nfa: &NFA) -> Option<Look>
    ensures some { IfSome result (λ look. IsFirstUnsupported nfa.now (kind_of look)) }
    ensures none { IfNone result (HasFewLooks nfa.now) }
{
    let set = nfa.look_set_any();
    for number in 0..8 {
        let look = past_the_first(number);
        if set.contains(look) {
            return Some(look);
        }
    }
    None
}

/// The kind of this number, counted from the first that has no bit.
fn past_the_first(number: usize) -> Look
    requires { number < 8 }
    ensures { look_number (kind_of result) ≡ 10 + number }
{
    match number {
        0 => Look::WordStartAscii,
        1 => Look::WordEndAscii,
        2 => Look::WordStartUnicode,
        3 => Look::WordEndUnicode,
        4 => Look::WordStartHalfAscii,
        5 => Look::WordEndHalfAscii,
        6 => Look::WordStartHalfUnicode,
        _ => Look::WordEndHalfUnicode,
    }
}

/// The first explicit slot.
pub fn explicit_start(nfa: &NFA) -> usize
    ensures { result ≡ explicit_start nfa.now }
{
    2 * nfa.pattern_len()
}

/// How many explicit slots are told: those of the groups that the patterns name, or none where no state writes one.
pub fn told_explicit(nfa: &NFA) -> usize
    ensures { result ≡ told_explicit nfa.now }
{
    let first = explicit_start(nfa);
    for state in nfa.states() {
        if writes_from(state, first) {
            return nfa.slot_len().saturating_sub(first);
        }
    }
    0
}

/// Whether the state writes a slot from this one on.
fn writes_from(state: &State, first: usize) -> bool
    ensures { result ≡ writes_from first state.now }
{
    match state {
        State::ByteRange { .. } => false,
        State::Sparse { .. } => false,
        State::Look { .. } => false,
        State::Union { .. } => false,
        State::Capture { slot, .. } => first <= *slot,
        State::Fail => false,
        State::Match { .. } => false,
    }
}
