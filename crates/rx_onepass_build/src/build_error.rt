//! Why there is no one-pass DFA.
ghost use Rattle.std.specs.Prelude.{◌≡◌};
ghost use Rattle.rx_onepass_build.specs.declared.build_error.BuildError.TheVariants.{Memory as OutOfMemory};
ghost use Rattle.rx_onepass_build.specs.Error as texts;

use rx_search::{Look, Memory, PatternID, StateID};
use std::alloc::{AllocError, AllocFailed};
use std::fmt;

/// Why an NFA is not one-pass.
#[derive(Clone, Copy, Debug, PartialEq, Eq)]
pub enum NotOnePass {
    /// It tells so many slots of groups that the patterns name, more than 32.
    Slots { given: usize },
    /// Two different epsilon walks from one entry lead to this state of the NFA.
    State { state: StateID },
    /// Two different patterns match at the place of one entry.
    Match { first: PatternID, second: PatternID },
    /// From this state of the NFA, an entry, two steps on this byte differ.
    Transition { state: StateID, byte: u8 },
}

impl fmt::Display for NotOnePass {
    ghost use Rattle.std.specs.Prelude.{Some};
    ghost use Rattle.rx_onepass_build.specs.Error.{cause_text};

    ghost output = { λ e. Some (cause_text e) };

    fn fmt<W: fmt::Write>(&self, f: &mut fmt::Formatter<W>) -> fmt::Result {
        match self {
            NotOnePass::Slots { .. } => write!(f, "too many explicit capturing groups (max is 16)"),
            NotOnePass::State { .. } => write!(f, "multiple epsilon transitions to same state"),
            NotOnePass::Match { .. } => write!(f, "multiple epsilon transitions to match state"),
            NotOnePass::Transition { .. } => write!(f, "conflicting transition"),
        }
    }
}

/// Why there is no one-pass DFA.
#[derive(Clone, Copy, Debug, PartialEq, Eq)]
pub enum BuildError {
    /// The NFA asks for this kind of look-around, the first that has no bit in a transition.
    UnsupportedLook { look: Look },
    /// More patterns than a table tells apart.
    TooManyPatterns { limit: usize },
    /// More states than a transition tells apart.
    TooManyStates { limit: usize },
    /// A table of more bytes than the configured limit, with so many when it was given up.
    ExceededSizeLimit { limit: usize, size: usize },
    /// The NFA leaves more than one way on.
    NotOnePass(NotOnePass),
    /// There was no memory.
    Memory,
}

impl fmt::Display for BuildError {
    ghost use Rattle.std.specs.Prelude.{Some};
    ghost use Rattle.rx_onepass_build.specs.Error.{text_of};

    ghost output = { λ e. Some (text_of e) };

    fn fmt<W: fmt::Write>(&self, f: &mut fmt::Formatter<W>) -> fmt::Result {
        match self {
            BuildError::UnsupportedLook { look } => write!(
                f,
                "one-pass DFA does not support the {} assertion",
                name_of(*look)
            ),
            BuildError::TooManyPatterns { limit } => write!(
                f,
                "one-pass DFA exceeded a limit of {limit} for number of patterns"
            ),
            BuildError::TooManyStates { limit } => write!(
                f,
                "one-pass DFA exceeded a limit of {limit} for number of states"
            ),
            BuildError::ExceededSizeLimit { limit, .. } => write!(
                f,
                "one-pass DFA exceeded size limit of {limit} during building"
            ),
            BuildError::NotOnePass(cause) => write!(
                f,
                "one-pass DFA could not be built because pattern is not one-pass: {cause}"
            ),
            BuildError::Memory => write!(f, "out of memory"),
        }
    }
}

/// The name of a kind of look-around.
fn name_of(look: Look) -> &'static str
    ensures { result.now ≡ texts.name_of look }
{
    match look {
        Look::Start => "Start",
        Look::End => "End",
        Look::StartLF => "StartLF",
        Look::EndLF => "EndLF",
        Look::StartCRLF => "StartCRLF",
        Look::EndCRLF => "EndCRLF",
        Look::WordAscii => "WordAscii",
        Look::WordAsciiNegate => "WordAsciiNegate",
        Look::WordUnicode => "WordUnicode",
        Look::WordUnicodeNegate => "WordUnicodeNegate",
        Look::WordStartAscii => "WordStartAscii",
        Look::WordEndAscii => "WordEndAscii",
        Look::WordStartUnicode => "WordStartUnicode",
        Look::WordEndUnicode => "WordEndUnicode",
        Look::WordStartHalfAscii => "WordStartHalfAscii",
        Look::WordEndHalfAscii => "WordEndHalfAscii",
        Look::WordStartHalfUnicode => "WordStartHalfUnicode",
        Look::WordEndHalfUnicode => "WordEndHalfUnicode",
    }
}

impl From<NotOnePass> for BuildError {
    ghost use Rattle.rx_onepass_build.specs.declared.build_error.BuildError.TheVariants.{NotOnePass as Ambiguous};

    ghost from_gives = { λ cause e. e ≡ Ambiguous cause };

    fn from(cause: NotOnePass) -> BuildError {
        BuildError::NotOnePass(cause)
    }
}

impl From<Memory> for BuildError {
    ghost from_gives = { λ _ e. e ≡ OutOfMemory };

    fn from(_error: Memory) -> BuildError {
        BuildError::Memory
    }
}

impl From<AllocError> for BuildError {
    ghost from_gives = { λ _ e. e ≡ OutOfMemory };

    fn from(_error: AllocError) -> BuildError {
        BuildError::Memory
    }
}

impl<T: Drop> From<AllocFailed<T>> for BuildError {
    ghost from_gives = { λ _ e. e ≡ OutOfMemory };

    fn from(_error: AllocFailed<T>) -> BuildError {
        BuildError::Memory
    }
}
