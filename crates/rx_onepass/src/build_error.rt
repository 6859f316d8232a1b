//! Why there is no one-pass DFA of patterns.
ghost use Rattle.std.specs.Prelude.{◌≡◌};
ghost use Rattle.rx_onepass.specs.declared.build_error.BuildError.TheVariants.{Memory as OutOfMemory};
ghost use Rattle.rx_onepass.specs.Error.{error_of, refusal_of};

use rx_onepass_build::{BuildError as TableError, NotOnePass};
use rx_search::{Look, Memory};
use std::alloc::{AllocError, AllocFailed};
use std::fmt;

// The refusals of an NFA stand in the error of rx_onepass_build too (DECISIONS: a one-pass DFA of patterns has an error of its own).
/// Why there is no one-pass DFA.
#[derive(Clone, Copy, Debug, PartialEq, Eq)]
pub enum BuildError {
    /// There is no NFA of the patterns.
    NFA(rx_thompson::BuildError),
    /// The NFA asks for this kind of look-around, the first that has no bit in a transition.
    UnsupportedLook { look: Look },
    /// More patterns than a table tells apart.
    TooManyPatterns { limit: usize },
    /// More states than a transition tells apart.
    TooManyStates { limit: usize },
    /// A table of more bytes than the configured limit, with so many when it was given up.
    ExceededSizeLimit { limit: usize, size: usize },
    /// The NFA leaves more than one way on.
    NotOnePass(NotOnePass),
    /// There was no memory.
    Memory,
}

impl fmt::Display for BuildError {
    ghost use Rattle.std.specs.Prelude.{Some};
    ghost use Rattle.rx_onepass.specs.Error.{text_of};

    ghost output = { λ e. Some (text_of e) };

    fn fmt<W: fmt::Write>(&self, f: &mut fmt::Formatter<W>) -> fmt::Result {
        match self {
            BuildError::NFA(_) => write!(f, "error building NFA"),
            BuildError::UnsupportedLook { look } => {
                write!(f, "{}", TableError::UnsupportedLook { look: *look })
            }
            BuildError::TooManyPatterns { limit } => {
                write!(f, "{}", TableError::TooManyPatterns { limit: *limit })
            }
            BuildError::TooManyStates { limit } => {
                write!(f, "{}", TableError::TooManyStates { limit: *limit })
            }
            BuildError::ExceededSizeLimit { limit, size } => write!(
                f,
                "{}",
                TableError::ExceededSizeLimit {
                    limit: *limit,
                    size: *size
                }
            ),
            BuildError::NotOnePass(cause) => write!(f, "{}", TableError::NotOnePass(*cause)),
            BuildError::Memory => write!(f, "out of memory"),
        }
    }
}

impl From<TableError> for BuildError {
    ghost from_gives = { λ cause e. e ≡ refusal_of cause };

    fn from(error: TableError) -> BuildError {
        match error {
            TableError::UnsupportedLook { look } => { BuildError::UnsupportedLook { look } }
            TableError::TooManyPatterns { limit } => { BuildError::TooManyPatterns { limit } }
            TableError::TooManyStates { limit } => { BuildError::TooManyStates { limit } }
            TableError::ExceededSizeLimit { limit, size } => {
                BuildError::ExceededSizeLimit { limit, size }
            }
            TableError::NotOnePass(cause) => BuildError::NotOnePass(cause),
            TableError::Memory => BuildError::Memory,
        }
    }
}

impl From<rx_thompson::BuildError> for BuildError {
    ghost from_gives = { λ cause e. e ≡ error_of cause };

    fn from(error: rx_thompson::BuildError) -> BuildError {
        match error {
            rx_thompson::BuildError::Memory => BuildError::Memory,
            other => BuildError::NFA(other),
        }
    }
}

impl From<Memory> for BuildError {
    ghost from_gives = { λ _ e. e ≡ OutOfMemory };

    fn from(_error: Memory) -> BuildError {
        BuildError::Memory
    }
}

impl From<AllocError> for BuildError {
    ghost from_gives = { λ _ e. e ≡ OutOfMemory };

    fn from(_error: AllocError) -> BuildError {
        BuildError::Memory
    }
}

impl<T: Drop> From<AllocFailed<T>> for BuildError {
    ghost from_gives = { λ _ e. e ≡ OutOfMemory };

    fn from(_error: AllocFailed<T>) -> BuildError {
        BuildError::Memory
    }
}
