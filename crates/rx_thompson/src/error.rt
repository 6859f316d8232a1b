//! Why there is no NFA.
ghost use Rattle.std.specs.Prelude.{◌≡◌};
ghost use Rattle.rx_search.specs.Limits.{id_limit};
ghost use Rattle.rx_syntax.specs.Patterns.{IsWithin};
ghost use Rattle.rx_thompson.specs.declared.error.BuildError.TheVariants.{Memory as OutOfMemory};
ghost use Rattle.rx_thompson.specs.Error.{error_of, syntax_error_of};

use rx_search::{Memory, PatternID};
use rx_syntax::{PatternsError, SyntaxError};
use std::alloc::{AllocError, AllocFailed};

// The limits stand in the error of rx_nfa too (DECISIONS: the compiler stands in two crates).
/// Why there is no NFA.
#[derive(Clone, Copy, Debug, PartialEq, Eq)]
pub enum BuildError {
    /// The grammar refuses the pattern of this number, counted from 0: the first that is refused.
    Syntax { pid: PatternID, err: SyntaxError },
    /// More patterns than identifiers tell apart.
    TooManyPatterns { given: usize, limit: usize },
    /// More slots than a match may have.
    TooManyGroups { given: usize, limit: usize },
    /// More states than identifiers tell apart, by what is accounted for the patterns.
    TooManyStates { given: usize, limit: usize },
    /// An NFA of more bytes than the configured limit, by what is accounted for the patterns.
    ExceededSizeLimit { limit: usize, size: usize },
    /// There was no memory.
    Memory,
}

impl BuildError {
    /// The error of a build for that of its patterns, of which there are no more than an NFA may have.
    pub fn of_patterns(error: PatternsError) -> BuildError
        requires { IsWithin error id_limit }
        ensures { result ≡ syntax_error_of error }
    {
        match error {
            PatternsError::Syntax { pattern, error } => BuildError::Syntax {
                pid: PatternID::new(pattern).unwrap(),
                err: error,
            },
            PatternsError::Memory => BuildError::Memory,
        }
    }
}

impl From<rx_nfa::BuildError> for BuildError {
    ghost from_gives = { λ cause e. e ≡ error_of cause };

    fn from(error: rx_nfa::BuildError) -> BuildError {
        match error {
            rx_nfa::BuildError::TooManyPatterns { given, limit } => {
                BuildError::TooManyPatterns { given, limit }
            }
            rx_nfa::BuildError::TooManyGroups { given, limit } => {
                BuildError::TooManyGroups { given, limit }
            }
            rx_nfa::BuildError::TooManyStates { given, limit } => {
                BuildError::TooManyStates { given, limit }
            }
            rx_nfa::BuildError::ExceededSizeLimit { limit, size } => {
                BuildError::ExceededSizeLimit { limit, size }
            }
            rx_nfa::BuildError::Memory => BuildError::Memory,
        }
    }
}

impl From<Memory> for BuildError {
    ghost from_gives = { λ _ e. e ≡ OutOfMemory };

    fn from(_error: Memory) -> BuildError {
        BuildError::Memory
    }
}

impl From<AllocError> for BuildError {
    ghost from_gives = { λ _ e. e ≡ OutOfMemory };

    fn from(_error: AllocError) -> BuildError {
        BuildError::Memory
    }
}

impl<T: Drop> From<AllocFailed<T>> for BuildError {
    ghost from_gives = { λ _ e. e ≡ OutOfMemory };

    fn from(_error: AllocFailed<T>) -> BuildError {
        BuildError::Memory
    }
}
