//! Why there is no NFA.
ghost use Rattle.std.specs.Prelude.{◌≡◌};
ghost use Rattle.rx_nfa.specs.declared.error.BuildError.TheVariants.{Memory as OutOfMemory};

use rx_search::Memory;
use std::alloc::{AllocError, AllocFailed};

/// Why there is no NFA.
#[derive(Clone, Copy, Debug, PartialEq, Eq)]
pub enum BuildError {
    /// More patterns than identifiers tell apart.
    TooManyPatterns { given: usize, limit: usize },
    /// More slots than a match may have.
    TooManyGroups { given: usize, limit: usize },
    /// More states than identifiers tell apart, by what is accounted for the patterns.
    TooManyStates { given: usize, limit: usize },
    /// An NFA of more bytes than the configured limit, by what is accounted for the patterns.
    ExceededSizeLimit { limit: usize, size: usize },
    /// There was no memory.
    Memory,
}

impl From<Memory> for BuildError {
    ghost from_gives = { λ _ e. e ≡ OutOfMemory };

    fn from(_error: Memory) -> BuildError {
        BuildError::Memory
    }
}

impl From<AllocError> for BuildError {
    ghost from_gives = { λ _ e. e ≡ OutOfMemory };

    fn from(_error: AllocError) -> BuildError {
        BuildError::Memory
    }
}

impl<T: Drop> From<AllocFailed<T>> for BuildError {
    ghost from_gives = { λ _ e. e ≡ OutOfMemory };

    fn from(_error: AllocFailed<T>) -> BuildError {
        BuildError::Memory
    }
}
