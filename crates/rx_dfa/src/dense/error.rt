//! Why there is no full DFA.
ghost use Rattle.std.specs.Prelude.{◌≡◌};
ghost use Rattle.rx_dfa.specs.declared.dense.error.BuildError.TheVariants.{Memory as OutOfMemory};

use rx_search::Memory;
use std::alloc::{AllocError, AllocFailed};

/// Why there is no full DFA.
#[derive(Clone, Copy, Debug, Drop, PartialEq, Eq)]
pub enum BuildError {
    /// The table of the states that were made so far has this size, which is above the limit.
    TooBig { limit: usize, size: usize },
    /// There was no memory, or there are more states than numbers of states.
    Memory,
}

impl From<Memory> for BuildError {
    ghost from_gives = { λ _ e. e ≡ OutOfMemory };

    fn from(_error: Memory) -> BuildError {
        BuildError::Memory
    }
}

impl From<AllocError> for BuildError {
    ghost from_gives = { λ _ e. e ≡ OutOfMemory };

    fn from(_error: AllocError) -> BuildError {
        BuildError::Memory
    }
}

impl<T: Drop> From<AllocFailed<T>> for BuildError {
    ghost from_gives = { λ _ e. e ≡ OutOfMemory };

    fn from(_error: AllocFailed<T>) -> BuildError {
        BuildError::Memory
    }
}
