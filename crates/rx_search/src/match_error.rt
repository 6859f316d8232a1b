//! Why a search gives no answer.
ghost use Rattle.std.specs.Prelude.{◌≡◌};
ghost use Rattle.rx_search.specs.declared.match_error.MatchError.TheVariants.{Memory as OutOfMemory};

use crate::anchored::Anchored;
use rx_memory::Memory;
use std::alloc::{AllocError, AllocFailed};
use thiserror::Error;

/// Why a search gives no answer. It is shown as the variant's name.
#[derive(Clone, Copy, Debug, Drop, Error, PartialEq, Eq)]
pub enum MatchError {
    /// The search came to a byte at which it is to stop, at this byte offset.
    #[error("Quit")]
    Quit { byte: u8, offset: usize },
    /// The search gave up at this byte offset.
    #[error("GaveUp")]
    GaveUp { offset: usize },
    /// The span, of this number of bytes, is longer than the engine can search.
    #[error("HaystackTooLong")]
    HaystackTooLong { len: usize },
    /// The engine does not search in this mode.
    #[error("UnsupportedAnchored")]
    UnsupportedAnchored { mode: Anchored },
    /// There was no memory.
    #[error("Memory")]
    Memory,
}

impl From<Memory> for MatchError {
    ghost from_gives = { λ _ e. e ≡ OutOfMemory };

    fn from(_error: Memory) -> MatchError {
        MatchError::Memory
    }
}

impl From<AllocError> for MatchError {
    ghost from_gives = { λ _ e. e ≡ OutOfMemory };

    fn from(_error: AllocError) -> MatchError {
        MatchError::Memory
    }
}

impl<T: Drop> From<AllocFailed<T>> for MatchError {
    ghost from_gives = { λ _ e. e ≡ OutOfMemory };

    fn from(_error: AllocFailed<T>) -> MatchError {
        MatchError::Memory
    }
}
