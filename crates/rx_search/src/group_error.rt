//! Why there is no `GroupInfo`.
ghost use Rattle.std.specs.Prelude.{◌≡◌};
ghost use Rattle.rx_search.specs.declared.group_error.GroupInfoError.TheVariants.{Memory as OutOfMemory};

use crate::primitives::PatternID;
use rx_memory::Memory;
use std::alloc::{AllocError, AllocFailed};

/// Why there is no `GroupInfo` of some groups.
#[derive(Clone, Copy, Debug, PartialEq, Eq)]
pub enum GroupInfoError {
    /// This pattern has no group.
    MissingGroups { pattern: PatternID },
    /// The first group of this pattern has a name.
    FirstMustBeUnnamed { pattern: PatternID },
    /// A name stands twice in this pattern.
    Duplicate { pattern: PatternID },
    /// More slots than a match may have.
    TooMany,
    /// There was no memory.
    Memory,
}

impl From<Memory> for GroupInfoError {
    ghost from_gives = { λ _ e. e ≡ OutOfMemory };

    fn from(_error: Memory) -> GroupInfoError {
        GroupInfoError::Memory
    }
}

impl From<AllocError> for GroupInfoError {
    ghost from_gives = { λ _ e. e ≡ OutOfMemory };

    fn from(_error: AllocError) -> GroupInfoError {
        GroupInfoError::Memory
    }
}

impl<T: Drop> From<AllocFailed<T>> for GroupInfoError {
    ghost from_gives = { λ _ e. e ≡ OutOfMemory };

    fn from(_error: AllocFailed<T>) -> GroupInfoError {
        GroupInfoError::Memory
    }
}
