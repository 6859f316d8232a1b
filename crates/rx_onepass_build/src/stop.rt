//! Why states are made in vain.
ghost use Rattle.std.specs.Prelude.{◌≡◌};
ghost use Rattle.rx_onepass_build.specs.declared.stop.Stop.TheVariants.{Memory as OutOfMemory};
ghost use Rattle.rx_onepass_build.specs.Stop.{error_of};

use crate::build_error::{BuildError, NotOnePass};
use rx_search::{Memory, PatternID, StateID};
use std::alloc::{AllocError, AllocFailed};

// What is inside hands this on, and not an error that holds another one (DECISIONS: what is inside a build stops with a flat error).
/// Why states are made in vain.
#[derive(Clone, Copy)]
pub enum Stop {
    State { state: StateID },
    Match { first: PatternID, second: PatternID },
    Transition { state: StateID, byte: u8 },
    TooManyStates { limit: usize },
    ExceededSizeLimit { limit: usize, size: usize },
    Memory,
}

impl Stop {
    /// The error of the build.
    pub fn error(self) -> BuildError
        ensures { result ≡ error_of self }
    {
        match self {
            Stop::State { state } => BuildError::NotOnePass(NotOnePass::State { state }),
            Stop::Match { first, second } => {
                BuildError::NotOnePass(NotOnePass::Match { first, second })
            }
            Stop::Transition { state, byte } => {
                BuildError::NotOnePass(NotOnePass::Transition { state, byte })
            }
            Stop::TooManyStates { limit } => BuildError::TooManyStates { limit },
            Stop::ExceededSizeLimit { limit, size } => {
                BuildError::ExceededSizeLimit { limit, size }
            }
            Stop::Memory => BuildError::Memory,
        }
    }
}

impl From<Memory> for Stop {
    ghost from_gives = { λ _ e. e ≡ OutOfMemory };

    fn from(_error: Memory) -> Stop {
        Stop::Memory
    }
}

impl From<AllocError> for Stop {
    ghost from_gives = { λ _ e. e ≡ OutOfMemory };

    fn from(_error: AllocError) -> Stop {
        Stop::Memory
    }
}

impl<T: Drop> From<AllocFailed<T>> for Stop {
    ghost from_gives = { λ _ e. e ≡ OutOfMemory };

    fn from(_error: AllocFailed<T>) -> Stop {
        Stop::Memory
    }
}
