//! Why there is no lazy DFA.
ghost use Rattle.std.specs.Prelude.{◌≡◌};
ghost use Rattle.rx_dfa.specs.declared.lazy.build_error.BuildError.TheVariants.{Memory as OutOfMemory};

use rx_search::Memory;

/// Why there is no lazy DFA.
#[derive(Clone, Copy, Debug, Drop, PartialEq, Eq)]
pub enum BuildError {
    /// A cache of this capacity would be below the minimum of the NFA.
    CacheTooSmall { minimum: usize, given: usize },
    /// There was no memory.
    Memory,
}

impl From<Memory> for BuildError {
    ghost from_gives = { λ _ e. e ≡ OutOfMemory };

    fn from(_error: Memory) -> BuildError {
        BuildError::Memory
    }
}
