//! Why a step of a DFA has no answer.

use std::alloc::{AllocError, AllocFailed};

/// Why a step of a DFA has no answer. A search adds the place.
#[derive(Clone, Copy, Debug, Drop, PartialEq, Eq)]
pub enum StepError {
    /// The automaton does not read this byte: a look-around for words of Unicode stands in the expression, and the byte is
    /// above 7F.
    Quit { byte: u8 },
    /// The automaton gave up.
    GaveUp,
    /// There was no memory.
    Memory,
}
