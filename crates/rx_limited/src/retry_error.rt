//! Why a search that may stop early has no answer, so that another one has to be tried.

use rx_search::HalfMatch;
use std::alloc::{AllocError, AllocFailed};

/// What was met where a search would read bytes again that were read before.
#[derive(Clone, Copy, Debug, PartialEq, Eq)]
pub enum Quadratic {
    /// A search backwards was not at its end before the byte at `at`, which lies under `min_start`.
    Below { at: usize, min_start: usize },
    /// A search backwards came to the start of its span and was not at its end. It found this start of a match, which is a later
    /// one.
    AtStart { found: HalfMatch },
    /// A candidate begins at `start`, before the place at which an earlier search forwards stopped without a match.
    Candidate { start: usize, stopped: usize },
}

/// Why a search that may stop early has no answer.
#[derive(Clone, Copy, Debug, PartialEq, Eq)]
pub enum RetryError {
    /// It would read bytes again that were read before.
    Quadratic(Quadratic),
    /// The automaton quit at the byte of this place, or gave up at this place.
    Fail { offset: usize },
    /// There was no memory.
    Memory,
}
