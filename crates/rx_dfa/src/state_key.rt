//! Keys of the states of a DFA.

pub(crate) mod make;

use rx_search::{PatternID, StateID};

/// What a state of a DFA stands for. Two states of one key are alike.
#[derive(Drop, PartialEq, Eq, Hash)]
pub struct StateKey {
    /// The states of the NFA in which threads stand, the preferred one first, each once.
    pub threads: Vec<StateID>,
    /// The loop, which begins a thread at each later place, stands behind the threads.
    pub loops: bool,
    /// The patterns that match at the place before the last byte.
    pub matches: Vec<PatternID>,
    /// The byte that stands for the class of the last one, where it is kept.
    pub before: Option<u8>,
}
