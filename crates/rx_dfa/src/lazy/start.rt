//! A start that a cache knows.

use rx_search::StateID;

/// The state at a start: where runs begin at this state of the NFA, with the loop or without, and this stands for the byte beside.
#[derive(Clone, Copy, Drop)]
pub struct Start {
    pub start: StateID,
    pub loops: bool,
    pub before: Option<u8>,
    pub state: StateID,
}
