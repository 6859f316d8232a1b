//! Frames: what a walk over the states comes back to.

use crate::slots::Slot;
use rx_search::StateID;

/// What a walk over the states comes back to.
#[derive(Clone, Copy)]
pub enum Frame {
    /// Try this state at this place.
    Explore { state: StateID, place: usize },
    /// Give the slot its old value back.
    Restore { slot: usize, old: Slot },
}
