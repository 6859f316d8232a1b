//! What the making of keys writes to.

pub(crate) mod make;

use crate::close::Walk;
use rx_search::StateID;

/// What the making of keys writes to, beside the key that is made.
#[derive(Drop)]
pub struct Scratch {
    pub(crate) walk: Walk,
    /// The states in which threads stay at a place.
    pub(crate) threads: Vec<StateID>,
    /// The states that a byte leads to.
    pub(crate) reached: Vec<StateID>,
}
