//! The states that a cache holds.

use crate::lazy::key_set::KeySet;
use crate::lazy::start::Start;
use rx_search::StateID;

/// The states that a cache holds: a row for each of them, with its key.
#[derive(Drop)]
pub struct Rows {
    /// The cells of the table, row by row: the state after each class of bytes and after the end of input, or unknown.
    pub(crate) cells: Vec<StateID>,
    /// The key of each row.
    pub(crate) keys: KeySet,
    /// The starts that were met.
    pub(crate) starts: Vec<Start>,
    /// The bytes that are accounted for the states.
    pub(crate) size: usize,
    /// How often it was cleared.
    pub(crate) clears: usize,
    /// How many steps the search had taken when it was last cleared, if this search cleared it.
    pub(crate) since: Option<u64>,
    /// How many steps it took from then to when room was last looked for.
    pub(crate) calls: u64,
}
