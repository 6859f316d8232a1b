//! The slots of a pattern that is compiled.

use rx_search::PatternID;

/// A pattern, whether it is read backwards, and its slots, if it has any: the first of its whole match, and the first of
/// the groups that it names.
#[derive(Clone, Copy)]
pub struct Groups {
    pub pattern: PatternID,
    pub reverse: bool,
    pub whole_slot: Option<usize>,
    pub first_slot: Option<usize>,
}
