//! What a table is made of.

use rx_nfa::NFA;
use rx_search::ByteClasses;

/// What a table is made of.
#[derive(Drop)]
pub struct Job<'a> {
    pub nfa: &'a NFA,
    pub classes: &'a ByteClasses,
    /// The least byte of each class.
    pub bytes: &'a [u8],
    /// The first explicit slot.
    pub explicit_start: usize,
    /// The starts of each pattern are entries too.
    pub each: bool,
}
