//! What a table is made of.

use crate::alphabet::Alphabet;
use crate::determinize::Source;
use rx_nfa::NFA;

/// What a table is made of.
#[derive(Drop)]
pub struct Job<'a> {
    pub nfa: &'a NFA,
    pub source: Source<'a>,
    pub alphabet: &'a Alphabet,
}
