//! The cache of a lazy DFA.

use crate::lazy::rows::Rows;
use crate::scratch::Scratch;
use crate::state_key::StateKey;

/// The states of a lazy DFA that were made, within the capacity of the automaton, and what new ones are made with.
#[derive(Drop)]
pub struct LazyCache {
    pub(crate) rows: Rows,
    pub(crate) scratch: Scratch,
    /// The key of the state in which the search stands.
    pub(crate) from: StateKey,
    /// The key of the state that is looked for.
    pub(crate) into: StateKey,
}
