//! The NFA that is determinized.

pub(crate) mod keys;

use rx_nfa::State;
use rx_search::{LookMatcher, MatchKind, StateID};

/// The NFA that is determinized.
#[derive(Drop)]
pub struct Source<'a> {
    pub states: &'a [State],
    /// Where the loop begins its threads.
    pub start: StateID,
    pub matcher: LookMatcher,
    /// The text is read backwards.
    pub reverse: bool,
    pub kind: MatchKind,
}
