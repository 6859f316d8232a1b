//! Where a search backwards came to.

use rx_search::{HalfMatch, StateID};

/// Where a search backwards came to, and the last start of a match that it met.
#[derive(Clone, Copy)]
pub(crate) enum Scan {
    /// It is over.
    Over(Option<HalfMatch>),
    /// It stands in this state.
    Alive(StateID, Option<HalfMatch>),
}
