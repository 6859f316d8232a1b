//! Where a search from one place on stopped.

use crate::search::progress::Met;

/// Where a search from one place on stopped.
#[derive(Clone, Copy)]
pub(crate) enum Stop {
    /// At the end of its span, or where it was to stop: it met this.
    Met(Met),
    /// At this place, at which it stands as if it began there. It met nothing.
    Back(usize),
}
