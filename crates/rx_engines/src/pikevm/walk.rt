//! What a walk over states that read nothing writes to.

use crate::pikevm::row::SlotRow;
use crate::stack::Stack;

/// What a walk over states that read nothing writes to.
#[derive(Drop)]
pub struct Walk {
    /// The slots of the thread that is followed.
    pub slots: SlotRow,
    /// What the walk comes back to.
    pub stack: Stack,
}
