//! The states that were found while a table is made, by their keys.
ghost use Rattle.std.specs.Prelude.{◌*◌, ◌<◌, ◌≤◌, length};

pub(crate) mod find;

use crate::state_key::StateKey;
use indexmap::IndexSet;
use std::alloc::Global;

/// The keys of the states that were found, each once.
#[derive(Drop)]
pub struct Found {
    /// Those that are neither dead nor tell a match.
    pub plain: IndexSet<StateKey>,
    /// The dead one, and those that tell a match.
    pub special: IndexSet<StateKey>,
    /// How many cells a row has.
    pub stride: usize,
    /// The greatest size that the table may have.
    pub limit: Option<usize>,
    pub alloc: Global,
    ghost some: { 0 < stride },
    ghost narrow: { stride ≤ 512 },
    ghost plain_room: { length plain.keys * stride < 1073741824 },
    ghost special_room: { length special.keys * stride < 1073741824 },
}
