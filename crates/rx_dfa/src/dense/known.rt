//! The states that are known by what leads to them.
ghost use Rattle.std.specs.Prelude.{◌≡◌, length};

pub(crate) mod note;

use crate::state_key::StateKey;
use indexmap::IndexSet;
use rx_search::StateID;
use std::alloc::Global;

/// The states that are known by what leads to them: the states of the NFA that threads come to over a byte, before it is looked
/// where they lead without another one.
#[derive(Drop)]
pub struct Known {
    keys: IndexSet<StateKey>,
    /// The state of each.
    states: Vec<StateID>,
    alloc: Global,
    ghost same: { length keys.keys ≡ length states.items },
}
