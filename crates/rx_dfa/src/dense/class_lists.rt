//! A list of states for each class of bytes.
ghost use Rattle.std.specs.Prelude.{◌≡◌, length};

pub(crate) mod chains;

use rx_search::StateID;

/// A list of states for each class of bytes. All of them lie in two vectors, so that no list takes an allocation of its own: each
/// is a chain, from its first state on.
#[derive(Drop)]
pub struct ClassLists {
    /// Of each class, one more than the place of the first state, or 0.
    heads: Vec<usize>,
    states: Vec<StateID>,
    /// Of each state, one more than the place of the one behind it, or 0.
    links: Vec<usize>,
    ghost same: { length states.items ≡ length links.items },
}
