//! The full DFA: its whole table is made when it is built.
ghost use Rattle.std.specs.Prelude.{◌≡◌, ◌^◌, length};
ghost use Rattle.rx_dfa.specs.Dense.{size_of};

mod automaton;
mod build;
mod class_lists;
mod error;
mod found;
mod job;
mod known;
mod numbers;
mod rows;
mod spread;
mod starts;

use crate::alphabet::Alphabet;
use crate::dense::found::Found;
pub use error::BuildError;
use rx_nfa::NFA;
use rx_search::{MatchKind, PatternID, StateID};
use std::marker::Model;
use std::snapshot::Snapshot;

/// The full DFA of an NFA. A search takes no memory, and has no cache.
///
/// A state is named by the place of its row in the table. Behind the rows of the others stand that of the dead state and those
/// of the states that tell a match. A row has a cell for each class of bytes, one for the end of input, and some more up to a
/// power of 2.
#[derive(Drop)]
pub struct Dense {
    nfa: NFA,
    kind: MatchKind,
    alphabet: Alphabet,
    /// A row has 2 to this power cells.
    stride2: usize,
    table: Vec<StateID>,
    /// The dead state, of which the row is the first of those behind the others.
    dead: StateID,
    /// Of each mode, the starts by the class of what stands beside them.
    starts: Vec<StateID>,
    /// The patterns that match, of each row from that of the dead state on.
    matches: Vec<Vec<PatternID>>,
    /// The keys of the rows.
    found: Snapshot<Found>,
}

impl Model for Dense {
    ghost use Rattle.std.specs.Prelude.{map};
    ghost use Rattle.std.specs.Vec.{vec_items};
    ghost use Rattle.rx_dfa.specs.Table.{DenseValue, IsDense};
    ghost use Rattle.rx_dfa.specs.DenseView.{value_of};

    ghost Value = { DenseValue };

    ghost view = { λ d. value_of d.nfa d.kind d.alphabet d.stride2 d.table.items d.dead d.starts.items (map vec_items d.matches.items) d.found.value };

    ghost invariant = { λ d. IsDense (value_of d.nfa d.kind d.alphabet d.stride2 d.table.items d.dead d.starts.items (map vec_items d.matches.items)
        d.found.value) };
}

impl Dense {
    /// The bytes that are accounted for the table: 4 for each cell of a row, of each state and of the state in which it quits.
    pub fn memory_usage(&self) -> usize
        ensures { result ≡ size_of (2 ^ self.now.stride2) (length self.now.keys) }
    {
        4 * (self.table.len() + (1 << self.stride2))
    }
}
