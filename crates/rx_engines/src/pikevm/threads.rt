//! The threads at a place.
ghost use Rattle.std.specs.Prelude.{◌≡◌, ◌*◌, ◌<◌, ◌^◌, ◌≤◌, [], length, IfOk};

use crate::pikevm::set::SparseSet;
use crate::pikevm::table::Table;
use rx_search::Memory;
use std::alloc::Global;

/// The threads at a place: their states in order of preference, and for each state a row of slots.
#[derive(Drop)]
pub struct Threads {
    pub set: SparseSet,
    pub table: Table,
}

impl Threads {
    /// Room for so many states, and for so many slots of theirs in all.
    pub fn new(alloc: Global, states: usize, cells: usize) -> Result<Threads, Memory>
        requires { states < 2 ^ 32 }
        ensures set { IfOk result (λ t. (t.set.items ≡ []) × (t.set.capacity ≡ states)) }
        ensures table { IfOk result (λ t. t.table.capacity ≡ states) }
        ensures cells { IfOk result (λ t. t.table.cells ≡ cells) }
        ensures small { IfOk result (λ _. cells < 2 ^ 63) }
    {
        Ok(Threads {
            set: SparseSet::new(alloc, states)?,
            table: Table::new(alloc, states, cells)?,
        })
    }

    /// No threads, of states below `states` and with `width` slots each.
    pub fn reset(&mut self, states: usize, width: usize)
        requires set { states ≤ self.old.set.capacity }
        requires table { states ≤ self.old.table.capacity }
        requires cells { states * width ≤ self.old.table.cells }
        ensures set { self.new.set ≡ record { items = []; room = states; capacity = self.old.set.capacity } }
        ensures items { length self.new.table.items ≡ states }
        ensures width { self.new.table.width ≡ width }
        ensures capacity { self.new.table.capacity ≡ self.old.table.capacity }
        ensures cells { self.new.table.cells ≡ self.old.table.cells }
    {
        self.set.reset(states);
        self.table.reset(states, width);
    }
}
