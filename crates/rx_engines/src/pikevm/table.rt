//! Where the threads began, and their slots.
ghost use Rattle.std.specs.Prelude.{◌≡◌, ◌+◌, ◌*◌, ◌^◌, ◌<◌, ◌≤◌, length, take, IfOk, slice_set};
ghost use Rattle.rx_engines.specs.Threads.{Rows, rows_code, rows_of, row_at};

use crate::slots::{Slot, copy};
use rx_search::{Memory, StateID};
use std::alloc::Global;
use std::marker::Model;

/// For each state where its match began, and a row of slots.
#[derive(Drop)]
pub struct Table {
    starts: Vec<usize>,
    cells: Vec<Slot>,
    /// How many rows there are.
    rows: usize,
    width: usize,
}

impl Model for Table {
    ghost Value = { Rows };

    ghost coded = { rows_code };

    ghost view = { λ t. record {
      items = rows_of t.width (take t.rows t.starts.items) t.cells.items;
      width = t.width;
      capacity = length t.starts.items;
      cells = length t.cells.items;
    } };

    ghost invariant = { λ t. (t.rows ≤ length t.starts.items)
        × (t.rows * t.width ≤ length t.cells.items) };
}

impl Table {
    /// Room for so many rows, and for so many slots in all.
    pub fn new(alloc: Global, capacity: usize, cells: usize) -> Result<Table, Memory>
        ensures capacity { IfOk result (λ t. t.capacity ≡ capacity) }
        ensures cells { IfOk result (λ t. t.cells ≡ cells) }
        ensures small { IfOk result (λ _. cells < 2 ^ 63) }
    {
        let starts = vec![in alloc; 0usize; capacity]?;
        let none = Slot::none();
        let cells = vec![in alloc; none; cells]?;
        Ok(Table {
            starts,
            cells,
            rows: 0,
            width: 0,
        })
    }

    /// For how many slots in all there is room.
    pub fn cells(&self) -> usize
        ensures value { result ≡ self.now.cells }
        ensures small { self.now.cells < 2 ^ 63 }
    {
        self.cells.len()
    }

    /// So many rows of `width` slots from now on, whatever they hold.
    pub fn reset(&mut self, rows: usize, width: usize)
        requires rows { rows ≤ self.old.capacity }
        requires cells { rows * width ≤ self.old.cells }
        ensures items { length self.new.items ≡ rows }
        ensures width { self.new.width ≡ width }
        ensures capacity { self.new.capacity ≡ self.old.capacity }
        ensures cells { self.new.cells ≡ self.old.cells }
    {
        self.rows = rows;
        self.width = width;
    }

    pub fn start(&self, state: StateID) -> usize
        requires { state < length self.now.items }
        ensures { result ≡ (row_at self.now.items state).0 }
    {
        self.starts[state.as_usize()]
    }

    pub fn slots(&self, state: StateID) -> &[Slot]
        requires { state < length self.now.items }
        ensures value { result.now ≡ (row_at self.now.items state).1 }
        ensures width { length result.now ≡ self.now.width }
    {
        let from = state.as_usize() * self.width;
        &self.cells[from..from + self.width]
    }

    /// The state gets this row.
    pub fn set(&mut self, state: StateID, start: usize, slots: &[Slot])
        requires state { state < length self.old.items }
        requires width { length slots.now ≡ self.old.width }
        ensures { self.new ≡ record self.old {
          items = slice_set self.old.items state (start, slots.now);
        } }
    {
        self.starts[state.as_usize()] = start;
        let from = state.as_usize() * self.width;
        copy(slots, &mut self.cells[from..from + self.width]);
    }
}
