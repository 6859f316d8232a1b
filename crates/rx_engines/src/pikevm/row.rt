//! The slots of one thread, or of a match.
ghost use Rattle.std.specs.Prelude.{◌≡◌, ◌+◌, ◌<◌, ◌≤◌, vec_capacity, [], length, IfOk, None, replicate, slice_set};
ghost use Rattle.rx_engines.specs.Threads.{Cells, cells_code};
ghost use Rattle.rx_engines.specs.Walk.{Saves};

use crate::slots::{Slot, clear, copy, write};
use crate::stack::{Stack, save};
use rx_search::Memory;
use std::alloc::Global;
use std::marker::Model;

/// A row of slots, within a fixed room. A contract sees them as a list.
#[derive(Drop)]
pub struct SlotRow {
    cells: Vec<Slot>,
    room: usize,
}

impl Model for SlotRow {
    ghost Value = { Cells };

    ghost coded = { cells_code };

    ghost view = { λ r. record { items = r.cells.items; room = r.room } };

    ghost invariant = { λ r. r.room ≤ vec_capacity r.cells };
}

impl SlotRow {
    /// No slots, with room for so many.
    pub fn new(alloc: Global, room: usize) -> Result<SlotRow, Memory>
        ensures { IfOk result (λ r. r ≡ record { items = []; room = room }) }
    {
        let cells = Vec::with_capacity(alloc, room)?;
        Ok(SlotRow { cells, room })
    }

    /// For how many slots there is room.
    pub fn room(&self) -> usize
        ensures { result ≡ self.now.room }
    {
        self.room
    }

    /// So many slots from now on, each empty.
    pub fn reset(&mut self, width: usize)
        requires { width ≤ self.old.room }
        ensures { self.new ≡ record self.old { items = replicate width None } }
    {
        self.cells.clear();
        for _ in 0..width {
            self.cells.push_reserved(Slot::none());
        }
    }

    /// Empties each slot.
    pub fn clear(&mut self)
        ensures { self.new ≡ record self.old { items = replicate (length self.old.items) None } }
    {
        clear(&mut self.cells);
    }

    /// The slots.
    pub fn as_slice(&self) -> &[Slot]
        ensures { result.now ≡ self.now.items }
    {
        &self.cells
    }

    /// Takes these slots over, which are as many.
    pub fn copy(&mut self, from: &[Slot])
        requires { length from.now ≡ length self.old.items }
        ensures { self.new ≡ record self.old { items = from.now } }
    {
        copy(from, &mut self.cells);
    }

    /// Sets the slot, where there is room for it.
    pub fn write(&mut self, slot: usize, value: Slot)
        ensures { self.new ≡ record self.old { items = slice_set self.old.items slot value } }
    {
        write(&mut self.cells, slot, value);
    }

    /// As `save`, of these slots.
    pub fn save(&mut self, slot: usize, place: usize, stack: &mut Stack)
        requires place { place < usize.MAX }
        requires room { length stack.old.items < stack.old.room }
        ensures saved { Saves slot place stack.old.items stack.new.items self.old.items self.new.items }
        ensures frames { length stack.new.items ≤ 1 + length stack.old.items }
        ensures stack { stack.new.room ≡ stack.old.room }
        ensures width { length self.new.items ≡ length self.old.items }
        ensures room { self.new.room ≡ self.old.room }
    {
        save(stack, &mut self.cells, slot, place);
    }
}
