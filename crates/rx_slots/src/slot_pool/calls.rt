//! The calls of [`SlotPool`].
ghost use Rattle.std.specs.Prelude.{◌≡◌, ◌+◌, ◌-◌, ◌^◌, ◌<◌, [], ◌∷◌, List, ℕ, length, map, Some, IfOk, MatchResult};
ghost use Rattle.rx_slots.specs.Slots.{new_view, put_back, joined};
ghost use Rattle.rx_slots.specs.SlotSeats.{IsSlotSeat, slot_view, slots_of, IsTaken, IsRefused};

use super::{Put, Seats, SlotPool, SlotSeat, Take};
use atomic_table::Table;
use rx_memory::Memory;
use std::alloc::Global;

impl<T: Drop> SlotPool<T> {
    /// A pool with a slot for each value, and its first seat.
    ///
    /// # Errors
    ///
    /// Only want of memory. The values are freed then.
    pub fn new(alloc: Global, values: Vec<T>) -> Result<(SlotPool<T>, SlotSeat<T>), Memory>
        requires some { 0 < length values.items }
        ensures slots { IfOk result (λ made. slots_of made.0 ≡ length values.items) }
        ensures seat { IfOk result (λ made. IsSlotSeat made.0 made.1) }
        ensures first { IfOk result (λ made. slot_view made.1 ≡ new_view) }
    {
        let turns = vec![in alloc; 0u64; values.len()]?;
        let slots = full(alloc, values)?;
        match Table::new(alloc, turns.as_slice(), slots, &()) {
            Ok((table, seat)) => Ok((SlotPool { table }, SlotSeat { seat })),
            Err(_) => Err(Memory),
        }
    }

    /// Another seat, which has seen nothing.
    pub fn split(&self, seat: &mut SlotSeat<T>) -> SlotSeat<T>
        requires { IsSlotSeat self.now seat.old }
        ensures of { IsSlotSeat self.now seat.new }
        ensures same { slot_view seat.new ≡ slot_view seat.old }
        ensures another { IsSlotSeat self.now result }
        ensures empty { slot_view result ≡ new_view }
    {
        let another = self.table.shared.split_seat::<Seats>(&mut seat.seat);
        SlotSeat { seat: another }
    }

    /// Ends another seat, which holds no slot. What it knew goes to this one.
    pub fn join(&self, seat: &mut SlotSeat<T>, other: SlotSeat<T>)
        requires of { IsSlotSeat self.now seat.old }
        requires other { IsSlotSeat self.now other }
        requires holds_none { (slot_view other).held ≡ [] }
        ensures of { IsSlotSeat self.now seat.new }
        ensures both { slot_view seat.new ≡ joined (slot_view seat.old) (slot_view other) }
    {
        let SlotSeat { seat: other } = other;
        self.table.shared.join_seat::<Seats>(&mut seat.seat, other);
    }

    /// Takes a slot: its new turn and its value. It takes one atomic step and no memory.
    ///
    /// # Errors
    ///
    /// The turn that the step found, exactly where that is odd: another seat holds the slot, or this one.
    pub fn take(&self, seat: &mut SlotSeat<T>, slot: usize) -> Result<(u64, T), u64>
        requires of { IsSlotSeat self.now seat.old }
        requires slot { slot < slots_of self.now }
        ensures of { IsSlotSeat self.now seat.new }
        ensures answer { MatchResult result (λ got. IsTaken (slot_view seat.old) slot got.0 (slot_view seat.new))
            (λ turn. IsRefused (slot_view seat.old) slot turn (slot_view seat.new)) }
    {
        let found = self.table.shared.fetch_or::<Take>(&mut seat.seat, slot, 1);
        if found % 2 == 1 {
            return Err(found);
        }
        let Some(value) = self.table.shared.exchange(&mut seat.seat, slot, None) else {
            unreachable!()
        };
        Ok((found + 1, value))
    }

    /// Puts a value back into the slot that the seat took last, at the turn at which it has it. It takes no memory.
    ///
    /// At the greatest turn the value is freed and the seat keeps the slot.
    pub fn put(&self, seat: &mut SlotSeat<T>, slot: usize, turn: u64, value: T)
        requires of { IsSlotSeat self.now seat.old }
        requires slot { slot < slots_of self.now }
        requires held { (others : List (ℕ × ℕ)) × ((slot_view seat.old).held ≡ (slot, turn) ∷ others) }
        ensures of { IsSlotSeat self.now seat.new }
        ensures back { turn < 2 ^ 64 - 1 → slot_view seat.new ≡ put_back (slot_view seat.old) slot (turn + 1) }
        ensures last { turn ≡ 2 ^ 64 - 1 → slot_view seat.new ≡ slot_view seat.old }
    {
        if turn == u64::MAX {
            return;
        }
        let _empty = self
            .table
            .shared
            .exchange(&mut seat.seat, slot, Some(value));
        self.table
            .shared
            .store::<Put>(&mut seat.seat, slot, turn + 1);
    }
}

/// The values, as slots that hold them.
fn full<T: Drop>(alloc: Global, values: Vec<T>) -> Result<Vec<Option<T>>, Memory>
    ensures { IfOk result (λ slots. slots.items ≡ map Some values.items) }
{
    let mut slots = Vec::with_capacity(alloc, values.len())?;
    for value in values {
        slots.push(Some(value))?;
    }
    Ok(slots)
}
