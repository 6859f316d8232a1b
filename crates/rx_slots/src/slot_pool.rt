//! Slots that threads exchange values through.
ghost use Rattle.std.specs.Prelude.{◌≡◌, ◌<◌};

use atomic_table::{Join, Play, Seat, Split, Table, TableRule};
use std::alloc::Global;
use std::collections::LinkedList;

mod calls;

/// What a seat knows: the slots that it holds, each with its turn, the last one that it took first; the slot of each of its takes
/// and puts; the turns that it saw, each with its slot; and how many of its takes were refused. No value of it is made.
pub struct SlotView {
    pub held: LinkedList<(u64, u64)>,
    pub moves: LinkedList<u64>,
    pub seen: LinkedList<(u64, u64)>,
    pub refusals: u64,
}

/// A slot is in one hand at most.
pub struct Turns;

impl<T> TableRule<Option<T>, SlotView, ()> for Turns {
    ghost use Rattle.rx_slots.specs.Slots.{Turns, new_view};

    ghost holds = { λ _. Turns };

    ghost first = { λ _. new_view };
}

/// What the step of a take tells.
struct Take;

impl<T> Play<Option<T>, SlotView> for Take {
    ghost use Rattle.rx_slots.specs.Slots.{Takes};

    ghost then = { Takes };
}

/// What the store of a put tells.
struct Put;

impl<T> Play<Option<T>, SlotView> for Put {
    ghost use Rattle.rx_slots.specs.Slots.{Puts};

    ghost then = { Puts };
}

/// How a seat makes another, which has seen nothing, and takes in what another had.
struct Seats;

impl Split<SlotView> for Seats {
    ghost use Rattle.rx_slots.specs.Slots.{new_view};

    ghost left = { λ v. v };

    ghost right = { λ _. new_view };
}

impl Join<SlotView> for Seats {
    ghost use Rattle.rx_slots.specs.Slots.{joined, new_view};

    ghost both = { joined };

    ghost spent = { new_view };
}

/// Slots, each with a value, which threads take and put back. No value is ever in two hands, and no call waits.
#[derive(Drop)]
pub struct SlotPool<T: Drop> {
    table: Table<Option<T>, SlotView, (), Turns, Global>,
    ghost sized: { table.shared.table_id.words ≡ table.shared.table_id.slots },
    ghost some: { 0 < table.shared.table_id.words },
}

/// A seat of a [`SlotPool`], with which a thread takes slots and puts them back. It has no bytes.
#[derive(Drop)]
pub struct SlotSeat<T> {
    seat: Seat<Option<T>, SlotView>,
}
