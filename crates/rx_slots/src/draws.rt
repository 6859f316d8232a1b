//! Numbers that threads draw, each once.
ghost use Rattle.std.specs.Prelude.{◌≡◌};

use atomic_table::{Play, Seat, Split, Table, TableRule};
use std::alloc::Global;
use std::collections::LinkedList;

mod calls;

/// The number at which the draws end, and how many seats there may be.
#[derive(Clone, Copy)]
pub struct Bounds {
    limit: u64,
    seats: u64,
}

/// What a seat knows: the limit, the numbers that it drew, whether it found none left, and how many seats it may still make.
/// No value of it is made.
pub struct DrawView {
    pub limit: u64,
    pub numbers: LinkedList<u64>,
    pub done: bool,
    pub left: u64,
}

/// No number is drawn twice.
pub struct EachOnce;

impl TableRule<(), DrawView, Bounds> for EachOnce {
    ghost use Rattle.rx_slots.specs.Draws.{EachOnce, first_drawer};

    ghost holds = { EachOnce };

    ghost first = { first_drawer };
}

/// What a draw tells.
struct Draw;

impl Play<(), DrawView> for Draw {
    ghost use Rattle.rx_slots.specs.Draws.{Draws};

    ghost then = { Draws };
}

/// How a seat makes another.
struct Another;

impl Split<DrawView> for Another {
    ghost use Rattle.rx_slots.specs.Draws.{with_one_less, new_drawer};

    ghost left = { with_one_less };

    ghost right = { new_drawer };
}

/// The numbers from 0 up to a limit, which threads draw, each once. No call waits.
#[derive(Drop)]
pub struct Draws {
    table: Table<(), DrawView, Bounds, EachOnce, Global>,
    limit: u64,
    ghost sized: { table.shared.table_id.words ≡ 1 },
    ghost limited: { limit ≡ table.shared.key.limit },
}

/// A seat of [`Draws`], with which a thread draws. It has no bytes.
#[derive(Drop)]
pub struct DrawSeat {
    seat: Seat<(), DrawView>,
}
