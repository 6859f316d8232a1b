//! Where a worker begins, and what it leaves.
ghost use Rattle.std.specs.Prelude.{◌≡◌, ◌+◌, ◌<◌, ◌≤◌, IfOk};
ghost use Rattle.std.specs.List.{All};
ghost use Rattle.rx_slots.specs.DrawSeats.{draw_view};
ghost use Rattle.rx_slots.specs.Slots.{new_view};
ghost use Rattle.rx_slots.specs.SlotSeats.{IsSlotSeat, slots_of, slot_view};
ghost use Rattle.rx_workers.specs.Places.{IsDrawer, IsPlace};

use crate::found::Found;
use rx_memory::Memory;
use rx_slots::{DrawSeat, Draws, SlotPool, SlotSeat};
use std::alloc::Global;

/// The slot that a worker tries, and its seats.
#[derive(Drop)]
pub struct Place<S> {
    pub slot: usize,
    pub seat: SlotSeat<S>,
    pub drawer: DrawSeat,
}

/// What a worker found, in the order in which it drew the numbers, and its seat, if that holds no slot.
#[derive(Drop)]
pub struct Left<V, S> {
    pub found: Result<Vec<Found<V>>, Memory>,
    pub seat: Option<SlotSeat<S>>,
}

/// A place for each of so many workers. Worker k tries slot k modulo the number of slots; the last place is that of worker 0,
/// whose seat of the draws made the others.
pub fn places<S: Drop>(
    alloc: Global,
    pool: &SlotPool<S>,
    slots: usize,
    seat: &mut SlotSeat<S>,
    draws: &Draws,
    drawer: DrawSeat,
    workers: usize,
) -> Result<Vec<Place<S>>, Memory>
    requires slots { 0 < slots }
    requires all_slots { slots ≡ slots_of pool.now }
    requires seat { IsSlotSeat pool.now seat.old }
    requires drawer { IsDrawer draws.now drawer }
    requires left { workers ≤ (draw_view drawer).left + 1 }
    ensures places { IfOk result (λ all. All (IsPlace pool.now draws.now) all.items) }
    ensures seat { IsSlotSeat pool.now seat.new }
{
    let mut first = drawer;
    let mut all = Vec::new(alloc);
    for k in 1..workers {
        let own = draws.split(&mut first);
        let one = place_at(pool, k % slots, seat, own);
        all.push(one)?;
    }
    let last = place_at(pool, 0, seat, first);
    all.push(last)?;
    Ok(all)
}

/// A place, with a seat of its own.
fn place_at<S: Drop>(
    pool: &SlotPool<S>,
    slot: usize,
    seat: &mut SlotSeat<S>,
    drawer: DrawSeat,
) -> Place<S>
    requires slot { slot < slots_of pool.now }
    requires seat { IsSlotSeat pool.now seat.old }
    ensures slot { result.slot ≡ slot }
    ensures another { IsSlotSeat pool.now result.seat }
    ensures empty { slot_view result.seat ≡ new_view }
    ensures drawer { result.drawer ≡ drawer }
    ensures seat { IsSlotSeat pool.now seat.new }
{
    let another = pool.split(seat);
    Place {
        slot,
        seat: another,
        drawer,
    }
}
