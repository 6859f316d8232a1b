//! What a worker does.
ghost use Rattle.std.specs.Prelude.{◌≡◌, ◌+◌, ◌<◌, ◌^◌, ◌∷◌, [], ℕ, true, IfOk, IfSome, OnOk};
ghost use Rattle.rx_slots.specs.DrawSeats.{limit_of};
ghost use Rattle.rx_slots.specs.SlotSeats.{IsSlotSeat, slot_view, slots_of};
ghost use Rattle.rx_workers.specs.Places.{IsDrawer, IsLimit, IsPlace, IsLeft, IsFree};
ghost use Rattle.std.specs.List.{All};
ghost use Rattle.rx_workers.specs.Answers.{AreFound, IsFound};

use crate::found::Found;
use crate::place::{Left, Place};
use crate::task::Task;
use rx_memory::Memory;
use rx_slots::{DrawSeat, Draws, SlotPool, SlotSeat};
use std::alloc::Global;

/// Works from a place on until no number is left, with what the slot of the place has, if no other worker has it. So many
/// numbers are drawn at a time.
pub fn work<T: Task>(
    alloc: Global,
    task: &T,
    pool: &SlotPool<T::Scratch>,
    draws: &Draws,
    at_a_time: usize,
    place: Place<T::Scratch>,
) -> Left<T::Value, T::Scratch>
    requires place { IsPlace pool.now draws.now place }
    requires size { IsLimit draws.now (T.size task.now) }
    ensures { IsLeft pool.now (T.size task.now) (T.answers task.now) result }
{
    let Place {
        slot,
        mut seat,
        mut drawer,
    } = place;
    let Ok((turn, mut scratch)) = pool.take(&mut seat, slot) else {
        let found = work_alone(alloc, task, draws, at_a_time, &mut drawer);
        return Left {
            found,
            seat: Some(seat),
        };
    };
    let found = work_with(alloc, task, draws, at_a_time, &mut drawer, &mut scratch);
    let seat = put_back(pool, seat, slot, turn, scratch);
    Left { found, seat }
}

/// Puts a value back into its slot. There is no seat where the slot is at its greatest turn, at which the seat keeps it.
fn put_back<S: Drop>(
    pool: &SlotPool<S>,
    seat: SlotSeat<S>,
    slot: usize,
    turn: u64,
    scratch: S,
) -> Option<SlotSeat<S>>
    requires of { IsSlotSeat pool.now seat }
    requires slot { slot < slots_of pool.now }
    requires held { (slot_view seat).held ≡ (slot, turn) ∷ [] }
    ensures { IfSome result (IsFree pool.now) }
{
    let mut seat = seat;
    pool.put(&mut seat, slot, turn, scratch);
    if turn == u64::MAX {
        return None;
    }
    Some(seat)
}

/// Works with a scratch value of the worker's own.
fn work_alone<T: Task>(
    alloc: Global,
    task: &T,
    draws: &Draws,
    at_a_time: usize,
    drawer: &mut DrawSeat,
) -> Result<Vec<Found<T::Value>>, Memory>
    requires drawer { IsDrawer draws.now drawer.old }
    requires size { IsLimit draws.now (T.size task.now) }
    ensures { IfOk result (λ found. AreFound (T.size task.now) (T.answers task.now) found.items) }
{
    let mut scratch = task.make(alloc)?;
    work_with(alloc, task, draws, at_a_time, drawer, &mut scratch)
}

/// Draws some numbers at a time, and answers one after another, until none is left.
fn work_with<T: Task>(
    alloc: Global,
    task: &T,
    draws: &Draws,
    at_a_time: usize,
    drawer: &mut DrawSeat,
    scratch: &mut T::Scratch,
) -> Result<Vec<Found<T::Value>>, Memory>
    requires drawer { IsDrawer draws.now drawer.old }
    requires size { IsLimit draws.now (T.size task.now) }
    ensures { IfOk result (λ found. AreFound (T.size task.now) (T.answers task.now) found.items) }
{
    task.fit(alloc, scratch)?;
    let mut drawn = Vec::with_capacity(alloc, at_a_time)?;
    let mut found = Vec::new(alloc);
    // No clause of a draw bounds the draws (DECISIONS: a worker draws at most 2 ^ 64 - 1 times).
    'draws: for _ in 0..u64::MAX {
        let is_more = draw_some(draws, at_a_time, drawer, &mut drawn)?;
        for number in &drawn {
            answer_one(alloc, task, *number, scratch, &mut found)?;
        }
        if !is_more {
            break;
        }
    }
    Ok(found)
}

/// Draws so many numbers, or those that are left, in place of those that were drawn before. True where none was missing, so that
/// more may be left.
fn draw_some(
    draws: &Draws,
    at_a_time: usize,
    drawer: &mut DrawSeat,
    drawn: &mut Vec<usize>,
) -> Result<bool, Memory>
    requires { IsDrawer draws.now drawer.old }
    ensures drawn { OnOk result (All (λ i. i < limit_of draws.now) drawn.new.items) }
    ensures more { IfOk result (λ more. more ≡ true → IsDrawer draws.now drawer.new) }
{
    drawn.clear();
    'numbers: for _ in 0..at_a_time {
        let Some(number) = draws.draw(drawer) else {
            return Ok(false);
        };
        drawn.push(number as usize)?;
    }
    Ok(true)
}

/// Answers the work of a number. The answer goes to those that were found last, where these are to the numbers before it.
fn answer_one<T: Task>(
    alloc: Global,
    task: &T,
    index: usize,
    scratch: &mut T::Scratch,
    found: &mut Vec<Found<T::Value>>,
) -> Result<(), Memory>
    requires room { T.size task.now < 2 ^ 63 }
    requires there { index < T.size task.now }
    requires fit { T.fits task.now scratch.old }
    requires before { AreFound (T.size task.now) (T.answers task.now) found.old.items }
    ensures found { OnOk result (AreFound (T.size task.now) (T.answers task.now) found.new.items) }
    ensures fit { OnOk result (T.fits task.now scratch.new) }
{
    let len = found.len();
    if len > 0 {
        let last = &mut found[len - 1];
        if last.index + last.count == index {
            return answer_next(alloc, task, index, scratch, last);
        }
    }
    answer_anew(alloc, task, index, scratch, found)
}

/// Answers the work of a number, and notes the answer as the last one.
fn answer_anew<T: Task>(
    alloc: Global,
    task: &T,
    index: usize,
    scratch: &mut T::Scratch,
    found: &mut Vec<Found<T::Value>>,
) -> Result<(), Memory>
    requires there { index < T.size task.now }
    requires fit { T.fits task.now scratch.old }
    requires before { AreFound (T.size task.now) (T.answers task.now) found.old.items }
    ensures found { OnOk result (AreFound (T.size task.now) (T.answers task.now) found.new.items) }
    ensures fit { OnOk result (T.fits task.now scratch.new) }
{
    let mut value = task.open(alloc, room_of_last(task, found))?;
    task.answer(alloc, index, scratch, &mut value)?;
    found.push(Found {
        index,
        count: 1,
        value,
    })?;
    Ok(())
}

/// How much room the answers take that were found last, or 0.
fn room_of_last<T: Task>(task: &T, found: &[Found<T::Value>]) -> usize {
    match found {
        [.., last] => task.room(&last.value),
        [] => 0,
    }
}

/// Adds the answer to the work of a number to those to the numbers before it.
fn answer_next<T: Task>(
    alloc: Global,
    task: &T,
    index: usize,
    scratch: &mut T::Scratch,
    last: &mut Found<T::Value>,
) -> Result<(), Memory>
    requires room { T.size task.now < 2 ^ 63 }
    requires there { index < T.size task.now }
    requires fit { T.fits task.now scratch.old }
    requires before { IsFound (T.size task.now) (T.answers task.now) last.old }
    requires next { index ≡ last.old.index + last.old.count }
    ensures found { OnOk result (IsFound (T.size task.now) (T.answers task.now) last.new) }
    ensures fit { OnOk result (T.fits task.now scratch.new) }
{
    task.answer(alloc, index, scratch, &mut last.value)?;
    last.count += 1;
    Ok(())
}
