//! All works, by many threads.
ghost use Rattle.std.specs.Prelude.{◌≡◌, ◌<◌, ℕ, IfOk};
ghost use Rattle.rx_slots.specs.SlotSeats.{IsSlotSeat, slots_of};
ghost use Rattle.std.specs.List.{All};
ghost use Rattle.rx_workers.specs.Places.{IsLimit, IsPlace, IsLeft};

use crate::answers::{complete, gather};
use crate::place::{Left, Place, places};
use crate::task::Task;
use crate::worker::work;
use rx_memory::Memory;
use rx_slots::{Draws, SlotPool, SlotSeat};
use std::alloc::Global;
use std::thread::{Threads, map_vec};

/// What the answers to the works of a task are together.
///
/// There are so many workers, but no more than works, and at least one. Each draws one number after another, and some ahead
/// where there are hundreds for each worker, until none is left. It works with a scratch value from a slot; of these there
/// are so many as workers, but no more than `slots`, and at least one. Where the slot of a worker is in another one's hand, it
/// makes a scratch value of its own. A worker for which no thread could be started works on the caller's. What no worker
/// found the caller looks for, once all have ended.
///
/// # Errors
///
/// Only want of memory, of a worker or of this call, once all workers have ended.
pub fn do_all<R: Threads + Sync, T: Task + Sync>(
    rt: &R,
    alloc: Global,
    task: &T,
    workers: usize,
    slots: usize,
) -> Result<T::Whole, Memory>
    ensures { IfOk result (T.gathers task.now (T.size task.now)) }
{
    let count = task.count();
    let workers = workers.min(count).max(1);
    let slots = workers.min(slots).max(1);
    let (pool, mut seat) = scratches(alloc, task, slots)?;
    let (draws, first) = Draws::new(alloc, count as u64, workers as u64)?;
    let places = places(alloc, &pool, slots, &mut seat, &draws, first, workers)?;
    let at_a_time = drawn_at_a_time(count, workers);
    let left = work_all(rt, alloc, task, &pool, &draws, at_a_time, places)?;
    let found = gather(alloc, task, &pool, &mut seat, left)?;
    complete(alloc, task, found)
}

/// How many numbers a worker draws at a time, at most.
const MOST_AT_A_TIME: usize = 512;

/// How many numbers there are for each worker, at least, for each of several that it draws at a time.
const FOR_EACH: usize = 128;

/// How many numbers each of so many workers draws at a time. All write the word that they draw from, and it goes from
/// processor to processor, so that a draw costs less where it follows another (DECISIONS: numbers are drawn ahead).
fn drawn_at_a_time(count: usize, workers: usize) -> usize
    requires { 0 < workers }
    ensures { 0 < result }
{
    (count / workers / FOR_EACH).clamp(1, MOST_AT_A_TIME)
}

/// A pool of so many scratch values.
fn scratches<T: Task>(
    alloc: Global,
    task: &T,
    slots: usize,
) -> Result<(SlotPool<T::Scratch>, SlotSeat<T::Scratch>), Memory>
    requires { 0 < slots }
    ensures slots { IfOk result (λ made. slots_of made.0 ≡ slots) }
    ensures seat { IfOk result (λ made. IsSlotSeat made.0 made.1) }
{
    let mut all = Vec::with_capacity(alloc, slots)?;
    for _slot in 0..slots {
        all.push(task.make(alloc)?)?;
    }
    SlotPool::new(alloc, all)
}

/// What each worker found, each in a thread of its own where one can be started.
fn work_all<R: Threads + Sync, T: Task + Sync>(
    rt: &R,
    alloc: Global,
    task: &T,
    pool: &SlotPool<T::Scratch>,
    draws: &Draws,
    at_a_time: usize,
    places: Vec<Place<T::Scratch>>,
) -> Result<Vec<Left<T::Value, T::Scratch>>, Memory>
    requires places { All (IsPlace pool.now draws.now) places.items }
    requires size { IsLimit draws.now (T.size task.now) }
    ensures { IfOk result (λ all. All (IsLeft pool.now (T.size task.now) (T.answers task.now)) all.items) }
{
    let one = move |place: Place<T::Scratch>| -> Left<T::Value, T::Scratch>
        requires { IsPlace pool.now draws.now place × IsLimit draws.now (T.size task.now) }
        ensures { IsLeft pool.entry.now (T.size task.entry.now) (T.answers task.entry.now) result }
    { work(alloc, task, pool, draws, at_a_time, place) };
    let left = map_vec(rt, places, &one)?;
    Ok(left)
}
