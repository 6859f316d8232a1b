//! What the workers found, put together number by number.
ghost use Rattle.std.specs.Prelude.{◌≡◌, ◌+◌, ◌<◌, ◌≤◌, IfOk, IfSome, OnOk};
ghost use Rattle.rx_slots.specs.SlotSeats.{IsSlotSeat};
ghost use Rattle.std.specs.List.{All};
ghost use Rattle.rx_workers.specs.Places.{IsLeft, IsFree};
ghost use Rattle.rx_workers.specs.Answers.{AreFound, IsFound};

use crate::found::Found;
use crate::place::Left;
use crate::task::Task;
use rx_memory::Memory;
use rx_slots::{SlotPool, SlotSeat};
use std::alloc::Global;
use std::collections::VecDeque;

/// What each worker found, once all have ended. Their seats end too.
///
/// # Errors
///
/// Want of memory, of a worker or of this call.
pub fn gather<T: Task>(
    alloc: Global,
    task: &T,
    pool: &SlotPool<T::Scratch>,
    seat: &mut SlotSeat<T::Scratch>,
    left: Vec<Left<T::Value, T::Scratch>>,
) -> Result<Vec<VecDeque<Found<T::Value>>>, Memory>
    requires seat { IsSlotSeat pool.now seat.old }
    requires left { All (IsLeft pool.now (T.size task.now) (T.answers task.now)) left.items }
    ensures { IfOk result (λ all. All (λ found. AreFound (T.size task.now) (T.answers task.now) found.items) all.items) }
{
    let mut all = Ok(Vec::new(alloc));
    for one in left {
        let Left { found, seat: other } = one;
        join(pool, seat, other);
        all = with_found(task, all, found);
    }
    all
}

/// Ends a seat, if there is one.
fn join<S: Drop>(pool: &SlotPool<S>, seat: &mut SlotSeat<S>, other: Option<SlotSeat<S>>)
    requires seat { IsSlotSeat pool.now seat.old }
    requires other { IfSome other (IsFree pool.now) }
    ensures { IsSlotSeat pool.now seat.new }
{
    if let Some(other) = other {
        pool.join(seat, other);
    }
}

/// What workers found, with what another one did.
fn with_found<T: Task>(
    _task: &T,
    all: Result<Vec<VecDeque<Found<T::Value>>>, Memory>,
    found: Result<Vec<Found<T::Value>>, Memory>,
) -> Result<Vec<VecDeque<Found<T::Value>>>, Memory>
    requires all { IfOk all (λ all. All (λ found. AreFound (T.size _task.now) (T.answers _task.now) found.items) all.items) }
    requires found { IfOk found (λ found. AreFound (T.size _task.now) (T.answers _task.now) found.items) }
    ensures { IfOk result (λ all. All (λ found. AreFound (T.size _task.now) (T.answers _task.now) found.items) all.items) }
{
    let mut all = all?;
    let found = found?;
    all.push(VecDeque::from_vec(found))?;
    Ok(all)
}

/// All answers together. Where none was found to a number, the caller looks for it.
///
/// # Errors
///
/// Only want of memory.
pub fn complete<T: Task>(
    alloc: Global,
    task: &T,
    queues: Vec<VecDeque<Found<T::Value>>>,
) -> Result<T::Whole, Memory>
    requires { All (λ found. AreFound (T.size task.now) (T.answers task.now) found.items) queues.items }
    ensures { IfOk result (T.gathers task.now (T.size task.now)) }
{
    let count = task.count();
    let mut queues = queues;
    let mut whole = task.begin(alloc);
    let mut index = 0;
    let mut worker = 0;
    'numbers: while index < count {
        // Whose it is is looked at again, so that nothing rests on this guess (DECISIONS: who found an answer is a hint).
        worker = finder_of(&queues, index, worker);
        index += put_next(alloc, task, index, worker, &mut queues, &mut whole)?;
    }
    Ok(whole)
}

/// The worker that found the answer to a number which comes next, if one did: this one, or another.
fn finder_of<V>(queues: &[VecDeque<Found<V>>], index: usize, worker: usize) -> usize {
    if comes_next(queues, index, worker) {
        return worker;
    }
    for other in 0..queues.len() {
        if comes_next(queues, index, other) {
            return other;
        }
    }
    worker
}

/// Whether the next answer of a worker is that to this number and those after it.
fn comes_next<V>(queues: &[VecDeque<Found<V>>], index: usize, worker: usize) -> bool {
    match queues.get(worker) {
        Some(queue) => match queue.front() {
            Some(one) => one.index == index,
            None => false,
        },
        None => false,
    }
}

/// Adds the answer to the number that comes next, and with it those to the numbers after it that this worker found with it; or else the one
/// that is looked for now. To how many numbers an answer was added.
fn put_next<T: Task>(
    alloc: Global,
    task: &T,
    index: usize,
    worker: usize,
    all: &mut Vec<VecDeque<Found<T::Value>>>,
    whole: &mut T::Whole,
) -> Result<usize, Memory>
    requires there { index < T.size task.now }
    requires all { All (λ found. AreFound (T.size task.now) (T.answers task.now) found.items) all.old.items }
    requires before { T.gathers task.now index whole.old }
    ensures put { IfOk result (λ n. T.gathers task.now (index + n) whole.new) }
    ensures count { IfOk result (λ n. (0 < n) × (index + n ≤ T.size task.now)) }
    ensures all { OnOk result (All (λ found. AreFound (T.size task.now) (T.answers task.now) found.items) all.new.items) }
{
    if worker < all.len() {
        if let Some(Found { count, value, .. }) = next_of(task, index, &mut all[worker]) {
            task.put(index, count, value, whole)?;
            return Ok(count);
        }
    }
    put_now(alloc, task, index, whole)?;
    Ok(1)
}

/// The next answers of this worker, if they are to this number and those after it.
fn next_of<T: Task>(
    _task: &T,
    index: usize,
    queue: &mut VecDeque<Found<T::Value>>,
) -> Option<Found<T::Value>>
    requires { AreFound (T.size _task.now) (T.answers _task.now) queue.old.items }
    ensures found { IfSome result (IsFound (T.size _task.now) (T.answers _task.now)) }
    ensures index { IfSome result (λ one. one.index ≡ index) }
    ensures rest { AreFound (T.size _task.now) (T.answers _task.now) queue.new.items }
{
    let one = queue.pop_front()?;
    if one.index != index {
        return None;
    }
    Some(one)
}

/// Looks for the answer to the number that comes next, and adds it.
fn put_now<T: Task>(
    alloc: Global,
    task: &T,
    index: usize,
    whole: &mut T::Whole,
) -> Result<(), Memory>
    requires there { index < T.size task.now }
    requires before { T.gathers task.now index whole.old }
    ensures { OnOk result (T.gathers task.now (index + 1) whole.new) }
{
    let mut value = task.open(alloc, 0)?;
    let mut scratch = task.make(alloc)?;
    task.fit(alloc, &mut scratch)?;
    task.answer(alloc, index, &mut scratch, &mut value)?;
    task.put(index, 1, value, whole)
}
