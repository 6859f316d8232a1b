//! That values of this crate's types may go to other threads, checked where their parts are seen.

use crate::{DrawSeat, Draws, SlotPool, SlotSeat};

// No test can see it from outside (DECISIONS: tests stand in crates of their own).
/// Values of this type may go to other threads, and be shared with them.
fn cross_threads<T: Send + Sync>(_value: &T) {}

/// Values of this type may go to other threads.
fn go_to_threads<T: Send>(_value: &T) {}

fn pools_and_draws_cross_threads<T: Send + Drop>(pool: &SlotPool<T>, draws: &Draws) {
    cross_threads(pool);
    cross_threads(draws);
}

fn seats_go_to_threads<T: Send>(slot: &SlotSeat<T>, draw: &DrawSeat) {
    go_to_threads(slot);
    go_to_threads(draw);
}
