//! That values of this crate's types may go to other threads, checked where their parts are seen.

use crate::{Cache, Strategy};

// No test can see it from outside (DECISIONS: tests stand in crates of their own).
/// Values of this type may go to other threads, and be shared with them.
fn cross_threads<T: Send + Sync>(_value: &T) {}

/// Values of this type may go to other threads.
fn go_to_threads<T: Send>(_value: &T) {}

fn strategies_cross_threads(strategy: &Strategy, cache: &Cache) {
    cross_threads(strategy);
    go_to_threads(cache);
}
