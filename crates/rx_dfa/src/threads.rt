//! That values of this crate's types may go to other threads, checked where their parts are seen.

use crate::dense::Dense;
use crate::lazy::{Lazy, LazyCache};

// No test can see it from outside (DECISIONS: tests stand in crates of their own).
/// Values of this type may go to other threads, and be shared with them.
fn cross_threads<T: Send + Sync>(_value: &T) {}

/// Values of this type may go to other threads.
fn go_to_threads<T: Send>(_value: &T) {}

fn automata_cross_threads(dense: &Dense, lazy: &Lazy) {
    cross_threads(dense);
    cross_threads(lazy);
}

fn caches_go_to_threads(cache: &LazyCache) {
    go_to_threads(cache);
}
