//! That values of this crate's types may go to other threads, checked where their parts are seen.

use crate::{backtrack, pikevm};

// No test can see it from outside (DECISIONS: tests stand in crates of their own).
/// Values of this type may go to other threads, and be shared with them.
fn cross_threads<T: Send + Sync>(_value: &T) {}

/// Values of this type may go to other threads.
fn go_to_threads<T: Send>(_value: &T) {}

fn engines_cross_threads(vm: &pikevm::PikeVM, backtracker: &backtrack::BoundedBacktracker) {
    cross_threads(vm);
    cross_threads(backtracker);
}

fn caches_go_to_threads(simulated: &pikevm::Cache, searched: &backtrack::Cache) {
    go_to_threads(simulated);
    go_to_threads(searched);
}
