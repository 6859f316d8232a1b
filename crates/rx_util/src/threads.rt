//! That values of this crate's types may go to other threads, checked where their parts are seen.

use crate::{Lazy, Maker, Pool, PoolGuard, Stack};

// No test can see it from outside (DECISIONS: tests stand in crates of their own).
/// Values of this type may go to other threads, and be shared with them.
fn cross_threads<T: Send + Sync>(_value: &T) {}

/// Values of this type may go to other threads.
fn go_to_threads<T: Send>(_value: &T) {}

fn pools_cross_threads<T: Send + Drop, M: Maker<Value = T> + Send + Sync + Drop>(
    pool: &Pool<T, M>,
) {
    cross_threads(pool);
}

fn lazy_values_cross_threads<T: Send + Sync + Drop, M: Maker<Value = T> + Send + Sync>(
    lazy: &Lazy<T, M>,
) {
    cross_threads(lazy);
}

fn stacks_and_guards_go_to_threads<T: Send + Drop, M: Maker<Value = T> + Send + Sync>(
    stack: &Stack<T>,
    guard: &PoolGuard<'_, T, M>,
) {
    go_to_threads(stack);
    go_to_threads(guard);
}
