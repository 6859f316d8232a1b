//! That values of this crate's types may go to other threads, checked where their parts are seen.

use crate::Pre;

// No test can see it from outside (DECISIONS: tests stand in crates of their own).
/// Values of this type may go to other threads, and be shared with them.
fn cross_threads<T: Send + Sync>(_value: &T) {}

fn searches_cross_threads(pre: &Pre) {
    cross_threads(pre);
}
