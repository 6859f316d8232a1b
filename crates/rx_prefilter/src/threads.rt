//! That values of this crate's types may go to other threads, checked where their parts are seen.

use crate::Prefilter;

// No test can see it from outside (DECISIONS: tests stand in crates of their own).
/// Values of this type may go to other threads, and be shared with them.
fn cross_threads<T: Send + Sync>(_value: &T) {}

fn prefilters_cross_threads(prefilter: &Prefilter) {
    cross_threads(prefilter);
}
