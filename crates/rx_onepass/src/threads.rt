//! That values of this crate's types may go to other threads, checked where their parts are seen.

use crate::{Cache, DFA};

// No test can see it from outside (DECISIONS: tests stand in crates of their own).
/// Values of this type may go to other threads, and be shared with them.
fn cross_threads<T: Send + Sync>(_value: &T) {}

/// Values of this type may go to other threads.
fn send<T: Send>(_value: &T) {}

fn automata_cross_threads(dfa: &DFA) {
    cross_threads(dfa);
}

fn caches_are_sent(cache: &Cache) {
    send(cache);
}
