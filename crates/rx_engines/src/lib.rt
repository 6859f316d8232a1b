//! Engines that run an NFA over a text. It stands on rx_nfa.
//!
//! `pikevm` simulates all its threads at once, place by place. `backtrack` searches depth first, in a bounded span.
//! The contract of both is the next match, with slots.
#![tactic(auto)]

// For any NFA that has the runs of patterns, whoever made it (DECISIONS: the engines stand in a crate of their own).
mod accounting;
pub mod backtrack;
mod candidates;
mod frame;
mod onward;
pub mod pikevm;
mod room;
mod search;
mod slots;
mod stack;
mod starts;
mod threads;

pub use slots::empty;
