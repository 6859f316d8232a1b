//! Searches for an expression that is nothing but its literals: needles are looked for, and no automaton is run.
//!
//! `literal_prefilter` tells of which expressions that is so: exact prefixes, or an alternation of many literals, tell
//! where the first run from each place ends. So the first needle at the least place at which one lies is the next match,
//! which is the contract of `Pre`. It stands on rx_order.
#![tactic(auto)]

mod laws;
mod literals;
mod pre;
mod slots;
mod threads;

pub use laws::a_search_finds_what_is_told;
pub use literals::literal_prefilter;
pub use pre::Pre;
