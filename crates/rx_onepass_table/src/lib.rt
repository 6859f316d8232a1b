//! The table of a one-pass DFA: its words, its rows, and the walk along them. It stands on rx_nfa.
//!
//! Its laws say that the walk along the rows of an NFA's entries tells the same as the NFA's first run, and under `All` as the first
//! run of the farthest end; a search answers what the walk tells.
#![tactic(auto)]

mod bits;
mod epsilons;
mod laws;
mod pattern_epsilons;
mod table;
mod transition;
mod walk;

pub use epsilons::{Epsilons, number_of};
pub use laws::{the_walk_tells_the_first_run, the_walk_tells_the_run_of_the_farthest_end};
pub use pattern_epsilons::{PATTERN_LIMIT, PatternEpsilons};
pub use table::Table;
pub use transition::Transition;
