//! A DFA that resolves groups: where an expression leaves at most one way on, one look into a table for each byte tells the
//! slots too. It stands on rx_onepass_build, and takes patterns by rx_thompson.
//!
//! Its contract is the next match of an anchored search, with slots. A build refuses an NFA that is not one-pass, and names what
//! is ambiguous.
#![tactic(auto)]

mod build_error;
mod builder;
mod cache;
mod dfa;
mod laws;
mod search;
mod threads;
mod walk;

pub use build_error::BuildError;
pub use builder::Builder;
pub use cache::Cache;
pub use dfa::DFA;
pub use laws::{
    a_search_that_is_always_anchored_is_an_anchored_one, the_run_is_that_of_the_next_match,
    what_is_found_is_a_match_of_the_patterns, what_is_found_lies_in_the_span,
};
pub use rx_onepass_build::{Config, NotOnePass};
