//! The strategies of a regex: which one there is, and how it answers.
//!
//! A `Strategy` looks for the literals that an expression is, or runs the DFAs and engines of a core, or searches from the end of the
//! haystack, or from one place where a literal lies to the next. Its contract names the patterns alone, so which strategy there is changes no answer that is promised. It stands on
//! rx_pre and rx_strategy.
#![tactic(auto)]

mod anchored;
mod attempting;
mod attempts;
mod cache;
mod inner;
mod laws;
mod literal;
mod strategy;
mod suffix;
mod threads;

pub use anchored::ReverseAnchored;
pub use attempting::{reverse_inner_attempt, reverse_suffix_attempt};
pub use cache::Cache;
pub use inner::ReverseInner;
pub use laws::a_strategy_finds_what_is_told;
pub use strategy::Strategy;
pub use suffix::ReverseSuffix;
