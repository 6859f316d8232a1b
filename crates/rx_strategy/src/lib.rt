//! The strategies of a regex: how a search is answered.
//!
//! A `Strategy` is one of several ways to search, of which `Core` is the only one so far: it runs DFAs and engines over one NFA. The
//! contract of a strategy names the patterns alone, so that one that runs no automaton can meet it. It stands on rx_attempts and rx_engines.
#![tactic(auto)]

mod cache;
mod config;
mod dfas;
mod found;
mod info;
mod laws;
mod lazies;
mod narrow;
mod onepass;
mod prefilter;
mod prefix;
mod span;
mod strategy;
mod threads;

pub use cache::Cache;
pub use config::Config;
pub use dfas::NoAnswer;
pub use info::is_impossible_by;
pub use laws::impossible_inputs_have_no_match;
pub use prefix::{Missing, PrefixCache, PrefixDfa};
pub use strategy::{Core, Strategy};
