//! The build of a one-pass DFA: from an NFA to its table. It stands on rx_onepass_table and rx_nfa.
//!
//! A build answers the table of the NFA's entries, of which none is ambiguous, or tells why there is none: what it names is there.
#![tactic(auto)]

mod admit;
mod build_error;
mod builder;
mod built;
mod closure;
mod config;
mod entries;
mod job;
mod rows;
mod settled;
mod stop;

pub use admit::SLOT_LIMIT;
pub use build_error::{BuildError, NotOnePass};
pub use builder::Builder;
pub use built::Built;
pub use config::Config;
pub use entries::STATE_LIMIT;
