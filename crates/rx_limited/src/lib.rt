//! Searches by a DFA that stop early: one backwards, which gives up where it would read what an earlier one read, and one
//! forwards, which tells where it stopped. It stands on rx_dfa.
//!
//! A search that goes from candidate to candidate, and from each one backwards, may read the same bytes again and again.
//! `rev_limited` refuses to, and a refusal says what was met. Each call of the automaton is counted.
#![tactic(auto)]

mod limited;
mod parts;
mod retry_error;
mod scan;
mod stopat;

pub use limited::rev_limited;
pub use retry_error::{Quadratic, RetryError};
pub use stopat::fwd_stopat;
