//! DFAs: one look into a table for each byte. It stands on rx_determinize.
//!
//! `Automaton` is what a search needs of a DFA, and the searches serve any. `determinize` makes the keys for which its states
//! stand. `Dense` is the DFA whose whole table is made when it is built.
#![tactic(auto)]

pub mod alphabet;
mod automaton;
mod beside;
mod close;
pub mod dense;
pub mod determinize;
pub mod lazy;
pub mod scratch;
mod search;
pub mod state_key;
mod state_list;
mod step_error;
mod step_parts;
mod threads;

pub use automaton::Automaton;
pub use dense::Dense;
pub use search::{
    try_search, try_search_half_fwd, try_search_half_fwd_by, try_search_half_rev, try_search_start,
    try_which_overlapping,
};
pub use step_error::StepError;
