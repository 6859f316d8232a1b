//! Lazy DFAs: their states are made as a search meets them, in bounded memory.

mod arena;
mod automaton;
mod build;
mod build_error;
mod cache;
mod hashing;
mod key_row;
mod key_set;
mod lazy_cache;
mod lazy_dfa;
mod make;
mod numbers;
mod room;
mod rows;
mod rows_of;
mod start;
mod starts;
mod steps;

pub use build_error::BuildError;
pub use lazy_cache::LazyCache;
pub use lazy_dfa::Lazy;
