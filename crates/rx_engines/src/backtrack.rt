//! A depth-first search of an NFA that tries each state at each place once: by its form, its work is bounded by the
//! places of the span times the transitions. It keeps a bit for each state at each place, and so takes only spans up
//! to a length.

mod attempt;
mod backtracker;
mod cache;
mod find;
mod step;
mod visited;

pub use backtracker::BoundedBacktracker;
pub use cache::Cache;
