//! A simulation of an NFA by an ordered list of threads, each with its slots. It looks at each place once, and
//! there at each state at most once: by its form, its work is bounded by the places times the transitions.

mod buffers;
mod cache;
mod close;
mod row;
mod seed;
mod set;
mod simulate;
mod step;
mod table;
mod threads;
mod vm;
mod walk;

pub use cache::Cache;
pub use vm::PikeVM;
