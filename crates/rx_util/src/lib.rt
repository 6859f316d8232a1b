//! What a regex needs beside its engines: values that are made at first use, pools of values that many threads use in turn,
//! and replacement templates. It stands on rx_memory for the error of want of memory, and on the kit's `once_cell`.
//!
//! A `Maker` makes values. A `Lazy` holds one that is made at first use. A `Stack` lends numbered values, and a `Pool` has
//! some stacks, each behind a lock. `interpolate` fills in replacement templates.
#![tactic(auto)]

pub mod interpolate;
mod lazy;
mod lock;
mod maker;
mod pool;
mod stack;
mod template;
mod threads;

pub use lazy::Lazy;
pub use maker::{FromFn, Maker};
pub use pool::{Pool, PoolGuard};
pub use stack::{Empty, Stack, no_number_is_lent_twice};
