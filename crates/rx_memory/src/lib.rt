//! Want of memory, the error of all calls that nothing else can refuse.
#![tactic(auto)]

mod memory;

pub use memory::Memory;
