//! Classes of scalars and of bytes, as the fewest ranges that hold their members.
//!
//! Classes are made of ranges in any order, united, complemented and folded in case. It stands on rx_model and
//! rx_memory, and on the kit's ucd_case.
#![tactic(auto)]

mod bytes;
mod class;
mod folding;
mod gathered;
mod laws;
mod scalars;

pub use class::{Class, ClassBytes, ClassUnicode};
pub use gathered::GatheredUnicode;
pub use laws::{
    ascii_classes_have_ascii_members, complement_holds_the_rest, fewest_ranges_hold_the_members,
    folding_holds_the_orbits, ranges_may_be_merged_early, union_holds_the_members,
};
