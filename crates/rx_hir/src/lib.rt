//! Expressions, with their properties, their names and their cost.
//!
//! An expression is a `Hir`, which a contract sees as an `Expression` of rx_model. The constructors give normal
//! forms, which keep the meaning and add no names. `Hir::properties` tells of lengths, groups, look-arounds, UTF-8
//! and literals, as they were found when the expression was made; laws say what they tell of each match.
//! `group_names` tells the names of the groups. It stands on rx_class.
#![tactic(auto)]

mod accounting;
mod hir;

pub use accounting::{STATE_SIZE, cost, states as accounted_states};
pub use hir::{
    Capture, Hir, HirKind, Properties, Repetition, can_be_empty, greatest_group, group_names,
    lengths_bound_the_meaning, look_sets_hold_at_the_ends, normal_forms_add_no_names,
    normal_forms_keep_the_meaning, normal_forms_keep_utf8, one_can_be_empty,
    sound_expressions_are_ordered, told_names_stand, utf8_expressions_mean_utf8,
};
pub use rx_class::{Class, ClassBytes, ClassUnicode, fewest_ranges_hold_the_members};
pub use rx_search::Look;
