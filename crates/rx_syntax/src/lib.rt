//! Patterns and the expressions that they read as.
//!
//! `parse_with` answers exactly what the grammar's definition says: the expression, or the first refusal
//! with its kind and piece. It reads by rx_reader, and translates what was read. Laws say that each group of a
//! pattern has one name or none, and is told with it, that an escaped text means itself, that what a pattern
//! means which is read under `utf8` is UTF-8, and that the counts of repetitions are in order.
#![tactic(auto)]

mod assertion;
mod bytes;
mod characters;
mod known;
mod laws;
pub mod literal;
mod named;
mod partial;
mod partial_bytes;
mod pattern;
mod patterns;
mod scalars;
mod set;
mod translate;
mod weight;

pub use laws::{
    each_group_of_a_pattern_has_one_name, escaped_text_means_itself,
    patterns_read_under_utf8_mean_utf8, the_counts_of_a_pattern_are_in_order,
};
pub use pattern::{parse, parse_with, read_with, translate_with};
pub use patterns::{
    PatternsError, parse_all, parse_each, parse_many, parse_many_with, read_all, translate_all,
};
pub use rx_hir::{Capture, Class, Hir, HirKind, Look, Properties, Repetition, cost};
pub use rx_reader::{Ast, Config, ParseError, SyntaxError, SyntaxErrorKind};
pub use weight::{Weights, weigh_all, weigh_each};
