//! Literals: what every match of an expression begins with, and what it ends with.
//!
//! `prefixes` and `suffixes` give a sequence of literals, each exact, where it is the whole of what was taken, or inexact.
//! A sequence of prefixes is trimmed for one kind of matches. Contracts say that each result is the value of a
//! definition, and laws say what the definitions' values tell of each match. Of an expression of which `is_look_free`
//! answers true, exact prefixes tell where its first run ends. It stands on rx_hir.
#![tactic(auto)]

mod extract;
mod kept;
mod laws;
mod lent;
mod literal;
mod look_free;
mod members;
mod order;
mod repeated;
mod seq;
mod side;
mod slots;
mod suffix;
mod trim;

pub use extract::{prefixes, prefixes_of, suffixes};
pub use laws::{
    exact_prefixes_tell_the_first_run, prefixes_begin_each_match, suffixes_end_each_match,
    the_common_suffix_is_the_longest, trimmed_prefixes_begin_each_match,
    trimming_keeps_the_first_literal,
};
pub use literal::Literal;
pub use look_free::is_look_free;
pub use seq::Seq;
pub use suffix::longest_common_suffix;
