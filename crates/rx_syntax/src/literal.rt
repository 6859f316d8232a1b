//! The literals of an expression: what every match begins with, and what it ends with. rx_literal has them, with their
//! laws.

pub use rx_literal::{
    Literal, Seq, exact_prefixes_tell_the_first_run, is_look_free, longest_common_suffix, prefixes,
    prefixes_begin_each_match, prefixes_of, suffixes, suffixes_end_each_match,
    the_common_suffix_is_the_longest, trimmed_prefixes_begin_each_match,
    trimming_keeps_the_first_literal,
};
