//! Whether the first confirmed candidate of a search for a literal begins the earliest match.
//!
//! A literal that ends every match, or lies within each, is searched for; where it lies, what is before it is searched
//! backwards. The first place so confirmed gives the next match only where no other match starts earlier.
//! specs/Order.antt says this as a relation over what expressions mean, free of any search; specs/Tests.antt has the
//! tests of an expression that answer yes where it is so. The functions decide these tests, and laws say what they
//! tell. It stands on rx_prefilter.
#![tactic(auto)]

mod alternation;
mod consumed;
mod decision;
mod inner;
mod laws;
mod lengths;
mod members;
mod separator;
mod strip;

pub use alternation::alternation_literals;
pub use consumed::hir_can_contain_literal;
pub use decision::{inner_has_no_earlier_match, suffix_has_no_earlier_match};
pub use inner::InnerPrefilter;
pub use laws::{
    a_byte_that_is_not_consumed_keeps_the_order, a_first_separator_keeps_the_order,
    a_fixed_length_keeps_the_order, a_last_separator_keeps_the_order,
    a_part_stands_after_the_parts_before_it, a_separator_needs_no_look_at_the_literals,
    a_suffix_that_passes_has_no_earlier_match, a_yes_is_no_earlier_match,
    the_first_confirmed_candidate_starts_the_next_match, utf8_matches_start_where_a_match_may,
    what_is_left_stands_before_the_suffix,
};
pub use lengths::hir_has_fixed_length;
pub use separator::has_disjoint_class_separator;
pub use strip::strip_literal_suffix;
