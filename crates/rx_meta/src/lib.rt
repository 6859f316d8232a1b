//! Regexes: patterns and a configuration go in, and matches come out.
//!
//! A `Regex` is built once, and searched from anywhere. Its contract names its patterns alone: a search answers their
//! next match, with its slots, whichever strategy and engine served. It stands on rx_strategy, and a caller needs no
//! definition of what is below.
#![tactic(auto)]

mod attempts;
mod builder;
mod cache;
mod cache_maker;
mod caches;
mod capture_laws;
mod captures_finder;
mod captures_matches;
mod capturing;
mod error;
mod find_matches;
mod finder;
mod found;
mod iterating;
mod iterator_laws;
mod laws;
mod match_finder;
mod overlapping;
mod reading;
mod regex;
mod set_laws;
mod split;
mod threads;

pub use attempts::{reverse_inner_attempt, reverse_suffix_attempt};
pub use builder::Builder;
pub use cache::Cache;
pub use capture_laws::{
    captures_tell_the_match, groups_that_are_not_told_stay_empty,
    slots_of_other_patterns_stay_empty,
};
pub use captures_matches::CapturesMatches;
pub use error::BuildError;
pub use find_matches::FindMatches;
pub use finder::RegexFinder;
pub use iterator_laws::{
    an_iterator_gives_the_matches_of_its_patterns, gaps_and_matches_cover_the_haystack,
    searches_of_one_input_agree, successive_matches_follow_one_another,
};
pub use laws::{
    a_search_changes_states_alone, a_search_is_for_its_patterns,
    a_search_without_lazy_dfas_accounts_nothing, attempts_are_leftmost_first,
    attempts_give_up_where_bytes_were_read, no_candidate_before_a_refusal_is_confirmed,
};
pub use regex::Regex;
pub use rx_limited::{Quadratic, RetryError};
pub use rx_nfa::WhichCaptures;
pub use rx_prefilter::{Choice, Prefilter};
pub use rx_strategy::{Config, impossible_inputs_have_no_match};
pub use set_laws::a_set_gains_what_means_a_part_of_the_span;
pub use split::{Split, SplitN};
