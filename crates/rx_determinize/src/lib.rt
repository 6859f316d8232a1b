//! States of a DFA as keys.
//!
//! A key is what an NFA is in after a start and a list of bytes: an ordered list of its states, with what matched before the
//! last byte. The definitions say how keys start and step, and what they answer along the bytes of a span. Each function is a
//! law about them: its contract says it, and its body does nothing. It stands on rx_nfa.
#![tactic(auto)]

mod laws;

pub use laws::{
    a_key_without_threads_meets_nothing_more, bytes_of_one_class_give_one_key,
    no_state_stands_twice, one_search_finds_the_last_match, one_search_finds_the_least_start,
    one_search_finds_the_next_match_or_where_to_begin_again,
    patterns_that_mean_utf8_keep_characters, the_keys_find_the_last_match,
    the_keys_find_the_least_start, the_keys_find_the_next_match,
    the_keys_find_the_next_match_between_characters, the_keys_find_the_next_match_while_they_live,
    the_keys_find_the_start_of_the_next_match, the_keys_tell_every_match,
    the_sight_by_classes_tells_of_look_around, what_has_arrived_keeps_the_first_success,
};
