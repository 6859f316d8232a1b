//! Which strategy a regex has, whether that is fast, and what a search for literals alone tells.

use crate::regex::{NOTHING, cache_of, configured, matches_in, told_by};
use crate::rows::all_right;
use rx_meta::{Config, Regex};
use rx_search::{Anchored, Input, MatchKind, PatternID};
use std::alloc::Global;
use std::process::Abort;

/// A pattern, the name of its strategy, and whether a search may leave out much of the haystack.
type Row = (&'static str, &'static str, bool);

const ROWS: [Row; 13] = [
    ("foo", "prefilter memmem", true),
    ("a|b|c", "prefilter memchr3", true),
    ("a|b|c|d", "prefilter byteset", false),
    ("ab|cd", "prefilter multi", false),
    ("ab|c", "prefilter aho-corasick", false),
    ("foo$", "reverse anchored", true),
    ("^foo$", "core", false),
    (r"\w+\s+Holmes", "reverse suffix", true),
    (r"\s[A-Za-z]{0,12}ing\s", "reverse inner", true),
    (r"\w+@\w+", "reverse inner", true),
    (r"\w+Holmes", "core", false),
    (r"Holmes\w+", "core", true),
    ("[a-z]+", "core", false),
];

/// Whether the regex of this configuration has the strategy of the row.
fn is_named(rt: &impl Abort, alloc: Global, config: Config, row: Row) -> bool {
    let (pattern, name, fast) = row;
    let regex = configured(rt, alloc, config, pattern);
    regex.strategy_name() == name && regex.is_accelerated() == fast
}

/// The number of the first of these rows whose regex has another strategy.
fn first_wrong(rt: &impl Abort, alloc: Global, rows: &[Row]) -> Option<usize> {
    for k in 0..rows.len() {
        if !is_named(rt, alloc, Config::new(), rows[k]) {
            return Some(k);
        }
    }
    None
}

#[test]
fn a_regex_tells_its_strategy(rt: HostRuntime) {
    all_right(&rt, first_wrong(&rt, rt.alloc(), &ROWS));
}

/// A configuration without DFAs.
fn without_dfas() -> Config {
    Config::new().dfa(false).hybrid(false)
}

/// A configuration that makes no prefilter.
fn without_prefilter() -> Config {
    Config::new().auto_prefilter(false)
}

#[test]
fn what_is_switched_off_makes_no_strategy(rt: HostRuntime) {
    // Its prefilter is fast all the same.
    let reverse = is_named(&rt, rt.alloc(), without_dfas(), ("foo$", "core", true));
    let literal = is_named(&rt, rt.alloc(), without_prefilter(), ("foo", "core", false));
    assert!(rt; reverse && literal);
}

#[test]
fn no_literal_within_is_sought(rt: HostRuntime) {
    let row: Row = (r"\w+@\w+", "core", false);
    let every = Config::new().match_kind(MatchKind::All);
    let every = is_named(&rt, rt.alloc(), every, row);
    let dfas = is_named(&rt, rt.alloc(), without_dfas(), row);
    let prefilter = is_named(&rt, rt.alloc(), without_prefilter(), row);
    assert!(rt; every && dfas && prefilter);
}

/// The regex that is one byte.
fn letter(rt: &impl Abort, alloc: Global) -> Box<Regex> {
    configured(rt, alloc, Config::new(), "a")
}

#[test]
fn a_search_for_literals_knows_one_pattern(rt: HostRuntime) {
    let alloc = rt.alloc();
    let regex = letter(&rt, alloc);
    let pattern = PatternID::new(7).expect(&rt, "a number of a pattern");
    let input = Input::new(b"a").anchored(Anchored::Pattern(pattern));
    let told = told_by(&rt, alloc, &regex, &input);
    assert!(rt; (told, matches_in(&rt, alloc, &regex, &input)) == (NOTHING, false));
}

#[test]
fn nothing_is_accounted_for_a_search_for_literals(rt: HostRuntime) {
    let alloc = rt.alloc();
    let regex = configured(&rt, alloc, Config::new(), "a|b|c");
    let cache = cache_of(&rt, alloc, &regex);
    assert!(rt; cache.memory_usage() == 0);
}
