//! What a regex tells with its one-pass DFA, and without it.

use crate::regex::{cache_of, configured, made_over, matches_in, place_at, told_by};
use crate::rows::all_right;
use rx_meta::{Config, Regex};
use rx_search::{Anchored, Input, MatchKind, NonMaxUsize};
use std::alloc::Global;
use std::process::Abort;
use std::sync::Wait;

/// What is searched: a pattern and a haystack.
type Row = (&'static str, &'static [u8]);

/// Patterns that are one-pass, with groups or with a Unicode word boundary.
const ROWS: [Row; 12] = [
    ("(a)(b)?", b"xab"),
    ("(a)(b)?", b"abx"),
    ("(a)(b)?", b"a"),
    ("^(a)(b)?", b"ab"),
    ("^(a)(b)?", b"xab"),
    ("(a+)=([0-9]+)", b"-aa=10-"),
    ("(a+)=([0-9]+)", b"aa=10"),
    ("(?:(a)|(b))*", b"aba"),
    (r"\b(a)\b", b"a a"),
    (r"\ba\B", b"a\xC3\xA9"),
    ("()", b""),
    ("(é)?", b"\xC3\xA9"),
];

/// A configuration that leaves out what is named, or nothing.
fn without(onepass: bool, dfas: bool) -> Config {
    Config::new().onepass(!onepass).dfa(!dfas).hybrid(!dfas)
}

/// Whether both regexes tell the same of the input, anchored and not.
fn agree<R: Abort + Wait>(
    rt: &R,
    alloc: Global,
    one: &Regex,
    other: &Regex,
    haystack: &[u8],
) -> bool {
    let free = Input::new(haystack);
    let anchored = Input::new(haystack).anchored(Anchored::Yes);
    told_by(rt, alloc, one, &free) == told_by(rt, alloc, other, &free)
        && told_by(rt, alloc, one, &anchored) == told_by(rt, alloc, other, &anchored)
        && matches_in(rt, alloc, one, &free) == matches_in(rt, alloc, other, &free)
        && matches_in(rt, alloc, one, &anchored) == matches_in(rt, alloc, other, &anchored)
}

/// Whether a row is told alike with a one-pass DFA and without, alone or beside DFAs.
fn is_told_alike<R: Abort + Wait>(rt: &R, alloc: Global, row: Row, dfas: bool) -> bool {
    let (pattern, haystack) = row;
    let one = configured(rt, alloc, without(false, dfas), pattern);
    let other = configured(rt, alloc, without(true, dfas), pattern);
    agree(rt, alloc, &one, &other, haystack)
}

/// The number of the first of these rows that is told otherwise, alone or without DFAs.
fn first_wrong<R: Abort + Wait>(rt: &R, alloc: Global, rows: &[Row]) -> Option<usize> {
    for k in 0..rows.len() {
        let are_told = (
            is_told_alike(rt, alloc, rows[k], false),
            is_told_alike(rt, alloc, rows[k], true),
        );
        if are_told != (true, true) {
            return Some(k);
        }
    }
    None
}

#[test]
fn a_one_pass_dfa_changes_no_answer(rt: HostRuntime) {
    all_right(&rt, first_wrong(&rt, rt.alloc(), &ROWS));
}

/// What is accounted for the regex of the pattern under this configuration, and for a cache of it.
fn accounted(rt: &impl Abort, alloc: Global, config: Config, pattern: &str) -> (usize, usize) {
    let regex = configured(rt, alloc, config, pattern);
    (
        regex.memory_usage(),
        cache_of(rt, alloc, &regex).memory_usage(),
    )
}

/// What a one-pass DFA adds to what is accounted for the regex of the pattern, and for a cache of it.
fn added(rt: &impl Abort, alloc: Global, pattern: &str, limit: Option<usize>) -> (usize, usize) {
    let config = without(false, true).onepass_size_limit(limit);
    let (regex, cache) = accounted(rt, alloc, config, pattern);
    let (less, room) = accounted(rt, alloc, without(true, true), pattern);
    (regex.saturating_sub(less), cache.saturating_sub(room))
}

/// A pattern, a limit of size, and what a one-pass DFA adds.
type Addition = (&'static str, Option<usize>, (usize, usize));

const ADDITIONS: [Addition; 6] = [
    // Three rows of four cells, and a start of all patterns and one of each; two slots.
    ("(a)", None, (8 * 3 * 4 + 4 * 2, 8 * 2)),
    ("(a)", Some(104), (104, 16)),
    ("(a)", Some(103), (0, 0)),
    // Without groups.
    ("a", None, (0, 0)),
    (r"(?-u:\b)a", None, (0, 0)),
    // It is not one-pass.
    ("(a*)a", None, (0, 0)),
];

/// The number of the first of these patterns to which something else is added.
fn first_wrong_addition(rt: &impl Abort, alloc: Global, rows: &[Addition]) -> Option<usize> {
    for k in 0..rows.len() {
        let (pattern, limit, wanted) = rows[k];
        if added(rt, alloc, pattern, limit) != wanted {
            return Some(k);
        }
    }
    None
}

#[test]
fn a_one_pass_dfa_is_there_where_it_is_wanted(rt: HostRuntime) {
    all_right(&rt, first_wrong_addition(&rt, rt.alloc(), &ADDITIONS));
}

/// Without groups there is one for a Unicode word boundary.
#[test]
fn a_one_pass_dfa_is_there_for_words(rt: HostRuntime) {
    for pattern in [r"\ba", r"\Ba"] {
        let (regex, _) = added(&rt, rt.alloc(), pattern, None);
        assert!(rt; regex > 0);
    }
}

/// The end of the match of `(a)(b)??` in the input, under `All`.
fn farthest(rt: &impl Abort, alloc: Global, config: Config, input: &Input<'_>) -> Option<usize> {
    let regex = configured(rt, alloc, config.match_kind(MatchKind::All), "(a)(b)??");
    let mut cache = cache_of(rt, alloc, &regex);
    let mut slots = [None; 6];
    let found = regex.search_slots_with(&mut cache, input, &mut slots);
    let _pattern = found.ok().expect(rt, "memory").expect(rt, "a match");
    place_at(&slots, 1)
}

#[test]
fn under_all_it_tells_the_farthest_end(rt: HostRuntime) {
    let input = Input::new(b"ab").anchored(Anchored::Yes);
    let once = farthest(&rt, rt.alloc(), without(false, true), &input);
    assert!(rt; once == Some(2));
}

/// The places that six slots hold.
fn places(slots: &[Option<NonMaxUsize>; 6]) -> [Option<usize>; 6] {
    [
        place_at(slots, 0),
        place_at(slots, 1),
        place_at(slots, 2),
        place_at(slots, 3),
        place_at(slots, 4),
        place_at(slots, 5),
    ]
}

/// The pattern that is found in `xb` by a cache of `a`, and the places in six slots.
fn told_after_reset(rt: &impl Abort, alloc: Global) -> (usize, [Option<usize>; 6]) {
    let first = configured(rt, alloc, Config::new(), "a");
    let second = configured(rt, alloc, Config::new(), "(b)(c)?");
    let mut cache = made_over(rt, alloc, &first, &second);
    let mut slots = [NonMaxUsize::new(9); 6];
    let found = second.search_slots_with(&mut cache, &Input::new(b"xb"), &mut slots);
    let pattern = found.ok().expect(rt, "memory").expect(rt, "a match");
    (pattern.as_usize(), places(&slots))
}

#[test]
fn a_cache_of_a_regex_without_groups_is_reset_for_one_with_groups(rt: HostRuntime) {
    let places = [Some(1), Some(2), Some(1), Some(2), None, None];
    assert!(rt; told_after_reset(&rt, rt.alloc()) == (0, places));
}
