//! Which DFAs serve a regex, seen by what they account and by what they ask a prefilter, and that their searches agree.
ghost use Rattle.rx_meta.specs.Cache.{Fits};

use crate::regex::{cache_of, configured, handing_in, place_at};
use crate::rows::all_right;
use crate::sets::set_of;
use rx_meta::{Cache, Config, Regex};
use rx_search::{Anchored, Input, Match, MatchKind, Span};
use std::alloc::Global;
use std::process::Abort;
use std::sync::Wait;

/// Whether full DFAs are asked for, and whether lazy ones are.
pub(crate) type Sort = (bool, bool);

pub(crate) const FULL: Sort = (true, false);

pub(crate) const LAZY: Sort = (false, true);

const NONE: Sort = (false, false);

/// The configuration with DFAs of this sort alone, of any size.
pub(crate) fn with_alone(config: Config, sort: Sort) -> Config {
    let (full, lazy) = sort;
    let config = config.dfa(full).hybrid(lazy);
    config.dfa_size_limit(None).dfa_state_limit(None)
}

/// A configuration with DFAs of this sort alone, without a prefilter.
fn alone(sort: Sort) -> Config {
    with_alone(Config::new().auto_prefilter(false), sort)
}

/// The input of a search of the text from this place on.
pub(crate) fn input_from<'a>(
    rt: &impl Abort,
    text: &'a [u8],
    start: usize,
    anchored: bool,
) -> Input<'a> {
    assert!(rt; start <= text.len());
    let span = Span {
        start,
        end: text.len(),
    };
    let input = Input::new(text).span(span);
    if anchored {
        return input.anchored(Anchored::Yes);
    }
    input
}

/// The start and the end of a match.
pub(crate) fn span_of(found: Option<Match>) -> Option<(usize, usize)> {
    match found {
        Some(found) => Some((found.start(), found.end())),
        None => None,
    }
}

/// What the calls of a search tell: the span of the match, its end, whether there is one, and where its first group starts and ends.
pub(crate) type Told = (
    Option<(usize, usize)>,
    Option<usize>,
    bool,
    (Option<usize>, Option<usize>),
);

/// The span of the match that is told.
pub(crate) fn found_with(
    rt: &impl Abort,
    regex: &Regex,
    cache: &mut Cache,
    input: &Input<'_>,
) -> Option<(usize, usize)>
    requires { Fits regex.now cache.old }
    ensures { Fits regex.now cache.new }
{
    let found = regex.search_with(cache, input).ok();
    span_of(found.expect(rt, "memory"))
}

/// The end of the match that is told.
pub(crate) fn end_with(
    rt: &impl Abort,
    regex: &Regex,
    cache: &mut Cache,
    input: &Input<'_>,
) -> Option<usize>
    requires { Fits regex.now cache.old }
    ensures { Fits regex.now cache.new }
{
    let found = regex.search_half_with(cache, input).ok();
    match found.expect(rt, "memory") {
        Some(half) => Some(half.offset()),
        None => None,
    }
}

/// Where the first group of the match starts and ends.
fn group_with(
    rt: &impl Abort,
    regex: &Regex,
    cache: &mut Cache,
    input: &Input<'_>,
) -> (Option<usize>, Option<usize>)
    requires { Fits regex.now cache.old }
    ensures { Fits regex.now cache.new }
{
    let mut slots = [None; 4];
    let found = regex.search_slots_with(cache, input, &mut slots).ok();
    let _pattern = found.expect(rt, "memory");
    (place_at(&slots, 2), place_at(&slots, 3))
}

/// What the calls of a search tell with this cache.
pub(crate) fn told_with<R: Abort + Wait>(
    rt: &R,
    alloc: Global,
    regex: &Regex,
    cache: &mut Cache,
    input: &Input<'_>,
) -> Told
    requires { Fits regex.now cache.old }
    ensures { Fits regex.now cache.new }
{
    let there = regex.is_match(rt, alloc, input).ok();
    let end = end_with(rt, regex, cache, input);
    let found = found_with(rt, regex, cache, input);
    let group = group_with(rt, regex, cache, input);
    (found, end, there.expect(rt, "memory"), group)
}

/// A pattern, a text, where the span begins, whether the search is anchored, and what is wanted of the calls.
pub(crate) type Row = (&'static str, &'static str, usize, bool, Told);

/// What is told of no match.
pub(crate) const NOTHING: Told = (None, None, false, (None, None));

const ROWS: [Row; 12] = [
    (
        r"\bfoo\b",
        "foo βfoo foo",
        0,
        false,
        (Some((0, 3)), Some(3), true, (None, None)),
    ),
    // it quits at a byte of the second letter of Greek
    (
        r"\bfoo\b",
        "foo βfoo foo",
        3,
        false,
        (Some((10, 13)), Some(13), true, (None, None)),
    ),
    (r"\bfoo\b", "fooβ", 0, false, NOTHING),
    (
        "([a-z]+)=([0-9]+)?",
        "ab=12 c=",
        0,
        false,
        (Some((0, 5)), Some(5), true, (Some(0), Some(2))),
    ),
    (
        "([a-z]+)=([0-9]+)?",
        "ab=12 c=",
        5,
        false,
        (Some((6, 8)), Some(8), true, (Some(6), Some(7))),
    ),
    ("([a-z]+)=([0-9]+)?", "ab=12 c=", 5, true, NOTHING),
    (
        "([a-z]+)=([0-9]+)?",
        "ab=12 c=",
        1,
        true,
        (Some((1, 5)), Some(5), true, (Some(1), Some(2))),
    ),
    (
        "a(b)?",
        "xab",
        0,
        false,
        (Some((1, 3)), Some(3), true, (Some(2), Some(3))),
    ),
    (
        "(a)|ab",
        "xab",
        0,
        false,
        (Some((1, 2)), Some(2), true, (Some(1), Some(2))),
    ),
    (
        "(a*)",
        "ba",
        1,
        false,
        (Some((1, 2)), Some(2), true, (Some(1), Some(2))),
    ),
    ("^a", "ba", 0, false, NOTHING),
    (
        "(b$|a)",
        "bab",
        0,
        false,
        (Some((1, 2)), Some(2), true, (Some(1), Some(2))),
    ),
];

/// Whether the calls of a regex with DFAs of this sort tell what is wanted.
fn is_told<R: Abort + Wait>(rt: &R, alloc: Global, sort: Sort, row: Row) -> bool {
    let (pattern, text, start, anchored, wanted) = row;
    let input = input_from(rt, text.as_bytes(), start, anchored);
    let regex = configured(rt, alloc, alone(sort), pattern);
    let mut cache = cache_of(rt, alloc, &regex);
    told_with(rt, alloc, &regex, &mut cache, &input) == wanted
}

/// The number of the first row of which something else is told, counted from 0.
fn first_wrong<R: Abort + Wait>(rt: &R, alloc: Global, sort: Sort, rows: &[Row]) -> Option<usize> {
    for k in 0..rows.len() {
        if !is_told(rt, alloc, sort, rows[k]) {
            return Some(k);
        }
    }
    None
}

/// The same of full DFAs, of lazy ones, and without DFAs.
fn first_wrong_of_each<R: Abort + Wait>(rt: &R, alloc: Global, rows: &[Row]) -> [Option<usize>; 3] {
    [
        first_wrong(rt, alloc, FULL, rows),
        first_wrong(rt, alloc, LAZY, rows),
        first_wrong(rt, alloc, NONE, rows),
    ]
}

#[test]
fn rows_by_each_sort_of_dfas(rt: HostRuntime) {
    let wrong = first_wrong_of_each(&rt, rt.alloc(), &ROWS);
    assert!(rt; wrong == [None, None, None]);
}

/// The span of the match, and whether the search for its end makes states of a lazy DFA, and that for its start more of them.
type Seen = (Option<(usize, usize)>, bool, bool);

/// What is seen of a search with this cache.
fn seen_with(rt: &impl Abort, regex: &Regex, cache: &mut Cache, input: &Input<'_>) -> Seen
    requires { Fits regex.now cache.old }
{
    let new = cache.memory_usage();
    let _end = end_with(rt, regex, cache, input);
    let ended = cache.memory_usage();
    let found = found_with(rt, regex, cache, input);
    (found, new < ended, ended < cache.memory_usage())
}

/// What is seen of a search by a regex of this configuration.
fn seen(rt: &impl Abort, alloc: Global, config: Config, pattern: &str, input: &Input<'_>) -> Seen {
    let regex = configured(rt, alloc, config, pattern);
    let mut cache = cache_of(rt, alloc, &regex);
    seen_with(rt, &regex, &mut cache, input)
}

#[test]
fn a_lazy_dfa_makes_states(rt: HostRuntime) {
    let input = Input::new(b"aab");
    for (sort, more) in [(LAZY, true), (FULL, false), (NONE, false)] {
        let seen = seen(&rt, rt.alloc(), alone(sort), "[a-z]+b", &input);
        assert!(rt; seen == (Some((0, 3)), more, more));
    }
}

/// A match that ends at the end of the text is searched from there: the search for its end finds its start too.
#[test]
fn the_end_of_the_text_is_read_from_first(rt: HostRuntime) {
    let input = Input::new(b"aab");
    let seen = seen(&rt, rt.alloc(), alone(LAZY), "[a-z]+b$", &input);
    assert!(rt; seen == (Some((0, 3)), true, false));
}

#[test]
fn a_start_that_is_known_is_not_sought(rt: HostRuntime) {
    let input = Input::new(b"aab");
    let seen = seen(&rt, rt.alloc(), alone(LAZY), "[a-z]b", &input);
    assert!(rt; seen == (Some((1, 3)), true, false));
}

#[test]
fn an_anchored_start_is_not_sought(rt: HostRuntime) {
    let input = Input::new(b"aab").anchored(Anchored::Yes);
    let seen = seen(&rt, rt.alloc(), alone(LAZY), "[a-z]+b", &input);
    assert!(rt; seen == (Some((0, 3)), true, false));
}

/// A configuration with DFAs of this sort alone, where candidates are sought by the letter.
fn seeking(rt: &impl Abort, alloc: Global, sort: Sort, letter: &[u8]) -> Config {
    let config = handing_in(alloc, letter).ok().expect(rt, "memory");
    with_alone(config, sort)
}

/// The span of the match that a regex of this configuration finds.
fn found_by(
    rt: &impl Abort,
    alloc: Global,
    config: Config,
    pattern: &str,
    input: &Input<'_>,
) -> Option<(usize, usize)> {
    let (found, _, _) = seen(rt, alloc, config, pattern, input);
    found
}

/// A DFA reads on behind the first candidate and finds the match that begins at no candidate; an engine that tries each candidate finds
/// the second one.
#[test]
fn each_sort_of_dfas_serves(rt: HostRuntime) {
    let alloc = rt.alloc();
    let input = Input::new(b"acab");
    for (sort, wanted) in [(FULL, (1, 2)), (LAZY, (1, 2)), (NONE, (2, 4))] {
        let config = seeking(&rt, alloc, sort, b"a");
        let found = found_by(&rt, alloc, config, "ab|c", &input);
        assert!(rt; found == Some(wanted));
    }
}

/// No candidate is where the first match begins, so a DFA that asks for candidates passes over it.
#[test]
fn each_sort_of_dfas_asks_for_candidates(rt: HostRuntime) {
    let alloc = rt.alloc();
    let input = Input::new(b"ab");
    for sort in [FULL, LAZY] {
        let config = seeking(&rt, alloc, sort, b"b");
        let sought = found_by(&rt, alloc, config, "a|b", &input);
        let found = found_by(&rt, alloc, alone(sort), "a|b", &input);
        assert!(rt; (sought, found) == (Some((1, 2)), Some((0, 1))));
    }
}

/// Where any match will do, the backtracker gives the whole next one, and the PikeVM stops at the first end.
#[test]
fn the_backtracker_serves_without_dfas(rt: HostRuntime) {
    let alloc = rt.alloc();
    let input = Input::new(b"aaa").earliest(true);
    for (backtrack, wanted) in [(true, (0, 3)), (false, (0, 1))] {
        let config = alone(NONE).backtrack(backtrack);
        let found = found_by(&rt, alloc, config, "a+", &input);
        assert!(rt; found == Some(wanted));
    }
}

/// Whether a search for groups makes states of a lazy DFA.
fn groups_grow(rt: &impl Abort, regex: &Regex, cache: &mut Cache, input: &Input<'_>) -> bool
    requires { Fits regex.now cache.old }
{
    let new = cache.memory_usage();
    let _group = group_with(rt, regex, cache, input);
    new < cache.memory_usage()
}

#[test]
fn a_lazy_dfa_finds_the_span_of_groups(rt: HostRuntime) {
    let regex = configured(&rt, rt.alloc(), alone(LAZY), "([a-z]+)b");
    let mut cache = cache_of(&rt, rt.alloc(), &regex);
    let grown = groups_grow(&rt, &regex, &mut cache, &Input::new(b"aab"));
    assert!(rt; grown);
}

/// Whether a search for all patterns that match makes states of a lazy DFA.
fn set_grows(
    rt: &impl Abort,
    alloc: Global,
    regex: &Regex,
    cache: &mut Cache,
    input: &Input<'_>,
) -> bool
    requires { Fits regex.now cache.old }
{
    let mut set = set_of(rt, alloc, regex);
    let new = cache.memory_usage();
    let done = regex.which_overlapping_matches_with(cache, input, &mut set);
    done.ok().expect(rt, "memory");
    new < cache.memory_usage()
}

#[test]
fn a_lazy_dfa_fills_sets(rt: HostRuntime) {
    let alloc = rt.alloc();
    let config = alone(LAZY).match_kind(MatchKind::All);
    let regex = configured(&rt, alloc, config, "[a-z]+b");
    let mut cache = cache_of(&rt, alloc, &regex);
    let grown = set_grows(&rt, alloc, &regex, &mut cache, &Input::new(b"aab"));
    assert!(rt; grown);
}

/// The bytes that are accounted for a cache after a search for the end of a match, of the input where any match will do.
fn after_end(rt: &impl Abort, regex: &Regex, cache: &mut Cache, text: &[u8]) -> usize
    requires { Fits regex.now cache.old }
{
    let _end = end_with(rt, regex, cache, &Input::new(text).earliest(true));
    cache.memory_usage()
}

/// The same of a new cache of a regex of lazy DFAs.
fn after_first(rt: &impl Abort, alloc: Global, pattern: &str, text: &[u8]) -> usize {
    let regex = configured(rt, alloc, alone(LAZY), pattern);
    let mut cache = cache_of(rt, alloc, &regex);
    after_end(rt, &regex, &mut cache, text)
}

/// It stops as soon as a match is known, which is one byte behind it.
#[test]
fn where_any_match_will_do_no_more_is_read(rt: HostRuntime) {
    let short = after_first(&rt, rt.alloc(), "x|[ab]*a[ab]{10}", b"xa");
    let text = b"xabbabaabbababaabbbabaabbaba";
    let long = after_first(&rt, rt.alloc(), "x|[ab]*a[ab]{10}", text);
    assert_eq!(rt; long, short);
}

/// A pattern, a text, and what is seen of a search of it.
type Candidate = (&'static str, &'static str, Seen);

/// By a literal that ends each match, and by one within it.
const CANDIDATES: [Candidate; 4] = [
    (r"\w+\s+Holmes", "abcdefghij", (None, false, false)),
    (r"\w+\s+Holmes", "ab Holmes", (Some((0, 9)), true, false)),
    (r"\w+@\w+", "abcdefghij", (None, false, false)),
    (r"\w+@\w+", "ab@cd", (Some((0, 5)), true, false)),
];

/// The number of the first of these rows of which something else is seen.
fn first_unseen(rt: &impl Abort, alloc: Global, rows: &[Candidate]) -> Option<usize> {
    for k in 0..rows.len() {
        let (pattern, text, wanted) = rows[k];
        let input = Input::new(text.as_bytes());
        if seen(rt, alloc, Config::new().dfa(false), pattern, &input) != wanted {
            return Some(k);
        }
    }
    None
}

/// The search for the end of a match reads from where a candidate lies, backwards and forwards, and leaves no state to be made by a
/// search for its span.
#[test]
fn lazy_dfas_read_where_a_candidate_lies(rt: HostRuntime) {
    all_right(&rt, first_unseen(&rt, rt.alloc(), &CANDIDATES));
}

/// The bytes that are accounted for a regex of this sort of DFAs.
fn accounted(rt: &impl Abort, alloc: Global, sort: Sort) -> usize {
    configured(rt, alloc, alone(sort), "[a-z]+b").memory_usage()
}

#[test]
fn a_full_dfa_is_accounted(rt: HostRuntime) {
    let alloc = rt.alloc();
    assert!(rt; accounted(&rt, alloc, FULL) > accounted(&rt, alloc, LAZY));
}

/// Two thousand letters: `a` at each third place, and else `b`.
fn letters(rt: &impl Abort, alloc: Global) -> Vec<u8> {
    let mut text = Vec::new(alloc);
    for place in 0..2000 {
        let letter = if place % 3 == 0 { b'a' } else { b'b' };
        text.push(letter).ok().expect(rt, "room");
    }
    text
}

/// The least capacity of a lazy DFA of `[ab]*a[ab]{10}`, which accounts 33 states.
const LEAST: usize = 16384 + 16 * 33;

#[test]
fn a_lazy_dfa_of_the_least_capacity(rt: HostRuntime) {
    let text = letters(&rt, rt.alloc());
    for (capacity, more) in [(LEAST, true), (LEAST - 1, false)] {
        let config = alone(LAZY).hybrid_cache_capacity(capacity);
        let input = Input::new(&text);
        let seen = seen(&rt, rt.alloc(), config, "[ab]*a[ab]{10}", &input);
        assert!(rt; seen == (Some((0, 2000)), more, more));
    }
}

/// A copy of the cache.
fn copy_of(rt: &impl Abort, alloc: Global, regex: &Regex, cache: &Cache) -> Box<Cache>
    requires { Fits regex.now cache.now }
    ensures { Fits regex.now result.value }
{
    let copy = cache.clone(alloc).ok().expect(rt, "a cache");
    Box::new(alloc, copy).ok().expect(rt, "memory")
}

/// What the cache tells of `xab`, what its copy tells then, and the bytes that are accounted for the copy at first.
fn copied<R: Abort + Wait>(
    rt: &R,
    alloc: Global,
    regex: &Regex,
    cache: &mut Cache,
) -> (Told, Told, usize)
    requires { Fits regex.now cache.old }
{
    let input = Input::new(b"xab");
    let first = told_with(rt, alloc, regex, cache, &input);
    let mut copy = copy_of(rt, alloc, regex, cache);
    let memory = copy.memory_usage();
    (
        first,
        told_with(rt, alloc, regex, &mut copy, &input),
        memory,
    )
}

/// Whether a copy of a cache that was used tells what the cache told, and accounts what the cache did when it was new.
fn copy_serves<R: Abort + Wait>(rt: &R, alloc: Global, sort: Sort) -> bool {
    let regex = configured(rt, alloc, alone(sort), "a(b)?");
    let mut cache = cache_of(rt, alloc, &regex);
    let new = cache.memory_usage();
    let wanted = (Some((1, 3)), Some(3), true, (Some(2), Some(3)));
    copied(rt, alloc, &regex, &mut cache) == (wanted, wanted, new)
}

#[test]
fn a_copy_serves_as_its_source(rt: HostRuntime) {
    for sort in [FULL, LAZY, NONE] {
        assert!(rt; copy_serves(&rt, rt.alloc(), sort));
    }
}
