//! Searches of the one-pass DFA, worked out by hand.
ghost use Rattle.std.specs.Prelude.{◌≡◌};
ghost use Rattle.rx_onepass.specs.Dfa.{Fits};

use crate::rows::all_right;
use rx_onepass::{Builder, Cache, Config, DFA};
use rx_search::{Anchored, Captures, Input, MatchKind, NonMaxUsize, PatternID, Span};
use std::alloc::Global;
use std::process::Abort;

/// A slot that holds no place.
const NO: usize = usize::MAX;

/// Two patterns, the second one empty where there is one alone; a haystack, and the span of it that is searched; the pattern that
/// is found, and the slots.
type Row = (
    &'static str,
    &'static str,
    &'static [u8],
    usize,
    usize,
    Option<usize>,
    &'static [usize],
);

const WITH_GROUPS: [Row; 9] = [
    ("a(b)?c", "", b"abc", 0, 3, Some(0), &[0, 3, 1, 2]),
    ("a(b)?c", "", b"ac", 0, 2, Some(0), &[0, 2, NO, NO]),
    ("a(b)?c", "", b"xac", 0, 3, None, &[NO, NO, NO, NO]),
    ("a(b)?c", "", b"xac", 1, 3, Some(0), &[1, 3, NO, NO]),
    ("a(b)?c", "", b"abc", 0, 3, Some(0), &[0]),
    ("a(b)?c", "", b"abc", 0, 3, Some(0), &[0, 3, 1, 2, NO, NO]),
    (
        "([a-z]+)=([0-9]+)",
        "",
        b"ab=12 ",
        0,
        6,
        Some(0),
        &[0, 5, 0, 2, 3, 5],
    ),
    ("a(b)*", "", b"abbc", 0, 4, Some(0), &[0, 3, 2, 3]),
    ("(a)|b", "", b"b", 0, 1, Some(0), &[0, 1, NO, NO]),
];

const WITHOUT_GROUPS: [Row; 9] = [
    ("(?:)", "", b"\xE2\x98\x83", 0, 3, Some(0), &[0, 0]),
    ("(?:)", "", b"\xE2\x98\x83", 1, 3, None, &[NO, NO]),
    ("(?:)", "", b"a", 1, 0, None, &[NO, NO]),
    ("\\bfoo\\b", "", b"foo bar", 0, 7, Some(0), &[0, 3]),
    ("\\bfoo\\b", "", b"foobar", 0, 6, None, &[NO, NO]),
    ("\\bfoo\\b", "", b"foobar", 0, 3, None, &[NO, NO]),
    ("a*b", "", b"aaab", 0, 4, Some(0), &[0, 4]),
    ("a*b", "", b"aaab", 0, 3, None, &[NO, NO]),
    ("a+?", "", b"aa", 0, 2, Some(0), &[0, 1]),
];

const OF_TWO: [Row; 2] = [
    ("a", "b", b"b", 0, 1, Some(1), &[NO, NO, 0, 1]),
    (
        "(a)",
        "(b)",
        b"b",
        0,
        1,
        Some(1),
        &[NO, NO, 0, 1, NO, NO, 0, 1],
    ),
];

/// The DFA in a box. So a function that ends lets it go by one call, and not part by part.
fn boxed(rt: &impl Abort, alloc: Global, dfa: Option<DFA>) -> Box<DFA> {
    let dfa = dfa.expect(rt, "a one-pass pattern");
    Box::new(alloc, dfa).ok().expect(rt, "memory")
}

/// The one-pass DFA of the first pattern, or of both, with starts for each.
fn dfa_of(rt: &impl Abort, alloc: Global, kind: MatchKind, first: &str, second: &str) -> Box<DFA> {
    let mut builder = Builder::new();
    builder.configure(Config::new().match_kind(kind).starts_for_each_pattern(true));
    let built = if second.len() == 0 {
        builder.build(alloc, first)
    } else {
        builder.build_many(alloc, &[first, second])
    };
    boxed(rt, alloc, built.ok())
}

/// Whether the slot holds this place, or none.
fn is_place(slot: Option<NonMaxUsize>, want: usize) -> bool {
    match slot {
        Some(at) => at.get() == want,
        None => want == NO,
    }
}

/// Whether the slots hold these places.
fn are_places(slots: &[Option<NonMaxUsize>], want: &[usize]) -> bool {
    if slots.len() != want.len() {
        return false;
    }
    for k in 0..slots.len() {
        if let Some(place) = want.get(k) {
            if !is_place(slots[k], *place) {
                return false;
            }
        }
    }
    true
}

/// Whether it is the pattern of this number, or none.
fn is_pattern(pattern: Option<PatternID>, want: Option<usize>) -> bool {
    match (pattern, want) {
        (Some(found), Some(number)) => found.as_usize() == number,
        (None, None) => true,
        _ => false,
    }
}

/// Whether a search for the slots finds this.
fn is_found(
    dfa: &DFA,
    cache: &mut Cache,
    input: &Input<'_>,
    slots: &mut [Option<NonMaxUsize>],
    pattern: Option<usize>,
    places: &[usize],
) -> bool
    requires { Fits dfa.now.nfa cache.old }
{
    match dfa.try_search_slots(cache, input, slots) {
        Ok(found) => is_pattern(found, pattern) && are_places(slots, places),
        Err(_) => false,
    }
}

/// The anchored search of the row.
fn input_of(rt: &impl Abort, row: Row) -> Input<'static> {
    let (_, _, haystack, start, end, _, _) = row;
    assert!(rt; end <= haystack.len());
    assert!(rt; start <= end + 1);
    let input = Input::new(haystack).span(Span { start, end });
    input.anchored(Anchored::Yes)
}

/// Whether the search with a cache of the DFA finds what the row wants.
fn finds(rt: &impl Abort, alloc: Global, dfa: &DFA, row: Row) -> bool {
    let (_, _, _, _, _, pattern, places) = row;
    let input = input_of(rt, row);
    let none: Option<NonMaxUsize> = None;
    let made = vec![in alloc; none; places.len()].ok();
    let mut slots = made.expect(rt, "memory");
    let mut cache = cache_of(rt, alloc, dfa);
    is_found(dfa, &mut cache, &input, &mut slots, pattern, places)
}

/// Whether the DFA of the row's patterns does.
fn is_told(rt: &impl Abort, alloc: Global, kind: MatchKind, row: Row) -> bool {
    let (first, second, _, _, _, _, _) = row;
    let dfa = dfa_of(rt, alloc, kind, first, second);
    finds(rt, alloc, &dfa, row)
}

/// The first row that is answered otherwise.
fn first_wrong(rt: &impl Abort, alloc: Global, kind: MatchKind, rows: &[Row]) -> Option<usize> {
    for k in 0..rows.len() {
        if !is_told(rt, alloc, kind, rows[k]) {
            return Some(k);
        }
    }
    None
}

#[test]
fn searches_for_groups(rt: HostRuntime) {
    let first = MatchKind::LeftmostFirst;
    all_right(&rt, first_wrong(&rt, rt.alloc(), first, &WITH_GROUPS));
}

#[test]
fn searches_without_groups(rt: HostRuntime) {
    let first = MatchKind::LeftmostFirst;
    all_right(&rt, first_wrong(&rt, rt.alloc(), first, &WITHOUT_GROUPS));
}

#[test]
fn searches_for_two_patterns(rt: HostRuntime) {
    let first = MatchKind::LeftmostFirst;
    all_right(&rt, first_wrong(&rt, rt.alloc(), first, &OF_TWO));
}

/// The same where the farthest match is told.
const ALL_ROWS: [Row; 4] = [
    ("a+?", "", b"aab", 0, 3, Some(0), &[0, 2]),
    ("a(b)??", "", b"ab", 0, 2, Some(0), &[0, 2, 1, 2]),
    ("a(b)??c?", "", b"ab", 0, 1, Some(0), &[0, 1, NO, NO]),
    ("a*?", "b", b"aac", 0, 3, Some(0), &[0, 2, NO, NO]),
];

#[test]
fn farthest_matches_by_hand(rt: HostRuntime) {
    all_right(&rt, first_wrong(&rt, rt.alloc(), MatchKind::All, &ALL_ROWS));
}

/// Whether there is a match, in a search of this mode; None where it is refused.
fn finds_by(dfa: &DFA, cache: &mut Cache, haystack: &[u8], mode: Anchored) -> Option<bool>
    requires fits { Fits dfa.now.nfa cache.old }
    ensures cache { cache.new ≡ cache.old }
{
    let input = Input::new(haystack).anchored(mode);
    match dfa.try_search_slots(cache, &input, &mut []) {
        Ok(found) => Some(found.is_some()),
        Err(_) => None,
    }
}

/// The same of a search that is free, one that is anchored, and those for pattern 0 and for a pattern that is not there.
fn finds_by_each(
    dfa: &DFA,
    cache: &mut Cache,
    haystack: &[u8],
    other: PatternID,
) -> (Option<bool>, Option<bool>, Option<bool>, Option<bool>)
    requires fits { Fits dfa.now.nfa cache.old }
{
    let free = finds_by(dfa, cache, haystack, Anchored::No);
    let anchored = finds_by(dfa, cache, haystack, Anchored::Yes);
    let first = finds_by(dfa, cache, haystack, Anchored::Pattern(PatternID::ZERO));
    let unknown = finds_by(dfa, cache, haystack, Anchored::Pattern(other));
    (free, anchored, first, unknown)
}

/// A DFA of the pattern, with starts for each or not.
fn with_starts(rt: &impl Abort, alloc: Global, each: bool, pattern: &str) -> Box<DFA> {
    let mut builder = Builder::new();
    builder.configure(Config::new().starts_for_each_pattern(each));
    boxed(rt, alloc, builder.build(alloc, pattern).ok())
}

/// A cache of the DFA.
fn cache_of(rt: &impl Abort, alloc: Global, dfa: &DFA) -> Cache
    ensures { Fits dfa.now.nfa result }
{
    dfa.create_cache(alloc).ok().expect(rt, "a cache")
}

/// What the four searches of the haystack `a` answer.
fn answers(
    rt: &impl Abort,
    alloc: Global,
    each: bool,
    pattern: &str,
) -> (Option<bool>, Option<bool>, Option<bool>, Option<bool>) {
    let dfa = with_starts(rt, alloc, each, pattern);
    let other = PatternID::new(7).expect(rt, "a number");
    finds_by_each(&dfa, &mut cache_of(rt, alloc, &dfa), b"a", other)
}

#[test]
fn modes_that_are_refused(rt: HostRuntime) {
    let alloc = rt.alloc();
    let (yes, no) = (Some(true), Some(false));
    let (each, all) = (
        answers(&rt, alloc, true, "a"),
        answers(&rt, alloc, false, "a"),
    );
    assert!(rt; (each, all) == ((None, yes, yes, no), (None, yes, None, None)));
    assert!(rt; answers(&rt, alloc, true, "^a") == (yes, yes, yes, no));
}

/// Whether a search that is not anchored is refused, and the captures then have no pattern.
fn is_refused(dfa: &DFA, cache: &mut Cache, captures: &mut Captures) -> bool
    requires fits { Fits dfa.now.nfa cache.old }
    requires groups { captures.old.groups ≡ dfa.now.nfa.groups }
    ensures cache { cache.new ≡ cache.old }
    ensures groups { captures.new.groups ≡ captures.old.groups }
{
    let refused = dfa.try_search(cache, &Input::new(b"a"), captures).is_err();
    refused && !captures.is_match()
}

/// Whether such a search of the haystack is taken as anchored, by the calls that do so: whether there is a match, its end, and
/// the slots of the captures.
fn are_taken_as_anchored(
    dfa: &DFA,
    cache: &mut Cache,
    captures: &mut Captures,
    haystack: &[u8],
    slots: &[usize],
) -> bool
    requires fits { Fits dfa.now.nfa cache.old }
    requires groups { captures.old.groups ≡ dfa.now.nfa.groups }
    ensures cache { cache.new ≡ cache.old }
    ensures groups { captures.new.groups ≡ captures.old.groups }
{
    let input = Input::new(haystack);
    let there = dfa.is_match(cache, &input);
    let found = dfa.find(cache, &input);
    dfa.captures(cache, &input, captures);
    there == captures.is_match() && there == found.is_some() && are_places(captures.slots(), slots)
}

/// Of the DFA of `a`: whether a free search is refused, and those that are taken as anchored find `a` where it is first.
fn answers_to_free(dfa: &DFA, cache: &mut Cache, captures: &mut Captures) -> (bool, bool, bool)
    requires fits { Fits dfa.now.nfa cache.old }
    requires groups { captures.old.groups ≡ dfa.now.nfa.groups }
{
    let refused = is_refused(dfa, cache, captures);
    let first = are_taken_as_anchored(dfa, cache, captures, b"ab", &[0, 1]);
    let later = are_taken_as_anchored(dfa, cache, captures, b"ba", &[NO, NO]);
    (refused, first, later)
}

#[test]
fn free_searches(rt: HostRuntime) {
    let alloc = rt.alloc();
    let dfa = with_starts(&rt, alloc, false, "a");
    let mut cache = cache_of(&rt, alloc, &dfa);
    let mut captures = dfa.create_captures(alloc).ok().expect(&rt, "captures");
    assert!(rt; answers_to_free(&dfa, &mut cache, &mut captures) == (true, true, true));
}

/// Whether a cache of the one DFA, reset for the other, serves it.
fn serves_after_reset(
    one: &DFA,
    other: &DFA,
    cache: &mut Cache,
    slots: &mut [Option<NonMaxUsize>],
) -> bool
    requires fits { Fits one.now.nfa cache.old }
{
    let _there = finds_by(one, cache, b"a", Anchored::Yes);
    if other.reset_cache(cache).is_err() {
        return false;
    }
    let input = Input::new(b"b").anchored(Anchored::Yes);
    is_found(other, cache, &input, slots, Some(0), &[0, 1, 0, 1, NO, NO])
}

#[test]
fn a_cache_is_reset(rt: HostRuntime) {
    let alloc = rt.alloc();
    let one = with_starts(&rt, alloc, false, "a");
    let other = with_starts(&rt, alloc, false, "(b)(c)?");
    let mut cache = cache_of(&rt, alloc, &one);
    let mut slots: [Option<NonMaxUsize>; 6] = [None, None, None, None, NonMaxUsize::new(9), None];
    assert!(rt; serves_after_reset(&one, &other, &mut cache, &mut slots));
}
