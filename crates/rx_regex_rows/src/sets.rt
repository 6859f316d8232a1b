//! Tests of the sets of patterns that a regex fills. What is wanted was found by hand.
ghost use Rattle.std.specs.Prelude.{◌≡◌, ◌≤◌, length};
ghost use Rattle.rx_meta.specs.Regex.{pattern_count};

use crate::regex::{boxed, within};
use rx_meta::{Builder, Config, Regex, WhichCaptures};
use rx_search::{Anchored, Input, MatchKind, PatternID, PatternSet};
use std::alloc::Global;
use std::process::Abort;
use std::sync::Wait;

/// Patterns, a text with a span of it, the number of the pattern to which the search is anchored, if it is, the pattern of the
/// next match, if there is one, and the patterns that have a match.
type Row = (
    &'static [&'static str],
    &'static str,
    (usize, usize),
    Option<usize>,
    Option<usize>,
    &'static [usize],
);

const ROWS: [Row; 14] = [
    (&["a", "ab"], "xab", (0, 3), None, Some(0), &[0, 1]),
    (&["a", "ab", "c"], "xab", (0, 3), None, Some(0), &[0, 1]),
    (&["b", "ab"], "ab", (0, 2), None, Some(1), &[0, 1]),
    (
        &["abc", "b", "c$", "^b"],
        "abc",
        (0, 3),
        None,
        Some(0),
        &[0, 1, 2],
    ),
    (&["a*", "b"], "b", (0, 1), None, Some(0), &[0, 1]),
    (&["a", "b"], "ab", (1, 1), None, None, &[]),
    (&["a", "b"], "ab", (1, 2), None, Some(1), &[1]),
    (&["a", "b"], "ab", (1, 2), Some(0), None, &[]),
    (&["a", "b"], "ab", (0, 2), Some(0), Some(0), &[0]),
    (&["a", "a"], "a", (0, 1), Some(1), Some(1), &[1]),
    (&["a", "b"], "ab", (0, 2), Some(7), None, &[]),
    (
        &["", "☃", r"(?-u:\B)"],
        "a☃",
        (1, 4),
        None,
        Some(0),
        &[0, 1, 2],
    ),
    (&["", r"(?-u:\B)"], "a☃", (2, 3), None, None, &[]),
    (&[], "a", (0, 1), None, None, &[]),
];

/// What a set has after a search, beside the patterns that it had before.
#[derive(Clone, Copy)]
enum Want {
    /// Each pattern that has a match.
    Each,
    /// The pattern of the next match, and none without a match.
    Next,
    /// A pattern that has a match, where there is one, and none without a match.
    Any,
}

/// Where a match may begin: there, of the pattern of this number alone, if there is a number.
fn mode(rt: &impl Abort, pattern: Option<usize>) -> Anchored {
    match pattern {
        Some(number) => {
            Anchored::Pattern(PatternID::new(number).expect(rt, "a number of a pattern"))
        }
        None => Anchored::No,
    }
}

/// A set with room for the patterns of the regex and for one more, which is in it.
pub(crate) fn set_of(rt: &impl Abort, alloc: Global, regex: &Regex) -> PatternSet
    ensures { pattern_count regex.now ≤ length result }
{
    let len = regex.pattern_len();
    let mut set = PatternSet::new(alloc, len + 1).ok().expect(rt, "memory");
    let own = PatternID::new(len).expect(rt, "a number of a pattern");
    set.insert(own);
    set
}

/// The set after a search of the input.
fn filled<R: Abort + Wait>(rt: &R, alloc: Global, regex: &Regex, input: &Input<'_>) -> PatternSet {
    let mut set = set_of(rt, alloc, regex);
    let done = regex.which_overlapping_matches(rt, alloc, input, &mut set);
    done.ok().expect(rt, "memory");
    set
}

/// The same by the call that takes a cache.
fn filled_with(rt: &impl Abort, alloc: Global, regex: &Regex, input: &Input<'_>) -> PatternSet {
    let mut set = set_of(rt, alloc, regex);
    let mut cache = regex.create_cache(alloc).ok().expect(rt, "memory");
    let done = regex.which_overlapping_matches_with(&mut cache, input, &mut set);
    // (by a call: else each of its parts is let go here)
    drop(cache);
    done.ok().expect(rt, "memory");
    set
}

/// Whether the set has no other patterns than these and the last one that there is room for, which was in it before.
fn has_no_other(set: &PatternSet, most: &[usize]) -> bool {
    let mut members = set.iter();
    while let Some(member) = members.next() {
        let number = member.as_usize();
        if number + 1 < set.capacity() && !most.contains(&number) {
            return false;
        }
    }
    true
}

/// Whether the set has the pattern of this number.
fn has(rt: &impl Abort, set: &PatternSet, number: usize) -> bool {
    set.contains(PatternID::new(number).expect(rt, "a number of a pattern"))
}

/// Whether the set has what is wanted, and the pattern that was in it.
fn is_right(rt: &impl Abort, set: &PatternSet, want: Want, row: Row) -> bool {
    let (patterns, _, _, _, next, most) = row;
    if !has(rt, set, patterns.len()) || !has_no_other(set, most) {
        return false;
    }
    match (want, next) {
        (Want::Each, _) => set.len() == most.len() + 1,
        (Want::Next, Some(next)) => has(rt, set, next),
        _ => most.is_empty() == (set.len() == 1),
    }
}

/// The regex of these patterns.
fn regex_of(rt: &impl Abort, alloc: Global, builder: &Builder, patterns: &[&str]) -> Box<Regex> {
    boxed(rt, alloc, builder.build_many(alloc, patterns).ok())
}

/// Whether both calls fill a set as the row says.
fn is_told<R: Abort + Wait>(
    rt: &R,
    alloc: Global,
    builder: &Builder,
    earliest: bool,
    want: Want,
    row: Row,
) -> bool {
    let (patterns, text, span, pattern, _, _) = row;
    let regex = regex_of(rt, alloc, builder, patterns);
    let input = within(rt, text, span)
        .anchored(mode(rt, pattern))
        .earliest(earliest);
    let found = filled(rt, alloc, &regex, &input);
    let again = filled_with(rt, alloc, &regex, &input);
    is_right(rt, &found, want, row) && is_right(rt, &again, want, row)
}

/// A builder of regexes of this kind of match, which are asked for these captures.
fn asking(kind: MatchKind, which: WhichCaptures) -> Builder {
    let mut builder = Builder::new();
    builder.configure(Config::new().match_kind(kind).which_captures(which));
    builder
}

/// The number of the first row that is not told.
fn first_wrong<R: Abort + Wait>(
    rt: &R,
    kind: MatchKind,
    which: WhichCaptures,
    earliest: bool,
    want: Want,
    alloc: Global,
) -> Option<usize> {
    let builder = asking(kind, which);
    let rows: &[Row] = &ROWS;
    for k in 0..rows.len() {
        if !is_told(rt, alloc, &builder, earliest, want, rows[k]) {
            return Some(k);
        }
    }
    None
}

#[test]
fn a_set_has_each_pattern_that_matches(rt: HostRuntime) {
    for which in [
        WhichCaptures::All,
        WhichCaptures::Implicit,
        WhichCaptures::None,
    ] {
        let wrong = first_wrong(&rt, MatchKind::All, which, false, Want::Each, rt.alloc());
        assert_eq!(rt; wrong, None);
    }
}

#[test]
fn a_set_has_the_pattern_of_the_next_match(rt: HostRuntime) {
    for which in [
        WhichCaptures::All,
        WhichCaptures::Implicit,
        WhichCaptures::None,
    ] {
        let kind = MatchKind::LeftmostFirst;
        let wrong = first_wrong(&rt, kind, which, false, Want::Next, rt.alloc());
        assert_eq!(rt; wrong, None);
    }
}

#[test]
fn a_set_has_a_pattern_where_any_will_do(rt: HostRuntime) {
    for (kind, which) in [
        (MatchKind::All, WhichCaptures::None),
        (MatchKind::LeftmostFirst, WhichCaptures::All),
    ] {
        let wrong = first_wrong(&rt, kind, which, true, Want::Any, rt.alloc());
        assert_eq!(rt; wrong, None);
    }
}
