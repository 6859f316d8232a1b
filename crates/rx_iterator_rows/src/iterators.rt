//! Tests of captures, and of the iterators of a regex. What is wanted was found by hand.
ghost use Rattle.std.specs.Prelude.{◌≡◌};
ghost use Rattle.rx_meta.specs.Regex.{groups_in};

use crate::rows::all_right;
use rx_meta::{CapturesMatches, Config, FindMatches, Regex, Split, SplitN, WhichCaptures};
use rx_search::{Captures, Input, Span};
use std::alloc::Global;
use std::process::Abort;
use std::sync::Wait;

/// The regex in a box: so a function that ends lets it go by one call, and not part by part. A cache, and an iterator, which has one, are let
/// go by name, which is one call too.
pub(crate) fn boxed(rt: &impl Abort, alloc: Global, regex: Option<Regex>) -> Box<Regex> {
    let regex = regex.expect(rt, "a regex");
    Box::new(alloc, regex).ok().expect(rt, "memory")
}

/// The regex of these patterns under this configuration.
fn regex_of(rt: &impl Abort, alloc: Global, config: Config, patterns: &[&str]) -> Box<Regex> {
    let mut builder = Regex::builder();
    builder.configure(config);
    boxed(rt, alloc, builder.build_many(alloc, patterns).ok())
}

/// The text, from this place to that.
fn within(rt: &impl Abort, text: &'static str, span: (usize, usize)) -> Input<'static> {
    let (start, end) = span;
    assert!(rt; end <= text.len());
    assert!(rt; start <= end + 1);
    Input::new(text.as_bytes()).span(Span { start, end })
}

/// A span as two places.
fn places(span: Span) -> (usize, usize) {
    (span.start, span.end)
}

/// The span of a group.
fn group(captures: &Captures, number: usize) -> Option<(usize, usize)> {
    match captures.get_group(number) {
        Some(span) => Some(places(span)),
        None => None,
    }
}

/// A pattern, a text with a span of it, and the spans that are to be given.
type Row = (
    &'static str,
    &'static str,
    (usize, usize),
    &'static [(usize, usize)],
);

const MATCHES: [Row; 5] = [
    ("[a-zA-Z]+ing", "tingling", (0, 8), &[(0, 8)]),
    ("a{2,3}?", "aaaa", (0, 4), &[(0, 2), (2, 4)]),
    ("a", "xayaz", (2, 5), &[(3, 4)]),
    ("^a|b", "aab", (0, 3), &[(0, 1), (2, 3)]),
    ("c", "ab", (0, 2), &[]),
];

const EMPTY_MATCHES: [Row; 9] = [
    ("a*", "ba", (0, 2), &[(0, 0), (1, 2)]),
    ("a*", "", (0, 0), &[(0, 0)]),
    ("a*", "aab", (0, 3), &[(0, 2), (3, 3)]),
    ("a*", "☃", (0, 3), &[(0, 0), (3, 3)]),
    ("a*", "b", (0, 1), &[(0, 0), (1, 1)]),
    ("a*", "baab", (1, 3), &[(1, 3)]),
    ("", "a☃", (0, 4), &[(0, 0), (1, 1), (4, 4)]),
    ("", "a☃", (2, 3), &[]),
    (r"\b", "ab cd", (0, 5), &[(0, 0), (2, 2), (3, 3), (5, 5)]),
];

const MATCHES_INSIDE_CHARACTERS: [Row; 4] = [
    ("a*", "☃", (0, 3), &[(0, 0), (1, 1), (2, 2), (3, 3)]),
    ("", "a☃", (2, 3), &[(2, 2), (3, 3)]),
    ("☃|", "☃☃", (1, 6), &[(1, 1), (2, 2), (3, 6)]),
    (r"(?-u:\B)", "☃", (0, 3), &[(0, 0), (1, 1), (2, 2), (3, 3)]),
];

const GAPS: [Row; 7] = [
    (",", "a,b,c", (0, 5), &[(0, 1), (2, 3), (4, 5)]),
    (",", "a,b", (1, 2), &[(0, 1), (2, 3)]),
    (",", "a,b", (0, 1), &[(0, 3)]),
    (",", ",a,", (0, 3), &[(0, 0), (1, 2), (3, 3)]),
    (",", "", (0, 0), &[(0, 0)]),
    (",", ",", (0, 1), &[(0, 0), (1, 1)]),
    (",", "ab", (0, 2), &[(0, 2)]),
];

const GAPS_OF_ANY_LENGTH: [Row; 3] = [
    ("", "ab", (0, 2), &[(0, 0), (0, 1), (1, 2), (2, 2)]),
    ("", "☃", (0, 3), &[(0, 0), (0, 3), (3, 3)]),
    (r"\s*,\s*", "a , ,b", (0, 6), &[(0, 1), (4, 4), (5, 6)]),
];

/// Whether the next match is at this span.
fn is_next_match(matches: &mut FindMatches<'_, '_>, span: (usize, usize)) -> bool {
    match matches.next() {
        Some(Ok(found)) => places(found.span()) == span,
        _ => false,
    }
}

/// Whether it gives matches at these spans, and nothing further.
fn gives_matches(matches: &mut FindMatches<'_, '_>, spans: &[(usize, usize)]) -> bool {
    for span in spans {
        if !is_next_match(matches, *span) {
            return false;
        }
    }
    matches.next().is_none() && matches.next().is_none()
}

/// Whether the next captures are of a match at this span.
fn is_next_captured(captures: &mut CapturesMatches<'_, '_>, span: (usize, usize)) -> bool {
    match captures.next() {
        Some(Ok(given)) => group(&given, 0) == Some(span),
        _ => false,
    }
}

/// Whether it gives captures of matches at these spans, and nothing further.
fn gives_captures(captures: &mut CapturesMatches<'_, '_>, spans: &[(usize, usize)]) -> bool {
    for span in spans {
        if !is_next_captured(captures, *span) {
            return false;
        }
    }
    captures.next().is_none() && captures.next().is_none()
}

/// Whether the next gap is at this span.
fn is_next_gap(gaps: &mut Split<'_, '_>, span: (usize, usize)) -> bool {
    match gaps.next() {
        Some(Ok(gap)) => places(gap) == span,
        _ => false,
    }
}

/// Whether it gives gaps at these spans, and nothing further.
fn gives_gaps(gaps: &mut Split<'_, '_>, spans: &[(usize, usize)]) -> bool {
    for span in spans {
        if !is_next_gap(gaps, *span) {
            return false;
        }
    }
    gaps.next().is_none() && gaps.next().is_none()
}

/// Whether so many pieces are left at most, and the next one is at this span.
fn is_next_piece(pieces: &mut SplitN<'_, '_>, left: usize, span: (usize, usize)) -> bool {
    if pieces.size_hint() != (0, Some(left)) {
        return false;
    }
    match pieces.next() {
        Some(Ok(piece)) => places(piece) == span,
        _ => false,
    }
}

/// Whether it gives pieces at these spans, of this number at most, and nothing further.
fn gives_pieces(pieces: &mut SplitN<'_, '_>, limit: usize, spans: &[(usize, usize)]) -> bool {
    let mut left = limit;
    for span in spans {
        if left == 0 || !is_next_piece(pieces, left, *span) {
            return false;
        }
        left -= 1;
    }
    pieces.next().is_none() && pieces.next().is_none()
}

/// How many matches the iterator counts.
pub(crate) fn count_matches<R: Abort + Wait>(
    rt: &R,
    alloc: Global,
    regex: &Regex,
    input: &Input<'_>,
) -> Option<usize> {
    let matches = regex.find_iter(rt, alloc, input).ok().expect(rt, "memory");
    matches.count(rt).ok()
}

/// Whether the iterator over matches gives these, and counts them.
fn are_matches<R: Abort + Wait>(
    rt: &R,
    alloc: Global,
    regex: &Regex,
    input: &Input<'_>,
    spans: &[(usize, usize)],
) -> bool {
    let mut matches = regex.find_iter(rt, alloc, input).ok().expect(rt, "memory");
    let are = gives_matches(&mut matches, spans);
    matches.finish(rt);
    are && count_matches(rt, alloc, regex, input) == Some(spans.len())
}

/// How many captures the iterator counts.
pub(crate) fn count_captures<R: Abort + Wait>(
    rt: &R,
    alloc: Global,
    regex: &Regex,
    input: &Input<'_>,
) -> Option<usize> {
    let captures = regex
        .captures_iter(rt, alloc, input)
        .ok()
        .expect(rt, "memory");
    captures.count(rt).ok()
}

/// Whether the iterator over captures gives these matches, and counts them.
fn are_captured<R: Abort + Wait>(
    rt: &R,
    alloc: Global,
    regex: &Regex,
    input: &Input<'_>,
    spans: &[(usize, usize)],
) -> bool {
    let mut matches = regex
        .captures_iter(rt, alloc, input)
        .ok()
        .expect(rt, "memory");
    let are = gives_captures(&mut matches, spans);
    matches.finish(rt);
    are && count_captures(rt, alloc, regex, input) == Some(spans.len())
}

/// Whether the iterators give the matches of the row.
fn is_told<R: Abort + Wait>(rt: &R, alloc: Global, utf8_empty: bool, row: Row) -> bool {
    let (pattern, text, span, spans) = row;
    let regex = regex_of(rt, alloc, Config::new().utf8_empty(utf8_empty), &[pattern]);
    let input = within(rt, text, span);
    are_matches(rt, alloc, &regex, &input, spans) && are_captured(rt, alloc, &regex, &input, spans)
}

/// The number of the first row of which the iterators give other matches.
fn first_wrong<R: Abort + Wait>(
    rt: &R,
    alloc: Global,
    utf8_empty: bool,
    rows: &[Row],
) -> Option<usize> {
    for k in 0..rows.len() {
        if !is_told(rt, alloc, utf8_empty, rows[k]) {
            return Some(k);
        }
    }
    None
}

#[test]
fn matches_come_one_after_another(rt: HostRuntime) {
    all_right(&rt, first_wrong(&rt, rt.alloc(), true, &MATCHES));
}

#[test]
fn empty_matches_come_one_after_another(rt: HostRuntime) {
    all_right(&rt, first_wrong(&rt, rt.alloc(), true, &EMPTY_MATCHES));
}

#[test]
fn matches_may_lie_inside_a_character(rt: HostRuntime) {
    let wrong = first_wrong(&rt, rt.alloc(), false, &MATCHES_INSIDE_CHARACTERS);
    all_right(&rt, wrong);
}

/// Whether the split gives the gaps of the row.
fn is_split<R: Abort + Wait>(rt: &R, alloc: Global, row: Row) -> bool {
    let (pattern, text, span, spans) = row;
    let regex = regex_of(rt, alloc, Config::new(), &[pattern]);
    let input = within(rt, text, span);
    let mut gaps = regex.split(rt, alloc, &input).ok().expect(rt, "memory");
    let is_split = gives_gaps(&mut gaps, spans);
    gaps.finish(rt);
    is_split
}

/// The number of the first row of which the split gives other gaps.
fn first_wrong_split<R: Abort + Wait>(rt: &R, alloc: Global, rows: &[Row]) -> Option<usize> {
    for k in 0..rows.len() {
        if !is_split(rt, alloc, rows[k]) {
            return Some(k);
        }
    }
    None
}

#[test]
fn gaps_lie_between_matches(rt: HostRuntime) {
    all_right(&rt, first_wrong_split(&rt, rt.alloc(), &GAPS));
}

#[test]
fn gaps_lie_between_matches_of_any_length(rt: HostRuntime) {
    let wrong = first_wrong_split(&rt, rt.alloc(), &GAPS_OF_ANY_LENGTH);
    all_right(&rt, wrong);
}

/// Whether the split of `a,b,c` at commas into at most so many pieces gives these.
fn is_split_into<R: Abort + Wait>(
    rt: &R,
    alloc: Global,
    limit: usize,
    spans: &[(usize, usize)],
) -> bool {
    let regex = regex_of(rt, alloc, Config::new(), &[","]);
    let input = Input::new(b"a,b,c");
    let mut pieces = regex
        .splitn(rt, alloc, &input, limit)
        .ok()
        .expect(rt, "memory");
    let is_split = gives_pieces(&mut pieces, limit, spans);
    pieces.finish(rt);
    is_split
}

/// A number of pieces, and the spans of them that are to be given.
type Pieces = (usize, &'static [(usize, usize)]);

const PIECES: [Pieces; 5] = [
    (0, &[]),
    (1, &[(0, 5)]),
    (2, &[(0, 1), (2, 5)]),
    (3, &[(0, 1), (2, 3), (4, 5)]),
    (9, &[(0, 1), (2, 3), (4, 5)]),
];

/// The number of the first row of which the split gives other pieces.
fn first_wrong_pieces<R: Abort + Wait>(rt: &R, alloc: Global, rows: &[Pieces]) -> Option<usize> {
    for k in 0..rows.len() {
        let (limit, spans) = rows[k];
        if !is_split_into(rt, alloc, limit, spans) {
            return Some(k);
        }
    }
    None
}

#[test]
fn a_split_has_so_many_pieces_at_most(rt: HostRuntime) {
    all_right(&rt, first_wrong_pieces(&rt, rt.alloc(), &PIECES));
}

/// Where the next search begins: at first, after a match, and after none.
type Places = (usize, usize, usize);

/// The places of an iterator over matches.
fn searched_from(matches: &mut FindMatches<'_, '_>) -> Places {
    let first = matches.input().start();
    let _found = matches.next();
    let second = matches.input().start();
    let _none = matches.next();
    (first, second, matches.input().start())
}

/// The places of an iterator over captures.
fn captured_from(matches: &mut CapturesMatches<'_, '_>) -> Places {
    let first = matches.input().start();
    let _found = matches.next();
    let second = matches.input().start();
    let _none = matches.next();
    (first, second, matches.input().start())
}

/// The places of a split.
fn split_from(gaps: &mut Split<'_, '_>) -> Places {
    let first = gaps.input().start();
    let _gap = gaps.next();
    let second = gaps.input().start();
    let _last = gaps.next();
    (first, second, gaps.input().start())
}

/// The places of a split that has a limit.
fn pieces_from(pieces: &mut SplitN<'_, '_>) -> Places {
    let first = pieces.input().start();
    let _piece = pieces.next();
    let second = pieces.input().start();
    let _last = pieces.next();
    (first, second, pieces.input().start())
}

/// The places of `find_iter`, and how many patterns its regex has.
fn of_matches<R: Abort + Wait>(
    rt: &R,
    alloc: Global,
    regex: &Regex,
    input: &Input<'_>,
) -> (Places, usize) {
    let mut matches = regex.find_iter(rt, alloc, input).ok().expect(rt, "memory");
    let places = searched_from(&mut matches);
    let patterns = matches.regex().pattern_len();
    drop(matches);
    (places, patterns)
}

/// The places of `captures_iter`, and how many patterns its regex has.
fn of_captures<R: Abort + Wait>(
    rt: &R,
    alloc: Global,
    regex: &Regex,
    input: &Input<'_>,
) -> (Places, usize) {
    let mut matches = regex
        .captures_iter(rt, alloc, input)
        .ok()
        .expect(rt, "memory");
    let places = captured_from(&mut matches);
    let patterns = matches.regex().pattern_len();
    drop(matches);
    (places, patterns)
}

/// The places of `split`.
fn of_gaps<R: Abort + Wait>(rt: &R, alloc: Global, regex: &Regex, input: &Input<'_>) -> Places {
    let mut gaps = regex.split(rt, alloc, input).ok().expect(rt, "memory");
    let places = split_from(&mut gaps);
    drop(gaps);
    places
}

/// The places of `splitn` up to one piece.
fn of_one_piece<R: Abort + Wait>(
    rt: &R,
    alloc: Global,
    regex: &Regex,
    input: &Input<'_>,
) -> Places {
    let mut pieces = regex.splitn(rt, alloc, input, 1).ok().expect(rt, "memory");
    let places = pieces_from(&mut pieces);
    drop(pieces);
    places
}

/// Those of the four iterators, over matches, captures, gaps and one piece, and how many patterns the regex of the first two has.
fn of_each<R: Abort + Wait>(
    rt: &R,
    alloc: Global,
    regex: &Regex,
    input: &Input<'_>,
) -> ([Places; 4], usize, usize) {
    let (matches, patterns) = of_matches(rt, alloc, regex, input);
    let (captures, again) = of_captures(rt, alloc, regex, input);
    let gaps = of_gaps(rt, alloc, regex, input);
    let piece = of_one_piece(rt, alloc, regex, input);
    ([matches, captures, gaps, piece], patterns, again)
}

#[test]
fn an_iterator_tells_where_it_searches(rt: HostRuntime) {
    let regex = regex_of(&rt, rt.alloc(), Config::new(), &["b", "ab"]);
    let input = Input::new(b"xxabx").range(1..5);
    let places = [(1, 4, 4), (1, 4, 4), (1, 4, 4), (1, 1, 1)];
    assert!(rt; of_each(&rt, rt.alloc(), &regex, &input) == (places, 2, 2));
}

const SETTINGS: [&str; 4] = [
    r#"(?m)^(?<key>[[:word:]]+)=(?<val>[[:word:]]+)$"#,
    r#"(?m)^(?<key>[[:word:]]+)="(?<val>[^"]+)"$"#,
    r#"(?m)^(?<key>[[:word:]]+)='(?<val>[^']+)'$"#,
    r"(?m)^(?<key>[[:word:]]+):\s*(?<val>[[:word:]]+)$",
];

const SET: &str = r#"best_album="Blow Your Face Out"
best_quote='"then as it was, then again it will be"'
best_year=1973
best_simpsons_episode: HOMR
"#;

const KEYS_AND_VALUES: [(&str, &str); 4] = [
    ("best_album", "Blow Your Face Out"),
    ("best_quote", r#""then as it was, then again it will be""#),
    ("best_year", "1973"),
    ("best_simpsons_episode", "HOMR"),
];

/// Whether the group of this name has this text.
fn has_text(captures: &Captures, text: &str, name: &str, wanted: &str) -> bool {
    let Some(span) = captures.get_group_by_name(name) else {
        return false;
    };
    text.as_bytes().get(span.start..span.end) == Some(wanted.as_bytes())
}

/// Whether these captures are of this key with its value.
fn is_setting(captures: &Captures, text: &str, setting: (&str, &str)) -> bool {
    let (key, value) = setting;
    has_text(captures, text, "key", key) && has_text(captures, text, "val", value)
}

/// Whether the next captures are of this key with its value.
fn is_next_setting(
    captures: &mut CapturesMatches<'_, '_>,
    text: &str,
    setting: (&str, &str),
) -> bool {
    match captures.next() {
        Some(Ok(given)) => is_setting(&given, text, setting),
        _ => false,
    }
}

/// Whether it gives these keys with their values, and nothing further.
fn gives_settings(
    captures: &mut CapturesMatches<'_, '_>,
    text: &str,
    settings: &[(&str, &str)],
) -> bool {
    for setting in settings {
        if !is_next_setting(captures, text, *setting) {
            return false;
        }
    }
    captures.next().is_none()
}

/// Whether the regex reads the settings of the file.
fn reads_settings<R: Abort + Wait>(rt: &R, alloc: Global, regex: &Regex) -> bool {
    let input = Input::new(SET.as_bytes());
    let mut captures = regex
        .captures_iter(rt, alloc, &input)
        .ok()
        .expect(rt, "memory");
    let are = gives_settings(&mut captures, SET, &KEYS_AND_VALUES);
    captures.finish(rt);
    are
}

#[test]
fn settings_are_read_by_the_names_of_groups(rt: HostRuntime) {
    let regex = regex_of(&rt, rt.alloc(), Config::new(), &SETTINGS);
    assert!(rt; reads_settings(&rt, rt.alloc(), &regex));
}

/// What captures hold: the number of the pattern, and the spans of two groups.
type Held = (
    Option<usize>,
    Option<(usize, usize)>,
    Option<(usize, usize)>,
);

/// What the captures hold.
fn held(captures: &Captures) -> Held {
    let pattern = match captures.pattern() {
        Some(pattern) => Some(pattern.as_usize()),
        None => None,
    };
    (pattern, group(captures, 0), group(captures, 1))
}

/// Captures for the searches of the regex.
fn captures_of(rt: &impl Abort, alloc: Global, regex: &Regex) -> Captures
    ensures { result.groups ≡ groups_in regex.now }
{
    regex.create_captures(alloc).ok().expect(rt, "memory")
}

/// What captures hold after a search of `ab`, and then one of this input, with a cache.
fn held_with(
    rt: &impl Abort,
    alloc: Global,
    regex: &Regex,
    captures: &mut Captures,
    input: &Input<'_>,
) -> Held
    requires { captures.old.groups ≡ groups_in regex.now }
    ensures { captures.new.groups ≡ groups_in regex.now }
{
    let mut cache = regex.create_cache(alloc).ok().expect(rt, "memory");
    let _before = regex.search_captures_with(&mut cache, &Input::new(b"ab"), captures);
    let _now = regex.search_captures_with(&mut cache, input, captures);
    drop(cache);
    held(captures)
}

/// The same without a cache.
fn held_after<R: Wait>(
    rt: &R,
    alloc: Global,
    regex: &Regex,
    captures: &mut Captures,
    input: &Input<'_>,
) -> Held
    requires { captures.old.groups ≡ groups_in regex.now }
    ensures { captures.new.groups ≡ groups_in regex.now }
{
    let _before = regex.search_captures(rt, alloc, &Input::new(b"ab"), captures);
    let _now = regex.captures(rt, alloc, input, captures);
    held(captures)
}

/// The same by the calls in the other order.
fn held_again<R: Wait>(
    rt: &R,
    alloc: Global,
    regex: &Regex,
    captures: &mut Captures,
    input: &Input<'_>,
) -> Held
    requires { captures.old.groups ≡ groups_in regex.now }
    ensures { captures.new.groups ≡ groups_in regex.now }
{
    let _before = regex.captures(rt, alloc, &Input::new(b"ab"), captures);
    let _now = regex.search_captures(rt, alloc, input, captures);
    held(captures)
}

/// What captures hold after a search of this text for `a(b)?`, under this kind of captures; None where the calls disagree.
fn held_under<R: Abort + Wait>(
    rt: &R,
    alloc: Global,
    which: WhichCaptures,
    text: &'static str,
) -> Option<Held> {
    let regex = regex_of(rt, alloc, Config::new().which_captures(which), &["a(b)?"]);
    let mut captures = captures_of(rt, alloc, &regex);
    let input = Input::new(text.as_bytes());
    let first = held_with(rt, alloc, &regex, &mut captures, &input);
    let second = held_after(rt, alloc, &regex, &mut captures, &input);
    let third = held_again(rt, alloc, &regex, &mut captures, &input);
    if first == second && first == third {
        Some(first)
    } else {
        None
    }
}

/// A kind of captures, a text, and what is held after its search.
type HeldRow = (WhichCaptures, &'static str, Held);

const HELD: [HeldRow; 6] = [
    (WhichCaptures::All, "xb", (None, None, None)),
    (WhichCaptures::Implicit, "xb", (None, None, None)),
    (
        WhichCaptures::All,
        "xab",
        (Some(0), Some((1, 3)), Some((2, 3))),
    ),
    (WhichCaptures::All, "xa", (Some(0), Some((1, 2)), None)),
    (
        WhichCaptures::Implicit,
        "xab",
        (Some(0), Some((1, 3)), None),
    ),
    (WhichCaptures::None, "xab", (None, None, None)),
];

/// The number of the first of these rows of which something else is held.
fn first_held_wrong<R: Abort + Wait>(rt: &R, alloc: Global, rows: &[HeldRow]) -> Option<usize> {
    for k in 0..rows.len() {
        let (which, text, wanted) = rows[k];
        if held_under(rt, alloc, which, text) != Some(wanted) {
            return Some(k);
        }
    }
    None
}

#[test]
fn captures_hold_what_a_search_tells(rt: HostRuntime) {
    all_right(&rt, first_held_wrong(&rt, rt.alloc(), &HELD));
}

/// What is known of the groups of these patterns: how many there are, and how many are told of each match.
fn counted(rt: &impl Abort, alloc: Global, patterns: &[&str]) -> (usize, Option<usize>) {
    let regex = regex_of(rt, alloc, Config::new(), patterns);
    (regex.captures_len(), regex.static_captures_len())
}

#[test]
fn groups_are_counted(rt: HostRuntime) {
    let one = counted(&rt, rt.alloc(), &["a(b)?"]);
    let three = counted(&rt, rt.alloc(), &["(a)(b)", "(a)|b(c)", "a"]);
    let two = counted(&rt, rt.alloc(), &["(a)|(b)", "(?<k>a)"]);
    assert!(rt; (one, three, two) == ((2, None), (7, None), (5, Some(2))));
}
