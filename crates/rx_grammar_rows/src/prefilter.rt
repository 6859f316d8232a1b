//! Searches, worked out by hand, and what a prefilter says of itself.
ghost use Rattle.std.specs.Prelude.{◌≤◌, length};

use crate::rows::all_right;
use rx_hir::Hir;
use rx_prefilter::{Choice, Prefilter};
use rx_search::{MatchKind, Memory, Span};
use rx_syntax::parse_many;
use std::alloc::{AllocError, Global};
use std::process::Abort;

/// Needles, parted by commas; a text; the part of it that is searched; and the kind of search, what `find` answers and what `prefix`
/// answers.
type Row = (&'static [u8], &'static [u8], usize, usize, &'static [u8]);

/// Needles of one byte, and of one byte each.
const ONE_BYTE: [Row; 9] = [
    (b"a", b"ba", 0, 2, b"memchr 1..2 -"),
    (b"a", b"ba", 1, 1, b"memchr - -"),
    (b"a", b"ba", 1, 2, b"memchr 1..2 1..2"),
    (b"a", b"ba", 0, 1, b"memchr - -"),
    (b"a,a", b"xa", 0, 2, b"memchr2 1..2 -"),
    (b"b,a", b"xab", 0, 3, b"memchr2 1..2 -"),
    (b"b,a", b"xab", 2, 3, b"memchr2 2..3 2..3"),
    (b"c,b,a", b"xab", 1, 3, b"memchr3 1..2 1..2"),
    (b"c,b,a", b"xyz", 0, 3, b"memchr3 - -"),
];

/// One needle, and four bytes.
const ONE: [Row; 9] = [
    (b"ab", b"xabab", 0, 5, b"memmem 1..3 -"),
    (b"ab", b"xabab", 2, 5, b"memmem 3..5 -"),
    (b"ab", b"xabab", 0, 2, b"memmem - -"),
    (b"ab", b"xabab", 1, 3, b"memmem 1..3 1..3"),
    (b"ab", b"xabab", 4, 5, b"memmem - -"),
    (b"a,b,c,d", b"xxd", 0, 3, b"byteset 2..3 -"),
    (b"a,b,c,d", b"xxd", 2, 3, b"byteset 2..3 2..3"),
    (b"a,b,c,d", b"xxd", 0, 2, b"byteset - -"),
    (b"a,b,c,a", b"xyz", 0, 3, b"byteset - -"),
];

/// Several needles that are longer.
const MANY: [Row; 13] = [
    (b"foo,bar", b"xbarfoo", 0, 7, b"multi 1..4 -"),
    (b"foo,bar", b"xbarfoo", 1, 7, b"multi 1..4 1..4"),
    (b"foo,bar", b"xbarfoo", 2, 7, b"multi 4..7 -"),
    (b"foo,bar", b"xbarfoo", 2, 6, b"multi - -"),
    (b"foo,bar", b"xbarfoo", 1, 3, b"multi - -"),
    (b"ab,abc", b"xabc", 0, 4, b"multi 1..3 -"),
    (b"abc,ab", b"xabc", 0, 4, b"multi 1..4 -"),
    (b"abc,ab", b"xabc", 0, 3, b"multi 1..3 -"),
    (b"ab,ab", b"xabc", 0, 4, b"multi 1..3 -"),
    (b"bcd,abcd", b"xabcd", 0, 5, b"multi 1..5 -"),
    (b"abcd,bc", b"xabcx", 0, 5, b"multi 2..4 -"),
    (b"ba,ab", b"aab", 0, 3, b"multi 1..3 -"),
    (b"aba,bab", b"xbabab", 0, 6, b"multi 1..4 -"),
];

/// The same in texts that are longer.
const MANY_IN_LONG: [Row; 8] = [
    (b"foo,fob", b"fxfxfxfxfxfxfob", 0, 15, b"multi 12..15 -"),
    (b"foo,fob", b"fxfxfxfxfxfxfob", 0, 14, b"multi - -"),
    (
        b"abcd,efgh,ijkl,mnop",
        b"xxijklmnop",
        0,
        10,
        b"multi 2..6 -",
    ),
    (
        b"abcd,efgh,ijkl,mnop",
        b"xxijklmnop",
        3,
        10,
        b"multi 6..10 -",
    ),
    (b"abcd,efgh,ijkl,mnop", b"xxijklmnop", 3, 9, b"multi - -"),
    (
        b"Sherlock,Watson",
        b"to Watson, Sherlock",
        0,
        19,
        b"multi 3..9 -",
    ),
    (
        b"Sherlock,Watson",
        b"to Watson, Sherlock",
        4,
        19,
        b"multi 11..19 -",
    ),
    (
        b"Sherlock,Watson",
        b"to Watson, Sherlock",
        4,
        18,
        b"multi - -",
    ),
];

/// Needles of several lengths, and such that serve for nothing.
const MIXED: [Row; 11] = [
    (b"ab,c", b"xcab", 0, 4, b"aho-corasick 1..2 -"),
    (b"ab,a", b"xab", 0, 3, b"aho-corasick 1..3 -"),
    (b"a,ab", b"xab", 0, 3, b"aho-corasick 1..2 -"),
    (b"ab,b", b"xab", 2, 3, b"aho-corasick 2..3 2..3"),
    (b"abc,c", b"abd", 0, 3, b"aho-corasick - -"),
    (b"abcd,c", b"xabcx", 0, 5, b"aho-corasick 3..4 -"),
    (b"abcd,bc,c", b"xabcx", 0, 5, b"aho-corasick 2..4 -"),
    (b"b,b,ab", b"ab", 0, 2, b"aho-corasick 0..2 0..2"),
    (b"b,b,ab", b"ab", 0, 1, b"aho-corasick - -"),
    (b"", b"ab", 0, 2, b"none"),
    (b"a,,b", b"ab", 0, 2, b"none"),
];

/// The needles that a text has, parted by commas.
fn needles_of(alloc: Global, text: &[u8]) -> Result<Vec<Vec<u8>>, AllocError> {
    let mut needles = Vec::new(alloc);
    for needle in text.split(|byte| *byte == b',') {
        needles.push(Vec::from_slice(alloc, needle)?)?;
    }
    Ok(needles)
}

/// A span as it is told: its start and its end, or a dash where there is none.
fn span_text(alloc: Global, found: Option<Span>) -> Result<String, AllocError> {
    match found {
        Some(span) => format!(in alloc; "{}..{}", span.start, span.end),
        None => String::from_str(alloc, "-"),
    }
}

/// What is told of a search.
fn told(alloc: Global, prefilter: &Prefilter, text: &[u8], span: Span) -> Result<String, AllocError>
    requires start { span.start ≤ span.end }
    requires end { span.end ≤ length text.now }
{
    let found = span_text(alloc, prefilter.find(text, span))?;
    let prefix = span_text(alloc, prefilter.prefix(text, span))?;
    format!(in alloc; "{} {found} {prefix}", prefilter.choice().name())
}

/// Whether this is told of a search.
fn is_told(alloc: Global, prefilter: &Prefilter, text: &[u8], span: Span, want: &[u8]) -> bool {
    if span.end < span.start || text.len() < span.end {
        return false;
    }
    match told(alloc, prefilter, text, span) {
        Ok(told) => told.as_bytes() == want,
        Err(_) => false,
    }
}

/// Whether this is told of a search by what was made; `none` where nothing was made.
fn is_told_of(
    alloc: Global,
    made: Result<Option<Prefilter>, Memory>,
    text: &[u8],
    span: Span,
    want: &[u8],
) -> bool {
    match made {
        Ok(Some(prefilter)) => is_told(alloc, &prefilter, text, span, want),
        Ok(None) => want == b"none".as_slice(),
        Err(_) => false,
    }
}

/// A prefilter of the needles that a text has.
fn of_needles(alloc: Global, kind: MatchKind, text: &[u8]) -> Result<Option<Prefilter>, Memory> {
    let needles = needles_of(alloc, text)?;
    Prefilter::new(alloc, kind, &needles)
}

/// The number of the first row that is not told, counted from 0.
fn first_wrong(alloc: Global, kind: MatchKind, rows: &[Row]) -> Option<usize> {
    for k in 0..rows.len() {
        let (needles, text, start, end, want) = rows[k];
        let made = of_needles(alloc, kind, needles);
        if !is_told_of(alloc, made, text, Span { start, end }, want) {
            return Some(k);
        }
    }
    None
}

/// The numbers of the first rows that are not told, where the matches go by preference, and where all of them are told.
fn first_wrong_of_both(alloc: Global, rows: &[Row]) -> (Option<usize>, Option<usize>) {
    let first = first_wrong(alloc, MatchKind::LeftmostFirst, rows);
    (first, first_wrong(alloc, MatchKind::All, rows))
}

/// Fails where a row is wrong.
fn both_right(rt: &impl Abort, alloc: Global, rows: &[Row]) {
    assert_eq!(rt; first_wrong_of_both(alloc, rows), (None, None));
}

#[test]
fn needles_of_one_byte(rt: HostRuntime) {
    both_right(&rt, rt.alloc(), &ONE_BYTE);
}

#[test]
fn one_needle_and_a_set_of_bytes(rt: HostRuntime) {
    both_right(&rt, rt.alloc(), &ONE);
}

#[test]
fn several_needles(rt: HostRuntime) {
    both_right(&rt, rt.alloc(), &MANY);
}

#[test]
fn several_needles_in_longer_texts(rt: HostRuntime) {
    both_right(&rt, rt.alloc(), &MANY_IN_LONG);
}

#[test]
fn needles_of_several_lengths(rt: HostRuntime) {
    both_right(&rt, rt.alloc(), &MIXED);
}

/// Patterns; a text; the part of it that is searched; what a prefilter of their prefixes tells as above, where the matches go by
/// preference, and where all of them are told.
type PrefixRow = (
    &'static [&'static str],
    &'static [u8],
    Span,
    &'static [u8],
    &'static [u8],
);

const PREFIX_ROWS: [PrefixRow; 8] = [
    (
        &["foo", "bar"],
        b"xbarfoo",
        Span { start: 0, end: 7 },
        b"multi 1..4 -",
        b"multi 1..4 -",
    ),
    (
        &["foo|bar"],
        b"xbarfoo",
        Span { start: 0, end: 7 },
        b"multi 1..4 -",
        b"multi 1..4 -",
    ),
    (
        &["foo", "bar"],
        b"xbarfoo",
        Span { start: 1, end: 7 },
        b"multi 1..4 1..4",
        b"multi 1..4 1..4",
    ),
    (
        &["foo|bar"],
        b"xbarfoo",
        Span { start: 1, end: 7 },
        b"multi 1..4 1..4",
        b"multi 1..4 1..4",
    ),
    (
        &["a"],
        b"ba",
        Span { start: 1, end: 1 },
        b"memchr - -",
        b"memchr - -",
    ),
    (
        &["ab|abc"],
        b"xabc",
        Span { start: 0, end: 4 },
        b"memmem 1..3 -",
        b"multi 1..3 -",
    ),
    (
        &["abc", "ab"],
        b"xabc",
        Span { start: 0, end: 4 },
        b"multi 1..4 -",
        b"multi 1..3 -",
    ),
    (
        &["abc", ""],
        b"xabc",
        Span { start: 0, end: 4 },
        b"none",
        b"none",
    ),
];

/// A prefilter of the prefixes of expressions: of the one, or of all of them.
fn of_hirs(alloc: Global, kind: MatchKind, hirs: &[Hir]) -> Result<Option<Prefilter>, Memory> {
    match hirs {
        [hir] => Prefilter::from_hir_prefix(alloc, kind, hir),
        _ => Prefilter::from_hirs_prefix(alloc, kind, hirs),
    }
}

/// A prefilter of the prefixes of patterns.
fn of_patterns(
    alloc: Global,
    kind: MatchKind,
    patterns: &[&str],
) -> Result<Option<Prefilter>, Memory> {
    match parse_many(alloc, patterns) {
        Ok(hirs) => of_hirs(alloc, kind, &hirs),
        Err(_) => Err(Memory),
    }
}

/// The number of the first of these rows that is not told.
fn first_wrong_prefix(alloc: Global, rows: &[PrefixRow]) -> Option<usize> {
    for k in 0..rows.len() {
        let (patterns, text, span, preferred, all) = rows[k];
        let first = of_patterns(alloc, MatchKind::LeftmostFirst, patterns);
        let each = of_patterns(alloc, MatchKind::All, patterns);
        let are_told = (
            is_told_of(alloc, first, text, span, preferred),
            is_told_of(alloc, each, text, span, all),
        );
        if are_told != (true, true) {
            return Some(k);
        }
    }
    None
}

#[test]
fn prefixes_by_hand(rt: HostRuntime) {
    all_right(&rt, first_wrong_prefix(rt.alloc(), &PREFIX_ROWS));
}

/// The three digits of a number.
fn digits(alloc: Global, number: usize) -> Result<Vec<u8>, AllocError> {
    let text = format!(in alloc; "{number:03}")?;
    Vec::from_slice(alloc, text.as_bytes())
}

/// Needles of three digits, as many as this.
fn numbers(alloc: Global, count: usize) -> Result<Vec<Vec<u8>>, AllocError> {
    let mut needles = Vec::new(alloc);
    for number in 0..count {
        needles.push(digits(alloc, number)?)?;
    }
    Ok(needles)
}

/// A prefilter of so many numbers.
fn of_numbers(alloc: Global, count: usize) -> Result<Option<Prefilter>, Memory> {
    let needles = numbers(alloc, count)?;
    Prefilter::new(alloc, MatchKind::All, &needles)
}

/// What a prefilter of so many numbers is, and where it finds one.
fn choice_and_start(alloc: Global, count: usize) -> Option<(Choice, Option<usize>)> {
    match of_numbers(alloc, count) {
        Ok(Some(prefilter)) => {
            let found = prefilter.find(b"x063x999", Span { start: 0, end: 8 });
            Some((prefilter.choice(), found.map(|span| span.start)))
        }
        _ => None,
    }
}

/// How many needles there are, what the prefilter is, and where one begins in the text above.
type Count = (usize, Choice, Option<usize>);

const COUNTS: [Count; 4] = [
    (64, Choice::Multi, Some(1)),
    (63, Choice::Multi, None),
    (65, Choice::AhoCorasick, Some(1)),
    (1000, Choice::AhoCorasick, Some(1)),
];

/// The number of the first of these rows that is told otherwise.
fn first_wrong_count(alloc: Global, rows: &[Count]) -> Option<usize> {
    for k in 0..rows.len() {
        let (count, choice, start) = rows[k];
        if choice_and_start(alloc, count) != Some((choice, start)) {
            return Some(k);
        }
    }
    None
}

#[test]
fn many_needles(rt: HostRuntime) {
    all_right(&rt, first_wrong_count(rt.alloc(), &COUNTS));
}

/// What a prefilter is, how long its longest needle is, and the bytes that are accounted for it.
fn facts(prefilter: &Prefilter) -> (Choice, bool, usize, usize) {
    (
        prefilter.choice(),
        prefilter.is_fast(),
        prefilter.max_needle_len(),
        prefilter.memory_usage(),
    )
}

/// The same of a prefilter and its clone.
fn facts_of_both(prefilter: &Prefilter) -> Option<[(Choice, bool, usize, usize); 2]> {
    match prefilter.clone() {
        Ok(copy) => Some([facts(prefilter), facts(&copy)]),
        Err(_) => None,
    }
}

/// The same of what was made.
fn told_of_both(
    made: Result<Option<Prefilter>, Memory>,
) -> Option<[(Choice, bool, usize, usize); 2]> {
    match made {
        Ok(Some(prefilter)) => facts_of_both(&prefilter),
        _ => None,
    }
}

/// Whether what was made is a prefilter of `foo` and `bar`.
fn is_foo_or_bar(made: Result<Option<Prefilter>, Memory>) -> bool {
    told_of_both(made) == Some([(Choice::Multi, true, 3, 6); 2])
}

/// Whether it is made of the needles, of two patterns, and of one.
fn is_made(alloc: Global, kind: MatchKind) -> (bool, bool, bool) {
    (
        is_foo_or_bar(of_needles(alloc, kind, b"foo,bar")),
        is_foo_or_bar(of_patterns(alloc, kind, &["foo", "bar"])),
        is_foo_or_bar(of_patterns(alloc, kind, &["foo|bar"])),
    )
}

#[test]
fn a_prefilter_says_what_it_is(rt: HostRuntime) {
    let first = is_made(rt.alloc(), MatchKind::LeftmostFirst);
    let all = is_made(rt.alloc(), MatchKind::All);
    assert!(rt; (first, all) == ((true, true, true), (true, true, true)));
}
