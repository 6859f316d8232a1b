//! Tests of searchers over finders of their own.
ghost use Rattle.std.specs.Prelude.{◌≡◌, ◌≤◌, ◌<◌, IfOk, IfSome, IsOk, option_map, length};
ghost use Rattle.rx_base_rows.specs.Example.{optional_byte};
ghost use Rattle.rx_search.specs.Input.{whole, span_len};
ghost use Rattle.rx_search.specs.Matches.{match_value};
ghost use Rattle.rx_search.specs.Searcher.{successive};
ghost use Rattle.rx_search.specs.Told.{LiesIn};

use rx_search::*;
use std::alloc::Global;

/// What `a?` matches, where `a` is the byte: that byte, if it lies where the span begins, and else nothing there.
fn optional_match(byte: u8, input: &Input<'_>) -> Option<Match>
    ensures value { result ≡ option_map match_value (optional_byte byte input.now) }
    ensures within { IfSome result (LiesIn input.now) }
{
    let Span { start, end } = input.get_span();
    if end < start {
        return None;
    }
    if start < end && input.haystack()[start] == byte {
        return Some(Match::new(
            PatternID::ZERO,
            Span {
                start,
                end: start + 1,
            },
        ));
    }
    Some(Match::new(PatternID::ZERO, Span { start, end: start }))
}

/// Finds what `a?` matches, where `a` is its byte; where any match will do, nothing at the start.
#[derive(Clone, Copy)]
struct Optional {
    byte: u8,
}

impl Finder for Optional {
    type Error = Memory;

    ghost searches = { λ f v. optional_byte f.byte v };

    fn find(&mut self, input: &Input<'_>) -> Result<Option<Match>, Memory> {
        let Span { start, end } = input.get_span();
        if input.get_earliest() && start <= end {
            return Ok(Some(Match::new(PatternID::ZERO, Span { start, end: start })));
        }
        Ok(optional_match(self.byte, input))
    }
}

/// The same in spans of at most so many bytes.
#[derive(Clone, Copy)]
struct ShortOptional {
    byte: u8,
    most: usize,
}

/// A span had more bytes.
#[derive(Clone, Copy, Debug, PartialEq, Eq)]
struct TooLong;

impl Finder for ShortOptional {
    type Error = TooLong;

    ghost searches = { λ f v. optional_byte f.byte v };

    ghost promises = { λ _ _. Unit {0} };

    ghost fails = { λ f v _. f.most < span_len v };

    fn find(&mut self, input: &Input<'_>) -> Result<Option<Match>, TooLong> {
        let Span { start, end } = input.get_span();
        if start <= end && self.most < end - start {
            return Err(TooLong);
        }
        Ok(optional_match(self.byte, input))
    }
}

/// How often an optional byte matches in a text, which is known where the text has at most so many bytes.
fn count_in_short(text: &[u8], byte: u8, most: usize) -> Result<usize, TooLong>
    ensures value { IfOk result (λ n. n ≡ length (successive (optional_byte byte) (whole text.now))) }
    ensures sure { length text.now ≤ most → IsOk result }
{
    Searcher::new(Input::new(text)).count(&mut ShortOptional { byte, most })
}

/// Whether these are the spans of the matches.
fn have_spans(rows: &[Match], spans: &[(usize, usize)]) -> bool {
    if rows.len() != spans.len() {
        return false;
    }
    for k in 0..rows.len() {
        let (start, end) = spans[k];
        if rows[k].span() != (Span { start, end }) {
            return false;
        }
    }
    true
}

/// Whether these are the spans of all matches of `a?` in the input.
fn are_all(alloc: Global, input: Input<'_>, spans: &[(usize, usize)]) -> bool {
    match Searcher::new(input).collect(alloc, &mut Optional { byte: b'a' }) {
        Ok(rows) => have_spans(&rows, spans),
        Err(_) => false,
    }
}

#[test]
fn searches_one_after_another(rt: HostRuntime) {
    let alloc = rt.alloc();
    let spans = [(0, 0), (1, 2), (2, 3), (4, 4)];
    assert!(rt; are_all(alloc, Input::new(b"baac"), &spans));
    let any = Input::new(b"aa").earliest(true);
    assert!(rt; are_all(alloc, any, &[(0, 0), (1, 1), (2, 2)]));
    let mut finder = Optional { byte: b'a' };
    assert!(rt; Searcher::new(Input::new(b"baac")).count(&mut finder) == Ok(4));
}

#[test]
fn hands_on_the_error(rt: HostRuntime) {
    let counts = (
        count_in_short(b"baac", b'a', 4),
        count_in_short(b"baac", b'a', 3),
    );
    assert!(rt; counts == (Ok(4), Err(TooLong)));
}

#[test]
fn keeps_answering_none(rt: HostRuntime) {
    let mut finder = Optional { byte: b'a' };
    let mut searcher = Searcher::new(Input::new(b"a"));
    let before = searcher.input().get_span();
    let first = searcher.advance(&mut finder);
    let after = searcher.input().start();
    let second = searcher.advance(&mut finder);
    let third = searcher.advance(&mut finder);
    let found = Match::new(PatternID::ZERO, Span { start: 0, end: 1 });
    assert!(rt; (before, after) == (Span { start: 0, end: 1 }, 1));
    assert!(rt; (first, second, third) == (Ok(Some(found)), Ok(None), Ok(None)));
}

/// Its length, whether it is empty, and whether 4 and 5 lie in it.
fn told_of_span(span: Span) -> (usize, bool, (bool, bool)) {
    let contains = (span.contains(4), span.contains(5));
    (span.len(), span.is_empty(), contains)
}

#[test]
fn spans(rt: HostRuntime) {
    let span = Span { start: 2, end: 5 };
    let (told, later) = (told_of_span(span), span.offset(3));
    assert!(rt; (told, later) == ((3, false, (true, false)), Span { start: 5, end: 8 }));
    assert!(rt; Span { start: 5, end: 2 }.len() == 0);
}

/// Its pattern, its span, its start, its end and its length.
fn told_of_match(found: &Match) -> (PatternID, Span, usize, usize, usize) {
    (
        found.pattern(),
        found.span(),
        found.start(),
        found.end(),
        found.len(),
    )
}

#[test]
fn matches(rt: HostRuntime) {
    let span = Span { start: 2, end: 5 };
    let found = Match::new(PatternID::ZERO, span);
    assert!(rt; told_of_match(&found) == (PatternID::ZERO, span, 2, 5, 3));
    assert!(rt; found.range().contains(&4) && !found.is_empty());
}

#[test]
fn half_matches(rt: HostRuntime) {
    let half = HalfMatch::new(PatternID::MAX, 7);
    assert!(rt; (half.pattern(), half.offset()) == (PatternID::MAX, 7));
}

/// The span of an input, how its search is anchored, whether any match will do, and whether its span starts behind its end.
fn told(input: &Input<'_>) -> (Span, Anchored, bool, bool) {
    (
        input.get_span(),
        input.get_anchored(),
        input.get_earliest(),
        input.is_done(),
    )
}

/// "aé": the second character has the bytes C3 A9.
const TEXT: &[u8] = b"a\xC3\xA9";

/// Whether a character begins or ends at each of these places.
fn boundaries(input: &Input<'_>) -> [bool; 5] {
    let mut boundaries = [false; 5];
    for at in 0..5 {
        boundaries[at] = input.is_char_boundary(at);
    }
    boundaries
}

#[test]
fn an_input_tells_what_it_was_built_of(rt: HostRuntime) {
    let span = Span { start: 1, end: 2 };
    let input = Input::new(TEXT).span(span);
    let input = input.anchored(Anchored::Yes).earliest(true);
    assert!(rt; told(&input) == (span, Anchored::Yes, true, false));
}

#[test]
fn an_input_tells_the_characters_of_its_text(rt: HostRuntime) {
    let input = Input::new(TEXT).range(1..2);
    let places = (input.start(), input.end(), input.haystack().len());
    let wanted = [true, true, false, true, false];
    assert!(rt; (places, boundaries(&input)) == ((1, 2, 3), wanted));
}

#[test]
fn an_input_is_changed(rt: HostRuntime) {
    let mut input = Input::new(TEXT).range(1..2).earliest(true);
    input.set_end(3);
    input.set_start(4);
    input.set_anchored(Anchored::Pattern(PatternID::MAX));
    input.set_earliest(false);
    let anchored = Anchored::Pattern(PatternID::MAX);
    assert!(rt; told(&input) == (Span { start: 4, end: 3 }, anchored, false, true));
}

#[test]
fn the_span_of_an_input_is_changed(rt: HostRuntime) {
    let whole = Span { start: 0, end: 3 };
    let mut input = Input::new(TEXT).range(4..3);
    input.set_span(whole);
    let (span, again) = (input.get_span(), input.clone().range(0..3).get_span());
    let start = input.range(1..3).get_range().start;
    assert!(rt; (span, again, start) == (whole, whole, 1));
}

#[test]
fn modes(rt: HostRuntime) {
    let modes = [
        Anchored::No,
        Anchored::Yes,
        Anchored::Pattern(PatternID::MAX),
    ];
    let mut told = [(false, None); 3];
    for k in 0..3 {
        told[k] = (modes[k].is_anchored(), modes[k].pattern());
    }
    assert!(rt; told == [(false, None), (true, None), (true, Some(PatternID::MAX))]);
}

#[test]
fn identifiers(rt: HostRuntime) {
    let patterns = (PatternID::new(2147483646), PatternID::new(2147483647));
    assert!(rt; patterns == (Some(PatternID::MAX), None));
    let states = (
        StateID::MAX.as_usize(),
        StateID::LIMIT,
        StateID::new(StateID::LIMIT),
    );
    assert!(rt; states == (2147483646, 2147483647, None));
    assert!(rt; StateID::new(7).map_or(0, |id| id.as_usize()) == 7);
    assert!(rt; NonMaxUsize::new(usize::MAX).is_none());
    assert!(rt; NonMaxUsize::new(7).map_or(0, |place| place.get()) == 7);
    Open.reached(0);
}

/// The errors of a search, each with its name.
const ERRORS: [(MatchError, &str); 5] = [
    (
        MatchError::Quit {
            byte: b'x',
            offset: 3,
        },
        "Quit",
    ),
    (MatchError::GaveUp { offset: 3 }, "GaveUp"),
    (MatchError::HaystackTooLong { len: 3 }, "HaystackTooLong"),
    (
        MatchError::UnsupportedAnchored {
            mode: Anchored::Yes,
        },
        "UnsupportedAnchored",
    ),
    (MatchError::Memory, "Memory"),
];

/// Whether the error is shown like this.
fn is_shown(alloc: Global, error: &MatchError, want: &str) -> bool {
    match format!(in alloc; "{error}") {
        Ok(shown) => shown.as_str() == want,
        Err(_) => false,
    }
}

#[test]
fn errors_are_shown_by_name(rt: HostRuntime) {
    for (error, name) in ERRORS {
        assert!(rt; is_shown(rt.alloc(), &error, name));
    }
    assert!(rt; MatchError::from(Memory) == MatchError::Memory);
}
