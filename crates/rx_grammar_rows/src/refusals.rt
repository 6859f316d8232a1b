//! Patterns that are refused: what is wrong, and where.

use crate::rows::all_right;
use rx_syntax::*;
use std::alloc::Global;

/// A pattern, what is wrong with it, and the start and the end of what is.
type Row = (&'static str, SyntaxErrorKind, usize, usize);

/// What the pattern is refused for.
fn refusal(alloc: Global, pattern: &str, config: &Config) -> Option<SyntaxError> {
    match parse_with(alloc, pattern, config).err() {
        Some(ParseError::Syntax(error)) => Some(error),
        _ => None,
    }
}

/// The number of the first row that is refused otherwise, counted from 0.
fn first_wrong(alloc: Global, config: &Config, rows: &[Row]) -> Option<usize> {
    for k in 0..rows.len() {
        let (pattern, kind, start, end) = rows[k];
        if refusal(alloc, pattern, config) != Some(SyntaxError { kind, start, end }) {
            return Some(k);
        }
    }
    None
}

const READ: [Row; 11] = [
    ("(?i", SyntaxErrorKind::UnclosedGroup, 0, 1),
    ("a)", SyntaxErrorKind::UnopenedGroup, 1, 2),
    ("(?P<n>)(?<n>)", SyntaxErrorKind::GroupNameTwice, 10, 11),
    ("(?P<1>)", SyntaxErrorKind::GroupName, 4, 4),
    ("(?ii)", SyntaxErrorKind::Flag, 3, 4),
    ("(?=a)", SyntaxErrorKind::Unsupported, 0, 3),
    ("[a", SyntaxErrorKind::UnclosedClass, 0, 1),
    ("[z-a]", SyntaxErrorKind::ClassRange, 1, 4),
    ("a{2,1}", SyntaxErrorKind::RepeatCount, 1, 6),
    ("|*", SyntaxErrorKind::RepeatNothing, 1, 2),
    ("\\x{D800}", SyntaxErrorKind::Escape, 0, 8),
];

const TRANSLATED: [Row; 9] = [
    (r"\p{Nope}", SyntaxErrorKind::Property, 0, 8),
    (r"a\p{a=b}", SyntaxErrorKind::Property, 1, 8),
    (r"(?-u:\xFF)", SyntaxErrorKind::Utf8, 5, 9),
    (r"(?-u:\W)", SyntaxErrorKind::Utf8, 5, 7),
    (r"(?-u:\pL)", SyntaxErrorKind::UnicodeOff, 5, 8),
    ("(?-u:[\u{E9}])", SyntaxErrorKind::UnicodeOff, 5, 9),
    (r"[a\pQ]", SyntaxErrorKind::Property, 2, 5),
    ("(?-u).", SyntaxErrorKind::Utf8, 5, 6),
    (r"(?-u)[\d\p{Nope}]", SyntaxErrorKind::UnicodeOff, 5, 17),
];

#[test]
fn what_is_wrong_and_where(rt: HostRuntime) {
    all_right(&rt, first_wrong(rt.alloc(), &Config::new(), &READ));
}

#[test]
fn what_cannot_be_translated_and_where(rt: HostRuntime) {
    all_right(&rt, first_wrong(rt.alloc(), &Config::new(), &TRANSLATED));
}

/// Under a line terminator that is not ASCII.
const ODD: [Row; 3] = [
    ("a.", SyntaxErrorKind::LineTerminator, 1, 2),
    ("(.)", SyntaxErrorKind::LineTerminator, 1, 2),
    ("(?R:a)(?s:.).", SyntaxErrorKind::LineTerminator, 12, 13),
];

#[test]
fn a_configuration_refuses(rt: HostRuntime) {
    let odd = Config::new().line_terminator(0xFF);
    all_right(&rt, first_wrong(rt.alloc(), &odd, &ODD));
}

/// Whether the pattern is not refused.
fn is_let_through(alloc: Global, pattern: &str, config: &Config) -> bool {
    refusal(alloc, pattern, config).is_none()
}

#[test]
fn a_configuration_lets_through(rt: HostRuntime) {
    let alloc = rt.alloc();
    let odd = is_let_through(alloc, "(?s).", &Config::new().line_terminator(0xFF));
    let ascii = is_let_through(alloc, r"(?-u:[^\x80-\xFF])", &Config::new());
    let bytes = is_let_through(alloc, "(?-u)[^a]", &Config::new().utf8(false));
    assert!(rt; odd && ascii && bytes);
}

/// That the pattern of this number is refused.
fn refused(
    pattern: usize,
    kind: SyntaxErrorKind,
    start: usize,
    end: usize,
) -> Option<PatternsError> {
    let error = SyntaxError { kind, start, end };
    Some(PatternsError::Syntax { pattern, error })
}

/// What refuses the patterns, where all are read before one is translated.
fn refusal_of_all(alloc: Global, patterns: &[&str]) -> Option<PatternsError> {
    parse_all(alloc, patterns, &Config::new()).err()
}

#[test]
fn all_patterns_are_read_before_one_is_translated(rt: HostRuntime) {
    let unread = refusal_of_all(rt.alloc(), &["a", r"\p{Nope}", "b("]);
    assert!(rt; unread == refused(2, SyntaxErrorKind::UnclosedGroup, 1, 2));
    let read = refusal_of_all(rt.alloc(), &["a", r"\p{Nope}", "b"]);
    assert!(rt; read == refused(1, SyntaxErrorKind::Property, 0, 8));
}

/// What refuses the patterns, where each is translated before the next one is read.
fn refusal_of_each(alloc: Global, patterns: &[&str]) -> Option<PatternsError> {
    parse_each(alloc, patterns, &Config::new()).err()
}

/// Whether the patterns are refused for what this one is.
fn are_refused_for(alloc: Global, patterns: &[&str], pattern: &str) -> bool {
    parse_many(alloc, patterns).err() == parse(alloc, pattern).err()
}

#[test]
fn each_pattern_is_translated_before_the_next_is_read(rt: HostRuntime) {
    let refusal = refusal_of_each(rt.alloc(), &["a", r"\p{Nope}", "b("]);
    assert!(rt; refusal == refused(1, SyntaxErrorKind::Property, 0, 8));
    assert!(rt; are_refused_for(rt.alloc(), &["a", r"\p{Nope}", "b("], r"\p{Nope}"));
}
