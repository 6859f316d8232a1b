//! Matches.
ghost use Rattle.std.specs.Prelude.{◌≡◌, ◌-◌, ◌≤◌, ◌↔◌, IsTrue};

use crate::primitives::PatternID;
use crate::span::Span;
use std::marker::Model;
use std::ops::Range;

/// A match: the pattern that matched, and the span of the haystack that it covers. Its start is never
/// above its end.
#[derive(Clone, Copy, Debug, PartialEq, Eq, Hash)]
pub struct Match {
    pattern: PatternID,
    span: Span,
}

impl Model for Match {
    ghost use Rattle.std.specs.Prelude.{◌≤◌};
    ghost use Rattle.rx_search.specs.Matches.{MatchValue};

    ghost Value = { MatchValue };

    ghost view = { λ m. record { pattern = m.pattern; start = m.span.start; end = m.span.end } };

    ghost invariant = { λ m. m.span.start ≤ m.span.end };

    ghost inverse = { λ v. record { pattern = v.pattern; span = record { start = v.start; end = v.end } } };
}

impl Match {
    /// The match of this pattern at this span, whose start must not be above its end.
    pub fn new(pattern: PatternID, span: Span) -> Match
        requires { span.start ≤ span.end }
        ensures { result ≡ record { pattern = pattern; start = span.start; end = span.end } }
    {
        Match { pattern, span }
    }

    /// The pattern that matched.
    pub fn pattern(&self) -> PatternID
        ensures { result ≡ self.now.pattern }
    {
        self.pattern
    }

    /// The byte offset at which the match begins.
    pub fn start(&self) -> usize
        ensures value { result ≡ self.now.start }
        ensures in_order { self.now.start ≤ self.now.end }
    {
        self.span.start
    }

    /// The byte offset after the last byte of the match.
    pub fn end(&self) -> usize
        ensures value { result ≡ self.now.end }
        ensures in_order { self.now.start ≤ self.now.end }
    {
        self.span.end
    }

    /// The span of the match as a range.
    pub fn range(&self) -> Range<usize>
        ensures start { result.start ≡ self.now.start }
        ensures end { result.end ≡ self.now.end }
        ensures in_order { self.now.start ≤ self.now.end }
    {
        self.span.start..self.span.end
    }

    /// The span of the match.
    pub fn span(&self) -> Span
        ensures start { result.start ≡ self.now.start }
        ensures end { result.end ≡ self.now.end }
        ensures in_order { self.now.start ≤ self.now.end }
    {
        self.span
    }

    /// The number of bytes that it covers.
    pub fn len(&self) -> usize
        ensures value { result ≡ self.now.end - self.now.start }
        ensures in_order { self.now.start ≤ self.now.end }
    {
        self.span.len()
    }

    /// Whether it covers no byte.
    pub fn is_empty(&self) -> bool
        ensures value { IsTrue result ↔ (self.now.start ≡ self.now.end) }
        ensures in_order { self.now.start ≤ self.now.end }
    {
        self.span.is_empty()
    }
}

/// One end of a match: the pattern that matched, and a byte offset.
#[derive(Clone, Copy, Debug, PartialEq, Eq, Hash)]
pub struct HalfMatch {
    pattern: PatternID,
    offset: usize,
}

impl Model for HalfMatch {
    ghost use Rattle.rx_search.specs.Matches.{HalfMatchValue};

    ghost Value = { HalfMatchValue };

    ghost view = { λ m. record { pattern = m.pattern; offset = m.offset } };

    ghost inverse = { λ v. record { pattern = v.pattern; offset = v.offset } };
}

impl HalfMatch {
    /// The end at this offset of a match of this pattern.
    pub fn new(pattern: PatternID, offset: usize) -> HalfMatch
        ensures { result ≡ record { pattern = pattern; offset = offset } }
    {
        HalfMatch { pattern, offset }
    }

    /// The pattern that matched.
    pub fn pattern(&self) -> PatternID
        ensures { result ≡ self.now.pattern }
    {
        self.pattern
    }

    /// The byte offset: where a forward search stopped, or where the match begins in a reverse one.
    pub fn offset(&self) -> usize
        ensures { result ≡ self.now.offset }
    {
        self.offset
    }
}
