//! What a search is given.
ghost use Rattle.std.specs.Prelude.{◌≡◌, ◌+◌, ◌≤◌, ◌<◌, ◌↔◌, IsTrue, length};
ghost use Rattle.rx_search.specs.Anchored.{anchor_of};
ghost use Rattle.rx_search.specs.Input.{IsSpanned, whole, from_place, is_char_boundary};

use crate::anchored::Anchored;
use crate::span::Span;
use std::marker::Model;
use std::ops::Range;

/// What a search is given: a haystack, the span of it that is searched, where a match may begin, and
/// whether any match will do.
///
/// The span ends within the haystack, and begins at most one place after its own end. Look-around sees
/// the whole haystack.
#[derive(Debug, Drop)]
pub struct Input<'h> {
    haystack: &'h [u8],
    span: Span,
    anchored: Anchored,
    earliest: bool,
}

impl<'h> Model for Input<'h> {
    ghost use Rattle.std.specs.Prelude.{◌+◌, ◌≤◌, length};
    ghost use Rattle.rx_search.specs.Anchored.{anchor_of};
    ghost use Rattle.rx_search.specs.Input.{InputValue};

    ghost Value = { InputValue };

    ghost view = { λ a. record {
      haystack = a.haystack.now;
      start = a.span.start;
      end = a.span.end;
      anchor = anchor_of a.anchored;
      earliest = a.earliest;
    } };

    ghost invariant = { λ a. (a.span.end ≤ length a.haystack.now) × (a.span.start ≤ a.span.end + 1) };
}

impl<'h> Input<'h> {
    /// The whole haystack, unanchored, for the match that the order of preference gives.
    pub fn new(haystack: &'h [u8]) -> Input<'h>
        ensures { result ≡ whole haystack.now }
    {
        Input {
            haystack,
            span: Span {
                start: 0,
                end: haystack.len(),
            },
            anchored: Anchored::No,
            earliest: false,
        }
    }

    /// The same input with this span.
    pub fn span(mut self, span: Span) -> Input<'h>
        requires end { span.end ≤ length self.haystack }
        requires start { span.start ≤ span.end + 1 }
        ensures { result ≡ record self.entry { start = span.start; end = span.end } }
    {
        self.set_span(span);
        self
    }

    /// The same input with the span of this range.
    pub fn range(mut self, range: Range<usize>) -> Input<'h>
        requires end { range.end ≤ length self.haystack }
        requires start { range.start ≤ range.end + 1 }
        ensures { result ≡ record self.entry { start = range.start; end = range.end } }
    {
        self.set_span(Span {
            start: range.start,
            end: range.end,
        });
        self
    }

    /// The same input with this mode.
    pub fn anchored(mut self, mode: Anchored) -> Input<'h>
        ensures { result ≡ record self.entry { anchor = anchor_of mode } }
    {
        self.set_anchored(mode);
        self
    }

    /// The same input, where any match will do or not.
    pub fn earliest(mut self, yes: bool) -> Input<'h>
        ensures { result ≡ record self.entry { earliest = yes } }
    {
        self.set_earliest(yes);
        self
    }

    /// Sets the span.
    pub fn set_span(&mut self, span: Span)
        requires end { span.end ≤ length self.old.haystack }
        requires start { span.start ≤ span.end + 1 }
        ensures { self.new ≡ record self.old { start = span.start; end = span.end } }
    {
        self.span = span;
    }

    /// Sets the start of the span, at most one place after its end.
    pub fn set_start(&mut self, start: usize)
        requires { start ≤ self.old.end + 1 }
        ensures { self.new ≡ from_place start self.old }
    {
        self.span.start = start;
    }

    /// Sets the end of the span, within the haystack and no more than one place before its start.
    pub fn set_end(&mut self, end: usize)
        requires end { end ≤ length self.old.haystack }
        requires start { self.old.start ≤ end + 1 }
        ensures { self.new ≡ record self.old { end = end } }
    {
        self.span.end = end;
    }

    /// Sets the mode.
    pub fn set_anchored(&mut self, mode: Anchored)
        ensures { self.new ≡ record self.old { anchor = anchor_of mode } }
    {
        self.anchored = mode;
    }

    /// Sets whether any match will do.
    pub fn set_earliest(&mut self, yes: bool)
        ensures { self.new ≡ record self.old { earliest = yes } }
    {
        self.earliest = yes;
    }

    /// The haystack, all of it.
    pub fn haystack(&self) -> &'h [u8]
        ensures value { result.now ≡ self.now.haystack }
        ensures spanned { IsSpanned self.now }
    {
        self.haystack
    }

    /// The byte offset at which the span begins.
    pub fn start(&self) -> usize
        ensures value { result ≡ self.now.start }
        ensures spanned { IsSpanned self.now }
    {
        self.span.start
    }

    /// The byte offset at which the span ends.
    pub fn end(&self) -> usize
        ensures value { result ≡ self.now.end }
        ensures spanned { IsSpanned self.now }
    {
        self.span.end
    }

    /// The span.
    pub fn get_span(&self) -> Span
        ensures start { result.start ≡ self.now.start }
        ensures end { result.end ≡ self.now.end }
        ensures spanned { IsSpanned self.now }
    {
        self.span
    }

    /// The span as a range.
    pub fn get_range(&self) -> Range<usize>
        ensures start { result.start ≡ self.now.start }
        ensures end { result.end ≡ self.now.end }
        ensures spanned { IsSpanned self.now }
    {
        self.span.start..self.span.end
    }

    /// The mode.
    pub fn get_anchored(&self) -> Anchored
        ensures { anchor_of result ≡ self.now.anchor }
    {
        self.anchored
    }

    /// Whether any match will do.
    pub fn get_earliest(&self) -> bool
        ensures { result ≡ self.now.earliest }
    {
        self.earliest
    }

    /// Whether there is nothing left to search: the start is above the end.
    pub fn is_done(&self) -> bool
        ensures { IsTrue result ↔ (self.now.end < self.now.start) }
    {
        self.span.start > self.span.end
    }

    /// Whether `at` is the haystack's length, or a place in it at which no byte from 0x80 to 0xBF lies.
    pub fn is_char_boundary(&self, at: usize) -> bool
        ensures { result ≡ is_char_boundary self.now.haystack at }
    {
        is_character_boundary(self.haystack, at)
    }

    /// The same input again. The haystack is not copied.
    pub fn clone(&self) -> Input<'h>
        ensures value { result ≡ self.now }
        ensures spanned { IsSpanned self.now }
    {
        Input {
            haystack: self.haystack,
            span: self.span,
            anchored: self.anchored,
            earliest: self.earliest,
        }
    }
}

/// Whether `at` is the text's length, or a place in it at which no byte from 0x80 to 0xBF lies.
pub fn is_character_boundary(text: &[u8], at: usize) -> bool
    ensures { result ≡ is_char_boundary text.now at }
{
    match text.get(at) {
        Some(byte) => *byte < 0x80 || 0xBF < *byte,
        None => at == text.len(),
    }
}
