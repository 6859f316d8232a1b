//! Searches for needles of one byte.
ghost use Rattle.std.specs.Prelude.{◌≡◌, ◌≤◌, ◌<◌, ℕ, List, [], true, length, map, IfOk};
ghost use Rattle.rx_prefilter.specs.Needles.{span_at, first_span};
ghost use Rattle.rx_prefilter.specs.Bytes.{single, HasTable, NoneMarked, marks_at};
ghost use Rattle.rx_prefilter.specs.Choices.{greatest_length};

use crate::bytes;
use rx_search::{Memory, Span};
use std::marker::Model;

/// Needles of one byte, as a table of all bytes.
#[derive(Drop)]
pub(crate) struct ByteSet {
    bytes: Vec<u8>,
    is_needle: [bool; 256],
}

impl Model for ByteSet {
    ghost Value = { List (List ℕ) };

    ghost view = { λ s. map single s.bytes.items };

    ghost invariant = { λ s. HasTable s.is_needle s.bytes.items };
}

impl ByteSet {
    /// The needles of one byte that are these bytes.
    pub(crate) fn new(bytes: Vec<u8>) -> ByteSet
        ensures { result ≡ map single bytes.items }
    {
        let mut is_needle = [false; 256];
        for byte in &bytes {
            is_needle[*byte as usize] = true;
        }
        ByteSet { bytes, is_needle }
    }

    /// The first place from `from` on at which one of the bytes stands.
    #[inline(always)]
    pub(crate) fn find(&self, text: &[u8], from: usize) -> Option<Span>
        requires { from ≤ length text.now }
        ensures { result ≡ first_span self.now text.now from }
    {
        let at = first_place(&self.is_needle, text, from);
        if at == text.len() {
            return None;
        }
        Some(Span {
            start: at,
            end: at + 1,
        })
    }

    /// Where one of the bytes stands, if one stands at `at`.
    pub(crate) fn prefix(&self, text: &[u8], at: usize) -> Option<Span>
        requires { at ≤ length text.now }
        ensures { result ≡ span_at self.now text.now at }
    {
        bytes::prefix(&self.bytes, text, at)
    }

    /// The length of the longest needle.
    pub(crate) fn max_needle_len(&self) -> usize
        ensures { result ≡ greatest_length self.now }
    {
        if self.bytes.is_empty() { 0 } else { 1 }
    }
}

/// The first place from `from` on at which a byte stands that the table has; the text's end, where there is none. A turn
/// of the loop looks at four places, so that three of four comparisons with the end are saved. It stays a function of its
/// own, so that it runs in registers.
#[inline(never)]
fn first_place(is_needle: &[bool; 256], text: &[u8], from: usize) -> usize
    requires { from ≤ length text.now }
    ensures order { from ≤ result }
    ensures within { result ≤ length text.now }
    ensures none { NoneMarked is_needle.now text.now from result }
    ensures there { result < length text.now → marks_at is_needle.now text.now result ≡ true }
{
    let mut at = from;
    while text.len() - at >= 4 {
        if is_needle[text[at] as usize] {
            return at;
        }
        if is_needle[text[at + 1] as usize] {
            return at + 1;
        }
        if is_needle[text[at + 2] as usize] {
            return at + 2;
        }
        if is_needle[text[at + 3] as usize] {
            return at + 3;
        }
        at += 4;
    }
    first_of_few(is_needle, text, at)
}

/// The same, place by place.
fn first_of_few(is_needle: &[bool; 256], text: &[u8], from: usize) -> usize
    requires { from ≤ length text.now }
    ensures order { from ≤ result }
    ensures within { result ≤ length text.now }
    ensures none { NoneMarked is_needle.now text.now from result }
    ensures there { result < length text.now → marks_at is_needle.now text.now result ≡ true }
{
    let mut at = from;
    while at < text.len() {
        if is_needle[text[at] as usize] {
            return at;
        }
        at += 1;
    }
    at
}
