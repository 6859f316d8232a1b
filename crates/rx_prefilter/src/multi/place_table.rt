//! Where in a needle each pair of bytes stands.
ghost use Rattle.std.specs.Prelude.{◌≡◌, ◌+◌, ◌<◌, ◌≤◌, true, length, map, None, IfOk};
ghost use Rattle.std.specs.List.{list_all};
ghost use Rattle.std.specs.Vec.{vec_items};
ghost use Rattle.rx_prefilter.specs.Choices.{has_bytes};
ghost use Rattle.rx_prefilter.specs.Needles.{span_at, span_among, first_span};

mod marks;

use crate::needles;
use marks::{mark, pair_at, stride_of};
use rx_search::{Memory, Span};
use std::alloc::Global;

// One look serves up to eight places (DECISIONS: needle searches of several needles look at pairs of bytes).
/// The numbers of pairs of bytes.
const PAIRS: usize = 65536;

/// For each pair of bytes, at which of the first places of a needle it stands: bit j of `places` says so of place j,
/// for all j below `stride`. Each needle has more than `stride` bytes. So of the pairs at any `stride` places in a
/// row of a needle that lies in a text, one stands in each window of that many places: a search looks at one pair of
/// each window.
#[derive(Drop)]
pub struct PlaceTable {
    pub needles: Vec<Vec<u8>>,
    pub stride: usize,
    pub places: Vec<u8>,
}

impl PlaceTable {
    ghost use Rattle.rx_prefilter.specs.Places.{IsPlaceTable};

    /// The table of these needles, of at least two bytes each.
    pub fn new(alloc: Global, needles: &[Vec<u8>]) -> Result<PlaceTable, Memory>
        requires { list_all (has_bytes 2) (map vec_items needles.now) ≡ true }
        ensures { IfOk result (λ table. IsPlaceTable table × (map vec_items table.needles.items ≡ map vec_items needles.now)) }
    {
        let stride = stride_of(needles);
        let mut places = vec![in alloc; 0; PAIRS]?;
        for needle in needles {
            mark(&mut places, needle, stride);
        }
        Ok(PlaceTable {
            needles: needles::copied(alloc, needles)?,
            stride,
            places,
        })
    }

    /// Where the first needle of the list lies that begins at the least place from `from` on.
    pub fn find(&self, text: &[u8], from: usize) -> Option<Span>
        requires table { IsPlaceTable self.now }
        requires within { from ≤ length text.now }
        ensures { result ≡ first_span (map vec_items self.now.needles.items) text.now from }
    {
        let mut at = self.pass(text, from);
        while self.stride + self.stride < text.len() - at {
            if let Some(span) = self.in_two_windows(text, at) {
                return Some(span);
            }
            at = self.pass(text, at + (self.stride + self.stride));
        }
        self.window_by_window(text, at)
    }

    /// A place from `from` on before which no needle begins: where one may begin in the next two windows, or where the
    /// text has no two more. It stays a function of its own, so that its loop runs in registers.
    #[inline(never)]
    fn pass(&self, text: &[u8], from: usize) -> usize
        requires table { IsPlaceTable self.now }
        requires within { from ≤ length text.now }
        ensures order { from ≤ result }
        ensures within { result ≤ length text.now }
        ensures same { first_span (map vec_items self.now.needles.items) text.now from
            ≡ first_span (map vec_items self.now.needles.items) text.now result }
    {
        let mut at = from;
        while self.stride + self.stride < text.len() - at {
            if self.marks(text, at) | self.marks(text, at + self.stride) != 0 {
                return at;
            }
            at += self.stride + self.stride;
        }
        at
    }

    /// The same, a window at a time.
    fn window_by_window(&self, text: &[u8], from: usize) -> Option<Span>
        requires table { IsPlaceTable self.now }
        requires within { from ≤ length text.now }
        ensures { result ≡ first_span (map vec_items self.now.needles.items) text.now from }
    {
        let mut at = from;
        while self.stride < text.len() - at {
            if let Some(span) = self.in_window(text, at) {
                return Some(span);
            }
            at += self.stride;
        }
        None
    }

    /// The same among the places of two windows from `at` on.
    fn in_two_windows(&self, text: &[u8], at: usize) -> Option<Span>
        requires table { IsPlaceTable self.now }
        requires within { at + (self.now.stride + self.now.stride) < length text.now }
        ensures { result ≡ span_among (map vec_items self.now.needles.items) text.now at (self.now.stride + self.now.stride) }
    {
        if let Some(span) = self.in_window(text, at) {
            return Some(span);
        }
        self.in_window(text, at + self.stride)
    }

    /// The same among the `stride` places from `at` on.
    fn in_window(&self, text: &[u8], at: usize) -> Option<Span>
        requires table { IsPlaceTable self.now }
        requires within { at + self.now.stride < length text.now }
        ensures { result ≡ span_among (map vec_items self.now.needles.items) text.now at self.now.stride }
    {
        if self.marks(text, at) == 0 {
            return None;
        }
        self.place_by_place(text, at)
    }

    /// Nothing where no needle begins at one of the `stride` places from `at` on. The pair at the last of them tells
    /// which may begin one, and the pair before it has to stand a place earlier, but for the first place of a needle.
    #[inline(always)]
    fn marks(&self, text: &[u8], at: usize) -> usize
        requires table { IsPlaceTable self.now }
        requires within { at + self.now.stride < length text.now }
        ensures { result ≡ 0 → span_among (map vec_items self.now.needles.items) text.now at self.now.stride ≡ None }
    {
        // One pair alone lets too much pass (DECISIONS: a window is passed over by two pairs).
        let here = self.places[pair_at(text, at + self.stride - 1)] as usize;
        let before = self.places[pair_at(text, at + self.stride.max(2) - 2)] as usize;
        here & (2 * before + 1)
    }

    /// The same as in a window, place by place.
    #[inline(never)]
    fn place_by_place(&self, text: &[u8], at: usize) -> Option<Span>
        requires table { IsPlaceTable self.now }
        requires within { at + self.now.stride < length text.now }
        ensures { result ≡ span_among (map vec_items self.now.needles.items) text.now at self.now.stride }
    {
        for i in 0..self.stride {
            if let Some(span) = self.at_place(text, at + i) {
                return Some(span);
            }
        }
        None
    }

    /// Where the first needle of the list lies that begins at `at`, by the pairs at its first places.
    pub fn at_place(&self, text: &[u8], at: usize) -> Option<Span>
        requires table { IsPlaceTable self.now }
        requires within { at ≤ length text.now }
        ensures { result ≡ span_at (map vec_items self.now.needles.items) text.now at }
    {
        if text.len() - at <= self.stride {
            return None;
        }
        for j in 0..self.stride {
            if self.places[pair_at(text, at + j)] >> j & 1 == 0 {
                return None;
            }
        }
        needles::span_at(&self.needles, text, at)
    }
}
