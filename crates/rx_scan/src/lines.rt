//! Haystacks, one after another: slices, or the lines of a text.
ghost use Rattle.std.specs.Prelude.{◌≡◌, ◌<◌, ◌^◌, [], ℕ, List, get_or, length, map, IfOk};
ghost use Rattle.std.specs.List.{All};
ghost use Rattle.std.specs.Str.{IsUtf8};
ghost use Rattle.rx_scan.specs.Input.{lines};
ghost use Rattle.rx_scan.specs.Lines.{AreEnds, AreEnds-prop, cut_at, line_start};

use crate::newlines::line_ends;
use rx_search::Memory;
use std::alloc::Global;
use std::thread::Threads;

/// Haystacks that are numbered from 0 on.
pub trait Haystacks {
    /// Their bytes.
    ghost texts: { Self → List (List ℕ) };

    /// How many there are.
    fn count(&self) -> usize
        ensures all { result ≡ length (texts self.now) }
        ensures room { result < 2 ^ 63 };

    /// The haystack of this number.
    fn get(&self, index: usize) -> &[u8]
        requires { index < length (texts self.now) }
        ensures { result.now ≡ get_or (texts self.now) index [] };
}

/// Slices, each of which is a haystack.
#[derive(Drop)]
pub struct Slices<'a> {
    pub all: &'a [&'a [u8]],
}

impl Haystacks for Slices<'_> {
    ghost texts = { λ s. map (λ h. h.now) s.all.now };

    fn count(&self) -> usize {
        self.all.len()
    }

    fn get(&self, index: usize) -> &[u8] {
        self.all[index]
    }
}

/// The lines of a text.
#[derive(Drop)]
pub struct Lines<'t> {
    text: &'t [u8],
    // A line takes eight bytes (DECISIONS: of a line its end is kept).
    /// Where each line ends: at a newline, or at the end of the text.
    ends: Vec<usize>,
    ghost own: { AreEnds (length text.now) 0 ends.items } by { AreEnds-prop (length text.now) 0 ends.items },
}

impl<'t> Lines<'t> {
    /// The lines of this text, which so many workers look for, each in a part of it.
    ///
    /// # Errors
    ///
    /// `Memory`, where there was no memory for the list of them.
    pub fn new<R: Threads + Sync>(
        rt: &R,
        alloc: Global,
        text: &'t str,
        workers: usize,
    ) -> Result<Lines<'t>, Memory>
        ensures lines { IfOk result (λ all. cut_at all.text.now 0 all.ends.items ≡ lines text.now) }
        ensures utf8 { IfOk result (λ all. All IsUtf8 (cut_at all.text.now 0 all.ends.items)) }
        ensures room { IfOk result (λ all. length all.ends.items < 2 ^ 63) }
    {
        let text = text.as_bytes();
        Ok(Lines {
            text,
            ends: line_ends(rt, alloc, text, workers)?,
        })
    }

    /// Where the line of this number begins, which ends at this place.
    fn start(&self, index: usize, end: usize) -> usize
        requires there { index < length self.now.ends.items }
        requires end { end ≡ get_or self.now.ends.items index 0 }
        ensures { result ≡ line_start 0 self.now.ends.items index }
    {
        if index == 0 {
            return 0;
        }
        self.ends[index - 1] + 1
    }
}

impl Haystacks for Lines<'_> {
    ghost texts = { λ all. cut_at all.text.now 0 all.ends.items };

    fn count(&self) -> usize {
        self.ends.len()
    }

    fn get(&self, index: usize) -> &[u8] {
        let end = self.ends[index];
        &self.text[self.start(index, end)..end]
    }
}
