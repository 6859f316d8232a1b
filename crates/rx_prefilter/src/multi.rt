//! Searches for several needles, by pairs of bytes.
ghost use Rattle.std.specs.Prelude.{◌≡◌, ◌≤◌, ℕ, List, true, length, map, IfOk};
ghost use Rattle.std.specs.List.{list_all};
ghost use Rattle.std.specs.Vec.{vec_items};
ghost use Rattle.rx_prefilter.specs.Choices.{has_bytes};
ghost use Rattle.rx_prefilter.specs.Needles.{span_at, first_span};

mod jump;
mod place_table;

use crate::needles;
use jump::Jump;
use place_table::PlaceTable;
use rx_search::{Memory, Span};
use std::alloc::Global;
use std::marker::Model;

/// A jump pays where it passes over this many bytes for each candidate that fails.
const WORTH: usize = 64;

/// So many candidates may fail before it has to pay.
const TRIES: usize = 4;

/// Up to 64 needles of at least two bytes.
#[derive(Drop)]
pub(crate) struct Multi {
    table: PlaceTable,
    jump: Option<Jump>,
}

impl Model for Multi {
    ghost use Rattle.std.specs.Prelude.{ℕ, List, IfSome, map};

    ghost Value = { List (List ℕ) };

    ghost use Rattle.std.specs.Vec.{vec_items};
    ghost use Rattle.rx_prefilter.specs.Places.{IsPlaceTable};
    ghost use Rattle.rx_prefilter.specs.Jumps.{IsJumpFor};

    ghost view = { λ m. map vec_items m.table.needles.items };

    ghost invariant = { λ m. IsPlaceTable m.table
        × IfSome m.jump (λ jump. IsJumpFor jump (map vec_items m.table.needles.items)) };
}

impl Multi {
    ghost use Rattle.rx_prefilter.specs.Jumps.{IsJumpFor};

    /// A search for these needles, of at least two bytes each.
    pub(crate) fn new(alloc: Global, needles: &[Vec<u8>]) -> Result<Multi, Memory>
        requires { list_all (has_bytes 2) (map vec_items needles.now) ≡ true }
        ensures { IfOk result (λ m. m ≡ map vec_items needles.now) }
    {
        let table = PlaceTable::new(alloc, needles)?;
        let jump = Jump::of(&table.needles, table.stride + 1);
        Ok(Multi { table, jump })
    }

    /// The needles.
    pub(crate) fn needles(&self) -> &[Vec<u8>]
        ensures { map vec_items result.now ≡ self.now }
    {
        &self.table.needles
    }

    /// Where the first needle of the list lies that begins at the least place from `from` on.
    pub(crate) fn find(&self, text: &[u8], from: usize) -> Option<Span>
        requires { from ≤ length text.now }
        ensures { result ≡ first_span self.now text.now from }
    {
        match &self.jump {
            Some(jump) => self.find_by_jumps(jump, text, from),
            None => self.table.find(text, from),
        }
    }

    /// The same, by jumps as long as they pay, and from there on by the table.
    fn find_by_jumps(&self, jump: &Jump, text: &[u8], from: usize) -> Option<Span>
        requires jump { IsJumpFor jump.now self.now }
        requires within { from ≤ length text.now }
        ensures { result ≡ first_span self.now text.now from }
    {
        // It counts and reads no clock (DECISIONS: a search of several needles jumps as long as jumps pay).
        let mut at = from;
        let mut failed = 0;
        while failed < TRIES + (at - from) / WORTH {
            let Some(place) = jump.next(text, at) else {
                return None;
            };
            if let Some(span) = self.table.at_place(text, place) {
                return Some(span);
            }
            failed += 1;
            at = place + 1;
        }
        self.table.find(text, at)
    }

    /// The same of the needles that begin at `at`.
    pub(crate) fn prefix(&self, text: &[u8], at: usize) -> Option<Span>
        requires { at ≤ length text.now }
        ensures { result ≡ span_at self.now text.now at }
    {
        needles::span_at(&self.table.needles, text, at)
    }
}
