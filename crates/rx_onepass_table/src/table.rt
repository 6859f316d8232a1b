//! A table: a row for each state, with a cell for each class of bytes, and one for a match.
ghost use Rattle.std.specs.Prelude.{◌≡◌, ◌<◌, ◌≤◌, ◌*◌, ◌^◌, ℕ, IsTrue, length, is_some, slice_index, IfOk};
ghost use Rattle.rx_search.specs.ByteClasses.{class_count};
ghost use Rattle.rx_onepass_table.specs.Rows.{TableValue, IsWhole, step_in, final_in};
ghost use Rattle.rx_onepass_table.specs.Words.{dead};

use crate::pattern_epsilons::PatternEpsilons;
use crate::transition::Transition;
use rx_search::{ByteClasses, Memory};
use std::marker::Model;

/// A table. Row 0 is that of the dead state, and rows that tell a match come last. A contract sees it as the record of its parts.
#[derive(Drop)]
pub struct Table {
    classes: ByteClasses,
    /// How many cells a row has.
    stride: usize,
    /// The cells, row by row: a transition for each class of bytes, and then what is told of a match.
    cells: Vec<u64>,
    rows: usize,
    /// The first row that tells a match. Those behind it do too.
    least_match: usize,
}

impl Model for Table {
    ghost use Rattle.rx_onepass_table.specs.Rows.{TableValue, IsWhole};

    ghost Value = { TableValue };

    ghost view = { λ t. record { classes = t.classes; stride = t.stride; cells = t.cells.items; rows = t.rows; least_match = t.least_match } };

    ghost invariant = { λ t. IsWhole (record {
      classes = t.classes;
      stride = t.stride;
      cells = t.cells.items;
      rows = t.rows;
      least_match = t.least_match;
    }) };
}

impl Table {
    /// The table of these parts, which must fit together.
    pub fn new(
        classes: ByteClasses,
        stride: usize,
        cells: Vec<u64>,
        rows: usize,
        least_match: usize,
    ) -> Table
        requires { IsWhole (record { classes = classes; stride = stride; cells = cells.items; rows = rows; least_match = least_match }) }
        ensures { result ≡ record { classes = classes; stride = stride; cells = cells.items; rows = rows; least_match = least_match } }
    {
        Table {
            classes,
            stride,
            cells,
            rows,
            least_match,
        }
    }

    /// The classes of bytes that share a column.
    pub fn classes(&self) -> &ByteClasses
        ensures { result.now ≡ self.now.classes }
    {
        &self.classes
    }

    /// How many cells a row has.
    pub fn stride(&self) -> usize
        ensures { result ≡ self.now.stride }
    {
        self.stride
    }

    /// How many rows there are.
    pub fn rows(&self) -> usize
        ensures value { result ≡ self.now.rows }
        ensures whole { IsWhole self.now }
    {
        self.rows
    }

    /// How many cells there are.
    pub fn len(&self) -> usize
        ensures value { result ≡ length self.now.cells }
        ensures whole { IsWhole self.now }
    {
        self.cells.len()
    }

    /// Where a byte leads from a row.
    #[inline(always)]
    pub fn transition(&self, row: usize, byte: u8) -> Transition
        requires { row < self.now.rows }
        ensures value { result ≡ step_in self.now row byte }
        ensures inside { result.target < self.now.rows }
        ensures few { self.now.rows ≤ 2 ^ 21 }
    {
        let class = self.classes.get(byte) as usize;
        Transition::of_word(self.cells[row * self.stride + class])
    }

    /// What a row tells of a match.
    #[inline(always)]
    pub fn pattern_epsilons(&self, row: usize) -> PatternEpsilons
        requires { row < self.now.rows }
        ensures { result ≡ final_in self.now row }
    {
        let column = self.classes.alphabet_len() - 1;
        PatternEpsilons::of_word(self.cells[row * self.stride + column])
    }

    /// The end of the bytes from this place on that share its class, before this end.
    #[inline(always)]
    pub fn same_class(&self, text: &[u8], at: usize, end: usize) -> usize
        requires at { at < end }
        requires end { end ≤ length text.now }
        ensures past { at < result }
        ensures end { result ≤ end }
        ensures same { (k : ℕ) → at ≤ k → k < result
            → slice_index self.now.classes (slice_index text.now k) ≡ slice_index self.now.classes (slice_index text.now at) }
    {
        let class = self.classes.get(text[at]);
        let mut next = at + 1;
        while next < end && self.classes.get(text[next]) == class {
            next += 1;
        }
        next
    }

    /// Whether a row is not that of the dead state, and tells what it tells at each place: it asks for no look-around.
    #[inline(always)]
    pub fn tells_anywhere(&self, row: usize) -> bool
        requires { row < self.now.rows }
        ensures alive { IsTrue result → row ≡ dead → ⊥ }
        ensures looks { IsTrue result → (final_in self.now row).looks ≡ 0 }
    {
        self.pattern_epsilons(row).epsilons().looks == 0 && row > 0
    }

    /// Whether a row may tell a match: one for which it is false tells none.
    #[inline(always)]
    pub fn may_match(&self, row: usize) -> bool
        requires { row < self.now.rows }
        ensures { result ≡ is_some (final_in self.now row).pattern }
    {
        row >= self.least_match
    }

    /// The same table once more.
    ///
    /// # Errors
    ///
    /// Only want of memory.
    pub fn clone(&self) -> Result<Table, Memory>
        ensures { IfOk result (λ t. t ≡ self.now) }
    {
        Ok(Table {
            classes: self.classes,
            stride: self.stride,
            cells: self.cells.clone()?,
            rows: self.rows,
            least_match: self.least_match,
        })
    }
}
