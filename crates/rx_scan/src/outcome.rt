//! What the matches of a haystack become.
ghost use Rattle.std.specs.Prelude.{◌≡◌, ◌+◌, ◌<◌, ◌^◌, ◌++◌, ◌∷◌, [], ℕ, List, map, length, IfOk, OnOk};
ghost use Rattle.std.specs.List.{flat_map};
ghost use Rattle.std.specs.Vec.{vec_items};
ghost use Rattle.rx_scan.specs.Row.{RowValue, row_text, rows_text};

use crate::output::print_row;
use crate::row::Row;
use rx_search::Memory;
use std::alloc::Global;
use std::mem;

/// What a scan makes of the matches of haystacks one after another, in the worker that found them, and of those of all haystacks.
pub trait Outcome {
    /// What the rows of some haystacks one after another become.
    type Value: Send + Drop;
    /// What the rows of all haystacks become.
    type Whole: Send + Drop;

    /// Whether the rows of these haystacks, the first of which has a number, and these rows of the next one have become this.
    ghost holds: { Self → ℕ → List (List RowValue) → List RowValue → Self.Value → Type 0 };

    /// Whether the rows of so many haystacks have become this.
    ghost are: { Self → List (List RowValue) → Self.Whole → Type 0 };

    /// What the rows of no haystack become, with as much room as `room` told of what those of some others became, or 0.
    ///
    /// # Errors
    ///
    /// `Memory`, where there was no memory for it.
    fn open(&self, alloc: Global, room: usize) -> Result<Self::Value, Memory>
        ensures { IfOk result (λ value. (i : ℕ) → holds self.now i [] [] value) };

    /// How much room it takes that rows became this.
    fn room(&self, value: &Self::Value) -> usize;

    /// Adds the next row of the haystack of this number.
    ///
    /// # Errors
    ///
    /// `Memory`, where there was no memory for it.
    fn add(&self, index: usize, row: Row, value: &mut Self::Value) -> Result<(), Memory>
        ensures { (i : ℕ) (all : List (List RowValue)) (rows : List RowValue) → index ≡ i + length all → holds self.now i all rows value.old
            → OnOk result (holds self.now i all (rows ++ row ∷ []) value.new) };

    /// Ends the haystack, of which all rows were added.
    ///
    /// # Errors
    ///
    /// `Memory`, where there was no memory for it.
    fn end(&self, alloc: Global, value: &mut Self::Value) -> Result<(), Memory>
        ensures { (i : ℕ) (all : List (List RowValue)) (rows : List RowValue) → holds self.now i all rows value.old
            → OnOk result (holds self.now i (all ++ rows ∷ []) [] value.new) };

    /// What the rows of no haystack become, where these are all.
    fn nothing(&self, alloc: Global) -> Self::Whole
        ensures { are self.now [] result };

    /// Puts what the rows of the next haystacks became to those before them.
    ///
    /// # Errors
    ///
    /// `Memory`, where there was no memory for it.
    fn put(&self, value: Self::Value, whole: &mut Self::Whole) -> Result<(), Memory>
        ensures { (all more : List (List RowValue)) → are self.now all whole.old → holds self.now (length all) more [] value
            → OnOk result (are self.now (all ++ more) whole.new) };
}

/// They stay the rows that they are.
#[derive(Drop)]
pub struct AllRows;

/// The rows of some haystacks.
#[derive(Drop)]
pub struct Kept {
    pub done: Vec<Vec<Row>>,
    /// Those of the haystack that is searched.
    pub rows: Vec<Row>,
}

impl Outcome for AllRows {
    type Value = Kept;

    type Whole = Vec<Vec<Row>>;

    ghost holds = { λ _ _ all rows kept. (map vec_items kept.done.items ≡ all) × (kept.rows.items ≡ rows) };

    ghost are = { λ _ all whole. map vec_items whole.items ≡ all };

    fn open(&self, alloc: Global, _room: usize) -> Result<Kept, Memory> {
        Ok(Kept {
            done: Vec::new(alloc),
            rows: Vec::new(alloc),
        })
    }

    fn room(&self, _kept: &Kept) -> usize {
        0
    }

    fn add(&self, _index: usize, row: Row, kept: &mut Kept) -> Result<(), Memory> {
        kept.rows.push(row)?;
        Ok(())
    }

    fn end(&self, alloc: Global, kept: &mut Kept) -> Result<(), Memory> {
        let rows = mem::replace(&mut kept.rows, Vec::new(alloc));
        kept.done.push(rows)?;
        Ok(())
    }

    fn nothing(&self, alloc: Global) -> Vec<Vec<Row>> {
        Vec::new(alloc)
    }

    fn put(&self, kept: Kept, whole: &mut Vec<Vec<Row>>) -> Result<(), Memory> {
        let mut kept = kept;
        whole.append(&mut kept.done)?;
        Ok(())
    }
}

/// They become the text that is printed of them, where the first haystack is line 1.
#[derive(Drop)]
pub struct RowsText;

/// How many bytes a text takes room for before it has any, at most.
const MOST_ROOM: usize = 65536;

impl Outcome for RowsText {
    type Value = Vec<u8>;

    // Pieces of one text, which no one puts together before it is written (DECISIONS: the text of a scan stays in pieces).
    type Whole = Vec<Vec<u8>>;

    // No haystack has a number beyond this one.
    ghost holds = { λ _ i all rows text. i + length all < 2 ^ 63 → text.items ≡ rows_text (i + 1) all ++ flat_map (row_text (i + length all + 1)) rows };

    ghost are = { λ _ all whole. length all < 2 ^ 63 → flat_map vec_items whole.items ≡ rows_text 1 all };

    fn open(&self, alloc: Global, room: usize) -> Result<Vec<u8>, Memory> {
        // As many lines have about as much text, which then takes one allocation.
        let text = Vec::with_capacity(alloc, room.saturating_add(room / 8).min(MOST_ROOM))?;
        Ok(text)
    }

    fn room(&self, text: &Vec<u8>) -> usize {
        text.len()
    }

    fn add(&self, index: usize, row: Row, text: &mut Vec<u8>) -> Result<(), Memory> {
        print_row(text, index.saturating_add(1), &row)
    }

    fn end(&self, _alloc: Global, _text: &mut Vec<u8>) -> Result<(), Memory> {
        Ok(())
    }

    fn nothing(&self, alloc: Global) -> Vec<Vec<u8>> {
        Vec::new(alloc)
    }

    fn put(&self, text: Vec<u8>, whole: &mut Vec<Vec<u8>>) -> Result<(), Memory> {
        if !text.is_empty() {
            whole.push(text)?;
        }
        Ok(())
    }
}
