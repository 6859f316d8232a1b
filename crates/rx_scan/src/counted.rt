//! Matches, in numbers.
ghost use Rattle.std.specs.Prelude.{◌≡◌, ◌<◌, ◌^◌};
ghost use Rattle.rx_scan.specs.Counted.{AreCounted, slots_len, rows_len};

use crate::outcome::Outcome;
use crate::row::Row;
use rx_gen::Counts;
use rx_search::{Memory, NonMaxUsize};
use std::alloc::Global;

/// Rows become their number, and the length of their matches together.
#[derive(Drop)]
pub struct Counted;

/// What was counted in some haystacks.
#[derive(Drop)]
pub struct Tally {
    pub done: Vec<Counts>,
    /// The rows of the haystack that is searched.
    pub rows: Vec<Row>,
}

impl Outcome for Counted {
    type Value = Tally;

    type Whole = Vec<Counts>;

    // A sum that does not fit is not promised; no haystack has so many matches.
    ghost holds = { λ _ _ all rows tally. AreCounted all tally.done.items × (tally.rows.items ≡ rows) };

    ghost are = { λ _ all whole. AreCounted all whole.items };

    fn open(&self, alloc: Global, _room: usize) -> Result<Tally, Memory> {
        Ok(Tally {
            done: Vec::new(alloc),
            rows: Vec::new(alloc),
        })
    }

    fn room(&self, _tally: &Tally) -> usize {
        0
    }

    fn add(&self, _index: usize, row: Row, tally: &mut Tally) -> Result<(), Memory> {
        tally.rows.push(row)?;
        Ok(())
    }

    fn end(&self, _alloc: Global, tally: &mut Tally) -> Result<(), Memory> {
        let counts = Counts {
            matches: tally.rows.len(),
            covered: covered_by(&tally.rows),
        };
        tally.done.push(counts)?;
        tally.rows.clear();
        Ok(())
    }

    fn nothing(&self, alloc: Global) -> Vec<Counts> {
        Vec::new(alloc)
    }

    fn put(&self, tally: Tally, whole: &mut Vec<Counts>) -> Result<(), Memory> {
        let mut tally = tally;
        whole.append(&mut tally.done)?;
        Ok(())
    }
}

/// How long the matches of these rows are together.
fn covered_by(rows: &[Row]) -> usize
    ensures { rows_len rows.now < 2 ^ 64 → result ≡ rows_len rows.now }
{
    let mut covered: usize = 0;
    for row in rows {
        covered = covered.saturating_add(slots_len(row.slots.as_slice()));
    }
    covered
}

/// How long the match is that has these slots.
fn slots_len(slots: &[Option<NonMaxUsize>]) -> usize
    ensures { result ≡ slots_len slots.now }
{
    match slots {
        [Some(start), Some(end), ..] => end.get().saturating_sub(start.get()),
        _ => 0,
    }
}
