//! The entries that were met, each with its row.
ghost use Rattle.std.specs.Prelude.{◌≡◌, ℕ, suc, ◌^◌, ◌<◌, ◌≤◌, IfOk, OnOk, IfErr, Some, length, [], slice_get};
ghost use Rattle.rx_onepass_table.specs.Rows.{IsRowOf};
ghost use Rattle.rx_onepass_build.specs.Entries.{AreMet, Grows, HasNoRoom, IsFull, IsWithin, state_limit, size_of};
ghost use Rattle.rx_onepass_build.specs.Stop.{error_of};

use crate::stop::Stop;
use rx_search::StateID;
use std::alloc::Global;

/// The most states, the dead one among them.
pub const STATE_LIMIT: usize = 2097152;

/// The bytes that are accounted for a cell, and for a start.
pub const CELL_SIZE: usize = 8;

pub const START_SIZE: usize = 4;

/// How large a table is, by its rows.
#[derive(Clone, Copy)]
pub struct Layout {
    /// How many cells a row has.
    pub stride: usize,
    /// How many starts there are.
    pub starts: usize,
    /// The most bytes that it may have, if there is a limit.
    pub limit: Option<usize>,
}

/// The states of the NFA that have rows, in the order of these, from row 1 on: row 0 is that of the dead state.
#[derive(Drop)]
pub struct Entries {
    pub layout: Layout,
    pub items: Vec<StateID>,
    /// The number of each state's row, and 0 where it has none.
    pub numbers: Vec<usize>,
}

/// The bytes that are accounted for a table of so many rows: 8 for each cell, and 4 for each start.
fn size_of(layout: &Layout, rows: usize) -> usize
    requires rows { rows ≤ suc state_limit }
    requires narrow { layout.now.stride ≤ 512 }
    requires few_starts { layout.now.starts ≤ 2 ^ 31 }
    ensures { result ≡ size_of layout.now rows }
{
    CELL_SIZE * (rows * layout.stride) + START_SIZE * layout.starts
}

/// Refuses a table of so many rows, where there are too many or its size is above the limit.
fn admit(layout: &Layout, rows: usize) -> Result<(), Stop>
    requires rows { rows ≤ suc state_limit }
    requires narrow { layout.now.stride ≤ 512 }
    requires few_starts { layout.now.starts ≤ 2 ^ 31 }
    ensures few { OnOk result (rows ≤ state_limit) }
    ensures within { OnOk result (IsWithin layout.now rows) }
    ensures err { IfErr result (λ stop. IsFull layout.now rows (error_of stop)) }
{
    if rows > STATE_LIMIT {
        return Err(Stop::TooManyStates { limit: STATE_LIMIT });
    }
    admit_size(layout, rows)
}

/// Refuses a table of so many rows, where its size is above the limit.
fn admit_size(layout: &Layout, rows: usize) -> Result<(), Stop>
    requires rows { rows ≤ suc state_limit }
    requires narrow { layout.now.stride ≤ 512 }
    requires few_starts { layout.now.starts ≤ 2 ^ 31 }
    ensures within { OnOk result (IsWithin layout.now rows) }
    ensures err { IfErr result (λ stop. IsFull layout.now rows (error_of stop)) }
{
    let Some(limit) = layout.limit else {
        return Ok(());
    };
    let size = size_of(layout, rows);
    if size > limit {
        return Err(Stop::ExceededSizeLimit { limit, size });
    }
    Ok(())
}

impl Entries {
    /// No entry was met yet, of an NFA of so many states.
    pub fn new(alloc: Global, layout: Layout, states: usize) -> Result<Entries, Stop>
        requires narrow { layout.stride ≤ 512 }
        requires few_starts { layout.starts ≤ 2 ^ 31 }
        ensures met { IfOk result AreMet }
        ensures none { IfOk result (λ e. e.items.items ≡ []) }
        ensures layout { IfOk result (λ e. e.layout ≡ layout) }
        ensures states { IfOk result (λ e. length e.numbers.items ≡ states) }
        ensures err { IfErr result (λ stop. IsFull layout 1 (error_of stop)) }
    {
        admit(&layout, 1)?;
        let items = Vec::new(alloc);
        let numbers = vec![in alloc; 0; states]?;
        Ok(Entries {
            layout,
            items,
            numbers,
        })
    }

    /// The row of this state of the NFA. One that was not met before gets a row.
    pub fn row_of(&mut self, state: StateID) -> Result<usize, Stop>
        requires met { AreMet self.old }
        requires state { state < length self.old.numbers.items }
        ensures met { OnOk result (AreMet self.new) }
        ensures row { IfOk result (λ row. IsRowOf self.new.items.items row state) }
        ensures small { IfOk result (λ row. row < state_limit) }
        ensures grows { OnOk result (Grows self.old self.new state) }
        ensures err { IfErr result (λ stop. HasNoRoom self.old state (error_of stop)) }
    {
        let row = self.numbers[state.as_usize()];
        if row > 0 {
            return Ok(row);
        }
        self.push(state)
    }

    /// One more row, of a state that has none.
    fn push(&mut self, state: StateID) -> Result<usize, Stop>
        requires met { AreMet self.old }
        requires new { slice_get self.old.numbers.items state ≡ Some 0 }
        ensures met { OnOk result (AreMet self.new) }
        ensures row { IfOk result (λ row. IsRowOf self.new.items.items row state) }
        ensures small { IfOk result (λ row. row < state_limit) }
        ensures grows { OnOk result (Grows self.old self.new state) }
        ensures err { IfErr result (λ stop. HasNoRoom self.old state (error_of stop)) }
    {
        let row = self.items.len() + 1;
        admit(&self.layout, row + 1)?;
        self.items.push(state)?;
        self.numbers[state.as_usize()] = row;
        Ok(row)
    }
}
