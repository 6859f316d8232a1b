//! The rows of the table.
ghost use Rattle.std.specs.Prelude.{◌≡◌, ◌+◌, ◌<◌, true, false, length, slice_index, IfOk, OnOk};
ghost use Rattle.rx_dfa.specs.Automaton.{Dfa, last_key};
ghost use Rattle.rx_dfa.specs.StateKey.{key_of};
ghost use Rattle.rx_dfa.specs.Scratch.{room_of};
ghost use Rattle.rx_dfa.specs.States.{IsState};
ghost use Rattle.rx_dfa.specs.Table.{IsCell};
ghost use Rattle.rx_dfa.specs.Found.{IsNumber, AreFound, Grows, IsMade, plain_keys, special_keys};
ghost use Rattle.rx_dfa.specs.Job.{dfa_in, IsJob};
ghost use Rattle.rx_dfa.specs.ClassLists.{class_count};
ghost use Rattle.rx_dfa.specs.Spread.{IsSpread, AreKnown};
ghost use Rattle.rx_dfa.specs.Work.{IsAppended, AreFilled, AreWithin};

use crate::dense::error::BuildError;
use crate::dense::found::Found;
use crate::dense::job::Job;
use crate::dense::numbers::QUIT;
use crate::dense::spread::Spread;
use crate::scratch::Scratch;
use crate::state_key::{StateKey, make};
use rx_search::{Memory, StateID};
use std::alloc::Global;

/// What keys are made in.
#[derive(Drop)]
pub struct Desk {
    pub scratch: Scratch,
    /// The key of the row.
    pub row: StateKey,
    /// The key of a state that comes after it.
    pub next: StateKey,
}

/// The cells of the rows that were made.
#[derive(Drop)]
pub struct Cells {
    pub plain: Vec<StateID>,
    pub special: Vec<StateID>,
    /// How many rows there are of each sort.
    pub plain_rows: usize,
    pub special_rows: usize,
}

impl Desk {
    /// For an NFA of so many states.
    pub fn new(alloc: Global, states: usize) -> Result<Desk, Memory>
        ensures { IfOk result (λ d. room_of d.scratch ≡ states) }
    {
        let scratch = Scratch::new(alloc, states)?;
        Ok(Desk {
            scratch,
            row: make::empty(alloc),
            next: make::empty(alloc),
        })
    }
}

impl Cells {
    /// No rows.
    pub fn new(alloc: Global) -> Cells
        ensures within { (f : Found) → AreWithin f result }
        ensures filled { (d : Dfa) (f : Found) → AreFilled d f result }
    {
        let plain = Vec::new(alloc);
        let special = Vec::new(alloc);
        Cells {
            plain,
            special,
            plain_rows: 0,
            special_rows: 0,
        }
    }
}

/// Makes the rows of all states, also of those that are found on the way.
pub fn fill(
    job: &Job<'_>,
    desk: &mut Desk,
    found: &mut Found,
    cells: &mut Cells,
) -> Result<(), BuildError>
    requires job { IsJob job.now }
    requires room { room_of desk.old.scratch ≡ length job.now.source.states.now }
    requires wide { length job.now.alphabet.now.bytes.items < found.old.stride }
    requires found { AreFound (dfa_in job.now) found.old }
    requires within { AreWithin found.old cells.old }
    requires filled { AreFilled (dfa_in job.now) found.old cells.old }
    ensures room { room_of desk.new.scratch ≡ length job.now.source.states.now }
    ensures grows { Grows found.old found.new }
    ensures all { OnOk result ((cells.new.plain_rows ≡ length (plain_keys found.new)) × (cells.new.special_rows ≡ length (special_keys found.new))) }
    ensures made { IsMade (dfa_in job.now) found.old found.new (λ done. AreFilled (dfa_in job.now) found.new cells.new) result }
{
    let mut spread = Spread::new(found.alloc, job.alphabet.bytes.len())?;
    'rows: while fill_next(job, desk, &mut spread, found, cells)? {}
    Ok(())
}

/// Makes the row of the next state that has none, and tells whether there is one.
fn fill_next(
    job: &Job<'_>,
    desk: &mut Desk,
    spread: &mut Spread,
    found: &mut Found,
    cells: &mut Cells,
) -> Result<bool, BuildError>
    requires job { IsJob job.now }
    requires count { class_count spread.old.lists ≡ length job.now.alphabet.now.bytes.items }
    requires known { AreKnown (dfa_in job.now) found.old spread.old.known }
    requires room { room_of desk.old.scratch ≡ length job.now.source.states.now }
    requires wide { length job.now.alphabet.now.bytes.items < found.old.stride }
    requires found { AreFound (dfa_in job.now) found.old }
    requires within { AreWithin found.old cells.old }
    requires filled { AreFilled (dfa_in job.now) found.old cells.old }
    ensures room { room_of desk.new.scratch ≡ length job.now.source.states.now }
    ensures grows { Grows found.old found.new }
    ensures count { OnOk result (class_count spread.new.lists ≡ length job.now.alphabet.now.bytes.items) }
    ensures known { OnOk result (AreKnown (dfa_in job.now) found.new spread.new.known) }
    ensures within { OnOk result (AreWithin found.new cells.new) }
    ensures more { IfOk result (λ more. more ≡ true → cells.new.plain_rows + cells.new.special_rows ≡ cells.old.plain_rows + cells.old.special_rows + 1) }
    ensures all { IfOk result (λ more. more ≡ false → (cells.new.plain_rows ≡ length (plain_keys found.new)) ×
        (cells.new.special_rows ≡ length (special_keys found.new))) }
    ensures made { IsMade (dfa_in job.now) found.old found.new (λ more. AreFilled (dfa_in job.now) found.new cells.new) result }
{
    if let Some(plain) = found.plain.get_index(cells.plain_rows) {
        make::copy(plain, &mut desk.row)?;
        push_row(job, desk, spread, found, &mut cells.plain)?;
        cells.plain_rows += 1;
        return Ok(true);
    }
    if let Some(special) = found.special.get_index(cells.special_rows) {
        make::copy(special, &mut desk.row)?;
        push_row(job, desk, spread, found, &mut cells.special)?;
        cells.special_rows += 1;
        return Ok(true);
    }
    Ok(false)
}

/// Appends the row of the desk's key.
fn push_row(
    job: &Job<'_>,
    desk: &mut Desk,
    spread: &mut Spread,
    found: &mut Found,
    cells: &mut Vec<StateID>,
) -> Result<(), BuildError>
    requires job { IsJob job.now }
    requires count { class_count spread.old.lists ≡ length job.now.alphabet.now.bytes.items }
    requires known { AreKnown (dfa_in job.now) found.old spread.old.known }
    requires room { room_of desk.old.scratch ≡ length job.now.source.states.now }
    requires wide { length job.now.alphabet.now.bytes.items < found.old.stride }
    requires found { AreFound (dfa_in job.now) found.old }
    requires state { IsState (dfa_in job.now) (key_of desk.old.row) }
    ensures room { room_of desk.new.scratch ≡ length job.now.source.states.now }
    ensures count { OnOk result (class_count spread.new.lists ≡ length job.now.alphabet.now.bytes.items) }
    ensures known { OnOk result (AreKnown (dfa_in job.now) found.new spread.new.known) }
    ensures grows { Grows found.old found.new }
    ensures made { IsMade (dfa_in job.now) found.old found.new
        (λ done. IsAppended (dfa_in job.now) found.old.stride (IsNumber found.new) (key_of desk.old.row) cells.old.items cells.new.items) result }
{
    let end = cells.len() + found.stride;
    let is_spread = spread.take(job, &desk.row, &mut desk.scratch)?;
    for class in 0..job.alphabet.bytes.len() {
        let cell = any_cell(job, class, is_spread, desk, spread, found)?;
        cells.push(cell)?;
    }
    let last = any_end(job, is_spread, desk, spread, found)?;
    cells.push(last)?;
    cells.resize(end, QUIT)?;
    Ok(())
}

/// The state after the bytes of a class, by what the row's key leads to, if it was spread out.
fn any_cell(
    job: &Job<'_>,
    class: usize,
    is_spread: bool,
    desk: &mut Desk,
    spread: &mut Spread,
    found: &mut Found,
) -> Result<StateID, BuildError>
    requires job { IsJob job.now }
    requires room { room_of desk.old.scratch ≡ length job.now.source.states.now }
    requires found { AreFound (dfa_in job.now) found.old }
    requires state { IsState (dfa_in job.now) (key_of desk.old.row) }
    requires class { class < length job.now.alphabet.now.bytes.items }
    requires count { class_count spread.old.lists ≡ length job.now.alphabet.now.bytes.items }
    requires known { AreKnown (dfa_in job.now) found.old spread.old.known }
    requires spread { is_spread ≡ true → IsSpread (dfa_in job.now) (key_of desk.old.row) spread.old }
    ensures room { room_of desk.new.scratch ≡ length job.now.source.states.now }
    ensures row { desk.new.row ≡ desk.old.row }
    ensures count { OnOk result (class_count spread.new.lists ≡ length job.now.alphabet.now.bytes.items) }
    ensures known { OnOk result (AreKnown (dfa_in job.now) found.new spread.new.known) }
    ensures spread { OnOk result (is_spread ≡ true → IsSpread (dfa_in job.now) (key_of desk.old.row) spread.new) }
    ensures grows { Grows found.old found.new }
    ensures made { IsMade (dfa_in job.now) found.old found.new
        (IsCell (dfa_in job.now) (IsNumber found.new) (slice_index job.now.alphabet.now.bytes.items class) (key_of desk.old.row)) result }
{
    if is_spread {
        return spread_cell(job, class, desk, spread, found);
    }
    step_cell(job, class, desk, found)
}

/// The state after the bytes of a class, by what the row's key leads to.
fn spread_cell(
    job: &Job<'_>,
    class: usize,
    desk: &mut Desk,
    spread: &mut Spread,
    found: &mut Found,
) -> Result<StateID, BuildError>
    requires job { IsJob job.now }
    requires room { room_of desk.old.scratch ≡ length job.now.source.states.now }
    requires found { AreFound (dfa_in job.now) found.old }
    requires state { IsState (dfa_in job.now) (key_of desk.old.row) }
    requires class { class < length job.now.alphabet.now.bytes.items }
    requires count { class_count spread.old.lists ≡ length job.now.alphabet.now.bytes.items }
    requires known { AreKnown (dfa_in job.now) found.old spread.old.known }
    requires spread { IsSpread (dfa_in job.now) (key_of desk.old.row) spread.old }
    ensures room { room_of desk.new.scratch ≡ length job.now.source.states.now }
    ensures row { desk.new.row ≡ desk.old.row }
    ensures count { OnOk result (class_count spread.new.lists ≡ length job.now.alphabet.now.bytes.items) }
    ensures known { OnOk result (AreKnown (dfa_in job.now) found.new spread.new.known) }
    ensures spread { OnOk result (IsSpread (dfa_in job.now) (key_of desk.old.row) spread.new) }
    ensures grows { Grows found.old found.new }
    ensures made { IsMade (dfa_in job.now) found.old found.new
        (IsCell (dfa_in job.now) (IsNumber found.new) (slice_index job.now.alphabet.now.bytes.items class) (key_of desk.old.row)) result }
{
    let byte = job.alphabet.bytes[class];
    if !job.alphabet.reads(byte) {
        return Ok(QUIT);
    }
    let before = job.alphabet.kept(byte);
    spread.reach(class, before)?;
    if let Some(state) = spread.known.state_of(&spread.reached) {
        return Ok(state);
    }
    job.source
        .arrive(&spread.reached, &mut desk.scratch, &mut desk.next)?;
    let state = found.find(&desk.next)?;
    spread.known.note(&spread.reached, state)?;
    Ok(state)
}

/// The state after the bytes of a class.
fn step_cell(
    job: &Job<'_>,
    class: usize,
    desk: &mut Desk,
    found: &mut Found,
) -> Result<StateID, BuildError>
    requires job { IsJob job.now }
    requires room { room_of desk.old.scratch ≡ length job.now.source.states.now }
    requires found { AreFound (dfa_in job.now) found.old }
    requires state { IsState (dfa_in job.now) (key_of desk.old.row) }
    requires class { class < length job.now.alphabet.now.bytes.items }
    ensures room { room_of desk.new.scratch ≡ length job.now.source.states.now }
    ensures row { desk.new.row ≡ desk.old.row }
    ensures grows { Grows found.old found.new }
    ensures made { IsMade (dfa_in job.now) found.old found.new
        (IsCell (dfa_in job.now) (IsNumber found.new) (slice_index job.now.alphabet.now.bytes.items class) (key_of desk.old.row)) result }
{
    let byte = job.alphabet.bytes[class];
    if !job.alphabet.reads(byte) {
        return Ok(QUIT);
    }
    let kept = job.alphabet.kept(byte);
    job.source
        .step(&desk.row, byte, kept, &mut desk.scratch, &mut desk.next)?;
    found.find(&desk.next)
}

/// The state after the end of input, by what the row's key leads to, if it was spread out.
fn any_end(
    job: &Job<'_>,
    is_spread: bool,
    desk: &mut Desk,
    spread: &Spread,
    found: &mut Found,
) -> Result<StateID, BuildError>
    requires job { IsJob job.now }
    requires room { room_of desk.old.scratch ≡ length job.now.source.states.now }
    requires found { AreFound (dfa_in job.now) found.old }
    requires state { IsState (dfa_in job.now) (key_of desk.old.row) }
    requires spread { is_spread ≡ true → IsSpread (dfa_in job.now) (key_of desk.old.row) spread.now }
    ensures room { room_of desk.new.scratch ≡ length job.now.source.states.now }
    ensures row { desk.new.row ≡ desk.old.row }
    ensures grows { Grows found.old found.new }
    ensures made { IsMade (dfa_in job.now) found.old found.new
        (λ cell. IsNumber found.new cell (last_key (dfa_in job.now) (key_of desk.old.row))) result }
{
    if is_spread {
        return spread_end(job, desk, spread, found);
    }
    end_cell(job, desk, found)
}

/// The state after the end of input, by what the row's key leads to.
fn spread_end(
    job: &Job<'_>,
    desk: &mut Desk,
    spread: &Spread,
    found: &mut Found,
) -> Result<StateID, BuildError>
    requires job { IsJob job.now }
    requires room { room_of desk.old.scratch ≡ length job.now.source.states.now }
    requires found { AreFound (dfa_in job.now) found.old }
    requires state { IsState (dfa_in job.now) (key_of desk.old.row) }
    requires spread { IsSpread (dfa_in job.now) (key_of desk.old.row) spread.now }
    ensures room { room_of desk.new.scratch ≡ length job.now.source.states.now }
    ensures row { desk.new.row ≡ desk.old.row }
    ensures grows { Grows found.old found.new }
    ensures made { IsMade (dfa_in job.now) found.old found.new
        (λ cell. IsNumber found.new cell (last_key (dfa_in job.now) (key_of desk.old.row))) result }
{
    make::clear(&mut desk.next);
    desk.next
        .matches
        .extend_from_slice(spread.reached.matches.as_slice())?;
    found.find(&desk.next)
}

/// The state after the end of input.
fn end_cell(job: &Job<'_>, desk: &mut Desk, found: &mut Found) -> Result<StateID, BuildError>
    requires job { IsJob job.now }
    requires room { room_of desk.old.scratch ≡ length job.now.source.states.now }
    requires found { AreFound (dfa_in job.now) found.old }
    requires state { IsState (dfa_in job.now) (key_of desk.old.row) }
    ensures room { room_of desk.new.scratch ≡ length job.now.source.states.now }
    ensures row { desk.new.row ≡ desk.old.row }
    ensures grows { Grows found.old found.new }
    ensures made { IsMade (dfa_in job.now) found.old found.new
        (λ cell. IsNumber found.new cell (last_key (dfa_in job.now) (key_of desk.old.row))) result }
{
    job.source
        .end(&desk.row, None, &mut desk.scratch, &mut desk.next)?;
    found.find(&desk.next)
}
