//! The rows that were made, in the order of their entries.
ghost use Rattle.std.specs.Prelude.{◌≡◌, ℕ, ◌+◌, ◌<◌, ◌≤◌, [], ◌∷◌, ◌++◌, true, false, length, IfOk, OnOk, IfErr, Some, slice_get};
ghost use Rattle.rx_onepass_build.specs.Build.{IsMadeInVain};
ghost use Rattle.rx_onepass_build.specs.Entries.{AreMet, AreEntries};
ghost use Rattle.rx_onepass_build.specs.Filling.{IsJob};
ghost use Rattle.rx_onepass_build.specs.Stop.{error_of};
ghost use Rattle.rx_onepass_build.specs.Rows.{AreOf, AreFilled};

use crate::closure::Closure;
use crate::entries::Entries;
use crate::job::Job;
use crate::stop::Stop;
use rx_onepass_table::{PatternEpsilons, Transition};
use rx_search::Memory;
use std::alloc::Global;

/// The rows that were made, in the order of their entries.
#[derive(Drop)]
pub struct Rows {
    /// Where each class of bytes leads, row by row.
    pub steps: Vec<Transition>,
    /// What each row tells of a match.
    pub finals: Vec<PatternEpsilons>,
}

impl Rows {
    /// No row.
    pub fn new(alloc: Global) -> Rows
        ensures steps { result.steps.items ≡ [] }
        ensures finals { result.finals.items ≡ [] }
    {
        let steps = Vec::new(alloc);
        let finals = Vec::new(alloc);
        Rows { steps, finals }
    }

    /// Appends a row.
    fn push(&mut self, steps: &[Transition], told: PatternEpsilons) -> Result<(), Memory>
        ensures steps { OnOk result (self.new.steps.items ≡ self.old.steps.items ++ steps.now) }
        ensures finals { OnOk result (self.new.finals.items ≡ self.old.finals.items ++ told ∷ []) }
    {
        self.steps.extend_from_slice(steps)?;
        self.finals.push(told)?;
        Ok(())
    }
}

/// Makes the rows of all entries, also of those that are met on the way.
pub fn fill(
    job: &Job<'_>,
    closure: &mut Closure,
    entries: &mut Entries,
    rows: &mut Rows,
) -> Result<(), Stop>
    requires job { IsJob job.now }
    requires met { AreMet entries.old }
    requires numbers { length entries.old.numbers.items ≡ length job.now.nfa.now.states }
    requires are { AreEntries job.now.nfa.now job.now.each entries.old.items.items }
    requires marks { length closure.old.marks.items ≡ length job.now.nfa.now.states }
    requires row { (q mark : ℕ) → slice_get closure.old.marks.items q ≡ Some mark → mark ≤ length rows.old.finals.items }
    requires filled { AreFilled job.now entries.old.items.items rows.old.steps.items rows.old.finals.items }
    ensures met { OnOk result (AreMet entries.new) }
    ensures of { OnOk result (AreOf entries.old entries.new) }
    ensures are { OnOk result (AreEntries job.now.nfa.now job.now.each entries.new.items.items) }
    ensures filled { OnOk result (AreFilled job.now entries.new.items.items rows.new.steps.items rows.new.finals.items) }
    ensures err { IfErr result (λ stop. IsMadeInVain job.now.nfa.now job.now.each entries.old.layout (error_of stop)) }
    ensures all { OnOk result (length rows.new.finals.items ≡ length entries.new.items.items) }
{
    'rows: while fill_next(job, closure, entries, rows)? {}
    Ok(())
}

/// Makes the row of the next entry that has none, and tells whether there is one.
fn fill_next(
    job: &Job<'_>,
    closure: &mut Closure,
    entries: &mut Entries,
    rows: &mut Rows,
) -> Result<bool, Stop>
    requires job { IsJob job.now }
    requires met { AreMet entries.old }
    requires numbers { length entries.old.numbers.items ≡ length job.now.nfa.now.states }
    requires are { AreEntries job.now.nfa.now job.now.each entries.old.items.items }
    requires marks { length closure.old.marks.items ≡ length job.now.nfa.now.states }
    requires row { (q mark : ℕ) → slice_get closure.old.marks.items q ≡ Some mark → mark ≤ length rows.old.finals.items }
    requires filled { AreFilled job.now entries.old.items.items rows.old.steps.items rows.old.finals.items }
    ensures met { OnOk result (AreMet entries.new) }
    ensures of { OnOk result (AreOf entries.old entries.new) }
    ensures are { OnOk result (AreEntries job.now.nfa.now job.now.each entries.new.items.items) }
    ensures filled { OnOk result (AreFilled job.now entries.new.items.items rows.new.steps.items rows.new.finals.items) }
    ensures err { IfErr result (λ stop. IsMadeInVain job.now.nfa.now job.now.each entries.old.layout (error_of stop)) }
    ensures marks { OnOk result (length closure.new.marks.items ≡ length job.now.nfa.now.states) }
    ensures row { OnOk result ((q mark : ℕ) → slice_get closure.new.marks.items q ≡ Some mark → mark ≤ length rows.new.finals.items) }
    ensures more { IfOk result (λ more. more ≡ true → length rows.new.finals.items ≡ length rows.old.finals.items + 1) }
    ensures all { IfOk result (λ more. more ≡ false → length rows.new.finals.items ≡ length entries.new.items.items) }
{
    let done = rows.finals.len();
    if done >= entries.items.len() {
        return Ok(false);
    }
    let entry = entries.items[done];
    closure.fill(job, entries, done + 1, entry)?;
    rows.push(closure.cells.as_slice(), closure.told)?;
    Ok(true)
}
