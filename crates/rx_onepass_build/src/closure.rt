//! What an entry leads to: the search that makes its row.
ghost use Rattle.std.specs.Int.{bit_at};
ghost use Rattle.std.specs.Prelude.{◌^◌, ◌==◌, if◌then◌else◌, ◌≡◌, ℕ, suc, ◌+◌, ◌<◌, ◌≤◌, [], ◌∷◌, ◌++◌, List, Bool, Some, None, true, false, length, map, reverse, IfOk, OnOk, IfErr, IfSome, IfNone, Contains, is_some, slice_get, slice_set};
ghost use Rattle.rx_search.specs.ByteClasses.{class_count};
ghost use Rattle.rx_nfa.specs.Automaton.{state_at};
ghost use Rattle.rx_nfa.specs.Ordered.{target};
ghost use Rattle.rx_onepass_table.specs.Entry.{IsEntry, explicit_start};
ghost use Rattle.rx_onepass_table.specs.Words.{Step, few_looks, slot_limit, no_match, no_pattern};
ghost use Rattle.rx_onepass_build.specs.declared.stop.Stop.TheVariants.{State as Twice};
ghost use Rattle.rx_onepass_build.specs.Build.{IsMadeInVain};
ghost use Rattle.rx_onepass_build.specs.Entries.{AreMet, Stays, AreEntries};
ghost use Rattle.rx_onepass_build.specs.Told.{IsSmall, TellsPast, frame_at};
ghost use Rattle.rx_onepass_build.specs.Tree.{IsTaken, GoesOn};
ghost use Rattle.rx_onepass_build.specs.Filling.{IsJob, IsFilling, IsRowBy, IsToldBy, no_step, step_at};
ghost use Rattle.rx_onepass_build.specs.Stop.{error_of};
ghost use Rattle.rx_onepass_build.specs.Rows.{IsWalking, IsFilled, AreOf, unmarked, IsReaderOn, IsPut, IsSecond};

use crate::entries::Entries;
use crate::job::Job;
use crate::stop::Stop;
use rx_nfa::{State, matches_byte};
use rx_onepass_table::{Epsilons, PatternEpsilons, Transition};
use rx_search::{Memory, PatternID, StateID};
use std::alloc::Global;

/// A state that was come to, and what is told on the way.
#[derive(Clone, Copy)]
pub struct Frame {
    pub state: StateID,
    pub epsilons: Epsilons,
}

/// The search of all that an entry leads to without a byte, depth first and in order of preference. It makes the row of the entry.
#[derive(Drop)]
pub struct Closure {
    /// The row that is made, and the state of the NFA for which it stands.
    pub row: usize,
    pub entry: StateID,
    /// The states that are still to be looked at, the preferred one last.
    pub frames: Vec<Frame>,
    /// The row for which each state was looked at last.
    pub marks: Vec<usize>,
    /// Where each class of bytes leads.
    pub cells: Vec<Transition>,
    /// What is told of a match.
    pub told: PatternEpsilons,
}

impl Closure {
    /// For an NFA of so many states.
    pub fn new(alloc: Global, states: usize) -> Result<Closure, Memory>
        ensures marks { IfOk result (λ c. (q mark : ℕ) → slice_get c.marks.items q ≡ Some mark → mark ≡ 0) }
        ensures len { IfOk result (λ c. length c.marks.items ≡ states) }
    {
        let frames = Vec::new(alloc);
        let marks = vec![in alloc; 0; states]?;
        let cells = Vec::new(alloc);
        Ok(Closure {
            row: 0,
            entry: StateID::ZERO,
            frames,
            marks,
            cells,
            told: PatternEpsilons::empty(),
        })
    }

    /// Makes the row of this entry. Entries that are met get rows.
    pub fn fill(
        &mut self,
        job: &Job<'_>,
        entries: &mut Entries,
        row: usize,
        entry: StateID,
    ) -> Result<(), Stop>
        requires job { IsJob job.now }
        requires entry { IsEntry job.now.nfa.now job.now.each entry }
        requires inside { entry < length job.now.nfa.now.states }
        requires met { AreMet entries.old }
        requires numbers { length entries.old.numbers.items ≡ length job.now.nfa.now.states }
        requires are { AreEntries job.now.nfa.now job.now.each entries.old.items.items }
        requires marks { length self.old.marks.items ≡ length job.now.nfa.now.states }
        requires row { (q mark : ℕ) → slice_get self.old.marks.items q ≡ Some mark → mark < row }
        ensures met { OnOk result (AreMet entries.new) }
        ensures of { OnOk result (AreOf entries.old entries.new) }
        ensures are { OnOk result (AreEntries job.now.nfa.now job.now.each entries.new.items.items) }
        ensures marks { OnOk result (length self.new.marks.items ≡ length job.now.nfa.now.states) }
        ensures row { OnOk result ((q mark : ℕ) → slice_get self.new.marks.items q ≡ Some mark → mark ≤ row) }
        ensures filled { OnOk result (IsFilled job.now entries.new.items.items entry self.new.cells.items self.new.told) }
        ensures err { IfErr result (λ stop. IsMadeInVain job.now.nfa.now job.now.each entries.old.layout (error_of stop)) }
    {
        self.begin(job, row, entry)?;
        'walk: while self.advance(job, entries)? {}
        Ok(())
    }

    /// Nothing was looked at yet.
    fn begin(&mut self, job: &Job<'_>, row: usize, entry: StateID) -> Result<(), Memory>
        requires job { IsJob job.now }
        requires marks { length self.old.marks.items ≡ length job.now.nfa.now.states }
        requires row { (q mark : ℕ) → slice_get self.old.marks.items q ≡ Some mark → mark < row }
        ensures entry { OnOk result (self.new.entry ≡ entry) }
        ensures row { OnOk result (self.new.row ≡ row) }
        ensures walking { OnOk result ((entries : List ℕ) → IsEntry job.now.nfa.now job.now.each entry → AreEntries job.now.nfa.now job.now.each entries
            → IsWalking job.now entries self.new) }
    {
        self.row = row;
        self.entry = entry;
        self.told = PatternEpsilons::empty();
        clear_cells(&mut self.cells, job.bytes.len())?;
        self.frames.clear();
        push_frame(&mut self.frames, entry, Epsilons::empty())
    }

    /// Looks at the next state; false where there is none.
    fn advance(&mut self, job: &Job<'_>, entries: &mut Entries) -> Result<bool, Stop>
        requires job { IsJob job.now }
        requires inside { self.old.entry < length job.now.nfa.now.states }
        requires met { AreMet entries.old }
        requires numbers { length entries.old.numbers.items ≡ length job.now.nfa.now.states }
        requires walking { IsWalking job.now entries.old.items.items self.old }
        ensures met { OnOk result (AreMet entries.new) }
        ensures of { OnOk result (AreOf entries.old entries.new) }
        ensures entry { OnOk result (self.new.entry ≡ self.old.entry) }
        ensures row { OnOk result (self.new.row ≡ self.old.row) }
        ensures more { IfOk result (λ more. more ≡ true → unmarked self.old.row self.new.marks.items < unmarked self.old.row self.old.marks.items) }
        ensures over { IfOk result (λ more. more ≡ false → self.new.frames.items ≡ []) }
        ensures walking { OnOk result (IsWalking job.now entries.new.items.items self.new) }
        ensures err { IfErr result (λ stop. IsMadeInVain job.now.nfa.now job.now.each entries.old.layout (error_of stop)) }
    {
        let Some(frame) = pop_frame(&mut self.frames) else {
            return Ok(false);
        };
        mark(&mut self.marks, self.row, frame.state)?;
        self.look_at(job, entries, frame)?;
        Ok(true)
    }

    /// Does what the state asks for: it goes on, or puts into the row what is told.
    fn look_at(&mut self, job: &Job<'_>, entries: &mut Entries, frame: Frame) -> Result<(), Stop>
        requires job { IsJob job.now }
        requires inside { frame.state < length job.now.nfa.now.states }
        requires small { IsSmall frame.epsilons }
        requires met { AreMet entries.old }
        requires numbers { length entries.old.numbers.items ≡ length job.now.nfa.now.states }
        requires width { length self.old.cells.items ≡ class_count job.now.classes.now }
        ensures met { OnOk result (AreMet entries.new) }
        ensures of { OnOk result (AreOf entries.old entries.new) }
        ensures marks { OnOk result (self.new.marks.items ≡ self.old.marks.items) }
        ensures entry { OnOk result (self.new.entry ≡ self.old.entry) }
        ensures row { OnOk result (self.new.row ≡ self.old.row) }
        ensures on { OnOk result (GoesOn job.now.nfa.now frame (reverse self.old.frames.items) (reverse self.new.frames.items)) }
        ensures cells { OnOk result ((done : List (List ℕ)) (way : List ℕ) → IsTaken job.now.nfa.now self.old.entry done way frame
            → IsToldBy job.now.nfa.now self.old.entry done self.old.told → IsRowBy job.now entries.old.items.items self.old.entry done self.old.cells.items
            → IsRowBy job.now entries.new.items.items self.old.entry (way ∷ done) self.new.cells.items) }
        ensures told { OnOk result ((done : List (List ℕ)) (way : List ℕ) → IsTaken job.now.nfa.now self.old.entry done way frame
            → IsToldBy job.now.nfa.now self.old.entry done self.old.told → IsToldBy job.now.nfa.now self.old.entry (way ∷ done) self.new.told) }
        ensures err { (done : List (List ℕ)) (way : List ℕ) → IsTaken job.now.nfa.now self.old.entry done way frame
            → IsToldBy job.now.nfa.now self.old.entry done self.old.told → IsRowBy job.now entries.old.items.items self.old.entry done self.old.cells.items
            → IfErr result (λ stop. IsMadeInVain job.now.nfa.now job.now.each entries.old.layout (error_of stop)) }
    {
        match job.nfa.state(frame.state) {
            State::ByteRange { .. } => self.read(job, entries, frame),
            State::Sparse { .. } => self.read(job, entries, frame),
            State::Look { look, next } => {
                push_frame(&mut self.frames, *next, frame.epsilons.with_look(*look))?;
                Ok(())
            }
            State::Union { alternates } => {
                push_frames(&mut self.frames, alternates.as_slice(), frame.epsilons)?;
                Ok(())
            }
            State::Capture { next, slot, .. } => {
                let epsilons = with_slot(frame.epsilons, *slot, job.explicit_start);
                push_frame(&mut self.frames, *next, epsilons)?;
                Ok(())
            }
            State::Fail => Ok(()),
            State::Match { pattern } => accept(&mut self.told, *pattern, frame.epsilons),
        }
    }

    /// Puts the steps of a state that reads into the row.
    fn read(&mut self, job: &Job<'_>, entries: &mut Entries, frame: Frame) -> Result<(), Stop>
        requires job { IsJob job.now }
        requires inside { frame.state < length job.now.nfa.now.states }
        requires small { IsSmall frame.epsilons }
        requires met { AreMet entries.old }
        requires numbers { length entries.old.numbers.items ≡ length job.now.nfa.now.states }
        requires width { length self.old.cells.items ≡ class_count job.now.classes.now }
        ensures met { OnOk result (AreMet entries.new) }
        ensures of { OnOk result (AreOf entries.old entries.new) }
        ensures marks { OnOk result (self.new.marks.items ≡ self.old.marks.items) }
        ensures entry { OnOk result (self.new.entry ≡ self.old.entry) }
        ensures row { OnOk result (self.new.row ≡ self.old.row) }
        ensures frames { OnOk result (self.new.frames.items ≡ self.old.frames.items) }
        ensures told { OnOk result (self.new.told ≡ self.old.told) }
        ensures cells { OnOk result ((done : List (List ℕ)) (way : List ℕ) → IsTaken job.now.nfa.now self.old.entry done way frame
            → IsToldBy job.now.nfa.now self.old.entry done self.old.told → IsRowBy job.now entries.old.items.items self.old.entry done self.old.cells.items
            → IsRowBy job.now entries.new.items.items self.old.entry (way ∷ done) self.new.cells.items) }
        ensures err { (done : List (List ℕ)) (way : List ℕ) → IsTaken job.now.nfa.now self.old.entry done way frame
            → IsToldBy job.now.nfa.now self.old.entry done self.old.told → IsRowBy job.now entries.old.items.items self.old.entry done self.old.cells.items
            → IfErr result (λ stop. IsMadeInVain job.now.nfa.now job.now.each entries.old.layout (error_of stop)) }
    {
        let wins = self.told.pattern().is_some();
        let reader = Reader {
            entry: self.entry,
            frame,
            wins,
        };
        add_steps(job, entries, &reader, &mut self.cells)
    }
}

/// A state that reads, and how it was come to.
#[derive(Drop)]
pub struct Reader {
    pub entry: StateID,
    pub frame: Frame,
    /// A walk to a match is preferred.
    pub wins: bool,
}

/// Leaves no step in each of so many cells.
fn clear_cells(cells: &mut Vec<Transition>, count: usize) -> Result<(), Memory>
    requires { count < 2 ^ 63 }
    ensures len { OnOk result (length cells.new.items ≡ count) }
    ensures value { OnOk result ((k : ℕ) → k < count → step_at cells.new.items k ≡ no_step) }
{
    cells.clear();
    let mut number = 0;
    while number < count {
        cells.push(Transition::of_word(0))?;
        number += 1;
    }
    Ok(())
}

/// Marks the state as looked at for this row. One that was looked at before is refused.
fn mark(marks: &mut Vec<usize>, row: usize, state: StateID) -> Result<(), Stop>
    requires { state < length marks.old.items }
    ensures marks { OnOk result (marks.new.items ≡ slice_set marks.old.items state row) }
    ensures new { OnOk result (slice_get marks.old.items state ≡ Some row → ⊥) }
    ensures err { IfErr result (λ e. (e ≡ Twice state) × (slice_get marks.old.items state ≡ Some row)) }
{
    if marks[state.as_usize()] == row {
        return Err(Stop::State { state });
    }
    marks[state.as_usize()] = row;
    Ok(())
}

/// Takes the frame on top from the stack.
fn pop_frame(frames: &mut Vec<Frame>) -> Option<Frame>
    ensures some { IfSome result (λ f. reverse frames.old.items ≡ f ∷ reverse frames.new.items) }
    ensures none { IfNone result (frames.old.items ≡ []) }
    ensures same { IfNone result (frames.new.items ≡ frames.old.items) }
{
    frames.pop()
}

/// Puts the state on the stack.
fn push_frame(frames: &mut Vec<Frame>, state: StateID, epsilons: Epsilons) -> Result<(), Memory>
    ensures { OnOk result (reverse frames.new.items ≡ frame_at epsilons state ∷ reverse frames.old.items) }
{
    frames.push(Frame { state, epsilons })?;
    Ok(())
}

/// Puts each of these states on the stack, the first on top.
fn push_frames(
    frames: &mut Vec<Frame>,
    states: &[StateID],
    epsilons: Epsilons,
) -> Result<(), Memory>
    ensures { OnOk result (reverse frames.new.items ≡ map (frame_at epsilons) states.now ++ reverse frames.old.items) }
{
    let mut left = states.len();
    while left > 0 {
        left -= 1;
        push_frame(frames, states[left], epsilons)?;
    }
    Ok(())
}

/// Puts the match into the row. A second one is refused.
fn accept(told: &mut PatternEpsilons, pattern: PatternID, epsilons: Epsilons) -> Result<(), Stop>
    requires pattern { pattern < no_pattern }
    requires looks { epsilons.looks < 2 ^ 10 }
    ensures told { OnOk result ((told.old.pattern ≡ None) ×
        (told.new ≡ record { pattern = Some pattern; slots = epsilons.slots; looks = epsilons.looks })) }
    ensures err { IfErr result (IsSecond told.old pattern) }
{
    if let Some(first) = told.pattern() {
        return Err(Stop::Match {
            first,
            second: pattern,
        });
    }
    *told = PatternEpsilons::new(pattern, epsilons);
    Ok(())
}

/// Puts the steps of a state that reads into the row, class by class.
fn add_steps(
    job: &Job<'_>,
    entries: &mut Entries,
    reader: &Reader,
    cells: &mut Vec<Transition>,
) -> Result<(), Stop>
    requires job { IsJob job.now }
    requires inside { reader.now.frame.state < length job.now.nfa.now.states }
    requires small { IsSmall reader.now.frame.epsilons }
    requires met { AreMet entries.old }
    requires numbers { length entries.old.numbers.items ≡ length job.now.nfa.now.states }
    requires width { length cells.old.items ≡ class_count job.now.classes.now }
    ensures met { OnOk result (AreMet entries.new) }
    ensures of { OnOk result (AreOf entries.old entries.new) }
    ensures cells { OnOk result ((done : List (List ℕ)) (way : List ℕ) → IsReaderOn job.now reader.now way
        → IsRowBy job.now entries.old.items.items reader.now.entry done cells.old.items
        → IsFilling job.now entries.new.items.items reader.now.entry done (way ∷ done) (class_count job.now.classes.now) cells.new.items) }
    ensures err { (done : List (List ℕ)) (way : List ℕ) → IsReaderOn job.now reader.now way
        → IsRowBy job.now entries.old.items.items reader.now.entry done cells.old.items
        → IfErr result (λ stop. IsMadeInVain job.now.nfa.now job.now.each entries.old.layout (error_of stop)) }
{
    for class in 0..job.bytes.len() {
        add_step(job, entries, reader, class, cells)?;
    }
    Ok(())
}

/// Puts the step on one class of bytes into the row. Where another one stands there that differs, it is refused.
fn add_step(
    job: &Job<'_>,
    entries: &mut Entries,
    reader: &Reader,
    class: usize,
    cells: &mut Vec<Transition>,
) -> Result<(), Stop>
    requires job { IsJob job.now }
    requires inside { reader.now.frame.state < length job.now.nfa.now.states }
    requires small { IsSmall reader.now.frame.epsilons }
    requires met { AreMet entries.old }
    requires numbers { length entries.old.numbers.items ≡ length job.now.nfa.now.states }
    requires width { length cells.old.items ≡ class_count job.now.classes.now }
    requires class { class < class_count job.now.classes.now }
    ensures met { OnOk result (AreMet entries.new) }
    ensures of { OnOk result (AreOf entries.old entries.new) }
    ensures width { OnOk result (length cells.new.items ≡ length cells.old.items) }
    ensures cells { OnOk result ((done : List (List ℕ)) (way : List ℕ) → IsReaderOn job.now reader.now way
        → IsFilling job.now entries.old.items.items reader.now.entry done (way ∷ done) class cells.old.items
        → IsFilling job.now entries.new.items.items reader.now.entry done (way ∷ done) (class + 1) cells.new.items) }
    ensures err { (done : List (List ℕ)) (way : List ℕ) → IsReaderOn job.now reader.now way
        → IsFilling job.now entries.old.items.items reader.now.entry done (way ∷ done) class cells.old.items
        → IfErr result (λ stop. IsMadeInVain job.now.nfa.now job.now.each entries.old.layout (error_of stop)) }
{
    let byte = job.bytes[class];
    let frame = reader.frame;
    let Some(next) = target_of(job.nfa.state(frame.state), byte) else {
        return Ok(());
    };
    let row = entries.row_of(next)?;
    let step = Transition::new(reader.wins, row, frame.epsilons);
    if add(cells, class, step) {
        return Ok(());
    }
    Err(Stop::Transition {
        state: reader.entry,
        byte,
    })
}

/// Puts the step into the cell, where none stands there. False where another one does.
fn add(cells: &mut Vec<Transition>, class: usize, step: Transition) -> bool
    requires { class < length cells.old.items }
    ensures width { length cells.new.items ≡ length cells.old.items }
    ensures other { (c : ℕ) → (c ≡ class → ⊥) → step_at cells.new.items c ≡ step_at cells.old.items c }
    ensures value { IsPut (step_at cells.old.items class) step (step_at cells.new.items class) result }
{
    let old = cells[class];
    if old.is_dead() {
        cells[class] = step;
        return true;
    }
    is_same(old, step)
}

/// Whether the two transitions are one.
fn is_same(one: Transition, other: Transition) -> bool
    ensures yes { result ≡ true → one ≡ other }
    ensures no { result ≡ false → one ≡ other → ⊥ }
{
    one.word() == other.word()
}

/// Where the byte leads from the state.
fn target_of(state: &State, byte: u8) -> Option<StateID>
    ensures { result ≡ target state.now byte }
{
    match state {
        State::ByteRange { start, end, next } => {
            if *start <= byte && byte <= *end {
                return Some(*next);
            }
            None
        }
        State::Sparse { transitions } => matches_byte(transitions.as_slice(), byte),
        State::Look { .. } => None,
        State::Union { .. } => None,
        State::Capture { .. } => None,
        State::Fail => None,
        State::Match { .. } => None,
    }
}

/// What is told on a walk that writes this slot too. Slots of whole matches are not told: a search knows their places.
fn with_slot(epsilons: Epsilons, slot: usize, explicit_start: usize) -> Epsilons
    requires { slot < explicit_start + slot_limit }
    ensures looks { result.looks ≡ epsilons.looks }
    ensures slots { (k : ℕ) → bit_at result.slots k ≡ (if explicit_start + k == slot then 1 else bit_at epsilons.slots k) }
    ensures small { epsilons.slots < 2 ^ 32 → result.slots < 2 ^ 32 }
{
    if slot < explicit_start {
        return epsilons;
    }
    epsilons.with_slot(slot - explicit_start)
}
