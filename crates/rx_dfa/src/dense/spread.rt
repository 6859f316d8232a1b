//! What the key of a row leads to, class by class.
ghost use Rattle.std.specs.Prelude.{◌≡◌, ℕ, ◌<◌, ◌≤◌, true, List, [], length, IfOk, OnOk, slice_index, None};
ghost use Rattle.rx_search.specs.ByteClasses.{AreClasses, AreRepresentatives};
ghost use Rattle.rx_nfa.specs.Ordered.{AreBelow, target as target_of, targets as targets_of, with_target};
ghost use Rattle.rx_dfa.specs.Automaton.{Dfa};
ghost use Rattle.rx_dfa.specs.ClassLists.{AreLists, class_count};
ghost use Rattle.rx_dfa.specs.Found.{IsNumber};
ghost use Rattle.rx_dfa.specs.StateKey.{key_of, StandsBelow};
ghost use Rattle.rx_dfa.specs.Scratch.{room_of};
ghost use Rattle.rx_dfa.specs.Job.{dfa_in, IsJob};
ghost use Rattle.rx_dfa.specs.Spread.{IsSpread, AreParts, AreKnown};
ghost use Rattle.rx_dfa.specs.declared.dense.found.Found.{Found};

use crate::alphabet::Alphabet;
use crate::dense::class_lists::ClassLists;
use crate::dense::job::Job;
use crate::dense::known::Known;
use crate::scratch::Scratch;
use crate::state_key::{StateKey, make};
use crate::step_parts;
use rx_nfa::State;
use rx_search::{Memory, StateID};
use std::alloc::Global;

/// The key of a row of fewer threads is not spread out: its steps take little time.
const FEW: usize = 24;

/// What the key of a row leads to, class by class, where its threads stay in the same states whatever comes next.
#[derive(Drop)]
pub struct Spread {
    /// The states that the bytes of a class lead to.
    pub lists: ClassLists,
    /// What is reached over the bytes of one class: its loop and its matches are those of all classes.
    pub reached: StateKey,
    /// The states of what was reached so far.
    pub known: Known,
}

impl Spread {
    /// For so many classes.
    pub fn new(alloc: Global, classes: usize) -> Result<Spread, Memory>
        ensures count { IfOk result (λ s. class_count s.lists ≡ classes) }
        ensures known { (d : Dfa) (f : Found) → IfOk result (λ s. AreKnown d f s.known) }
    {
        let lists = ClassLists::new(alloc, classes)?;
        Ok(Spread {
            lists,
            reached: make::empty(alloc),
            known: Known::new(alloc),
        })
    }

    /// Takes the key of a row, and tells whether it was spread out.
    pub fn take(
        &mut self,
        job: &Job<'_>,
        row: &StateKey,
        scratch: &mut Scratch,
    ) -> Result<bool, Memory>
        requires job { IsJob job.now }
        requires count { class_count self.old.lists ≡ length job.now.alphabet.now.bytes.items }
        requires below { StandsBelow (length job.now.source.states.now) row.now }
        requires room { room_of scratch.old ≡ length job.now.source.states.now }
        ensures spread { IfOk result (λ is. is ≡ true → IsSpread (dfa_in job.now) (key_of row.now) self.new) }
        ensures known { self.new.known ≡ self.old.known }
        ensures count { class_count self.new.lists ≡ class_count self.old.lists }
        ensures room { room_of scratch.new ≡ length job.now.source.states.now }
    {
        if row.threads.len() < FEW {
            return Ok(false);
        }
        let stay = job.source.stay_whatever(row, scratch)?;
        if !stay {
            return Ok(false);
        }
        self.spread_out(job, row.loops, scratch)?;
        Ok(true)
    }

    /// Spreads out a key, with the loop or without, whose threads stay in the states of `scratch.threads`.
    fn spread_out(
        &mut self,
        job: &Job<'_>,
        loops: bool,
        scratch: &mut Scratch,
    ) -> Result<(), Memory>
        requires job { IsJob job.now }
        requires count { class_count self.old.lists ≡ length job.now.alphabet.now.bytes.items }
        requires below { AreBelow (length job.now.source.states.now) scratch.old.threads.items }
        requires room { room_of scratch.old ≡ length job.now.source.states.now }
        ensures parts { OnOk result (AreParts (dfa_in job.now) scratch.old.threads.items loops self.new) }
        ensures known { self.new.known ≡ self.old.known }
        ensures count { class_count self.new.lists ≡ class_count self.old.lists }
        ensures room { room_of scratch.new ≡ length job.now.source.states.now }
    {
        let source = &job.source;
        self.reached.matches.clear();
        step_parts::matching(
            source.kind,
            source.states,
            scratch.threads.as_slice(),
            &mut self.reached.matches,
        )?;
        self.reached.loops = step_parts::looping(
            source.kind,
            source.states,
            scratch.threads.as_slice(),
            loops,
        );
        step_parts::cut(source.kind, source.states, &mut scratch.threads);
        self.lists.clear();
        put_all(
            source.states,
            scratch.threads.as_slice(),
            job.alphabet,
            &mut self.lists,
        )?;
        Ok(())
    }

    /// Makes `reached` what is reached over the bytes of this class, of which this is kept.
    pub fn reach(&mut self, class: usize, before: Option<u8>) -> Result<(), Memory>
        requires class { class < class_count self.old.lists }
        requires lists { (lists : ℕ → List ℕ) × AreLists self.old.lists lists }
        ensures threads { OnOk result ((lists : ℕ → List ℕ) → AreLists self.old.lists lists → self.new.reached.threads.items ≡ lists class) }
        ensures before { OnOk result (self.new.reached.before ≡ before) }
        ensures loops { self.new.reached.loops ≡ self.old.reached.loops }
        ensures matches { self.new.reached.matches ≡ self.old.reached.matches }
        ensures lists { self.new.lists ≡ self.old.lists }
        ensures known { self.new.known ≡ self.old.known }
    {
        self.reached.threads.clear();
        self.lists.append(class, &mut self.reached.threads)?;
        self.reached.before = before;
        Ok(())
    }
}

/// Puts before each list the states that the bytes of its class lead to from these.
fn put_all(
    states: &[State],
    threads: &[StateID],
    alphabet: &Alphabet,
    lists: &mut ClassLists,
) -> Result<(), Memory>
    requires below { AreBelow (length states.now) threads.now }
    requires classes { AreClasses alphabet.now.classes }
    requires stand { AreRepresentatives alphabet.now.classes alphabet.now.bytes.items }
    requires count { class_count lists.old ≡ length alphabet.now.bytes.items }
    requires empty { AreLists lists.old (λ class. []) }
    ensures count { class_count lists.new ≡ class_count lists.old }
    ensures lists { OnOk result (AreLists lists.new (λ class. targets_of states.now (slice_index alphabet.now.bytes.items class) threads.now)) }
{
    let mut left = threads.len();
    'threads: while left > 0 {
        left -= 1;
        put_targets(&states[threads[left].as_usize()], alphabet, lists)?;
    }
    Ok(())
}

/// Puts before each list the state that the bytes of its class lead to from this one.
fn put_targets(state: &State, alphabet: &Alphabet, lists: &mut ClassLists) -> Result<(), Memory>
    requires classes { AreClasses alphabet.now.classes }
    requires stand { AreRepresentatives alphabet.now.classes alphabet.now.bytes.items }
    requires count { class_count lists.old ≡ length alphabet.now.bytes.items }
    ensures count { class_count lists.new ≡ class_count lists.old }
    ensures lists { OnOk result ((before : ℕ → List ℕ) → AreLists lists.old before
        → AreLists lists.new (λ class. with_target (target_of state.now (slice_index alphabet.now.bytes.items class)) (before class))) }
{
    let first = first_class(state, alphabet);
    let end = end_class(state, alphabet);
    'classes: for class in first..end {
        if let Some(next) = step_parts::target(state, alphabet.bytes[class]) {
            lists.put(class, next)?;
        }
    }
    Ok(())
}

/// The bytes of no class before this one lead on from the state.
fn first_class(state: &State, alphabet: &Alphabet) -> usize
    requires classes { AreClasses alphabet.now.classes }
    requires stand { AreRepresentatives alphabet.now.classes alphabet.now.bytes.items }
    ensures within { result ≤ length alphabet.now.bytes.items }
    ensures none { (class : ℕ) → class < result → target_of state.now (slice_index alphabet.now.bytes.items class) ≡ None }
{
    match state {
        State::ByteRange { start, .. } => class_of(alphabet, *start),
        State::Sparse { .. } => 0,
        State::Look { .. }
        | State::Union { .. }
        | State::Capture { .. }
        | State::Fail
        | State::Match { .. } => alphabet.bytes.len(),
    }
}

/// Nor do those of this class, or of one behind it.
fn end_class(state: &State, alphabet: &Alphabet) -> usize
    requires classes { AreClasses alphabet.now.classes }
    requires stand { AreRepresentatives alphabet.now.classes alphabet.now.bytes.items }
    ensures within { result ≤ length alphabet.now.bytes.items }
    ensures none { (class : ℕ) → result ≤ class → class < length alphabet.now.bytes.items
        → target_of state.now (slice_index alphabet.now.bytes.items class) ≡ None }
{
    match state {
        State::ByteRange { end, .. } => class_of(alphabet, *end) + 1,
        State::Sparse { .. }
        | State::Look { .. }
        | State::Union { .. }
        | State::Capture { .. }
        | State::Fail
        | State::Match { .. } => alphabet.bytes.len(),
    }
}

/// The class of the byte.
fn class_of(alphabet: &Alphabet, byte: u8) -> usize
    requires classes { AreClasses alphabet.now.classes }
    requires stand { AreRepresentatives alphabet.now.classes alphabet.now.bytes.items }
    ensures value { result ≡ slice_index alphabet.now.classes byte }
    ensures within { result < length alphabet.now.bytes.items }
    ensures small { byte < 256 }
{
    alphabet.classes.get(byte) as usize
}
