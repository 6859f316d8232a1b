//! An NFA in the making.
ghost use Rattle.std.specs.Prelude.{◌≡◌, ◌+◌, ◌<◌, ◌≤◌, [], length, None, All, IfOk, OnOk, OnErr};
ghost use Rattle.rx_search.specs.Limits.{id_limit};
ghost use Rattle.rx_nfa.specs.Automaton.{state_accepts, NamesBelow, IsWithin};
ghost use Rattle.rx_model.specs.Graph.{build_state, set};
ghost use Rattle.rx_model.specs.Text.{scalar_ranges, byte_ranges};
ghost use Rattle.rx_search.specs.GroupInfo.{slot_count};
ghost use Rattle.rx_class.specs.ClassViews.{class_view};
ghost use Rattle.rx_hir.specs.Cost.{states_of_class};
ghost use Rattle.rx_nfa.specs.Built.{Built};
ghost use Rattle.rx_nfa.specs.Directed.{build_class};
ghost use Rattle.rx_nfa.specs.Draft.{AreInRange, pushed, accepting, patched};
ghost use Rattle.rx_nfa.specs.Row.{HasSortedTransitions};
ghost use Rattle.rx_nfa.specs.Slots.{WritesOwnSlots};
ghost use Rattle.rx_nfa.specs.Nfa.{IsInRange};

use crate::State;
use crate::backwards::compile_class_backwards;
use crate::byte_classes::classes_of;
use crate::class::{compile_bytes, compile_class};
use crate::looks::looks_of;
use crate::nfa::NFA;
use crate::nfa::inner::Inner;
use rx_hir::{Class, ClassBytes, ClassUnicode};
use rx_search::{GroupInfo, LookMatcher, Memory, PatternID, StateID};
use std::alloc::Global;
use std::marker::Model;
use std::mem;

/// What an NFA tells beside its states.
#[derive(Drop)]
pub struct Facts {
    pub utf8: bool,
    pub reverse: bool,
    pub look_matcher: LookMatcher,
    pub always_start_anchored: bool,
    pub has_empty: bool,
    pub accounted_states: usize,
}

/// The states so far. Every state and pattern that they name is there. They write slots of the groups of the patterns
/// that they name, and of these the first `written_len` alone. Their transitions are sorted. Each pattern is accepted at one state
/// alone.
#[derive(Drop)]
pub struct Builder {
    states: Vec<State>,
    group_info: GroupInfo,
    written_len: usize,
    /// No pattern from this one on is accepted yet.
    accepted: usize,
}

impl Model for Builder {
    ghost use Rattle.rx_nfa.specs.Draft.{Draft, AreInRange};

    ghost Value = { Draft };

    ghost view = { λ b. record {
      states = b.states.items;
      groups = b.group_info;
      slots = b.written_len;
      accepted = b.accepted;
    } };

    ghost invariant = { λ b. AreInRange (record {
      states = b.states.items;
      groups = b.group_info;
      slots = b.written_len;
      accepted = b.accepted;
    }) };
}

impl Builder {
    /// No states yet, for patterns with these groups, and so many slots that may be written.
    pub fn new(alloc: Global, group_info: GroupInfo, written_len: usize) -> Builder
        ensures { result ≡ record { states = []; groups = group_info; slots = written_len; accepted = 0 } }
    {
        Builder {
            states: Vec::new(alloc),
            group_info,
            written_len,
            accepted: 0,
        }
    }

    /// The states so far.
    pub fn states(&self) -> &[State]
        ensures value { result.now ≡ self.now.states }
        ensures range { AreInRange self.now }
    {
        &self.states
    }

    /// Appends a state that accepts no pattern, and answers its number.
    pub fn push(&mut self, state: State) -> Result<StateID, Memory>
        requires room { length self.old.states < id_limit }
        requires names { NamesBelow (length self.old.states) state }
        requires within { IsWithin (length self.old.groups) self.old.slots state }
        requires own { WritesOwnSlots self.old.groups state }
        requires sorted { HasSortedTransitions state }
        requires silent { state_accepts state ≡ None }
        ensures id { IfOk result (λ id. id ≡ length self.old.states) }
        ensures states { IfOk result (λ id. self.new ≡ pushed self.old state) }
    {
        let id = StateID::new(self.states.len()).unwrap();
        self.states.push(state)?;
        Ok(id)
    }

    /// Appends the state that accepts this pattern, which none accepts yet, and answers its number.
    pub fn push_match(&mut self, pattern: PatternID) -> Result<StateID, Memory>
        requires room { length self.old.states < id_limit }
        requires there { pattern < length self.old.groups }
        requires new { self.old.accepted ≤ pattern }
        ensures id { IfOk result (λ id. id ≡ length self.old.states) }
        ensures states { IfOk result (λ id. self.new ≡ accepting self.old pattern) }
    {
        let id = StateID::new(self.states.len()).unwrap();
        self.states.push(State::Match { pattern })?;
        self.accepted = pattern.as_usize() + 1;
        Ok(id)
    }

    /// Appends the states of a class, which go on to the state `next`. Answers where they start. Where there was no
    /// memory for a class that is read forwards, no states are left.
    pub fn push_class(
        &mut self,
        alloc: Global,
        backwards: bool,
        class: &Class,
        next: StateID,
    ) -> Result<StateID, Memory>
        requires next { next < length self.old.states }
        requires room { length self.old.states + states_of_class (class_view class.now) ≤ id_limit }
        ensures built { IfOk result (λ start. Built (build_class backwards (class_view class.now)) next self.old self.new start) }
        ensures inside { IfOk result (λ start. start < length self.new.states) }
        ensures count { OnOk result (length self.new.states ≤ length self.old.states + states_of_class (class_view class.now)) }
    {
        match class {
            Class::Unicode(scalars) => self.push_scalars(alloc, backwards, scalars, next),
            Class::Bytes(bytes) => self.push_bytes(alloc, bytes, next),
        }
    }

    fn push_scalars(
        &mut self,
        alloc: Global,
        backwards: bool,
        scalars: &ClassUnicode,
        next: StateID,
    ) -> Result<StateID, Memory>
        requires next { next < length self.old.states }
        requires room { length self.old.states + states_of_class (scalar_ranges scalars.now) ≤ id_limit }
        ensures built { IfOk result (λ start. Built (build_class backwards (scalar_ranges scalars.now)) next self.old self.new start) }
        ensures inside { IfOk result (λ start. start < length self.new.states) }
        ensures count { OnOk result (length self.new.states ≤ length self.old.states + states_of_class (scalar_ranges scalars.now)) }
    {
        let ranges = scalars.ranges();
        if backwards {
            return compile_class_backwards(alloc, self, ranges, next);
        }
        self.push_scalars_forwards(alloc, scalars, next)
    }

    fn push_scalars_forwards(
        &mut self,
        alloc: Global,
        scalars: &ClassUnicode,
        next: StateID,
    ) -> Result<StateID, Memory>
        requires next { next < length self.old.states }
        requires room { length self.old.states + states_of_class (scalar_ranges scalars.now) ≤ id_limit }
        ensures built { IfOk result (λ start. Built (build_state (set (scalar_ranges scalars.now))) next self.old self.new start) }
        ensures inside { IfOk result (λ start. start < length self.new.states) }
        ensures count { OnOk result (length self.new.states ≤ length self.old.states + states_of_class (scalar_ranges scalars.now)) }
        ensures err { OnErr result (self.new ≡ record self.old { states = [] }) }
    {
        let ranges = scalars.ranges();
        let mut states = mem::replace(&mut self.states, Vec::new(alloc));
        let start = compile_class(alloc, &mut states, ranges, next)?;
        self.states = states;
        Ok(start)
    }

    fn push_bytes(
        &mut self,
        alloc: Global,
        bytes: &ClassBytes,
        next: StateID,
    ) -> Result<StateID, Memory>
        requires next { next < length self.old.states }
        requires room { length self.old.states < id_limit }
        ensures built { IfOk result (λ start. Built (build_state (set (byte_ranges bytes.now))) next self.old self.new start) }
        ensures inside { IfOk result (λ start. start < length self.new.states) }
        ensures count { OnOk result (length self.new.states ≡ length self.old.states + 1) }
        ensures err { OnErr result (self.new ≡ record self.old { states = [] }) }
    {
        let mut states = mem::replace(&mut self.states, Vec::new(alloc));
        let start = compile_bytes(alloc, &mut states, bytes.ranges(), next)?;
        self.states = states;
        Ok(start)
    }

    /// Puts another state, which accepts no pattern, in place of the one of this number.
    pub fn patch(&mut self, id: StateID, state: State)
        requires inside { id < length self.old.states }
        requires names { NamesBelow (length self.old.states) state }
        requires within { IsWithin (length self.old.groups) self.old.slots state }
        requires own { WritesOwnSlots self.old.groups state }
        requires sorted { HasSortedTransitions state }
        requires silent { state_accepts state ≡ None }
        ensures { self.new ≡ patched self.old id state }
    {
        self.states[id.as_usize()] = state;
    }

    /// The NFA of these states.
    pub fn finish(
        self,
        alloc: Global,
        start_anchored: StateID,
        starts: Vec<StateID>,
        facts: Facts,
    ) -> Result<NFA, Memory>
        requires start { start_anchored < length self.states }
        requires starts { All (λ q. q < length self.states) starts.items }
        requires patterns { length starts.items ≡ length self.groups }
        requires few { length self.groups ≤ id_limit }
        requires slots { self.slots ≤ slot_count self.groups }
        requires accounted { facts.accounted_states ≤ id_limit }
        ensures value { IfOk result (λ nfa. nfa ≡ record {
          states = self.states;
          start_anchored = start_anchored;
          starts = starts.items;
          slots = slot_count self.groups;
          groups = self.groups;
          utf8 = facts.utf8;
          reverse = facts.reverse;
          terminator = facts.look_matcher;
          looks = nfa.looks;
          classes = nfa.classes;
          always_start_anchored = facts.always_start_anchored;
          has_empty = facts.has_empty;
          accounted = facts.accounted_states;
        }) }
        ensures in_range { IfOk result IsInRange }
        ensures within { OnOk result (All (IsWithin (length self.groups) self.slots) self.states) }
    {
        let slot_len = self.group_info.slot_len();
        let look_set_any = looks_of(&self.states);
        let byte_classes = classes_of(&self.states, facts.look_matcher.get_line_terminator());
        let nfa = NFA::new(
            alloc,
            Inner {
                states: self.states,
                start_anchored,
                starts,
                slot_len,
                group_info: self.group_info,
                utf8: facts.utf8,
                reverse: facts.reverse,
                look_matcher: facts.look_matcher,
                look_set_any,
                byte_classes,
                always_start_anchored: facts.always_start_anchored,
                has_empty: facts.has_empty,
                accounted_states: facts.accounted_states,
            },
        )?;
        Ok(nfa)
    }
}
