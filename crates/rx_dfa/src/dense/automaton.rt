//! The full DFA as the searches see it.
ghost use Rattle.std.specs.Prelude.{◌≡◌, ◌==◌, ◌<◌, ℕ, Option, true, IfOk, OnOk, slice_get};
ghost use Rattle.std.specs.Result.{IfErr};
ghost use Rattle.rx_search.specs.Anchored.{anchor_of};
ghost use Rattle.rx_determinize.specs.Key.{start_key};
ghost use Rattle.rx_dfa.specs.Automaton.{first_key, IsReadable, IsSound, StartFails};
ghost use Rattle.rx_dfa.specs.Table.{Holds, quit, context_count, context};

use crate::automaton::Automaton;
use crate::dense::Dense;
use crate::dense::numbers::QUIT;
use crate::dense::starts::mode_of;
use crate::search::parts::{byte_after, byte_before, place_before};
use crate::step_error::StepError;
use rx_search::{Anchored, Input, MatchError, MatchKind, PatternID, StateID, Steps};
use std::sync::ledger::Ledger;

impl Automaton for Dense {
    ghost use Rattle.rx_dfa.specs.Table.{Holds};

    type Cache = ();

    ghost dfa = { λ d. d.dfa };

    ghost fits = { λ d cache. Unit {0} };

    ghost holds = { λ d cache state k. Holds d state k };

    ghost gives_up = { λ d cache. ⊥ };

    ghost wants = { λ d. ⊥ };

    fn start_forward(&self, _cache: &mut (), input: &Input<'_>) -> Result<StateID, MatchError> {
        let start = input.start();
        let before = byte_before(input.haystack(), start);
        let place = place_before(start);
        self.start_beside(input.get_anchored(), before, place)
    }

    fn start_reverse(&self, _cache: &mut (), input: &Input<'_>) -> Result<StateID, MatchError> {
        let end = input.end();
        let after = byte_after(input.haystack(), end);
        self.start_beside(input.get_anchored(), after, end)
    }

    #[inline(always)]
    fn next_state<L: Ledger>(
        &self,
        _cache: &mut (),
        state: StateID,
        byte: u8,
        steps: &mut Steps<L>,
    ) -> Result<StateID, StepError> {
        steps.tick();
        let class = self.alphabet.classes.get(byte) as usize;
        let next = self.table[state.as_usize() + class];
        if next < self.dead {
            return Ok(next);
        }
        if is_quit(next) {
            return Err(StepError::Quit { byte });
        }
        Ok(next)
    }

    fn next_eoi<L: Ledger>(
        &self,
        _cache: &mut (),
        state: StateID,
        steps: &mut Steps<L>,
    ) -> Result<StateID, StepError> {
        steps.tick();
        Ok(self.table[state.as_usize() + self.alphabet.bytes.len()])
    }

    #[inline(always)]
    fn is_match(&self, _cache: &(), state: StateID) -> bool {
        self.dead < state
    }

    #[inline(always)]
    fn is_dead(&self, _cache: &(), state: StateID) -> bool {
        state == self.dead
    }

    #[inline(always)]
    fn is_special(&self, _cache: &(), state: StateID) -> bool {
        !(state < self.dead)
    }

    fn is_start(&self, _cache: &(), state: StateID) -> bool {
        // The dead state stands for many keys.
        if state == self.dead {
            return false;
        }
        self.begins_at(state)
    }

    fn match_pattern(&self, _cache: &(), state: StateID, index: usize) -> Option<PatternID> {
        if state < self.dead {
            return None;
        }
        let row = (state.as_usize() - self.dead.as_usize()) >> self.stride2;
        let patterns = &self.matches[row];
        pattern_at(patterns.as_slice(), index)
    }

    fn match_kind(&self) -> MatchKind {
        self.kind
    }

    fn is_utf8(&self) -> bool {
        self.nfa.is_utf8()
    }
}

/// Whether the automaton quits there. It is a call of its own, so that a search compares a number once a byte.
#[inline(never)]
fn is_quit(state: StateID) -> bool
    ensures { result ≡ (state == quit) }
{
    state == QUIT
}

/// The pattern of this index, if there is one.
fn pattern_at(patterns: &[PatternID], index: usize) -> Option<PatternID>
    ensures { result ≡ slice_get patterns.now index }
{
    patterns.get(index).copied()
}

impl Dense {
    /// The state at a start of this mode, where this byte stands beside it, at this place.
    fn start_beside(
        &self,
        mode: Anchored,
        beside: Option<u8>,
        place: usize,
    ) -> Result<StateID, MatchError>
        ensures start { IfOk result (λ state. Holds self.now state (first_key self.now.dfa (anchor_of mode) beside)) }
        ensures readable { OnOk result (IsReadable self.now.dfa.nfa beside) }
        ensures err { (at : ℕ) → IfErr result (StartFails self.now.dfa.nfa beside place at ⊥ ⊥) }
        ensures sound { IsSound self.now.dfa }
    {
        if let Some(byte) = self.alphabet.unread(beside) {
            return Err(MatchError::Quit {
                byte,
                offset: place,
            });
        }
        Ok(self.start_of(mode, beside))
    }

    /// The state at a start of this mode, where this byte stands beside it, which is read.
    fn start_of(&self, mode: Anchored, beside: Option<u8>) -> StateID
        requires { IsReadable self.now.dfa.nfa beside }
        ensures { Holds self.now result (first_key self.now.dfa (anchor_of mode) beside) }
    {
        let class = self.alphabet.context_of(beside);
        let index = mode_of(mode) * self.alphabet.contexts() + class;
        match self.starts.get(index) {
            Some(state) => *state,
            None => self.dead,
        }
    }

    /// Whether a search that is not anchored starts at this state, whatever stands beside that place.
    fn begins_at(&self, state: StateID) -> bool
        ensures { result ≡ true → (beside : Option ℕ) × Holds self.now state
            (start_key self.now.dfa.kind self.now.dfa.nfa.states self.now.dfa.nfa.start_anchored true beside) }
    {
        for class in 0..self.alphabet.contexts() {
            if self.is_begun(class, state) {
                return true;
            }
        }
        false
    }

    /// Whether it is the state at which a search that is not anchored starts, where what stands beside that place is of this
    /// class, and is read.
    fn is_begun(&self, class: usize, state: StateID) -> bool
        requires { class < context_count self.now.dfa.keeps self.now.dfa.bytes }
        ensures { result ≡ true → Holds self.now state (start_key self.now.dfa.kind self.now.dfa.nfa.states self.now.dfa.nfa.start_anchored true
            (context self.now.dfa.keeps self.now.dfa.bytes class)) }
    {
        // These starts stand before those of the other modes.
        if self.starts[class] != state {
            return false;
        }
        if let Some(_) = self.alphabet.unread(self.alphabet.context(class)) {
            return false;
        }
        true
    }
}
