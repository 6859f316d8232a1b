//! DFAs, as the searches see them.
ghost use Rattle.std.specs.Prelude.{◌≡◌, ◌+◌, ◌-◌, ℕ, [], Bool, true, false, not, Option, Some, None, IfOk, OnOk, slice_get};
ghost use Rattle.std.specs.Result.{IfErr};
ghost use Rattle.rx_model.specs.Look.{byte_before, byte_after};
ghost use Rattle.rx_determinize.specs.Key.{Key, is_empty, is_dead};
ghost use Rattle.rx_dfa.specs.Automaton.{Dfa, IsSound, IsStartKey, first_key, next_key, last_key, IsReadable, StepFails, StartFails};

use crate::step_error::StepError;
use rx_search::{Input, MatchError, MatchKind, PatternID, StateID, Steps};
use std::sync::ledger::Ledger;

/// A DFA of an NFA: full or lazy.
///
/// Its states stand for keys, as `rx_determinize` has them: what the NFA is in after a start and a list of bytes. A match is
/// told one byte late, by the state after the byte behind it, or after the end of input. A state is good for a call where the
/// automaton or its cache holds it: as what the last `start_` or `next_` call with this cache answered. Another such call may
/// let it go.
pub trait Automaton {
    /// What a search writes to.
    type Cache;

    /// The NFA that it was made of, and what it keeps of the last byte.
    ghost dfa: { Self → Dfa };

    /// The cache serves the automaton.
    ghost fits: { Self → Self.Cache → Type 0 };

    /// The automaton and its cache hold the state of this number, and it stands for this key.
    ghost holds: { Self → Self.Cache → ℕ → Key → Type 0 };

    /// What must hold of the automaton and its cache after it gave up.
    ghost gives_up: { Self → Self.Cache → Type 0 };

    /// What must hold of the automaton where it wants memory.
    ghost wants: { Self → Type 0 };

    /// The state at the start of the input's span, for its mode, by the byte before the span. Where the pattern that is asked
    /// for is not there, it is a dead one.
    ///
    /// # Errors
    ///
    /// `Quit` with the byte before the span and its place, where the NFA asks for words of Unicode and the byte is above 7F;
    /// `GaveUp` and `Memory` for the automaton's own reasons.
    fn start_forward(
        &self,
        cache: &mut Self::Cache,
        input: &Input<'_>,
    ) -> Result<StateID, MatchError>
        requires { fits self.now cache.old }
        ensures sound { IsSound (dfa self.now) }
        ensures start { IfOk result (λ state. holds self.now cache.new state
            (first_key (dfa self.now) input.now.anchor (byte_before input.now.haystack input.now.start))) }
        ensures readable { OnOk result (IsReadable (dfa self.now).nfa (byte_before input.now.haystack input.now.start)) }
        ensures err { IfErr result (StartFails (dfa self.now).nfa (byte_before input.now.haystack input.now.start) (input.now.start - 1)
            input.now.start (gives_up self.now cache.new) (wants self.now)) }
        ensures fits { fits self.now cache.new };

    /// The state at the end of the input's span, for its mode, by the byte behind the span. Where the pattern that is asked
    /// for is not there, it is a dead one.
    ///
    /// # Errors
    ///
    /// `Quit` with the byte behind the span and its place, where the NFA asks for words of Unicode and the byte is above 7F;
    /// `GaveUp` and `Memory` for the automaton's own reasons.
    fn start_reverse(
        &self,
        cache: &mut Self::Cache,
        input: &Input<'_>,
    ) -> Result<StateID, MatchError>
        requires { fits self.now cache.old }
        ensures sound { IsSound (dfa self.now) }
        ensures start { IfOk result (λ state. holds self.now cache.new state
            (first_key (dfa self.now) input.now.anchor (byte_after input.now.haystack input.now.end))) }
        ensures readable { OnOk result (IsReadable (dfa self.now).nfa (byte_after input.now.haystack input.now.end)) }
        ensures err { IfErr result (StartFails (dfa self.now).nfa (byte_after input.now.haystack input.now.end) input.now.end
            input.now.end (gives_up self.now cache.new) (wants self.now)) }
        ensures fits { fits self.now cache.new };

    /// The state after this byte. Each call counts one step, also one with an error.
    ///
    /// # Errors
    ///
    /// `Quit` with the byte, where the NFA asks for words of Unicode and the byte is above 7F; `GaveUp` and `Memory` for the
    /// automaton's own reasons.
    fn next_state<L: Ledger>(
        &self,
        cache: &mut Self::Cache,
        state: StateID,
        byte: u8,
        steps: &mut Steps<L>,
    ) -> Result<StateID, StepError>
        requires fits { fits self.now cache.old }
        requires held { (key : Key) × holds self.now cache.old state key }
        ensures next { (key : Key) → holds self.now cache.old state key
            → IfOk result (λ next. holds self.now cache.new next (next_key (dfa self.now) key byte)) }
        ensures readable { (key : Key) → holds self.now cache.old state key → is_dead key ≡ false
            → OnOk result (IsReadable (dfa self.now).nfa (Some byte)) }
        ensures err { IfErr result (StepFails (dfa self.now).nfa (Some byte) (gives_up self.now cache.new) (wants self.now)) }
        ensures ticks { steps.new ≡ steps.old + 1 }
        ensures fits { fits self.now cache.new };

    /// The state after the end of input, where the text ends. Each call counts one step, also one with an error.
    ///
    /// # Errors
    ///
    /// `GaveUp` and `Memory` for the automaton's own reasons.
    fn next_eoi<L: Ledger>(
        &self,
        cache: &mut Self::Cache,
        state: StateID,
        steps: &mut Steps<L>,
    ) -> Result<StateID, StepError>
        requires fits { fits self.now cache.old }
        requires held { (key : Key) × holds self.now cache.old state key }
        ensures next { (key : Key) → holds self.now cache.old state key
            → IfOk result (λ next. holds self.now cache.new next (last_key (dfa self.now) key)) }
        ensures err { IfErr result (StepFails (dfa self.now).nfa None (gives_up self.now cache.new) (wants self.now)) }
        ensures ticks { steps.new ≡ steps.old + 1 }
        ensures fits { fits self.now cache.new };

    /// Whether a pattern matches at the place before the last byte, or at the end after the end of input.
    fn is_match(&self, cache: &Self::Cache, state: StateID) -> bool
        requires { (key : Key) × holds self.now cache.now state key }
        ensures { (key : Key) → holds self.now cache.now state key → result ≡ not (is_empty key.matches) };

    /// Whether neither a state of the NFA is left, nor the loop that begins a run at each later place, nor a match.
    fn is_dead(&self, cache: &Self::Cache, state: StateID) -> bool
        requires { (key : Key) × holds self.now cache.now state key }
        ensures { (key : Key) → holds self.now cache.now state key → result ≡ is_dead key };

    /// Whether the state may be one of a match, or dead. Where the answer is no, it is neither, so that a search goes on at once.
    fn is_special(&self, cache: &Self::Cache, state: StateID) -> bool
        requires { (key : Key) × holds self.now cache.now state key }
        ensures live { (key : Key) → holds self.now cache.now state key → result ≡ false → is_dead key ≡ false }
        ensures no_match { (key : Key) → holds self.now cache.now state key → result ≡ false → key.matches ≡ [] };

    /// Whether the state is one at which a search that is not anchored starts, so that the search may begin anew there. The answer may be
    /// no also where it is such a state.
    fn is_start(&self, cache: &Self::Cache, state: StateID) -> bool
        requires fits { fits self.now cache.now }
        requires held { (key : Key) × holds self.now cache.now state key }
        ensures { (key : Key) → holds self.now cache.now state key → result ≡ true → IsStartKey (dfa self.now) key };

    /// The pattern of this index among those that match there: the preferred one, or under `All` each of them, ascending. None
    /// past the last.
    fn match_pattern(&self, cache: &Self::Cache, state: StateID, index: usize) -> Option<PatternID>
        requires { (key : Key) × holds self.now cache.now state key }
        ensures { (key : Key) → holds self.now cache.now state key → result ≡ slice_get key.matches index };

    /// Which matches it tells.
    fn match_kind(&self) -> MatchKind
        ensures { result ≡ (dfa self.now).kind };

    /// Whether no match is to start inside an encoded character, as the NFA has it.
    fn is_utf8(&self) -> bool
        ensures value { result ≡ (dfa self.now).nfa.utf8 }
        ensures sound { IsSound (dfa self.now) };
}
