//! The searches of a one-pass DFA.
ghost use Rattle.std.specs.Prelude.{◌≡◌, ◌<◌, ℕ, true, length, replicate, is_some, None, IfOk, IfErr, OnOk, OnErr, IfSome, option_map};
ghost use Rattle.rx_model.specs.Search.{anchored_to};
ghost use Rattle.rx_search.specs.Anchored.{anchor_of};
ghost use Rattle.rx_search.specs.Told.{LiesIn};
ghost use Rattle.rx_onepass.specs.Dfa.{Fits};
ghost use Rattle.rx_onepass.specs.Search.{run_in, match_from, IsFound, IsTold, IsRefusal, IsUnsupported, taken_as};
ghost use Rattle.rx_onepass_build.specs.Config.{each_of};

use crate::cache::Cache;
use crate::dfa::DFA;
use crate::walk::empty;
use rx_search::{Anchored, Captures, Input, Match, MatchError, NonMaxUsize, PatternID};

impl DFA {
    /// Whether there is a match that starts where the input's span does. An input that is not anchored is taken as one that is.
    /// It stops at the first match that it meets.
    ///
    /// An input that is anchored to a pattern asks for an automaton with starts for each pattern.
    pub fn is_match(&self, cache: &mut Cache, input: &Input<'_>) -> bool
        requires fits { Fits self.now.nfa cache.old }
        requires each { (p : ℕ) → input.now.anchor ≡ anchored_to p → each_of self.now.config ≡ true }
        ensures value { result ≡ is_some (run_in self.now input.now) }
        ensures cache { cache.new ≡ cache.old }
    {
        if input.is_done() {
            return false;
        }
        match self.start_row(taken(input.get_anchored())) {
            Ok(start) => self.meets_at(cache, input, start),
            Err(_) => false,
        }
    }

    /// The match that starts where the input's span does. An input that is not anchored is taken as one that is.
    ///
    /// An input that is anchored to a pattern asks for an automaton with starts for each pattern.
    pub fn find(&self, cache: &mut Cache, input: &Input<'_>) -> Option<Match>
        requires fits { Fits self.now.nfa cache.old }
        requires each { (p : ℕ) → input.now.anchor ≡ anchored_to p → each_of self.now.config ≡ true }
        ensures value { result ≡ option_map (match_from input.now.start) (run_in self.now input.now) }
        ensures within { IfSome result (LiesIn input.now) }
        ensures cache { cache.new ≡ cache.old }
    {
        match self.try_find_slots(cache, &anchored(input), &mut []) {
            Ok(found) => found,
            Err(_) => None,
        }
    }

    /// Puts the match that starts where the input's span does into the captures, with its slots; where there is none, they have no
    /// pattern, and no slot has a place. An input that is not anchored is taken as one that is.
    ///
    /// An input that is anchored to a pattern asks for an automaton with starts for each pattern.
    pub fn captures(&self, cache: &mut Cache, input: &Input<'_>, captures: &mut Captures)
        requires fits { Fits self.now.nfa cache.old }
        requires each { (p : ℕ) → input.now.anchor ≡ anchored_to p → each_of self.now.config ≡ true }
        requires groups { captures.old.groups ≡ self.now.nfa.groups }
        ensures told { IsTold self.now input.now captures.new.pattern captures.new.slots }
        ensures groups { captures.new.groups ≡ captures.old.groups }
        ensures room { length captures.new.slots ≡ length captures.old.slots }
        ensures cache { cache.new ≡ cache.old }
    {
        captures.set_pattern(None);
        match self.try_search_slots(cache, &anchored(input), captures.slots_mut()) {
            Ok(pattern) => captures.set_pattern(pattern),
            Err(_) => {}
        }
    }

    /// As `captures`, or the error: no input is taken as another one. After an error the captures have no pattern, and no slot has
    /// a place.
    ///
    /// # Errors
    ///
    /// As by `try_search_slots`.
    pub fn try_search(
        &self,
        cache: &mut Cache,
        input: &Input<'_>,
        captures: &mut Captures,
    ) -> Result<(), MatchError>
        requires fits { Fits self.now.nfa cache.old }
        requires groups { captures.old.groups ≡ self.now.nfa.groups }
        ensures told { OnOk result (IsTold self.now input.now captures.new.pattern captures.new.slots) }
        ensures served { OnOk result (IsUnsupported self.now input.now.anchor → input.now.end < input.now.start) }
        ensures err { IfErr result (IsRefusal self.now input.now) }
        ensures refused { OnErr result (captures.new.pattern ≡ None) }
        ensures emptied { OnErr result (captures.new.slots ≡ replicate (length captures.new.slots) None) }
        ensures groups { captures.new.groups ≡ captures.old.groups }
        ensures room { length captures.new.slots ≡ length captures.old.slots }
        ensures cache { cache.new ≡ cache.old }
    {
        captures.set_pattern(None);
        match self.try_search_slots(cache, input, captures.slots_mut()) {
            Ok(pattern) => {
                captures.set_pattern(pattern);
                Ok(())
            }
            Err(error) => Err(error),
        }
    }

    /// The pattern of the match that starts where the input's span does: under `LeftmostFirst` the next match, and under `All` that
    /// of the farthest end. Each slot gets the place that the match leaves in it, and None where there is no match, no such slot
    /// or an error. It does not stop early, whether any match will do or not.
    ///
    /// A pattern that is not there has no match. The search takes no memory.
    ///
    /// # Errors
    ///
    /// `UnsupportedAnchored` exactly where the span has a place left, and the input is not anchored while a match may start behind
    /// the haystack's start, or it is anchored to a pattern and there are no starts for each pattern.
    pub fn try_search_slots(
        &self,
        cache: &mut Cache,
        input: &Input<'_>,
        slots: &mut [Option<NonMaxUsize>],
    ) -> Result<Option<PatternID>, MatchError>
        requires fits { Fits self.now.nfa cache.old }
        ensures told { IfOk result (λ pattern. IsTold self.now input.now pattern slots.new) }
        ensures served { OnOk result (IsUnsupported self.now input.now.anchor → input.now.end < input.now.start) }
        ensures err { IfErr result (IsRefusal self.now input.now) }
        ensures refused { OnErr result (slots.new ≡ replicate (length slots.old) None) }
        ensures room { length slots.new ≡ length slots.old }
        ensures cache { cache.new ≡ cache.old }
    {
        match self.try_find_slots(cache, input, slots) {
            Ok(Some(found)) => Ok(Some(found.pattern())),
            Ok(None) => Ok(None),
            Err(error) => Err(error),
        }
    }

    /// As `try_search_slots`, with the whole match.
    ///
    /// # Errors
    ///
    /// As by `try_search_slots`.
    pub fn try_find_slots(
        &self,
        cache: &mut Cache,
        input: &Input<'_>,
        slots: &mut [Option<NonMaxUsize>],
    ) -> Result<Option<Match>, MatchError>
        requires fits { Fits self.now.nfa cache.old }
        ensures found { IfOk result (λ found. IsFound self.now input.now found slots.new) }
        ensures served { OnOk result (IsUnsupported self.now input.now.anchor → input.now.end < input.now.start) }
        ensures err { IfErr result (IsRefusal self.now input.now) }
        ensures refused { OnErr result (slots.new ≡ replicate (length slots.old) None) }
        ensures room { length slots.new ≡ length slots.old }
        ensures cache { cache.new ≡ cache.old }
    {
        empty(slots);
        if input.is_done() {
            return Ok(None);
        }
        match self.start_row(input.get_anchored()) {
            Ok(start) => Ok(self.find_at(cache, input, start, slots)),
            Err(error) => Err(error),
        }
    }
}

/// The mode, anchored where it is not.
fn taken(mode: Anchored) -> Anchored
    ensures { anchor_of result ≡ taken_as (anchor_of mode) }
{
    match mode {
        Anchored::No => Anchored::Yes,
        Anchored::Yes => Anchored::Yes,
        Anchored::Pattern(pattern) => Anchored::Pattern(pattern),
    }
}

/// The input, anchored where it is not.
fn anchored<'h>(input: &Input<'h>) -> Input<'h>
    ensures { result ≡ record input.now { anchor = taken_as input.now.anchor } }
{
    let mut input = input.clone();
    input.set_anchored(taken(input.get_anchored()));
    input
}
