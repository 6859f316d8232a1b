//! The PikeVM.
ghost use Rattle.std.specs.Prelude.{◌≡◌, ℕ, ◌<◌, ◌-◌, ◌^◌, min, length, None, replicate, is_some, IfOk, IfNone, IfSome, IsTrue, MatchOption, ◌≤◌, ◌↔◌, true, slice_set, not, option_map};
ghost use Rattle.rx_model.specs.Search.{Patterns, told_of};
ghost use Rattle.rx_search.specs.Input.{next_in};
ghost use Rattle.rx_search.specs.Matches.{match_value};
ghost use Rattle.rx_search.specs.PatternSet.{has};
ghost use Rattle.rx_search.specs.declared.anchored.MatchKind.TheVariants.{All};
ghost use Rattle.rx_search.specs.Sets.{MatchesIn, KeepsMembers, GainsMatching, IsFilledFor};
ghost use Rattle.rx_search.specs.Told.{IsMatchWith, HasSlots, AreWithin, LiesIn, matched_pattern};
ghost use Rattle.rx_nfa.specs.Nfa.{IsNfaOf};
ghost use Rattle.rx_nfa.specs.NextMatch.{next_match_in};
ghost use Rattle.rx_engines.specs.Simulation.{frames_of_states};
ghost use Rattle.rx_engines.specs.Needles.{BeginsEachRun};
ghost use Rattle.rx_engines.specs.Engine.{PikeVMValue, answer_in, Fits, accounted_memory};

use crate::candidates::Candidates;
use crate::pikevm::cache::Cache;
use crate::room::frames_of_all;
use crate::search::Search;
use crate::slots::empty;
use rx_nfa::NFA;
use rx_prefilter::Prefilter;
use rx_search::{Input, Match, MatchKind, Memory, NonMaxUsize, PatternID, PatternSet};
use std::alloc::Global;
use std::marker::Model;

/// An engine that follows all the threads of an NFA at once, place by place, each with its slots. It works for
/// every NFA. By its form, its work is bounded by the places of the span times the transitions; no clause says it.
///
/// A search takes no memory: it writes to a `Cache`, which serves the engine whatever it held before.
#[derive(Drop)]
pub struct PikeVM {
    nfa: NFA,
    kind: MatchKind,
    candidates: Candidates,
    /// The frames that a search may leave on the stack.
    frames: usize,
}

impl Model for PikeVM {
    ghost use Rattle.std.specs.Prelude.{◌≡◌, ◌-◌, ◌^◌, min, length};
    ghost use Rattle.rx_engines.specs.Simulation.{frames_of_states};
    ghost use Rattle.rx_engines.specs.Engine.{PikeVMValue};
    ghost use Rattle.rx_engines.specs.Candidates.{AreOf};

    ghost Value = { PikeVMValue };

    ghost view = { λ v. record { nfa = v.nfa; kind = v.kind; pre = v.candidates.needles } };

    ghost invariant = { λ v. (v.frames ≡ min (2 ^ 64 - 1) (frames_of_states v.nfa.states (length v.nfa.states)))
        × AreOf v.nfa v.candidates };
}

impl PikeVM {
    /// The engine of this NFA, which reports matches of this kind. Whether they may start inside an encoded
    /// character is the NFA's to say.
    pub fn build_from_nfa(nfa: NFA, kind: MatchKind, pre: Option<Prefilter>) -> PikeVM
        ensures { result ≡ record { nfa = nfa; kind = kind; pre = pre } }
    {
        let frames = frames_of_all(nfa.states());
        let candidates = Candidates::of(&nfa, pre);
        PikeVM {
            nfa,
            kind,
            candidates,
            frames,
        }
    }

    /// The NFA.
    pub fn get_nfa(&self) -> &NFA
        ensures { result.now ≡ self.now.nfa }
    {
        &self.nfa
    }

    /// The frames that a search may leave on the stack, or the greatest `usize` where they are more.
    pub(crate) fn frames(&self) -> usize
        ensures { result ≡ min (2 ^ 64 - 1) (frames_of_states self.now.nfa.states (length self.now.nfa.states)) }
    {
        self.frames
    }

    /// A cache that serves this engine.
    pub fn create_cache(&self, alloc: Global) -> Result<Cache, Memory>
        ensures fits { IfOk result (Fits self.now) }
        ensures memory { IfOk result (λ c. c.memory ≡ accounted_memory self.now.nfa) }
    {
        Cache::new(alloc, self)
    }

    /// Whether there is a match in the input's span, under each kind of match. It stops as soon as it knows.
    pub fn is_match(&self, cache: &mut Cache, input: &Input<'_>) -> bool
        requires { Fits self.now cache.old }
        ensures value { BeginsEachRun self.now.pre self.now.nfa input.now
            → result ≡ is_some (next_match_in self.now.nfa input.now) }
        ensures patterns { (r : Patterns) → IsNfaOf self.now.nfa r
            → next_match_in self.now.nfa input.now ≡ option_map (told_of r.which_captures) (next_in r input.now) }
        ensures cache { Fits self.now cache.new }
        ensures memory { cache.new.memory ≡ cache.old.memory }
    {
        let Some(search) = Search::of(&self.nfa, &self.candidates, input) else {
            return false;
        };
        cache.find(&search, true, &mut []).is_some()
    }

    /// Adds patterns that have a match in the input's span to the set, which must have room for all patterns. Under `All`
    /// each pattern that has one is added, under `LeftmostFirst` that of the next match, and with `earliest` that of the
    /// match that `find` answers.
    pub fn which_overlapping_matches(
        &self,
        cache: &mut Cache,
        input: &Input<'_>,
        set: &mut PatternSet,
    )
        requires fits { Fits self.now cache.old }
        requires room { length self.now.nfa.starts ≤ length set.old }
        ensures kept { KeepsMembers set.old set.new }
        ensures matching { (r : Patterns) → IsNfaOf self.now.nfa r → BeginsEachRun self.now.pre self.now.nfa input.now
            → GainsMatching r input.now set.old set.new }
        ensures filled { (r : Patterns) → IsNfaOf self.now.nfa r → BeginsEachRun self.now.pre self.now.nfa input.now
            → IsFilledFor r input.now set.old set.new self.now.kind }
        ensures cache { Fits self.now cache.new }
        ensures memory { cache.new.memory ≡ cache.old.memory }
    {
        if is_for_all(self.kind, input.get_earliest()) {
            self.fill(cache, input, set);
            return;
        }
        // One match tells the rest (DECISIONS: a set is filled by one match under leftmost-first, and with `earliest`).
        let found = self.find(cache, input);
        add(found, set);
    }

    // The searches of the patterns share no state (DECISIONS: under `All` a set is filled pattern by pattern).
    /// Adds each pattern that has a match in the input's span to the set, one after another.
    fn fill(&self, cache: &mut Cache, input: &Input<'_>, set: &mut PatternSet)
        requires fits { Fits self.now cache.old }
        requires room { length self.now.nfa.starts ≤ length set.old }
        ensures kept { KeepsMembers set.old set.new }
        ensures matching { (r : Patterns) → IsNfaOf self.now.nfa r → BeginsEachRun self.now.pre self.now.nfa input.now
            → GainsMatching r input.now set.old set.new }
        ensures each { (r : Patterns) → IsNfaOf self.now.nfa r → BeginsEachRun self.now.pre self.now.nfa input.now
            → (p : ℕ) → MatchesIn r input.now p → has set.new p ≡ true }
        ensures cache { Fits self.now cache.new }
        ensures memory { cache.new.memory ≡ cache.old.memory }
    {
        let count = self.nfa.pattern_len();
        for k in 0..count {
            let pattern = PatternID::new(k).unwrap();
            self.try_pattern(cache, input, pattern, set);
        }
    }

    /// Adds the pattern to the set if it has a match in the input's span.
    fn try_pattern(
        &self,
        cache: &mut Cache,
        input: &Input<'_>,
        pattern: PatternID,
        set: &mut PatternSet,
    )
        requires fits { Fits self.now cache.old }
        requires is_there { pattern < length self.now.nfa.starts }
        requires room { pattern < length set.old }
        ensures kept { KeepsMembers set.old set.new }
        ensures matching { (r : Patterns) → IsNfaOf self.now.nfa r → BeginsEachRun self.now.pre self.now.nfa input.now
            → GainsMatching r input.now set.old set.new }
        ensures tried { (r : Patterns) → IsNfaOf self.now.nfa r → BeginsEachRun self.now.pre self.now.nfa input.now
            → MatchesIn r input.now pattern → has set.new pattern ≡ true }
        ensures cache { Fits self.now cache.new }
        ensures memory { cache.new.memory ≡ cache.old.memory }
    {
        if set.contains(pattern) {
            return;
        }
        if !self.has_match(cache, input, pattern) {
            return;
        }
        set.insert(pattern);
    }

    /// Whether the pattern has a match in the input's span.
    fn has_match(&self, cache: &mut Cache, input: &Input<'_>, pattern: PatternID) -> bool
        requires fits { Fits self.now cache.old }
        requires is_there { pattern < length self.now.nfa.starts }
        ensures value { (r : Patterns) → IsNfaOf self.now.nfa r → BeginsEachRun self.now.pre self.now.nfa input.now
            → IsTrue result ↔ MatchesIn r input.now pattern }
        ensures cache { Fits self.now cache.new }
        ensures memory { cache.new.memory ≡ cache.old.memory }
    {
        let Some(search) = Search::of_pattern(&self.nfa, &self.candidates, input, pattern) else {
            return false;
        };
        cache.find(&search, true, &mut []).is_some()
    }

    /// The next match in the input's span. With `earliest` the search stops at the first place by which a match
    /// ends, and answers the next match up to there. Under `All` it answers the same match as under
    /// `LeftmostFirst`.
    pub fn find(&self, cache: &mut Cache, input: &Input<'_>) -> Option<Match>
        requires { Fits self.now cache.old }
        ensures value { BeginsEachRun self.now.pre self.now.nfa input.now
            → result ≡ option_map match_value (answer_in self.now input.now) }
        ensures any { BeginsEachRun self.now.pre self.now.nfa input.now
            → is_some result ≡ is_some (next_match_in self.now.nfa input.now) }
        ensures patterns { (r : Patterns) → IsNfaOf self.now.nfa r
            → next_match_in self.now.nfa input.now ≡ option_map (told_of r.which_captures) (next_in r input.now) }
        ensures is_match { (r : Patterns) → IsNfaOf self.now.nfa r → BeginsEachRun self.now.pre self.now.nfa input.now
            → IfSome result (λ found. IsMatchWith r input.now (λ m. found ≡ match_value m)) }
        ensures in_range { IfSome result (λ m. m.pattern < length self.now.nfa.starts) }
        ensures within { IfSome result (LiesIn input.now) }
        ensures cache { Fits self.now cache.new }
        ensures memory { cache.new.memory ≡ cache.old.memory }
    {
        self.find_slots(cache, input, &mut [])
    }

    /// The pattern of the match that `find` answers. Each slot gets the place that the match leaves in it, and None
    /// where there is no match or no such slot.
    pub fn search_slots(
        &self,
        cache: &mut Cache,
        input: &Input<'_>,
        slots: &mut [Option<NonMaxUsize>],
    ) -> Option<PatternID>
        requires { Fits self.now cache.old }
        ensures value { BeginsEachRun self.now.pre self.now.nfa input.now
            → result ≡ option_map matched_pattern (answer_in self.now input.now) }
        ensures any { BeginsEachRun self.now.pre self.now.nfa input.now
            → is_some result ≡ is_some (next_match_in self.now.nfa input.now) }
        ensures patterns { (r : Patterns) → IsNfaOf self.now.nfa r
            → next_match_in self.now.nfa input.now ≡ option_map (told_of r.which_captures) (next_in r input.now) }
        ensures is_match { (r : Patterns) → IsNfaOf self.now.nfa r → BeginsEachRun self.now.pre self.now.nfa input.now
            → IfSome result (λ p. IsMatchWith r input.now (λ m. (p ≡ matched_pattern m) × HasSlots slots.new m)) }
        ensures in_range { IfSome result (λ p. p < length self.now.nfa.starts) }
        ensures slots { BeginsEachRun self.now.pre self.now.nfa input.now
            → IfSome (answer_in self.now input.now) (HasSlots slots.new) }
        ensures none { IfNone result (slots.new ≡ replicate (length slots.old) None) }
        ensures slots_within { AreWithin input.now slots.new }
        ensures cache { Fits self.now cache.new }
        ensures memory { cache.new.memory ≡ cache.old.memory }
    {
        match self.find_slots(cache, input, slots) {
            Some(found) => Some(found.pattern()),
            None => None,
        }
    }

    /// As `search_slots`, with the whole match.
    pub fn find_slots(
        &self,
        cache: &mut Cache,
        input: &Input<'_>,
        slots: &mut [Option<NonMaxUsize>],
    ) -> Option<Match>
        requires { Fits self.now cache.old }
        ensures value { BeginsEachRun self.now.pre self.now.nfa input.now
            → result ≡ option_map match_value (answer_in self.now input.now) }
        ensures any { BeginsEachRun self.now.pre self.now.nfa input.now
            → is_some result ≡ is_some (next_match_in self.now.nfa input.now) }
        ensures patterns { (r : Patterns) → IsNfaOf self.now.nfa r
            → next_match_in self.now.nfa input.now ≡ option_map (told_of r.which_captures) (next_in r input.now) }
        ensures is_match { (r : Patterns) → IsNfaOf self.now.nfa r → BeginsEachRun self.now.pre self.now.nfa input.now
            → IfSome result (λ found. IsMatchWith r input.now (λ m. (found ≡ match_value m) × HasSlots slots.new m)) }
        ensures slots { BeginsEachRun self.now.pre self.now.nfa input.now
            → IfSome (answer_in self.now input.now) (HasSlots slots.new) }
        ensures none { IfNone result (slots.new ≡ replicate (length slots.old) None) }
        ensures slots_within { AreWithin input.now slots.new }
        ensures in_range { IfSome result (λ m. m.pattern < length self.now.nfa.starts) }
        ensures within { IfSome result (LiesIn input.now) }
        ensures cache { Fits self.now cache.new }
        ensures memory { cache.new.memory ≡ cache.old.memory }
    {
        let Some(search) = Search::of(&self.nfa, &self.candidates, input) else {
            empty(slots);
            return None;
        };
        cache.find(&search, input.get_earliest(), slots)
    }
}

/// Whether a set gets each pattern that has a match.
fn is_for_all(kind: MatchKind, earliest: bool) -> bool
    ensures { kind ≡ All → result ≡ not earliest }
{
    match kind {
        MatchKind::All => !earliest,
        MatchKind::LeftmostFirst => false,
    }
}

/// Adds the pattern of the match to the set.
fn add(found: Option<Match>, set: &mut PatternSet)
    requires { IfSome found (λ m. m.pattern < length set.old) }
    ensures { MatchOption found (set.new ≡ set.old) (λ m. set.new ≡ slice_set set.old m.pattern true) }
{
    if let Some(found) = found {
        set.insert(found.pattern());
    }
}
