//! What a strategy that searches by candidates asks of this one.
ghost use Rattle.std.specs.Prelude.{◌≡◌, ◌≤◌, ◌<◌, ◌+◌, ◌*◌, false, true, length, None, replicate, IfOk, IfSome, IfNone};
ghost use Rattle.std.specs.Result.{IfErr};
ghost use Rattle.rx_model.specs.Search.{Patterns, is_anchored};
ghost use Rattle.rx_search.specs.Answer.{IsAnswer, AreSlotsOfAnswer, TellsWhether};
ghost use Rattle.rx_search.specs.Input.{IsSpanned, span_len};
ghost use Rattle.rx_search.specs.Matches.{match_value, half_match_value};
ghost use Rattle.rx_search.specs.Promise.{Premises};
ghost use Rattle.rx_search.specs.Told.{AreWithin, LiesIn, HalfLiesIn};
ghost use Rattle.rx_dfa.specs.Search.{IsAnswerFor};
ghost use Rattle.rx_attempts.specs.Candidates.{AreNotEmpty};
ghost use Rattle.rx_attempts.specs.Stops.{StopsBy};
ghost use Rattle.rx_strategy.specs.Attempts.{HasSuffix, HasInner, IsOneNeedle, IsToldBy};
ghost use Rattle.rx_strategy.specs.Cache.{Fits, AccountsAlike};
ghost use Rattle.rx_strategy.specs.Prefix.{dfa_of, are_states, FitsPrefix};
ghost use Rattle.rx_strategy.specs.Strategy.{IsFor, kind_in, pattern_count, prefilter_in, tells_in, has_dfas};
ghost use Rattle.rx_strategy.specs.Strategy.{SuffixFailsFor, InnerFailsFor, CountsSuffix, CountsInner};

use crate::cache::Cache;
use crate::prefix::{PrefixCache, PrefixDfa};
use crate::strategy::Strategy;
use rx_attempts::{Patience, Stop};
use rx_prefilter::Prefilter;
use rx_search::{HalfMatch, Input, Match, NonMaxUsize, Steps};
use std::sync::ledger::Ledger;

impl Strategy {
    /// The next match in the input's span of one expression that ends with this literal, before whose first confirmed candidate no match
    /// starts. The span is searched for the literal, and backwards from where it lies. There are DFAs, and the input is not anchored.
    ///
    /// # Errors
    ///
    /// `Quadratic` where bytes would be read again and again; `Fail` where a DFA quit or gave up; `Memory`; `Dense` where a short patience is
    /// lost.
    pub fn try_reverse_suffix<L: Ledger>(
        &self,
        cache: &mut Cache,
        pre: &Prefilter,
        input: &Input<'_>,
        patience: Patience,
        steps: &mut Steps<L>,
    ) -> Result<Option<Match>, Stop>
        requires fits { Fits self.now cache.old }
        requires there { has_dfas self.now ≡ true }
        requires free { is_anchored input.now.anchor ≡ false }
        requires suffix { IsOneNeedle pre.now }
        ensures answer { (r : Patterns) → Premises (IsFor self.now r) None r input.now → HasSuffix pre.now r
            → IfOk result (IsAnswerFor (kind_in self.now) r input.now match_value) }
        ensures within { IfOk result (λ found. IfSome found (LiesIn input.now)) }
        ensures in_range { IfOk result (λ found. IfSome found (λ m. m.pattern < pattern_count self.now)) }
        ensures err { IfErr result (StopsBy patience (SuffixFailsFor self.now pre.now input.now cache.new)) }
        ensures ticks { input.now.earliest ≡ false → IfOk result (CountsSuffix self.now pre.now input.now steps.old steps.new) }
        ensures few { steps.new ≤ steps.old + 8 * (span_len input.now + 1) }
        ensures cache { Fits self.now cache.new }
        ensures memory { AccountsAlike self.now cache.old cache.new }
    {
        match self {
            Strategy::Core(core) => core.try_reverse_suffix(cache, pre, input, patience, steps),
        }
    }

    /// The next match in the input's span of one expression with one of these literals behind its prefix, before whose first confirmed
    /// candidate no match starts. The span is searched for the literals, backwards from where one lies, and forwards from there. The DFA
    /// reads the prefix backwards. There are DFAs, and the input is not anchored.
    ///
    /// # Errors
    ///
    /// As for `try_reverse_suffix`.
    pub fn try_reverse_inner<L: Ledger>(
        &self,
        cache: &mut Cache,
        pre: &Prefilter,
        prefix: &PrefixDfa,
        states: &mut PrefixCache,
        input: &Input<'_>,
        patience: Patience,
        steps: &mut Steps<L>,
    ) -> Result<Option<Match>, Stop>
        requires fits { Fits self.now cache.old }
        requires states_fit { FitsPrefix prefix.now states.old }
        requires there { has_dfas self.now ≡ true }
        requires free { is_anchored input.now.anchor ≡ false }
        requires needles { AreNotEmpty pre.now }
        ensures answer { (r : Patterns) → Premises (IsFor self.now r) None r input.now → HasInner (dfa_of prefix.now) pre.now r
            → IfOk result (IsAnswerFor (kind_in self.now) r input.now match_value) }
        ensures within { IfOk result (λ found. IfSome found (LiesIn input.now)) }
        ensures in_range { IfOk result (λ found. IfSome found (λ m. m.pattern < pattern_count self.now)) }
        ensures err { IfErr result (StopsBy patience (InnerFailsFor self.now prefix.now pre.now input.now cache.new states.new)) }
        ensures ticks { input.now.earliest ≡ false → IfOk result (CountsInner self.now prefix.now pre.now input.now steps.old steps.new) }
        ensures few { steps.new ≤ steps.old + 8 * (span_len input.now + 1) }
        ensures cache { Fits self.now cache.new }
        ensures states_fit { FitsPrefix prefix.now states.new }
        ensures states_same { are_states prefix.now ≡ false → states.new ≡ states.old }
        ensures memory { AccountsAlike self.now cache.old cache.new }
    {
        match self {
            Strategy::Core(core) => core.try_reverse_inner(
                cache, pre, prefix, states, input, patience, steps,
            ),
        }
    }

    /// The pattern and the end of the next match, by an engine that always answers, where matches are told.
    pub fn search_half_nofail(&self, cache: &mut Cache, input: &Input<'_>) -> Option<HalfMatch>
        requires fits { Fits self.now cache.old }
        requires spanned { IsSpanned input.now }
        requires told { tells_in self.now ≡ true }
        ensures answer { IsAnswer (IsFor self.now) (prefilter_in self.now) (kind_in self.now) input.now half_match_value result }
        ensures within { IfSome result (HalfLiesIn input.now) }
        ensures in_range { IfSome result (λ half. half.pattern < pattern_count self.now) }
        ensures cache { Fits self.now cache.new }
        ensures memory { AccountsAlike self.now cache.old cache.new }
    {
        match self {
            Strategy::Core(core) => core.search_half_nofail(cache, input),
        }
    }

    /// The next match with its slots, by an engine that always answers, where matches are told.
    pub fn search_slots_nofail(
        &self,
        cache: &mut Cache,
        input: &Input<'_>,
        slots: &mut [Option<NonMaxUsize>],
    ) -> Option<Match>
        requires fits { Fits self.now cache.old }
        requires spanned { IsSpanned input.now }
        requires told { tells_in self.now ≡ true }
        ensures answer { IsAnswer (IsFor self.now) (prefilter_in self.now) (kind_in self.now) input.now match_value result }
        ensures slots { AreSlotsOfAnswer (IsFor self.now) (prefilter_in self.now) (kind_in self.now) input.now match_value slots.new result }
        ensures within { IfSome result (LiesIn input.now) }
        ensures in_range { IfSome result (λ m. m.pattern < pattern_count self.now) }
        ensures none { IfNone result (slots.new ≡ replicate (length slots.old) None) }
        ensures slots_within { AreWithin input.now slots.new }
        ensures cache { Fits self.now cache.new }
        ensures memory { AccountsAlike self.now cache.old cache.new }
    {
        match self {
            Strategy::Core(core) => core.search_slots_nofail(cache, input, slots),
        }
    }

    /// Whether there is a match, by an engine that always answers.
    pub fn is_match_nofail(&self, cache: &mut Cache, input: &Input<'_>) -> bool
        requires fits { Fits self.now cache.old }
        requires spanned { IsSpanned input.now }
        ensures value { TellsWhether (IsFor self.now) (prefilter_in self.now) input.now result }
        ensures cache { Fits self.now cache.new }
        ensures memory { AccountsAlike self.now cache.old cache.new }
    {
        match self {
            Strategy::Core(core) => core.is_match_nofail(cache, input),
        }
    }

    /// The match that was found, with its slots, where matches are told. Of the patterns for which it is the answer, the slots are those of
    /// the answer.
    pub fn tell_found(
        &self,
        cache: &mut Cache,
        input: &Input<'_>,
        found: Option<Match>,
        slots: &mut [Option<NonMaxUsize>],
    ) -> Option<Match>
        requires fits { Fits self.now cache.old }
        requires spanned { IsSpanned input.now }
        requires told { tells_in self.now ≡ true }
        requires lies { IfSome found (LiesIn input.now) }
        requires in_range { IfSome found (λ m. m.pattern < pattern_count self.now) }
        ensures answer { IsAnswer (λ r. IsToldBy (IsFor self.now r) (kind_in self.now) r input.now found) (prefilter_in self.now) (kind_in self.now) input.now
            match_value result }
        ensures slots { AreSlotsOfAnswer (λ r. IsToldBy (IsFor self.now r) (kind_in self.now) r input.now found) (prefilter_in self.now) (kind_in self.now)
            input.now match_value slots.new result }
        ensures within { IfSome result (LiesIn input.now) }
        ensures in_range { IfSome result (λ m. m.pattern < pattern_count self.now) }
        ensures none { IfNone result (slots.new ≡ replicate (length slots.old) None) }
        ensures slots_within { AreWithin input.now slots.new }
        ensures cache { Fits self.now cache.new }
        ensures memory { AccountsAlike self.now cache.old cache.new }
    {
        match self {
            Strategy::Core(core) => core.tell_found(cache, input, found, slots),
        }
    }
}
