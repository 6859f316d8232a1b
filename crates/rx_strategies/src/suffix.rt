//! The strategy that searches for the literal at the end of each match.
ghost use Rattle.std.specs.Prelude.{◌≡◌, ◌≤◌, ◌<◌, ◌+◌, ◌*◌, ◌∷◌, [], false, length, Some, None, replicate, IfOk, IfSome, IfNone, OnErr, IsOk};
ghost use Rattle.std.specs.Result.{IfErr};
ghost use Rattle.rx_model.specs.Search.{Patterns, is_anchored};
ghost use Rattle.rx_search.specs.Answer.{IsAnswer, AreSlotsOfAnswer, TellsWhether};
ghost use Rattle.rx_search.specs.Input.{span_len};
ghost use Rattle.rx_search.specs.Matches.{match_value, half_match_value};
ghost use Rattle.rx_search.specs.Promise.{Premises};
ghost use Rattle.rx_search.specs.Told.{AreWithin, LiesIn, HalfLiesIn};
ghost use Rattle.rx_dfa.specs.Search.{IsAnswerFor};
ghost use Rattle.rx_attempts.specs.Stops.{StopsBy};
ghost use Rattle.rx_strategy.specs.Cache.{Fits, AccountsAlike};
ghost use Rattle.rx_strategy.specs.Impossible.{IsKnownImpossible};
ghost use Rattle.rx_strategy.specs.Strategy.{IsMadeOf, kind_in, pattern_count, prefilter_in, properties_of, SuffixFailsFor, CountsSuffix};
ghost use Rattle.rx_strategies.specs.Attempts.{IsSuffixFor, IsSuffixTried, IsSuffixFound, IsOrderedSearch};

use crate::attempts::{half_after, may_attempt, slots_after, tells_free, whether_after};
use rx_attempts::{Patience, Stop};
use rx_hir::Hir;
use rx_literal::{longest_common_suffix, suffixes};
use rx_order::suffix_has_no_earlier_match;
use rx_prefilter::Prefilter;
use rx_search::{HalfMatch, Input, Match, MatchKind, Memory, NonMaxUsize, Steps};
use rx_strategy::{Cache, Config, Strategy};
use std::alloc::Global;
use std::marker::{Brand, Model};
use std::mem::drop;
use std::sync::ledger::{Blank, Ledger};

/// A search for one expression by a literal that ends each of its matches: the span is searched for the literal, backwards from where it
/// lies, and forwards from the start that is so found. No match starts earlier than the first one that is confirmed so. Where the search
/// is anchored, bytes would be read again and again, or such places lie close together, the core is asked, and its engines alone where a
/// DFA has no answer.
#[derive(Drop)]
pub struct ReverseSuffix {
    core: Strategy,
    pre: Prefilter,
}

impl Model for ReverseSuffix {
    ghost use Rattle.rx_strategies.specs.Attempts.{SuffixValue, IsBySuffix};

    ghost Value = { SuffixValue };

    ghost view = { λ s. record { core = s.core; needles = s.pre } };

    ghost invariant = { λ s. IsBySuffix s.core s.pre };
}

impl ReverseSuffix {
    /// The search by the literal that ends each match, where the only expression is searched so under the configuration. Else it gives the
    /// core back, which is the expressions'.
    ///
    /// # Errors
    ///
    /// `Memory`, where there was no memory for the literals, or the search for one.
    pub fn new(
        alloc: Global,
        config: &Config,
        exprs: &[Hir],
        core: Strategy,
    ) -> Result<Result<ReverseSuffix, Strategy>, Memory>
        requires { IsMadeOf config.now exprs.now core }
        ensures { IfOk result (IsSuffixTried config.now exprs.now core) }
    {
        if !may_attempt(config, &core) {
            return Ok(Err(core));
        }
        match suffix_search(alloc, exprs) {
            Ok(Some(pre)) => Ok(Ok(ReverseSuffix { core, pre })),
            Ok(None) => Ok(Err(core)),
            Err(error) => {
                // By a call (DECISIONS: large values are let go by name).
                drop(core);
                Err(error)
            }
        }
    }

    /// The core.
    pub fn core(&self) -> &Strategy
        ensures { result.now ≡ self.now.core }
    {
        &self.core
    }

    /// The search for the literal.
    pub fn prefilter(&self) -> &Prefilter
        ensures { result.now ≡ self.now.needles }
    {
        &self.pre
    }

    /// The next match in the input's span, by an attempt; or why it has no answer. The input is not anchored. With `earliest` it is some
    /// match, where there is one.
    ///
    /// # Errors
    ///
    /// `Quadratic` where bytes would be read again and again; `Fail` where a DFA quit or gave up; `Memory`; `Dense` where a short patience is
    /// lost.
    pub fn try_search<L: Ledger>(
        &self,
        cache: &mut Cache,
        input: &Input<'_>,
        patience: Patience,
        steps: &mut Steps<L>,
    ) -> Result<Option<Match>, Stop>
        requires fits { Fits self.now.core cache.old }
        requires free { is_anchored input.now.anchor ≡ false }
        ensures answer { (r : Patterns) → Premises (IsSuffixFor self.now r) None r input.now
            → IfOk result (IsAnswerFor (kind_in self.now.core) r input.now match_value) }
        ensures within { IfOk result (λ found. IfSome found (LiesIn input.now)) }
        ensures in_range { IfOk result (λ found. IfSome found (λ m. m.pattern < pattern_count self.now.core)) }
        ensures err { IfErr result (StopsBy patience (SuffixFailsFor self.now.core self.now.needles input.now cache.new)) }
        ensures ticks { input.now.earliest ≡ false → IfOk result (CountsSuffix self.now.core self.now.needles input.now steps.old steps.new) }
        ensures few { steps.new ≤ steps.old + 8 * (span_len input.now + 1) }
        ensures cache { Fits self.now.core cache.new }
        ensures memory { AccountsAlike self.now.core cache.old cache.new }
    {
        self.core
            .try_reverse_suffix(cache, &self.pre, input, patience, steps)
    }

    /// The end of the next match in the input's span, with its pattern, where matches are told.
    ///
    /// `Memory`: there was no memory for the search.
    pub fn search_half(
        &self,
        cache: &mut Cache,
        input: &Input<'_>,
    ) -> Result<Option<HalfMatch>, Memory>
        requires { Fits self.now.core cache.old }
        ensures answer { IfOk result (IsAnswer (IsSuffixFor self.now) (prefilter_in self.now.core) (kind_in self.now.core) input.now half_match_value) }
        ensures within { IfOk result (λ o. IfSome o (HalfLiesIn input.now)) }
        ensures in_range { IfOk result (λ o. IfSome o (λ half. half.pattern < pattern_count self.now.core)) }
        ensures cache { Fits self.now.core cache.new }
        ensures memory { AccountsAlike self.now.core cache.old cache.new }
        ensures sure { IsKnownImpossible (properties_of self.now.core) input.now → IsOk result }
    {
        if !tells_free(&self.core, input) {
            return self.core.search_half(cache, input);
        }
        let tried = self.attempt::<Brand>(Blank::new(1), cache, input);
        half_after(&self.core, cache, input, tried)
    }

    /// The next match in the input's span, with its slots, where matches are told.
    ///
    /// `Memory`: there was no memory for the search.
    pub fn search_slots(
        &self,
        cache: &mut Cache,
        input: &Input<'_>,
        slots: &mut [Option<NonMaxUsize>],
    ) -> Result<Option<Match>, Memory>
        requires { Fits self.now.core cache.old }
        ensures answer { IfOk result (IsAnswer (IsSuffixFor self.now) (prefilter_in self.now.core) (kind_in self.now.core) input.now match_value) }
        ensures slots { IfOk result (AreSlotsOfAnswer (IsSuffixFor self.now) (prefilter_in self.now.core) (kind_in self.now.core) input.now match_value slots.new) }
        ensures within { IfOk result (λ o. IfSome o (LiesIn input.now)) }
        ensures in_range { IfOk result (λ o. IfSome o (λ m. m.pattern < pattern_count self.now.core)) }
        ensures none { IfOk result (λ o. IfNone o (slots.new ≡ replicate (length slots.old) None)) }
        ensures err { OnErr result (slots.new ≡ replicate (length slots.old) None) }
        ensures slots_within { AreWithin input.now slots.new }
        ensures cache { Fits self.now.core cache.new }
        ensures memory { AccountsAlike self.now.core cache.old cache.new }
        ensures sure { IsKnownImpossible (properties_of self.now.core) input.now → IsOk result }
    {
        if !tells_free(&self.core, input) {
            return self.core.search_slots(cache, input, slots);
        }
        let tried = self.attempt::<Brand>(Blank::new(1), cache, input);
        slots_after(&self.core, cache, input, tried, slots)
    }

    /// Whether there is a match in the input's span, under each kind of match and of captures.
    ///
    /// `Memory`: there was no memory for the search.
    pub fn is_match(&self, cache: &mut Cache, input: &Input<'_>) -> Result<bool, Memory>
        requires { Fits self.now.core cache.old }
        ensures value { IfOk result (TellsWhether (IsSuffixFor self.now) (prefilter_in self.now.core) input.now) }
        ensures cache { Fits self.now.core cache.new }
        ensures memory { AccountsAlike self.now.core cache.old cache.new }
        ensures sure { IsKnownImpossible (properties_of self.now.core) input.now → IsOk result }
    {
        let _haystack = input.haystack();
        if input.get_anchored().is_anchored() {
            return self.core.is_match(cache, input);
        }
        let mut any = input.clone();
        any.set_earliest(true);
        let tried = self.attempt::<Brand>(Blank::new(1), cache, &any);
        whether_after(&self.core, cache, input, tried)
    }

    /// As `try_search`, with a short patience, where nobody reads the count.
    fn attempt<L: Ledger>(
        &self,
        blank: Blank,
        cache: &mut Cache,
        input: &Input<'_>,
    ) -> Result<Option<Match>, Stop>
        requires name { blank.name ≡ L.name }
        requires parts { blank.parts ≡ L.parts }
        requires some { 0 < blank.parts }
        requires fits { Fits self.now.core cache.old }
        requires free { is_anchored input.now.anchor ≡ false }
        ensures answer { (r : Patterns) → Premises (IsSuffixFor self.now r) None r input.now
            → IfOk result (IsAnswerFor (kind_in self.now.core) r input.now match_value) }
        ensures within { IfOk result (λ found. IfSome found (LiesIn input.now)) }
        ensures in_range { IfOk result (λ found. IfSome found (λ m. m.pattern < pattern_count self.now.core)) }
        ensures cache { Fits self.now.core cache.new }
        ensures memory { AccountsAlike self.now.core cache.old cache.new }
    {
        let mut steps = Steps::<L>::open(blank);
        self.try_search(cache, input, Patience::Short, &mut steps)
    }
}

/// The search for the longest literal that ends each match of the only expression, where no match starts earlier than the first one
/// that is so confirmed.
fn suffix_search(alloc: Global, exprs: &[Hir]) -> Result<Option<Prefilter>, Memory>
    ensures { IfOk result (IsSuffixFound exprs.now) }
{
    if exprs.len() != 1 {
        return Ok(None);
    }
    let ends = suffixes(alloc, &exprs[0])?;
    match longest_common_suffix(&ends) {
        Some(suffix) => ordered_search(alloc, exprs, suffix),
        None => Ok(None),
    }
}

/// The search for this literal, where no match of the only expression starts earlier than the first one that is so confirmed.
fn ordered_search(alloc: Global, exprs: &[Hir], suffix: &[u8]) -> Result<Option<Prefilter>, Memory>
    ensures { IfOk result (IsOrderedSearch exprs.now suffix.now) }
{
    if suffix_has_no_earlier_match(alloc, exprs, suffix)? {
        return needle_search(alloc, suffix);
    }
    Ok(None)
}

/// The search for a needle that has a byte.
fn needle_search(alloc: Global, needle: &[u8]) -> Result<Option<Prefilter>, Memory>
    requires { 0 < length needle.now }
    ensures { IfOk result (λ made. made ≡ Some (needle.now ∷ [])) }
{
    let mut needles = Vec::with_capacity(alloc, 1)?;
    needles.push(Vec::from_slice(alloc, needle)?)?;
    Prefilter::new(alloc, MatchKind::LeftmostFirst, &needles)
}
