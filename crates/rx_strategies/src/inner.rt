//! The strategy that searches for literals within each match.
ghost use Rattle.std.specs.Prelude.{◌≡◌, ◌≤◌, ◌<◌, ◌+◌, ◌*◌, false, length, None, Ok, Err, replicate, IfOk, MatchOption, IfSome, IfNone, OnErr, IsOk};
ghost use Rattle.std.specs.Result.{IfErr};
ghost use Rattle.rx_model.specs.Search.{Patterns, is_anchored};
ghost use Rattle.rx_search.specs.Answer.{IsAnswer, AreSlotsOfAnswer, TellsWhether};
ghost use Rattle.rx_search.specs.Input.{span_len};
ghost use Rattle.rx_search.specs.Matches.{match_value, half_match_value};
ghost use Rattle.rx_search.specs.Promise.{Premises};
ghost use Rattle.rx_search.specs.Told.{AreWithin, LiesIn, HalfLiesIn};
ghost use Rattle.rx_dfa.specs.Search.{IsAnswerFor};
ghost use Rattle.rx_attempts.specs.Stops.{StopsBy};
ghost use Rattle.rx_strategy.specs.Cache.{Fits, AccountsAlike};
ghost use Rattle.rx_strategy.specs.Impossible.{IsKnownImpossible};
ghost use Rattle.rx_strategy.specs.Strategy.{IsMadeOf, kind_in, pattern_count, prefilter_in, properties_of, InnerFailsFor, CountsInner};
ghost use Rattle.rx_order.specs.Inner.{inner_of};
ghost use Rattle.rx_strategy.specs.Prefix.{FitsPrefix, are_states};
ghost use Rattle.rx_strategies.specs.Choice.{if_inner_in_order};
ghost use Rattle.rx_strategies.specs.Attempts.{IsByInner, IsInnerFor, IsInnerTried, IsInnerFound};

use crate::attempts::{half_after, may_attempt, slots_after, tells_free, whether_after};
use rx_attempts::{Patience, Stop};
use rx_hir::Hir;
use rx_order::{InnerPrefilter, inner_has_no_earlier_match};
use rx_prefilter::Prefilter;
use rx_search::{HalfMatch, Input, Match, Memory, NonMaxUsize, Steps};
use rx_strategy::{Cache, Config, PrefixCache, PrefixDfa, Strategy};
use std::alloc::Global;
use std::marker::{Brand, Model};
use std::mem::drop;
use std::sync::ledger::{Blank, Ledger};

/// A search for one expression by literals, one of which lies within each of its matches: the span is searched for the literals, backwards
/// by what stands before them from where one lies, and forwards from the start that is so found. No match starts earlier than the first
/// one that is confirmed so. Where the search is anchored, bytes would be read again and again, or such places lie close together, the
/// core is asked, and its engines alone where a DFA has no answer.
#[derive(Drop)]
pub struct ReverseInner {
    core: Strategy,
    pre: Prefilter,
    /// The DFA that reads what stands before the literals.
    prefix: PrefixDfa,
}

impl Model for ReverseInner {
    ghost use Rattle.rx_strategies.specs.Attempts.{InnerValue, IsByInner};

    ghost Value = { InnerValue };

    ghost view = { λ i. record { core = i.core; needles = i.pre; prefix = i.prefix } };

    ghost invariant = { λ i. IsByInner i.core i.pre };
}

impl ReverseInner {
    /// The search by literals within each match, where the only expression is searched so under the configuration. Else it gives the core
    /// back, which is the expressions'.
    ///
    /// # Errors
    ///
    /// `Memory`, where there was no memory for the literals, or what stands before them.
    pub fn new(
        alloc: Global,
        config: &Config,
        exprs: &[Hir],
        core: Strategy,
    ) -> Result<Result<ReverseInner, Strategy>, Memory>
        requires { IsMadeOf config.now exprs.now core }
        ensures { IfOk result (IsInnerTried config.now exprs.now core) }
    {
        match searched_by(alloc, config, exprs, &core) {
            Ok(Some(Reading { pre, prefix })) => Ok(Ok(ReverseInner { core, pre, prefix })),
            Ok(None) => Ok(Err(core)),
            Err(error) => {
                drop(core);
                Err(error)
            }
        }
    }

    /// The core.
    pub fn core(&self) -> &Strategy
        ensures { result.now ≡ self.now.core }
    {
        &self.core
    }

    /// The search for the literals.
    pub fn prefilter(&self) -> &Prefilter
        ensures { result.now ≡ self.now.needles }
    {
        &self.pre
    }

    /// The DFA that reads what stands before the literals.
    pub fn prefix(&self) -> &PrefixDfa
        ensures { result.now ≡ self.now.prefix }
    {
        &self.prefix
    }

    /// The next match in the input's span, by an attempt; or why it has no answer. The input is not anchored. With `earliest` it is some
    /// match, where there is one.
    ///
    /// # Errors
    ///
    /// `Quadratic` where bytes would be read again and again; `Fail` where a DFA quit or gave up; `Memory`; `Dense` where a short patience is
    /// lost.
    pub fn try_search<L: Ledger>(
        &self,
        cache: &mut Cache,
        states: &mut PrefixCache,
        input: &Input<'_>,
        patience: Patience,
        steps: &mut Steps<L>,
    ) -> Result<Option<Match>, Stop>
        requires fits { Fits self.now.core cache.old }
        requires states_fit { FitsPrefix self.now.prefix states.old }
        requires free { is_anchored input.now.anchor ≡ false }
        ensures answer { (r : Patterns) → Premises (IsInnerFor self.now r) None r input.now
            → IfOk result (IsAnswerFor (kind_in self.now.core) r input.now match_value) }
        ensures within { IfOk result (λ found. IfSome found (LiesIn input.now)) }
        ensures in_range { IfOk result (λ found. IfSome found (λ m. m.pattern < pattern_count self.now.core)) }
        ensures err { IfErr result (StopsBy patience (InnerFailsFor self.now.core self.now.prefix self.now.needles input.now cache.new states.new)) }
        ensures ticks { input.now.earliest ≡ false → IfOk result (CountsInner self.now.core self.now.prefix self.now.needles input.now steps.old steps.new) }
        ensures few { steps.new ≤ steps.old + 8 * (span_len input.now + 1) }
        ensures cache { Fits self.now.core cache.new }
        ensures states_fit { FitsPrefix self.now.prefix states.new }
        ensures states_same { are_states self.now.prefix ≡ false → states.new ≡ states.old }
        ensures memory { AccountsAlike self.now.core cache.old cache.new }
    {
        self.core.try_reverse_inner(
            cache,
            &self.pre,
            &self.prefix,
            states,
            input,
            patience,
            steps,
        )
    }

    /// The end of the next match in the input's span, with its pattern, where matches are told.
    ///
    /// `Memory`: there was no memory for the search.
    pub fn search_half(
        &self,
        cache: &mut Cache,
        states: &mut PrefixCache,
        input: &Input<'_>,
    ) -> Result<Option<HalfMatch>, Memory>
        requires fits { Fits self.now.core cache.old }
        requires states_fit { FitsPrefix self.now.prefix states.old }
        ensures answer { IfOk result (IsAnswer (IsInnerFor self.now) (prefilter_in self.now.core) (kind_in self.now.core) input.now half_match_value) }
        ensures within { IfOk result (λ o. IfSome o (HalfLiesIn input.now)) }
        ensures in_range { IfOk result (λ o. IfSome o (λ half. half.pattern < pattern_count self.now.core)) }
        ensures cache { Fits self.now.core cache.new }
        ensures states_fit { FitsPrefix self.now.prefix states.new }
        ensures states_same { are_states self.now.prefix ≡ false → states.new ≡ states.old }
        ensures memory { AccountsAlike self.now.core cache.old cache.new }
        ensures sure { IsKnownImpossible (properties_of self.now.core) input.now → IsOk result }
    {
        if !tells_free(&self.core, input) {
            return self.core.search_half(cache, input);
        }
        let tried = self.attempt::<Brand>(Blank::new(1), cache, states, input);
        half_after(&self.core, cache, input, tried)
    }

    /// The next match in the input's span, with its slots, where matches are told.
    ///
    /// `Memory`: there was no memory for the search.
    pub fn search_slots(
        &self,
        cache: &mut Cache,
        states: &mut PrefixCache,
        input: &Input<'_>,
        slots: &mut [Option<NonMaxUsize>],
    ) -> Result<Option<Match>, Memory>
        requires fits { Fits self.now.core cache.old }
        requires states_fit { FitsPrefix self.now.prefix states.old }
        ensures answer { IfOk result (IsAnswer (IsInnerFor self.now) (prefilter_in self.now.core) (kind_in self.now.core) input.now match_value) }
        ensures slots { IfOk result (AreSlotsOfAnswer (IsInnerFor self.now) (prefilter_in self.now.core) (kind_in self.now.core) input.now match_value slots.new) }
        ensures within { IfOk result (λ o. IfSome o (LiesIn input.now)) }
        ensures in_range { IfOk result (λ o. IfSome o (λ m. m.pattern < pattern_count self.now.core)) }
        ensures none { IfOk result (λ o. IfNone o (slots.new ≡ replicate (length slots.old) None)) }
        ensures err { OnErr result (slots.new ≡ replicate (length slots.old) None) }
        ensures slots_within { AreWithin input.now slots.new }
        ensures cache { Fits self.now.core cache.new }
        ensures states_fit { FitsPrefix self.now.prefix states.new }
        ensures states_same { are_states self.now.prefix ≡ false → states.new ≡ states.old }
        ensures memory { AccountsAlike self.now.core cache.old cache.new }
        ensures sure { IsKnownImpossible (properties_of self.now.core) input.now → IsOk result }
    {
        if !tells_free(&self.core, input) {
            return self.core.search_slots(cache, input, slots);
        }
        let tried = self.attempt::<Brand>(Blank::new(1), cache, states, input);
        slots_after(&self.core, cache, input, tried, slots)
    }

    /// Whether there is a match in the input's span, under each kind of match and of captures.
    ///
    /// `Memory`: there was no memory for the search.
    pub fn is_match(
        &self,
        cache: &mut Cache,
        states: &mut PrefixCache,
        input: &Input<'_>,
    ) -> Result<bool, Memory>
        requires fits { Fits self.now.core cache.old }
        requires states_fit { FitsPrefix self.now.prefix states.old }
        ensures value { IfOk result (TellsWhether (IsInnerFor self.now) (prefilter_in self.now.core) input.now) }
        ensures cache { Fits self.now.core cache.new }
        ensures states_fit { FitsPrefix self.now.prefix states.new }
        ensures states_same { are_states self.now.prefix ≡ false → states.new ≡ states.old }
        ensures memory { AccountsAlike self.now.core cache.old cache.new }
        ensures sure { IsKnownImpossible (properties_of self.now.core) input.now → IsOk result }
    {
        let _haystack = input.haystack();
        if input.get_anchored().is_anchored() {
            return self.core.is_match(cache, input);
        }
        let mut any = input.clone();
        any.set_earliest(true);
        let tried = self.attempt::<Brand>(Blank::new(1), cache, states, &any);
        whether_after(&self.core, cache, input, tried)
    }

    /// As `try_search`, with a short patience, where nobody reads the count.
    fn attempt<L: Ledger>(
        &self,
        blank: Blank,
        cache: &mut Cache,
        states: &mut PrefixCache,
        input: &Input<'_>,
    ) -> Result<Option<Match>, Stop>
        requires name { blank.name ≡ L.name }
        requires parts { blank.parts ≡ L.parts }
        requires some { 0 < blank.parts }
        requires fits { Fits self.now.core cache.old }
        requires states_fit { FitsPrefix self.now.prefix states.old }
        requires free { is_anchored input.now.anchor ≡ false }
        ensures answer { (r : Patterns) → Premises (IsInnerFor self.now r) None r input.now
            → IfOk result (IsAnswerFor (kind_in self.now.core) r input.now match_value) }
        ensures within { IfOk result (λ found. IfSome found (LiesIn input.now)) }
        ensures in_range { IfOk result (λ found. IfSome found (λ m. m.pattern < pattern_count self.now.core)) }
        ensures cache { Fits self.now.core cache.new }
        ensures states_fit { FitsPrefix self.now.prefix states.new }
        ensures states_same { are_states self.now.prefix ≡ false → states.new ≡ states.old }
        ensures memory { AccountsAlike self.now.core cache.old cache.new }
    {
        let mut steps = Steps::<L>::open(blank);
        self.try_search(cache, states, input, Patience::Short, &mut steps)
    }
}

/// What is searched for, and the DFA that reads what stands before it.
#[derive(Drop)]
struct Reading {
    pre: Prefilter,
    prefix: PrefixDfa,
}

/// Both for the only expression, where it is searched so under the configuration. A function of its own, since a core is let go on each
/// way out on which there is one.
fn searched_by(
    alloc: Global,
    config: &Config,
    exprs: &[Hir],
    core: &Strategy,
) -> Result<Option<Reading>, Memory>
    requires { IsMadeOf config.now exprs.now core.now }
    ensures { IfOk result (λ found. MatchOption found (IsInnerTried config.now exprs.now core.now (Err core.now))
        (λ r. IsInnerTried config.now exprs.now core.now (Ok (record { core = core.now; needles = r.pre; prefix = r.prefix }))
        × IsByInner core.now r.pre)) }
{
    if !may_attempt(config, core) {
        return Ok(None);
    }
    let Some(inner) = inner_search(alloc, exprs)? else {
        return Ok(None);
    };
    match PrefixDfa::new(alloc, config, &inner.prefix) {
        Ok(Some(prefix)) => Ok(Some(Reading {
            pre: search_of(inner),
            prefix,
        })),
        Ok(None) => {
            // By a call (DECISIONS: large values are let go by name).
            drop(inner);
            Ok(None)
        }
        Err(error) => {
            drop(inner);
            Err(error)
        }
    }
}

/// The literals within each match of the only expression, and what stands before them, where no match starts earlier than the first one
/// that is so confirmed.
fn inner_search(alloc: Global, exprs: &[Hir]) -> Result<Option<InnerPrefilter>, Memory>
    ensures { IfOk result (λ found. MatchOption found (if_inner_in_order (inner_of exprs.now) ≡ None)
        (λ i. IsInnerFound exprs.now i.prefix i.pre)) }
{
    let Some(inner) = InnerPrefilter::new(alloc, exprs)? else {
        return Ok(None);
    };
    if inner_has_no_earlier_match(&inner.prefix, &inner.literals) {
        return Ok(Some(inner));
    }
    // By a call (DECISIONS: large values are let go by name).
    drop(inner);
    Ok(None)
}

/// The search for the literals.
fn search_of(inner: InnerPrefilter) -> Prefilter
    ensures { result ≡ inner.pre }
{
    let InnerPrefilter {
        prefix,
        pre,
        literals,
    } = inner;
    // By calls (DECISIONS: large values are let go by name).
    drop(prefix);
    drop(literals);
    pre
}
