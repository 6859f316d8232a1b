//! The strategy that searches from the end of the haystack.
ghost use Rattle.std.specs.Prelude.{◌≡◌, ◌≤◌, ◌<◌, ◌&&◌, not, length, None, replicate, true, false, IfOk, IfNone, IfSome, OnErr, IsOk};
ghost use Rattle.rx_model.specs.Expression.{Expression};
ghost use Rattle.rx_model.specs.Search.{is_anchored};
ghost use Rattle.rx_search.specs.Answer.{IsAnswer, AreSlotsOfAnswer, TellsWhether};
ghost use Rattle.rx_search.specs.Input.{IsSpanned};
ghost use Rattle.rx_search.specs.Matches.{match_value, half_match_value};
ghost use Rattle.rx_search.specs.Told.{AreWithin, LiesIn, HalfLiesIn};
ghost use Rattle.rx_hir.specs.PropertiesViews.{AreOf};
ghost use Rattle.rx_strategy.specs.Cache.{Fits, AccountsAlike};
ghost use Rattle.rx_strategy.specs.Impossible.{is_always_anchored_start, is_always_anchored_end, IsKnownImpossible};
ghost use Rattle.rx_strategy.specs.Strategy.{IsFor, kind_in, pattern_count, prefilter_in, properties_of, tells_in};
ghost use Rattle.rx_strategies.specs.Choice.{is_from_end, IsFromEnd};

use crate::attempts::half_match;
use rx_hir::Properties;
use rx_search::{HalfMatch, Input, Look, Match, Memory, NonMaxUsize};
use rx_strategy::{Cache, Strategy};
use std::marker::Model;

/// A search for patterns of which each match ends at the end of the haystack: a DFA reads backwards from there. Where the search is
/// anchored, or the span ends earlier, or the DFA has no answer, the core is asked.
#[derive(Drop)]
pub struct ReverseAnchored {
    core: Strategy,
}

impl Model for ReverseAnchored {
    ghost use Rattle.rx_strategy.specs.declared.strategy.Strategy.{Strategy};
    ghost use Rattle.rx_strategies.specs.Choice.{EndsLast};

    ghost Value = { Strategy };

    ghost view = { λ a. a.core };

    ghost invariant = { λ a. EndsLast a.core };
}

impl ReverseAnchored {
    /// The search from the end over this core, where its patterns are searched so: each match ends at the end of the haystack, not
    /// each begins at its start, and there are DFAs. Else it gives the core back.
    pub fn new(core: Strategy) -> Result<ReverseAnchored, Strategy>
        ensures { IsFromEnd core result }
    {
        if applies(&core) {
            return Ok(ReverseAnchored { core });
        }
        Err(core)
    }

    /// The core.
    pub fn core(&self) -> &Strategy
        ensures { result.now ≡ self.now }
    {
        &self.core
    }

    /// The end of the next match in the input's span, with its pattern, where matches are told.
    ///
    /// `Memory`: there was no memory for the search.
    pub fn search_half(
        &self,
        cache: &mut Cache,
        input: &Input<'_>,
    ) -> Result<Option<HalfMatch>, Memory>
        requires { Fits self.now cache.old }
        ensures answer { IfOk result (IsAnswer (IsFor self.now) (prefilter_in self.now) (kind_in self.now) input.now half_match_value) }
        ensures within { IfOk result (λ o. IfSome o (HalfLiesIn input.now)) }
        ensures in_range { IfOk result (λ o. IfSome o (λ half. half.pattern < pattern_count self.now)) }
        ensures cache { Fits self.now cache.new }
        ensures memory { AccountsAlike self.now cache.old cache.new }
        ensures sure { IsKnownImpossible (properties_of self.now) input.now → IsOk result }
    {
        if !self.tells_from_end(input) {
            return self.core.search_half(cache, input);
        }
        match self.core.try_search_ending(cache, input) {
            Ok(found) => Ok(half_match(found)),
            Err(_) => self.core.search_half(cache, input),
        }
    }

    /// The next match in the input's span, with its slots, where matches are told.
    ///
    /// `Memory`: there was no memory for the search.
    pub fn search_slots(
        &self,
        cache: &mut Cache,
        input: &Input<'_>,
        slots: &mut [Option<NonMaxUsize>],
    ) -> Result<Option<Match>, Memory>
        requires { Fits self.now cache.old }
        ensures answer { IfOk result (IsAnswer (IsFor self.now) (prefilter_in self.now) (kind_in self.now) input.now match_value) }
        ensures slots { IfOk result (AreSlotsOfAnswer (IsFor self.now) (prefilter_in self.now) (kind_in self.now) input.now match_value slots.new) }
        ensures within { IfOk result (λ o. IfSome o (LiesIn input.now)) }
        ensures in_range { IfOk result (λ o. IfSome o (λ m. m.pattern < pattern_count self.now)) }
        ensures none { IfOk result (λ o. IfNone o (slots.new ≡ replicate (length slots.old) None)) }
        ensures err { OnErr result (slots.new ≡ replicate (length slots.old) None) }
        ensures slots_within { AreWithin input.now slots.new }
        ensures cache { Fits self.now cache.new }
        ensures memory { AccountsAlike self.now cache.old cache.new }
        ensures sure { IsKnownImpossible (properties_of self.now) input.now → IsOk result }
    {
        if !self.tells_from_end(input) {
            return self.core.search_slots(cache, input, slots);
        }
        match self.core.try_search_ending(cache, input) {
            Ok(found) => Ok(self.core.leave_found(cache, input, found, slots)),
            Err(_) => self.core.search_slots(cache, input, slots),
        }
    }

    /// Whether there is a match in the input's span, under each kind of match and of captures.
    ///
    /// `Memory`: there was no memory for the search.
    pub fn is_match(&self, cache: &mut Cache, input: &Input<'_>) -> Result<bool, Memory>
        requires { Fits self.now cache.old }
        ensures value { IfOk result (TellsWhether (IsFor self.now) (prefilter_in self.now) input.now) }
        ensures cache { Fits self.now cache.new }
        ensures memory { AccountsAlike self.now cache.old cache.new }
        ensures sure { IsKnownImpossible (properties_of self.now) input.now → IsOk result }
    {
        if !is_from_end(input) {
            return self.core.is_match(cache, input);
        }
        let mut any = input.clone();
        any.set_earliest(true);
        match self.core.try_search_ending(cache, &any) {
            Ok(found) => Ok(found.is_some()),
            Err(_) => self.core.is_match(cache, input),
        }
    }

    /// Whether matches are told, and the search is one from the end.
    fn tells_from_end(&self, input: &Input<'_>) -> bool
        ensures told { result ≡ true → tells_in self.now ≡ true }
        ensures free { result ≡ true → is_anchored input.now.anchor ≡ false }
        ensures end { result ≡ true → input.now.end ≡ length input.now.haystack }
        ensures spanned { IsSpanned input.now }
    {
        if !is_from_end(input) {
            return false;
        }
        self.core.tells()
    }
}

/// Whether a search of the input is one from the end: it is not anchored, and its span ends with the haystack.
fn is_from_end(input: &Input<'_>) -> bool
    ensures free { result ≡ true → is_anchored input.now.anchor ≡ false }
    ensures end { result ≡ true → input.now.end ≡ length input.now.haystack }
    ensures spanned { IsSpanned input.now }
{
    let haystack = input.haystack();
    if input.get_anchored().is_anchored() {
        return false;
    }
    input.end() == haystack.len()
}

/// Whether the core's patterns are searched from the end.
fn applies(core: &Strategy) -> bool
    ensures { (h : Expression) → AreOf h (properties_of core.now) → result ≡ is_from_end core.now h }
{
    if !core.has_dfas() {
        return false;
    }
    ends_last(core.properties())
}

/// Whether each match ends at the end of the haystack, and not each begins at its start.
fn ends_last(properties: &Properties) -> bool
    ensures { (h : Expression) → AreOf h properties.now → result ≡ (is_always_anchored_end h && not (is_always_anchored_start h)) }
{
    if !properties.look_set_suffix().contains(Look::End) {
        return false;
    }
    !properties.look_set_prefix().contains(Look::Start)
}
