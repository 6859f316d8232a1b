//! What a core answers: what its DFAs say, and where they have no answer, what an engine says that always has one.
ghost use Rattle.std.specs.Prelude.{◌≡◌, ◌≤◌, ◌<◌, true, length, None, replicate, IfNone, IfSome};
ghost use Rattle.rx_model.specs.Search.{Patterns};
ghost use Rattle.rx_search.specs.Input.{IsSpanned};
ghost use Rattle.rx_search.specs.Matches.{match_value, half_match_value};
ghost use Rattle.rx_search.specs.Promise.{Premises};
ghost use Rattle.rx_search.specs.Told.{tells, AreWithin, LiesIn, HalfLiesIn};
ghost use Rattle.rx_search.specs.Sets.{KeepsMembers, AddsMatching, IsFilled};
ghost use Rattle.rx_dfa.specs.Search.{IsAnswerFor};
ghost use Rattle.rx_search.specs.Answer.{IsAnswer, AreSlotsOfAnswer, TellsWhether};
ghost use Rattle.rx_strategy.specs.Cache.{FitsCore, AccountsAlikeIn};
ghost use Rattle.rx_strategy.specs.Core.{IsCoreFor, IsToldFor};

use crate::cache::Cache;
use crate::narrow::narrowed;
use crate::span::leave_span;
use crate::strategy::engines::Core;
use rx_engines::empty;
use rx_search::{HalfMatch, Input, Match, NonMaxUsize, PatternSet};

impl Core {
    /// Whether there is a match in the input's span, under each kind of match and of captures.
    pub(crate) fn is_match(&self, cache: &mut Cache, input: &Input<'_>) -> bool
        requires fits { FitsCore self.now cache.old }
        requires spanned { IsSpanned input.now }
        ensures value { TellsWhether (IsCoreFor self.now) self.now.pre input.now result }
        ensures cache { FitsCore self.now cache.new }
        ensures memory { AccountsAlikeIn self.now cache.old cache.new }
    {
        match self.try_is_match(cache, input) {
            Ok(there) => there,
            Err(_) => self.is_match_nofail(cache, input),
        }
    }

    /// The end of the next match in the input's span, with its pattern, where matches are told. A DFA reads nothing backwards for it.
    pub(crate) fn search_half(&self, cache: &mut Cache, input: &Input<'_>) -> Option<HalfMatch>
        requires fits { FitsCore self.now cache.old }
        requires spanned { IsSpanned input.now }
        ensures answer { IsAnswer (IsCoreFor self.now) self.now.pre self.now.kind input.now half_match_value result }
        ensures within { IfSome result (HalfLiesIn input.now) }
        ensures in_range { IfSome result (λ half. half.pattern < length self.now.nfa.starts) }
        ensures cache { FitsCore self.now cache.new }
        ensures memory { AccountsAlikeIn self.now cache.old cache.new }
    {
        if self.tells() {
            return self.search_half_told(cache, input);
        }
        None
    }

    /// The same, where matches are told.
    fn search_half_told(&self, cache: &mut Cache, input: &Input<'_>) -> Option<HalfMatch>
        requires fits { FitsCore self.now cache.old }
        requires spanned { IsSpanned input.now }
        requires told { tells self.now.which_captures ≡ true }
        ensures answer { IsAnswer (IsCoreFor self.now) self.now.pre self.now.kind input.now half_match_value result }
        ensures within { IfSome result (HalfLiesIn input.now) }
        ensures in_range { IfSome result (λ half. half.pattern < length self.now.nfa.starts) }
        ensures cache { FitsCore self.now cache.new }
        ensures memory { AccountsAlikeIn self.now cache.old cache.new }
    {
        match self.try_search_half(cache, input) {
            Ok(found) => found,
            Err(_) => self.search_half_nofail(cache, input),
        }
    }

    /// Adds patterns that have a match in the input's span to the set, under each kind of captures.
    pub(crate) fn which_overlapping_matches(
        &self,
        cache: &mut Cache,
        input: &Input<'_>,
        set: &mut PatternSet,
    )
        requires fits { FitsCore self.now cache.old }
        requires room { length self.now.nfa.starts ≤ length set.old }
        requires spanned { IsSpanned input.now }
        ensures kept { KeepsMembers set.old set.new }
        ensures matching { AddsMatching (IsCoreFor self.now) self.now.pre input.now set.old set.new }
        ensures filled { IsFilled (IsCoreFor self.now) self.now.pre input.now set.old set.new self.now.kind }
        ensures cache { FitsCore self.now cache.new }
        ensures memory { AccountsAlikeIn self.now cache.old cache.new }
    {
        if let Ok(()) = self.try_which_overlapping(cache, input, set) {
            return;
        }
        self.which_overlapping_nofail(cache, input, set);
    }

    /// The next match in the input's span, with its slots, where matches are told.
    pub(crate) fn search_slots(
        &self,
        cache: &mut Cache,
        input: &Input<'_>,
        slots: &mut [Option<NonMaxUsize>],
    ) -> Option<Match>
        requires fits { FitsCore self.now cache.old }
        requires spanned { IsSpanned input.now }
        ensures answer { IsAnswer (IsCoreFor self.now) self.now.pre self.now.kind input.now match_value result }
        ensures slots { AreSlotsOfAnswer (IsCoreFor self.now) self.now.pre self.now.kind input.now match_value slots.new result }
        ensures within { IfSome result (LiesIn input.now) }
        ensures in_range { IfSome result (λ m. m.pattern < length self.now.nfa.starts) }
        ensures none { IfNone result (slots.new ≡ replicate (length slots.old) None) }
        ensures slots_within { AreWithin input.now slots.new }
        ensures cache { FitsCore self.now cache.new }
        ensures memory { AccountsAlikeIn self.now cache.old cache.new }
    {
        if self.tells() {
            return self.search_told(cache, input, slots);
        }
        empty(slots);
        None
    }

    /// The same, where matches are told. An engine keeps no slots where those that are asked for tell the match's span alone,
    /// which is known of the match.
    fn search_told(
        &self,
        cache: &mut Cache,
        input: &Input<'_>,
        slots: &mut [Option<NonMaxUsize>],
    ) -> Option<Match>
        requires fits { FitsCore self.now cache.old }
        requires spanned { IsSpanned input.now }
        requires told { tells self.now.which_captures ≡ true }
        ensures answer { IsAnswer (IsCoreFor self.now) self.now.pre self.now.kind input.now match_value result }
        ensures slots { AreSlotsOfAnswer (IsCoreFor self.now) self.now.pre self.now.kind input.now match_value slots.new result }
        ensures within { IfSome result (LiesIn input.now) }
        ensures in_range { IfSome result (λ m. m.pattern < length self.now.nfa.starts) }
        ensures none { IfNone result (slots.new ≡ replicate (length slots.old) None) }
        ensures slots_within { AreWithin input.now slots.new }
        ensures cache { FitsCore self.now cache.new }
        ensures memory { AccountsAlikeIn self.now cache.old cache.new }
    {
        // Two slots a pattern (DECISIONS: where a match's span is asked for alone, an engine keeps no slots).
        if slots.len() > 2 * self.get_nfa().pattern_len() {
            return self.search_groups(cache, input, slots);
        }
        let _haystack = input.haystack();
        let found = self.search_span(cache, input);
        leave_span(&found, slots);
        found
    }

    /// The next match in the input's span, without its slots, where matches are told.
    fn search_span(&self, cache: &mut Cache, input: &Input<'_>) -> Option<Match>
        requires fits { FitsCore self.now cache.old }
        requires spanned { IsSpanned input.now }
        requires told { tells self.now.which_captures ≡ true }
        ensures answer { IsAnswer (IsCoreFor self.now) self.now.pre self.now.kind input.now match_value result }
        ensures within { IfSome result (LiesIn input.now) }
        ensures in_range { IfSome result (λ m. m.pattern < length self.now.nfa.starts) }
        ensures cache { FitsCore self.now cache.new }
        ensures memory { AccountsAlikeIn self.now cache.old cache.new }
    {
        match self.try_search_mayfail(cache, input) {
            Ok(found) => found,
            Err(_) => self.search_slots_nofail(cache, input, &mut []),
        }
    }

    /// The next match in the input's span, with slots of groups: the DFAs find the span of a match, and an engine that keeps slots reads
    /// no more than that. Where the one-pass DFA serves the input itself, nothing is read twice.
    fn search_groups(
        &self,
        cache: &mut Cache,
        input: &Input<'_>,
        slots: &mut [Option<NonMaxUsize>],
    ) -> Option<Match>
        requires fits { FitsCore self.now cache.old }
        requires spanned { IsSpanned input.now }
        requires told { tells self.now.which_captures ≡ true }
        ensures told { (r : Patterns) → Premises (IsCoreFor self.now r) self.now.pre r input.now
            → IsToldFor self.now.kind r input.now slots.new result }
        ensures within { IfSome result (LiesIn input.now) }
        ensures in_range { IfSome result (λ m. m.pattern < length self.now.nfa.starts) }
        ensures none { IfNone result (slots.new ≡ replicate (length slots.old) None) }
        ensures slots_within { AreWithin input.now slots.new }
        ensures cache { FitsCore self.now cache.new }
        ensures memory { AccountsAlikeIn self.now cache.old cache.new }
    {
        if self.get_onepass(input).is_some() {
            return self.search_nofail(cache, input, slots);
        }
        match self.try_search_mayfail(cache, input) {
            Ok(found) => self.search_found(cache, input, &found, slots),
            Err(_) => self.search_nofail(cache, input, slots),
        }
    }

    /// A match with its slots, where the DFAs answered this one, if any: anchored to its pattern its span has a match, which is the same
    /// where it is the next one.
    pub(crate) fn search_found(
        &self,
        cache: &mut Cache,
        input: &Input<'_>,
        found: &Option<Match>,
        slots: &mut [Option<NonMaxUsize>],
    ) -> Option<Match>
        requires fits { FitsCore self.now cache.old }
        requires spanned { IsSpanned input.now }
        requires told { tells self.now.which_captures ≡ true }
        requires lies { IfSome found.now (LiesIn input.now) }
        ensures told { (r : Patterns) → IsCoreFor self.now r → IsAnswerFor self.now.kind r input.now match_value found.now
            → IsToldFor self.now.kind r input.now slots.new result }
        ensures within { IfSome result (LiesIn input.now) }
        ensures in_range { IfSome result (λ m. m.pattern < length self.now.nfa.starts) }
        ensures none { IfNone result (slots.new ≡ replicate (length slots.old) None) }
        ensures slots_within { AreWithin input.now slots.new }
        ensures cache { FitsCore self.now cache.new }
        ensures memory { AccountsAlikeIn self.now cache.old cache.new }
    {
        match found {
            Some(found) => {
                let part = narrowed(input, found);
                self.search_nofail(cache, &part, slots)
            }
            None => {
                empty(slots);
                None
            }
        }
    }
}
