//! Searches of a core by the engines that always answer.
ghost use Rattle.std.specs.Prelude.{◌≡◌, ◌≤◌, ◌<◌, true, length, None, replicate, IfNone, IfSome, IsSomeAnd};
ghost use Rattle.rx_model.specs.Search.{Patterns};
ghost use Rattle.rx_search.specs.Input.{IsSpanned, span_len};
ghost use Rattle.rx_search.specs.Matches.{match_value, half_match_value};
ghost use Rattle.rx_search.specs.Told.{tells, AreWithin, LiesIn, HalfLiesIn};
ghost use Rattle.rx_search.specs.Sets.{KeepsMembers, AddsMatching, IsFilled};
ghost use Rattle.rx_engines.specs.Bounded.{Fits as FitsBounded, max_len};
ghost use Rattle.rx_engines.specs.Needles.{BeginsEachRun};
ghost use Rattle.rx_search.specs.Answer.{IsAnswer, AreSlotsOfAnswer, TellsWhether};
ghost use Rattle.rx_strategy.specs.Cache.{FitsCore, AccountsAlikeIn};
ghost use Rattle.rx_strategy.specs.Core.{IsCoreFor, IsSearched, IsToldFor};
ghost use Rattle.rx_strategy.specs.Nofail.{IsAskedFor};

use crate::cache::Cache;
use crate::found::half_match;
use crate::onepass::{find_in_one_pass, meets_in_one_pass};
use crate::strategy::engines::Core;
use rx_engines::backtrack::{self, BoundedBacktracker};
use rx_engines::pikevm::PikeVM;
use rx_search::{HalfMatch, Input, Match, NonMaxUsize, PatternSet};

/// An engine that answers each search that it is asked for, by the states of the NFA.
pub(crate) enum Nofail<'a> {
    Backtrack(&'a BoundedBacktracker),
    PikeVM(&'a PikeVM),
}

impl Core {
    /// As `is_match`, by an engine that always answers.
    pub(crate) fn is_match_nofail(&self, cache: &mut Cache, input: &Input<'_>) -> bool
        requires fits { FitsCore self.now cache.old }
        requires spanned { IsSpanned input.now }
        ensures value { TellsWhether (IsCoreFor self.now) self.now.pre input.now result }
        ensures cache { FitsCore self.now cache.new }
        ensures memory { AccountsAlikeIn self.now cache.old cache.new }
    {
        // Either can stop at the first match (DECISIONS: of the engines that always answer).
        match self.get_onepass(input) {
            Some(engine) => meets_in_one_pass(engine, &mut cache.onepass, input),
            None => self.pikevm.is_match(&mut cache.pikevm, input),
        }
    }

    /// As `search_half`, by an engine that always answers, where matches are told.
    pub(crate) fn search_half_nofail(
        &self,
        cache: &mut Cache,
        input: &Input<'_>,
    ) -> Option<HalfMatch>
        requires fits { FitsCore self.now cache.old }
        requires spanned { IsSpanned input.now }
        requires told { tells self.now.which_captures ≡ true }
        ensures answer { IsAnswer (IsCoreFor self.now) self.now.pre self.now.kind input.now half_match_value result }
        ensures within { IfSome result (HalfLiesIn input.now) }
        ensures in_range { IfSome result (λ half. half.pattern < length self.now.nfa.starts) }
        ensures cache { FitsCore self.now cache.new }
        ensures memory { AccountsAlikeIn self.now cache.old cache.new }
    {
        half_match(self.search_nofail(cache, input, &mut []))
    }

    /// As `search_slots`, by an engine that always answers, where matches are told.
    pub(crate) fn search_slots_nofail(
        &self,
        cache: &mut Cache,
        input: &Input<'_>,
        slots: &mut [Option<NonMaxUsize>],
    ) -> Option<Match>
        requires fits { FitsCore self.now cache.old }
        requires spanned { IsSpanned input.now }
        requires told { tells self.now.which_captures ≡ true }
        ensures answer { IsAnswer (IsCoreFor self.now) self.now.pre self.now.kind input.now match_value result }
        ensures slots { AreSlotsOfAnswer (IsCoreFor self.now) self.now.pre self.now.kind input.now match_value slots.new result }
        ensures within { IfSome result (LiesIn input.now) }
        ensures in_range { IfSome result (λ m. m.pattern < length self.now.nfa.starts) }
        ensures none { IfNone result (slots.new ≡ replicate (length slots.old) None) }
        ensures slots_within { AreWithin input.now slots.new }
        ensures cache { FitsCore self.now cache.new }
        ensures memory { AccountsAlikeIn self.now cache.old cache.new }
    {
        self.search_nofail(cache, input, slots)
    }

    /// The same by an engine that always answers.
    pub(crate) fn which_overlapping_nofail(
        &self,
        cache: &mut Cache,
        input: &Input<'_>,
        set: &mut PatternSet,
    )
        requires fits { FitsCore self.now cache.old }
        requires room { length self.now.nfa.starts ≤ length set.old }
        requires spanned { IsSpanned input.now }
        ensures kept { KeepsMembers set.old set.new }
        ensures matching { AddsMatching (IsCoreFor self.now) self.now.pre input.now set.old set.new }
        ensures filled { IsFilled (IsCoreFor self.now) self.now.pre input.now set.old set.new self.now.kind }
        ensures cache { FitsCore self.now cache.new }
        ensures memory { AccountsAlikeIn self.now cache.old cache.new }
    {
        let threads = &mut cache.pikevm;
        self.pikevm.which_overlapping_matches(threads, input, set);
    }

    /// The next match in the input's span, with its slots, by an engine that always answers, where matches are told.
    pub(crate) fn search_nofail(
        &self,
        cache: &mut Cache,
        input: &Input<'_>,
        slots: &mut [Option<NonMaxUsize>],
    ) -> Option<Match>
        requires fits { FitsCore self.now cache.old }
        requires told { tells self.now.which_captures ≡ true }
        ensures told { (r : Patterns) → IsCoreFor self.now r → BeginsEachRun self.now.pre self.now.nfa input.now
            → IsToldFor self.now.kind r input.now slots.new result }
        ensures within { IfSome result (LiesIn input.now) }
        ensures in_range { IfSome result (λ m. m.pattern < length self.now.nfa.starts) }
        ensures slots_within { AreWithin input.now slots.new }
        ensures none { IfNone result (slots.new ≡ replicate (length slots.old) None) }
        ensures cache { FitsCore self.now cache.new }
        ensures memory { AccountsAlikeIn self.now cache.old cache.new }
    {
        match self.get_onepass(input) {
            Some(engine) => find_in_one_pass(engine, &mut cache.onepass, input, slots),
            None => self.search_states(cache, input, slots),
        }
    }

    /// The same by an engine that goes through the states of the NFA, under each kind of captures.
    fn search_states(
        &self,
        cache: &mut Cache,
        input: &Input<'_>,
        slots: &mut [Option<NonMaxUsize>],
    ) -> Option<Match>
        requires { FitsCore self.now cache.old }
        ensures answer { BeginsEachRun self.now.pre self.now.nfa input.now → IsSearched self.now.nfa input.now slots.new result }
        ensures within { IfSome result (LiesIn input.now) }
        ensures in_range { IfSome result (λ m. m.pattern < length self.now.nfa.starts) }
        ensures slots_within { AreWithin input.now slots.new }
        ensures none { IfNone result (slots.new ≡ replicate (length slots.old) None) }
        ensures cache { FitsCore self.now cache.new }
        ensures memory { AccountsAlikeIn self.now cache.old cache.new }
    {
        // The choice, and then one call (DECISIONS: a core asks first which engine serves).
        match self.nofail_for(input) {
            Nofail::Backtrack(engine) => find_by_backtracking(
                engine,
                &mut cache.backtrack,
                input,
                slots,
            ),
            Nofail::PikeVM(engine) => engine.find_slots(&mut cache.pikevm, input, slots),
        }
    }

    /// The engine that is asked: the backtracker where there is one and the span is not too long for it.
    fn nofail_for(&self, input: &Input<'_>) -> Nofail<'_>
        ensures { IsAskedFor self.now input.now result }
    {
        match &self.backtrack {
            Some(engine) if input.get_span().len() <= engine.max_haystack_len() => {
                Nofail::Backtrack(engine)
            }
            _ => Nofail::PikeVM(&self.pikevm),
        }
    }
}

/// What the backtracker answers in a span that is not too long for it.
fn find_by_backtracking(
    engine: &BoundedBacktracker,
    cache: &mut Option<backtrack::Cache>,
    input: &Input<'_>,
    slots: &mut [Option<NonMaxUsize>],
) -> Option<Match>
    requires fits { IsSomeAnd cache.old (FitsBounded engine.now.nfa) }
    requires short { span_len input.now ≤ max_len engine.now.nfa }
    ensures answer { BeginsEachRun engine.now.pre engine.now.nfa input.now → IsSearched engine.now.nfa input.now slots.new result }
    ensures within { IfSome result (LiesIn input.now) }
    ensures in_range { IfSome result (λ m. m.pattern < length engine.now.nfa.starts) }
    ensures slots_within { AreWithin input.now slots.new }
    ensures none { IfNone result (slots.new ≡ replicate (length slots.old) None) }
    ensures cache { IsSomeAnd cache.new (FitsBounded engine.now.nfa) }
{
    let Some(cache) = cache else {
        unreachable!();
    };
    match engine.try_find_slots(cache, input, slots) {
        Ok(found) => found,
        // Its only error is that the span is too long.
        Err(_) => unreachable!(),
    }
}
