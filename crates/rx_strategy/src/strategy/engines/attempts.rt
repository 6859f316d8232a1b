//! What a core answers by attempts.
ghost use Rattle.std.specs.Prelude.{◌≡◌, ◌≤◌, ◌<◌, true, false, length, None, replicate, is_some, IfOk, IfNone, IfSome, ◌+◌, ◌*◌};
ghost use Rattle.rx_model.specs.Search.{Patterns, is_anchored};
ghost use Rattle.rx_search.specs.Input.{IsSpanned, span_len};
ghost use Rattle.rx_search.specs.Matches.{match_value};
ghost use Rattle.rx_search.specs.Promise.{Premises};
ghost use Rattle.rx_search.specs.Told.{tells, AreWithin, LiesIn};
ghost use Rattle.rx_dfa.specs.Search.{IsAnswerFor};
ghost use Rattle.rx_search.specs.Answer.{IsAnswer, AreSlotsOfAnswer};
ghost use Rattle.rx_strategy.specs.Cache.{FitsCore, AccountsAlikeIn};
ghost use Rattle.rx_strategy.specs.Core.{IsCoreFor};
ghost use Rattle.rx_strategy.specs.Dfas.{pair_of};
ghost use Rattle.std.specs.Result.{IfErr};
ghost use Rattle.rx_attempts.specs.Candidates.{AreNotEmpty};
ghost use Rattle.rx_attempts.specs.Stops.{StopsBy};
ghost use Rattle.rx_strategy.specs.Attempts.{HasSuffix, HasInner, IsOneNeedle, SuffixFailsIn, InnerFailsIn, HasCountedSuffix, HasCountedInner, IsToldBy};
ghost use Rattle.rx_strategy.specs.Prefix.{dfa_of, are_states, FitsPrefix, prefix_gives_up, prefix_wants};

use crate::cache::Cache;
use crate::prefix::{PrefixCache, PrefixDfa, Sort};
use crate::span::leave_span;
use crate::strategy::engines::Core;
use rx_attempts::{Patience, Stop};
use rx_prefilter::Prefilter;
use rx_search::{Input, Match, NonMaxUsize, Steps};
use std::sync::ledger::Ledger;

impl Core {
    /// The next match in the input's span of one expression that ends with this literal, by an attempt; or why it has no answer.
    pub(crate) fn try_reverse_suffix<L: Ledger>(
        &self,
        cache: &mut Cache,
        pre: &Prefilter,
        input: &Input<'_>,
        patience: Patience,
        steps: &mut Steps<L>,
    ) -> Result<Option<Match>, Stop>
        requires fits { FitsCore self.now cache.old }
        requires there { is_some (pair_of self.now.dfas) ≡ true }
        requires free { is_anchored input.now.anchor ≡ false }
        requires suffix { IsOneNeedle pre.now }
        ensures answer { (r : Patterns) → Premises (IsCoreFor self.now r) None r input.now → HasSuffix pre.now r
            → IfOk result (IsAnswerFor self.now.kind r input.now match_value) }
        ensures within { IfOk result (λ found. IfSome found (LiesIn input.now)) }
        ensures in_range { IfOk result (λ found. IfSome found (λ m. m.pattern < length self.now.nfa.starts)) }
        ensures err { IfErr result (StopsBy patience (SuffixFailsIn self.now.dfas pre.now input.now cache.new.lazies)) }
        ensures ticks { input.now.earliest ≡ false → IfOk result (HasCountedSuffix self.now.dfas pre.now input.now steps.old steps.new) }
        ensures few { steps.new ≤ steps.old + 8 * (span_len input.now + 1) }
        ensures cache { FitsCore self.now cache.new }
        ensures memory { AccountsAlikeIn self.now cache.old cache.new }
    {
        self.get_dfas()
            .try_reverse_suffix(&mut cache.lazies, pre, input, patience, steps)
    }

    /// The next match in the input's span of one expression with one of these literals behind its prefix, by an attempt; or why it has no
    /// answer. The DFA reads the prefix backwards.
    pub(crate) fn try_reverse_inner<L: Ledger>(
        &self,
        cache: &mut Cache,
        pre: &Prefilter,
        prefix: &PrefixDfa,
        states: &mut PrefixCache,
        input: &Input<'_>,
        patience: Patience,
        steps: &mut Steps<L>,
    ) -> Result<Option<Match>, Stop>
        requires fits { FitsCore self.now cache.old }
        requires states_fit { FitsPrefix prefix.now states.old }
        requires there { is_some (pair_of self.now.dfas) ≡ true }
        requires free { is_anchored input.now.anchor ≡ false }
        requires needles { AreNotEmpty pre.now }
        ensures answer { (r : Patterns) → Premises (IsCoreFor self.now r) None r input.now → HasInner (dfa_of prefix.now) pre.now r
            → IfOk result (IsAnswerFor self.now.kind r input.now match_value) }
        ensures within { IfOk result (λ found. IfSome found (LiesIn input.now)) }
        ensures in_range { IfOk result (λ found. IfSome found (λ m. m.pattern < length self.now.nfa.starts)) }
        ensures err { IfErr result (StopsBy patience (InnerFailsIn self.now.dfas (dfa_of prefix.now) pre.now input.now cache.new.lazies
            (prefix_gives_up prefix.now.sort states.new) (prefix_wants prefix.now.sort))) }
        ensures ticks { input.now.earliest ≡ false
            → IfOk result (HasCountedInner self.now.dfas (dfa_of prefix.now) pre.now input.now steps.old steps.new) }
        ensures few { steps.new ≤ steps.old + 8 * (span_len input.now + 1) }
        ensures cache { FitsCore self.now cache.new }
        ensures states_fit { FitsPrefix prefix.now states.new }
        ensures states_same { are_states prefix.now ≡ false → states.new ≡ states.old }
        ensures memory { AccountsAlikeIn self.now cache.old cache.new }
    {
        let dfas = self.get_dfas();
        match &prefix.sort {
            Sort::Full(rev) => dfas.try_reverse_inner(
                &mut cache.lazies,
                pre,
                rev,
                &mut (),
                input,
                patience,
                steps,
            ),
            Sort::Lazy(rev) => {
                let Some(rev_cache) = &mut states.lazy else {
                    unreachable!();
                };
                dfas.try_reverse_inner(
                    &mut cache.lazies,
                    pre,
                    rev,
                    rev_cache,
                    input,
                    patience,
                    steps,
                )
            }
        }
    }

    /// The match that was found, with its slots, where matches are told. Of the patterns for which it is the answer, the slots are those of
    /// the answer.
    pub(crate) fn tell_found(
        &self,
        cache: &mut Cache,
        input: &Input<'_>,
        found: Option<Match>,
        slots: &mut [Option<NonMaxUsize>],
    ) -> Option<Match>
        requires fits { FitsCore self.now cache.old }
        requires spanned { IsSpanned input.now }
        requires told { tells self.now.which_captures ≡ true }
        requires lies { IfSome found (LiesIn input.now) }
        requires in_range { IfSome found (λ m. m.pattern < length self.now.nfa.starts) }
        ensures answer { IsAnswer (λ r. IsToldBy (IsCoreFor self.now r) self.now.kind r input.now found) self.now.pre self.now.kind input.now match_value result }
        ensures slots { AreSlotsOfAnswer (λ r. IsToldBy (IsCoreFor self.now r) self.now.kind r input.now found) self.now.pre self.now.kind input.now match_value
            slots.new result }
        ensures within { IfSome result (LiesIn input.now) }
        ensures in_range { IfSome result (λ m. m.pattern < length self.now.nfa.starts) }
        ensures none { IfNone result (slots.new ≡ replicate (length slots.old) None) }
        ensures slots_within { AreWithin input.now slots.new }
        ensures cache { FitsCore self.now cache.new }
        ensures memory { AccountsAlikeIn self.now cache.old cache.new }
    {
        // As in a search: an engine keeps slots where groups are asked for alone.
        if slots.len() > 2 * self.get_nfa().pattern_len() {
            return self.search_found(cache, input, &found, slots);
        }
        let _haystack = input.haystack();
        leave_span(&found, slots);
        found
    }
}
