//! What a core answers where each match ends where the searched span does.
ghost use Rattle.std.specs.Prelude.{◌≡◌, ◌<◌, ◌≤◌, false, true, length, None, replicate, is_some, IfOk, IfSome, IfNone};
ghost use Rattle.rx_model.specs.Search.{Patterns, is_anchored};
ghost use Rattle.rx_search.specs.Answer.{IsAnswer, AreSlotsOfAnswer};
ghost use Rattle.rx_search.specs.Input.{IsSpanned};
ghost use Rattle.rx_search.specs.Matches.{match_value};
ghost use Rattle.rx_search.specs.Promise.{Premises};
ghost use Rattle.rx_search.specs.Told.{tells, AreWithin, LiesIn};
ghost use Rattle.rx_dfa.specs.Search.{IsAnswerFor};
ghost use Rattle.rx_strategy.specs.Cache.{FitsCore, AccountsAlikeIn};
ghost use Rattle.rx_strategy.specs.Core.{IsCoreFor};
ghost use Rattle.rx_strategy.specs.Dfas.{pair_of};
ghost use Rattle.rx_strategy.specs.Ending.{EndsWithSpan, is_fast_by};

use crate::cache::Cache;
use crate::dfas::NoAnswer;
use crate::strategy::engines::Core;
use rx_search::{Input, Match, NonMaxUsize};

impl Core {
    /// Whether there are DFAs.
    pub(crate) fn has_dfas(&self) -> bool
        ensures { result ≡ is_some (pair_of self.now.dfas) }
    {
        self.dfas.are_there()
    }

    /// Whether there is a prefilter that is expected to be fast.
    pub(crate) fn is_accelerated(&self) -> bool
        ensures { result ≡ is_fast_by self.now.pre }
    {
        match &self.pre {
            Some(pre) => pre.is_fast(),
            None => false,
        }
    }

    /// The next match in the input's span by the DFA that reads backwards, where each match ends with the span, or no answer.
    pub(crate) fn try_search_ending(
        &self,
        cache: &mut Cache,
        input: &Input<'_>,
    ) -> Result<Option<Match>, NoAnswer>
        requires fits { FitsCore self.now cache.old }
        requires free { is_anchored input.now.anchor ≡ false }
        ensures answer { (r : Patterns) → Premises (IsCoreFor self.now r) self.now.pre r input.now → EndsWithSpan r input.now
            → IfOk result (IsAnswerFor self.now.kind r input.now match_value) }
        ensures within { IfOk result (λ found. IfSome found (LiesIn input.now)) }
        ensures in_range { IfOk result (λ found. IfSome found (λ m. m.pattern < length self.now.nfa.starts)) }
        ensures cache { FitsCore self.now cache.new }
        ensures memory { AccountsAlikeIn self.now cache.old cache.new }
    {
        self.get_dfas().try_search_ending(&mut cache.lazies, input)
    }

    /// The match that was found, with its slots, where matches are told.
    pub(crate) fn leave_found(
        &self,
        cache: &mut Cache,
        input: &Input<'_>,
        found: Option<Match>,
        slots: &mut [Option<NonMaxUsize>],
    ) -> Option<Match>
        requires fits { FitsCore self.now cache.old }
        requires spanned { IsSpanned input.now }
        requires told { tells self.now.which_captures ≡ true }
        requires right { (r : Patterns) → Premises (IsCoreFor self.now r) self.now.pre r input.now → IsAnswerFor self.now.kind r input.now match_value found }
        requires lies { IfSome found (LiesIn input.now) }
        requires in_range { IfSome found (λ m. m.pattern < length self.now.nfa.starts) }
        ensures answer { IsAnswer (IsCoreFor self.now) self.now.pre self.now.kind input.now match_value result }
        ensures slots { AreSlotsOfAnswer (IsCoreFor self.now) self.now.pre self.now.kind input.now match_value slots.new result }
        ensures within { IfSome result (LiesIn input.now) }
        ensures in_range { IfSome result (λ m. m.pattern < length self.now.nfa.starts) }
        ensures none { IfNone result (slots.new ≡ replicate (length slots.old) None) }
        ensures slots_within { AreWithin input.now slots.new }
        ensures cache { FitsCore self.now cache.new }
        ensures memory { AccountsAlikeIn self.now cache.old cache.new }
    {
        self.tell_found(cache, input, found, slots)
    }
}
