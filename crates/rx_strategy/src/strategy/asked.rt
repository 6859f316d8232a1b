//! What another strategy asks of this one.
ghost use Rattle.std.specs.Prelude.{◌≡◌, ◌<◌, false, true, length, None, replicate, IfOk, IfSome, IfNone};
ghost use Rattle.rx_model.specs.Search.{Patterns, is_anchored};
ghost use Rattle.rx_search.specs.Answer.{IsAnswer, AreSlotsOfAnswer};
ghost use Rattle.rx_search.specs.Input.{IsSpanned};
ghost use Rattle.rx_search.specs.Matches.{match_value};
ghost use Rattle.rx_search.specs.Promise.{Premises};
ghost use Rattle.rx_search.specs.Told.{AreWithin, LiesIn};
ghost use Rattle.rx_dfa.specs.Search.{IsAnswerFor};
ghost use Rattle.rx_strategy.specs.Cache.{Fits, AccountsAlike};
ghost use Rattle.rx_strategy.specs.Ending.{EndsWithSpan};
ghost use Rattle.rx_strategy.specs.Strategy.{IsFor, kind_in, pattern_count, prefilter_in, tells_in, has_dfas, is_accelerated};

use crate::cache::Cache;
use crate::dfas::NoAnswer;
use crate::strategy::Strategy;
use rx_search::{Input, Match, NonMaxUsize};

impl Strategy {
    /// Whether matches are told.
    pub fn tells(&self) -> bool
        ensures { result ≡ tells_in self.now }
    {
        match self {
            Strategy::Core(core) => core.tells(),
        }
    }

    /// Whether there are DFAs.
    pub fn has_dfas(&self) -> bool
        ensures { result ≡ has_dfas self.now }
    {
        match self {
            Strategy::Core(core) => core.has_dfas(),
        }
    }

    /// Whether there is a prefilter that is expected to be fast.
    pub fn is_accelerated(&self) -> bool
        ensures { result ≡ is_accelerated self.now }
    {
        match self {
            Strategy::Core(core) => core.is_accelerated(),
        }
    }

    /// The next match in the input's span by the DFA that reads backwards, where each match ends with the span, or no answer.
    pub fn try_search_ending(
        &self,
        cache: &mut Cache,
        input: &Input<'_>,
    ) -> Result<Option<Match>, NoAnswer>
        requires fits { Fits self.now cache.old }
        requires free { is_anchored input.now.anchor ≡ false }
        ensures answer { (r : Patterns) → Premises (IsFor self.now r) (prefilter_in self.now) r input.now → EndsWithSpan r input.now
            → IfOk result (IsAnswerFor (kind_in self.now) r input.now match_value) }
        ensures within { IfOk result (λ found. IfSome found (LiesIn input.now)) }
        ensures in_range { IfOk result (λ found. IfSome found (λ m. m.pattern < pattern_count self.now)) }
        ensures cache { Fits self.now cache.new }
        ensures memory { AccountsAlike self.now cache.old cache.new }
    {
        match self {
            Strategy::Core(core) => core.try_search_ending(cache, input),
        }
    }

    /// The match that was found, with its slots, where matches are told.
    pub fn leave_found(
        &self,
        cache: &mut Cache,
        input: &Input<'_>,
        found: Option<Match>,
        slots: &mut [Option<NonMaxUsize>],
    ) -> Option<Match>
        requires fits { Fits self.now cache.old }
        requires spanned { IsSpanned input.now }
        requires told { tells_in self.now ≡ true }
        requires right { (r : Patterns) → Premises (IsFor self.now r) (prefilter_in self.now) r input.now → IsAnswerFor (kind_in self.now) r input.now match_value found }
        requires lies { IfSome found (LiesIn input.now) }
        requires in_range { IfSome found (λ m. m.pattern < pattern_count self.now) }
        ensures answer { IsAnswer (IsFor self.now) (prefilter_in self.now) (kind_in self.now) input.now match_value result }
        ensures slots { AreSlotsOfAnswer (IsFor self.now) (prefilter_in self.now) (kind_in self.now) input.now match_value slots.new result }
        ensures within { IfSome result (LiesIn input.now) }
        ensures in_range { IfSome result (λ m. m.pattern < pattern_count self.now) }
        ensures none { IfNone result (slots.new ≡ replicate (length slots.old) None) }
        ensures slots_within { AreWithin input.now slots.new }
        ensures cache { Fits self.now cache.new }
        ensures memory { AccountsAlike self.now cache.old cache.new }
    {
        match self {
            Strategy::Core(core) => core.leave_found(cache, input, found, slots),
        }
    }
}
