//! Searches of a core by its DFAs, which may have no answer.
ghost use Rattle.std.specs.Prelude.{◌≡◌, ◌≤◌, ◌<◌, true, false, length, is_some, Some, option_copied, IfOk, OnOk, IfSome};
ghost use Rattle.rx_model.specs.Expression.{Expression};
ghost use Rattle.rx_model.specs.Search.{Patterns, is_anchored};
ghost use Rattle.rx_search.specs.Input.{IsSpanned, next_in};
ghost use Rattle.rx_search.specs.Matches.{match_value, half_match_value};
ghost use Rattle.rx_search.specs.Promise.{Premises};
ghost use Rattle.rx_search.specs.Told.{LiesIn, HalfLiesIn};
ghost use Rattle.rx_search.specs.declared.anchored.MatchKind.TheVariants.{LeftmostFirst};
ghost use Rattle.rx_search.specs.Sets.{KeepsMembers, AddsMatching, IsFilledFor};
ghost use Rattle.rx_hir.specs.PropertiesViews.{AreOf};
ghost use Rattle.rx_dfa.specs.Search.{IsAnswerFor};
ghost use Rattle.rx_strategy.specs.Cache.{FitsCore, AccountsAlikeIn};
ghost use Rattle.rx_strategy.specs.Core.{IsCoreFor};
ghost use Rattle.rx_strategy.specs.Impossible.{is_always_anchored_start};
ghost use Rattle.rx_strategy.specs.Narrow.{IsLenOf};

use crate::cache::Cache;
use crate::dfas::NoAnswer;
use crate::narrow::{begins_with_span, match_from_start, match_of_len};
use crate::strategy::engines::Core;
use rx_prefilter::Prefilter;
use rx_search::{Anchored, HalfMatch, Input, Match, MatchKind, PatternSet};

impl Core {
    /// Whether there is a match in the input's span, by a DFA that stops at the first one, or no answer.
    pub(crate) fn try_is_match(
        &self,
        cache: &mut Cache,
        input: &Input<'_>,
    ) -> Result<bool, NoAnswer>
        requires fits { FitsCore self.now cache.old }
        ensures value { (r : Patterns) → Premises (IsCoreFor self.now r) self.now.pre r input.now → IfOk result (λ there. there ≡ is_some (next_in r input.now)) }
        ensures cache { FitsCore self.now cache.new }
        ensures memory { AccountsAlikeIn self.now cache.old cache.new }
    {
        let mut any = input.clone();
        any.set_earliest(true);
        match self.try_search_half(cache, &any) {
            Ok(found) => Ok(found.is_some()),
            Err(error) => Err(error),
        }
    }

    /// A match in the input's span by the DFAs, or no answer: the next one, or where any will do, or under `All`, some match.
    pub(crate) fn try_search_mayfail(
        &self,
        cache: &mut Cache,
        input: &Input<'_>,
    ) -> Result<Option<Match>, NoAnswer>
        requires fits { FitsCore self.now cache.old }
        requires spanned { IsSpanned input.now }
        ensures answer { (r : Patterns) → Premises (IsCoreFor self.now r) self.now.pre r input.now
            → IfOk result (IsAnswerFor self.now.kind r input.now match_value) }
        ensures within { IfOk result (λ found. IfSome found (LiesIn input.now)) }
        ensures in_range { IfOk result (λ found. IfSome found (λ m. m.pattern < length self.now.nfa.starts)) }
        ensures cache { FitsCore self.now cache.new }
        ensures memory { AccountsAlikeIn self.now cache.old cache.new }
    {
        match self.info.fixed_len() {
            Some(len) => self.try_search_of_len(cache, input, len),
            None => self.try_search_both(cache, input),
        }
    }

    /// The same where all matches have this length: nothing is read backwards.
    fn try_search_of_len(
        &self,
        cache: &mut Cache,
        input: &Input<'_>,
        len: usize,
    ) -> Result<Option<Match>, NoAnswer>
        requires fits { FitsCore self.now cache.old }
        requires spanned { IsSpanned input.now }
        requires len { (h : Expression) → AreOf h self.now.properties → IsLenOf h len }
        ensures answer { (r : Patterns) → Premises (IsCoreFor self.now r) self.now.pre r input.now
            → IfOk result (IsAnswerFor self.now.kind r input.now match_value) }
        ensures within { IfOk result (λ found. IfSome found (LiesIn input.now)) }
        ensures in_range { IfOk result (λ found. IfSome found (λ m. m.pattern < length self.now.nfa.starts)) }
        ensures cache { FitsCore self.now cache.new }
        ensures memory { AccountsAlikeIn self.now cache.old cache.new }
    {
        match self.try_search_half(cache, input) {
            Ok(found) => Ok(match_of_len(input, found, len)),
            Err(error) => Err(error),
        }
    }

    /// The same by the DFA that reads forwards, for the end, and then by that which reads backwards, for the start.
    fn try_search_both(
        &self,
        cache: &mut Cache,
        input: &Input<'_>,
    ) -> Result<Option<Match>, NoAnswer>
        requires { FitsCore self.now cache.old }
        ensures answer { (r : Patterns) → Premises (IsCoreFor self.now r) self.now.pre r input.now
            → IfOk result (IsAnswerFor self.now.kind r input.now match_value) }
        ensures within { IfOk result (λ found. IfSome found (LiesIn input.now)) }
        ensures in_range { IfOk result (λ found. IfSome found (λ m. m.pattern < length self.now.nfa.starts)) }
        ensures cache { FitsCore self.now cache.new }
        ensures memory { AccountsAlikeIn self.now cache.old cache.new }
    {
        let found = match self.try_search_half(cache, input) {
            Ok(found) => found,
            Err(error) => return Err(error),
        };
        match found {
            Some(end) => self.try_search_start(cache, input, end),
            None => Ok(None),
        }
    }

    /// The match that ends there, where `try_search_half` answered this end, or no answer.
    fn try_search_start(
        &self,
        cache: &mut Cache,
        input: &Input<'_>,
        end: HalfMatch,
    ) -> Result<Option<Match>, NoAnswer>
        requires fits { FitsCore self.now cache.old }
        requires lies { HalfLiesIn input.now end }
        requires in_range { end.pattern < length self.now.nfa.starts }
        ensures answer { (r : Patterns) → Premises (IsCoreFor self.now r) self.now.pre r input.now
            → IsAnswerFor self.now.kind r input.now half_match_value (Some end) → IfOk result (IsAnswerFor self.now.kind r input.now match_value) }
        ensures within { IfOk result (λ found. IfSome found (LiesIn input.now)) }
        ensures in_range { IfOk result (λ found. IfSome found (λ m. m.pattern < length self.now.nfa.starts)) }
        ensures cache { FitsCore self.now cache.new }
        ensures memory { AccountsAlikeIn self.now cache.old cache.new }
    {
        // Nothing is read backwards where the place is known.
        if begins_with_span(input, end) {
            return Ok(Some(match_from_start(input, end)));
        }
        self.get_dfas()
            .try_search_start(&mut cache.lazies, input, end)
    }

    /// The end of the match that `try_search_mayfail` answers, by the DFA that reads forwards, or no answer.
    pub(crate) fn try_search_half(
        &self,
        cache: &mut Cache,
        input: &Input<'_>,
    ) -> Result<Option<HalfMatch>, NoAnswer>
        requires { FitsCore self.now cache.old }
        ensures answer { (r : Patterns) → Premises (IsCoreFor self.now r) self.now.pre r input.now
            → IfOk result (IsAnswerFor self.now.kind r input.now half_match_value) }
        ensures within { IfOk result (λ found. IfSome found (HalfLiesIn input.now)) }
        ensures in_range { IfOk result (λ found. IfSome found (λ half. half.pattern < length self.now.nfa.starts)) }
        ensures cache { FitsCore self.now cache.new }
        ensures memory { AccountsAlikeIn self.now cache.old cache.new }
    {
        // A DFA that may begin anywhere is never dead, so it would read the whole span.
        if self.begins_once(input) {
            let first = input.clone().anchored(Anchored::Yes);
            return self.try_search_end(cache, &first);
        }
        self.try_search_end(cache, input)
    }

    /// Whether the search may begin anywhere, though each match begins at the start of the haystack.
    fn begins_once(&self, input: &Input<'_>) -> bool
        ensures { result ≡ true → (is_anchored input.now.anchor ≡ false)
            × ((h : Expression) → AreOf h self.now.properties → is_always_anchored_start h ≡ true) }
    {
        if input.get_anchored().is_anchored() {
            return false;
        }
        self.info.is_always_anchored_start()
    }

    /// As `try_search_half`, from where the input lets a match begin.
    fn try_search_end(
        &self,
        cache: &mut Cache,
        input: &Input<'_>,
    ) -> Result<Option<HalfMatch>, NoAnswer>
        requires { FitsCore self.now cache.old }
        ensures answer { (r : Patterns) → Premises (IsCoreFor self.now r) self.now.pre r input.now
            → IfOk result (IsAnswerFor self.now.kind r input.now half_match_value) }
        ensures within { IfOk result (λ found. IfSome found (HalfLiesIn input.now)) }
        ensures in_range { IfOk result (λ found. IfSome found (λ half. half.pattern < length self.now.nfa.starts)) }
        ensures cache { FitsCore self.now cache.new }
        ensures memory { AccountsAlikeIn self.now cache.old cache.new }
    {
        let pre = self.looks_for(input);
        self.get_dfas()
            .try_search_half(&mut cache.lazies, pre, input)
    }

    /// The prefilter by which a DFA goes from candidate to candidate. An anchored search has one place to look at, and under `All` the
    /// end of the last match is sought, so each byte is read anyway.
    fn looks_for(&self, input: &Input<'_>) -> Option<&Prefilter>
        ensures begins { (r : Patterns) → Premises (IsCoreFor self.now r) self.now.pre r input.now
            → Premises (IsCoreFor self.now r) (option_copied result) r input.now }
        ensures leftmost { IfSome (option_copied result) (λ needles. self.now.kind ≡ LeftmostFirst) }
        ensures free { IfSome (option_copied result) (λ needles. is_anchored input.now.anchor ≡ false) }
    {
        if input.get_anchored().is_anchored() {
            return None;
        }
        match self.kind {
            MatchKind::LeftmostFirst => self.pre.as_ref(),
            MatchKind::All => None,
        }
    }

    /// The same by the DFA that reads forwards, or no answer. Then what was added stays.
    pub(crate) fn try_which_overlapping(
        &self,
        cache: &mut Cache,
        input: &Input<'_>,
        set: &mut PatternSet,
    ) -> Result<(), NoAnswer>
        requires fits { FitsCore self.now cache.old }
        requires room { length self.now.nfa.starts ≤ length set.old }
        ensures kept { KeepsMembers set.old set.new }
        ensures matching { AddsMatching (IsCoreFor self.now) self.now.pre input.now set.old set.new }
        ensures filled { (r : Patterns) → Premises (IsCoreFor self.now r) self.now.pre r input.now
            → OnOk result (IsFilledFor r input.now set.old set.new self.now.kind) }
        ensures cache { FitsCore self.now cache.new }
        ensures memory { AccountsAlikeIn self.now cache.old cache.new }
    {
        self.get_dfas()
            .try_which_overlapping(&mut cache.lazies, input, set)
    }
}
