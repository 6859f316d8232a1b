//! Where a search goes by candidates, and what it answers after an attempt.
ghost use Rattle.std.specs.Prelude.{◌≡◌, ◌<◌, true, false, length, None, replicate, option_map, IfOk, IfSome, IfNone, OnErr, IsOk};
ghost use Rattle.rx_model.specs.Expression.{Expression};
ghost use Rattle.rx_model.specs.Search.{is_anchored};
ghost use Rattle.rx_search.specs.Answer.{IsAnswer, AreSlotsOfAnswer, TellsWhether, half_of};
ghost use Rattle.rx_search.specs.Input.{IsSpanned};
ghost use Rattle.rx_search.specs.Matches.{match_value, half_match_value};
ghost use Rattle.rx_search.specs.Told.{AreWithin, LiesIn, HalfLiesIn};
ghost use Rattle.rx_hir.specs.PropertiesViews.{AreOf};
ghost use Rattle.rx_strategy.specs.Cache.{Fits, AccountsAlike};
ghost use Rattle.rx_strategy.specs.Config.{kind_of, is_leftmost};
ghost use Rattle.rx_strategy.specs.Impossible.{IsKnownImpossible};
ghost use Rattle.rx_strategy.specs.Strategy.{kind_in, pattern_count, prefilter_in, properties_of, tells_in};
ghost use Rattle.rx_strategies.specs.Attempts.{HasTried, HasTriedWhether};
ghost use Rattle.rx_strategies.specs.Choice.{may_attempt};

use rx_attempts::Stop;
use rx_limited::RetryError;
use rx_search::{HalfMatch, Input, Look, Match, MatchKind, Memory, NonMaxUsize};
use rx_strategy::{Cache, Config, Strategy};

/// Whether the core's patterns may be searched by candidates: prefilters are made, the kind is leftmost-first, there are DFAs, no
/// prefilter of the core is expected to be fast, and not each match begins at the start of the haystack.
pub(crate) fn may_attempt(config: &Config, core: &Strategy) -> bool
    ensures { (h : Expression) → AreOf h (properties_of core.now) → result ≡ may_attempt config.now core.now h }
{
    if !config.get_auto_prefilter() {
        return false;
    }
    if !is_leftmost(config) {
        return false;
    }
    if !core.has_dfas() {
        return false;
    }
    if core.is_accelerated() {
        return false;
    }
    let begins = core.properties().look_set_prefix();
    !begins.contains(Look::Start)
}

/// Whether the kind of match is leftmost-first.
fn is_leftmost(config: &Config) -> bool
    ensures { result ≡ is_leftmost (kind_of config.now) }
{
    match config.get_match_kind() {
        MatchKind::LeftmostFirst => true,
        MatchKind::All => false,
    }
}

/// Whether matches are told, and the input is not anchored.
pub(crate) fn tells_free(core: &Strategy, input: &Input<'_>) -> bool
    ensures told { result ≡ true → tells_in core.now ≡ true }
    ensures free { result ≡ true → is_anchored input.now.anchor ≡ false }
    ensures spanned { IsSpanned input.now }
{
    let _haystack = input.haystack();
    if input.get_anchored().is_anchored() {
        return false;
    }
    core.tells()
}

/// The end of the next match, with its pattern, after an attempt: of the match that it found; or else what the core answers, where bytes
/// would be read again and again or patience was lost, and its engines alone, where a DFA has no answer.
///
/// `Memory`: there was no memory for the search.
pub(crate) fn half_after(
    core: &Strategy,
    cache: &mut Cache,
    input: &Input<'_>,
    tried: Result<Option<Match>, Stop>,
) -> Result<Option<HalfMatch>, Memory>
    requires fits { Fits core.now cache.old }
    requires spanned { IsSpanned input.now }
    requires told { tells_in core.now ≡ true }
    requires lies { IfOk tried (λ found. IfSome found (LiesIn input.now)) }
    requires in_range { IfOk tried (λ found. IfSome found (λ m. m.pattern < pattern_count core.now)) }
    ensures answer { IfOk result (IsAnswer (λ r. HasTried core.now input.now tried r) (prefilter_in core.now) (kind_in core.now) input.now half_match_value) }
    ensures within { IfOk result (λ o. IfSome o (HalfLiesIn input.now)) }
    ensures in_range { IfOk result (λ o. IfSome o (λ half. half.pattern < pattern_count core.now)) }
    ensures cache { Fits core.now cache.new }
    ensures memory { AccountsAlike core.now cache.old cache.new }
    ensures sure { IsKnownImpossible (properties_of core.now) input.now → IsOk result }
{
    match tried {
        Ok(found) => Ok(half_match(found)),
        Err(Stop::Dense | Stop::Retry(RetryError::Quadratic(_))) => core.search_half(cache, input),
        Err(_) => Ok(core.search_half_nofail(cache, input)),
    }
}

/// The next match with its slots after an attempt, as `half_after`.
///
/// `Memory`: there was no memory for the search.
pub(crate) fn slots_after(
    core: &Strategy,
    cache: &mut Cache,
    input: &Input<'_>,
    tried: Result<Option<Match>, Stop>,
    slots: &mut [Option<NonMaxUsize>],
) -> Result<Option<Match>, Memory>
    requires fits { Fits core.now cache.old }
    requires spanned { IsSpanned input.now }
    requires told { tells_in core.now ≡ true }
    requires lies { IfOk tried (λ found. IfSome found (LiesIn input.now)) }
    requires in_range { IfOk tried (λ found. IfSome found (λ m. m.pattern < pattern_count core.now)) }
    ensures answer { IfOk result (IsAnswer (λ r. HasTried core.now input.now tried r) (prefilter_in core.now) (kind_in core.now) input.now match_value) }
    ensures slots { IfOk result (AreSlotsOfAnswer (λ r. HasTried core.now input.now tried r) (prefilter_in core.now) (kind_in core.now) input.now match_value slots.new) }
    ensures within { IfOk result (λ o. IfSome o (LiesIn input.now)) }
    ensures in_range { IfOk result (λ o. IfSome o (λ m. m.pattern < pattern_count core.now)) }
    ensures none { IfOk result (λ o. IfNone o (slots.new ≡ replicate (length slots.old) None)) }
    ensures err { OnErr result (slots.new ≡ replicate (length slots.old) None) }
    ensures slots_within { AreWithin input.now slots.new }
    ensures cache { Fits core.now cache.new }
    ensures memory { AccountsAlike core.now cache.old cache.new }
    ensures sure { IsKnownImpossible (properties_of core.now) input.now → IsOk result }
{
    match tried {
        Ok(found) => Ok(core.tell_found(cache, input, found, slots)),
        Err(Stop::Dense | Stop::Retry(RetryError::Quadratic(_))) => core.search_slots(
            cache, input, slots,
        ),
        Err(_) => Ok(core.search_slots_nofail(cache, input, slots)),
    }
}

/// Whether there is a match, after an attempt that may have found any, as `half_after`.
///
/// `Memory`: there was no memory for the search.
pub(crate) fn whether_after(
    core: &Strategy,
    cache: &mut Cache,
    input: &Input<'_>,
    tried: Result<Option<Match>, Stop>,
) -> Result<bool, Memory>
    requires fits { Fits core.now cache.old }
    requires spanned { IsSpanned input.now }
    ensures value { IfOk result (TellsWhether (λ r. HasTriedWhether core.now input.now tried r) (prefilter_in core.now) input.now) }
    ensures cache { Fits core.now cache.new }
    ensures memory { AccountsAlike core.now cache.old cache.new }
    ensures sure { IsKnownImpossible (properties_of core.now) input.now → IsOk result }
{
    match tried {
        Ok(found) => Ok(found.is_some()),
        Err(Stop::Dense | Stop::Retry(RetryError::Quadratic(_))) => core.is_match(cache, input),
        Err(_) => Ok(core.is_match_nofail(cache, input)),
    }
}

/// The pattern and the end of the match.
pub(crate) fn half_match(found: Option<Match>) -> Option<HalfMatch>
    ensures { result ≡ option_map half_of found }
{
    match found {
        Some(found) => Some(HalfMatch::new(found.pattern(), found.end())),
        None => None,
    }
}
