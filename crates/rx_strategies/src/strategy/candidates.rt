//! The strategies that search by candidates, with the cache of their core.
ghost use Rattle.std.specs.Prelude.{◌≡◌, ◌<◌, false, length, None, replicate, IfOk, OnErr, IsOk, IsSomeAnd, IfNone, IfSome};
ghost use Rattle.rx_search.specs.Answer.{IsAnswer, AreSlotsOfAnswer, TellsWhether};
ghost use Rattle.rx_search.specs.Matches.{match_value, half_match_value};
ghost use Rattle.rx_search.specs.Told.{AreWithin, LiesIn, HalfLiesIn};
ghost use Rattle.rx_strategy.specs.Cache.{Fits};
ghost use Rattle.rx_strategy.specs.Impossible.{IsKnownImpossible};
ghost use Rattle.rx_strategy.specs.Strategy.{kind_in, pattern_count, properties_of, prefilter_in};
ghost use Rattle.rx_strategies.specs.Cache.{AreAlike};
ghost use Rattle.rx_strategy.specs.Prefix.{FitsPrefix, are_states};
ghost use Rattle.rx_strategies.specs.Attempts.{IsSuffixFor, IsInnerFor};
ghost use Rattle.rx_strategies.specs.Strategy.{suffix_memory, inner_memory};

use crate::inner::ReverseInner;
use crate::strategy::cores::core_memory;
use crate::suffix::ReverseSuffix;
use rx_search::{HalfMatch, Input, Match, Memory, NonMaxUsize};
use rx_strategy::{Cache, PrefixCache};

/// The end of the next match, with its pattern, by the literal that ends each match.
pub(crate) fn suffix_half(
    suffix: &ReverseSuffix,
    rooms: &mut Option<Cache>,
    input: &Input<'_>,
) -> Result<Option<HalfMatch>, Memory>
    requires { IsSomeAnd rooms.old (Fits suffix.now.core) }
    ensures answer { IfOk result (IsAnswer (IsSuffixFor suffix.now) (prefilter_in suffix.now.core) (kind_in suffix.now.core) input.now half_match_value) }
    ensures within { IfOk result (λ o. IfSome o (HalfLiesIn input.now)) }
    ensures in_range { IfOk result (λ o. IfSome o (λ half. half.pattern < pattern_count suffix.now.core)) }
    ensures cache { IsSomeAnd rooms.new (Fits suffix.now.core) }
    ensures memory { AreAlike suffix.now.core rooms.old rooms.new }
    ensures sure { IsKnownImpossible (properties_of suffix.now.core) input.now → IsOk result }
{
    let Some(rooms) = rooms else {
        unreachable!();
    };
    suffix.search_half(rooms, input)
}

/// The next match with its slots, by the literal that ends each match.
pub(crate) fn suffix_slots(
    suffix: &ReverseSuffix,
    rooms: &mut Option<Cache>,
    input: &Input<'_>,
    slots: &mut [Option<NonMaxUsize>],
) -> Result<Option<Match>, Memory>
    requires { IsSomeAnd rooms.old (Fits suffix.now.core) }
    ensures answer { IfOk result (IsAnswer (IsSuffixFor suffix.now) (prefilter_in suffix.now.core) (kind_in suffix.now.core) input.now match_value) }
    ensures slots { IfOk result (AreSlotsOfAnswer (IsSuffixFor suffix.now) (prefilter_in suffix.now.core) (kind_in suffix.now.core) input.now match_value slots.new) }
    ensures within { IfOk result (λ o. IfSome o (LiesIn input.now)) }
    ensures in_range { IfOk result (λ o. IfSome o (λ m. m.pattern < pattern_count suffix.now.core)) }
    ensures none { IfOk result (λ o. IfNone o (slots.new ≡ replicate (length slots.old) None)) }
    ensures err { OnErr result (slots.new ≡ replicate (length slots.old) None) }
    ensures slots_within { AreWithin input.now slots.new }
    ensures cache { IsSomeAnd rooms.new (Fits suffix.now.core) }
    ensures memory { AreAlike suffix.now.core rooms.old rooms.new }
    ensures sure { IsKnownImpossible (properties_of suffix.now.core) input.now → IsOk result }
{
    let Some(rooms) = rooms else {
        unreachable!();
    };
    suffix.search_slots(rooms, input, slots)
}

/// Whether there is a match, by the literal that ends each match.
pub(crate) fn suffix_is_match(
    suffix: &ReverseSuffix,
    rooms: &mut Option<Cache>,
    input: &Input<'_>,
) -> Result<bool, Memory>
    requires { IsSomeAnd rooms.old (Fits suffix.now.core) }
    ensures value { IfOk result (TellsWhether (IsSuffixFor suffix.now) (prefilter_in suffix.now.core) input.now) }
    ensures cache { IsSomeAnd rooms.new (Fits suffix.now.core) }
    ensures memory { AreAlike suffix.now.core rooms.old rooms.new }
    ensures sure { IsKnownImpossible (properties_of suffix.now.core) input.now → IsOk result }
{
    let Some(rooms) = rooms else {
        unreachable!();
    };
    suffix.is_match(rooms, input)
}

/// The end of the next match, with its pattern, by literals within each match.
pub(crate) fn inner_half(
    inner: &ReverseInner,
    rooms: &mut Option<Cache>,
    states: &mut PrefixCache,
    input: &Input<'_>,
) -> Result<Option<HalfMatch>, Memory>
    requires fits { IsSomeAnd rooms.old (Fits inner.now.core) }
    requires states_fit { FitsPrefix inner.now.prefix states.old }
    ensures answer { IfOk result (IsAnswer (IsInnerFor inner.now) (prefilter_in inner.now.core) (kind_in inner.now.core) input.now half_match_value) }
    ensures within { IfOk result (λ o. IfSome o (HalfLiesIn input.now)) }
    ensures in_range { IfOk result (λ o. IfSome o (λ half. half.pattern < pattern_count inner.now.core)) }
    ensures cache { IsSomeAnd rooms.new (Fits inner.now.core) }
    ensures states_fit { FitsPrefix inner.now.prefix states.new }
    ensures states_same { are_states inner.now.prefix ≡ false → states.new ≡ states.old }
    ensures memory { AreAlike inner.now.core rooms.old rooms.new }
    ensures sure { IsKnownImpossible (properties_of inner.now.core) input.now → IsOk result }
{
    let Some(rooms) = rooms else {
        unreachable!();
    };
    inner.search_half(rooms, states, input)
}

/// The next match with its slots, by literals within each match.
pub(crate) fn inner_slots(
    inner: &ReverseInner,
    rooms: &mut Option<Cache>,
    states: &mut PrefixCache,
    input: &Input<'_>,
    slots: &mut [Option<NonMaxUsize>],
) -> Result<Option<Match>, Memory>
    requires fits { IsSomeAnd rooms.old (Fits inner.now.core) }
    requires states_fit { FitsPrefix inner.now.prefix states.old }
    ensures answer { IfOk result (IsAnswer (IsInnerFor inner.now) (prefilter_in inner.now.core) (kind_in inner.now.core) input.now match_value) }
    ensures slots { IfOk result (AreSlotsOfAnswer (IsInnerFor inner.now) (prefilter_in inner.now.core) (kind_in inner.now.core) input.now match_value slots.new) }
    ensures within { IfOk result (λ o. IfSome o (LiesIn input.now)) }
    ensures in_range { IfOk result (λ o. IfSome o (λ m. m.pattern < pattern_count inner.now.core)) }
    ensures none { IfOk result (λ o. IfNone o (slots.new ≡ replicate (length slots.old) None)) }
    ensures err { OnErr result (slots.new ≡ replicate (length slots.old) None) }
    ensures slots_within { AreWithin input.now slots.new }
    ensures cache { IsSomeAnd rooms.new (Fits inner.now.core) }
    ensures states_fit { FitsPrefix inner.now.prefix states.new }
    ensures states_same { are_states inner.now.prefix ≡ false → states.new ≡ states.old }
    ensures memory { AreAlike inner.now.core rooms.old rooms.new }
    ensures sure { IsKnownImpossible (properties_of inner.now.core) input.now → IsOk result }
{
    let Some(rooms) = rooms else {
        unreachable!();
    };
    inner.search_slots(rooms, states, input, slots)
}

/// Whether there is a match, by literals within each match.
pub(crate) fn inner_is_match(
    inner: &ReverseInner,
    rooms: &mut Option<Cache>,
    states: &mut PrefixCache,
    input: &Input<'_>,
) -> Result<bool, Memory>
    requires fits { IsSomeAnd rooms.old (Fits inner.now.core) }
    requires states_fit { FitsPrefix inner.now.prefix states.old }
    ensures value { IfOk result (TellsWhether (IsInnerFor inner.now) (prefilter_in inner.now.core) input.now) }
    ensures cache { IsSomeAnd rooms.new (Fits inner.now.core) }
    ensures states_fit { FitsPrefix inner.now.prefix states.new }
    ensures states_same { are_states inner.now.prefix ≡ false → states.new ≡ states.old }
    ensures memory { AreAlike inner.now.core rooms.old rooms.new }
    ensures sure { IsKnownImpossible (properties_of inner.now.core) input.now → IsOk result }
{
    let Some(rooms) = rooms else {
        unreachable!();
    };
    inner.is_match(rooms, states, input)
}

/// What is accounted for the core and the properties, and for the search for the literal.
pub(crate) fn suffix_memory(suffix: &ReverseSuffix) -> usize
    ensures { result ≡ suffix_memory suffix.now }
{
    core_memory(suffix.core()).saturating_add(suffix.prefilter().memory_usage())
}

/// What is accounted for the core and the properties, for the search for the literals, and for what reads the prefix.
pub(crate) fn inner_memory(inner: &ReverseInner) -> usize
    ensures { result ≡ inner_memory inner.now }
{
    core_memory(inner.core())
        .saturating_add(inner.prefilter().memory_usage())
        .saturating_add(inner.prefix().memory_usage())
}
