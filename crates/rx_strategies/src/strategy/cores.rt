//! The strategies that have a core, with the cache of it.
ghost use Rattle.std.specs.Prelude.{◌≡◌, ◌<◌, ◌≤◌, length, None, replicate, IfOk, OnOk, OnErr, IsOk, IsSomeAnd, IfNone, IfSome};
ghost use Rattle.rx_search.specs.Answer.{IsAnswer, AreSlotsOfAnswer, TellsWhether};
ghost use Rattle.rx_search.specs.Matches.{match_value, half_match_value};
ghost use Rattle.rx_search.specs.Sets.{KeepsMembers, AddsMatching, IsFilled};
ghost use Rattle.rx_search.specs.Told.{AreWithin, LiesIn, HalfLiesIn};
ghost use Rattle.rx_strategy.specs.Cache.{Fits};
ghost use Rattle.rx_strategy.specs.Impossible.{IsKnownImpossible};
ghost use Rattle.rx_strategy.specs.Strategy.{IsFor, kind_in, pattern_count, properties_of, prefilter_in};
ghost use Rattle.rx_strategies.specs.Cache.{AreAlike};
ghost use Rattle.rx_strategies.specs.Strategy.{core_memory};

use crate::anchored::ReverseAnchored;
use rx_search::{HalfMatch, Input, Match, Memory, NonMaxUsize, PatternSet};
use rx_strategy::{Cache, Strategy};

/// The bytes that are accounted for the properties of a pattern.
const PROPERTIES_SIZE: usize = 64;

/// The end of the next match, with its pattern, from the end of the haystack.
pub(crate) fn anchored_half(
    anchored: &ReverseAnchored,
    rooms: &mut Option<Cache>,
    input: &Input<'_>,
) -> Result<Option<HalfMatch>, Memory>
    requires { IsSomeAnd rooms.old (Fits anchored.now) }
    ensures answer { IfOk result (IsAnswer (IsFor anchored.now) (prefilter_in anchored.now) (kind_in anchored.now) input.now half_match_value) }
    ensures within { IfOk result (λ o. IfSome o (HalfLiesIn input.now)) }
    ensures in_range { IfOk result (λ o. IfSome o (λ half. half.pattern < pattern_count anchored.now)) }
    ensures cache { IsSomeAnd rooms.new (Fits anchored.now) }
    ensures memory { AreAlike anchored.now rooms.old rooms.new }
    ensures sure { IsKnownImpossible (properties_of anchored.now) input.now → IsOk result }
{
    let Some(rooms) = rooms else {
        unreachable!();
    };
    anchored.search_half(rooms, input)
}

/// The next match with its slots, from the end of the haystack.
pub(crate) fn anchored_slots(
    anchored: &ReverseAnchored,
    rooms: &mut Option<Cache>,
    input: &Input<'_>,
    slots: &mut [Option<NonMaxUsize>],
) -> Result<Option<Match>, Memory>
    requires { IsSomeAnd rooms.old (Fits anchored.now) }
    ensures answer { IfOk result (IsAnswer (IsFor anchored.now) (prefilter_in anchored.now) (kind_in anchored.now) input.now match_value) }
    ensures slots { IfOk result (AreSlotsOfAnswer (IsFor anchored.now) (prefilter_in anchored.now) (kind_in anchored.now) input.now match_value slots.new) }
    ensures within { IfOk result (λ o. IfSome o (LiesIn input.now)) }
    ensures in_range { IfOk result (λ o. IfSome o (λ m. m.pattern < pattern_count anchored.now)) }
    ensures none { IfOk result (λ o. IfNone o (slots.new ≡ replicate (length slots.old) None)) }
    ensures err { OnErr result (slots.new ≡ replicate (length slots.old) None) }
    ensures slots_within { AreWithin input.now slots.new }
    ensures cache { IsSomeAnd rooms.new (Fits anchored.now) }
    ensures memory { AreAlike anchored.now rooms.old rooms.new }
    ensures sure { IsKnownImpossible (properties_of anchored.now) input.now → IsOk result }
{
    let Some(rooms) = rooms else {
        unreachable!();
    };
    anchored.search_slots(rooms, input, slots)
}

/// Whether there is a match, from the end of the haystack.
pub(crate) fn anchored_is_match(
    anchored: &ReverseAnchored,
    rooms: &mut Option<Cache>,
    input: &Input<'_>,
) -> Result<bool, Memory>
    requires { IsSomeAnd rooms.old (Fits anchored.now) }
    ensures value { IfOk result (TellsWhether (IsFor anchored.now) (prefilter_in anchored.now) input.now) }
    ensures cache { IsSomeAnd rooms.new (Fits anchored.now) }
    ensures memory { AreAlike anchored.now rooms.old rooms.new }
    ensures sure { IsKnownImpossible (properties_of anchored.now) input.now → IsOk result }
{
    let Some(rooms) = rooms else {
        unreachable!();
    };
    anchored.is_match(rooms, input)
}

/// The end of the next match, with its pattern, by the core.
pub(crate) fn core_half(
    core: &Strategy,
    rooms: &mut Option<Cache>,
    input: &Input<'_>,
) -> Result<Option<HalfMatch>, Memory>
    requires { IsSomeAnd rooms.old (Fits core.now) }
    ensures answer { IfOk result (IsAnswer (IsFor core.now) (prefilter_in core.now) (kind_in core.now) input.now half_match_value) }
    ensures within { IfOk result (λ o. IfSome o (HalfLiesIn input.now)) }
    ensures in_range { IfOk result (λ o. IfSome o (λ half. half.pattern < pattern_count core.now)) }
    ensures cache { IsSomeAnd rooms.new (Fits core.now) }
    ensures memory { AreAlike core.now rooms.old rooms.new }
    ensures sure { IsKnownImpossible (properties_of core.now) input.now → IsOk result }
{
    let Some(rooms) = rooms else {
        unreachable!();
    };
    core.search_half(rooms, input)
}

/// The next match with its slots, by the core.
pub(crate) fn core_slots(
    core: &Strategy,
    rooms: &mut Option<Cache>,
    input: &Input<'_>,
    slots: &mut [Option<NonMaxUsize>],
) -> Result<Option<Match>, Memory>
    requires { IsSomeAnd rooms.old (Fits core.now) }
    ensures answer { IfOk result (IsAnswer (IsFor core.now) (prefilter_in core.now) (kind_in core.now) input.now match_value) }
    ensures slots { IfOk result (AreSlotsOfAnswer (IsFor core.now) (prefilter_in core.now) (kind_in core.now) input.now match_value slots.new) }
    ensures within { IfOk result (λ o. IfSome o (LiesIn input.now)) }
    ensures in_range { IfOk result (λ o. IfSome o (λ m. m.pattern < pattern_count core.now)) }
    ensures none { IfOk result (λ o. IfNone o (slots.new ≡ replicate (length slots.old) None)) }
    ensures err { OnErr result (slots.new ≡ replicate (length slots.old) None) }
    ensures slots_within { AreWithin input.now slots.new }
    ensures cache { IsSomeAnd rooms.new (Fits core.now) }
    ensures memory { AreAlike core.now rooms.old rooms.new }
    ensures sure { IsKnownImpossible (properties_of core.now) input.now → IsOk result }
{
    let Some(rooms) = rooms else {
        unreachable!();
    };
    core.search_slots(rooms, input, slots)
}

/// Whether there is a match, by the core.
pub(crate) fn core_is_match(
    core: &Strategy,
    rooms: &mut Option<Cache>,
    input: &Input<'_>,
) -> Result<bool, Memory>
    requires { IsSomeAnd rooms.old (Fits core.now) }
    ensures value { IfOk result (TellsWhether (IsFor core.now) (prefilter_in core.now) input.now) }
    ensures cache { IsSomeAnd rooms.new (Fits core.now) }
    ensures memory { AreAlike core.now rooms.old rooms.new }
    ensures sure { IsKnownImpossible (properties_of core.now) input.now → IsOk result }
{
    let Some(rooms) = rooms else {
        unreachable!();
    };
    core.is_match(rooms, input)
}

/// Adds patterns that have a match to the set, by the core.
pub(crate) fn core_set(
    core: &Strategy,
    rooms: &mut Option<Cache>,
    input: &Input<'_>,
    set: &mut PatternSet,
) -> Result<(), Memory>
    requires fits { IsSomeAnd rooms.old (Fits core.now) }
    requires room { pattern_count core.now ≤ length set.old }
    ensures kept { KeepsMembers set.old set.new }
    ensures matching { AddsMatching (IsFor core.now) (prefilter_in core.now) input.now set.old set.new }
    ensures filled { OnOk result (IsFilled (IsFor core.now) (prefilter_in core.now) input.now set.old set.new (kind_in core.now)) }
    ensures cache { IsSomeAnd rooms.new (Fits core.now) }
    ensures memory { AreAlike core.now rooms.old rooms.new }
    ensures sure { IsKnownImpossible (properties_of core.now) input.now → IsOk result }
{
    let Some(rooms) = rooms else {
        unreachable!();
    };
    core.which_overlapping_matches(rooms, input, set)
}

/// What is accounted for the properties of each pattern and of all of them, and for the core.
pub(crate) fn core_memory(core: &Strategy) -> usize
    ensures { result ≡ core_memory core.now }
{
    let properties = PROPERTIES_SIZE * (core.pattern_len() + 1);
    // Needles may be of any length (DECISIONS: what is accounted for a regex stops at the greatest number of 64 bits).
    properties.saturating_add(core.memory_usage())
}
