//! What is known of the patterns before a search.
ghost use Rattle.std.specs.Prelude.{◌≡◌, List, IfOk, IfSome};
ghost use Rattle.rx_model.specs.Expression.{Expression, alternation};
ghost use Rattle.rx_hir.specs.Normal.{expressions};
ghost use Rattle.rx_hir.specs.PropertiesViews.{AreOf};
ghost use Rattle.rx_search.specs.Input.{IsSpanned, span_len};
ghost use Rattle.rx_strategy.specs.Impossible.{is_above, is_always_anchored_start, is_always_anchored_end, begins_too_late};
ghost use Rattle.rx_strategy.specs.Impossible.{ends_too_early, is_too_short, is_anchored_start, is_too_long, is_impossible};
ghost use Rattle.rx_strategy.specs.Narrow.{IsLenOf};
ghost use Rattle.rx_strategy.specs.OnePass.{wants_onepass};

use rx_hir::{Hir, Properties};
use rx_search::{Input, Look, Memory};
use std::alloc::Global;

/// Whether it is known, by the properties of patterns together, that none of them has a match in the input's span.
pub fn is_impossible_by(properties: &Properties, input: &Input<'_>) -> bool
    ensures value { (hs : List Expression) → AreOf (alternation (expressions hs)) properties.now → result ≡ is_impossible hs input.now }
    ensures spanned { IsSpanned input.now }
{
    let info = RegexInfo {
        properties: *properties,
    };
    info.is_impossible(input)
}

/// The properties of the patterns together, which are those of an alternation of them.
#[derive(Drop)]
pub(crate) struct RegexInfo {
    properties: Properties,
}

impl RegexInfo {
    /// What is known of these patterns.
    pub(crate) fn new(alloc: Global, exprs: &[Hir]) -> Result<RegexInfo, Memory>
        ensures { IfOk result (λ info. AreOf (alternation (expressions exprs.now)) info.properties) }
    {
        let mut each = Vec::new(alloc);
        for hir in exprs {
            each.push(*hir.properties())?;
        }
        Ok(RegexInfo {
            properties: Properties::union(&each),
        })
    }

    /// The properties of the patterns together.
    pub(crate) fn properties(&self) -> &Properties
        ensures { result.now ≡ self.now.properties }
    {
        &self.properties
    }

    /// Whether it is known that no pattern has a match in the input's span.
    pub(crate) fn is_impossible(&self, input: &Input<'_>) -> bool
        ensures value { (hs : List Expression) → AreOf (alternation (expressions hs)) self.now.properties → result ≡ is_impossible hs input.now }
        ensures spanned { IsSpanned input.now }
    {
        if self.begins_too_late(input) {
            return true;
        }
        if self.ends_too_early(input) {
            return true;
        }
        if self.is_too_short(input) {
            return true;
        }
        self.is_too_long(input)
    }

    /// Whether the span begins after the only place where a match begins.
    fn begins_too_late(&self, input: &Input<'_>) -> bool
        ensures value { (h : Expression) → AreOf h self.now.properties → result ≡ begins_too_late h input.now }
        ensures spanned { IsSpanned input.now }
    {
        input.start() > 0 && self.is_always_anchored_start()
    }

    /// Whether the span ends before the only place where a match ends.
    fn ends_too_early(&self, input: &Input<'_>) -> bool
        ensures { (h : Expression) → AreOf h self.now.properties → result ≡ ends_too_early h input.now }
    {
        input.end() < input.haystack().len() && self.is_always_anchored_end()
    }

    /// Whether the span is shorter than each match.
    fn is_too_short(&self, input: &Input<'_>) -> bool
        ensures { (h : Expression) → AreOf h self.now.properties → result ≡ is_too_short h input.now }
    {
        match self.properties.minimum_len() {
            Some(least) => input.get_span().len() < least,
            None => false,
        }
    }

    /// Whether each match is the whole span, and the span is longer than a match.
    fn is_too_long(&self, input: &Input<'_>) -> bool
        ensures { (h : Expression) → AreOf h self.now.properties → result ≡ is_too_long h input.now }
    {
        self.is_anchored_start(input) && self.is_always_anchored_end() && self.is_longer(input)
    }

    /// Whether each match begins where the span does.
    fn is_anchored_start(&self, input: &Input<'_>) -> bool
        ensures { (h : Expression) → AreOf h self.now.properties → result ≡ is_anchored_start h input.now }
    {
        input.get_anchored().is_anchored() || self.is_always_anchored_start()
    }

    /// Whether each match begins at the start of the haystack.
    pub(crate) fn is_always_anchored_start(&self) -> bool
        ensures { (h : Expression) → AreOf h self.now.properties → result ≡ is_always_anchored_start h }
    {
        self.properties.look_set_prefix().contains(Look::Start)
    }

    /// Whether each match ends at the end of the haystack.
    fn is_always_anchored_end(&self) -> bool
        ensures { (h : Expression) → AreOf h self.now.properties → result ≡ is_always_anchored_end h }
    {
        self.properties.look_set_suffix().contains(Look::End)
    }

    /// The length of each match, where all matches have one length, and it is known.
    pub(crate) fn fixed_len(&self) -> Option<usize>
        ensures { (h : Expression) → AreOf h self.now.properties → IfSome result (IsLenOf h) }
    {
        let Some(least) = self.properties.minimum_len() else {
            return None;
        };
        match self.properties.maximum_len() {
            Some(greatest) if greatest == least => Some(least),
            _ => None,
        }
    }

    /// Whether the patterns want a one-pass DFA: for their groups, or for a look-around at which a DFA may quit.
    pub(crate) fn wants_onepass(&self) -> bool
        ensures { (h : Expression) → AreOf h self.now.properties → result ≡ wants_onepass h }
    {
        let looks = self.properties.look_set();
        self.properties.explicit_captures_len() > 0
            || looks.contains(Look::WordUnicode)
            || looks.contains(Look::WordUnicodeNegate)
    }

    /// Whether the span is longer than the greatest length of a match, where one is known.
    fn is_longer(&self, input: &Input<'_>) -> bool
        ensures { result ≡ is_above (span_len input.now) self.now.properties.maximum_len }
    {
        match self.properties.maximum_len() {
            Some(greatest) => input.get_span().len() > greatest,
            None => false,
        }
    }
}
