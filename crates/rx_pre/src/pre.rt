//! Searches in place of one expression that is its literals.
ghost use Rattle.std.specs.Prelude.{◌≡◌, ◌≤◌, ◌<◌, length, None, true, false, replicate, option_map, is_some, IfSome, IfNone, List};
ghost use Rattle.rx_model.specs.Expression.{Expression, alternation};
ghost use Rattle.rx_model.specs.Search.{Patterns};
ghost use Rattle.rx_search.specs.Answer.{IsAnswer, AreSlotsOfAnswer, TellsWhether, half_of};
ghost use Rattle.rx_search.specs.Input.{IsSpanned, next_in};
ghost use Rattle.rx_search.specs.Matches.{match_value, half_match_value};
ghost use Rattle.rx_search.specs.Promise.{Premises};
ghost use Rattle.rx_search.specs.Sets.{KeepsMembers, AddsMatching, IsFilled};
ghost use Rattle.rx_search.specs.Told.{AreWithin, LiesIn, HalfLiesIn};
ghost use Rattle.rx_search.specs.declared.anchored.MatchKind.TheVariants.{LeftmostFirst};
ghost use Rattle.rx_hir.specs.PropertiesViews.{AreOf};
ghost use Rattle.rx_prefilter.specs.Choices.{accounted, chosen, is_fast};
ghost use Rattle.rx_prefilter.specs.Needles.{find_in, prefix_in};
ghost use Rattle.rx_pre.specs.Found.{LiesWithin, match_of, part_of, span_in, prefix_at};
ghost use Rattle.rx_pre.specs.Pre.{PreValue, IsPreFor};

use crate::slots::leave_span;
use rx_hir::Properties;
use rx_prefilter::{Choice, Prefilter};
use rx_search::{
    Anchored, GroupInfo, HalfMatch, Input, Match, NonMaxUsize, PatternID, PatternSet, Span,
};
use std::marker::Model;

/// A search in place of one expression that is its literals: where the first of them lies there is a match. No automaton is
/// run, and no search takes memory.
#[derive(Drop)]
pub struct Pre {
    pre: Prefilter,
    /// Whether matches are told.
    tells: bool,
    properties: Properties,
    groups: GroupInfo,
}

impl Model for Pre {
    ghost use Rattle.rx_pre.specs.Pre.{PreValue};

    ghost Value = { PreValue };

    ghost view = { λ p. record { needles = p.pre; tells = p.tells; properties = p.properties; groups = p.groups } };
}

impl Pre {
    /// The search for these literals, which tells matches or not, of one expression with these properties and groups.
    pub fn new(pre: Prefilter, tells: bool, properties: Properties, groups: GroupInfo) -> Pre
        ensures { result ≡ record { needles = pre; tells = tells; properties = properties; groups = groups } }
    {
        Pre {
            pre,
            tells,
            properties,
            groups,
        }
    }

    /// The next match in the input's span, where matches are told.
    pub fn search(&self, input: &Input<'_>) -> Option<Match>
        ensures answer { IsAnswer (λ r. IsPreFor self.now r) None LeftmostFirst input.now match_value result }
        ensures within { IfSome result (LiesIn input.now) }
        ensures in_range { IfSome result (λ m. m.pattern < 1) }
        ensures ordered { IfSome result (λ m. m.start ≤ m.end) }
    {
        if self.tells {
            return self.find(input);
        }
        None
    }

    /// The end of the next match in the input's span, with its pattern, where matches are told.
    pub fn search_half(&self, input: &Input<'_>) -> Option<HalfMatch>
        ensures answer { IsAnswer (λ r. IsPreFor self.now r) None LeftmostFirst input.now half_match_value result }
        ensures within { IfSome result (HalfLiesIn input.now) }
        ensures in_range { IfSome result (λ half. half.pattern < 1) }
    {
        half_match(self.search(input))
    }

    /// The next match in the input's span, with its slots, where matches are told.
    pub fn search_slots(
        &self,
        input: &Input<'_>,
        slots: &mut [Option<NonMaxUsize>],
    ) -> Option<Match>
        ensures answer { IsAnswer (λ r. IsPreFor self.now r) None LeftmostFirst input.now match_value result }
        ensures slots { AreSlotsOfAnswer (λ r. IsPreFor self.now r) None LeftmostFirst input.now match_value slots.new result }
        ensures within { IfSome result (LiesIn input.now) }
        ensures in_range { IfSome result (λ m. m.pattern < 1) }
        ensures none { IfNone result (slots.new ≡ replicate (length slots.old) None) }
        ensures slots_within { AreWithin input.now slots.new }
    {
        let _haystack = input.haystack();
        let found = self.search(input);
        leave_span(&found, slots);
        found
    }

    /// Whether there is a match in the input's span, under each kind of captures.
    pub fn is_match(&self, input: &Input<'_>) -> bool
        ensures value { TellsWhether (λ r. IsPreFor self.now r) None input.now result }
    {
        self.find(input).is_some()
    }

    /// Adds the pattern to the set where it has a match in the input's span, under each kind of captures.
    pub fn which_overlapping_matches(&self, input: &Input<'_>, set: &mut PatternSet)
        requires room { 1 ≤ length set.old }
        ensures kept { KeepsMembers set.old set.new }
        ensures matching { AddsMatching (λ r. IsPreFor self.now r) None input.now set.old set.new }
        ensures filled { IsFilled (λ r. IsPreFor self.now r) None input.now set.old set.new LeftmostFirst }
    {
        if self.is_match(input) {
            set.insert(PatternID::ZERO);
        }
    }

    /// The properties of the expression.
    pub fn properties(&self) -> &Properties
        ensures { result.now ≡ self.now.properties }
    {
        &self.properties
    }

    /// The groups of the expression.
    pub fn group_info(&self) -> &GroupInfo
        ensures { result.now ≡ self.now.groups }
    {
        &self.groups
    }

    /// The kind of its search.
    pub fn choice(&self) -> Choice
        ensures { result ≡ chosen self.now.needles }
    {
        self.pre.choice()
    }

    /// Whether its search is expected to be fast.
    pub fn is_fast(&self) -> bool
        ensures { result ≡ is_fast (chosen self.now.needles) self.now.needles }
    {
        self.pre.is_fast()
    }

    /// The bytes that are accounted for it, which are those of its search.
    pub fn memory_usage(&self) -> usize
        ensures { result ≡ accounted (chosen self.now.needles) self.now.needles }
    {
        self.pre.memory_usage()
    }

    /// The next match in the input's span, under each kind of captures.
    fn find(&self, input: &Input<'_>) -> Option<Match>
        ensures next { (r : Patterns) → Premises (IsPreFor self.now r) None r input.now → result ≡ option_map match_value (next_in r input.now) }
        ensures within { IfSome result (LiesIn input.now) }
        ensures in_range { IfSome result (λ m. m.pattern ≡ 0) }
        ensures ordered { IfSome result (λ m. m.start ≤ m.end) }
    {
        whole_match(self.find_span(input))
    }

    /// Where the first literal lies at the least place of the span at which one does, and where the search is anchored, at its start. No
    /// literal lies where it is anchored to a pattern that is not there.
    fn find_span(&self, input: &Input<'_>) -> Option<Span>
        ensures value { result ≡ span_in self.now.needles input.now }
        ensures within { IfSome result (LiesWithin input.now) }
        ensures spanned { IsSpanned input.now }
    {
        if input.is_done() {
            let _haystack = input.haystack();
            return None;
        }
        match input.get_anchored() {
            Anchored::No => self.first(input),
            Anchored::Yes => self.prefix(input),
            Anchored::Pattern(pattern) => self.prefix_of(input, pattern),
        }
    }

    /// Where the first literal lies at the least place of the span at which one does.
    fn first(&self, input: &Input<'_>) -> Option<Span>
        requires { input.now.start ≤ input.now.end }
        ensures value { result ≡ find_in self.now.needles input.now.haystack (part_of input.now) }
        ensures within { IfSome result (LiesWithin input.now) }
        ensures spanned { IsSpanned input.now }
    {
        self.pre.find(input.haystack(), input.get_span())
    }

    /// The same at the start of the span.
    fn prefix(&self, input: &Input<'_>) -> Option<Span>
        requires { input.now.start ≤ input.now.end }
        ensures value { result ≡ prefix_in self.now.needles input.now.haystack (part_of input.now) }
        ensures within { IfSome result (LiesWithin input.now) }
        ensures spanned { IsSpanned input.now }
    {
        self.pre.prefix(input.haystack(), input.get_span())
    }

    /// The same where the search is anchored to this pattern.
    fn prefix_of(&self, input: &Input<'_>, pattern: PatternID) -> Option<Span>
        requires { input.now.start ≤ input.now.end }
        ensures value { result ≡ prefix_at self.now.needles input.now pattern }
        ensures within { IfSome result (LiesWithin input.now) }
        ensures spanned { IsSpanned input.now }
    {
        if pattern.as_usize() > 0 {
            let _haystack = input.haystack();
            return None;
        }
        self.prefix(input)
    }
}

/// The match that covers the span, if there is one.
fn whole_match(span: Option<Span>) -> Option<Match>
    requires { IfSome span (λ s. s.start ≤ s.end) }
    ensures { result ≡ option_map match_of span }
{
    match span {
        Some(span) => Some(Match::new(PatternID::ZERO, span)),
        None => None,
    }
}

/// The pattern and the end of the match.
fn half_match(found: Option<Match>) -> Option<HalfMatch>
    ensures { result ≡ option_map half_of found }
{
    match found {
        Some(found) => Some(HalfMatch::new(found.pattern(), found.end())),
        None => None,
    }
}
