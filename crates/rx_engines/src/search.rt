//! What the engines search, and what both do with an NFA at a place of it.
ghost use Rattle.std.specs.Prelude.{◌≡◌, ◌<◌, ◌≤◌, ◌∷◌, [], length, Some, None, IfSome, IfNone, if◌then◌else◌};
ghost use Rattle.rx_model.specs.Look.{holds};
ghost use Rattle.rx_model.specs.Matches.{IsSought};
ghost use Rattle.rx_search.specs.Input.{IsSpanned};
ghost use Rattle.rx_search.specs.Look.{kind_of};
ghost use Rattle.rx_nfa.specs.Nfa.{IsInRange};
ghost use Rattle.rx_nfa.specs.Automaton.{byte_at, target_of};
ghost use Rattle.rx_engines.specs.Engine.{IsSearchOf, HasNoMatch};
ghost use Rattle.rx_engines.specs.Candidates.{IsNext};
ghost use Rattle.rx_engines.specs.Overlap.{of_pattern};
ghost use Rattle.rx_engines.specs.Search.{is_offered, may_begin};

use crate::candidates::Candidates;
use crate::starts::{is_sought, latest_start, start_state};
use rx_nfa::{NFA, State, Transition, matches_byte};
use rx_search::{Input, Look, LookMatcher, PatternID, StateID};

// One of them serves the PikeVM and the backtracker (DECISIONS: both engines have one `Search`).
/// What is searched for a match, and where.
#[derive(Drop)]
pub struct Search<'a> {
    pub states: &'a [State],
    /// Where the runs start.
    pub start: StateID,
    pub text: &'a [u8],
    /// Tells where look-arounds hold.
    pub matcher: LookMatcher,
    /// No match starts inside an encoded character.
    pub utf8: bool,
    /// Where matches may begin, by what is known before the search.
    pub candidates: &'a Candidates,
    /// A match may begin at other places than the first one. Where it may not, the candidates are not asked.
    pub free: bool,
    /// The first place of the span, which is the first at which a match may start.
    pub first: usize,
    /// The place at which a match may start at the latest.
    pub last: usize,
    /// The last place of the span, at which a match must end at the latest.
    pub end: usize,
    /// In how many slots a match may leave a place.
    pub slots: usize,
}

impl<'a> Search<'a> {
    /// The search of the input's span for a match of the NFA. There is none where the pattern that the input asks for
    /// is not there, or its span has no place left.
    pub fn of(nfa: &'a NFA, candidates: &'a Candidates, input: &'a Input<'a>) -> Option<Search<'a>>
        ensures some { IfSome result (IsSearchOf nfa.now input.now) }
        ensures known { IfSome result (λ s. s.candidates.now ≡ candidates.now) }
        ensures none { IfNone result (HasNoMatch nfa.now input.now) }
        ensures spanned { IsSpanned input.now }
        ensures in_range { IsInRange nfa.now }
    {
        let text = input.haystack();
        let start = start_state(nfa, input.get_anchored())?;
        if input.is_done() {
            return None;
        }
        Some(Search {
            states: nfa.states(),
            start,
            text,
            matcher: *nfa.look_matcher(),
            utf8: nfa.is_utf8(),
            candidates,
            // There is one place to look at (DECISIONS: a search that is anchored asks no candidates).
            free: !input.get_anchored().is_anchored(),
            first: input.start(),
            last: latest_start(input),
            end: input.end(),
            slots: nfa.slot_len(),
        })
    }

    /// The search of the input's span for a match of this pattern alone. There is none where the input asks for another
    /// pattern, or its span has no place left.
    pub fn of_pattern(
        nfa: &'a NFA,
        candidates: &'a Candidates,
        input: &'a Input<'a>,
        pattern: PatternID,
    ) -> Option<Search<'a>>
        requires { pattern < length nfa.now.starts }
        ensures some { IfSome result (IsSearchOf (of_pattern nfa.now pattern) input.now) }
        ensures sought { IfSome result (λ _. IsSought input.now.anchor pattern) }
        ensures known { IfSome result (λ s. s.candidates.now ≡ candidates.now) }
        ensures none { IfNone result (IsSought input.now.anchor pattern → HasNoMatch nfa.now input.now) }
        ensures spanned { IsSpanned input.now }
        ensures in_range { IsInRange nfa.now }
    {
        let starts = nfa.starts();
        let text = input.haystack();
        let anchored = input.get_anchored();
        if !is_sought(anchored, pattern) {
            return None;
        }
        if input.is_done() {
            return None;
        }
        Some(Search {
            states: nfa.states(),
            start: starts[pattern.as_usize()],
            text,
            matcher: *nfa.look_matcher(),
            utf8: nfa.is_utf8(),
            candidates,
            free: !anchored.is_anchored(),
            first: input.start(),
            last: latest_start(input),
            end: input.end(),
            slots: nfa.slot_len(),
        })
    }

    /// Whether a match may begin at the place, by one look at the byte there.
    pub fn may_begin(&self, place: usize) -> bool
        requires { (place ≤ self.now.end) × (self.now.end ≤ length self.now.text.now) }
        ensures { result ≡ may_begin self.now place }
    {
        if self.free {
            self.candidates.may_begin(self.text, self.end, place)
        } else {
            true
        }
    }

    /// The first place from here on at which a match may begin, by what is known before the search.
    pub fn next_start(&self, place: usize) -> Option<usize>
        requires { (place ≤ self.now.end) × (self.now.end ≤ length self.now.text.now) }
        ensures { IsNext (is_offered self.now) self.now.end place result }
    {
        if self.free {
            self.candidates.next(self.text, self.end, place)
        } else {
            Some(place)
        }
    }

    /// The byte at the place, if it lies before the end.
    pub fn byte_at(&self, place: usize) -> Option<u8>
        requires { self.now.end ≤ length self.now.text.now }
        ensures { result ≡ byte_at self.now.text.now self.now.end place }
    {
        if place < self.end {
            Some(self.text[place])
        } else {
            None
        }
    }

    /// The state, where the look-around holds at the place in the whole text.
    pub fn look_on(&self, look: Look, next: StateID, place: usize) -> Option<StateID>
        requires { place ≤ length self.now.text.now }
        ensures { result ≡ (if holds self.now.matcher self.now.text.now (kind_of look) place then Some next else None) }
    {
        if self.matcher.matches(look, self.text, place) {
            Some(next)
        } else {
            None
        }
    }
}

/// Where the byte leads to, if it is in the range.
pub fn in_range(start: u8, end: u8, next: StateID, byte: Option<u8>) -> Option<StateID>
    ensures { result ≡ target_of (record { start = start; end = end; next = next } ∷ []) byte }
{
    match byte {
        Some(byte) if start <= byte && byte <= end => Some(next),
        _ => None,
    }
}

/// Where the byte leads to, if a transition has it.
pub fn in_any(transitions: &[Transition], byte: Option<u8>) -> Option<StateID>
    ensures { result ≡ target_of transitions.now byte }
{
    match byte {
        Some(byte) => matches_byte(transitions, byte),
        None => None,
    }
}
