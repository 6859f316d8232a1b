//! The groups of a match.
ghost use Rattle.std.specs.Prelude.{◌≡◌, ◌≤◌, ◌*◌, IfOk, IfSome, IsTrue, ◌↔◌, IsSome, Some, None, length, replicate};
ghost use Rattle.std.specs.Iterator.{YieldsFirst, item_count};
ghost use Rattle.rx_search.specs.GroupInfo.{slot_count};
ghost use Rattle.rx_search.specs.Captures.{group_span, named_span, captured_len, captured_match, spans, held};

use crate::group_info::GroupInfo;
use crate::matches::Match;
use crate::primitives::{NonMaxUsize, PatternID};
use crate::span::Span;
use rx_memory::Memory;
use std::alloc::Global;
use std::marker::Model;

/// The groups of one match: which pattern matched, and what the slots of the groups hold.
///
/// A group has a span where both of its slots hold a place. A contract sees captures as the record of their groups, their
/// pattern and their slots.
#[derive(Drop)]
pub struct Captures {
    group_info: GroupInfo,
    pattern: Option<PatternID>,
    slots: Vec<Option<NonMaxUsize>>,
}

impl Model for Captures {
    ghost use Rattle.rx_search.specs.Captures.{CapturesValue};

    ghost Value = { CapturesValue };

    ghost view = { λ c. record { groups = c.group_info; pattern = c.pattern; slots = c.slots.items } };
}

impl Captures {
    ghost use Rattle.std.specs.Borrow.{sem};
    ghost use Rattle.rx_search.specs.CapturesLends.{LendsSlots};

    /// Room for all groups of each pattern: a search tells the pattern that matched, and the span of each of its groups.
    ///
    /// # Errors
    ///
    /// Only want of memory.
    ///
    /// # Examples
    ///
    /// ```
    /// let mut captures = Captures::all(alloc, &groups)?;
    /// assert_eq!(rt; captures.slots().len(), 4);
    /// captures.set_pattern(Some(PatternID::ZERO));
    /// ```
    pub fn all(alloc: Global, groups: &GroupInfo) -> Result<Captures, Memory>
        ensures { IfOk result (λ c. c ≡ record { groups = groups.now; pattern = None; slots = replicate (slot_count groups.now) None }) }
    {
        Captures::with_slots(alloc, groups, groups.slot_len())
    }

    /// Room for the implicit group of each pattern: a search tells the pattern that matched, and the span of the match.
    ///
    /// # Errors
    ///
    /// Only want of memory.
    pub fn matches(alloc: Global, groups: &GroupInfo) -> Result<Captures, Memory>
        ensures { IfOk result (λ c. c ≡ record { groups = groups.now; pattern = None; slots = replicate (2 * length groups.now) None }) }
    {
        Captures::with_slots(alloc, groups, groups.implicit_slot_len())
    }

    /// No room for a group: a search tells the pattern that matched.
    ///
    /// # Errors
    ///
    /// Only want of memory.
    pub fn empty(alloc: Global, groups: &GroupInfo) -> Result<Captures, Memory>
        ensures { IfOk result (λ c. c ≡ record { groups = groups.now; pattern = None; slots = replicate 0 None }) }
    {
        Captures::with_slots(alloc, groups, 0)
    }

    /// So many slots, and no match yet.
    fn with_slots(alloc: Global, groups: &GroupInfo, len: usize) -> Result<Captures, Memory>
        ensures { IfOk result (λ c. c ≡ record { groups = groups.now; pattern = None; slots = replicate len None }) }
    {
        let slots = no_places(alloc, len)?;
        Ok(Captures {
            group_info: groups.clone()?,
            pattern: None,
            slots,
        })
    }

    /// Whether there is a match.
    pub fn is_match(&self) -> bool
        ensures { IsTrue result ↔ IsSome self.now.pattern }
    {
        self.pattern.is_some()
    }

    /// The pattern that matched; None where there is no match.
    pub fn pattern(&self) -> Option<PatternID>
        ensures { result ≡ self.now.pattern }
    {
        self.pattern
    }

    /// Sets which pattern matched, or that none did. The slots stay.
    pub fn set_pattern(&mut self, pattern: Option<PatternID>)
        ensures { self.new ≡ record self.old { pattern = pattern } }
    {
        self.pattern = pattern;
    }

    /// The span of a group of the pattern that matched, where both of its slots hold a place. None where there is no match or
    /// no such group, too.
    pub fn get_group(&self, group: usize) -> Option<Span>
        ensures { result ≡ group_span self.now group }
    {
        let (start, end) = self.group_info.slots(self.pattern?, group)?;
        Some(Span {
            start: self.place(start)?,
            end: self.place(end)?,
        })
    }

    /// The span of the group with this name, of the pattern that matched. None where no group of the pattern has the name,
    /// too.
    pub fn get_group_by_name(&self, name: &str) -> Option<Span>
        ensures { result ≡ named_span self.now name.now }
    {
        let group = self.group_info.to_index(self.pattern?, name)?;
        self.get_group(group)
    }

    /// The match: the pattern that matched, at the span of its implicit group. The span's start must not be above its end,
    /// where there is one.
    pub fn get_match(&self) -> Option<Match>
        requires { IfSome (group_span self.now 0) (λ span. span.start ≤ span.end) }
        ensures { result ≡ captured_match self.now }
    {
        let pattern = self.pattern?;
        let span = self.get_group(0)?;
        Some(Match::new(pattern, span))
    }

    /// The number of groups of the pattern that matched, its implicit group among them; 0 where there is no match.
    pub fn group_len(&self) -> usize
        ensures { result ≡ captured_len self.now }
    {
        match self.pattern {
            None => 0,
            Some(pattern) => self.group_info.group_len(pattern),
        }
    }

    /// The span of each group of the pattern that matched, in order, from the implicit group on. Nothing where there is no
    /// match.
    pub fn iter(&self) -> CapturesPatternIter<'_>
        ensures { result ≡ spans self.now }
    {
        CapturesPatternIter {
            captures: self,
            next: 0,
            end: self.group_len(),
        }
    }

    /// What the slots hold.
    pub fn slots(&self) -> &[Option<NonMaxUsize>]
        ensures { result.now ≡ self.now.slots }
    {
        self.slots.as_slice()
    }

    /// What the slots hold, to be written. The groups and the pattern stay.
    pub fn slots_mut(&mut self) -> &mut [Option<NonMaxUsize>]
        ensures* writes_back { sem 𝓛 (LendsSlots self.entry result) }
        ensures value { result.now ≡ self.old.slots }
    {
        self.slots.as_mut_slice()
    }

    /// The groups of the patterns.
    pub fn group_info(&self) -> &GroupInfo
        ensures { result.now ≡ self.now.groups }
    {
        &self.group_info
    }

    /// Takes the match away: there is no pattern, and no slot holds a place.
    pub fn clear(&mut self)
        ensures { self.new ≡ record { groups = self.old.groups; pattern = None; slots = replicate (length self.old.slots) None } }
    {
        self.pattern = None;
        empty_slots(self.slots.as_mut_slice());
    }

    /// Captures of their own that hold the same.
    ///
    /// # Errors
    ///
    /// Only want of memory.
    pub fn clone(&self) -> Result<Captures, Memory>
        ensures { IfOk result (λ copy. copy ≡ self.now) }
    {
        Ok(Captures {
            group_info: self.group_info.clone()?,
            pattern: self.pattern,
            slots: self.slots.clone()?,
        })
    }

    /// The place that a slot holds.
    fn place(&self, slot: usize) -> Option<usize>
        ensures { result ≡ held self.now.slots slot }
    {
        let place = (*self.slots.get(slot)?)?;
        Some(place.get())
    }
}

/// So many slots that hold no place.
fn no_places(alloc: Global, len: usize) -> Result<Vec<Option<NonMaxUsize>>, Memory>
    ensures { IfOk result (λ slots. slots.items ≡ replicate len None) }
{
    let slots = vec![in alloc; None; len]?;
    Ok(slots)
}

/// Takes each place out of the slots.
fn empty_slots(slots: &mut [Option<NonMaxUsize>])
    ensures { slots.new ≡ replicate (length slots.old) None }
{
    for i in 0..slots.len() {
        slots[i] = None;
    }
}

/// The span of each group of a match, in order.
#[derive(Drop)]
pub struct CapturesPatternIter<'a> {
    captures: &'a Captures,
    next: usize,
    end: usize,
}

impl<'a> Model for CapturesPatternIter<'a> {
    ghost use Rattle.std.specs.Prelude.{List, Option, ◌-◌};
    ghost use Rattle.rx_search.specs.Captures.{spans_from};
    ghost use Rattle.rx_search.specs.declared.span.Span.{Span};

    ghost Value = { List (Option Span) };

    ghost view = { λ it. spans_from it.captures.now it.next (it.end - it.next) };
}

impl Iterator for CapturesPatternIter<'_> {
    type Item = Option<Span>;

    ghost next_gives = { YieldsFirst (λ it. it) };

    ghost remaining = { item_count (λ it. it) };

    fn next(&mut self) -> Option<Option<Span>> {
        if self.next >= self.end {
            return None;
        }
        let span = self.captures.get_group(self.next);
        self.next += 1;
        Some(span)
    }
}
