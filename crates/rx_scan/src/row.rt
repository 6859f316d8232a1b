//! The row of a match, as data, and how it is made of the slots of a search.
ghost use Rattle.std.specs.Prelude.{◌≡◌, ◌≢◌, ◌<◌, ◌≤◌, ◌∷◌, [], ℕ, List, length, Some, IfOk, IfSome, IsOk};
ghost use Rattle.std.proofs.Props.{props};
ghost use Rattle.rx_model.specs.Search.{Patterns, Match, next_match, free};
ghost use Rattle.rx_search.specs.GroupInfo.{groups_at, slot_count};
ghost use Rattle.rx_search.specs.Limits.{slot_limit};
ghost use Rattle.rx_search.specs.PatternGroups.{pattern_groups};
ghost use Rattle.rx_search.specs.Told.{HasSlots};
ghost use Rattle.rx_scan.specs.Layout.{explicit_slots, all_explicit_slots, slots_in, own_slots, HaveImplicit};
ghost use Rattle.rx_scan.specs.Row.{row_of};

use rx_search::{GroupInfo, Memory, NonMaxUsize, PatternID, Span};
use std::alloc::Global;
use std::marker::Model;

// A row without groups takes no memory (DECISIONS: a row's slots are kept in the row).
/// Where slots are kept.
#[derive(Drop)]
enum Places {
    /// Those of the whole match alone, which take no memory.
    Whole([Option<NonMaxUsize>; 2]),
    /// Any other number of slots.
    Groups(Vec<Option<NonMaxUsize>>),
}

/// Where the groups of a pattern start and end, two slots to a group, from group 0 on, which is the whole match.
/// A group without a place has `None` twice.
///
/// The slots of the whole match alone take no memory. Contracts see a list.
#[derive(Drop)]
pub struct Slots {
    places: Places,
}

impl Model for Slots {
    ghost use Rattle.std.specs.Prelude.{ℕ, List, Option};

    ghost Value = { List (Option ℕ) };

    ghost use Rattle.rx_scan.specs.Slots.{slots_of, IsSmall};

    ghost view = { λ s. slots_of s.places };

    ghost invariant = { λ s. IsSmall s.places };
}

impl Slots {
    /// These slots. Of two the vector is freed.
    pub fn new(slots: Vec<Option<NonMaxUsize>>) -> Slots
        ensures { result ≡ slots.items }
    {
        match slots.as_slice() {
            [start, end] => Slots::whole(*start, *end),
            _ => Slots {
                places: Places::Groups(slots),
            },
        }
    }

    /// The start and the end of the whole match, and no groups.
    pub fn whole(start: Option<NonMaxUsize>, end: Option<NonMaxUsize>) -> Slots
        ensures { result ≡ start ∷ end ∷ [] }
    {
        Slots {
            places: Places::Whole([start, end]),
        }
    }

    /// The slots, in order, in a vector. Two are put into a new one, which takes memory; any others are in one already.
    ///
    /// # Errors
    ///
    /// `Memory`, where there was no memory for two slots in a vector.
    pub fn into_vec(self, alloc: Global) -> Result<Vec<Option<NonMaxUsize>>, Memory>
        ensures value { IfOk result (λ slots. slots.items ≡ self) }
        ensures sure { length self ≢ 2 → IsOk result }
    {
        match self.places {
            Places::Whole(whole) => Ok(Vec::from_array(alloc, whole)?),
            Places::Groups(slots) => Ok(slots),
        }
    }

    /// The slots, in order.
    pub fn as_slice(&self) -> &[Option<NonMaxUsize>]
        ensures { result.now ≡ self.now }
    {
        match &self.places {
            Places::Whole(whole) => whole,
            Places::Groups(slots) => slots,
        }
    }
}

/// A match as it is told: its pattern, and the places of that pattern's groups in the haystack, in bytes.
#[derive(Drop)]
pub struct Row {
    /// The number of its pattern.
    pub pattern: PatternID,
    /// Where each group of that pattern starts and ends.
    pub slots: Slots,
}

impl Model for Row {
    ghost use Rattle.rx_scan.specs.Row.{RowValue};

    ghost Value = { RowValue };

    ghost view = { λ r. record { pattern = r.pattern; slots = r.slots } };
}

/// Where a search leaves the slots of each pattern's groups: those of the whole match of pattern p are 2p and 2p + 1, and
/// those of its other groups stand side by side. It is asked once for all matches.
#[derive(Drop)]
pub struct Layout<'g> {
    groups: &'g GroupInfo,
    /// For each pattern, which slots are those of its groups from 1 on, if it has some.
    explicit: Vec<Option<Span>>,
    ghost asked: { explicit.items ≡ all_explicit_slots groups.now (length groups.now) } by { Prim.hlevel props },
    ghost few: { slot_count groups.now ≤ slot_limit },
    ghost implicit: { HaveImplicit groups.now (length groups.now) } by { Prim.hlevel props },
}

impl<'g> Layout<'g> {
    /// That of these groups.
    ///
    /// # Errors
    ///
    /// `Memory`, where there was no memory for it.
    pub fn new(alloc: Global, groups: &'g GroupInfo) -> Result<Layout<'g>, Memory>
        ensures { IfOk result (λ layout. layout.groups.now ≡ groups.now) }
    {
        // So no match asks for it (DECISIONS: which slots are those of a pattern's groups is asked once).
        let patterns = groups.pattern_len();
        let _slots = groups.slot_len();
        let mut explicit = Vec::with_capacity(alloc, patterns)?;
        for index in 0..patterns {
            let pattern = PatternID::new(index).unwrap();
            explicit.push(explicit_slots(groups, pattern))?;
        }
        Ok(Layout { groups, explicit })
    }

    /// The row of a match of this pattern that a search left in these slots. It takes memory at most once, and none where
    /// the pattern has no groups.
    ///
    /// # Errors
    ///
    /// `Memory`, where there was no memory for the slots.
    pub fn row(
        &self,
        alloc: Global,
        pattern: PatternID,
        slots: &[Option<NonMaxUsize>],
    ) -> Result<Row, Memory>
        requires { length slots.now ≡ slot_count self.now.groups.now }
        ensures value { (r : Patterns) (text : List ℕ) (b a : ℕ) (m : Match) → self.now.groups.now ≡ pattern_groups r.expressions
            → next_match r text free b a ≡ Some m → pattern ≡ m.trace.pattern → HasSlots slots.now m
            → IfOk result (λ row. row ≡ row_of r m) }
        ensures sure { length (groups_at self.now.groups.now pattern) ≤ 1 → IsOk result }
    {
        let slots = self.slots_of(alloc, pattern, slots)?;
        Ok(Row { pattern, slots })
    }

    /// The slots of this pattern among those of all patterns; none where there is no such pattern.
    fn slots_of(
        &self,
        alloc: Global,
        pattern: PatternID,
        slots: &[Option<NonMaxUsize>],
    ) -> Result<Slots, Memory>
        requires { length slots.now ≡ slot_count self.now.groups.now }
        ensures value { pattern < length self.now.groups.now → IfOk result (λ own. own ≡ own_slots self.now.groups.now pattern slots.now) }
        ensures sure { length (groups_at self.now.groups.now pattern) ≤ 1 → IsOk result }
    {
        let index = pattern.as_usize();
        if index >= self.explicit.len() {
            return Ok(Slots::new(Vec::new(alloc)));
        }
        let start = slots[2 * index];
        let end = slots[2 * index + 1];
        match self.explicit[index] {
            None => Ok(Slots::whole(start, end)),
            Some(span) => with_groups(alloc, start, end, slots, span),
        }
    }
}

/// The slots of the whole match, and those that lie in the span.
fn with_groups(
    alloc: Global,
    start: Option<NonMaxUsize>,
    end: Option<NonMaxUsize>,
    slots: &[Option<NonMaxUsize>],
    span: Span,
) -> Result<Slots, Memory>
    requires start { span.start ≤ span.end }
    requires end { span.end ≤ length slots.now }
    requires few { length slots.now ≤ slot_limit }
    ensures { IfOk result (λ own. own ≡ start ∷ end ∷ slots_in (Some span) slots.now) }
{
    let explicit = &slots[span.start..span.end];
    let mut own = Vec::with_capacity(alloc, 2 + explicit.len())?;
    own.push(start)?;
    own.push(end)?;
    own.extend_from_slice(explicit)?;
    Ok(Slots::new(own))
}

/// The slots of the pattern's groups from 1 on, if it has some.
fn explicit_slots(groups: &GroupInfo, pattern: PatternID) -> Option<Span>
    requires there { pattern < length groups.now }
    requires few { slot_count groups.now ≤ slot_limit }
    ensures value { result ≡ explicit_slots groups.now pattern }
    ensures implicit { 0 < length (groups_at groups.now pattern) }
{
    let len = groups.group_len(pattern);
    let (start, _) = groups.slots(pattern, 1)?;
    let (_, last) = groups.slots(pattern, len - 1)?;
    Some(Span {
        start,
        end: last + 1,
    })
}
