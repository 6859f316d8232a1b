//! The walk of a search along the rows of a table.
ghost use Rattle.std.specs.Prelude.{◌≡◌, ◌≤◌, ◌<◌, ◌+◌, ◌-◌, ℕ, suc, List, Option, Some, None, true, false, length, is_some, IfSome, IfNone, slice_index, slice_index_or};
ghost use Rattle.rx_model.specs.Runs.{Trace, everywhere};
ghost use Rattle.rx_onepass_table.specs.Along.{walk, told_here, goes_on};
ghost use Rattle.rx_onepass_table.specs.Rows.{step_in, final_in};
ghost use Rattle.rx_onepass_table.specs.Search.{IsAnswer, IsTellingOf, IsSearching, IsPassed, IsSmall, shown, stops};

use crate::bits::{all_hold, put_slots, write_slots};
use crate::table::Table;
use crate::transition::Transition;
use rx_nfa::NFA;
use rx_search::{HalfMatch, Input, NonMaxUsize};

// Slots change at few places, and a match may be told at each one (DECISIONS: the slots of a match are put late).
/// A match that was told, whose slots are not put yet: those of its cell are written at its place, and the others stand in the
/// places that were written on the way.
#[derive(Clone, Copy)]
pub struct Told {
    pub slots: u32,
    pub at: usize,
}

impl Table {
    /// The pattern and the end of the match that the walk from this row tells over the input's span. Its explicit slots are put
    /// into `out`, which holds no place before; where there is no match, what is left there tells nothing. What stands in `places`
    /// before is forgotten.
    pub fn walk(
        &self,
        nfa: &NFA,
        may_win: bool,
        input: &Input<'_>,
        row: usize,
        places: &mut [Option<NonMaxUsize>],
        out: &mut [Option<NonMaxUsize>],
    ) -> Option<HalfMatch>
        requires in_order { input.now.start ≤ input.now.end }
        requires row { row < self.now.rows }
        requires room { length places.old ≡ length out.old }
        requires empty { (k : ℕ) → slice_index_or out.old k None ≡ None }
        ensures answer { IsAnswer nfa.now input.now.earliest
            (walk nfa.now self.now may_win everywhere input.now.haystack (input.now.end - input.now.start) input.now.start row) result out.new }
        ensures places { length places.new ≡ length places.old }
        ensures out { length out.new ≡ length out.old }
    {
        let mut best = None;
        let mut left = None;
        // What is written on the way is mostly what the match has, so it is written where the caller wants it.
        self.pass_over(nfa, may_win, input, row, &mut best, &mut left, out, places);
        finish(left, places, out);
        best
    }

    /// The same, but for the slots of the match, which may be left to be put.
    fn pass_over(
        &self,
        nfa: &NFA,
        may_win: bool,
        input: &Input<'_>,
        row: usize,
        best: &mut Option<HalfMatch>,
        left: &mut Option<Told>,
        places: &mut [Option<NonMaxUsize>],
        out: &mut [Option<NonMaxUsize>],
    )
        requires in_order { input.now.start ≤ input.now.end }
        requires row { row < self.now.rows }
        requires room { length places.old ≡ length out.old }
        requires empty { (k : ℕ) → slice_index_or places.old k None ≡ None }
        requires no_best { best.old ≡ None }
        requires nothing_left { left.old ≡ None }
        ensures answer { IsAnswer nfa.now input.now.earliest
            (walk nfa.now self.now may_win everywhere input.now.haystack (input.now.end - input.now.start) input.now.start row) best.new
            (shown left.new places.new out.new) }
        ensures small { IsSmall left.new }
        ensures places { length places.new ≡ length places.old }
        ensures out { length out.new ≡ length out.old }
    {
        let text = input.haystack();
        let end = input.end();
        let earliest = input.get_earliest();
        let mut at = input.start();
        let mut current = row;
        while at < end {
            let Some(next) = self.advance(
                nfa, may_win, earliest, text, end, &mut at, current, best, left, places, out,
            ) else {
                return;
            };
            current = next;
        }
        self.tell(nfa, text, end, current, best, left);
    }

    /// Goes on from the place in a row, to a later one; None where the search is over. Where bytes of one class leave the walk in the
    /// row, it passes all of them: a match of the row is told behind them as it is before them.
    #[inline(always)]
    fn advance(
        &self,
        nfa: &NFA,
        may_win: bool,
        earliest: bool,
        text: &[u8],
        end: usize,
        at: &mut usize,
        row: usize,
        best: &mut Option<HalfMatch>,
        left: &mut Option<Told>,
        places: &mut [Option<NonMaxUsize>],
        out: &mut [Option<NonMaxUsize>],
    ) -> Option<usize>
        requires at { at.old < end }
        requires within { end ≤ length text.now }
        requires row { row < self.now.rows }
        requires room { length places.old ≡ length out.old }
        requires small { IsSmall left.old }
        ensures inside { IfSome result (λ next. next < self.now.rows) }
        ensures later { IfSome result (λ _. at.old < at.new) }
        ensures within { IfSome result (λ _. at.new ≤ end) }
        ensures on { IfSome result (λ next. (told : Option Trace)
            → IsSearching nfa.now self.now may_win text.now told (end - at.old) at.old row places.old best.old (shown left.old places.old out.old)
            → IsSearching nfa.now self.now may_win text.now told (end - at.new) at.new next places.new best.new
            (shown left.new places.new out.new)) }
        ensures over { IfNone result ((told : Option Trace)
            → IsSearching nfa.now self.now may_win text.now told (end - at.old) at.old row places.old best.old (shown left.old places.old out.old)
            → IsAnswer nfa.now earliest told best.new (shown left.new places.new out.new)) }
        ensures small { IsSmall left.new }
        ensures places { length places.new ≡ length places.old }
        ensures out { length out.new ≡ length out.old }
    {
        let here = *at;
        let step = self.transition(row, text[here]);
        if !earliest && step.stays_in(row) && self.tells_anywhere(row) {
            *at = self.same_class(text, here, end);
            return Some(row);
        }
        let next = self.visit(
            nfa, may_win, earliest, text, here, row, step, best, left, places, out,
        );
        *at = here + 1;
        next
    }

    /// Tells the match of the row at its place, and goes on over the byte there; None where the search is over.
    #[inline(always)]
    fn visit(
        &self,
        nfa: &NFA,
        may_win: bool,
        earliest: bool,
        text: &[u8],
        at: usize,
        row: usize,
        step: Transition,
        best: &mut Option<HalfMatch>,
        left: &mut Option<Told>,
        places: &mut [Option<NonMaxUsize>],
        out: &mut [Option<NonMaxUsize>],
    ) -> Option<usize>
        requires at { at < length text.now }
        requires row { row < self.now.rows }
        requires step { step ≡ step_in self.now row (slice_index text.now at) }
        requires target { step.target < self.now.rows }
        requires room { length places.old ≡ length out.old }
        requires small { IsSmall left.old }
        ensures inside { IfSome result (λ next. next < self.now.rows) }
        ensures on { IfSome result (λ next. (told : Option Trace) (n : ℕ)
            → IsSearching nfa.now self.now may_win text.now told (suc n) at row places.old best.old (shown left.old places.old out.old)
            → IsSearching nfa.now self.now may_win text.now told n (at + 1) next places.new best.new (shown left.new places.new out.new)) }
        ensures over { IfNone result ((told : Option Trace) (n : ℕ)
            → IsSearching nfa.now self.now may_win text.now told (suc n) at row places.old best.old (shown left.old places.old out.old)
            → IsAnswer nfa.now earliest told best.new (shown left.new places.new out.new)) }
        ensures small { IsSmall left.new }
        ensures places { length places.new ≡ length places.old }
        ensures out { length out.new ≡ length out.old }
    {
        let told = self.tell(nfa, text, at, row, best, left);
        if stops(told, earliest, may_win, step.match_wins()) {
            return None;
        }
        if step.is_dead() {
            return None;
        }
        if !pass(nfa, step, text, at, left, places, out) {
            return None;
        }
        Some(step.target())
    }

    /// Tells the match of a row at its place, if the row has one and its look-arounds hold there. Its slots are left to be put.
    #[inline(always)]
    fn tell(
        &self,
        nfa: &NFA,
        text: &[u8],
        at: usize,
        row: usize,
        best: &mut Option<HalfMatch>,
        left: &mut Option<Told>,
    ) -> bool
        requires at { at ≤ length text.now }
        requires row { row < self.now.rows }
        requires small { IsSmall left.old }
        ensures value { result ≡ is_some (told_here nfa.now everywhere text.now (final_in self.now row) at) }
        ensures telling { (places out : List (Option ℕ)) → IsTellingOf (final_in self.now row) at
            (told_here nfa.now everywhere text.now (final_in self.now row) at) places best.old best.new (shown left.old places out) (shown left.new places out) }
        ensures small { IsSmall left.new }
    {
        if !self.may_match(row) {
            return false;
        }
        self.tell_match(nfa, text, at, row, best, left)
    }

    /// The same of a row that may have a match.
    #[inline(always)]
    fn tell_match(
        &self,
        nfa: &NFA,
        text: &[u8],
        at: usize,
        row: usize,
        best: &mut Option<HalfMatch>,
        left: &mut Option<Told>,
    ) -> bool
        requires at { at ≤ length text.now }
        requires row { row < self.now.rows }
        requires small { IsSmall left.old }
        ensures value { result ≡ is_some (told_here nfa.now everywhere text.now (final_in self.now row) at) }
        ensures telling { (places out : List (Option ℕ)) → IsTellingOf (final_in self.now row) at
            (told_here nfa.now everywhere text.now (final_in self.now row) at) places best.old best.new (shown left.old places out) (shown left.new places out) }
        ensures small { IsSmall left.new }
    {
        let final_cell = self.pattern_epsilons(row);
        let Some(pattern) = final_cell.pattern() else {
            return false;
        };
        let epsilons = final_cell.epsilons();
        if !all_hold(nfa, epsilons.looks, text, at) {
            return false;
        }
        *best = Some(HalfMatch::new(pattern, at));
        *left = Some(Told {
            slots: epsilons.slots,
            at,
        });
        true
    }
}

/// Whether the search stops at a match: at any with `earliest`, and else at one that is preferred to what comes later.
#[inline(always)]
fn stops(told: bool, earliest: bool, may_win: bool, wins: bool) -> bool
    ensures { result ≡ stops told earliest may_win wins }
{
    told && (earliest || (may_win && wins))
}

/// Goes on over a transition that leads somewhere: where its look-arounds hold at the place, its slots are written there. Those that
/// were left are put before. Whether it goes on.
fn pass(
    nfa: &NFA,
    step: Transition,
    text: &[u8],
    at: usize,
    left: &mut Option<Told>,
    places: &mut [Option<NonMaxUsize>],
    out: &mut [Option<NonMaxUsize>],
) -> bool
    requires at { at < length text.now }
    requires room { length places.old ≡ length out.old }
    requires small { IsSmall left.old }
    ensures passed { IsPassed nfa.now text.now step at result places.old places.new (shown left.old places.old out.old) (shown left.new places.new out.new) }
    ensures small { IsSmall left.new }
    ensures places { length places.new ≡ length places.old }
    ensures out { length out.new ≡ length out.old }
{
    let tells = step.epsilons();
    if !all_hold(nfa, tells.looks, text, at) {
        return false;
    }
    if tells.slots > 0 {
        put(*left, places, out);
        *left = None;
        write_slots(tells.slots, at, places);
    }
    true
}

/// Puts the slots that are left.
#[inline(always)]
fn put(left: Option<Told>, places: &[Option<NonMaxUsize>], out: &mut [Option<NonMaxUsize>])
    requires room { length places.now ≡ length out.old }
    requires small { IsSmall left }
    ensures out { length out.new ≡ length out.old }
    ensures value { (k : ℕ) → k < length out.new → slice_index_or out.new k None ≡ slice_index_or (shown left places.now out.old) k None }
{
    if let Some(told) = left {
        put_slots(told.slots, told.at, places, out);
    }
}

/// Puts the slots of the match where those of the way stand: those that are left, or else what was put before.
#[inline(always)]
fn finish(left: Option<Told>, before: &[Option<NonMaxUsize>], places: &mut [Option<NonMaxUsize>])
    requires room { length before.now ≡ length places.old }
    requires small { IsSmall left }
    ensures len { length places.new ≡ length places.old }
    ensures value { (k : ℕ) → k < length places.new
        → slice_index_or places.new k None ≡ slice_index_or (shown left places.old before.now) k None }
{
    match left {
        Some(told) => write_slots(told.slots, told.at, places),
        None => places.copy_from_slice(before),
    }
}
