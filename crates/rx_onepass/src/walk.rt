//! A search from a row of the table.
ghost use Rattle.std.specs.Prelude.{◌≡◌, ◌≤◌, ◌<◌, ◌+◌, ◌*◌, ℕ, length, replicate, is_some, Some, None, IfOk, IfErr, OnOk, slice_set, slice_get, slice_index, slice_index_or};
ghost use Rattle.rx_search.specs.Anchored.{anchor_of};
ghost use Rattle.rx_search.specs.Input.{is_char_boundary};
ghost use Rattle.rx_onepass.specs.Dfa.{Fits, IsSound, explicit_slots};
ghost use Rattle.rx_onepass_table.specs.Entry.{explicit_start};
ghost use Rattle.rx_model.specs.Search.{is_permitted};
ghost use Rattle.rx_nfa.specs.Nfa.{IsInRange};
ghost use Rattle.rx_onepass.specs.Search.{HasBytes, run_in, IsFound, IsStartRow, IsUnsupported, taken_as};
ghost use Rattle.rx_search.specs.declared.match_error.MatchError.TheVariants.{UnsupportedAnchored as Unsupported};
ghost use Rattle.rx_onepass.specs.Walked.{IsWalked, may_win};

use crate::cache::Cache;
use crate::dfa::DFA;
use rx_search::{
    Anchored, HalfMatch, Input, Match, MatchError, MatchKind, NonMaxUsize, PatternID, Span,
    is_character_boundary,
};

impl DFA {
    /// The row in which a search of this mode starts; None where the pattern is not there.
    ///
    /// # Errors
    ///
    /// `UnsupportedAnchored` exactly where the automaton does not search in this mode.
    pub(crate) fn start_row(&self, mode: Anchored) -> Result<Option<usize>, MatchError>
        ensures found { IfOk result (λ row. IsStartRow self.now (anchor_of mode) row) }
        ensures served { OnOk result (IsUnsupported self.now (anchor_of mode) → ⊥) }
        ensures err { IfErr result (λ e. (e ≡ Unsupported mode) × IsUnsupported self.now (anchor_of mode)) }
    {
        match mode {
            Anchored::Yes => Ok(self.start(0)),
            Anchored::No => {
                if !self.nfa.is_always_start_anchored() {
                    return Err(MatchError::UnsupportedAnchored { mode });
                }
                Ok(self.start(0))
            }
            Anchored::Pattern(pattern) => {
                if !self.config.get_starts_for_each_pattern() {
                    return Err(MatchError::UnsupportedAnchored { mode });
                }
                Ok(self.start(1 + pattern.as_usize()))
            }
        }
    }

    /// The row of the start at this place, if there is one.
    fn start(&self, place: usize) -> Option<usize>
        ensures value { result ≡ slice_get self.now.starts place }
        ensures sound { IsSound self.now }
    {
        let starts = &self.built.starts;
        if place < starts.len() {
            return Some(starts[place]);
        }
        None
    }

    /// The match from where a search starts, if it starts anywhere, with its slots, of which none has a place before.
    pub(crate) fn find_at(
        &self,
        cache: &mut Cache,
        input: &Input<'_>,
        start: Option<usize>,
        slots: &mut [Option<NonMaxUsize>],
    ) -> Option<Match>
        requires fits { Fits self.now.nfa cache.old }
        requires in_order { input.now.start ≤ input.now.end }
        requires row { IsStartRow self.now input.now.anchor start }
        requires empty { slots.old ≡ replicate (length slots.old) None }
        ensures found { IsFound self.now input.now result slots.new }
        ensures room { length slots.new ≡ length slots.old }
        ensures cache { cache.new ≡ cache.old }
    {
        match start {
            Some(row) => self.find_from(cache, input, row, slots),
            None => None,
        }
    }

    /// The same, from this row.
    fn find_from(
        &self,
        cache: &mut Cache,
        input: &Input<'_>,
        row: usize,
        slots: &mut [Option<NonMaxUsize>],
    ) -> Option<Match>
        requires fits { Fits self.now.nfa cache.old }
        requires in_order { input.now.start ≤ input.now.end }
        requires row { IsStartRow self.now input.now.anchor (Some row) }
        requires empty { slots.old ≡ replicate (length slots.old) None }
        ensures found { IsFound self.now input.now result slots.new }
        ensures room { length slots.new ≡ length slots.old }
        ensures cache { cache.new ≡ cache.old }
    {
        if !self.may_start(input) {
            return None;
        }
        let mut exact = input.clone();
        exact.set_earliest(false);
        let Some(half) = cache.walk(self, &exact, row, slots) else {
            empty(slots);
            return None;
        };
        Some(tell_match(slots, input.start(), half))
    }

    /// Whether there is a match from where a search starts, if it starts anywhere. It stops at the first that it meets.
    pub(crate) fn meets_at(
        &self,
        cache: &mut Cache,
        input: &Input<'_>,
        start: Option<usize>,
    ) -> bool
        requires fits { Fits self.now.nfa cache.old }
        requires in_order { input.now.start ≤ input.now.end }
        requires row { IsStartRow self.now (taken_as input.now.anchor) start }
        ensures value { result ≡ is_some (run_in self.now input.now) }
        ensures cache { cache.new ≡ cache.old }
    {
        match start {
            Some(row) => self.meets(cache, input, row),
            None => false,
        }
    }

    /// The same, from this row.
    fn meets(&self, cache: &mut Cache, input: &Input<'_>, row: usize) -> bool
        requires fits { Fits self.now.nfa cache.old }
        requires in_order { input.now.start ≤ input.now.end }
        requires row { IsStartRow self.now (taken_as input.now.anchor) (Some row) }
        ensures value { result ≡ is_some (run_in self.now input.now) }
        ensures cache { cache.new ≡ cache.old }
    {
        if !self.may_start(input) {
            return false;
        }
        let mut any = input.clone();
        any.set_earliest(true);
        let met = cache.walk(self, &any, row, &mut []);
        met.is_some()
    }

    // An anchored search has no other start, so the answer stands without a premise on the haystack.
    /// Whether a match may start where the span does.
    fn may_start(&self, input: &Input<'_>) -> bool
        requires { input.now.start ≤ input.now.end }
        ensures value { result ≡ is_permitted self.now.nfa.utf8 input.now.haystack input.now.start }
        ensures in_range { IsInRange self.now.nfa }
        ensures bytes { HasBytes input.now }
        ensures short { input.now.end < usize.MAX }
    {
        // That the parts of the NFA fit together is what this call ensures.
        let _states = self.nfa.states_len();
        let haystack = input.haystack();
        let between = is_between(haystack, input.start());
        if !self.nfa.is_utf8() {
            return true;
        }
        between
    }

    /// The walk from this row; explicit slots are put into those behind the implicit ones, as far as there is room. None has a place
    /// before.
    pub(crate) fn walk(
        &self,
        places: &mut [Option<NonMaxUsize>],
        input: &Input<'_>,
        row: usize,
        slots: &mut [Option<NonMaxUsize>],
    ) -> Option<HalfMatch>
        requires fits { Fits self.now.nfa (length places.old) }
        requires in_order { input.now.start ≤ input.now.end }
        requires row { row < self.now.table.rows }
        requires empty { (k : ℕ) → slice_index_or slots.old k None ≡ None }
        ensures walked { IsWalked self.now input.now row slots.old result slots.new }
        ensures places { length places.new ≡ length places.old }
        ensures room { length slots.new ≡ length slots.old }
    {
        let first = self.explicit_start().min(slots.len());
        let count = self.explicit_slots().min(slots.len() - first);
        let may_win = may_win(self.config.get_match_kind());
        self.built.table.walk(
            &self.nfa,
            may_win,
            input,
            row,
            &mut places[..count],
            &mut slots[first..first + count],
        )
    }

    /// The first explicit slot.
    fn explicit_start(&self) -> usize
        ensures { result ≡ explicit_start self.now.nfa }
    {
        2 * self.nfa.pattern_len()
    }

    /// How many slots explicit groups have.
    pub(crate) fn explicit_slots(&self) -> usize
        ensures { result ≡ explicit_slots self.now.nfa }
    {
        self.nfa.slot_len().saturating_sub(self.explicit_start())
    }
}

/// Whether a match may be preferred to what comes later.
fn may_win(kind: MatchKind) -> bool
    ensures { result ≡ may_win kind }
{
    match kind {
        MatchKind::LeftmostFirst => true,
        MatchKind::All => false,
    }
}

// That bytes are below 256 is known where the haystack is lent, and handed on from here.
/// Whether the place lies between two characters of the haystack.
fn is_between(haystack: &[u8], at: usize) -> bool
    requires { (k : ℕ) → slice_index haystack.now k < 256 }
    ensures value { result ≡ is_char_boundary haystack.now at }
    ensures bytes { (k : ℕ) → slice_index haystack.now k < 256 }
{
    is_character_boundary(haystack, at)
}

/// Leaves None in each slot.
pub(crate) fn empty(slots: &mut [Option<NonMaxUsize>])
    ensures { slots.new ≡ replicate (length slots.old) None }
{
    for i in 0..slots.len() {
        slots[i] = None;
    }
}

/// The whole match from this place on. Its span is put into the slots of its pattern, as far as there is room.
fn tell_match(slots: &mut [Option<NonMaxUsize>], start: usize, half: HalfMatch) -> Match
    requires in_order { start ≤ half.offset }
    requires short { half.offset < usize.MAX }
    ensures value { result ≡ record { pattern = half.pattern; start = start; end = half.offset } }
    ensures slots { slots.new
        ≡ slice_set (slice_set slots.old (2 * half.pattern) (Some start)) (2 * half.pattern + 1) (Some half.offset) }
{
    let pattern = half.pattern();
    let span = Span {
        start,
        end: half.offset(),
    };
    tell_span(slots, pattern, span);
    Match::new(pattern, span)
}

/// Puts the span of the whole match into the slots of its pattern, as far as there is room.
fn tell_span(slots: &mut [Option<NonMaxUsize>], pattern: PatternID, span: Span)
    requires end { span.end < usize.MAX }
    requires start { span.start < usize.MAX }
    ensures { slots.new ≡ slice_set (slice_set slots.old (2 * pattern) (Some span.start)) (2 * pattern + 1) (Some span.end) }
{
    let first = 2 * pattern.as_usize();
    write(slots, first, span.start);
    write(slots, first + 1, span.end);
}

/// Writes the place into the slot, if there is room for it.
fn write(slots: &mut [Option<NonMaxUsize>], slot: usize, at: usize)
    requires { at < usize.MAX }
    ensures { slots.new ≡ slice_set slots.old slot (Some at) }
{
    if slot < slots.len() {
        slots[slot] = NonMaxUsize::new(at);
    }
}
