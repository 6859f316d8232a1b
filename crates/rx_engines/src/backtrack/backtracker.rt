//! The bounded backtracker.
ghost use Rattle.std.specs.Prelude.{◌≡◌, ◌<◌, ◌-◌, ◌^◌, ◌≤◌, min, length, None, replicate, IfOk, IfNone, IfSome, option_map};
ghost use Rattle.std.specs.Result.{IfErr};
ghost use Rattle.rx_model.specs.Search.{Patterns, told_of};
ghost use Rattle.rx_search.specs.Input.{next_in, span_len};
ghost use Rattle.rx_search.specs.Matches.{match_value};
ghost use Rattle.rx_search.specs.Told.{HasSlots, AreWithin, LiesIn, matched_pattern};
ghost use Rattle.rx_nfa.specs.Nfa.{IsNfaOf};
ghost use Rattle.rx_nfa.specs.NextMatch.{next_match_in};
ghost use Rattle.rx_engines.specs.Engine.{accounted_memory};
ghost use Rattle.rx_engines.specs.Simulation.{frames_of_states};
ghost use Rattle.rx_engines.specs.Bounded.{max_len, IsRefusal, Fits};
ghost use Rattle.rx_engines.specs.Needles.{BeginsEachRun};

use crate::backtrack::cache::Cache;
use crate::candidates::Candidates;
use crate::room::frames_of_all;
use crate::search::Search;
use crate::slots::empty;
use rx_nfa::NFA;
use rx_prefilter::Prefilter;
use rx_search::{Input, Match, MatchError, Memory, NonMaxUsize, PatternID};
use std::alloc::Global;
use std::marker::Model;

/// The bits of a cache for the states at the places of a span.
const BITS: usize = 2097152;

/// An engine that searches an NFA depth first, and tries each state at each place of the span once: by its form, its
/// work is bounded by the places times the transitions, and no clause says it. It keeps a bit for each state at each
/// place, and so takes only spans of at most `max_haystack_len` bytes. A contract sees it as its
/// NFA, and the needles of its prefilter.
///
/// A search writes to a `Cache`, which serves the engine whatever it held before. It answers the next match
/// whether or not the input asks for `earliest`.
#[derive(Drop)]
pub struct BoundedBacktracker {
    nfa: NFA,
    candidates: Candidates,
    /// The frames that a search may leave on the stack at one place.
    frames: usize,
    /// The bytes of the longest span that is searched.
    longest: usize,
}

impl Model for BoundedBacktracker {
    ghost use Rattle.std.specs.Prelude.{◌≡◌, ◌-◌, ◌^◌, min, length};
    ghost use Rattle.rx_engines.specs.Simulation.{frames_of_states};
    ghost use Rattle.rx_engines.specs.Bounded.{BacktrackerValue, max_len};
    ghost use Rattle.rx_engines.specs.Candidates.{AreOf};

    ghost Value = { BacktrackerValue };

    ghost view = { λ b. record { nfa = b.nfa; pre = b.candidates.needles } };

    ghost invariant = { λ b. (b.frames ≡ min (2 ^ 64 - 1) (frames_of_states b.nfa.states (length b.nfa.states)))
        × AreOf b.nfa b.candidates × (b.longest ≡ max_len b.nfa) };
}

impl BoundedBacktracker {
    /// The engine of this NFA.
    pub fn build_from_nfa(nfa: NFA, pre: Option<Prefilter>) -> BoundedBacktracker
        ensures { result ≡ record { nfa = nfa; pre = pre } }
    {
        let frames = frames_of_all(nfa.states());
        let longest = longest_span(&nfa);
        let candidates = Candidates::of(&nfa, pre);
        BoundedBacktracker {
            nfa,
            candidates,
            frames,
            longest,
        }
    }

    /// The NFA.
    pub fn get_nfa(&self) -> &NFA
        ensures { result.now ≡ self.now.nfa }
    {
        &self.nfa
    }

    /// The frames that a search may leave on the stack at one place, or the greatest `usize` where they are more.
    pub(crate) fn frames(&self) -> usize
        ensures { result ≡ min (2 ^ 64 - 1) (frames_of_states self.now.nfa.states (length self.now.nfa.states)) }
    {
        self.frames
    }

    /// A cache that serves this engine.
    pub fn create_cache(&self, alloc: Global) -> Result<Cache, Memory>
        ensures fits { IfOk result (Fits self.now.nfa) }
        ensures memory { IfOk result (λ c. c.memory ≡ accounted_memory self.now.nfa) }
    {
        Cache::new(alloc, self)
    }

    /// The bytes of the longest span that is searched.
    pub fn max_haystack_len(&self) -> usize
        ensures { result ≡ max_len self.now.nfa }
    {
        self.longest
    }

    /// The pattern of the next match in the input's span. Each slot gets the place that the match leaves in it,
    /// and None where there is no match or an error.
    ///
    /// # Errors
    ///
    /// `HaystackTooLong` exactly where the span is longer than `max_haystack_len`, and no other.
    pub fn try_search_slots(
        &self,
        cache: &mut Cache,
        input: &Input<'_>,
        slots: &mut [Option<NonMaxUsize>],
    ) -> Result<Option<PatternID>, MatchError>
        requires { Fits self.now.nfa cache.old }
        ensures value { BeginsEachRun self.now.pre self.now.nfa input.now → IfOk result (λ r. r
            ≡ option_map matched_pattern (next_match_in self.now.nfa input.now)) }
        ensures short { IfOk result (λ _. span_len input.now ≤ max_len self.now.nfa) }
        ensures err { IfErr result (IsRefusal self.now.nfa input.now) }
        ensures patterns { (r : Patterns) → IsNfaOf self.now.nfa r
            → next_match_in self.now.nfa input.now ≡ option_map (told_of r.which_captures) (next_in r input.now) }
        ensures in_range { IfOk result (λ r. IfSome r (λ p. p < length self.now.nfa.starts)) }
        ensures slots { BeginsEachRun self.now.pre self.now.nfa input.now
            → IfOk result (λ _. IfSome (next_match_in self.now.nfa input.now) (HasSlots slots.new)) }
        ensures none { IfOk result (λ r. IfNone r (slots.new ≡ replicate (length slots.old) None)) }
        ensures refused { IfErr result (λ _. slots.new ≡ replicate (length slots.old) None) }
        ensures slots_within { AreWithin input.now slots.new }
        ensures cache { Fits self.now.nfa cache.new }
        ensures memory { cache.new.memory ≡ cache.old.memory }
    {
        match self.try_find_slots(cache, input, slots) {
            Ok(Some(found)) => Ok(Some(found.pattern())),
            Ok(None) => Ok(None),
            Err(error) => Err(error),
        }
    }

    /// As `try_search_slots`, with the whole match.
    ///
    /// # Errors
    ///
    /// `HaystackTooLong` exactly where the span is longer than `max_haystack_len`, and no other.
    pub fn try_find_slots(
        &self,
        cache: &mut Cache,
        input: &Input<'_>,
        slots: &mut [Option<NonMaxUsize>],
    ) -> Result<Option<Match>, MatchError>
        requires { Fits self.now.nfa cache.old }
        ensures value { BeginsEachRun self.now.pre self.now.nfa input.now
            → IfOk result (λ r. r ≡ option_map match_value (next_match_in self.now.nfa input.now)) }
        ensures short { IfOk result (λ _. span_len input.now ≤ max_len self.now.nfa) }
        ensures err { IfErr result (IsRefusal self.now.nfa input.now) }
        ensures patterns { (r : Patterns) → IsNfaOf self.now.nfa r
            → next_match_in self.now.nfa input.now ≡ option_map (told_of r.which_captures) (next_in r input.now) }
        ensures slots { BeginsEachRun self.now.pre self.now.nfa input.now
            → IfOk result (λ _. IfSome (next_match_in self.now.nfa input.now) (HasSlots slots.new)) }
        ensures none { IfOk result (λ r. IfNone r (slots.new ≡ replicate (length slots.old) None)) }
        ensures refused { IfErr result (λ _. slots.new ≡ replicate (length slots.old) None) }
        ensures slots_within { AreWithin input.now slots.new }
        ensures in_range { IfOk result (λ r. IfSome r (λ m. m.pattern < length self.now.nfa.starts)) }
        ensures within { IfOk result (λ r. IfSome r (LiesIn input.now)) }
        ensures cache { Fits self.now.nfa cache.new }
        ensures memory { cache.new.memory ≡ cache.old.memory }
    {
        let len = input.end().saturating_sub(input.start());
        if len > self.max_haystack_len() {
            empty(slots);
            return Err(MatchError::HaystackTooLong { len });
        }
        let Some(search) = Search::of(&self.nfa, &self.candidates, input) else {
            empty(slots);
            return Ok(None);
        };
        Ok(cache.find(&search, slots))
    }
}

/// The bytes of the longest span in which the bits suffice for the NFA.
fn longest_span(nfa: &NFA) -> usize
    ensures { result ≡ max_len nfa.now }
{
    (BITS / nfa.accounted_states().max(1)).saturating_sub(1)
}
