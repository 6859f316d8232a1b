//! The DFAs of a core.
ghost use Rattle.std.specs.Prelude.{◌≡◌, ◌-◌, ◌^◌, min, ◌<◌, ◌≤◌, OnOk, List, Option, Some, None, length, IfOk, IfSome, true, false, option_copied};
ghost use Rattle.rx_model.specs.Search.{Patterns, is_anchored};
ghost use Rattle.rx_model.specs.Utf8.{MeansUtf8};
ghost use Rattle.rx_search.specs.Answer.{half_of};
ghost use Rattle.rx_search.specs.Promise.{Premises};
ghost use Rattle.rx_search.specs.Sets.{KeepsMembers, GainsMatching, IsFilledFor, AddsMatching};
ghost use Rattle.rx_search.specs.Told.{LiesIn, HalfLiesIn};
ghost use Rattle.rx_search.specs.Matches.{match_value, half_match_value};
ghost use Rattle.rx_search.specs.declared.anchored.MatchKind.{MatchKind};
ghost use Rattle.rx_search.specs.declared.anchored.MatchKind.TheVariants.{LeftmostFirst};
ghost use Rattle.rx_nfa.specs.Nfa.{IsNfaOf};
ghost use Rattle.rx_dfa.specs.LazyCache.{IsCacheOf};
ghost use Rattle.rx_dfa.specs.Search.{IsAnswerFor, TellsStarts, AreAllOrdered};
ghost use Rattle.rx_strategy.specs.Dfas.{ArePaired, AreLeftmost, HaveRoomIn, SearchFor, are_lazy, FitsLazies, IsPatternOf, tables_memory};

mod attempts;
pub(crate) mod build;
mod ending;

use crate::lazies::Lazies;
use rx_dfa::lazy::Lazy;
use rx_dfa::{
    Automaton, Dense, try_search_half_fwd, try_search_half_fwd_by, try_search_start,
    try_which_overlapping,
};
use rx_prefilter::Prefilter;
use rx_search::{HalfMatch, Input, Match, PatternSet};

/// The DFAs of a core, one that reads forwards and one that reads backwards: full ones, lazy ones, or none. Each of its searches may
/// have no answer, and then says nothing.
#[derive(Drop)]
pub(crate) enum Dfas {
    /// There are none.
    Absent,
    /// Their tables were made when they were built.
    Full { forward: Dense, backward: Dense },
    /// Their states are made as a search meets them.
    Lazy { forward: Lazy, backward: Lazy },
}

/// No DFA is there, or it quit, gave up or wanted memory.
#[derive(Clone, Copy, Debug, Drop, PartialEq, Eq)]
pub struct NoAnswer;

impl Dfas {
    /// The end of the next match in the input's span, with its pattern, or no answer. With `earliest`, or under `All`, it is that of
    /// some match, where there is one. Nothing is read backwards. With a prefilter the search goes from candidate to candidate.
    pub(crate) fn try_search_half(
        &self,
        lazies: &mut Option<Lazies>,
        pre: Option<&Prefilter>,
        input: &Input<'_>,
    ) -> Result<Option<HalfMatch>, NoAnswer>
        requires fits { FitsLazies self.now lazies.old }
        requires paired { ArePaired self.now }
        requires leftmost { IfSome (option_copied pre) (λ needles. AreLeftmost self.now) }
        requires free { IfSome (option_copied pre) (λ needles. is_anchored input.now.anchor ≡ false) }
        ensures answer { (kind : MatchKind) (r : Patterns) → SearchFor self.now (option_copied pre.entry) kind r input.now
            → IfOk result (IsAnswerFor kind r input.now half_match_value) }
        ensures within { IfOk result (λ found. IfSome found (HalfLiesIn input.now)) }
        ensures in_range { IfOk result (λ found. IfSome found (λ half. IsPatternOf self.now half.pattern)) }
        ensures fits { FitsLazies self.now lazies.new }
        ensures same { are_lazy self.now ≡ false → lazies.new ≡ lazies.old }
    {
        match self {
            Dfas::Absent => Err(NoAnswer),
            Dfas::Full { forward, .. } => end(forward, &mut (), pre, input),
            Dfas::Lazy { forward, .. } => {
                let Some(both) = lazies else {
                    unreachable!();
                };
                end_in(forward, both, pre, input)
            }
        }
    }

    /// The match that ends there, where `try_search_half` answered this end, or no answer.
    pub(crate) fn try_search_start(
        &self,
        lazies: &mut Option<Lazies>,
        input: &Input<'_>,
        end: HalfMatch,
    ) -> Result<Option<Match>, NoAnswer>
        requires fits { FitsLazies self.now lazies.old }
        requires paired { ArePaired self.now }
        requires lies { HalfLiesIn input.now end }
        ensures answer { (kind : MatchKind) (r : Patterns) → SearchFor self.now None kind r input.now
            → IsAnswerFor kind r input.now half_match_value (Some end) → IfOk result (IsAnswerFor kind r input.now match_value) }
        ensures half { IfOk result (λ found. IfSome found (λ m. half_of m ≡ end)) }
        ensures within { IfOk result (λ found. IfSome found (LiesIn input.now)) }
        ensures fits { FitsLazies self.now lazies.new }
        ensures same { are_lazy self.now ≡ false → lazies.new ≡ lazies.old }
    {
        match self {
            Dfas::Absent => Err(NoAnswer),
            Dfas::Full { backward, .. } => start(backward, &mut (), input, end),
            Dfas::Lazy { backward, .. } => {
                let Some(both) = lazies else {
                    unreachable!();
                };
                start_in(backward, both, input, end)
            }
        }
    }

    /// Adds patterns that have a match in the input's span to the set, which must have room for all patterns: all of them under `All`, that
    /// of the next match under leftmost-first, and with `earliest` that of some match. Where there is no answer, what was added stays.
    pub(crate) fn try_which_overlapping(
        &self,
        lazies: &mut Option<Lazies>,
        input: &Input<'_>,
        set: &mut PatternSet,
    ) -> Result<(), NoAnswer>
        requires fits { FitsLazies self.now lazies.old }
        requires paired { ArePaired self.now }
        requires room { HaveRoomIn (length set.old) self.now }
        ensures kept { KeepsMembers set.old set.new }
        ensures matching { (kind : MatchKind) (r : Patterns) → SearchFor self.now None kind r input.now → GainsMatching r input.now set.old set.new }
        ensures filled { (kind : MatchKind) (r : Patterns) → SearchFor self.now None kind r input.now
            → OnOk result (IsFilledFor r input.now set.old set.new kind) }
        ensures fits { FitsLazies self.now lazies.new }
        ensures same { are_lazy self.now ≡ false → lazies.new ≡ lazies.old }
    {
        match self {
            Dfas::Absent => Err(NoAnswer),
            Dfas::Full { forward, .. } => add_all(forward, &mut (), input, set),
            Dfas::Lazy { forward, .. } => {
                let Some(both) = lazies else {
                    unreachable!();
                };
                add_all_in(forward, both, input, set)
            }
        }
    }

    /// The bytes that are accounted for the tables of full DFAs.
    pub(crate) fn memory_usage(&self) -> usize
        ensures { result ≡ min (2 ^ 64 - 1) (tables_memory self.now) }
    {
        match self {
            Dfas::Absent => 0,
            Dfas::Full { forward, backward } => {
                forward
                    .memory_usage()
                    .saturating_add(backward.memory_usage())
            }
            Dfas::Lazy { .. } => 0,
        }
    }
}

/// The end of a match, by a DFA that reads forwards.
fn end<F: Automaton>(
    forward: &F,
    cache: &mut F::Cache,
    pre: Option<&Prefilter>,
    input: &Input<'_>,
) -> Result<Option<HalfMatch>, NoAnswer>
    requires fits { F.fits forward.now cache.old }
    requires forward { (F.dfa forward.now).nfa.reverse ≡ false }
    requires leftmost { IfSome (option_copied pre) (λ needles. (F.dfa forward.now).kind ≡ LeftmostFirst) }
    requires free { IfSome (option_copied pre) (λ needles. is_anchored input.now.anchor ≡ false) }
    ensures answer { (r : Patterns) → Premises (IsNfaOf (F.dfa forward.now).nfa r) (option_copied pre.entry) r input.now → AreAllOrdered r
        → IfOk result (IsAnswerFor (F.dfa forward.now).kind r input.now half_match_value) }
    ensures within { IfOk result (λ found. IfSome found (HalfLiesIn input.now)) }
    ensures in_range { IfOk result (λ found. IfSome found (λ h. h.pattern < length (F.dfa forward.now).nfa.starts)) }
    ensures fits { F.fits forward.now cache.new }
{
    match pre {
        Some(pre) => end_by(forward, cache, pre, input),
        None => end_at_all(forward, cache, input),
    }
}

/// The same where no needle is looked for.
fn end_at_all<F: Automaton>(
    forward: &F,
    cache: &mut F::Cache,
    input: &Input<'_>,
) -> Result<Option<HalfMatch>, NoAnswer>
    requires fits { F.fits forward.now cache.old }
    requires forward { (F.dfa forward.now).nfa.reverse ≡ false }
    ensures answer { (r : Patterns) → Premises (IsNfaOf (F.dfa forward.now).nfa r) None r input.now
        → IfOk result (IsAnswerFor (F.dfa forward.now).kind r input.now half_match_value) }
    ensures within { IfOk result (λ found. IfSome found (HalfLiesIn input.now)) }
    ensures in_range { IfOk result (λ found. IfSome found (λ h. h.pattern < length (F.dfa forward.now).nfa.starts)) }
    ensures fits { F.fits forward.now cache.new }
{
    match try_search_half_fwd(forward, cache, input) {
        Ok(found) => Ok(found),
        Err(_) => Err(NoAnswer),
    }
}

/// The same from candidate to candidate.
fn end_by<F: Automaton>(
    forward: &F,
    cache: &mut F::Cache,
    pre: &Prefilter,
    input: &Input<'_>,
) -> Result<Option<HalfMatch>, NoAnswer>
    requires fits { F.fits forward.now cache.old }
    requires forward { (F.dfa forward.now).nfa.reverse ≡ false }
    requires leftmost { (F.dfa forward.now).kind ≡ LeftmostFirst }
    requires free { is_anchored input.now.anchor ≡ false }
    ensures answer { (r : Patterns) → Premises (IsNfaOf (F.dfa forward.now).nfa r) (Some pre.now) r input.now → AreAllOrdered r
        → IfOk result (IsAnswerFor (F.dfa forward.now).kind r input.now half_match_value) }
    ensures within { IfOk result (λ found. IfSome found (HalfLiesIn input.now)) }
    ensures in_range { IfOk result (λ found. IfSome found (λ h. h.pattern < length (F.dfa forward.now).nfa.starts)) }
    ensures fits { F.fits forward.now cache.new }
{
    match try_search_half_fwd_by(forward, cache, pre, input) {
        Ok(found) => Ok(found),
        Err(_) => Err(NoAnswer),
    }
}

/// The end of a match by a lazy DFA, with the cache that is its own.
fn end_in(
    forward: &Lazy,
    both: &mut Lazies,
    pre: Option<&Prefilter>,
    input: &Input<'_>,
) -> Result<Option<HalfMatch>, NoAnswer>
    requires fits { IsCacheOf forward.now both.old.forward }
    requires forward { forward.now.dfa.nfa.reverse ≡ false }
    requires leftmost { IfSome (option_copied pre) (λ needles. forward.now.dfa.kind ≡ LeftmostFirst) }
    requires free { IfSome (option_copied pre) (λ needles. is_anchored input.now.anchor ≡ false) }
    ensures answer { (r : Patterns) → Premises (IsNfaOf forward.now.dfa.nfa r) (option_copied pre.entry) r input.now → AreAllOrdered r
        → IfOk result (IsAnswerFor forward.now.dfa.kind r input.now half_match_value) }
    ensures within { IfOk result (λ found. IfSome found (HalfLiesIn input.now)) }
    ensures in_range { IfOk result (λ found. IfSome found (λ h. h.pattern < length forward.now.dfa.nfa.starts)) }
    ensures fits { IsCacheOf forward.now both.new.forward }
    ensures same { both.new.backward ≡ both.old.backward }
{
    end(forward, &mut both.forward, pre, input)
}

/// The match that ends there, by a DFA that reads backwards.
fn start<B: Automaton>(
    backward: &B,
    cache: &mut B::Cache,
    input: &Input<'_>,
    end: HalfMatch,
) -> Result<Option<Match>, NoAnswer>
    requires fits { B.fits backward.now cache.old }
    requires backward { (B.dfa backward.now).nfa.reverse ≡ true }
    requires lies { HalfLiesIn input.now end }
    ensures answer { (kind : MatchKind) (r : Patterns) → TellsStarts (B.dfa backward.now) r → (r.utf8_empty ≡ true → MeansUtf8 r input.now.haystack)
        → IsAnswerFor kind r input.now half_match_value (Some end) → IfOk result (IsAnswerFor kind r input.now match_value) }
    ensures half { IfOk result (λ found. IfSome found (λ m. half_of m ≡ end)) }
    ensures within { IfOk result (λ found. IfSome found (LiesIn input.now)) }
    ensures fits { B.fits backward.now cache.new }
{
    match try_search_start(backward, cache, input, end) {
        Ok(found) => Ok(found),
        Err(_) => Err(NoAnswer),
    }
}

/// The same by a lazy DFA, with the cache that is its own.
fn start_in(
    backward: &Lazy,
    both: &mut Lazies,
    input: &Input<'_>,
    end: HalfMatch,
) -> Result<Option<Match>, NoAnswer>
    requires fits { IsCacheOf backward.now both.old.backward }
    requires backward { backward.now.dfa.nfa.reverse ≡ true }
    requires lies { HalfLiesIn input.now end }
    ensures answer { (kind : MatchKind) (r : Patterns) → TellsStarts backward.now.dfa r → (r.utf8_empty ≡ true → MeansUtf8 r input.now.haystack)
        → IsAnswerFor kind r input.now half_match_value (Some end) → IfOk result (IsAnswerFor kind r input.now match_value) }
    ensures half { IfOk result (λ found. IfSome found (λ m. half_of m ≡ end)) }
    ensures within { IfOk result (λ found. IfSome found (LiesIn input.now)) }
    ensures fits { IsCacheOf backward.now both.new.backward }
    ensures same { both.new.forward ≡ both.old.forward }
{
    start(backward, &mut both.backward, input, end)
}

/// Adds patterns that have a match to the set, by a DFA that reads forwards.
fn add_all<F: Automaton>(
    forward: &F,
    cache: &mut F::Cache,
    input: &Input<'_>,
    set: &mut PatternSet,
) -> Result<(), NoAnswer>
    requires fits { F.fits forward.now cache.old }
    requires forward { (F.dfa forward.now).nfa.reverse ≡ false }
    requires room { length (F.dfa forward.now).nfa.starts ≤ length set.old }
    ensures kept { KeepsMembers set.old set.new }
    ensures matching { AddsMatching (IsNfaOf (F.dfa forward.now).nfa) None input.now set.old set.new }
    ensures filled { (r : Patterns) → Premises (IsNfaOf (F.dfa forward.now).nfa r) None r input.now
        → OnOk result (IsFilledFor r input.now set.old set.new (F.dfa forward.now).kind) }
    ensures fits { F.fits forward.now cache.new }
{
    match try_which_overlapping(forward, cache, input, set) {
        Ok(()) => Ok(()),
        Err(_) => Err(NoAnswer),
    }
}

/// The same by a lazy DFA, with the cache that is its own.
fn add_all_in(
    forward: &Lazy,
    both: &mut Lazies,
    input: &Input<'_>,
    set: &mut PatternSet,
) -> Result<(), NoAnswer>
    requires fits { IsCacheOf forward.now both.old.forward }
    requires forward { forward.now.dfa.nfa.reverse ≡ false }
    requires room { length forward.now.dfa.nfa.starts ≤ length set.old }
    ensures kept { KeepsMembers set.old set.new }
    ensures matching { AddsMatching (IsNfaOf forward.now.dfa.nfa) None input.now set.old set.new }
    ensures filled { (r : Patterns) → Premises (IsNfaOf forward.now.dfa.nfa r) None r input.now
        → OnOk result (IsFilledFor r input.now set.old set.new forward.now.dfa.kind) }
    ensures fits { IsCacheOf forward.now both.new.forward }
    ensures same { both.new.backward ≡ both.old.backward }
{
    add_all(forward, &mut both.forward, input, set)
}
