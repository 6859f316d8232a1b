//! How the searches of a regex are answered.
ghost use Rattle.std.specs.Prelude.{◌≡◌, ◌<◌, ◌≤◌, List, length, None, replicate, true, false, MatchOption, IfOk, IfErr, OnOk, OnErr, IsOk, IfNone, IfSome, IsTrue};
ghost use Rattle.rx_model.specs.Expression.{Expression, alternation};
ghost use Rattle.rx_model.specs.Search.{Patterns};
ghost use Rattle.rx_search.specs.Input.{IsSpanned, next_in};
ghost use Rattle.rx_search.specs.Matches.{match_value, half_match_value};
ghost use Rattle.rx_search.specs.Sets.{KeepsMembers, AddsMatching, IsFilled};
ghost use Rattle.rx_search.specs.Told.{AreWithin, LiesIn, HalfLiesIn};
ghost use Rattle.rx_search.specs.declared.anchored.MatchKind.TheVariants.{All};
ghost use Rattle.rx_hir.specs.Normal.{expressions};
ghost use Rattle.rx_hir.specs.PropertiesViews.{AreOf};
ghost use Rattle.rx_nfa.specs.Compiled.{IsCompiled, AreAllowed, IsRefusal};
ghost use Rattle.rx_nfa.specs.Config.{nothing_set, overwritten};
ghost use Rattle.rx_search.specs.Answer.{IsAnswer, AreSlotsOfAnswer, TellsWhether};
ghost use Rattle.rx_strategy.specs.Config.{kind_of, compiler_of, reverse_compiler_of, asks_for_dfas};
ghost use Rattle.rx_strategy.specs.Cache.{Fits, AccountsAlike, HoldsNoStates, memory_of, accounted_for};
ghost use Rattle.rx_strategy.specs.Impossible.{is_impossible, IsKnownImpossible};
ghost use Rattle.rx_strategy.specs.Strategy.{IsFor, kind_in, groups_in, pattern_count, properties_of, prefilter_in, strategy_memory, backtracks, IsFew, IsMadeOf};

mod asked;
mod attempts;
mod engines;

use crate::cache::Cache;
use crate::config::Config;
use crate::info::RegexInfo;
use crate::prefilter::choose;
pub use engines::Core;
use rx_engines::empty;
use rx_hir::{Hir, Properties};
use rx_nfa::{BuildError, Compiler, NFA};
use rx_search::{GroupInfo, HalfMatch, Input, Match, Memory, NonMaxUsize, PatternSet};
use std::alloc::Global;

// Its clauses name patterns and no NFA (DECISIONS: a strategy is an enum).
/// A way to search for patterns. Which one it is changes no answer that is promised.
#[derive(Drop)]
pub enum Strategy {
    /// Engines run an NFA.
    Core(Core),
}

impl Strategy {
    /// The strategy of these expressions, one pattern each, under the configuration.
    ///
    /// Refused are, in this order: more than 2147483647 patterns, more than 2147483646 slots, more than 2147483647
    /// states accounted, more bytes accounted than the configured limit. Want of memory comes last.
    pub fn new(alloc: Global, config: &Config, exprs: &[Hir]) -> Result<Strategy, BuildError>
        ensures made { IfOk result (IsMadeOf config.now exprs.now) }
        ensures no_backtracker { IfOk result (λ s. kind_of config.now ≡ All → backtracks s ≡ false) }
        ensures allowed { OnOk result (AreAllowed (compiler_of config.now) exprs.now) }
        ensures refused { IfErr result (IsRefusal (compiler_of config.now) exprs.now) }
    {
        let nfa = compiled(alloc, config.compiler(), exprs)?;
        let reverse = compiled_backwards(alloc, config, exprs)?;
        let info = RegexInfo::new(alloc, exprs)?;
        let pre = choose(alloc, config, exprs, &info)?;
        Ok(Strategy::Core(Core::new(alloc, config, nfa, reverse, info, pre)?))
    }

    /// The next match in the input's span. With `earliest` it is some match, and there is one exactly where there is a next
    /// match. No match is told where the configuration asks for no captures.
    ///
    /// `Memory`: there was no memory for the search.
    pub fn search(&self, cache: &mut Cache, input: &Input<'_>) -> Result<Option<Match>, Memory>
        requires { Fits self.now cache.old }
        ensures answer { IfOk result (IsAnswer (IsFor self.now) (prefilter_in self.now) (kind_in self.now) input.now match_value) }
        ensures within { IfOk result (λ o. IfSome o (LiesIn input.now)) }
        ensures in_range { IfOk result (λ o. IfSome o (λ m. m.pattern < pattern_count self.now)) }
        ensures cache { Fits self.now cache.new }
        ensures memory { AccountsAlike self.now cache.old cache.new }
        ensures sure { IsKnownImpossible (properties_of self.now) input.now → IsOk result }
    {
        self.search_slots(cache, input, &mut [])
    }

    /// The pattern and the end of the match that `search` answers.
    ///
    /// `Memory`: there was no memory for the search.
    pub fn search_half(
        &self,
        cache: &mut Cache,
        input: &Input<'_>,
    ) -> Result<Option<HalfMatch>, Memory>
        requires { Fits self.now cache.old }
        ensures answer { IfOk result (IsAnswer (IsFor self.now) (prefilter_in self.now) (kind_in self.now) input.now half_match_value) }
        ensures within { IfOk result (λ o. IfSome o (HalfLiesIn input.now)) }
        ensures in_range { IfOk result (λ o. IfSome o (λ half. half.pattern < pattern_count self.now)) }
        ensures cache { Fits self.now cache.new }
        ensures memory { AccountsAlike self.now cache.old cache.new }
        ensures sure { IsKnownImpossible (properties_of self.now) input.now → IsOk result }
    {
        if self.is_impossible(input) {
            return Ok(None);
        }
        match self {
            Strategy::Core(core) => Ok(core.search_half(cache, input)),
        }
    }

    /// As `search`. Each slot gets the place that the match leaves in it, and None where there is no match, no such slot,
    /// or no memory.
    ///
    /// `Memory`: there was no memory for the search.
    pub fn search_slots(
        &self,
        cache: &mut Cache,
        input: &Input<'_>,
        slots: &mut [Option<NonMaxUsize>],
    ) -> Result<Option<Match>, Memory>
        requires { Fits self.now cache.old }
        ensures answer { IfOk result (IsAnswer (IsFor self.now) (prefilter_in self.now) (kind_in self.now) input.now match_value) }
        ensures slots { IfOk result (AreSlotsOfAnswer (IsFor self.now) (prefilter_in self.now) (kind_in self.now) input.now match_value slots.new) }
        ensures within { IfOk result (λ o. IfSome o (LiesIn input.now)) }
        ensures in_range { IfOk result (λ o. IfSome o (λ m. m.pattern < pattern_count self.now)) }
        ensures none { IfOk result (λ o. IfNone o (slots.new ≡ replicate (length slots.old) None)) }
        ensures err { OnErr result (slots.new ≡ replicate (length slots.old) None) }
        ensures slots_within { AreWithin input.now slots.new }
        ensures cache { Fits self.now cache.new }
        ensures memory { AccountsAlike self.now cache.old cache.new }
        ensures spanned { IsSpanned input.now }
        ensures sure { IsKnownImpossible (properties_of self.now) input.now → IsOk result }
    {
        if self.is_impossible(input) {
            empty(slots);
            return Ok(None);
        }
        match self {
            Strategy::Core(core) => Ok(core.search_slots(cache, input, slots)),
        }
    }

    /// Whether there is a match in the input's span, under each kind of match and of captures.
    ///
    /// `Memory`: there was no memory for the search.
    pub fn is_match(&self, cache: &mut Cache, input: &Input<'_>) -> Result<bool, Memory>
        requires { Fits self.now cache.old }
        ensures value { IfOk result (TellsWhether (IsFor self.now) (prefilter_in self.now) input.now) }
        ensures cache { Fits self.now cache.new }
        ensures memory { AccountsAlike self.now cache.old cache.new }
        ensures sure { IsKnownImpossible (properties_of self.now) input.now → IsOk result }
    {
        if self.is_impossible(input) {
            return Ok(false);
        }
        match self {
            Strategy::Core(core) => Ok(core.is_match(cache, input)),
        }
    }

    /// Adds patterns that have a match in the input's span to the set: all of them under `All`, and that of the next match
    /// under leftmost-first. With `earliest` the set has a pattern with a match afterwards if there is one.
    ///
    /// `Memory`: there was no memory for the search. What was added before stays in the set.
    pub fn which_overlapping_matches(
        &self,
        cache: &mut Cache,
        input: &Input<'_>,
        set: &mut PatternSet,
    ) -> Result<(), Memory>
        requires fits { Fits self.now cache.old }
        requires room { pattern_count self.now ≤ length set.old }
        ensures kept { KeepsMembers set.old set.new }
        ensures matching { AddsMatching (IsFor self.now) (prefilter_in self.now) input.now set.old set.new }
        ensures filled { OnOk result (IsFilled (IsFor self.now) (prefilter_in self.now) input.now set.old set.new (kind_in self.now)) }
        ensures cache { Fits self.now cache.new }
        ensures memory { AccountsAlike self.now cache.old cache.new }
        ensures sure { IsKnownImpossible (properties_of self.now) input.now → IsOk result }
    {
        if self.is_impossible(input) {
            return Ok(());
        }
        match self {
            Strategy::Core(core) => core.which_overlapping_matches(cache, input, set),
        }
        Ok(())
    }

    /// The properties of the patterns together.
    pub fn properties(&self) -> &Properties
        ensures { result.now ≡ properties_of self.now }
    {
        match self {
            Strategy::Core(core) => core.properties(),
        }
    }

    /// Whether it is known that there is no match in the input's span.
    pub fn is_impossible(&self, input: &Input<'_>) -> bool
        ensures value { (hs : List Expression) → AreOf (alternation (expressions hs)) (properties_of self.now)
            → result ≡ is_impossible hs input.now }
        ensures none { IsTrue result → (r : Patterns) → IsFor self.now r → next_in r input.now ≡ None }
        ensures spanned { IsSpanned input.now }
    {
        match self {
            Strategy::Core(core) => core.is_impossible(input),
        }
    }

    /// A cache that serves this strategy.
    pub fn create_cache(&self, alloc: Global) -> Result<Cache, Memory>
        ensures fits { IfOk result (Fits self.now) }
        ensures memory { IfOk result (λ c. memory_of c ≡ accounted_for self.now) }
        ensures empty { IfOk result HoldsNoStates }
    {
        match self {
            Strategy::Core(core) => core.create_cache(alloc),
        }
    }

    /// How many patterns there are.
    pub fn pattern_len(&self) -> usize
        ensures value { result ≡ pattern_count self.now }
        ensures patterns { (r : Patterns) → IsFor self.now r → result ≡ length r.expressions }
        ensures few { IsFew self.now }
    {
        match self {
            Strategy::Core(core) => core.get_nfa().pattern_len(),
        }
    }

    /// The bytes that are accounted for the strategy itself, which are those of its prefilter, its NFAs and its full DFAs, or the
    /// greatest `usize` where they are more.
    pub fn memory_usage(&self) -> usize
        ensures { result ≡ strategy_memory self.now }
    {
        match self {
            Strategy::Core(core) => core.memory_usage(),
        }
    }

    /// The groups of each pattern. A group that the configuration leaves out has slots too, which stay empty.
    pub fn group_info(&self) -> &GroupInfo
        ensures { result.now ≡ groups_in self.now }
    {
        match self {
            Strategy::Core(core) => core.get_nfa().group_info(),
        }
    }
}

/// The NFA of the expressions, compiled so.
fn compiled(alloc: Global, config: rx_nfa::Config, exprs: &[Hir]) -> Result<NFA, BuildError>
    ensures made { IfOk result (IsCompiled (overwritten nothing_set config) exprs.now) }
    ensures allowed { OnOk result (AreAllowed (overwritten nothing_set config) exprs.now) }
    ensures refused { IfErr result (IsRefusal (overwritten nothing_set config) exprs.now) }
{
    let mut compiler = Compiler::new();
    compiler.configure(config);
    compiler.build_many_from_hir(alloc, exprs)
}

/// The NFA of the expressions that reads backwards, where DFAs are asked for. It costs as much as the other one, so nothing is refused
/// that was not refused before.
fn compiled_backwards(
    alloc: Global,
    config: &Config,
    exprs: &[Hir],
) -> Result<Option<NFA>, BuildError>
    ensures made { IfOk result (λ o. MatchOption o (asks_for_dfas config.now ≡ false)
        (λ nfa. (asks_for_dfas config.now ≡ true) × IsCompiled (reverse_compiler_of config.now) exprs.now nfa)) }
    ensures refused { IfErr result (IsRefusal (compiler_of config.now) exprs.now) }
{
    if !config.asks_for_dfas() {
        return Ok(None);
    }
    match compiled(alloc, config.reverse_compiler(), exprs) {
        Ok(nfa) => Ok(Some(nfa)),
        Err(error) => Err(error),
    }
}
