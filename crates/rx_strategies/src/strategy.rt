//! How the searches of a regex are answered.
ghost use Rattle.std.specs.Prelude.{◌≡◌, ◌<◌, ◌≤◌, List, length, None, replicate, true, false, IfOk, IfErr, OnOk, OnErr, IsOk, IfNone, IfSome, IsTrue};
ghost use Rattle.rx_model.specs.Expression.{Expression, alternation};
ghost use Rattle.rx_model.specs.Search.{Patterns};
ghost use Rattle.rx_search.specs.Answer.{IsAnswer, AreSlotsOfAnswer, TellsWhether};
ghost use Rattle.rx_search.specs.Input.{IsSpanned, next_in};
ghost use Rattle.rx_search.specs.Matches.{match_value, half_match_value};
ghost use Rattle.rx_search.specs.Sets.{KeepsMembers, AddsMatching, IsFilled};
ghost use Rattle.rx_search.specs.Told.{AreWithin, LiesIn, HalfLiesIn};
ghost use Rattle.rx_search.specs.declared.anchored.MatchKind.TheVariants.{All};
ghost use Rattle.rx_hir.specs.Normal.{expressions};
ghost use Rattle.rx_hir.specs.PropertiesViews.{AreOf};
ghost use Rattle.rx_nfa.specs.Compiled.{AreAllowed, IsRefusal};
ghost use Rattle.rx_strategy.specs.Config.{kind_of, compiler_of};
ghost use Rattle.rx_strategy.specs.Impossible.{is_impossible, IsKnownImpossible};
ghost use Rattle.rx_strategy.specs.Strategy as lower;
ghost use Rattle.rx_strategies.specs.Attempting.{is_by_inner};
ghost use Rattle.rx_strategies.specs.Cache.{Fits, AccountsAlike, memory_of, states_in, accounted_for};
ghost use Rattle.rx_strategies.specs.Strategy.{IsFor, IsMadeOf, IsPlainOf, IsForwardsOf, IsEndlessOf, kind_in, groups_in, pattern_count, properties_of, prefilter_in, strategy_memory, core_memory};
ghost use Rattle.rx_strategies.specs.Strategy.{backtracks, is_accelerated, name_of, IsFew};

mod candidates;
mod cores;

use crate::anchored::ReverseAnchored;
use crate::cache::Cache;
use crate::inner::ReverseInner;
use crate::literal::{literal_name, literal_only};
use crate::strategy::candidates::{
    inner_half, inner_is_match, inner_memory, inner_slots, suffix_half, suffix_is_match,
    suffix_memory, suffix_slots,
};
use crate::strategy::cores::{
    anchored_half, anchored_is_match, anchored_slots, core_half, core_is_match, core_memory,
    core_set, core_slots,
};
use crate::suffix::ReverseSuffix;
use rx_hir::{Hir, Properties};
use rx_nfa::BuildError;
use rx_pre::Pre;
use rx_search::{GroupInfo, HalfMatch, Input, Match, Memory, NonMaxUsize, PatternSet};
use rx_strategy::{Config, is_impossible_by};
use std::alloc::Global;

// Its clauses name patterns and no NFA (DECISIONS: a strategy is an enum).
/// A way to search for patterns. Which one it is changes no answer that is promised. The first one that applies is taken, from the
/// first to the last; `Core` always does.
#[derive(Drop)]
pub enum Strategy {
    /// The literals that the only expression is are looked for.
    Pre(Pre),
    /// Each match ends at the end of the haystack, and is searched from there.
    ReverseAnchored(ReverseAnchored),
    /// A literal ends each match, and is searched for.
    ReverseSuffix(ReverseSuffix),
    /// One of some literals lies within each match, and is searched for.
    ReverseInner(ReverseInner),
    /// DFAs and engines run NFAs.
    Core(rx_strategy::Strategy),
}

impl Strategy {
    /// The strategy of these expressions, one pattern each, under the configuration.
    ///
    /// Refused are, in this order: more than 2147483647 patterns, more than 2147483646 slots, more than 2147483647
    /// states accounted, more bytes accounted than the configured limit. Want of memory comes last.
    pub fn new(alloc: Global, config: &Config, exprs: &[Hir]) -> Result<Strategy, BuildError>
        ensures made { IfOk result (IsMadeOf config.now exprs.now) }
        ensures no_backtracker { IfOk result (λ s. kind_of config.now ≡ All → backtracks s ≡ false) }
        ensures allowed { OnOk result (AreAllowed (compiler_of config.now) exprs.now) }
        ensures refused { IfErr result (IsRefusal (compiler_of config.now) exprs.now) }
    {
        // The core first, so that each limit is looked at, whichever strategy is taken.
        let core = rx_strategy::Strategy::new(alloc, config, exprs)?;
        Ok(first_of(alloc, config, exprs, core)?)
    }

    /// The next match in the input's span. With `earliest` it is some match, and there is one exactly where there is a next
    /// match. No match is told where the configuration asks for no captures.
    ///
    /// `Memory`: there was no memory for the search.
    pub fn search(&self, cache: &mut Cache, input: &Input<'_>) -> Result<Option<Match>, Memory>
        requires { Fits self.now cache.old }
        ensures answer { IfOk result (IsAnswer (IsFor self.now) (prefilter_in self.now) (kind_in self.now) input.now match_value) }
        ensures within { IfOk result (λ o. IfSome o (LiesIn input.now)) }
        ensures in_range { IfOk result (λ o. IfSome o (λ m. m.pattern < pattern_count self.now)) }
        ensures cache { Fits self.now cache.new }
        ensures memory { AccountsAlike self.now cache.old cache.new }
        ensures sure { IsKnownImpossible (properties_of self.now) input.now → IsOk result }
    {
        self.search_slots(cache, input, &mut [])
    }

    /// The pattern and the end of the match that `search` answers.
    ///
    /// `Memory`: there was no memory for the search.
    pub fn search_half(
        &self,
        cache: &mut Cache,
        input: &Input<'_>,
    ) -> Result<Option<HalfMatch>, Memory>
        requires { Fits self.now cache.old }
        ensures answer { IfOk result (IsAnswer (IsFor self.now) (prefilter_in self.now) (kind_in self.now) input.now half_match_value) }
        ensures within { IfOk result (λ o. IfSome o (HalfLiesIn input.now)) }
        ensures in_range { IfOk result (λ o. IfSome o (λ half. half.pattern < pattern_count self.now)) }
        ensures cache { Fits self.now cache.new }
        ensures memory { AccountsAlike self.now cache.old cache.new }
        ensures sure { IsKnownImpossible (properties_of self.now) input.now → IsOk result }
    {
        match self {
            Strategy::Pre(pre) => Ok(pre.search_half(input)),
            Strategy::ReverseAnchored(anchored) => anchored_half(anchored, &mut cache.rooms, input),
            Strategy::ReverseSuffix(suffix) => suffix_half(suffix, &mut cache.rooms, input),
            Strategy::ReverseInner(inner) => inner_half(
                inner,
                &mut cache.rooms,
                &mut cache.prefix,
                input,
            ),
            Strategy::Core(core) => core_half(core, &mut cache.rooms, input),
        }
    }

    /// As `search`. Each slot gets the place that the match leaves in it, and None where there is no match, no such slot,
    /// or no memory.
    ///
    /// `Memory`: there was no memory for the search.
    pub fn search_slots(
        &self,
        cache: &mut Cache,
        input: &Input<'_>,
        slots: &mut [Option<NonMaxUsize>],
    ) -> Result<Option<Match>, Memory>
        requires { Fits self.now cache.old }
        ensures answer { IfOk result (IsAnswer (IsFor self.now) (prefilter_in self.now) (kind_in self.now) input.now match_value) }
        ensures slots { IfOk result (AreSlotsOfAnswer (IsFor self.now) (prefilter_in self.now) (kind_in self.now) input.now match_value slots.new) }
        ensures within { IfOk result (λ o. IfSome o (LiesIn input.now)) }
        ensures in_range { IfOk result (λ o. IfSome o (λ m. m.pattern < pattern_count self.now)) }
        ensures none { IfOk result (λ o. IfNone o (slots.new ≡ replicate (length slots.old) None)) }
        ensures err { OnErr result (slots.new ≡ replicate (length slots.old) None) }
        ensures slots_within { AreWithin input.now slots.new }
        ensures cache { Fits self.now cache.new }
        ensures memory { AccountsAlike self.now cache.old cache.new }
        ensures spanned { IsSpanned input.now }
        ensures sure { IsKnownImpossible (properties_of self.now) input.now → IsOk result }
    {
        // What is known of an input's span comes of reading it.
        let _haystack = input.haystack();
        match self {
            Strategy::Pre(pre) => Ok(pre.search_slots(input, slots)),
            Strategy::ReverseAnchored(anchored) => anchored_slots(
                anchored,
                &mut cache.rooms,
                input,
                slots,
            ),
            Strategy::ReverseSuffix(suffix) => suffix_slots(suffix, &mut cache.rooms, input, slots),
            Strategy::ReverseInner(inner) => inner_slots(
                inner,
                &mut cache.rooms,
                &mut cache.prefix,
                input,
                slots,
            ),
            Strategy::Core(core) => core_slots(core, &mut cache.rooms, input, slots),
        }
    }

    /// Whether there is a match in the input's span, under each kind of match and of captures.
    ///
    /// `Memory`: there was no memory for the search.
    pub fn is_match(&self, cache: &mut Cache, input: &Input<'_>) -> Result<bool, Memory>
        requires { Fits self.now cache.old }
        ensures value { IfOk result (TellsWhether (IsFor self.now) (prefilter_in self.now) input.now) }
        ensures cache { Fits self.now cache.new }
        ensures memory { AccountsAlike self.now cache.old cache.new }
        ensures sure { IsKnownImpossible (properties_of self.now) input.now → IsOk result }
    {
        match self {
            Strategy::Pre(pre) => Ok(pre.is_match(input)),
            Strategy::ReverseAnchored(anchored) => anchored_is_match(
                anchored,
                &mut cache.rooms,
                input,
            ),
            Strategy::ReverseSuffix(suffix) => suffix_is_match(suffix, &mut cache.rooms, input),
            Strategy::ReverseInner(inner) => inner_is_match(
                inner,
                &mut cache.rooms,
                &mut cache.prefix,
                input,
            ),
            Strategy::Core(core) => core_is_match(core, &mut cache.rooms, input),
        }
    }

    /// Adds patterns that have a match in the input's span to the set: all of them under `All`, and that of the next match
    /// under leftmost-first. With `earliest` the set has a pattern with a match afterwards if there is one.
    ///
    /// `Memory`: there was no memory for the search. What was added before stays in the set.
    pub fn which_overlapping_matches(
        &self,
        cache: &mut Cache,
        input: &Input<'_>,
        set: &mut PatternSet,
    ) -> Result<(), Memory>
        requires fits { Fits self.now cache.old }
        requires room { pattern_count self.now ≤ length set.old }
        ensures kept { KeepsMembers set.old set.new }
        ensures matching { AddsMatching (IsFor self.now) (prefilter_in self.now) input.now set.old set.new }
        ensures filled { OnOk result (IsFilled (IsFor self.now) (prefilter_in self.now) input.now set.old set.new (kind_in self.now)) }
        ensures cache { Fits self.now cache.new }
        ensures memory { AccountsAlike self.now cache.old cache.new }
        ensures sure { IsKnownImpossible (properties_of self.now) input.now → IsOk result }
    {
        match self {
            Strategy::Pre(pre) => {
                pre.which_overlapping_matches(input, set);
                Ok(())
            }
            // Each pattern that has a match is to be told, so the span is read forwards.
            Strategy::ReverseAnchored(anchored) => core_set(
                anchored.core(),
                &mut cache.rooms,
                input,
                set,
            ),
            Strategy::ReverseSuffix(suffix) => core_set(
                suffix.core(),
                &mut cache.rooms,
                input,
                set,
            ),
            Strategy::ReverseInner(inner) => core_set(inner.core(), &mut cache.rooms, input, set),
            Strategy::Core(core) => core_set(core, &mut cache.rooms, input, set),
        }
    }

    /// The properties of the patterns together.
    pub fn properties(&self) -> &Properties
        ensures { result.now ≡ properties_of self.now }
    {
        match self {
            Strategy::Pre(pre) => pre.properties(),
            Strategy::ReverseAnchored(anchored) => anchored.core().properties(),
            Strategy::ReverseSuffix(suffix) => suffix.core().properties(),
            Strategy::ReverseInner(inner) => inner.core().properties(),
            Strategy::Core(core) => core.properties(),
        }
    }

    /// Whether it is known that there is no match in the input's span.
    pub fn is_impossible(&self, input: &Input<'_>) -> bool
        ensures value { (hs : List Expression) → AreOf (alternation (expressions hs)) (properties_of self.now)
            → result ≡ is_impossible hs input.now }
        ensures none { IsTrue result → (r : Patterns) → IsFor self.now r → next_in r input.now ≡ None }
        ensures spanned { IsSpanned input.now }
    {
        match self {
            Strategy::Pre(pre) => is_impossible_by(pre.properties(), input),
            Strategy::ReverseAnchored(anchored) => anchored.core().is_impossible(input),
            Strategy::ReverseSuffix(suffix) => suffix.core().is_impossible(input),
            Strategy::ReverseInner(inner) => inner.core().is_impossible(input),
            Strategy::Core(core) => core.is_impossible(input),
        }
    }

    /// A cache that serves this strategy.
    pub fn create_cache(&self, alloc: Global) -> Result<Cache, Memory>
        ensures fits { IfOk result (Fits self.now) }
        ensures memory { IfOk result (λ c. memory_of c ≡ accounted_for self.now) }
        ensures empty { IfOk result (λ c. states_in c ≡ 0) }
        ensures reads { IfOk result (λ c. c.reads_prefix ≡ is_by_inner self.now) }
    {
        Cache::new(alloc, self)
    }

    /// How many patterns there are.
    pub fn pattern_len(&self) -> usize
        ensures value { result ≡ pattern_count self.now }
        ensures patterns { (r : Patterns) → IsFor self.now r → result ≡ length r.expressions }
        ensures few { IsFew self.now }
    {
        match self {
            Strategy::Pre(_) => 1,
            Strategy::ReverseAnchored(anchored) => anchored.core().pattern_len(),
            Strategy::ReverseSuffix(suffix) => suffix.core().pattern_len(),
            Strategy::ReverseInner(inner) => inner.core().pattern_len(),
            Strategy::Core(core) => core.pattern_len(),
        }
    }

    /// The bytes that are accounted for the strategy itself. For a search for literals they are those of that search. Else they are 64
    /// for the properties of each pattern and for those of all of them together, and those of the prefilter, the NFAs and the full
    /// DFAs; or the greatest `usize` where they are more.
    pub fn memory_usage(&self) -> usize
        ensures { result ≡ strategy_memory self.now }
    {
        match self {
            Strategy::Pre(pre) => pre.memory_usage(),
            Strategy::ReverseAnchored(anchored) => core_memory(anchored.core()),
            Strategy::ReverseSuffix(suffix) => suffix_memory(suffix),
            Strategy::ReverseInner(inner) => inner_memory(inner),
            Strategy::Core(core) => core_memory(core),
        }
    }

    /// Whether a search may leave out much of the span: by a prefilter that is expected to be fast, or since it reads from the end.
    pub fn is_accelerated(&self) -> bool
        ensures { result ≡ is_accelerated self.now }
    {
        match self {
            Strategy::Pre(pre) => pre.is_fast(),
            Strategy::ReverseAnchored(_) => true,
            Strategy::ReverseSuffix(suffix) => suffix.prefilter().is_fast(),
            Strategy::ReverseInner(inner) => inner.prefilter().is_fast(),
            Strategy::Core(core) => core.is_accelerated(),
        }
    }

    /// The name of the strategy.
    #[tactic(auto, unfolding(crate::specs::Strategy::name_of))]
    pub fn name(&self) -> &'static str
        ensures { result.now ≡ name_of self.now }
    {
        match self {
            Strategy::Pre(pre) => literal_name(pre.choice()),
            Strategy::ReverseAnchored(_) => "reverse anchored",
            Strategy::ReverseSuffix(_) => "reverse suffix",
            Strategy::ReverseInner(_) => "reverse inner",
            Strategy::Core(_) => "core",
        }
    }

    /// The groups of each pattern. A group that the configuration leaves out has slots too, which stay empty.
    pub fn group_info(&self) -> &GroupInfo
        ensures { result.now ≡ groups_in self.now }
    {
        match self {
            Strategy::Pre(pre) => pre.group_info(),
            Strategy::ReverseAnchored(anchored) => anchored.core().group_info(),
            Strategy::ReverseSuffix(suffix) => suffix.core().group_info(),
            Strategy::ReverseInner(inner) => inner.core().group_info(),
            Strategy::Core(core) => core.group_info(),
        }
    }
}

/// The first strategy that applies to these expressions, of which the core is.
fn first_of(
    alloc: Global,
    config: &Config,
    exprs: &[Hir],
    core: rx_strategy::Strategy,
) -> Result<Strategy, Memory>
    requires { lower.IsMadeOf config.now exprs.now core }
    ensures { IfOk result (IsMadeOf config.now exprs.now) }
{
    match literal_only(alloc, config, exprs, core)? {
        Ok(pre) => Ok(Strategy::Pre(pre)),
        Err(core) => with_core(alloc, config, exprs, core),
    }
}

/// The first strategy with a core that applies to these expressions, of which the core is, and which are no literals alone.
fn with_core(
    alloc: Global,
    config: &Config,
    exprs: &[Hir],
    core: rx_strategy::Strategy,
) -> Result<Strategy, Memory>
    requires { IsPlainOf config.now exprs.now core }
    ensures { IfOk result (IsMadeOf config.now exprs.now) }
{
    match ReverseAnchored::new(core) {
        Ok(anchored) => Ok(Strategy::ReverseAnchored(anchored)),
        Err(core) => by_suffix(alloc, config, exprs, core),
    }
}

/// The search by a literal that ends each match, where the expressions, of which the core is, are searched so; else what comes behind it.
fn by_suffix(
    alloc: Global,
    config: &Config,
    exprs: &[Hir],
    core: rx_strategy::Strategy,
) -> Result<Strategy, Memory>
    requires { IsForwardsOf config.now exprs.now core }
    ensures { IfOk result (IsMadeOf config.now exprs.now) }
{
    match ReverseSuffix::new(alloc, config, exprs, core)? {
        Ok(suffix) => Ok(Strategy::ReverseSuffix(suffix)),
        Err(core) => by_inner(alloc, config, exprs, core),
    }
}

/// The search by literals within each match, where the expressions, of which the core is, are searched so; else the core.
fn by_inner(
    alloc: Global,
    config: &Config,
    exprs: &[Hir],
    core: rx_strategy::Strategy,
) -> Result<Strategy, Memory>
    requires { IsEndlessOf config.now exprs.now core }
    ensures { IfOk result (IsMadeOf config.now exprs.now) }
{
    match ReverseInner::new(alloc, config, exprs, core)? {
        Ok(inner) => Ok(Strategy::ReverseInner(inner)),
        Err(core) => Ok(Strategy::Core(core)),
    }
}
