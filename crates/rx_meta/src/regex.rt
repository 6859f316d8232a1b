//! The public face: build once, search from anywhere.
#![tactic(auto, unfolding(crate::specs::Cache::Fits, crate::specs::Cache::AccountsAlike, crate::specs::Cache::memory_of, crate::specs::Impossible::IsKnownImpossible, crate::specs::Regex::pattern_count))]

ghost use Rattle.std.specs.Prelude.{◌≡◌, ◌≤◌, ◌<◌, ◌∷◌, [], length, None, replicate, map, IfOk, IfErr, IfNone, IfSome, OnErr, IsOk};
ghost use Rattle.std.specs.Arc.{arc_value};
ghost use Rattle.rx_model.specs.Search.{Patterns};
ghost use Rattle.rx_search.specs.Input.{IsSpanned};
ghost use Rattle.rx_search.specs.Limits.{id_limit};
ghost use Rattle.rx_search.specs.Matches.{match_value, half_match_value};
ghost use Rattle.rx_search.specs.Told.{AreWithin, LiesIn, HalfLiesIn, matched_pattern};
ghost use Rattle.rx_reader.specs.Config.{default};
ghost use Rattle.rx_meta.specs.Build.{IsBuiltOf, IsRefusedFor};
ghost use Rattle.rx_meta.specs.Cache.{Fits, IsAsMadeFor, AccountsAlike, memory_of, accounted_for, states_memory};
ghost use Rattle.rx_meta.specs.Config.{nothing_set};
ghost use Rattle.rx_meta.specs.Impossible.{IsKnownImpossible};
ghost use Rattle.rx_meta.specs.Regex.{Serves, groups_in, pattern_count, regex_memory, name_of, is_accelerated};
ghost use Rattle.rx_meta.specs.Search.{IsAnswer, AreSlotsOfAnswer, TellsWhether};

use crate::builder::Builder;
use crate::cache::Cache;
use crate::cache_maker::CacheMaker;
use crate::caches::give_back;
use crate::error::BuildError;
use crate::found::pattern;
use rx_engines::empty;
use rx_search::{GroupInfo, HalfMatch, Input, Match, Memory, NonMaxUsize, PatternID};
use rx_strategies::Strategy;
use rx_strategy::Config;
use rx_util::Pool;
use std::alloc::Global;
use std::marker::Model;
use std::sync::{Arc, Wait};

/// Patterns that are searched for together. It is built once, and may be searched from many threads at once.
///
/// Under `MatchKind::LeftmostFirst`, and where the input doesn't ask for `earliest`, a search answers the next match: at
/// the least permitted start from which a pattern matches, the first match in order of preference of the least such
/// pattern. Where no match may start inside a character, this is promised of texts that are UTF-8, and of patterns that mean
/// UTF-8 there. A search that finds nothing leaves every slot None.
///
/// A search that takes `rt` takes a cache from the regex, or else makes one, and gives it back; it may wait for a moment, and
/// fails where there is no memory for a cache or for the search. One that ends in `_with` is given a cache that serves this
/// regex, and waits for nothing; it may fail where there is no memory for the search. Where it is known beforehand that there
/// is no match in the span, no search is made, no cache is taken, and no search fails. An iterator takes its cache at first,
/// whatever the input is, and gives it back where it is finished or counted; one that is dropped frees it. Clones share the
/// strategy, and each has caches of its own.
#[derive(Drop)]
pub struct Regex {
    config: Config,
    /// Its maker has the strategy, and it has as many stacks as the configuration says.
    caches: Pool<Cache, CacheMaker>,
}

impl Model for Regex {
    ghost use Rattle.std.specs.Prelude.{◌≡◌, max, vec_len};
    ghost use Rattle.std.specs.Arc.{arc_value};
    ghost use Rattle.rx_strategy.specs.Config.{pool_capacity_of};
    ghost use Rattle.rx_meta.specs.Regex.{RegexValue};

    ghost Value = { RegexValue };

    ghost view = { λ r. record { config = r.config; strategy = arc_value r.caches.maker.strategy } };

    ghost invariant = { λ r. vec_len r.caches.stacks ≡ max (pool_capacity_of r.config) 1 };
}

impl Regex {
    /// The regex of one pattern, under the default configuration. It is refused as by `new_many`.
    ///
    /// # Errors
    ///
    /// As by `Builder::build_many`.
    pub fn new(alloc: Global, pattern: &str) -> Result<Regex, BuildError>
        ensures built { IfOk result (IsBuiltOf default nothing_set (pattern.now ∷ [])) }
        ensures refused { IfErr result (IsRefusedFor default nothing_set (pattern.now ∷ [])) }
    {
        Regex::builder().build(alloc, pattern)
    }

    /// The regex of these patterns, numbered from 0 on, under the default configuration. It is refused as by
    /// `Builder::build_many`.
    ///
    /// # Errors
    ///
    /// As by `Builder::build_many`.
    ///
    /// # Examples
    ///
    /// ```
    /// let regex = Regex::new_many(alloc, &["[a-z]+", "[0-9]+", "a"])?;
    /// let found = regex.find(&rt, alloc, &Input::new(b"7a"))?;
    /// assert_eq!(rt; whole(found), Some((1, 0, 1)));
    /// ```
    pub fn new_many(alloc: Global, patterns: &[&str]) -> Result<Regex, BuildError>
        ensures built { IfOk result (IsBuiltOf default nothing_set (map (λ p. p.now) patterns.now)) }
        ensures refused { IfErr result (IsRefusedFor default nothing_set (map (λ p. p.now) patterns.now)) }
    {
        Regex::builder().build_many(alloc, patterns)
    }

    /// A configuration in which nothing is set.
    pub fn config() -> Config
        ensures { result ≡ nothing_set }
    {
        Config::new()
    }

    /// A builder with the default configuration.
    pub fn builder() -> Builder
        ensures config { result.config ≡ nothing_set }
        ensures syntax { result.syntax ≡ default }
    {
        Builder::new()
    }

    /// A regex that searches by this strategy, which was made under the configuration.
    pub(crate) fn from_parts(
        alloc: Global,
        config: &Config,
        strategy: Strategy,
    ) -> Result<Regex, Memory>
        ensures { IfOk result (λ regex. regex ≡ record { config = config.now; strategy = strategy }) }
    {
        let maker = CacheMaker::new(alloc, Arc::new(alloc, strategy)?);
        Regex::of_maker(config.clone()?, maker)
    }

    /// A regex whose caches this maker makes, of which none is made yet.
    fn of_maker(config: Config, maker: CacheMaker) -> Result<Regex, Memory>
        ensures { IfOk result (λ regex. regex ≡ record { config = config; strategy = arc_value maker.strategy }) }
    {
        let caches = maker.into_pool(&config)?;
        Ok(Regex { config, caches })
    }

    /// How its searches are answered.
    pub(crate) fn strategy(&self) -> &Strategy
        ensures { result.now ≡ self.now.strategy }
    {
        self.caches.maker().strategy()
    }

    /// The caches that its searches share.
    pub(crate) fn caches(&self) -> &Pool<Cache, CacheMaker>
        ensures { arc_value result.now.maker.strategy ≡ self.now.strategy }
    {
        &self.caches
    }

    /// The same regex once more. It shares the strategy, and has caches of its own.
    ///
    /// # Errors
    ///
    /// `Memory`, where there was no memory for it.
    pub fn clone(&self) -> Result<Regex, Memory>
        ensures { IfOk result (λ copy. copy ≡ self.now) }
    {
        let maker = self.caches.maker().clone()?;
        Regex::of_maker(self.config.clone()?, maker)
    }

    /// Whether there is a match in the input's span, under every configuration.
    ///
    /// # Errors
    ///
    /// `Memory`, where there was no memory for a cache.
    pub fn is_match<R: Wait>(
        &self,
        rt: &R,
        _alloc: Global,
        input: &Input<'_>,
    ) -> Result<bool, Memory>
        ensures value { IfOk result (TellsWhether self.now input.now) }
        ensures sure { IsKnownImpossible self.now input.now → IsOk result }
    {
        // It is a few comparisons (DECISIONS: searches that can have no match run no engine).
        if self.strategy().is_impossible(input) {
            return Ok(false);
        }
        let mut lent = self.lend(rt)?;
        let answer = self.is_match_with(&mut lent.guard.value, input);
        give_back(rt, self, lent);
        answer
    }

    /// As `is_match`, with a cache that serves this regex.
    fn is_match_with(&self, cache: &mut Cache, input: &Input<'_>) -> Result<bool, Memory>
        requires { Fits self.now cache.old }
        ensures value { IfOk result (TellsWhether self.now input.now) }
        ensures cache { Fits self.now cache.new }
        ensures sure { IsKnownImpossible self.now input.now → IsOk result }
    {
        self.strategy().is_match(&mut cache.rooms, input)
    }

    /// As `search`.
    ///
    /// # Errors
    ///
    /// `Memory`, where there was no memory for a cache.
    ///
    /// # Examples
    ///
    /// ```
    /// let regex = Regex::new(alloc, r"\d{4}-\d{2}-\d{2}")?;
    /// let input = Input::new(b"on 2024-02-29.");
    /// assert_eq!(rt; regex.is_match(&rt, alloc, &input)?, true);
    /// assert_eq!(rt; whole(regex.find(&rt, alloc, &input)?), Some((0, 3, 13)));
    /// ```
    pub fn find<R: Wait>(
        &self,
        rt: &R,
        alloc: Global,
        input: &Input<'_>,
    ) -> Result<Option<Match>, Memory>
        ensures answer { IfOk result (IsAnswer self.now input.now match_value) }
        ensures within { IfOk result (λ o. IfSome o (LiesIn input.now)) }
        ensures in_range { IfOk result (λ o. IfSome o (λ m. m.pattern < pattern_count self.now)) }
        ensures sure { IsKnownImpossible self.now input.now → IsOk result }
    {
        self.search(rt, alloc, input)
    }

    /// The next match in the input's span. With `earliest` it is some match, and there is one exactly where there is a next
    /// match. No match is told where the configuration asks for no captures.
    ///
    /// # Errors
    ///
    /// `Memory`, where there was no memory for a cache.
    pub fn search<R: Wait>(
        &self,
        rt: &R,
        _alloc: Global,
        input: &Input<'_>,
    ) -> Result<Option<Match>, Memory>
        ensures answer { IfOk result (IsAnswer self.now input.now match_value) }
        ensures within { IfOk result (λ o. IfSome o (LiesIn input.now)) }
        ensures in_range { IfOk result (λ o. IfSome o (λ m. m.pattern < pattern_count self.now)) }
        ensures sure { IsKnownImpossible self.now input.now → IsOk result }
    {
        // The input first, so that the answer needs no memory there (DECISIONS: a call that makes a cache reads the input first).
        if self.strategy().is_impossible(input) {
            return Ok(None);
        }
        let mut lent = self.lend(rt)?;
        let answer = self.search_with(&mut lent.guard.value, input);
        give_back(rt, self, lent);
        answer
    }

    /// The pattern and the end of the match that `search` answers.
    ///
    /// # Errors
    ///
    /// `Memory`, where there was no memory for a cache.
    pub fn search_half<R: Wait>(
        &self,
        rt: &R,
        _alloc: Global,
        input: &Input<'_>,
    ) -> Result<Option<HalfMatch>, Memory>
        ensures answer { IfOk result (IsAnswer self.now input.now half_match_value) }
        ensures within { IfOk result (λ o. IfSome o (HalfLiesIn input.now)) }
        ensures in_range { IfOk result (λ o. IfSome o (λ half. half.pattern < pattern_count self.now)) }
        ensures sure { IsKnownImpossible self.now input.now → IsOk result }
    {
        if self.strategy().is_impossible(input) {
            return Ok(None);
        }
        let mut lent = self.lend(rt)?;
        let answer = self.search_half_with(&mut lent.guard.value, input);
        give_back(rt, self, lent);
        answer
    }

    /// The pattern of the match that `search` answers. Each slot gets the place that the match leaves in it, and None where
    /// there is no match, no such slot, or no memory.
    ///
    /// # Errors
    ///
    /// `Memory`, where there was no memory for a cache.
    ///
    /// # Examples
    ///
    /// ```
    /// let groups = regex.group_info();
    /// let mut slots = vec![in alloc; None; groups.slot_len()]?;
    /// let found = regex.search_slots(&rt, alloc, &Input::new(b"n=10"), &mut slots)?;
    /// let pattern = found.ok_or("no match")?;
    /// let group = groups.to_index(pattern, "value").ok_or("no such name")?;
    /// let (start, end) = groups.slots(pattern, group).ok_or("no such group")?;
    /// assert_eq!(rt; place(&slots, start), Some(2));
    /// assert_eq!(rt; place(&slots, end), Some(4));
    /// ```
    pub fn search_slots<R: Wait>(
        &self,
        rt: &R,
        _alloc: Global,
        input: &Input<'_>,
        slots: &mut [Option<NonMaxUsize>],
    ) -> Result<Option<PatternID>, Memory>
        ensures answer { IfOk result (IsAnswer self.now input.now matched_pattern) }
        ensures in_range { IfOk result (λ o. IfSome o (λ p. p < pattern_count self.now)) }
        ensures slots { IfOk result (AreSlotsOfAnswer self.now input.now matched_pattern slots.new) }
        ensures none { IfOk result (λ o. IfNone o (slots.new ≡ replicate (length slots.old) None)) }
        ensures slots_within { AreWithin input.now slots.new }
        ensures err { OnErr result (slots.new ≡ replicate (length slots.old) None) }
        ensures sure { IsKnownImpossible self.now input.now → IsOk result }
    {
        if self.strategy().is_impossible(input) {
            empty(slots);
            return Ok(None);
        }
        let mut lent = match self.lend(rt) {
            Ok(lent) => lent,
            Err(Memory) => {
                empty(slots);
                return Err(Memory);
            }
        };
        let answer = self.search_slots_with(&mut lent.guard.value, input, slots);
        give_back(rt, self, lent);
        answer
    }

    /// As `search`, with a cache that serves this regex.
    ///
    /// # Errors
    ///
    /// `Memory`, where there was no memory for the search.
    pub fn search_with(&self, cache: &mut Cache, input: &Input<'_>) -> Result<Option<Match>, Memory>
        requires { Fits self.now cache.old }
        ensures answer { IfOk result (IsAnswer self.now input.now match_value) }
        ensures within { IfOk result (λ o. IfSome o (LiesIn input.now)) }
        ensures in_range { IfOk result (λ o. IfSome o (λ m. m.pattern < pattern_count self.now)) }
        ensures cache { Fits self.now cache.new }
        ensures memory { AccountsAlike self.now cache.old cache.new }
        ensures sure { IsKnownImpossible self.now input.now → IsOk result }
    {
        // Where a DFA wants memory another engine serves (DECISIONS: the calls that end in `_with` take no allocator).
        self.strategy().search(&mut cache.rooms, input)
    }

    /// As `search_half`, with a cache that serves this regex.
    ///
    /// # Errors
    ///
    /// `Memory`, where there was no memory for the search.
    pub fn search_half_with(
        &self,
        cache: &mut Cache,
        input: &Input<'_>,
    ) -> Result<Option<HalfMatch>, Memory>
        requires { Fits self.now cache.old }
        ensures answer { IfOk result (IsAnswer self.now input.now half_match_value) }
        ensures within { IfOk result (λ o. IfSome o (HalfLiesIn input.now)) }
        ensures in_range { IfOk result (λ o. IfSome o (λ half. half.pattern < pattern_count self.now)) }
        ensures cache { Fits self.now cache.new }
        ensures memory { AccountsAlike self.now cache.old cache.new }
        ensures sure { IsKnownImpossible self.now input.now → IsOk result }
    {
        self.strategy().search_half(&mut cache.rooms, input)
    }

    /// As `search_slots`, with a cache that serves this regex.
    ///
    /// # Errors
    ///
    /// `Memory`, where there was no memory for the search.
    pub fn search_slots_with(
        &self,
        cache: &mut Cache,
        input: &Input<'_>,
        slots: &mut [Option<NonMaxUsize>],
    ) -> Result<Option<PatternID>, Memory>
        requires { Fits self.now cache.old }
        ensures answer { IfOk result (IsAnswer self.now input.now matched_pattern) }
        ensures in_range { IfOk result (λ o. IfSome o (λ p. p < pattern_count self.now)) }
        ensures slots { IfOk result (AreSlotsOfAnswer self.now input.now matched_pattern slots.new) }
        ensures none { IfOk result (λ o. IfNone o (slots.new ≡ replicate (length slots.old) None)) }
        ensures slots_within { AreWithin input.now slots.new }
        ensures err { OnErr result (slots.new ≡ replicate (length slots.old) None) }
        ensures cache { Fits self.now cache.new }
        ensures memory { AccountsAlike self.now cache.old cache.new }
        ensures sure { IsKnownImpossible self.now input.now → IsOk result }
    {
        let found = self.search_match_with(cache, input, slots)?;
        Ok(pattern(&found))
    }

    /// As `search_slots_with`, with the whole match.
    ///
    /// # Errors
    ///
    /// `Memory`, where there was no memory for the search.
    pub fn search_match_with(
        &self,
        cache: &mut Cache,
        input: &Input<'_>,
        slots: &mut [Option<NonMaxUsize>],
    ) -> Result<Option<Match>, Memory>
        requires { Fits self.now cache.old }
        ensures answer { IfOk result (IsAnswer self.now input.now match_value) }
        ensures slots { IfOk result (AreSlotsOfAnswer self.now input.now match_value slots.new) }
        ensures within { IfOk result (λ o. IfSome o (LiesIn input.now)) }
        ensures in_range { IfOk result (λ o. IfSome o (λ m. m.pattern < pattern_count self.now)) }
        ensures none { IfOk result (λ o. IfNone o (slots.new ≡ replicate (length slots.old) None)) }
        ensures slots_within { AreWithin input.now slots.new }
        ensures err { OnErr result (slots.new ≡ replicate (length slots.old) None) }
        ensures cache { Fits self.now cache.new }
        ensures memory { AccountsAlike self.now cache.old cache.new }
        ensures spanned { IsSpanned input.now }
        ensures sure { IsKnownImpossible self.now input.now → IsOk result }
    {
        self.strategy().search_slots(&mut cache.rooms, input, slots)
    }

    /// A cache that serves this regex.
    ///
    /// # Errors
    ///
    /// `Memory`, where there was no memory for it.
    ///
    /// # Examples
    ///
    /// ```
    /// let mut cache = regex.create_cache(alloc)?;
    /// let first = regex.search_with(&mut cache, &Input::new(b"Error: 1"));
    /// let second = regex.search_with(&mut cache, &Input::new(b"an ERROR"));
    /// ```
    #[tactic(auto, unfolding(crate::specs::Cache::Fits, crate::specs::Cache::IsAsMadeFor, crate::specs::Cache::memory_of, crate::specs::Cache::accounted_for, crate::specs::Cache::states_memory))]
    pub fn create_cache(&self, alloc: Global) -> Result<Cache, Memory>
        ensures fits { IfOk result (Fits self.now) }
        ensures memory { IfOk result (λ c. memory_of c ≡ accounted_for self.now) }
        ensures empty { IfOk result (λ c. states_memory c ≡ 0) }
        ensures own { IfOk result (IsAsMadeFor self.now) }
    {
        Ok(Cache {
            rooms: Box::new(alloc, self.strategy().create_cache(alloc)?)?,
        })
    }

    /// How many patterns there are.
    #[tactic(auto, unfolding(crate::specs::Regex::Serves, crate::specs::Regex::pattern_count))]
    pub fn pattern_len(&self) -> usize
        ensures value { result ≡ pattern_count self.now }
        ensures patterns { (r : Patterns) → Serves self.now r → result ≡ length r.expressions }
        ensures few { result ≤ id_limit }
    {
        self.strategy().pattern_len()
    }

    /// The bytes that are accounted for the regex. Where it looks for literals alone they are those of that search. Else they are 64 for
    /// the properties of each pattern and for those of all of them together, and what is accounted for its prefilter, its NFAs, its
    /// one-pass DFA and its full DFAs, and for the search for the literals by which it goes from candidate to candidate; or the greatest `usize` where they
    /// are more.
    #[tactic(auto, unfolding(crate::specs::Regex::regex_memory))]
    pub fn memory_usage(&self) -> usize
        ensures { result ≡ regex_memory self.now }
    {
        self.strategy().memory_usage()
    }

    /// The name of the strategy by which it searches: `core`, `reverse anchored`, `reverse suffix`, `reverse inner`, or
    /// `prefilter` and the kind of search for literals.
    /// It may change from version to version.
    #[tactic(auto, unfolding(crate::specs::Regex::name_of))]
    pub fn strategy_name(&self) -> &'static str
        ensures { result.now ≡ name_of self.now }
    {
        self.strategy().name()
    }

    /// Whether a search may leave out much of the haystack: by a prefilter that is expected to be fast, or since it reads from the end.
    #[tactic(auto, unfolding(crate::specs::Regex::is_accelerated))]
    pub fn is_accelerated(&self) -> bool
        ensures { result ≡ is_accelerated self.now }
    {
        self.strategy().is_accelerated()
    }

    /// The groups of each pattern. A group that the configuration leaves out has slots too, which stay empty.
    #[tactic(auto, unfolding(crate::specs::Regex::groups_in))]
    pub fn group_info(&self) -> &GroupInfo
        ensures { result.now ≡ groups_in self.now }
    {
        self.strategy().group_info()
    }

    /// The configuration that it was built under.
    pub fn get_config(&self) -> &Config
        ensures { result.now ≡ self.now.config }
    {
        &self.config
    }
}
