//! Tests of strategies. A strategy and its caches have many parts, so they stand in boxes: else each function that lets one go would let
//! go of each part.
ghost use Rattle.rx_strategy.specs.Cache.{Fits};

use rx_search::Input;
use rx_strategy::{Cache, Config, Strategy};
use rx_syntax::parse_many;
use std::alloc::Global;
use std::process::Abort;

/// The strategy of the pattern under the configuration.
fn strategy_of(rt: &impl Abort, alloc: Global, config: &Config, pattern: &str) -> Box<Strategy> {
    let exprs = parse_many(alloc, &[pattern]).ok().expect(rt, "a pattern");
    let strategy = Strategy::new(alloc, config, &exprs).ok();
    let boxed = Box::new(alloc, strategy.expect(rt, "a strategy")).ok();
    boxed.expect(rt, "memory")
}

/// A cache of the strategy.
fn cache_of(rt: &impl Abort, alloc: Global, strategy: &Strategy) -> Box<Cache>
    ensures { Fits strategy.now result.value }
{
    let cache = Cache::new(alloc, strategy).ok().expect(rt, "a cache");
    Box::new(alloc, cache).ok().expect(rt, "memory")
}

/// The bytes that are accounted for the cache once it was asked whether there is a match in the haystack.
fn after_is_match(strategy: &Strategy, cache: &mut Cache, haystack: &[u8]) -> usize
    requires { Fits strategy.now cache.old }
{
    let _there = strategy.is_match(cache, &Input::new(haystack));
    cache.memory_usage()
}

/// The bytes that are accounted for a new cache of the strategy, and those that are once it was asked.
fn before_and_after(
    rt: &impl Abort,
    alloc: Global,
    strategy: &Strategy,
    haystack: &[u8],
) -> (usize, usize) {
    let mut cache = cache_of(rt, alloc, strategy);
    let before = cache.memory_usage();
    (before, after_is_match(strategy, &mut cache, haystack))
}

#[test]
fn a_lazy_dfa_tells_whether_there_is_a_match(rt: HostRuntime) {
    let alloc = rt.alloc();
    let config = Config::new().dfa(false).auto_prefilter(false);
    let strategy = strategy_of(&rt, alloc, &config, "abc|a");
    let (new, short) = before_and_after(&rt, alloc, &strategy, b"ab");
    let (_, long) = before_and_after(&rt, alloc, &strategy, b"abc");
    // the match of `a` is known one byte behind it, and no more is read
    assert!(rt; new < short && long == short);
}

/// The bytes that are accounted for the cache's clone.
fn memory_of_clone(rt: &impl Abort, alloc: Global, cache: &Cache) -> usize {
    let clone = cache.clone(alloc).ok().expect(rt, "a cache");
    let boxed = Box::new(alloc, clone).ok().expect(rt, "memory");
    boxed.memory_usage()
}

/// The bytes that are accounted for a cache of the strategy, and for its clone.
fn memory_of_both(rt: &impl Abort, alloc: Global, strategy: &Strategy) -> (usize, usize) {
    let cache = cache_of(rt, alloc, strategy);
    let memory = cache.memory_usage();
    (memory, memory_of_clone(rt, alloc, &cache))
}

#[test]
fn a_cache_is_cloned(rt: HostRuntime) {
    let alloc = rt.alloc();
    let strategy = strategy_of(&rt, alloc, &Config::new(), "a|ab");
    let (memory, again) = memory_of_both(&rt, alloc, &strategy);
    assert_eq!(rt; again, memory);
}

/// The number of its patterns and of its slots, and whether it is known that there is no match in either haystack.
fn told_of(strategy: &Strategy, first: &[u8], second: &[u8]) -> (usize, usize, bool, bool) {
    (
        strategy.pattern_len(),
        strategy.group_info().slot_len(),
        strategy.is_impossible(&Input::new(first)),
        strategy.is_impossible(&Input::new(second)),
    )
}

#[test]
fn a_strategy_tells_of_its_patterns(rt: HostRuntime) {
    let strategy = strategy_of(&rt, rt.alloc(), &Config::new(), "a");
    assert!(rt; told_of(&strategy, b"", b"b") == (1, 2, true, false));
}
