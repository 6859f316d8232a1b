//! The caches of lazy DFAs in which the states of a text do not fit at once: that they are cleared, and stay within their capacity. What
//! is wanted was counted by hand.
ghost use Rattle.std.specs.Prelude.{◌≡◌, false, IfOk};
ghost use Rattle.rx_dfa.specs.LazyCache.{IsCacheOf};

use rx_dfa::lazy::{BuildError, Lazy, LazyCache};
use rx_dfa::try_search_half_fwd;
use rx_search::{HalfMatch, Input, MatchError, MatchKind};
use rx_thompson::{Compiler, NFA};
use std::alloc::Global;
use std::process::Abort;

/// Its automaton knows which of the last eleven letters are `a`, so that it has some two thousand states.
const MANY_STATES: &str = "[ab]*a[ab]{10}";

/// A capacity at which no cache is cleared.
const ROOMY: usize = 1 << 24;

/// The NFA of many states.
fn nfa(rt: &impl Abort, alloc: Global) -> NFA
    ensures { result.reverse ≡ false }
{
    let nfa = Compiler::new().build(alloc, MANY_STATES);
    nfa.ok().expect(rt, "an NFA")
}

/// Its automaton of this capacity.
fn built(
    rt: &impl Abort,
    alloc: Global,
    byte_classes: bool,
    capacity: usize,
) -> Result<Lazy, BuildError>
    ensures { IfOk result (λ l. l.dfa.nfa.reverse ≡ false) }
{
    let nfa = nfa(rt, alloc);
    Lazy::build_from_nfa(alloc, nfa, MatchKind::LeftmostFirst, byte_classes, capacity)
}

/// The same, if there is one.
fn many(rt: &impl Abort, alloc: Global, byte_classes: bool, capacity: usize) -> Lazy
    ensures { result.dfa.nfa.reverse ≡ false }
{
    let lazy = built(rt, alloc, byte_classes, capacity);
    lazy.ok().expect(rt, "a lazy DFA")
}

/// The least capacity for it.
fn least(rt: &impl Abort, alloc: Global) -> usize {
    match built(rt, alloc, true, 0).err() {
        Some(BuildError::CacheTooSmall { minimum, .. }) => minimum,
        _ => 0,
    }
}

/// A cache for the automaton.
fn cache(rt: &impl Abort, alloc: Global, lazy: &Lazy) -> LazyCache
    ensures { IsCacheOf lazy.now result }
{
    LazyCache::new(alloc, lazy).ok().expect(rt, "a cache")
}

/// Letters `a` and `b`, which follow no rule that a search could tell.
#[derive(Drop)]
struct Letters {
    state: u64,
}

impl Letters {
    fn next(&mut self) -> u8 {
        let product = self.state.wrapping_mul(6364136223846793005);
        self.state = product.wrapping_add(1442695040888963407);
        if self.state >> 63 == 0 { b'a' } else { b'b' }
    }
}

/// A word of so many letters.
fn word(rt: &impl Abort, alloc: Global, random: &mut Letters, letters: usize) -> Vec<u8> {
    let mut word = Vec::new(alloc);
    for _ in 0..letters {
        word.push(random.next()).ok().expect(rt, "room");
    }
    word
}

/// So many words of so many letters, each of them so often.
fn text(rt: &impl Abort, alloc: Global, words: usize, letters: usize, times: usize) -> Vec<u8> {
    let mut random = Letters { state: 20261128 };
    let mut text = Vec::new(alloc);
    for _ in 0..words {
        let word = word(rt, alloc, &mut random, letters);
        for _ in 0..times {
            text.extend_from_slice(&word).ok().expect(rt, "room");
        }
    }
    text
}

/// The bytes that the cache accounts after a search of the text that came to its end.
fn after_search(lazy: &Lazy, cache: &mut LazyCache, text: &[u8]) -> Option<usize>
    requires fits { IsCacheOf lazy.now cache.old }
    requires forward { lazy.now.dfa.nfa.reverse ≡ false }
{
    match try_search_half_fwd(lazy, cache, &Input::new(text)) {
        Ok(_) => Some(cache.memory_usage()),
        Err(_) => None,
    }
}

/// The bytes that a cache accounts that holds all states which a search of the text comes to.
fn needed(rt: &impl Abort, alloc: Global, byte_classes: bool, text: &[u8]) -> usize {
    let lazy = many(rt, alloc, byte_classes, ROOMY);
    let mut cache = cache(rt, alloc, &lazy);
    let accounted = after_search(&lazy, &mut cache, text);
    // (by calls, not part by part)
    drop(cache);
    drop(lazy);
    accounted.expect(rt, "an end")
}

/// How many searches came to their end, and how many gave up.
#[derive(Clone, Copy, PartialEq, Eq)]
struct Seen {
    answers: usize,
    gave_up: usize,
}

/// What is seen with one search more, if it told the end that is wanted, or gave up.
fn seen_with(
    seen: Seen,
    found: Result<Option<HalfMatch>, MatchError>,
    want: Option<usize>,
) -> Option<Seen> {
    let Seen { answers, gave_up } = seen;
    let end = match found {
        Ok(Some(half)) => Some(half.offset()),
        Ok(None) => None,
        Err(MatchError::GaveUp { .. }) => {
            return Some(Seen {
                answers,
                gave_up: gave_up.saturating_add(1),
            });
        }
        Err(_) => return None,
    };
    if end != want {
        return None;
    }
    Some(Seen {
        answers: answers.saturating_add(1),
        gave_up,
    })
}

/// What is seen of so many searches with the cache, if each one that does not give up tells the end that is wanted, and the cache keeps
/// within the capacity.
fn turns(
    lazy: &Lazy,
    cache: &mut LazyCache,
    text: &[u8],
    times: usize,
    want: Option<usize>,
    capacity: usize,
) -> Option<Seen>
    requires fits { IsCacheOf lazy.now cache.old }
    requires forward { lazy.now.dfa.nfa.reverse ≡ false }
{
    let input = Input::new(text);
    let mut seen = Seen {
        answers: 0,
        gave_up: 0,
    };
    'turns: for _ in 0..times {
        let found = try_search_half_fwd(lazy, cache, &input);
        seen = seen_with(seen, found, want)?;
        if cache.memory_usage() > capacity {
            return None;
        }
    }
    Some(seen)
}

/// The end that a search of the text is to tell, which has the letters `a` and `b` alone: the match begins with the text, and ends ten
/// letters behind the last `a` that has as many behind it.
fn wanted(text: &[u8]) -> Option<usize> {
    for behind in 10..text.len() {
        if text[text.len() - 1 - behind] == b'a' {
            return Some(text.len() - behind + 10);
        }
    }
    None
}

/// Searches the text so often, with one cache of the least capacity, in which the states of the text do not fit at once. Where a
/// search does not give up, it tells what is wanted.
fn searched(rt: &impl Abort, alloc: Global, byte_classes: bool, text: &[u8], times: usize) -> Seen {
    let capacity = least(rt, alloc);
    assert!(rt; capacity < needed(rt, alloc, byte_classes, text));
    let want = wanted(text);
    let lazy = many(rt, alloc, byte_classes, capacity);
    let mut cache = cache(rt, alloc, &lazy);
    let seen = turns(&lazy, &mut cache, text, times, want, capacity);
    drop(cache);
    drop(lazy);
    seen.expect(rt, "the end, or giving up, within the capacity")
}

/// With a column for each byte there is room for some eight states. The first search clears the cache, and comes to its end.
#[test]
fn rows_of_512_cells(rt: HostRuntime) {
    let text = text(&rt, rt.alloc(), 1, 25, 1);
    let seen = searched(&rt, rt.alloc(), false, &text, 5);
    assert!(rt; seen.answers > 0 && seen.gave_up > 0);
}

/// Nearly each letter leads to a state that was not met before, so that searches give up.
#[test]
fn a_text_in_no_order(rt: HostRuntime) {
    let text = text(&rt, rt.alloc(), 1, 100000, 1);
    let seen = searched(&rt, rt.alloc(), true, &text, 5);
    assert!(rt; seen.gave_up > 0);
}

/// Each word has states of its own, which serve for long: the cache is cleared again and again, and no search gives up.
#[test]
fn words_that_come_again(rt: HostRuntime) {
    let text = text(&rt, rt.alloc(), 4, 150, 20);
    let seen = searched(&rt, rt.alloc(), true, &text, 3);
    let all = Seen {
        answers: 3,
        gave_up: 0,
    };
    assert!(rt; seen == all);
}
