//! Tests of the caches that the searches of a regex share.

use crate::iterators::{boxed, count_captures, count_matches};
use rx_meta::Regex;
use rx_search::Input;
use std::alloc::Global;
use std::process::Abort;
use std::sync::Wait;
use std::thread::{Threads, join};

/// The regex of the pattern.
fn regex_of(rt: &impl Abort, alloc: Global, pattern: &str) -> Box<Regex> {
    boxed(rt, alloc, Regex::new(alloc, pattern).ok())
}

/// Whether each of two texts is told right: there is no match in the first one.
fn is_right<R: Wait>(rt: &R, alloc: Global, regex: &Regex) -> bool {
    let one = regex.is_match(rt, alloc, &Input::new(b"7a"));
    let two = regex.is_match(rt, alloc, &Input::new(b"aab77"));
    one == Ok(false) && two == Ok(true)
}

/// The same of two threads at once.
fn both_right<R: Threads + Wait + Sync>(rt: &R, alloc: Global, regex: &Regex) -> (bool, bool) {
    join(
        rt,
        || is_right(rt, alloc, regex),
        || is_right(rt, alloc, regex),
    )
}

#[test]
fn two_threads_search_with_one_regex(rt: HostRuntime) {
    let alloc = rt.alloc();
    let regex = regex_of(&rt, alloc, "[a-z]+[0-9]");
    assert!(rt; both_right(&rt, alloc, &regex) == (true, true));
}

/// How many matches an iterator counts while another one of the regex stands after its first match.
fn count_meanwhile<R: Abort + Wait>(
    rt: &R,
    alloc: Global,
    regex: &Regex,
    input: &Input<'_>,
) -> Option<usize> {
    let mut first = regex.find_iter(rt, alloc, input).ok().expect(rt, "memory");
    let _found = first.next();
    let count = count_matches(rt, alloc, regex, input);
    first.finish(rt);
    count
}

/// How many captures one of a clone counts.
fn count_by_clone<R: Abort + Wait>(
    rt: &R,
    alloc: Global,
    regex: &Regex,
    input: &Input<'_>,
) -> Option<usize> {
    let clone = boxed(rt, alloc, regex.clone().ok());
    count_captures(rt, alloc, &clone, input)
}

#[test]
fn iterators_have_a_cache_each(rt: HostRuntime) {
    let alloc = rt.alloc();
    let regex = regex_of(&rt, alloc, "([a-z])([0-9])");
    let input = Input::new(b"a1 b2 c3");
    let meanwhile = count_meanwhile(&rt, alloc, &regex, &input);
    let clone = count_by_clone(&rt, alloc, &regex, &input);
    assert!(rt; (meanwhile, clone) == (Some(3), Some(3)));
}
