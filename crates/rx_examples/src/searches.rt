//! Searches for one match.

use crate::answers::{place, whole};
use rx_meta::{BuildError, Regex};
use rx_search::{Anchored, Input, Match, MatchKind, Memory, PatternSet, Span};
use std::alloc::Global;
use std::process::Abort;
use std::sync::Wait;
use std::test::Fail;

#[test]
fn is_there_a_match_and_where(rt: HostRuntime) -> Result<(), Fail> {
    let alloc = rt.alloc();
    let regex = Regex::new(alloc, r"\d{4}-\d{2}-\d{2}")?;
    let input = Input::new(b"on 2024-02-29.");
    assert_eq!(rt; regex.is_match(&rt, alloc, &input)?, true);
    assert_eq!(rt; whole(regex.find(&rt, alloc, &input)?), Some((0, 3, 13)));
    Ok(())
}

/// The matches in two parts of a haystack.
fn in_parts<R: Wait>(
    rt: &R,
    alloc: Global,
    regex: &Regex,
) -> Result<(Option<Match>, Option<Match>), Memory> {
    // Bytes 1 to 3. The word boundary sees the whole haystack, and there is none before byte 1.
    let part = Input::new(b"abb bb").range(1..3);
    let none = regex.find(&rt, alloc, &part)?;
    let later = Input::new(b"abb bb").range(4..6).anchored(Anchored::Yes);
    let found = regex.find(&rt, alloc, &later)?;
    Ok((none, found))
}

#[test]
fn in_a_part_of_a_haystack(rt: HostRuntime) -> Result<(), Fail> {
    let alloc = rt.alloc();
    let regex = Regex::new(alloc, r"\bb+")?;
    let (none, found) = in_parts(&rt, alloc, &regex)?;
    assert_eq!(rt; (whole(none), whole(found)), (None, Some((0, 4, 6))));
    Ok(())
}

#[test]
fn several_patterns_at_once(rt: HostRuntime) -> Result<(), Fail> {
    let alloc = rt.alloc();
    let regex = Regex::new_many(alloc, &["[a-z]+", "[0-9]+", "a"])?;
    let found = regex.find(&rt, alloc, &Input::new(b"7a"))?;
    assert_eq!(rt; whole(found), Some((1, 0, 1)));
    // At one start the pattern of least number is told.
    let found = regex.find(&rt, alloc, &Input::new(b"a7"))?;
    assert_eq!(rt; whole(found), Some((0, 0, 1)));
    Ok(())
}

/// Where the value stands, by slots.
fn value_by_slots<R: Abort + Wait>(rt: &R, alloc: Global, regex: &Regex) -> Result<(), Fail> {
    let groups = regex.group_info();
    let mut slots = vec![in alloc; None; groups.slot_len()]?;
    let found = regex.search_slots(&rt, alloc, &Input::new(b"n=10"), &mut slots)?;
    let pattern = found.ok_or("no match")?;
    let group = groups.to_index(pattern, "value").ok_or("no such name")?;
    let (start, end) = groups.slots(pattern, group).ok_or("no such group")?;
    assert_eq!(rt; place(&slots, start), Some(2));
    assert_eq!(rt; place(&slots, end), Some(4));
    Ok(())
}

/// Where the value stands, by captures.
fn value_by_captures<R: Abort + Wait>(rt: &R, alloc: Global, regex: &Regex) -> Result<(), Memory> {
    let mut captures = regex.create_captures(alloc)?;
    regex.captures(&rt, alloc, &Input::new(b"n=10"), &mut captures)?;
    let value = captures.get_group_by_name("value");
    assert_eq!(rt; value, Some(Span { start: 2, end: 4 }));
    Ok(())
}

#[test]
fn groups_by_name(rt: HostRuntime) -> Result<(), Fail> {
    let alloc = rt.alloc();
    let regex = Regex::new(alloc, "(?P<key>[a-z]+)=(?P<value>[0-9]+)?")?;
    value_by_slots(&rt, alloc, &regex)?;
    value_by_captures(&rt, alloc, &regex)?;
    Ok(())
}

/// What two searches find.
fn by_one_cache(alloc: Global, regex: &Regex) -> Result<(Option<Match>, Option<Match>), Memory> {
    let mut cache = regex.create_cache(alloc)?;
    let first = regex.search_with(&mut cache, &Input::new(b"Error: 1"));
    let second = regex.search_with(&mut cache, &Input::new(b"an ERROR"));
    both(first, second)
}

/// Both answers, if both searches had the memory.
fn both(
    first: Result<Option<Match>, Memory>,
    second: Result<Option<Match>, Memory>,
) -> Result<(Option<Match>, Option<Match>), Memory> {
    Ok((first?, second?))
}

#[test]
fn one_cache_for_many_searches(rt: HostRuntime) -> Result<(), Fail> {
    let alloc = rt.alloc();
    let regex = Regex::new(alloc, "(?i)error")?;
    let (first, second) = by_one_cache(alloc, &regex)?;
    assert_eq!(rt;
        (whole(first), whole(second)),
        (Some((0, 0, 5)), Some((0, 3, 8)))
    );
    Ok(())
}

/// A regex that looks for all patterns that match.
fn of_all_matches(alloc: Global) -> Result<Regex, BuildError> {
    let mut builder = Regex::builder();
    builder.configure(Regex::config().match_kind(MatchKind::All));
    let regex = builder.build_many(alloc, &["a", "ab", "c"])?;
    Ok(regex)
}

/// How many of the patterns match.
fn how_many<R: Abort + Wait>(rt: &R, alloc: Global, regex: &Regex) -> Result<(), Memory> {
    let mut set = PatternSet::new(alloc, regex.pattern_len())?;
    regex.which_overlapping_matches(&rt, alloc, &Input::new(b"xab"), &mut set)?;
    assert_eq!(rt; set.len(), 2);
    Ok(())
}

#[test]
fn patterns_that_match(rt: HostRuntime) -> Result<(), Fail> {
    let regex = of_all_matches(rt.alloc())?;
    how_many(&rt, rt.alloc(), &regex)?;
    Ok(())
}
