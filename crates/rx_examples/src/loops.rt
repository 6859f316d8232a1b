//! Matches one after another, and what lies between them.

use rx_meta::{CapturesMatches, FindMatches, Regex, Split};
use rx_search::{Captures, Input, Memory, Span};
use std::alloc::Global;
use std::process::Abort;
use std::sync::Wait;
use std::test::Fail;

#[test]
fn match_after_match(rt: HostRuntime) -> Result<(), Fail> {
    let alloc = rt.alloc();
    let regex = Regex::new(alloc, "[a-z]+")?;
    let mut spans = Vec::new(alloc);
    two_words(&rt, alloc, &regex, &mut spans)?;
    let words = [Span { start: 0, end: 3 }, Span { start: 4, end: 7 }];
    assert_eq!(rt; spans.as_slice(), words.as_slice());
    Ok(())
}

/// Adds where each of two words stands.
fn two_words<R: Wait>(
    rt: &R,
    alloc: Global,
    regex: &Regex,
    spans: &mut Vec<Span>,
) -> Result<(), Memory> {
    let mut matches = regex.find_iter(&rt, alloc, &Input::new(b"one two"))?;
    spans_of(&mut matches, spans)
}

/// Adds where each match stands.
fn spans_of(matches: &mut FindMatches<'_, '_>, spans: &mut Vec<Span>) -> Result<(), Memory> {
    while let Some(found) = matches.next() {
        spans.push(found?.span())?;
    }
    Ok(())
}

#[test]
fn matches_counted(rt: HostRuntime) -> Result<(), Fail> {
    let alloc = rt.alloc();
    let words = Regex::new(alloc, "[a-z]+")?;
    let matches = words.find_iter(&rt, alloc, &Input::new(b"one two"))?;
    let count = matches.count(&rt)?;
    assert_eq!(rt; count, 2);
    Ok(())
}

#[test]
fn groups_of_each_match(rt: HostRuntime) -> Result<(), Fail> {
    let alloc = rt.alloc();
    let setting = Regex::new(alloc, "(?<key>[a-z]+)=(?<value>[0-9]+)")?;
    let mut values = Vec::new(alloc);
    two_values(&rt, alloc, &setting, &mut values)?;
    let numbers = [
        Some(Span { start: 2, end: 3 }),
        Some(Span { start: 6, end: 8 }),
    ];
    assert_eq!(rt; values.as_slice(), numbers.as_slice());
    Ok(())
}

/// Adds where the values of two settings stand.
fn two_values<R: Wait>(
    rt: &R,
    alloc: Global,
    setting: &Regex,
    values: &mut Vec<Option<Span>>,
) -> Result<(), Memory> {
    let mut settings = setting.captures_iter(&rt, alloc, &Input::new(b"a=1 b=20"))?;
    values_of(&mut settings, values)
}

/// Adds where the value of each setting stands.
fn values_of(
    settings: &mut CapturesMatches<'_, '_>,
    values: &mut Vec<Option<Span>>,
) -> Result<(), Memory> {
    while let Some(captures) = settings.next() {
        values.push(value_of(captures)?)?;
    }
    Ok(())
}

/// Where the value of a setting stands.
fn value_of(captures: Result<Captures, Memory>) -> Result<Option<Span>, Memory> {
    Ok(captures?.get_group_by_name("value"))
}

#[test]
fn fields_between_commas(rt: HostRuntime) -> Result<(), Fail> {
    let alloc = rt.alloc();
    let comma = Regex::new(alloc, ",")?;
    let mut spans = Vec::new(alloc);
    two_fields(&rt, alloc, &comma, &mut spans)?;
    let both = [Span { start: 0, end: 1 }, Span { start: 2, end: 3 }];
    assert_eq!(rt; spans.as_slice(), both.as_slice());
    Ok(())
}

/// Adds where two fields between commas stand.
fn two_fields<R: Wait>(
    rt: &R,
    alloc: Global,
    comma: &Regex,
    spans: &mut Vec<Span>,
) -> Result<(), Memory> {
    let mut fields = comma.split(&rt, alloc, &Input::new(b"a,b"))?;
    fields_of(&mut fields, spans)
}

/// Adds where each field stands.
fn fields_of(fields: &mut Split<'_, '_>, spans: &mut Vec<Span>) -> Result<(), Memory> {
    while let Some(field) = fields.next() {
        spans.push(field?)?;
    }
    Ok(())
}
