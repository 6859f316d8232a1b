//! Configurations, and patterns that are refused.

use crate::answers::whole;
use rx_meta::{BuildError, Builder, Config, Prefilter, Regex};
use rx_search::{Input, MatchKind, Memory};
use rx_syntax::SyntaxErrorKind;
use std::alloc::Global;
use std::test::Fail;

/// A regex whose lines end at `;`, and that takes letters of either case.
fn lines_of_a(alloc: Global) -> Result<Regex, BuildError> {
    let mut builder = Builder::new();
    builder.syntax(
        rx_syntax::Config::new()
            .case_insensitive(true)
            .multi_line(true),
    );
    builder.configure(Regex::config().line_terminator(b';'));
    let regex = builder.build(alloc, "^a$")?;
    Ok(regex)
}

#[test]
fn a_configuration(rt: HostRuntime) -> Result<(), Fail> {
    let alloc = rt.alloc();
    let regex = lines_of_a(alloc)?;
    let found = regex.find(&rt, alloc, &Input::new(b"x;A;"))?;
    assert_eq!(rt; whole(found), Some((0, 2, 3)));
    Ok(())
}

/// A configuration into which a prefilter is handed.
fn handing_in(alloc: Global) -> Result<Config, Memory> {
    let needles = [Vec::from_slice(alloc, b"key=")?];
    let pre = Prefilter::new(alloc, MatchKind::LeftmostFirst, &needles)?;
    let config = Regex::config().prefilter(pre);
    Ok(config)
}

/// A regex of this configuration, each match of which begins with the needle.
fn keys(alloc: Global, config: Config) -> Result<Regex, BuildError> {
    let mut builder = Regex::builder();
    builder.configure(config);
    let regex = builder.build(alloc, r"key=\d+|key=on")?;
    Ok(regex)
}

#[test]
fn a_prefilter(rt: HostRuntime) -> Result<(), Fail> {
    let alloc = rt.alloc();
    let regex = keys(alloc, handing_in(alloc)?)?;
    let found = regex.find(&rt, alloc, &Input::new(b"a key=on"))?;
    assert_eq!(rt; whole(found), Some((0, 2, 8)));
    Ok(())
}

#[test]
fn a_refused_pattern(rt: HostRuntime) -> Result<(), Fail> {
    let alloc = rt.alloc();
    let error = Regex::new_many(alloc, &["a", r"b\q"]).err();
    let error = error.ok_or("no refusal")?;
    // Pattern 1, and the bytes of it that could not be read.
    let pattern = error.pattern().ok_or("no pattern")?;
    assert_eq!(rt; pattern.as_usize(), 1);
    let cause = error.syntax_error().ok_or("no cause")?;
    assert!(rt; cause.kind == SyntaxErrorKind::Escape);
    assert_eq!(rt; (cause.start, cause.end), (1, 2));
    Ok(())
}

/// The text of a refusal.
fn refusal(alloc: Global) -> Result<String, Fail> {
    let error = Regex::new_many(alloc, &["a", "(b"]).err();
    let error = error.ok_or("no refusal")?;
    let cause = error.syntax_error().ok_or("no cause")?;
    let text = format!(in alloc; "{error}: {} at {}", cause.kind, cause.start)?;
    Ok(text)
}

#[test]
fn a_refusal_says_which_pattern_and_why(rt: HostRuntime) -> Result<(), Fail> {
    let text = refusal(rt.alloc())?;
    assert_eq!(rt;
        text.as_str(),
        "error parsing pattern 1: unclosed group at 0"
    );
    Ok(())
}

#[test]
fn a_limit_of_size(rt: HostRuntime) -> Result<(), Fail> {
    let alloc = rt.alloc();
    let mut builder = Regex::builder();
    builder.configure(Regex::config().nfa_size_limit(Some(1000)));
    assert!(rt; builder.build(alloc, "[a-z]{3}").is_ok());
    let error = builder
        .build(alloc, "[a-z]{300}")
        .err()
        .ok_or("no refusal")?;
    assert_eq!(rt; error.size_limit(), Some(1000));
    Ok(())
}
