//! Which patterns are one-pass, worked out by hand from the definition; the texts of refusals, and sizes.

use crate::rows::all_right;
use rx_onepass::{BuildError, Builder, Cache, Config, DFA, NotOnePass};
use std::alloc::Global;
use std::process::Abort;

/// The text of the refusals of what is not one-pass, up to what is ambiguous.
const NOT_ONE_PASS: &str = "one-pass DFA could not be built because pattern is not one-pass: ";

/// A group more than a transition can tell.
const SEVENTEEN_GROUPS: &str = "(a)(a)(a)(a)(a)(a)(a)(a)(a)(a)(a)(a)(a)(a)(a)(a)(a)";

/// Two patterns, the second one empty where there is one alone.
type Row = (&'static str, &'static str);

/// They are one-pass: chains,
const CHAINS: [Row; 11] = [
    ("", ""),
    ("a", ""),
    ("\\w", ""),
    ("(a)(b)(c)(d)", ""),
    ("\\bfoo\\b", ""),
    ("^", ""),
    ("^$", ""),
    ("(?m)^a$", ""),
    ("(?i)k", ""),
    ("[^a]", ""),
    ("(a)(a)(a)(a)(a)(a)(a)(a)(a)(a)(a)(a)(a)(a)(a)(a)", ""),
];

/// patterns in which something is repeated,
const REPETITIONS: [Row; 10] = [
    ("a*b", ""),
    ("a(b)?c", ""),
    ("([a-z]+)=([0-9]+)", ""),
    ("x{1,3}y", ""),
    ("a?b?", ""),
    ("[ab]*c", ""),
    ("a+", ""),
    ("a+?b", ""),
    (".*", ""),
    ("x*yx*", ""),
];

/// and alternatives.
const CHOICES: [Row; 7] = [
    ("a|b|c", ""),
    ("(a)|b", ""),
    ("(?:a|)b", ""),
    ("(?:|a)b", ""),
    ("a$|b", ""),
    ("a", "b"),
    ("a(b)", "c(d)?"),
];

/// They are not: a byte leads to two states,
const CONFLICTING: [Row; 10] = [
    ("a*a", ""),
    ("a*[ab]", ""),
    ("\\w*\\s", ""),
    ("abc|abd", ""),
    ("a?a", ""),
    ("a*?a", ""),
    (".*a", ""),
    ("(a|ab)c", ""),
    ("(?:a|b|)a", ""),
    ("a", "a"),
];

/// a state is come to by two ways that read nothing,
const TO_SAME_STATE: [Row; 4] = [
    ("(^|$)a", ""),
    ("(a+)+", ""),
    ("(a*)*", ""),
    ("(?:a*)+", ""),
];

/// and a match is.
const TO_MATCH_STATE: [Row; 2] = [("^", "$"), ("a*", "b*")];

/// The one-pass DFA of the first pattern, or of both.
fn dfa_of(alloc: Global, first: &str, second: &str) -> Result<DFA, BuildError> {
    if second.len() == 0 {
        return DFA::new(alloc, first);
    }
    DFA::new_many(alloc, &[first, second])
}

/// Whether the refusal's text is this one, before which this stands.
fn is_text(alloc: Global, error: &BuildError, before: &str, want: &str) -> bool {
    match format!(in alloc; "{error}") {
        Ok(text) => text.as_str().strip_prefix(before) == Some(want),
        Err(_) => false,
    }
}

/// Whether a build is refused with this text, before which that stands, or not refused where there is none.
fn tells(alloc: Global, built: &Result<DFA, BuildError>, before: &str, want: &str) -> bool {
    match built {
        Ok(_) => want.len() == 0,
        Err(error) => is_text(alloc, error, before, want),
    }
}

/// Whether this is told to be ambiguous of the patterns of the row, or nothing.
fn is_answered(alloc: Global, want: &str, row: Row) -> bool {
    let (first, second) = row;
    let built = dfa_of(alloc, first, second);
    let is_answered = tells(alloc, &built, NOT_ONE_PASS, want);
    // (by a call, not part by part)
    drop(built);
    is_answered
}

/// The first of these rows that is answered otherwise.
fn first_wrong(alloc: Global, want: &str, rows: &[Row]) -> Option<usize> {
    for k in 0..rows.len() {
        if !is_answered(alloc, want, rows[k]) {
            return Some(k);
        }
    }
    None
}

#[test]
fn chains_are_one_pass(rt: HostRuntime) {
    all_right(&rt, first_wrong(rt.alloc(), "", &CHAINS));
}

#[test]
fn repetitions_are_one_pass(rt: HostRuntime) {
    all_right(&rt, first_wrong(rt.alloc(), "", &REPETITIONS));
}

#[test]
fn choices_are_one_pass(rt: HostRuntime) {
    all_right(&rt, first_wrong(rt.alloc(), "", &CHOICES));
}

#[test]
fn a_byte_leads_to_two_states(rt: HostRuntime) {
    let wrong = first_wrong(rt.alloc(), "conflicting transition", &CONFLICTING);
    all_right(&rt, wrong);
}

#[test]
fn two_ways_lead_to_one_state(rt: HostRuntime) {
    let want = "multiple epsilon transitions to same state";
    all_right(&rt, first_wrong(rt.alloc(), want, &TO_SAME_STATE));
}

#[test]
fn two_ways_lead_to_a_match(rt: HostRuntime) {
    let want = "multiple epsilon transitions to match state";
    all_right(&rt, first_wrong(rt.alloc(), want, &TO_MATCH_STATE));
}

#[test]
fn seventeen_groups_are_too_many(rt: HostRuntime) {
    let want = "too many explicit capturing groups (max is 16)";
    assert!(rt; is_answered(rt.alloc(), want, (SEVENTEEN_GROUPS, "")));
}

/// Whether there is no one-pass DFA of the pattern, for this cause.
fn is_refused_for(alloc: Global, pattern: &str, want: NotOnePass) -> bool {
    DFA::new(alloc, pattern).err() == Some(BuildError::NotOnePass(want))
}

#[test]
fn slots_that_are_too_many_are_counted(rt: HostRuntime) {
    assert!(rt;
        is_refused_for(
            rt.alloc(),
            SEVENTEEN_GROUPS,
            NotOnePass::Slots { given: 34 }
        )
    );
}

/// Whether the build of the pattern under the limit is refused with this text.
fn is_refused(alloc: Global, limit: Option<usize>, pattern: &str, want: &str) -> bool {
    let mut builder = Builder::new();
    builder.configure(Config::new().size_limit(limit));
    let built = builder.build(alloc, pattern);
    let is_refused = tells(alloc, &built, "", want);
    drop(built);
    is_refused
}

/// A pattern, and the text of its refusal.
type Refusal = (&'static str, &'static str);

const TEXTS: [Refusal; 4] = [
    ("a(", "error building NFA"),
    (
        "\\b{start}a",
        "one-pass DFA does not support the WordStartUnicode assertion",
    ),
    (
        "(?-u:\\b{end-half})",
        "one-pass DFA does not support the WordEndHalfAscii assertion",
    ),
    (
        "a*a",
        "one-pass DFA could not be built because pattern is not one-pass: conflicting transition",
    ),
];

/// The first of these refusals whose text is another one.
fn first_other_text(alloc: Global, refusals: &[Refusal]) -> Option<usize> {
    for k in 0..refusals.len() {
        let (pattern, want) = refusals[k];
        if !is_refused(alloc, None, pattern, want) {
            return Some(k);
        }
    }
    None
}

#[test]
fn texts_of_refusals(rt: HostRuntime) {
    all_right(&rt, first_other_text(rt.alloc(), &TEXTS));
}

#[test]
fn texts_that_no_small_pattern_brings(rt: HostRuntime) {
    let alloc = rt.alloc();
    let patterns = BuildError::TooManyPatterns { limit: 4194303 };
    let want = "one-pass DFA exceeded a limit of 4194303 for number of patterns";
    let patterns = is_text(alloc, &patterns, "", want);
    let states = BuildError::TooManyStates { limit: 2097152 };
    let want = "one-pass DFA exceeded a limit of 2097152 for number of states";
    let states = is_text(alloc, &states, "", want);
    assert!(rt; patterns && states && is_text(alloc, &BuildError::Memory, "", "out of memory"));
}

#[test]
fn a_size_limit_is_kept(rt: HostRuntime) {
    let alloc = rt.alloc();
    let want = "one-pass DFA exceeded size limit of 99 during building";
    assert!(rt; is_refused(alloc, Some(99), "a", want) && !is_refused(alloc, Some(100), "a", want));
}

/// Rows, classes of bytes, the exponent of a row's cells and their number, and the bytes of the table and of a cache.
fn sizes_of(dfa: &DFA, cache: &Cache) -> (usize, usize, usize, usize, usize, usize) {
    (
        dfa.state_len(),
        dfa.alphabet_len(),
        dfa.stride2(),
        dfa.stride(),
        dfa.memory_usage(),
        cache.memory_usage(),
    )
}

/// The sizes of the DFA of the pattern.
fn sizes(
    rt: &impl Abort,
    alloc: Global,
    pattern: &str,
) -> (usize, usize, usize, usize, usize, usize) {
    let dfa = DFA::new(alloc, pattern)
        .ok()
        .expect(rt, "a one-pass pattern");
    let cache = dfa.create_cache(alloc).ok().expect(rt, "a cache");
    let sizes = sizes_of(&dfa, &cache);
    drop(dfa);
    sizes
}

#[test]
fn sizes_by_hand(rt: HostRuntime) {
    // the dead state, the start and the match; below a, a and above it: three cells and that of a match
    assert!(rt; sizes(&rt, rt.alloc(), "a") == (3, 3, 2, 4, 100, 0));
    // two states more; two groups have four slots
    assert!(rt; sizes(&rt, rt.alloc(), "(a)(b)c") == (5, 5, 3, 8, 324, 32));
}
