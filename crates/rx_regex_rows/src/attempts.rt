//! Searches from candidate to candidate: what an attempt tells, in how many steps, and that searches answer all the same.
ghost use Rattle.std.specs.Prelude.{◌≡◌, ◌<◌};
ghost use Rattle.rx_meta.specs.Cache.{Fits};

use crate::dfas::{
    FULL, LAZY, NOTHING, Row, Sort, found_with, input_from, span_of, told_with, with_alone,
};
use crate::regex::{cache_of, configured, made_over};
use crate::rows::all_right;
use rx_meta::{
    Cache, Config, Quadratic, Regex, RetryError, reverse_inner_attempt, reverse_suffix_attempt,
};
use rx_search::{Input, Match, Steps};
use std::alloc::Global;
use std::marker::Brand;
use std::process::Abort;
use std::sync::Wait;
use std::sync::ledger::{Blank, Ledger};

/// What an attempt comes to.
#[derive(Clone, Copy, PartialEq, Eq)]
enum Tried {
    /// The span of the match, or that there is none.
    Found(Option<(usize, usize)>),
    Below { at: usize, min_start: usize },
    /// The start that was found.
    AtStart(usize),
    Candidate { start: usize, stopped: usize },
    Failed,
}

/// What the answer of an attempt tells.
fn outcome_of(answer: Result<Option<Match>, RetryError>) -> Tried {
    match answer {
        Ok(found) => Tried::Found(span_of(found)),
        Err(RetryError::Quadratic(met)) => refused_at(met),
        Err(_) => Tried::Failed,
    }
}

/// What was met where an attempt gave up.
fn refused_at(met: Quadratic) -> Tried {
    match met {
        Quadratic::Below { at, min_start } => Tried::Below { at, min_start },
        Quadratic::AtStart { found } => Tried::AtStart(found.offset()),
        Quadratic::Candidate { start, stopped } => Tried::Candidate { start, stopped },
    }
}

/// What an attempt in the text comes to, by the strategy that the regex has, and the number of its steps. Another strategy makes none.
fn attempt<L: Ledger>(
    blank: Blank,
    regex: &Regex,
    cache: &mut Cache,
    text: &[u8],
) -> Option<(Tried, u64)>
    requires name { blank.name ≡ L.name }
    requires parts { blank.parts ≡ L.parts }
    requires some { 0 < blank.parts }
    requires fits { Fits regex.now cache.old }
{
    let mut steps = Steps::<L>::open(blank);
    let input = Input::new(text);
    if regex.strategy_name() == "reverse suffix" {
        let answer = reverse_suffix_attempt(regex, cache, &input, &mut steps);
        return Some((outcome_of(answer), steps.taken()));
    }
    if regex.strategy_name() == "reverse inner" {
        let answer = reverse_inner_attempt(regex, cache, &input, &mut steps);
        return Some((outcome_of(answer), steps.taken()));
    }
    None
}

/// The same with a new cache.
fn attempted(rt: &impl Abort, alloc: Global, regex: &Regex, text: &[u8]) -> (Tried, u64) {
    let mut cache = cache_of(rt, alloc, regex);
    let made = attempt::<Brand>(Blank::new(1), regex, &mut cache, text);
    made.expect(rt, "a strategy that makes attempts")
}

/// A pattern, a text, what an attempt comes to, and the span that a search tells.
type Attempt = (&'static str, &'static str, Tried, Option<(usize, usize)>);

const ATTEMPTS: [Attempt; 11] = [
    // Before the second candidate the byte at 6 would be read again.
    (
        r"\w+\s+Holmes",
        " Holmes Holmes",
        Tried::Below {
            at: 6,
            min_start: 7,
        },
        Some((1, 14)),
    ),
    // For all that is known at the start of the span, a match may start before it.
    ("(?:[a-b]d)+c", "dadc", Tried::AtStart(1), Some((1, 4))),
    // The first search forwards came to the end, behind the second candidate.
    (
        "[a-z]+@[a-z@]+[0-9]",
        "a@b@c",
        Tried::Candidate {
            start: 3,
            stopped: 5,
        },
        None,
    ),
    (
        r"\w+\s+Holmes",
        "Mr  Holmes Holmes",
        Tried::Found(Some((0, 10))),
        Some((0, 10)),
    ),
    (r"\w+\s+Holmes", "Mr  Watson", Tried::Found(None), None),
    // The byte before the start shows that a match was met there, and the one before that that none is to come.
    (
        r"\s[A-Za-z]{0,12}ing\s",
        "x king sing ",
        Tried::AtStart(1),
        Some((1, 7)),
    ),
    (
        r"\s[A-Za-z]{0,12}ing\s",
        "xx king sing ",
        Tried::Found(Some((2, 8))),
        Some((2, 8)),
    ),
    ("(a|aa)b", "xxaab", Tried::Found(Some((2, 5))), Some((2, 5))),
    ("(a|aa)b", "xxbb", Tried::Found(None), None),
    // A DFA quits at a byte that is not ASCII, since the pattern looks at words.
    (
        r"\b[a-zé]+[ \t]+Holmes",
        "éa Holmes",
        Tried::Failed,
        Some((0, 10)),
    ),
    (r"\b[a-zé]+@[a-z]+", "éa@b", Tried::Failed, Some((0, 5))),
];

/// At most eight steps for each byte of the longest text, which has 17, and eight more.
const MOST: u64 = 144;

/// Whether the attempt tells what is wanted in few steps, and a search does.
fn is_tried(rt: &impl Abort, alloc: Global, row: Attempt) -> bool {
    let (pattern, text, wanted, span) = row;
    let regex = configured(rt, alloc, Config::new(), pattern);
    let (told, steps) = attempted(rt, alloc, &regex, text.as_bytes());
    let mut cache = cache_of(rt, alloc, &regex);
    told == wanted
        && steps <= MOST
        && found_with(rt, &regex, &mut cache, &Input::new(text.as_bytes())) == span
}

/// The number of the first of these attempts that tells something else.
fn first_wrong_attempt(rt: &impl Abort, alloc: Global, rows: &[Attempt]) -> Option<usize> {
    for k in 0..rows.len() {
        if !is_tried(rt, alloc, rows[k]) {
            return Some(k);
        }
    }
    None
}

#[test]
fn attempts_tell_what_they_meet(rt: HostRuntime) {
    all_right(&rt, first_wrong_attempt(&rt, rt.alloc(), &ATTEMPTS));
}

/// The text so many times.
fn times(rt: &impl Abort, alloc: Global, text: &[u8], count: usize) -> Vec<u8> {
    let mut all = Vec::new(alloc);
    for _ in 0..count {
        all.extend_from_slice(text).ok().expect(rt, "room");
    }
    all
}

/// How many steps an attempt takes in the text, so many times.
fn steps_of(rt: &impl Abort, alloc: Global, pattern: &str, text: &[u8], count: usize) -> u64 {
    let regex = configured(rt, alloc, Config::new(), pattern);
    let all = times(rt, alloc, text, count);
    let (_, steps) = attempted(rt, alloc, &regex, &all);
    steps
}

/// At most eight for each byte, and eight more.
#[test]
fn attempts_take_few_steps(rt: HostRuntime) {
    let alloc = rt.alloc();
    let one = steps_of(&rt, alloc, "[a-q][^u-z]{13}x", b"x", 1000);
    let two = steps_of(&rt, alloc, r"\w+\s+Holmes", b" Holmes", 100);
    let three = steps_of(&rt, alloc, "[a-z]+@[a-z@]+[0-9]", b"a@", 500);
    assert!(rt; one <= 8008 && two <= 5608 && three <= 8008);
}

/// A match is found where an attempt gives up.
#[test]
fn a_search_goes_on_where_an_attempt_gives_up(rt: HostRuntime) {
    let alloc = rt.alloc();
    let regex = configured(&rt, alloc, Config::new(), r"\w+\s+Holmes");
    let mut cache = cache_of(&rt, alloc, &regex);
    let text = times(&rt, alloc, b" Holmes", 100);
    let found = found_with(&rt, &regex, &mut cache, &Input::new(&text));
    assert!(rt; found == Some((1, 14)));
}

const ROWS: [Row; 9] = [
    (
        "([A-Za-z]+)[ \t]+Holmes",
        "Mr  Holmes Holmes",
        0,
        false,
        (Some((0, 10)), Some(10), true, (Some(0), Some(2))),
    ),
    (
        "([A-Za-z]+)[ \t]+Holmes",
        " Holmes Holmes",
        0,
        false,
        (Some((1, 14)), Some(14), true, (Some(1), Some(7))),
    ),
    (
        "([A-Za-z]+)[ \t]+Holmes",
        "Mr  Holmes Holmes",
        4,
        true,
        (Some((4, 17)), Some(17), true, (Some(4), Some(10))),
    ),
    (
        "([A-Za-z]+)[ \t]+Holmes",
        "Mr  Holmes Holmes",
        11,
        false,
        NOTHING,
    ),
    (
        "((?:[a-b]d)+)c",
        "dadc",
        0,
        false,
        (Some((1, 4)), Some(4), true, (Some(1), Some(3))),
    ),
    ("([a-z]+)@[a-z@]+[0-9]", "a@b@c", 0, false, NOTHING),
    (
        "([a-z]+)@[a-z@]+[0-9]",
        "a@b@c1",
        0,
        false,
        (Some((0, 6)), Some(6), true, (Some(0), Some(1))),
    ),
    (
        "(a|aa)b",
        "xaab",
        0,
        false,
        (Some((1, 4)), Some(4), true, (Some(1), Some(3))),
    ),
    (
        "(a|aa)b",
        "xaab",
        1,
        true,
        (Some((1, 4)), Some(4), true, (Some(1), Some(3))),
    ),
];

/// Whether a regex that searches by candidates, with DFAs of this sort, tells what is wanted.
fn is_told<R: Abort + Wait>(rt: &R, alloc: Global, sort: Sort, row: Row) -> bool {
    let (pattern, text, start, anchored, wanted) = row;
    let regex = configured(rt, alloc, with_alone(Config::new(), sort), pattern);
    let mut cache = cache_of(rt, alloc, &regex);
    let input = input_from(rt, text.as_bytes(), start, anchored);
    let told = told_with(rt, alloc, &regex, &mut cache, &input);
    regex.strategy_name() != "core" && told == wanted
}

/// The number of the first of these rows that is told otherwise, with full DFAs or with lazy ones.
fn first_wrong<R: Abort + Wait>(rt: &R, alloc: Global, rows: &[Row]) -> Option<usize> {
    for k in 0..rows.len() {
        let are_told = (
            is_told(rt, alloc, FULL, rows[k]),
            is_told(rt, alloc, LAZY, rows[k]),
        );
        if are_told != (true, true) {
            return Some(k);
        }
    }
    None
}

#[test]
fn rows_by_candidates(rt: HostRuntime) {
    all_right(&rt, first_wrong(&rt, rt.alloc(), &ROWS));
}

/// A pattern, and the span of its match in `a foo b@c`.
type Strategy = (&'static str, (usize, usize));

/// Each has a strategy of its own.
const STRATEGIES: [Strategy; 5] = [
    ("foo", (2, 5)),
    ("[a-z]+", (0, 1)),
    ("[a-z]+$", (8, 9)),
    (r"\w+\s+foo", (0, 5)),
    (r"\w+@\w+", (6, 9)),
];

/// Whether a cache of the regex that is reset for the pattern finds its match.
fn is_found_over(rt: &impl Abort, alloc: Global, first: &Regex, row: Strategy) -> bool {
    let (pattern, wanted) = row;
    let second = configured(rt, alloc, Config::new(), pattern);
    let mut cache = made_over(rt, alloc, first, &second);
    found_with(rt, &second, &mut cache, &Input::new(b"a foo b@c")) == Some(wanted)
}

/// Whether that is so of the pattern with each of these.
fn is_found_over_each(rt: &impl Abort, alloc: Global, pattern: &str, rows: &[Strategy]) -> bool {
    let first = configured(rt, alloc, Config::new(), pattern);
    for k in 0..rows.len() {
        if !is_found_over(rt, alloc, &first, rows[k]) {
            return false;
        }
    }
    true
}

/// The number of the first of these patterns of which that is not so.
fn first_wrong_over(rt: &impl Abort, alloc: Global, rows: &[Strategy]) -> Option<usize> {
    for k in 0..rows.len() {
        let (pattern, _) = rows[k];
        if !is_found_over_each(rt, alloc, pattern, rows) {
            return Some(k);
        }
    }
    None
}

#[test]
fn a_cache_is_reset_from_one_strategy_to_another(rt: HostRuntime) {
    all_right(&rt, first_wrong_over(&rt, rt.alloc(), &STRATEGIES));
}
