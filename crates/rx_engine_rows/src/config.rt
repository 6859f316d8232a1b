//! Tests of the configuration of a regex.

use rx_nfa::WhichCaptures;
use rx_prefilter::Prefilter;
use rx_search::{MatchKind, Memory};
use rx_strategy::Config;
use std::alloc::Global;
use std::process::Abort;

/// The options of a configuration.
#[derive(Clone, Copy, PartialEq, Eq)]
struct Facts {
    kind: MatchKind,
    captures: WhichCaptures,
    /// Whether an empty match keeps to characters, and a prefilter is made; whether there is a backtracker, a one-pass DFA, a lazy DFA
    /// and a full one; whether a DFA tells classes of bytes alone apart.
    choices: [bool; 7],
    /// The limits of an NFA, a one-pass DFA and a full DFA, and how many states that of a full one may have.
    limits: [Option<usize>; 4],
    /// The capacity of the caches of lazy DFAs, and how many stacks a pool has.
    numbers: [usize; 2],
}

fn choices(config: &Config) -> [bool; 7] {
    [
        config.get_utf8_empty(),
        config.get_auto_prefilter(),
        config.get_backtrack(),
        config.get_onepass(),
        config.get_hybrid(),
        config.get_dfa(),
        config.get_byte_classes(),
    ]
}

fn limits(config: &Config) -> [Option<usize>; 4] {
    [
        config.get_nfa_size_limit(),
        config.get_onepass_size_limit(),
        config.get_dfa_size_limit(),
        config.get_dfa_state_limit(),
    ]
}

fn told(config: &Config) -> Facts {
    Facts {
        kind: config.get_match_kind(),
        captures: config.get_which_captures(),
        choices: choices(config),
        limits: limits(config),
        numbers: [
            config.get_hybrid_cache_capacity(),
            config.get_pool_capacity(),
        ],
    }
}

/// The length of the longest needle of the prefilter that is handed in.
fn handed_in(config: &Config) -> Option<usize> {
    match config.get_prefilter() {
        Some(pre) => Some(pre.max_needle_len()),
        None => None,
    }
}

/// What is told where nothing is set.
const DEFAULT: Facts = Facts {
    kind: MatchKind::LeftmostFirst,
    captures: WhichCaptures::All,
    choices: [true; 7],
    limits: [Some(10485760), Some(1048576), Some(40960), Some(30)],
    numbers: [2097152, 8],
};

#[test]
fn each_option_has_a_default(rt: HostRuntime) {
    let config = Config::default();
    assert!(rt; (told(&config), handed_in(&config)) == (DEFAULT, None));
}

/// A configuration that says other than the default.
fn other() -> Config {
    Config::new()
        .match_kind(MatchKind::All)
        .utf8_empty(false)
        .which_captures(WhichCaptures::Implicit)
        .nfa_size_limit(Some(7))
        .auto_prefilter(false)
        .backtrack(false)
        .onepass_size_limit(None)
        .dfa_size_limit(Some(1))
        .dfa_state_limit(Some(2))
        .hybrid_cache_capacity(3)
        .pool_capacity(4)
        .onepass(false)
        .hybrid(false)
        .dfa(false)
        .byte_classes(false)
}

/// What is told of it.
const OTHER: Facts = Facts {
    kind: MatchKind::All,
    captures: WhichCaptures::Implicit,
    choices: [false; 7],
    limits: [Some(7), None, Some(1), Some(2)],
    numbers: [3, 4],
};

/// What the configuration of the compiler of the NFA says: whether it keeps to characters, which captures there are, and the limit.
fn compiles(config: &Config) -> (bool, WhichCaptures, Option<usize>) {
    let compiler = config.compiler();
    (
        compiler.get_utf8(),
        compiler.get_which_captures(),
        compiler.get_nfa_size_limit(),
    )
}

/// What is told of a copy.
fn told_of_copy(config: &Config) -> Option<Facts> {
    match config.clone() {
        Ok(copy) => Some(told(&copy)),
        Err(_) => None,
    }
}

#[test]
fn each_option_is_set(rt: HostRuntime) {
    let config = other();
    let compiler = (false, WhichCaptures::Implicit, Some(7));
    assert!(rt; (told_of_copy(&config), compiles(&config)) == (Some(OTHER), compiler));
}

/// A prefilter of a needle of three bytes.
fn prefilter(alloc: Global) -> Result<Option<Prefilter>, Memory> {
    let mut needles = Vec::new(alloc);
    needles.push(Vec::from_slice(alloc, b"abc")?)?;
    Prefilter::new(alloc, MatchKind::LeftmostFirst, &needles)
}

/// A configuration into which it is handed, with other numbers, and without a limit of the NFA.
fn handing_in(rt: &impl Abort, alloc: Global) -> Config {
    let pre = prefilter(alloc).ok().expect(rt, "memory");
    Config::new()
        .prefilter(pre)
        .nfa_size_limit(None)
        .dfa(true)
        .pool_capacity(5)
}

#[test]
fn what_is_set_overwrites(rt: HostRuntime) {
    let config = other().overwrite(handing_in(&rt, rt.alloc()));
    let wanted = Facts {
        choices: [false, false, false, false, false, true, false],
        limits: [None, None, Some(1), Some(2)],
        numbers: [3, 5],
        ..OTHER
    };
    assert!(rt; (told(&config), handed_in(&config)) == (wanted, Some(3)));
}

/// That none is handed in is set too, and what is not set stays.
#[test]
fn no_prefilter_overwrites(rt: HostRuntime) {
    let config = handing_in(&rt, rt.alloc()).overwrite(Config::new().nfa_size_limit(Some(1)));
    let before = handed_in(&config);
    let config = config.overwrite(Config::new().prefilter(None));
    let after = (handed_in(&config), config.get_nfa_size_limit());
    assert!(rt; (before, after) == (Some(3), (None, Some(1))));
}
