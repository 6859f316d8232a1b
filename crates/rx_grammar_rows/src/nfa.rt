//! NFAs of patterns, of expressions, and those that are fixed.

use crate::rows::all_right;
use rx_hir::Hir;
use rx_search::{Look, LookMatcher, LookSet, PatternID};
use rx_syntax::{SyntaxError, SyntaxErrorKind};
use rx_thompson::*;
use std::alloc::Global;

/// Patterns; how many slots and states their NFA has, and the bytes that are accounted for it.
type Row = (&'static [&'static str], usize, usize, usize);

const ROWS: [Row; 6] = [
    // 4 states are accounted, 1 and 3 of `a`, at 32 each.
    (&["a"], 2, 4, 256),
    // Five states of `ab`, three of the empty pattern, and the choice between them.
    (&["ab", ""], 4, 9, 416),
    (&["a", "b(c)", ""], 8, 15, 608),
    // A state for each number of continuation bytes, one for each first byte that some may not follow (E0, ED, F0, F4),
    // and the start make eight; with the group's two and the match they are eleven.
    (&["."], 2, 11, 2368),
    (&["[^a]"], 2, 11, 2368),
    (&[r"[^\]]"], 2, 11, 2368),
];

/// The slots and states of an NFA of so many patterns, and the bytes that are accounted for it.
fn sizes(built: Result<NFA, BuildError>, patterns: usize) -> Option<(usize, usize, usize)> {
    match built {
        Ok(nfa) if nfa.pattern_len() == patterns => {
            Some((nfa.slot_len(), nfa.states_len(), nfa.memory_usage()))
        }
        _ => None,
    }
}

/// The number of the first of these rows whose NFA is otherwise, counted from 0.
fn first_wrong(alloc: Global, rows: &[Row]) -> Option<usize> {
    for k in 0..rows.len() {
        let (patterns, slots, states, bytes) = rows[k];
        let built = Compiler::new().build_many(alloc, patterns);
        if sizes(built, patterns.len()) != Some((slots, states, bytes)) {
            return Some(k);
        }
    }
    None
}

#[test]
fn sizes_of_patterns(rt: HostRuntime) {
    all_right(&rt, first_wrong(rt.alloc(), &ROWS));
}

#[test]
fn sizes_of_one_pattern(rt: HostRuntime) {
    let one = Compiler::new().build(rt.alloc(), "a");
    assert!(rt; sizes(one, 1) == Some((2, 4, 256)));
}

/// The sizes of the NFA of one expression, and of that of both.
fn sizes_of(alloc: Global, both: &[Hir; 2]) -> [Option<(usize, usize, usize)>; 2] {
    let compiler = Compiler::new();
    [
        sizes(compiler.build_from_hir(alloc, &both[0]), 1),
        sizes(compiler.build_many_from_hir(alloc, both), 2),
    ]
}

#[test]
fn sizes_of_expressions(rt: HostRuntime) {
    let sizes = sizes_of(rt.alloc(), &[Hir::empty(), Hir::empty()]);
    assert!(rt; sizes == [Some((2, 3, 256)), Some((4, 7, 384))]);
}

/// A compiler with this configuration.
fn configured(config: Config) -> Compiler {
    let mut compiler = Compiler::new();
    compiler.configure(config);
    compiler
}

/// What refuses the patterns under this limit.
fn refusal(alloc: Global, limit: Option<usize>, patterns: &[&str]) -> Option<BuildError> {
    let compiler = configured(Config::new().nfa_size_limit(limit));
    compiler.build_many(alloc, patterns).err()
}

/// That the pattern of this number names no property in its first eight bytes.
fn no_property(number: usize) -> Option<BuildError> {
    let pid = PatternID::new(number)?;
    let err = SyntaxError {
        kind: SyntaxErrorKind::Property,
        start: 0,
        end: 8,
    };
    Some(BuildError::Syntax { pid, err })
}

#[test]
fn refuses_patterns(rt: HostRuntime) {
    let alloc = rt.alloc();
    let wanted = BuildError::ExceededSizeLimit {
        limit: 415,
        size: 416,
    };
    assert!(rt; refusal(alloc, Some(416), &["ab", ""]) == None);
    assert!(rt; refusal(alloc, Some(415), &["ab", ""]) == Some(wanted));
    assert!(rt; refusal(alloc, None, &["a", r"\p{Nope}", "a("]) == no_property(1));
}

#[test]
fn refuses_a_count_of_too_many_patterns(rt: HostRuntime) {
    let built = Compiler::new().build_counted(rt.alloc(), PATTERN_LIMIT + 1, &[]);
    let refusal = BuildError::TooManyPatterns {
        given: 2147483648,
        limit: 2147483647,
    };
    assert!(rt; built.err() == Some(refusal));
}

/// Whether no match splits a character, the limit, which captures there are, and the line terminator.
fn options(config: &Config) -> (bool, Option<usize>, WhichCaptures, u8) {
    (
        config.get_utf8(),
        config.get_nfa_size_limit(),
        config.get_which_captures(),
        config.get_look_matcher().get_line_terminator(),
    )
}

#[test]
fn tells_what_was_set(rt: HostRuntime) {
    let config = Config::new();
    assert!(rt; options(&config) == (true, None, WhichCaptures::All, b'\n'));
    let mut matcher = LookMatcher::new();
    matcher.set_line_terminator(b'\0');
    let config = config
        .utf8(false)
        .nfa_size_limit(Some(7))
        .which_captures(WhichCaptures::Implicit)
        .look_matcher(matcher);
    assert!(rt; options(&config) == (false, Some(7), WhichCaptures::Implicit, b'\0'));
}

/// A compiler of patterns without regard to case, in which bytes that are no UTF-8 may stand, and without captures.
fn of_bytes() -> Compiler {
    let mut compiler = configured(Config::new().utf8(false));
    compiler.configure(Config::new().which_captures(WhichCaptures::None));
    compiler.syntax(rx_syntax::Config::new().case_insensitive(true).utf8(false));
    compiler
}

/// Whether no match splits a character; the slots, and the states.
fn told(built: Result<NFA, BuildError>) -> Option<(bool, usize, usize)> {
    match built {
        Ok(nfa) => Some((nfa.is_utf8(), nfa.slot_len(), nfa.states_len())),
        Err(_) => None,
    }
}

#[test]
fn takes_a_grammar_and_configurations(rt: HostRuntime) {
    let alloc = rt.alloc();
    // The class of both letters is one state, as that of the bytes is.
    assert!(rt; told(of_bytes().build(alloc, "a")) == Some((false, 2, 4)));
    let built = of_bytes().build(alloc, r"(?-u:[\x00-\x09\x80-\xFF])");
    assert!(rt; told(built) == Some((false, 2, 4)));
}

/// The groups of two patterns, in order, and the slots.
fn group_lens(nfa: &NFA, second: PatternID) -> [usize; 4] {
    let info = nfa.group_info();
    [
        info.pattern_len(),
        info.group_len(PatternID::ZERO),
        info.group_len(second),
        nfa.slot_len(),
    ]
}

/// Whether the second group of the first pattern is named `c`, the first one is not, and that of the second pattern is named `d`.
fn has_names(nfa: &NFA, second: PatternID) -> bool {
    let info = nfa.group_info();
    let names = (
        info.to_name(PatternID::ZERO, 1),
        info.to_name(PatternID::ZERO, 2),
    );
    names == (None, Some("c"))
        && (info.to_index(second, "d"), info.to_index(second, "c")) == (Some(1), None)
}

/// The groups of both patterns where the captures of this kind are told, and whether their names are those above.
fn groups(alloc: Global, which: WhichCaptures) -> Option<([usize; 4], bool)> {
    let second = PatternID::new(1)?;
    let compiler = configured(Config::new().which_captures(which));
    match compiler.build_many(alloc, &["(a)|b(?P<c>c)", "(?P<d>d)"]) {
        Ok(nfa) => Some((group_lens(&nfa, second), has_names(&nfa, second))),
        Err(_) => None,
    }
}

#[test]
fn tells_the_same_groups_under_each_kind(rt: HostRuntime) {
    let each = [
        WhichCaptures::All,
        WhichCaptures::Implicit,
        WhichCaptures::None,
    ];
    for which in each {
        assert!(rt; groups(rt.alloc(), which) == Some(([2, 3, 2, 10], true)));
    }
}

/// Whether it has an empty match, splits no character, begins at the start alone, and what is accounted for it.
fn fixed(built: Result<NFA, rx_search::Memory>) -> Option<(bool, bool, bool, usize)> {
    match built {
        Ok(nfa) => Some((
            nfa.has_empty(),
            nfa.is_utf8(),
            nfa.is_always_start_anchored(),
            nfa.accounted_states(),
        )),
        Err(_) => None,
    }
}

/// The number of patterns of a copy.
fn copied_patterns(nfa: &NFA) -> Option<usize> {
    match nfa.clone() {
        Ok(copy) => Some(copy.pattern_len()),
        Err(_) => None,
    }
}

/// The number of patterns of its copy.
fn patterns_of_copy(built: Result<NFA, rx_search::Memory>) -> Option<usize> {
    match built {
        Ok(nfa) => copied_patterns(&nfa),
        Err(_) => None,
    }
}

#[test]
fn tells_of_the_fixed_automata(rt: HostRuntime) {
    let always = fixed(NFA::always_match(rt.alloc()));
    let never = fixed(NFA::never_match(rt.alloc()));
    // 4, and 1 and 3 of the empty pattern.
    assert!(rt; (always, never) == (Some((true, true, false, 8)), Some((false, true, true, 4))));
    assert!(rt; patterns_of_copy(NFA::never_match(rt.alloc())) == Some(0));
}

/// Whether it is the start of a line.
fn is_line_start(state: Option<&State>) -> bool {
    match state {
        Some(State::Look { look, .. }) => *look == Look::StartLF,
        _ => false,
    }
}

/// How many states there are, whether the third one is a look-around, whether it is the only kind, and the line terminator.
fn line_start(nfa: &NFA) -> (usize, bool, bool, u8) {
    let only = LookSet::empty().insert(Look::StartLF);
    (
        nfa.states_len(),
        is_line_start(nfa.states().get(2)),
        nfa.look_set_any() == only,
        nfa.look_matcher().get_line_terminator(),
    )
}

/// The same of the start of a line that ends in this byte.
fn line_start_told(alloc: Global, terminator: u8) -> Option<(usize, bool, bool, u8)> {
    let mut matcher = LookMatcher::new();
    matcher.set_line_terminator(terminator);
    match configured(Config::new().look_matcher(matcher)).build(alloc, "(?m)^") {
        Ok(nfa) => Some(line_start(&nfa)),
        Err(_) => None,
    }
}

#[test]
fn a_look_around_is_one_state(rt: HostRuntime) {
    // It stands between the two slots of the whole match, before the match.
    assert!(rt; line_start_told(rt.alloc(), b'\0') == Some((4, true, true, b'\0')));
}

/// Whether patterns begin at the start alone, and the number of their common start.
fn start(alloc: Global, patterns: &[&str]) -> Option<(bool, usize)> {
    match Compiler::new().build_many(alloc, patterns) {
        Ok(nfa) => Some((
            nfa.is_always_start_anchored(),
            nfa.start_anchored().as_usize(),
        )),
        Err(_) => None,
    }
}

#[test]
fn tells_whether_each_pattern_is_start_anchored(rt: HostRuntime) {
    let alloc = rt.alloc();
    assert!(rt; start(alloc, &[r"\A", r"\A"]) == Some((true, 8)));
    assert!(rt; start(alloc, &[r"\A", "(?m)^"]) == Some((false, 8)));
}

/// The most alternatives of a choice.
fn widest_choice(nfa: &NFA) -> usize {
    let mut widest = 0;
    for state in nfa.states() {
        if let State::Union { alternates } = state {
            widest = alternates.as_slice().len().max(widest);
        }
    }
    widest
}

/// By hand: a pattern, the states of its NFA that reads backwards (one accepts, and two just go on), and the most ways of a choice.
type Backwards = (&'static str, usize, usize);

const BACKWARDS: [Backwards; 4] = [
    ("[é]", 5, 1),
    ("[\u{80}-\u{BF}\u{100}-\u{13F}]", 7, 2),
    ("[\u{80}-\u{BF}\u{101}]", 8, 2),
    (".", 28, 6),
];

/// The states of the NFA that reads the pattern backwards, and the most ways of a choice.
fn backwards(alloc: Global, pattern: &str) -> Option<(usize, usize)> {
    match configured(Config::new().reverse(true)).build(alloc, pattern) {
        Ok(nfa) if nfa.is_reverse() => Some((nfa.states_len(), widest_choice(&nfa))),
        _ => None,
    }
}

/// The number of the first of these rows whose NFA is otherwise.
fn first_wrong_backwards(alloc: Global, rows: &[Backwards]) -> Option<usize> {
    for k in 0..rows.len() {
        let (pattern, states, widest) = rows[k];
        if backwards(alloc, pattern) != Some((states, widest)) {
            return Some(k);
        }
    }
    None
}

#[test]
fn ranges_of_a_class_share_their_last_bytes(rt: HostRuntime) {
    all_right(&rt, first_wrong_backwards(rt.alloc(), &BACKWARDS));
}
