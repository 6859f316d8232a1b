//! Tests of regexes.
ghost use Rattle.rx_meta.specs.Cache.{Fits};

use crate::rows::all_right;
use rx_hir::Hir;
use rx_meta::{BuildError, Builder, Cache, Config, Prefilter, Regex, RegexFinder, WhichCaptures};
use rx_search::{
    Anchored, HalfMatch, Input, Match, MatchKind, Memory, NonMaxUsize, PatternID, Searcher, Span,
};
use rx_syntax::parse_many;
use std::alloc::Global;
use std::process::Abort;
use std::sync::Wait;

/// The regex in a box. So a function that ends lets it go by one call, and not part by part.
pub(crate) fn boxed(rt: &impl Abort, alloc: Global, regex: Option<Regex>) -> Box<Regex> {
    let regex = regex.expect(rt, "a regex");
    Box::new(alloc, regex).ok().expect(rt, "memory")
}

/// The regex of a pattern.
fn regex_of(rt: &impl Abort, alloc: Global, pattern: &str) -> Box<Regex> {
    boxed(rt, alloc, Regex::new(alloc, pattern).ok())
}

/// The regex of a pattern under this configuration.
pub(crate) fn configured(
    rt: &impl Abort,
    alloc: Global,
    config: Config,
    pattern: &str,
) -> Box<Regex> {
    let mut builder = Builder::new();
    builder.configure(config);
    boxed(rt, alloc, builder.build(alloc, pattern).ok())
}

/// A cache of the regex, in a box too.
pub(crate) fn cache_of(rt: &impl Abort, alloc: Global, regex: &Regex) -> Box<Cache>
    ensures { Fits regex.now result.value }
{
    let cache = Cache::new(alloc, regex).ok().expect(rt, "a cache");
    Box::new(alloc, cache).ok().expect(rt, "memory")
}

/// Makes the cache one of the regex.
fn reset(rt: &impl Abort, alloc: Global, cache: &mut Cache, regex: &Regex)
    ensures { Fits regex.now cache.new }
{
    cache.reset(alloc, regex).ok().expect(rt, "memory")
}

/// The place that a slot holds.
fn place(slot: Option<NonMaxUsize>) -> Option<usize> {
    match slot {
        Some(place) => Some(place.get()),
        None => None,
    }
}

/// The place that a slot of these holds.
pub(crate) fn place_at(slots: &[Option<NonMaxUsize>], slot: usize) -> Option<usize> {
    match slots.get(slot) {
        Some(Some(place)) => Some(place.get()),
        _ => None,
    }
}

/// The pattern, the start and the end of a match.
fn whole(found: Option<Match>) -> Option<(usize, usize, usize)> {
    match found {
        Some(found) => Some((found.pattern().as_usize(), found.start(), found.end())),
        None => None,
    }
}

/// The pattern and the end of a match.
fn half(found: Option<HalfMatch>) -> Option<(usize, usize)> {
    match found {
        Some(found) => Some((found.pattern().as_usize(), found.offset())),
        None => None,
    }
}

/// The number of a pattern.
fn number(found: Option<PatternID>) -> Option<usize> {
    match found {
        Some(found) => Some(found.as_usize()),
        None => None,
    }
}

/// What the searches of an input tell: the match, the same by another call, its half, its pattern, and what it leaves in
/// four slots that held places before.
pub(crate) type Told = (
    Option<(usize, usize, usize)>,
    Option<(usize, usize, usize)>,
    Option<(usize, usize)>,
    Option<usize>,
    [Option<usize>; 4],
);

/// What is told of the match of `a(b)?` in `xab`.
const AB: Told = (
    Some((0, 1, 3)),
    Some((0, 1, 3)),
    Some((0, 3)),
    Some(0),
    [Some(1), Some(3), Some(2), Some(3)],
);

/// What is told of no match.
pub(crate) const NOTHING: Told = (None, None, None, None, [None; 4]);

/// The places that the slots hold.
fn places(slots: &[Option<NonMaxUsize>; 4]) -> [Option<usize>; 4] {
    [
        place(slots[0]),
        place(slots[1]),
        place(slots[2]),
        place(slots[3]),
    ]
}

/// By the calls that make a cache.
pub(crate) fn told_by<R: Abort + Wait>(
    rt: &R,
    alloc: Global,
    regex: &Regex,
    input: &Input<'_>,
) -> Told {
    let searched = regex.search(rt, alloc, input).ok();
    let found = regex.find(rt, alloc, input).ok();
    let ended = regex.search_half(rt, alloc, input).ok();
    let mut slots = [NonMaxUsize::new(9); 4];
    let pattern = regex.search_slots(rt, alloc, input, &mut slots).ok();
    (
        whole(searched.expect(rt, "memory")),
        whole(found.expect(rt, "memory")),
        half(ended.expect(rt, "memory")),
        number(pattern.expect(rt, "memory")),
        places(&slots),
    )
}

/// By the calls that take a cache.
fn told_with(rt: &impl Abort, regex: &Regex, cache: &mut Cache, input: &Input<'_>) -> Told
    requires { Fits regex.now cache.old }
    ensures { Fits regex.now cache.new }
{
    let searched = regex.search_with(cache, input).ok();
    let ended = regex.search_half_with(cache, input).ok();
    let mut slots = [NonMaxUsize::new(9); 4];
    let pattern = regex.search_slots_with(cache, input, &mut slots).ok();
    let mut slots = [NonMaxUsize::new(9); 4];
    let found = regex.search_match_with(cache, input, &mut slots).ok();
    (
        whole(searched.expect(rt, "memory")),
        whole(found.expect(rt, "memory")),
        half(ended.expect(rt, "memory")),
        number(pattern.expect(rt, "memory")),
        places(&slots),
    )
}

/// Whether there is a match.
pub(crate) fn matches_in<R: Abort + Wait>(
    rt: &R,
    alloc: Global,
    regex: &Regex,
    input: &Input<'_>,
) -> bool {
    regex.is_match(rt, alloc, input).ok().expect(rt, "memory")
}

/// Whether the calls that make a cache tell this.
fn tell<R: Abort + Wait>(rt: &R, alloc: Global, regex: &Regex, text: &[u8], wanted: Told) -> bool {
    told_by(rt, alloc, regex, &Input::new(text)) == wanted
}

/// Whether those that take a cache tell this.
fn tell_with(rt: &impl Abort, regex: &Regex, cache: &mut Cache, text: &[u8], wanted: Told) -> bool
    requires { Fits regex.now cache.old }
    ensures { Fits regex.now cache.new }
{
    told_with(rt, regex, cache, &Input::new(text)) == wanted
}

/// Whether the calls of the regex tell the match of `a(b)?` in `xab`, and none in `xb`, also by a cache that they used before.
fn are_told<R: Abort + Wait>(rt: &R, alloc: Global, regex: &Regex) -> bool {
    let mut cache = cache_of(rt, alloc, regex);
    tell(rt, alloc, regex, b"xab", AB)
        && tell_with(rt, regex, &mut cache, b"xab", AB)
        && tell_with(rt, regex, &mut cache, b"xb", NOTHING)
}

#[test]
fn each_call_makes_a_cache_or_takes_one(rt: HostRuntime) {
    let regex = regex_of(&rt, rt.alloc(), "a(b)?");
    assert!(rt; are_told(&rt, rt.alloc(), &regex));
}

/// A cache of the first regex that was made one of the second.
pub(crate) fn made_over(rt: &impl Abort, alloc: Global, first: &Regex, second: &Regex) -> Box<Cache>
    ensures { Fits second.now result.value }
{
    let mut cache = cache_of(rt, alloc, first);
    reset(rt, alloc, &mut cache, second);
    cache
}

#[test]
fn a_cache_is_reset_for_another_regex(rt: HostRuntime) {
    let first = regex_of(&rt, rt.alloc(), "a");
    let second = regex_of(&rt, rt.alloc(), "a(b)?");
    let mut cache = made_over(&rt, rt.alloc(), &first, &second);
    assert!(rt; tell_with(&rt, &second, &mut cache, b"xab", AB));
}

/// What is accounted for a copy of a cache.
fn memory_of_copy(rt: &impl Abort, alloc: Global, cache: &Cache) -> usize {
    let again = cache.clone(alloc).ok().expect(rt, "a cache");
    let memory = again.memory_usage();
    drop(again);
    memory
}

#[test]
fn a_copy_of_a_cache_is_accounted_as_much(rt: HostRuntime) {
    let regex = regex_of(&rt, rt.alloc(), "a(b)?");
    let cache = cache_of(&rt, rt.alloc(), &regex);
    assert_eq!(rt;
        memory_of_copy(&rt, rt.alloc(), &cache),
        cache.memory_usage()
    );
}

/// Whether a copy of the regex answers as it does.
fn copy_answers<R: Abort + Wait>(rt: &R, alloc: Global, source: &Regex) -> bool {
    let copy = boxed(rt, alloc, source.clone().ok());
    are_told(rt, alloc, &copy)
        && copy.get_config().get_line_terminator() == b';'
        && copy.memory_usage() == source.memory_usage()
}

#[test]
fn a_clone_answers_as_its_source(rt: HostRuntime) {
    let config = Config::new().line_terminator(b';');
    let source = configured(&rt, rt.alloc(), config, "a(b)?");
    assert!(rt; copy_answers(&rt, rt.alloc(), &source));
}

/// Makes a cache that serves the regex one that serves it, which asks for no memory.
fn reset_again(alloc: Global, cache: &mut Cache, regex: &Regex)
    requires { Fits regex.now cache.old }
    ensures { Fits regex.now cache.new }
{
    match cache.reset(alloc, regex) {
        Ok(()) => {}
        // It has room enough.
        Err(_) => unreachable!(),
    }
}

/// Whether a cache tells what it did before a reset, and is accounted as much.
fn reset_serves(rt: &impl Abort, alloc: Global, regex: &Regex, cache: &mut Cache) -> bool
    requires { Fits regex.now cache.old }
{
    let before = tell_with(rt, regex, cache, b"xab", AB);
    let memory = cache.memory_usage();
    reset_again(alloc, cache, regex);
    let after = cache.memory_usage();
    before && memory == after && tell_with(rt, regex, cache, b"xab", AB)
}

#[test]
fn a_cache_that_serves_is_reset_without_memory(rt: HostRuntime) {
    let regex = regex_of(&rt, rt.alloc(), "a(b)?");
    let mut cache = cache_of(&rt, rt.alloc(), &regex);
    assert!(rt; reset_serves(&rt, rt.alloc(), &regex, &mut cache));
}

/// The refusal of `a` where the NFA may take this many bytes.
fn refused(rt: &impl Abort, alloc: Global, limit: usize) -> BuildError {
    let mut builder = Regex::builder();
    builder.configure(Regex::config().nfa_size_limit(Some(limit)));
    let first = builder.build(alloc, "a").err().expect(rt, "a refusal");
    // The builder is as before.
    let again = builder.build(alloc, "a").err().expect(rt, "a refusal");
    assert!(rt; first == again);
    again
}

/// Whether the error reads so.
fn reads(rt: &impl Abort, alloc: Global, error: &BuildError, text: &str) -> bool {
    let told = format!(in alloc; "{error}").ok().expect(rt, "memory");
    told.as_str() == text
}

#[test]
fn a_size_limit_is_told(rt: HostRuntime) {
    let error = refused(&rt, rt.alloc(), 159);
    let cause = rx_thompson::BuildError::ExceededSizeLimit {
        limit: 159,
        size: 256,
    };
    let told = (error.size_limit(), number(error.pattern()));
    assert!(rt; told == (Some(159), None) && error == BuildError::NFA(cause));
}

#[test]
fn a_refusal_is_shown(rt: HostRuntime) {
    let error = refused(&rt, rt.alloc(), 159);
    let is_read = reads(&rt, rt.alloc(), &error, "error building NFA");
    assert!(rt; is_read && reads(&rt, rt.alloc(), &BuildError::Memory, "out of memory"));
}

/// A regex of `a` that tells no captures.
fn without_captures(rt: &impl Abort, alloc: Global) -> Box<Regex> {
    let mut builder = Builder::new();
    builder.configure(Config::new().which_captures(WhichCaptures::None));
    builder.configure(Config::new().utf8_empty(false));
    let again = builder.clone().ok().expect(rt, "memory");
    boxed(rt, alloc, again.build(alloc, "a").ok())
}

/// Whether nothing is told of `a`, but that there is a match.
fn is_silent<R: Abort + Wait>(rt: &R, alloc: Global, regex: &Regex) -> bool {
    let mut cache = cache_of(rt, alloc, regex);
    tell(rt, alloc, regex, b"a", NOTHING)
        && tell_with(rt, regex, &mut cache, b"a", NOTHING)
        && matches_in(rt, alloc, regex, &Input::new(b"a"))
}

#[test]
fn nothing_is_told_without_captures(rt: HostRuntime) {
    let regex = without_captures(&rt, rt.alloc());
    let which = regex.get_config().get_which_captures();
    assert!(rt; which == WhichCaptures::None && is_silent(&rt, rt.alloc(), &regex));
}

/// The next match, where it starts by the slots, and where its group does.
type Next = (Option<(usize, usize, usize)>, Option<usize>, Option<usize>);

/// The next match that the searcher gives.
fn next<'r>(rt: &impl Abort, searcher: &mut Searcher<'_>, finder: &mut RegexFinder<'r>) -> Next {
    let found = whole(searcher.advance(finder).ok().expect(rt, "memory"));
    (
        found,
        place_at(finder.slots(), 0),
        place_at(finder.slots(), 2),
    )
}

/// Whether the finder gives the matches in `abxa`, one after another.
fn gives_all<'r>(rt: &impl Abort, finder: &mut RegexFinder<'r>) -> bool {
    let mut searcher = Searcher::new(Input::new(b"abxa"));
    let first = next(rt, &mut searcher, finder);
    let second = next(rt, &mut searcher, finder);
    let third = next(rt, &mut searcher, finder);
    first == (Some((0, 0, 2)), Some(0), Some(1))
        && second == (Some((0, 3, 4)), Some(3), None)
        && third == (None, None, None)
}

/// Whether a finder of the regex, which has one pattern, gives all matches.
fn is_found_by_finder(rt: &impl Abort, alloc: Global, regex: &Regex) -> bool {
    let mut finder = RegexFinder::new(alloc, regex).ok().expect(rt, "memory");
    let before = (finder.regex().pattern_len(), place_at(finder.slots(), 0));
    let gives_all = gives_all(rt, &mut finder);
    // (by a call: it has a cache)
    drop(finder);
    before == (1, None) && gives_all
}

#[test]
fn a_finder_gives_match_after_match(rt: HostRuntime) {
    let regex = regex_of(&rt, rt.alloc(), "a(b)?");
    assert!(rt; is_found_by_finder(&rt, rt.alloc(), &regex));
}

/// What is known of the group `k`, how many slots there are, and what is left in them.
fn implicit<R: Abort + Wait>(
    rt: &R,
    alloc: Global,
    regex: &Regex,
) -> (Option<usize>, usize, [Option<usize>; 4]) {
    let groups = regex.group_info();
    let (_, _, _, _, slots) = told_by(rt, alloc, regex, &Input::new(b"xab"));
    (
        groups.to_index(PatternID::ZERO, "k"),
        groups.slot_len(),
        slots,
    )
}

#[test]
fn a_group_that_is_not_told_has_empty_slots(rt: HostRuntime) {
    let config = Config::new().which_captures(WhichCaptures::Implicit);
    let regex = configured(&rt, rt.alloc(), config, "a(?P<k>b)");
    let told = implicit(&rt, rt.alloc(), &regex);
    assert!(rt; told == (Some(1), 4, [Some(1), Some(3), None, None]));
}

/// Values of this type may go to other threads.
fn goes_to_threads<T: Send>(_value: &T) {}

/// Values of this type may go to other threads, and be shared with them.
fn crosses_threads<T: Send + Sync>(_value: &T) {}

#[test]
fn a_regex_crosses_threads(rt: HostRuntime) {
    let alloc = rt.alloc();
    // They stand in no box, since they are asked about their own types.
    let regex = Regex::new(alloc, "a").ok().expect(&rt, "a regex");
    crosses_threads(&regex);
    let cache = Cache::new(alloc, &regex).ok().expect(&rt, "a cache");
    goes_to_threads(&cache);
    drop(cache);
    drop(regex);
}

/// What a search of this input finds.
fn found_by<R: Abort + Wait>(
    rt: &R,
    alloc: Global,
    regex: &Regex,
    input: &Input<'_>,
) -> Option<(usize, usize, usize)> {
    let found = regex.search(rt, alloc, input).ok();
    whole(found.expect(rt, "memory"))
}

/// What the search of `ab` for this one of two patterns finds.
fn found_of<R: Abort + Wait>(
    rt: &R,
    alloc: Global,
    pattern: usize,
) -> Option<(usize, usize, usize)> {
    let regex = boxed(rt, alloc, Regex::new_many(alloc, &["a", "(a)b"]).ok());
    let pattern = PatternID::new(pattern).expect(rt, "a number of a pattern");
    let input = Input::new(b"ab").anchored(Anchored::Pattern(pattern));
    found_by(rt, alloc, &regex, &input)
}

#[test]
fn an_anchor_names_a_pattern(rt: HostRuntime) {
    let first = found_of(&rt, rt.alloc(), 0);
    let second = found_of(&rt, rt.alloc(), 1);
    let none = found_of(&rt, rt.alloc(), 7);
    assert!(rt; (first, second, none) == (Some((0, 0, 1)), Some((1, 0, 2)), None));
}

/// The expressions `a` and `b`.
fn a_and_b(rt: &impl Abort, alloc: Global) -> Vec<Hir> {
    parse_many(alloc, &["a", "b"]).ok().expect(rt, "patterns")
}

/// What is told of a regex of two expressions in `b`.
fn two_in<R: Abort + Wait>(
    rt: &R,
    alloc: Global,
    regex: &Regex,
) -> (usize, usize, usize, Option<(usize, usize, usize)>) {
    let found = found_by(rt, alloc, regex, &Input::new(b"b"));
    let groups = regex.group_info().pattern_len();
    (regex.pattern_len(), groups, regex.memory_usage(), found)
}

/// A builder of regexes without DFAs.
fn without_dfas() -> Builder {
    let mut builder = Builder::new();
    builder.configure(Config::new().dfa(false).hybrid(false));
    builder
}

/// The regex of both expressions.
fn of_both(rt: &impl Abort, alloc: Global, exprs: &[Hir]) -> Box<Regex> {
    let two = without_dfas().build_many_from_hir(alloc, exprs);
    boxed(rt, alloc, two.ok())
}

/// The regex of the first expression.
fn of_first(rt: &impl Abort, alloc: Global, exprs: &[Hir]) -> Box<Regex> {
    let first = exprs.first().expect(rt, "two expressions");
    let one = without_dfas().build_from_hir(alloc, first);
    boxed(rt, alloc, one.ok())
}

#[test]
fn a_regex_is_built_of_expressions(rt: HostRuntime) {
    let exprs = a_and_b(&rt, rt.alloc());
    let two = of_both(&rt, rt.alloc(), &exprs);
    let told = two_in(&rt, rt.alloc(), &two);
    // Three properties; 4 states, and 1 and 3 of each pattern.
    assert!(rt; told == (2, 2, 64 * 3 + 32 * 12, Some((1, 0, 1))));
}

#[test]
fn a_regex_is_built_of_an_expression(rt: HostRuntime) {
    let exprs = a_and_b(&rt, rt.alloc());
    let one = of_first(&rt, rt.alloc(), &exprs);
    assert!(rt; !matches_in(&rt, rt.alloc(), &one, &Input::new(b"b")));
}

/// A configuration into which a prefilter of this needle is handed.
pub(crate) fn handing_in(alloc: Global, needle: &[u8]) -> Result<Config, Memory> {
    let needles = [Vec::from_slice(alloc, needle)?];
    let pre = Prefilter::new(alloc, MatchKind::LeftmostFirst, &needles)?;
    Ok(Config::new().prefilter(pre))
}

/// What is found of `ab` in `ab` by a regex of this configuration, and what is accounted for it.
fn ab_under<R: Abort + Wait>(
    rt: &R,
    alloc: Global,
    config: Config,
) -> (Option<(usize, usize, usize)>, usize) {
    let regex = configured(rt, alloc, config.dfa(false).hybrid(false), "ab");
    let found = found_by(rt, alloc, &regex, &Input::new(b"ab"));
    (found, regex.memory_usage())
}

#[test]
fn no_prefilter_changes_an_answer(rt: HostRuntime) {
    let told = ab_under(&rt, rt.alloc(), Config::new().auto_prefilter(false));
    // two properties; 4 states, 2 and 3 of the pattern; and the length of the needle
    assert!(rt; told == (Some((0, 0, 2)), 128 + 288));
    // its literal is all that it is: the length of the needle alone
    let told = ab_under(&rt, rt.alloc(), Config::new());
    assert!(rt; told == (Some((0, 0, 2)), 2));
}

#[test]
fn a_prefilter_that_is_handed_in_changes_no_answer(rt: HostRuntime) {
    let config = handing_in(rt.alloc(), b"a").ok().expect(&rt, "memory");
    let told = ab_under(&rt, rt.alloc(), config);
    assert!(rt; told == (Some((0, 0, 2)), 128 + 288));
}

/// The text, from this place to that.
pub(crate) fn within(rt: &impl Abort, text: &'static str, span: (usize, usize)) -> Input<'static> {
    let (start, end) = span;
    assert!(rt; end <= text.len());
    assert!(rt; start <= end + 1);
    Input::new(text.as_bytes()).span(Span { start, end })
}

/// A pattern, a text with a span of it, whether the search is anchored, and the start and the end of what is found.
type Row = (
    &'static str,
    &'static str,
    (usize, usize),
    bool,
    Option<(usize, usize)>,
);

const ENDS: [Row; 8] = [
    // Each match begins at the start.
    ("^a", "aa", (0, 2), false, Some((0, 1))),
    ("^a", "aa", (1, 2), false, None),
    ("^a|a", "aa", (1, 2), false, Some((1, 2))),
    // Each match ends at the end.
    ("a$", "aa", (0, 2), false, Some((1, 2))),
    ("a$", "aa", (0, 1), false, None),
    ("a$|a", "aa", (0, 1), false, Some((0, 1))),
    // Each match has a least length.
    ("a{3}", "aaa", (0, 2), false, None),
    ("a{3}", "aaa", (0, 3), false, Some((0, 3))),
];

const WHOLE: [Row; 5] = [
    // Each match is the whole span.
    ("^a{2}$", "aa", (0, 2), false, Some((0, 2))),
    ("^a{2}$", "aaa", (0, 3), false, None),
    // Without an anchor the match may begin later.
    ("a{2}$", "aaa", (0, 3), false, Some((1, 3))),
    ("a{2}$", "aa", (0, 2), true, Some((0, 2))),
    ("a{2}$", "aaa", (0, 3), true, None),
];

const CHOICES_AND_CHARACTERS: [Row; 8] = [
    // The first alternative is preferred.
    ("a|ab", "ab", (0, 2), false, Some((0, 1))),
    ("a|ab", "b", (0, 1), false, None),
    ("ab", "ab", (0, 2), false, Some((0, 2))),
    // No match begins inside a character.
    (r"(?-u:\B)|a☃", "a☃b", (0, 5), false, Some((0, 4))),
    (r"(?-u:\B)", "a☃b", (0, 5), false, None),
    (r"(?-u:\B)", "aa", (0, 2), false, Some((1, 1))),
    ("", "☃", (1, 3), false, Some((3, 3))),
    ("", "☃", (1, 2), false, None),
];

/// The span of the row, searched as it says.
fn input_of(rt: &impl Abort, row: Row) -> Input<'static> {
    let (_, text, span, anchored, _) = row;
    let input = within(rt, text, span);
    if anchored {
        return input.anchored(Anchored::Yes);
    }
    input
}

/// The start and the end of what is found, and what a search leaves in the slots of the whole match, which held places before.
fn span_in<R: Abort + Wait>(
    rt: &R,
    alloc: Global,
    regex: &Regex,
    input: &Input<'_>,
) -> (Option<(usize, usize, usize)>, bool, [Option<usize>; 2]) {
    let found = found_by(rt, alloc, regex, input);
    let mut slots = [NonMaxUsize::new(9); 2];
    let _found = regex.search_slots(rt, alloc, input, &mut slots);
    let earliest = input.clone().earliest(true);
    let is_match = matches_in(rt, alloc, regex, &earliest);
    (found, is_match, [place(slots[0]), place(slots[1])])
}

/// Whether the search finds what the row says, and leaves it in the slots.
fn is_found<R: Abort + Wait>(rt: &R, alloc: Global, row: Row) -> bool {
    let (pattern, _, _, _, wanted) = row;
    let regex = regex_of(rt, alloc, pattern);
    let told = span_in(rt, alloc, &regex, &input_of(rt, row));
    match wanted {
        Some((start, end)) => told == (Some((0, start, end)), true, [Some(start), Some(end)]),
        None => told == (None, false, [None, None]),
    }
}

/// The number of the first row of which something else is told.
fn first_wrong<R: Abort + Wait>(rt: &R, alloc: Global, rows: &[Row]) -> Option<usize> {
    for k in 0..rows.len() {
        if !is_found(rt, alloc, rows[k]) {
            return Some(k);
        }
    }
    None
}

#[test]
fn what_each_match_begins_and_ends_with(rt: HostRuntime) {
    all_right(&rt, first_wrong(&rt, rt.alloc(), &ENDS));
}

#[test]
fn matches_of_the_whole_span(rt: HostRuntime) {
    all_right(&rt, first_wrong(&rt, rt.alloc(), &WHOLE));
}

#[test]
fn what_is_preferred_and_where_characters_begin(rt: HostRuntime) {
    let wrong = first_wrong(&rt, rt.alloc(), &CHOICES_AND_CHARACTERS);
    all_right(&rt, wrong);
}
