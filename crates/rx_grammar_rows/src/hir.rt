//! What is known of expressions, and their copies.

use crate::rows::all_right;
use rx_hir::{Hir, HirKind, Look, Properties, can_be_empty, cost, group_names};
use rx_syntax::{Config, parse_with};
use std::alloc::Global;
use std::process::Abort;

/// The expression in a box. So a function that ends lets it go by one call, and not part by part.
pub(crate) fn boxed(rt: &impl Abort, alloc: Global, hir: Option<Hir>) -> Box<Hir> {
    let hir = hir.expect(rt, "an expression");
    Box::new(alloc, hir).ok().expect(rt, "memory")
}

/// The expression of a pattern, which may match bytes that are no UTF-8.
fn parsed(rt: &impl Abort, alloc: Global, pattern: &str) -> Box<Hir> {
    let config = Config::new().utf8(false);
    boxed(rt, alloc, parse_with(alloc, pattern, &config).ok())
}

/// The least length of a match and the greatest; the number of groups that take part in each match, and of all groups.
type Lengths = (Option<usize>, Option<usize>, Option<usize>, usize);

fn lengths(properties: &Properties) -> Lengths {
    (
        properties.minimum_len(),
        properties.maximum_len(),
        properties.static_explicit_captures_len(),
        properties.explicit_captures_len(),
    )
}

/// Whether it is a literal, an alternation of literals, UTF-8, and may match nothing.
fn kinds(hir: &Hir) -> (bool, bool, bool, bool) {
    let properties = hir.properties();
    (
        properties.is_literal(),
        properties.is_alternation_literal(),
        properties.is_utf8(),
        can_be_empty(hir),
    )
}

/// The lengths of an expression, its kinds, and the bytes that are accounted for it.
type Facts = (Lengths, (bool, bool, bool, bool), u64);

fn facts(hir: &Hir) -> Facts {
    (lengths(hir.properties()), kinds(hir), cost(hir))
}

/// A pattern, its lengths and kinds, and the bytes that are accounted for it.
type Row = (&'static str, Lengths, (bool, bool, bool, bool), u64);

const ROWS: [Row; 8] = [
    (
        r"(?-u:\b)(?P<x>a)?",
        (Some(0), Some(1), None, 1),
        (false, false, true, true),
        192,
    ),
    (
        r"a|(?-u:\xFF)",
        (Some(1), Some(1), Some(0), 0),
        (false, true, false, false),
        96,
    ),
    (
        "\u{E9}",
        (Some(2), Some(2), Some(0), 0),
        (true, true, true, false),
        64,
    ),
    (
        r"\z",
        (Some(0), Some(0), Some(0), 0),
        (false, false, true, true),
        32,
    ),
    (
        "a",
        (Some(1), Some(1), Some(0), 0),
        (true, true, true, false),
        32,
    ),
    (
        "a{3}",
        (Some(3), Some(3), Some(0), 0),
        (false, false, true, false),
        128,
    ),
    (
        "[a-c]",
        (Some(1), Some(1), Some(0), 0),
        (false, false, true, false),
        64,
    ),
    (
        "(a)",
        (Some(1), Some(1), Some(1), 1),
        (false, false, true, false),
        96,
    ),
];

/// Whether this is known of the row's pattern.
fn is_known(rt: &impl Abort, alloc: Global, row: Row) -> bool {
    let (pattern, lengths, kinds, bytes) = row;
    let hir = parsed(rt, alloc, pattern);
    facts(&hir) == (lengths, kinds, bytes)
}

/// The number of the first of these rows of which something else is known, counted from 0.
fn first_wrong(rt: &impl Abort, alloc: Global, rows: &[Row]) -> Option<usize> {
    for k in 0..rows.len() {
        if !is_known(rt, alloc, rows[k]) {
            return Some(k);
        }
    }
    None
}

#[test]
fn lengths_groups_and_kinds(rt: HostRuntime) {
    all_right(&rt, first_wrong(&rt, rt.alloc(), &ROWS));
}

/// What is known of a pattern's expression.
fn properties_of(rt: &impl Abort, alloc: Global, pattern: &str) -> Properties {
    let hir = parsed(rt, alloc, pattern);
    *hir.properties()
}

/// Whether this kind of look-around stands in it, holds where each match starts, and holds where each match ends.
fn looks(properties: &Properties, kind: Look) -> (bool, bool, bool) {
    (
        properties.look_set().contains(kind),
        properties.look_set_prefix().contains(kind),
        properties.look_set_suffix().contains(kind),
    )
}

#[test]
fn look_arounds(rt: HostRuntime) {
    let properties = properties_of(&rt, rt.alloc(), r"(?-u:\b)(?P<x>a)?");
    let looks = looks(&properties, Look::WordAscii);
    assert!(rt; (looks, properties.memory_usage()) == ((true, true, false), 64));
}

/// What is known of the look-around that holds at the start.
fn properties_of_start() -> Properties {
    let hir = Hir::look(Look::Start);
    *hir.properties()
}

/// Of the union: the lengths, and where the look-around that holds at the start stands.
fn told_of_union(properties: &[Properties]) -> (Lengths, (bool, bool, bool)) {
    let both = Properties::union(properties);
    (lengths(&both), looks(&both, Look::Start))
}

#[test]
fn unions(rt: HostRuntime) {
    let group = properties_of(&rt, rt.alloc(), "(?P<x>ab)");
    let told = told_of_union(&[group, properties_of_start()]);
    assert!(rt; told == ((Some(0), Some(2), None, 1), (true, false, false)));
    assert!(rt; Properties::union(&[]).minimum_len().is_none());
}

/// Whether the groups are one without a name, and one that is named `x`.
fn are_names(names: &[Option<String>]) -> bool {
    match names {
        [None, None, Some(name)] => name.as_str() == "x",
        _ => false,
    }
}

/// Whether the expression has these groups.
fn has_names(alloc: Global, hir: &Hir) -> bool {
    match group_names(alloc, hir) {
        Ok(names) => are_names(&names),
        Err(_) => false,
    }
}

/// Whether its copy is like it.
fn is_copied(hir: &Hir) -> bool {
    match hir.clone() {
        Ok(copy) => is_same(&copy, hir),
        Err(_) => false,
    }
}

/// Whether it is a chain of parts.
fn is_chain(hir: Hir) -> bool {
    matches!(hir.into_kind(), HirKind::Concat(_))
}

/// Whether a copy of the pattern's expression is like it, whether the groups are those above, and whether it is a chain of parts.
fn told(rt: &impl Abort, alloc: Global, pattern: &str) -> (bool, bool, bool) {
    let hir = parsed(rt, alloc, pattern);
    let (is_copied, has_names) = (is_copied(&hir), has_names(alloc, &hir));
    (is_copied, has_names, is_chain(Box::into_inner(hir)))
}

#[test]
fn names_and_copies(rt: HostRuntime) {
    let named = told(&rt, rt.alloc(), "(b)(?P<x>a)?");
    let classes = told(&rt, rt.alloc(), r"[a-c\u{E9}-\u{EA}](?-u:[a-c\xFE-\xFF])");
    assert!(rt; (named, classes) == ((true, true, true), (true, false, true)));
}

/// Whether they are the same expression.
pub(crate) fn is_same(one: &Hir, other: &Hir) -> bool {
    *one == *other
}

/// Whether two patterns have the same expression.
fn are_alike(rt: &impl Abort, alloc: Global, one: &str, other: &str) -> bool {
    let one = parsed(rt, alloc, one);
    let other = parsed(rt, alloc, other);
    is_same(&one, &other)
}

#[test]
fn equality(rt: HostRuntime) {
    let same = are_alike(&rt, rt.alloc(), "(?P<x>a)", "(?<x>a)");
    let other = are_alike(&rt, rt.alloc(), "(?P<x>a)", "(?P<x>)");
    assert!(rt; same && !other);
}

/// Whether it is the literal of these bytes.
pub(crate) fn is_literal(hir: &Hir, bytes: &[u8]) -> bool {
    match hir.kind() {
        HirKind::Literal(literal) => literal.as_slice() == bytes,
        _ => false,
    }
}

/// Whether these are `ab`, another part, and `c`.
fn are_joined(parts: &[Hir]) -> bool {
    match parts {
        [one, _, other] => is_literal(one, b"ab") && is_literal(other, b"c"),
        _ => false,
    }
}

/// Whether it is a chain of such parts.
fn is_joined(hir: &Hir) -> bool {
    match hir.kind() {
        HirKind::Concat(parts) => are_joined(parts),
        _ => false,
    }
}

#[test]
fn literals_that_meet_are_joined(rt: HostRuntime) {
    let hir = parsed(&rt, rt.alloc(), r"a(?:)b\Ac");
    assert!(rt; is_joined(&hir));
}
