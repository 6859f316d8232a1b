//! Alternations of many literals, and what is left of patterns without the literal that ends them.

use crate::hir::{boxed, is_same};
use crate::rows::all_right;
use rx_hir::Hir;
use rx_order::{alternation_literals, strip_literal_suffix};
use rx_search::MatchKind;
use rx_syntax::parse;
use std::alloc::{AllocError, Global};
use std::fmt::Write;
use std::process::Abort;
use std::slice;

/// A pattern of so many alternatives, each `needle` and a number of five digits.
fn needles(alloc: Global, count: usize) -> Result<String, AllocError> {
    let mut pattern = String::from_str(alloc, "needle00000")?;
    for number in 1..count {
        write!(pattern, "|needle{number:05}")?;
    }
    Ok(pattern)
}

/// Whether the literal of this number is this one.
fn is_at(literals: &[Vec<u8>], number: usize, want: &str) -> bool {
    match literals.get(number) {
        Some(literal) => literal.as_slice() == want.as_bytes(),
        None => false,
    }
}

/// Whether the literals are the alternatives of the pattern, in order.
fn are_all(pattern: &str, literals: &[Vec<u8>]) -> bool {
    let mut count: usize = 0;
    for alternative in pattern.split('|') {
        if !is_at(literals, count, alternative) {
            return false;
        }
        count = count.saturating_add(1);
    }
    count == literals.len()
}

/// The same of the literals of an expression, if it has some.
fn told(alloc: Global, kind: MatchKind, hir: &Hir, pattern: &str) -> Option<bool> {
    match alternation_literals(alloc, kind, slice::from_ref(hir)) {
        Ok(Some(literals)) => Some(are_all(pattern, &literals)),
        _ => None,
    }
}

/// The expression of a pattern.
fn parsed(rt: &impl Abort, alloc: Global, pattern: &str) -> Box<Hir> {
    boxed(rt, alloc, parse(alloc, pattern).ok())
}

/// Whether the literals of so many alternatives are these, if their pattern has some.
fn told_of_needles(rt: &impl Abort, alloc: Global, kind: MatchKind, count: usize) -> Option<bool> {
    let pattern = needles(alloc, count).ok().expect(rt, "memory");
    let hir = parsed(rt, alloc, &pattern);
    told(alloc, kind, &hir, &pattern)
}

#[test]
fn three_thousand_literals_are_many(rt: HostRuntime) {
    let alloc = rt.alloc();
    let first = MatchKind::LeftmostFirst;
    let few = told_of_needles(&rt, alloc, first, 2999);
    let many = told_of_needles(&rt, alloc, first, 3000);
    let all = told_of_needles(&rt, alloc, MatchKind::All, 3000);
    assert!(rt; (few, many, all) == (None, Some(true), None));
}

/// Whether what is left of an expression without the suffix is this one; None where nothing is left.
fn is_left(rt: &impl Abort, alloc: Global, hir: &Hir, suffix: &[u8], want: &Hir) -> Option<bool> {
    let stripped = strip_literal_suffix(alloc, hir, suffix).ok();
    let rest = boxed(rt, alloc, Some(stripped.expect(rt, "memory")?));
    Some(is_same(&rest, want))
}

/// A pattern, a suffix, a pattern for what is to be left, and whether something is left.
type Row = (&'static str, &'static [u8], &'static str, bool);

const ROWS: [Row; 3] = [
    (".+(?:ab){2}cd", b"ababcd", ".+", true),
    ("x(?:ab){2,}", b"bab", "x(?:ab)*a", true),
    ("x(?:ab)*cd", b"abcd", "", false),
];

/// The same of the patterns of the row.
fn is_pattern_left(rt: &impl Abort, alloc: Global, row: Row) -> Option<bool> {
    let (pattern, suffix, want, _) = row;
    let hir = parsed(rt, alloc, pattern);
    let want = parsed(rt, alloc, want);
    is_left(rt, alloc, &hir, suffix, &want)
}

/// The number of the first row of which something else is left, counted from 0.
fn first_wrong(rt: &impl Abort, alloc: Global, rows: &[Row]) -> Option<usize> {
    for k in 0..rows.len() {
        let (_, _, _, is_some) = rows[k];
        let wanted = if is_some { Some(true) } else { None };
        if is_pattern_left(rt, alloc, rows[k]) != wanted {
            return Some(k);
        }
    }
    None
}

#[test]
fn copies_that_are_there_for_sure_are_taken_off(rt: HostRuntime) {
    all_right(&rt, first_wrong(&rt, rt.alloc(), &ROWS));
}
