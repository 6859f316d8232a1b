//! The literals of patterns, from their texts on.

use crate::hir::boxed;
use crate::rows::all_right;
use rx_hir::Hir;
use rx_literal::{
    Literal, Seq, is_look_free, longest_common_suffix, prefixes, prefixes_of, suffixes,
};
use rx_search::Memory;
use rx_syntax::{parse, parse_many};
use std::alloc::{AllocError, Global};
use std::process::Abort;

/// A pattern; its prefixes, and its suffixes, each in order, a star behind one that is inexact, and a dash where there are
/// infinitely many; the longest common suffix, or a dash where there is none.
type Row = (&'static str, &'static [u8], &'static [u8], &'static [u8]);

const ROWS: [Row; 9] = [
    ("ab|cd", b"ab cd ", b"ab cd ", b""),
    ("a*b", b"a* b ", b"ab* b ", b"b"),
    (r"\w+Holmes", b"-", b"Holmes* ", b"Holmes"),
    (r"(\w+) Holmes", b"-", b" Holmes* ", b" Holmes"),
    ("[ab]c|dc", b"ac bc dc ", b"ac bc dc ", b"c"),
    ("(?i)a", b"A a ", b"A a ", b""),
    (r"\bfoo\b", b"foo ", b"foo ", b"foo"),
    // No first run ends with this prefix where more text follows.
    ("a$", b"a ", b"a ", b"a"),
    ("(?:a|ab)??c", b"c ac abc ", b"c ac abc ", b"c"),
];

fn push_bytes(text: &mut Vec<u8>, bytes: &[u8]) -> Result<(), AllocError> {
    text.extend_from_slice(bytes)?;
    Ok(())
}

fn push_literal(text: &mut Vec<u8>, literal: &Literal) -> Result<(), AllocError> {
    push_bytes(text, literal.as_bytes())?;
    if !literal.is_exact() {
        text.push(b'*')?;
    }
    text.push(b' ')?;
    Ok(())
}

fn push_literals(text: &mut Vec<u8>, literals: &[Literal]) -> Result<(), AllocError> {
    for literal in literals {
        push_literal(text, literal)?;
    }
    Ok(())
}

/// Appends the literals as they are told above.
fn push_seq(text: &mut Vec<u8>, seq: &Seq) -> Result<(), AllocError> {
    match seq.literals() {
        Some(literals) => push_literals(text, literals),
        None => push_bytes(text, b"-"),
    }
}

/// The literals as they are told above.
fn told(alloc: Global, seq: &Seq) -> Result<Vec<u8>, AllocError> {
    let mut text = Vec::new(alloc);
    push_seq(&mut text, seq)?;
    Ok(text)
}

/// Whether these are the literals.
fn are_told(alloc: Global, seq: &Seq, want: &[u8]) -> bool {
    match told(alloc, seq) {
        Ok(text) => text.as_slice() == want,
        Err(_) => false,
    }
}

/// Whether these are the prefixes.
fn are_prefixes(alloc: Global, hir: &Hir, want: &[u8]) -> bool {
    match prefixes(alloc, hir) {
        Ok(seq) => are_told(alloc, &seq, want),
        Err(_) => false,
    }
}

/// Whether this is the longest common suffix.
fn is_common(seq: &Seq, want: &[u8]) -> bool {
    match longest_common_suffix(seq) {
        Some(found) => found == want,
        None => want == b"-".as_slice(),
    }
}

/// Whether these are the suffixes, and what they have in common.
fn are_suffixes(alloc: Global, hir: &Hir, want: &[u8], common: &[u8]) -> bool {
    match suffixes(alloc, hir) {
        Ok(seq) => are_told(alloc, &seq, want) && is_common(&seq, common),
        Err(_) => false,
    }
}

/// Whether the row's pattern has its literals.
fn is_told(rt: &impl Abort, alloc: Global, row: Row) -> bool {
    let (pattern, first, last, common) = row;
    let hir = boxed(rt, alloc, parse(alloc, pattern).ok());
    are_prefixes(alloc, &hir, first) && are_suffixes(alloc, &hir, last, common)
}

/// The number of the first of these rows whose pattern has other literals.
fn first_wrong(rt: &impl Abort, alloc: Global, rows: &[Row]) -> Option<usize> {
    for k in 0..rows.len() {
        if !is_told(rt, alloc, rows[k]) {
            return Some(k);
        }
    }
    None
}

#[test]
fn literals_of_patterns(rt: HostRuntime) {
    all_right(&rt, first_wrong(&rt, rt.alloc(), &ROWS));
}

/// Whether no look-around stands in the pattern.
fn is_free(rt: &impl Abort, alloc: Global, pattern: &str) -> bool {
    let hir = boxed(rt, alloc, parse(alloc, pattern).ok());
    is_look_free(&hir)
}

#[test]
fn look_free(rt: HostRuntime) {
    let alloc = rt.alloc();
    let free = (
        is_free(&rt, alloc, "[a-z]+Holmes"),
        is_free(&rt, alloc, "a$"),
    );
    assert!(rt; free == (true, false));
}

/// Whether literals were made, and are these.
fn are_made(alloc: Global, made: Result<Seq, Memory>, want: &[u8]) -> bool {
    match made {
        Ok(seq) => are_told(alloc, &seq, want),
        Err(_) => false,
    }
}

/// Whether these are the literals that may be found first, and those that may be found at all.
fn are_trimmed(alloc: Global, seq: Seq, first: &[u8], all: &[u8]) -> bool {
    are_made(alloc, seq.trimmed_for_all(alloc), all)
        && are_made(alloc, seq.trimmed_by_preference(alloc), first)
}

/// Whether these are the prefixes of the patterns that may be found first, and at all.
fn are_left(alloc: Global, patterns: &[&str], first: &[u8], all: &[u8]) -> bool {
    match parse_many(alloc, patterns) {
        Ok(hirs) => match prefixes_of(alloc, &hirs) {
            Ok(seq) => are_trimmed(alloc, seq, first, all),
            Err(_) => false,
        },
        Err(_) => false,
    }
}

#[test]
fn trimmed(rt: HostRuntime) {
    assert!(rt; are_left(rt.alloc(), &["b", "ba"], b"b ", b"b ba "));
}

/// `ab`, inexact, and `a`.
fn ab_and_a(alloc: Global) -> Result<Seq, Memory> {
    let mut literals = Vec::new(alloc);
    literals.push(Literal::inexact(Vec::from_slice(alloc, b"ab")?))?;
    literals.push(Literal::exact(Vec::from_slice(alloc, b"a")?))?;
    Ok(Seq::new(literals))
}

/// A copy of them, trimmed.
fn trimmed_copy(alloc: Global) -> Result<Seq, Memory> {
    ab_and_a(alloc)?.clone()?.trimmed_for_all(alloc)
}

/// More literals than a sequence may have.
fn too_many(alloc: Global) -> Result<Seq, Memory> {
    let literal = Literal::exact(Vec::from_slice(alloc, b"a")?);
    Ok(Seq::new(vec![in alloc; literal; 251]?))
}

#[test]
fn made(rt: HostRuntime) {
    let alloc = rt.alloc();
    assert!(rt; are_made(alloc, ab_and_a(alloc), b"ab* a "));
    assert!(rt; are_made(alloc, trimmed_copy(alloc), b"a ab* "));
    assert!(rt; are_made(alloc, too_many(alloc), b"-"));
}
