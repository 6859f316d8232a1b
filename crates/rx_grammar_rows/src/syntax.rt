//! Tests of translation. What patterns match is shown by `tests/`.

use crate::hir::{boxed, is_literal};
use rx_syntax::*;
use std::alloc::Global;
use std::process::Abort;

/// Whether these are the two literals `a` and `b`.
fn are_a_and_b(exprs: &[Hir]) -> bool {
    match exprs {
        [one, other] => is_literal(one, b"a") && is_literal(other, b"b"),
        _ => false,
    }
}

/// Whether the two patterns `a` and `b` are read.
fn are_both_read(alloc: Global) -> bool {
    match parse_many(alloc, &["a", "b"]) {
        Ok(both) => are_a_and_b(&both),
        Err(_) => false,
    }
}

/// Whether an expression is a choice of `a` and `b`.
fn is_choice(hir: &Hir) -> bool {
    match hir.kind() {
        HirKind::Alternation(subs) => are_a_and_b(subs),
        _ => false,
    }
}

/// Whether `a|b` is that choice.
fn is_choice_read(rt: &impl Abort, alloc: Global) -> bool {
    let hir = boxed(rt, alloc, parse(alloc, "a|b").ok());
    is_choice(&hir)
}

/// Whether the tree is translated to that choice.
fn is_translated(rt: &impl Abort, alloc: Global, tree: &Ast) -> bool {
    let hir = translate_with(alloc, tree, &Config::new()).ok();
    is_choice(&boxed(rt, alloc, hir))
}

/// Whether `a|b` is read, and then translated to that choice.
fn is_read_and_translated(rt: &impl Abort, alloc: Global) -> bool {
    let read = read_with(alloc, "a|b", &Config::new()).ok();
    let tree = read.expect(rt, "a tree");
    let is_translated = is_translated(rt, alloc, &tree);
    // (by a call, not part by part)
    drop(tree);
    is_translated
}

#[test]
fn patterns_are_read_and_translated(rt: HostRuntime) {
    let alloc = rt.alloc();
    let are_both_read = are_both_read(alloc);
    let is_choice_read = is_choice_read(&rt, alloc);
    assert!(rt; are_both_read && is_choice_read && is_read_and_translated(&rt, alloc));
}
