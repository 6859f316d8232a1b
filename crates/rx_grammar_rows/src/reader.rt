//! What the tree of a pattern says.

use rx_reader::{Ast, AstKind, Atom, Config, GroupKind, Item, read};
use std::alloc::Global;
use std::process::Abort;
use std::str;

/// How many characters the name of this group has, if it is one with a name.
fn name_len(part: &Ast) -> Option<usize> {
    match part.kind() {
        AstKind::Group {
            kind: GroupKind::CaptureName { name, .. },
            ..
        } => Some(name.as_slice().len()),
        _ => None,
    }
}

/// How many items this class has, if it is one in brackets.
fn item_count(part: &Ast) -> Option<usize> {
    match part.kind() {
        AstKind::Atom {
            atom: Atom::Bracketed { items, .. },
            ..
        } => Some(items.as_slice().len()),
        _ => None,
    }
}

/// How many parts there are; how long the name of the first one is, and how many items it has.
type Shape = (usize, Option<usize>, Option<usize>);

/// The shape of a branch.
fn shape(parts: &[Item]) -> Shape {
    match parts {
        [Item::One(first), ..] => (parts.len(), name_len(first), item_count(first)),
        _ => (parts.len(), None, None),
    }
}

/// The depth of a tree, and the shape of its branch, where it has one alone.
type Tree = (u32, Option<Shape>);

fn told_of_tree(tree: &Ast) -> Tree {
    match tree.kind() {
        AstKind::Branch(items) => (tree.depth(), Some(shape(items))),
        _ => (tree.depth(), None),
    }
}

/// The same of the tree of a pattern.
fn told(rt: &impl Abort, alloc: Global, pattern: &str) -> Tree {
    let read = read(alloc, pattern, &Config::new()).ok();
    let tree = read.expect(rt, "a tree");
    let told = told_of_tree(&tree);
    // (by a call, not part by part)
    drop(tree);
    told
}

/// The same of a text of so many letters.
fn told_of_letters(rt: &impl Abort, alloc: Global, count: usize) -> Tree {
    let bytes = vec![in alloc; b'a'; count].ok().expect(rt, "memory");
    told(rt, alloc, str::from_utf8(&bytes).unwrap_or(""))
}

#[test]
fn characters_that_stand_side_by_side_are_one_part(rt: HostRuntime) {
    let told = told_of_letters(&rt, rt.alloc(), 1048576);
    assert!(rt; told == (0, Some((1, None, None))));
}

#[test]
fn a_tree_tells_its_parts(rt: HostRuntime) {
    let named = told(&rt, rt.alloc(), "(?<ab>c)");
    let class = told(&rt, rt.alloc(), r"[d-f\s]");
    let wanted = ((1, Some((1, Some(2), None))), (0, Some((1, None, Some(2)))));
    assert!(rt; (named, class) == wanted);
}

#[test]
fn a_tree_tells_its_depth(rt: HostRuntime) {
    let (depth, _) = told(&rt, rt.alloc(), "(?x) (?<a.b> a {2} ? ) # )");
    assert_eq!(rt; depth, 2);
}
