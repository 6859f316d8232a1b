//! When two expressions are one. A call goes as deep as the expression.
ghost use Rattle.std.specs.Prelude.{◌≡◌, ◌==◌, ◌&&◌, option_map, string_bytes};
ghost use Rattle.std.specs.Bool.{beq};
ghost use Rattle.std.specs.Int.NonZero.{non_zero_usize_get};
ghost use Rattle.rx_model.specs.Expression.{empty, literal, class, look, repetition, capture, concat, alternation};
ghost use Rattle.rx_class.specs.ClassViews.{class_view};
ghost use Rattle.rx_search.specs.Look.{kind_of};
ghost use Rattle.rx_hir.specs.Normal.{expressions};
ghost use Rattle.rx_hir.specs.Same.{is_same, are_same, same_class, same_count, same_name};

use super::{Capture, Hir, HirKind, Repetition};
use rx_class::Class;
use rx_search::{Look, LookSet};

impl PartialEq for Hir {
    ghost use Rattle.rx_hir.specs.Same.{is_same};
    ghost use Rattle.rx_hir.specs.SameLaws.{same-partial-equivalence};

    ghost eq = { is_same };

    ghost laws = { same-partial-equivalence };

    fn eq(&self, other: &Hir) -> bool {
        is_same(self, other)
    }
}

impl Eq for Hir {
    ghost use Rattle.rx_hir.specs.SameLaws.{same-equivalence};

    ghost laws = { same-equivalence };
}

#[cycle(equality)]
fn is_same(a: &Hir, b: &Hir) -> bool
    ensures { result ≡ is_same a.now b.now }
{
    match a.kind() {
        HirKind::Empty => is_empty(b),
        HirKind::Literal(bytes) => is_literal(bytes, b),
        HirKind::Class(class) => is_class(class, b),
        HirKind::Look(kind) => is_look(*kind, b),
        HirKind::Repetition(copies) => is_repetition(copies, b),
        HirKind::Capture(group) => is_capture(group, b),
        HirKind::Concat(subs) => is_concat(subs, b),
        HirKind::Alternation(subs) => is_alternation(subs, b),
    }
}

#[cycle(equality)]
fn is_repetition(copies: &Repetition, b: &Hir) -> bool
    ensures { result ≡ is_same (repetition copies.now.min copies.now.max copies.now.greedy copies.now.sub.value) b.now }
{
    match b.kind() {
        HirKind::Repetition(others) => {
            if !same_counts(copies, others) {
                return false;
            }
            is_same(&copies.sub, &others.sub)
        }
        _ => false,
    }
}

#[cycle(equality)]
fn is_capture(group: &Capture, b: &Hir) -> bool
    ensures { result ≡ is_same (capture (non_zero_usize_get group.now.index) (option_map string_bytes group.now.name) group.now.sub.value) b.now }
{
    match b.kind() {
        HirKind::Capture(other) => {
            if !same_group(group, other) {
                return false;
            }
            is_same(&group.sub, &other.sub)
        }
        _ => false,
    }
}

#[cycle(equality)]
fn is_concat(subs: &[Hir], b: &Hir) -> bool
    ensures { result ≡ is_same (concat (expressions subs.now)) b.now }
{
    match b.kind() {
        HirKind::Concat(others) => are_same(subs, others),
        _ => false,
    }
}

#[cycle(equality)]
fn is_alternation(subs: &[Hir], b: &Hir) -> bool
    ensures { result ≡ is_same (alternation (expressions subs.now)) b.now }
{
    match b.kind() {
        HirKind::Alternation(others) => are_same(subs, others),
        _ => false,
    }
}

#[cycle(equality)]
fn are_same(a: &[Hir], b: &[Hir]) -> bool
    ensures { result ≡ are_same (expressions a.now) (expressions b.now) }
{
    if a.len() != b.len() {
        return false;
    }
    for i in 0..a.len() {
        if !is_same(&a[i], &b[i]) {
            return false;
        }
    }
    true
}

fn is_empty(b: &Hir) -> bool
    ensures { result ≡ is_same empty b.now }
{
    match b.kind() {
        HirKind::Empty => true,
        _ => false,
    }
}

fn is_literal(bytes: &[u8], b: &Hir) -> bool
    ensures { result ≡ is_same (literal bytes.now) b.now }
{
    match b.kind() {
        HirKind::Literal(others) => bytes == others.as_slice(),
        _ => false,
    }
}

fn is_class(members: &Class, b: &Hir) -> bool
    ensures { result ≡ is_same (class (class_view members.now)) b.now }
{
    match b.kind() {
        HirKind::Class(other) => same_class(members, other),
        _ => false,
    }
}

fn is_look(kind: Look, b: &Hir) -> bool
    ensures { result ≡ is_same (look (kind_of kind)) b.now }
{
    match b.kind() {
        HirKind::Look(other) => LookSet::empty().insert(*other).contains(kind),
        _ => false,
    }
}

fn same_class(a: &Class, b: &Class) -> bool
    ensures { result ≡ same_class (class_view a.now) (class_view b.now) }
{
    match a {
        Class::Unicode(a) => match b {
            Class::Unicode(b) => a.ranges() == b.ranges(),
            Class::Bytes(_) => false,
        },
        Class::Bytes(a) => match b {
            Class::Unicode(_) => false,
            Class::Bytes(b) => a.ranges() == b.ranges(),
        },
    }
}

fn same_counts(a: &Repetition, b: &Repetition) -> bool
    ensures { result ≡ ((a.now.min == b.now.min) && (same_count a.now.max b.now.max && beq a.now.greedy b.now.greedy)) }
{
    a.min == b.min && a.max == b.max && a.greedy == b.greedy
}

fn same_group(a: &Capture, b: &Capture) -> bool
    ensures { result ≡ ((non_zero_usize_get a.now.index == non_zero_usize_get b.now.index)
        && same_name (option_map string_bytes a.now.name) (option_map string_bytes b.now.name)) }
{
    a.index.get() == b.index.get() && same_name(&a.name, &b.name)
}

fn same_name(a: &Option<String>, b: &Option<String>) -> bool
    ensures { result ≡ same_name (option_map string_bytes a.now) (option_map string_bytes b.now) }
{
    match a {
        None => b.is_none(),
        Some(a) => match b {
            None => false,
            Some(b) => a.as_str() == b.as_str(),
        },
    }
}
