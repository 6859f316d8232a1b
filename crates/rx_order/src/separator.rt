//! Parts of an expression that separate what is before them from what is after them. A call goes as deep as the
//! expression.
ghost use Rattle.std.specs.Prelude.{◌≡◌, ◌<◌, ◌||◌, ◌&&◌, not, length, map, option_map};
ghost use Rattle.std.specs.Vec.{vec_items};
ghost use Rattle.rx_model.specs.Expression.{concat};
ghost use Rattle.rx_model.specs.Text.{scalar_ranges, byte_ranges};
ghost use Rattle.rx_class.specs.ClassViews.{class_view};
ghost use Rattle.rx_hir.specs.HirViews.{kind_view};
ghost use Rattle.rx_hir.specs.Normal.{expressions, is_zero};
ghost use Rattle.rx_hir.specs.Length.{maximum_len};
ghost use Rattle.rx_order.specs.Tests.{are_apart, literal_is_apart, is_apart, all_apart, plain_class, separator_class};
ghost use Rattle.rx_order.specs.Tests.{literals_are_apart, has_last_separator, has_first_separator};
ghost use Rattle.rx_order.specs.Places.{IsLastConsuming, IsFirstConsuming, separates_at};

use crate::members::{bytes_are_disjoint, has_no_byte, is_text_without, scalars_are_disjoint};
use rx_hir::{Class, ClassBytes, ClassUnicode, Hir, HirKind};

/// Whether the last or the first consuming part of the expression is a class, or at least one copy of a class, that
/// shares no member with any other part or with one of the literals. The expression, without captures around it, has
/// two parts or more. An empty literal shares no member.
pub fn has_disjoint_class_separator(prefix: &Hir, literals: &[Vec<u8>]) -> bool
    ensures { result ≡ (has_last_separator prefix.now (map vec_items literals.now) || has_first_separator prefix.now (map vec_items literals.now)) }
{
    match prefix.kind() {
        HirKind::Capture(capture) => has_disjoint_class_separator(&capture.sub, literals),
        HirKind::Concat(parts) => one_separates(parts, literals),
        HirKind::Empty => false,
        HirKind::Literal(_) => false,
        HirKind::Class(_) => false,
        HirKind::Look(_) => false,
        HirKind::Repetition(_) => false,
        HirKind::Alternation(_) => false,
    }
}

fn one_separates(parts: &[Hir], literals: &[Vec<u8>]) -> bool
    ensures { result ≡ (has_last_separator (concat (expressions parts.now)) (map vec_items literals.now)
        || has_first_separator (concat (expressions parts.now)) (map vec_items literals.now)) }
{
    if parts.len() < 2 {
        return false;
    }
    if last_separates(parts, literals) {
        return true;
    }
    first_separates(parts, literals)
}

fn last_separates(parts: &[Hir], literals: &[Vec<u8>]) -> bool
    requires { 1 < length parts.now }
    ensures { result ≡ has_last_separator (concat (expressions parts.now)) (map vec_items literals.now) }
{
    match last_consuming(parts) {
        Some(at) => separates_at(at, parts, literals),
        None => false,
    }
}

fn first_separates(parts: &[Hir], literals: &[Vec<u8>]) -> bool
    requires { 1 < length parts.now }
    ensures { result ≡ has_first_separator (concat (expressions parts.now)) (map vec_items literals.now) }
{
    match first_consuming(parts) {
        Some(at) => separates_at(at, parts, literals),
        None => false,
    }
}

/// The place of the last consuming part.
fn last_consuming(parts: &[Hir]) -> Option<usize>
    ensures { IsLastConsuming parts.now result }
{
    let mut i = parts.len();
    while i > 0 {
        i -= 1;
        if is_consuming(&parts[i]) {
            return Some(i);
        }
    }
    None
}

/// The place of the first consuming part.
fn first_consuming(parts: &[Hir]) -> Option<usize>
    ensures { IsFirstConsuming parts.now result }
{
    let mut i = 0;
    while i < parts.len() {
        if is_consuming(&parts[i]) {
            return Some(i);
        }
        i += 1;
    }
    None
}

/// Whether the greatest length of the expression isn't 0.
fn is_consuming(hir: &Hir) -> bool
    ensures { result ≡ not (is_zero (maximum_len hir.now)) }
{
    match hir.maximum_len() {
        Some(n) => n > 0,
        None => true,
    }
}

/// Whether the part at this place is a class that shares no member with the other parts and the literals.
fn separates_at(at: usize, parts: &[Hir], literals: &[Vec<u8>]) -> bool
    requires { at < length parts.now }
    ensures { result ≡ separates_at at parts.now (map vec_items literals.now) }
{
    match separator_class(&parts[at]) {
        Some(class) => is_apart_from(class, &parts[..at], &parts[at + 1..], literals),
        None => false,
    }
}

fn is_apart_from(class: &Class, before: &[Hir], after: &[Hir], literals: &[Vec<u8>]) -> bool
    ensures { result ≡ ((all_apart (class_view class.now) (expressions before.now) && all_apart (class_view class.now) (expressions after.now))
        && literals_are_apart (class_view class.now) (map vec_items literals.now)) }
{
    if !all_apart(class, before) {
        return false;
    }
    if !all_apart(class, after) {
        return false;
    }
    literals_are_apart(class, literals)
}

/// The class that the expression is, or of which it is one copy at least, but for captures.
fn separator_class(hir: &Hir) -> Option<&Class>
    ensures { option_map (λ r. class_view r.now) result ≡ separator_class hir.now }
{
    match hir.kind() {
        HirKind::Class(class) => Some(class),
        HirKind::Repetition(copies) => {
            if copies.min == 0 {
                return None;
            }
            plain_class(&copies.sub)
        }
        HirKind::Capture(capture) => separator_class(&capture.sub),
        HirKind::Empty => None,
        HirKind::Literal(_) => None,
        HirKind::Look(_) => None,
        HirKind::Concat(_) => None,
        HirKind::Alternation(_) => None,
    }
}

/// The class that the expression is, but for captures.
fn plain_class(hir: &Hir) -> Option<&Class>
    ensures { option_map (λ r. class_view r.now) result ≡ plain_class hir.now }
{
    match hir.kind() {
        HirKind::Class(class) => Some(class),
        HirKind::Capture(capture) => plain_class(&capture.sub),
        HirKind::Empty => None,
        HirKind::Literal(_) => None,
        HirKind::Look(_) => None,
        HirKind::Repetition(_) => None,
        HirKind::Concat(_) => None,
        HirKind::Alternation(_) => None,
    }
}

/// Whether no class or literal of the expression shares a member with the class.
#[cycle(apart)]
fn is_apart(class: &Class, hir: &Hir) -> bool
    ensures { result ≡ is_apart (class_view class.now) hir.now }
{
    kind_is_apart(class, hir.kind())
}

#[cycle(apart)]
fn kind_is_apart(class: &Class, kind: &HirKind) -> bool
    ensures { result ≡ is_apart (class_view class.now) (kind_view kind.now) }
{
    match kind {
        HirKind::Empty => true,
        HirKind::Literal(bytes) => literal_is_apart(class, bytes),
        HirKind::Class(members) => are_apart(class, members),
        HirKind::Look(_) => true,
        HirKind::Repetition(copies) => is_apart(class, &copies.sub),
        HirKind::Capture(capture) => is_apart(class, &capture.sub),
        HirKind::Concat(subs) => all_apart(class, subs),
        HirKind::Alternation(subs) => all_apart(class, subs),
    }
}

#[cycle(apart)]
fn all_apart(class: &Class, subs: &[Hir]) -> bool
    ensures { result ≡ all_apart (class_view class.now) (expressions subs.now) }
{
    for sub in subs {
        if !is_apart(class, sub) {
            return false;
        }
    }
    true
}

fn literals_are_apart(class: &Class, literals: &[Vec<u8>]) -> bool
    ensures { result ≡ literals_are_apart (class_view class.now) (map vec_items literals.now) }
{
    for literal in literals {
        if !literal_is_apart(class, literal) {
            return false;
        }
    }
    true
}

/// A class of scalars is apart from a literal only where that is UTF-8.
fn literal_is_apart(class: &Class, literal: &[u8]) -> bool
    ensures { result ≡ literal_is_apart (class_view class.now) literal.now }
{
    match class {
        Class::Unicode(scalars) => is_text_without(scalars.ranges(), literal),
        Class::Bytes(bytes) => has_no_byte(bytes.ranges(), literal),
    }
}

/// Whether the classes share no member. Those of scalars and of bytes may.
fn are_apart(class: &Class, members: &Class) -> bool
    ensures { result ≡ are_apart (class_view class.now) (class_view members.now) }
{
    match class {
        Class::Unicode(scalars) => scalars_are_apart(scalars, members),
        Class::Bytes(bytes) => bytes_are_apart(bytes, members),
    }
}

fn scalars_are_apart(scalars: &ClassUnicode, members: &Class) -> bool
    ensures { result ≡ are_apart (scalar_ranges scalars.now) (class_view members.now) }
{
    match members {
        Class::Unicode(others) => scalars_are_disjoint(scalars.ranges(), others.ranges()),
        Class::Bytes(_) => false,
    }
}

fn bytes_are_apart(bytes: &ClassBytes, members: &Class) -> bool
    ensures { result ≡ are_apart (byte_ranges bytes.now) (class_view members.now) }
{
    match members {
        Class::Unicode(_) => false,
        Class::Bytes(others) => bytes_are_disjoint(bytes.ranges(), others.ranges()),
    }
}
