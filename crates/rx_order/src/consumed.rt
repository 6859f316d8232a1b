//! The bytes that an expression can consume. A call goes as deep as the expression.
ghost use Rattle.std.specs.Prelude.{◌≡◌, not, nat_eq};
ghost use Rattle.std.specs.List.{list_any};
ghost use Rattle.rx_class.specs.ClassViews.{class_view};
ghost use Rattle.rx_hir.specs.HirViews.{kind_view};
ghost use Rattle.rx_hir.specs.Normal.{expressions};
ghost use Rattle.rx_order.specs.Tests.{class_has_byte, can_consume, one_can_consume, cannot_consume_all};

use crate::members::{has_byte as has_member, has_scalar};
use rx_hir::{Class, Hir, HirKind};

/// Whether the expression can consume each byte of the literal, as its literals and classes alone tell. It is looked
/// through once for each of these bytes.
pub fn hir_can_contain_literal(hir: &Hir, literal: &[u8]) -> bool
    ensures { result ≡ not (cannot_consume_all hir.now literal.now) }
{
    for byte in literal {
        if !can_consume(*byte, hir) {
            return false;
        }
    }
    true
}

#[cycle(consume)]
fn can_consume(byte: u8, hir: &Hir) -> bool
    ensures { result ≡ can_consume byte hir.now }
{
    kind_can_consume(byte, hir.kind())
}

#[cycle(consume)]
fn kind_can_consume(byte: u8, kind: &HirKind) -> bool
    ensures { result ≡ can_consume byte (kind_view kind.now) }
{
    match kind {
        HirKind::Empty => false,
        HirKind::Literal(bytes) => has_byte(byte, bytes),
        HirKind::Class(class) => class_has_byte(byte, class),
        HirKind::Look(_) => false,
        HirKind::Repetition(copies) => can_consume(byte, &copies.sub),
        HirKind::Capture(capture) => can_consume(byte, &capture.sub),
        HirKind::Concat(subs) => one_can_consume(byte, subs),
        HirKind::Alternation(subs) => one_can_consume(byte, subs),
    }
}

#[cycle(consume)]
fn one_can_consume(byte: u8, subs: &[Hir]) -> bool
    ensures { result ≡ one_can_consume byte (expressions subs.now) }
{
    for sub in subs {
        if can_consume(byte, sub) {
            return true;
        }
    }
    false
}

fn has_byte(byte: u8, bytes: &[u8]) -> bool
    ensures { result ≡ list_any (nat_eq byte) bytes.now }
{
    for one in bytes {
        if *one == byte {
            return true;
        }
    }
    false
}

/// A class of scalars counts as one that has each byte above 7F.
fn class_has_byte(byte: u8, class: &Class) -> bool
    ensures { result ≡ class_has_byte byte (class_view class.now) }
{
    match class {
        Class::Unicode(scalars) => byte > 0x7F || has_scalar(scalars.ranges(), char::from(byte)),
        Class::Bytes(bytes) => has_member(bytes.ranges(), byte),
    }
}
