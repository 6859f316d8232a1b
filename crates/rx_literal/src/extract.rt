//! The literals of an expression. A call goes as deep as the expression.
ghost use Rattle.std.specs.Prelude.{◌≡◌, ◌∷◌, [], IfOk};
ghost use Rattle.rx_hir.specs.HirViews.{kind_view};
ghost use Rattle.rx_hir.specs.Normal.{expressions};
ghost use Rattle.rx_literal.specs.Literals.{exact, finite, cut, one_empty, union};
ghost use Rattle.rx_literal.specs.declared.side.Side.TheVariants.{Front as front, Back as back};
ghost use Rattle.rx_literal.specs.Extract.{literals, in_turn, of_one, prefixes, suffixes, prefixes_of};

use crate::literal::Literal;
use crate::members::class_literals;
use crate::repeated::repeated;
use crate::seq::Seq;
use crate::side::Side;
use rx_hir::{Hir, HirKind};
use rx_search::Memory;
use std::alloc::Global;

/// The literals that each match of the expression begins with, those of preferred matches first.
pub fn prefixes(alloc: Global, hir: &Hir) -> Result<Seq, Memory>
    ensures { IfOk result (λ s. s ≡ prefixes hir.now) }
{
    literals(alloc, Side::Front, hir)
}

/// The literals that each match of one of the expressions begins with, those of the first one first.
pub fn prefixes_of(alloc: Global, hirs: &[Hir]) -> Result<Seq, Memory>
    ensures { IfOk result (λ s. s ≡ prefixes_of hirs.now) }
{
    of_one(alloc, Side::Front, hirs)
}

/// The literals that each match of the expression ends with.
pub fn suffixes(alloc: Global, hir: &Hir) -> Result<Seq, Memory>
    ensures { IfOk result (λ s. s ≡ suffixes hir.now) }
{
    literals(alloc, Side::Back, hir)
}

#[cycle(literals)]
fn literals(alloc: Global, side: Side, hir: &Hir) -> Result<Seq, Memory>
    ensures { IfOk result (λ s. s ≡ literals side hir.now) }
{
    literals_of_kind(alloc, side, hir.kind())
}

#[cycle(literals)]
fn literals_of_kind(alloc: Global, side: Side, kind: &HirKind) -> Result<Seq, Memory>
    ensures { IfOk result (λ s. s ≡ literals side (kind_view kind.now)) }
{
    match kind {
        HirKind::Empty => Seq::one_empty(alloc),
        HirKind::Literal(bytes) => text(alloc, side, bytes),
        HirKind::Class(class) => class_literals(alloc, class),
        HirKind::Look(_) => Seq::one_empty(alloc),
        HirKind::Repetition(copies) => {
            let body = literals(alloc, side, &copies.sub)?;
            repeated(alloc, side, copies.min, copies.max, copies.greedy, body)
        }
        HirKind::Capture(capture) => literals(alloc, side, &capture.sub),
        HirKind::Concat(subs) => in_turn(alloc, side, subs),
        HirKind::Alternation(subs) => of_one(alloc, side, subs),
    }
}

/// One exact literal, but of more than 100 bytes only those at that side.
fn text(alloc: Global, side: Side, bytes: &[u8]) -> Result<Seq, Memory>
    ensures { IfOk result (λ s. s ≡ finite (cut side 100 (exact bytes.now) ∷ [])) }
{
    let mut literals = Vec::new(alloc);
    literals.push(Literal::cut(alloc, side, 100, bytes, true)?)?;
    Ok(Seq::finite(literals))
}

#[cycle(literals)]
fn in_turn(alloc: Global, side: Side, subs: &[Hir]) -> Result<Seq, Memory>
    ensures { IfOk result (λ s. s ≡ in_turn side one_empty (expressions subs.now)) }
{
    match side {
        Side::Front => from_the_front(alloc, subs),
        Side::Back => from_the_back(alloc, subs),
    }
}

#[cycle(literals)]
fn from_the_front(alloc: Global, subs: &[Hir]) -> Result<Seq, Memory>
    ensures { IfOk result (λ s. s ≡ in_turn front one_empty (expressions subs.now)) }
{
    let mut seq = Seq::one_empty(alloc)?;
    for sub in subs {
        if !seq.has_exact() {
            return Ok(seq);
        }
        let inner = literals(alloc, Side::Front, sub)?;
        seq = seq.crossed_with(alloc, Side::Front, inner)?;
    }
    Ok(seq)
}

#[cycle(literals)]
fn from_the_back(alloc: Global, subs: &[Hir]) -> Result<Seq, Memory>
    ensures { IfOk result (λ s. s ≡ in_turn back one_empty (expressions subs.now)) }
{
    let mut seq = Seq::one_empty(alloc)?;
    let mut i = subs.len();
    while i > 0 {
        if !seq.has_exact() {
            return Ok(seq);
        }
        i -= 1;
        let inner = literals(alloc, Side::Back, &subs[i])?;
        seq = seq.crossed_with(alloc, Side::Back, inner)?;
    }
    Ok(seq)
}

/// The literals of each, in order.
#[cycle(literals)]
fn of_one(alloc: Global, side: Side, subs: &[Hir]) -> Result<Seq, Memory>
    ensures { IfOk result (λ s. s ≡ of_one side (expressions subs.now)) }
{
    let mut seq = Seq::with_room(alloc, subs.len())?;
    for sub in subs {
        if !seq.is_finite() {
            return Ok(seq);
        }
        seq = with_literals(alloc, side, seq, sub)?;
    }
    Ok(seq)
}

/// The sequence, and then the literals of the expression. That of a text is added as it stands.
#[cycle(literals)]
fn with_literals(alloc: Global, side: Side, seq: Seq, hir: &Hir) -> Result<Seq, Memory>
    ensures { IfOk result (λ s. s ≡ union seq (literals side hir.now)) }
{
    let kind = hir.kind();
    if let HirKind::Literal(bytes) = kind {
        return seq.with(Literal::cut(alloc, side, 100, bytes, true)?);
    }
    let more = literals_of_kind(alloc, side, kind)?;
    seq.union(more)
}
