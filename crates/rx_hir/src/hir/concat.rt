//! Concatenations.
ghost use Rattle.std.specs.Prelude.{◌≡◌, ◌<◌, false, List, length, IfOk};
ghost use Rattle.rx_model.specs.Expression.{Expression, literal, concat};
ghost use Rattle.rx_hir.specs.Joined.{and_then, and_then_all, with_bytes};
ghost use Rattle.rx_hir.specs.Normal.{expressions, parts_of, sequence_of, concat_of};
ghost use Rattle.rx_hir.specs.Properties.{is_literal};
ghost use Rattle.rx_hir.specs.PropertiesViews.{AreOf};
ghost use Rattle.rx_hir.specs.Rows.{Holds};
ghost use Rattle.rx_hir.specs.Sound.{AreSound};

use super::properties::Properties;
use super::{Hir, HirKind};
use rx_search::Memory;
use std::alloc::Global;

impl Hir {
    /// These, one after another. A concatenation among them stands for its parts, the empty expression for
    /// none, and adjacent literals are one. Of no parts this is the empty expression, of one it is that part.
    ///
    /// # Errors
    ///
    /// `Memory`, where there was no memory for the parts.
    pub fn concat(alloc: Global, subs: Vec<Hir>) -> Result<Hir, Memory>
        ensures { IfOk result (λ h. h ≡ concat_of subs.items) }
    {
        let mut row = Row {
            parts: Vec::new(alloc),
            bytes: Vec::new(alloc),
        };
        for sub in subs {
            row = with_parts(alloc, row, sub)?;
        }
        Ok(sequence(all_parts(row)?))
    }
}

/// Parts in a row. The bytes of a literal at the end stand apart as long as more may follow, so that each literal
/// is looked through once, of however many it is joined.
#[derive(Drop)]
struct Row {
    parts: Vec<Hir>,
    bytes: Vec<u8>,
}

/// The row with what an expression gives to the concatenation around it.
fn with_parts(alloc: Global, row: Row, sub: Hir) -> Result<Row, Memory>
    ensures { (hs : List Expression) → Holds row hs → IfOk result (λ r. Holds r (and_then_all hs (parts_of sub))) }
{
    let properties = sub.properties;
    match sub.kind {
        HirKind::Empty => Ok(row),
        HirKind::Concat(subs) => with_all(alloc, row, subs),
        kind => with_part(alloc, row, Hir { kind, properties }),
    }
}

fn with_all(alloc: Global, row: Row, subs: Vec<Hir>) -> Result<Row, Memory>
    ensures { (hs : List Expression) → Holds row hs → IfOk result (λ r. Holds r (and_then_all hs subs.items)) }
{
    let mut row = row;
    for sub in subs {
        row = with_part(alloc, row, sub)?;
    }
    Ok(row)
}

/// The row with one part more, joined with the last where both are literals.
fn with_part(alloc: Global, row: Row, part: Hir) -> Result<Row, Memory>
    ensures { (hs : List Expression) → Holds row hs → IfOk result (λ r. Holds r (and_then hs part)) }
{
    let properties = part.properties;
    match part.kind {
        HirKind::Literal(bytes) => with_bytes(row, &bytes),
        kind => with_other(alloc, row, Hir { kind, properties }),
    }
}

fn with_bytes(row: Row, more: &[u8]) -> Result<Row, Memory>
    requires { 0 < length more.now }
    ensures { (hs : List Expression) → Holds row hs → IfOk result (λ r. Holds r (and_then hs (literal more.now))) }
{
    let mut row = row;
    row.bytes.extend_from_slice(more)?;
    Ok(row)
}

fn with_other(alloc: Global, row: Row, part: Hir) -> Result<Row, Memory>
    requires { is_literal part ≡ false }
    ensures { (hs : List Expression) → Holds row hs → IfOk result (λ r. Holds r (and_then hs part)) }
{
    let mut parts = all_parts(row)?;
    parts.push(part)?;
    let bytes = Vec::new(alloc);
    Ok(Row { parts, bytes })
}

/// The parts of the row, with the literal of its bytes.
fn all_parts(row: Row) -> Result<Vec<Hir>, Memory>
    ensures { IfOk result (λ v. v.items ≡ with_bytes row.parts.items row.bytes.items) }
{
    let mut parts = row.parts;
    if row.bytes.is_empty() {
        return Ok(parts);
    }
    parts.push(bytes_in_row(row.bytes))?;
    Ok(parts)
}

/// The literal of these bytes, of which there is one at least.
pub(super) fn bytes_in_row(bytes: Vec<u8>) -> Hir
    requires { 0 < length bytes.items }
    ensures { result ≡ literal bytes.items }
{
    let properties = Properties::of_literal(&bytes);
    Hir {
        kind: HirKind::Literal(bytes),
        properties,
    }
}

fn sequence(parts: Vec<Hir>) -> Hir
    ensures { result ≡ sequence_of parts.items }
{
    let mut parts = parts;
    if parts.len() > 1 {
        return in_row(parts);
    }
    match parts.pop() {
        Some(only) => only,
        None => Hir::empty(),
    }
}

fn in_row(parts: Vec<Hir>) -> Hir
    ensures { result ≡ concat (expressions parts.items) }
{
    let properties = properties_in_row(&parts);
    Hir {
        kind: HirKind::Concat(parts),
        properties,
    }
}

fn properties_in_row(parts: &[Hir]) -> Properties
    ensures value { AreOf (concat (expressions parts.now)) result }
    ensures sound { AreSound (expressions parts.now) }
{
    let mut properties = Properties::of_empty();
    let mut i = parts.len();
    while i > 0 {
        i -= 1;
        let part = &parts[i];
        properties = part.properties.then(properties);
    }
    properties
}
