//! Expressions without the literal that ends them. A call goes as deep as the expression.
ghost use Rattle.std.specs.Prelude.{◌≡◌, ◌≤◌, ◌<◌, ◌-◌, ◌∷◌, [], Some, length, take, option_map, is_some, true, IfOk, IfSome};
ghost use Rattle.rx_hir.specs.HirViews.{kind_view};
ghost use Rattle.rx_hir.specs.Normal.{expressions, concat_of, repetition_of};
ghost use Rattle.rx_hir.specs.Sound.{IsSound};
ghost use Rattle.rx_order.specs.Order.{IsThenLiteral};
ghost use Rattle.rx_order.specs.Strip.{strip_bytes, strip_copies, strip, strip_row, strip_literal_suffix, one_less};
ghost use Rattle.rx_order.specs.Left.{IsLeft, whole};

use rx_hir::{Hir, HirKind, Repetition};
use rx_search::Memory;
use std::alloc::Global;

/// The expression without the suffix that ends it: the expression means what is left and then the suffix. None where
/// that is not known of literals, captures, concatenations and the copies that a repetition has for sure.
///
/// # Errors
///
/// `Memory`, where there was no memory for what is left.
pub fn strip_literal_suffix(alloc: Global, hir: &Hir, suffix: &[u8]) -> Result<Option<Hir>, Memory>
    ensures value { IfOk result (λ rest. rest ≡ strip_literal_suffix hir.now suffix.now) }
    ensures meaning { IfOk result (λ rest. IfSome rest (λ x. IsThenLiteral hir.now x suffix.now)) }
{
    // That its counts are in order is what this call ensures.
    let _kind = hir.kind();
    let stripped = strip(alloc, hir, suffix)?;
    match stripped {
        Some(left) => Ok(whole(left)),
        None => Ok(None),
    }
}

/// What is left of an expression, and how many of the suffix's first bytes. Where there are such bytes, the expression
/// is used up.
#[derive(Drop)]
pub(crate) struct Left {
    rest: Hir,
    count: usize,
}

fn whole(left: Left) -> Option<Hir>
    ensures { result ≡ whole left.rest left.count }
{
    if left.count == 0 {
        Some(left.rest)
    } else {
        None
    }
}

#[cycle(strip)]
fn strip(alloc: Global, hir: &Hir, suffix: &[u8]) -> Result<Option<Left>, Memory>
    ensures { IfOk result (IsLeft suffix.now (strip hir.now suffix.now)) }
{
    if suffix.is_empty() {
        let rest = hir.clone()?;
        return Ok(Some(Left { rest, count: 0 }));
    }
    strip_kind(alloc, hir.kind(), suffix)
}

#[cycle(strip)]
fn strip_kind(alloc: Global, kind: &HirKind, suffix: &[u8]) -> Result<Option<Left>, Memory>
    requires some { 0 < length suffix.now }
    requires sound { IsSound (kind_view kind.now) }
    ensures { IfOk result (IsLeft suffix.now (strip (kind_view kind.now) suffix.now)) }
{
    match kind {
        HirKind::Empty => Ok(None),
        HirKind::Literal(bytes) => strip_bytes(alloc, bytes, suffix),
        HirKind::Class(_) => Ok(None),
        HirKind::Look(_) => Ok(None),
        HirKind::Repetition(copies) => strip_copies(alloc, copies, suffix),
        HirKind::Capture(capture) => strip(alloc, &capture.sub, suffix),
        HirKind::Concat(parts) => strip_row(alloc, parts, suffix),
        HirKind::Alternation(_) => Ok(None),
    }
}

fn strip_bytes(alloc: Global, bytes: &[u8], suffix: &[u8]) -> Result<Option<Left>, Memory>
    ensures { IfOk result (IsLeft suffix.now (strip_bytes bytes.now suffix.now)) }
{
    if bytes.ends_with(suffix) {
        let rest = Vec::from_slice(alloc, &bytes[..bytes.len() - suffix.len()])?;
        return Ok(Some(Left {
            rest: Hir::literal(rest),
            count: 0,
        }));
    }
    if bytes.is_empty() {
        return Ok(None);
    }
    if suffix.ends_with(bytes) {
        return Ok(Some(Left {
            rest: Hir::empty(),
            count: suffix.len() - bytes.len(),
        }));
    }
    Ok(None)
}

/// One copy after another gives up its end, while the least number of copies is above 0.
#[cycle(strip)]
fn strip_copies(alloc: Global, copies: &Repetition, suffix: &[u8]) -> Result<Option<Left>, Memory>
    requires some { 0 < length suffix.now }
    requires ordered { IfSome copies.now.max (λ m. copies.now.min ≤ m) }
    ensures { IfOk result (IsLeft suffix.now (strip_copies (strip copies.now.sub.value) copies.now.min copies.now.max
        copies.now.greedy copies.now.sub.value suffix.now)) }
{
    let mut min = copies.min;
    let mut max = copies.max;
    let mut count = suffix.len();
    while min > 0 {
        let front = &suffix[..count];
        let stripped = strip(alloc, &copies.sub, front)?;
        let Some(last) = stripped else {
            return Ok(None);
        };
        min -= 1;
        max = one_less(max);
        if last.count == 0 {
            return fewer_copies(alloc, copies, min, max, last.rest);
        }
        count = count_left(last);
    }
    Ok(None)
}

fn count_left(left: Left) -> usize
    ensures { result ≡ left.count }
{
    left.count
}

fn one_less(max: Option<u32>) -> Option<u32>
    requires { IfSome max (λ m. 0 < m) }
    ensures { result ≡ one_less max }
{
    match max {
        Some(m) => Some(m - 1),
        None => None,
    }
}

/// The copies that are still whole, and then what is left of the last one.
fn fewer_copies(
    alloc: Global,
    copies: &Repetition,
    min: u32,
    max: Option<u32>,
    last: Hir,
) -> Result<Option<Left>, Memory>
    requires { IfSome max (λ m. min ≤ m) }
    ensures { IfOk result (λ o. IfSome o (λ left.
        (left.rest ≡ concat_of (repetition_of min max copies.now.greedy copies.now.sub.value ∷ last ∷ [])) × (left.count ≡ 0)) × (is_some o ≡ true)) }
{
    let before = Hir::repetition(Repetition {
        min,
        max,
        greedy: copies.greedy,
        sub: Box::new(alloc, (*copies.sub).clone()?)?,
    });
    let mut parts = Vec::with_capacity(alloc, 2)?;
    parts.push(before)?;
    parts.push(last)?;
    Ok(Some(Left {
        rest: Hir::concat(alloc, parts)?,
        count: 0,
    }))
}

/// The parts, from the right.
#[cycle(strip)]
fn strip_row(alloc: Global, parts: &[Hir], suffix: &[u8]) -> Result<Option<Left>, Memory>
    ensures { IfOk result (IsLeft suffix.now (option_map (λ left. (concat_of left.0, left.1)) (strip_row (expressions parts.now) suffix.now))) }
{
    let mut left = Vec::with_capacity(alloc, parts.len())?;
    let mut count = suffix.len();
    let mut i = parts.len();
    while i > 0 {
        i -= 1;
        let front = &suffix[..count];
        let stripped = strip(alloc, &parts[i], front)?;
        let Some(part) = stripped else {
            return Ok(None);
        };
        left.push(part.rest)?;
        count = part.count;
    }
    left.reverse();
    Ok(Some(Left {
        rest: Hir::concat(alloc, left)?,
        count,
    }))
}
