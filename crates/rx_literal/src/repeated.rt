//! The literals of a repetition, by those of its body.
ghost use Rattle.std.specs.Prelude.{◌≡◌, ◌<◌, IfOk, Some, if◌then◌else◌};
ghost use Rattle.rx_literal.specs.Literals.{one_empty, loosened, cross_times};
ghost use Rattle.rx_literal.specs.Extract.{with_empty, at_most_one, copies, repeated};

use crate::seq::Seq;
use crate::side::Side;
use rx_search::Memory;
use std::alloc::Global;

/// The most copies whose literals are crossed.
const MOST_COPIES: u32 = 10;

/// The literals of `min` to `max` copies of a body with these literals.
#[tactic(auto, unfolding(crate::specs::Extract::repeated))]
pub(crate) fn repeated(
    alloc: Global,
    side: Side,
    min: u32,
    max: Option<u32>,
    greedy: bool,
    body: Seq,
) -> Result<Seq, Memory>
    ensures { IfOk result (λ s. s ≡ repeated side min max greedy body) }
{
    if min == 0 {
        return with_empty(alloc, greedy, exact_once(max, body));
    }
    match max {
        Some(max) => copies(alloc, side, min, max, body),
        None => Ok(body.loosened()),
    }
}

/// The literals of the body, inexact unless the greatest count is one.
fn exact_once(max: Option<u32>, body: Seq) -> Seq
    ensures { result ≡ (if at_most_one max then body else loosened body) }
{
    match max {
        Some(1) => body,
        _ => body.loosened(),
    }
}

/// The literals and the empty one, which comes last where more copies are preferred, and else first.
fn with_empty(alloc: Global, greedy: bool, body: Seq) -> Result<Seq, Memory>
    ensures { IfOk result (λ s. s ≡ with_empty greedy body) }
{
    let empty = Seq::one_empty(alloc)?;
    if greedy {
        body.union(empty)
    } else {
        empty.union(body)
    }
}

/// The literals of `min` copies, but no more than 10, inexact unless these are all.
#[tactic(auto, unfolding(crate::specs::Extract::copies))]
fn copies(alloc: Global, side: Side, min: u32, max: u32, body: Seq) -> Result<Seq, Memory>
    ensures { IfOk result (λ s. s ≡ copies side min max body) }
{
    let some = crossed(alloc, side, min.min(MOST_COPIES), &body)?;
    if min == max && min <= MOST_COPIES {
        return Ok(some);
    }
    Ok(some.loosened())
}

/// The literals of so many copies.
fn crossed(alloc: Global, side: Side, count: u32, body: &Seq) -> Result<Seq, Memory>
    ensures { IfOk result (λ s. s ≡ cross_times side count one_empty body.now) }
{
    let mut seq = Seq::one_empty(alloc)?;
    for _copy in 0..count {
        if !seq.has_exact() {
            return Ok(seq);
        }
        seq = seq.cross(alloc, side, body)?;
    }
    Ok(seq)
}
