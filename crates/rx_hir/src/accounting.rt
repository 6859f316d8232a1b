//! What is accounted for an expression. A call goes as deep as the expression.
ghost use Rattle.std.specs.Prelude.{◌≡◌, ◌+◌, ◌*◌, ◌<◌, ◌≤◌};
ghost use Rattle.rx_model.specs.Text.{scalar_ranges};
ghost use Rattle.rx_class.specs.ClassViews.{class_view};
ghost use Rattle.rx_hir.specs.Cost.{states_of_part, states_of_range, states_of_ranges, states_of_class, states_of_copies, accounted_states, accounted_in, capped, cost_of};
ghost use Rattle.rx_hir.specs.HirViews.{kind_view};
ghost use Rattle.rx_hir.specs.Normal.{expressions};

use crate::hir::{Hir, HirKind};
use rx_class::Class;

/// The bytes that are accounted for a state.
pub const STATE_SIZE: u64 = 32;

/// What is accounted for an expression: 32 bytes for each state, or the greatest `u64` where it is more.
pub fn cost(hir: &Hir) -> u64
    ensures { result ≡ cost_of hir.now }
{
    let states = states(hir);
    STATE_SIZE.saturating_mul(states)
}

/// How many states are accounted for an expression, or the greatest `u64` where they are more.
#[cycle(states)]
pub fn states(hir: &Hir) -> u64
    ensures { result ≡ capped (accounted_states hir.now) }
{
    states_of_kind(hir.kind())
}

#[cycle(states)]
fn states_of_kind(kind: &HirKind) -> u64
    ensures { result ≡ capped (accounted_states (kind_view kind.now)) }
{
    match kind {
        HirKind::Empty => 1,
        HirKind::Literal(bytes) => bytes.len() as u64,
        HirKind::Class(class) => states_of_class(class),
        HirKind::Look(_) => 1,
        HirKind::Repetition(copies) => {
            states_of_copies(copies.min, copies.max, states(&copies.sub))
        }
        HirKind::Capture(capture) => states(&capture.sub).saturating_add(2),
        HirKind::Concat(subs) => states_in(subs),
        HirKind::Alternation(subs) => states_in(subs).saturating_add(1),
    }
}

#[cycle(states)]
fn states_in(subs: &[Hir]) -> u64
    ensures { result ≡ capped (accounted_in (expressions subs.now)) }
{
    let mut total: u64 = 0;
    for sub in subs {
        total = total.saturating_add(states(sub));
    }
    total
}

fn states_of_copies(least: u32, greatest: Option<u32>, body: u64) -> u64
    ensures { result ≡ capped (states_of_copies least greatest body) }
{
    match greatest {
        None if least == 0 => body.saturating_add(2),
        None => (least as u64).saturating_mul(body).saturating_add(1),
        Some(greatest) => {
            let options = u64::from(greatest.saturating_sub(least));
            u64::from(greatest)
                .saturating_mul(body)
                .saturating_add(options + 1)
        }
    }
}

fn states_of_class(class: &Class) -> u64
    ensures { result ≡ capped (states_of_class (class_view class.now)) }
{
    match class {
        Class::Unicode(scalars) => states_of_ranges(scalars.ranges()).saturating_add(1),
        Class::Bytes(_) => 1,
    }
}

fn states_of_ranges(ranges: &[(char, char)]) -> u64
    ensures { result ≡ capped (states_of_ranges ranges.now) }
{
    let mut total: u64 = 0;
    for (low, high) in ranges {
        total = total.saturating_add(states_of_range(*low, *high));
    }
    total
}

fn states_of_range(low: char, high: char) -> u64
    ensures { result ≡ states_of_range (low, high) }
{
    let low = low as u32;
    let high = high as u32;
    states_of_part(1, 0, 0x7F, low, high)
        + states_of_part(2, 0x80, 0x7FF, low, high)
        + states_of_part(3, 0x800, 0xD7FF, low, high)
        + states_of_part(3, 0xE000, 0xFFFF, low, high)
        + states_of_part(4, 0x1_0000, 0x10_FFFF, low, high)
}

/// The part of a range from `first` to `last`, where encodings have `len` bytes.
fn states_of_part(len: u64, first: u32, last: u32, low: u32, high: u32) -> u64
    requires some { 0 < len }
    requires few { len ≤ 4 }
    ensures value { result ≡ states_of_part len first last (low, high) }
    ensures few { result ≤ 28 }
{
    let low = low.max(first);
    let high = high.min(last);
    if high < low {
        0
    } else if low / 64 == high / 64 {
        len
    } else {
        len * (2 * len - 1)
    }
}
