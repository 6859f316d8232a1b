//! Literals in order.
ghost use Rattle.std.specs.Prelude.{◌≡◌, ◌≤◌, ◌&&◌, nat_lt, true, false, IsTrue, length, take, drop};
ghost use Rattle.std.specs.List.{list_all, list_any};
ghost use Rattle.rx_literal.specs.Order.{has_prefix_first, before, follows, InOrder};

use crate::lent::Lent;

/// An order of literals.
#[derive(Clone, Copy)]
pub enum Order {
    /// By their bytes, a prefix before what it begins.
    Bytes,
    /// By the first byte at which they differ. A prefix and what it begins have no order.
    Branches,
}

/// Whether the first bytes come before the second ones.
pub(crate) fn is_before(order: Order, first: &[u8], second: &[u8]) -> bool
    ensures { result ≡ before order first.now second.now }
{
    let mut i = 0;
    while i < first.len() && i < second.len() {
        if first[i] != second[i] {
            return first[i] < second[i];
        }
        i += 1;
    }
    is_prefix_before(order, first.len(), second.len())
}

/// Whether a prefix of so many bytes comes before what it begins.
fn is_prefix_before(order: Order, prefix_len: usize, len: usize) -> bool
    ensures { result ≡ (has_prefix_first order && nat_lt prefix_len len) }
{
    match order {
        Order::Bytes => prefix_len < len,
        Order::Branches => false,
    }
}

/// How many of the literals, which are in order, come before this one.
pub(crate) fn position(order: Order, literals: &[Lent<'_>], literal: &Lent<'_>) -> usize
    requires { InOrder order literals.now }
    ensures bound { result ≤ length literals.now }
    ensures before { list_all (follows order literal.now) (take result literals.now) ≡ true }
    ensures after { list_any (follows order literal.now) (drop result literals.now) ≡ false }
{
    if comes_last(order, literals, literal) {
        return literals.len();
    }
    let mut low = 0;
    let mut high = literals.len();
    while low < high {
        let middle = low + (high - low) / 2;
        if is_before(order, literals[middle].as_bytes(), literal.as_bytes()) {
            low = middle + 1;
        } else {
            high = middle;
        }
    }
    low
}

/// Whether there is a last one, and it comes before this one.
fn comes_last(order: Order, literals: &[Lent<'_>], literal: &Lent<'_>) -> bool
    requires { InOrder order literals.now }
    ensures { IsTrue result → list_all (follows order literal.now) literals.now ≡ true }
{
    let count = literals.len();
    if count == 0 {
        return false;
    }
    let last = &literals[count - 1];
    is_before(order, last.as_bytes(), literal.as_bytes())
}
