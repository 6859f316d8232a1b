//! Expressions of one length.
ghost use Rattle.std.specs.Prelude.{◌≡◌};
ghost use Rattle.rx_order.specs.Tests.{has_fixed_length};

use rx_hir::Hir;

/// Whether all that the expression matches has one length: its least and its greatest length are known, and equal.
pub fn hir_has_fixed_length(hir: &Hir) -> bool
    ensures { result ≡ has_fixed_length hir.now }
{
    match (hir.minimum_len(), hir.maximum_len()) {
        (Some(least), Some(greatest)) => least == greatest,
        _ => false,
    }
}
