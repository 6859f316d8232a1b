//! Whether patterns begin with the start of the text.
ghost use Rattle.std.specs.Prelude.{◌≡◌};
ghost use Rattle.rx_model.specs.Look.{start_text};
ghost use Rattle.rx_hir.specs.Properties.{looks_first};
ghost use Rattle.rx_nfa.specs.Compiled.{all_start_anchored};

use rx_hir::{Hir, Look};

/// Whether each of the expressions begins with the start of the text.
pub fn all_start_anchored(exprs: &[Hir]) -> bool
    ensures { result ≡ all_start_anchored exprs.now }
{
    for hir in exprs {
        if !is_start_anchored(hir) {
            return false;
        }
    }
    true
}

/// Whether the expression begins with the start of the text.
fn is_start_anchored(hir: &Hir) -> bool
    ensures { result ≡ looks_first start_text hir.now }
{
    hir.properties().look_set_prefix().contains(Look::Start)
}
