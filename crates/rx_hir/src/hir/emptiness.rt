//! Which expressions can mean the empty string. A call goes as deep as the expression.
ghost use Rattle.std.specs.Prelude.{◌≡◌, ◌-◌, ◌<◌, ◌≤◌};
ghost use Rattle.rx_model.specs.Empty.{can_be_empty, all_can_be_empty, one_can_be_empty};
ghost use Rattle.rx_hir.specs.HirViews.{kind_view};
ghost use Rattle.rx_hir.specs.Normal.{expressions};

use super::{Hir, HirKind};

/// Whether the expression can mean the empty string, where each look-around in it counts as if it held.
#[cycle(emptiness)]
pub fn can_be_empty(hir: &Hir) -> bool
    ensures { result ≡ can_be_empty hir.now }
{
    kind_can_be_empty(hir.kind())
}

#[cycle(emptiness)]
fn kind_can_be_empty(kind: &HirKind) -> bool
    ensures { result ≡ can_be_empty (kind_view kind.now) }
{
    match kind {
        HirKind::Empty => true,
        HirKind::Literal(bytes) => bytes.is_empty(),
        HirKind::Class(_) => false,
        HirKind::Look(_) => true,
        HirKind::Repetition(repetition) => {
            if repetition.min == 0 {
                return true;
            }
            can_be_empty(&repetition.sub)
        }
        HirKind::Capture(capture) => can_be_empty(&capture.sub),
        HirKind::Concat(subs) => all_can_be_empty(subs),
        HirKind::Alternation(subs) => one_can_be_empty(subs),
    }
}

#[cycle(emptiness)]
fn all_can_be_empty(subs: &[Hir]) -> bool
    ensures { result ≡ all_can_be_empty (expressions subs.now) }
{
    for sub in subs {
        if !can_be_empty(sub) {
            return false;
        }
    }
    true
}

/// Whether one of the expressions can mean the empty string, in the same sense.
#[cycle(emptiness)]
pub fn one_can_be_empty(subs: &[Hir]) -> bool
    ensures { result ≡ one_can_be_empty (expressions subs.now) }
{
    for sub in subs {
        if can_be_empty(sub) {
            return true;
        }
    }
    false
}
