//! Which expressions are without look-around. A call goes as deep as the expression.
ghost use Rattle.std.specs.Prelude.{◌≡◌, ◌↔◌, ◌-◌, ◌<◌, ◌≤◌, true, false, IsTrue};
ghost use Rattle.rx_model.specs.Expression.{class};
ghost use Rattle.rx_model.specs.Look as model;
ghost use Rattle.rx_class.specs.ClassViews.{class_view};
ghost use Rattle.rx_hir.specs.HirViews.{kind_view};
ghost use Rattle.rx_hir.specs.Normal.{expressions};
ghost use Rattle.rx_hir.specs.Properties.{has_look, has_look_among};
ghost use Rattle.rx_literal.specs.First.{IsLookFree, AreLookFree};

use rx_hir::{Class, Hir, HirKind};

/// Whether no look-around stands in the expression, so that its look set is empty. What exact prefixes tell of the
/// first run is said of such expressions.
#[cycle(look_free)]
pub fn is_look_free(hir: &Hir) -> bool
    ensures value { IsTrue result ↔ ((kind : model.Look) → has_look kind hir.now ≡ false) }
    ensures look_free { IsTrue result → IsLookFree hir.now }
{
    kind_is_look_free(hir.kind())
}

#[cycle(look_free)]
fn kind_is_look_free(kind: &HirKind) -> bool
    ensures value { IsTrue result ↔ ((k : model.Look) → has_look k (kind_view kind.now) ≡ false) }
    ensures look_free { IsTrue result → IsLookFree (kind_view kind.now) }
{
    match kind {
        HirKind::Empty => true,
        HirKind::Literal(_) => true,
        HirKind::Class(members) => has_scalar_ends(members),
        HirKind::Look(_) => false,
        HirKind::Repetition(copies) => is_look_free(&copies.sub),
        HirKind::Capture(capture) => is_look_free(&capture.sub),
        HirKind::Concat(subs) => are_look_free(subs),
        HirKind::Alternation(subs) => are_look_free(subs),
    }
}

/// Whether each range of scalars ends with scalars, which is so of every class.
fn has_scalar_ends(members: &Class) -> bool
    ensures value { result ≡ true }
    ensures look_free { IsLookFree (class (class_view members.now)) }
{
    match members {
        Class::Unicode(scalars) => {
            // That the ends are scalars is what this call ensures.
            let _ranges = scalars.ranges();
            true
        }
        Class::Bytes(_) => true,
    }
}

#[cycle(look_free)]
fn are_look_free(subs: &[Hir]) -> bool
    ensures value { IsTrue result ↔ ((kind : model.Look) → has_look_among kind (expressions subs.now) ≡ false) }
    ensures look_free { IsTrue result → AreLookFree (expressions subs.now) }
{
    for sub in subs {
        if !is_look_free(sub) {
            return false;
        }
    }
    true
}
