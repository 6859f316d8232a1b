//! Capture groups. A call goes as deep as the expression.
ghost use Rattle.std.specs.Prelude.{◌≡◌, ◌-◌, ◌<◌, ◌≤◌};
ghost use Rattle.rx_model.specs.Search.{greatest_group, greatest_in};
ghost use Rattle.rx_hir.specs.HirViews.{kind_view};
ghost use Rattle.rx_hir.specs.Normal.{expressions};

use super::{Hir, HirKind};

/// The greatest number of a capture group in the expression; 0 where there is none.
#[cycle(groups)]
pub fn greatest_group(hir: &Hir) -> usize
    ensures { result ≡ greatest_group hir.now }
{
    greatest_of_kind(hir.kind())
}

#[cycle(groups)]
fn greatest_of_kind(kind: &HirKind) -> usize
    ensures { result ≡ greatest_group (kind_view kind.now) }
{
    match kind {
        HirKind::Empty => 0,
        HirKind::Literal(_) => 0,
        HirKind::Class(_) => 0,
        HirKind::Look(_) => 0,
        HirKind::Repetition(repetition) => greatest_group(&repetition.sub),
        HirKind::Capture(capture) => capture.index.get().max(greatest_group(&capture.sub)),
        HirKind::Concat(subs) => greatest_in(subs),
        HirKind::Alternation(subs) => greatest_in(subs),
    }
}

#[cycle(groups)]
fn greatest_in(subs: &[Hir]) -> usize
    ensures { result ≡ greatest_in (expressions subs.now) }
{
    let mut greatest: usize = 0;
    for sub in subs {
        greatest = greatest.max(greatest_group(sub));
    }
    greatest
}
