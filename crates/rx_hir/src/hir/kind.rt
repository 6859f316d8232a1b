//! What an expression is made of.
ghost use Rattle.std.specs.Prelude.{◌≡◌};
ghost use Rattle.rx_hir.specs.HirViews.{kind_view};
ghost use Rattle.rx_hir.specs.PropertiesViews.{AreOf};
ghost use Rattle.rx_hir.specs.Sound.{IsSound};

use super::{Hir, HirKind, Properties};

impl Hir {
    /// What the expression is made of.
    pub fn kind(&self) -> &HirKind
        ensures value { kind_view result.now ≡ self.now }
        ensures sound { IsSound self.now }
    {
        &self.kind
    }

    /// What is known of the expression without a look at its parts.
    pub fn properties(&self) -> &Properties
        ensures { AreOf self.now result.now }
    {
        &self.properties
    }
    /// What the expression is made of, without the expression around it.
    pub fn into_kind(self) -> HirKind
        ensures { kind_view result ≡ self }
    {
        self.kind
    }
}
