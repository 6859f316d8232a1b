//! What a node of a syntax tree is, and whether its counts are in order.
ghost use Rattle.std.specs.Prelude.{◌≡◌};
ghost use Rattle.rx_reader.specs.AstViews.{kind_view, IsWellFormed};

use super::{Ast, AstKind};

impl Ast {
    /// What the pattern, or the part of one, is made of.
    pub fn kind(&self) -> &AstKind
        ensures value { kind_view result.now ≡ self.now }
        ensures sound { IsWellFormed result.now }
    {
        &self.kind
    }
}
