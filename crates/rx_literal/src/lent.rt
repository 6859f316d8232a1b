//! Literals that are lent.
ghost use Rattle.std.specs.Prelude.{◌≡◌, IfOk};
ghost use Rattle.rx_literal.specs.Literals.{literal_of, bytes_of, is_exact};

use crate::kept::KeptBytes;
use crate::literal::Literal;
use rx_search::Memory;
use std::alloc::Global;
use std::marker::Model;

// No byte is copied for a comparison (DECISIONS: trimming borrows, and moves).
/// A literal whose bytes are lent.
#[derive(Drop)]
pub struct Lent<'a> {
    bytes: &'a [u8],
    exact: bool,
}

impl<'a> Model for Lent<'a> {
    ghost use Rattle.rx_literal.specs.Literals as model;

    ghost Value = { model.Literal };

    ghost view = { λ l. model.literal_of l.exact l.bytes.now };
}

impl<'a> Lent<'a> {
    /// The literal of these bytes.
    pub(crate) fn new(bytes: &'a [u8], exact: bool) -> Lent<'a>
        ensures { result ≡ literal_of exact bytes.now }
    {
        Lent { bytes, exact }
    }

    /// The literal's bytes.
    pub(crate) fn as_bytes(&self) -> &'a [u8]
        ensures { result.now ≡ bytes_of self.now }
    {
        self.bytes
    }

    /// Whether it is the whole of what it was taken from.
    pub(crate) fn is_exact(&self) -> bool
        ensures { result ≡ is_exact self.now }
    {
        self.exact
    }

    /// The same literal, lent once more.
    pub(crate) fn lent(&self) -> Lent<'a>
        ensures { result ≡ self.now }
    {
        Lent::new(self.bytes, self.exact)
    }

    /// A literal with bytes of its own.
    pub(crate) fn to_literal(&self, alloc: Global) -> Result<Literal, Memory>
        ensures { IfOk result (λ l. l ≡ self.now) }
    {
        let bytes = KeptBytes::copied(alloc, self.bytes)?;
        Ok(Literal::of(bytes, self.exact))
    }
}
