//! Literals.
ghost use Rattle.std.specs.Prelude.{◌≡◌, ◌≤◌, [], ◌++◌, length, IfOk};
ghost use Rattle.rx_literal.specs.Literals.{literal_of, exact, inexact, bytes_of, is_exact, is_empty, loose, outer_bytes, cut, joined, extended};
ghost use Rattle.rx_literal.specs.declared.side.Side.TheVariants.{Front as front};

use crate::kept::KeptBytes;
use crate::lent::Lent;
use crate::side::Side;
use rx_search::Memory;
use std::alloc::{AllocError, Global};
use std::marker::Model;

/// What a match begins, or ends, with. An exact one is the whole of what it was taken from.
#[derive(Drop)]
pub struct Literal {
    bytes: KeptBytes,
    exact: bool,
}

impl Model for Literal {
    ghost use Rattle.rx_literal.specs.Literals as model;

    ghost Value = { model.Literal };

    ghost view = { λ l. model.literal_of l.exact l.bytes };
}

impl Clone for Literal {
    ghost use Rattle.std.specs.Prelude.{◌≡◌};

    ghost is_clone = { λ literal copy. copy ≡ literal };

    fn clone(&self) -> Result<Literal, AllocError> {
        let bytes = self.bytes.cloned()?;
        Ok(Literal {
            bytes,
            exact: self.exact,
        })
    }
}

impl Literal {
    /// The literal of these bytes, the whole of what it is taken from.
    pub fn exact(bytes: Vec<u8>) -> Literal
        ensures { result ≡ exact bytes.items }
    {
        Literal::of(KeptBytes::given(bytes), true)
    }

    /// The literal of these bytes, a part of what it is taken from.
    pub fn inexact(bytes: Vec<u8>) -> Literal
        ensures { result ≡ inexact bytes.items }
    {
        Literal::of(KeptBytes::given(bytes), false)
    }

    /// The literal's bytes.
    pub fn as_bytes(&self) -> &[u8]
        ensures { result.now ≡ bytes_of self.now }
    {
        self.bytes.as_slice()
    }

    /// Whether it is the whole of what it was taken from.
    pub fn is_exact(&self) -> bool
        ensures { result ≡ is_exact self.now }
    {
        self.exact
    }

    /// Whether it has no bytes.
    pub fn is_empty(&self) -> bool
        ensures { result ≡ is_empty self.now }
    {
        self.bytes.as_slice().is_empty()
    }

    /// Makes it inexact.
    pub(crate) fn loosen(&mut self)
        ensures { self.new ≡ loose self.old }
    {
        self.exact = false;
    }

    /// The literal of no bytes, which is exact.
    pub(crate) fn empty(alloc: Global) -> Literal
        ensures { result ≡ exact [] }
    {
        Literal::exact(Vec::new(alloc))
    }

    /// The literal of these bytes, exact or not.
    pub(crate) fn of(bytes: KeptBytes, exact: bool) -> Literal
        ensures { result ≡ literal_of exact bytes }
    {
        Literal { bytes, exact }
    }

    /// These bytes, as a literal. Of more than `most` bytes only those at that side are kept, inexact.
    pub(crate) fn cut(
        alloc: Global,
        side: Side,
        most: usize,
        bytes: &[u8],
        exact: bool,
    ) -> Result<Literal, Memory>
        ensures { IfOk result (λ l. l ≡ cut side most (literal_of exact bytes.now)) }
    {
        if bytes.len() > most {
            let bytes = KeptBytes::copied(alloc, outer_bytes(side, most, bytes))?;
            return Ok(Literal {
                bytes,
                exact: false,
            });
        }
        let bytes = KeptBytes::copied(alloc, bytes)?;
        Ok(Literal { bytes, exact })
    }

    /// The same of bytes that are given away.
    fn cut_own(
        alloc: Global,
        side: Side,
        most: usize,
        bytes: KeptBytes,
        exact: bool,
    ) -> Result<Literal, Memory>
        ensures { IfOk result (λ l. l ≡ cut side most (literal_of exact bytes)) }
    {
        let len = bytes.as_slice().len();
        if len > most {
            return Literal::cut(alloc, side, most, bytes.as_slice(), exact);
        }
        Ok(Literal { bytes, exact })
    }

    /// The literal, lent.
    pub(crate) fn lent(&self) -> Lent<'_>
        ensures { result ≡ self.now }
    {
        Lent::new(self.bytes.as_slice(), self.exact)
    }

    /// The literal cut to its first bytes, so many at most, and lent.
    pub(crate) fn first_bytes(&self, most: usize) -> Lent<'_>
        ensures { result ≡ cut front most self.now }
    {
        first_bytes(self.bytes.as_slice(), most, self.exact)
    }

    /// The literal cut to 100 bytes at that side.
    pub(crate) fn shortened(self, alloc: Global, side: Side) -> Result<Literal, Memory>
        ensures { IfOk result (λ l. l ≡ cut side 100 self) }
    {
        Literal::cut_own(alloc, side, 100, self.bytes, self.exact)
    }

    /// The literal after these bytes, or before them at the back, cut to 100 bytes.
    pub(crate) fn joined_to(
        &self,
        alloc: Global,
        side: Side,
        bytes: &[u8],
    ) -> Result<Literal, Memory>
        ensures { IfOk result (λ l. l ≡ cut side 100 (extended side bytes.now self.now)) }
    {
        let whole = joined(alloc, side, bytes, self.bytes.as_slice())?;
        Literal::cut_own(alloc, side, 100, whole, self.exact)
    }
}

/// These bytes, as a literal that is lent. Of more than `most` bytes only the first ones are lent, inexact.
fn first_bytes(bytes: &[u8], most: usize, exact: bool) -> Lent<'_>
    ensures { result ≡ cut front most (literal_of exact bytes.now) }
{
    if bytes.len() > most {
        return Lent::new(outer_bytes(Side::Front, most, bytes), false);
    }
    Lent::new(bytes, exact)
}

/// The first bytes, or the last ones.
fn outer_bytes(side: Side, most: usize, bytes: &[u8]) -> &[u8]
    requires { most ≤ length bytes.now }
    ensures { result.now ≡ outer_bytes side most bytes.now }
{
    match side {
        Side::Front => &bytes[..most],
        Side::Back => &bytes[bytes.len() - most..],
    }
}

/// Both in a row, the second further inside.
fn joined(alloc: Global, side: Side, outer: &[u8], inner: &[u8]) -> Result<KeptBytes, AllocError>
    ensures { IfOk result (λ b. b ≡ joined side outer.now inner.now) }
{
    match side {
        Side::Front => KeptBytes::joined(alloc, outer, inner),
        Side::Back => KeptBytes::joined(alloc, inner, outer),
    }
}
