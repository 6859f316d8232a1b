//! Expressions of classes.
ghost use Rattle.std.specs.Prelude.{◌≡◌, ◌∷◌, [], IfOk, encode_utf8};
ghost use Rattle.rx_model.specs.Expression.{literal, class};
ghost use Rattle.rx_model.specs.Text.{scalar_ranges, byte_ranges};
ghost use Rattle.rx_class.specs.ClassViews.{class_view};
ghost use Rattle.rx_hir.specs.Normal.{class_of};
ghost use Rattle.rx_class.specs.Ranges.{AreScalarRanges, AreByteRanges};

use super::concat::bytes_in_row;
use super::properties::Properties;
use super::{Hir, HirKind};
use rx_class::{Class, ClassBytes, ClassUnicode};
use rx_search::Memory;
use std::alloc::Global;

impl Hir {
    /// A member of the class. Where it has one member this is the literal of that member's encoding, and
    /// where it has none `fail`.
    ///
    /// # Errors
    ///
    /// `Memory`, where there was no memory for a literal.
    pub fn class(alloc: Global, members: Class) -> Result<Hir, Memory>
        ensures { IfOk result (λ h. h ≡ class_of (class_view members)) }
    {
        match members {
            Class::Unicode(scalars) => scalar_of(alloc, scalars),
            Class::Bytes(bytes) => byte_of(alloc, bytes),
        }
    }
}

fn scalar_of(alloc: Global, scalars: ClassUnicode) -> Result<Hir, Memory>
    ensures { IfOk result (λ h. h ≡ class_of (scalar_ranges scalars)) }
{
    if let Some(c) = scalars.only_member() {
        return character(alloc, c);
    }
    if scalars.is_empty() {
        return Ok(Hir::fail(alloc));
    }
    let properties = Properties::of_scalars(scalars.ranges());
    Ok(Hir {
        kind: HirKind::Class(Class::Unicode(scalars)),
        properties,
    })
}

fn character(alloc: Global, c: char) -> Result<Hir, Memory>
    ensures { IfOk result (λ h. h ≡ literal (encode_utf8 c)) }
{
    let mut text = String::new(alloc);
    text.push(c)?;
    Ok(bytes_in_row(text.into_bytes()))
}

fn byte_of(alloc: Global, bytes: ClassBytes) -> Result<Hir, Memory>
    ensures { IfOk result (λ h. h ≡ class_of (byte_ranges bytes)) }
{
    if let Some(b) = bytes.only_member() {
        return byte(alloc, b);
    }
    if bytes.is_empty() {
        return Ok(Hir::fail(alloc));
    }
    let properties = Properties::of_bytes(bytes.ranges());
    Ok(Hir {
        kind: HirKind::Class(Class::Bytes(bytes)),
        properties,
    })
}

fn byte(alloc: Global, b: u8) -> Result<Hir, Memory>
    ensures { IfOk result (λ h. h ≡ literal (b ∷ [])) }
{
    let mut bytes = Vec::new(alloc);
    bytes.push(b)?;
    Ok(bytes_in_row(bytes))
}
