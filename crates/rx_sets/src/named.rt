//! What the escapes `\pX` and `\p{name}` stand for.
ghost use Rattle.std.specs.Prelude.{◌≡◌, IfOk};
ghost use Rattle.rx_sets.specs.Property.{set_named, set_scalars, property};

use crate::members::class_of;
use rx_class::ClassUnicode;
use rx_memory::Memory;
use std::alloc::Global;
use unicode::sets::{Set, by_name, normalize};

/// A set of characters that Unicode names.
#[derive(Clone, Copy, PartialEq, Eq)]
pub struct PropertySet {
    set: Set,
}

impl PropertySet {
    /// The set of this name: a binary property, a general category or a script. Letters match in either case; spaces,
    /// `_`, `-`, what isn't ASCII and an `is` at the start count for nothing. None where Unicode names no set so.
    pub fn from_name(alloc: Global, name: &[char]) -> Result<Option<PropertySet>, Memory>
        ensures { IfOk result (λ set. set ≡ set_named name.now) }
    {
        let normalized = normalize(alloc, name)?;
        match by_name(&normalized) {
            Ok(set) => Ok(Some(PropertySet { set })),
            Err(_) => Ok(None),
        }
    }

    /// The scalars of the set.
    pub fn scalars(self, alloc: Global) -> Result<ClassUnicode, Memory>
        ensures { IfOk result (λ class. class ≡ set_scalars self) }
    {
        class_of(alloc, &self.set.ranges(alloc)?)
    }
}

/// The scalars of the set that Unicode names so, if it names one.
pub fn property(alloc: Global, name: &[char]) -> Result<Option<ClassUnicode>, Memory>
    ensures { IfOk result (λ found. found ≡ property name.now) }
{
    match PropertySet::from_name(alloc, name)? {
        Some(set) => Ok(Some(set.scalars(alloc)?)),
        None => Ok(None),
    }
}
