//! Named sets that were looked up before.
ghost use Rattle.std.specs.Prelude.{◌≡◌, IfOk, IfSome};
ghost use Rattle.rx_syntax.specs.Named.{scalars_of, bytes_of};

use crate::bytes::bytes_of;
use crate::named::{ByteKey, SetKey, scalars_of};
use rx_class::{ClassBytes, ClassUnicode};
use rx_search::Memory;
use std::alloc::Global;

/// A named set with its scalars.
#[derive(Drop)]
struct KnownSet {
    key: SetKey,
    scalars: ClassUnicode,
    ghost own: { scalars ≡ scalars_of key },
}

/// A named set with its bytes.
#[derive(Drop)]
struct KnownBytes {
    key: ByteKey,
    bytes: ClassBytes,
    ghost own: { bytes ≡ bytes_of key },
}

// Each set proves that it is that of its key, so no invariant is needed (DECISIONS: a named set is looked up once a list of patterns).
/// The named sets that were looked up so far. Whoever asks for one again shares its scalars, or gets a copy of its bytes.
#[derive(Drop)]
pub(crate) struct KnownSets {
    alloc: Global,
    sets: Vec<KnownSet>,
    byte_sets: Vec<KnownBytes>,
}

impl KnownSets {
    /// None so far.
    pub(crate) fn new(alloc: Global) -> KnownSets {
        KnownSets {
            alloc,
            sets: Vec::new(alloc),
            byte_sets: Vec::new(alloc),
        }
    }

    fn find(&self, key: SetKey) -> Option<&ClassUnicode>
        ensures { IfSome result (λ class. class.now ≡ scalars_of key) }
    {
        for known in &self.sets {
            if known.key.is(key) {
                return Some(&known.scalars);
            }
        }
        None
    }

    fn look_up(&mut self, key: SetKey) -> Result<ClassUnicode, Memory>
        ensures { IfOk result (λ class. class ≡ scalars_of key) }
    {
        let found = scalars_of(self.alloc, key)?;
        let scalars = found.clone()?;
        self.sets.push(KnownSet { key, scalars })?;
        Ok(found)
    }

    /// The scalars of a named set.
    pub(crate) fn scalars(&mut self, key: SetKey) -> Result<ClassUnicode, Memory>
        ensures { IfOk result (λ class. class ≡ scalars_of key) }
    {
        if let Some(known) = self.find(key) {
            return Ok(known.clone()?);
        }
        self.look_up(key)
    }

    fn find_bytes(&self, key: ByteKey) -> Option<&ClassBytes>
        ensures { IfSome result (λ class. class.now ≡ bytes_of key) }
    {
        for set in &self.byte_sets {
            if set.key.is(key) {
                return Some(&set.bytes);
            }
        }
        None
    }

    fn look_up_bytes(&mut self, key: ByteKey) -> Result<ClassBytes, Memory>
        ensures { IfOk result (λ class. class ≡ bytes_of key) }
    {
        let found = bytes_of(self.alloc, key)?;
        let bytes = found.clone()?;
        self.byte_sets.push(KnownBytes { key, bytes })?;
        Ok(found)
    }

    /// The bytes of a named set.
    pub(crate) fn bytes(&mut self, key: ByteKey) -> Result<ClassBytes, Memory>
        ensures { IfOk result (λ class. class ≡ bytes_of key) }
    {
        if let Some(known) = self.find_bytes(key) {
            return Ok(known.clone()?);
        }
        self.look_up_bytes(key)
    }
}
