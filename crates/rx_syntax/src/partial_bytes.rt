//! Classes of bytes that are gathered item by item.
ghost use Rattle.std.specs.Prelude.{◌≡◌, [], ◌∷◌, ◌++◌, ℕ, List, IfOk, IsTrue};
ghost use Rattle.rx_class.specs.Ranges.{next_byte, fewest};
ghost use Rattle.rx_syntax.specs.Named.{bytes_of};
ghost use Rattle.rx_syntax.specs.PartialBytes.{IsOfBytes, HoldsBytes, ranges_of_bytes};

use crate::known::KnownSets;
use crate::named::ByteKey;
use rx_class::ClassBytes;
use rx_search::Memory;
use std::alloc::Global;

/// So many ranges are gathered before they are merged. A class of bytes has at most 128, so that they have more than
/// doubled since the last time.
const MERGE_AT: usize = 1024;

/// What an item of a class of bytes adds to it.
pub(crate) enum AddedBytes {
    /// From one byte to another.
    Range(u8, u8),
    /// A named set.
    Set(ByteKey),
}

/// A class of bytes so far, and the named sets that are in it. Each is added once, however often it is named.
#[derive(Drop)]
pub(crate) struct PartialBytes {
    alloc: Global,
    ranges: Vec<(u8, u8)>,
    sets: Vec<ByteKey>,
}

impl PartialBytes {
    /// Of nothing yet.
    pub(crate) fn new(alloc: Global) -> PartialBytes
        ensures { IsOfBytes result [] }
    {
        PartialBytes {
            alloc,
            ranges: Vec::new(alloc),
            sets: Vec::new(alloc),
        }
    }

    /// Whether the set was added.
    fn has(&self, key: ByteKey) -> bool
        ensures { (ranges : List (ℕ × ℕ)) → IsOfBytes self.now ranges → IsTrue result → HoldsBytes ranges key }
    {
        for set in &self.sets {
            if set.is(key) {
                return true;
            }
        }
        false
    }

    fn with_range(self, low: u8, high: u8) -> Result<PartialBytes, Memory>
        ensures { (ranges : List (ℕ × ℕ)) → IsOfBytes self ranges
            → IfOk result (λ class. IsOfBytes class (ranges ++ (low, high) ∷ [])) }
    {
        let mut more = self.ranges;
        more.push((low, high))?;
        let ranges = settled(self.alloc, more)?;
        Ok(PartialBytes {
            alloc: self.alloc,
            ranges,
            sets: self.sets,
        })
    }

    fn with_new_set(self, key: ByteKey, known: &mut KnownSets) -> Result<PartialBytes, Memory>
        ensures { (ranges : List (ℕ × ℕ)) → IsOfBytes self ranges → IfOk result (λ class. IsOfBytes class (ranges ++ bytes_of key)) }
    {
        let bytes = known.bytes(key)?;
        let mut more = self.ranges;
        more.extend_from_slice(bytes.ranges())?;
        let ranges = settled(self.alloc, more)?;
        let mut sets = self.sets;
        sets.push(key)?;
        Ok(PartialBytes {
            alloc: self.alloc,
            ranges,
            sets,
        })
    }

    fn with_set(self, key: ByteKey, known: &mut KnownSets) -> Result<PartialBytes, Memory>
        ensures { (ranges : List (ℕ × ℕ)) → IsOfBytes self ranges → IfOk result (λ class. IsOfBytes class (ranges ++ bytes_of key)) }
    {
        if self.has(key) {
            return Ok(self);
        }
        self.with_new_set(key, known)
    }

    /// With what an item adds.
    pub(crate) fn with(
        self,
        added: AddedBytes,
        known: &mut KnownSets,
    ) -> Result<PartialBytes, Memory>
        ensures { (ranges : List (ℕ × ℕ)) → IsOfBytes self ranges
            → IfOk result (λ class. IsOfBytes class (ranges ++ ranges_of_bytes added)) }
    {
        match added {
            AddedBytes::Range(low, high) => self.with_range(low, high),
            AddedBytes::Set(key) => self.with_set(key, known),
        }
    }

    /// The class of all that was added.
    pub(crate) fn build(self) -> Result<ClassBytes, Memory>
        ensures { (ranges : List (ℕ × ℕ)) → IsOfBytes self ranges → IfOk result (λ class. class ≡ fewest next_byte ranges) }
    {
        ClassBytes::new(self.alloc, &self.ranges)
    }
}

/// The ranges, merged where they have come to so many.
fn settled(alloc: Global, ranges: Vec<(u8, u8)>) -> Result<Vec<(u8, u8)>, Memory>
    ensures { IfOk result (λ v. fewest next_byte v.items ≡ fewest next_byte ranges.items) }
{
    if ranges.len() < MERGE_AT {
        return Ok(ranges);
    }
    let class = ClassBytes::new(alloc, &ranges)?;
    Ok(Vec::from_slice(alloc, class.ranges())?)
}
