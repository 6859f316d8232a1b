//! Classes of bytes from ranges.
ghost use Rattle.std.specs.Prelude.{◌≡◌, ℕ, [], ◌∷◌, ◌+◌, ◌-◌, ◌++◌, nat_lt, IfOk, OnOk};
ghost use Rattle.rx_class.specs.Bytes.{previous_byte, byte_complement, or_past_byte, moved, other_cases, byte_folded};
ghost use Rattle.rx_class.specs.Merged.{extend, add, add_all};
ghost use Rattle.rx_class.specs.Outside.{up_to, from};
ghost use Rattle.rx_class.specs.Ranges.{next_byte, fewest, union, AreByteRanges};

use crate::class::ClassBytes;
use rx_memory::Memory;
use std::alloc::Global;

impl ClassBytes {
    /// The bytes in the ranges, each from its first to its last. A range whose ends are out of order has none.
    pub fn new(alloc: Global, ranges: &[(u8, u8)]) -> Result<ClassBytes, Memory>
        ensures { IfOk result (λ c. c ≡ fewest next_byte ranges.now) }
    {
        let mut sorted = Vec::from_slice(alloc, ranges)?;
        sorted.sort_unstable_by_key(|range| range.0);
        let ranges = fewest(alloc, &sorted)?;
        Ok(ClassBytes { ranges })
    }

    /// The bytes in either class.
    pub fn union(&self, other: &ClassBytes) -> Result<ClassBytes, Memory>
        ensures { IfOk result (λ c. c ≡ union next_byte self.now other.now) }
    {
        let alloc = *self.ranges.allocator();
        let mut both = Vec::from_slice(alloc, &self.ranges)?;
        both.extend_from_slice(&other.ranges)?;
        ClassBytes::new(alloc, &both)
    }

    /// The bytes that are not in the class.
    pub fn complement(&self, alloc: Global) -> Result<ClassBytes, Memory>
        ensures { IfOk result (λ c. c ≡ byte_complement self.now) }
    {
        let ranges = ranges_outside(alloc, &self.ranges)?;
        Ok(ClassBytes { ranges })
    }

    /// The bytes of the class, and its ASCII letters in the other case.
    pub fn case_fold_simple(&self) -> Result<ClassBytes, Memory>
        ensures { IfOk result (λ c. c ≡ byte_folded self.now) }
    {
        let alloc = *self.ranges.allocator();
        let mut folded = Vec::from_slice(alloc, &self.ranges)?;
        for (low, high) in &self.ranges {
            push_other_cases(&mut folded, *low, *high)?;
        }
        ClassBytes::new(alloc, &folded)
    }
}

/// The fewest ranges of ranges in order of their first members.
fn fewest(alloc: Global, sorted: &[(u8, u8)]) -> Result<Vec<(u8, u8)>, Memory>
    ensures { IfOk result (λ v. v.items ≡ add_all next_byte [] sorted.now) }
{
    let mut found = Vec::new(alloc);
    for (low, high) in sorted {
        add(&mut found, *low, *high)?;
    }
    Ok(found)
}

/// Adds a range that begins no earlier than the last one.
fn add(found: &mut Vec<(u8, u8)>, low: u8, high: u8) -> Result<(), Memory>
    ensures { OnOk result (found.new.items ≡ add next_byte found.old.items low high) }
{
    if high < low {
        return Ok(());
    }
    if let Some(last) = found.pop() {
        return add_after(found, last, low, high);
    }
    found.push((low, high))?;
    Ok(())
}

/// Adds the range that was the last one, and then another, which may be joined with it.
fn add_after(found: &mut Vec<(u8, u8)>, last: (u8, u8), low: u8, high: u8) -> Result<(), Memory>
    ensures { OnOk result (found.new.items ≡ found.old.items ++ extend next_byte (last ∷ []) low high) }
{
    if is_apart(last.1, low) {
        found.push(last)?;
        found.push((low, high))?;
    } else {
        found.push((last.0, last.1.max(high)))?;
    }
    Ok(())
}

/// Whether `b` comes after the byte that follows `end`.
fn is_apart(end: u8, b: u8) -> bool
    ensures { result ≡ nat_lt (next_byte end) b }
{
    u16::from(end) + 1 < u16::from(b)
}

/// The bytes that fewest ranges don't hold, in fewest ranges.
fn ranges_outside(alloc: Global, ranges: &[(u8, u8)]) -> Result<Vec<(u8, u8)>, Memory>
    requires { AreByteRanges ranges.now }
    ensures value { IfOk result (λ v. v.items ≡ byte_complement ranges.now) }
    ensures fewest { IfOk result (λ v. AreByteRanges v.items) }
{
    let mut found = Vec::new(alloc);
    let mut low = Some(0);
    for (first, last) in ranges {
        push_before(&mut found, low, *first)?;
        low = next_byte(*last);
    }
    push_from(&mut found, low)?;
    Ok(found)
}

/// The byte after this one, if there is one.
fn next_byte(b: u8) -> Option<u8>
    ensures { or_past_byte result ≡ next_byte b }
{
    b.checked_add(1)
}

/// Adds the bytes from `low` to the one before `end`, if there are any.
fn push_before(found: &mut Vec<(u8, u8)>, low: Option<u8>, end: u8) -> Result<(), Memory>
    ensures { OnOk result (found.new.items ≡ found.old.items ++ up_to previous_byte (or_past_byte low) end) }
{
    if let Some(low) = low {
        if low < end {
            found.push((low, end - 1))?;
        }
    }
    Ok(())
}

/// Adds the bytes from `low` on, if there are any.
fn push_from(found: &mut Vec<(u8, u8)>, low: Option<u8>) -> Result<(), Memory>
    ensures { OnOk result (found.new.items ≡ found.old.items ++ from 0xFF (or_past_byte low)) }
{
    if let Some(low) = low {
        found.push((low, u8::MAX))?;
    }
    Ok(())
}

/// Adds the ASCII letters from `low` to `high` in the other case.
fn push_other_cases(found: &mut Vec<(u8, u8)>, low: u8, high: u8) -> Result<(), Memory>
    ensures { OnOk result (found.new.items ≡ found.old.items ++ other_cases (low, high)) }
{
    push_lower(found, low, high)?;
    push_upper(found, low, high)?;
    Ok(())
}

/// Adds the capital letters from `low` to `high` as small ones, if there are any.
fn push_lower(found: &mut Vec<(u8, u8)>, low: u8, high: u8) -> Result<(), Memory>
    ensures { OnOk result (found.new.items ≡ found.old.items ++ moved 0x41 0x5A (λ b. b + 32) (low, high)) }
{
    let low = low.max(b'A');
    let high = high.min(b'Z');
    if low <= high {
        found.push((low + 32, high + 32))?;
    }
    Ok(())
}

/// Adds the small letters from `low` to `high` as capital ones, if there are any.
fn push_upper(found: &mut Vec<(u8, u8)>, low: u8, high: u8) -> Result<(), Memory>
    ensures { OnOk result (found.new.items ≡ found.old.items ++ moved 0x61 0x7A (λ b. b - 32) (low, high)) }
{
    let low = low.max(b'a');
    let high = high.min(b'z');
    if low <= high {
        found.push((low - 32, high - 32))?;
    }
    Ok(())
}
