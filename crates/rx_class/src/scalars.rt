//! Classes of scalars from ranges, and their complements.
ghost use Rattle.std.specs.Prelude.{◌≡◌, ℕ, [], ◌∷◌, ◌+◌, ◌<◌, ◌≤◌, ◌++◌, nat_lt, IfOk, OnOk};
ghost use Rattle.rx_class.specs.Merged.{extend, add, add_all};
ghost use Rattle.rx_class.specs.Outside.{up_to, from};
ghost use Rattle.rx_class.specs.Ranges.{next_scalar, fewest, union, HaveScalarEnds, AreScalarRanges};
ghost use Rattle.rx_class.specs.Scalars.{previous_scalar, complement, or_past};

use crate::class::ClassUnicode;
use rx_memory::Memory;
use std::alloc::Global;

impl ClassUnicode {
    /// The scalars in the ranges, each from its first to its last. A range whose ends are out of order has none.
    pub fn new(alloc: Global, ranges: &[(char, char)]) -> Result<ClassUnicode, Memory>
        ensures { IfOk result (λ c. c ≡ fewest next_scalar ranges.now) }
    {
        ClassUnicode::of(alloc, merged(alloc, ranges)?)
    }

    /// The scalars in either class.
    pub fn union(&self, other: &ClassUnicode) -> Result<ClassUnicode, Memory>
        ensures { IfOk result (λ c. c ≡ union next_scalar self.now other.now) }
    {
        let alloc = *self.ranges.allocator();
        let mut both = Vec::from_slice(alloc, &self.ranges)?;
        both.extend_from_slice(&other.ranges)?;
        ClassUnicode::new(alloc, &both)
    }

    /// The scalars that are not in the class.
    pub fn complement(&self, alloc: Global) -> Result<ClassUnicode, Memory>
        ensures { IfOk result (λ c. c ≡ complement self.now) }
    {
        ClassUnicode::of(alloc, ranges_outside(alloc, &self.ranges)?)
    }
}

/// The fewest ranges of ranges in any order.
pub(crate) fn merged(alloc: Global, ranges: &[(char, char)]) -> Result<Vec<(char, char)>, Memory>
    ensures value { IfOk result (λ v. v.items ≡ fewest next_scalar ranges.now) }
    ensures fewest { IfOk result (λ v. AreScalarRanges v.items) }
{
    let mut sorted = Vec::from_slice(alloc, ranges)?;
    sorted.sort_unstable_by_key(|range| range.0);
    let found = fewest(alloc, &sorted)?;
    Ok(found)
}

/// The scalar after this one, if there is one.
fn next_scalar(c: char) -> Option<char>
    ensures { or_past result ≡ next_scalar c }
{
    if c == '\u{D7FF}' {
        return Some('\u{E000}');
    }
    char::from_u32(c as u32 + 1)
}

/// The scalar before this one, which is not the first.
fn previous_scalar(c: char) -> char
    requires { 0 < c }
    ensures { result ≡ previous_scalar c }
{
    if c == '\u{E000}' {
        return '\u{D7FF}';
    }
    match char::from_u32(c as u32 - 1) {
        Some(before) => before,
        None => unreachable!(),
    }
}

/// Whether `c` comes after the scalar that follows `end`.
fn is_apart(end: char, c: char) -> bool
    ensures { result ≡ nat_lt (next_scalar end) c }
{
    match next_scalar(end) {
        Some(next) => next < c,
        None => false,
    }
}

/// The fewest ranges of ranges in order of their first members.
fn fewest(alloc: Global, sorted: &[(char, char)]) -> Result<Vec<(char, char)>, Memory>
    ensures value { IfOk result (λ v. v.items ≡ add_all next_scalar [] sorted.now) }
    ensures ends { OnOk result (HaveScalarEnds sorted.now) }
{
    let mut found = Vec::new(alloc);
    for (low, high) in sorted {
        add(&mut found, *low, *high)?;
    }
    Ok(found)
}

/// Adds a range that begins no earlier than the last one.
fn add(found: &mut Vec<(char, char)>, low: char, high: char) -> Result<(), Memory>
    ensures { OnOk result (found.new.items ≡ add next_scalar found.old.items low high) }
{
    if high < low {
        return Ok(());
    }
    if let Some(last) = found.pop() {
        return add_after(found, last, low, high);
    }
    found.push((low, high))?;
    Ok(())
}

/// Adds the range that was the last one, and then another, which may be joined with it.
fn add_after(
    found: &mut Vec<(char, char)>,
    last: (char, char),
    low: char,
    high: char,
) -> Result<(), Memory>
    ensures { OnOk result (found.new.items ≡ found.old.items ++ extend next_scalar (last ∷ []) low high) }
{
    if is_apart(last.1, low) {
        found.push(last)?;
        found.push((low, high))?;
    } else {
        found.push((last.0, last.1.max(high)))?;
    }
    Ok(())
}

/// The scalars that fewest ranges don't hold, in fewest ranges.
fn ranges_outside(alloc: Global, ranges: &[(char, char)]) -> Result<Vec<(char, char)>, Memory>
    requires { AreScalarRanges ranges.now }
    ensures value { IfOk result (λ v. v.items ≡ complement ranges.now) }
    ensures fewest { IfOk result (λ v. AreScalarRanges v.items) }
{
    let mut found = Vec::new(alloc);
    let mut low = Some('\0');
    for (first, last) in ranges {
        push_before(&mut found, low, *first)?;
        low = next_scalar(*last);
    }
    push_from(&mut found, low)?;
    Ok(found)
}

/// Adds the scalars from `low` to the one before `end`, if there are any.
fn push_before(found: &mut Vec<(char, char)>, low: Option<char>, end: char) -> Result<(), Memory>
    ensures { OnOk result (found.new.items ≡ found.old.items ++ up_to previous_scalar (or_past low) end) }
{
    if let Some(low) = low {
        if low < end {
            found.push((low, previous_scalar(end)))?;
        }
    }
    Ok(())
}

/// Adds the scalars from `low` on, if there are any.
fn push_from(found: &mut Vec<(char, char)>, low: Option<char>) -> Result<(), Memory>
    ensures { OnOk result (found.new.items ≡ found.old.items ++ from 0x10FFFF (or_past low)) }
{
    if let Some(low) = low {
        found.push((low, char::MAX))?;
    }
    Ok(())
}
