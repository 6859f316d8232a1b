//! Slots: numbers of the first bytes of literals. Literals with different slots have different first bytes.
ghost use Rattle.std.specs.Prelude.{◌≡◌, ◌<◌, ◌≤◌, ◌+◌, ◌^◌, ℕ, [], true, All, nat_lt, length, map, take, slice_index, if◌then◌else◌, IfOk, IsTrue};
ghost use Rattle.std.specs.List.{list_all};
ghost use Rattle.rx_literal.specs.Literals.{cut};
ghost use Rattle.rx_literal.specs.Slots.{slot_of, slot, has_bytes, AreCounted, AreAlone};
ghost use Rattle.rx_literal.specs.Trim.{preferred};
ghost use Rattle.rx_literal.specs.declared.side.Side.TheVariants.{Front as front};

use crate::literal::Literal;
use rx_search::Memory;
use std::alloc::Global;

/// How many slots there are.
const SLOTS: usize = 4096;

/// The most first bytes that are looked at.
const MOST_BYTES: usize = 4;

/// How many first bytes may be looked at: no more than each literal has.
fn bytes_to_look_at(literals: &[Literal]) -> usize
    ensures { list_all (has_bytes result) literals.now ≡ true }
{
    let mut count = MOST_BYTES;
    for literal in literals {
        count = count.min(literal.as_bytes().len());
    }
    count
}

/// The slot of the first bytes, so many, or of all if there are fewer.
fn slot_of(bytes: &[u8], count: usize) -> usize
    ensures value { result ≡ slot_of 0 (take count bytes.now) }
    ensures bound { result < 4096 }
{
    slot_of_all(&bytes[..count.min(bytes.len())])
}

fn slot_of_all(bytes: &[u8]) -> usize
    ensures value { result ≡ slot_of 0 bytes.now }
    ensures bound { result < 4096 }
{
    let mut slot = 0;
    for byte in bytes {
        slot = (slot * 31 + *byte as usize) % SLOTS;
    }
    slot
}

/// The slots of the literals, by so many bytes of each.
fn slots_of(alloc: Global, literals: &[Literal], count: usize) -> Result<Vec<usize>, Memory>
    ensures value { IfOk result (λ slots. slots.items ≡ map (slot count) literals.now) }
    ensures bound { IfOk result (λ slots. All (λ s. s < 4096) slots.items) }
{
    let mut slots = Vec::with_capacity(alloc, literals.len())?;
    for literal in literals {
        slots.push(slot_of(literal.as_bytes(), count))?;
    }
    Ok(slots)
}

/// Counts how often each slot stands there, as far as 255.
fn count(counts: &mut [u8; 4096], slots: &[usize])
    requires { All (λ s. s < 4096) slots.now }
    ensures { AreCounted slots.now counts.new }
{
    for slot in slots {
        counts[*slot] = counts[*slot].saturating_add(1);
    }
}

/// Marks literals that are alone: none of the others begins with one of them, nor one of them with another. Those whose
/// slot stands once are.
pub(crate) fn alone(alloc: Global, literals: &[Literal]) -> Result<Vec<bool>, Memory>
    ensures { IfOk result (λ marks. AreAlone literals.now marks.items) }
{
    let slots = slots_of(alloc, literals, bytes_to_look_at(literals))?;
    let mut counts = [0; 4096];
    count(&mut counts, &slots);
    marked(alloc, &counts, &slots)
}

/// Marks the slots that are counted no more than once.
fn marked(alloc: Global, counts: &[u8; 4096], slots: &[usize]) -> Result<Vec<bool>, Memory>
    requires { All (λ s. s < 4096) slots.now }
    ensures { IfOk result (λ marks. marks.items ≡ map (λ s. nat_lt (slice_index counts.now s) 2) slots.now) }
{
    let mut marks = Vec::with_capacity(alloc, slots.len())?;
    for slot in slots {
        marks.push(counts[*slot] < 2)?;
    }
    Ok(marks)
}

/// Whether the first bytes of the literals, no more than three of each, have more than so many slots. Then as many
/// literals stay where they are cut to three bytes.
pub(crate) fn are_more_than(most: usize, literals: &[Literal]) -> bool
    ensures { IsTrue result → most < length (preferred [] (map (cut front 3) literals.now)) }
{
    let count = bytes_to_look_at(literals).min(3);
    let mut seen = [false; 4096];
    let mut found = 0;
    for literal in literals {
        let slot = slot_of(literal.as_bytes(), count);
        found = one_more_if(found, !seen[slot]);
        seen[slot] = true;
        if found > most {
            return true;
        }
    }
    false
}

fn one_more_if(count: usize, is_new: bool) -> usize
    requires { count + 1 < 2 ^ 64 }
    ensures { result ≡ (if is_new then count + 1 else count) }
{
    if is_new { count + 1 } else { count }
}
