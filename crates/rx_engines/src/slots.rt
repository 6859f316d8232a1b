//! Slots of a search, each in one word.
ghost use Rattle.std.specs.Prelude.{◌≡◌, ℕ, ◌<◌, length, None, Some, replicate, slice_set, slice_index_or};

use rx_search::NonMaxUsize;
use std::marker::Model;

/// A place or none, in one word. A contract sees it as an option.
#[derive(Clone, Copy)]
pub struct Slot {
    word: usize,
}

impl Model for Slot {
    ghost use Rattle.std.specs.Prelude.{ℕ, Option, ◌<◌, ◌^◌};
    ghost use Rattle.rx_engines.specs.Slot.{place_of, word_of, word_of-place_of};

    ghost Value = { Option ℕ };

    ghost view = { λ s. place_of s.word };

    ghost invariant = { λ s. s.word < 2 ^ 64 };

    ghost inverse = { λ o. record { word = word_of o } };

    ghost inverse_ok = { λ a h. λ i. record { word = word_of-place_of a.word h i } };
}

impl Slot {
    /// No place.
    pub fn none() -> Slot
        ensures { result ≡ None }
    {
        Slot { word: usize::MAX }
    }

    /// This place.
    pub fn at(place: usize) -> Slot
        requires { place < usize.MAX }
        ensures { result ≡ Some place }
    {
        Slot { word: place }
    }

    /// The place, if there is one.
    pub fn get(self) -> Option<NonMaxUsize>
        ensures { result ≡ self }
    {
        NonMaxUsize::new(self.word)
    }
}

/// Sets the slot, where there is room for it.
pub fn write(slots: &mut [Slot], slot: usize, value: Slot)
    ensures { slots.new ≡ slice_set slots.old slot value }
{
    if slot < slots.len() {
        slots[slot] = value;
    }
}

/// The slot's value, where there is room for it.
pub fn read(slots: &[Slot], slot: usize) -> Slot
    ensures { result ≡ slice_index_or slots.now slot None }
{
    if slot < slots.len() {
        slots[slot]
    } else {
        Slot::none()
    }
}

/// Empties each slot.
pub fn clear(slots: &mut [Slot])
    ensures { slots.new ≡ replicate (length slots.old) None }
{
    for i in 0..slots.len() {
        slots[i] = Slot::none();
    }
}

/// Copies the slots over as many others.
#[inline(always)]
pub fn copy(from: &[Slot], to: &mut [Slot])
    requires { length from.now ≡ length to.old }
    ensures { to.new ≡ from.now }
{
    // Rows are short. A loop of one slot a turn is made a call of `memcpy`, which takes longer than they do; this one is not.
    let mut k = 0;
    while from.len() - k > 1 {
        to[k] = from[k];
        to[k + 1] = from[k + 1];
        k += 2;
    }
    if k < from.len() {
        to[k] = from[k];
    }
}

// Callers see the type of the original (DECISIONS: slots are `Option<NonMaxUsize>`).
/// Copies the slots as far as they go, and leaves None in those after them.
pub fn report(slots: &[Slot], to: &mut [Option<NonMaxUsize>])
    ensures { (k : ℕ) → k < length to.new
        → slice_index_or to.new k None ≡ slice_index_or slots.now k None }
{
    for i in 0..to.len() {
        to[i] = read(slots, i).get();
    }
}

/// Leaves None in each slot, as a search does that finds nothing.
pub fn empty(slots: &mut [Option<NonMaxUsize>])
    ensures { slots.new ≡ replicate (length slots.old) None }
{
    for i in 0..slots.len() {
        slots[i] = None;
    }
}
