//! Sets of slots and of look-arounds, as the bits of a number.
ghost use Rattle.std.specs.Prelude.{◌≡◌, ◌≤◌, ◌<◌, ◌==◌, ◌^◌, ◌&&◌, not, ℕ, length, Some, None, if◌then◌else◌, slice_index_or, replicate};
ghost use Rattle.std.specs.Int.{bit_at};
ghost use Rattle.rx_model.specs.Look.{holds};
ghost use Rattle.rx_search.specs.Look.{kind_of};
ghost use Rattle.rx_onepass_table.specs.Along.{all_hold, kind_at};
ghost use Rattle.rx_onepass_table.specs.Words.{few_looks};

use rx_nfa::NFA;
use rx_search::{Look, NonMaxUsize};

/// Whether the set has the member k.
#[inline(always)]
pub fn has_bit(set: u32, k: usize) -> bool
    ensures { result ≡ (bit_at set k == 1) }
{
    if k >= 32 {
        return false;
    }
    (set >> k) % 2 == 1
}

/// The kind of look-around of this number, one of the first ten.
fn look_at(number: usize) -> Look
    requires { number < few_looks }
    ensures { kind_of result ≡ kind_at number }
{
    match number {
        0 => Look::Start,
        1 => Look::End,
        2 => Look::StartLF,
        3 => Look::EndLF,
        4 => Look::StartCRLF,
        5 => Look::EndCRLF,
        6 => Look::WordAscii,
        7 => Look::WordAsciiNegate,
        8 => Look::WordUnicode,
        _ => Look::WordUnicodeNegate,
    }
}

/// Whether each look-around of the set holds at the place.
#[inline(always)]
pub fn all_hold(nfa: &NFA, looks: u32, text: &[u8], at: usize) -> bool
    requires { at ≤ length text.now }
    ensures { result ≡ all_hold nfa.now.terminator text.now looks at }
{
    if looks == 0 {
        return true;
    }
    each_holds(nfa, looks, text, at)
}

/// The same, kind by kind.
fn each_holds(nfa: &NFA, looks: u32, text: &[u8], at: usize) -> bool
    requires { at ≤ length text.now }
    ensures { result ≡ all_hold nfa.now.terminator text.now looks at }
{
    for number in 0..10 {
        if fails(nfa, looks, number, text, at) {
            return false;
        }
    }
    true
}

/// Whether the kind of this number is in the set and does not hold at the place.
fn fails(nfa: &NFA, looks: u32, number: usize, text: &[u8], at: usize) -> bool
    requires number { number < few_looks }
    requires at { at ≤ length text.now }
    ensures { result ≡ ((bit_at looks number == 1) && not (holds nfa.now.terminator text.now (kind_at number) at)) }
{
    if !has_bit(looks, number) {
        return false;
    }
    !nfa.look_matcher().matches(look_at(number), text, at)
}

/// This place, as a slot has it.
fn place_of(at: usize) -> Option<NonMaxUsize>
    requires { at < usize.MAX }
    ensures { result ≡ Some at }
{
    NonMaxUsize::new(at)
}

/// The place, where slot k is in the set, and else the other one.
#[inline(always)]
fn pick(set: u32, k: usize, at: usize, other: Option<NonMaxUsize>) -> Option<NonMaxUsize>
    requires { at < usize.MAX }
    ensures { result ≡ (if bit_at set k == 1 then Some at else other) }
{
    if has_bit(set, k) {
        return place_of(at);
    }
    other
}

/// Writes the place into each slot of the set, as far as there is room.
#[inline(always)]
pub fn write_slots(set: u32, at: usize, places: &mut [Option<NonMaxUsize>])
    requires { at < usize.MAX }
    ensures len { length places.new ≡ length places.old }
    ensures value { (k : ℕ) → k < length places.new
        → slice_index_or places.new k None ≡ (if bit_at set k == 1 then Some at else slice_index_or places.old k None) }
{
    if set == 0 {
        return;
    }
    write_each(set, at, places);
}

/// The same, member by member; behind the first one without room there is none with it.
#[inline(always)]
fn write_each(set: u32, at: usize, places: &mut [Option<NonMaxUsize>])
    requires { at < usize.MAX }
    ensures len { length places.new ≡ length places.old }
    ensures value { (k : ℕ) → k < length places.new
        → slice_index_or places.new k None ≡ (if bit_at set k == 1 then Some at else slice_index_or places.old k None) }
{
    let mut left = set;
    while left > 0 {
        let k = left.trailing_zeros() as usize;
        if k >= places.len() {
            return;
        }
        places[k] = place_of(at);
        left &= !(1 << k);
    }
}

/// Puts the place into each slot of the set, and into the others what stands in these places.
#[inline(never)]
pub fn put_slots(
    set: u32,
    at: usize,
    places: &[Option<NonMaxUsize>],
    out: &mut [Option<NonMaxUsize>],
)
    requires at { at < usize.MAX }
    requires len { length places.now ≡ length out.old }
    ensures len { length out.new ≡ length out.old }
    ensures value { (k : ℕ) → k < length out.new
        → slice_index_or out.new k None ≡ (if bit_at set k == 1 then Some at else slice_index_or places.now k None) }
{
    for k in 0..places.len() {
        out[k] = pick(set, k, at, places[k]);
    }
}
