//! The marks of a table of pairs.
ghost use Rattle.std.specs.Prelude.{◌≡◌, ℕ, ◌+◌, ◌<◌, ◌≤◌, true, All, length, map, slice_index};
ghost use Rattle.std.specs.Int.{bit_at};
ghost use Rattle.std.specs.List.{list_all};
ghost use Rattle.std.specs.Vec.{vec_items};
ghost use Rattle.rx_prefilter.specs.Choices.{has_bytes};
ghost use Rattle.rx_prefilter.specs.Places.{pair_at, IsMarked, Keeps};

/// The most places of a needle that are marked: the bits of a byte.
const MOST_PLACES: usize = 8;

/// The number of the pair that stands at `at`.
#[inline(always)]
pub fn pair_at(text: &[u8], at: usize) -> usize
    requires { at + 1 < length text.now }
    ensures value { result ≡ pair_at text.now at }
    ensures bound { result < 65536 }
{
    text[at] as usize + 256 * text[at + 1] as usize
}

/// As many places as each needle has pairs at, or eight where it has more.
pub fn stride_of(needles: &[Vec<u8>]) -> usize
    requires { list_all (has_bytes 2) (map vec_items needles.now) ≡ true }
    ensures some { 0 < result }
    ensures few { result ≤ 8 }
    ensures short { All (λ needle. result < length needle) (map vec_items needles.now) }
{
    let mut stride = MOST_PLACES;
    for needle in needles {
        stride = stride.min(needle.len() - 1);
    }
    stride
}

/// Marks the pairs at the needle's first places.
pub fn mark(places: &mut [u8], needle: &[u8], stride: usize)
    requires whole { length places.old ≡ 65536 }
    requires few { stride ≤ 8 }
    requires short { stride < length needle.now }
    ensures marked { IsMarked places.new stride needle.now }
    ensures kept { Keeps places.old places.new }
{
    for j in 0..stride {
        mark_place(places, pair_at(needle, j), j);
    }
}

/// Marks a pair at place `j`.
fn mark_place(places: &mut [u8], pair: usize, j: usize)
    requires whole { pair < length places.old }
    requires few { j < 8 }
    ensures marked { bit_at (slice_index places.new pair) j ≡ 1 }
    ensures kept { Keeps places.old places.new }
{
    places[pair] |= 1 << j;
}
