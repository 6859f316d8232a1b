//! What was found in haystacks, in numbers.
ghost use Rattle.std.specs.Prelude.{◌≡◌, ◌++◌, ◌<◌, ◌^◌, length, map, sum_by, OnOk};
ghost use Rattle.std.specs.Vec.{vec_items};
ghost use Rattle.rx_gen.specs.Totals.{matches_of, covered_of, totals_of, totals_text};

use crate::number::push_number;
use rx_memory::Memory;

/// What was found in one haystack.
#[derive(Clone, Copy, Debug, PartialEq, Eq)]
pub struct Counts {
    /// How many matches there are.
    pub matches: usize,
    /// How long they are together, in bytes.
    pub covered: usize,
}

/// What was found in many.
#[derive(Clone, Copy, Debug, PartialEq, Eq)]
pub struct Totals {
    /// How many haystacks there are.
    pub haystacks: usize,
    /// How long they are together, in bytes.
    pub bytes: usize,
    /// How many matches are in them.
    pub matches: usize,
    /// How long the matches are together, in bytes.
    pub covered: usize,
}

/// The totals of these haystacks, in which so much was found.
pub fn totals_of(haystacks: &[Vec<u8>], found: &[Counts]) -> Totals
    requires bytes { sum_by length (map vec_items haystacks.now) < 2 ^ 64 }
    requires matches { sum_by matches_of found.now < 2 ^ 64 }
    requires covered { sum_by covered_of found.now < 2 ^ 64 }
    ensures { result ≡ totals_of (map vec_items haystacks.now) found.now }
{
    let bytes = bytes_in(haystacks);
    let mut matches = 0;
    let mut covered = 0;
    for one in found {
        matches += one.matches;
        covered += one.covered;
    }
    Totals {
        haystacks: haystacks.len(),
        bytes,
        matches,
        covered,
    }
}

/// How long the haystacks are together.
fn bytes_in(haystacks: &[Vec<u8>]) -> usize
    requires { sum_by length (map vec_items haystacks.now) < 2 ^ 64 }
    ensures { result ≡ sum_by length (map vec_items haystacks.now) }
{
    let mut bytes = 0;
    for haystack in haystacks {
        bytes += haystack.len();
    }
    bytes
}

/// Appends the line of these totals: `haystacks H bytes B matches M covered S`.
///
/// # Errors
///
/// `Memory`, where there was no memory for it.
pub fn push_totals(text: &mut Vec<u8>, totals: Totals) -> Result<(), Memory>
    ensures { OnOk result (text.new.items ≡ text.old.items ++ totals_text totals) }
{
    text.extend_from_slice(b"haystacks ")?;
    push_number(text, totals.haystacks)?;
    text.extend_from_slice(b" bytes ")?;
    push_number(text, totals.bytes)?;
    text.extend_from_slice(b" matches ")?;
    push_number(text, totals.matches)?;
    text.extend_from_slice(b" covered ")?;
    push_number(text, totals.covered)?;
    text.extend_from_slice(b"\n")?;
    Ok(())
}
