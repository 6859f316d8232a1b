//! Jumps to bytes of which each needle has one.
ghost use Rattle.std.specs.Prelude.{◌≡◌, ◌<◌, ◌≤◌, ℕ, List, true, All, length, map, IfSome};
ghost use Rattle.std.specs.Vec.{vec_items};
ghost use Rattle.memchr.specs.Find.{IsFirstByte};
ghost use Rattle.rx_prefilter.specs.Bytes.{is_one_of};
ghost use Rattle.rx_prefilter.specs.Jumps.{IsJumpFor};

use memchr::arch::all::packedpair::{DefaultFrequencyRank, HeuristicFrequencyRank};
use memchr::{memchr, memchr2, memchr3};

/// One, two or three bytes.
#[derive(Clone, Copy)]
pub enum Few {
    One(u8),
    Two(u8, u8),
    Three(u8, u8, u8),
}

/// Few bytes, one of which stands at this offset of each needle.
#[derive(Clone, Copy)]
pub struct Jump {
    pub offset: usize,
    pub bytes: Few,
}

impl Jump {
    ghost use Rattle.rx_prefilter.specs.Jumps.{IsNextPlace};

    /// The jump by the rarest bytes that stand at one of the first `count` offsets. None where at each of them stand more
    /// than three.
    pub fn of(needles: &[Vec<u8>], count: usize) -> Option<Jump>
        requires { All (λ needle. count ≤ length needle) (map vec_items needles.now) }
        ensures { IfSome result (λ jump. IsJumpFor jump (map vec_items needles.now)) }
    {
        let mut best: Option<Jump> = None;
        for offset in 0..count {
            best = rarer(best, Jump::at(needles, offset));
        }
        best
    }

    /// The jump by the bytes at this offset. None where these are more than three.
    fn at(needles: &[Vec<u8>], offset: usize) -> Option<Jump>
        requires { All (λ needle. offset < length needle) (map vec_items needles.now) }
        ensures { IfSome result (λ jump. IsJumpFor jump (map vec_items needles.now)) }
    {
        let mut bytes = Few::One(needles.first()?[offset]);
        for needle in needles {
            bytes = bytes.with(needle[offset])?;
        }
        Some(Jump { offset, bytes })
    }

    /// The next place from `at` on at which a needle may begin.
    #[inline(always)]
    pub fn next(&self, text: &[u8], at: usize) -> Option<usize>
        requires { at ≤ length text.now }
        ensures { (needles : List (List ℕ)) → IsJumpFor self.now needles → IsNextPlace needles text.now at result }
    {
        if text.len() - at < self.offset {
            return None;
        }
        match self.bytes.first_in(&text[at + self.offset..]) {
            Some(found) => Some(at + found),
            None => None,
        }
    }

    /// How common its bytes are.
    fn rank(&self) -> usize {
        match self.bytes {
            Few::One(a) => rank(a),
            Few::Two(a, b) => rank(a) + rank(b),
            Few::Three(a, b, c) => rank(a) + rank(b) + rank(c),
        }
    }
}

/// How common the byte is. It counts for something, so that fewer bytes are better.
fn rank(byte: u8) -> usize
    ensures { result < 512 }
{
    DefaultFrequencyRank.rank(byte) as usize + 1
}

/// The jump by rarer bytes, where there are two.
fn rarer(best: Option<Jump>, other: Option<Jump>) -> Option<Jump>
    ensures { (needles : List (List ℕ)) → IfSome best (λ jump. IsJumpFor jump needles)
        → IfSome other (λ jump. IsJumpFor jump needles) → IfSome result (λ jump. IsJumpFor jump needles) }
{
    let Some(first) = best else {
        return other;
    };
    let Some(second) = other else {
        return best;
    };
    if second.rank() < first.rank() {
        other
    } else {
        best
    }
}

impl Few {
    ghost use Rattle.rx_prefilter.specs.Jumps.{few_bytes, Widens};

    /// Whether the byte is one of these.
    #[tactic(auto, unfolding(crate::specs::Jumps::few_bytes))]
    fn has(self, byte: u8) -> bool
        ensures { result ≡ is_one_of (few_bytes self) byte }
    {
        match self {
            Few::One(a) => byte == a,
            Few::Two(a, b) => byte == a || byte == b,
            Few::Three(a, b, c) => byte == a || byte == b || byte == c,
        }
    }

    /// These bytes and this one. None where they are more than three.
    #[tactic(auto, unfolding(crate::specs::Jumps::few_bytes))]
    fn with(self, byte: u8) -> Option<Few>
        ensures { IfSome result (λ more. Widens (few_bytes self) (few_bytes more) × (is_one_of (few_bytes more) byte ≡ true)) }
    {
        if self.has(byte) {
            return Some(self);
        }
        match self {
            Few::One(a) => Some(Few::Two(a, byte)),
            Few::Two(a, b) => Some(Few::Three(a, b, byte)),
            Few::Three(_, _, _) => None,
        }
    }

    /// The first place of the text at which one of these stands.
    #[inline(always)]
    #[tactic(auto, unfolding(crate::specs::Jumps::few_bytes))]
    fn first_in(self, text: &[u8]) -> Option<usize>
        ensures { IsFirstByte (is_one_of (few_bytes self)) text.now result }
    {
        match self {
            Few::One(a) => memchr(a, text),
            Few::Two(a, b) => memchr2(a, b, text),
            Few::Three(a, b, c) => memchr3(a, b, c, text),
        }
    }
}
