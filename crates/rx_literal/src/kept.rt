//! The bytes of a literal, as they are kept.
ghost use Rattle.std.specs.Prelude.{◌≡◌, ◌+◌, ◌≤◌, ◌++◌, length, take, IfOk};

use std::alloc::{AllocError, Global};
use std::marker::Model;

/// The most bytes that stand in place.
const IN_PLACE: usize = 24;

/// Bytes. Up to 24 of them stand in place, since most literals are short, and memory of its own for each would cost more
/// than what is done with it.
#[derive(Drop)]
pub struct KeptBytes {
    /// Those in place, the first `len` of these.
    few: [u8; 24],
    len: usize,
    /// All of them, where none are in place.
    many: Vec<u8>,
}

impl Model for KeptBytes {
    ghost use Rattle.std.specs.Prelude.{ℕ, List, [], ◌++◌, ◌≡◌, ◌≢◌, ◌≤◌, take};

    ghost Value = { List ℕ };

    ghost view = { λ b. take b.len b.few ++ b.many.items };

    ghost invariant = { λ b. (b.len ≤ 24) × (b.len ≢ 0 → b.many.items ≡ []) };
}

impl KeptBytes {
    /// These bytes, which are given away.
    pub fn given(bytes: Vec<u8>) -> KeptBytes
        ensures { result ≡ bytes.items }
    {
        KeptBytes {
            few: [0; 24],
            len: 0,
            many: bytes,
        }
    }

    /// A copy of these bytes.
    pub fn copied(alloc: Global, bytes: &[u8]) -> Result<KeptBytes, AllocError>
        ensures { IfOk result (λ b. b ≡ bytes.now) }
    {
        if bytes.len() > IN_PLACE {
            return Ok(KeptBytes::given(Vec::from_slice(alloc, bytes)?));
        }
        Ok(KeptBytes::in_place(alloc, bytes, &[]))
    }

    /// The first bytes, and then the second ones.
    pub fn joined(alloc: Global, first: &[u8], second: &[u8]) -> Result<KeptBytes, AllocError>
        ensures { IfOk result (λ b. b ≡ first.now ++ second.now) }
    {
        if first.len() + second.len() > IN_PLACE {
            let mut both = Vec::from_slice(alloc, first)?;
            both.extend_from_slice(second)?;
            return Ok(KeptBytes::given(both));
        }
        Ok(KeptBytes::in_place(alloc, first, second))
    }

    /// The same of few bytes.
    fn in_place(alloc: Global, first: &[u8], second: &[u8]) -> KeptBytes
        requires { length first.now + length second.now ≤ 24 }
        ensures { result ≡ first.now ++ second.now }
    {
        let mut few = [0; 24];
        put_both(&mut few, first, second);
        KeptBytes {
            few,
            len: first.len() + second.len(),
            many: Vec::new(alloc),
        }
    }

    /// The bytes.
    pub fn as_slice(&self) -> &[u8]
        ensures { result.now ≡ self.now }
    {
        if self.len == 0 {
            return &self.many;
        }
        &self.few[..self.len]
    }

    /// The same bytes.
    pub fn cloned(&self) -> Result<KeptBytes, AllocError>
        ensures { IfOk result (λ b. b ≡ self.now) }
    {
        KeptBytes::copied(*self.many.allocator(), self.as_slice())
    }
}

/// Puts the first bytes at the front, and the second ones after them.
fn put_both(few: &mut [u8], first: &[u8], second: &[u8])
    requires { length first.now + length second.now ≤ length few.old }
    ensures len { length few.new ≡ length few.old }
    ensures put { take (length first.now + length second.now) few.new ≡ first.now ++ second.now }
{
    let middle = first.len();
    let end = middle + second.len();
    few[..middle].copy_from_slice(first);
    few[middle..end].copy_from_slice(second);
}
