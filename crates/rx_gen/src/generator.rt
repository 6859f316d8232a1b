//! The haystacks that a number gives: draws of a linear congruential generator.
ghost use Rattle.std.specs.Prelude.{◌≡◌, ◌+◌, ◌<◌, ◌^◌, ℕ, map, IfOk, OnOk, suc};
ghost use Rattle.std.specs.Vec.{vec_items};
ghost use Rattle.rx_gen.specs.Generated.{state_at, draw_at, length_at, haystack_at, generated};

use rx_memory::Memory;
use std::alloc::Global;

/// How many letters there are.
const LETTERS: usize = 8;

/// A haystack is shorter than this.
const LENGTHS: usize = 16;

/// A linear congruential generator.
#[derive(Drop)]
struct Generator {
    state: u64,
    ghost small: { state < 2 ^ 32 },
}

impl Generator {
    /// The next draw.
    fn draw(&mut self) -> usize
        ensures state { (seed k : ℕ) → self.old.state ≡ state_at seed k → self.new.state ≡ state_at seed (suc k) }
        ensures value { (seed k : ℕ) → self.old.state ≡ state_at seed k → result ≡ draw_at seed k }
    {
        self.state = (self.state * 1103515245 + 12345) % 2147483648;
        (self.state / 65536) as usize
    }
}

/// So many haystacks from a seed. Each has at most 15 letters, from `a` to `h`.
///
/// # Errors
///
/// `Memory`, where there was no memory for them.
pub fn haystacks(alloc: Global, seed: u32, count: usize) -> Result<Vec<Vec<u8>>, Memory>
    ensures { IfOk result (λ all. map vec_items all.items ≡ generated seed count) }
{
    let mut generator = Generator { state: seed as u64 };
    let mut all = Vec::with_capacity(alloc, count)?;
    for _haystack in 0..count {
        let text = haystack(alloc, &mut generator)?;
        all.push(text)?;
    }
    Ok(all)
}

/// The next haystack: a draw gives its length, and then each letter is drawn.
fn haystack(alloc: Global, generator: &mut Generator) -> Result<Vec<u8>, Memory>
    ensures text { (seed k : ℕ) → generator.old.state ≡ state_at seed k → IfOk result (λ text. text.items ≡ haystack_at seed k) }
    ensures state { (seed k : ℕ) → generator.old.state ≡ state_at seed k → OnOk result (generator.new.state ≡ state_at seed (k + 1 + length_at seed k)) }
{
    let length = generator.draw() % LENGTHS;
    let mut text = Vec::with_capacity(alloc, length)?;
    for _letter in 0..length {
        let letter = generator.draw() % LETTERS;
        text.push(b'a' + letter as u8)?;
    }
    Ok(text)
}
