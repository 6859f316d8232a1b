//! What there is to do.
ghost use Rattle.std.specs.Prelude.{◌≡◌, ◌+◌, ◌^◌, ◌<◌, ◌≤◌, ℕ, IfOk, OnOk};

use rx_memory::Memory;
use std::alloc::Global;

/// Works that are numbered, each with an answer that many threads may look for, and what the answers become together.
pub trait Task {
    /// The answers to some works with numbers one after another: the text of them, say.
    type Value: Send + Drop;
    /// What a worker works with, and another one may use after it: a cache, say.
    type Scratch: Send + Drop;
    /// What the answers become together.
    type Whole: Send + Drop;

    /// How many works there are.
    ghost size: { Self → ℕ };

    /// What the answers to so many works are, the first of which has this number.
    ghost answers: { Self → ℕ → ℕ → Self.Value → Type 0 };

    /// What a scratch value has to be for a work.
    ghost fits: { Self → Self.Scratch → Type 0 };

    /// What the answers to the numbers below this one are together.
    ghost gathers: { Self → ℕ → Self.Whole → Type 0 };

    /// How many works there are.
    fn count(&self) -> usize
        ensures size { result ≡ size self.now }
        ensures room { result < 2 ^ 63 };

    /// A new scratch value.
    ///
    /// # Errors
    ///
    /// Only want of memory.
    fn make(&self, alloc: Global) -> Result<Self::Scratch, Memory>;

    /// Makes a scratch value fit, whatever it was used for.
    ///
    /// # Errors
    ///
    /// Only want of memory.
    fn fit(&self, alloc: Global, scratch: &mut Self::Scratch) -> Result<(), Memory>
        ensures { OnOk result (fits self.now scratch.new) };

    /// The answers to no works, with as much room as `room` told of those that the worker found last, or 0.
    ///
    /// # Errors
    ///
    /// Only want of memory.
    fn open(&self, alloc: Global, room: usize) -> Result<Self::Value, Memory>
        ensures { IfOk result (λ value. (i : ℕ) → answers self.now i 0 value) };

    /// How much room answers take. It changes nothing of what is found.
    fn room(&self, value: &Self::Value) -> usize;

    /// Adds the answer to the work of a number, which comes next. The scratch value then fits as before.
    ///
    /// # Errors
    ///
    /// Only want of memory.
    fn answer(
        &self,
        alloc: Global,
        index: usize,
        scratch: &mut Self::Scratch,
        value: &mut Self::Value,
    ) -> Result<(), Memory>
        requires there { index < size self.now }
        requires fit { fits self.now scratch.old }
        ensures answer { (i n : ℕ) → index ≡ i + n → answers self.now i n value.old → OnOk result (answers self.now i (n + 1) value.new) }
        ensures stays { OnOk result (fits self.now scratch.new) };

    /// What no answers are together.
    fn begin(&self, alloc: Global) -> Self::Whole
        ensures { gathers self.now 0 result };

    /// Adds the answers to so many numbers, which come next.
    ///
    /// # Errors
    ///
    /// Only want of memory.
    fn put(
        &self,
        index: usize,
        count: usize,
        value: Self::Value,
        whole: &mut Self::Whole,
    ) -> Result<(), Memory>
        requires there { index + count ≤ size self.now }
        requires answers { answers self.now index count value }
        requires before { gathers self.now index whole.old }
        ensures { OnOk result (gathers self.now (index + count) whole.new) };
}
