//! Which states were tried at which places.
ghost use Rattle.std.specs.Prelude.{◌≡◌, ◌*◌, ◌+◌, ◌<◌, ◌≤◌, ℕ, Bool, false, not, ◌||◌, ◌==◌, length, IfOk, OnOk, OnErr, IsOk, ◌^◌};
ghost use Rattle.rx_engines.specs.Backtrack.{is_set, words_used};

use rx_search::Memory;
use std::alloc::Global;
use std::marker::Model;

/// A set of numbers, a bit for each. It knows how many of its words were used, so that to empty it costs no more
/// than what went in. A contract sees it as its words.
#[derive(Drop)]
pub struct Visited {
    words: Vec<u64>,
    /// No bit is set in a word from here on.
    used: usize,
}

impl Model for Visited {
    ghost use Rattle.std.specs.Prelude.{◌≡◌, ◌≤◌, List, ℕ, length, slice_index};

    ghost Value = { List ℕ };

    ghost view = { λ v. v.words.items };

    ghost invariant = { λ v. (v.used ≤ length v.words.items)
        × ((k : ℕ) → v.used ≤ k → slice_index v.words.items k ≡ 0) };
}

impl Visited {
    /// A set with room for the numbers below `len`.
    pub fn new(alloc: Global, len: usize) -> Result<Visited, Memory>
        requires { len < 2 ^ 63 }
        ensures room { IfOk result (λ v. len ≤ 64 * length v) }
        ensures none { IfOk result (λ v. words_used v ≡ 0) }
    {
        Ok(Visited {
            words: vec![in alloc; 0u64; (len + 63) / 64]?,
            used: 0,
        })
    }

    /// An empty set with the same room.
    pub fn same_room(&self, alloc: Global) -> Result<Visited, Memory>
        ensures room { IfOk result (λ v. length v ≡ length self.now) }
        ensures none { IfOk result (λ v. words_used v ≡ 0) }
    {
        Ok(Visited {
            words: vec![in alloc; 0u64; self.words.len()]?,
            used: 0,
        })
    }

    /// Empties the set, and gives it room for the numbers below `len`, if it has less. Where there is no memory, it stays
    /// as it was.
    pub fn grow(&mut self, alloc: Global, len: usize) -> Result<(), Memory>
        requires { len < 2 ^ 63 }
        ensures room { OnOk result (len ≤ 64 * length self.new) }
        ensures more { length self.old ≤ length self.new }
        ensures none { OnOk result (words_used self.new ≡ 0) }
        ensures err { OnErr result (self.new ≡ self.old) }
        ensures sure { len ≤ 64 * length self.old → IsOk result }
    {
        if (len + 63) / 64 <= self.words.len() {
            self.clear();
            return Ok(());
        }
        *self = Visited::new(alloc, len)?;
        Ok(())
    }

    /// Empties the set.
    pub fn clear(&mut self)
        ensures empty { (n : ℕ) → is_set self.new n ≡ false }
        ensures none { words_used self.new ≡ 0 }
        ensures room { length self.new ≡ length self.old }
    {
        for k in 0..self.used {
            self.words[k] = 0;
        }
        self.used = 0;
    }

    /// Returns whether the number was new.
    pub fn insert(&mut self, n: usize) -> bool
        requires { n < 64 * length self.old }
        ensures new { result ≡ not (is_set self.old n) }
        ensures after { (k : ℕ) → is_set self.new k ≡ ((n == k) || is_set self.old k) }
        ensures room { length self.new ≡ length self.old }
    {
        let word = self.words[n / 64];
        let bit = 1u64 << (n % 64);
        self.words[n / 64] = word | bit;
        self.used = self.used.max(n / 64 + 1);
        word & bit == 0
    }
}
