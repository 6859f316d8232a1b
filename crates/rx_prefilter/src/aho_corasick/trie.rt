//! The trie of a list of needles.
ghost use Rattle.std.specs.Prelude.{◌≡◌, ◌/◌, ◌<◌, [], ◌∷◌, All, length, map, slice_index, IfOk};
ghost use Rattle.std.specs.Vec.{vec_items};

use rx_search::Memory;
use std::alloc::Global;

/// In a table: no state comes next.
pub const STOP: u32 = 4294967295;

/// The states that the beginnings of the needles lead to, from state 0 on: `next` has a row of 256 states for each,
/// `depths` says how many bytes lead to it, and `ends` whether they are a needle.
#[derive(Drop)]
pub struct Trie {
    pub next: Vec<u32>,
    pub depths: Vec<usize>,
    pub ends: Vec<bool>,
}

impl Trie {
    ghost use Rattle.rx_prefilter.specs.Tries.{stop, IsTrie, Grows, HasNeedle, StandsAt, Walks};

    /// The trie of these needles.
    pub fn of(alloc: Global, needles: &[Vec<u8>]) -> Result<Trie, Memory>
        ensures { IfOk result (λ trie. IsTrie trie × All (HasNeedle trie) (map vec_items needles.now)) }
    {
        let mut trie = Trie::new(alloc)?;
        for needle in needles {
            trie.insert(needle)?;
        }
        Ok(trie)
    }

    /// The trie of no needle.
    fn new(alloc: Global) -> Result<Trie, Memory>
        ensures { IfOk result IsTrie }
    {
        Ok(Trie {
            next: vec![in alloc; STOP; 256]?,
            depths: vec![in alloc; 0; 1]?,
            ends: vec![in alloc; false; 1]?,
        })
    }

    /// Takes a needle in.
    fn insert(&mut self, needle: &[u8]) -> Result<(), Memory>
        requires { IsTrie self.old }
        ensures { IfOk result (λ _. IsTrie self.new × Grows self.old self.new × HasNeedle self.new needle.now) }
    {
        let mut state = 0;
        for byte in needle {
            state = self.step(state, *byte)?;
        }
        self.ends[state] = true;
        Ok(())
    }

    /// The state that a byte leads to, a new one where there was none.
    fn step(&mut self, state: usize, byte: u8) -> Result<usize, Memory>
        requires trie { IsTrie self.old }
        requires state { state < length self.old.depths.items }
        ensures { IfOk result (λ child. IsTrie self.new × Grows self.old self.new × Walks self.new.next.items state (byte ∷ []) child
            × (child < length self.new.depths.items)) }
    {
        let place = state * 256 + byte as usize;
        if self.next[place] != STOP {
            return Ok(self.next[place] as usize);
        }
        self.add(state, place)
    }

    /// A new state that stands at this place of the table, in the row of `state`.
    fn add(&mut self, state: usize, place: usize) -> Result<usize, Memory>
        requires trie { IsTrie self.old }
        requires row { place / 256 ≡ state }
        requires within { place < length self.old.next.items }
        requires empty { slice_index self.old.next.items place ≡ stop }
        ensures { IfOk result (λ child. IsTrie self.new × Grows self.old self.new × StandsAt self.new.next.items place child
            × (child < length self.new.depths.items)) }
    {
        let child = self.depths.len();
        if child >= STOP as usize {
            return Err(Memory);
        }
        self.depths.push(self.depths[state] + 1)?;
        self.ends.push(false)?;
        self.next.extend_from_slice(&[STOP; 256])?;
        self.next[place] = child as u32;
        Ok(child)
    }
}
