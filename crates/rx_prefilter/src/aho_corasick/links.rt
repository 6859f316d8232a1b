//! The automaton of a trie, whose table is filled state by state.
ghost use Rattle.std.specs.Prelude.{◌≡◌, ◌≢◌, ◌+◌, ◌*◌, ◌<◌, ◌≤◌, false, All, length, map, slice_index, IfOk};
ghost use Rattle.std.specs.Vec.{vec_items};

use crate::aho_corasick::trie::{STOP, Trie};
use rx_search::Memory;
use std::alloc::Global;

/// A trie whose table is being filled. Where a search may leave the bytes that lead to a state for the end of them
/// that may begin a needle, `fails` has the state of that end. The states in `queue` have been reached, those of fewer
/// bytes first.
#[derive(Drop)]
pub struct Links {
    pub needles: Vec<Vec<u8>>,
    pub next: Vec<u32>,
    pub depths: Vec<usize>,
    pub ends: Vec<bool>,
    pub fails: Vec<u32>,
    pub queue: Vec<u32>,
}

impl Links {
    ghost use Rattle.rx_prefilter.specs.Automata.{IsLinked, IsLater};
    ghost use Rattle.rx_prefilter.specs.Tries.{stop, IsTrie, HasNeedle, StandsAt};

    /// A trie of these needles, with nothing filled.
    pub fn of(alloc: Global, needles: Vec<Vec<u8>>, trie: Trie) -> Result<Links, Memory>
        requires trie { IsTrie trie }
        requires all { All (HasNeedle trie) (map vec_items needles.items) }
        ensures { IfOk result (λ links. IsLinked links × (links.needles ≡ needles)) }
    {
        let states = trie.depths.len();
        Ok(Links {
            needles,
            next: trie.next,
            depths: trie.depths,
            ends: trie.ends,
            fails: vec![in alloc; STOP; states]?,
            queue: vec![in alloc; 0; 1]?,
        })
    }

    /// Fills the table, the states of fewer bytes first.
    pub fn fill(&mut self) -> Result<(), Memory>
        requires { IsLinked self.old }
        ensures linked { IfOk result (λ _. IsLinked self.new) }
        ensures same { self.new.needles ≡ self.old.needles }
    {
        for turn in 0..self.depths.len() {
            self.fill_turn(turn)?;
        }
        Ok(())
    }

    /// Fills the row of the state that was reached at this turn.
    fn fill_turn(&mut self, turn: usize) -> Result<(), Memory>
        requires { IsLinked self.old }
        ensures linked { IfOk result (λ _. IsLinked self.new) }
        ensures same { self.new.needles ≡ self.old.needles }
    {
        if turn >= self.queue.len() {
            return Ok(());
        }
        let state = self.queue[turn] as usize;
        for byte in 0..256 {
            self.fill_place(state, byte)?;
        }
        Ok(())
    }

    /// Fills the place of a byte in the row of a state, or links the state that stands there.
    fn fill_place(&mut self, state: usize, byte: usize) -> Result<(), Memory>
        requires linked { IsLinked self.old }
        requires state { state < length self.old.depths.items }
        requires byte { byte < 256 }
        ensures linked { IfOk result (λ _. IsLinked self.new) }
        ensures same { self.new.needles ≡ self.old.needles }
        ensures tall { self.new.depths ≡ self.old.depths }
    {
        let next = self.next[state * 256 + byte];
        if next == STOP {
            self.pass_on(state, byte);
            return Ok(());
        }
        if self.depths[next as usize] <= self.depths[state] {
            return Ok(());
        }
        self.link(state, byte, next)
    }

    /// Fills a place where no state stands.
    fn pass_on(&mut self, state: usize, byte: usize)
        requires linked { IsLinked self.old }
        requires state { state < length self.old.depths.items }
        requires byte { byte < 256 }
        requires empty { slice_index self.old.next.items (state * 256 + byte) ≡ stop }
        ensures linked { IsLinked self.new }
        ensures same { self.new.needles ≡ self.old.needles }
        ensures tall { self.new.depths ≡ self.old.depths }
    {
        let later = self.later(state, byte);
        self.next[state * 256 + byte] = later;
    }

    /// Links the state that a byte more leads to.
    fn link(&mut self, state: usize, byte: usize, child: u32) -> Result<(), Memory>
        requires linked { IsLinked self.old }
        requires state { state < length self.old.depths.items }
        requires byte { byte < 256 }
        requires child { StandsAt self.old.next.items (state * 256 + byte) child }
        requires more { slice_index self.old.depths.items state < slice_index self.old.depths.items child }
        ensures linked { IfOk result (λ _. IsLinked self.new) }
        ensures same { self.new.needles ≡ self.old.needles }
        ensures tall { self.new.depths ≡ self.old.depths }
    {
        let later = self.later(state, byte);
        self.queue.push(child)?;
        if self.ends[child as usize] {
            return Ok(());
        }
        self.fails[child as usize] = later;
        Ok(())
    }

    /// The state that a byte leads to where a search leaves the bytes of `state`.
    fn later(&self, state: usize, byte: usize) -> u32
        requires linked { IsLinked self.now }
        requires state { state < length self.now.depths.items }
        requires byte { byte < 256 }
        ensures { IsLater self.now.next.items self.now.ends.items self.now.fails.items state byte result }
    {
        if state == 0 {
            if self.ends[0] {
                return STOP;
            }
            return 0;
        }
        let fail = self.fails[state];
        if fail == STOP {
            return STOP;
        }
        self.next[fail as usize * 256 + byte]
    }
}
