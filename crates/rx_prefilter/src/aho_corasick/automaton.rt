//! The automaton of a list of needles.
ghost use Rattle.std.specs.Prelude.{◌≡◌, ◌≤◌, ◌<◌, ◌+◌, ◌-◌, length, map, slice_index, IfOk};
ghost use Rattle.std.specs.Vec.{vec_items};
ghost use Rattle.rx_prefilter.specs.Needles.{span_among, first_span};

use crate::aho_corasick::links::Links;
use crate::aho_corasick::trie::{STOP, Trie};
use crate::needles;
use rx_search::{Memory, Span};
use std::alloc::Global;

// One table look a byte, and nothing is kept of starts (DECISIONS: searches of many needles run an automaton in one flat table).
/// An automaton that reads a text byte by byte, by a table with a row of 256 states for each state. In a state the last
/// `depths` bytes may begin a needle, and no needle lies that begins before them. Where no state comes next, the needle
/// that is sought begins in these bytes.
#[derive(Drop)]
pub struct Automaton {
    pub needles: Vec<Vec<u8>>,
    pub next: Vec<u32>,
    pub depths: Vec<usize>,
}

impl Automaton {
    ghost use Rattle.rx_prefilter.specs.Automata.{IsAutomaton};

    /// The automaton of these needles.
    pub fn new(alloc: Global, needles: &[Vec<u8>]) -> Result<Automaton, Memory>
        ensures { IfOk result (λ a. IsAutomaton a × (map vec_items a.needles.items ≡ map vec_items needles.now)) }
    {
        let copies = needles::copied(alloc, needles)?;
        let trie = Trie::of(alloc, needles)?;
        let mut links = Links::of(alloc, copies, trie)?;
        links.fill()?;
        Ok(Automaton {
            needles: links.needles,
            next: links.next,
            depths: links.depths,
        })
    }

    /// Where the first needle of the list lies that begins at the least place from `from` on.
    pub fn find(&self, text: &[u8], from: usize) -> Option<Span>
        requires automaton { IsAutomaton self.now }
        requires within { from ≤ length text.now }
        ensures { result ≡ first_span (map vec_items self.now.needles.items) text.now from }
    {
        let mut state = 0;
        for at in from..text.len() {
            let next = self.next[state * 256 + text[at] as usize];
            if next != STOP {
                state = next as usize;
                continue;
            }
            if let Some(span) = self.look_back(text, at, state) {
                return Some(span);
            }
            state = 0;
        }
        self.look_back(text, text.len(), state)
    }

    /// The same among the places at which the bytes of `state` stand, which end at `at`, and at that place.
    #[inline(never)]
    fn look_back(&self, text: &[u8], at: usize, state: usize) -> Option<Span>
        requires state { state < length self.now.depths.items }
        requires behind { slice_index self.now.depths.items state ≤ at }
        requires within { at ≤ length text.now }
        ensures { result ≡ span_among (map vec_items self.now.needles.items) text.now (at - slice_index self.now.depths.items state)
            (slice_index self.now.depths.items state + 1) }
    {
        let depth = self.depths[state];
        for i in 0..depth + 1 {
            if let Some(span) = needles::span_at(&self.needles, text, at - depth + i) {
                return Some(span);
            }
        }
        None
    }
}
