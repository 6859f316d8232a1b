//! Searches for any number of needles, by an automaton.
ghost use Rattle.std.specs.Prelude.{◌≡◌, ◌≤◌, ℕ, List, length, map, IfOk};
ghost use Rattle.std.specs.Vec.{vec_items};
ghost use Rattle.rx_prefilter.specs.Needles.{span_at, first_span};

mod automaton;
mod links;
mod trie;

use crate::needles;
use automaton::Automaton;
use rx_search::{Memory, Span};
use std::alloc::Global;
use std::marker::Model;

/// Any needles that are not empty.
#[derive(Drop)]
pub(crate) struct AhoCorasick {
    automaton: Automaton,
}

impl Model for AhoCorasick {
    ghost use Rattle.std.specs.Prelude.{ℕ, List, map};

    ghost Value = { List (List ℕ) };

    ghost use Rattle.std.specs.Vec.{vec_items};
    ghost use Rattle.rx_prefilter.specs.Automata.{IsAutomaton};

    ghost view = { λ a. map vec_items a.automaton.needles.items };

    ghost invariant = { λ a. IsAutomaton a.automaton };
}

impl AhoCorasick {
    /// A search for these needles.
    pub(crate) fn new(alloc: Global, needles: &[Vec<u8>]) -> Result<AhoCorasick, Memory>
        ensures { IfOk result (λ a. a ≡ map vec_items needles.now) }
    {
        Ok(AhoCorasick {
            automaton: Automaton::new(alloc, needles)?,
        })
    }

    /// The needles.
    pub(crate) fn needles(&self) -> &[Vec<u8>]
        ensures { map vec_items result.now ≡ self.now }
    {
        &self.automaton.needles
    }

    /// Where the first needle of the list lies that begins at the least place from `from` on.
    pub(crate) fn find(&self, text: &[u8], from: usize) -> Option<Span>
        requires { from ≤ length text.now }
        ensures { result ≡ first_span self.now text.now from }
    {
        self.automaton.find(text, from)
    }

    /// The same of the needles that begin at `at`.
    pub(crate) fn prefix(&self, text: &[u8], at: usize) -> Option<Span>
        requires { at ≤ length text.now }
        ensures { result ≡ span_at self.now text.now at }
    {
        needles::span_at(&self.automaton.needles, text, at)
    }
}
