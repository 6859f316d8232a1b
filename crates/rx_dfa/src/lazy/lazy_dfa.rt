//! A lazy DFA.
ghost use Rattle.std.specs.Prelude.{◌≡◌};
ghost use Rattle.rx_dfa.specs.Lazy.{IsLazySound};

use crate::alphabet::Alphabet;
use rx_nfa::NFA;
use rx_search::MatchKind;
use std::marker::Model;

/// A lazy DFA of an NFA: its states are made as a search meets them, and kept in a cache.
///
/// What the cache holds never changes an answer. A search that finds no room for a state clears the cache, and goes on; only where
/// that happened too often for too little it gives up.
#[derive(Drop)]
pub struct Lazy {
    pub(crate) nfa: NFA,
    pub(crate) kind: MatchKind,
    pub(crate) alphabet: Alphabet,
    /// How many cells a row of the table has.
    pub(crate) stride: usize,
    /// The most bytes that a cache may account.
    pub(crate) capacity: usize,
}

impl Model for Lazy {
    ghost use Rattle.std.specs.Prelude.{◌≡◌, Bool};
    ghost use Rattle.rx_dfa.specs.Automaton.{Dfa};
    ghost use Rattle.rx_dfa.specs.Alphabet.{IsAlphabetOf};
    ghost use Rattle.rx_dfa.specs.Lazy.{LazyValue, IsLazySound};

    ghost Value = { LazyValue };

    ghost view = { λ l. record {
      dfa = record { nfa = l.nfa; kind = l.kind; classes = l.alphabet.classes; bytes = l.alphabet.bytes.items; keeps = l.alphabet.keeps };
      stride = l.stride;
      capacity = l.capacity;
    } };

    ghost invariant = { λ l. IsLazySound (record {
      dfa = record { nfa = l.nfa; kind = l.kind; classes = l.alphabet.classes; bytes = l.alphabet.bytes.items; keeps = l.alphabet.keeps };
      stride = l.stride;
      capacity = l.capacity;
    }) × ((byte_classes : Bool) × IsAlphabetOf l.nfa byte_classes l.alphabet) };
}

impl Lazy {
    /// How many cells a row of the table has.
    pub(crate) fn stride(&self) -> usize
        ensures value { result ≡ self.now.stride }
        ensures sound { IsLazySound self.now }
    {
        self.stride
    }

    /// The most bytes that a cache may account.
    pub(crate) fn capacity(&self) -> usize
        ensures value { result ≡ self.now.capacity }
        ensures sound { IsLazySound self.now }
    {
        self.capacity
    }
}
