//! How the keys of a lazy DFA are made.
ghost use Rattle.std.specs.Prelude.{◌≡◌, ◌<◌, Some, length, OnOk, IfSome, IfNone};
ghost use Rattle.rx_determinize.specs.Sight.{class_kept, class_beside};
ghost use Rattle.rx_dfa.specs.Automaton.{IsReadable, MakesQuit};
ghost use Rattle.rx_dfa.specs.Lazy.{IsLazySound, key_after, column_of};
ghost use Rattle.rx_dfa.specs.Scratch.{room_of};
ghost use Rattle.rx_dfa.specs.Source.{IsWhole};
ghost use Rattle.rx_dfa.specs.StateKey.{key_of, StandsBelow};

use crate::determinize::Source;
use crate::lazy::lazy_dfa::Lazy;
use crate::scratch::Scratch;
use crate::state_key::StateKey;
use rx_search::Memory;

impl Lazy {
    /// The NFA, as keys are made of it.
    pub(crate) fn source(&self) -> Source<'_>
        ensures whole { IsWhole result }
        ensures states { result.states.now ≡ self.now.dfa.nfa.states }
        ensures start { result.start ≡ self.now.dfa.nfa.start_anchored }
        ensures matcher { result.matcher ≡ self.now.dfa.nfa.terminator }
        ensures reverse { result.reverse ≡ self.now.dfa.nfa.reverse }
        ensures kind { result.kind ≡ self.now.dfa.kind }
    {
        Source {
            states: self.nfa.states(),
            start: self.nfa.start_anchored(),
            matcher: *self.nfa.look_matcher(),
            reverse: self.nfa.is_reverse(),
            kind: self.kind,
        }
    }

    /// What is kept of a byte: the one that stands for its class.
    pub(crate) fn kept(&self, byte: u8) -> Option<u8>
        ensures { result ≡ class_kept self.now.dfa.keeps self.now.dfa.classes self.now.dfa.bytes byte }
    {
        if !self.alphabet.keeps {
            return None;
        }
        Some(self.alphabet.bytes[self.alphabet.classes.get(byte) as usize])
    }

    /// The same of a byte that may not be there.
    pub(crate) fn kept_beside(&self, beside: Option<u8>) -> Option<u8>
        ensures { result ≡ class_beside self.now.dfa.keeps self.now.dfa.classes self.now.dfa.bytes beside }
    {
        match beside {
            Some(byte) => self.kept(byte),
            None => None,
        }
    }

    /// The byte, if it is not read: it is above 7F, and the NFA asks for words of Unicode.
    pub(crate) fn refused(&self, byte: Option<u8>) -> Option<u8>
        ensures none { IfNone result (IsReadable self.now.dfa.nfa byte) }
        ensures some { IfSome result (λ b. (byte ≡ Some b) × MakesQuit self.now.dfa.nfa b) }
        ensures sound { IsLazySound self.now }
    {
        let alphabet = &self.alphabet;
        let Some(byte) = byte else {
            return None;
        };
        if alphabet.reads(byte) {
            return None;
        }
        Some(byte)
    }

    /// The column of this byte, or of the end of input.
    pub(crate) fn column(&self, byte: Option<u8>) -> usize
        ensures value { result ≡ column_of self.now.dfa byte }
        ensures within { result < self.now.stride }
        ensures sound { IsLazySound self.now }
    {
        match byte {
            Some(byte) => self.alphabet.classes.get(byte) as usize,
            None => self.alphabet.bytes.len(),
        }
    }

    /// Makes `into` the key after this byte, or after the end of input.
    pub(crate) fn make_next(
        &self,
        from: &StateKey,
        byte: Option<u8>,
        scratch: &mut Scratch,
        into: &mut StateKey,
    ) -> Result<(), Memory>
        requires below { StandsBelow (length self.now.dfa.nfa.states) from.now }
        requires room { room_of scratch.old ≡ length self.now.dfa.nfa.states }
        ensures key { OnOk result (key_of into.new ≡ key_after self.now.dfa (key_of from.now) byte) }
        ensures below { OnOk result (StandsBelow (length self.now.dfa.nfa.states) into.new) }
        ensures room { room_of scratch.new ≡ length self.now.dfa.nfa.states }
    {
        let source = self.source();
        match byte {
            Some(byte) => source.step(from, byte, self.kept(byte), scratch, into),
            None => source.end(from, None, scratch, into),
        }
    }
}
