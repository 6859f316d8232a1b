//! Classes of bytes: those that no state and no look-around tells apart, and the laws of bytes of one class.
ghost use Rattle.std.specs.Prelude.{◌≡◌, ℕ, ◌<◌, ◌≤◌, ◌||◌, false, true, Some, List, length, map, slice_index_or};
ghost use Rattle.rx_model.specs.Look as model;
ghost use Rattle.rx_model.specs.Look.{holds, byte_before, byte_after};
ghost use Rattle.rx_model.specs.Beside.{IsTold, AreAlike, BothOrNone};
ghost use Rattle.rx_search.specs.Look.{kind_of};
ghost use Rattle.rx_search.specs.LookSet.{has};
ghost use Rattle.rx_nfa.specs.Automaton.{at, route, Surroundings, onward, state_at, asks_for, automaton_over};
ghost use Rattle.rx_nfa.specs.ByteClasses.{is_word_edge, is_char_edge, is_crlf_edge, look_ends, transitions_end, state_ends, AreClassesOf, AreOfOneClass};
ghost use Rattle.rx_nfa.specs.Nfa.{Nfa, IsInRange};
ghost use Rattle.rx_nfa.specs.Row.{reading};
ghost use Rattle.rx_nfa.specs.declared.state.Transition.{Transition};

use crate::state::{State, Transition};
use rx_search::{ByteClassSet, ByteClasses, Look};

/// The classes of bytes that neither the states tell apart nor the look-arounds that they ask for.
pub fn classes_of(states: &[State], terminator: u8) -> ByteClasses
    ensures { AreClassesOf terminator states.now result }
{
    // So the classes are an equation (DECISIONS: byte classes are told by where they end).
    let mut set = ByteClassSet::new();
    for state in states {
        add_state(&mut set, terminator, state);
    }
    set.byte_classes()
}

/// Tells the bytes apart that the state tells apart.
fn add_state(set: &mut ByteClassSet, terminator: u8, state: &State)
    ensures { (b : ℕ) → b < 256 → slice_index_or set.new b false ≡ (state_ends terminator state.now b || slice_index_or set.old b false) }
{
    match state {
        State::ByteRange { start, end, .. } => set.set_range(*start, *end),
        State::Sparse { transitions } => add_transitions(set, transitions.as_slice()),
        State::Look { look, .. } => add_look(set, terminator, *look),
        State::Union { .. } => {}
        State::Capture { .. } => {}
        State::Fail => {}
        State::Match { .. } => {}
    }
}

fn add_transitions(set: &mut ByteClassSet, transitions: &[Transition])
    ensures { (b : ℕ) → b < 256 → slice_index_or set.new b false ≡ (transitions_end transitions.now b || slice_index_or set.old b false) }
{
    for transition in transitions {
        set.set_range(transition.start, transition.end);
    }
}

fn add_look(set: &mut ByteClassSet, terminator: u8, look: Look)
    ensures { (b : ℕ) → b < 256 → slice_index_or set.new b false ≡ (look_ends terminator (kind_of look) b || slice_index_or set.old b false) }
{
    match look {
        Look::Start => {}
        Look::End => {}
        Look::StartLF => set.set_range(terminator, terminator),
        Look::EndLF => set.set_range(terminator, terminator),
        Look::StartCRLF => add_crlf(set),
        Look::EndCRLF => add_crlf(set),
        Look::WordAscii => add_word_bytes(set),
        Look::WordAsciiNegate => add_word_bytes(set),
        Look::WordUnicode => add_word_chars(set),
        Look::WordUnicodeNegate => add_word_chars(set),
        Look::WordStartAscii => add_word_bytes(set),
        Look::WordEndAscii => add_word_bytes(set),
        Look::WordStartUnicode => add_word_chars(set),
        Look::WordEndUnicode => add_word_chars(set),
        Look::WordStartHalfAscii => add_word_bytes(set),
        Look::WordEndHalfAscii => add_word_bytes(set),
        Look::WordStartHalfUnicode => add_word_chars(set),
        Look::WordEndHalfUnicode => add_word_chars(set),
    }
}

fn add_crlf(set: &mut ByteClassSet)
    ensures { (b : ℕ) → b < 256 → slice_index_or set.new b false ≡ (is_crlf_edge b || slice_index_or set.old b false) }
{
    set.set_range(b'\n', b'\n');
    set.set_range(b'\r', b'\r');
}

fn add_word_bytes(set: &mut ByteClassSet)
    ensures { (b : ℕ) → b < 256 → slice_index_or set.new b false ≡ (is_word_edge b || slice_index_or set.old b false) }
{
    set.set_range(b'0', b'9');
    set.set_range(b'A', b'Z');
    set.set_range(b'_', b'_');
    set.set_range(b'a', b'z');
}

/// A character above 7F has bytes above 7F alone, of which none is a word byte.
fn add_word_chars(set: &mut ByteClassSet)
    ensures { (b : ℕ) → b < 256 → slice_index_or set.new b false ≡ (is_char_edge b || slice_index_or set.old b false) }
{
    add_word_bytes(set);
    set.set_range(0x80, 0xFF);
}

/// Two bytes of one class take the same steps in every state, and are alike to each kind of look-around that a state
/// asks for.
pub fn two_bytes_of_one_class_are_alike()
    ensures steps { (nfa : Nfa) → IsInRange nfa → (b c q : ℕ) (ts : List Transition) → AreOfOneClass nfa.classes b c
        → reading (state_at nfa.states q) ≡ Some ts → route ts b ≡ route ts c }
    ensures looks { (nfa : Nfa) → IsInRange nfa → (b c : ℕ) (kind : model.Look) → AreOfOneClass nfa.classes b c
        → has nfa.looks kind ≡ true → AreAlike nfa.terminator kind b c }
{}

/// Where a step of a state leads depends on the class of the byte at the place, and on which of the look-arounds that
/// the state asks for hold there, and on nothing else.
pub fn a_step_depends_on_the_class_of_the_byte()
    ensures { (nfa : Nfa) → IsInRange nfa → (here there : Surroundings) (end last q i j : ℕ) → i < end → j < last
        → AreOfOneClass nfa.classes (here.byte i) (there.byte j)
        → ((kind : model.Look) → asks_for kind (state_at nfa.states q) ≡ true → here.looks kind i ≡ there.looks kind j)
        → map (onward i) ((automaton_over here nfa.states end).successors (at q i))
        ≡ map (onward j) ((automaton_over there nfa.states last).successors (at q j)) }
{}

/// Whether a look-around holds at a place depends on the class of the byte before it and on that of the byte after it,
/// and on nothing else: for each kind that a state asks for, and for the words of Unicode where those bytes are ASCII. No
/// byte before a place is the start of the text, and none after it the end.
pub fn a_look_around_depends_on_the_classes_of_the_bytes_beside_it()
    ensures { (nfa : Nfa) → IsInRange nfa → (here there : List ℕ) (kind : model.Look) (i j : ℕ) → i ≤ length here → j ≤ length there
        → has nfa.looks kind ≡ true
        → BothOrNone (AreOfOneClass nfa.classes) (byte_before here i) (byte_before there j)
        → BothOrNone (AreOfOneClass nfa.classes) (byte_after here i) (byte_after there j)
        → IsTold kind (byte_before here i) (byte_after here i)
        → holds nfa.terminator here kind i ≡ holds nfa.terminator there kind j }
{}
