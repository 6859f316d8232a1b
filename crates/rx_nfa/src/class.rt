//! The states of a class: its members' encodings, which share their first bytes.
ghost use Rattle.std.specs.Prelude.{List, ◌≡◌, ◌<◌, ◌≤◌, ◌+◌, ◌*◌, ◌%◌, ℕ, length, IfOk, OnOk, []};
ghost use Rattle.rx_model.specs.Text.{is_member, scalar_ranges, byte_ranges};
ghost use Rattle.rx_model.specs.Runs.{Sieve, sieved};
ghost use Rattle.rx_class.specs.Ranges.{AreScalarRanges, AreByteRanges};
ghost use Rattle.rx_search.specs.Limits.{id_limit};
ghost use Rattle.rx_nfa.specs.Automaton.{automaton};
ghost use Rattle.rx_nfa.specs.Ranges.{RisesFrom, StaysBelow, size_of_block, clip, cost_of_parts, cost_of_class};
ghost use Rattle.rx_nfa.specs.Row.{transition_to, Ascends, IsReader, AddsReaders};
ghost use Rattle.rx_nfa.specs.States.{AreClosed};
ghost use Rattle.rx_nfa.specs.Trie.{IsRow, IsReady, IsClass, IsByteClass};
ghost use Rattle.rx_nfa.specs.Reading.{ReadsClass};

use crate::class::ranges::clip;
use crate::class::row::push_reader;
use crate::class::trie::{Children, deepen, row};
use crate::state::{State, Transition};
use rx_search::{Memory, StateID};
use std::alloc::Global;

pub(crate) mod ranges;
pub(crate) mod row;
mod trie;

/// Scalar values whose encodings have one length, and the blocks that their first bytes begin.
#[derive(Clone, Copy)]
struct Band {
    low: u32,
    high: u32,
    children: Children,
}

const ONE_BYTE: Band = Band {
    low: 0,
    high: 0x7F,
    children: Children {
        depth: 0,
        start: 0,
        first: 0,
        len: 0x80,
    },
};

const TWO_BYTES: Band = Band {
    low: 0x80,
    high: 0x7FF,
    children: Children {
        depth: 1,
        start: 0x80,
        first: 0xC2,
        len: 30,
    },
};

/// Those below the surrogates.
const THREE_BYTES: Band = Band {
    low: 0x800,
    high: 0xD7FF,
    children: Children {
        depth: 2,
        start: 0,
        first: 0xE0,
        len: 14,
    },
};

/// Those above the surrogates.
const THREE_BYTES_HIGH: Band = Band {
    low: 0xE000,
    high: 0xFFFF,
    children: Children {
        depth: 2,
        start: 0xE000,
        first: 0xEE,
        len: 2,
    },
};

const FOUR_BYTES: Band = Band {
    low: 0x1_0000,
    high: 0x10_FFFF,
    children: Children {
        depth: 3,
        start: 0,
        first: 0xF0,
        len: 5,
    },
};

/// Appends the states of a class of scalar values, which go on to the state `next`. Returns the
/// state that they start at.
pub fn compile_class(
    alloc: Global,
    states: &mut Vec<State>,
    ranges: &[(char, char)],
    next: StateID,
) -> Result<StateID, Memory>
    requires fewest { AreScalarRanges ranges.now }
    requires room { length states.old.items + cost_of_class ranges.now ≤ id_limit }
    ensures built { IfOk result (λ q. IsClass (IsReader (length states.old.items) states.new.items) next ranges.now q) }
    ensures grows { OnOk result (AddsReaders states.old.items states.new.items) }
    ensures closed { OnOk result (next < length states.old.items → AreClosed states.old.items → AreClosed states.new.items) }
    ensures count { OnOk result (length states.new.items ≤ length states.old.items + cost_of_class ranges.now) }
{
    // Few states for large classes (DECISIONS: classes are compiled to blocks that share their first bytes).
    let mut whole = Vec::new(alloc);
    whole.push(next)?;
    let mut transitions = Vec::new(alloc);
    add_band(
        alloc,
        states,
        ranges,
        &mut whole,
        ONE_BYTE,
        &mut transitions,
    )?;
    add_band(
        alloc,
        states,
        ranges,
        &mut whole,
        TWO_BYTES,
        &mut transitions,
    )?;
    add_band(
        alloc,
        states,
        ranges,
        &mut whole,
        THREE_BYTES,
        &mut transitions,
    )?;
    add_band(
        alloc,
        states,
        ranges,
        &mut whole,
        THREE_BYTES_HIGH,
        &mut transitions,
    )?;
    add_band(
        alloc,
        states,
        ranges,
        &mut whole,
        FOUR_BYTES,
        &mut transitions,
    )?;
    let id = push_reader(states, transitions)?;
    Ok(id)
}

/// Appends the state of a class of bytes, which goes on to the state `next`. Returns its number.
pub fn compile_bytes(
    alloc: Global,
    states: &mut Vec<State>,
    ranges: &[(u8, u8)],
    next: StateID,
) -> Result<StateID, Memory>
    requires fewest { AreByteRanges ranges.now }
    requires room { length states.old.items < id_limit }
    ensures built { IfOk result (λ q. IsByteClass (IsReader (length states.old.items) states.new.items) next ranges.now q) }
    ensures bytes { OnOk result (StaysBelow 255 ranges.now) }
    ensures grows { OnOk result (AddsReaders states.old.items states.new.items) }
    ensures closed { OnOk result (next < length states.old.items → AreClosed states.old.items → AreClosed states.new.items) }
    ensures count { OnOk result (length states.new.items ≡ length states.old.items + 1) }
{
    let mut transitions = Vec::new(alloc);
    for &(start, end) in ranges {
        transitions.push(byte_transition(start, end, next))?;
    }
    let id = push_reader(states, transitions)?;
    Ok(id)
}

/// On the bytes of a range.
fn byte_transition(start: u8, end: u8, next: StateID) -> Transition
    ensures value { result ≡ transition_to next (start, end) }
    ensures byte { end ≤ 255 }
{
    Transition { start, end, next }
}

/// Adds the transitions on the first bytes of the band to `transitions`, and to `states` the states that read the rest
/// of its members. `whole` is that of `row`, and may grow.
fn add_band(
    alloc: Global,
    states: &mut Vec<State>,
    ranges: &[(char, char)],
    whole: &mut Vec<StateID>,
    band: Band,
    transitions: &mut Vec<Transition>,
) -> Result<(), Memory>
    requires rises { RisesFrom 0 ranges.now }
    requires ordered { (band.low ≤ band.high) × (band.high ≤ 0x10_FFFF) }
    requires deep { band.children.depth ≤ 3 }
    requires aligned { band.children.start % size_of_block band.children.depth ≡ 0 }
    requires small { band.children.start + band.children.len * size_of_block band.children.depth ≤ 0x20_0000 }
    requires bytes { band.children.first + band.children.len ≤ 256 }
    requires before { Ascends 0 band.children.first transitions.old.items }
    requires some { 0 < length whole.old.items }
    requires room { length states.old.items + cost_of_parts (band.children.depth + 1) (clip band.low band.high ranges.now) ≤ id_limit }
    ensures some { OnOk result (0 < length whole.new.items) }
    ensures grows { OnOk result (AddsReaders states.old.items states.new.items) }
    ensures closed { OnOk result ((base next : ℕ) → IsReady base states.old.items next whole.old.items
        → next < length states.old.items → AreClosed states.old.items → AreClosed states.new.items) }
    ensures ready { OnOk result ((base next : ℕ) → IsReady base states.old.items next whole.old.items
        → IsReady base states.new.items next whole.new.items) }
    ensures ascends { OnOk result (Ascends 0 (band.children.first + band.children.len) transitions.new.items) }
    ensures built { OnOk result ((base next : ℕ) → IsReady base states.old.items next whole.old.items
        → IsRow (IsReader base states.new.items) next (is_member (clip band.low band.high ranges.now)) band.children.depth
        band.children.start band.children.first band.children.len transitions.old.items transitions.new.items) }
    ensures count { OnOk result (length states.new.items
        ≤ length states.old.items + cost_of_parts (band.children.depth + 1) (clip band.low band.high ranges.now)) }
{
    let parts = clip(alloc, ranges, band.low, band.high)?;
    deepen(alloc, states, &parts, whole, band.children.depth)?;
    row(alloc, states, &parts, whole, band.children, transitions)?;
    Ok(())
}

/// In each automaton that has the states of a class, they read the class: what is found from their
/// entry is what is found from `next` after the member that stands there, and nothing where none does,
/// wherever acceptance is permitted.
pub fn the_states_read_the_class()
    ensures scalars { (ok : Sieve) (terminator : ℕ) (states : List State) (text : List ℕ) (end base next q : ℕ) (ranges : List (ℕ × ℕ)) → end ≤ length text
        → IsClass (IsReader base states) next ranges q
        → ReadsClass (sieved ok (automaton terminator states text end)) text end next q (scalar_ranges ranges) }
    ensures bytes { (ok : Sieve) (terminator : ℕ) (states : List State) (text : List ℕ) (end base next q : ℕ) (ranges : List (ℕ × ℕ)) → end ≤ length text
        → StaysBelow 255 ranges → IsByteClass (IsReader base states) next ranges q
        → ReadsClass (sieved ok (automaton terminator states text end)) text end next q (byte_ranges ranges) }
{}
