//! Children of states that read the last bytes of encodings.
ghost use Rattle.std.specs.Prelude.{◌≡◌, ◌<◌, ◌≤◌, ◌+◌, ◌*◌, ◌%◌, ◌/◌, ℕ, List, length, IfOk, OnOk};
ghost use Rattle.rx_model.specs.Text.{is_member};
ghost use Rattle.rx_search.specs.Limits.{id_limit};
ghost use Rattle.rx_nfa.specs.Ranges.{RisesFrom, EndsFrom, ends_in, size_of_block, CoversUpTo, StaysBelow, whole_depths};
ghost use Rattle.rx_nfa.specs.Row.{Ascends, IsReader, AddsReaders};
ghost use Rattle.rx_nfa.specs.States.{AreClosed};
ghost use Rattle.rx_nfa.specs.Trie.{IsBlock, IsRow, IsReady, IsCoverage};

use crate::class::ranges::{Range, block_size, skip_below, whole_depth};
use crate::class::row::{add_target, push_reader};
use crate::state::{State, Transition};
use rx_search::{Memory, StateID};
use std::alloc::Global;

/// Children of numbers, one after the other, and the bytes that lead to them.
#[derive(Clone, Copy)]
pub struct Children {
    /// How many continuation bytes pick a number of a block.
    pub depth: u32,
    /// The first number of the first block.
    pub start: u32,
    /// The byte that leads to the first block. The next byte leads to the next.
    pub first: u8,
    /// How many blocks there are.
    pub len: u32,
}

/// How much of a block the ranges hold.
#[derive(Clone, Copy)]
pub enum Coverage {
    Nothing,
    Everything,
    Part,
}

/// The block of `size` numbers from `start` on. The first range ends there or later.
fn coverage_of(ranges: &[Range], start: u32, size: u32) -> Coverage
    requires rises { RisesFrom 0 ranges.now }
    requires first { EndsFrom start ranges.now }
    requires some { 0 < size }
    requires small { start + size ≤ 0x20_0000 }
    ensures { IsCoverage ranges.now start (start + size) result }
{
    let end = start + size;
    if ranges.is_empty() || end <= ranges[0].0 {
        return Coverage::Nothing;
    }
    if ranges[0].0 <= start && end - 1 <= ranges[0].1 {
        return Coverage::Everything;
    }
    Coverage::Part
}

/// The state that reads `depth` continuation bytes, which pick a member from `start` on. None where none is
/// a member. `whole` has for each depth the state that serves where all are members.
#[cycle(trie)]
fn block(
    alloc: Global,
    states: &mut Vec<State>,
    ranges: &[Range],
    whole: &[StateID],
    depth: u32,
    start: u32,
) -> Result<Option<StateID>, Memory>
    requires rises { RisesFrom 0 ranges.now }
    requires first { EndsFrom start ranges.now }
    requires deep { depth ≤ 3 }
    requires aligned { start % size_of_block depth ≡ 0 }
    requires small { start + size_of_block depth ≤ 0x20_0000 }
    requires enough { CoversUpTo depth (length whole.now) ranges.now }
    requires room { length states.old.items + depth * ends_in ranges.now start (start + size_of_block depth) ≤ id_limit }
    ensures grows { OnOk result (AddsReaders states.old.items states.new.items) }
    ensures closed { OnOk result ((base next : ℕ) → IsReady base states.old.items next whole.now
        → next < length states.old.items → AreClosed states.old.items → AreClosed states.new.items) }
    ensures built { IfOk result (λ target. (base next : ℕ) → IsReady base states.old.items next whole.now
        → IsBlock (IsReader base states.new.items) next (is_member ranges.now) depth start target) }
    ensures count { OnOk result (length states.new.items
        ≤ length states.old.items + depth * ends_in ranges.now start (start + size_of_block depth)) }
{
    match coverage_of(ranges, start, block_size(depth)) {
        Coverage::Nothing => Ok(None),
        Coverage::Everything => Ok(Some(whole[depth as usize])),
        Coverage::Part => {
            let mut transitions = Vec::new(alloc);
            let children = Children {
                depth: depth - 1,
                start,
                first: 0x80,
                len: 64,
            };
            row(alloc, states, ranges, whole, children, &mut transitions)?;
            let id = push_reader(states, transitions)?;
            Ok(Some(id))
        }
    }
}

/// Lets the bytes lead to the children. The transitions so far are on lesser bytes.
#[cycle(trie)]
pub fn row(
    alloc: Global,
    states: &mut Vec<State>,
    ranges: &[Range],
    whole: &[StateID],
    children: Children,
    transitions: &mut Vec<Transition>,
) -> Result<(), Memory>
    requires rises { RisesFrom 0 ranges.now }
    requires deep { children.depth ≤ 3 }
    requires aligned { children.start % size_of_block children.depth ≡ 0 }
    requires small { children.start + children.len * size_of_block children.depth ≤ 0x20_0000 }
    requires bytes { children.first + children.len ≤ 256 }
    requires before { Ascends 0 children.first transitions.old.items }
    requires enough { CoversUpTo children.depth (length whole.now) ranges.now }
    requires room { length states.old.items
        + children.depth * ends_in ranges.now children.start (children.start + children.len * size_of_block children.depth) ≤ id_limit }
    ensures grows { OnOk result (AddsReaders states.old.items states.new.items) }
    ensures closed { OnOk result ((base next : ℕ) → IsReady base states.old.items next whole.now
        → next < length states.old.items → AreClosed states.old.items → AreClosed states.new.items) }
    ensures ascends { OnOk result (Ascends 0 (children.first + children.len) transitions.new.items) }
    ensures built { OnOk result ((base next : ℕ) → IsReady base states.old.items next whole.now
        → IsRow (IsReader base states.new.items) next (is_member ranges.now) children.depth children.start children.first children.len
        transitions.old.items transitions.new.items) }
    ensures count { OnOk result (length states.new.items ≤ length states.old.items
        + children.depth * ends_in ranges.now children.start (children.start + children.len * size_of_block children.depth)) }
{
    let Children {
        depth,
        start,
        first,
        len,
    } = children;
    let size = block_size(depth);
    let mut rest = ranges;
    for k in 0..len {
        let at = start + k * size;
        rest = skip_below(rest, at);
        let target = block(alloc, states, rest, whole, depth, at)?;
        add_target(transitions, (first as u32 + k) as u8, target)?;
    }
    Ok(())
}

/// Appends to `whole` the states that read any continuation bytes, as deep as the blocks are that the ranges cover.
pub fn deepen(
    alloc: Global,
    states: &mut Vec<State>,
    ranges: &[Range],
    whole: &mut Vec<StateID>,
    deepest: u32,
) -> Result<(), Memory>
    requires deep { deepest ≤ 3 }
    requires rises { RisesFrom 0 ranges.now }
    requires small { StaysBelow 0x10_FFFF ranges.now }
    requires some { 0 < length whole.old.items }
    requires room { length states.old.items + whole_depths deepest ranges.now ≤ id_limit }
    ensures some { OnOk result (0 < length whole.new.items) }
    ensures grows { OnOk result (AddsReaders states.old.items states.new.items) }
    ensures closed { OnOk result ((base next : ℕ) → IsReady base states.old.items next whole.old.items
        → next < length states.old.items → AreClosed states.old.items → AreClosed states.new.items) }
    ensures ready { OnOk result ((base next : ℕ) → IsReady base states.old.items next whole.old.items
        → IsReady base states.new.items next whole.new.items) }
    ensures enough { OnOk result (CoversUpTo deepest (length whole.new.items) ranges.now) }
    ensures count { OnOk result (length states.new.items ≤ length states.old.items + whole_depths deepest ranges.now) }
{
    for range in ranges {
        let depth = whole_depth(*range, deepest);
        reach(alloc, states, whole, depth)?;
    }
    Ok(())
}

/// Appends to `whole` the states that read any continuation bytes, up to `depth` of them.
fn reach(
    alloc: Global,
    states: &mut Vec<State>,
    whole: &mut Vec<StateID>,
    depth: u32,
) -> Result<(), Memory>
    requires deep { depth ≤ 3 }
    requires some { 0 < length whole.old.items }
    requires room { length states.old.items + depth ≤ id_limit }
    ensures longer { OnOk result ((length whole.old.items ≤ length whole.new.items) × (depth < length whole.new.items)) }
    ensures grows { OnOk result (AddsReaders states.old.items states.new.items) }
    ensures closed { OnOk result ((base next : ℕ) → IsReady base states.old.items next whole.old.items
        → next < length states.old.items → AreClosed states.old.items → AreClosed states.new.items) }
    ensures ready { OnOk result ((base next : ℕ) → IsReady base states.old.items next whole.old.items
        → IsReady base states.new.items next whole.new.items) }
    ensures count { OnOk result (length states.new.items ≤ length states.old.items + depth) }
{
    while whole.len() <= depth as usize {
        let mut transitions = Vec::new(alloc);
        transitions.push(Transition {
            start: 0x80,
            end: 0xBF,
            next: whole[whole.len() - 1],
        })?;
        let id = push_reader(states, transitions)?;
        whole.push(id)?;
    }
    Ok(())
}
