//! Unions of many chains, in whose place prefix trees come.
//!
//! The states of an alternation of words are a chain for each. Where many words have the same first bytes, a state of a DFA
//! names a state of each chain. In a tree they share these states.
ghost use Rattle.std.specs.Prelude.{◌≡◌, ◌+◌, ◌<◌, ◌≤◌, ℕ, List, true, false, length, map, All, IfOk, OnOk};
ghost use Rattle.std.specs.Vec.{vec_items};
ghost use Rattle.rx_search.specs.Limits.{id_limit};
ghost use Rattle.rx_nfa.specs.Automaton.{state_at};
ghost use Rattle.rx_nfa.specs.Draft.{AreInRange};
ghost use Rattle.rx_nfa.specs.Prefixes.{HasSameRuns, IsBranch, IsOutside, IsPlaced, IsWord, TreeReads};
ghost use Rattle.rx_nfa.specs.Named.{AreNamed};
ghost use Rattle.rx_nfa.specs.Sharing.{Sharing, IsPlanted};
ghost use Rattle.rx_nfa.specs.Trees.{IsTree, IsTargetOf};
ghost use Rattle.rx_nfa.specs.declared.state.State.{State as OneState};

mod fork;
mod named;
mod tree;

use crate::builder::Builder;
use crate::state::{Alternates, State};
use fork::{Fork, fork_at};
use named::{Named, named_by};
use rx_search::{Memory, StateID};
use std::alloc::Global;
use tree::{LEVELS, NoTree, Tree, sides};

/// Puts prefix trees in place of the unions of chains that no other state leads into. There are as many states as before.
/// From the starts they have the same first runs.
pub fn share_prefixes(
    alloc: Global,
    builder: &mut Builder,
    start: StateID,
    starts: &[StateID],
) -> Result<(), Memory>
    requires start { start < length builder.old.states }
    requires starts { All (λ q. q < length builder.old.states) starts.now }
    ensures range { OnOk result (AreInRange builder.old) }
    ensures long { OnOk result (length builder.new.states ≡ length builder.old.states) }
    ensures groups { OnOk result (builder.new.groups ≡ builder.old.groups) }
    ensures slots { OnOk result (builder.new.slots ≡ builder.old.slots) }
    ensures start { OnOk result (HasSameRuns builder.old.states builder.new.states start) }
    ensures starts { OnOk result (All (HasSameRuns builder.old.states builder.new.states) starts.now) }
{
    let named = named_by(alloc, builder.states(), start, starts)?;
    let mut done = 0;
    for root in 0..builder.states().len() {
        done = share_at(alloc, builder, &named, done, root)?;
    }
    Ok(())
}

/// Puts a tree in place of the chains of this union, if they stand from state `done` on and have room for it. Answers up to
/// where states may have other ones in their place then.
fn share_at(
    alloc: Global,
    builder: &mut Builder,
    named: &[Named],
    done: usize,
    root: usize,
) -> Result<usize, Memory>
    requires root { root < length builder.old.states }
    requires done { done ≤ root }
    requires long { length named.now ≡ length builder.old.states }
    ensures groups { OnOk result (builder.new.groups ≡ builder.old.groups) }
    ensures slots { OnOk result (builder.new.slots ≡ builder.old.slots) }
    ensures upto { IfOk result (λ upto. upto ≤ root + 1) }
    ensures sharing { IfOk result (λ upto. (states : List OneState) → AreNamed states named.now → Sharing named.now states builder.old.states done
        → Sharing named.now states builder.new.states upto) }
{
    let fork = fork_at(alloc, builder.states(), named, done, root)?;
    let Some(fork) = fork else {
        return Ok(done);
    };
    if plant(alloc, builder, &fork, root)? {
        return Ok(root + 1);
    }
    Ok(done)
}

/// Puts a tree in place of the chains of the fork, if it has room there. Answers whether it has.
fn plant(alloc: Global, builder: &mut Builder, fork: &Fork, root: usize) -> Result<bool, Memory>
    requires few { length builder.old.states ≤ id_limit }
    requires root { root < length builder.old.states }
    requires low { fork.now.low ≤ root }
    requires next { fork.now.next < length builder.old.states }
    requires words { All IsWord (map vec_items fork.now.words.items) }
    ensures groups { OnOk result (builder.new.groups ≡ builder.old.groups) }
    ensures slots { OnOk result (builder.new.slots ≡ builder.old.slots) }
    ensures planted { IfOk result (λ planted. planted ≡ true
        → IsPlanted builder.old.states builder.new.states fork.now.low root fork.now.next (map vec_items fork.now.words.items)) }
    ensures same { IfOk result (λ planted. planted ≡ false → builder.new ≡ builder.old) }
{
    let mut tree = Tree::new(alloc, fork.low, root - fork.low, fork.next);
    match sides(alloc, &mut tree, &fork.words, LEVELS) {
        Ok(starts) => {
            put(builder, tree, root, starts);
            Ok(true)
        }
        Err(NoTree::Full) => Ok(false),
        Err(NoTree::Memory) => Err(Memory),
    }
}

/// Puts the states of the tree and the choice between its starts in their places.
fn put(builder: &mut Builder, tree: Tree, root: usize, starts: Vec<StateID>)
    requires few { length builder.old.states ≤ id_limit }
    requires root { root < length builder.old.states }
    requires tree { IsTree tree }
    requires room { tree.low + tree.room ≡ root }
    requires next { tree.next < length builder.old.states }
    requires starts { All (IsTargetOf tree) starts.items }
    ensures groups { builder.new.groups ≡ builder.old.groups }
    ensures slots { builder.new.slots ≡ builder.old.slots }
    ensures planted { (words : List (List ℕ)) → TreeReads tree.low tree.states.items tree.next starts.items words
        → IsPlanted builder.old.states builder.new.states tree.low root tree.next words }
{
    place(builder, tree.low, tree.states);
    let id = StateID::new(root).unwrap();
    builder.patch(
        id,
        State::Union {
            alternates: Alternates::new(starts),
        },
    );
}

/// Puts these states in place of those from `low` on.
fn place(builder: &mut Builder, low: usize, states: Vec<State>)
    requires few { length builder.old.states ≤ id_limit }
    requires fits { low + length states.items ≤ length builder.old.states }
    requires branches { All (IsBranch (λ q. q < length builder.old.states)) states.items }
    ensures groups { builder.new.groups ≡ builder.old.groups }
    ensures slots { builder.new.slots ≡ builder.old.slots }
    ensures long { length builder.new.states ≡ length builder.old.states }
    ensures placed { IsPlaced low states.items builder.new.states }
    ensures kept { (r : ℕ) → IsOutside low (low + length states.items) r → state_at builder.new.states r ≡ state_at builder.old.states r }
{
    let mut left = states;
    while let Some(state) = left.pop() {
        let id = StateID::new(low + left.len()).unwrap();
        builder.patch(id, state);
    }
}
