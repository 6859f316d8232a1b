//! Unions of chains, where no other state leads into a chain.
ghost use Rattle.std.specs.Prelude.{◌≡◌, ◌<◌, ◌≤◌, length, IfOk, IfSome, true};
ghost use Rattle.rx_nfa.specs.Forks.{IsChainFrom, AreChains, IsFork, IsPrivate};
ghost use Rattle.rx_nfa.specs.Prefixes.{IsOutside};
ghost use Rattle.rx_nfa.specs.declared.state.State.TheVariants.{ByteRange as OneByte};

use crate::prefixes::named::Named;
use crate::state::State;
use rx_search::{Memory, StateID};
use std::alloc::Global;

/// How many alternatives a union has at least that becomes a tree.
const LEAST_WORDS: usize = 8;

/// A union of chains that read these words and go on to one state. The states from `low` on, up to the union, are come to
/// from among them and from the union alone.
#[derive(Drop)]
pub struct Fork {
    pub low: usize,
    pub next: StateID,
    pub words: Vec<Vec<u8>>,
}

/// A chain: its bytes, and where its last state stands.
#[derive(Drop)]
struct Chain {
    word: Vec<u8>,
    last: usize,
}

/// The fork whose union has this number, with chains from state `floor` on, if there is one.
pub fn fork_at(
    alloc: Global,
    states: &[State],
    named: &[Named],
    floor: usize,
    root: usize,
) -> Result<Option<Fork>, Memory>
    requires root { root < length states.now }
    requires floor { floor ≤ root }
    requires named { length named.now ≡ length states.now }
    ensures { IfOk result (λ fork. IfSome fork (IsFork states.now named.now floor root)) }
{
    let State::Union { alternates } = &states[root] else {
        return Ok(None);
    };
    let heads = alternates.as_slice();
    let Some(next) = exit_of(states, heads) else {
        return Ok(None);
    };
    let Some(fork) = read_chains(alloc, states, floor, root, heads, next)? else {
        return Ok(None);
    };
    if is_private(named, &fork, root) {
        Ok(Some(fork))
    } else {
        Ok(None)
    }
}

/// Where the chains from these states may go on to, if there are enough of them: the last one stands behind the one before
/// it, and its last byte comes first.
fn exit_of(states: &[State], heads: &[StateID]) -> Option<StateID>
    ensures { IfSome result (λ _. 1 < length heads.now) }
{
    if heads.len() < LEAST_WORDS {
        return None;
    }
    let before = heads[heads.len() - 2].as_usize();
    if before + 1 >= states.len() {
        return None;
    }
    match &states[before + 1] {
        State::ByteRange { next, .. } => Some(*next),
        _ => None,
    }
}

/// The chains from these states to the state `next`, from state `floor` on, if they are chains.
fn read_chains(
    alloc: Global,
    states: &[State],
    floor: usize,
    root: usize,
    heads: &[StateID],
    next: StateID,
) -> Result<Option<Fork>, Memory>
    requires root { root < length states.now }
    requires floor { floor ≤ root }
    ensures { IfOk result (λ fork. IfSome fork (AreChains states.now floor root heads.now)) }
{
    let mut low = root;
    let mut words = Vec::new(alloc);
    for head in heads {
        let Some(chain) = read_chain(alloc, states, floor, root, *head, next)? else {
            return Ok(None);
        };
        if chain.last < low {
            low = chain.last;
        }
        words.push(chain.word)?;
    }
    Ok(Some(Fork { low, next, words }))
}

/// The chain from this state to the state `next`, by states from `floor` on, below `root`, if it is one.
fn read_chain(
    alloc: Global,
    states: &[State],
    floor: usize,
    root: usize,
    head: StateID,
    next: StateID,
) -> Result<Option<Chain>, Memory>
    requires root { root < length states.now }
    ensures { IfOk result (λ chain. IfSome chain (λ c. IsChainFrom states.now floor root head next c.last c.word.items)) }
{
    let mut word = Vec::new(alloc);
    let mut place = head.as_usize();
    if place >= root {
        return Ok(None);
    }
    while place >= floor {
        let Some(step) = byte_step(&states[place]) else {
            return Ok(None);
        };
        let after = step.1.as_usize();
        word.push(step.0)?;
        if after == next.as_usize() {
            return Ok(Some(Chain { word, last: place }));
        }
        if after >= place {
            return Ok(None);
        }
        place = after;
    }
    Ok(None)
}

/// The byte that the state reads, and where it goes on to, if it reads one byte alone.
fn byte_step(state: &State) -> Option<(u8, StateID)>
    ensures step { IfSome result (λ step. state.now ≡ OneByte step.0 step.0 step.1) }
    ensures byte { IfSome result (λ step. step.0 < 256) }
{
    match state {
        State::ByteRange { start, end, next } => {
            if start == end {
                Some((*start, *next))
            } else {
                None
            }
        }
        _ => None,
    }
}

/// Whether the states of the fork are come to from among them and from its union alone, and its chains leave them.
fn is_private(named: &[Named], fork: &Fork, root: usize) -> bool
    requires { root ≤ length named.now }
    ensures { result ≡ true → IsPrivate named.now fork.now.low root × IsOutside fork.now.low root fork.now.next }
{
    let next = fork.next.as_usize();
    if fork.low <= next && next < root {
        return false;
    }
    for place in fork.low..root {
        if named[place].first < fork.low || root < named[place].last {
            return false;
        }
    }
    true
}
