//! States and transitions.
ghost use Rattle.std.specs.Prelude.{◌≡◌, List};

use rx_search::{Look, PatternID, StateID};
use std::marker::Model;

/// On a byte from `start` to `end`, both included, to the state `next`.
#[derive(Clone, Copy)]
pub struct Transition {
    /// The first byte.
    pub start: u8,
    /// The last byte.
    pub end: u8,
    /// Where it leads.
    pub next: StateID,
}

/// Transitions, the first of those that have a byte taken on it. A contract sees them as a list.
#[derive(Drop)]
pub struct Transitions {
    items: Vec<Transition>,
}

impl Model for Transitions {
    ghost use Rattle.std.specs.Prelude.{List};
    ghost use Rattle.rx_nfa.specs.declared.state.Transition.{Transition};

    ghost Value = { List Transition };

    ghost view = { λ t. t.items.items };
}

impl Transitions {
    /// These transitions, in this order.
    pub fn new(items: Vec<Transition>) -> Transitions
        ensures { result ≡ items.items }
    {
        Transitions { items }
    }

    /// The transitions, in order.
    pub fn as_slice(&self) -> &[Transition]
        ensures { result.now ≡ self.now }
    {
        &self.items
    }
}

/// States, the preferred one first. A contract sees them as a list of numbers.
#[derive(Drop)]
pub struct Alternates {
    ids: Vec<StateID>,
}

impl Model for Alternates {
    ghost use Rattle.std.specs.Prelude.{List, ℕ};

    ghost Value = { List ℕ };

    ghost view = { λ a. a.ids.items };
}

impl Alternates {
    /// These states, in this order.
    pub fn new(ids: Vec<StateID>) -> Alternates
        ensures { result ≡ ids.items }
    {
        Alternates { ids }
    }

    /// The states, in order.
    pub fn as_slice(&self) -> &[StateID]
        ensures { result.now ≡ self.now }
    {
        &self.ids
    }
}

/// A state of an NFA.
#[derive(Drop)]
pub enum State {
    /// Reads a byte from `start` to `end`, both included, and goes on to `next`.
    ByteRange {
        start: u8,
        end: u8,
        next: StateID,
    },
    /// Reads a byte, and goes on by the transition that has it.
    Sparse {
        transitions: Transitions,
    },
    /// Goes on to `next` where the look-around holds, at the place in the whole text.
    Look {
        look: Look,
        next: StateID,
    },
    /// Goes on to each of these, the first of them preferred.
    Union {
        alternates: Alternates,
    },
    /// Writes the place into the slot, and goes on to `next`.
    Capture {
        next: StateID,
        pattern: PatternID,
        slot: usize,
    },
    /// Goes nowhere.
    Fail,
    /// Accepts the pattern.
    Match {
        pattern: PatternID,
    },
}
