//! Sets of states in order.
ghost use Rattle.std.specs.Prelude.{◌≡◌, ◌^◌, ◌<◌, ◌≤◌, vec_capacity, [], ◌∷◌, ◌++◌, not, length, IfOk, slice_index};
ghost use Rattle.std.specs.Bool.{MatchBool};
ghost use Rattle.rx_nfa.specs.Ordered.{has};
ghost use Rattle.rx_engines.specs.Threads.{StateSet, state_set_code, IsSparse};

use rx_search::{Memory, StateID};
use std::alloc::Global;
use std::marker::Model;

/// A set of states in the order in which they came, which is emptied in constant time.
#[derive(Drop)]
pub struct SparseSet {
    dense: Vec<StateID>,
    /// Where in `dense` a state stands, if it is there.
    sparse: Vec<u32>,
    /// The states are below this number.
    room: usize,
}

impl Model for SparseSet {
    ghost Value = { StateSet };

    ghost coded = { state_set_code };

    ghost view = { λ s. record {
      items = s.dense.items;
      room = s.room;
      capacity = length s.sparse.items;
    } };

    ghost invariant = { λ s. IsSparse s.room s.dense.items s.sparse.items × (s.room ≤ length s.sparse.items)
        × (length s.sparse.items ≤ vec_capacity s.dense) × (length s.sparse.items < 2 ^ 32) };
}

impl SparseSet {
    /// An empty set, with room for the states below `capacity`.
    pub fn new(alloc: Global, capacity: usize) -> Result<SparseSet, Memory>
        requires { capacity < 2 ^ 32 }
        ensures { IfOk result (λ s. s ≡ record { items = []; room = 0; capacity = capacity }) }
    {
        let dense = Vec::with_capacity(alloc, capacity)?;
        let sparse = vec![in alloc; 0u32; capacity]?;
        Ok(SparseSet {
            dense,
            sparse,
            room: 0,
        })
    }

    /// For how many states there is room.
    pub fn capacity(&self) -> usize
        ensures value { result ≡ self.now.capacity }
        ensures small { self.now.capacity < 2 ^ 32 }
    {
        self.sparse.len()
    }

    /// Empties the set. Its states are below `room` from now on.
    pub fn reset(&mut self, room: usize)
        requires { room ≤ self.old.capacity }
        ensures { self.new ≡ record { items = []; room = room; capacity = self.old.capacity } }
    {
        self.dense.clear();
        self.room = room;
    }

    pub fn clear(&mut self)
        ensures { self.new ≡ record self.old { items = [] } }
    {
        self.dense.clear();
    }

    pub fn len(&self) -> usize
        ensures { result ≡ length self.now.items }
    {
        self.dense.len()
    }

    /// The state that came as number k.
    pub fn get(&self, k: usize) -> StateID
        requires { k < length self.now.items }
        ensures value { result ≡ slice_index self.now.items k }
        ensures within { result < self.now.room }
    {
        self.dense[k]
    }

    /// Whether the state is in the set.
    pub fn contains(&self, state: StateID) -> bool
        requires { state < self.now.room }
        ensures { result ≡ has self.now.items state }
    {
        let place = self.sparse[state.as_usize()] as usize;
        place < self.dense.len() && self.dense[place].as_usize() == state.as_usize()
    }

    /// Returns whether the state was new.
    pub fn insert(&mut self, state: StateID) -> bool
        requires { state < self.old.room }
        ensures new { result ≡ not (has self.old.items state) }
        ensures after { MatchBool result
            (self.new ≡ record self.old { items = self.old.items ++ state ∷ [] })
            (self.new ≡ self.old) }
    {
        if self.contains(state) {
            return false;
        }
        let place = self.dense.len();
        self.sparse[state.as_usize()] = place as u32;
        self.dense.push_reserved(state);
        true
    }
}
