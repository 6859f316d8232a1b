//! How a cache is made and reset.
ghost use Rattle.std.specs.Prelude.{◌≡◌, None, length, IfOk, OnOk, OnErr, IsOk};
ghost use Rattle.rx_dfa.specs.Lazy.{LazyValue, accounted};
ghost use Rattle.rx_dfa.specs.LazyCache.{IsCacheOf, HoldsNone};
ghost use Rattle.rx_dfa.specs.Scratch.{room_of, room_with};

use crate::lazy::lazy_cache::LazyCache;
use crate::lazy::lazy_dfa::Lazy;
use crate::lazy::rows::Rows;
use crate::scratch::Scratch;
use crate::state_key::make;
use rx_search::Memory;
use std::alloc::Global;

/// The most buckets that keys are found in.
const BUCKETS: usize = 1 << 16;

impl LazyCache {
    /// A cache for the automaton, without a state.
    pub fn new(alloc: Global, lazy: &Lazy) -> Result<LazyCache, Memory>
        ensures fits { IfOk result (IsCacheOf lazy.now) }
        ensures empty { IfOk result HoldsNone }
    {
        let buckets = lazy.capacity() / (4 * lazy.stride() + 16);
        Ok(LazyCache {
            rows: Rows::new(alloc, buckets.clamp(1, BUCKETS))?,
            scratch: Scratch::new(alloc, lazy.nfa.states_len())?,
            from: make::empty(alloc),
            into: make::empty(alloc),
        })
    }

    /// Makes it a cache for the automaton, without a state, as if it were new. Where its room is that of the automaton, it takes no
    /// memory.
    ///
    /// # Errors
    ///
    /// `Memory`; the cache is then as it was.
    pub fn reset(&mut self, alloc: Global, lazy: &Lazy) -> Result<(), Memory>
        ensures fits { OnOk result (IsCacheOf lazy.now self.new) }
        ensures empty { OnOk result (HoldsNone self.new) }
        ensures err { OnErr result (self.new ≡ self.old) }
        ensures sure { room_of self.old.scratch ≡ length lazy.now.dfa.nfa.states → IsOk result }
    {
        let missing = self.missing(alloc, lazy)?;
        self.renew(missing);
        Ok(())
    }

    /// Room for the automaton, where the cache has other room: the first half of a `reset`, for one who resets several caches
    /// together. It takes memory only where there is something missing.
    pub fn missing(&self, alloc: Global, lazy: &Lazy) -> Result<Option<Scratch>, Memory>
        ensures room { IfOk result (λ missing. room_with missing self.now.scratch ≡ length lazy.now.dfa.nfa.states) }
        ensures sure { room_of self.now.scratch ≡ length lazy.now.dfa.nfa.states → IsOk result }
        ensures none { room_of self.now.scratch ≡ length lazy.now.dfa.nfa.states → IfOk result (λ missing. missing ≡ None) }
    {
        let states = lazy.nfa.states_len();
        if self.scratch.room() == states {
            return Ok(None);
        }
        Ok(Some(Scratch::new(alloc, states)?))
    }

    /// Lets go of all states, as if the cache were new, and has this room in place of its own, if it is given: the second half of a
    /// `reset`.
    pub fn renew(&mut self, room: Option<Scratch>)
        ensures fits { (l : LazyValue) → room_with room self.old.scratch ≡ length l.dfa.nfa.states → IsCacheOf l self.new }
        ensures empty { HoldsNone self.new }
    {
        self.rows.empty();
        self.rows.clears = 0;
        self.rows.since = None;
        let Some(room) = room else {
            return;
        };
        self.scratch = room;
    }

    /// A cache of its own with the same room, without a state.
    pub fn clone(&self, alloc: Global) -> Result<LazyCache, Memory>
        ensures fits { IfOk result (λ c. (l : LazyValue) → IsCacheOf l self.now → IsCacheOf l c) }
        ensures empty { IfOk result HoldsNone }
    {
        Ok(LazyCache {
            rows: Rows::new(alloc, self.rows.keys.buckets())?,
            scratch: Scratch::new(alloc, self.scratch.room())?,
            from: make::empty(alloc),
            into: make::empty(alloc),
        })
    }

    /// The bytes that are accounted for its states.
    pub fn memory_usage(&self) -> usize
        ensures value { result ≡ self.now.rows.size }
        ensures accounted { (l : LazyValue) → IsCacheOf l self.now → result ≡ accounted l.stride self.now.rows.keys }
    {
        self.rows.size
    }
}
