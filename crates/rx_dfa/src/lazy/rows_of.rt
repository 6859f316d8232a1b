//! What is done with the states of a cache.
ghost use Rattle.std.specs.Prelude.{◌≡◌, ◌+◌, ◌*◌, ◌<◌, ◌≤◌, ℕ, Some, None, [], ◌∷◌, ◌++◌, length, replicate, IfOk, OnOk, OnErr, IfSome, IsTrue, ◌↔◌, MatchOption, slice_get, false};
ghost use Rattle.rx_determinize.specs.Key.{Key, is_empty, is_dead};
ghost use Rattle.rx_dfa.specs.StateKey.{key_of};
ghost use Rattle.rx_dfa.specs.Clearing.{counts_of};
ghost use Rattle.rx_dfa.specs.Lazy.{LazyValue, IsLazySound, unknown, StandsFor, IsNext, IsLive, IsNew, state_size};
ghost use Rattle.rx_dfa.specs.LazyCache.{AreRowsOf};

use crate::lazy::key_set::KeySet;
use crate::lazy::lazy_dfa::Lazy;
use crate::lazy::numbers::{OFFSETS, dead, numbered, unknown};
use crate::lazy::rows::Rows;
use crate::state_key::StateKey;
use rx_search::{Memory, StateID};
use std::alloc::Global;

/// Whether neither a thread is left, nor the loop, nor a match.
pub fn is_dead_key(key: &StateKey) -> bool
    ensures { result ≡ is_dead (key_of key.now) }
{
    if key.loops {
        return false;
    }
    if !key.threads.is_empty() {
        return false;
    }
    is_plain_key(key)
}

/// Whether nothing matches at its place.
fn is_plain_key(key: &StateKey) -> bool
    ensures { result ≡ is_empty (key_of key.now).matches }
{
    key.matches.is_empty()
}

/// A quarter of the bytes that are accounted for a state.
fn words(stride: usize, key: &StateKey) -> usize
    requires { stride ≤ 512 }
    ensures { 4 * result ≡ state_size stride (key_of key.now) }
{
    let loops = if key.loops { 1 } else { 0 };
    stride + key.threads.len() + loops + 4
}

/// A row more, of which nothing is known.
fn add_row(cells: &mut Vec<StateID>, stride: usize) -> Result<(), Memory>
    requires { stride ≤ 512 }
    ensures ok { OnOk result (cells.new.items ≡ cells.old.items ++ replicate stride unknown) }
    ensures err { OnErr result (cells.new.items ≡ cells.old.items) }
{
    let end = cells.len() + stride;
    cells.resize(end, unknown())?;
    Ok(())
}

impl Rows {
    /// No states.
    pub fn new(alloc: Global, buckets: usize) -> Result<Rows, Memory>
        requires { 0 < buckets }
        ensures rows { IfOk result (λ r. (l : LazyValue) → AreRowsOf l r) }
        ensures empty { IfOk result (λ r. r.keys ≡ []) }
        ensures size { IfOk result (λ r. r.size ≡ 0) }
        ensures counts { IfOk result (λ r. counts_of r ≡ (0, None)) }
    {
        Ok(Rows {
            cells: Vec::new(alloc),
            keys: KeySet::new(alloc, buckets)?,
            starts: Vec::new(alloc),
            size: 0,
            clears: 0,
            since: None,
            calls: 0,
        })
    }

    /// Lets go of all states, and keeps the memory.
    pub fn empty(&mut self)
        ensures rows { (l : LazyValue) → AreRowsOf l self.new }
        ensures empty { self.new.keys ≡ [] }
        ensures size { self.new.size ≡ 0 }
        ensures counts { counts_of self.new ≡ counts_of self.old }
    {
        self.cells.clear();
        self.keys.clear();
        self.starts.clear();
        self.size = 0;
    }

    /// The state of the key, if it is there or dead.
    pub fn find(&self, lazy: &Lazy, key: &StateKey) -> Option<StateID>
        requires { AreRowsOf lazy.now self.now }
        ensures { MatchOption result ((is_dead (key_of key.now) ≡ false) × IsNew self.now.keys (key_of key.now))
            (λ state. StandsFor lazy.now.stride self.now.keys state (key_of key.now)) }
    {
        if is_dead_key(key) {
            return Some(dead());
        }
        let row = self.keys.find(key)?;
        Some(numbered(row * lazy.stride(), is_plain_key(key)))
    }

    /// Whether the state of the key would fit.
    pub fn has_room(&self, lazy: &Lazy, key: &StateKey) -> bool
        requires { AreRowsOf lazy.now self.now }
        ensures room { IsTrue result ↔ self.now.size + state_size lazy.now.stride (key_of key.now) ≤ lazy.now.capacity }
        ensures sound { IsLazySound lazy.now }
    {
        words(lazy.stride(), key) <= (lazy.capacity() - self.size) / 4
    }

    /// A state more, of this key, for which there is room. It wants memory too where the table has as many cells as there are
    /// numbers for.
    pub fn add(&mut self, lazy: &Lazy, key: &StateKey) -> Result<StateID, Memory>
        requires rows { AreRowsOf lazy.now self.old }
        requires live { IsLive lazy.now.dfa (key_of key.now) }
        requires new { IsNew self.old.keys (key_of key.now) }
        requires room { self.old.size + state_size lazy.now.stride (key_of key.now) ≤ lazy.now.capacity }
        ensures rows { AreRowsOf lazy.now self.new }
        ensures state { IfOk result (λ state. StandsFor lazy.now.stride self.new.keys state (key_of key.now)) }
        ensures ok { OnOk result (self.new.keys ≡ self.old.keys ++ key_of key.now ∷ []) }
        ensures err { OnErr result (self.new.keys ≡ self.old.keys) }
        ensures counts { counts_of self.new ≡ counts_of self.old }
    {
        let stride = lazy.stride();
        let place = self.cells.len();
        if place + stride > OFFSETS {
            return Err(Memory);
        }
        add_row(&mut self.cells, stride)?;
        if self.keys.insert(key).is_err() {
            self.cells.truncate(place);
            return Err(Memory);
        }
        self.size += 4 * words(stride, key);
        Ok(numbered(place, is_plain_key(key)))
    }

    /// Notes the state that comes after the key of this row, in this column.
    pub fn set(&mut self, lazy: &Lazy, row: usize, column: usize, state: StateID)
        requires rows { AreRowsOf lazy.now self.old }
        requires column { column < lazy.now.stride }
        requires row { row < length self.old.keys }
        requires next { (k : Key) → slice_get self.old.keys row ≡ Some k → IsNext lazy.now self.old.keys k column state }
        ensures rows { AreRowsOf lazy.now self.new }
        ensures keys { self.new.keys ≡ self.old.keys }
        ensures counts { counts_of self.new ≡ counts_of self.old }
    {
        self.cells[row * lazy.stride() + column] = state;
    }
}
