//! Keys in one arena.
ghost use Rattle.std.specs.Prelude.{◌≡◌, ◌<◌, ◌↔◌, IsTrue, Some, [], ◌∷◌, ◌++◌, length, IfOk, OnOk, OnErr, slice_get};
ghost use Rattle.rx_determinize.specs.Key.{Key};
ghost use Rattle.rx_dfa.specs.KeyRow.{key_in, LiesWithin};
ghost use Rattle.rx_dfa.specs.StateKey.{key_of};

use crate::lazy::key_row::KeyRow;
use crate::state_key::StateKey;
use rx_search::{Memory, PatternID, StateID};
use std::alloc::Global;
use std::marker::Model;

/// Keys, by their numbers. The lists of all of them lie in two vectors, so that a key more takes no allocation of its own. A
/// contract sees them as a list of keys.
#[derive(Drop)]
pub struct KeyArena {
    threads: Vec<StateID>,
    matches: Vec<PatternID>,
    rows: Vec<KeyRow>,
}

impl Model for KeyArena {
    ghost use Rattle.std.specs.Prelude.{List, map, length, All};
    ghost use Rattle.rx_determinize.specs.Key.{Key};
    ghost use Rattle.rx_dfa.specs.KeyRow.{key_in, LiesWithin};

    ghost Value = { List Key };

    ghost view = { λ a. map (key_in a.threads.items a.matches.items) a.rows.items };

    ghost invariant = { λ a. All (LiesWithin (length a.threads.items) (length a.matches.items)) a.rows.items };
}

impl KeyArena {
    /// No keys.
    pub fn new(alloc: Global) -> KeyArena
        ensures { result ≡ [] }
    {
        KeyArena {
            threads: Vec::new(alloc),
            matches: Vec::new(alloc),
            rows: Vec::new(alloc),
        }
    }

    /// How many keys there are.
    pub fn len(&self) -> usize
        ensures { result ≡ length self.now }
    {
        self.rows.len()
    }

    /// Lets go of all keys, and keeps the memory.
    pub fn clear(&mut self)
        ensures { self.new ≡ [] }
    {
        self.rows.clear();
        self.threads.clear();
        self.matches.clear();
    }

    /// Appends the key. Where there is no memory, the keys stay as they were.
    pub fn push(&mut self, key: &StateKey) -> Result<(), Memory>
        ensures ok { OnOk result (self.new ≡ self.old ++ key_of key.now ∷ []) }
        ensures err { OnErr result (self.new ≡ self.old) }
    {
        let threads = self.threads.len();
        let matches = self.matches.len();
        self.threads.extend_from_slice(key.threads.as_slice())?;
        self.matches.extend_from_slice(key.matches.as_slice())?;
        self.rows.push(KeyRow {
            threads,
            threads_end: self.threads.len(),
            matches,
            matches_end: self.matches.len(),
            loops: key.loops,
            before: key.before,
        })?;
        Ok(())
    }

    /// Whether the key of this number is this one.
    pub fn is(&self, number: usize, key: &StateKey) -> bool
        requires { number < length self.now }
        ensures { IsTrue result ↔ slice_get self.now number ≡ Some (key_of key.now) }
    {
        has_key(
            self.threads.as_slice(),
            self.matches.as_slice(),
            self.rows[number],
            key,
        )
    }

    /// Makes `into` the key of this number.
    pub fn read(&self, number: usize, into: &mut StateKey) -> Result<(), Memory>
        requires { number < length self.now }
        ensures { OnOk result (slice_get self.now number ≡ Some (key_of into.new)) }
    {
        let row = self.rows[number];
        into.threads.clear();
        into.threads
            .extend_from_slice(&self.threads[row.threads..row.threads_end])?;
        into.matches.clear();
        into.matches
            .extend_from_slice(&self.matches[row.matches..row.matches_end])?;
        into.loops = row.loops;
        into.before = row.before;
        Ok(())
    }

    /// The pattern of this index among those that match in the key of this number.
    pub fn pattern(&self, number: usize, index: usize) -> Option<PatternID>
        requires { number < length self.now }
        ensures { (key : Key) → slice_get self.now number ≡ Some key → result ≡ slice_get key.matches index }
    {
        let row = self.rows[number];
        self.matches[row.matches..row.matches_end]
            .get(index)
            .copied()
    }
}

/// Whether the key of the row, whose lists lie in these, is this one.
fn has_key(threads: &[StateID], matches: &[PatternID], row: KeyRow, key: &StateKey) -> bool
    requires { LiesWithin (length threads.now) (length matches.now) row }
    ensures { IsTrue result ↔ key_in threads.now matches.now row ≡ key_of key.now }
{
    if !has_flags(row, key.loops, key.before) {
        return false;
    }
    let own_threads = &threads[row.threads..row.threads_end];
    if !are_states(own_threads, key.threads.as_slice()) {
        return false;
    }
    let own_matches = &matches[row.matches..row.matches_end];
    are_patterns(own_matches, key.matches.as_slice())
}

/// Whether it has the loop or not, as this one, and keeps this byte.
fn has_flags(row: KeyRow, loops: bool, before: Option<u8>) -> bool
    ensures { IsTrue result ↔ (row.loops ≡ loops) × (row.before ≡ before) }
{
    if row.loops != loops {
        return false;
    }
    row.before == before
}

/// Whether the one are the other states.
fn are_states(one: &[StateID], other: &[StateID]) -> bool
    ensures { IsTrue result ↔ one.now ≡ other.now }
{
    if one.len() != other.len() {
        return false;
    }
    for k in 0..one.len() {
        if one[k] != other[k] {
            return false;
        }
    }
    true
}

/// Whether the one are the other patterns.
fn are_patterns(one: &[PatternID], other: &[PatternID]) -> bool
    ensures { IsTrue result ↔ one.now ≡ other.now }
{
    if one.len() != other.len() {
        return false;
    }
    for k in 0..one.len() {
        if one[k] != other[k] {
            return false;
        }
    }
    true
}
