//! Keys that are found by a hash.
ghost use Rattle.std.specs.Prelude.{◌≡◌, ◌<◌, ℕ, Some, [], ◌∷◌, ◌++◌, length, IfOk, OnOk, OnErr, MatchOption, All, if◌then◌else◌, slice_get, slice_index};
ghost use Rattle.rx_nfa.specs.Ordered.{has};
ghost use Rattle.rx_determinize.specs.Key.{Key};
ghost use Rattle.rx_dfa.specs.Hash.{bucket_of};
ghost use Rattle.rx_dfa.specs.StateKey.{key_of};

use crate::lazy::arena::KeyArena;
use crate::lazy::hashing::hash_of;
use crate::state_key::StateKey;
use rx_search::{Memory, PatternID};
use std::alloc::Global;
use std::marker::Model;

/// Keys by their numbers, no two alike. They are found by a hash: the keys of one bucket are a chain, from the last one back. A
/// contract sees them as a list.
#[derive(Drop)]
pub struct KeySet {
    keys: KeyArena,
    /// The bucket of each key.
    buckets: Vec<usize>,
    /// Of each key one more than the number of the key before it in its bucket, or 0.
    links: Vec<usize>,
    /// Of each bucket one more than the number of its last key, or 0.
    heads: Vec<usize>,
}

impl Model for KeySet {
    ghost use Rattle.std.specs.Prelude.{List};
    ghost use Rattle.rx_determinize.specs.Key.{Key};
    ghost use Rattle.rx_dfa.specs.KeySet.{AreChained, AreApart};

    ghost Value = { List Key };

    ghost view = { λ s. s.keys };

    ghost invariant = { λ s. AreChained s.keys s.buckets.items s.links.items s.heads.items × AreApart s.keys };
}

impl KeySet {
    /// No keys, in so many buckets.
    pub fn new(alloc: Global, buckets: usize) -> Result<KeySet, Memory>
        requires { 0 < buckets }
        ensures { IfOk result (λ s. s ≡ []) }
    {
        Ok(KeySet {
            keys: KeyArena::new(alloc),
            buckets: Vec::new(alloc),
            links: Vec::new(alloc),
            heads: vec![in alloc; 0usize; buckets]?,
        })
    }

    /// In how many buckets they are found.
    pub fn buckets(&self) -> usize
        ensures { 0 < result }
    {
        self.heads.len()
    }

    /// How many keys there are.
    pub fn len(&self) -> usize
        ensures { result ≡ length self.now }
    {
        self.keys.len()
    }

    /// The number of the key, if it is there.
    pub fn find(&self, key: &StateKey) -> Option<usize>
        ensures { MatchOption result ((number : ℕ) → slice_get self.now number ≡ Some (key_of key.now) → ⊥)
            (λ number. slice_get self.now number ≡ Some (key_of key.now)) }
    {
        let bucket = bucket_of(key, self.heads.len());
        let mut limit = self.heads[bucket];
        while limit > 0 {
            let number = limit - 1;
            if self.keys.is(number, key) {
                return Some(number);
            }
            limit = self.links[number];
        }
        None
    }

    /// Appends the key, which is not there yet. Where there is no memory, the keys stay as they were.
    pub fn insert(&mut self, key: &StateKey) -> Result<(), Memory>
        requires { (number : ℕ) → slice_get self.old number ≡ Some (key_of key.now) → ⊥ }
        ensures ok { OnOk result (self.new ≡ self.old ++ key_of key.now ∷ []) }
        ensures err { OnErr result (self.new ≡ self.old) }
    {
        let bucket = bucket_of(key, self.heads.len());
        self.buckets.reserve(1)?;
        self.links.reserve(1)?;
        self.keys.push(key)?;
        self.buckets.push_reserved(bucket);
        self.links.push_reserved(self.heads[bucket]);
        self.heads[bucket] = self.buckets.len();
        Ok(())
    }

    /// Lets go of all keys, and keeps the memory. It takes as long as there are keys.
    pub fn clear(&mut self)
        ensures { self.new ≡ [] }
    {
        unlink(self.buckets.as_slice(), self.heads.as_mut_slice());
        self.buckets.clear();
        self.links.clear();
        self.keys.clear();
    }

    /// Makes `into` the key of this number.
    pub fn read(&self, number: usize, into: &mut StateKey) -> Result<(), Memory>
        requires { number < length self.now }
        ensures { OnOk result (slice_get self.now number ≡ Some (key_of into.new)) }
    {
        self.keys.read(number, into)
    }

    /// The pattern of this index among those that match in the key of this number.
    pub fn pattern(&self, number: usize, index: usize) -> Option<PatternID>
        requires { number < length self.now }
        ensures { (key : Key) → slice_get self.now number ≡ Some key → result ≡ slice_get key.matches index }
    {
        self.keys.pattern(number, index)
    }
}

/// Empties these buckets.
fn unlink(buckets: &[usize], heads: &mut [usize])
    requires { All (λ b. b < length heads.old) buckets.now }
    ensures { (b : ℕ) → slice_index heads.new b ≡ (if has buckets.now b then 0 else slice_index heads.old b) }
{
    for bucket in buckets {
        heads[*bucket] = 0;
    }
}

/// The bucket of the key, of so many.
fn bucket_of(key: &StateKey, buckets: usize) -> usize
    requires { 0 < buckets }
    ensures value { result ≡ bucket_of buckets (key_of key.now) }
    ensures within { result < buckets }
{
    (hash_of(key) >> 32) as usize % buckets
}
