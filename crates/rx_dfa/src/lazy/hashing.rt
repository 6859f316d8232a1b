//! Hashes of keys.
ghost use Rattle.std.specs.Prelude.{◌≡◌, if◌then◌else◌};
ghost use Rattle.rx_dfa.specs.Hash.{mixed, mixed_all, before_word, hash_of};
ghost use Rattle.rx_dfa.specs.StateKey.{key_of};

use crate::state_key::StateKey;
use rx_search::{PatternID, StateID};

/// An odd number whose bits are spread: two to the power of 64, divided by the golden ratio.
const SPREAD: u64 = 0x9E37_79B9_7F4A_7C15;

/// The hash with one more word.
fn mix(hash: u64, word: usize) -> u64
    ensures { result ≡ mixed hash word }
{
    hash.wrapping_mul(SPREAD).wrapping_add(word as u64)
}

/// The hash with these states.
fn mix_states(hash: u64, states: &[StateID]) -> u64
    ensures { result ≡ mixed_all hash states.now }
{
    let mut all = hash;
    for state in states {
        all = mix(all, state.as_usize());
    }
    all
}

/// The hash with these patterns.
fn mix_patterns(hash: u64, patterns: &[PatternID]) -> u64
    ensures { result ≡ mixed_all hash patterns.now }
{
    let mut all = hash;
    for pattern in patterns {
        all = mix(all, pattern.as_usize());
    }
    all
}

/// A number for the byte, or another for none.
fn word_of(before: Option<u8>) -> usize
    ensures { result ≡ before_word before }
{
    match before {
        Some(byte) => byte as usize + 1,
        None => 0,
    }
}

/// A number for whether the loop is there.
fn loop_word(loops: bool) -> usize
    ensures { result ≡ (if loops then 1 else 0) }
{
    if loops { 1 } else { 0 }
}

/// The hash of the key.
#[tactic(auto, unfolding(crate::specs::Hash::hash_of))]
pub fn hash_of(key: &StateKey) -> u64
    ensures { result ≡ hash_of (key_of key.now) }
{
    let threads = mix_states(word_of(key.before) as u64, key.threads.as_slice());
    let looped = mix(threads, loop_word(key.loops));
    mix_patterns(looped, key.matches.as_slice())
}
