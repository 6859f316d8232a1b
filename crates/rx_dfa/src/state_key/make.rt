//! Keys that are made, emptied and copied.
ghost use Rattle.std.specs.Prelude.{◌≡◌, None, IfOk, OnOk};
ghost use Rattle.rx_dfa.specs.Automaton.{no_key};
ghost use Rattle.rx_dfa.specs.StateKey.{key_of};

use crate::state_key::StateKey;
use rx_search::Memory;
use std::alloc::Global;

/// The key of no thread, no loop and no match.
pub fn empty(alloc: Global) -> StateKey
    ensures { key_of result ≡ no_key None }
{
    StateKey {
        threads: Vec::new(alloc),
        loops: false,
        matches: Vec::new(alloc),
        before: None,
    }
}

/// Makes it the key of no thread, no loop and no match.
pub fn clear(key: &mut StateKey)
    ensures { key_of key.new ≡ no_key None }
{
    key.threads.clear();
    key.loops = false;
    key.matches.clear();
    key.before = None;
}

/// Makes `into` the same key.
pub fn copy(key: &StateKey, into: &mut StateKey) -> Result<(), Memory>
    ensures { OnOk result (key_of into.new ≡ key_of key.now) }
{
    into.threads.clear();
    into.threads.extend_from_slice(key.threads.as_slice())?;
    into.loops = key.loops;
    into.matches.clear();
    into.matches.extend_from_slice(key.matches.as_slice())?;
    into.before = key.before;
    Ok(())
}
