//! The caches of the lazy DFAs of a core.
ghost use Rattle.std.specs.Prelude.{◌≡◌, ◌+◌, ◌-◌, ◌^◌, min, IfOk, OnOk, OnErr, IsOk};
ghost use Rattle.rx_dfa.specs.Lazy.{LazyValue};
ghost use Rattle.rx_strategy.specs.Dfas.{AreCachesOf, HoldNoStates};

use rx_dfa::lazy::{Lazy, LazyCache};
use rx_search::Memory;
use std::alloc::Global;

/// A cache for the DFA that reads forwards, and one for the DFA that reads backwards.
#[derive(Drop)]
pub(crate) struct Lazies {
    pub(crate) forward: LazyCache,
    pub(crate) backward: LazyCache,
}

impl Lazies {
    /// Caches for these, without a state.
    pub(crate) fn new(alloc: Global, forward: &Lazy, backward: &Lazy) -> Result<Lazies, Memory>
        ensures fits { IfOk result (λ both. AreCachesOf (forward.now, backward.now) both) }
        ensures empty { IfOk result HoldNoStates }
    {
        Ok(Lazies {
            forward: LazyCache::new(alloc, forward)?,
            backward: LazyCache::new(alloc, backward)?,
        })
    }

    /// Makes them caches for these, without a state. Where there is no memory, both stay as they were; room that suffices takes none.
    pub(crate) fn reset(
        &mut self,
        alloc: Global,
        forward: &Lazy,
        backward: &Lazy,
    ) -> Result<(), Memory>
        ensures fits { OnOk result (AreCachesOf (forward.now, backward.now) self.new) }
        ensures empty { OnOk result (HoldNoStates self.new) }
        ensures err { OnErr result (self.new ≡ self.old) }
        ensures sure { AreCachesOf (forward.now, backward.now) self.old → IsOk result }
        ensures kept { AreCachesOf (forward.now, backward.now) self.old → (pair : LazyValue × LazyValue) → AreCachesOf pair self.old → AreCachesOf pair self.new }
    {
        // First the room for both, so that neither changes where there is none.
        let first = self.forward.missing(alloc, forward)?;
        let second = self.backward.missing(alloc, backward)?;
        self.forward.renew(first);
        self.backward.renew(second);
        Ok(())
    }

    /// Lets go of all states.
    pub(crate) fn clear(&mut self)
        ensures empty { HoldNoStates self.new }
        ensures kept { (pair : LazyValue × LazyValue) → AreCachesOf pair self.old → AreCachesOf pair self.new }
    {
        self.forward.renew(None);
        self.backward.renew(None);
    }

    /// Caches of their own with the same room, without a state.
    pub(crate) fn clone(&self, alloc: Global) -> Result<Lazies, Memory>
        ensures fits { IfOk result (λ both. (pair : LazyValue × LazyValue) → AreCachesOf pair self.now → AreCachesOf pair both) }
        ensures empty { IfOk result HoldNoStates }
    {
        Ok(Lazies {
            forward: self.forward.clone(alloc)?,
            backward: self.backward.clone(alloc)?,
        })
    }

    /// The bytes that are accounted for the states in both, or the greatest `usize` where they are more.
    pub(crate) fn memory_usage(&self) -> usize
        ensures { result ≡ min (2 ^ 64 - 1) (self.now.forward.rows.size + self.now.backward.rows.size) }
    {
        self.forward
            .memory_usage()
            .saturating_add(self.backward.memory_usage())
    }
}
