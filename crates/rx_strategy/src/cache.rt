//! What the engines of a strategy write to.
ghost use Rattle.std.specs.Prelude.{◌≡◌, ◌-◌, ◌^◌, min, None, IfOk, IfSome, OnOk, OnErr, IsOk};
ghost use Rattle.rx_strategy.specs.Cache.{Fits, FitsAsBefore, StillFits, HoldsNoStates, memory_of, accounted_for};
ghost use Rattle.rx_strategy.specs.Dfas.{FitsLazies, HoldNoStates, states_memory};
ghost use Rattle.rx_strategy.specs.declared.dfas.Dfas.{Dfas};

use crate::lazies::Lazies;
use crate::strategy::Strategy;
use rx_engines::{backtrack, pikevm};
use rx_search::Memory;
use std::alloc::Global;
use std::marker::Model;
use std::mem::drop;

/// What the engines of a strategy write to. It is made once, and serves one search after another.
///
/// A cache that is reset keeps the room that it has, also in a part that its new strategy lacks. For such a part nothing is
/// accounted.
#[derive(Drop)]
pub struct Cache {
    pub(crate) pikevm: pikevm::Cache,
    pub(crate) onepass: Option<rx_onepass::Cache>,
    pub(crate) backtrack: Option<backtrack::Cache>,
    /// The states of lazy DFAs.
    pub(crate) lazies: Option<Lazies>,
    /// What is accounted for the engines that always answer.
    pub(crate) memory: usize,
}

impl Model for Cache {
    ghost use Rattle.rx_strategy.specs.Cache.{CacheValue};

    ghost Value = { CacheValue };

    ghost view = { λ c. record { pikevm = c.pikevm; onepass = c.onepass; backtrack = c.backtrack; lazies = c.lazies; memory = c.memory } };
}

impl Cache {
    /// A cache that serves this strategy.
    pub fn new(alloc: Global, strategy: &Strategy) -> Result<Cache, Memory>
        ensures fits { IfOk result (Fits strategy.now) }
        ensures memory { IfOk result (λ c. memory_of c ≡ accounted_for strategy.now) }
        ensures empty { IfOk result HoldsNoStates }
    {
        strategy.create_cache(alloc)
    }

    /// Makes any cache one that serves this strategy. It takes memory where its room does not suffice, and keeps what it
    /// has. A cache that serves the strategy already takes no memory, and still serves what it served. Where there is no
    /// memory, it serves what it served before, with its number as before.
    pub fn reset(&mut self, alloc: Global, strategy: &Strategy) -> Result<(), Memory>
        ensures fits { OnOk result (Fits strategy.now self.new) }
        ensures memory { OnOk result (memory_of self.new ≡ accounted_for strategy.now) }
        ensures empty { OnOk result (HoldsNoStates self.new) }
        ensures err { OnErr result (FitsAsBefore self.old self.new) }
        ensures sure { Fits strategy.now self.old → IsOk result }
        ensures kept { Fits strategy.now self.old → StillFits self.old self.new }
    {
        match strategy {
            Strategy::Core(core) => core.reset_cache(alloc, self),
        }
    }

    /// The bytes that are accounted for the caches of the engines of its strategy, or the greatest `usize` where they are
    /// more. What the lazy DFAs account grows and falls with the states that a search makes; the rest is fixed when the cache is
    /// made or reset.
    pub fn memory_usage(&self) -> usize
        ensures { result ≡ memory_of self.now }
    {
        self.memory.saturating_add(accounted_states(&self.lazies))
    }

    /// A cache of its own with the same room. It holds no states of lazy DFAs.
    pub fn clone(&self, alloc: Global) -> Result<Cache, Memory>
        ensures fits { IfOk result (StillFits self.now) }
        ensures memory { IfOk result (λ c. c.memory ≡ self.now.memory) }
        ensures empty { IfOk result HoldsNoStates }
    {
        let mut copy = Cache::bare(self.pikevm.clone(alloc)?);
        match self.copy_parts(alloc, &mut copy) {
            Ok(()) => Ok(copy),
            Err(error) => {
                // By a call (DECISIONS: large values are let go by name).
                drop(copy);
                Err(error)
            }
        }
    }

    /// A cache for the PikeVM alone.
    pub(crate) fn bare(pikevm: pikevm::Cache) -> Cache
        ensures { result ≡ record { pikevm = pikevm; onepass = None; backtrack = None; lazies = None; memory = 0 } }
    {
        Cache {
            pikevm,
            onepass: None,
            backtrack: None,
            lazies: None,
            memory: 0,
        }
    }

    /// Puts copies of the parts that a strategy may lack into a bare cache, and the number. Caches for lazy DFAs hold no state.
    fn copy_parts(&self, alloc: Global, copy: &mut Cache) -> Result<(), Memory>
        requires { copy.old.lazies ≡ None }
        ensures pikevm { copy.new.pikevm ≡ copy.old.pikevm }
        ensures onepass { OnOk result (copy.new.onepass ≡ self.now.onepass) }
        ensures backtrack { OnOk result (copy.new.backtrack ≡ self.now.backtrack) }
        ensures fits { OnOk result ((dfas : Dfas) → FitsLazies dfas self.now.lazies → FitsLazies dfas copy.new.lazies) }
        ensures memory { OnOk result (copy.new.memory ≡ self.now.memory) }
        ensures empty { OnOk result (HoldsNoStates copy.new) }
    {
        copy.onepass = self.clone_onepass()?;
        copy.backtrack = self.clone_backtrack(alloc)?;
        copy_lazies(alloc, &self.lazies, &mut copy.lazies)?;
        copy.memory = self.memory;
        Ok(())
    }

    /// The one-pass DFA's cache once more.
    fn clone_onepass(&self) -> Result<Option<rx_onepass::Cache>, Memory>
        ensures { IfOk result (λ c. c ≡ self.now.onepass) }
    {
        match &self.onepass {
            Some(cache) => Ok(Some(cache.clone()?)),
            None => Ok(None),
        }
    }

    /// The backtracker's cache once more.
    fn clone_backtrack(&self, alloc: Global) -> Result<Option<backtrack::Cache>, Memory>
        ensures { IfOk result (λ c. c ≡ self.now.backtrack) }
    {
        match &self.backtrack {
            Some(cache) => Ok(Some(cache.clone(alloc)?)),
            None => Ok(None),
        }
    }
}

/// Puts caches for lazy DFAs once more where there are none, without a state.
fn copy_lazies(
    alloc: Global,
    lazies: &Option<Lazies>,
    copy: &mut Option<Lazies>,
) -> Result<(), Memory>
    requires { copy.old ≡ None }
    ensures fits { OnOk result ((dfas : Dfas) → FitsLazies dfas lazies.now → FitsLazies dfas copy.new) }
    ensures empty { OnOk result (IfSome copy.new HoldNoStates) }
{
    let Some(lazies) = lazies else {
        return Ok(());
    };
    let made = lazies.clone(alloc)?;
    // By a call (DECISIONS: large values are let go by name).
    drop(copy.replace(made));
    Ok(())
}

/// What is accounted for the states of lazy DFAs, where there are caches for them.
fn accounted_states(lazies: &Option<Lazies>) -> usize
    ensures { result ≡ min (2 ^ 64 - 1) (states_memory lazies.now) }
{
    match lazies {
        Some(lazies) => lazies.memory_usage(),
        None => 0,
    }
}
