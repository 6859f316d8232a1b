//! What the searches of a strategy write to.
ghost use Rattle.std.specs.Prelude.{◌≡◌, true, false, IfOk, OnOk, OnErr, IsOk, IsSomeAnd};
ghost use Rattle.rx_strategies.specs.Cache.{Fits, FitsCore, FitsInner, FitsAsBefore, StillFits, memory_of, states_in, fixed_in, accounted_for, rooms_memory, rooms_states, rooms_fixed, ServesMore, ServesAsBefore};
ghost use Rattle.rx_strategy.specs.Cache as lower;
ghost use Rattle.rx_strategies.specs.Attempting.{is_by_inner};

use crate::inner::ReverseInner;
use crate::strategy::Strategy;
use rx_search::Memory;
use rx_strategy::PrefixCache;
use std::alloc::Global;
use std::marker::Model;
use std::mem::drop;

/// What the searches of a strategy write to. It is made once, and serves one search after another.
///
/// A cache that is reset keeps the room that it has, also where its new strategy looks for literals alone, which needs none. For that
/// strategy nothing is accounted.
#[derive(Drop)]
pub struct Cache {
    /// The cache of a core, once there was one.
    pub(crate) rooms: Option<rx_strategy::Cache>,
    /// The cache of what reads a prefix backwards, once there was one.
    pub(crate) prefix: PrefixCache,
    /// Its strategy has a core.
    pub(crate) in_use: bool,
    /// Its strategy reads a prefix backwards.
    pub(crate) reads_prefix: bool,
}

impl Model for Cache {
    ghost use Rattle.rx_strategies.specs.Cache.{CacheValue};

    ghost Value = { CacheValue };

    ghost view = { λ c. record { rooms = c.rooms; prefix = c.prefix; in_use = c.in_use; reads_prefix = c.reads_prefix } };
}

impl Cache {
    /// A cache that serves this strategy.
    pub fn new(alloc: Global, strategy: &Strategy) -> Result<Cache, Memory>
        ensures fits { IfOk result (Fits strategy.now) }
        ensures memory { IfOk result (λ c. memory_of c ≡ accounted_for strategy.now) }
        ensures empty { IfOk result (λ c. states_in c ≡ 0) }
        ensures reads { IfOk result (λ c. c.reads_prefix ≡ is_by_inner strategy.now) }
    {
        match strategy {
            Strategy::Pre(_) => Ok(Cache {
                rooms: None,
                prefix: PrefixCache::absent(),
                in_use: false,
                reads_prefix: false,
            }),
            Strategy::ReverseAnchored(anchored) => Cache::for_core(alloc, anchored.core()),
            Strategy::ReverseSuffix(suffix) => Cache::for_core(alloc, suffix.core()),
            Strategy::ReverseInner(inner) => Cache::for_inner(alloc, inner),
            Strategy::Core(core) => Cache::for_core(alloc, core),
        }
    }

    /// A cache that serves this core.
    fn for_core(alloc: Global, core: &rx_strategy::Strategy) -> Result<Cache, Memory>
        ensures fits { IfOk result (FitsCore core.now) }
        ensures memory { IfOk result (λ c. memory_of c ≡ lower.accounted_for core.now) }
        ensures empty { IfOk result (λ c. states_in c ≡ 0) }
        ensures reads { IfOk result (λ c. c.reads_prefix ≡ false) }
    {
        Ok(Cache {
            rooms: Some(core.create_cache(alloc)?),
            prefix: PrefixCache::absent(),
            in_use: true,
            reads_prefix: false,
        })
    }

    /// A cache that serves this search by literals within each match.
    fn for_inner(alloc: Global, inner: &ReverseInner) -> Result<Cache, Memory>
        ensures fits { IfOk result (FitsInner inner.now) }
        ensures memory { IfOk result (λ c. memory_of c ≡ lower.accounted_for inner.now.core) }
        ensures empty { IfOk result (λ c. states_in c ≡ 0) }
        ensures reads { IfOk result (λ c. c.reads_prefix ≡ true) }
    {
        // (the smaller part first, since it is let go where there is no memory for the other)
        let prefix = PrefixCache::new(alloc, inner.prefix())?;
        match inner.core().create_cache(alloc) {
            Ok(rooms) => Ok(Cache {
                rooms: Some(rooms),
                prefix,
                in_use: true,
                reads_prefix: true,
            }),
            Err(error) => {
                // By a call (DECISIONS: large values are let go by name).
                drop(prefix);
                Err(error)
            }
        }
    }

    /// Makes any cache one that serves this strategy. It takes memory where its room does not suffice, and keeps what it
    /// has. A cache that serves the strategy already takes no memory, and still serves what it served. Where there is no
    /// memory, it serves what it served before, with its number as before.
    pub fn reset(&mut self, alloc: Global, strategy: &Strategy) -> Result<(), Memory>
        ensures fits { OnOk result (Fits strategy.now self.new) }
        ensures memory { OnOk result (memory_of self.new ≡ accounted_for strategy.now) }
        ensures empty { OnOk result (states_in self.new ≡ 0) }
        ensures reads { OnOk result (self.new.reads_prefix ≡ is_by_inner strategy.now) }
        ensures err { OnErr result (FitsAsBefore self.old self.new) }
        ensures sure { Fits strategy.now self.old → IsOk result }
        ensures kept { Fits strategy.now self.old → StillFits self.old self.new }
    {
        match strategy {
            Strategy::Pre(_) => {
                self.in_use = false;
                self.reads_prefix = false;
                Ok(())
            }
            Strategy::ReverseAnchored(anchored) => self.reset_for(alloc, anchored.core()),
            Strategy::ReverseSuffix(suffix) => self.reset_for(alloc, suffix.core()),
            Strategy::ReverseInner(inner) => self.reset_inner(alloc, inner),
            Strategy::Core(core) => self.reset_for(alloc, core),
        }
    }

    /// Makes any cache one that serves this core.
    fn reset_for(&mut self, alloc: Global, core: &rx_strategy::Strategy) -> Result<(), Memory>
        ensures fits { OnOk result (FitsCore core.now self.new) }
        ensures memory { OnOk result (memory_of self.new ≡ lower.accounted_for core.now) }
        ensures empty { OnOk result (states_in self.new ≡ 0) }
        ensures reads { OnOk result (self.new.reads_prefix ≡ false) }
        ensures err { OnErr result (FitsAsBefore self.old self.new) }
        ensures sure { FitsCore core.now self.old → IsOk result }
        ensures kept { FitsCore core.now self.old → StillFits self.old self.new }
    {
        reset_rooms(alloc, &mut self.rooms, core)?;
        self.in_use = true;
        self.reads_prefix = false;
        Ok(())
    }

    /// Makes any cache one that serves this search by literals within each match.
    fn reset_inner(&mut self, alloc: Global, inner: &ReverseInner) -> Result<(), Memory>
        ensures fits { OnOk result (FitsInner inner.now self.new) }
        ensures memory { OnOk result (memory_of self.new ≡ lower.accounted_for inner.now.core) }
        ensures empty { OnOk result (states_in self.new ≡ 0) }
        ensures reads { OnOk result (self.new.reads_prefix ≡ true) }
        ensures err { OnErr result (FitsAsBefore self.old self.new) }
        ensures sure { FitsInner inner.now self.old → IsOk result }
        ensures kept { FitsInner inner.now self.old → StillFits self.old self.new }
    {
        // First the room for the prefix, so that nothing changes where there is none.
        let missing = self.prefix.missing(alloc, inner.prefix())?;
        match reset_rooms(alloc, &mut self.rooms, inner.core()) {
            Ok(()) => {
                self.prefix.renew(missing);
                self.in_use = true;
                self.reads_prefix = true;
                Ok(())
            }
            Err(error) => {
                // By a call (DECISIONS: large values are let go by name).
                drop(missing);
                Err(error)
            }
        }
    }

    /// The bytes that are accounted for the caches of the engines of its strategy, or the greatest `usize` where they are
    /// more. What the lazy DFAs account grows and falls with the states that a search makes; the rest is fixed when the cache is
    /// made or reset.
    pub fn memory_usage(&self) -> usize
        ensures { result ≡ memory_of self.now }
    {
        if !self.in_use {
            return 0;
        }
        let rooms = rooms_memory(&self.rooms);
        if self.reads_prefix {
            return rooms.saturating_add(self.prefix.memory_usage());
        }
        rooms
    }

    /// A cache of its own with the same room. It holds no states of lazy DFAs.
    pub fn clone(&self, alloc: Global) -> Result<Cache, Memory>
        ensures fits { IfOk result (StillFits self.now) }
        ensures fixed { IfOk result (λ copy. fixed_in copy ≡ fixed_in self.now) }
        ensures empty { IfOk result (λ copy. states_in copy ≡ 0) }
        ensures reads { IfOk result (λ copy. copy.reads_prefix ≡ self.now.reads_prefix) }
    {
        let prefix = self.prefix.clone(alloc)?;
        match clone_rooms(alloc, &self.rooms) {
            Ok(rooms) => Ok(Cache {
                rooms,
                prefix,
                in_use: self.in_use,
                reads_prefix: self.reads_prefix,
            }),
            Err(error) => {
                // By a call (DECISIONS: large values are let go by name).
                drop(prefix);
                Err(error)
            }
        }
    }
}

/// A cache of a core of its own with the same room, where there is one. It holds no states of lazy DFAs.
fn clone_rooms(
    alloc: Global,
    rooms: &Option<rx_strategy::Cache>,
) -> Result<Option<rx_strategy::Cache>, Memory>
    ensures fits { IfOk result (ServesMore rooms.now) }
    ensures fixed { IfOk result (λ copy. rooms_fixed copy ≡ rooms_fixed rooms.now) }
    ensures empty { IfOk result (λ copy. rooms_states copy ≡ 0) }
{
    match rooms {
        Some(rooms) => match rooms.clone(alloc) {
            Ok(copy) => Ok(Some(copy)),
            Err(error) => Err(error),
        },
        None => Ok(None),
    }
}

/// Makes any cache of a core, or none, one that serves this core.
#[tactic(auto, using(crate::proofs::CacheLemmas::no_states))]
fn reset_rooms(
    alloc: Global,
    rooms: &mut Option<rx_strategy::Cache>,
    core: &rx_strategy::Strategy,
) -> Result<(), Memory>
    ensures fits { OnOk result (IsSomeAnd rooms.new (lower.Fits core.now)) }
    ensures memory { OnOk result (rooms_memory rooms.new ≡ lower.accounted_for core.now) }
    ensures empty { OnOk result (rooms_states rooms.new ≡ 0) }
    ensures err { OnErr result (ServesAsBefore rooms.old rooms.new) }
    ensures sure { IsSomeAnd rooms.old (lower.Fits core.now) → IsOk result }
    ensures kept { IsSomeAnd rooms.old (lower.Fits core.now) → ServesMore rooms.old rooms.new }
{
    if let Some(rooms) = rooms {
        return rooms.reset(alloc, core);
    }
    let made = core.create_cache(alloc)?;
    drop(rooms.replace(made));
    Ok(())
}

/// What is accounted for the cache of a core, if there is one.
fn rooms_memory(rooms: &Option<rx_strategy::Cache>) -> usize
    ensures { result ≡ rooms_memory rooms.now }
{
    match rooms {
        Some(rooms) => rooms.memory_usage(),
        None => 0,
    }
}
