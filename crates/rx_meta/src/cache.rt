//! What the searches of a regex write to.
#![tactic(auto, unfolding(crate::specs::Cache::Fits, crate::specs::Cache::IsAsMadeFor, crate::specs::Cache::memory_of, crate::specs::Cache::accounted_for, crate::specs::Cache::fixed_memory, crate::specs::Cache::states_memory))]

ghost use Rattle.std.specs.Prelude.{◌≡◌, IfOk, OnOk, OnErr, IsOk};
ghost use Rattle.rx_meta.specs.Regex.{RegexValue};
ghost use Rattle.rx_meta.specs.Cache.{Fits, IsAsMadeFor, FitsAsBefore, StillFits, memory_of, accounted_for, fixed_memory, states_memory};

use crate::regex::Regex;
use rx_search::Memory;
use std::alloc::Global;
use std::marker::Model;

/// What the searches of a regex write to. It is made once, and serves one search after another.
#[derive(Drop)]
pub struct Cache {
    // A pool moves its values often (DECISIONS: a cache of a regex is a box).
    pub(crate) rooms: Box<rx_strategies::Cache>,
}

impl Model for Cache {
    ghost use Rattle.rx_meta.specs.Cache.{CacheValue};

    ghost Value = { CacheValue };

    ghost view = { λ c. record { rooms = c.rooms.value } };
}

impl Cache {
    /// A cache that serves this regex. It holds no states of lazy DFAs yet.
    ///
    /// # Errors
    ///
    /// `Memory`, where there was no memory for it.
    pub fn new(alloc: Global, regex: &Regex) -> Result<Cache, Memory>
        ensures fits { IfOk result (Fits regex.now) }
        ensures memory { IfOk result (λ c. memory_of c ≡ accounted_for regex.now) }
        ensures empty { IfOk result (λ c. states_memory c ≡ 0) }
        ensures own { IfOk result (IsAsMadeFor regex.now) }
    {
        regex.create_cache(alloc)
    }

    /// Makes any cache one that serves this regex, without states of lazy DFAs. It takes memory where its room does not
    /// suffice, and keeps the room that it has: for a part that this regex lacks nothing is accounted. A cache that serves
    /// the regex already takes no memory, and still serves what it served. Where there is no memory, it serves what it served
    /// before, with its number as before.
    ///
    /// # Errors
    ///
    /// `Memory`, where there was no memory for more room.
    pub fn reset(&mut self, alloc: Global, regex: &Regex) -> Result<(), Memory>
        ensures fits { OnOk result (Fits regex.now self.new) }
        ensures memory { OnOk result (memory_of self.new ≡ accounted_for regex.now) }
        ensures empty { OnOk result (states_memory self.new ≡ 0) }
        ensures own { OnOk result (IsAsMadeFor regex.now self.new) }
        ensures err { OnErr result (FitsAsBefore self.old self.new) }
        ensures sure { Fits regex.now self.old → IsOk result }
        ensures kept { Fits regex.now self.old → StillFits self.old self.new }
    {
        // What it served before counts only if it served this regex too (DECISIONS: after a `reset` a cache is promised to serve).
        self.rooms.reset(alloc, regex.strategy())
    }

    /// The bytes that are accounted for the caches of its engines, or the greatest `usize` where they are more. What is
    /// accounted for lazy DFAs grows and falls with the states that searches make; the rest is fixed when the cache is made
    /// or reset. This is not what they reserve: the backtracker's cache also has room for each frame that a search can
    /// leave, which is some 24 bytes for each place of the longest span times the frames of all states. It is reserved when
    /// the cache is made, and touched only as far as searches come.
    pub fn memory_usage(&self) -> usize
        ensures { result ≡ memory_of self.now }
    {
        self.rooms.memory_usage()
    }

    /// A cache of its own with the same room, which serves what this one serves. It holds no states of lazy DFAs; for the rest
    /// as much is accounted as for this one.
    ///
    /// # Errors
    ///
    /// `Memory`, where there was no memory for it.
    pub fn clone(&self, alloc: Global) -> Result<Cache, Memory>
        ensures fits { IfOk result (StillFits self.now) }
        ensures fixed { IfOk result (λ copy. fixed_memory copy ≡ fixed_memory self.now) }
        ensures empty { IfOk result (λ copy. states_memory copy ≡ 0) }
        ensures own { IfOk result (λ copy. (regex : RegexValue) → IsAsMadeFor regex self.now → IsAsMadeFor regex copy) }
    {
        Ok(Cache {
            rooms: Box::new(alloc, self.rooms.clone(alloc)?)?,
        })
    }
}
