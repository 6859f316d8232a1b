//! The DFA that reads what stands before literals backwards.
ghost use Rattle.std.specs.Prelude.{◌≡◌, ◌-◌, ◌^◌, ◌∷◌, [], min, true, false, IfOk, IsOk, MatchOption, None};
ghost use Rattle.rx_nfa.specs.Compiled.{IsCompiled, AreAllowed};
ghost use Rattle.rx_search.specs.declared.anchored.MatchKind.TheVariants.{All};
ghost use Rattle.rx_strategy.specs.Config.{prefix_compiler_of};
ghost use Rattle.rx_strategy.specs.Prefix.{PrefixValue, ReadsBack, IsPrefixOf, HasNoPrefix, IsPrefixTable, HasNoFullPrefix, IsSortOf};
ghost use Rattle.rx_strategy.specs.Prefix.{prefix_memory, FitsPrefix, prefix_states, HoldsNoPrefix, Supplies, IsNoRoom, IsBlank};
ghost use Rattle.rx_strategy.specs.Availability.{may_be_full, may_be_lazy};

use crate::config::Config;
use crate::dfas::build::lazy_of;
use rx_dfa::lazy::{Lazy, LazyCache};
use rx_dfa::scratch::Scratch;
use rx_dfa::{Dense, dense};
use rx_hir::Hir;
use rx_nfa::{BuildError, Compiler, NFA};
use rx_search::{MatchKind, Memory};
use std::alloc::Global;
use std::marker::Model;
use std::mem::drop;

/// A DFA that reads an expression backwards from where literals behind it lie, with the NFA that it was made of. It tells the least start
/// that the expression has there, also one inside a character.
#[derive(Drop)]
pub struct PrefixDfa {
    nfa: NFA,
    pub(crate) sort: Sort,
}

/// A DFA of either sort.
#[derive(Drop)]
pub(crate) enum Sort {
    /// Its table was made when it was built.
    Full(Dense),
    /// Its states are made as a search meets them.
    Lazy(Lazy),
}

impl Model for PrefixDfa {
    ghost use Rattle.rx_strategy.specs.Prefix.{PrefixValue, ReadsBack};

    ghost Value = { PrefixValue };

    ghost view = { λ p. record { nfa = p.nfa; sort = p.sort } };

    ghost invariant = { λ p. ReadsBack p.nfa p.sort };
}

impl PrefixDfa {
    /// The DFA of this expression under the configuration: the full one where few enough states are accounted and its table is within
    /// half of the limit, else the lazy one where it may be built, and else none.
    pub fn new(alloc: Global, config: &Config, prefix: &Hir) -> Result<Option<PrefixDfa>, Memory>
        ensures { IfOk result (λ made. MatchOption made (HasNoPrefix config.now prefix.now) (IsPrefixOf config.now prefix.now)) }
    {
        let Some(nfa) = compiled_prefix(alloc, config, prefix)? else {
            return Ok(None);
        };
        match sort_of(alloc, config, &nfa)? {
            Some(sort) => Ok(Some(PrefixDfa { nfa, sort })),
            None => Ok(None),
        }
    }

    /// The bytes that are accounted for its NFA, and for the table of a full DFA, or the greatest `usize` where they are more.
    pub fn memory_usage(&self) -> usize
        ensures { result ≡ min (2 ^ 64 - 1) (prefix_memory self.now) }
    {
        let nfa = self.nfa.memory_usage();
        match &self.sort {
            Sort::Full(dense) => nfa.saturating_add(dense.memory_usage()),
            Sort::Lazy(_) => nfa,
        }
    }
}

/// The NFA of the expression, which reads backwards, if it is within the limits.
fn compiled_prefix(alloc: Global, config: &Config, prefix: &Hir) -> Result<Option<NFA>, Memory>
    ensures { IfOk result (λ made. MatchOption made (AreAllowed (prefix_compiler_of config.now) (prefix.now ∷ []) → ⊥)
        (IsCompiled (prefix_compiler_of config.now) (prefix.now ∷ []))) }
{
    let mut compiler = Compiler::new();
    compiler.configure(config.prefix_compiler());
    match compiler.build_from_hir(alloc, prefix) {
        Ok(nfa) => Ok(Some(nfa)),
        Err(BuildError::Memory) => Err(Memory),
        Err(_) => Ok(None),
    }
}

/// The DFA of the NFA, if there is one.
fn sort_of(alloc: Global, config: &Config, nfa: &NFA) -> Result<Option<Sort>, Memory>
    ensures { IfOk result (λ made. MatchOption made (HasNoFullPrefix config.now nfa.now × (may_be_lazy config.now nfa.now ≡ false))
        (IsSortOf config.now nfa.now)) }
{
    if let Some(full) = full_of(alloc, config, nfa)? {
        return Ok(Some(Sort::Full(full)));
    }
    if !config.get_hybrid() {
        return Ok(None);
    }
    match lazy_of(alloc, config, nfa, MatchKind::All)? {
        Some(lazy) => Ok(Some(Sort::Lazy(lazy))),
        None => Ok(None),
    }
}

/// The full DFA of the NFA, where it may be built and its table is within the limit.
fn full_of(alloc: Global, config: &Config, nfa: &NFA) -> Result<Option<Dense>, Memory>
    ensures { IfOk result (λ made. MatchOption made (HasNoFullPrefix config.now nfa.now)
        (λ d. (may_be_full config.now nfa.now ≡ true) × IsPrefixTable config.now nfa.now d)) }
{
    if !config.may_be_full(nfa) {
        return Ok(None);
    }
    let own = nfa.clone()?;
    let limit = config.prefix_limit();
    match Dense::build_from_nfa(alloc, own, MatchKind::All, config.get_byte_classes(), limit) {
        Ok(dense) => Ok(Some(dense)),
        Err(dense::BuildError::TooBig { .. }) => Ok(None),
        Err(dense::BuildError::Memory) => Err(Memory),
    }
}

/// The states of a lazy DFA that reads a prefix, if it was made for one.
#[derive(Drop)]
pub struct PrefixCache {
    pub(crate) lazy: Option<LazyCache>,
}

impl Model for PrefixCache {
    ghost use Rattle.std.specs.Prelude.{Option};
    ghost use Rattle.rx_dfa.specs.declared.lazy.lazy_cache.LazyCache.{LazyCache};

    ghost Value = { Option LazyCache };

    ghost view = { λ c. c.lazy };
}

/// The room that a cache lacks to serve a DFA.
#[derive(Drop)]
pub enum Missing {
    /// The DFA needs no cache.
    Nothing,
    /// The cache is there, and may need other room for a step.
    Room(Option<Scratch>),
    /// There is no cache yet.
    Cache(LazyCache),
}

impl PrefixCache {
    /// A cache that serves no lazy DFA.
    pub fn absent() -> PrefixCache
        ensures { result ≡ None }
    {
        PrefixCache { lazy: None }
    }

    /// A cache that serves this DFA, without a state.
    pub fn new(alloc: Global, prefix: &PrefixDfa) -> Result<PrefixCache, Memory>
        ensures fits { IfOk result (FitsPrefix prefix.now) }
        ensures empty { IfOk result HoldsNoPrefix }
    {
        match &prefix.sort {
            Sort::Full(_) => Ok(PrefixCache { lazy: None }),
            Sort::Lazy(lazy) => Ok(PrefixCache {
                lazy: Some(LazyCache::new(alloc, lazy)?),
            }),
        }
    }

    /// What it lacks to serve this DFA. Where it serves it already, no memory is taken.
    pub fn missing(&self, alloc: Global, prefix: &PrefixDfa) -> Result<Missing, Memory>
        ensures supplies { IfOk result (Supplies prefix.now self.now) }
        ensures blank { IfOk result IsBlank }
        ensures none { FitsPrefix prefix.now self.now → IfOk result IsNoRoom }
        ensures sure { FitsPrefix prefix.now self.now → IsOk result }
    {
        let Sort::Lazy(lazy) = &prefix.sort else {
            return Ok(Missing::Nothing);
        };
        match &self.lazy {
            Some(cache) => Ok(Missing::Room(cache.missing(alloc, lazy)?)),
            None => Ok(Missing::Cache(LazyCache::new(alloc, lazy)?)),
        }
    }

    /// Makes it a cache that serves the DFA for which this room was missing, without a state.
    pub fn renew(&mut self, missing: Missing)
        ensures fits { (p : PrefixValue) → Supplies p self.old missing → FitsPrefix p self.new }
        ensures empty { IsBlank missing → HoldsNoPrefix self.new }
        ensures kept { IsNoRoom missing → (p : PrefixValue) → FitsPrefix p self.old → FitsPrefix p self.new }
    {
        match missing {
            Missing::Nothing => {
                if let Some(cache) = &mut self.lazy {
                    cache.renew(None);
                }
            }
            Missing::Room(room) => {
                if let Some(cache) = &mut self.lazy {
                    cache.renew(room);
                }
            }
            Missing::Cache(cache) => {
                // By a call (DECISIONS: large values are let go by name).
                drop(self.lazy.replace(cache));
            }
        }
    }

    /// A cache of its own with the same room, without a state.
    pub fn clone(&self, alloc: Global) -> Result<PrefixCache, Memory>
        ensures fits { IfOk result (λ copy. (p : PrefixValue) → FitsPrefix p self.now → FitsPrefix p copy) }
        ensures empty { IfOk result HoldsNoPrefix }
    {
        match &self.lazy {
            Some(cache) => Ok(PrefixCache {
                lazy: Some(cache.clone(alloc)?),
            }),
            None => Ok(PrefixCache { lazy: None }),
        }
    }

    /// The bytes that are accounted for the states that it holds.
    pub fn memory_usage(&self) -> usize
        ensures { result ≡ prefix_states self.now }
    {
        match &self.lazy {
            Some(cache) => cache.memory_usage(),
            None => 0,
        }
    }
}
