//! Which DFAs a core has.
ghost use Rattle.std.specs.Prelude.{◌≡◌, ◌<◌, IfOk, OnOk, OnErr, IsOk, IfSome, MatchOption, option_copied};
ghost use Rattle.rx_strategy.specs.Dfas.{FitsLazies, HoldNoStates};
ghost use Rattle.rx_strategy.specs.Config.{hybrid_cache_capacity_of, byte_classes_of};
ghost use Rattle.rx_strategy.specs.Availability.{AreDfasOf, AreDfasBeside, HasNoFull, HasLargeTable, IsTableOf};
ghost use Rattle.rx_dfa.specs.Lazy.{minimum};
ghost use Rattle.rx_dfa.specs.LazyBuild.{IsLazyOf};

use crate::config::Config;
use crate::dfas::Dfas;
use crate::lazies::Lazies;
use rx_dfa::lazy::{self, Lazy};
use rx_dfa::{Dense, dense};
use rx_nfa::NFA;
use rx_search::{MatchKind, Memory};
use std::alloc::Global;
use std::mem::drop;

impl Dfas {
    /// The DFAs of the NFA and of the one that reads backwards, if that is there.
    pub(crate) fn new(
        alloc: Global,
        config: &Config,
        nfa: &NFA,
        reverse: Option<&NFA>,
    ) -> Result<Dfas, Memory>
        requires { IfSome (option_copied reverse) (λ back. back.accounted ≡ nfa.now.accounted) }
        ensures { IfOk result (AreDfasBeside config.now nfa.now (option_copied reverse.entry)) }
    {
        let Some(reverse) = reverse else {
            return Ok(Dfas::Absent);
        };
        match full(alloc, config, nfa, reverse)? {
            Some(dfas) => Ok(dfas),
            None => lazies(alloc, config, nfa, reverse),
        }
    }

    /// Makes any caches some that serve these DFAs, and lets go of all states. Where there are no lazy DFAs, what is there stays without
    /// a state.
    pub(crate) fn reset_cache(
        &self,
        alloc: Global,
        lazies: &mut Option<Lazies>,
    ) -> Result<(), Memory>
        ensures fits { OnOk result (FitsLazies self.now lazies.new) }
        ensures empty { OnOk result (IfSome lazies.new HoldNoStates) }
        ensures err { OnErr result (lazies.new ≡ lazies.old) }
        ensures sure { FitsLazies self.now lazies.old → IsOk result }
        ensures kept { FitsLazies self.now lazies.old → (dfas : Dfas) → FitsLazies dfas lazies.old → FitsLazies dfas lazies.new }
    {
        let Dfas::Lazy { forward, backward } = self else {
            forget(lazies);
            return Ok(());
        };
        match lazies {
            Some(both) => both.reset(alloc, forward, backward),
            None => {
                let made = Lazies::new(alloc, forward, backward)?;
                // By a call (DECISIONS: large values are let go by name).
                drop(lazies.replace(made));
                Ok(())
            }
        }
    }
}

/// Lets go of the states in caches of lazy DFAs, if there are such caches.
fn forget(lazies: &mut Option<Lazies>)
    ensures empty { IfSome lazies.new HoldNoStates }
    ensures kept { (dfas : Dfas) → FitsLazies dfas lazies.old → FitsLazies dfas lazies.new }
{
    if let Some(both) = lazies {
        both.clear();
    }
}

/// The full DFAs, where they may be built and each table is within its limit.
fn full(alloc: Global, config: &Config, nfa: &NFA, reverse: &NFA) -> Result<Option<Dfas>, Memory>
    ensures { IfOk result (λ made. MatchOption made (HasNoFull config.now nfa.now reverse.now) (AreDfasOf config.now nfa.now reverse.now)) }
{
    if !config.may_be_full(nfa) {
        return Ok(None);
    }
    let Some(forward) = table(alloc, config, nfa, config.get_match_kind())? else {
        return Ok(None);
    };
    let Some(backward) = table(alloc, config, reverse, MatchKind::All)? else {
        return Ok(None);
    };
    Ok(Some(Dfas::Full { forward, backward }))
}

/// The full DFA of the NFA and kind, where its table is within the limit.
fn table(
    alloc: Global,
    config: &Config,
    nfa: &NFA,
    kind: MatchKind,
) -> Result<Option<Dense>, Memory>
    ensures { IfOk result (λ made. MatchOption made (HasLargeTable config.now nfa.now kind) (IsTableOf config.now nfa.now kind)) }
{
    let own = nfa.clone()?;
    let limit = config.table_limit();
    match Dense::build_from_nfa(alloc, own, kind, config.get_byte_classes(), limit) {
        Ok(dense) => Ok(Some(dense)),
        Err(dense::BuildError::TooBig { .. }) => Ok(None),
        Err(dense::BuildError::Memory) => Err(Memory),
    }
}

/// The lazy DFAs, where they may be built.
fn lazies(alloc: Global, config: &Config, nfa: &NFA, reverse: &NFA) -> Result<Dfas, Memory>
    requires no_full { HasNoFull config.now nfa.now reverse.now }
    requires same { reverse.now.accounted ≡ nfa.now.accounted }
    ensures { IfOk result (AreDfasOf config.now nfa.now reverse.now) }
{
    if !config.get_hybrid() {
        return Ok(Dfas::Absent);
    }
    let Some(forward) = lazy_of(alloc, config, nfa, config.get_match_kind())? else {
        return Ok(Dfas::Absent);
    };
    // As many states are accounted for both NFAs, so both have the same minimum.
    let Some(backward) = lazy_of(alloc, config, reverse, MatchKind::All)? else {
        return Ok(Dfas::Absent);
    };
    Ok(Dfas::Lazy { forward, backward })
}

/// The lazy DFA of the NFA and kind, where the capacity is at least its minimum.
pub(crate) fn lazy_of(
    alloc: Global,
    config: &Config,
    nfa: &NFA,
    kind: MatchKind,
) -> Result<Option<Lazy>, Memory>
    ensures { IfOk result (λ made. MatchOption made (hybrid_cache_capacity_of config.now < minimum nfa.now)
        (IsLazyOf nfa.now kind (byte_classes_of config.now) (hybrid_cache_capacity_of config.now))) }
{
    let own = nfa.clone()?;
    let capacity = config.get_hybrid_cache_capacity();
    match Lazy::build_from_nfa(alloc, own, kind, config.get_byte_classes(), capacity) {
        Ok(made) => Ok(Some(made)),
        Err(lazy::BuildError::CacheTooSmall { .. }) => Ok(None),
        Err(lazy::BuildError::Memory) => Err(Memory),
    }
}
