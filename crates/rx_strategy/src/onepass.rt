//! The one-pass DFA of a core.
ghost use Rattle.std.specs.Prelude.{◌≡◌, ◌-◌, ◌*◌, ◌^◌, ◌≤◌, ◌<◌, false, true, length, None, replicate, is_some, MatchOption, IfOk, IfSome, IfNone, OnOk, IsOk, IsSomeAnd, option_copied};
ghost use Rattle.rx_model.specs.Expression.{Expression};
ghost use Rattle.rx_model.specs.Search.{Patterns};
ghost use Rattle.rx_search.specs.Anchored.{anchor_of};
ghost use Rattle.rx_search.specs.Input.{IsSpanned, next_in};
ghost use Rattle.rx_search.specs.Told.{tells, AreWithin, LiesIn};
ghost use Rattle.rx_hir.specs.PropertiesViews.{AreOf};
ghost use Rattle.rx_nfa.specs.Nfa.{IsNfaOf};
ghost use Rattle.rx_onepass_build.specs.Config.{kind_of, each_of};
ghost use Rattle.rx_onepass.specs.Dfa.{Fits, explicit_slots};
ghost use Rattle.rx_onepass.specs.Patterns.{IsBuiltFrom};
ghost use Rattle.rx_onepass.specs.Search.{taken_as};
ghost use Rattle.rx_strategy.specs.Core.{IsToldFor};
ghost use Rattle.rx_strategy.specs.OnePass.{begun, HasNoOnePass, IsOnePassOf, IsOnePassBeside, onepass_config, onepass_serves, FitsOnePass, accounted_onepass, onepass_memory};

use crate::config::Config;
use crate::info::RegexInfo;
use rx_nfa::NFA;
use rx_onepass::{BuildError, Builder, Cache, DFA};
use rx_search::{Anchored, Input, Match, Memory, NonMaxUsize};
use std::alloc::Global;

/// The bytes that are accounted for a slot of its cache.
const SLOT_SIZE: usize = 8;

/// The one-pass DFA of a core, if there is one.
#[derive(Drop)]
pub(crate) struct OnePass {
    dfa: Option<DFA>,
    /// Each match begins at the start of the haystack, so that a search that may begin anywhere is an anchored one.
    begins_once: bool,
}

impl OnePass {
    /// The one of the NFA, of whose patterns this is known: where the configuration asks for it, the patterns want it, and the NFA is
    /// one-pass. It shares the NFA.
    pub(crate) fn new(
        alloc: Global,
        config: &Config,
        nfa: &NFA,
        info: &RegexInfo,
    ) -> Result<OnePass, Memory>
        ensures { IfOk result (λ o. (h : Expression) → AreOf h info.now.properties → IsOnePassBeside config.now nfa.now h o) }
    {
        let begins_once = info.is_always_anchored_start();
        let dfa = chosen(alloc, config, nfa, info)?;
        Ok(OnePass { dfa, begins_once })
    }

    /// The automaton, where it serves the input: a match can begin at one place alone.
    pub(crate) fn get(&self, input: &Input<'_>) -> Option<&DFA>
        ensures { MatchOption (option_copied result) (onepass_serves self.now input.now ≡ false)
            (λ d. (onepass_serves self.now input.now ≡ true) × (self.now.dfa ≡ Some d)) }
    {
        if self.begins_once || input.get_anchored().is_anchored() {
            return self.dfa.as_ref();
        }
        None
    }

    /// The bytes that are accounted for its table.
    pub(crate) fn memory_usage(&self) -> usize
        ensures { result ≡ onepass_memory self.now.dfa }
    {
        match &self.dfa {
            Some(dfa) => dfa.memory_usage(),
            None => 0,
        }
    }

    /// Makes any cache one for its searches. One that has the room stays as it is, also where there is no automaton.
    pub(crate) fn fit_cache(&self, alloc: Global, cache: &mut Option<Cache>) -> Result<(), Memory>
        ensures fits { OnOk result (FitsOnePass self.now cache.new) }
        ensures kept { (o : OnePass) → FitsOnePass o cache.old → FitsOnePass o cache.new }
        ensures sure { FitsOnePass self.now cache.old → IsOk result }
    {
        let Some(dfa) = &self.dfa else {
            return Ok(());
        };
        match cache {
            Some(cache) => grow(cache, dfa),
            None => {
                *cache = Some(dfa.create_cache(alloc)?);
                Ok(())
            }
        }
    }

    /// The bytes that are accounted for its cache.
    pub(crate) fn cache_memory(&self) -> usize
        ensures { result ≡ accounted_onepass self.now.dfa }
    {
        match &self.dfa {
            Some(dfa) => cache_memory(dfa),
            None => 0,
        }
    }
}

/// The automaton of the NFA, where it is asked for and there is one.
fn chosen(
    alloc: Global,
    config: &Config,
    nfa: &NFA,
    info: &RegexInfo,
) -> Result<Option<DFA>, Memory>
    ensures { IfOk result (λ made. (h : Expression) → AreOf h info.now.properties → IsOnePassOf config.now nfa.now h made) }
{
    if !config.get_onepass() {
        return Ok(None);
    }
    if !info.wants_onepass() {
        return Ok(None);
    }
    built(alloc, config, nfa)
}

/// The automaton of the NFA, where that is one-pass and the table is within its limit.
fn built(alloc: Global, config: &Config, nfa: &NFA) -> Result<Option<DFA>, Memory>
    ensures { IfOk result (λ made. MatchOption made (HasNoOnePass (onepass_config config.now) nfa.now) (IsBuiltFrom (onepass_config config.now) nfa.now)) }
{
    let mut builder = Builder::new();
    builder.configure(config.onepass_config());
    match builder.build_from_nfa(alloc, nfa.clone()?) {
        Ok(dfa) => Ok(Some(dfa)),
        Err(BuildError::Memory) => Err(Memory),
        Err(_) => Ok(None),
    }
}

/// Makes the cache one with room for the automaton. Where it has that already, it stays as it is.
fn grow(cache: &mut Cache, dfa: &DFA) -> Result<(), Memory>
    ensures fits { OnOk result (Fits dfa.now.nfa cache.new) }
    ensures more { cache.old ≤ cache.new }
    ensures sure { Fits dfa.now.nfa cache.old → IsOk result }
{
    // A reset would let go of room that another automaton needs.
    if cache.memory_usage() >= cache_memory(dfa) {
        return Ok(());
    }
    cache.reset(dfa)
}

/// The bytes that are accounted for a cache of the automaton.
fn cache_memory(dfa: &DFA) -> usize
    ensures value { result ≡ 8 * explicit_slots dfa.now.nfa }
    ensures small { result < 2 ^ 64 - 1 }
{
    let nfa = dfa.get_nfa();
    let slots = nfa.group_info().slot_len();
    SLOT_SIZE * slots.saturating_sub(2 * nfa.pattern_len())
}

/// What the automaton answers where it serves the input.
pub(crate) fn find_in_one_pass(
    engine: &DFA,
    cache: &mut Option<Cache>,
    input: &Input<'_>,
    slots: &mut [Option<NonMaxUsize>],
) -> Option<Match>
    requires fits { IsSomeAnd cache.old (Fits engine.now.nfa) }
    requires each { each_of engine.now.config ≡ true }
    ensures told { (r : Patterns) → IsNfaOf engine.now.nfa r → tells r.which_captures ≡ true
        → IsToldFor (kind_of engine.now.config) r (begun input.now) slots.new result }
    ensures within { IfSome result (LiesIn input.now) }
    ensures in_range { IfSome result (λ m. m.pattern < length engine.now.nfa.starts) }
    ensures slots_within { AreWithin input.now slots.new }
    ensures none { IfNone result (slots.new ≡ replicate (length slots.old) None) }
    ensures cache { IsSomeAnd cache.new (Fits engine.now.nfa) }
{
    let Some(cache) = cache else {
        unreachable!();
    };
    // That the parts of the NFA fit together is what this call ensures.
    let _states = engine.get_nfa().states_len();
    match engine.try_find_slots(cache, &begun(input), slots) {
        Ok(found) => found,
        // An anchored input is refused only where a pattern has no start of its own.
        Err(_) => unreachable!(),
    }
}

/// Whether the automaton finds a match where it serves the input. It stops at the first that it meets.
pub(crate) fn meets_in_one_pass(engine: &DFA, cache: &mut Option<Cache>, input: &Input<'_>) -> bool
    requires fits { IsSomeAnd cache.old (Fits engine.now.nfa) }
    requires each { each_of engine.now.config ≡ true }
    requires spanned { IsSpanned input.now }
    ensures value { (r : Patterns) → IsNfaOf engine.now.nfa r → result ≡ is_some (next_in r (begun input.now)) }
    ensures cache { IsSomeAnd cache.new (Fits engine.now.nfa) }
{
    let Some(cache) = cache else {
        unreachable!();
    };
    engine.is_match(cache, input)
}

/// The input, anchored where it is not.
fn begun<'h>(input: &Input<'h>) -> Input<'h>
    ensures value { result ≡ begun input.now }
    ensures spanned { IsSpanned input.now }
{
    let mut input = input.clone();
    input.set_anchored(taken(input.get_anchored()));
    input
}

/// The mode, anchored where it is not.
fn taken(mode: Anchored) -> Anchored
    ensures { anchor_of result ≡ taken_as (anchor_of mode) }
{
    match mode {
        Anchored::No => Anchored::Yes,
        Anchored::Yes => Anchored::Yes,
        Anchored::Pattern(pattern) => Anchored::Pattern(pattern),
    }
}
