//! The strategy that runs DFAs and engines over an NFA.
ghost use Rattle.std.specs.Prelude.{◌≡◌, List, true, false, length, None, Some, option_copied, IfOk, OnOk, OnErr, IsOk, IfSome, IsTrue, MatchOption};
ghost use Rattle.rx_model.specs.Expression.{Expression, alternation};
ghost use Rattle.rx_model.specs.Search.{Patterns};
ghost use Rattle.rx_search.specs.Input.{IsSpanned, next_in};
ghost use Rattle.rx_search.specs.Told.{tells};
ghost use Rattle.rx_hir.specs.Normal.{expressions};
ghost use Rattle.rx_hir.specs.PropertiesViews.{AreOf};
ghost use Rattle.rx_strategy.specs.Cache.{FitsCore, FitsBacktracker, FitsAsBefore, StillFits, HoldsNoStates, memory_of, accounted_backtrack, accounted_core};
ghost use Rattle.rx_strategy.specs.Availability.{AreDfasBeside};
ghost use Rattle.rx_strategy.specs.Config.{kind_of, captures_of, has_backtracker};
ghost use Rattle.rx_strategy.specs.Core.{CoreValue, IsCoreFor, AreKnownOf, core_memory, reverse_memory};
ghost use Rattle.rx_strategy.specs.Dfas.{ServeNfa};
ghost use Rattle.rx_strategy.specs.Impossible.{is_impossible};
ghost use Rattle.rx_strategy.specs.OnePass.{IsOnePassBeside, ServesOnce, onepass_serves};

mod answers;
mod attempts;
mod by_dfas;
mod ending;
mod nofail;

use crate::cache::Cache;
use crate::config::{Config, shared};
use crate::dfas::Dfas;
use crate::info::RegexInfo;
use crate::onepass::OnePass;
use crate::prefilter::memory_usage as accounted;
use rx_engines::backtrack::{self, BoundedBacktracker};
use rx_engines::pikevm::PikeVM;
use rx_hir::Properties;
use rx_nfa::{NFA, WhichCaptures};
use rx_onepass::DFA;
use rx_prefilter::Prefilter;
use rx_search::{Input, MatchKind, Memory};
use std::alloc::Global;
use std::marker::Model;
use std::mem::drop;

/// The DFAs and the engines over one NFA. A search asks the DFAs, where they are there; where they have no answer, it asks an engine
/// that always answers: the one-pass DFA where it serves, else the bounded backtracker where that serves, and else the PikeVM. Which
/// of them serves a search changes no answer that is promised.
#[derive(Drop)]
pub struct Core {
    pikevm: PikeVM,
    kind: MatchKind,
    onepass: OnePass,
    backtrack: Option<BoundedBacktracker>,
    which_captures: WhichCaptures,
    pre: Option<Prefilter>,
    info: RegexInfo,
    /// The NFA that reads backwards, where DFAs are asked for.
    reverse: Option<NFA>,
    dfas: Dfas,
}

impl Model for Core {
    ghost use Rattle.std.specs.Prelude.{◌≡◌, is_some, IfSome};
    ghost use Rattle.rx_search.specs.declared.anchored.MatchKind.TheVariants.{LeftmostFirst};
    ghost use Rattle.rx_nfa.specs.Config.{captures_kind};
    ghost use Rattle.rx_strategy.specs.Core.{CoreValue, AreKnownOf};
    ghost use Rattle.rx_strategy.specs.Dfas.{ServeNfa};
    ghost use Rattle.rx_strategy.specs.OnePass.{ServesOnce};

    ghost Value = { CoreValue };

    ghost view = { λ c. record {
      nfa = c.pikevm.nfa;
      kind = c.pikevm.kind;
      which_captures = captures_kind c.which_captures;
      onepass = c.onepass;
      backtracks = is_some c.backtrack;
      pre = c.pre;
      properties = c.info.properties;
      reverse = c.reverse;
      dfas = c.dfas;
    } };

    ghost invariant = { λ c. IfSome c.backtrack (λ b. (b.nfa ≡ c.pikevm.nfa) × (b.pre ≡ c.pre) × (c.pikevm.kind ≡ LeftmostFirst))
        × AreKnownOf c.info.properties c.pikevm.nfa × (c.pikevm.pre ≡ c.pre) × ServeNfa c.pikevm.nfa c.pikevm.kind c.reverse c.dfas
        × (c.kind ≡ c.pikevm.kind) × ServesOnce c.pikevm.nfa c.pikevm.kind c.info.properties c.onepass };
}

impl Core {
    /// The core of this NFA and of the one that reads backwards, if it is there, which were built under the configuration, with what is
    /// known of its patterns. It searches with this prefilter, where there is one.
    pub(crate) fn new(
        alloc: Global,
        config: &Config,
        nfa: NFA,
        reverse: Option<NFA>,
        info: RegexInfo,
        pre: Option<Prefilter>,
    ) -> Result<Core, Memory>
        requires known { AreKnownOf info.properties nfa }
        requires reads { (nfa.reverse ≡ false) × IfSome reverse (λ back. (back.reverse ≡ true) × (back.utf8 ≡ nfa.utf8) × (back.accounted ≡ nfa.accounted)
            × (length back.starts ≡ length nfa.starts)) }
        ensures core { IfOk result (λ core. core ≡ record {
          nfa = nfa;
          kind = kind_of config.now;
          which_captures = captures_of config.now;
          onepass = core.onepass;
          backtracks = has_backtracker config.now;
          pre = pre;
          properties = info.properties;
          reverse = reverse;
          dfas = core.dfas;
        }) }
        ensures onepass { IfOk result (λ core. (h : Expression) → AreOf h info.properties → IsOnePassBeside config.now nfa h core.onepass) }
        ensures dfas { IfOk result (λ core. AreDfasBeside config.now nfa reverse core.dfas) }
    {
        let parts = Parts::new(alloc, config, &nfa, reverse.as_ref(), &info, &pre)?;
        let kind = config.get_match_kind();
        Ok(Core {
            pikevm: PikeVM::build_from_nfa(nfa, kind, parts.own),
            kind,
            onepass: parts.onepass,
            backtrack: parts.backtrack,
            which_captures: config.get_which_captures(),
            pre,
            info,
            reverse,
            dfas: parts.dfas,
        })
    }

    /// The NFA.
    pub(crate) fn get_nfa(&self) -> &NFA
        ensures { result.now ≡ self.now.nfa }
    {
        self.pikevm.get_nfa()
    }

    /// The bytes that are accounted for the core itself: those of its prefilter, of its NFAs, and of the tables of the one-pass DFA and of
    /// full DFAs.
    pub(crate) fn memory_usage(&self) -> usize
        ensures { result ≡ core_memory self.now }
    {
        accounted(&self.pre)
            .saturating_add(self.get_nfa().memory_usage())
            .saturating_add(reverse_memory(&self.reverse))
            .saturating_add(self.onepass.memory_usage())
            .saturating_add(self.dfas.memory_usage())
    }

    /// Whether it is known that there is no match in the input's span.
    pub(crate) fn is_impossible(&self, input: &Input<'_>) -> bool
        ensures value { (hs : List Expression) → AreOf (alternation (expressions hs)) self.now.properties
            → result ≡ is_impossible hs input.now }
        ensures none { IsTrue result → (r : Patterns) → IsCoreFor self.now r → next_in r input.now ≡ None }
        ensures spanned { IsSpanned input.now }
    {
        self.info.is_impossible(input)
    }

    /// A cache that serves this core.
    pub(crate) fn create_cache(&self, alloc: Global) -> Result<Cache, Memory>
        ensures fits { IfOk result (FitsCore self.now) }
        ensures memory { IfOk result (λ c. memory_of c ≡ accounted_core self.now) }
        ensures empty { IfOk result HoldsNoStates }
    {
        let mut cache = Cache::bare(self.pikevm.create_cache(alloc)?);
        match self.reset_cache(alloc, &mut cache) {
            Ok(()) => Ok(cache),
            Err(error) => {
                // By a call (DECISIONS: large values are let go by name).
                drop(cache);
                Err(error)
            }
        }
    }

    /// Makes any cache one that serves this core. First each part grows where it must; then the number is set.
    pub(crate) fn reset_cache(&self, alloc: Global, cache: &mut Cache) -> Result<(), Memory>
        ensures fits { OnOk result (FitsCore self.now cache.new) }
        ensures memory { OnOk result (memory_of cache.new ≡ accounted_core self.now) }
        ensures empty { OnOk result (HoldsNoStates cache.new) }
        ensures err { OnErr result (FitsAsBefore cache.old cache.new) }
        ensures sure { FitsCore self.now cache.old → IsOk result }
        ensures kept { FitsCore self.now cache.old → StillFits cache.old cache.new }
    {
        cache.pikevm.reset(alloc, &self.pikevm)?;
        self.onepass.fit_cache(alloc, &mut cache.onepass)?;
        let backtrack = self.reset_backtrack(alloc, &mut cache.backtrack)?;
        // What the lazy DFAs of another core left would be wrong here.
        self.dfas.reset_cache(alloc, &mut cache.lazies)?;
        cache.memory = cache
            .pikevm
            .memory_usage()
            .saturating_add(self.onepass.cache_memory())
            .saturating_add(backtrack);
        Ok(())
    }

    /// Makes the backtracker's cache one that serves this core, and tells what is accounted for it. Where there is no
    /// backtracker, what is there stays, and counts 0.
    fn reset_backtrack(
        &self,
        alloc: Global,
        cache: &mut Option<backtrack::Cache>,
    ) -> Result<usize, Memory>
        ensures fits { OnOk result (FitsBacktracker self.now cache.new) }
        ensures memory { IfOk result (λ n. n ≡ accounted_backtrack self.now) }
        ensures kept { (c : CoreValue) → FitsBacktracker c cache.old → FitsBacktracker c cache.new }
        ensures sure { FitsBacktracker self.now cache.old → IsOk result }
    {
        let Some(engine) = &self.backtrack else {
            return Ok(0);
        };
        match cache {
            Some(cache) => {
                cache.reset(alloc, engine)?;
                Ok(cache.memory_usage())
            }
            None => {
                let made = engine.create_cache(alloc)?;
                let memory = made.memory_usage();
                *cache = Some(made);
                Ok(memory)
            }
        }
    }

    /// The properties of the patterns together.
    pub(crate) fn properties(&self) -> &Properties
        ensures { result.now ≡ self.now.properties }
    {
        self.info.properties()
    }

    /// The DFAs.
    fn get_dfas(&self) -> &Dfas
        ensures value { result.now ≡ self.now.dfas }
        ensures serve { ServeNfa self.now.nfa self.now.kind self.now.reverse result.now }
    {
        &self.dfas
    }

    /// The one-pass DFA, where it serves the input.
    pub(crate) fn get_onepass(&self, input: &Input<'_>) -> Option<&DFA>
        ensures serves { MatchOption (option_copied result) (onepass_serves self.now.onepass input.now ≡ false)
            (λ d. (onepass_serves self.now.onepass input.now ≡ true) × (self.now.onepass.dfa ≡ Some d)) }
        ensures once { ServesOnce self.now.nfa self.now.kind self.now.properties self.now.onepass }
    {
        self.onepass.get(input)
    }

    /// Whether matches are told.
    pub(crate) fn tells(&self) -> bool
        ensures { result ≡ tells self.now.which_captures }
    {
        match self.which_captures {
            WhichCaptures::All => true,
            WhichCaptures::Implicit => true,
            WhichCaptures::None => false,
        }
    }
}

/// What a core has beside its NFAs and what is known of its patterns. A function of its own makes it, so that one way out alone
/// lets go of these (DECISIONS: large values are let go by name).
#[derive(Drop)]
struct Parts {
    /// The prefilter once more, for the PikeVM.
    own: Option<Prefilter>,
    backtrack: Option<BoundedBacktracker>,
    onepass: OnePass,
    dfas: Dfas,
}

impl Parts {
    /// The parts for this NFA and the one that reads backwards, if that is there.
    fn new(
        alloc: Global,
        config: &Config,
        nfa: &NFA,
        reverse: Option<&NFA>,
        info: &RegexInfo,
        pre: &Option<Prefilter>,
    ) -> Result<Parts, Memory>
        requires { IfSome (option_copied reverse) (λ back. back.accounted ≡ nfa.now.accounted) }
        ensures own { IfOk result (λ parts. parts.own ≡ pre.now) }
        ensures backtrack { IfOk result (λ parts. MatchOption parts.backtrack (has_backtracker config.now ≡ false)
            (λ b. (has_backtracker config.now ≡ true) × (b.nfa ≡ nfa.now) × (b.pre ≡ pre.now))) }
        ensures onepass { IfOk result (λ parts. (h : Expression) → AreOf h info.now.properties → IsOnePassBeside config.now nfa.now h parts.onepass) }
        ensures dfas { IfOk result (λ parts. AreDfasBeside config.now nfa.now (option_copied reverse.entry) parts.dfas) }
    {
        let own = shared(pre.as_ref())?;
        let backtrack = backtracker(config, nfa, pre)?;
        let onepass = OnePass::new(alloc, config, nfa, info)?;
        // The largest comes last: no way out lets go of it.
        let dfas = Dfas::new(alloc, config, nfa, reverse)?;
        Ok(Parts {
            own,
            backtrack,
            onepass,
            dfas,
        })
    }
}

/// The backtracker, where the configuration has it. It shares the prefilter.
fn backtracker(
    config: &Config,
    nfa: &NFA,
    pre: &Option<Prefilter>,
) -> Result<Option<BoundedBacktracker>, Memory>
    ensures { IfOk result (λ o. MatchOption o (has_backtracker config.now ≡ false)
        (λ b. (has_backtracker config.now ≡ true) × (b.nfa ≡ nfa.now) × (b.pre ≡ pre.now))) }
{
    if !config.has_backtracker() {
        return Ok(None);
    }
    let pre = shared(pre.as_ref())?;
    Ok(Some(BoundedBacktracker::build_from_nfa(nfa.clone()?, pre)))
}

/// What is accounted for the NFA that reads backwards, where there is one.
fn reverse_memory(reverse: &Option<NFA>) -> usize
    ensures { result ≡ reverse_memory reverse.now }
{
    match reverse {
        Some(nfa) => nfa.memory_usage(),
        None => 0,
    }
}
