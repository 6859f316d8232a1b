//! The choice of a prefilter.
ghost use Rattle.std.specs.Prelude.{◌≡◌, IfOk};
ghost use Rattle.rx_model.specs.Expression.{alternation};
ghost use Rattle.rx_hir.specs.Normal.{expressions};
ghost use Rattle.rx_hir.specs.PropertiesViews.{AreOf};
ghost use Rattle.rx_strategy.specs.Prefilter.{automatic_prefilter, prefilter_for, prefilter_memory};

use crate::config::{Config, shared};
use crate::info::RegexInfo;
use rx_hir::Hir;
use rx_prefilter::Prefilter;
use rx_search::Memory;
use std::alloc::Global;

/// The prefilter for these expressions, of which this is known.
///
/// There is none where each match begins at the start of the haystack, since there is one place to look at. Else it is the
/// one that was handed in, and else the one that is made of them.
pub(crate) fn choose(
    alloc: Global,
    config: &Config,
    exprs: &[Hir],
    info: &RegexInfo,
) -> Result<Option<Prefilter>, Memory>
    requires { AreOf (alternation (expressions exprs.now)) info.now.properties }
    ensures { IfOk result (λ pre. pre ≡ prefilter_for config.now exprs.now) }
{
    // No answer shows this choice, so the clause does (DECISIONS: which prefilter a core has is a clause of its maker).
    if info.is_always_anchored_start() {
        return Ok(None);
    }
    match config.get_prefilter() {
        Some(pre) => Ok(Some(pre.clone()?)),
        None => automatic(alloc, config, exprs),
    }
}

/// The prefilter that is made of what each match begins with, where the configuration asks for it.
fn automatic(alloc: Global, config: &Config, exprs: &[Hir]) -> Result<Option<Prefilter>, Memory>
    ensures { IfOk result (λ pre. pre ≡ automatic_prefilter config.now exprs.now) }
{
    if !config.get_auto_prefilter() {
        return Ok(None);
    }
    Prefilter::from_hirs_prefix(alloc, config.get_match_kind(), exprs)
}

/// What is accounted for a prefilter, where there is one.
pub(crate) fn memory_usage(pre: &Option<Prefilter>) -> usize
    ensures { result ≡ prefilter_memory pre.now }
{
    match pre {
        Some(pre) => pre.memory_usage(),
        None => 0,
    }
}
