//! The search for literals in place of a core.
ghost use Rattle.std.specs.Prelude.{◌≡◌, Ok, Err, IfOk, IfSome, MatchOption};
ghost use Rattle.rx_pre.specs.Whole.{AreWholeOf};
ghost use Rattle.rx_strategy.specs.Strategy.{IsMadeOf, tells_in, properties_of, groups_in};
ghost use Rattle.rx_strategies.specs.Choice.{is_automatic, literals_for};
ghost use Rattle.rx_strategies.specs.Strategy.{IsTried, literal_name};

use rx_hir::Hir;
use rx_pre::{Pre, literal_prefilter};
use rx_prefilter::{Choice, Prefilter};
use rx_search::Memory;
use rx_strategy::Config;
use std::alloc::Global;
use std::mem::drop;

/// The search for the literals that these expressions are, where the core of them is not needed for it. Else it gives the core back.
pub(crate) fn literal_only(
    alloc: Global,
    config: &Config,
    exprs: &[Hir],
    core: rx_strategy::Strategy,
) -> Result<Result<Pre, rx_strategy::Strategy>, Memory>
    requires { IsMadeOf config.now exprs.now core }
    ensures { IfOk result (IsTried config.now exprs.now core) }
{
    match instead_of(alloc, config, exprs, &core) {
        Ok(Some(pre)) => {
            drop(core);
            Ok(Ok(pre))
        }
        Ok(None) => Ok(Err(core)),
        Err(error) => {
            drop(core);
            Err(error)
        }
    }
}

/// The search for the literals that these expressions are, if they are literals. A function of its own, since a core is let go on each
/// way out on which there is one.
fn instead_of(
    alloc: Global,
    config: &Config,
    exprs: &[Hir],
    core: &rx_strategy::Strategy,
) -> Result<Option<Pre>, Memory>
    requires { IsMadeOf config.now exprs.now core.now }
    ensures { IfOk result (λ found. MatchOption found (IsTried config.now exprs.now core.now (Err core.now))
        (λ pre. IsTried config.now exprs.now core.now (Ok pre))) }
{
    match literals(alloc, config, exprs)? {
        Some(found) => Ok(Some(in_place_of(core, found)?)),
        None => Ok(None),
    }
}

/// The search for these literals, which has what is known of the core's patterns.
fn in_place_of(core: &rx_strategy::Strategy, found: Prefilter) -> Result<Pre, Memory>
    ensures { IfOk result (λ p. p ≡ record {
      needles = found;
      tells = tells_in core.now;
      properties = properties_of core.now;
      groups = groups_in core.now;
    }) }
{
    let groups = core.group_info().clone()?;
    Ok(Pre::new(found, core.tells(), *core.properties(), groups))
}

/// The literals that these expressions are, where a prefilter is made of what each match begins with.
fn literals(alloc: Global, config: &Config, exprs: &[Hir]) -> Result<Option<Prefilter>, Memory>
    ensures value { IfOk result (λ found. found ≡ literals_for config.now exprs.now) }
    ensures whole { IfOk result (λ found. IfSome found (λ needles. AreWholeOf needles exprs.now)) }
{
    if is_automatic(config) {
        return literal_prefilter(alloc, config.get_match_kind(), exprs);
    }
    Ok(None)
}

/// Whether a prefilter is made of what each match begins with, if there is one.
fn is_automatic(config: &Config) -> bool
    ensures { result ≡ is_automatic config.now }
{
    if !config.get_auto_prefilter() {
        return false;
    }
    config.get_prefilter().is_none()
}

/// The name of a search for literals by this kind.
#[tactic(auto, unfolding(crate::specs::Strategy::literal_name))]
pub(crate) fn literal_name(choice: Choice) -> &'static str
    ensures { result.now ≡ literal_name choice }
{
    match choice {
        Choice::Memchr => "prefilter memchr",
        Choice::Memchr2 => "prefilter memchr2",
        Choice::Memchr3 => "prefilter memchr3",
        Choice::Memmem => "prefilter memmem",
        Choice::Multi => "prefilter multi",
        Choice::ByteSet => "prefilter byteset",
        Choice::AhoCorasick => "prefilter aho-corasick",
    }
}
