//! Attempts by the strategies that search by candidates, for those who read the number of steps.
ghost use Rattle.std.specs.Prelude.{◌≡◌, ◌≤◌, ◌<◌, ◌+◌, ◌*◌, true, false, None, IfOk, IfSome, IsSomeAnd};
ghost use Rattle.std.specs.Result.{IfErr};
ghost use Rattle.rx_model.specs.Search.{Patterns, is_anchored};
ghost use Rattle.rx_search.specs.Input.{span_len};
ghost use Rattle.rx_search.specs.Matches.{match_value};
ghost use Rattle.rx_search.specs.Promise.{Premises};
ghost use Rattle.rx_search.specs.Told.{LiesIn};
ghost use Rattle.rx_dfa.specs.Search.{IsAnswerFor};
ghost use Rattle.rx_strategy.specs.Cache as lower;
ghost use Rattle.rx_strategy.specs.Prefix.{FitsPrefix, are_states};
ghost use Rattle.rx_strategy.specs.Strategy as core;
ghost use Rattle.rx_strategies.specs.Attempting.{is_by_suffix, is_by_inner, SuffixFails, InnerFails, CountsSuffix, CountsInner, SuffixFailsWith, InnerFailsWith};
ghost use Rattle.rx_strategies.specs.Attempts.{IsSuffixFor, IsInnerFor};
ghost use Rattle.rx_strategies.specs.Cache.{Fits, AccountsAlike, AreAlike};
ghost use Rattle.rx_strategies.specs.Strategy.{IsFor, kind_in, pattern_count};

use crate::cache::Cache;
use crate::inner::ReverseInner;
use crate::strategy::Strategy;
use crate::suffix::ReverseSuffix;
use rx_attempts::{Patience, Stop};
use rx_limited::RetryError;
use rx_search::{Input, Match, Steps};
use rx_strategy::PrefixCache;
use std::sync::ledger::Ledger;

/// The next match in the input's span, by an attempt of a strategy that searches by a literal that ends each match; or why it has no
/// answer. The input is not anchored. It is answered under each kind of captures; with `earliest` it is some match, where there is one.
///
/// # Errors
///
/// `Quadratic` where bytes would be read again and again; `Fail` where a DFA quit or gave up; `Memory`, where there was no memory.
pub fn reverse_suffix_attempt<L: Ledger>(
    strategy: &Strategy,
    cache: &mut Cache,
    input: &Input<'_>,
    steps: &mut Steps<L>,
) -> Result<Option<Match>, RetryError>
    requires by_suffix { is_by_suffix strategy.now ≡ true }
    requires fits { Fits strategy.now cache.old }
    requires free { is_anchored input.now.anchor ≡ false }
    ensures answer { (r : Patterns) → Premises (IsFor strategy.now r) None r input.now
        → IfOk result (IsAnswerFor (kind_in strategy.now) r input.now match_value) }
    ensures within { IfOk result (λ found. IfSome found (LiesIn input.now)) }
    ensures in_range { IfOk result (λ found. IfSome found (λ m. m.pattern < pattern_count strategy.now)) }
    ensures err { IfErr result (SuffixFails strategy.now input.now cache.new) }
    ensures ticks { input.now.earliest ≡ false → IfOk result (CountsSuffix strategy.now input.now steps.old steps.new) }
    ensures few { steps.new ≤ steps.old + 8 * (span_len input.now + 1) }
    ensures cache { Fits strategy.now cache.new }
    ensures memory { AccountsAlike strategy.now cache.old cache.new }
{
    match strategy {
        Strategy::ReverseSuffix(suffix) => by_suffix(suffix, &mut cache.rooms, input, steps),
        _ => unreachable!(),
    }
}

/// The next match in the input's span, by an attempt of a strategy that searches by literals within each match; else as
/// `reverse_suffix_attempt`.
///
/// # Errors
///
/// As by `reverse_suffix_attempt`.
pub fn reverse_inner_attempt<L: Ledger>(
    strategy: &Strategy,
    cache: &mut Cache,
    input: &Input<'_>,
    steps: &mut Steps<L>,
) -> Result<Option<Match>, RetryError>
    requires by_inner { is_by_inner strategy.now ≡ true }
    requires fits { Fits strategy.now cache.old }
    requires free { is_anchored input.now.anchor ≡ false }
    ensures answer { (r : Patterns) → Premises (IsFor strategy.now r) None r input.now
        → IfOk result (IsAnswerFor (kind_in strategy.now) r input.now match_value) }
    ensures within { IfOk result (λ found. IfSome found (LiesIn input.now)) }
    ensures in_range { IfOk result (λ found. IfSome found (λ m. m.pattern < pattern_count strategy.now)) }
    ensures err { IfErr result (InnerFails strategy.now input.now cache.new) }
    ensures ticks { input.now.earliest ≡ false → IfOk result (CountsInner strategy.now input.now steps.old steps.new) }
    ensures few { steps.new ≤ steps.old + 8 * (span_len input.now + 1) }
    ensures cache { Fits strategy.now cache.new }
    ensures memory { AccountsAlike strategy.now cache.old cache.new }
{
    match strategy {
        Strategy::ReverseInner(inner) => by_inner(
            inner,
            &mut cache.rooms,
            &mut cache.prefix,
            input,
            steps,
        ),
        _ => unreachable!(),
    }
}

/// An attempt by the literal that ends each match, of endless patience, with the cache of the core.
fn by_suffix<L: Ledger>(
    suffix: &ReverseSuffix,
    rooms: &mut Option<rx_strategy::Cache>,
    input: &Input<'_>,
    steps: &mut Steps<L>,
) -> Result<Option<Match>, RetryError>
    requires fits { IsSomeAnd rooms.old (lower.Fits suffix.now.core) }
    requires free { is_anchored input.now.anchor ≡ false }
    ensures answer { (r : Patterns) → Premises (IsSuffixFor suffix.now r) None r input.now
        → IfOk result (IsAnswerFor (core.kind_in suffix.now.core) r input.now match_value) }
    ensures within { IfOk result (λ found. IfSome found (LiesIn input.now)) }
    ensures in_range { IfOk result (λ found. IfSome found (λ m. m.pattern < core.pattern_count suffix.now.core)) }
    ensures err { IfErr result (SuffixFailsWith suffix.now input.now rooms.new) }
    ensures ticks { input.now.earliest ≡ false
        → IfOk result (core.CountsSuffix suffix.now.core suffix.now.needles input.now steps.old steps.new) }
    ensures few { steps.new ≤ steps.old + 8 * (span_len input.now + 1) }
    ensures cache { IsSomeAnd rooms.new (lower.Fits suffix.now.core) }
    ensures memory { AreAlike suffix.now.core rooms.old rooms.new }
{
    let Some(rooms) = rooms else {
        unreachable!();
    };
    match suffix.try_search(rooms, input, Patience::Endless, steps) {
        Ok(found) => Ok(found),
        Err(Stop::Retry(error)) => Err(error),
        Err(Stop::Dense) => unreachable!(),
    }
}

/// An attempt by the literals within each match, of endless patience, with the caches of the core and of what reads the prefix.
fn by_inner<L: Ledger>(
    inner: &ReverseInner,
    rooms: &mut Option<rx_strategy::Cache>,
    states: &mut PrefixCache,
    input: &Input<'_>,
    steps: &mut Steps<L>,
) -> Result<Option<Match>, RetryError>
    requires fits { IsSomeAnd rooms.old (lower.Fits inner.now.core) }
    requires states_fit { FitsPrefix inner.now.prefix states.old }
    requires free { is_anchored input.now.anchor ≡ false }
    ensures answer { (r : Patterns) → Premises (IsInnerFor inner.now r) None r input.now
        → IfOk result (IsAnswerFor (core.kind_in inner.now.core) r input.now match_value) }
    ensures within { IfOk result (λ found. IfSome found (LiesIn input.now)) }
    ensures in_range { IfOk result (λ found. IfSome found (λ m. m.pattern < core.pattern_count inner.now.core)) }
    ensures err { IfErr result (InnerFailsWith inner.now input.now rooms.new states.new) }
    ensures ticks { input.now.earliest ≡ false
        → IfOk result (core.CountsInner inner.now.core inner.now.prefix inner.now.needles input.now steps.old steps.new) }
    ensures few { steps.new ≤ steps.old + 8 * (span_len input.now + 1) }
    ensures cache { IsSomeAnd rooms.new (lower.Fits inner.now.core) }
    ensures states_fit { FitsPrefix inner.now.prefix states.new }
    ensures states_same { are_states inner.now.prefix ≡ false → states.new ≡ states.old }
    ensures memory { AreAlike inner.now.core rooms.old rooms.new }
{
    let Some(rooms) = rooms else {
        unreachable!();
    };
    match inner.try_search(rooms, states, input, Patience::Endless, steps) {
        Ok(found) => Ok(found),
        Err(Stop::Retry(error)) => Err(error),
        Err(Stop::Dense) => unreachable!(),
    }
}
