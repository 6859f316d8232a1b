//! The limits of patterns. Patterns are weighed before an expression is made, so that what is refused takes little memory.
ghost use Rattle.std.specs.Prelude.{◌≡◌, ◌≤◌, ◌<◌, List, length, map, take, Ok, Some, IfSome, MatchOption, MatchResult};
ghost use Rattle.rx_model.specs.Expression.{Expression};
ghost use Rattle.rx_search.specs.Limits.{id_limit};
ghost use Rattle.rx_syntax.specs.Patterns.{all_read, all_translated};
ghost use Rattle.rx_syntax.specs.Weight.{AreWeightsOf, weights_of};
ghost use Rattle.rx_thompson.specs.Build.{IsRefusedOf, IsRefusedAfter};

use crate::error::BuildError;
use rx_hir::Hir;
use rx_nfa::{Config, PATTERN_LIMIT, SLOT_LIMIT, STATE_LIMIT, STATE_SIZE};
use rx_reader::Ast;
use rx_syntax::{Weights, read_all, translate_all, weigh_all};
use std::alloc::Global;

/// The expressions of the patterns, of at most the first 2147483647, if they pass no limit.
///
/// All patterns are read, and then weighed, before an expression is made. Refused are, in this order: the first pattern
/// that reading refuses, the first that translation refuses, and what `Compiler::build_counted` refuses.
///
/// # Errors
///
/// `Syntax`, the first refusal, with the number of its pattern; one of the limits, with what was given and the limit, in
/// the order above; `Memory`, where there was no memory.
pub fn read_within(
    alloc: Global,
    patterns: &[&str],
    syntax: &rx_syntax::Config,
    config: &Config,
) -> Result<Vec<Hir>, BuildError>
    ensures { MatchResult result
        (λ exprs. (all_read syntax.now (take id_limit (map (λ p. p.now) patterns.now)) ≡ Ok exprs.items)
        × (length patterns.now ≤ id_limit) × (length exprs.items ≡ length patterns.now))
        (IsRefusedAfter (all_read syntax.now (take id_limit (map (λ p. p.now) patterns.now))) config.now (length patterns.now)) }
{
    // A refusal of the grammar comes before that of their number (DECISIONS: a build of too many patterns reads the first 2147483647).
    let first = &patterns[..patterns.len().min(PATTERN_LIMIT)];
    match read_all(alloc, first, syntax) {
        Ok(asts) => weighed(alloc, patterns.len(), &asts, syntax, config),
        Err(error) => Err(BuildError::of_patterns(error)),
    }
}

/// The expressions of so many patterns, of which the first ones, at most 2147483647, were read so.
fn weighed(
    alloc: Global,
    count: usize,
    asts: &[Ast],
    syntax: &rx_syntax::Config,
    config: &Config,
) -> Result<Vec<Hir>, BuildError>
    requires few { length asts.now ≤ id_limit }
    requires counted { count ≤ id_limit → length asts.now ≡ count }
    ensures { MatchResult result
        (λ exprs. (all_translated syntax.now asts.now ≡ Ok exprs.items) × (count ≤ id_limit) × (length exprs.items ≡ count))
        (IsRefusedAfter (all_translated syntax.now asts.now) config.now count) }
{
    match weigh_all(alloc, asts, syntax) {
        Ok(weights) => within(alloc, count, weights, asts, syntax, config),
        Err(error) => Err(BuildError::of_patterns(error)),
    }
}

/// The expressions of so many patterns, of which the first ones weigh this.
fn within(
    alloc: Global,
    count: usize,
    weights: Weights,
    asts: &[Ast],
    syntax: &rx_syntax::Config,
    config: &Config,
) -> Result<Vec<Hir>, BuildError>
    requires few { length asts.now ≤ id_limit }
    requires counted { count ≤ id_limit → length asts.now ≡ count }
    requires weights { AreWeightsOf (all_translated syntax.now asts.now) (length asts.now) weights }
    ensures { MatchResult result
        (λ exprs. (all_translated syntax.now asts.now ≡ Ok exprs.items) × (count ≤ id_limit) × (length exprs.items ≡ count))
        (IsRefusedAfter (all_translated syntax.now asts.now) config.now count) }
{
    if let Some(error) = exceeded(config, count, weights) {
        return Err(error);
    }
    match translate_all(alloc, asts, syntax) {
        Ok(exprs) => Ok(exprs),
        Err(error) => Err(BuildError::of_patterns(error)),
    }
}

/// The limit that so many patterns of these weights pass, if they pass one: in the order of `Compiler::build_counted`.
pub(crate) fn exceeded(config: &Config, count: usize, weights: Weights) -> Option<BuildError>
    ensures none { MatchOption result (count ≤ id_limit) (λ e. Unit {0}) }
    ensures some { (hs : List Expression) → weights ≡ weights_of hs → (count ≤ id_limit → length hs ≡ count)
        → IfSome result (IsRefusedOf config.now count hs) }
{
    if count > PATTERN_LIMIT {
        return Some(BuildError::TooManyPatterns {
            given: count,
            limit: PATTERN_LIMIT,
        });
    }
    if weights.slots > SLOT_LIMIT {
        return Some(BuildError::TooManyGroups {
            given: weights.slots,
            limit: SLOT_LIMIT,
        });
    }
    if weights.states > STATE_LIMIT {
        return Some(BuildError::TooManyStates {
            given: weights.states,
            limit: STATE_LIMIT,
        });
    }
    let size = STATE_SIZE * weights.states;
    match passed(config.get_nfa_size_limit(), size) {
        Some(limit) => Some(BuildError::ExceededSizeLimit { limit, size }),
        None => None,
    }
}

/// The limit, where the size is above it.
fn passed(limit: Option<usize>, size: usize) -> Option<usize>
    ensures { MatchOption result (IfSome limit (λ most. size ≤ most)) (λ most. (limit ≡ Some most) × (most < size)) }
{
    match limit {
        Some(most) => { if most < size { Some(most) } else { None } }
        None => None,
    }
}
