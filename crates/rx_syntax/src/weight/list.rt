//! What several patterns weigh together.
ghost use Rattle.std.specs.Prelude.{◌≡◌, ◌+◌, ◌*◌, map, chars, length, IfErr, MatchResult};
ghost use Rattle.rx_hir.specs.Cost.{capped};
ghost use Rattle.rx_syntax.specs.Pattern.{reads};
ghost use Rattle.rx_syntax.specs.Patterns.{all_translated, each_read, RefusesAll, IsWithin};
ghost use Rattle.rx_syntax.specs.Weight.{Weighs, AreWeightsOf};

use super::known::KnownWeights;
use super::syntax::weigh;
use super::{Weight, Weights};
use crate::patterns::{PatternsError, refused};
use rx_reader::{Ast, Config, ParseError, read};
use std::alloc::Global;

/// What the expressions of the syntax trees weigh together, before one is made.
///
/// The refusal is that of the first pattern that translation refuses.
///
/// # Errors
///
/// `Syntax`, the number of the first pattern that is refused, counted from 0, with its refusal; `Memory`, where
/// there was no memory.
pub fn weigh_all(alloc: Global, asts: &[Ast], config: &Config) -> Result<Weights, PatternsError>
    ensures value { MatchResult result
        (AreWeightsOf (all_translated config.now asts.now) (length asts.now))
        (λ e. RefusesAll e (all_translated config.now asts.now)) }
    ensures within { IfErr result (λ e. IsWithin e (length asts.now)) }
{
    // No expression of a pattern is made for it (DECISIONS: patterns are weighed before an expression is made of one).
    let mut count = 0;
    let mut sum = Sum::new();
    let mut known = KnownWeights::new(alloc);
    for ast in asts {
        match weigh(alloc, ast, config, &mut known) {
            Ok(weight) => {
                sum = sum.with(weight);
                count += 1;
            }
            Err(error) => return Err(refused(count, error)),
        }
    }
    Ok(sum.weights())
}

/// What the expressions of the patterns weigh together, before one is made: as `parse_each` answers.
///
/// A pattern is read and weighed before the next one is read, so the refusal is that of the first pattern that reading
/// or translation refuses.
///
/// # Errors
///
/// `Syntax`, the number of the first pattern that is refused, counted from 0, with its refusal; `Memory`, where
/// there was no memory.
pub fn weigh_each(
    alloc: Global,
    patterns: &[&str],
    config: &Config,
) -> Result<Weights, PatternsError>
    ensures value { MatchResult result
        (AreWeightsOf (each_read config.now (map (λ p. p.now) patterns.now)) (length patterns.now))
        (λ e. RefusesAll e (each_read config.now (map (λ p. p.now) patterns.now))) }
    ensures within { IfErr result (λ e. IsWithin e (length patterns.now)) }
{
    let mut count = 0;
    let mut sum = Sum::new();
    let mut known = KnownWeights::new(alloc);
    for pattern in patterns {
        match weigh_text(alloc, pattern, config, &mut known) {
            Ok(weight) => {
                sum = sum.with(weight);
                count += 1;
            }
            Err(cause) => return Err(refused(count, cause)),
        }
    }
    Ok(sum.weights())
}

fn weigh_text(
    alloc: Global,
    pattern: &str,
    config: &Config,
    known: &mut KnownWeights,
) -> Result<Weight, ParseError>
    ensures { Weighs result (reads config.now (chars pattern.now)) }
{
    let ast = read(alloc, pattern, config)?;
    let weighed = weigh(alloc, &ast, config, known);
    // By a call (DECISIONS: large values are let go by name).
    drop(ast);
    weighed
}

/// Sums over patterns: half of their slots, and their states.
#[derive(Clone, Copy)]
struct Sum {
    halves: usize,
    states: u64,
}

impl Sum {
    fn new() -> Sum
        ensures halves { result.halves ≡ 0 }
        ensures states { result.states ≡ 4 }
    {
        Sum {
            halves: 0,
            states: 4,
        }
    }

    /// With one pattern more.
    fn with(self, weight: Weight) -> Sum
        ensures halves { result.halves ≡ capped (capped (self.halves + 1) + weight.greatest_group) }
        ensures states { result.states ≡ capped (capped (self.states + weight.states) + 3) }
    {
        Sum {
            halves: self
                .halves
                .saturating_add(1)
                .saturating_add(weight.greatest_group),
            states: self.states.saturating_add(weight.states).saturating_add(3),
        }
    }

    fn weights(self) -> Weights
        ensures slots { result.slots ≡ capped (self.halves * 2) }
        ensures states { result.states ≡ self.states }
    {
        Weights {
            slots: self.halves.saturating_mul(2),
            states: self.states as usize,
        }
    }
}
