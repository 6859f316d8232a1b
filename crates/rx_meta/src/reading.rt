//! Reading patterns.
ghost use Rattle.std.specs.Prelude.{◌≡◌, ◌≤◌, length, map, Ok, MatchResult};
ghost use Rattle.rx_search.specs.Limits.{id_limit};
ghost use Rattle.rx_meta.specs.Build.{IsRefusedFor};
ghost use Rattle.rx_meta.specs.Reading.{reading_of};

use crate::error::BuildError;
use rx_hir::Hir;
use rx_strategy::Config;
use rx_thompson::read_within;
use std::alloc::Global;

/// The expressions of the patterns, which pass no limit. They are weighed before an expression is made.
pub(crate) fn read_patterns(
    alloc: Global,
    patterns: &[&str],
    syntax: &rx_syntax::Config,
    config: &Config,
) -> Result<Vec<Hir>, BuildError>
    ensures { MatchResult result
        (λ exprs. (reading_of syntax.now (map (λ p. p.now) patterns.now) ≡ Ok exprs.items)
        × (length patterns.now ≤ id_limit) × (length exprs.items ≡ length patterns.now))
        (IsRefusedFor syntax.now config.now (map (λ p. p.now) patterns.now)) }
{
    // What is refused takes the memory of its syntax alone (DECISIONS: patterns are weighed before an expression is made of one).
    match read_within(alloc, patterns, syntax, &config.compiler()) {
        Ok(exprs) => Ok(exprs),
        Err(error) => Err(BuildError::from(error)),
    }
}
