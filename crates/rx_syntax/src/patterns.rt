//! Lists of patterns.
ghost use Rattle.std.specs.Prelude.{◌≡◌, map, length, Ok, IfOk, IfErr, MatchResult};
ghost use Rattle.rx_reader.specs.Config.{default};
ghost use Rattle.rx_syntax.specs.Answers.{AnswersAs};
ghost use Rattle.rx_syntax.specs.Patterns.{all_syntaxes, all_translated, all_read, each_read, unnumbered, RefusesAll, IsWithin, error_at};

use crate::known::KnownSets;
use crate::pattern::parse_with;
use crate::translate::translate;
use rx_hir::Hir;
use rx_reader::{Ast, Config, ParseError, SyntaxError, read};
use rx_search::Memory;
use std::alloc::{AllocFailed, Global};

/// Why patterns have no expressions.
#[derive(Clone, Copy, Debug, PartialEq, Eq)]
pub enum PatternsError {
    /// The grammar refuses the pattern of this number, counted from 0: the first that is refused.
    Syntax { pattern: usize, error: SyntaxError },
    /// There was no memory.
    Memory,
}

impl From<Memory> for PatternsError {
    ghost use Rattle.rx_syntax.specs.declared.patterns.PatternsError.TheVariants.{Memory};

    ghost from_gives = { λ _ e. e ≡ Memory };

    fn from(_error: Memory) -> PatternsError {
        PatternsError::Memory
    }
}

impl<T: Drop> From<AllocFailed<T>> for PatternsError {
    ghost use Rattle.rx_syntax.specs.declared.patterns.PatternsError.TheVariants.{Memory};

    ghost from_gives = { λ _ e. e ≡ Memory };

    fn from(_error: AllocFailed<T>) -> PatternsError {
        PatternsError::Memory
    }
}

/// The error of the pattern of this number.
pub(crate) fn refused(pattern: usize, error: ParseError) -> PatternsError
    ensures { result ≡ error_at pattern error }
{
    match error {
        ParseError::Syntax(error) => PatternsError::Syntax { pattern, error },
        ParseError::Memory => PatternsError::Memory,
    }
}

/// The expressions of patterns under the default configuration, or the first refusal, as by `parse_many_with`.
///
/// # Errors
///
/// `Syntax`, the first refusal, with its kind and its piece in bytes; `Memory`, where there was no memory.
pub fn parse_many(alloc: Global, patterns: &[&str]) -> Result<Vec<Hir>, ParseError>
    ensures { AnswersAs (λ v. v.items) result (unnumbered (each_read default (map (λ p. p.now) patterns.now))) }
{
    parse_many_with(alloc, patterns, &Config::new())
}

/// The expressions of patterns under a configuration, or the refusal of the first pattern that `parse_with` refuses:
/// as `parse_each` answers, without the pattern's number.
///
/// # Errors
///
/// `Syntax`, the first refusal, with its kind and its piece in bytes; `Memory`, where there was no memory.
pub fn parse_many_with(
    alloc: Global,
    patterns: &[&str],
    config: &Config,
) -> Result<Vec<Hir>, ParseError>
    ensures { AnswersAs (λ v. v.items) result (unnumbered (each_read config.now (map (λ p. p.now) patterns.now))) }
{
    match parse_each(alloc, patterns, config) {
        Ok(exprs) => Ok(exprs),
        Err(PatternsError::Syntax { error, .. }) => Err(ParseError::Syntax(error)),
        Err(PatternsError::Memory) => Err(ParseError::Memory),
    }
}

/// The expressions of the patterns, under a configuration.
///
/// A pattern is read and translated before the next one is read. So the refusal is that of the first pattern that
/// `parse_with` refuses.
///
/// # Errors
///
/// `Syntax`, the number of the first pattern that is refused, counted from 0, with its refusal; `Memory`, where
/// there was no memory.
pub fn parse_each(
    alloc: Global,
    patterns: &[&str],
    config: &Config,
) -> Result<Vec<Hir>, PatternsError>
    ensures value { MatchResult result
        (λ exprs. each_read config.now (map (λ p. p.now) patterns.now) ≡ Ok exprs.items)
        (λ e. RefusesAll e (each_read config.now (map (λ p. p.now) patterns.now))) }
    ensures within { IfErr result (λ e. IsWithin e (length patterns.now)) }
    ensures count { IfOk result (λ exprs. length exprs.items ≡ length patterns.now) }
{
    // One is read after the last is translated (DECISIONS: `parse_many_with` and `Compiler::build_many` read and translate).
    let mut parsed = Vec::new(alloc);
    for pattern in patterns {
        match parse_with(alloc, pattern, config) {
            Ok(expr) => parsed.push(expr)?,
            Err(error) => return Err(refused(parsed.len(), error)),
        }
    }
    Ok(parsed)
}

/// The expressions of the patterns, under a configuration.
///
/// All patterns are read before any is translated. So the refusal is that of the first pattern that reading refuses;
/// where all are read, that of the first pattern that translation refuses.
///
/// # Errors
///
/// `Syntax`, the number of the first pattern that is refused, counted from 0, with its refusal; `Memory`, where
/// there was no memory.
pub fn parse_all(
    alloc: Global,
    patterns: &[&str],
    config: &Config,
) -> Result<Vec<Hir>, PatternsError>
    ensures value { MatchResult result
        (λ exprs. all_read config.now (map (λ p. p.now) patterns.now) ≡ Ok exprs.items)
        (λ e. RefusesAll e (all_read config.now (map (λ p. p.now) patterns.now))) }
    ensures within { IfErr result (λ e. IsWithin e (length patterns.now)) }
    ensures count { IfOk result (λ exprs. length exprs.items ≡ length patterns.now) }
{
    // All are read first (DECISIONS: a regex's builder, and the program, read all patterns).
    let asts = read_all(alloc, patterns, config)?;
    translate_all(alloc, &asts, config)
}

/// The syntax trees of the patterns, or the refusal of the first pattern that reading refuses.
///
/// # Errors
///
/// `Syntax`, the number of the first pattern that is refused, counted from 0, with its refusal; `Memory`, where
/// there was no memory.
pub fn read_all(
    alloc: Global,
    patterns: &[&str],
    config: &Config,
) -> Result<Vec<Ast>, PatternsError>
    ensures value { MatchResult result
        (λ asts. all_syntaxes config.now (map (λ p. p.now) patterns.now) ≡ Ok asts.items)
        (λ e. RefusesAll e (all_syntaxes config.now (map (λ p. p.now) patterns.now))) }
    ensures within { IfErr result (λ e. IsWithin e (length patterns.now)) }
    ensures count { IfOk result (λ asts. length asts.items ≡ length patterns.now) }
{
    let mut asts = Vec::new(alloc);
    for pattern in patterns {
        match read(alloc, pattern, config) {
            Ok(ast) => asts.push(ast)?,
            Err(error) => return Err(refused(asts.len(), error)),
        }
    }
    Ok(asts)
}

/// The expressions of the syntax trees, or the refusal of the first pattern that translation refuses.
///
/// # Errors
///
/// `Syntax`, the number of the first pattern that is refused, counted from 0, with its refusal; `Memory`, where
/// there was no memory.
pub fn translate_all(
    alloc: Global,
    asts: &[Ast],
    config: &Config,
) -> Result<Vec<Hir>, PatternsError>
    ensures value { MatchResult result
        (λ exprs. all_translated config.now asts.now ≡ Ok exprs.items)
        (λ e. RefusesAll e (all_translated config.now asts.now)) }
    ensures within { IfErr result (λ e. IsWithin e (length asts.now)) }
    ensures count { IfOk result (λ exprs. length exprs.items ≡ length asts.now) }
{
    let mut known = KnownSets::new(alloc);
    let mut exprs = Vec::new(alloc);
    for ast in asts {
        match translate(alloc, ast, config, &mut known) {
            Ok(expr) => exprs.push(expr)?,
            Err(error) => return Err(refused(exprs.len(), error)),
        }
    }
    Ok(exprs)
}
