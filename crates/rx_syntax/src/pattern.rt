//! Patterns.
ghost use Rattle.std.specs.Prelude.{◌≡◌, chars};
ghost use Rattle.rx_reader.specs.Grammar.{read};
ghost use Rattle.rx_reader.specs.Config.{default};
ghost use Rattle.rx_syntax.specs.Answers.{Answers};
ghost use Rattle.rx_syntax.specs.Pattern.{reads};
ghost use Rattle.rx_syntax.specs.Translation.{translated};

use crate::known::KnownSets;
use crate::translate::translate;
use rx_hir::Hir;
use rx_reader::{Ast, Config, ParseError, read};
use std::alloc::Global;

/// The expression of a pattern under the default configuration, or the first refusal, with its kind and its
/// piece in bytes. `Memory` comes only where memory runs out.
///
/// # Errors
///
/// `Syntax`, the first refusal, with its kind and its piece in bytes; `Memory`, where there was no memory.
pub fn parse(alloc: Global, pattern: &str) -> Result<Hir, ParseError>
    ensures { Answers result (reads default (chars pattern.now)) }
{
    parse_with(alloc, pattern, &Config::new())
}

/// The expression of a pattern under a configuration, or the first refusal: of its reading, and else of its
/// translation. `Memory` comes only where memory runs out.
///
/// # Errors
///
/// `Syntax`, the first refusal, with its kind and its piece in bytes; `Memory`, where there was no memory.
pub fn parse_with(alloc: Global, pattern: &str, config: &Config) -> Result<Hir, ParseError>
    ensures { Answers result (reads config.now (chars pattern.now)) }
{
    let ast = read_with(alloc, pattern, config)?;
    let translated = translate_with(alloc, &ast, config);
    // By a call (DECISIONS: large values are let go by name).
    drop(ast);
    translated
}

/// What a pattern reads as, before it is translated: for a caller that reads all its patterns first.
///
/// # Errors
///
/// `Syntax`, the first refusal, with its kind and its piece in bytes; `Memory`, where there was no memory.
pub fn read_with(alloc: Global, pattern: &str, config: &Config) -> Result<Ast, ParseError>
    ensures { Answers result (read config.now (chars pattern.now)) }
{
    read(alloc, pattern, config)
}

/// The expression of a pattern that was read under the same configuration.
///
/// # Errors
///
/// `Syntax`, the first refusal, with its kind and its piece in bytes; `Memory`, where there was no memory.
pub fn translate_with(alloc: Global, ast: &Ast, config: &Config) -> Result<Hir, ParseError>
    ensures { Answers result (translated config.now ast.now) }
{
    translate(alloc, ast, config, &mut KnownSets::new(alloc))
}
