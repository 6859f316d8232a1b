//! From patterns to a regex.
ghost use Rattle.std.specs.Prelude.{◌≡◌, ◌∷◌, [], map, IfOk, IfErr};
ghost use Rattle.rx_reader.specs.Config.{default};
ghost use Rattle.rx_meta.specs.Build.{IsBuilt, IsRefused, IsBuiltOf, IsRefusedFor};
ghost use Rattle.rx_meta.specs.Config.{nothing_set, overwritten};

use crate::error::BuildError;
use crate::reading::read_patterns;
use crate::regex::Regex;
use rx_hir::Hir;
use rx_search::Memory;
use rx_strategies::Strategy;
use rx_strategy::Config;
use std::alloc::Global;
use std::{mem, slice};

/// Makes regexes of patterns, under one configuration and one grammar.
#[derive(Drop)]
pub struct Builder {
    config: Config,
    syntax: rx_syntax::Config,
}

impl Builder {
    /// With the default configurations.
    pub fn new() -> Builder
        ensures config { result.config ≡ nothing_set }
        ensures syntax { result.syntax ≡ default }
    {
        Builder {
            config: Config::new(),
            syntax: rx_syntax::Config::new(),
        }
    }

    /// Takes what this configuration sets, and keeps what was set beside it.
    pub fn configure(&mut self, config: Config)
        ensures config { self.new.config ≡ overwritten self.old.config config }
        ensures syntax { self.new.syntax ≡ self.old.syntax }
    {
        let old = mem::replace(&mut self.config, Config::new());
        self.config = old.overwrite(config);
    }

    /// Takes this configuration of the grammar, in place of the one before. A line terminator of it is that of `.`
    /// alone: anchors have the one of `Config::line_terminator`.
    pub fn syntax(&mut self, config: rx_syntax::Config)
        ensures syntax { self.new.syntax ≡ config }
        ensures config { self.new.config ≡ self.old.config }
    {
        self.syntax = config;
    }

    /// The regex of one pattern. It is refused as by `build_many`.
    ///
    /// # Errors
    ///
    /// As by `build_many`.
    ///
    /// # Examples
    ///
    /// ```
    /// let mut builder = Builder::new();
    /// builder.syntax(
    ///     rx_syntax::Config::new()
    ///         .case_insensitive(true)
    ///         .multi_line(true),
    /// );
    /// builder.configure(Regex::config().line_terminator(b';'));
    /// let regex = builder.build(alloc, "^a$")?;
    /// ```
    pub fn build(&self, alloc: Global, pattern: &str) -> Result<Regex, BuildError>
        ensures built { IfOk result (IsBuiltOf self.now.syntax self.now.config (pattern.now ∷ [])) }
        ensures refused { IfErr result (IsRefusedFor self.now.syntax self.now.config (pattern.now ∷ [])) }
    {
        self.build_many(alloc, &[pattern])
    }

    /// The regex of these patterns, which are numbered from 0 on.
    ///
    /// All patterns are read, up to the 2147483647th, before any is translated. Refused are, in this order: the first
    /// pattern that reading refuses, the first that translation refuses, and what `build_many_from_hir` refuses. What is
    /// refused is found before an expression is made.
    ///
    /// # Errors
    ///
    /// `Syntax`, the first refusal, with the number of its pattern, or `NFA`, the limit that is passed, in the
    /// order above; `Memory`, where there was no memory.
    pub fn build_many(&self, alloc: Global, patterns: &[&str]) -> Result<Regex, BuildError>
        ensures built { IfOk result (IsBuiltOf self.now.syntax self.now.config (map (λ p. p.now) patterns.now)) }
        ensures refused { IfErr result (IsRefusedFor self.now.syntax self.now.config (map (λ p. p.now) patterns.now)) }
    {
        let exprs = read_patterns(alloc, patterns, &self.syntax, &self.config)?;
        self.build_many_from_hir(alloc, &exprs)
    }

    /// The regex of one expression. It is refused as by `build_many_from_hir`.
    ///
    /// # Errors
    ///
    /// As by `build_many_from_hir`.
    pub fn build_from_hir(&self, alloc: Global, hir: &Hir) -> Result<Regex, BuildError>
        ensures built { IfOk result (IsBuilt self.now.config (hir.now ∷ [])) }
        ensures refused { IfErr result (IsRefused self.now.config (hir.now ∷ [])) }
    {
        self.build_many_from_hir(alloc, slice::from_ref(hir))
    }

    /// The regex of these expressions, one pattern each, numbered from 0 on.
    ///
    /// Refused are, in this order: more than 2147483647 patterns, more than 2147483646 slots, more than 2147483647
    /// states accounted, more bytes accounted than the configured limit. Want of memory comes last.
    ///
    /// # Errors
    ///
    /// `NFA`, the limit that is passed, in the order above; `Memory`, where there was no memory.
    pub fn build_many_from_hir(&self, alloc: Global, exprs: &[Hir]) -> Result<Regex, BuildError>
        ensures built { IfOk result (IsBuilt self.now.config exprs.now) }
        ensures refused { IfErr result (IsRefused self.now.config exprs.now) }
    {
        match Strategy::new(alloc, &self.config, exprs) {
            Ok(strategy) => Ok(Regex::from_parts(alloc, &self.config, strategy)?),
            Err(error) => Err(BuildError::from(rx_thompson::BuildError::from(error))),
        }
    }

    /// The same builder once more. It shares the prefilter that its configuration sets.
    ///
    /// # Errors
    ///
    /// `Memory`, where there was no memory for it.
    pub fn clone(&self) -> Result<Builder, Memory>
        ensures { IfOk result (λ copy. copy ≡ self.now) }
    {
        Ok(Builder {
            // A shared prefilter is counted (DECISIONS: `Config::clone` and `Builder::clone` may want memory).
            config: self.config.clone()?,
            syntax: self.syntax,
        })
    }
}
