//! The compiler of patterns.
ghost use Rattle.std.specs.Prelude.{◌≡◌, ◌≤◌, ◌∷◌, [], length, map, IfOk, IfErr, OnOk};
ghost use Rattle.rx_reader.specs.Config.{default};
ghost use Rattle.rx_search.specs.Limits.{id_limit};
ghost use Rattle.rx_nfa.specs.Compiled.{AreAllowed, IsCompiled};
ghost use Rattle.rx_nfa.specs.Config.{nothing_set, overwritten};
ghost use Rattle.rx_thompson.specs.Build.{IsBuiltOf, IsRefused, IsRefusedOf, IsRefusedFor, AreWeighed};

use crate::error::BuildError;
use crate::limits::exceeded;
use rx_hir::Hir;
use rx_nfa::{Config, NFA, PATTERN_LIMIT};
use rx_syntax::{Weights, parse_each, weigh_each};
use std::alloc::Global;
use std::slice;

/// Makes NFAs of patterns and of expressions, under one configuration and one grammar.
#[derive(Clone, Copy)]
pub struct Compiler {
    nfa: rx_nfa::Compiler,
    syntax: rx_syntax::Config,
}

impl Compiler {
    /// With the default configurations.
    pub fn new() -> Compiler
        ensures config { result.nfa.config ≡ nothing_set }
        ensures syntax { result.syntax ≡ default }
    {
        Compiler {
            nfa: rx_nfa::Compiler::new(),
            syntax: rx_syntax::Config::new(),
        }
    }

    /// Takes what this configuration sets, and keeps what it leaves open.
    pub fn configure(&mut self, config: Config)
        ensures config { self.new.nfa.config ≡ overwritten self.old.nfa.config config }
        ensures syntax { self.new.syntax ≡ self.old.syntax }
    {
        self.nfa.configure(config);
    }

    /// Takes this configuration of the grammar, in place of the one before. A line terminator of it is that of `.`
    /// alone: anchors have the one of `Config::look_matcher`.
    pub fn syntax(&mut self, config: rx_syntax::Config)
        ensures syntax { self.new.syntax ≡ config }
        ensures config { self.new.nfa.config ≡ self.old.nfa.config }
    {
        self.syntax = config;
    }

    /// The NFA of one pattern. It is refused as by `build_many`.
    ///
    /// # Errors
    ///
    /// As by `build_many`.
    pub fn build(&self, alloc: Global, pattern: &str) -> Result<NFA, BuildError>
        ensures built { IfOk result (IsBuiltOf self.now.syntax self.now.nfa.config (pattern.now ∷ [])) }
        ensures refused { IfErr result (IsRefusedFor self.now.syntax self.now.nfa.config (pattern.now ∷ [])) }
    {
        self.build_many(alloc, &[pattern])
    }

    /// The NFA of these patterns, which are numbered from 0 on.
    ///
    /// The grammar takes one pattern after another, up to the 2147483647th. Refused are, in this order: the first
    /// pattern that the grammar refuses, and what `build_counted` refuses. What is refused is found before an expression
    /// is made. Patterns that are not refused are read twice, so that one syntax tree is kept at a time.
    ///
    /// # Errors
    ///
    /// `Syntax`, the first refusal, with the number of its pattern; one of the limits, with what was given and the limit, in
    /// the order above; `Memory`, where there was no memory.
    pub fn build_many(&self, alloc: Global, patterns: &[&str]) -> Result<NFA, BuildError>
        ensures built { IfOk result (IsBuiltOf self.now.syntax self.now.nfa.config (map (λ p. p.now) patterns.now)) }
        ensures refused { IfErr result (IsRefusedFor self.now.syntax self.now.nfa.config (map (λ p. p.now) patterns.now)) }
    {
        let first = &patterns[..patterns.len().min(PATTERN_LIMIT)];
        // One syntax tree is kept at a time (DECISIONS: the compiler of patterns reads twice what it accepts).
        match weigh_each(alloc, first, &self.syntax) {
            Ok(weights) => self.build_weighed(alloc, patterns, weights),
            Err(error) => Err(BuildError::of_patterns(error)),
        }
    }

    /// The NFA of these patterns, of which the first ones, at most 2147483647, weigh this.
    fn build_weighed(
        &self,
        alloc: Global,
        patterns: &[&str],
        weights: Weights,
    ) -> Result<NFA, BuildError>
        requires { AreWeighed self.now.syntax (map (λ p. p.now) patterns.now) weights }
        ensures built { IfOk result (IsBuiltOf self.now.syntax self.now.nfa.config (map (λ p. p.now) patterns.now)) }
        ensures refused { IfErr result (IsRefusedFor self.now.syntax self.now.nfa.config (map (λ p. p.now) patterns.now)) }
    {
        if let Some(error) = exceeded(self.nfa.get_config(), patterns.len(), weights) {
            return Err(error);
        }
        self.build_read(alloc, patterns)
    }

    /// The same, whatever they weigh.
    fn build_read(&self, alloc: Global, patterns: &[&str]) -> Result<NFA, BuildError>
        ensures built { IfOk result (IsBuiltOf self.now.syntax self.now.nfa.config (map (λ p. p.now) patterns.now)) }
        ensures refused { IfErr result (IsRefusedFor self.now.syntax self.now.nfa.config (map (λ p. p.now) patterns.now)) }
    {
        let first = &patterns[..patterns.len().min(PATTERN_LIMIT)];
        match parse_each(alloc, first, &self.syntax) {
            Ok(exprs) => self.build_counted(alloc, patterns.len(), &exprs),
            Err(error) => Err(BuildError::of_patterns(error)),
        }
    }

    /// The NFA of one expression. It is refused as by `build_many_from_hir`.
    ///
    /// # Errors
    ///
    /// As by `build_many_from_hir`.
    pub fn build_from_hir(&self, alloc: Global, expr: &Hir) -> Result<NFA, BuildError>
        ensures compiled { IfOk result (IsCompiled self.now.nfa.config (expr.now ∷ [])) }
        ensures allowed { OnOk result (AreAllowed self.now.nfa.config (expr.now ∷ [])) }
        ensures refused { IfErr result (IsRefused self.now.nfa.config (expr.now ∷ [])) }
    {
        self.build_many_from_hir(alloc, slice::from_ref(expr))
    }

    /// The NFA of these expressions, one pattern each, numbered from 0 on: as by rx_nfa.
    ///
    /// Refused before anything is built, in this order: more than 2147483647 patterns, more than 2147483646 slots,
    /// more than 2147483647 states accounted, more bytes accounted than the configured limit. Want of
    /// memory comes last, and is then the only reason left.
    ///
    /// # Errors
    ///
    /// One of the limits, with what was given and the limit, in the order above; `Memory`, where there was no memory.
    pub fn build_many_from_hir(&self, alloc: Global, exprs: &[Hir]) -> Result<NFA, BuildError>
        ensures compiled { IfOk result (IsCompiled self.now.nfa.config exprs.now) }
        ensures allowed { OnOk result (AreAllowed self.now.nfa.config exprs.now) }
        ensures refused { IfErr result (IsRefused self.now.nfa.config exprs.now) }
    {
        match self.nfa.build_many_from_hir(alloc, exprs) {
            Ok(nfa) => Ok(nfa),
            Err(error) => Err(BuildError::from(error)),
        }
    }

    /// The NFA of so many patterns, of which the first ones, at most 2147483647, read as these expressions: for a caller
    /// that read its patterns itself. More patterns than that are refused, with how many there are; and else what
    /// `build_many_from_hir` refuses.
    ///
    /// # Errors
    ///
    /// `TooManyPatterns`, with their number, and else as by `build_many_from_hir`.
    pub fn build_counted(
        &self,
        alloc: Global,
        count: usize,
        exprs: &[Hir],
    ) -> Result<NFA, BuildError>
        requires { count ≤ id_limit → length exprs.now ≡ count }
        ensures few { OnOk result (count ≤ id_limit) }
        ensures compiled { IfOk result (IsCompiled self.now.nfa.config exprs.now) }
        ensures allowed { OnOk result (AreAllowed self.now.nfa.config exprs.now) }
        ensures refused { IfErr result (IsRefusedOf self.now.nfa.config count exprs.now) }
    {
        if count > PATTERN_LIMIT {
            return Err(BuildError::TooManyPatterns {
                given: count,
                limit: PATTERN_LIMIT,
            });
        }
        self.build_many_from_hir(alloc, exprs)
    }
}
