//! How a one-pass DFA is built.
ghost use Rattle.std.specs.Prelude.{◌≡◌, ◌∷◌, [], map, IfOk, IfErr};
ghost use Rattle.rx_reader.specs.Config.{default};
ghost use Rattle.rx_nfa.specs.Config as nfa_configs;
ghost use Rattle.rx_onepass_build.specs.Config.{overwritten, nothing_set};
ghost use Rattle.rx_onepass.specs.Patterns.{IsBuiltFrom, IsRefusalFrom, IsBuiltFor, IsRefusalFor};

use crate::build_error::BuildError;
use crate::dfa::DFA;
use rx_nfa::NFA;
use rx_onepass_build::Config;
use std::alloc::Global;

/// Makes one-pass DFAs, of patterns and of NFAs.
#[derive(Clone, Copy)]
pub struct Builder {
    pub(crate) table: rx_onepass_build::Builder,
    pub(crate) compiler: rx_thompson::Compiler,
}

impl Builder {
    /// With the default configurations.
    pub fn new() -> Builder
        ensures config { result.table.config ≡ nothing_set }
        ensures compiler { result.compiler.nfa.config ≡ nfa_configs.nothing_set }
        ensures syntax { result.compiler.syntax ≡ default }
    {
        Builder {
            table: rx_onepass_build::Builder::new(),
            compiler: rx_thompson::Compiler::new(),
        }
    }

    /// Takes what this configuration sets, and keeps what it leaves open.
    pub fn configure(&mut self, config: Config)
        ensures config { self.new.table.config ≡ overwritten self.old.table.config config }
        ensures compiler { self.new.compiler ≡ self.old.compiler }
    {
        self.table.configure(config);
    }

    /// Takes this configuration of the grammar, in place of the one before.
    pub fn syntax(&mut self, config: rx_syntax::Config)
        ensures syntax { self.new.compiler.syntax ≡ config }
        ensures compiler { self.new.compiler.nfa ≡ self.old.compiler.nfa }
        ensures config { self.new.table ≡ self.old.table }
    {
        self.compiler.syntax(config);
    }

    /// Takes what this configuration of NFAs sets, and keeps what it leaves open.
    pub fn thompson(&mut self, config: rx_thompson::Config)
        ensures compiler { self.new.compiler.nfa.config ≡ nfa_configs.overwritten self.old.compiler.nfa.config config }
        ensures syntax { self.new.compiler.syntax ≡ self.old.compiler.syntax }
        ensures config { self.new.table ≡ self.old.table }
    {
        self.compiler.configure(config);
    }

    /// The one-pass DFA of this NFA. Where it is refused, the NFA is let go.
    ///
    /// Before a state is made are refused, in this order: a kind of look-around past `Look::WordUnicodeNegate`, more patterns than
    /// 4194303, more than 32 slots of groups that the patterns name, where these are told. Then, as the states are made, what is
    /// met first: a state that two walks lead to, two patterns that match, two steps on a byte that differ, too many states, or a
    /// table above the size limit.
    ///
    /// # Errors
    ///
    /// `UnsupportedLook`, `TooManyPatterns`, `NotOnePass`, `TooManyStates`, `ExceededSizeLimit`, as above; `Memory`, where there was
    /// no memory.
    pub fn build_from_nfa(&self, alloc: Global, nfa: NFA) -> Result<DFA, BuildError>
        ensures built { IfOk result (IsBuiltFrom self.now.table.config nfa) }
        ensures refused { IfErr result (IsRefusalFrom self.now.table.config nfa) }
    {
        match self.table.build_from_nfa(alloc, &nfa) {
            Ok(built) => Ok(DFA {
                config: self.table.config,
                nfa,
                built,
            }),
            Err(error) => Err(BuildError::from(error)),
        }
    }

    /// The one-pass DFA of one pattern, as by `build_many`.
    ///
    /// # Errors
    ///
    /// As by `build_many`.
    pub fn build(&self, alloc: Global, pattern: &str) -> Result<DFA, BuildError>
        ensures built { IfOk result (IsBuiltFor self.now.compiler.syntax self.now.compiler.nfa.config self.now.table.config (pattern.now ∷ [])) }
        ensures refused { IfErr result (IsRefusalFor self.now.compiler.syntax self.now.compiler.nfa.config self.now.table.config (pattern.now ∷ [])) }
    {
        self.build_many(alloc, &[pattern])
    }

    /// The one-pass DFA of these patterns, which are numbered from 0 on.
    ///
    /// # Errors
    ///
    /// `NFA` where the patterns have no NFA, with the refusal of its compiler; else as by `build_from_nfa`.
    pub fn build_many(&self, alloc: Global, patterns: &[&str]) -> Result<DFA, BuildError>
        ensures built { IfOk result (IsBuiltFor self.now.compiler.syntax self.now.compiler.nfa.config self.now.table.config (map (λ p. p.now) patterns.now)) }
        ensures refused { IfErr result (IsRefusalFor self.now.compiler.syntax self.now.compiler.nfa.config self.now.table.config (map (λ p. p.now) patterns.now)) }
    {
        match self.compiler.build_many(alloc, patterns) {
            Ok(nfa) => self.build_from_nfa(alloc, nfa),
            Err(error) => Err(BuildError::from(error)),
        }
    }
}

impl DFA {
    /// The one-pass DFA of one pattern, by the default configurations.
    ///
    /// # Errors
    ///
    /// As by `Builder::build_many`.
    pub fn new(alloc: Global, pattern: &str) -> Result<DFA, BuildError>
        ensures built { IfOk result (IsBuiltFor default nfa_configs.nothing_set nothing_set (pattern.now ∷ [])) }
        ensures refused { IfErr result (IsRefusalFor default nfa_configs.nothing_set nothing_set (pattern.now ∷ [])) }
    {
        Builder::new().build(alloc, pattern)
    }

    /// The one-pass DFA of these patterns, by the default configurations.
    ///
    /// # Errors
    ///
    /// As by `Builder::build_many`.
    pub fn new_many(alloc: Global, patterns: &[&str]) -> Result<DFA, BuildError>
        ensures built { IfOk result (IsBuiltFor default nfa_configs.nothing_set nothing_set (map (λ p. p.now) patterns.now)) }
        ensures refused { IfErr result (IsRefusalFor default nfa_configs.nothing_set nothing_set (map (λ p. p.now) patterns.now)) }
    {
        Builder::new().build_many(alloc, patterns)
    }
}
