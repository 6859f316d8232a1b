//! The configuration of a regex.
ghost use Rattle.std.specs.Prelude.{◌≡◌, Some, IfOk, option_copied};
ghost use Rattle.rx_strategy.specs.Config.{kind_of, utf8_of, auto_prefilter_of, prefilter_of, which_of, size_limit_of, terminator_of};
ghost use Rattle.rx_strategy.specs.Config.{onepass_size_limit_of, hybrid_cache_capacity_of, dfa_size_limit_of, dfa_state_limit_of};
ghost use Rattle.rx_strategy.specs.Config.{byte_classes_of, pool_capacity_of, hybrid_of, dfa_of, onepass_of};
ghost use Rattle.rx_strategy.specs.Config.{backtrack_of, compiler_of, has_backtracker, nothing_set, overwritten};
ghost use Rattle.rx_strategy.specs.Config.{reverse_compiler_of, prefix_compiler_of, asks_for_dfas};
ghost use Rattle.rx_strategy.specs.Availability.{may_be_full, table_limit};
ghost use Rattle.rx_strategy.specs.OnePass.{onepass_config};
ghost use Rattle.rx_strategy.specs.Prefix.{prefix_limit};

use rx_nfa::{NFA, WhichCaptures};
use rx_prefilter::Prefilter;
use rx_search::{LookMatcher, MatchKind, Memory};
use std::default::Default;

/// The bytes that the NFA may have where no other limit is set, by what is accounted for it.
const NFA_SIZE_LIMIT: usize = 10485760;

/// The bytes that a one-pass DFA may have where no other limit is set.
const ONEPASS_SIZE_LIMIT: usize = 1048576;

/// The bytes that the cache of a lazy DFA may have where no other number is set.
const HYBRID_CACHE_CAPACITY: usize = 2097152;

/// The limit of the tables of full DFAs where no other is set.
const DFA_SIZE_LIMIT: usize = 40960;

/// The accounted states for which a full DFA is made where no other limit is set.
const DFA_STATE_LIMIT: usize = 30;

/// The stacks of the pool where no other number is set.
const POOL_CAPACITY: usize = 8;

// What is left open keeps what was set before (DECISIONS: a configuration's fields are optional).
/// How a regex is built, and how it searches. What is not set has its default.
#[derive(Drop)]
pub struct Config {
    match_kind: Option<MatchKind>,
    utf8_empty: Option<bool>,
    auto_prefilter: Option<bool>,
    prefilter: Option<Option<Prefilter>>,
    which_captures: Option<WhichCaptures>,
    nfa_size_limit: Option<Option<usize>>,
    onepass_size_limit: Option<Option<usize>>,
    hybrid_cache_capacity: Option<usize>,
    dfa_size_limit: Option<Option<usize>>,
    dfa_state_limit: Option<Option<usize>>,
    byte_classes: Option<bool>,
    line_terminator: Option<u8>,
    pool_capacity: Option<usize>,
    hybrid: Option<bool>,
    dfa: Option<bool>,
    onepass: Option<bool>,
    backtrack: Option<bool>,
}

impl Config {
    /// Nothing is set.
    pub fn new() -> Config
        ensures { result ≡ nothing_set }
    {
        Config {
            match_kind: None,
            utf8_empty: None,
            auto_prefilter: None,
            prefilter: None,
            which_captures: None,
            nfa_size_limit: None,
            onepass_size_limit: None,
            hybrid_cache_capacity: None,
            dfa_size_limit: None,
            dfa_state_limit: None,
            byte_classes: None,
            line_terminator: None,
            pool_capacity: None,
            hybrid: None,
            dfa: None,
            onepass: None,
            backtrack: None,
        }
    }

    /// Sets which of the matches that begin at one place is reported.
    pub fn match_kind(self, kind: MatchKind) -> Config
        ensures { result ≡ record self { match_kind = Some kind } }
    {
        let mut config = self;
        config.match_kind = Some(kind);
        config
    }

    /// Sets whether no match may start inside an encoded character.
    pub fn utf8_empty(self, yes: bool) -> Config
        ensures { result ≡ record self { utf8_empty = Some yes } }
    {
        let mut config = self;
        config.utf8_empty = Some(yes);
        config
    }

    /// Sets whether a prefilter is made of what each match of the patterns begins with, where none is handed in. It
    /// changes no answer that is promised.
    pub fn auto_prefilter(self, yes: bool) -> Config
        ensures { result ≡ record self { auto_prefilter = Some yes } }
    {
        let mut config = self;
        config.auto_prefilter = Some(yes);
        config
    }

    /// Sets the prefilter to search with. Each match of the patterns has to begin with one of its needles: where one
    /// does not, no search promises its answer. None: none is handed in.
    pub fn prefilter(self, pre: Option<Prefilter>) -> Config
        ensures { result ≡ record self { prefilter = Some pre } }
    {
        let mut config = self;
        config.prefilter = Some(pre);
        config
    }

    /// Sets which groups are told.
    pub fn which_captures(self, which: WhichCaptures) -> Config
        ensures { result ≡ record self { which_captures = Some which } }
    {
        let mut config = self;
        config.which_captures = Some(which);
        config
    }

    /// Sets the most bytes that the NFA may have, by what is accounted for it. None: there is no limit.
    pub fn nfa_size_limit(self, limit: Option<usize>) -> Config
        ensures { result ≡ record self { nfa_size_limit = Some limit } }
    {
        let mut config = self;
        config.nfa_size_limit = Some(limit);
        config
    }

    /// Sets the most bytes that a one-pass DFA may have. None: there is no limit. It changes no answer that is
    /// promised.
    pub fn onepass_size_limit(self, limit: Option<usize>) -> Config
        ensures { result ≡ record self { onepass_size_limit = Some limit } }
    {
        let mut config = self;
        config.onepass_size_limit = Some(limit);
        config
    }

    /// Sets how many bytes the cache of a lazy DFA may have. It changes no answer that is promised.
    pub fn hybrid_cache_capacity(self, number: usize) -> Config
        ensures { result ≡ record self { hybrid_cache_capacity = Some number } }
    {
        let mut config = self;
        config.hybrid_cache_capacity = Some(number);
        config
    }

    /// Sets the limit of the tables of full DFAs: each of the two may have a quarter of it. None: there is no limit. It changes no answer
    /// that is promised.
    pub fn dfa_size_limit(self, limit: Option<usize>) -> Config
        ensures { result ≡ record self { dfa_size_limit = Some limit } }
    {
        let mut config = self;
        config.dfa_size_limit = Some(limit);
        config
    }

    /// Sets the most accounted states of an NFA for which a full DFA is made. None: there is no limit. It changes no
    /// answer that is promised.
    pub fn dfa_state_limit(self, limit: Option<usize>) -> Config
        ensures { result ≡ record self { dfa_state_limit = Some limit } }
    {
        let mut config = self;
        config.dfa_state_limit = Some(limit);
        config
    }

    /// Sets whether bytes that the patterns do not tell apart are one to a DFA. It changes no answer that is promised.
    pub fn byte_classes(self, yes: bool) -> Config
        ensures { result ≡ record self { byte_classes = Some yes } }
    {
        let mut config = self;
        config.byte_classes = Some(yes);
        config
    }

    /// Sets the byte that ends a line, for anchors at lines.
    pub fn line_terminator(self, byte: u8) -> Config
        ensures { result ≡ record self { line_terminator = Some byte } }
    {
        let mut config = self;
        config.line_terminator = Some(byte);
        config
    }

    /// Sets among how many stacks the pool of caches is spread. It changes no answer that is promised.
    pub fn pool_capacity(self, number: usize) -> Config
        ensures { result ≡ record self { pool_capacity = Some number } }
    {
        let mut config = self;
        config.pool_capacity = Some(number);
        config
    }

    /// Sets whether lazy DFAs may be used. It changes no answer that is promised.
    pub fn hybrid(self, yes: bool) -> Config
        ensures { result ≡ record self { hybrid = Some yes } }
    {
        let mut config = self;
        config.hybrid = Some(yes);
        config
    }

    /// Sets whether full DFAs may be used. It changes no answer that is promised.
    pub fn dfa(self, yes: bool) -> Config
        ensures { result ≡ record self { dfa = Some yes } }
    {
        let mut config = self;
        config.dfa = Some(yes);
        config
    }

    /// Sets whether a one-pass DFA may be used. It changes no answer that is promised.
    pub fn onepass(self, yes: bool) -> Config
        ensures { result ≡ record self { onepass = Some yes } }
    {
        let mut config = self;
        config.onepass = Some(yes);
        config
    }

    /// Sets whether the bounded backtracker may be used. It changes no answer that is promised.
    pub fn backtrack(self, yes: bool) -> Config
        ensures { result ≡ record self { backtrack = Some yes } }
    {
        let mut config = self;
        config.backtrack = Some(yes);
        config
    }

    /// Which of the matches that begin at one place is reported; by default the first in order of preference.
    pub fn get_match_kind(&self) -> MatchKind
        ensures { result ≡ kind_of self.now }
    {
        self.match_kind.unwrap_or(MatchKind::LeftmostFirst)
    }

    /// Whether no match may start inside an encoded character; by default so.
    pub fn get_utf8_empty(&self) -> bool
        ensures { result ≡ utf8_of self.now }
    {
        self.utf8_empty.unwrap_or(true)
    }

    /// Whether a prefilter is made of the patterns, where none is handed in; by default so.
    pub fn get_auto_prefilter(&self) -> bool
        ensures { result ≡ auto_prefilter_of self.now }
    {
        self.auto_prefilter.unwrap_or(true)
    }

    /// The prefilter that is handed in; by default none.
    pub fn get_prefilter(&self) -> Option<&Prefilter>
        ensures { option_copied result ≡ prefilter_of self.now }
    {
        match &self.prefilter {
            Some(pre) => pre.as_ref(),
            None => None,
        }
    }

    /// Which groups are told; by default all of them.
    pub fn get_which_captures(&self) -> WhichCaptures
        ensures { result ≡ which_of self.now }
    {
        self.which_captures.unwrap_or(WhichCaptures::All)
    }

    /// The most bytes that the NFA may have; by default 10485760.
    pub fn get_nfa_size_limit(&self) -> Option<usize>
        ensures { result ≡ size_limit_of self.now }
    {
        self.nfa_size_limit.unwrap_or(Some(NFA_SIZE_LIMIT))
    }

    /// The most bytes that a one-pass DFA may have; by default 1048576.
    pub fn get_onepass_size_limit(&self) -> Option<usize>
        ensures { result ≡ onepass_size_limit_of self.now }
    {
        self.onepass_size_limit.unwrap_or(Some(ONEPASS_SIZE_LIMIT))
    }

    /// How many bytes the cache of a lazy DFA may have; by default 2097152.
    pub fn get_hybrid_cache_capacity(&self) -> usize
        ensures { result ≡ hybrid_cache_capacity_of self.now }
    {
        self.hybrid_cache_capacity.unwrap_or(HYBRID_CACHE_CAPACITY)
    }

    /// The limit of the tables of full DFAs, of which each of the two may have a quarter; by default 40960.
    pub fn get_dfa_size_limit(&self) -> Option<usize>
        ensures { result ≡ dfa_size_limit_of self.now }
    {
        self.dfa_size_limit.unwrap_or(Some(DFA_SIZE_LIMIT))
    }

    /// The most accounted states of an NFA for which a full DFA is made; by default 30.
    pub fn get_dfa_state_limit(&self) -> Option<usize>
        ensures { result ≡ dfa_state_limit_of self.now }
    {
        self.dfa_state_limit.unwrap_or(Some(DFA_STATE_LIMIT))
    }

    /// Whether bytes that the patterns do not tell apart are one to a DFA; by default so.
    pub fn get_byte_classes(&self) -> bool
        ensures { result ≡ byte_classes_of self.now }
    {
        self.byte_classes.unwrap_or(true)
    }

    /// The byte that ends a line; by default `\n`.
    pub fn get_line_terminator(&self) -> u8
        ensures { result ≡ terminator_of self.now }
    {
        self.line_terminator.unwrap_or(b'\n')
    }

    /// Among how many stacks the pool of caches is spread; by default 8.
    pub fn get_pool_capacity(&self) -> usize
        ensures { result ≡ pool_capacity_of self.now }
    {
        self.pool_capacity.unwrap_or(POOL_CAPACITY)
    }

    /// Whether lazy DFAs may be used; by default so.
    pub fn get_hybrid(&self) -> bool
        ensures { result ≡ hybrid_of self.now }
    {
        self.hybrid.unwrap_or(true)
    }

    /// Whether full DFAs may be used; by default so.
    pub fn get_dfa(&self) -> bool
        ensures { result ≡ dfa_of self.now }
    {
        self.dfa.unwrap_or(true)
    }

    /// Whether a one-pass DFA may be used; by default so.
    pub fn get_onepass(&self) -> bool
        ensures { result ≡ onepass_of self.now }
    {
        self.onepass.unwrap_or(true)
    }

    /// Whether the bounded backtracker may be used; by default so.
    pub fn get_backtrack(&self) -> bool
        ensures { result ≡ backtrack_of self.now }
    {
        self.backtrack.unwrap_or(true)
    }

    /// How the NFA is compiled under this configuration.
    pub fn compiler(&self) -> rx_nfa::Config
        ensures { result ≡ compiler_of self.now }
    {
        let mut matcher = LookMatcher::new();
        matcher.set_line_terminator(self.get_line_terminator());
        rx_nfa::Config::new()
            .utf8(self.get_utf8_empty())
            .nfa_size_limit(self.get_nfa_size_limit())
            .which_captures(self.get_which_captures())
            .look_matcher(matcher)
    }

    /// How the NFA that reads backwards is compiled under this configuration. It tells no groups.
    pub(crate) fn reverse_compiler(&self) -> rx_nfa::Config
        ensures { result ≡ reverse_compiler_of self.now }
    {
        self.compiler()
            .reverse(true)
            .which_captures(WhichCaptures::None)
    }

    /// How the NFA of what stands before literals is compiled, which reads backwards. It tells each start, also one inside a character.
    pub(crate) fn prefix_compiler(&self) -> rx_nfa::Config
        ensures { result ≡ prefix_compiler_of self.now }
    {
        self.reverse_compiler().utf8(false)
    }

    /// Whether DFAs are asked for, of either sort.
    pub(crate) fn asks_for_dfas(&self) -> bool
        ensures { result ≡ asks_for_dfas self.now }
    {
        self.get_dfa() || self.get_hybrid()
    }

    /// Whether a full DFA may be built of the NFA: it is asked for, and few enough states are accounted.
    pub(crate) fn may_be_full(&self, nfa: &NFA) -> bool
        ensures { result ≡ may_be_full self.now nfa.now }
    {
        if !self.get_dfa() {
            return false;
        }
        match self.get_dfa_state_limit() {
            Some(limit) => nfa.accounted_states() <= limit,
            None => true,
        }
    }

    /// The most bytes that the table of one full DFA may have.
    pub(crate) fn table_limit(&self) -> Option<usize>
        ensures { result ≡ table_limit self.now }
    {
        match self.get_dfa_size_limit() {
            Some(limit) => Some(limit / 4),
            None => None,
        }
    }

    /// The most bytes that the table of the full DFA of what stands before literals may have.
    pub(crate) fn prefix_limit(&self) -> Option<usize>
        ensures { result ≡ prefix_limit self.now }
    {
        match self.get_dfa_size_limit() {
            Some(limit) => Some(limit / 2),
            None => None,
        }
    }

    /// How a one-pass DFA is built under this configuration: with starts for each pattern.
    pub(crate) fn onepass_config(&self) -> rx_onepass::Config
        ensures { result ≡ onepass_config self.now }
    {
        rx_onepass::Config::new()
            .match_kind(self.get_match_kind())
            .starts_for_each_pattern(true)
            .byte_classes(self.get_byte_classes())
            .size_limit(self.get_onepass_size_limit())
    }

    /// Whether a strategy under this configuration has the bounded backtracker.
    pub(crate) fn has_backtracker(&self) -> bool
        ensures { result ≡ has_backtracker self.now }
    {
        match self.get_match_kind() {
            MatchKind::All => false,
            MatchKind::LeftmostFirst => self.get_backtrack(),
        }
    }

    /// The same configuration once more. It shares the prefilter.
    ///
    /// # Errors
    ///
    /// `Memory`, where there was no memory for it.
    pub fn clone(&self) -> Result<Config, Memory>
        ensures { IfOk result (λ copy. copy ≡ self.now) }
    {
        let prefilter = self.clone_prefilter()?;
        Ok(Config {
            match_kind: self.match_kind,
            utf8_empty: self.utf8_empty,
            auto_prefilter: self.auto_prefilter,
            prefilter,
            which_captures: self.which_captures,
            nfa_size_limit: self.nfa_size_limit,
            onepass_size_limit: self.onepass_size_limit,
            hybrid_cache_capacity: self.hybrid_cache_capacity,
            dfa_size_limit: self.dfa_size_limit,
            dfa_state_limit: self.dfa_state_limit,
            byte_classes: self.byte_classes,
            line_terminator: self.line_terminator,
            pool_capacity: self.pool_capacity,
            hybrid: self.hybrid,
            dfa: self.dfa,
            onepass: self.onepass,
            backtrack: self.backtrack,
        })
    }

    /// What is set of the prefilter once more.
    fn clone_prefilter(&self) -> Result<Option<Option<Prefilter>>, Memory>
        ensures { IfOk result (λ set. set ≡ self.now.prefilter) }
    {
        match &self.prefilter {
            Some(pre) => Ok(Some(shared(pre.as_ref())?)),
            None => Ok(None),
        }
    }

    /// This configuration, with what the other one sets in place of its own.
    pub fn overwrite(self, other: Config) -> Config
        ensures { result ≡ overwritten self other }
    {
        Config {
            match_kind: other.match_kind.or(self.match_kind),
            utf8_empty: other.utf8_empty.or(self.utf8_empty),
            auto_prefilter: other.auto_prefilter.or(self.auto_prefilter),
            prefilter: other.prefilter.or(self.prefilter),
            which_captures: other.which_captures.or(self.which_captures),
            nfa_size_limit: other.nfa_size_limit.or(self.nfa_size_limit),
            onepass_size_limit: other.onepass_size_limit.or(self.onepass_size_limit),
            hybrid_cache_capacity: other.hybrid_cache_capacity.or(self.hybrid_cache_capacity),
            dfa_size_limit: other.dfa_size_limit.or(self.dfa_size_limit),
            dfa_state_limit: other.dfa_state_limit.or(self.dfa_state_limit),
            byte_classes: other.byte_classes.or(self.byte_classes),
            line_terminator: other.line_terminator.or(self.line_terminator),
            pool_capacity: other.pool_capacity.or(self.pool_capacity),
            hybrid: other.hybrid.or(self.hybrid),
            dfa: other.dfa.or(self.dfa),
            onepass: other.onepass.or(self.onepass),
            backtrack: other.backtrack.or(self.backtrack),
        }
    }
}

/// The same prefilter, where there is one. It shares the tables.
pub(crate) fn shared(pre: Option<&Prefilter>) -> Result<Option<Prefilter>, Memory>
    ensures { IfOk result (λ copy. copy ≡ option_copied pre.entry) }
{
    match pre {
        Some(pre) => Ok(Some(pre.clone()?)),
        None => Ok(None),
    }
}

impl Default for Config {
    ghost is_default = { λ c. c ≡ nothing_set };

    fn default() -> Config {
        Config::new()
    }
}
