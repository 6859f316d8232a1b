//! How a one-pass DFA is built.
ghost use Rattle.std.specs.Prelude.{◌≡◌, Some};
ghost use Rattle.rx_onepass_build.specs.Config.{kind_of, each_of, shares_of, size_limit_of, overwritten, nothing_set};

use rx_search::MatchKind;

// Contracts see what is left open (DECISIONS: a configuration's fields are optional).
/// How a one-pass DFA is built. What is not set is as by default, or as in the configuration that this one is put over.
#[derive(Clone, Copy)]
pub struct Config {
    match_kind: Option<MatchKind>,
    starts_for_each_pattern: Option<bool>,
    byte_classes: Option<bool>,
    size_limit: Option<Option<usize>>,
}

impl Config {
    /// With nothing set.
    pub fn new() -> Config
        ensures { result ≡ nothing_set }
    {
        Config {
            match_kind: None,
            starts_for_each_pattern: None,
            byte_classes: None,
            size_limit: None,
        }
    }

    /// Which of the matches that begin at one place is reported. By default the first in order of preference.
    pub fn match_kind(mut self, kind: MatchKind) -> Config
        ensures { result ≡ record self { match_kind = Some kind } }
    {
        self.match_kind = Some(kind);
        self
    }

    /// Whether one pattern alone can be searched for. By default it can't.
    pub fn starts_for_each_pattern(mut self, yes: bool) -> Config
        ensures { result ≡ record self { starts_for_each_pattern = Some yes } }
    {
        self.starts_for_each_pattern = Some(yes);
        self
    }

    /// Whether bytes that the NFA does not tell apart share a column of the table. By default they do.
    pub fn byte_classes(mut self, yes: bool) -> Config
        ensures { result ≡ record self { byte_classes = Some yes } }
    {
        self.byte_classes = Some(yes);
        self
    }

    /// Lets the table have at most so many bytes, as `DFA::memory_usage` counts them. None, as by default: there is no limit.
    pub fn size_limit(mut self, limit: Option<usize>) -> Config
        ensures { result ≡ record self { size_limit = Some limit } }
    {
        self.size_limit = Some(limit);
        self
    }

    /// Which of the matches that begin at one place is reported.
    pub fn get_match_kind(&self) -> MatchKind
        ensures { result ≡ kind_of self.now }
    {
        self.match_kind.unwrap_or(MatchKind::LeftmostFirst)
    }

    /// Whether one pattern alone can be searched for.
    pub fn get_starts_for_each_pattern(&self) -> bool
        ensures { result ≡ each_of self.now }
    {
        self.starts_for_each_pattern.unwrap_or(false)
    }

    /// Whether bytes that the NFA does not tell apart share a column of the table.
    pub fn get_byte_classes(&self) -> bool
        ensures { result ≡ shares_of self.now }
    {
        self.byte_classes.unwrap_or(true)
    }

    /// The most bytes that the table may have, if there is a limit.
    pub fn get_size_limit(&self) -> Option<usize>
        ensures { result ≡ size_limit_of self.now }
    {
        self.size_limit.unwrap_or(None)
    }

    /// This configuration, with what the other one sets in place of its own.
    pub fn overwrite(&self, other: Config) -> Config
        ensures { result ≡ overwritten self.now other }
    {
        Config {
            match_kind: other.match_kind.or(self.match_kind),
            starts_for_each_pattern: other
                .starts_for_each_pattern
                .or(self.starts_for_each_pattern),
            byte_classes: other.byte_classes.or(self.byte_classes),
            size_limit: other.size_limit.or(self.size_limit),
        }
    }
}

impl Default for Config {
    fn default() -> Config
        ensures { result ≡ nothing_set }
    {
        Config::new()
    }
}
