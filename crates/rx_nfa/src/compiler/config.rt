//! How NFAs are built.
ghost use Rattle.std.specs.Prelude.{◌≡◌, Some};
ghost use Rattle.rx_nfa.specs.Config.{utf8_of, reverse_of, size_limit_of, which_of, terminator_of, overwritten, nothing_set};

use rx_search::LookMatcher;

/// Which groups of a match are told. The slots of the others stay empty.
#[derive(Clone, Copy, Debug, PartialEq, Eq)]
pub enum WhichCaptures {
    /// The whole match, and each group that a pattern names.
    All,
    /// The whole match alone.
    Implicit,
    /// None.
    None,
}

// Contracts see what is left open (DECISIONS: a configuration's fields are optional).
/// How NFAs are built. What is not set is as by default, or as in the configuration that this one is put over.
#[derive(Clone, Copy)]
pub struct Config {
    utf8: Option<bool>,
    reverse: Option<bool>,
    nfa_size_limit: Option<Option<usize>>,
    which_captures: Option<WhichCaptures>,
    look_matcher: Option<LookMatcher>,
}

impl Config {
    /// With nothing set.
    pub fn new() -> Config
        ensures { result ≡ nothing_set }
    {
        Config {
            utf8: None,
            reverse: None,
            nfa_size_limit: None,
            which_captures: None,
            look_matcher: None,
        }
    }

    /// Whether no match is to start inside an encoded character. By default it is so.
    pub fn utf8(mut self, yes: bool) -> Config
        ensures { result ≡ record self { utf8 = Some yes } }
    {
        self.utf8 = Some(yes);
        self
    }

    /// Whether the NFA is to read texts backwards. By default it isn't. A backward NFA writes no slots, whatever groups
    /// are told: it tells where the matches that end at a place start.
    pub fn reverse(mut self, yes: bool) -> Config
        ensures { result ≡ record self { reverse = Some yes } }
    {
        self.reverse = Some(yes);
        self
    }

    /// Lets an NFA have at most so many bytes, by what is accounted for the patterns. None, as by default: there is
    /// no limit.
    pub fn nfa_size_limit(mut self, limit: Option<usize>) -> Config
        ensures { result ≡ record self { nfa_size_limit = Some limit } }
    {
        self.nfa_size_limit = Some(limit);
        self
    }

    /// Which groups of a match are told. By default all are.
    pub fn which_captures(mut self, which: WhichCaptures) -> Config
        ensures { result ≡ record self { which_captures = Some which } }
    {
        self.which_captures = Some(which);
        self
    }

    /// Tells where look-arounds hold. By default lines end at `\n`.
    pub fn look_matcher(mut self, matcher: LookMatcher) -> Config
        ensures { result ≡ record self { look_matcher = Some matcher } }
    {
        self.look_matcher = Some(matcher);
        self
    }

    /// Whether no match is to start inside an encoded character.
    pub fn get_utf8(&self) -> bool
        ensures { result ≡ utf8_of self.now }
    {
        self.utf8.unwrap_or(true)
    }

    /// Whether the NFA is to read texts backwards.
    pub fn get_reverse(&self) -> bool
        ensures { result ≡ reverse_of self.now }
    {
        self.reverse.unwrap_or(false)
    }

    /// The most bytes that an NFA may have, if there is a limit.
    pub fn get_nfa_size_limit(&self) -> Option<usize>
        ensures { result ≡ size_limit_of self.now }
    {
        self.nfa_size_limit.unwrap_or(None)
    }

    /// Which groups of a match are told.
    pub fn get_which_captures(&self) -> WhichCaptures
        ensures { result ≡ which_of self.now }
    {
        self.which_captures.unwrap_or(WhichCaptures::All)
    }

    /// Tells where look-arounds hold.
    pub fn get_look_matcher(&self) -> LookMatcher
        ensures { result ≡ terminator_of self.now }
    {
        match self.look_matcher {
            Some(matcher) => matcher,
            None => LookMatcher::new(),
        }
    }

    /// This configuration, with what the other one sets in place of its own.
    pub(crate) fn overwrite(&self, other: Config) -> Config
        ensures { result ≡ overwritten self.now other }
    {
        Config {
            utf8: other.utf8.or(self.utf8),
            reverse: other.reverse.or(self.reverse),
            nfa_size_limit: other.nfa_size_limit.or(self.nfa_size_limit),
            which_captures: other.which_captures.or(self.which_captures),
            look_matcher: other.look_matcher.or(self.look_matcher),
        }
    }
}
