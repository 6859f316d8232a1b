//! Where a match may begin, and which is reported.
ghost use Rattle.std.specs.Prelude.{◌≡◌};
ghost use Rattle.rx_model.specs.Search.{is_anchored};
ghost use Rattle.rx_search.specs.Anchored.{anchor_of, named_pattern};

use crate::primitives::PatternID;

/// Which of the matches that begin at one place is reported.
#[derive(Clone, Copy, Debug, PartialEq, Eq)]
pub enum MatchKind {
    /// Some match: which one is reported is not promised yet.
    All,
    /// The first in order of preference.
    LeftmostFirst,
}

/// Where a match may begin, and of which patterns.
#[derive(Clone, Copy, Debug, PartialEq, Eq)]
pub enum Anchored {
    /// Anywhere in the span, any pattern.
    No,
    /// Only where the span begins, any pattern.
    Yes,
    /// Only where the span begins, and only this pattern.
    Pattern(PatternID),
}

impl Anchored {
    /// Whether a match must begin where the span begins.
    pub fn is_anchored(&self) -> bool
        ensures { result ≡ is_anchored (anchor_of self.now) }
    {
        match self {
            Anchored::No => false,
            Anchored::Yes | Anchored::Pattern(_) => true,
        }
    }

    /// The pattern that is searched for alone, where there is such a one.
    pub fn pattern(&self) -> Option<PatternID>
        ensures { result ≡ named_pattern (anchor_of self.now) }
    {
        match self {
            Anchored::No | Anchored::Yes => None,
            Anchored::Pattern(pattern) => Some(*pattern),
        }
    }
}
