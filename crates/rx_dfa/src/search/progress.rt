//! What a search met so far.
ghost use Rattle.std.specs.Prelude.{◌≡◌, ◌&&◌, true, is_some};
ghost use Rattle.rx_determinize.specs.Permitted.{fresh, recorded};

use rx_search::{HalfMatch, PatternID};
use std::marker::Model;

/// What a search met so far.
#[derive(Clone, Copy)]
pub(crate) struct Met {
    /// The last match that does not end inside a character.
    pub(crate) best: Option<HalfMatch>,
    /// The first place inside a character at which a match ended.
    pub(crate) refused: Option<usize>,
}

impl Model for Met {
    ghost use Rattle.rx_determinize.specs.Permitted.{Progress};

    ghost Value = { Progress };

    ghost view = { λ m. record { best = m.best; refused = m.refused } };

    ghost inverse = { λ r. record { best = r.best; refused = r.refused } };
}

impl Met {
    /// Nothing yet.
    pub(crate) fn new() -> Met
        ensures { result ≡ fresh }
    {
        Met {
            best: None,
            refused: None,
        }
    }

    /// With a match of the pattern that ends at the place, at which a match may end or not.
    pub(crate) fn with_match(self, may: bool, pattern: PatternID, place: usize) -> Met
        ensures { result ≡ recorded may pattern place self }
    {
        if may {
            return Met {
                best: Some(HalfMatch::new(pattern, place)),
                refused: self.refused,
            };
        }
        match self.refused {
            Some(_) => self,
            None => Met {
                best: self.best,
                refused: Some(place),
            },
        }
    }

    /// Whether the search may stop at the first match, and there is one.
    pub(crate) fn is_enough(self, earliest: bool) -> bool
        ensures { result ≡ (earliest && is_some self.best) }
    {
        earliest && self.best.is_some()
    }

    /// Whether nothing was met.
    pub(crate) fn is_nothing(self) -> bool
        ensures { result ≡ true → self ≡ fresh }
    {
        if self.best.is_some() {
            return false;
        }
        self.refused.is_none()
    }
}
