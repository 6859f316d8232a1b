//! The part of a match that a search tells.
ghost use Rattle.std.specs.Prelude.{◌≡◌, option_map};
ghost use Rattle.rx_search.specs.Answer.{half_of};

use rx_search::{HalfMatch, Match};

/// The pattern and the end of the match.
pub(crate) fn half_match(found: Option<Match>) -> Option<HalfMatch>
    ensures { result ≡ option_map half_of found }
{
    match found {
        Some(found) => Some(HalfMatch::new(found.pattern(), found.end())),
        None => None,
    }
}
