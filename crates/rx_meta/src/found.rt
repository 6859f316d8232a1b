//! The part of a match that a search tells.
ghost use Rattle.std.specs.Prelude.{◌≡◌, option_map};

use rx_search::{Match, PatternID};

/// The pattern of the match.
pub(crate) fn pattern(found: &Option<Match>) -> Option<PatternID>
    ensures { result ≡ option_map (λ m. m.pattern) found.now }
{
    match found {
        Some(found) => Some(found.pattern()),
        None => None,
    }
}
