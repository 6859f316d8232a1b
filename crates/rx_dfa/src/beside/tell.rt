//! Which look-around is known to hold.
ghost use Rattle.std.specs.Prelude.{◌≡◌, ℕ};
ghost use Rattle.rx_search.specs.Look.{kind_of};
ghost use Rattle.rx_determinize.specs.Sight.{holds_along, holds_between as told_between};
ghost use Rattle.rx_dfa.specs.Beside.{known};

use crate::beside::Beside;
use rx_search::{Look, LookMatcher};

/// Between the byte that was read last and the one that is read next, where the text is read so.
pub fn along(reverse: bool, last: Option<u8>, next: Option<u8>) -> Beside
    ensures { (terminator : ℕ) → known terminator result ≡ holds_along terminator reverse last next }
{
    if reverse {
        return Beside::Known {
            before: next,
            after: last,
        };
    }
    Beside::Known {
        before: last,
        after: next,
    }
}

/// Whether the look-around is known to hold.
pub fn holds(beside: Beside, matcher: &LookMatcher, look: Look) -> bool
    ensures { result ≡ known matcher.now beside (kind_of look) }
{
    match beside {
        Beside::Unknown => false,
        Beside::Known { before, after } => holds_between(matcher, before, after, look),
    }
}

/// Whether the look-around holds between these bytes.
fn holds_between(matcher: &LookMatcher, before: Option<u8>, after: Option<u8>, look: Look) -> bool
    ensures { result ≡ told_between matcher.now before after (kind_of look) }
{
    match (before, after) {
        (None, None) => matcher.matches(look, &[], 0),
        (Some(before), None) => matcher.matches(look, &[before], 1),
        (None, Some(after)) => matcher.matches(look, &[after], 0),
        (Some(before), Some(after)) => matcher.matches(look, &[before, after], 1),
    }
}
