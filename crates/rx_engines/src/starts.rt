//! Where a search may start.
ghost use Rattle.std.specs.Prelude.{◌≡◌, ◌≤◌, ◌↔◌, length, IsTrue};
ghost use Rattle.rx_model.specs.Matches.{IsSought};
ghost use Rattle.rx_model.specs.Search.{is_permitted};
ghost use Rattle.rx_search.specs.Anchored.{anchor_of};
ghost use Rattle.rx_nfa.specs.Nfa.{IsInRange};
ghost use Rattle.rx_nfa.specs.NextMatch.{start_of};
ghost use Rattle.rx_engines.specs.Engine.{last_start};

use rx_nfa::NFA;
use rx_search::{Anchored, Input, PatternID, StateID, is_character_boundary};

/// Where the runs start, if the pattern that is asked for is there.
pub fn start_state(nfa: &NFA, anchored: Anchored) -> Option<StateID>
    ensures value { result ≡ start_of nfa.now (anchor_of anchored) }
    ensures in_range { IsInRange nfa.now }
{
    match anchored {
        Anchored::No | Anchored::Yes => Some(nfa.start_anchored()),
        Anchored::Pattern(pattern) => nfa.start_pattern(pattern),
    }
}

/// The place at which a match may start at the latest.
pub fn latest_start(input: &Input<'_>) -> usize
    requires { input.now.start ≤ input.now.end }
    ensures value { result ≡ last_start input.now }
    ensures within { (input.now.start ≤ result) × (result ≤ input.now.end) }
{
    if input.get_anchored().is_anchored() {
        input.start()
    } else {
        input.end()
    }
}

/// A match may begin here.
pub fn is_allowed(text: &[u8], utf8: bool, place: usize) -> bool
    requires { place ≤ length text.now }
    ensures { result ≡ is_permitted utf8 text.now place }
{
    !utf8 || is_character_boundary(text, place)
}

/// The search looks for the pattern.
pub fn is_sought(anchored: Anchored, pattern: PatternID) -> bool
    ensures { IsTrue result ↔ IsSought (anchor_of anchored) pattern }
{
    match anchored {
        Anchored::No | Anchored::Yes => true,
        Anchored::Pattern(only) => only.as_usize() == pattern.as_usize(),
    }
}
