//! How long an attempt goes on while its candidates lie close together and none is confirmed.
ghost use Rattle.std.specs.Prelude.{◌≡◌, ◌+◌, ◌-◌, min, true};
ghost use Rattle.rx_attempts.specs.Stops.{IsShort, is_lost};

use rx_limited::RetryError;

/// Whether an attempt goes on however close together its candidates lie.
#[derive(Clone, Copy, Debug, PartialEq, Eq)]
pub enum Patience {
    /// It goes on to the end of the span.
    Endless,
    /// It stops where candidates lie so close together that a search without them takes less time.
    Short,
}

/// Why an attempt stopped without an answer.
#[derive(Clone, Copy, Debug, PartialEq, Eq)]
pub enum Stop {
    /// Another search is to be tried, for this reason.
    Retry(RetryError),
    /// Candidates lie close together and none was confirmed: a search without them takes less time. Only a short patience is lost.
    Dense,
}

/// What one candidate takes of the patience, in bytes: about as many as a search without candidates reads in that time.
const COST: usize = 48;

/// The patience with which an attempt begins: two candidates do not use it up, wherever they lie.
pub(crate) const FIRST: usize = 2 * COST + 1;

/// The most patience that it has, however many bytes it passed.
const MOST: usize = 384;

/// What is left of the patience at a candidate that lies so many bytes behind the place from which it was searched for: these are won, and
/// the candidate takes its part.
pub(crate) fn left_after(left: usize, passed: usize) -> usize
    ensures { result ≡ min 384 (left + passed) - 48 }
{
    left.saturating_add(passed).min(MOST).saturating_sub(COST)
}

/// Whether the patience is lost, where so much is left.
pub(crate) fn is_lost(patience: Patience, left: usize) -> bool
    ensures value { result ≡ is_lost patience left }
    ensures short { result ≡ true → IsShort patience }
{
    match patience {
        Patience::Endless => false,
        Patience::Short => left == 0,
    }
}
