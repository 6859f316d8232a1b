//! Answers as plain numbers.

use rx_search::{Match, NonMaxUsize};

/// The pattern, the start and the end of a match.
pub fn whole(found: Option<Match>) -> Option<(usize, usize, usize)> {
    match found {
        Some(found) => Some((found.pattern().as_usize(), found.start(), found.end())),
        None => None,
    }
}

/// The place that a slot holds.
pub fn place(slots: &[Option<NonMaxUsize>], slot: usize) -> Option<usize> {
    match slots.get(slot) {
        Some(Some(place)) => Some(place.get()),
        _ => None,
    }
}
