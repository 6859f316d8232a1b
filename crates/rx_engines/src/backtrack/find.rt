//! The search of the backtracker, start by start.
ghost use Rattle.std.specs.Prelude.{◌≡◌, ◌^◌, ℕ, ◌*◌, ◌<◌, ◌≤◌, length, None, IfSome, IfNone, option_map, replicate, slice_index_or};
ghost use Rattle.rx_model.specs.Search.{slot_value};
ghost use Rattle.rx_search.specs.Matches.{match_value};
ghost use Rattle.rx_engines.specs.Search.{IsInside, is_offered, next_of};
ghost use Rattle.rx_engines.specs.Backtrack.{extent, frames_of_span};

use crate::backtrack::attempt::attempt;
use crate::backtrack::visited::Visited;
use crate::search::Search;
use crate::slots::{Slot, clear};
use crate::stack::Stack;
use crate::starts::is_allowed;
use rx_search::{Match, Span};

/// The next match in the span. The slots get what it leaves in them.
pub fn find(
    search: &Search<'_>,
    visited: &mut Visited,
    stack: &mut Stack,
    slots: &mut [Slot],
) -> Option<Match>
    requires search { IsInside search.now }
    requires small { extent search.now < 2 ^ 63 }
    requires room { extent search.now ≤ 64 * length visited.old }
    requires frames { frames_of_span search.now ≤ stack.old.room }
    ensures value { result ≡ option_map match_value (next_of (is_offered search.now) search.now) }
    ensures slots { IfSome (next_of (is_offered search.now) search.now)
        (λ m. (k : ℕ) → k < length slots.new → slice_index_or slots.new k None ≡ slot_value m k) }
    ensures room { length visited.new ≡ length visited.old }
    ensures stack { stack.new.room ≡ stack.old.room }
    ensures width { length slots.new ≡ length slots.old }
{
    visited.clear();
    clear(slots);
    let mut place = search.first;
    while place <= search.last {
        let Some(start) = search.next_start(place) else {
            return None;
        };
        if search.last < start {
            return None;
        }
        if is_allowed(search.text, search.utf8, start) {
            if let Some(found) = attempt(search, start, visited, stack, slots) {
                let span = Span {
                    start,
                    end: found.offset(),
                };
                return Some(Match::new(found.pattern(), span));
            }
        }
        place = start + 1;
    }
    None
}
