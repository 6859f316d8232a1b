//! The span of a match in the slots of its pattern.
ghost use Rattle.std.specs.Prelude.{◌≡◌, ℕ, ◌<◌, ◌≤◌, length, None, Some, replicate, slice_set, slice_index_or, IfSome, IfNone};
ghost use Rattle.rx_strategy.specs.Span.{span_slot};

use rx_engines::empty;
use rx_search::{Match, NonMaxUsize};

/// Leaves where the match starts and where it ends in the two slots of its pattern, and None in all others.
pub(crate) fn leave_span(found: &Option<Match>, slots: &mut [Option<NonMaxUsize>])
    requires { IfSome found.now (λ m. m.end < usize.MAX) }
    ensures left { (k : ℕ) → k < length slots.new → slice_index_or slots.new k None ≡ span_slot found.now k }
    ensures none { IfNone found.now (slots.new ≡ replicate (length slots.old) None) }
    ensures ordered { IfSome found.now (λ m. m.start ≤ m.end) }
    ensures len { length slots.new ≡ length slots.old }
{
    empty(slots);
    let Some(found) = found else {
        return;
    };
    let first = 2 * found.pattern().as_usize();
    write(slots, first, found.start());
    write(slots, first + 1, found.end());
}

/// Leaves the place in the slot, if there is such a slot.
fn write(slots: &mut [Option<NonMaxUsize>], slot: usize, place: usize)
    requires { place < usize.MAX }
    ensures { slots.new ≡ slice_set slots.old slot (Some place) }
{
    if slot < slots.len() {
        slots[slot] = NonMaxUsize::new(place);
    }
}
