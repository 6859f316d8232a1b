//! The slots of a match that is known by its span.
ghost use Rattle.std.specs.Prelude.{◌≡◌, ℕ, ◌<◌, ◌≤◌, length, None, slice_index_or, IfSome};
ghost use Rattle.rx_pre.specs.Found.{slot_in};

use rx_search::{Match, NonMaxUsize};

/// Leaves where the match starts in the first slot, where it ends in the second one, and None in all others.
pub(crate) fn leave_span(found: &Option<Match>, slots: &mut [Option<NonMaxUsize>])
    requires { IfSome found.now (λ m. m.end < usize.MAX) }
    ensures left { (k : ℕ) → k < length slots.new → slice_index_or slots.new k None ≡ slot_in found.now k }
    ensures len { length slots.new ≡ length slots.old }
{
    for k in 0..slots.len() {
        slots[k] = place_in(found, k);
    }
}

/// The place that the match leaves in this slot.
fn place_in(found: &Option<Match>, slot: usize) -> Option<NonMaxUsize>
    requires { IfSome found.now (λ m. m.end < usize.MAX) }
    ensures { result ≡ slot_in found.now slot }
{
    let Some(found) = found else {
        return None;
    };
    match slot {
        0 => NonMaxUsize::new(found.start()),
        1 => NonMaxUsize::new(found.end()),
        _ => None,
    }
}
