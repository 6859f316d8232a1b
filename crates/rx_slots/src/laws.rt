//! Laws of the two rules: what they say of two seats, and of all.
ghost use Rattle.std.specs.Prelude.{◌≡◌, ℕ, ◌<◌, ◌≤◌, ◌%◌, length, slice_index, Option, Some};
ghost use lib.ListN.{get_elem?};
ghost use mathlib.Core.Option.{some};
ghost use Rattle.std.specs.List.{sum_by};
ghost use Rattle.atomic_table.specs.Table.{State};
ghost use Rattle.rx_slots.specs.declared.draws.Bounds.{Bounds};
ghost use Rattle.rx_slots.specs.declared.draws.DrawView.{DrawView};
ghost use Rattle.rx_slots.specs.declared.slot_pool.SlotView.{SlotView};
ghost use Rattle.rx_slots.specs.Draws.{EachOnce, HasDrawn, IsDone, draws_of};
ghost use Rattle.rx_slots.specs.Slots.{HasSeen, Holds, Turns, moves_of};

/// A slot is in the hand of one seat at most, which has seen its turn; that turn is odd. Where no seat holds it, it is at
/// home with a value. Its turn is how often all seats took it and put it back, and no seat has seen a later one.
pub fn a_slot_is_in_one_hand_at_most<T>()
    ensures one { (s : State (Option T) SlotView) → Turns s → (k : ℕ) → k < length s.words
        → (i j a b : ℕ) → Holds s i k a → Holds s j k b → i ≡ j }
    ensures turn { (s : State (Option T) SlotView) → Turns s → (k : ℕ) → k < length s.words
        → (id turn : ℕ) → Holds s id k turn → (slice_index s.words k ≡ turn) × (turn % 2 ≡ 1) × HasSeen s id k turn }
    ensures home { (s : State (Option T) SlotView) → Turns s → (k : ℕ) → k < length s.words
        → ((id turn : ℕ) → Holds s id k turn → ⊥) → (x : T) × (get_elem? s.homes k ≡ some (some (Some x))) }
    ensures moves { (s : State (Option T) SlotView) → Turns s → (k : ℕ) → k < length s.words
        → sum_by (moves_of k) s.views ≡ slice_index s.words k }
    ensures seen { (s : State (Option T) SlotView) → Turns s → (k : ℕ)
        → (id turn : ℕ) → HasSeen s id k turn → turn ≤ slice_index s.words k }
{}

/// Each number that was drawn is below the limit, and one seat drew it, once. Where a seat found none left, each number
/// below the limit was drawn.
pub fn a_number_is_drawn_once()
    ensures one { (b : Bounds) (s : State (Unit {0}) DrawView) → EachOnce b s
        → (n i j : ℕ) → HasDrawn s i n → HasDrawn s j n → i ≡ j }
    ensures once { (b : Bounds) (s : State (Unit {0}) DrawView) → EachOnce b s
        → (n id : ℕ) (v : DrawView) → get_elem? s.views id ≡ some v → draws_of n v ≤ 1 }
    ensures below { (b : Bounds) (s : State (Unit {0}) DrawView) → EachOnce b s → (n id : ℕ) → HasDrawn s id n → n < b.limit }
    ensures all { (b : Bounds) (s : State (Unit {0}) DrawView) → EachOnce b s
        → (id : ℕ) → IsDone s id → (n : ℕ) → n < b.limit → (by : ℕ) × HasDrawn s by n }
{}
