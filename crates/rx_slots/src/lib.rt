//! What many threads share without a lock: slots that they exchange values through, and numbers that each is drawn once. It
//! stands on the kit's `atomic_table`, whose rules are kept by every step in every schedule, and on rx_memory for the error of
//! want of memory.
//!
//! Each thread makes its calls with a seat of its own. What a seat knows, its view, exists in proofs alone, and the rule says
//! what all views have to do with what is shared.
#![tactic(auto)]

mod draws;
mod laws;
mod slot_pool;
mod threads;

pub use draws::{DrawSeat, Draws};
pub use laws::{a_number_is_drawn_once, a_slot_is_in_one_hand_at_most};
pub use slot_pool::{SlotPool, SlotSeat};
