//! Searches from one occurrence of a literal to the next: a search of a span for a literal in each match, or at its end, that
//! goes backwards from where one lies. It stands on rx_order and rx_limited.
//!
//! A candidate is a place where the literal lies; it is confirmed where what is read backwards from there leads to the start of a
//! match. Where no match starts earlier than the first confirmed candidate's, as rx_order has it, an attempt that answers answers
//! the next match. An attempt that would read bytes again and again gives up, and tells what it met, so that its steps are linear
//! in the span. One of short patience stops also where candidates lie close together and none is confirmed.
#![tactic(auto)]

mod inner;
mod parts;
mod patience;
mod suffix;

pub use inner::reverse_inner_attempt;
pub use patience::{Patience, Stop};
pub use suffix::reverse_suffix_attempt;
