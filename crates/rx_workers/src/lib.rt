//! Work that threads draw: each works at the numbers that it draws, with a value that it borrows, and no number is left out.
//! Its contract: there is exactly one right answer for each number, in order, or there was no memory. It stands on rx_slots
//! for the draws and for the slots of what is borrowed, and on std's threads.
#![tactic(auto)]

mod answers;
mod crew;
mod found;
mod place;
mod task;
mod worker;

pub use crew::do_all;
pub use task::Task;
