//! A large input from a number, and the line that tells in four numbers what was found in it; and numbers in decimal, read and
//! written. It knows no regex: rx_scan searches the haystacks and hands in what it found in each. It stands on rx_memory for the
//! error of want of memory, and on itoa for the digits.
#![tactic(auto)]

mod generator;
mod number;
mod totals;

pub use generator::haystacks;
pub use number::{number_up_to, push_number};
pub use totals::{Counts, Totals, push_totals, totals_of};
