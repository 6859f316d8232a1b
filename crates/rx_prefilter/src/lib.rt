//! Prefilters: the least place at which one of several needles lies.
//!
//! A `Prefilter` is built of its needles, by the kind of search that suits them (`Choice`), and its contract names the
//! needles alone: `find` answers where the first needle of the list lies that begins at the least place of a part of a
//! text, `prefix` the same of the place where that part begins. It stands on rx_literal, and takes the searches for up
//! to three bytes and for one needle from `memchr`.
#![tactic(auto)]

mod aho_corasick;
mod byte_set;
mod bytes;
mod choice;
mod laws;
mod memmem;
mod multi;
mod needles;
mod prefilter;
mod prefixes;
mod threads;

pub use choice::Choice;
pub use laws::a_search_finds_the_first_span;
pub use prefilter::Prefilter;
