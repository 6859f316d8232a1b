//! From the bytes of an input to the rows of its matches.
//!
//! `run` reads patterns and haystacks from a `Source`, and writes a row for each match into a `Sink`.
//! Its contract says what the sink then holds, for all words and every input. `scan` gives the rows of a regex's matches
//! as data. `gen` searches haystacks that a number gives, and tells in four numbers what it found.
#![tactic(auto)]

mod answer;
mod arguments;
mod counted;
mod ends;
mod generate;
mod haystacks;
mod input;
mod lines;
mod newlines;
mod outcome;
mod output;
mod program;
mod row;
mod size;
mod status;

pub use ends::{
    Bytes, BytesSure, Failed, Kept, KeptSure, Sink, Source, StandardInput, StandardOutput,
};
pub use haystacks::{ScanError, scan};
pub use program::run;
pub use row::{Row, Slots};
