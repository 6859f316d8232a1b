//! The words of a search: identifiers, spans, inputs, matches and groups. It stands on rx_model, and takes word
//! characters from `unicode`, the reading of UTF-8 from `bstr` and the texts of one error from `thiserror`.
//!
//! `PatternID`, `StateID` and `NonMaxUsize` are numbers with a limit; `Memory` is that of rx_memory. An `Input` is what a
//! search is given, and contracts see it as a record. A `Match` is what a search answers. A `Searcher` asks a `Finder` for
//! one match after another, and what it gives is the list of successive matches. A `GroupInfo` has the capturing groups of
//! patterns, with their names and slots, and contracts see it as the list of names of each pattern's groups. A `MatchError`
//! says why a search gives no answer. A `LookMatcher` tells where look-arounds hold. `ByteClasses` has the class of each byte.
//! `Captures` and a `PatternSet` are what searches fill, and `Steps` counts what an engine does.
#![tactic(auto)]

mod anchored;
mod byte_classes;
mod captures;
mod gate;
mod group_check;
mod group_error;
mod group_info;
mod input;
mod look;
mod look_matcher;
mod look_set;
mod match_error;
mod matches;
mod pattern_set;
mod primitives;
mod searcher;
mod span;
mod steps;

pub use anchored::{Anchored, MatchKind};
pub use byte_classes::{ByteClassSet, ByteClasses};
pub use captures::{Captures, CapturesPatternIter};
pub use gate::{Gate, Open};
pub use group_error::GroupInfoError;
pub use group_info::{GroupInfo, slots_are_written};
pub use input::{Input, is_character_boundary};
pub use look::Look;
pub use look_matcher::LookMatcher;
pub use look_set::{LookSet, LookSetIter};
pub use match_error::MatchError;
pub use matches::{HalfMatch, Match};
pub use pattern_set::{PatternSet, PatternSetIter};
pub use primitives::{NonMaxUsize, PatternID, StateID};
pub use rx_memory::Memory;
pub use searcher::{
    Finder, Searcher, searches_give_the_matches, the_next_match_answers_within_its_span,
};
pub use span::Span;
pub use steps::Steps;
