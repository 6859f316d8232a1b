//! The reader of patterns: `read` answers exactly what the grammar's definition says of a pattern under a
//! configuration, the syntax tree or the first refusal with its kind and piece.
//!
//! A contract sees the tree as a `Syntax`, and a text in it as the list of its characters. Laws say how the groups
//! of a pattern are numbered and named, and that an escaped text reads as itself. It stands on rx_memory and rx_sets.
#![tactic(auto)]

mod assertion;
mod ast;
mod atom;
mod class;
mod class_item;
mod config;
mod cursor;
mod directive;
mod error;
mod escape;
mod flags;
mod group_kind;
mod laws;
mod level;
mod name;
mod names;
mod opening;
mod operator;
mod parser;
mod piece;
mod text;
mod token;

pub use assertion::AssertionKind;
pub use ast::{Ast, AstKind, Item};
pub use atom::Atom;
pub use class_item::{ClassCharacter, ClassItem, ClassItems};
pub use config::Config;
pub use error::{ParseError, SyntaxError, SyntaxErrorKind};
pub use flags::Flags;
pub use group_kind::GroupKind;
pub use laws::{
    each_character_of_a_pattern_is_a_scalar, escaped_text_reads_as_its_characters,
    groups_are_numbered_and_named_apart, printed_text_reads_back,
};
pub use parser::read;
pub use piece::Piece;
pub use rx_sets::{ClassAsciiKind, ClassPerlKind};
pub use text::Text;
