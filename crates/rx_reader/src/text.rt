//! Texts in a pattern.
ghost use Rattle.std.specs.Prelude.{◌≡◌, ◌∷◌, [], IfOk};

use std::alloc::{AllocError, Global};
use std::marker::Model;
use std::slice;

// A node stays small (DECISIONS: a text and the items of a class lie apart from their node).
/// Where the characters of a text are kept.
#[derive(Drop)]
enum Characters {
    /// One alone, in place.
    One(char),
    /// Any number, apart.
    Many(Box<Vec<char>>),
}

/// Characters in a row, which a contract sees as their list. A single one takes no memory of its own, and more lie
/// apart, so that what holds a text stays small.
#[derive(Drop)]
pub struct Text {
    chars: Characters,
}

impl Model for Text {
    ghost use Rattle.std.specs.Prelude.{List, ℕ};
    ghost use Rattle.rx_reader.specs.Texts.{characters};

    ghost Value = { List ℕ };

    ghost view = { λ t. characters t.chars };
}

impl Text {
    /// Of one character.
    pub(crate) fn one(c: char) -> Text
        ensures { result ≡ c ∷ [] }
    {
        Text {
            chars: Characters::One(c),
        }
    }

    pub(crate) fn new(alloc: Global, chars: Vec<char>) -> Result<Text, AllocError>
        ensures { IfOk result (λ text. text ≡ chars.items) }
    {
        Ok(Text {
            chars: Characters::Many(Box::new(alloc, chars)?),
        })
    }

    /// The characters.
    pub fn as_slice(&self) -> &[char]
        ensures { result.now ≡ self.now }
    {
        match &self.chars {
            Characters::One(c) => slice::from_ref(c),
            Characters::Many(chars) => chars.as_slice(),
        }
    }
}
