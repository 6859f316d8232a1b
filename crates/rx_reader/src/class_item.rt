//! What may stand between the brackets of a class.
ghost use Rattle.std.specs.Prelude.{◌≡◌, IfOk};

use crate::piece::Piece;
use crate::text::Text;
use rx_sets::{ClassAsciiKind, ClassPerlKind};
use std::alloc::{AllocError, Global};
use std::marker::Model;

/// A character in a class.
#[derive(Clone, Copy, Debug, PartialEq, Eq)]
pub struct ClassCharacter {
    pub character: char,
    /// It is written as `\x` with two digits, and so stands for a byte where the flag `u` is off.
    pub is_hex_byte: bool,
}

/// An item of a class in brackets.
#[derive(Drop)]
pub enum ClassItem {
    /// From one character to another, or a single one.
    Range {
        low: ClassCharacter,
        high: ClassCharacter,
    },
    /// `\d`, `\s` or `\w`, or with a capital, where it is negated.
    Perl {
        kind: ClassPerlKind,
        negated: bool,
    },
    /// `[:name:]`, or `[:^name:]` where it is negated.
    Posix {
        kind: ClassAsciiKind,
        negated: bool,
    },
    /// `\pX` or `\p{name}`; `\P` and a `^` before the name each negate it.
    Property {
        negated: bool,
        piece: Piece,
        name: Text,
    },
}

/// So many items at most are moved into a list of their number.
const FEW: usize = 64;

/// The items of a class in brackets, which a contract sees as their list. They lie apart, so that an atom stays small.
#[derive(Drop)]
pub struct ClassItems {
    items: Box<Vec<ClassItem>>,
}

impl Model for ClassItems {
    ghost use Rattle.std.specs.Prelude.{List};
    ghost use Rattle.rx_reader.specs.declared.class_item.ClassItem.{ClassItem};

    ghost Value = { List ClassItem };

    ghost view = { λ c. c.items.value.items };
}

impl ClassItems {
    pub(crate) fn new(alloc: Global, items: Vec<ClassItem>) -> Result<ClassItems, AllocError>
        ensures { IfOk result (λ c. c ≡ items.items) }
    {
        let items = fitted(alloc, items)?;
        Ok(ClassItems {
            items: Box::new(alloc, items)?,
        })
    }

    /// The items.
    pub fn as_slice(&self) -> &[ClassItem]
        ensures { result.now ≡ self.now }
    {
        self.items.as_slice()
    }
}

/// The same items, in a list of their number.
fn fitted(alloc: Global, items: Vec<ClassItem>) -> Result<Vec<ClassItem>, AllocError>
    ensures { IfOk result (λ v. v.items ≡ items.items) }
{
    let mut items = items;
    if FEW < items.len() {
        items.shrink_to_fit();
        return Ok(items);
    }
    // Moved, and not shrunk (DECISIONS: a few items of a class are moved into a list of their number).
    let mut own = Vec::with_capacity(alloc, items.len())?;
    own.append(&mut items)?;
    Ok(own)
}
