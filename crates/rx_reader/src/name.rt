//! The name of a group.
ghost use Rattle.std.specs.Prelude.{◌≡◌, ◌≤◌, ◌<◌, chars, IfOk, OnOk};
ghost use Rattle.rx_reader.specs.Input.{place, unread, Reads, HasRoom};
ghost use Rattle.rx_reader.specs.Names.{name_of, read_name};

use crate::cursor::Cursor;
use crate::error::{ParseError, SyntaxErrorKind};
use crate::text::Text;
use rx_sets::is_capture_char;
use std::alloc::{AllocError, Global};

/// The longest name in front.
fn name_of(alloc: Global, text: &str) -> Result<Vec<char>, AllocError>
    ensures { IfOk result (λ name. name.items ≡ name_of (chars text.now)) }
{
    let mut name = Vec::new(alloc);
    for c in text.chars() {
        if !is_capture_char(c, name.is_empty()) {
            return Ok(name);
        }
        name.push(c)?;
    }
    Ok(name)
}

/// Reads a name, which no group before has, and the `>` after it.
pub(crate) fn read_name(cursor: &mut Cursor) -> Result<Text, ParseError>
    ensures value { Reads result (read_name (place cursor.old)) (place cursor.new) }
    ensures progress { OnOk result (unread cursor.new < unread cursor.old) }
    ensures kept { HasRoom cursor.old → HasRoom cursor.new }
{
    let start = cursor.at();
    let name = name_of(cursor.alloc(), cursor.rest())?;
    let count = name.len();
    cursor.bump_by(count);
    // The piece ends before what fits no name (DECISIONS: the piece of a group's name that is refused).
    if count == 0 || !cursor.is_at(&['>']) {
        // By a call (DECISIONS: large values are let go by name).
        drop(name);
        return Err(cursor.refuse_from(start, SyntaxErrorKind::GroupName));
    }
    let piece = cursor.piece_from(start);
    cursor.bump();
    match cursor.add_name(&name) {
        Ok(true) => Ok(Text::new(cursor.alloc(), name)?),
        Ok(false) => {
            drop(name);
            Err(piece.refuse(SyntaxErrorKind::GroupNameTwice))
        }
        Err(_) => {
            drop(name);
            Err(ParseError::Memory)
        }
    }
}
