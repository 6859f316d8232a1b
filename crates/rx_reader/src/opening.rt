//! What an opening parenthesis begins.
ghost use Rattle.std.specs.Prelude.{◌≡◌, ◌<◌, if◌then◌else◌, OnOk};
ghost use Rattle.rx_reader.specs.declared.opening.Opening.TheVariants.{Group, Directive};
ghost use Rattle.rx_reader.specs.declared.group_kind.GroupKind.TheVariants.{NonCapturing};
ghost use Rattle.rx_reader.specs.Ahead.{past_n};
ghost use Rattle.rx_reader.specs.Input.{place, unread, Reads, HasRoom};
ghost use Rattle.rx_reader.specs.Openings.{is_look_ahead, is_look_behind, is_reference, named, flagged, opening};

use crate::cursor::Cursor;
use crate::directive::read_flags;
use crate::error::{ParseError, SyntaxErrorKind};
use crate::flags::Flags;
use crate::group_kind::GroupKind;
use crate::name::read_name;

/// What an opening parenthesis begins.
#[derive(Drop)]
pub(crate) enum Opening {
    /// A group, with the flags in its body.
    Group { kind: GroupKind, flags: Flags },
    /// Flags up to the end of the group around.
    Directive(Flags),
}

/// Whether `(?=` or `(?!` stands at the position.
fn is_look_ahead(cursor: &Cursor) -> bool
    ensures { result ≡ is_look_ahead (place cursor.now) }
{
    cursor.begins(&['(', '?', '=']) || cursor.begins(&['(', '?', '!'])
}

/// Whether `(?<=` or `(?<!` stands at the position.
fn is_look_behind(cursor: &Cursor) -> bool
    ensures { result ≡ is_look_behind (place cursor.now) }
{
    cursor.begins(&['(', '?', '<', '=']) || cursor.begins(&['(', '?', '<', '!'])
}

/// Whether `(?P=` or `(?P>` stands at the position.
fn is_reference(cursor: &Cursor) -> bool
    ensures { result ≡ is_reference (place cursor.now) }
{
    cursor.begins(&['(', '?', 'P', '=']) || cursor.begins(&['(', '?', 'P', '>'])
}

/// Refuses the token of so many characters at the position.
fn unsupported(cursor: &mut Cursor, count: usize) -> ParseError
    ensures value { result ≡ ParseError.Syntax (record {
      kind = SyntaxErrorKind.Unsupported;
      start = (place cursor.old).at;
      end = (past_n count (place cursor.old)).at;
    }) }
    ensures kept { HasRoom cursor.old → HasRoom cursor.new }
{
    let start = cursor.at();
    cursor.bump_by(count);
    cursor.refuse_from(start, SyntaxErrorKind::Unsupported)
}

/// Reads the name of a group, of which so many characters are read before.
fn named(cursor: &mut Cursor, flags: Flags, count: usize) -> Result<Opening, ParseError>
    requires some { 0 < count }
    requires more { 0 < unread cursor.old }
    ensures value { Reads result (named flags (past_n count (place cursor.old))) (place cursor.new) }
    ensures progress { OnOk result (unread cursor.new < unread cursor.old) }
{
    cursor.bump_by(count);
    let name = read_name(cursor)?;
    let index = cursor.count_group();
    Ok(Opening::Group {
        kind: GroupKind::CaptureName { index, name },
        flags,
    })
}

/// Reads the flags of a group that doesn't capture, or those of a directive.
fn flagged(cursor: &mut Cursor, flags: Flags) -> Result<Opening, ParseError>
    ensures value { Reads result (flagged flags (place cursor.old)) (place cursor.new) }
    ensures progress { OnOk result (unread cursor.new < unread cursor.old) }
{
    let opening = cursor.here();
    cursor.bump_by(2);
    let flags = read_flags(cursor, opening, flags)?;
    let is_group = cursor.is_at(&[':']);
    cursor.bump();
    Ok(opening_of(is_group, flags))
}

/// A group that doesn't capture, or a directive.
fn opening_of(is_group: bool, flags: Flags) -> Opening
    ensures { result ≡ (if is_group then Group NonCapturing flags else Directive flags) }
{
    if is_group {
        Opening::Group {
            kind: GroupKind::NonCapturing,
            flags,
        }
    } else {
        Opening::Directive(flags)
    }
}

/// Reads what the parenthesis at the position begins: a group, with its kind and the flags in its body, or a
/// directive.
pub(crate) fn read_opening(cursor: &mut Cursor, flags: Flags) -> Result<Opening, ParseError>
    requires { 0 < unread cursor.old }
    ensures value { Reads result (opening flags (place cursor.old)) (place cursor.new) }
    ensures progress { OnOk result (unread cursor.new < unread cursor.old) }
{
    if is_look_ahead(cursor) {
        return Err(unsupported(cursor, 3));
    }
    if is_look_behind(cursor) {
        return Err(unsupported(cursor, 4));
    }
    if is_reference(cursor) {
        return Err(unsupported(cursor, 4));
    }
    if cursor.begins(&['(', '?', 'P', '<']) {
        return named(cursor, flags, 4);
    }
    if cursor.begins(&['(', '?', '<']) {
        return named(cursor, flags, 3);
    }
    if cursor.begins(&['(', '?']) {
        return flagged(cursor, flags);
    }
    cursor.bump();
    let index = cursor.count_group();
    Ok(Opening::Group {
        kind: GroupKind::CaptureIndex(index),
        flags,
    })
}
