//! Classes in brackets.
ghost use Rattle.std.specs.Prelude.{◌≡◌, ◌<◌, ◌≤◌, ◌++◌, true, OnOk, IsTrue, Some};
ghost use Rattle.rx_reader.specs.Reading.{Place, first};
ghost use Rattle.rx_reader.specs.Classes.{plain, item_of, escaped_member, posix_name, posix, is_set_operator, range_of, member, begins_range, class_range, item_at, class_item, all_class_items, class};
ghost use Rattle.rx_reader.specs.Input.{place, unread, Reads, ReadsAs, IsPieceAt};

use crate::atom::Atom;
use crate::class_item::{ClassCharacter, ClassItem, ClassItems};
use crate::cursor::Cursor;
use crate::error::{ParseError, SyntaxErrorKind};
use crate::escape::{Escaped, NameIn, escape, read_name};
use crate::piece::Piece;
use rx_sets::ClassAsciiKind;

/// What an item of a class begins with.
#[derive(Drop)]
pub(crate) enum ClassMember {
    /// A character, which may be an end of a range.
    One(ClassCharacter),
    /// An item that isn't one character.
    Many(ClassItem),
}

/// How classes are read: whether `\` with digits of base 8 is a character, and whether white space is skipped.
#[derive(Clone, Copy)]
pub(crate) struct ClassSyntax {
    pub(crate) octal: bool,
    pub(crate) skips: bool,
}

/// A character that stands for itself.
fn plain(c: char) -> ClassMember
    ensures { result ≡ plain c }
{
    ClassMember::One(ClassCharacter {
        character: c,
        is_hex_byte: false,
    })
}

/// A member as an item.
fn item_of(member: ClassMember) -> ClassItem
    ensures { result ≡ item_of member }
{
    match member {
        ClassMember::One(c) => ClassItem::Range { low: c, high: c },
        ClassMember::Many(item) => item,
    }
}

/// What an escape, from `start` to the position, stands for in a class.
fn escaped_member(
    cursor: &Cursor,
    start: usize,
    escaped: Escaped,
) -> Result<ClassMember, ParseError>
    ensures { (p : Place) → start ≡ p.at → Reads result (escaped_member p (escaped, place cursor.now)) (place cursor.now) }
{
    match escaped {
        Escaped::Character(c) => Ok(ClassMember::One(c)),
        Escaped::Perl { kind, negated } => Ok(ClassMember::Many(ClassItem::Perl { kind, negated })),
        Escaped::Property { name, negated } => Ok(ClassMember::Many(ClassItem::Property {
            negated,
            piece: cursor.piece_from(start),
            name,
        })),
        Escaped::Assertion(_) => Err(cursor.refuse_from(start, SyntaxErrorKind::Escape)),
    }
}

/// Reads `name:]`.
fn posix_name(cursor: &mut Cursor, bracket: Piece, negated: bool) -> Result<ClassItem, ParseError>
    ensures value { (from : Place) → IsPieceAt bracket from → Reads result (posix_name from negated (place cursor.old)) (place cursor.new) }
    ensures progress { OnOk result (unread cursor.new ≤ unread cursor.old) }
{
    let name = read_name(cursor, NameIn::Brackets)?;
    if !cursor.begins(&[':', ']']) {
        return Err(bracket.refuse(SyntaxErrorKind::Unsupported));
    }
    match ClassAsciiKind::from_name(&name) {
        Some(kind) => {
            cursor.bump_by(2);
            Ok(ClassItem::Posix { kind, negated })
        }
        None => Err(bracket.refuse(SyntaxErrorKind::Unsupported)),
    }
}

/// Reads `[:name:]` or `[:^name:]`.
fn posix(cursor: &mut Cursor) -> Result<ClassItem, ParseError>
    requires { 0 < unread cursor.old }
    ensures value { Reads result (posix (place cursor.old)) (place cursor.new) }
    ensures progress { OnOk result (unread cursor.new < unread cursor.old) }
{
    let bracket = cursor.here();
    if cursor.begins(&['[', ':', '^']) {
        cursor.bump_by(3);
        return posix_name(cursor, bracket, true);
    }
    if cursor.begins(&['[', ':']) {
        cursor.bump_by(2);
        return posix_name(cursor, bracket, false);
    }
    Err(bracket.refuse(SyntaxErrorKind::Unsupported))
}

fn is_set_operator(cursor: &Cursor) -> bool
    ensures { result ≡ is_set_operator (place cursor.now) }
{
    cursor.begins(&['&', '&']) || cursor.begins(&['-', '-']) || cursor.begins(&['~', '~'])
}

/// The range of two members, from `start` to the position.
fn range_of(
    cursor: &Cursor,
    start: usize,
    low: ClassMember,
    high: ClassMember,
) -> Result<ClassItem, ParseError>
    ensures { (from : Place) → start ≡ from.at → Reads result (range_of from low high (place cursor.now)) (place cursor.now) }
{
    if let ClassMember::One(low) = low {
        if let ClassMember::One(high) = high {
            if low.character <= high.character {
                return Ok(ClassItem::Range { low, high });
            }
        }
    }
    Err(cursor.refuse_from(start, SyntaxErrorKind::ClassRange))
}

/// Reads a member, which is there.
fn member(cursor: &mut Cursor, syntax: ClassSyntax) -> Result<ClassMember, ParseError>
    requires { 0 < unread cursor.old }
    ensures value { Reads result (member syntax.octal (place cursor.old)) (place cursor.new) }
    ensures progress { OnOk result (unread cursor.new < unread cursor.old) }
{
    let start = cursor.at();
    if cursor.is_at(&['\\']) {
        let escaped = escape(cursor, syntax.octal)?;
        return escaped_member(cursor, start, escaped);
    }
    if cursor.is_at(&['[']) {
        return Ok(ClassMember::Many(posix(cursor)?));
    }
    let c = cursor.first();
    cursor.bump();
    Ok(plain(c))
}

fn begins_range(cursor: &Cursor, skips: bool) -> bool
    ensures value { result ≡ begins_range skips (place cursor.now) }
    ensures more { IsTrue result → 0 < unread cursor.now }
{
    cursor.is_at(&['-']) && !cursor.is_before(']', skips)
}

/// Reads the rest of an item that begins with the member `low`, from `start` to the position.
fn class_range(
    cursor: &mut Cursor,
    syntax: ClassSyntax,
    opening: Piece,
    start: usize,
    low: ClassMember,
) -> Result<ClassItem, ParseError>
    ensures value { (from p : Place) → IsPieceAt opening from → start ≡ p.at
        → Reads result (class_range syntax.octal syntax.skips from p low (place cursor.old)) (place cursor.new) }
    ensures progress { OnOk result (unread cursor.new ≤ unread cursor.old) }
{
    if !begins_range(cursor, syntax.skips) {
        return Ok(item_of(low));
    }
    if cursor.begins(&['-', '-']) {
        // By a call (DECISIONS: large values are let go by name).
        drop(low);
        let hyphen = cursor.at();
        cursor.bump_by(2);
        return Err(cursor.refuse_from(hyphen, SyntaxErrorKind::Unsupported));
    }
    cursor.bump();
    cursor.skip_white(syntax.skips);
    if cursor.is_at_end() {
        drop(low);
        return Err(opening.refuse(SyntaxErrorKind::UnclosedClass));
    }
    match member(cursor, syntax) {
        Ok(high) => range_of(cursor, start, low, high),
        Err(error) => {
            drop(low);
            Err(error)
        }
    }
}

/// Reads an item, where the class neither ends nor closes.
fn item_at(
    cursor: &mut Cursor,
    syntax: ClassSyntax,
    opening: Piece,
) -> Result<ClassItem, ParseError>
    requires { 0 < unread cursor.old }
    ensures value { (from : Place) → IsPieceAt opening from → Reads result (item_at syntax.octal syntax.skips from (place cursor.old)) (place cursor.new) }
    ensures progress { OnOk result (unread cursor.new < unread cursor.old) }
{
    let start = cursor.at();
    if is_set_operator(cursor) {
        cursor.bump_by(2);
        return Err(cursor.refuse_from(start, SyntaxErrorKind::Unsupported));
    }
    if cursor.is_at(&['[']) {
        return posix(cursor);
    }
    let low = member(cursor, syntax)?;
    cursor.skip_white(syntax.skips);
    class_range(cursor, syntax, opening, start, low)
}

/// Reads the next item of a class; None at the bracket that closes it.
fn class_item(
    cursor: &mut Cursor,
    syntax: ClassSyntax,
    opening: Piece,
    comes_first: bool,
) -> Result<Option<ClassItem>, ParseError>
    ensures value { (from : Place) → IsPieceAt opening from
        → Reads result (class_item syntax.octal syntax.skips from comes_first (place cursor.old)) (place cursor.new) }
    ensures progress { OnOk result (unread cursor.new < unread cursor.old) }
{
    cursor.skip_white(syntax.skips);
    if cursor.is_at_end() {
        return Err(opening.refuse(SyntaxErrorKind::UnclosedClass));
    }
    if cursor.is_at(&[']']) {
        let c = cursor.first();
        cursor.bump();
        // It is itself, and begins no range (DECISIONS: in a class a `]` directly after `[` or `[^`).
        if comes_first {
            return Ok(Some(item_of(plain(c))));
        }
        return Ok(None);
    }
    Ok(Some(item_at(cursor, syntax, opening)?))
}

/// Reads the items of a class, up to the bracket that closes it.
fn class_items(
    cursor: &mut Cursor,
    syntax: ClassSyntax,
    opening: Piece,
) -> Result<Vec<ClassItem>, ParseError>
    ensures value { (from : Place) → IsPieceAt opening from
        → ReadsAs (λ items. items.items) result (all_class_items syntax.octal syntax.skips from true (place cursor.old)) (place cursor.new) }
    ensures progress { OnOk result (unread cursor.new < unread cursor.old) }
{
    let mut items = Vec::new(cursor.alloc());
    let mut comes_first = true;
    loop {
        match class_item(cursor, syntax, opening, comes_first)? {
            Some(item) => items.push(item)?,
            None => return Ok(items),
        }
        comes_first = false;
    }
}

/// Reads a class in brackets, which is there.
pub(crate) fn class(cursor: &mut Cursor, syntax: ClassSyntax) -> Result<Atom, ParseError>
    requires { 0 < unread cursor.old }
    ensures value { Reads result (class syntax.octal syntax.skips (place cursor.old)) (place cursor.new) }
    ensures progress { OnOk result (unread cursor.new < unread cursor.old) }
{
    let opening = cursor.here();
    cursor.bump();
    cursor.skip_white(syntax.skips);
    let negated = cursor.bump_over(&['^']);
    let items = class_items(cursor, syntax, opening)?;
    Ok(Atom::Bracketed {
        negated,
        items: ClassItems::new(cursor.alloc(), items)?,
    })
}
