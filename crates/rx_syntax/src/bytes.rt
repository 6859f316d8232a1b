//! Classes of bytes, which are meant where the flag `u` is off.
ghost use Rattle.std.specs.Prelude.{◌≡◌, ◌&&◌, IfOk, Some, None, if◌then◌else◌};
ghost use Rattle.rx_class.specs.Bytes.{byte_folded};
ghost use Rattle.rx_syntax.specs.Answers.{Answers, AnswersAs};
ghost use Rattle.rx_syntax.specs.Classes.{bytes_under, is_byte, item_bytes, byte_class, hex_byte};
ghost use Rattle.rx_syntax.specs.Named.{bytes_of, bytes_within};
ghost use Rattle.rx_syntax.specs.PartialBytes.{ranges_of_bytes, byte_class_of_items};

use crate::characters::byte;
use crate::known::KnownSets;
use crate::named::ByteKey;
use crate::partial_bytes::{AddedBytes, PartialBytes};
use rx_class::{Class, ClassBytes};
use rx_hir::Hir;
use rx_reader::{ClassCharacter, ClassItem, Config, Flags, ParseError, Piece, SyntaxErrorKind};
use rx_search::Memory;
use std::alloc::Global;

/// What a class holds under the flags at it: with `i` the ASCII letters in either case, and then those of the
/// 256 bytes that are left, where it is negated.
pub(crate) fn bytes_under(
    alloc: Global,
    flags: Flags,
    negated: bool,
    members: ClassBytes,
) -> Result<ClassBytes, Memory>
    ensures { IfOk result (λ class. class ≡ bytes_under flags negated members) }
{
    within(alloc, flags.case_insensitive, negated, members)
}

/// With the ASCII letters in either case, where that is asked for, and then those that are left, where it is negated.
fn within(
    alloc: Global,
    folded: bool,
    negated: bool,
    members: ClassBytes,
) -> Result<ClassBytes, Memory>
    ensures { IfOk result (λ class. class ≡ bytes_within folded negated members) }
{
    let all = in_either_case(folded, members)?;
    if negated {
        return all.complement(alloc);
    }
    Ok(all)
}

fn in_either_case(folded: bool, members: ClassBytes) -> Result<ClassBytes, Memory>
    ensures { IfOk result (λ class. class ≡ (if folded then byte_folded members else members)) }
{
    if folded {
        return members.case_fold_simple();
    }
    Ok(members)
}

/// The bytes of a named set.
pub(crate) fn bytes_of(alloc: Global, key: ByteKey) -> Result<ClassBytes, Memory>
    ensures { IfOk result (λ class. class ≡ bytes_of key) }
{
    let members = ClassBytes::new(alloc, key.kind.ranges())?;
    within(alloc, key.folded, key.negated, members)
}

/// The byte that a character of a class stands for, if it stands for one: an ASCII character, or a byte that is
/// written by two digits.
fn byte_of(c: ClassCharacter) -> Option<u8>
    ensures { result ≡ (if is_byte c then Some c.character else None) }
{
    let greatest = if c.is_hex_byte { 0xFF } else { 0x7F };
    let code = c.character as u32;
    if code <= greatest {
        Some(code as u8)
    } else {
        None
    }
}

/// The bytes from one character of a class to another.
fn range_of(low: ClassCharacter, high: ClassCharacter) -> Option<(u8, u8)>
    ensures { result ≡ (if is_byte low && is_byte high then Some (low.character, high.character) else None) }
{
    match byte_of(low) {
        Some(first) => byte_of(high).map(|last| (first, last)),
        None => None,
    }
}

/// What an item adds to the class that is the piece.
fn added_by(flags: Flags, piece: Piece, item: &ClassItem) -> Result<AddedBytes, ParseError>
    ensures { AnswersAs ranges_of_bytes result (item_bytes flags piece item.now) }
{
    match item {
        ClassItem::Range { low, high } => match range_of(*low, *high) {
            Some((first, last)) => Ok(AddedBytes::Range(first, last)),
            None => Err(piece.refuse(SyntaxErrorKind::UnicodeOff)),
        },
        ClassItem::Perl { kind, negated } => {
            let set = kind.ascii();
            Ok(AddedBytes::Set(ByteKey::new(flags, set, *negated)))
        }
        ClassItem::Posix { kind, negated } => {
            Ok(AddedBytes::Set(ByteKey::new(flags, *kind, *negated)))
        }
        ClassItem::Property { .. } => Err(piece.refuse(SyntaxErrorKind::UnicodeOff)),
    }
}

/// The class of the items between the brackets that are the piece.
pub(crate) fn gather_bytes(
    alloc: Global,
    flags: Flags,
    piece: Piece,
    items: &[ClassItem],
    known: &mut KnownSets,
) -> Result<ClassBytes, ParseError>
    ensures { Answers result (byte_class_of_items flags piece items.now) }
{
    let mut class = PartialBytes::new(alloc);
    for item in items {
        let added = added_by(flags, piece, item)?;
        class = class.with(added, known)?;
    }
    Ok(class.build()?)
}

/// The class of these bytes. Where matches are to be UTF-8, no byte above 7F may be among them.
pub(crate) fn byte_class(
    alloc: Global,
    config: &Config,
    piece: Piece,
    members: ClassBytes,
) -> Result<Hir, ParseError>
    ensures { Answers result (byte_class config.now piece members) }
{
    // By the final members, also of a negated class (DECISIONS: without `u`).
    if config.get_utf8() && !members.is_ascii() {
        return Err(piece.refuse(SyntaxErrorKind::Utf8));
    }
    Ok(Hir::class(alloc, Class::Bytes(members))?)
}

/// The byte that is written by two digits.
pub(crate) fn hex_byte(
    alloc: Global,
    config: &Config,
    flags: Flags,
    piece: Piece,
    c: char,
) -> Result<Hir, ParseError>
    ensures { Answers result (hex_byte config.now flags piece c) }
{
    match u8::try_from(c as u32) {
        Ok(code) => {
            let members = bytes_under(alloc, flags, false, byte(alloc, code)?)?;
            byte_class(alloc, config, piece, members)
        }
        Err(_) => Err(piece.refuse(SyntaxErrorKind::UnicodeOff)),
    }
}
