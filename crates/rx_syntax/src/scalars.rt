//! Classes of scalars, which are meant where the flag `u` is on.
ghost use Rattle.std.specs.Prelude.{◌≡◌, IfOk};
ghost use Rattle.rx_class.specs.Ranges.{next_scalar, fewest};
ghost use Rattle.rx_sets.specs.Property.{property};
ghost use Rattle.rx_syntax.specs.Answers.{Answers, AnswersAs};
ghost use Rattle.rx_syntax.specs.Classes.{scalars_under, scalars_named, item_scalars};
ghost use Rattle.rx_syntax.specs.Named.{scalars_of};
ghost use Rattle.rx_syntax.specs.Partial.{ranges_of, class_of_items};

use crate::known::KnownSets;
use crate::named::{NamedSet, SetKey, under};
use crate::partial::{Added, PartialClass};
use rx_class::ClassUnicode;
use rx_reader::{ClassItem, Flags, ParseError, Piece, SyntaxErrorKind};
use rx_search::Memory;
use rx_sets::PropertySet;
use std::alloc::Global;

/// What a class holds under the flags at it: with `i` the characters of either case, and then those that are
/// left, where it is negated.
pub(crate) fn scalars_under(
    alloc: Global,
    flags: Flags,
    negated: bool,
    members: ClassUnicode,
) -> Result<ClassUnicode, Memory>
    ensures { IfOk result (λ class. class ≡ scalars_under flags negated members) }
{
    under(alloc, flags.case_insensitive, negated, members)
}

/// The set `\p{name}`, if Unicode has a set of that name.
pub(crate) fn property_key(
    alloc: Global,
    flags: Flags,
    piece: Piece,
    name: &[char],
    negated: bool,
) -> Result<SetKey, ParseError>
    ensures { AnswersAs scalars_of result (scalars_named flags piece negated (property name.now)) }
{
    match PropertySet::from_name(alloc, name)? {
        Some(set) => Ok(SetKey::new(flags, NamedSet::Property(set), negated)),
        None => Err(piece.refuse(SyntaxErrorKind::Property)),
    }
}

/// What `\p{name}` holds, if Unicode has a set of that name.
pub(crate) fn named_scalars(
    alloc: Global,
    flags: Flags,
    piece: Piece,
    name: &[char],
    negated: bool,
    known: &mut KnownSets,
) -> Result<ClassUnicode, ParseError>
    ensures { Answers result (scalars_named flags piece negated (property name.now)) }
{
    let key = property_key(alloc, flags, piece, name, negated)?;
    Ok(known.scalars(key)?)
}

/// The characters with the numbers of these bytes.
pub(crate) fn class_of_bytes(alloc: Global, ranges: &[(u8, u8)]) -> Result<ClassUnicode, Memory>
    ensures { IfOk result (λ class. class ≡ fewest next_scalar ranges.now) }
{
    let scalars: Vec<(char, char)> = ranges
        .iter()
        .map(|(low, high)| (char::from(*low), char::from(*high)))
        .collect(alloc)?;
    ClassUnicode::new(alloc, &scalars)
}

/// What an item adds to a class.
fn added_by(alloc: Global, flags: Flags, item: &ClassItem) -> Result<Added, ParseError>
    ensures { AnswersAs ranges_of result (item_scalars flags item.now) }
{
    match item {
        ClassItem::Range { low, high } => Ok(Added::Range(low.character, high.character)),
        ClassItem::Perl { kind, negated } => {
            let set = NamedSet::Perl(*kind);
            Ok(Added::Set(SetKey::new(flags, set, *negated)))
        }
        ClassItem::Posix { kind, negated } => {
            let set = NamedSet::Posix(*kind);
            Ok(Added::Set(SetKey::new(flags, set, *negated)))
        }
        ClassItem::Property {
            piece,
            name,
            negated,
        } => {
            let key = property_key(alloc, flags, *piece, name.as_slice(), *negated)?;
            Ok(Added::Set(key))
        }
    }
}

/// The class of the items.
pub(crate) fn gather(
    alloc: Global,
    flags: Flags,
    items: &[ClassItem],
    known: &mut KnownSets,
) -> Result<ClassUnicode, ParseError>
    ensures { Answers result (class_of_items flags items.now) }
{
    let mut class = PartialClass::new(alloc);
    for item in items {
        let added = added_by(alloc, flags, item)?;
        class = class.with(added, known)?;
    }
    Ok(class.build()?)
}
