//! Atoms that stand for a set of characters or bytes.
ghost use Rattle.std.specs.Prelude.{◌≡◌, Ok, IfOk, IfSome, MatchResult};
ghost use Rattle.rx_reader.specs.Refusal.{Refuses};
ghost use Rattle.rx_syntax.specs.Answers.{Answers};
ghost use Rattle.rx_syntax.specs.Classes.{scalar_class, perl_class, property_class, bracketed, line_ends, has_odd_terminator, dot};
ghost use Rattle.rx_syntax.specs.Named.{scalars_of};
ghost use Rattle.rx_syntax.specs.Translation.{atom_of};

use crate::bytes::{byte_class, bytes_under, gather_bytes};
use crate::known::KnownSets;
use crate::named::{ByteKey, NamedSet, SetKey};
use crate::scalars::{class_of_bytes, gather, named_scalars, property_key, scalars_under};
use rx_class::{Class, ClassBytes, ClassUnicode};
use rx_hir::Hir;
use rx_reader::{Atom, ClassItem, Config, Flags, ParseError, Piece, SyntaxErrorKind};
use rx_search::Memory;
use rx_sets::ClassPerlKind;
use std::alloc::Global;

/// The class of these scalars.
pub(crate) fn scalar_class(alloc: Global, members: ClassUnicode) -> Result<Hir, Memory>
    ensures { IfOk result (λ h. h ≡ scalar_class members) }
{
    Hir::class(alloc, Class::Unicode(members))
}

/// The named set of scalars that an atom is, if it is one.
pub(crate) fn named_set(
    alloc: Global,
    flags: Flags,
    piece: Piece,
    atom: &Atom,
) -> Result<Option<SetKey>, ParseError>
    ensures { (config : _) → MatchResult result
        (λ found. IfSome found (λ key. atom_of config flags piece atom.now ≡ Ok (scalar_class (scalars_of key))))
        (λ e. Refuses e (atom_of config flags piece atom.now)) }
{
    if !flags.unicode {
        return Ok(None);
    }
    match atom {
        Atom::Perl { kind, negated } => {
            Ok(Some(SetKey::new(flags, NamedSet::Perl(*kind), *negated)))
        }
        Atom::Property { name, negated } => {
            let key = property_key(alloc, flags, piece, name.as_slice(), *negated)?;
            Ok(Some(key))
        }
        _ => Ok(None),
    }
}

/// `\d` and its like.
pub(crate) fn perl(
    alloc: Global,
    config: &Config,
    flags: Flags,
    piece: Piece,
    kind: ClassPerlKind,
    negated: bool,
    known: &mut KnownSets,
) -> Result<Hir, ParseError>
    ensures { Answers result (perl_class config.now flags piece kind negated) }
{
    if !flags.unicode {
        let members = known.bytes(ByteKey::new(flags, kind.ascii(), negated))?;
        return byte_class(alloc, config, piece, members);
    }
    let members = known.scalars(SetKey::new(flags, NamedSet::Perl(kind), negated))?;
    Ok(scalar_class(alloc, members)?)
}

/// `\p{name}` and its like.
pub(crate) fn property(
    alloc: Global,
    flags: Flags,
    piece: Piece,
    name: &[char],
    negated: bool,
    known: &mut KnownSets,
) -> Result<Hir, ParseError>
    ensures { Answers result (property_class flags piece name.now negated) }
{
    if !flags.unicode {
        return Err(piece.refuse(SyntaxErrorKind::UnicodeOff));
    }
    let members = named_scalars(alloc, flags, piece, name, negated, known)?;
    Ok(scalar_class(alloc, members)?)
}

/// A class in brackets.
pub(crate) fn bracketed(
    alloc: Global,
    config: &Config,
    flags: Flags,
    piece: Piece,
    negated: bool,
    items: &[ClassItem],
    known: &mut KnownSets,
) -> Result<Hir, ParseError>
    ensures { Answers result (bracketed config.now flags piece negated items.now) }
{
    if flags.unicode {
        let members = gather(alloc, flags, items, known)?;
        let class = scalars_under(alloc, flags, negated, members)?;
        return Ok(scalar_class(alloc, class)?);
    }
    let members = gather_bytes(alloc, flags, piece, items, known)?;
    let class = bytes_under(alloc, flags, negated, members)?;
    byte_class(alloc, config, piece, class)
}

/// What `.` leaves out.
fn line_ends(alloc: Global, config: &Config, flags: Flags) -> Result<Vec<(u8, u8)>, Memory>
    ensures { IfOk result (λ v. v.items ≡ line_ends config.now flags) }
{
    if flags.dot_matches_new_line {
        return Ok(Vec::new(alloc));
    }
    if flags.crlf {
        return Ok(Vec::from_slice(alloc, &[(b'\r', b'\r'), (b'\n', b'\n')])?);
    }
    let terminator = config.get_line_terminator();
    Ok(Vec::from_slice(alloc, &[(terminator, terminator)])?)
}

/// The line terminator counts, and is no ASCII character.
fn has_odd_terminator(config: &Config, flags: Flags) -> bool
    ensures { result ≡ has_odd_terminator config.now flags }
{
    !(flags.dot_matches_new_line || flags.crlf) && !config.get_line_terminator().is_ascii()
}

/// `.`
pub(crate) fn dot(
    alloc: Global,
    config: &Config,
    flags: Flags,
    piece: Piece,
) -> Result<Hir, ParseError>
    ensures { Answers result (dot config.now flags piece) }
{
    let ends = line_ends(alloc, config, flags)?;
    if !flags.unicode {
        let class = ClassBytes::new(alloc, &ends)?.complement(alloc)?;
        return byte_class(alloc, config, piece, class);
    }
    if has_odd_terminator(config, flags) {
        return Err(piece.refuse(SyntaxErrorKind::LineTerminator));
    }
    let class = class_of_bytes(alloc, &ends)?.complement(alloc)?;
    Ok(scalar_class(alloc, class)?)
}
