//! Tokens.
ghost use Rattle.std.specs.Prelude.{◌≡◌, ◌<◌, ◌≤◌, false, Ok, OnOk, IfOk, IsTrue, ◌⊎◌};
ghost use Rattle.rx_reader.specs.Reading.{Place, first, at_end, past, is_at};
ghost use Rattle.rx_reader.specs.Grammar.{opened, opens, escaped_atom, escaped, bracketed, single, stray_operator, token_of, token};
ghost use Rattle.rx_reader.specs.Input.{place, unread, Reads, Refuses};
ghost use Rattle.rx_reader.specs.Tokens.{is_end, is_close, IsOneMore};

use crate::assertion::AssertionKind;
use crate::ast::Ast;
use crate::atom::Atom;
use crate::class::{ClassSyntax, class};
use crate::config::Config;
use crate::cursor::Cursor;
use crate::error::{ParseError, SyntaxErrorKind};
use crate::escape::{Escaped, escape};
use crate::flags::Flags;
use crate::group_kind::GroupKind;
use crate::opening::{Opening, read_opening};
use crate::piece::Piece;

/// What stands next in a pattern.
#[derive(Drop)]
pub(crate) enum Token {
    End,
    Bar,
    Close,
    /// A group opens, with these flags in it.
    Opens { kind: GroupKind, flags: Flags },
    /// The flags up to the end of the group around.
    Directive(Flags),
    Atom(Ast),
}

/// What an opening parenthesis begins.
fn opened(opening: Opening) -> Token
    ensures value { result ≡ opened opening }
    ensures kind { IsOneMore result }
{
    match opening {
        Opening::Group { kind, flags } => Token::Opens { kind, flags },
        Opening::Directive(flags) => Token::Directive(flags),
    }
}

/// An escape as an atom.
fn escaped_atom(flags: Flags, piece: Piece, escaped: Escaped) -> Ast
    ensures { result ≡ escaped_atom flags piece escaped }
{
    match escaped {
        Escaped::Character(c) => {
            let character = c.character;
            if c.is_hex_byte {
                Ast::atom(flags, piece, Atom::HexByte(character))
            } else {
                Ast::literal(flags, character)
            }
        }
        Escaped::Assertion(kind) => Ast::atom(flags, piece, Atom::Assertion(kind)),
        Escaped::Perl { kind, negated } => Ast::atom(flags, piece, Atom::Perl { kind, negated }),
        Escaped::Property { name, negated } => {
            Ast::atom(flags, piece, Atom::Property { name, negated })
        }
    }
}

/// Reads an escape.
fn read_escape(cursor: &mut Cursor, config: Config, flags: Flags) -> Result<Token, ParseError>
    requires { 0 < unread cursor.old }
    ensures value { Reads result (escaped config flags (place cursor.old)) (place cursor.new) }
    ensures kind { IfOk result IsOneMore }
    ensures progress { OnOk result (unread cursor.new < unread cursor.old) }
{
    let start = cursor.at();
    let escaped = escape(cursor, config.get_octal())?;
    let piece = cursor.piece_from(start);
    Ok(Token::Atom(escaped_atom(flags, piece, escaped)))
}

/// Reads a class in brackets.
fn read_class(cursor: &mut Cursor, config: Config, flags: Flags) -> Result<Token, ParseError>
    requires { 0 < unread cursor.old }
    ensures value { Reads result (bracketed config flags (place cursor.old)) (place cursor.new) }
    ensures kind { IfOk result IsOneMore }
    ensures progress { OnOk result (unread cursor.new < unread cursor.old) }
{
    let start = cursor.at();
    let syntax = ClassSyntax {
        octal: config.get_octal(),
        skips: flags.ignore_whitespace,
    };
    let atom = class(cursor, syntax)?;
    let piece = cursor.piece_from(start);
    Ok(Token::Atom(Ast::atom(flags, piece, atom)))
}

/// Reads what an opening parenthesis begins.
fn read_opens(cursor: &mut Cursor, flags: Flags) -> Result<Token, ParseError>
    requires { 0 < unread cursor.old }
    ensures value { Reads result (opens flags (place cursor.old)) (place cursor.new) }
    ensures kind { IfOk result IsOneMore }
    ensures progress { OnOk result (unread cursor.new < unread cursor.old) }
{
    let opening = read_opening(cursor, flags)?;
    Ok(opened(opening))
}

/// Reads the atom that the character at the position is.
fn read_single(cursor: &mut Cursor, flags: Flags, atom: Atom) -> Token
    requires { 0 < unread cursor.old }
    ensures value { single flags atom (place cursor.old) ≡ Ok (result, place cursor.new) }
    ensures kind { IsOneMore result }
    ensures progress { unread cursor.new < unread cursor.old }
{
    let piece = cursor.here();
    cursor.bump();
    Token::Atom(Ast::atom(flags, piece, atom))
}

/// Refuses an operator that has nothing before it to repeat.
fn stray_operator(cursor: &mut Cursor) -> ParseError
    ensures { Refuses result (stray_operator (place cursor.old)) }
{
    let piece = cursor.here();
    // Also without an item before it (DECISIONS: `{,` is unsupported).
    if cursor.begins(&['{', ',']) {
        cursor.bump_by(2);
        return cursor.refuse_from(piece.start, SyntaxErrorKind::Unsupported);
    }
    // Also a `{` (DECISIONS: without an item before it).
    piece.refuse(SyntaxErrorKind::RepeatNothing)
}

/// Reads the token that begins with the character at the position, which is no operator.
fn read_some_token(cursor: &mut Cursor, config: Config, flags: Flags) -> Result<Token, ParseError>
    requires { 0 < unread cursor.old }
    ensures value { Reads result (token_of config (first (place cursor.old)) flags (place cursor.old)) (place cursor.new) }
    ensures progress { OnOk result (unread cursor.new < unread cursor.old) }
    ensures more { IfOk result (λ t. is_end t ≡ false) }
    ensures close { IfOk result (λ t. IsTrue (is_close t) → place cursor.new ≡ past (place cursor.old)) }
{
    let c = cursor.first();
    match c {
        '|' => {
            cursor.bump();
            Ok(Token::Bar)
        }
        ')' => {
            cursor.bump();
            Ok(Token::Close)
        }
        '(' => read_opens(cursor, flags),
        '[' => read_class(cursor, config, flags),
        '\\' => read_escape(cursor, config, flags),
        '.' => Ok(read_single(cursor, flags, Atom::Dot)),
        '^' => Ok(read_single(cursor, flags, Atom::Assertion(AssertionKind::StartLine))),
        '$' => Ok(read_single(cursor, flags, Atom::Assertion(AssertionKind::EndLine))),
        _ => {
            cursor.bump();
            Ok(Token::Atom(Ast::literal(flags, c)))
        }
    }
}

/// Reads the next token, under these flags.
pub(crate) fn read_token(
    cursor: &mut Cursor,
    config: Config,
    flags: Flags,
) -> Result<Token, ParseError>
    ensures value { Reads result (token config flags (place cursor.old)) (place cursor.new) }
    ensures progress { IfOk result (λ t. IsTrue (is_end t) ⊎ (unread cursor.new < unread cursor.old)) }
    ensures moves { OnOk result (unread cursor.new ≤ unread cursor.old) }
    ensures end { IfOk result (λ t. is_end t ≡ at_end (place cursor.old)) }
    ensures stays { IfOk result (λ t. IsTrue (is_end t) → place cursor.new ≡ place cursor.old) }
    ensures close { IfOk result (λ t. IsTrue (is_close t) → place cursor.new ≡ past (place cursor.old)) }
{
    if cursor.is_at_end() {
        return Ok(Token::End);
    }
    if cursor.is_at(&['*', '+', '?', '{']) {
        return Err(stray_operator(cursor));
    }
    read_some_token(cursor, config, flags)
}
