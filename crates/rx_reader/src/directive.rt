//! The flags that a group or a directive names.
ghost use Rattle.std.specs.Prelude.{◌≡◌, ◌≤◌, ◌<◌, chars, length, not, ◌&&◌, ◌||◌, IfOk, OnOk};
ghost use Rattle.rx_reader.specs.Reading.{Place};
ghost use Rattle.rx_reader.specs.Input.{place, unread, Reads, IsPieceAt, HasRoom};
ghost use Rattle.rx_reader.specs.Flags.{has, is_letter, letters, on_len, switched, changed, may_end_at, read_flags};

use crate::cursor::Cursor;
use crate::error::{ParseError, SyntaxErrorKind};
use crate::flags::Flags;
use crate::piece::Piece;
use std::alloc::{AllocError, Global};

/// Whether a character is the letter of a flag, or the hyphen before those that are switched off.
fn is_letter(c: char) -> bool
    ensures { result ≡ is_letter c }
{
    c == 'i' || c == 'm' || c == 's' || c == 'U' || c == 'R' || c == 'u' || c == 'x' || c == '-'
}

/// The letters in front, up to the first character that is none or stood before it.
fn letters(alloc: Global, text: &str) -> Result<Vec<char>, AllocError>
    ensures { IfOk result (λ named. named.items ≡ letters (chars text.now)) }
{
    let mut named = Vec::new(alloc);
    for c in text.chars() {
        if !is_letter(c) {
            return Ok(named);
        }
        if named.contains(&c) {
            return Ok(named);
        }
        named.push(c)?;
    }
    Ok(named)
}

/// How many letters stand before the hyphen.
fn on_len(named: &[char]) -> usize
    ensures value { result ≡ on_len named.now }
    ensures bound { result ≤ length named.now }
{
    let mut n = 0;
    while n < named.len() {
        if named[n] == '-' {
            return n;
        }
        n += 1;
    }
    n
}

/// What a flag is, where these letters are switched on and off.
fn switched(letter: char, on: &[char], off: &[char], was: bool) -> bool
    ensures { result ≡ (has letter on.now || (was && not (has letter off.now))) }
{
    on.contains(&letter) || (was && !off.contains(&letter))
}

/// The flags, where these letters are named.
fn changed(named: &[char], flags: Flags) -> Flags
    ensures { result ≡ changed named.now flags }
{
    let (on, off) = named.split_at(on_len(named));
    Flags {
        case_insensitive: switched('i', on, off, flags.case_insensitive),
        multi_line: switched('m', on, off, flags.multi_line),
        dot_matches_new_line: switched('s', on, off, flags.dot_matches_new_line),
        swap_greed: switched('U', on, off, flags.swap_greed),
        unicode: switched('u', on, off, flags.unicode),
        crlf: switched('R', on, off, flags.crlf),
        ignore_whitespace: switched('x', on, off, flags.ignore_whitespace),
    }
}

/// Whether so many letters end well at the position; the last of them can be the hyphen.
fn may_end_at(cursor: &Cursor, count: usize, ends_with_hyphen: bool) -> bool
    ensures { result ≡ (not ends_with_hyphen && may_end_at count (place cursor.now)) }
{
    !ends_with_hyphen && (cursor.is_at(&[':']) || (cursor.is_at(&[')']) && count != 0))
}

/// Reads letters up to a `:` or `)`, and gives the flags that they make of these; `opening` is the piece of the
/// group's parenthesis.
pub(crate) fn read_flags(
    cursor: &mut Cursor,
    opening: Piece,
    flags: Flags,
) -> Result<Flags, ParseError>
    ensures value { (from : Place) → IsPieceAt opening from → Reads result (read_flags from flags (place cursor.old)) (place cursor.new) }
    ensures progress { OnOk result (unread cursor.new ≤ unread cursor.old) }
    ensures more { OnOk result (0 < unread cursor.new) }
    ensures kept { HasRoom cursor.old → HasRoom cursor.new }
{
    let named = letters(cursor.alloc(), cursor.rest())?;
    let count = named.len();
    let flags = changed(&named, flags);
    let ends_with_hyphen = named.ends_with(&['-']);
    cursor.bump_by(count);
    if cursor.is_at_end() {
        // It could have become a group (DECISIONS: a group that is cut off).
        return Err(opening.refuse(SyntaxErrorKind::UnclosedGroup));
    }
    if !may_end_at(cursor, count, ends_with_hyphen) {
        return Err(cursor.here().refuse(SyntaxErrorKind::Flag));
    }
    Ok(flags)
}
