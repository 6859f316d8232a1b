//! Assertions.
ghost use Rattle.std.specs.Prelude.{◌≡◌};
ghost use Rattle.rx_search.specs.Look.{kind_of};
ghost use Rattle.rx_syntax.specs.Assertions.{by_line, by_word, look_of};

use rx_reader::{AssertionKind, Flags};
use rx_search::Look;

/// The look-around that an assertion stands for under the flags at it.
pub(crate) fn look_of(flags: Flags, kind: AssertionKind) -> Look
    ensures { kind_of result ≡ look_of flags kind }
{
    match kind {
        AssertionKind::StartLine => by_line(flags, Look::Start, Look::StartLF, Look::StartCRLF),
        AssertionKind::EndLine => by_line(flags, Look::End, Look::EndLF, Look::EndCRLF),
        AssertionKind::StartText => Look::Start,
        AssertionKind::EndText => Look::End,
        AssertionKind::WordBoundary => by_word(flags, Look::WordUnicode, Look::WordAscii),
        AssertionKind::NotWordBoundary => {
            by_word(flags, Look::WordUnicodeNegate, Look::WordAsciiNegate)
        }
        AssertionKind::WordBoundaryStart => {
            by_word(flags, Look::WordStartUnicode, Look::WordStartAscii)
        }
        AssertionKind::WordBoundaryEnd => {
            by_word(flags, Look::WordEndUnicode, Look::WordEndAscii)
        }
        AssertionKind::WordBoundaryStartHalf => {
            by_word(flags, Look::WordStartHalfUnicode, Look::WordStartHalfAscii)
        }
        AssertionKind::WordBoundaryEndHalf => {
            by_word(flags, Look::WordEndHalfUnicode, Look::WordEndHalfAscii)
        }
    }
}

/// The look-around at the text's ends, or at a line's where `m` is on.
fn by_line(flags: Flags, text: Look, line: Look, crlf: Look) -> Look
    ensures { kind_of result ≡ by_line flags (kind_of text) (kind_of line) (kind_of crlf) }
{
    if !flags.multi_line {
        text
    } else if flags.crlf {
        crlf
    } else {
        line
    }
}

/// The look-around at Unicode's words, or at ASCII's where `u` is off.
fn by_word(flags: Flags, unicode: Look, ascii: Look) -> Look
    ensures { kind_of result ≡ by_word flags (kind_of unicode) (kind_of ascii) }
{
    if flags.unicode { unicode } else { ascii }
}
