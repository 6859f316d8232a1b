//! A piece of a pattern.
ghost use Rattle.std.specs.Prelude.{◌≡◌};

use crate::error::{ParseError, SyntaxError, SyntaxErrorKind};

/// A piece of the pattern, in bytes: what a refusal names.
///
/// It is no `Span` of rx_search: a span is a part of a haystack, and both ends of one are places to search at. Nothing
/// is searched in a piece.
#[derive(Clone, Copy, Debug, PartialEq, Eq)]
pub struct Piece {
    /// How many bytes of the pattern stand before the piece.
    pub start: usize,
    /// How many bytes stand before what follows the piece.
    pub end: usize,
}

impl Piece {
    /// The refusal of the piece.
    pub fn refuse(self, kind: SyntaxErrorKind) -> ParseError
        ensures { result ≡ ParseError.Syntax (record { kind = kind; start = self.start; end = self.end }) }
    {
        ParseError::Syntax(SyntaxError {
            kind,
            start: self.start,
            end: self.end,
        })
    }
}
