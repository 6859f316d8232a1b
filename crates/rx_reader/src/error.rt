//! The refusals of a pattern.
ghost use Rattle.std.specs.Prelude.{◌≡◌};
ghost use Rattle.rx_reader.specs.Refusal.{text_of};
ghost use Rattle.rx_reader.specs.declared.error.ParseError.TheVariants.{Memory as OutOfMemory};

use rx_memory::Memory;
use std::alloc::{AllocError, AllocFailed};
use std::fmt;

/// What is wrong, each kind with the piece that the refusal names.
#[derive(Clone, Copy, Debug, PartialEq, Eq)]
pub enum SyntaxErrorKind {
    /// The pattern ends inside a group: the `(` of the innermost one.
    UnclosedGroup,
    /// A `)` that closes no group.
    UnopenedGroup,
    /// The pattern ends inside a class: its `[`.
    UnclosedClass,
    /// A range of a class whose ends are out of order, or an end of which is not one character: the range.
    ClassRange,
    /// An operator with nothing before it to repeat: its first character.
    RepeatNothing,
    /// A count that can't be read, is too great, or has its ends out of order: from its `{` to where reading
    /// stopped.
    RepeatCount,
    /// An escape that is unknown, cut off, no scalar, or an assertion in a class: from its `\` to where reading
    /// stopped.
    Escape,
    /// A name of a group that can't be read: the name, as far as it was read.
    GroupName,
    /// A name that a group before it has: the name.
    GroupNameTwice,
    /// A flag that is unknown, stands twice, or is wanted and isn't there: the character.
    Flag,
    /// Groups and repetitions that nest too deep: the opening or the `)` of a group, or the operator, that
    /// makes them so.
    NestLimit,
    /// Syntax that is known and not supported: the token.
    Unsupported,
    /// A part that can match what isn't UTF-8, where matches are to be UTF-8: the atom.
    Utf8,
    /// A property that `\p` or `\P` names and Unicode doesn't: the escape.
    Property,
    /// A character or a property where the flag `u` is off and bytes are matched: the atom.
    UnicodeOff,
    /// A `.` that has to leave out a line terminator that isn't ASCII: the `.`.
    LineTerminator,
}

impl fmt::Display for SyntaxErrorKind {
    ghost use Rattle.std.specs.Prelude.{Some};

    ghost output = { λ kind. Some (text_of kind) };

    fn fmt<W: fmt::Write>(&self, f: &mut fmt::Formatter<W>) -> fmt::Result {
        f.write_str(self.text())
    }
}

impl SyntaxErrorKind {
    /// What is wrong, in words.
    fn text(&self) -> &'static str
        ensures { result.now ≡ text_of self.now }
    {
        match self {
            SyntaxErrorKind::UnclosedGroup => "unclosed group",
            SyntaxErrorKind::UnopenedGroup => "unopened group",
            SyntaxErrorKind::UnclosedClass => "unclosed class",
            SyntaxErrorKind::ClassRange => "bad class range",
            SyntaxErrorKind::RepeatNothing => "repetition of nothing",
            SyntaxErrorKind::RepeatCount => "bad repetition count",
            SyntaxErrorKind::Escape => "bad escape",
            SyntaxErrorKind::GroupName => "bad group name",
            SyntaxErrorKind::GroupNameTwice => "group name used twice",
            SyntaxErrorKind::Flag => "bad flag",
            SyntaxErrorKind::NestLimit => "nesting too deep",
            SyntaxErrorKind::Unsupported => "unsupported syntax",
            SyntaxErrorKind::Utf8 => "pattern can match invalid UTF-8",
            SyntaxErrorKind::Property => "unknown property",
            SyntaxErrorKind::UnicodeOff => "Unicode not allowed here",
            SyntaxErrorKind::LineTerminator => "line terminator is not ASCII",
        }
    }
}

/// The refusal of a pattern: what is wrong with the piece from `start` to `end`, in bytes.
#[derive(Clone, Copy, Debug, PartialEq, Eq)]
pub struct SyntaxError {
    /// What is wrong.
    pub kind: SyntaxErrorKind,
    /// How many bytes of the pattern stand before the piece.
    pub start: usize,
    /// How many bytes stand before what follows the piece.
    pub end: usize,
}

/// Why there is no expression.
#[derive(Clone, Copy, Debug, PartialEq, Eq)]
pub enum ParseError {
    /// The grammar refuses the pattern.
    Syntax(SyntaxError),
    /// There was no memory.
    Memory,
}

impl From<Memory> for ParseError {
    ghost from_gives = { λ _ e. e ≡ OutOfMemory };

    fn from(_error: Memory) -> ParseError {
        ParseError::Memory
    }
}

impl From<AllocError> for ParseError {
    ghost from_gives = { λ _ e. e ≡ OutOfMemory };

    fn from(_error: AllocError) -> ParseError {
        ParseError::Memory
    }
}

impl<T: Drop> From<AllocFailed<T>> for ParseError {
    ghost from_gives = { λ _ e. e ≡ OutOfMemory };

    fn from(_error: AllocFailed<T>) -> ParseError {
        ParseError::Memory
    }
}
