//! What the escapes `\d`, `\s` and `\w` stand for.
ghost use Rattle.std.specs.Prelude.{◌≡◌, IfOk};
ghost use Rattle.rx_sets.specs.Members.{scalars_where};
ghost use Rattle.rx_sets.specs.Perl.{is_perl_char, ascii_kind};

use crate::ascii::ClassAsciiKind;
use crate::members::class_of;
use rx_class::ClassUnicode;
use rx_memory::Memory;
use std::alloc::Global;
use unicode::perl::{digit_ranges, space_ranges, word_ranges};

/// One of these escapes.
#[derive(Clone, Copy, Debug, PartialEq, Eq)]
pub enum ClassPerlKind {
    /// `\d`
    Digit,
    /// `\s`
    Space,
    /// `\w`
    Word,
}

impl ClassPerlKind {
    /// The characters that Unicode says: the decimal numbers, white space, or word characters, which are
    /// those that are alphabetic, a mark, a decimal number, connector punctuation or a join control.
    pub fn unicode(self, alloc: Global) -> Result<ClassUnicode, Memory>
        ensures { IfOk result (λ class. class ≡ scalars_where (is_perl_char self)) }
    {
        match self {
            ClassPerlKind::Digit => class_of(alloc, &digit_ranges(alloc)?),
            ClassPerlKind::Space => class_of(alloc, &space_ranges(alloc)?),
            ClassPerlKind::Word => class_of(alloc, &word_ranges(alloc)?),
        }
    }

    /// The ASCII characters of the same name.
    pub fn ascii(self) -> ClassAsciiKind
        ensures { result ≡ ascii_kind self }
    {
        match self {
            ClassPerlKind::Digit => ClassAsciiKind::Digit,
            ClassPerlKind::Space => ClassAsciiKind::Space,
            ClassPerlKind::Word => ClassAsciiKind::Word,
        }
    }
}
