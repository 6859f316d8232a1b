//! Atoms that aren't a character that stands for itself.

use crate::assertion::AssertionKind;
use crate::class_item::ClassItems;
use crate::text::Text;
use rx_sets::ClassPerlKind;

/// An atom.
#[derive(Drop)]
pub enum Atom {
    /// `\x` with two digits: a byte where the flag `u` is off.
    HexByte(char),
    /// `.`
    Dot,
    /// An assertion.
    Assertion(AssertionKind),
    /// `\d`, `\s` or `\w`, or with a capital, where it is negated.
    Perl { kind: ClassPerlKind, negated: bool },
    /// `\pX` or `\p{name}`; `\P` and a `^` before the name each negate it.
    Property { name: Text, negated: bool },
    /// A class in brackets, negated after `[^`.
    Bracketed { negated: bool, items: ClassItems },
}
