//! The sets of characters that a pattern may name.
ghost use Rattle.std.specs.Prelude.{◌≡◌, IfOk, IsTrue};
ghost use Rattle.rx_syntax.specs.Named.{members_of, scalars_of, either_case, under, key_of, byte_key_of};

use crate::scalars::class_of_bytes;
use rx_class::ClassUnicode;
use rx_reader::Flags;
use rx_search::Memory;
use rx_sets::{ClassAsciiKind, ClassPerlKind, PropertySet};
use std::alloc::Global;

/// A set of characters that has a name.
#[derive(Clone, Copy)]
pub(crate) enum NamedSet {
    /// Of `\d`, `\s` or `\w`.
    Perl(ClassPerlKind),
    /// Of `[:name:]`.
    Posix(ClassAsciiKind),
    /// Of `\p{name}`.
    Property(PropertySet),
}

/// A named set as it stands in a pattern.
#[derive(Clone, Copy)]
pub(crate) struct SetKey {
    pub(crate) set: NamedSet,
    /// With the characters of either case.
    pub(crate) folded: bool,
    /// What is left without these.
    pub(crate) negated: bool,
}

/// A named set of bytes as it stands in a pattern.
#[derive(Clone, Copy)]
pub(crate) struct ByteKey {
    pub(crate) kind: ClassAsciiKind,
    /// With the letters of either case.
    pub(crate) folded: bool,
    /// What is left without these.
    pub(crate) negated: bool,
}

/// Both are the same escape.
fn same_perl(a: ClassPerlKind, b: ClassPerlKind) -> bool
    ensures { IsTrue result → a ≡ b }
{
    a == b
}

/// Both are the same name.
fn same_posix(a: ClassAsciiKind, b: ClassAsciiKind) -> bool
    ensures { IsTrue result → a ≡ b }
{
    a == b
}

/// Both are the same set.
fn same_property(a: PropertySet, b: PropertySet) -> bool
    ensures { IsTrue result → a ≡ b }
{
    a == b
}

fn same_flag(a: bool, b: bool) -> bool
    ensures { IsTrue result → a ≡ b }
{
    a == b
}

impl NamedSet {
    fn is(self, other: NamedSet) -> bool
        ensures { IsTrue result → self ≡ other }
    {
        match self {
            NamedSet::Perl(kind) => match other {
                NamedSet::Perl(other) => same_perl(kind, other),
                _ => false,
            },
            NamedSet::Posix(kind) => match other {
                NamedSet::Posix(other) => same_posix(kind, other),
                _ => false,
            },
            NamedSet::Property(set) => match other {
                NamedSet::Property(other) => same_property(set, other),
                _ => false,
            },
        }
    }
}

impl SetKey {
    /// Both are the same.
    pub(crate) fn is(&self, other: SetKey) -> bool
        ensures { IsTrue result → self.now ≡ other }
    {
        if !same_flag(self.folded, other.folded) {
            return false;
        }
        if !same_flag(self.negated, other.negated) {
            return false;
        }
        self.set.is(other.set)
    }

    /// The set under the flags at it.
    pub(crate) fn new(flags: Flags, set: NamedSet, negated: bool) -> SetKey
        ensures { result ≡ key_of flags set negated }
    {
        SetKey {
            set,
            folded: flags.case_insensitive,
            negated,
        }
    }
}

impl ByteKey {
    /// Both are the same.
    pub(crate) fn is(&self, other: ByteKey) -> bool
        ensures { IsTrue result → self.now ≡ other }
    {
        if !same_flag(self.folded, other.folded) {
            return false;
        }
        if !same_flag(self.negated, other.negated) {
            return false;
        }
        same_posix(self.kind, other.kind)
    }

    /// The set under the flags at it.
    pub(crate) fn new(flags: Flags, kind: ClassAsciiKind, negated: bool) -> ByteKey
        ensures { result ≡ byte_key_of flags kind negated }
    {
        ByteKey {
            kind,
            folded: flags.case_insensitive,
            negated,
        }
    }
}

fn members_of(alloc: Global, set: NamedSet) -> Result<ClassUnicode, Memory>
    ensures { IfOk result (λ class. class ≡ members_of set) }
{
    match set {
        NamedSet::Perl(kind) => kind.unicode(alloc),
        NamedSet::Posix(kind) => class_of_bytes(alloc, kind.ranges()),
        NamedSet::Property(property) => property.scalars(alloc),
    }
}

fn in_either_case(folded: bool, members: ClassUnicode) -> Result<ClassUnicode, Memory>
    ensures { IfOk result (λ class. class ≡ either_case folded members) }
{
    if folded {
        return members.case_fold_simple();
    }
    Ok(members)
}

/// With the characters of either case, where that is asked for, and then those that are left, where it is negated.
pub(crate) fn under(
    alloc: Global,
    folded: bool,
    negated: bool,
    members: ClassUnicode,
) -> Result<ClassUnicode, Memory>
    ensures { IfOk result (λ class. class ≡ under folded negated members) }
{
    let all = in_either_case(folded, members)?;
    if negated {
        return all.complement(alloc);
    }
    Ok(all)
}

/// The scalars of a named set.
pub(crate) fn scalars_of(alloc: Global, key: SetKey) -> Result<ClassUnicode, Memory>
    ensures { IfOk result (λ class. class ≡ scalars_of key) }
{
    let members = members_of(alloc, key.set)?;
    under(alloc, key.folded, key.negated, members)
}
