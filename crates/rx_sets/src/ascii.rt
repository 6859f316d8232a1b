//! The sets of ASCII characters that have a name between `[:` and `:]`.
ghost use Rattle.std.specs.Prelude.{◌≡◌, bytes_eq};
ghost use Rattle.rx_class.specs.Ranges.{AreByteRanges};
ghost use Rattle.rx_sets.specs.Ascii.{ascii_ranges, ascii_named};

/// A set of ASCII characters.
#[derive(Clone, Copy, Debug, PartialEq, Eq)]
pub enum ClassAsciiKind {
    /// `0-9A-Za-z`
    Alnum,
    /// `A-Za-z`
    Alpha,
    /// All of ASCII.
    Ascii,
    /// Tab and space.
    Blank,
    /// The control characters: those below the space, and the last one.
    Cntrl,
    /// `0-9`
    Digit,
    /// The characters that leave a mark.
    Graph,
    /// `a-z`
    Lower,
    /// The characters that leave a mark, and the space.
    Print,
    /// The characters that leave a mark, but letters and digits.
    Punct,
    /// `\t\n\v\f\r` and the space.
    Space,
    /// `A-Z`
    Upper,
    /// `0-9A-Za-z_`
    Word,
    /// `0-9A-Fa-f`
    Xdigit,
}

impl ClassAsciiKind {
    /// The set of this name, if it is the name of one.
    pub fn from_name(name: &[char]) -> Option<ClassAsciiKind>
        ensures { result ≡ ascii_named name.now }
    {
        if is_name(name, &['a', 'l', 'n', 'u', 'm']) {
            Some(ClassAsciiKind::Alnum)
        } else if is_name(name, &['a', 'l', 'p', 'h', 'a']) {
            Some(ClassAsciiKind::Alpha)
        } else if is_name(name, &['a', 's', 'c', 'i', 'i']) {
            Some(ClassAsciiKind::Ascii)
        } else if is_name(name, &['b', 'l', 'a', 'n', 'k']) {
            Some(ClassAsciiKind::Blank)
        } else if is_name(name, &['c', 'n', 't', 'r', 'l']) {
            Some(ClassAsciiKind::Cntrl)
        } else if is_name(name, &['d', 'i', 'g', 'i', 't']) {
            Some(ClassAsciiKind::Digit)
        } else if is_name(name, &['g', 'r', 'a', 'p', 'h']) {
            Some(ClassAsciiKind::Graph)
        } else if is_name(name, &['l', 'o', 'w', 'e', 'r']) {
            Some(ClassAsciiKind::Lower)
        } else if is_name(name, &['p', 'r', 'i', 'n', 't']) {
            Some(ClassAsciiKind::Print)
        } else if is_name(name, &['p', 'u', 'n', 'c', 't']) {
            Some(ClassAsciiKind::Punct)
        } else if is_name(name, &['s', 'p', 'a', 'c', 'e']) {
            Some(ClassAsciiKind::Space)
        } else if is_name(name, &['u', 'p', 'p', 'e', 'r']) {
            Some(ClassAsciiKind::Upper)
        } else if is_name(name, &['w', 'o', 'r', 'd']) {
            Some(ClassAsciiKind::Word)
        } else if is_name(name, &['x', 'd', 'i', 'g', 'i', 't']) {
            Some(ClassAsciiKind::Xdigit)
        } else {
            None
        }
    }

    /// The members, as the fewest ranges in ascending order, each from its first member to its last.
    pub fn ranges(self) -> &'static [(u8, u8)]
        ensures value { result.now ≡ ascii_ranges self }
        ensures fewest { AreByteRanges result.now }
    {
        match self {
            ClassAsciiKind::Alnum => &[(b'0', b'9'), (b'A', b'Z'), (b'a', b'z')],
            ClassAsciiKind::Alpha => &[(b'A', b'Z'), (b'a', b'z')],
            ClassAsciiKind::Ascii => &[(0x00, 0x7F)],
            ClassAsciiKind::Blank => &[(b'\t', b'\t'), (b' ', b' ')],
            ClassAsciiKind::Cntrl => &[(0x00, 0x1F), (0x7F, 0x7F)],
            ClassAsciiKind::Digit => &[(b'0', b'9')],
            ClassAsciiKind::Graph => &[(b'!', b'~')],
            ClassAsciiKind::Lower => &[(b'a', b'z')],
            ClassAsciiKind::Print => &[(b' ', b'~')],
            ClassAsciiKind::Punct => &[(b'!', b'/'), (b':', b'@'), (b'[', b'`'), (b'{', b'~')],
            ClassAsciiKind::Space => &[(b'\t', b'\r'), (b' ', b' ')],
            ClassAsciiKind::Upper => &[(b'A', b'Z')],
            ClassAsciiKind::Word => &[(b'0', b'9'), (b'A', b'Z'), (b'_', b'_'), (b'a', b'z')],
            ClassAsciiKind::Xdigit => &[(b'0', b'9'), (b'A', b'F'), (b'a', b'f')],
        }
    }
}

fn is_name(name: &[char], of: &[char]) -> bool
    ensures { result ≡ bytes_eq of.now name.now }
{
    of == name
}
