//! Kinds of look-around.
ghost use Rattle.std.specs.Prelude.{◌≡◌, ◌^◌, option_map};
ghost use Rattle.rx_model.specs.Look.{look_number, look_of};
ghost use Rattle.rx_search.specs.Look.{kind_of};

/// What a look-around asks for at a place of a haystack. It sees the whole haystack, also outside the span
/// that is searched, and matches no bytes.
///
/// A word byte is one of `0-9A-Za-z_`. A word character is one that Unicode counts as alphabetic, a mark, a
/// decimal number, connector punctuation or a join control; where no UTF-8 encoding of a character ends at
/// the place there is none before it, and where none begins there is none after it.
#[derive(Clone, Copy, Debug, PartialEq, Eq)]
pub enum Look {
    /// The start of the haystack: `\A`.
    Start,
    /// The end of the haystack: `\z`.
    End,
    /// The start of a line, after a line terminator: `(?m:^)`.
    StartLF,
    /// The end of a line, before a line terminator: `(?m:$)`.
    EndLF,
    /// The start of a line, where `\r`, `\n` and `\r\n` end lines: `(?mR:^)`.
    StartCRLF,
    /// The end of a line, where `\r`, `\n` and `\r\n` end lines: `(?mR:$)`.
    EndCRLF,
    /// A word byte on one side alone: `(?-u:\b)`.
    WordAscii,
    /// A word byte on both sides, or on neither: `(?-u:\B)`.
    WordAsciiNegate,
    /// A word character on one side alone: `\b`.
    WordUnicode,
    /// A word character on both sides, or on neither, and valid UTF-8 on both: `\B`.
    WordUnicodeNegate,
    /// A word byte after the place and none before it: `(?-u:\b{start})`.
    WordStartAscii,
    /// A word byte before the place and none after it: `(?-u:\b{end})`.
    WordEndAscii,
    /// A word character after the place and none before it: `\b{start}`.
    WordStartUnicode,
    /// A word character before the place and none after it: `\b{end}`.
    WordEndUnicode,
    /// No word byte before the place: `(?-u:\b{start-half})`.
    WordStartHalfAscii,
    /// No word byte after the place: `(?-u:\b{end-half})`.
    WordEndHalfAscii,
    /// Before the place a character that is no word character, or nothing: `\b{start-half}`.
    WordStartHalfUnicode,
    /// After the place a character that is no word character, or nothing: `\b{end-half}`.
    WordEndHalfUnicode,
}

impl Look {
    /// The bit that stands for the kind in a set.
    pub(crate) fn as_repr(self) -> u32
        ensures { result ≡ 2 ^ look_number (kind_of self) }
    {
        match self {
            Look::Start => 0x1,
            Look::End => 0x2,
            Look::StartLF => 0x4,
            Look::EndLF => 0x8,
            Look::StartCRLF => 0x10,
            Look::EndCRLF => 0x20,
            Look::WordAscii => 0x40,
            Look::WordAsciiNegate => 0x80,
            Look::WordUnicode => 0x100,
            Look::WordUnicodeNegate => 0x200,
            Look::WordStartAscii => 0x400,
            Look::WordEndAscii => 0x800,
            Look::WordStartUnicode => 0x1000,
            Look::WordEndUnicode => 0x2000,
            Look::WordStartHalfAscii => 0x4000,
            Look::WordEndHalfAscii => 0x8000,
            Look::WordStartHalfUnicode => 0x1_0000,
            Look::WordEndHalfUnicode => 0x2_0000,
        }
    }

    /// The kind of a number, which is its place among the kinds; None exactly from 18 on.
    pub(crate) fn from_number(number: u32) -> Option<Look>
        ensures { option_map kind_of result ≡ look_of number }
    {
        Some(match number {
            0 => Look::Start,
            1 => Look::End,
            2 => Look::StartLF,
            3 => Look::EndLF,
            4 => Look::StartCRLF,
            5 => Look::EndCRLF,
            6 => Look::WordAscii,
            7 => Look::WordAsciiNegate,
            8 => Look::WordUnicode,
            9 => Look::WordUnicodeNegate,
            10 => Look::WordStartAscii,
            11 => Look::WordEndAscii,
            12 => Look::WordStartUnicode,
            13 => Look::WordEndUnicode,
            14 => Look::WordStartHalfAscii,
            15 => Look::WordEndHalfAscii,
            16 => Look::WordStartHalfUnicode,
            17 => Look::WordEndHalfUnicode,
            _ => return None,
        })
    }
}
