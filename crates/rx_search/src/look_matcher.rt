//! Where look-arounds hold.
ghost use Rattle.std.specs.Prelude.{◌≡◌, ◌≤◌, ◌↔◌, IsTrue, Bool, true, length};
ghost use Rattle.unicode.specs.Perl.{is_word_char, is_word_byte};
ghost use Rattle.rx_model.specs.Look.{holds, is_some_and};
ghost use Rattle.rx_model.specs.Look as model;
ghost use Rattle.rx_search.specs.Look.{kind_of};
ghost use Rattle.rx_search.specs.LookSet.{AllHold};

use crate::look::Look;
use crate::look_set::LookSet;
use std::marker::Model;
use unicode::perl::is_word_character;

/// Tells where look-arounds hold.
#[derive(Clone, Copy, Debug, PartialEq, Eq)]
pub struct LookMatcher {
    line_terminator: u8,
}

impl Model for LookMatcher {
    ghost use Rattle.std.specs.Prelude.{ℕ};

    ghost Value = { ℕ };

    ghost view = { λ m. m.line_terminator };

    ghost inverse = { λ n. record { line_terminator = n } };
}

impl LookMatcher {
    /// A matcher whose line terminator is `\n`.
    pub fn new() -> LookMatcher
        ensures { result ≡ 10 }
    {
        LookMatcher {
            line_terminator: b'\n',
        }
    }

    /// Sets the byte that `Look::StartLF` and `Look::EndLF` take for the end of a line.
    pub fn set_line_terminator(&mut self, byte: u8)
        ensures { self.new ≡ byte }
    {
        self.line_terminator = byte;
    }

    /// The byte that `Look::StartLF` and `Look::EndLF` take for the end of a line.
    pub fn get_line_terminator(&self) -> u8
        ensures { result ≡ self.now }
    {
        self.line_terminator
    }

    /// Whether the look-around holds at the byte offset `at`. It reads no more than the character on either
    /// side of it.
    #[tactic(auto, unfolding(rx_model::specs::Look::holds))]
    pub fn matches(&self, look: Look, haystack: &[u8], at: usize) -> bool
        requires { at ≤ length haystack.now }
        ensures { result ≡ holds self.now haystack.now (kind_of look) at }
    {
        match look {
            Look::Start => at == 0,
            Look::End => at == haystack.len(),
            Look::StartLF => is_line_start(haystack, at, self.line_terminator),
            Look::EndLF => is_line_end(haystack, at, self.line_terminator),
            Look::StartCRLF => is_crlf_line_start(haystack, at),
            Look::EndCRLF => is_crlf_line_end(haystack, at),
            Look::WordAscii => is_word_byte_before(haystack, at)
                != is_word_byte_after(haystack, at),
            Look::WordAsciiNegate => {
                is_word_byte_before(haystack, at) == is_word_byte_after(haystack, at)
            }
            Look::WordUnicode => is_word_before(haystack, at) != is_word_after(haystack, at),
            Look::WordUnicodeNegate => is_no_word_boundary(haystack, at),
            Look::WordStartAscii => {
                !is_word_byte_before(haystack, at) && is_word_byte_after(haystack, at)
            }
            Look::WordEndAscii => {
                is_word_byte_before(haystack, at) && !is_word_byte_after(haystack, at)
            }
            Look::WordStartUnicode => !is_word_before(haystack, at) && is_word_after(haystack, at),
            Look::WordEndUnicode => is_word_before(haystack, at) && !is_word_after(haystack, at),
            Look::WordStartHalfAscii => !is_word_byte_before(haystack, at),
            Look::WordEndHalfAscii => !is_word_byte_after(haystack, at),
            Look::WordStartHalfUnicode => is_word_start_half(haystack, at),
            Look::WordEndHalfUnicode => is_word_end_half(haystack, at),
        }
    }

    /// Whether each look-around of the set holds at the byte offset `at`.
    pub fn matches_set(&self, set: LookSet, haystack: &[u8], at: usize) -> bool
        requires { at ≤ length haystack.now }
        ensures { IsTrue result ↔ AllHold self.now haystack.now set at }
    {
        for look in set.iter() {
            if !self.matches(look, haystack, at) {
                return false;
            }
        }
        true
    }
}

/// The byte before `at` is `byte`.
fn is_before(haystack: &[u8], at: usize, byte: u8) -> bool
    requires { at ≤ length haystack.now }
    ensures { result ≡ model.is_before haystack.now at byte }
{
    at > 0 && haystack[at - 1] == byte
}

/// The byte at `at` is `byte`.
fn is_after(haystack: &[u8], at: usize, byte: u8) -> bool
    requires { at ≤ length haystack.now }
    ensures { result ≡ model.is_after haystack.now at byte }
{
    at < haystack.len() && haystack[at] == byte
}

/// A line starts at `at`, where the terminator ends lines.
fn is_line_start(haystack: &[u8], at: usize, terminator: u8) -> bool
    requires { at ≤ length haystack.now }
    ensures { result ≡ model.is_line_start haystack.now at terminator }
{
    at == 0 || is_before(haystack, at, terminator)
}

/// A line ends at `at`, where the terminator ends lines.
fn is_line_end(haystack: &[u8], at: usize, terminator: u8) -> bool
    requires { at ≤ length haystack.now }
    ensures { result ≡ model.is_line_end haystack.now at terminator }
{
    at == haystack.len() || is_after(haystack, at, terminator)
}

/// A line starts at `at`, where `\r`, `\n` and `\r\n` end lines.
fn is_crlf_line_start(haystack: &[u8], at: usize) -> bool
    requires { at ≤ length haystack.now }
    ensures { result ≡ model.is_crlf_line_start haystack.now at }
{
    at == 0
        || is_before(haystack, at, b'\n')
        || (is_before(haystack, at, b'\r') && !is_after(haystack, at, b'\n'))
}

/// A line ends at `at`, where `\r`, `\n` and `\r\n` end lines.
fn is_crlf_line_end(haystack: &[u8], at: usize) -> bool
    requires { at ≤ length haystack.now }
    ensures { result ≡ model.is_crlf_line_end haystack.now at }
{
    at == haystack.len()
        || is_after(haystack, at, b'\r')
        || (is_after(haystack, at, b'\n') && !is_before(haystack, at, b'\r'))
}

fn is_word_byte(byte: u8) -> bool
    ensures { result ≡ is_word_byte byte }
{
    byte.is_ascii_alphanumeric() || byte == b'_'
}

/// The byte before `at` is one of a word.
fn is_word_byte_before(haystack: &[u8], at: usize) -> bool
    requires { at ≤ length haystack.now }
    ensures { result ≡ model.word_byte_before haystack.now at }
{
    at > 0 && is_word_byte(haystack[at - 1])
}

/// The byte at `at` is one of a word.
fn is_word_byte_after(haystack: &[u8], at: usize) -> bool
    requires { at ≤ length haystack.now }
    ensures { result ≡ model.word_byte_after haystack.now at }
{
    at < haystack.len() && is_word_byte(haystack[at])
}

/// The character whose UTF-8 encoding ends at `at`.
fn char_before(haystack: &[u8], at: usize) -> Option<char>
    requires { at ≤ length haystack.now }
    ensures { result ≡ model.char_before haystack.now at }
{
    bstr::decode_last_utf8(&haystack[..at]).0
}

/// The character whose UTF-8 encoding begins at `at`.
fn char_after(haystack: &[u8], at: usize) -> Option<char>
    requires { at ≤ length haystack.now }
    ensures { result ≡ model.char_after haystack.now at }
{
    bstr::decode_utf8(&haystack[at..]).0
}

/// There is a character, and it is one of a word.
fn is_word(character: Option<char>) -> bool
    ensures { result ≡ is_some_and character is_word_char }
{
    match character {
        Some(c) => is_word_character(c),
        None => false,
    }
}

fn is_word_before(haystack: &[u8], at: usize) -> bool
    requires { at ≤ length haystack.now }
    ensures { result ≡ model.word_char_before haystack.now at }
{
    is_word(char_before(haystack, at))
}

fn is_word_after(haystack: &[u8], at: usize) -> bool
    requires { at ≤ length haystack.now }
    ensures { result ≡ model.word_char_after haystack.now at }
{
    is_word(char_after(haystack, at))
}

/// Characters, or an end of the haystack, on both sides, and a word character on both or on neither.
fn is_no_word_boundary(haystack: &[u8], at: usize) -> bool
    requires { at ≤ length haystack.now }
    ensures { result ≡ model.is_no_word_boundary haystack.now at }
{
    let before = char_before(haystack, at);
    let after = char_after(haystack, at);
    (at == 0 || before.is_some())
        && (at == haystack.len() || after.is_some())
        && is_word(before) == is_word(after)
}

/// No word goes on before `at`, and a character or the start of the haystack is there.
fn is_word_start_half(haystack: &[u8], at: usize) -> bool
    requires { at ≤ length haystack.now }
    ensures { result ≡ model.is_word_start_half haystack.now at }
{
    let before = char_before(haystack, at);
    (at == 0 || before.is_some()) && !is_word(before)
}

/// No word goes on after `at`, and a character or the end of the haystack is there.
fn is_word_end_half(haystack: &[u8], at: usize) -> bool
    requires { at ≤ length haystack.now }
    ensures { result ≡ model.is_word_end_half haystack.now at }
{
    let after = char_after(haystack, at);
    (at == haystack.len() || after.is_some()) && !is_word(after)
}
