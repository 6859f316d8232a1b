//! What a backslash and the characters after it stand for.
ghost use Rattle.std.specs.Prelude.{◌≡◌, ◌<◌, ◌≤◌, true, false, [], ◌∷◌, length, nat_eq, if◌then◌else◌, IfOk, MatchOption, IsTrue, OnOk};
ghost use Rattle.std.specs.Char.{is_digit, digit_value};
ghost use Rattle.std.specs.List.{starts_with};
ghost use Rattle.std.specs.Str.Parse.{digits_value};
ghost use Rattle.rx_reader.specs.Reading.{Place, at_end, first, past, passes, past_all};
ghost use Rattle.rx_reader.specs.Ahead.{past_n};
ghost use Rattle.rx_reader.specs.Escapes.{leading, in_name, digits, character, numbered, hex_digits, hex_in_braces, hex, octal_digits, property_in_braces, property, perl_class, assertion, is_escapable, escaped_character, one_letter, boundary, known, lettered, escape};
ghost use Rattle.rx_reader.specs.Input.{place, unread, Reads};

use crate::assertion::AssertionKind;
use crate::class_item::ClassCharacter;
use crate::cursor::Cursor;
use crate::error::{ParseError, SyntaxErrorKind};
use crate::text::Text;
use rx_sets::ClassPerlKind;
use std::alloc::AllocError;

/// What an escape stands for.
#[derive(Drop)]
pub(crate) enum Escaped {
    Character(ClassCharacter),
    Assertion(AssertionKind),
    /// `\d`, `\s` or `\w`, or with a capital, where it is negated.
    Perl { kind: ClassPerlKind, negated: bool },
    /// `\pX` or `\p{name}`; `\P` and a `^` before the name each negate it.
    Property { name: Text, negated: bool },
}

/// Digits in a row: the number that they write, and how many they are.
#[derive(Clone, Copy)]
struct Digits {
    value: u32,
    count: usize,
}

/// Where a name stands, and so what ends it.
#[derive(Clone, Copy)]
pub(crate) enum NameIn {
    /// `{name}`
    Braces,
    /// `[:name:]`
    Brackets,
}

impl NameIn {
    fn holds(self, c: char) -> bool
        ensures { result ≡ in_name self c }
    {
        match self {
            NameIn::Braces => c != '}',
            NameIn::Brackets => c.is_ascii_lowercase(),
        }
    }
}

/// Moves past the word, if it stands at the position.
fn bump_word(cursor: &mut Cursor, word: &[char]) -> bool
    ensures value { result ≡ starts_with nat_eq (place cursor.old).text word.now }
    ensures place { place cursor.new ≡ (if result then past_n (length word.now) (place cursor.old) else place cursor.old) }
    ensures progress { unread cursor.new ≤ unread cursor.old }
{
    let found = cursor.begins(word);
    if found {
        cursor.bump_by(word.len());
    }
    found
}

/// Whether a character of a name stands at the position.
fn is_in_name(cursor: &Cursor, inside: NameIn) -> bool
    ensures value { result ≡ passes (in_name inside) (place cursor.now) }
    ensures more { IsTrue result → 0 < unread cursor.now }
{
    match cursor.current() {
        Some(c) => inside.holds(c),
        None => false,
    }
}

/// Reads the characters of a name, up to what ends it.
pub(crate) fn read_name(cursor: &mut Cursor, inside: NameIn) -> Result<Vec<char>, AllocError>
    ensures name { IfOk result (λ name. name.items ≡ leading (in_name inside) (place cursor.old).text) }
    ensures value { IfOk result (λ name. place cursor.new ≡ past_all (in_name inside) (place cursor.old)) }
    ensures progress { unread cursor.new ≤ unread cursor.old }
{
    let mut name = Vec::new(cursor.alloc());
    while is_in_name(cursor, inside) {
        name.push(cursor.first())?;
        cursor.bump();
    }
    Ok(name)
}

/// The value of the digit at the position, if there is one.
fn digit(cursor: &Cursor, radix: u32) -> Option<u32>
    requires radix { 2 ≤ radix }
    requires small { radix ≤ 16 }
    ensures { MatchOption result (passes (λ c. is_digit c radix) (place cursor.now) ≡ false)
        (λ d. (0 < unread cursor.now) × (passes (λ c. is_digit c radix) (place cursor.now) ≡ true)
        × (d ≡ digit_value (first (place cursor.now))) × (d < radix)) }
{
    match cursor.current() {
        Some(c) => c.to_digit(radix),
        None => None,
    }
}

/// Reads the digits at the position, so many at most.
fn read_digits(cursor: &mut Cursor, radix: u32, most: usize) -> Digits
    requires radix { 2 ≤ radix }
    requires small { radix ≤ 16 }
    requires few { most ≤ 8 }
    ensures number { result.value ≡ digits_value radix (digits radix most (place cursor.old)) }
    ensures count { result.count ≡ length (digits radix most (place cursor.old)) }
    ensures value { place cursor.new ≡ past_n result.count (place cursor.old) }
    ensures progress { unread cursor.new ≤ unread cursor.old }
{
    let mut value = 0;
    let mut count = 0;
    while count < most {
        match digit(cursor, radix) {
            Some(digit) => {
                value = value * radix + digit;
                count += 1;
                cursor.bump();
            }
            None => return Digits { value, count },
        }
    }
    Digits { value, count }
}

fn character(c: char, is_hex_byte: bool) -> Escaped
    ensures { result ≡ character is_hex_byte c }
{
    Escaped::Character(ClassCharacter {
        character: c,
        is_hex_byte,
    })
}

/// The character of the number, in an escape from `start` to the position.
fn numbered(
    cursor: &Cursor,
    start: usize,
    is_hex_byte: bool,
    code: u32,
) -> Result<Escaped, ParseError>
    ensures { (from : Place) → start ≡ from.at → Reads result (numbered from is_hex_byte code (place cursor.now)) (place cursor.now) }
{
    match char::from_u32(code) {
        Some(c) => Ok(character(c, is_hex_byte)),
        None => Err(cursor.refuse_from(start, SyntaxErrorKind::Escape)),
    }
}

/// Reads so many digits of base 16.
fn hex_digits(cursor: &mut Cursor, start: usize, count: usize) -> Result<Escaped, ParseError>
    requires { count ≤ 8 }
    ensures value { (from : Place) → start ≡ from.at → Reads result (hex_digits from count (place cursor.old)) (place cursor.new) }
    ensures progress { unread cursor.new ≤ unread cursor.old }
{
    let digits = read_digits(cursor, 16, count);
    if digits.count != count {
        return Err(cursor.refuse_from(start, SyntaxErrorKind::Escape));
    }
    numbered(cursor, start, count == 2, digits.value)
}

/// Reads one to eight digits of base 16, and the closing brace.
fn hex_in_braces(cursor: &mut Cursor, start: usize) -> Result<Escaped, ParseError>
    ensures value { (from : Place) → start ≡ from.at → Reads result (hex_in_braces from (place cursor.old)) (place cursor.new) }
    ensures progress { unread cursor.new ≤ unread cursor.old }
{
    let digits = read_digits(cursor, 16, 8);
    if digits.count == 0 || !cursor.is_at(&['}']) {
        return Err(cursor.refuse_from(start, SyntaxErrorKind::Escape));
    }
    cursor.bump();
    numbered(cursor, start, false, digits.value)
}

/// Reads what stands after `\x`, `\u` or `\U`, with so many digits where there are no braces.
fn hex(cursor: &mut Cursor, start: usize, count: usize) -> Result<Escaped, ParseError>
    requires { count ≤ 8 }
    ensures value { (from : Place) → start ≡ from.at → Reads result (hex from count (place cursor.old)) (place cursor.new) }
    ensures progress { unread cursor.new ≤ unread cursor.old }
{
    if cursor.bump_over(&['{']) {
        return hex_in_braces(cursor, start);
    }
    hex_digits(cursor, start, count)
}

/// Reads one to three digits of base 8.
fn octal_digits(cursor: &mut Cursor, start: usize) -> Result<Escaped, ParseError>
    ensures value { (from : Place) → start ≡ from.at → Reads result (octal_digits from (place cursor.old)) (place cursor.new) }
    ensures progress { unread cursor.new ≤ unread cursor.old }
{
    let digits = read_digits(cursor, 8, 3);
    numbered(cursor, start, false, digits.value)
}

/// Reads a name, up to the closing brace.
fn property_in_braces(
    cursor: &mut Cursor,
    start: usize,
    negated: bool,
) -> Result<Escaped, ParseError>
    ensures value { (from : Place) → start ≡ from.at → Reads result (property_in_braces from negated (place cursor.old)) (place cursor.new) }
    ensures progress { unread cursor.new ≤ unread cursor.old }
{
    let chars = read_name(cursor, NameIn::Braces)?;
    let name = Text::new(cursor.alloc(), chars)?;
    if cursor.is_at_end() {
        return Err(cursor.refuse_from(start, SyntaxErrorKind::Escape));
    }
    cursor.bump();
    Ok(Escaped::Property { name, negated })
}

/// Reads a name of one character.
fn property_of_letter(cursor: &mut Cursor, negated: bool) -> Escaped
    requires { 0 < unread cursor.old }
    ensures value { result ≡ Escaped.Property (first (place cursor.old) ∷ []) negated }
    ensures place { place cursor.new ≡ past (place cursor.old) }
    ensures progress { unread cursor.new ≤ unread cursor.old }
{
    let name = Text::one(cursor.first());
    cursor.bump();
    Escaped::Property { name, negated }
}

/// Reads what stands after `\p` or `\P`: a name of one character, or one in braces.
fn property(cursor: &mut Cursor, start: usize, negated: bool) -> Result<Escaped, ParseError>
    ensures value { (from : Place) → start ≡ from.at → Reads result (property from negated (place cursor.old)) (place cursor.new) }
    ensures progress { unread cursor.new ≤ unread cursor.old }
{
    if cursor.is_at_end() {
        return Err(cursor.refuse_from(start, SyntaxErrorKind::Escape));
    }
    // Whether there is such a set is asked later (DECISIONS: `\pX` takes any character but `{`).
    if !cursor.bump_over(&['{']) {
        return Ok(property_of_letter(cursor, negated));
    }
    if cursor.bump_over(&['^']) {
        // The `P` and the `^` each count (DECISIONS: `\P{^x}` is complemented twice).
        return property_in_braces(cursor, start, !negated);
    }
    property_in_braces(cursor, start, negated)
}

fn perl_class(c: char) -> Option<(ClassPerlKind, bool)>
    ensures { result ≡ perl_class c }
{
    match c {
        'd' => Some((ClassPerlKind::Digit, false)),
        'D' => Some((ClassPerlKind::Digit, true)),
        's' => Some((ClassPerlKind::Space, false)),
        'S' => Some((ClassPerlKind::Space, true)),
        'w' => Some((ClassPerlKind::Word, false)),
        'W' => Some((ClassPerlKind::Word, true)),
        _ => None,
    }
}

fn assertion(c: char) -> Option<AssertionKind>
    ensures { result ≡ assertion c }
{
    match c {
        'A' => Some(AssertionKind::StartText),
        'z' => Some(AssertionKind::EndText),
        'B' => Some(AssertionKind::NotWordBoundary),
        '<' => Some(AssertionKind::WordBoundaryStart),
        '>' => Some(AssertionKind::WordBoundaryEnd),
        _ => None,
    }
}

/// What stands for itself after a backslash.
fn is_escapable(c: char) -> bool
    ensures { result ≡ is_escapable c }
{
    c.is_ascii() && !(c.is_ascii_alphabetic() || c.is_ascii_digit() || c == '<' || c == '>')
}

fn escaped_character(c: char) -> Option<char>
    ensures { result ≡ escaped_character c }
{
    match c {
        'a' => Some('\x07'),
        'f' => Some('\x0C'),
        't' => Some('\t'),
        'n' => Some('\n'),
        'r' => Some('\r'),
        'v' => Some('\x0B'),
        _ if is_escapable(c) => Some(c),
        _ => None,
    }
}

/// What the backslash and this one character stand for.
fn one_letter(c: char) -> Option<Escaped>
    ensures { result ≡ one_letter c }
{
    match perl_class(c) {
        Some(found) => Some(Escaped::Perl {
            kind: found.0,
            negated: found.1,
        }),
        None => match assertion(c) {
            Some(kind) => Some(Escaped::Assertion(kind)),
            None => match escaped_character(c) {
                Some(c) => Some(character(c, false)),
                None => None,
            },
        },
    }
}

/// Reads what stands after `\b`.
fn boundary(cursor: &mut Cursor) -> AssertionKind
    ensures value { (result, place cursor.new) ≡ boundary (place cursor.old) }
    ensures progress { unread cursor.new ≤ unread cursor.old }
{
    if bump_word(cursor, &['{', 's', 't', 'a', 'r', 't', '}']) {
        return AssertionKind::WordBoundaryStart;
    }
    if bump_word(cursor, &['{', 'e', 'n', 'd', '}']) {
        return AssertionKind::WordBoundaryEnd;
    }
    if bump_word(
        cursor,
        &['{', 's', 't', 'a', 'r', 't', '-', 'h', 'a', 'l', 'f', '}'],
    ) {
        return AssertionKind::WordBoundaryStartHalf;
    }
    if bump_word(cursor, &['{', 'e', 'n', 'd', '-', 'h', 'a', 'l', 'f', '}']) {
        return AssertionKind::WordBoundaryEndHalf;
    }
    AssertionKind::WordBoundary
}

/// Reads the escape of one letter, which stands at the position.
fn known(cursor: &mut Cursor, start: usize, c: char) -> Result<Escaped, ParseError>
    requires { 0 < unread cursor.old }
    ensures value { (from : Place) → start ≡ from.at → Reads result (known from (place cursor.old) (one_letter c)) (place cursor.new) }
    ensures progress { unread cursor.new ≤ unread cursor.old }
{
    match one_letter(c) {
        Some(escaped) => {
            cursor.bump();
            Ok(escaped)
        }
        // The letter is not in it (DECISIONS: an escape of one letter that is unknown).
        None => Err(cursor.refuse_from(start, SyntaxErrorKind::Escape)),
    }
}

/// Reads from the letter after the backslash on.
fn lettered(cursor: &mut Cursor, start: usize) -> Result<Escaped, ParseError>
    requires { 0 < unread cursor.old }
    ensures value { (from : Place) → start ≡ from.at → Reads result (lettered from (place cursor.old)) (place cursor.new) }
    ensures progress { unread cursor.new ≤ unread cursor.old }
{
    let c = cursor.first();
    match c {
        'x' => {
            cursor.bump();
            hex(cursor, start, 2)
        }
        'u' => {
            cursor.bump();
            hex(cursor, start, 4)
        }
        'U' => {
            cursor.bump();
            hex(cursor, start, 8)
        }
        'p' => {
            cursor.bump();
            property(cursor, start, false)
        }
        'P' => {
            cursor.bump();
            property(cursor, start, true)
        }
        'b' => {
            cursor.bump();
            Ok(Escaped::Assertion(boundary(cursor)))
        }
        _ => known(cursor, start, c),
    }
}

/// Reads an escape, from the backslash on; digits of base 8 where `octal` is set.
pub(crate) fn escape(cursor: &mut Cursor, octal: bool) -> Result<Escaped, ParseError>
    requires { 0 < unread cursor.old }
    ensures value { Reads result (escape octal (place cursor.old)) (place cursor.new) }
    ensures progress { OnOk result (unread cursor.new < unread cursor.old) }
{
    let start = cursor.at();
    cursor.bump();
    if cursor.is_at_end() {
        return Err(cursor.refuse_from(start, SyntaxErrorKind::Escape));
    }
    let c = cursor.first();
    // Else any digit is unsupported (DECISIONS: octal escapes).
    if octal && c.is_digit(8) {
        return octal_digits(cursor, start);
    }
    if !octal && c.is_ascii_digit() {
        cursor.bump();
        return Err(cursor.refuse_from(start, SyntaxErrorKind::Unsupported));
    }
    lettered(cursor, start)
}
