//! The operators of repetition.
ghost use Rattle.std.specs.Prelude.{◌≡◌, ℕ, ◌+◌, ◌-◌, ◌*◌, ◌≤◌, ◌<◌, List, chars, length, true, OnOk, IfOk};
ghost use Rattle.std.specs.List.{take_while};
ghost use Rattle.std.specs.Char.{is_ascii_digit};
ghost use Rattle.rx_reader.specs.Reading.{Place};
ghost use Rattle.rx_reader.specs.Input.{place, unread, Reads, HasRoom};
ghost use Rattle.rx_reader.specs.Counts.{within, numeral, number_of, read_number, read_max, max_after, is_below, close_counts, read_counts, counts_of, with_greed, operator, AreInOrder};

use crate::cursor::Cursor;
use crate::error::{ParseError, SyntaxErrorKind};
use crate::flags::Flags;

/// How often an item is repeated.
#[derive(Clone, Copy)]
pub(crate) struct Counts {
    min: u32,
    max: Option<u32>,
}

/// An operator of repetition.
#[derive(Clone, Copy)]
pub(crate) struct Operator {
    pub(crate) min: u32,
    pub(crate) max: Option<u32>,
    pub(crate) greedy: bool,
}

/// Digits: how many there are, and the count that they write, if it isn't above the greatest.
#[derive(Clone, Copy)]
struct Digits {
    len: usize,
    value: Option<u32>,
}

/// The count with one digit more.
fn with_digit(value: Option<u32>, digit: char) -> Option<u32>
    requires { is_ascii_digit digit ≡ true }
    ensures { (n : ℕ) → value ≡ within n → result ≡ within (n * 10 + (digit - 48)) }
{
    value?
        .checked_mul(10)?
        .checked_add(digit as u32 - '0' as u32)
}

/// The digits in front.
fn digits_of(text: &str) -> Digits
    ensures len { result.len ≡ length (take_while is_ascii_digit (chars text.now)) }
    ensures value { result.value ≡ within (numeral (take_while is_ascii_digit (chars text.now))) }
{
    let mut len = 0;
    let mut value = Some(0);
    for c in text.chars() {
        if !c.is_ascii_digit() {
            return Digits { len, value };
        }
        value = with_digit(value, c);
        len += 1;
    }
    Digits { len, value }
}

/// The count that the digits write, if there are any.
fn number_of(digits: Digits) -> Option<u32>
    ensures { (ds : List ℕ) → digits.len ≡ length ds → digits.value ≡ within (numeral ds) → result ≡ number_of ds }
{
    if digits.len == 0 { None } else { digits.value }
}

/// Reads a count, with the white space round it, of the operator that begins at `start`.
fn read_number(cursor: &mut Cursor, start: usize, flags: Flags) -> Result<u32, ParseError>
    ensures value { (from : Place) → start ≡ from.at → Reads result (read_number from flags (place cursor.old)) (place cursor.new) }
    ensures progress { OnOk result (unread cursor.new ≤ unread cursor.old) }
    ensures kept { HasRoom cursor.old → HasRoom cursor.new }
{
    cursor.skip_white(flags.ignore_whitespace);
    let digits = digits_of(cursor.rest());
    cursor.bump_by(digits.len);
    match number_of(digits) {
        Some(number) => {
            cursor.skip_white(flags.ignore_whitespace);
            Ok(number)
        }
        None => Err(cursor.refuse_from(start, SyntaxErrorKind::RepeatCount)),
    }
}

/// Reads what follows the comma: the greatest count, if there is one.
fn read_max(cursor: &mut Cursor, start: usize, flags: Flags) -> Result<Option<u32>, ParseError>
    ensures value { (from : Place) → start ≡ from.at → Reads result (read_max from flags (place cursor.old)) (place cursor.new) }
    ensures progress { OnOk result (unread cursor.new ≤ unread cursor.old) }
    ensures kept { HasRoom cursor.old → HasRoom cursor.new }
{
    cursor.skip_white(flags.ignore_whitespace);
    if cursor.is_at(&['}']) {
        return Ok(None);
    }
    let number = read_number(cursor, start, flags)?;
    Ok(Some(number))
}

/// Reads the greatest count after the least one, which is the same where there is no comma.
fn max_after(
    cursor: &mut Cursor,
    start: usize,
    flags: Flags,
    min: u32,
) -> Result<Option<u32>, ParseError>
    ensures value { (from : Place) → start ≡ from.at → Reads result (max_after from flags min (place cursor.old)) (place cursor.new) }
    ensures progress { OnOk result (unread cursor.new ≤ unread cursor.old) }
    ensures kept { HasRoom cursor.old → HasRoom cursor.new }
{
    if !cursor.bump_over(&[',']) {
        return Ok(Some(min));
    }
    read_max(cursor, start, flags)
}

/// Whether the greatest count is below the least.
fn is_below(max: Option<u32>, min: u32) -> bool
    ensures { result ≡ is_below max min }
{
    match max {
        Some(max) => max < min,
        None => false,
    }
}

/// Reads the brace that closes counts.
fn close_counts(
    cursor: &mut Cursor,
    start: usize,
    min: u32,
    max: Option<u32>,
) -> Result<Counts, ParseError>
    ensures value { (from : Place) → start ≡ from.at → Reads result (close_counts from min max (place cursor.old)) (place cursor.new) }
    ensures in_order { IfOk result (λ c. AreInOrder c.min c.max) }
    ensures progress { OnOk result (unread cursor.new ≤ unread cursor.old) }
    ensures kept { HasRoom cursor.old → HasRoom cursor.new }
{
    if !cursor.bump_over(&['}']) {
        return Err(cursor.refuse_from(start, SyntaxErrorKind::RepeatCount));
    }
    // The brace was read (DECISIONS: a count that is out of order).
    if is_below(max, min) {
        return Err(cursor.refuse_from(start, SyntaxErrorKind::RepeatCount));
    }
    Ok(Counts { min, max })
}

/// Reads counts, from `{` to `}`.
fn read_counts(cursor: &mut Cursor, flags: Flags) -> Result<Counts, ParseError>
    requires { 0 < unread cursor.old }
    ensures value { Reads result (read_counts flags (place cursor.old)) (place cursor.new) }
    ensures in_order { IfOk result (λ c. AreInOrder c.min c.max) }
    ensures progress { OnOk result (unread cursor.new < unread cursor.old) }
    ensures kept { HasRoom cursor.old → HasRoom cursor.new }
{
    let start = cursor.at();
    cursor.bump();
    let min = read_number(cursor, start, flags)?;
    let max = max_after(cursor, start, flags, min)?;
    close_counts(cursor, start, min, max)
}

/// The counts that `*`, `+` and `?` stand for.
fn counts_of(c: char) -> Counts
    ensures value { result ≡ counts_of c }
    ensures in_order { AreInOrder result.min result.max }
{
    Counts {
        min: if c == '+' { 1 } else { 0 },
        max: if c == '?' { Some(1) } else { None },
    }
}

/// An operator with these counts; a `?` turns the greed round, and so does the flag.
fn with_greed(counts: Counts, lazy: bool, flags: Flags) -> Operator
    ensures { result ≡ with_greed counts lazy flags }
{
    Operator {
        min: counts.min,
        max: counts.max,
        greedy: lazy == flags.swap_greed,
    }
}

/// Reads `*`, `+`, `?` or counts, and a `?` after it.
pub(crate) fn read_operator(cursor: &mut Cursor, flags: Flags) -> Result<Operator, ParseError>
    requires { 0 < unread cursor.old }
    ensures value { Reads result (operator flags (place cursor.old)) (place cursor.new) }
    ensures in_order { IfOk result (λ o. AreInOrder o.min o.max) }
    ensures progress { OnOk result (unread cursor.new < unread cursor.old) }
    ensures kept { HasRoom cursor.old → HasRoom cursor.new }
{
    if cursor.is_at(&['*', '+', '?']) {
        let counts = counts_of(cursor.first());
        cursor.bump();
        let lazy = cursor.bump_over_question();
        return Ok(with_greed(counts, lazy, flags));
    }
    if cursor.begins(&['{', ',']) {
        let start = cursor.at();
        cursor.bump_by(2);
        return Err(cursor.refuse_from(start, SyntaxErrorKind::Unsupported));
    }
    let counts = read_counts(cursor, flags)?;
    let lazy = cursor.bump_over_lazy(flags);
    Ok(with_greed(counts, lazy, flags))
}
