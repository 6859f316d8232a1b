//! Numbers in decimal, without a sign and without a needless leading zero.
ghost use Rattle.std.specs.Prelude.{◌≡◌, ◌++◌, ◌^◌, ◌<◌, ◌≤◌, decimal, bytes_eq, IfSome, OnOk};
ghost use Rattle.rx_gen.specs.Numbers.{number_up_to};

use itoa::Buffer;
use rx_memory::Memory;
use std::alloc::Global;

/// The number that the word is in decimal, if it is at most `most`. A sign, a needless leading zero or any other byte makes it
/// no number.
pub fn number_up_to(most: usize, word: &str) -> Option<usize>
    ensures value { result ≡ number_up_to most word.now }
    ensures within { IfSome result (λ n. n ≤ most) }
{
    // `parse` takes a plus and leading zeros too, so the number is written again (DECISIONS: a word is the number that it is written as).
    let Ok(n) = word.parse::<usize>() else {
        return None;
    };
    if n <= most && is_written(n, word) {
        Some(n)
    } else {
        None
    }
}

/// Whether the word is the number in decimal.
fn is_written(n: usize, word: &str) -> bool
    ensures { result ≡ bytes_eq word.now (decimal n) }
{
    let mut buffer = Buffer::new();
    buffer.format(n) == word
}

/// Appends a number.
///
/// # Errors
///
/// `Memory`, where there was no memory for the digits.
pub fn push_number(text: &mut Vec<u8>, n: usize) -> Result<(), Memory>
    ensures { OnOk result (text.new.items ≡ text.old.items ++ decimal n) }
{
    let mut buffer = Buffer::new();
    text.extend_from_slice(buffer.format(n).as_bytes())?;
    Ok(())
}
