//! The characters of the names of groups.
ghost use Rattle.std.specs.Prelude.{◌≡◌};
ghost use Rattle.rx_sets.specs.Capture.{is_capture_start, is_capture_more, is_capture_char};

use unicode::properties::is_alphabetic;

/// Whether `c` may stand in the name of a group: first in it, or after the first character.
pub fn is_capture_char(c: char, first: bool) -> bool
    ensures { result ≡ is_capture_char c first }
{
    if first {
        is_capture_start(c)
    } else {
        is_capture_more(c)
    }
}

fn is_capture_start(c: char) -> bool
    ensures { result ≡ is_capture_start c }
{
    c == '_' || is_alphabetic(c)
}

fn is_capture_more(c: char) -> bool
    ensures { result ≡ is_capture_more c }
{
    // Letters are of Unicode, and digits are not (DECISIONS: digits in the names of groups are ASCII).
    is_capture_start(c) || c.is_ascii_digit() || c == '.' || c == '[' || c == ']'
}
