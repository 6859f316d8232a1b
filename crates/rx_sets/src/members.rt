//! Classes from ranges of code points.
ghost use Rattle.std.specs.Prelude.{◌≡◌, ◌++◌, ℕ, Bool, List, IfOk, OnOk};
ghost use Rattle.std.specs.Char.{IsScalar};
ghost use Rattle.rx_model.specs.Text.{is_member};
ghost use Rattle.rx_class.specs.Ranges.{AreScalarRanges};
ghost use Rattle.unicode.specs.Rows.{HasExactly};
ghost use Rattle.rx_sets.specs.Clipped.{is_surrogate, first_scalar, last_scalar, clipped, all_clipped};
ghost use Rattle.rx_sets.specs.Members.{scalars_where};

use rx_class::ClassUnicode;
use rx_memory::Memory;
use std::alloc::Global;

/// The scalars in the ranges, each from its first code point to its last.
pub(crate) fn class_of(alloc: Global, ranges: &[(u32, u32)]) -> Result<ClassUnicode, Memory>
    ensures { (p : ℕ → Bool) → HasExactly ranges.now p → IfOk result (λ class. class ≡ scalars_where p) }
{
    let scalars = all_clipped(alloc, ranges)?;
    ClassUnicode::new(alloc, &scalars)
}

fn all_clipped(alloc: Global, ranges: &[(u32, u32)]) -> Result<Vec<(char, char)>, Memory>
    ensures { IfOk result (λ v. v.items ≡ all_clipped ranges.now) }
{
    let mut scalars = Vec::new(alloc);
    for (low, high) in ranges {
        push_clipped(&mut scalars, *low, *high)?;
    }
    Ok(scalars)
}

/// Adds the scalars from `low` to `high`, if there can be any.
fn push_clipped(scalars: &mut Vec<(char, char)>, low: u32, high: u32) -> Result<(), Memory>
    ensures { OnOk result (scalars.new.items ≡ scalars.old.items ++ clipped low high) }
{
    if let Some(first) = first_scalar(low) {
        scalars.push((first, last_scalar(high)))?;
    }
    Ok(())
}

/// The first scalar from a code point on.
fn first_scalar(code: u32) -> Option<char>
    ensures { result ≡ first_scalar code }
{
    if is_surrogate(code) {
        return Some('\u{E000}');
    }
    char::from_u32(code)
}

/// The last scalar up to a code point.
fn last_scalar(code: u32) -> char
    ensures { result ≡ last_scalar code }
{
    if is_surrogate(code) {
        return '\u{D7FF}';
    }
    match char::from_u32(code) {
        Some(scalar) => scalar,
        None => char::MAX,
    }
}

fn is_surrogate(code: u32) -> bool
    ensures { result ≡ is_surrogate code }
{
    0xD800 <= code && code < 0xE000
}

/// The class of the scalars that pass a test holds these and no others, in fewest ranges, and no other list of
/// fewest ranges holds them.
pub fn scalars_where_pass_the_test()
    ensures members { (p : ℕ → Bool) (c : ℕ) → IsScalar c → is_member (scalars_where p) c ≡ p c }
    ensures ranges { (p : ℕ → Bool) → AreScalarRanges (scalars_where p) }
    ensures one_list { (p : ℕ → Bool) (rs : List (ℕ × ℕ)) → AreScalarRanges rs
        → ((c : ℕ) → IsScalar c → is_member rs c ≡ p c) → rs ≡ scalars_where p }
{}
