//! The literals of a class: its members.
ghost use Rattle.std.specs.Prelude.{◌≡◌, ℕ, ◌∷◌, [], ◌++◌, nat_lt, nat_le, map, encode_utf8, IfOk, OnOk};
ghost use Rattle.rx_class.specs.ClassViews.{class_view};
ghost use Rattle.rx_class.specs.Ranges.{next_scalar, next_byte};
ghost use Rattle.rx_class.specs.Bytes.{or_past_byte};
ghost use Rattle.rx_class.specs.Scalars.{or_past};
ghost use Rattle.rx_model.specs.Text.{scalar_ranges, byte_ranges};
ghost use Rattle.rx_literal.specs.Literals.{exact, infinite, finite};
ghost use Rattle.rx_literal.specs.Extract.{numbers, members, each_exact, class_literals};

use crate::literal::Literal;
use crate::seq::Seq;
use crate::side::Side;
use rx_class::Class;
use rx_search::Memory;
use std::alloc::Global;

/// The most members of a class that are listed.
const MOST: usize = 10;

/// The members of a class in ascending order, each exact; infinitely many, where they are more than 10.
#[tactic(auto, unfolding(crate::specs::Extract::class_literals))]
pub(crate) fn class_literals(alloc: Global, class: &Class) -> Result<Seq, Memory>
    ensures { IfOk result (λ s. s ≡ class_literals (class_view class.now)) }
{
    match class {
        Class::Unicode(scalars) => scalar_literals(alloc, scalars.ranges()),
        Class::Bytes(bytes) => byte_literals(alloc, bytes.ranges()),
    }
}

fn scalar_literals(alloc: Global, ranges: &[(char, char)]) -> Result<Seq, Memory>
    ensures { IfOk result (λ s. s ≡ class_literals (scalar_ranges ranges.now)) }
{
    let mut found = Vec::new(alloc);
    for (low, high) in ranges {
        push_scalars(&mut found, alloc, MOST + 1, *low, *high)?;
        if found.len() > MOST {
            return Ok(Seq::infinite());
        }
    }
    Ok(Seq::finite(found))
}

/// Adds the scalars from `low` to `high`, but no more than `most`.
fn push_scalars(
    found: &mut Vec<Literal>,
    alloc: Global,
    most: usize,
    low: char,
    high: char,
) -> Result<(), Memory>
    ensures { OnOk result (found.new.items ≡ found.old.items ++ map (λ c. exact (encode_utf8 c)) (numbers next_scalar most low high)) }
{
    let mut next = Some(low);
    for _count in 0..most {
        let Some(c) = next else {
            return Ok(());
        };
        if c > high {
            return Ok(());
        }
        found.push(character(alloc, c)?)?;
        next = scalar_after(c);
    }
    Ok(())
}

fn character(alloc: Global, c: char) -> Result<Literal, Memory>
    ensures { IfOk result (λ l. l ≡ exact (encode_utf8 c)) }
{
    let mut text = String::new(alloc);
    text.push(c)?;
    Ok(Literal::exact(text.into_bytes()))
}

/// The scalar after this one, if there is one.
fn scalar_after(c: char) -> Option<char>
    ensures { or_past result ≡ next_scalar c }
{
    if c == '\u{D7FF}' {
        return Some('\u{E000}');
    }
    char::from_u32(c as u32 + 1)
}

fn byte_literals(alloc: Global, ranges: &[(u8, u8)]) -> Result<Seq, Memory>
    ensures { IfOk result (λ s. s ≡ class_literals (byte_ranges ranges.now)) }
{
    let mut found = Vec::new(alloc);
    for (low, high) in ranges {
        push_bytes(&mut found, alloc, MOST + 1, *low, *high)?;
        if found.len() > MOST {
            return Ok(Seq::infinite());
        }
    }
    Ok(Seq::finite(found))
}

/// Adds the bytes from `low` to `high`, but no more than `most`.
fn push_bytes(
    found: &mut Vec<Literal>,
    alloc: Global,
    most: usize,
    low: u8,
    high: u8,
) -> Result<(), Memory>
    ensures { OnOk result (found.new.items ≡ found.old.items ++ map (λ b. exact (b ∷ [])) (numbers next_byte most low high)) }
{
    let mut next = Some(low);
    for _count in 0..most {
        let Some(b) = next else {
            return Ok(());
        };
        if b > high {
            return Ok(());
        }
        found.push(byte(alloc, b)?)?;
        next = byte_after(b);
    }
    Ok(())
}

fn byte(alloc: Global, b: u8) -> Result<Literal, Memory>
    ensures { IfOk result (λ l. l ≡ exact (b ∷ [])) }
{
    let mut bytes = Vec::new(alloc);
    bytes.push(b)?;
    Ok(Literal::exact(bytes))
}

/// The byte after this one, if there is one.
fn byte_after(b: u8) -> Option<u8>
    ensures { or_past_byte result ≡ next_byte b }
{
    b.checked_add(1)
}
