//! Replacement templates, in which `$1`, `$name` and `${name}` stand for groups and `$$` for `$`.
ghost use Rattle.std.specs.Prelude.{◌≡◌, ℕ, ◌-◌, ◌<◌, ◌≤◌, List, ◌++◌, length, slice_index, IsUtf8, IfOk, MatchResult, Vec};
ghost use Rattle.std.specs.Prelude.{string_bytes};
ghost use Rattle.std.specs.declared.alloc.Global.{Global};
ghost use Rattle.rx_util.specs.Template.{HasOneText, BeginsWithFronts};
ghost use Rattle.rx_util.specs.Interpolation.{Interpolates, PassesDollar};

use crate::template::{begins_with, number_of, past, place_of, reference_in};
use rx_memory::Memory;

/// Appends the text of a template.
///
/// `append` is told the number of a group and appends what it stands for, and `name_to_index` answers the number of a name. `$$`
/// stands for `$`. `$` and the longest name of letters, digits and `_`, or `${` and what stands before the first `}`, is a
/// reference: a number where it is digits alone and fits a `usize`, else a name. A name without a number stands for nothing. Any
/// other `$` stands for itself.
///
/// # Errors
///
/// Only want of memory, of this call or of `append`. What was appended so far stays.
pub fn string<A, N>(
    replacement: &str,
    append: A,
    name_to_index: N,
    dst: &mut String,
) -> Result<(), Memory>
where
    A: FnMut(usize, &mut String) -> Result<(), Memory>,
    N: FnMut(&str) -> Option<usize>,
    requires append { A.IsAlwaysCallable append }
    requires name_to_index { N.IsAlwaysCallable name_to_index }
    ensures { Interpolates A.FnMut N.FnMut string_bytes replacement.now (string_bytes dst.old) (string_bytes dst.new) result }
{
    interpolate(replacement.as_bytes(), append, name_to_index, dst)
}

/// Appends the text of a template, as [`string`] does, to bytes.
///
/// # Errors
///
/// As those of [`string`].
pub fn bytes<A, N>(
    replacement: &[u8],
    append: A,
    name_to_index: N,
    dst: &mut Vec<u8>,
) -> Result<(), Memory>
where
    A: FnMut(usize, &mut Vec<u8>) -> Result<(), Memory>,
    N: FnMut(&str) -> Option<usize>,
    requires append { A.IsAlwaysCallable append }
    requires name_to_index { N.IsAlwaysCallable name_to_index }
    ensures { Interpolates A.FnMut N.FnMut (λ (v : Vec ℕ Global). v.items) replacement.now dst.old.items dst.new.items result }
{
    interpolate(replacement, append, name_to_index, dst)
}

/// What the text of a template is appended to.
trait Target {
    /// What it holds.
    ghost held: { Self → List ℕ };

    /// Whether it holds UTF-8 alone.
    ghost is_text: { Type 0 };

    /// Appends a piece of a template.
    fn push(&mut self, piece: &[u8]) -> Result<(), Memory>
        requires { is_text → IsUtf8 piece.now }
        ensures { MatchResult result (λ _. held self.new ≡ held self.old ++ piece.now) (λ _. held self.new ≡ held self.old) };
}

impl Target for String {
    ghost held = { string_bytes };

    ghost is_text = { Unit {0} };

    fn push(&mut self, piece: &[u8]) -> Result<(), Memory> {
        let Ok(text) = std::str::from_utf8(piece) else {
            unreachable!()
        };
        self.push_str(text)?;
        Ok(())
    }
}

impl Target for Vec<u8> {
    ghost held = { λ v. v.items };

    ghost is_text = { ⊥ };

    fn push(&mut self, piece: &[u8]) -> Result<(), Memory> {
        self.extend_from_slice(piece)?;
        Ok(())
    }
}

/// Appends the text of a template.
fn interpolate<D: Target, A, N>(
    template: &[u8],
    mut append: A,
    mut name_to_index: N,
    dst: &mut D,
) -> Result<(), Memory>
where
    A: FnMut(usize, &mut D) -> Result<(), Memory>,
    N: FnMut(&str) -> Option<usize>,
    requires append { A.IsAlwaysCallable append }
    requires name_to_index { N.IsAlwaysCallable name_to_index }
    requires text { D.is_text → IsUtf8 template.now }
    ensures { Interpolates A.FnMut N.FnMut D.held template.now (D.held dst.old) (D.held dst.new) result }
{
    let mut rest = template;
    'dollars: while let Some(place) = place_of(rest, b'$') {
        dst.push(&rest[..place])?;
        let from = past(rest, place);
        let after = past(from, 1);
        let taken = at_dollar(after, &mut append, &mut name_to_index, dst)?;
        rest = past(after, taken);
    }
    dst.push(rest)
}

/// Appends what a `$` and what follows it stand for, and answers how many of the bytes that follow are taken.
fn at_dollar<D: Target, A, N>(
    after: &[u8],
    append: &mut A,
    name_to_index: &mut N,
    dst: &mut D,
) -> Result<usize, Memory>
where
    A: FnMut(usize, &mut D) -> Result<(), Memory>,
    N: FnMut(&str) -> Option<usize>,
    requires append { A.IsAlwaysCallable append.old }
    requires name_to_index { N.IsAlwaysCallable name_to_index.old }
    ensures append { A.IsAlwaysCallable append.new }
    ensures name_to_index { N.IsAlwaysCallable name_to_index.new }
    ensures value { PassesDollar A.FnMut N.FnMut D.held after.now (D.held dst.old) (D.held dst.new) result }
    ensures end { IfOk result (λ taken. (taken ≤ length after.now) × (0 < taken → slice_index after.now (taken - 1) < 128)) }
{
    if begins_with(after, b'$') {
        dst.push(b"$")?;
        return Ok(1);
    }
    let Some((name, len)) = reference_in(after) else {
        dst.push(b"$")?;
        return Ok(0);
    };
    if let Some(number) = number_of(name) {
        append(number, dst)?;
        return Ok(len);
    }
    if let Some(number) = name_to_index(name) {
        append(number, dst)?;
        return Ok(len);
    }
    Ok(len)
}

/// Each template has one text, and it begins with what is appended before memory is wanting.
pub fn a_template_has_one_text()
    ensures text { HasOneText }
    ensures fronts { BeginsWithFronts }
{}
