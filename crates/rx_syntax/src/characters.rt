//! Characters that stand for themselves.
ghost use Rattle.std.specs.Prelude.{◌≡◌, ◌<◌, [], ◌∷◌, ◌++◌, map, IfOk, OnOk, string_bytes};
ghost use lib.Utf8.{encodes};
ghost use Rattle.rx_hir.specs.Normal.{literal_of};
ghost use Rattle.rx_syntax.specs.Literals.{in_either_case, character};
ghost use Rattle.rx_syntax.specs.ItemViews.{run_parts};

use rx_class::{Class, ClassBytes, ClassUnicode};
use rx_hir::Hir;
use rx_reader::Flags;
use rx_search::Memory;
use std::alloc::Global;

/// What a character means under the flags at it.
pub(crate) fn character(alloc: Global, flags: Flags, c: char) -> Result<Hir, Memory>
    ensures { IfOk result (λ h. h ≡ character flags c) }
{
    if flags.case_insensitive {
        in_either_case(alloc, flags, c)
    } else {
        // Whether `u` is on or off (DECISIONS: `(?-u:é)` reads as the UTF-8 bytes of its character).
        literal(alloc, &[c])
    }
}

/// Adds what characters in a row mean under the flags at them.
pub(crate) fn push_run(
    alloc: Global,
    subs: &mut Vec<Hir>,
    flags: Flags,
    run: &[char],
) -> Result<(), Memory>
    ensures { OnOk result (subs.new.items ≡ subs.old.items ++ run_parts flags run.now) }
{
    if flags.case_insensitive {
        return push_each(alloc, subs, flags, run);
    }
    subs.push(literal(alloc, run)?)?;
    Ok(())
}

fn push_each(alloc: Global, subs: &mut Vec<Hir>, flags: Flags, run: &[char]) -> Result<(), Memory>
    ensures { OnOk result (subs.new.items ≡ subs.old.items ++ map (in_either_case flags) run.now) }
{
    for c in run {
        subs.push(in_either_case(alloc, flags, *c)?)?;
    }
    Ok(())
}

/// The character in either case.
pub(crate) fn in_either_case(alloc: Global, flags: Flags, c: char) -> Result<Hir, Memory>
    ensures { IfOk result (λ h. h ≡ in_either_case flags c) }
{
    if flags.unicode {
        let orbit = scalar(alloc, c)?.case_fold_simple()?;
        return Hir::class(alloc, Class::Unicode(orbit));
    }
    if !c.is_ascii() {
        return literal(alloc, &[c]);
    }
    let cases = byte(alloc, c as u8)?.case_fold_simple()?;
    Hir::class(alloc, Class::Bytes(cases))
}

/// The class of one scalar.
fn scalar(alloc: Global, c: char) -> Result<ClassUnicode, Memory>
    ensures { IfOk result (λ class. class ≡ (c, c) ∷ []) }
{
    ClassUnicode::new(alloc, &[(c, c)])
}

/// The class of one byte.
pub(crate) fn byte(alloc: Global, b: u8) -> Result<ClassBytes, Memory>
    ensures { IfOk result (λ class. class ≡ (b, b) ∷ []) }
{
    ClassBytes::new(alloc, &[(b, b)])
}

/// The literal of these characters' encodings.
pub(crate) fn literal(alloc: Global, chars: &[char]) -> Result<Hir, Memory>
    ensures { IfOk result (λ h. h ≡ literal_of (encodes chars.now)) }
{
    Ok(Hir::literal(text(alloc, chars)?.into_bytes()))
}

/// The characters as a text.
pub(crate) fn text(alloc: Global, chars: &[char]) -> Result<String, Memory>
    ensures { IfOk result (λ s. string_bytes s ≡ encodes chars.now) }
{
    let mut text = String::new(alloc);
    for c in chars {
        text.push(*c)?;
    }
    Ok(text)
}
