//! From a pattern as it is written to its expression.
ghost use Rattle.std.specs.Prelude.{◌≡◌, ◌≤◌, option_map, string_bytes, IfOk, IfSome};
ghost use Rattle.std.specs.Int.NonZero.{non_zero_usize_get};
ghost use Rattle.rx_model.specs.Expression.{capture};
ghost use Rattle.rx_hir.specs.Normal.{repetition_of};
ghost use Rattle.rx_syntax.specs.Answers.{Answers, AnswersAs};
ghost use Rattle.rx_syntax.specs.Translation.{atom_of, group_of, translated};
ghost use Rattle.rx_syntax.specs.ItemViews.{all_parts, branch_parts, only_branch};
ghost use Rattle.rx_syntax.specs.Refused.{gathered};

use crate::assertion::look_of;
use crate::bytes::hex_byte;
use crate::characters::{character, push_run, text};
use crate::known::KnownSets;
use crate::set::{bracketed, dot, perl, property};
use rx_hir::{Capture, Hir, Repetition};
use rx_reader::{Ast, AstKind, Atom, Config, Flags, GroupKind, Item, ParseError, Piece};
use rx_search::Memory;
use std::alloc::Global;
use std::num::NonZeroUsize;

/// What an atom stands for under the flags at it.
pub(crate) fn atom(
    alloc: Global,
    config: &Config,
    flags: Flags,
    piece: Piece,
    atom: &Atom,
    known: &mut KnownSets,
) -> Result<Hir, ParseError>
    ensures { Answers result (atom_of config.now flags piece atom.now) }
{
    match atom {
        Atom::HexByte(c) if flags.unicode => Ok(character(alloc, flags, *c)?),
        Atom::HexByte(c) => hex_byte(alloc, config, flags, piece, *c),
        Atom::Dot => dot(alloc, config, flags, piece),
        Atom::Assertion(kind) => Ok(Hir::look(look_of(flags, *kind))),
        Atom::Perl { kind, negated } => {
            perl(alloc, config, flags, piece, *kind, *negated, known)
        }
        Atom::Property { name, negated } => {
            property(alloc, flags, piece, name.as_slice(), *negated, known)
        }
        Atom::Bracketed { negated, items } => {
            bracketed(
                alloc,
                config,
                flags,
                piece,
                *negated,
                items.as_slice(),
                known,
            )
        }
    }
}

fn repetition(
    alloc: Global,
    min: u32,
    max: Option<u32>,
    greedy: bool,
    sub: Hir,
) -> Result<Hir, Memory>
    requires { IfSome max (λ m. min ≤ m) }
    ensures { IfOk result (λ h. h ≡ repetition_of min max greedy sub) }
{
    let sub = Box::new(alloc, sub)?;
    Ok(Hir::repetition(Repetition {
        min,
        max,
        greedy,
        sub,
    }))
}

/// The group of this number and name.
fn capture(
    alloc: Global,
    index: NonZeroUsize,
    name: Option<String>,
    sub: Hir,
) -> Result<Hir, Memory>
    ensures { IfOk result (λ h. h ≡ capture (non_zero_usize_get index) (option_map string_bytes name) sub) }
{
    let sub = Box::new(alloc, sub)?;
    Ok(Hir::capture(Capture { index, name, sub }))
}

/// The group, or its body alone where it does not capture.
fn group(alloc: Global, kind: &GroupKind, sub: Hir) -> Result<Hir, Memory>
    ensures { IfOk result (λ h. h ≡ group_of kind.now sub) }
{
    match kind {
        GroupKind::NonCapturing => Ok(sub),
        GroupKind::CaptureIndex(index) => capture(alloc, *index, None, sub),
        GroupKind::CaptureName { index, name } => match text(alloc, name.as_slice()) {
            Ok(name) => capture(alloc, *index, Some(name), sub),
            Err(error) => {
                // By a call (DECISIONS: large values are let go by name).
                drop(sub);
                Err(error)
            }
        },
    }
}

/// These, one after another, as the only branch.
fn only_branch(alloc: Global, subs: Vec<Hir>) -> Result<Hir, Memory>
    ensures { IfOk result (λ h. h ≡ only_branch subs.items) }
{
    let mut branches = Vec::new(alloc);
    branches.push(Hir::concat(alloc, subs)?)?;
    Hir::alternation(alloc, branches)
}

/// The expression that a syntax stands for, or the first refusal from left to right.
#[cycle(translate)]
pub(crate) fn translate(
    alloc: Global,
    ast: &Ast,
    config: &Config,
    known: &mut KnownSets,
) -> Result<Hir, ParseError>
    ensures { Answers result (translated config.now ast.now) }
{
    match ast.kind() {
        AstKind::Literal {
            flags,
            character: c,
        } => Ok(character(alloc, *flags, *c)?),
        AstKind::Atom {
            flags,
            piece,
            atom: own,
        } => atom(alloc, config, *flags, *piece, own, known),
        AstKind::Repetition {
            min,
            max,
            greedy,
            sub,
        } => {
            let body = translate(alloc, sub, config, known)?;
            Ok(repetition(alloc, *min, *max, *greedy, body)?)
        }
        AstKind::Group { kind, sub } => {
            let body = translate(alloc, sub, config, known)?;
            Ok(group(alloc, kind, body)?)
        }
        AstKind::Concat(items) => {
            let subs = translate_items(alloc, items, config, known)?;
            Ok(Hir::concat(alloc, subs)?)
        }
        AstKind::Alternation(branches) => {
            let subs = translate_branches(alloc, branches, config, known)?;
            Ok(Hir::alternation(alloc, subs)?)
        }
        AstKind::Branch(items) => {
            let subs = translate_items(alloc, items, config, known)?;
            Ok(only_branch(alloc, subs)?)
        }
    }
}

#[cycle(translate)]
fn translate_branches(
    alloc: Global,
    branches: &[Ast],
    config: &Config,
    known: &mut KnownSets,
) -> Result<Vec<Hir>, ParseError>
    ensures { AnswersAs (λ v. v.items) result (gathered (branch_parts config.now) branches.now) }
{
    let mut subs = Vec::with_capacity(alloc, branches.len())?;
    for branch in branches {
        subs.push(translate(alloc, branch, config, known)?)?;
    }
    Ok(subs)
}

#[cycle(translate)]
fn translate_items(
    alloc: Global,
    items: &[Item],
    config: &Config,
    known: &mut KnownSets,
) -> Result<Vec<Hir>, ParseError>
    ensures { AnswersAs (λ v. v.items) result (all_parts config.now items.now) }
{
    let mut subs = Vec::with_capacity(alloc, items.len())?;
    for item in items {
        match item {
            Item::Literals { flags, run } => push_run(alloc, &mut subs, *flags, run)?,
            Item::One(ast) => subs.push(translate(alloc, ast, config, known)?)?,
        }
    }
    Ok(subs)
}
