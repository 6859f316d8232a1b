//! The weight of a pattern, over its syntax. A call goes as deep as the syntax. One class is made at a time, weighed and
//! let go.
ghost use Rattle.std.specs.Prelude.{◌≡◌, ◌++◌, List, flat_map, map, IfOk};
ghost use Rattle.rx_model.specs.Expression.{Expression};
ghost use Rattle.rx_hir.specs.Normal.{parts_of};
ghost use Rattle.rx_syntax.specs.Translation.{atom_of, translated};
ghost use Rattle.rx_syntax.specs.ItemViews.{row_of, choice_of, run_parts};
ghost use Rattle.rx_syntax.specs.Literals.{character, in_either_case};
ghost use Rattle.rx_syntax.specs.Weight.{weight_of, Weighs};
ghost use Rattle.rx_syntax.specs.Row.{IsRow};

use super::known::KnownWeights;
use super::{Weight, choice_weight, either_of};
use crate::characters::{character, in_either_case, literal};
use crate::set::named_set;
use crate::translate::atom;
use rx_reader::{Ast, AstKind, Atom, Config, Flags, Item, ParseError, Piece};
use rx_search::Memory;
use std::alloc::Global;

/// The weight of the expression that a syntax stands for, or the first refusal from left to right.
#[cycle(weigh)]
pub(super) fn weigh(
    alloc: Global,
    ast: &Ast,
    config: &Config,
    known: &mut KnownWeights,
) -> Result<Weight, ParseError>
    ensures { Weighs result (translated config.now ast.now) }
{
    match ast.kind() {
        AstKind::Literal {
            flags,
            character: c,
        } => Ok(weigh_character(alloc, *flags, *c)?),
        AstKind::Atom {
            flags,
            piece,
            atom: own,
        } => weigh_atom(alloc, config, *flags, *piece, own, known),
        AstKind::Repetition { min, max, sub, .. } => {
            let body = weigh(alloc, sub, config, known)?;
            Ok(body.repeated(*min, *max))
        }
        AstKind::Group { kind, sub } => {
            let body = weigh(alloc, sub, config, known)?;
            Ok(body.grouped(kind))
        }
        AstKind::Concat(items) => weigh_items(alloc, items, config, known),
        AstKind::Alternation(branches) => weigh_branches(alloc, branches, config, known),
        AstKind::Branch(items) => weigh_items(alloc, items, config, known),
    }
}

fn weigh_character(alloc: Global, flags: Flags, c: char) -> Result<Weight, Memory>
    ensures { IfOk result (λ w. w ≡ weight_of (character flags c)) }
{
    let hir = character(alloc, flags, c)?;
    Ok(Weight::of_made(hir))
}

fn weigh_atom(
    alloc: Global,
    config: &Config,
    flags: Flags,
    piece: Piece,
    own: &Atom,
    known: &mut KnownWeights,
) -> Result<Weight, ParseError>
    ensures { Weighs result (atom_of config.now flags piece own.now) }
{
    if let Some(key) = named_set(alloc, flags, piece, own)? {
        return Ok(known.weight(key)?);
    }
    // There is no second definition of it (DECISIONS: the weight of an atom is that of its expression).
    let hir = atom(alloc, config, flags, piece, own, known.sets())?;
    Ok(Weight::of_made(hir))
}

/// The weight of one of these, the first preferred.
#[cycle(weigh)]
fn weigh_branches(
    alloc: Global,
    branches: &[Ast],
    config: &Config,
    known: &mut KnownWeights,
) -> Result<Weight, ParseError>
    ensures { Weighs result (choice_of config.now branches.now) }
{
    let mut whole = None;
    for branch in branches {
        whole = Some(either_of(whole, weigh(alloc, branch, config, known)?));
    }
    Ok(choice_weight(whole))
}

/// The weight of these, one after another.
#[cycle(weigh)]
fn weigh_items(
    alloc: Global,
    items: &[Item],
    config: &Config,
    known: &mut KnownWeights,
) -> Result<Weight, ParseError>
    ensures { Weighs result (row_of config.now items.now) }
{
    let mut row = Weight::empty();
    for item in items {
        match item {
            Item::Literals { flags, run } => row = with_run(alloc, row, *flags, run)?,
            Item::One(ast) => row = row.followed(weigh(alloc, ast, config, known)?),
        }
    }
    Ok(row)
}

/// The weight of what was weighed, and then characters in a row.
fn with_run(alloc: Global, before: Weight, flags: Flags, run: &[char]) -> Result<Weight, Memory>
    ensures { (ps : List Expression) → IsRow ps before → IfOk result (IsRow (ps ++ flat_map parts_of (run_parts flags run.now))) }
{
    if flags.case_insensitive {
        return with_each(alloc, before, flags, run);
    }
    let hir = literal(alloc, run)?;
    Ok(before.followed(Weight::of_made(hir)))
}

fn with_each(alloc: Global, before: Weight, flags: Flags, run: &[char]) -> Result<Weight, Memory>
    ensures { (ps : List Expression) → IsRow ps before → IfOk result (IsRow (ps ++ flat_map parts_of (map (in_either_case flags) run.now))) }
{
    let mut row = before;
    for c in run {
        let hir = in_either_case(alloc, flags, *c)?;
        row = row.followed(Weight::of_made(hir));
    }
    Ok(row)
}
