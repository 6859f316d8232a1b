//! The names of capture groups. A call goes as deep as the expression.
ghost use Rattle.std.specs.Prelude.{◌≡◌, ◌≤◌, ◌<◌, length, IfOk, OnOk, option_map, string_bytes};
ghost use Rattle.rx_model.specs.Search.{greatest_group, greatest_in};
ghost use Rattle.rx_search.specs.GroupInfo.{names_of, unnamed_groups};
ghost use Rattle.rx_hir.specs.HirViews.{kind_view};
ghost use Rattle.rx_hir.specs.Names.{name_in, name_among, only_at, filled, group_names};
ghost use Rattle.rx_hir.specs.Normal.{expressions};

use super::groups::greatest_group;
use super::{Hir, HirKind};
use rx_search::Memory;
use std::alloc::Global;

/// The names of the groups of an expression: of group 0, which is the whole match and has none, and of each up to
/// the greatest number. Where names differ at one number, the first stands there.
///
/// # Errors
///
/// `Memory`, where there was no memory for the names.
pub fn group_names(alloc: Global, hir: &Hir) -> Result<Vec<Option<String>>, Memory>
    ensures { IfOk result (λ names. names_of names.items ≡ group_names hir.now) }
{
    let mut explicit = unnamed(alloc, greatest_group(hir))?;
    add_names(&mut explicit, hir)?;
    let mut names = unnamed(alloc, 1)?;
    names.append(&mut explicit)?;
    Ok(names)
}

/// So many groups without names.
fn unnamed(alloc: Global, count: usize) -> Result<Vec<Option<String>>, Memory>
    ensures { IfOk result (λ names. names_of names.items ≡ unnamed_groups count) }
{
    let mut names = Vec::new(alloc);
    for _ in 0..count {
        names.push(None)?;
    }
    Ok(names)
}

/// Gives the names that stand in the expression to the groups, from 1 on, that have none.
#[cycle(names)]
fn add_names(names: &mut Vec<Option<String>>, hir: &Hir) -> Result<(), Memory>
    requires { greatest_group hir.now ≤ length names.old.items }
    ensures added { OnOk result (names_of names.new.items ≡ filled (λ g. name_in g hir.now) 1 (names_of names.old.items)) }
    ensures count { OnOk result (length names.new.items ≡ length names.old.items) }
{
    add_names_of_kind(names, hir.kind())
}

#[cycle(names)]
fn add_names_of_kind(names: &mut Vec<Option<String>>, kind: &HirKind) -> Result<(), Memory>
    requires { greatest_group (kind_view kind.now) ≤ length names.old.items }
    ensures added { OnOk result (names_of names.new.items ≡ filled (λ g. name_in g (kind_view kind.now)) 1 (names_of names.old.items)) }
    ensures count { OnOk result (length names.new.items ≡ length names.old.items) }
{
    match kind {
        HirKind::Empty => Ok(()),
        HirKind::Literal(_) => Ok(()),
        HirKind::Class(_) => Ok(()),
        HirKind::Look(_) => Ok(()),
        HirKind::Repetition(repetition) => add_names(names, &repetition.sub),
        HirKind::Capture(capture) => {
            name_group(names, capture.index.get(), &capture.name)?;
            add_names(names, &capture.sub)
        }
        HirKind::Concat(subs) => add_names_among(names, subs),
        HirKind::Alternation(subs) => add_names_among(names, subs),
    }
}

#[cycle(names)]
fn add_names_among(names: &mut Vec<Option<String>>, subs: &[Hir]) -> Result<(), Memory>
    requires { greatest_in (expressions subs.now) ≤ length names.old.items }
    ensures added { OnOk result (names_of names.new.items ≡ filled (λ g. name_among g (expressions subs.now)) 1 (names_of names.old.items)) }
    ensures count { OnOk result (length names.new.items ≡ length names.old.items) }
{
    for sub in subs {
        add_names(names, sub)?;
    }
    Ok(())
}

/// Gives the name to the group, if that has none.
fn name_group(
    names: &mut Vec<Option<String>>,
    group: usize,
    name: &Option<String>,
) -> Result<(), Memory>
    requires explicit { 0 < group }
    requires inside { group ≤ length names.old.items }
    ensures added { OnOk result (names_of names.new.items ≡ filled (only_at group (option_map string_bytes name.now)) 1 (names_of names.old.items)) }
    ensures count { OnOk result (length names.new.items ≡ length names.old.items) }
{
    if names[group - 1].is_none() {
        names[group - 1] = copy_of(name)?;
    }
    Ok(())
}

/// The same name.
fn copy_of(name: &Option<String>) -> Result<Option<String>, Memory>
    ensures { IfOk result (λ copy. option_map string_bytes copy ≡ option_map string_bytes name.now) }
{
    match name {
        None => Ok(None),
        Some(name) => Ok(Some(name.clone()?)),
    }
}
