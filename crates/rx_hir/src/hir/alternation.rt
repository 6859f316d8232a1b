//! Alternations.
ghost use Rattle.std.specs.Prelude.{◌≡◌, ◌<◌, ◌++◌, length, IfOk, OnOk};
ghost use Rattle.rx_model.specs.Expression.{alternation};
ghost use Rattle.rx_hir.specs.Normal.{expressions, alternatives_of, choice_of, alternation_of};
ghost use Rattle.rx_hir.specs.PropertiesViews.{AreOf};
ghost use Rattle.rx_hir.specs.Sound.{AreSound};

use super::properties::Properties;
use super::{Hir, HirKind};
use rx_class::{Class, ClassBytes};
use rx_search::Memory;
use std::alloc::Global;

impl Hir {
    /// One of these, the first preferred. An alternation among them stands for its alternatives. Of none
    /// this is `fail`, of one it is that alternative.
    ///
    /// # Errors
    ///
    /// `Memory`, where there was no memory for the alternatives.
    pub fn alternation(alloc: Global, subs: Vec<Hir>) -> Result<Hir, Memory>
        ensures { IfOk result (λ h. h ≡ alternation_of subs.items) }
    {
        let mut alternatives = Vec::new(alloc);
        for sub in subs {
            push_alternatives(&mut alternatives, sub)?;
        }
        Ok(choice(alloc, alternatives))
    }
}

/// Adds what an expression gives to the alternation around it.
fn push_alternatives(alternatives: &mut Vec<Hir>, sub: Hir) -> Result<(), Memory>
    ensures { OnOk result (alternatives.new.items ≡ alternatives.old.items ++ alternatives_of sub) }
{
    let properties = sub.properties;
    match sub.kind {
        HirKind::Alternation(subs) => append_all(alternatives, subs)?,
        kind => alternatives.push(Hir { kind, properties })?,
    }
    Ok(())
}

fn append_all(alternatives: &mut Vec<Hir>, subs: Vec<Hir>) -> Result<(), Memory>
    ensures { OnOk result (alternatives.new.items ≡ alternatives.old.items ++ subs.items) }
{
    let mut subs = subs;
    alternatives.append(&mut subs)?;
    Ok(())
}

fn choice(alloc: Global, alternatives: Vec<Hir>) -> Hir
    ensures { result ≡ choice_of alternatives.items }
{
    let mut alternatives = alternatives;
    if alternatives.len() > 1 {
        return one_of(alternatives);
    }
    match alternatives.pop() {
        Some(only) => only,
        None => Hir::fail(alloc),
    }
}

fn one_of(alternatives: Vec<Hir>) -> Hir
    requires { 1 < length alternatives.items }
    ensures { result ≡ alternation (expressions alternatives.items) }
{
    let properties = properties_of_one(&alternatives);
    Hir {
        kind: HirKind::Alternation(alternatives),
        properties,
    }
}

fn properties_of_one(alternatives: &[Hir]) -> Properties
    requires { 0 < length alternatives.now }
    ensures value { AreOf (alternation (expressions alternatives.now)) result }
    ensures sound { AreSound (expressions alternatives.now) }
{
    let mut i = alternatives.len() - 1;
    let last = &alternatives[i];
    let mut properties = last.properties.alone();
    while i > 0 {
        i -= 1;
        let alternative = &alternatives[i];
        properties = alternative.properties.or(properties);
    }
    properties
}
