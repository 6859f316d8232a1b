//! Sequences of literals.
ghost use Rattle.std.specs.Prelude.{◌≡◌, ◌∷◌, ◌++◌, [], nat_lt, length, map, option_map, IsTrue, IfOk, OnOk};
ghost use Rattle.std.specs.List.{flat_map, list_any, list_all};
ghost use Rattle.std.specs.Vec.{vec_items};
ghost use Rattle.rx_literal.specs.Literals.{seq_of, exact, infinite, finite, is_finite, is_exact, is_empty, loose, cut, one_empty};
ghost use Rattle.rx_literal.specs.Literals.{loosened, limited, union, extended_by_each, stopped, cross, some_exact};
ghost use Rattle.rx_literal.specs.First.{all_exact};

use crate::literal::Literal;
use crate::side::Side;
use crate::trim::are_exact;
use rx_search::Memory;
use std::alloc::{AllocError, Global};
use std::marker::Model;

/// The most literals of a sequence.
const MOST: usize = 250;

/// Literals, one of which each match begins, or ends, with; or infinitely many, which promise nothing.
#[derive(Drop)]
pub struct Seq {
    literals: Option<Vec<Literal>>,
}

impl Model for Seq {
    ghost use Rattle.std.specs.Prelude.{option_map};
    ghost use Rattle.std.specs.Vec.{vec_items};
    ghost use Rattle.rx_literal.specs.Literals as model;

    ghost Value = { model.Seq };

    ghost view = { λ s. model.seq_of (option_map vec_items s.literals) };
}

impl Clone for Seq {
    ghost use Rattle.std.specs.Prelude.{◌≡◌};

    ghost is_clone = { λ seq copy. copy ≡ seq };

    fn clone(&self) -> Result<Seq, AllocError> {
        match &self.literals {
            Some(literals) => Ok(Seq::finite(copied(literals)?)),
            None => Ok(Seq::infinite()),
        }
    }
}

impl Seq {
    /// These literals, in order; infinitely many, where they are more than 250.
    #[tactic(auto, unfolding(crate::specs::Literals::limited))]
    pub fn new(literals: Vec<Literal>) -> Seq
        ensures { result ≡ limited literals.items }
    {
        if literals.len() > MOST {
            return Seq::infinite();
        }
        Seq::finite(literals)
    }

    /// Infinitely many literals.
    pub fn infinite() -> Seq
        ensures { result ≡ infinite }
    {
        Seq { literals: None }
    }

    /// The literals, in order, where there are not infinitely many.
    pub fn literals(&self) -> Option<&[Literal]>
        ensures { seq_of (option_map (λ r. r.now) result) ≡ self.now }
    {
        match &self.literals {
            Some(literals) => Some(literals.as_slice()),
            None => None,
        }
    }

    /// The literals, where there are not infinitely many.
    pub(crate) fn into_literals(self) -> Option<Vec<Literal>>
        ensures { seq_of (option_map vec_items result) ≡ self }
    {
        self.literals
    }

    /// There are not infinitely many.
    pub fn is_finite(&self) -> bool
        ensures { result ≡ is_finite self.now }
    {
        self.literals.is_some()
    }

    /// Each literal is exact, and there are not infinitely many.
    pub fn is_exact(&self) -> bool
        ensures { result ≡ all_exact self.now }
    {
        match &self.literals {
            Some(literals) => are_exact(literals),
            None => false,
        }
    }

    /// The sequence of these.
    pub(crate) fn finite(literals: Vec<Literal>) -> Seq
        ensures { result ≡ finite literals.items }
    {
        Seq {
            literals: Some(literals),
        }
    }

    /// The sequence of no literals, with room for so many, but for no more than it may have.
    pub(crate) fn with_room(alloc: Global, count: usize) -> Result<Seq, Memory>
        ensures { IfOk result (λ s. s ≡ finite []) }
    {
        Ok(Seq::finite(Vec::with_capacity(alloc, count.min(MOST))?))
    }

    /// The sequence of one exact literal without bytes.
    pub(crate) fn one_empty(alloc: Global) -> Result<Seq, Memory>
        ensures { IfOk result (λ s. s ≡ one_empty) }
    {
        let mut literals = Vec::new(alloc);
        literals.push(Literal::empty(alloc))?;
        Ok(Seq::finite(literals))
    }

    /// Each of them, inexact.
    pub(crate) fn loosened(self) -> Seq
        ensures { result ≡ loosened self }
    {
        match self.literals {
            Some(literals) => Seq::finite(loosened(literals)),
            None => Seq::infinite(),
        }
    }

    /// Some literal is exact, and so can be extended.
    pub(crate) fn has_exact(&self) -> bool
        ensures { result ≡ some_exact self.now }
    {
        match &self.literals {
            Some(literals) => has_exact(literals),
            None => false,
        }
    }

    /// These, and then the others; infinitely many, where they are more than 250.
    pub(crate) fn union(self, others: Seq) -> Result<Seq, Memory>
        ensures { IfOk result (λ s. s ≡ union self others) }
    {
        match self.literals {
            Some(literals) => with_others(literals, others),
            None => Ok(Seq::infinite()),
        }
    }

    /// These, and then one more; infinitely many, where they are more than 250.
    pub(crate) fn with(self, literal: Literal) -> Result<Seq, Memory>
        ensures { IfOk result (λ s. s ≡ union self (finite (literal ∷ []))) }
    {
        match self.literals {
            Some(literals) => with_one(literals, literal),
            None => Ok(Seq::infinite()),
        }
    }

    /// It is one exact literal without bytes.
    pub(crate) fn is_one_empty(&self) -> bool
        ensures { IsTrue result → self.now ≡ one_empty }
    {
        match &self.literals {
            Some(literals) => is_one_empty(literals),
            None => false,
        }
    }

    /// The same as the cross with these, which are given away.
    pub(crate) fn crossed_with(self, alloc: Global, side: Side, others: Seq) -> Result<Seq, Memory>
        ensures { IfOk result (λ s. s ≡ cross side self others) }
    {
        if self.is_one_empty() {
            return others.after_nothing(alloc, side);
        }
        self.cross(alloc, side, &others)
    }

    /// One exact literal without bytes, extended by each of these.
    #[tactic(auto, unfolding(crate::specs::Literals::cross, crate::specs::Literals::stopped))]
    fn after_nothing(self, alloc: Global, side: Side) -> Result<Seq, Memory>
        ensures { IfOk result (λ s. s ≡ cross side one_empty self) }
    {
        match self.literals {
            Some(literals) => shortened(alloc, side, literals),
            None => Ok(Seq::infinite()),
        }
    }

    /// Each exact literal extended by each of the others, where these are no more than 250.
    #[tactic(auto, unfolding(crate::specs::Literals::cross))]
    pub(crate) fn cross(self, alloc: Global, side: Side, others: &Seq) -> Result<Seq, Memory>
        ensures { IfOk result (λ s. s ≡ cross side self others.now) }
    {
        match self.literals {
            Some(literals) => crossed(alloc, side, literals, others),
            None => Ok(Seq::infinite()),
        }
    }
}

/// The same literals.
fn copied(literals: &Vec<Literal>) -> Result<Vec<Literal>, AllocError>
    ensures { IfOk result (λ v. v.items ≡ literals.now.items) }
{
    literals.clone()
}

fn is_one_empty(literals: &[Literal]) -> bool
    ensures { IsTrue result → literals.now ≡ exact [] ∷ [] }
{
    literals.len() == 1 && literals[0].is_exact() && literals[0].is_empty()
}

/// The literals, cut to 100 bytes at that side; infinitely many, where they are more than 250.
fn shortened(alloc: Global, side: Side, literals: Vec<Literal>) -> Result<Seq, Memory>
    ensures { IfOk result (λ s. s ≡ cross side one_empty (finite literals.items)) }
{
    if literals.len() > MOST {
        return Ok(Seq::infinite());
    }
    Ok(Seq::finite(all_shortened(alloc, side, literals)?))
}

fn all_shortened(alloc: Global, side: Side, literals: Vec<Literal>) -> Result<Vec<Literal>, Memory>
    ensures { IfOk result (λ v. v.items ≡ map (cut side 100) literals.items) }
{
    let mut all = Vec::with_capacity(alloc, literals.len())?;
    for literal in literals {
        all.push(literal.shortened(alloc, side)?)?;
    }
    Ok(all)
}

/// Each of the literals, inexact.
fn loosened(literals: Vec<Literal>) -> Vec<Literal>
    ensures { result.items ≡ map loose literals.items }
{
    let mut literals = literals;
    for i in 0..literals.len() {
        literals[i].loosen();
    }
    literals
}

fn has_exact(literals: &[Literal]) -> bool
    ensures { result ≡ list_any is_exact literals.now }
{
    for literal in literals {
        if literal.is_exact() {
            return true;
        }
    }
    false
}

/// Some literal has no bytes.
pub(crate) fn has_empty(literals: &[Literal]) -> bool
    ensures { result ≡ list_any is_empty literals.now }
{
    for literal in literals {
        if literal.is_empty() {
            return true;
        }
    }
    false
}

fn with_others(literals: Vec<Literal>, others: Seq) -> Result<Seq, Memory>
    ensures { IfOk result (λ s. s ≡ union (finite literals.items) others) }
{
    match others.literals {
        Some(more) => both(literals, more),
        None => Ok(Seq::infinite()),
    }
}

#[tactic(auto, unfolding(crate::specs::Literals::limited))]
fn with_one(literals: Vec<Literal>, literal: Literal) -> Result<Seq, Memory>
    ensures { IfOk result (λ s. s ≡ limited (literals.items ++ literal ∷ [])) }
{
    let mut literals = literals;
    literals.push(literal)?;
    if literals.len() > MOST {
        return Ok(Seq::infinite());
    }
    Ok(Seq::finite(literals))
}

#[tactic(auto, unfolding(crate::specs::Literals::limited))]
fn both(literals: Vec<Literal>, more: Vec<Literal>) -> Result<Seq, Memory>
    ensures { IfOk result (λ s. s ≡ limited (literals.items ++ more.items)) }
{
    let mut literals = literals;
    for literal in more {
        literals.push(literal)?;
    }
    if literals.len() > MOST {
        return Ok(Seq::infinite());
    }
    Ok(Seq::finite(literals))
}

#[tactic(auto, unfolding(crate::specs::Literals::cross))]
fn crossed(alloc: Global, side: Side, literals: Vec<Literal>, others: &Seq) -> Result<Seq, Memory>
    ensures { IfOk result (λ s. s ≡ cross side (finite literals.items) others.now) }
{
    match &others.literals {
        Some(others) => crossed_by(alloc, side, literals, others),
        None => Ok(stopped(literals)),
    }
}

#[tactic(auto, unfolding(crate::specs::Literals::cross))]
fn crossed_by(
    alloc: Global,
    side: Side,
    literals: Vec<Literal>,
    others: &[Literal],
) -> Result<Seq, Memory>
    ensures { IfOk result (λ s. s ≡ cross side (finite literals.items) (finite others.now)) }
{
    if are_too_many(&literals, others, side) {
        return Ok(stopped(literals));
    }
    let mut all = Vec::new(alloc);
    for literal in literals {
        push_extended(&mut all, alloc, side, literal, others)?;
    }
    Ok(Seq::finite(all))
}

/// What is left of literals that can't be extended.
#[tactic(auto, unfolding(crate::specs::Literals::stopped))]
fn stopped(literals: Vec<Literal>) -> Seq
    ensures { result ≡ stopped literals.items }
{
    if has_empty(&literals) {
        return Seq::infinite();
    }
    Seq::finite(loosened(literals))
}

/// Extended by each of the others, the literals would be more than 250.
fn are_too_many(literals: &[Literal], others: &[Literal], side: Side) -> bool
    ensures { result ≡ nat_lt 250 (length (flat_map (extended_by_each side others.now) literals.now)) }
{
    let mut count: usize = 0;
    for literal in literals {
        count = count.saturating_add(extensions(literal, others, side));
        if count > MOST {
            return true;
        }
    }
    false
}

/// How many literals this one gives.
fn extensions(literal: &Literal, others: &[Literal], side: Side) -> usize
    ensures { result ≡ length (extended_by_each side others.now literal.now) }
{
    if literal.is_exact() { others.len() } else { 1 }
}

/// Adds what the literal is extended to: an exact one by each of the others, and an inexact one stays.
#[tactic(auto, unfolding(crate::specs::Literals::extended_by_each))]
fn push_extended(
    all: &mut Vec<Literal>,
    alloc: Global,
    side: Side,
    literal: Literal,
    others: &[Literal],
) -> Result<(), Memory>
    ensures { OnOk result (all.new.items ≡ all.old.items ++ extended_by_each side others.now literal) }
{
    if !literal.is_exact() {
        all.push(literal)?;
        return Ok(());
    }
    for other in others {
        all.push(other.joined_to(alloc, side, literal.as_bytes())?)?;
    }
    Ok(())
}
