//! Sequences trimmed for one kind of matches.
ghost use Rattle.std.specs.Prelude.{◌≡◌, ◌≤◌, ◌<◌, IsTrue, not, nat_eq, nat_le, true, false, if◌then◌else◌, MatchOption, IfOk, OnOk, ◌||◌};
ghost use Rattle.std.specs.Prelude.{ℕ, List, [], ◌∷◌, ◌++◌, length, map, take, drop, slice_index_or};
ghost use Rattle.std.specs.List.Sorted.{IsPermutation};
ghost use Rattle.std.specs.List.{list_all, list_any, starts_with};
ghost use Rattle.rx_literal.specs.Literals.{finite, bytes_of, is_exact, cut};
ghost use Rattle.rx_literal.specs.Literals as model;
ghost use Rattle.rx_literal.specs.declared.side.Side.TheVariants.{Front as front};
ghost use Rattle.rx_literal.specs.declared.order.Order.TheVariants.{Bytes as by_bytes, Branches as by_branches};
ghost use Rattle.rx_literal.specs.Order.{follows, InOrder};
ghost use Rattle.rx_literal.specs.Trim.{has_prefix_in, preferred, picked, few, trimmed_by_preference, past_longer, insert, sorted, trimmed_for_all};

use crate::lent::Lent;
use crate::literal::Literal;
use crate::order::{Order, is_before, position};
use crate::seq::{Seq, has_empty};
use crate::slots::{alone, are_more_than};
use rx_search::Memory;
use std::alloc::Global;

/// The most literals that a trimmed sequence has, if they are not all exact.
const MOST: usize = 64;

impl Seq {
    /// The sequence for a search that prefers the first match. A literal goes that has an earlier one as its
    /// prefix. Where more than 64 stay, they are cut to 3 bytes, if that leaves no more than 64; else they stay
    /// if they are all exact. The sequence is infinite where a literal is empty, or too many are left.
    #[tactic(auto, unfolding(crate::specs::Trim::trimmed_by_preference))]
    pub fn trimmed_by_preference(self, alloc: Global) -> Result<Seq, Memory>
        ensures { IfOk result (λ s. s ≡ trimmed_by_preference self) }
    {
        match self.into_literals() {
            Some(literals) => trimmed(alloc, literals),
            None => Ok(Seq::infinite()),
        }
    }

    /// The sequence for a search of all matches: in the order of their bytes, each once, inexact if it is so
    /// anywhere.
    pub fn trimmed_for_all(&self, alloc: Global) -> Result<Seq, Memory>
        ensures { IfOk result (λ s. s ≡ trimmed_for_all self.now) }
    {
        match self.literals() {
            Some(literals) => Ok(Seq::finite(sorted(alloc, literals)?)),
            None => Ok(Seq::infinite()),
        }
    }
}

#[tactic(auto, unfolding(crate::specs::Trim::trimmed_by_preference))]
fn trimmed(alloc: Global, literals: Vec<Literal>) -> Result<Seq, Memory>
    ensures { IfOk result (λ s. s ≡ trimmed_by_preference (finite literals.items)) }
{
    if has_empty(&literals) {
        return Ok(Seq::infinite());
    }
    few(alloc, preferred(alloc, literals)?)
}

/// These where they are no more than 64; else those of 3 bytes, if these are; else all of them if they are exact.
#[tactic(auto, unfolding(crate::specs::Trim::few))]
fn few(alloc: Global, literals: Vec<Literal>) -> Result<Seq, Memory>
    ensures { IfOk result (λ s. s ≡ few 64 literals.items) }
{
    if literals.len() <= MOST {
        return Ok(Seq::finite(literals));
    }
    if let Some(short) = few_short(alloc, &literals)? {
        return Ok(Seq::finite(short));
    }
    if are_exact(&literals) {
        return Ok(Seq::finite(literals));
    }
    Ok(Seq::infinite())
}

/// The literals of 3 bytes that have no earlier one as their prefix. None where they are more than 64.
fn few_short(alloc: Global, literals: &[Literal]) -> Result<Option<Vec<Literal>>, Memory>
    ensures { IfOk result (λ found. MatchOption found
        (nat_le (length (preferred [] (map (cut front 3) literals.now))) 64 ≡ false)
        (λ short. (short.items ≡ preferred [] (map (cut front 3) literals.now))
        × (nat_le (length (preferred [] (map (cut front 3) literals.now))) 64 ≡ true))) }
{
    if are_more_than(MOST, literals) {
        return Ok(None);
    }
    let mut kept = Vec::new(alloc);
    let mut least = Vec::new(alloc);
    for literal in literals {
        add_short(&mut kept, &mut least, literal)?;
        if kept.len() > MOST {
            return Ok(None);
        }
    }
    Ok(Some(owned(alloc, &kept)?))
}

/// Adds the first 3 bytes of a literal, if none of the least ones is a prefix of them.
fn add_short<'a>(
    kept: &mut Vec<Lent<'a>>,
    least: &mut Vec<Lent<'a>>,
    literal: &'a Literal,
) -> Result<(), Memory>
    requires { InOrder by_branches least.old.items }
    ensures parted { OnOk result (InOrder by_branches least.new.items) }
    ensures added { OnOk result ((rest : List model.Literal) → kept.new.items ++ preferred least.new.items rest
        ≡ kept.old.items ++ preferred least.old.items (cut front 3 literal.now ∷ rest)) }
{
    let short = literal.first_bytes(3);
    let is_new = is_new(least, &short)?;
    keep(kept, is_new, short)?;
    Ok(())
}

pub(crate) fn are_exact(literals: &[Literal]) -> bool
    ensures { result ≡ list_all is_exact literals.now }
{
    for literal in literals {
        if !literal.is_exact() {
            return false;
        }
    }
    true
}

/// The literals that have no earlier one as their prefix.
fn preferred(alloc: Global, literals: Vec<Literal>) -> Result<Vec<Literal>, Memory>
    ensures { IfOk result (λ v. v.items ≡ preferred [] literals.items) }
{
    let marks = marks(alloc, &literals)?;
    if are_all_set(&marks) {
        return Ok(literals);
    }
    picked(alloc, &marks, literals)
}

/// Marks the literals that have no earlier one as their prefix. One that is alone has none, and is no other one's, so
/// that only those that are not alone are compared.
fn marks(alloc: Global, literals: &[Literal]) -> Result<Vec<bool>, Memory>
    ensures picked { IfOk result (λ marks. picked literals.now marks.items ≡ preferred [] literals.now) }
    ensures long { IfOk result (λ marks. length marks.items ≡ length literals.now) }
{
    let alone = alone(alloc, literals)?;
    let mut marks = Vec::with_capacity(alloc, literals.len())?;
    let mut least = Vec::new(alloc);
    for i in 0..literals.len() {
        if is_marked(&alone, i) {
            marks.push(true)?;
            continue;
        }
        marks.push(is_new(&mut least, &literals[i].lent())?)?;
    }
    Ok(marks)
}

fn are_all_set(marks: &[bool]) -> bool
    ensures { result ≡ list_all (λ mark. mark) marks.now }
{
    for mark in marks {
        if !*mark {
            return false;
        }
    }
    true
}

/// The literals that are marked.
fn picked(alloc: Global, marks: &[bool], literals: Vec<Literal>) -> Result<Vec<Literal>, Memory>
    ensures { IfOk result (λ v. v.items ≡ picked literals.items marks.now) }
{
    let mut kept = Vec::with_capacity(alloc, literals.len())?;
    let mut i = 0;
    for literal in literals {
        keep(&mut kept, is_marked(marks, i), literal)?;
        i += 1;
    }
    Ok(kept)
}

fn is_marked(marks: &[bool], at: usize) -> bool
    ensures { result ≡ slice_index_or marks.now at false }
{
    marks.get(at).copied().unwrap_or(false)
}

/// Adds what is kept.
fn keep<T: Drop>(kept: &mut Vec<T>, is_kept: bool, item: T) -> Result<(), Memory>
    ensures { OnOk result (kept.new.items ≡ kept.old.items ++ (if is_kept then item ∷ [] else [])) }
{
    if !is_kept {
        return Ok(());
    }
    kept.push(item)?;
    Ok(())
}

/// Whether none of the least literals is a prefix of this one, which is then one of them, in place of those
/// that it is a prefix of. None of them is a prefix of another, and they stand in order, so that a search by
/// halves finds the only one that may be a prefix.
fn is_new<'a>(least: &mut Vec<Lent<'a>>, literal: &Lent<'a>) -> Result<bool, Memory>
    requires { InOrder by_branches least.old.items }
    ensures parted { OnOk result (InOrder by_branches least.new.items) }
    ensures value { IfOk result (λ b. b ≡ not (has_prefix_in least.old.items literal.now)) }
    ensures covered { OnOk result ((x : model.Literal) → has_prefix_in least.new.items x
        ≡ (has_prefix_in least.old.items x || starts_with nat_eq (bytes_of x) (bytes_of literal.now))) }
{
    // One search by halves, where the definition compares all pairs (DECISIONS: a sequence of literals is trimmed by a sorted list).
    let at = position(Order::Branches, least, literal);
    if has_prefix_at(least, at, literal) {
        return Ok(false);
    }
    drop_longer(least, at, literal);
    least.insert(at, literal.lent())?;
    Ok(true)
}

/// Whether the literal at this index, if there is one, is a prefix of the other.
fn has_prefix_at(literals: &[Lent<'_>], at: usize, literal: &Lent<'_>) -> bool
    ensures { result ≡ has_prefix_in (take 1 (drop at literals.now)) literal.now }
{
    if at >= literals.len() {
        return false;
    }
    literal.as_bytes().starts_with(literals[at].as_bytes())
}

/// Drops the literals from this index on, as far as the literal is a prefix of them.
fn drop_longer(literals: &mut Vec<Lent<'_>>, at: usize, literal: &Lent<'_>)
    requires { at ≤ length literals.old.items }
    ensures { literals.new.items
        ≡ take at literals.old.items ++ past_longer literal.now (drop at literals.old.items) }
{
    while at < literals.len() {
        if !literals[at].as_bytes().starts_with(literal.as_bytes()) {
            return;
        }
        literals.remove(at);
    }
}

/// The literals in order of their bytes, each once. They are put in order by their first bytes before, so that nearly
/// each comes after all that are there.
fn sorted(alloc: Global, literals: &[Literal]) -> Result<Vec<Literal>, Memory>
    ensures { IfOk result (λ v. v.items ≡ sorted literals.now) }
{
    let headed = by_heads(alloc, literals)?;
    let mut found = Vec::with_capacity(alloc, literals.len())?;
    for pair in &headed {
        insert(&mut found, &pair.1)?;
    }
    owned(alloc, &found)
}

/// The literals, each after a number of its first bytes, in order of these numbers.
fn by_heads<'a>(alloc: Global, literals: &'a [Literal]) -> Result<Vec<(u64, Lent<'a>)>, Memory>
    ensures { IfOk result (λ v. IsPermutation literals.now (map (λ (p : ℕ × model.Literal). p.1) v.items)) }
{
    let mut headed = Vec::with_capacity(alloc, literals.len())?;
    for literal in literals {
        headed.push((head(literal.as_bytes()), literal.lent()))?;
    }
    headed.sort_unstable_by_key(|pair| pair.0);
    Ok(headed)
}

/// The first eight bytes as a number, 0 for each that is missing.
fn head(bytes: &[u8]) -> u64 {
    let mut head: u64 = 0;
    for i in 0..8 {
        let byte = bytes.get(i).copied().unwrap_or(0);
        head = head.wrapping_mul(256).wrapping_add(byte as u64);
    }
    head
}

/// The same literals, with bytes of their own.
fn owned(alloc: Global, literals: &[Lent<'_>]) -> Result<Vec<Literal>, Memory>
    ensures { IfOk result (λ v. v.items ≡ literals.now) }
{
    let mut own = Vec::with_capacity(alloc, literals.len())?;
    for literal in literals {
        own.push(literal.to_literal(alloc)?)?;
    }
    Ok(own)
}

/// Adds a literal to sorted ones.
fn insert<'a>(found: &mut Vec<Lent<'a>>, literal: &Lent<'a>) -> Result<(), Memory>
    requires { InOrder by_bytes found.old.items }
    ensures { OnOk result (found.new.items ≡ insert literal.now found.old.items) }
{
    let at = position(Order::Bytes, found, literal);
    if !stands_at(found, at, literal) {
        found.insert(at, literal.lent())?;
        return Ok(());
    }
    // It could pass for a whole match that it is not (DECISIONS: trimmed for all matches).
    if !literal.is_exact() {
        found[at] = literal.lent();
    }
    Ok(())
}

/// Whether the literal at this index, if there is one, does not come after the other.
fn stands_at(found: &[Lent<'_>], at: usize, literal: &Lent<'_>) -> bool
    ensures value { result ≡ list_any (λ m. not (follows by_bytes m literal.now)) (take 1 (drop at found.now)) }
    ensures within { IsTrue result → at < length found.now }
{
    if at >= found.len() {
        return false;
    }
    !is_before(Order::Bytes, literal.as_bytes(), found[at].as_bytes())
}
