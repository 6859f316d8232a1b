//! Alternations of many literals.
ghost use Rattle.std.specs.Prelude.{◌≡◌, ◌∷◌, [], ℕ, List, map, option_map, IfOk, IfSome};
ghost use Rattle.std.specs.Vec.{vec_items};
ghost use Rattle.rx_model.specs.Expression.{Expression};
ghost use Rattle.rx_model.specs.Runs.{Trace};
ghost use Rattle.rx_model.specs.Search.{Patterns, first};
ghost use Rattle.rx_literal.specs.Literals.{exact};
ghost use Rattle.rx_literal.specs.First.{first_there};
ghost use Rattle.rx_order.specs.Alternation.{text_of, texts_of, many_texts, texts_in, texts_of_one, alternation_literals};

use rx_hir::{Hir, HirKind};
use rx_search::{MatchKind, Memory};
use std::alloc::Global;

/// The fewest literals for which a search of their own is worth more than an automaton.
const FEWEST: usize = 3000;

/// The literals of one expression that is an alternation of at least 3000 literals, in order, where the first match is
/// sought. The first of them that lies at a place is where the first run from there ends.
///
/// # Errors
///
/// `Memory`, where there was no memory for the literals.
pub fn alternation_literals(
    alloc: Global,
    kind: MatchKind,
    hirs: &[Hir],
) -> Result<Option<Vec<Vec<u8>>>, Memory>
    ensures value { IfOk result (λ literals. option_map (λ v. map vec_items v.items) literals ≡ alternation_literals kind hirs.now) }
    ensures runs { (h : Expression) → hirs.now ≡ h ∷ [] → IfOk result (λ literals. IfSome literals (λ v. (r : Patterns) (text : List ℕ) (end p i : ℕ)
        → option_map (λ (t : Trace). t.end) (first r text end p h i) ≡ first_there text end i (map exact (map vec_items v.items)))) }
{
    match kind {
        MatchKind::All => Ok(None),
        MatchKind::LeftmostFirst => of_one(alloc, hirs),
    }
}

fn of_one(alloc: Global, hirs: &[Hir]) -> Result<Option<Vec<Vec<u8>>>, Memory>
    ensures { IfOk result (λ literals. option_map (λ v. map vec_items v.items) literals ≡ texts_of_one hirs.now) }
{
    if hirs.len() != 1 {
        return Ok(None);
    }
    in_alternation(alloc, &hirs[0])
}

fn in_alternation(alloc: Global, hir: &Hir) -> Result<Option<Vec<Vec<u8>>>, Memory>
    ensures { IfOk result (λ literals. option_map (λ v. map vec_items v.items) literals ≡ texts_in hir.now) }
{
    match hir.kind() {
        HirKind::Alternation(subs) => many_texts(alloc, subs),
        HirKind::Empty => Ok(None),
        HirKind::Literal(_) => Ok(None),
        HirKind::Class(_) => Ok(None),
        HirKind::Look(_) => Ok(None),
        HirKind::Repetition(_) => Ok(None),
        HirKind::Capture(_) => Ok(None),
        HirKind::Concat(_) => Ok(None),
    }
}

fn many_texts(alloc: Global, subs: &[Hir]) -> Result<Option<Vec<Vec<u8>>>, Memory>
    ensures { IfOk result (λ literals. option_map (λ v. map vec_items v.items) literals ≡ many_texts 3000 subs.now) }
{
    if subs.len() < FEWEST {
        return Ok(None);
    }
    texts(alloc, subs)
}

/// The bytes of each, where all of them are literals.
fn texts(alloc: Global, subs: &[Hir]) -> Result<Option<Vec<Vec<u8>>>, Memory>
    ensures { IfOk result (λ literals. option_map (λ v. map vec_items v.items) literals ≡ texts_of subs.now) }
{
    let mut literals = Vec::with_capacity(alloc, subs.len())?;
    for sub in subs {
        match text_of(sub) {
            Some(bytes) => literals.push(Vec::from_slice(alloc, bytes)?)?,
            None => return Ok(None),
        }
    }
    Ok(Some(literals))
}

/// The bytes of a literal.
fn text_of(hir: &Hir) -> Option<&[u8]>
    ensures { option_map (λ r. r.now) result ≡ text_of hir.now }
{
    match hir.kind() {
        HirKind::Literal(bytes) => Some(bytes),
        HirKind::Empty => None,
        HirKind::Class(_) => None,
        HirKind::Look(_) => None,
        HirKind::Repetition(_) => None,
        HirKind::Capture(_) => None,
        HirKind::Concat(_) => None,
        HirKind::Alternation(_) => None,
    }
}
