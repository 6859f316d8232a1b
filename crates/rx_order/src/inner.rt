//! Literals within each match, and what stands before them. A call goes as deep as the expression.
ghost use Rattle.std.specs.Prelude.{◌≡◌, ◌∷◌, [], ◌<◌, ◌≤◌, Some, length, map, option_map, IfOk, IfSome};
ghost use Rattle.std.specs.Option.{unwrap_or};
ghost use Rattle.std.specs.Vec.{vec_items};
ghost use Rattle.rx_model.specs.Expression.{Expression};
ghost use Rattle.rx_hir.specs.Normal.{expressions, repetition_of, concat_of};
ghost use Rattle.rx_literal.specs.Literals.{bytes_of};
ghost use Rattle.rx_prefilter.specs.Choices.{served};
ghost use Rattle.rx_order.specs.Order.{HasRest};
ghost use Rattle.rx_order.specs.Inner.{uncaptured, all_uncaptured, parts_in, top_parts, if_fast, fast_prefixes, inner_at, inner_in, inner_of};

use rx_hir::{Hir, HirKind, Repetition};
use rx_literal::{Literal, prefixes};
use rx_prefilter::Prefilter;
use rx_search::{MatchKind, Memory};
use std::alloc::Global;

/// A search for literals, one of which lies within each match, and what stands before them.
#[derive(Drop)]
pub struct InnerPrefilter {
    /// What stands before the literals.
    pub prefix: Hir,
    /// The search for the literals.
    pub pre: Prefilter,
    /// The literals.
    pub literals: Vec<Vec<u8>>,
}

impl InnerPrefilter {
    /// Of one expression, which is a concatenation, the first part but one that begins with literals for which a search
    /// is fast. The literals are those with which all from that part on begins, where a search for them is fast, else
    /// those of the part. The expression is what stands before them and then a rest that begins with one of them.
    ///
    /// # Errors
    ///
    /// `Memory`, where there was no memory for the parts, their literals or the search.
    pub fn new(alloc: Global, hirs: &[Hir]) -> Result<Option<InnerPrefilter>, Memory>
        ensures value { IfOk result (λ made. option_map (λ i. (i.prefix, map vec_items i.literals.items)) made ≡ inner_of hirs.now) }
        ensures search { IfOk result (λ made. IfSome made (λ i. i.pre ≡ map vec_items i.literals.items)) }
        ensures rest { (h : Expression) → hirs.now ≡ h ∷ [] → IfOk result (λ made. IfSome made (λ i. HasRest h i.prefix (map vec_items i.literals.items))) }
    {
        if hirs.len() != 1 {
            return Ok(None);
        }
        // That its counts are in order is what this call ensures.
        let _kind = hirs[0].kind();
        match top_parts(alloc, &hirs[0])? {
            Some(parts) => in_parts(alloc, parts),
            None => Ok(None),
        }
    }
}

fn in_parts(alloc: Global, parts: Vec<Hir>) -> Result<Option<InnerPrefilter>, Memory>
    ensures value { IfOk result (λ made. option_map (λ i. (i.prefix, map vec_items i.literals.items)) made ≡ inner_in (Some parts.items)) }
    ensures search { IfOk result (λ made. IfSome made (λ i. i.pre ≡ map vec_items i.literals.items)) }
{
    let mut i = 1;
    while i < parts.len() {
        let found = fast_prefixes(alloc, &parts[i])?;
        if let Some(found) = found {
            return at_part(alloc, parts, i, found);
        }
        i += 1;
    }
    Ok(None)
}

/// Literals, and the search for them.
#[derive(Drop)]
pub(crate) struct Found {
    literals: Vec<Vec<u8>>,
    pre: Prefilter,
}

/// What is searched for from the part at this place on, of which these literals were found.
fn at_part(
    alloc: Global,
    parts: Vec<Hir>,
    at: usize,
    found: Found,
) -> Result<Option<InnerPrefilter>, Memory>
    requires within { at < length parts.items }
    requires search { found.pre ≡ map vec_items found.literals.items }
    ensures value { IfOk result (λ made. option_map (λ i. (i.prefix, map vec_items i.literals.items)) made
        ≡ Some (inner_at parts.items (at, map vec_items found.literals.items))) }
    ensures search { IfOk result (λ made. IfSome made (λ i. i.pre ≡ map vec_items i.literals.items)) }
{
    let mut parts = parts;
    let rest = parts.split_off(at)?;
    let prefix = Hir::concat(alloc, parts)?;
    let rest = Hir::concat(alloc, rest)?;
    let longer = fast_prefixes(alloc, &rest)?;
    let found = found_or(longer, found);
    Ok(Some(InnerPrefilter {
        prefix,
        pre: found.pre,
        literals: found.literals,
    }))
}

fn found_or(longer: Option<Found>, found: Found) -> Found
    requires longer { IfSome longer (λ f. f.pre ≡ map vec_items f.literals.items) }
    requires found { found.pre ≡ map vec_items found.literals.items }
    ensures value { map vec_items result.literals.items
        ≡ unwrap_or (option_map (λ f. map vec_items f.literals.items) longer) (map vec_items found.literals.items) }
    ensures search { result.pre ≡ map vec_items result.literals.items }
{
    match longer {
        Some(found) => found,
        None => found,
    }
}

/// What each match of the expression begins with, where a search for it is fast. Whether these prefixes are exact has
/// no part in it (DECISIONS: a fast search has at most 64 needles).
fn fast_prefixes(alloc: Global, hir: &Hir) -> Result<Option<Found>, Memory>
    ensures value { IfOk result (λ found. option_map (λ f. map vec_items f.literals.items) found ≡ fast_prefixes hir.now) }
    ensures search { IfOk result (λ found. IfSome found (λ f. f.pre ≡ map vec_items f.literals.items)) }
{
    let found = prefixes(alloc, hir)?;
    let seq = found.trimmed_by_preference(alloc)?;
    match seq.literals() {
        Some(literals) => {
            let needles = needles_of(alloc, literals)?;
            fast_search(alloc, needles)
        }
        None => Ok(None),
    }
}

/// The literals' bytes.
fn needles_of(alloc: Global, literals: &[Literal]) -> Result<Vec<Vec<u8>>, Memory>
    ensures { IfOk result (λ needles. map vec_items needles.items ≡ map bytes_of literals.now) }
{
    let mut needles = Vec::new(alloc);
    for literal in literals {
        needles.push(Vec::from_slice(alloc, literal.as_bytes())?)?;
    }
    Ok(needles)
}

fn fast_search(alloc: Global, literals: Vec<Vec<u8>>) -> Result<Option<Found>, Memory>
    ensures value { IfOk result (λ found. option_map (λ f. map vec_items f.literals.items) found ≡ if_fast (served (map vec_items literals.items))) }
    ensures search { IfOk result (λ found. IfSome found (λ f. f.pre ≡ map vec_items f.literals.items)) }
{
    match Prefilter::new(alloc, MatchKind::LeftmostFirst, &literals)? {
        Some(pre) => Ok(if_fast(Found { literals, pre })),
        None => Ok(None),
    }
}

fn if_fast(found: Found) -> Option<Found>
    requires { found.pre ≡ map vec_items found.literals.items }
    ensures value { option_map (λ f. map vec_items f.literals.items) result ≡ if_fast (Some (map vec_items found.literals.items)) }
    ensures search { IfSome result (λ f. f.pre ≡ map vec_items f.literals.items) }
{
    if found.pre.is_fast() {
        Some(found)
    } else {
        None
    }
}

/// The parts of the concatenation that the expression is, but for captures around it; each without captures.
fn top_parts(alloc: Global, hir: &Hir) -> Result<Option<Vec<Hir>>, Memory>
    ensures { IfOk result (λ parts. option_map vec_items parts ≡ top_parts hir.now) }
{
    match hir.kind() {
        HirKind::Capture(capture) => top_parts(alloc, &capture.sub),
        HirKind::Concat(subs) => row_parts(alloc, subs),
        HirKind::Empty => Ok(None),
        HirKind::Literal(_) => Ok(None),
        HirKind::Class(_) => Ok(None),
        HirKind::Look(_) => Ok(None),
        HirKind::Repetition(_) => Ok(None),
        HirKind::Alternation(_) => Ok(None),
    }
}

fn row_parts(alloc: Global, subs: &[Hir]) -> Result<Option<Vec<Hir>>, Memory>
    ensures { IfOk result (λ parts. option_map vec_items parts ≡ parts_in (concat_of (all_uncaptured (expressions subs.now)))) }
{
    let subs = all_uncaptured(alloc, subs)?;
    Ok(parts_in(Hir::concat(alloc, subs)?))
}

/// The parts, where it is a concatenation.
fn parts_in(hir: Hir) -> Option<Vec<Hir>>
    ensures { option_map vec_items result ≡ parts_in hir }
{
    match hir.into_kind() {
        HirKind::Concat(parts) => Some(parts),
        HirKind::Empty => None,
        HirKind::Literal(_) => None,
        HirKind::Class(_) => None,
        HirKind::Look(_) => None,
        HirKind::Repetition(_) => None,
        HirKind::Capture(_) => None,
        HirKind::Alternation(_) => None,
    }
}

/// The expression without captures.
#[cycle(uncaptured)]
fn uncaptured(alloc: Global, hir: &Hir) -> Result<Hir, Memory>
    ensures { IfOk result (λ h. h ≡ uncaptured hir.now) }
{
    match hir.kind() {
        HirKind::Empty => Ok(hir.clone()?),
        HirKind::Literal(_) => Ok(hir.clone()?),
        HirKind::Class(_) => Ok(hir.clone()?),
        HirKind::Look(_) => Ok(hir.clone()?),
        HirKind::Repetition(copies) => uncaptured_copies(alloc, copies),
        HirKind::Capture(capture) => uncaptured(alloc, &capture.sub),
        HirKind::Concat(subs) => Ok(Hir::concat(alloc, all_uncaptured(alloc, subs)?)?),
        HirKind::Alternation(subs) => Ok(Hir::alternation(alloc, all_uncaptured(alloc, subs)?)?),
    }
}

#[cycle(uncaptured)]
fn uncaptured_copies(alloc: Global, copies: &Repetition) -> Result<Hir, Memory>
    requires { IfSome copies.now.max (λ m. copies.now.min ≤ m) }
    ensures { IfOk result (λ h. h ≡ repetition_of copies.now.min copies.now.max copies.now.greedy (uncaptured copies.now.sub.value)) }
{
    let sub = uncaptured(alloc, &copies.sub)?;
    Ok(Hir::repetition(Repetition {
        min: copies.min,
        max: copies.max,
        greedy: copies.greedy,
        sub: Box::new(alloc, sub)?,
    }))
}

#[cycle(uncaptured)]
fn all_uncaptured(alloc: Global, subs: &[Hir]) -> Result<Vec<Hir>, Memory>
    ensures { IfOk result (λ v. v.items ≡ all_uncaptured (expressions subs.now)) }
{
    let mut all = Vec::with_capacity(alloc, subs.len())?;
    for sub in subs {
        all.push(uncaptured(alloc, sub)?)?;
    }
    Ok(all)
}
