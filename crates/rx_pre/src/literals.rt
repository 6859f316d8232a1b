//! The literals that stand for a whole expression.
ghost use Rattle.std.specs.Prelude.{◌≡◌, ◌<◌, true, IfOk, IfSome, IsTrue};
ghost use Rattle.rx_model.specs.Expression.{AreOrdered};
ghost use Rattle.rx_hir.specs.Properties.{explicit_groups};
ghost use Rattle.rx_literal.specs.Extract.{prefixes};
ghost use Rattle.rx_literal.specs.First.{IsLookFree};
ghost use Rattle.rx_literal.specs.Trim.{trimmed_by_preference};
ghost use Rattle.rx_order.specs.Alternation.{texts_in};
ghost use Rattle.rx_pre.specs.Literals.{is_plain, exact_needles, served_texts, needles_in, needles_of_one, literal_needles};
ghost use Rattle.rx_pre.specs.Whole.{TellEnds, AreWhole, AreWholeOf};

use rx_hir::Hir;
use rx_literal::{is_look_free, prefixes};
use rx_order::alternation_literals;
use rx_prefilter::Prefilter;
use rx_search::{MatchKind, Memory};
use std::alloc::Global;
use std::slice;

/// A search for the literals of one expression that is nothing else, where the first match is sought.
///
/// It has no groups and no look-around. Its literals are its prefixes, trimmed by preference, where each of them is exact
/// and they fit a kind of search; else those of an alternation of at least 3000 literals, where these fit one. None
/// exactly where there are neither.
///
/// # Errors
///
/// `Memory`, where there was no memory for the literals or the search.
pub fn literal_prefilter(
    alloc: Global,
    kind: MatchKind,
    exprs: &[Hir],
) -> Result<Option<Prefilter>, Memory>
    ensures value { IfOk result (λ made. made ≡ literal_needles kind exprs.now) }
    ensures whole { IfOk result (λ made. IfSome made (λ needles. AreWholeOf needles exprs.now)) }
{
    match kind {
        MatchKind::All => Ok(None),
        MatchKind::LeftmostFirst => of_one(alloc, exprs),
    }
}

/// The same where the first match is sought.
fn of_one(alloc: Global, exprs: &[Hir]) -> Result<Option<Prefilter>, Memory>
    ensures value { IfOk result (λ made. made ≡ needles_of_one exprs.now) }
    ensures whole { IfOk result (λ made. IfSome made (λ needles. AreWholeOf needles exprs.now)) }
{
    if exprs.len() != 1 {
        return Ok(None);
    }
    of_expression(alloc, &exprs[0])
}

/// The same of an expression.
fn of_expression(alloc: Global, hir: &Hir) -> Result<Option<Prefilter>, Memory>
    ensures value { IfOk result (λ made. made ≡ needles_in hir.now) }
    ensures whole { IfOk result (λ made. IfSome made (λ needles. AreWhole needles hir.now)) }
{
    if !is_plain(hir) {
        return Ok(None);
    }
    of_plain(alloc, hir)
}

/// The same of an expression without groups and look-around.
fn of_plain(alloc: Global, hir: &Hir) -> Result<Option<Prefilter>, Memory>
    requires plain { is_plain hir.now ≡ true }
    requires look_free { IsLookFree hir.now }
    requires ordered { AreOrdered hir.now }
    ensures value { IfOk result (λ made. made ≡ needles_in hir.now) }
    ensures whole { IfOk result (λ made. IfSome made (λ needles. AreWhole needles hir.now)) }
{
    match of_prefixes(alloc, hir)? {
        Some(pre) => Ok(Some(pre)),
        None => of_alternation(alloc, hir),
    }
}

/// Whether neither a group nor a look-around stands in the expression.
fn is_plain(hir: &Hir) -> bool
    ensures value { result ≡ is_plain hir.now }
    ensures look_free { IsTrue result → IsLookFree hir.now }
    ensures ordered { AreOrdered hir.now }
{
    // That the counts of its repetitions are in order is what this call ensures.
    let _kind = hir.kind();
    if hir.properties().explicit_captures_len() > 0 {
        return false;
    }
    is_look_free(hir)
}

/// A search for the prefixes, where each of them is the whole of a match.
fn of_prefixes(alloc: Global, hir: &Hir) -> Result<Option<Prefilter>, Memory>
    requires look_free { IsLookFree hir.now }
    requires ordered { AreOrdered hir.now }
    ensures value { IfOk result (λ made. made ≡ exact_needles (trimmed_by_preference (prefixes hir.now))) }
    ensures ends { IfOk result (λ made. IfSome made (λ needles. TellEnds needles hir.now)) }
{
    let seq = prefixes(alloc, hir)?.trimmed_by_preference(alloc)?;
    if !seq.is_exact() {
        return Ok(None);
    }
    Prefilter::from_hir_prefix(alloc, MatchKind::LeftmostFirst, hir)
}

/// A search for the literals of an alternation of many.
fn of_alternation(alloc: Global, hir: &Hir) -> Result<Option<Prefilter>, Memory>
    ensures value { IfOk result (λ made. made ≡ served_texts (texts_in hir.now)) }
    ensures ends { IfOk result (λ made. IfSome made (λ needles. TellEnds needles hir.now)) }
{
    match alternation_literals(alloc, MatchKind::LeftmostFirst, slice::from_ref(hir))? {
        Some(texts) => Prefilter::new(alloc, MatchKind::LeftmostFirst, &texts),
        None => Ok(None),
    }
}
