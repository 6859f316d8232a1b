//! Prefilters of the prefixes of expressions.
ghost use Rattle.std.specs.Prelude.{◌≡◌, map, IfOk};
ghost use Rattle.std.specs.Vec.{vec_items};
ghost use Rattle.rx_literal.specs.Extract.{prefixes, prefixes_of};
ghost use Rattle.rx_literal.specs.Literals.{bytes_of};
ghost use Rattle.rx_prefilter.specs.Prefixes.{trimmed, served_by};

use crate::Prefilter;
use rx_hir::Hir;
use rx_literal::{Literal, Seq, prefixes, prefixes_of};
use rx_search::{MatchKind, Memory};
use std::alloc::Global;

impl Prefilter {
    /// A search for what each match of the expression begins with. None exactly where its prefixes, trimmed for this
    /// kind of matches, are infinitely many, or no needles of any search.
    ///
    /// # Errors
    ///
    /// `Memory`, where there was no memory for the prefixes or the search.
    pub fn from_hir_prefix(
        alloc: Global,
        kind: MatchKind,
        hir: &Hir,
    ) -> Result<Option<Prefilter>, Memory>
        ensures { IfOk result (λ made. made ≡ served_by (trimmed kind (prefixes hir.now))) }
    {
        let seq = prefixes(alloc, hir)?;
        of_seq(alloc, kind, &trimmed(alloc, kind, seq)?)
    }

    /// The same of several expressions, the prefixes of the first one preferred.
    ///
    /// # Errors
    ///
    /// As by `from_hir_prefix`.
    pub fn from_hirs_prefix(
        alloc: Global,
        kind: MatchKind,
        hirs: &[Hir],
    ) -> Result<Option<Prefilter>, Memory>
        ensures { IfOk result (λ made. made ≡ served_by (trimmed kind (prefixes_of hirs.now))) }
    {
        let seq = prefixes_of(alloc, hirs)?;
        of_seq(alloc, kind, &trimmed(alloc, kind, seq)?)
    }
}

/// The sequence as a search of this kind takes it.
fn trimmed(alloc: Global, kind: MatchKind, seq: Seq) -> Result<Seq, Memory>
    ensures { IfOk result (λ s. s ≡ trimmed kind seq) }
{
    match kind {
        MatchKind::All => seq.trimmed_for_all(alloc),
        MatchKind::LeftmostFirst => seq.trimmed_by_preference(alloc),
    }
}

/// A search for the literals of a sequence.
fn of_seq(alloc: Global, kind: MatchKind, seq: &Seq) -> Result<Option<Prefilter>, Memory>
    ensures { IfOk result (λ made. made ≡ served_by seq.now) }
{
    match seq.literals() {
        Some(literals) => Prefilter::new(alloc, kind, &needles_of(alloc, literals)?),
        None => Ok(None),
    }
}

/// The literals' bytes.
fn needles_of(alloc: Global, literals: &[Literal]) -> Result<Vec<Vec<u8>>, Memory>
    ensures { IfOk result (λ needles. map vec_items needles.items ≡ map bytes_of literals.now) }
{
    let mut needles = Vec::new(alloc);
    for literal in literals {
        needles.push(Vec::from_slice(alloc, literal.as_bytes())?)?;
    }
    Ok(needles)
}
