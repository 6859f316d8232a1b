//! Classes that are made range by range.
ghost use Rattle.std.specs.Prelude.{◌≡◌, [], ◌∷◌, IfOk};
ghost use Rattle.rx_class.specs.Ranges.{next_scalar, fewest, union, HaveScalarEnds};

use crate::class::ClassUnicode;
use crate::scalars::merged;
use rx_memory::Memory;
use std::alloc::Global;
use std::marker::Model;

/// So many ranges are gathered before they are merged for the first time.
const FIRST_MERGE: usize = 1024;

/// A class to which ranges are added, which a contract sees as the class so far.
///
/// The ranges are merged whenever they have doubled since they were merged last. So they take no more memory than some
/// times what the class takes, and each is sorted but a few times.
#[derive(Drop)]
pub struct GatheredUnicode {
    alloc: Global,
    ranges: Vec<(char, char)>,
    /// At so many ranges they are merged.
    merge_at: usize,
}

impl Model for GatheredUnicode {
    ghost use Rattle.std.specs.Prelude.{List, ℕ};
    ghost use Rattle.rx_class.specs.Ranges.{next_scalar, fewest, HaveScalarEnds};

    ghost Value = { List (ℕ × ℕ) };

    ghost view = { λ g. fewest next_scalar g.ranges.items };

    ghost invariant = { λ g. HaveScalarEnds g.ranges.items };
}

impl GatheredUnicode {
    /// No ranges yet.
    pub fn new(alloc: Global) -> GatheredUnicode
        ensures { result ≡ [] }
    {
        GatheredUnicode {
            alloc,
            ranges: Vec::new(alloc),
            merge_at: FIRST_MERGE,
        }
    }

    /// With the scalars from `low` to `high` more.
    pub fn with(self, low: char, high: char) -> Result<GatheredUnicode, Memory>
        ensures value { IfOk result (λ g. g ≡ union next_scalar self ((low, high) ∷ [])) }
        ensures ends { IfOk result (λ _. HaveScalarEnds ((low, high) ∷ [])) }
    {
        let mut ranges = self.ranges;
        ranges.push((low, high))?;
        let gathered = settled(self.alloc, ranges, self.merge_at)?;
        Ok(gathered)
    }

    /// With the scalars of a class more.
    pub fn with_class(self, class: &ClassUnicode) -> Result<GatheredUnicode, Memory>
        ensures value { IfOk result (λ g. g ≡ union next_scalar self class.now) }
        ensures ends { IfOk result (λ _. HaveScalarEnds class.now) }
    {
        let mut ranges = self.ranges;
        ranges.extend_from_slice(class.ranges())?;
        let gathered = settled(self.alloc, ranges, self.merge_at)?;
        Ok(gathered)
    }

    /// The class of all that was added.
    pub fn build(self) -> Result<ClassUnicode, Memory>
        ensures { IfOk result (λ c. c ≡ self) }
    {
        ClassUnicode::new(self.alloc, &self.ranges)
    }
}

/// The ranges, merged where they have come to `merge_at`.
fn settled(
    alloc: Global,
    ranges: Vec<(char, char)>,
    merge_at: usize,
) -> Result<GatheredUnicode, Memory>
    requires { HaveScalarEnds ranges.items }
    ensures { IfOk result (λ g. g ≡ fewest next_scalar ranges.items) }
{
    if ranges.len() < merge_at {
        return Ok(GatheredUnicode {
            alloc,
            ranges,
            merge_at,
        });
    }
    // They have doubled since the last time (DECISIONS: copies of a class share its ranges).
    let ranges = merged(alloc, &ranges)?;
    let merge_at = ranges.len().saturating_mul(2).max(FIRST_MERGE);
    Ok(GatheredUnicode {
        alloc,
        ranges,
        merge_at,
    })
}
