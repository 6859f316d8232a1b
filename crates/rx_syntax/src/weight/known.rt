//! What named sets weigh. Each is weighed once, however often it is named.
ghost use Rattle.std.specs.Prelude.{◌≡◌, IfOk, IfSome};
ghost use Rattle.rx_syntax.specs.Weight.{set_weight};

use super::Weight;
use crate::known::KnownSets;
use crate::named::SetKey;
use crate::set::scalar_class;
use rx_search::Memory;
use std::alloc::Global;

/// A named set with what its class weighs.
#[derive(Drop)]
struct KnownWeight {
    key: SetKey,
    weight: Weight,
    ghost own: { weight ≡ set_weight key },
}

// Many uses of one set are compared by their keys alone (DECISIONS: a named set is weighed once a list of patterns).
/// The named sets that were weighed so far, and those that were looked up.
#[derive(Drop)]
pub(crate) struct KnownWeights {
    alloc: Global,
    sets: KnownSets,
    weights: Vec<KnownWeight>,
}

impl KnownWeights {
    /// None so far.
    pub(crate) fn new(alloc: Global) -> KnownWeights {
        KnownWeights {
            alloc,
            sets: KnownSets::new(alloc),
            weights: Vec::new(alloc),
        }
    }

    /// The sets that were looked up.
    pub(crate) fn sets(&mut self) -> &mut KnownSets {
        &mut self.sets
    }

    fn find(&self, key: SetKey) -> Option<Weight>
        ensures { IfSome result (λ weight. weight ≡ set_weight key) }
    {
        for known in &self.weights {
            if known.key.is(key) {
                return Some(known.weight);
            }
        }
        None
    }

    fn weigh(&mut self, key: SetKey) -> Result<Weight, Memory>
        ensures { IfOk result (λ weight. weight ≡ set_weight key) }
    {
        let class = self.sets.scalars(key)?;
        let weight = Weight::of_made(scalar_class(self.alloc, class)?);
        self.weights.push(KnownWeight { key, weight })?;
        Ok(weight)
    }

    /// The weight of a named set's class.
    pub(crate) fn weight(&mut self, key: SetKey) -> Result<Weight, Memory>
        ensures { IfOk result (λ weight. weight ≡ set_weight key) }
    {
        if let Some(weight) = self.find(key) {
            return Ok(weight);
        }
        self.weigh(key)
    }
}
