//! What makes the caches of a regex.
ghost use Rattle.std.specs.Prelude.{◌≡◌, IfOk, max, vec_len};
ghost use Rattle.std.specs.Arc.{arc_value};
ghost use Rattle.rx_strategy.specs.Config.{pool_capacity_of};

use crate::cache::Cache;
use rx_search::Memory;
use rx_strategies::Strategy;
use rx_strategy::Config;
use rx_util::{Maker, Pool};
use std::alloc::Global;
use std::sync::Arc;

/// Makes caches for the searches of a strategy.
#[derive(Drop)]
pub struct CacheMaker {
    alloc: Global,
    strategy: Arc<Strategy, Global>,
}

impl Maker for CacheMaker {
    ghost use Rattle.std.specs.Arc.{arc_value};
    ghost use Rattle.rx_strategies.specs.Cache as strategy;

    type Value = Cache;

    ghost stands_for = { λ maker cache. strategy.Fits (arc_value maker.strategy) cache.rooms };

    fn make(&self) -> Result<Cache, Memory> {
        Ok(Cache {
            rooms: Box::new(self.alloc, self.strategy.create_cache(self.alloc)?)?,
        })
    }
}

impl CacheMaker {
    /// The maker of caches for this strategy.
    pub(crate) fn new(alloc: Global, strategy: Arc<Strategy, Global>) -> CacheMaker
        ensures { result.strategy ≡ strategy }
    {
        CacheMaker { alloc, strategy }
    }

    /// The strategy.
    pub(crate) fn strategy(&self) -> &Strategy
        ensures { result.now ≡ arc_value self.now.strategy }
    {
        &self.strategy
    }

    /// The same maker once more. It shares the strategy.
    pub(crate) fn clone(&self) -> Result<CacheMaker, Memory>
        ensures { IfOk result (λ copy. arc_value copy.strategy ≡ arc_value self.now.strategy) }
    {
        Ok(CacheMaker {
            alloc: self.alloc,
            strategy: Arc::try_clone(&self.strategy)?,
        })
    }

    /// Caches of this maker, of which none is made yet, on as many stacks as the configuration says, and on one at least.
    pub(crate) fn into_pool(self, config: &Config) -> Result<Pool<Cache, CacheMaker>, Memory>
        ensures maker { IfOk result (λ pool. pool.maker ≡ self) }
        ensures stacks { IfOk result (λ pool. vec_len pool.stacks ≡ max (pool_capacity_of config.now) 1) }
    {
        Pool::with_capacity(self.alloc, config.get_pool_capacity(), self)
    }
}
