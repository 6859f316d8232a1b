//! The caches that the searches of a regex share.
#![tactic(auto, unfolding(crate::specs::Cache::Fits))]

ghost use Rattle.std.specs.Prelude.{IfOk};
ghost use Rattle.rx_meta.specs.Cache.{Fits};
ghost use Rattle.rx_meta.specs.Caches.{IsLentBy};

use crate::cache::Cache;
use crate::cache_maker::CacheMaker;
use crate::regex::Regex;
use rx_search::Memory;
use rx_util::PoolGuard;
use std::sync::Wait;

// It is no `Drop`, so each way out of a search gives it back (DECISIONS: what a search borrows it cannot let go).
/// A cache that a regex lent to one search.
pub(crate) struct Lent<'r> {
    pub(crate) guard: PoolGuard<'r, Cache, CacheMaker>,
}

impl Regex {
    /// A cache of the regex's own, which nobody else has. It fits: so it needs no reset, and what it holds of lazy DFAs stays.
    ///
    /// # Errors
    ///
    /// `Memory`, where all caches are lent and there was no memory for another one.
    pub(crate) fn lend<R: Wait>(&self, rt: &R) -> Result<Lent<'_>, Memory>
        ensures fits { IfOk result (λ lent. Fits self.now lent.guard.value) }
        ensures own { IfOk result (λ lent. IsLentBy self.now lent.guard) }
    {
        let guard = self.caches().get(rt)?;
        Ok(Lent { guard })
    }
}

/// Gives a cache back to the regex that lent it.
pub(crate) fn give_back<R: Wait>(rt: &R, _regex: &Regex, lent: Lent<'_>)
    requires fits { Fits _regex.now lent.guard.value }
    requires own { IsLentBy _regex.now lent.guard }
{
    let Lent { guard } = lent;
    PoolGuard::put(guard, rt);
}
