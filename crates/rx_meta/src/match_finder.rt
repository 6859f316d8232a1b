//! What searches one input after another for matches without their slots.
ghost use Rattle.std.specs.Prelude.{◌≡◌, IfOk};
ghost use Rattle.rx_meta.specs.Cache.{Fits, Fits-prop};
ghost use Rattle.rx_meta.specs.Caches.{IsLentBy};
ghost use Rattle.rx_meta.specs.Finder.{PromisesFor, MayFail};
ghost use Rattle.rx_meta.specs.Iterators.{IsFoundIn};
ghost use Rattle.rx_meta.specs.Regex.{searches};

use crate::cache::Cache;
use crate::cache_maker::CacheMaker;
use crate::caches::{Lent, give_back};
use crate::regex::Regex;
use rx_search::{Finder, Input, Match, Memory};
use rx_util::PoolGuard;
use std::sync::Wait;

// Its searches keep no slots (DECISIONS: where a match's span is asked for alone, an engine keeps no slots).
/// A regex with a cache of its own.
#[derive(Drop)]
pub(crate) struct MatchFinder<'r> {
    pub(crate) regex: &'r Regex,
    guard: PoolGuard<'r, Cache, CacheMaker>,
    ghost fits: { Fits regex.now guard.value } by { Fits-prop regex.now guard.value },
    ghost own: { IsLentBy regex.now guard },
}

impl<'r> MatchFinder<'r> {
    /// Before the first search with this regex.
    pub(crate) fn new<R: Wait>(rt: &R, regex: &'r Regex) -> Result<MatchFinder<'r>, Memory>
        ensures { IfOk result (λ f. f.regex.now ≡ regex.now) }
    {
        let Lent { guard } = regex.lend(rt)?;
        Ok(MatchFinder::with_cache(regex, guard))
    }

    /// With a cache of the regex's own.
    pub(crate) fn with_cache(
        regex: &'r Regex,
        guard: PoolGuard<'r, Cache, CacheMaker>,
    ) -> MatchFinder<'r>
        requires fits { Fits regex.now guard.value }
        requires own { IsLentBy regex.now guard }
        ensures { result.regex.now ≡ regex.now }
    {
        MatchFinder { regex, guard }
    }

    /// Gives the cache back.
    pub(crate) fn finish<R: Wait>(self, rt: &R) {
        let MatchFinder { regex, guard } = self;
        give_back(rt, regex, Lent { guard });
    }
}

impl Finder for MatchFinder<'_> {
    type Error = Memory;

    ghost searches = { λ f v. searches f.regex.now v };

    ghost promises = { λ f v. PromisesFor f.regex.now v };

    ghost fails = { λ f v _. MayFail f.regex.now v };

    ghost answers = { λ f v found. IsFoundIn f.regex.now v found };

    ghost keeps = { λ a b. b.regex.now ≡ a.regex.now };

    fn find(&mut self, input: &Input<'_>) -> Result<Option<Match>, Memory> {
        // What is found lies in the haystack, by the input's own promise.
        let _haystack = input.haystack();
        self.regex.search_with(&mut self.guard.value, input)
    }
}
