//! What searches one input after another, and keeps the groups of the last match.
ghost use Rattle.std.specs.Prelude.{◌≡◌, length, None, IfOk};
ghost use Rattle.rx_search.specs.GroupInfo.{slot_count};
ghost use Rattle.rx_meta.specs.Cache.{Fits, Fits-prop};
ghost use Rattle.rx_meta.specs.Caches.{IsLentBy};
ghost use Rattle.rx_meta.specs.Captures.{AreOf, IsToldWith};
ghost use Rattle.rx_meta.specs.Finder.{PromisesFor, MayFail};
ghost use Rattle.rx_meta.specs.Regex.{searches, groups_in};

use crate::cache::Cache;
use crate::cache_maker::CacheMaker;
use crate::caches::Lent;
use crate::match_finder::MatchFinder;
use crate::regex::Regex;
use rx_search::{Captures, Finder, Input, Match, Memory};
use rx_util::PoolGuard;
use std::alloc::Global;
use std::sync::Wait;

/// A regex with a cache of its own, and the captures of its last match.
#[derive(Drop)]
pub(crate) struct CapturesFinder<'r> {
    pub(crate) regex: &'r Regex,
    pub(crate) captures: Captures,
    guard: PoolGuard<'r, Cache, CacheMaker>,
    ghost fits: { Fits regex.now guard.value } by { Fits-prop regex.now guard.value },
    ghost own: { IsLentBy regex.now guard },
    ghost groups: { captures.groups ≡ groups_in regex.now },
    ghost wide: { length captures.slots ≡ slot_count (groups_in regex.now) },
}

impl<'r> CapturesFinder<'r> {
    /// Before the first search with this regex.
    pub(crate) fn new<R: Wait>(
        rt: &R,
        alloc: Global,
        regex: &'r Regex,
    ) -> Result<CapturesFinder<'r>, Memory>
        ensures made { IfOk result (λ f. f.regex.now ≡ regex.now) }
        ensures empty { IfOk result (λ f. AreOf f.captures None) }
    {
        let captures = regex.create_captures(alloc)?;
        let Lent { guard } = regex.lend(rt)?;
        Ok(CapturesFinder {
            regex,
            captures,
            guard,
        })
    }

    /// What searches with the same regex and cache, and keeps no groups.
    pub(crate) fn without_captures(self) -> MatchFinder<'r>
        ensures { result.regex.now ≡ self.entry.regex.now }
    {
        let CapturesFinder {
            regex,
            captures: _captures,
            guard,
        } = self;
        MatchFinder::with_cache(regex, guard)
    }

    /// Gives the cache back.
    pub(crate) fn finish<R: Wait>(self, rt: &R) {
        self.without_captures().finish(rt);
    }
}

impl Finder for CapturesFinder<'_> {
    type Error = Memory;

    ghost searches = { λ f v. searches f.regex.now v };

    ghost promises = { λ f v. PromisesFor f.regex.now v };

    ghost fails = { λ f v _. MayFail f.regex.now v };

    ghost tells = { λ f m. AreOf f.captures m };

    ghost answers = { λ f v found. IsToldWith f.regex.now v f.captures found };

    ghost holds_none = { λ f. AreOf f.captures None };

    ghost keeps = { λ a b. b.regex.now ≡ a.regex.now };

    fn find(&mut self, input: &Input<'_>) -> Result<Option<Match>, Memory> {
        // What is found lies in the haystack, by the input's own promise.
        let _haystack = input.haystack();
        self.regex
            .find_captures_with(&mut self.guard.value, input, &mut self.captures)
    }
}
