//! The searches that fill a set of patterns.
#![tactic(auto, unfolding(crate::specs::Cache::Fits, crate::specs::Cache::AccountsAlike, crate::specs::Impossible::IsKnownImpossible, crate::specs::Regex::pattern_count))]

ghost use Rattle.std.specs.Prelude.{◌≤◌, length, OnOk, IsOk};
ghost use Rattle.rx_meta.specs.Cache.{AccountsAlike, Fits};
ghost use Rattle.rx_meta.specs.Impossible.{IsKnownImpossible};
ghost use Rattle.rx_meta.specs.Regex.{pattern_count};
ghost use Rattle.rx_meta.specs.Sets.{KeepsMembers, AddsMatching, IsFilled};

use crate::cache::Cache;
use crate::caches::give_back;
use crate::regex::Regex;
use rx_search::{Input, Memory, PatternSet};
use std::alloc::Global;
use std::sync::Wait;

impl Regex {
    /// Adds patterns that have a match in the input's span to the set, which must have room for all patterns. What is in it
    /// stays there.
    ///
    /// Under `MatchKind::All` each pattern that has a match is added, also where a match of another one overlaps it. Under
    /// `MatchKind::LeftmostFirst` the pattern of the next match is. Where the input asks for `earliest`, the set has a
    /// pattern with a match afterwards if there is one. This holds under every kind of captures.
    ///
    /// # Errors
    ///
    /// `Memory`, where there was no memory for a cache.
    ///
    /// # Examples
    ///
    /// ```
    /// let mut set = PatternSet::new(alloc, regex.pattern_len())?;
    /// regex.which_overlapping_matches(&rt, alloc, &Input::new(b"xab"), &mut set)?;
    /// assert_eq!(rt; set.len(), 2);
    /// ```
    pub fn which_overlapping_matches<R: Wait>(
        &self,
        rt: &R,
        _alloc: Global,
        input: &Input<'_>,
        set: &mut PatternSet,
    ) -> Result<(), Memory>
        requires { pattern_count self.now ≤ length set.old }
        ensures kept { KeepsMembers set.old set.new }
        ensures matching { AddsMatching self.now input.now set.old set.new }
        ensures filled { OnOk result (IsFilled self.now input.now set.old set.new) }
        ensures sure { IsKnownImpossible self.now input.now → IsOk result }
    {
        if self.strategy().is_impossible(input) {
            return Ok(());
        }
        let mut lent = self.lend(rt)?;
        let answer = self.which_overlapping_matches_with(&mut lent.guard.value, input, set);
        give_back(rt, self, lent);
        answer
    }

    /// As `which_overlapping_matches`, with a cache that serves this regex.
    ///
    /// # Errors
    ///
    /// `Memory`, where there was no memory for the search. What was added before stays in the set.
    pub fn which_overlapping_matches_with(
        &self,
        cache: &mut Cache,
        input: &Input<'_>,
        set: &mut PatternSet,
    ) -> Result<(), Memory>
        requires fits { Fits self.now cache.old }
        requires room { pattern_count self.now ≤ length set.old }
        ensures kept { KeepsMembers set.old set.new }
        ensures matching { AddsMatching self.now input.now set.old set.new }
        ensures filled { OnOk result (IsFilled self.now input.now set.old set.new) }
        ensures cache { Fits self.now cache.new }
        ensures memory { AccountsAlike self.now cache.old cache.new }
        ensures sure { IsKnownImpossible self.now input.now → IsOk result }
    {
        self.strategy()
            .which_overlapping_matches(&mut cache.rooms, input, set)
    }
}
