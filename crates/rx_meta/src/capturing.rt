//! The searches that fill captures.
#![tactic(auto, unfolding(crate::specs::Cache::Fits, crate::specs::Cache::AccountsAlike, crate::specs::Cache::memory_of, crate::specs::Impossible::IsKnownImpossible, crate::specs::Regex::pattern_count))]

ghost use Rattle.std.specs.Prelude.{◌≡◌, ◌+◌, ◌-◌, ◌^◌, min, None, replicate, option_map, IfOk, IfSome, OnOk, OnErr, IsOk};
ghost use Rattle.rx_search.specs.GroupInfo.{slot_count};
ghost use Rattle.rx_search.specs.Told.{LiesIn};
ghost use Rattle.rx_meta.specs.Cache.{AccountsAlike, Fits};
ghost use Rattle.rx_meta.specs.Captures.{emptied, HaveRoomOf, AreTold, IsToldWith};
ghost use Rattle.rx_meta.specs.Impossible.{IsKnownImpossible};
ghost use Rattle.rx_meta.specs.Regex.{groups_in, pattern_count, properties_in};

use crate::cache::Cache;
use crate::caches::give_back;
use crate::found::pattern;
use crate::regex::Regex;
use rx_search::{Captures, Input, Match, Memory};
use std::alloc::Global;
use std::sync::Wait;

impl Regex {
    /// Captures for the searches of this regex, with room for all groups of each pattern.
    ///
    /// # Errors
    ///
    /// `Memory`, where there was no memory for them.
    pub fn create_captures(&self, alloc: Global) -> Result<Captures, Memory>
        ensures { IfOk result (λ c. c ≡ record { groups = groups_in self.now; pattern = None; slots = replicate (slot_count (groups_in self.now)) None }) }
    {
        Captures::all(alloc, self.group_info())
    }

    /// As `search_captures`.
    ///
    /// # Errors
    ///
    /// `Memory`, where there was no memory for a cache.
    ///
    /// # Examples
    ///
    /// ```
    /// let mut captures = regex.create_captures(alloc)?;
    /// regex.captures(&rt, alloc, &Input::new(b"n=10"), &mut captures)?;
    /// let value = captures.get_group_by_name("value");
    /// assert_eq!(rt; value, Some(Span { start: 2, end: 4 }));
    /// ```
    pub fn captures<R: Wait>(
        &self,
        rt: &R,
        alloc: Global,
        input: &Input<'_>,
        captures: &mut Captures,
    ) -> Result<(), Memory>
        requires { captures.old.groups ≡ groups_in self.now }
        ensures told { OnOk result (AreTold self.now input.now captures.new) }
        ensures room { HaveRoomOf captures.old captures.new }
        ensures err { OnErr result (captures.new ≡ emptied captures.old) }
        ensures sure { IsKnownImpossible self.now input.now → IsOk result }
    {
        self.search_captures(rt, alloc, input, captures)
    }

    /// Fills captures, which must be made for the groups of this regex, with the match that `search` answers: its pattern,
    /// and the places that it leaves in the slots that they have room for. Where there is no match, and where there is no
    /// memory, no pattern and no place is left in them.
    ///
    /// # Errors
    ///
    /// `Memory`, where there was no memory for a cache.
    pub fn search_captures<R: Wait>(
        &self,
        rt: &R,
        _alloc: Global,
        input: &Input<'_>,
        captures: &mut Captures,
    ) -> Result<(), Memory>
        requires { captures.old.groups ≡ groups_in self.now }
        ensures told { OnOk result (AreTold self.now input.now captures.new) }
        ensures room { HaveRoomOf captures.old captures.new }
        ensures err { OnErr result (captures.new ≡ emptied captures.old) }
        ensures sure { IsKnownImpossible self.now input.now → IsOk result }
    {
        if self.strategy().is_impossible(input) {
            captures.clear();
            return Ok(());
        }
        let mut lent = match self.lend(rt) {
            Ok(lent) => lent,
            Err(Memory) => {
                captures.clear();
                return Err(Memory);
            }
        };
        let answer = self.search_captures_with(&mut lent.guard.value, input, captures);
        give_back(rt, self, lent);
        answer
    }

    /// As `search_captures`, with a cache that serves this regex.
    ///
    /// # Errors
    ///
    /// `Memory`, where there was no memory for the search.
    pub fn search_captures_with(
        &self,
        cache: &mut Cache,
        input: &Input<'_>,
        captures: &mut Captures,
    ) -> Result<(), Memory>
        requires fits { Fits self.now cache.old }
        requires groups { captures.old.groups ≡ groups_in self.now }
        ensures told { OnOk result (AreTold self.now input.now captures.new) }
        ensures room { HaveRoomOf captures.old captures.new }
        ensures err { OnErr result (captures.new ≡ emptied captures.old) }
        ensures cache { Fits self.now cache.new }
        ensures memory { AccountsAlike self.now cache.old cache.new }
        ensures sure { IsKnownImpossible self.now input.now → IsOk result }
    {
        self.find_captures_with(cache, input, captures)?;
        Ok(())
    }

    /// As `search_captures_with`, with the match that is told.
    pub(crate) fn find_captures_with(
        &self,
        cache: &mut Cache,
        input: &Input<'_>,
        captures: &mut Captures,
    ) -> Result<Option<Match>, Memory>
        requires fits { Fits self.now cache.old }
        requires groups { captures.old.groups ≡ groups_in self.now }
        ensures told { IfOk result (IsToldWith self.now input.now captures.new) }
        ensures within { IfOk result (λ o. IfSome o (LiesIn input.now)) }
        ensures room { HaveRoomOf captures.old captures.new }
        ensures err { OnErr result (captures.new ≡ emptied captures.old) }
        ensures cache { Fits self.now cache.new }
        ensures memory { AccountsAlike self.now cache.old cache.new }
        ensures sure { IsKnownImpossible self.now input.now → IsOk result }
    {
        captures.set_pattern(None);
        let found = self.search_match_with(cache, input, captures.slots_mut())?;
        captures.set_pattern(pattern(&found));
        Ok(found)
    }

    /// How many groups the patterns have: the explicit ones that stand in their expressions, and the implicit one of each; or
    /// the greatest `usize` where they are more.
    pub fn captures_len(&self) -> usize
        ensures { result ≡ min (2 ^ 64 - 1) ((properties_in self.now).explicit_captures_len + pattern_count self.now) }
    {
        let explicit = self.strategy().properties().explicit_captures_len();
        explicit.saturating_add(self.pattern_len())
    }

    /// One more than the number of explicit groups that the properties of the patterns fix, where they fix one and the same for
    /// all of them; else None. The number is counted part by part: alternatives that have as many groups share them.
    pub fn static_captures_len(&self) -> Option<usize>
        ensures { result ≡ option_map (λ n. min (2 ^ 64 - 1) (n + 1)) (properties_in self.now).static_explicit_captures_len }
    {
        let known = self.strategy().properties().static_explicit_captures_len();
        match known {
            Some(explicit) => Some(explicit.saturating_add(1)),
            None => None,
        }
    }
}
