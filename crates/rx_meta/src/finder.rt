//! What searches one input after another with a regex.
ghost use Rattle.std.specs.Prelude.{◌≡◌, length, None, IfOk, OnOk, OnErr};
ghost use Rattle.rx_search.specs.GroupInfo.{slot_count};
ghost use Rattle.rx_meta.specs.Cache.{Fits, Fits-prop};
ghost use Rattle.rx_meta.specs.Finder.{PromisesFor, MayFail, AreSlotsOf, IsAnswerWith};
ghost use Rattle.rx_meta.specs.Regex.{searches, groups_in};

use crate::cache::Cache;
use crate::regex::Regex;
use rx_search::{Finder, Input, Match, Memory, NonMaxUsize};
use std::alloc::Global;

/// A regex with a cache of its own, and the slots of its last match.
#[derive(Drop)]
pub struct RegexFinder<'r> {
    regex: &'r Regex,
    cache: Cache,
    slots: Vec<Option<NonMaxUsize>>,
    ghost fits: { Fits regex.now cache } by { Fits-prop regex.now cache },
    ghost wide: { length slots.items ≡ slot_count (groups_in regex.now) },
}

impl<'r> RegexFinder<'r> {
    /// Before the first search with this regex.
    ///
    /// # Errors
    ///
    /// `Memory`, where there was no memory for the cache and the slots.
    pub fn new(alloc: Global, regex: &'r Regex) -> Result<RegexFinder<'r>, Memory>
        ensures made { IfOk result (λ f. f.regex.now ≡ regex.now) }
        ensures empty { IfOk result (λ f. AreSlotsOf f.slots.items None) }
    {
        let cache = regex.create_cache(alloc)?;
        let none = None;
        let slots = vec![in alloc; none; regex.group_info().slot_len()]?;
        Ok(RegexFinder {
            regex,
            cache,
            slots,
        })
    }

    /// Makes any finder one for this regex: its cache is reset and keeps the room that it has. Where there is no memory, it is
    /// as before but for what its cache held.
    ///
    /// # Errors
    ///
    /// `Memory`, where there was no memory for the slots or for more room.
    pub fn refit(&mut self, alloc: Global, regex: &'r Regex) -> Result<(), Memory>
        ensures made { OnOk result (self.new.regex.now ≡ regex.now) }
        ensures empty { OnOk result (AreSlotsOf self.new.slots.items None) }
        ensures err { OnErr result ((self.new.regex.now ≡ self.old.regex.now) × (self.new.slots.items ≡ self.old.slots.items)) }
    {
        let none = None;
        let slots = vec![in alloc; none; regex.group_info().slot_len()]?;
        self.cache.reset(alloc, regex)?;
        self.slots = slots;
        self.regex = regex;
        Ok(())
    }

    /// The regex.
    pub fn regex(&self) -> &'r Regex
        ensures { result.now ≡ self.now.regex.now }
    {
        self.regex
    }

    /// The slots of the match that the last search answered. Each is None before the first search, and where the last one
    /// answered none or had no memory.
    pub fn slots(&self) -> &[Option<NonMaxUsize>]
        ensures value { result.now ≡ self.now.slots.items }
        ensures wide { length result.now ≡ slot_count (groups_in self.now.regex.now) }
    {
        &self.slots
    }
}

impl Finder for RegexFinder<'_> {
    type Error = Memory;

    ghost searches = { λ f v. searches f.regex.now v };

    // Any input may be asked for (DECISIONS: a finder says under what its answer is what it searches).
    ghost promises = { λ f v. PromisesFor f.regex.now v };

    // It fails where a search would (DECISIONS: a finder over a regex may fail).
    ghost fails = { λ f v _. MayFail f.regex.now v };

    ghost tells = { λ f m. AreSlotsOf f.slots.items m };

    ghost answers = { λ f v found. IsAnswerWith f.regex.now v f.slots.items found };

    ghost holds_none = { λ f. AreSlotsOf f.slots.items None };

    ghost keeps = { λ a b. b.regex.now ≡ a.regex.now };

    fn find(&mut self, input: &Input<'_>) -> Result<Option<Match>, Memory> {
        self.regex
            .search_match_with(&mut self.cache, input, &mut self.slots)
    }
}
