//! The iterators of a regex.
#![tactic(auto, unfolding(crate::specs::Cache::Fits, crate::specs::Cache::memory_of, crate::specs::Impossible::IsKnownImpossible, crate::specs::Regex::pattern_count))]

ghost use Rattle.std.specs.Prelude.{◌≡◌, IfOk};
ghost use Rattle.rx_meta.specs.Iterators.{begun, split_begun};

use crate::captures_matches::CapturesMatches;
use crate::find_matches::FindMatches;
use crate::regex::Regex;
use crate::split::{Split, SplitN};
use rx_search::{Input, Memory};
use std::alloc::Global;
use std::sync::Wait;

impl Regex {
    /// The successive matches in the input's span.
    ///
    /// # Errors
    ///
    /// `Memory`, where there was no memory for a cache.
    ///
    /// # Examples
    ///
    /// ```
    /// let mut matches = regex.find_iter(&rt, alloc, &Input::new(b"one two"))?;
    ///
    /// while let Some(found) = matches.next() {
    ///     spans.push(found?.span())?;
    /// }
    /// ```
    pub fn find_iter<'r, 'h, R: Wait>(
        &'r self,
        rt: &R,
        _alloc: Global,
        input: &Input<'h>,
    ) -> Result<FindMatches<'r, 'h>, Memory>
        ensures { IfOk result (λ it. it ≡ begun self.now input.now) }
    {
        FindMatches::new(rt, self, input)
    }

    /// The groups of the successive matches in the input's span.
    ///
    /// # Errors
    ///
    /// `Memory`, where there was no memory for a cache and for captures.
    pub fn captures_iter<'r, 'h, R: Wait>(
        &'r self,
        rt: &R,
        alloc: Global,
        input: &Input<'h>,
    ) -> Result<CapturesMatches<'r, 'h>, Memory>
        ensures { IfOk result (λ it. it ≡ begun self.now input.now) }
    {
        CapturesMatches::new(rt, alloc, self, input)
    }

    /// The gaps that the successive matches in the input's span leave in its haystack.
    ///
    /// # Errors
    ///
    /// `Memory`, where there was no memory for a cache.
    ///
    /// # Examples
    ///
    /// ```
    /// let comma = Regex::new(alloc, ",")?;
    ///
    /// let mut fields = comma.split(&rt, alloc, &Input::new(b"a,b"))?;
    ///
    /// while let Some(field) = fields.next() {
    ///     spans.push(field?)?;
    /// }
    /// ```
    pub fn split<'r, 'h, R: Wait>(
        &'r self,
        rt: &R,
        _alloc: Global,
        input: &Input<'h>,
    ) -> Result<Split<'r, 'h>, Memory>
        ensures { IfOk result (λ s. s ≡ split_begun self.now input.now) }
    {
        Split::new(rt, self, input)
    }

    /// As `split`, at most `limit` pieces: the last one that is permitted is all the rest of the haystack.
    ///
    /// # Errors
    ///
    /// `Memory`, where there was no memory for a cache.
    pub fn splitn<'r, 'h, R: Wait>(
        &'r self,
        rt: &R,
        _alloc: Global,
        input: &Input<'h>,
        limit: usize,
    ) -> Result<SplitN<'r, 'h>, Memory>
        ensures { IfOk result (λ s. s ≡ record { splits = split_begun self.now input.now; limit = limit }) }
    {
        SplitN::new(rt, self, input, limit)
    }
}
