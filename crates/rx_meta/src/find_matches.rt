//! The matches in an input, one after another.
ghost use Rattle.std.specs.Prelude.{◌≡◌, ◌<◌, true, false, length, None, IfOk, IfSome};
ghost use Rattle.rx_search.specs.Told.{LiesIn};
ghost use Rattle.rx_meta.specs.Iterators.{begun, matches_to_come, PromisesEach, most_left, GivesNext, IsReported, IsOfSearch, IsMoved, IsEndedAfter, ComeBeforeNone};

use crate::match_finder::MatchFinder;
use crate::regex::Regex;
use rx_search::{Input, Match, Memory, Searcher};
use std::marker::Model;
use std::sync::Wait;

/// The successive matches in an input. Each search begins where the last match ended; an empty match at the end of the match
/// before it is passed over.
///
/// An item is an error where there was no memory for a search. After an error, and after the last match, there is no further
/// item. Where it is dropped, and not finished or counted, its cache is freed.
#[derive(Drop)]
pub struct FindMatches<'r, 'h> {
    finder: MatchFinder<'r>,
    searcher: Searcher<'h>,
    is_ended: bool,
}

impl<'r, 'h> Model for FindMatches<'r, 'h> {
    ghost use Rattle.rx_meta.specs.Iterators.{MatchesValue};

    ghost Value = { MatchesValue };

    ghost view = { λ it. record { regex = it.finder.regex.now; searcher = it.searcher; ended = it.is_ended } };
}

impl<'r, 'h> FindMatches<'r, 'h> {
    /// Before the first match in the input.
    pub(crate) fn new<R: Wait>(
        rt: &R,
        regex: &'r Regex,
        input: &Input<'h>,
    ) -> Result<FindMatches<'r, 'h>, Memory>
        ensures { IfOk result (λ it. it ≡ begun regex.now input.now) }
    {
        Ok(FindMatches {
            finder: MatchFinder::new(rt, regex)?,
            searcher: Searcher::new(input.clone()),
            is_ended: false,
        })
    }

    /// The iterator over what this finder finds, as far as the searcher has come.
    pub(crate) fn from_parts(
        finder: MatchFinder<'r>,
        searcher: Searcher<'h>,
        is_ended: bool,
    ) -> FindMatches<'r, 'h>
        ensures { result ≡ record { regex = finder.entry.regex.now; searcher = searcher.entry; ended = is_ended } }
    {
        FindMatches {
            finder,
            searcher,
            is_ended,
        }
    }

    /// The next match; None where there is none, and after an error.
    ///
    /// # Errors
    ///
    /// `Memory`, where there was no memory for a search. It is the last item.
    pub fn next(&mut self) -> Option<Result<Match, Memory>>
        ensures gives { PromisesEach self.old → GivesNext IsReported (matches_to_come self.old) (matches_to_come self.new) result }
        ensures goes_on { PromisesEach self.old → PromisesEach self.new }
        ensures within { IfSome result (λ item. IfOk item (LiesIn self.old.searcher.input)) }
        ensures any { self.old.ended ≡ false → IsOfSearch self.old result }
        ensures moved { IsMoved self.old.searcher self.new.searcher result }
        ensures ended { IsEndedAfter result self.new.ended }
        ensures none { self.old.ended ≡ true → result ≡ None }
        ensures stays { self.old.ended ≡ true → self.new ≡ self.old }
        ensures fewer_left { IfSome result (λ _. most_left self.new < most_left self.old) }
        ensures regex { self.new.regex ≡ self.old.regex }
        ensures haystack { self.new.searcher.input.haystack ≡ self.old.searcher.input.haystack }
    {
        if self.is_ended {
            return None;
        }
        // What it answers lies in the haystack, by the input's own promise.
        let _haystack = self.searcher.input().haystack();
        match self.searcher.advance(&mut self.finder) {
            Ok(Some(found)) => Some(Ok(found)),
            Ok(None) => {
                self.is_ended = true;
                None
            }
            Err(error) => {
                self.is_ended = true;
                Some(Err(error))
            }
        }
    }

    /// The regex that is searched with.
    pub fn regex(&self) -> &'r Regex
        ensures { result.now ≡ self.now.regex }
    {
        self.finder.regex
    }

    /// The input of the next search: at first that which was given, and after a match its span begins where that ended.
    pub fn input(&self) -> &Input<'h>
        ensures { result.now ≡ self.now.searcher.input }
    {
        self.searcher.input()
    }

    /// The number of matches that are still to come; 0 after an error.
    ///
    /// # Errors
    ///
    /// `Memory`, where there was no memory for a search.
    ///
    /// # Examples
    ///
    /// ```
    /// let words = Regex::new(alloc, "[a-z]+")?;
    /// let matches = words.find_iter(&rt, alloc, &Input::new(b"one two"))?;
    /// let count = matches.count(&rt)?;
    /// assert_eq!(rt; count, 2);
    /// ```
    pub fn count<R: Wait>(mut self, rt: &R) -> Result<usize, Memory>
        ensures value { PromisesEach self.entry → IfOk result (λ n. n ≡ length (matches_to_come self.entry)) }
        ensures any { self.entry.ended ≡ false → IfOk result (ComeBeforeNone self.entry.regex self.entry.searcher) }
        ensures none { self.entry.ended ≡ true → IfOk result (λ n. n ≡ 0) }
    {
        let count = self.count_rest();
        // Also where there was no memory.
        self.finish(rt);
        count
    }

    /// As `count`, before the cache is given back.
    fn count_rest(&mut self) -> Result<usize, Memory>
        ensures value { PromisesEach self.old → IfOk result (λ n. n ≡ length (matches_to_come self.old)) }
        ensures any { self.old.ended ≡ false → IfOk result (ComeBeforeNone self.old.regex self.old.searcher) }
        ensures none { self.old.ended ≡ true → IfOk result (λ n. n ≡ 0) }
    {
        // Each match ends at a place of its own, and the number of places fits a `usize`.
        let _haystack = self.input().haystack();
        let mut count = 0;
        while let Some(item) = self.next() {
            let _found = item?;
            count += 1;
        }
        Ok(count)
    }

    /// Gives up the iterator, and gives its cache back to the regex.
    pub fn finish<R: Wait>(self, rt: &R) {
        let FindMatches {
            finder,
            searcher: _,
            is_ended: _,
        } = self;
        finder.finish(rt);
    }
}
