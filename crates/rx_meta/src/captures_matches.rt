//! The groups of the matches in an input, one match after another.
ghost use Rattle.std.specs.Prelude.{◌≡◌, ◌<◌, true, false, length, None, IfOk, IfSome};
ghost use Rattle.rx_search.specs.GroupInfo.{slot_count};
ghost use Rattle.rx_meta.specs.Captures.{AreOfMatch};
ghost use Rattle.rx_meta.specs.Iterators.{begun, matches_to_come, PromisesEach, most_left, GivesNext, AreOfSearch, IsEndedAfter, ComeBeforeNone};
ghost use Rattle.rx_meta.specs.Regex.{groups_in};

use crate::captures_finder::CapturesFinder;
use crate::find_matches::FindMatches;
use crate::regex::Regex;
use rx_search::{Captures, Input, Memory, Searcher};
use std::alloc::Global;
use std::marker::Model;
use std::sync::Wait;

/// The groups of the successive matches in an input, which are those of `FindMatches`. Each item is captures of its own.
///
/// An item is an error where there was no memory for a search or for the captures. After an error, and after the last match,
/// there is no further item. Where it is dropped, and not finished or counted, its cache is freed.
#[derive(Drop)]
pub struct CapturesMatches<'r, 'h> {
    finder: CapturesFinder<'r>,
    searcher: Searcher<'h>,
    is_ended: bool,
}

impl<'r, 'h> Model for CapturesMatches<'r, 'h> {
    ghost use Rattle.rx_meta.specs.Iterators.{MatchesValue};

    ghost Value = { MatchesValue };

    ghost view = { λ it. record { regex = it.finder.regex.now; searcher = it.searcher; ended = it.is_ended } };
}

impl<'r, 'h> CapturesMatches<'r, 'h> {
    /// Before the first match in the input.
    pub(crate) fn new<R: Wait>(
        rt: &R,
        alloc: Global,
        regex: &'r Regex,
        input: &Input<'h>,
    ) -> Result<CapturesMatches<'r, 'h>, Memory>
        ensures { IfOk result (λ it. it ≡ begun regex.now input.now) }
    {
        Ok(CapturesMatches {
            finder: CapturesFinder::new(rt, alloc, regex)?,
            searcher: Searcher::new(input.clone()),
            is_ended: false,
        })
    }

    /// The groups of the next match; None where there is none, and after an error.
    ///
    /// # Errors
    ///
    /// `Memory`, where there was no memory for a search or for the captures. It is the last item.
    pub fn next(&mut self) -> Option<Result<Captures, Memory>>
        ensures gives { PromisesEach self.old → GivesNext AreOfMatch (matches_to_come self.old) (matches_to_come self.new) result }
        ensures goes_on { PromisesEach self.old → PromisesEach self.new }
        ensures groups { IfSome result (λ item. IfOk item (λ c. c.groups ≡ groups_in self.old.regex)) }
        ensures slots { IfSome result (λ item. IfOk item (λ c. length c.slots ≡ slot_count (groups_in self.old.regex))) }
        ensures any { self.old.ended ≡ false → AreOfSearch self.old self.new result }
        ensures ended { IsEndedAfter result self.new.ended }
        ensures none { self.old.ended ≡ true → result ≡ None }
        ensures stays { self.old.ended ≡ true → self.new ≡ self.old }
        ensures fewer_left { IfSome result (λ _. most_left self.new < most_left self.old) }
        ensures regex { self.new.regex ≡ self.old.regex }
        ensures haystack { self.new.searcher.input.haystack ≡ self.old.searcher.input.haystack }
    {
        if self.is_ended {
            return None;
        }
        // What it answers lies in the haystack, by the input's own promise.
        let _haystack = self.searcher.input().haystack();
        match self.searcher.advance(&mut self.finder) {
            Ok(Some(_found)) => {
                let given = self.finder.captures.clone();
                self.is_ended = given.is_err();
                Some(given)
            }
            Ok(None) => {
                self.is_ended = true;
                None
            }
            Err(error) => {
                self.is_ended = true;
                Some(Err(error))
            }
        }
    }

    /// The regex that is searched with.
    pub fn regex(&self) -> &'r Regex
        ensures { result.now ≡ self.now.regex }
    {
        self.finder.regex
    }

    /// The input of the next search: at first that which was given, and after a match its span begins where that ended.
    pub fn input(&self) -> &Input<'h>
        ensures { result.now ≡ self.now.searcher.input }
    {
        self.searcher.input()
    }

    /// The number of matches that are still to come; 0 after an error.
    ///
    /// # Errors
    ///
    /// `Memory`, where there was no memory for a search.
    pub fn count<R: Wait>(self, rt: &R) -> Result<usize, Memory>
        ensures value { PromisesEach self.entry → IfOk result (λ n. n ≡ length (matches_to_come self.entry)) }
        ensures any { self.entry.ended ≡ false → IfOk result (ComeBeforeNone self.entry.regex self.entry.searcher) }
        ensures none { self.entry.ended ≡ true → IfOk result (λ n. n ≡ 0) }
    {
        let CapturesMatches {
            finder,
            searcher,
            is_ended,
        } = self;
        // A number needs no captures (DECISIONS: captures are counted by searches that keep no slots).
        FindMatches::from_parts(finder.without_captures(), searcher, is_ended).count(rt)
    }

    /// Gives up the iterator, and gives its cache back to the regex.
    pub fn finish<R: Wait>(self, rt: &R) {
        let CapturesMatches {
            finder,
            searcher: _,
            is_ended: _,
        } = self;
        finder.finish(rt);
    }
}
