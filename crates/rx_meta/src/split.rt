//! What lies between the matches in a text.
ghost use Rattle.std.specs.Prelude.{◌≡◌, ℕ, suc, ◌≤◌, ◌-◌, ◌<◌, length, Some, None, option_map, IfOk, IfSome, OnErr};
ghost use Rattle.rx_meta.specs.Gaps.{span_between};
ghost use Rattle.rx_meta.specs.Iterators.{split_begun, gaps_to_come, pieces_up_to, pieces_to_come, PromisesEach, most_gaps_left, GivesNext, IsSpan, IsPieceOf, IsCut, IsOver, AfterLast, last_from, text_len};

use crate::find_matches::FindMatches;
use crate::regex::Regex;
use rx_search::{Input, Memory, Span};
use std::marker::Model;
use std::sync::Wait;

/// The gaps that the successive matches in an input leave in its haystack: from its start to the first match, from each
/// match to the next one, and from the last one to its end. They reach over the whole haystack, also where the input's span
/// is narrower. There is always one gap more than matches.
///
/// An item is an error where there was no memory for a search. After an error, and after the last gap, there is no further
/// item.
#[derive(Drop)]
pub struct Split<'r, 'h> {
    matches: FindMatches<'r, 'h>,
    /// Where the gap that comes next begins. None at the end.
    rest: Option<usize>,
}

impl<'r, 'h> Model for Split<'r, 'h> {
    ghost use Rattle.rx_meta.specs.Iterators.{SplitValue, RestsWithin};

    ghost Value = { SplitValue };

    ghost view = { λ s. record { matches = s.matches; rest = s.rest } };

    ghost invariant = { λ s. RestsWithin s.matches s.rest };
}

impl<'r, 'h> Split<'r, 'h> {
    /// Before the first gap.
    pub(crate) fn new<R: Wait>(
        rt: &R,
        regex: &'r Regex,
        input: &Input<'h>,
    ) -> Result<Split<'r, 'h>, Memory>
        ensures { IfOk result (λ s. s ≡ split_begun regex.now input.now) }
    {
        Ok(Split {
            matches: FindMatches::new(rt, regex, input)?,
            rest: Some(0),
        })
    }

    /// The next gap; None after the last one, and after an error.
    ///
    /// # Errors
    ///
    /// `Memory`, where there was no memory for a search. It is the last item.
    pub fn next(&mut self) -> Option<Result<Span, Memory>>
        ensures gives { PromisesEach self.old.matches → GivesNext IsSpan (gaps_to_come self.old) (gaps_to_come self.new) result }
        ensures pieces { (n : ℕ) → PromisesEach self.old.matches
            → GivesNext IsSpan (pieces_up_to (suc (suc n)) self.old) (pieces_up_to (suc n) self.new) result }
        ensures goes_on { PromisesEach self.old.matches → PromisesEach self.new.matches }
        ensures piece { IfSome result (λ item. IfOk item (IsPieceOf (text_len self.old))) }
        ensures from { IfSome result (λ item. IfOk item (λ span. self.old.rest ≡ Some span.start)) }
        ensures later { IfSome result (λ item. IfOk item (λ span. IfSome self.new.rest (λ i. span.end ≤ i))) }
        ensures any { IfSome result (λ item. IfOk item (IsCut self.old self.new)) }
        ensures ended { AfterLast result (self.new.rest ≡ None) }
        ensures none { self.old.rest ≡ None → result ≡ None }
        ensures stays { self.old.rest ≡ None → self.new ≡ self.old }
        ensures failed { IfSome result (λ item. OnErr item (self.new.matches.searcher ≡ self.old.matches.searcher)) }
        ensures fewer_left { IfSome result (λ _. most_gaps_left self.new < most_gaps_left self.old) }
        ensures regex { self.new.matches.regex ≡ self.old.matches.regex }
        ensures haystack { self.new.matches.searcher.input.haystack ≡ self.old.matches.searcher.input.haystack }
    {
        let Some(start) = self.rest else {
            return None;
        };
        self.rest = None;
        // The span lies in the haystack, by the input's own promise.
        let _haystack = self.input().haystack();
        match self.matches.next() {
            Some(Ok(found)) => {
                self.rest = Some(found.end());
                Some(Ok(Span {
                    start,
                    end: found.start(),
                }))
            }
            Some(Err(error)) => Some(Err(error)),
            None => {
                let last = self.rest_from(start);
                Some(Ok(last))
            }
        }
    }

    /// All the rest as one gap, without a search, if a gap is to come. It is the last one.
    fn rest_at_once(&mut self) -> Option<Span>
        ensures given { result ≡ option_map (λ i. span_between (i, text_len self.old)) self.old.rest }
        ensures piece { IfSome result (IsPieceOf (text_len self.old)) }
        ensures over { self.new ≡ record { matches = self.old.matches; rest = None } }
    {
        let Some(start) = self.rest else {
            return None;
        };
        self.rest = None;
        Some(self.rest_from(start))
    }

    /// All from the place on to the end of the haystack.
    fn rest_from(&self, start: usize) -> Span
        ensures { result ≡ span_between (start, text_len self.now) }
    {
        Span {
            start,
            end: self.input().haystack().len(),
        }
    }

    /// The input of the next search: at first that which was given, and after a match its span begins where that ended.
    pub fn input(&self) -> &Input<'h>
        ensures { result.now ≡ self.now.matches.searcher.input }
    {
        self.matches.input()
    }

    /// Gives up the iterator, and gives its cache back to the regex.
    pub fn finish<R: Wait>(self, rt: &R) {
        let Split { matches, rest: _ } = self;
        matches.finish(rt);
    }
}

/// The gaps of `Split`, at most so many of them: the last one that is permitted is all the rest of the haystack, for which
/// there is no search.
#[derive(Drop)]
pub struct SplitN<'r, 'h> {
    splits: Split<'r, 'h>,
    /// How many pieces may still come.
    limit: usize,
}

impl<'r, 'h> Model for SplitN<'r, 'h> {
    ghost use Rattle.rx_meta.specs.Iterators.{SplitNValue};

    ghost Value = { SplitNValue };

    ghost view = { λ s. record { splits = s.splits; limit = s.limit } };
}

impl<'r, 'h> SplitN<'r, 'h> {
    /// Before the first piece.
    pub(crate) fn new<R: Wait>(
        rt: &R,
        regex: &'r Regex,
        input: &Input<'h>,
        limit: usize,
    ) -> Result<SplitN<'r, 'h>, Memory>
        ensures { IfOk result (λ s. s ≡ record { splits = split_begun regex.now input.now; limit = limit }) }
    {
        Ok(SplitN {
            splits: Split::new(rt, regex, input)?,
            limit,
        })
    }

    /// The next piece; None after the last one, and after an error.
    ///
    /// # Errors
    ///
    /// `Memory`, where there was no memory for a search. It is the last item.
    pub fn next(&mut self) -> Option<Result<Span, Memory>>
        ensures gives { PromisesEach self.old.splits.matches → GivesNext IsSpan (pieces_to_come self.old) (pieces_to_come self.new) result }
        ensures goes_on { PromisesEach self.old.splits.matches → PromisesEach self.new.splits.matches }
        ensures piece { IfSome result (λ item. IfOk item (IsPieceOf (text_len self.old.splits))) }
        ensures limit { self.new.limit ≡ self.old.limit - 1 }
        ensures ended { AfterLast result (IsOver self.new) }
        ensures none { IsOver self.old → result ≡ None }
        ensures any { 1 < self.old.limit → IfSome result (λ item. IfOk item (IsCut self.old.splits self.new.splits)) }
        ensures last { self.old.limit ≡ 1 → result ≡ last_from (text_len self.old.splits) self.old.splits.rest }
        ensures still { self.old.limit ≡ 1 → self.new.splits.matches ≡ self.old.splits.matches }
        ensures stays { IsOver self.old → self.new.splits ≡ self.old.splits }
        ensures failed { IfSome result (λ item. OnErr item (self.new.splits.matches.searcher ≡ self.old.splits.matches.searcher)) }
        ensures from { IfSome result (λ item. IfOk item (λ span. self.old.splits.rest ≡ Some span.start)) }
        ensures later { IfSome result (λ item. IfOk item (λ span. IfSome self.new.splits.rest (λ i. span.end ≤ i))) }
        ensures fewer_left { IfSome result (λ _. self.new.limit < self.old.limit) }
        ensures regex { self.new.splits.matches.regex ≡ self.old.splits.matches.regex }
        ensures haystack { self.new.splits.matches.searcher.input.haystack ≡ self.old.splits.matches.searcher.input.haystack }
    {
        if self.limit == 0 {
            return None;
        }
        let left = self.limit - 1;
        self.limit = left;
        if left > 0 {
            return self.splits.next();
        }
        match self.splits.rest_at_once() {
            Some(rest) => Some(Ok(rest)),
            None => None,
        }
    }

    /// At least how many pieces are still to come, of which nothing is known, and at most how many: those that the limit
    /// leaves.
    pub fn size_hint(&self) -> (usize, Option<usize>)
        ensures { result ≡ (0, Some self.now.limit) }
    {
        (0, Some(self.limit))
    }

    /// The input of the next search: at first that which was given, and after a match its span begins where that ended.
    pub fn input(&self) -> &Input<'h>
        ensures { result.now ≡ self.now.splits.matches.searcher.input }
    {
        self.splits.input()
    }

    /// Gives up the iterator, and gives its cache back to the regex.
    pub fn finish<R: Wait>(self, rt: &R) {
        let SplitN { splits, limit: _ } = self;
        splits.finish(rt);
    }
}
