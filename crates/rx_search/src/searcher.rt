//! Finders, and the matches in an input one after another.
ghost use Rattle.std.specs.Prelude.{◌≡◌, ◌⊎◌, ℕ, ◌≤◌, ◌<◌, false, Option, IfOk, IfErr, OnOk, OnErr, OnSome, IfNone, IfSome, MatchOption, option_map, map, length};
ghost use Rattle.rx_model.specs.Search.{Match as ModelMatch, Patterns, matches};
ghost use Rattle.rx_search.specs.Matches.{MatchValue, match_value};
ghost use Rattle.rx_search.specs.Input.{InputValue, from_place, next_in};
ghost use Rattle.rx_search.specs.Told.{LiesIn, told_in};
ghost use Rattle.rx_search.specs.Searcher.{fresh, moved_past, upcoming, places_left, to_come, successive, AtEachPlace, AnswersWithin, Gives, IsAnsweredBy, HasCause, HasCauseOfOne};

use crate::input::Input;
use crate::matches::Match;
use std::alloc::{AllocFailed, Global};
use std::marker::Model;

/// What can search an input for its next match.
pub trait Finder {
    /// Why a search may have no answer.
    type Error;

    /// What the finder needs of itself and of the input for a call to be made.
    ghost can_search: { Self → InputValue → Type 0 } = { λ _ _. Unit {0} };

    /// The match that a search of an input answers.
    ghost searches: { Self → InputValue → Option ModelMatch };

    /// Under what an answer is that match. Where just any match will do, only one in the span is promised.
    ghost promises: { Self → InputValue → Type 0 } = { λ _ v. v.earliest ≡ false };

    /// Why a search of an input may fail with an error.
    ghost fails: { Self → InputValue → Self.Error → Type 0 } = { λ _ _ _. Unit {0} };

    /// What the finder holds of the match that its last search answered, as that match's slots.
    ghost tells: { Self → Option ModelMatch → Type 0 } = { λ _ _. Unit {0} };

    /// What holds of an answer to a search of an input, and of what the finder holds after it, whether it is promised or not.
    ghost answers: { Self → InputValue → Option MatchValue → Type 0 } = { λ _ _ _. Unit {0} };

    /// The finder holds nothing of a match.
    ghost holds_none: { Self → Type 0 } = { λ _. Unit {0} };

    /// What no call changes: the second finder is as the first one in this respect.
    ghost keeps: { Self → Self → Type 0 } = { λ _ _. Unit {0} };

    /// The next match in the span of the input. A call, also one that fails, changes no later answer.
    fn find(&mut self, input: &Input<'_>) -> Result<Option<Match>, Self::Error>
        requires { can_search self.old input.now }
        ensures answer { promises self.old input.now → IfOk result (λ found. found ≡ option_map match_value (searches self.old input.now)) }
        ensures within { IfOk result (λ found. IfSome found (LiesIn input.now)) }
        ensures told { promises self.old input.now → OnOk result (tells self.new (searches self.old input.now)) }
        ensures any { IfOk result (answers self.new input.now) }
        ensures none { IfOk result (λ found. IfNone found (holds_none self.new)) }
        ensures silent { OnErr result (holds_none self.new) }
        ensures err { IfErr result (fails self.old input.now) }
        ensures same_answers { (v : InputValue) → searches self.new v ≡ searches self.old v }
        ensures still_can { (v : InputValue) → can_search self.old v → can_search self.new v }
        ensures still_promises { (v : InputValue) → promises self.old v → promises self.new v }
        ensures same_failures { (v : InputValue) (e : Self.Error) → fails self.new v e → fails self.old v e }
        ensures stays { (s : Self) → keeps s self.old → keeps s self.new };
}

/// The matches in an input, one after another: each search begins where the last match ended. An empty
/// match at the end of the match before it is passed over by one more search, from one byte further on.
#[derive(Drop)]
pub struct Searcher<'h> {
    input: Input<'h>,
    last_match_end: Option<usize>,
}

impl<'h> Model for Searcher<'h> {
    ghost use Rattle.rx_search.specs.Searcher.{SearcherValue, begins_at};

    ghost Value = { SearcherValue };

    ghost view = { λ s. record { input = s.input; last_end = s.last_match_end } };

    ghost invariant = { λ s. begins_at s.last_match_end s.input };
}

impl<'h> Searcher<'h> {
    /// Before the first match in this input.
    pub fn new(input: Input<'h>) -> Searcher<'h>
        ensures { result ≡ fresh input.entry }
    {
        Searcher {
            input,
            last_match_end: None,
        }
    }

    /// The input of the next search: that of `new`, and after a match its start is where the match ended.
    pub fn input(&self) -> &Input<'h>
        ensures { result.now ≡ self.now.input }
    {
        &self.input
    }

    /// The next match, or None where there is none. After an error, and after None, the searcher is as
    /// before. Give each call the same finder, or one that answers alike: then None stays None.
    ///
    /// # Errors
    ///
    /// Only that of the finder, for the search from where its input starts, or, where that one finds the empty match at the end of
    /// the last match, for the one from one byte further on.
    pub fn advance<F: Finder>(&mut self, finder: &mut F) -> Result<Option<Match>, F::Error>
        requires { AtEachPlace (F.can_search finder.old) self.old.input }
        ensures answer { AtEachPlace (F.promises finder.old) self.old.input
            → IfOk result (λ found. found ≡ option_map match_value (upcoming (F.searches finder.old) self.old)) }
        ensures gives { AtEachPlace (F.promises finder.old) self.old.input → AnswersWithin (F.searches finder.old) self.old.input
            → IfOk result (λ found. Gives (F.searches finder.old) self.old found self.new) }
        ensures within { IfOk result (λ found. IfSome found (LiesIn self.old.input)) }
        ensures forward { self.old.input.start ≤ self.new.input.start }
        ensures moved { IfOk result (λ found. MatchOption found (self.new ≡ self.old) (λ m. self.new ≡ moved_past m self.old)) }
        ensures fewer_left { IfOk result (λ found. OnSome found (places_left self.new < places_left self.old)) }
        ensures err { OnErr result (self.new ≡ self.old) }
        ensures cause { IfErr result (HasCause (F.fails finder.old) (F.searches finder.old) (AtEachPlace (F.promises finder.old) self.old.input) self.old) }
        ensures any { IfOk result (IsAnsweredBy (F.answers finder.new) self.old) }
        ensures none { IfOk result (λ found. IfNone found (F.holds_none finder.new)) }
        ensures silent { OnErr result (F.holds_none finder.new) }
        ensures told { AtEachPlace (F.promises finder.old) self.old.input → OnOk result (F.tells finder.new (upcoming (F.searches finder.old) self.old)) }
        ensures same_answers { (v : InputValue) → F.searches finder.new v ≡ F.searches finder.old v }
        ensures still_can { (v : InputValue) → F.can_search finder.old v → F.can_search finder.new v }
        ensures still_promises { (v : InputValue) → F.promises finder.old v → F.promises finder.new v }
        ensures same_failures { (v : InputValue) (e : F.Error) → F.fails finder.new v e → F.fails finder.old v e }
        ensures can_go_on { AtEachPlace (F.can_search finder.new) self.new.input }
        ensures goes_on { AtEachPlace (F.promises finder.old) self.old.input → AtEachPlace (F.promises finder.new) self.new.input }
        ensures stays { (s : F) → F.keeps s finder.old → F.keeps s finder.new }
    {
        let Some(found) = self.find_next(finder)? else {
            return Ok(None);
        };
        self.input.set_start(found.end());
        self.last_match_end = Some(found.end());
        Ok(Some(found))
    }

    /// The number of matches that are still to come.
    ///
    /// # Errors
    ///
    /// Only that of the finder, for a search that `advance` makes for one of these matches.
    pub fn count<F: Finder>(mut self, finder: &mut F) -> Result<usize, F::Error>
        requires { AtEachPlace (F.can_search finder.old) self.input }
        ensures value { AtEachPlace (F.promises finder.old) self.entry.input → IfOk result (λ n. n ≡ length (to_come (F.searches finder.old) self.entry)) }
        ensures cause { IfErr result (HasCauseOfOne (F.fails finder.old) (F.searches finder.old)
            (AtEachPlace (F.promises finder.old) self.entry.input) self.entry) }
        ensures same_answers { (v : InputValue) → F.searches finder.new v ≡ F.searches finder.old v }
        ensures still_can { (v : InputValue) → F.can_search finder.old v → F.can_search finder.new v }
        ensures still_promises { (v : InputValue) → F.promises finder.old v → F.promises finder.new v }
        ensures same_failures { (v : InputValue) (e : F.Error) → F.fails finder.new v e → F.fails finder.old v e }
        ensures stays { (s : F) → F.keeps s finder.old → F.keeps s finder.new }
    {
        // Each match ends at a place of its own, and the number of places fits a `usize`.
        let _haystack = self.input.haystack();
        let mut count = 0;
        while let Some(_) = self.advance(finder)? {
            count += 1;
        }
        Ok(count)
    }

    /// The matches that are still to come.
    ///
    /// # Errors
    ///
    /// That of the finder, for a search that `advance` makes for one of these matches, or want of memory for the list.
    pub fn collect<F: Finder>(
        mut self,
        alloc: Global,
        finder: &mut F,
    ) -> Result<Vec<Match>, F::Error>
    where
        F::Error: From<AllocFailed<Match>>,
        requires { AtEachPlace (F.can_search finder.old) self.input }
        ensures value { AtEachPlace (F.promises finder.old) self.entry.input
            → IfOk result (λ all. all.items ≡ map match_value (to_come (F.searches finder.old) self.entry)) }
        ensures cause { IfErr result (λ e. HasCauseOfOne (F.fails finder.old) (F.searches finder.old)
            (AtEachPlace (F.promises finder.old) self.entry.input) self.entry e
            ⊎ ((a : AllocFailed MatchValue) × F.Error.from_gives a e)) }
        ensures same_answers { (v : InputValue) → F.searches finder.new v ≡ F.searches finder.old v }
        ensures still_can { (v : InputValue) → F.can_search finder.old v → F.can_search finder.new v }
        ensures still_promises { (v : InputValue) → F.promises finder.old v → F.promises finder.new v }
        ensures same_failures { (v : InputValue) (e : F.Error) → F.fails finder.new v e → F.fails finder.old v e }
        ensures stays { (s : F) → F.keeps s finder.old → F.keeps s finder.new }
    {
        let mut all = Vec::new(alloc);
        while let Some(found) = self.advance(finder)? {
            all.push(found)?;
        }
        Ok(all)
    }

    /// The match that comes next.
    fn find_next<F: Finder>(&self, finder: &mut F) -> Result<Option<Match>, F::Error>
        requires { AtEachPlace (F.can_search finder.old) self.now.input }
        ensures answer { AtEachPlace (F.promises finder.old) self.now.input
            → IfOk result (λ found. found ≡ option_map match_value (upcoming (F.searches finder.old) self.now)) }
        ensures within { IfOk result (λ found. IfSome found (LiesIn self.now.input)) }
        ensures later { IfOk result (λ found. IfSome found (λ m. IfSome self.now.last_end (λ last. last < m.end))) }
        ensures cause { IfErr result (HasCause (F.fails finder.old) (F.searches finder.old) (AtEachPlace (F.promises finder.old) self.now.input) self.now) }
        ensures any { IfOk result (IsAnsweredBy (F.answers finder.new) self.now) }
        ensures none { IfOk result (λ found. IfNone found (F.holds_none finder.new)) }
        ensures silent { OnErr result (F.holds_none finder.new) }
        ensures told { AtEachPlace (F.promises finder.old) self.now.input → OnOk result (F.tells finder.new (upcoming (F.searches finder.old) self.now)) }
        ensures same_answers { (v : InputValue) → F.searches finder.new v ≡ F.searches finder.old v }
        ensures still_can { (v : InputValue) → F.can_search finder.old v → F.can_search finder.new v }
        ensures still_promises { (v : InputValue) → F.promises finder.old v → F.promises finder.new v }
        ensures same_failures { (v : InputValue) (e : F.Error) → F.fails finder.new v e → F.fails finder.old v e }
        ensures stays { (s : F) → F.keeps s finder.old → F.keeps s finder.new }
    {
        // A search begins at most one place behind the end of the span.
        let _span = self.input.get_span();
        let found = finder.find(&self.input)?;
        let Some(last) = self.last_match_end else {
            return Ok(found);
        };
        let Some(first) = found else {
            return Ok(None);
        };
        if first.start() != last || first.end() != last {
            return Ok(Some(first));
        }
        let mut further = self.input.clone();
        further.set_start(last + 1);
        finder.find(&further)
    }
}

/// Where each search answers the next match of some patterns, what a searcher gives, one after another,
/// is the list of their successive matches.
pub fn searches_give_the_matches()
    ensures { (searches : InputValue → Option ModelMatch) (patterns : Patterns) (v : InputValue)
        → ((i : ℕ) → searches (from_place i v) ≡ next_in patterns (from_place i v))
        → successive searches v ≡ matches patterns v.haystack v.anchor v.end v.start }
{}

/// Where each search answers the next match of some patterns, or that where matches are told, it answers within its span.
pub fn the_next_match_answers_within_its_span()
    ensures next { (searches : InputValue → Option ModelMatch) (patterns : Patterns) (v : InputValue)
        → ((i : ℕ) → searches (from_place i v) ≡ next_in patterns (from_place i v)) → AnswersWithin searches v }
    ensures told { (searches : InputValue → Option ModelMatch) (patterns : Patterns) (v : InputValue)
        → ((i : ℕ) → searches (from_place i v) ≡ told_in patterns (from_place i v)) → AnswersWithin searches v }
{}
