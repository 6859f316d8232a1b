//! Laws of the searches of a regex and of its iterators.
ghost use Rattle.std.specs.Prelude.{◌≡◌, ◌≤◌, ℕ, suc, Bool, false, List, [], length, map, Option, option_map, is_some, IfSome, All, AllPairs};
ghost use Rattle.rx_model.specs.Matches.{AreSuccessive};
ghost use Rattle.rx_model.specs.Search.{Patterns, Match, matches};
ghost use Rattle.rx_search.specs.Answer.{half_of};
ghost use Rattle.rx_meta.specs.Gaps.{gaps_from, gaps_up_to, span_of_match};
ghost use Rattle.rx_search.specs.Input.{InputValue};
ghost use Rattle.rx_search.specs.Matches.{MatchValue, HalfMatchValue, match_value, half_match_value};
ghost use Rattle.rx_search.specs.Promise.{Premises, Promised};
ghost use Rattle.rx_search.specs.Searcher.{AnswersWithin, search_from, successive};
ghost use Rattle.rx_search.specs.Told.{tells, matched_pattern};
ghost use Rattle.rx_meta.specs.Finder.{IsExactFor};
ghost use Rattle.rx_meta.specs.Iterators.{begun, matches_to_come, PromisesEach};
ghost use Rattle.rx_meta.specs.Laws.{EndsBehind, IsBehind, IsInSpan, FindsAgain, LeadFrom, HoldAlike, HoldSpanOf, in_turn};
ghost use Rattle.rx_meta.specs.Regex.{RegexValue, Serves, given_needles, kind_in, searches};
ghost use Rattle.rx_meta.specs.Search.{IsAnswer, AreSlotsOfAnswer, TellsWhether};

/// What any two searches of one input answer agrees: the match of the one is that of the other, its half is that half, its
/// pattern that pattern, there is a match exactly where one is found, slots hold alike, and those of the whole match hold its
/// span. So each call agrees with its form that takes a cache, whichever serves, and with the same call of a clone.
pub fn searches_of_one_input_agree()
    ensures again { (regex : RegexValue) (r : Patterns) (v : InputValue) → Promised (Serves regex r) (given_needles regex) (kind_in regex) r v
        → (found other : Option MatchValue) → IsAnswer regex v match_value found → IsAnswer regex v match_value other → other ≡ found }
    ensures half { (regex : RegexValue) (r : Patterns) (v : InputValue) → Promised (Serves regex r) (given_needles regex) (kind_in regex) r v
        → (found : Option MatchValue) (half : Option HalfMatchValue) → IsAnswer regex v match_value found
        → IsAnswer regex v half_match_value half → half ≡ option_map half_of found }
    ensures pattern { (regex : RegexValue) (r : Patterns) (v : InputValue) → Promised (Serves regex r) (given_needles regex) (kind_in regex) r v
        → (found : Option MatchValue) (pattern : Option ℕ) → IsAnswer regex v match_value found
        → IsAnswer regex v matched_pattern pattern → pattern ≡ option_map (λ m. m.pattern) found }
    ensures whether { (regex : RegexValue) (r : Patterns) (v : InputValue) → Promised (Serves regex r) (given_needles regex) (kind_in regex) r v
        → (found : Option MatchValue) (there : Bool) → IsAnswer regex v match_value found
        → TellsWhether regex v there → there ≡ is_some found }
    ensures slots { (regex : RegexValue) (r : Patterns) (v : InputValue) → Promised (Serves regex r) (given_needles regex) (kind_in regex) r v
        → (slots others : List (Option ℕ)) (pattern other : Option ℕ) → IsAnswer regex v matched_pattern pattern
        → AreSlotsOfAnswer regex v matched_pattern slots pattern → AreSlotsOfAnswer regex v matched_pattern others other
        → IfSome pattern (λ _. HoldAlike slots others) }
    ensures of_match { (regex : RegexValue) (r : Patterns) (v : InputValue) → Promised (Serves regex r) (given_needles regex) (kind_in regex) r v
        → (slots others : List (Option ℕ)) (found : Option MatchValue) (pattern : Option ℕ) → IsAnswer regex v match_value found
        → AreSlotsOfAnswer regex v match_value slots found → AreSlotsOfAnswer regex v matched_pattern others pattern
        → IfSome found (λ _. HoldAlike slots others) }
    ensures span { (regex : RegexValue) (r : Patterns) (v : InputValue) → Promised (Serves regex r) (given_needles regex) (kind_in regex) r v
        → (found : Option MatchValue) (slots : List (Option ℕ)) (pattern : Option ℕ) → IsAnswer regex v match_value found
        → AreSlotsOfAnswer regex v matched_pattern slots pattern → IfSome found (HoldSpanOf slots) }
{}

/// What an iterator has to come at first is the successive matches of the patterns, and nothing where matches are not told. Each
/// starts after those before it and not before their ends, and each lies in the span. By `fewer_left` of `next` the iterator
/// ends, and by `none` it stays ended.
pub fn an_iterator_gives_the_matches_of_its_patterns()
    ensures matches { (regex : RegexValue) (r : Patterns) (v : InputValue) → v.end ≤ length v.haystack
        → Promised (Serves regex r) (given_needles regex) (kind_in regex) r v
        → matches_to_come (begun regex v) ≡ matches r v.haystack v.anchor v.end v.start }
    ensures silent { (regex : RegexValue) (r : Patterns) (v : InputValue) → v.end ≤ length v.haystack
        → Premises (Serves regex r) (given_needles regex) r v → tells r.which_captures ≡ false → matches_to_come (begun regex v) ≡ [] }
    ensures exact { (regex : RegexValue) (r : Patterns) (v : InputValue)
        → Promised (Serves regex r) (given_needles regex) (kind_in regex) r v → IsExactFor regex r v }
    ensures promises { (regex : RegexValue) (r : Patterns) (v : InputValue) → IsExactFor regex r v → PromisesEach (begun regex v) }
    ensures rising { (regex : RegexValue) (r : Patterns) (v : InputValue) → v.end ≤ length v.haystack
        → Promised (Serves regex r) (given_needles regex) (kind_in regex) r v → AllPairs IsBehind (matches_to_come (begun regex v)) }
    ensures within { (regex : RegexValue) (r : Patterns) (v : InputValue) → v.end ≤ length v.haystack
        → Promised (Serves regex r) (given_needles regex) (kind_in regex) r v → All (IsInSpan v) (matches_to_come (begun regex v)) }
    ensures answers { (regex : RegexValue) (v : InputValue) → v.end ≤ length v.haystack → PromisesEach (begun regex v)
        → AnswersWithin (searches regex) v }
{}

/// The successive matches of whatever searches, where each match that it answers lies between the place from which it searches
/// and the end of the span. They go on until there is none; each begins at the end of the one before it or later, and ends
/// later; each lies in the span; and with the gaps between them they lie end to end over the whole haystack. Where a match is
/// found again by the search that begins at its start, each starts later too.
pub fn successive_matches_follow_one_another()
    ensures next { (searches : InputValue → Option Match) (v : InputValue) → AnswersWithin searches v
        → AreSuccessive (search_from searches v) (searches v) (successive searches v) }
    ensures rising { (searches : InputValue → Option Match) (v : InputValue) → AnswersWithin searches v
        → AllPairs EndsBehind (successive searches v) }
    ensures starts { (searches : InputValue → Option Match) (v : InputValue) → AnswersWithin searches v → FindsAgain searches v
        → AllPairs IsBehind (successive searches v) }
    ensures within { (searches : InputValue → Option Match) (v : InputValue) → AnswersWithin searches v
        → All (IsInSpan v) (successive searches v) }
    ensures cover { (searches : InputValue → Option Match) (v : InputValue) → v.end ≤ length v.haystack → AnswersWithin searches v
        → LeadFrom 0 (length v.haystack) (in_turn (gaps_from (length v.haystack) 0 (successive searches v)) (map span_of_match (successive searches v))) }
{}

/// The gaps and the matches between them, in turn, lie end to end over the whole haystack. There is one gap more than
/// matches, and with a limit there are at most so many pieces.
pub fn gaps_and_matches_cover_the_haystack()
    ensures cover { (regex : RegexValue) (v : InputValue) → v.end ≤ length v.haystack → PromisesEach (begun regex v)
        → (ms : List Match) → ms ≡ matches_to_come (begun regex v)
        → LeadFrom 0 (length v.haystack) (in_turn (gaps_from (length v.haystack) 0 ms) (map span_of_match ms)) }
    ensures one_more { (len i : ℕ) (ms : List Match) → length (gaps_from len i ms) ≡ suc (length ms) }
    ensures limited { (n len i : ℕ) (ms : List Match) → length (gaps_up_to n len i ms) ≤ n }
    ensures all { (n len i : ℕ) (ms : List Match) → length (gaps_from len i ms) ≤ n → gaps_up_to n len i ms ≡ gaps_from len i ms }
{}
