//! Laws of the next match and of successive matches.

ghost use Rattle.std.specs.Prelude.{◌≡◌, ◌≢◌, ℕ, ◌+◌, ◌-◌, ◌*◌, ◌<◌, ◌≤◌, true, List, length, slice_get, Some, None, All, AllPairs, IsTrue, IsFalse};
ghost use Rattle.rx_model.specs.Expression.{Expression, AreOrdered};
ghost use Rattle.rx_model.specs.Meaning.{Means};
ghost use Rattle.rx_model.specs.Runs.{Trace, Sieve};
ghost use Rattle.rx_model.specs.Search.{Patterns, first_where, first_of_patterns_where, is_permitted, Anchor, free, anchored_to, is_anchored, Match, starting_at, next_match, matches, matches_from, slot_value};
ghost use Rattle.rx_model.specs.Matches.{MayStart, HasFirstRun, IsNextMatch, IsMatch, IsSlotOf, AreSuccessive};
ghost use Rattle.rx_model.specs.Utf8.{anywhere, between_characters, MeansUtf8};

/// A first run that ends by an earlier end is the first run within that end, with all that it tells: of a pattern, and
/// over the patterns in order, wherever acceptance is permitted. So a next match, searched for anchored to its pattern
/// over exactly its own span, is itself.
pub fn a_first_run_is_the_first_within_an_earlier_end()
    ensures pattern { (ok : Sieve) (r : Patterns) (text : List ℕ) (end later p : ℕ) (h : Expression) (i : ℕ) (t : Trace) → end ≤ later
        → first_where ok r text later p h i ≡ Some t → t.end ≤ end → first_where ok r text end p h i ≡ Some t }
    ensures patterns { (ok : Sieve) (r : Patterns) (text : List ℕ) (end later : ℕ) (i : ℕ) (t : Trace) → end ≤ later
        → first_of_patterns_where ok r text later 0 r.expressions i ≡ Some t → t.end ≤ end
        → first_of_patterns_where ok r text end 0 r.expressions i ≡ Some t }
    ensures next { (r : Patterns) (text : List ℕ) (anchor : Anchor) (b a : ℕ) (m : Match)
        → next_match r text anchor b a ≡ Some m → next_match r text (anchored_to m.trace.pattern) m.trace.end m.start ≡ Some m }
{}

/// Permitted starts from which no pattern has a run may be skipped, and so may the starts that are not permitted: where
/// no permitted start from a up to c has a run, the next match from a is the next match from c.
pub fn starts_without_a_run_may_be_skipped()
    ensures { (r : Patterns) (text : List ℕ) (b a c : ℕ) → a ≤ c
        → ((j : ℕ) → a ≤ j → j < c → IsTrue (is_permitted r.utf8_empty text j) → starting_at r text b free j ≡ None)
        → next_match r text free b a ≡ next_match r text free b c }
{}

/// The search finds the next match: at the least permitted start from which a pattern has a run, the first
/// run of the least such pattern. It finds none only where there is none.
pub fn the_search_finds_the_next_match()
    ensures found { (r : Patterns) (text : List ℕ) (anchor : Anchor) (b a : ℕ) (m : Match)
        → next_match r text anchor b a ≡ Some m → IsNextMatch r text anchor b a m }
    ensures only { (r : Patterns) (text : List ℕ) (anchor : Anchor) (b a : ℕ) (m : Match)
        → IsNextMatch r text anchor b a m → next_match r text anchor b a ≡ Some m }
    ensures none { (r : Patterns) (text : List ℕ) (anchor : Anchor) (b a : ℕ)
        → next_match r text anchor b a ≡ None → (place pattern : ℕ) (t : Trace)
        → MayStart r text anchor b a place → HasFirstRun r text anchor b place pattern t → ⊥ }
{}

/// A match lies in the span.
pub fn matches_lie_in_the_span()
    ensures { (r : Patterns) (text : List ℕ) (anchor : Anchor) (b a : ℕ) (m : Match)
        → next_match r text anchor b a ≡ Some m → (a ≤ m.start) × (m.start ≤ m.trace.end) × (m.trace.end ≤ b) }
{}

/// The next match where no match may start inside a character, in terms of the next match where one may, over a text
/// that is UTF-8 with patterns that mean UTF-8. Where there is no match without the rule, there is none with it. A match
/// that ends between characters is the next one with the rule too. One that ends inside a character is empty: an
/// unanchored search goes on behind it, and an anchored one has no match.
pub fn the_next_match_between_characters()
    ensures none { (r : Patterns) (text : List ℕ) (anchor : Anchor) (b a : ℕ)
        → next_match (anywhere r) text anchor b a ≡ None → next_match (between_characters r) text anchor b a ≡ None }
    ensures some { (r : Patterns) (text : List ℕ) → MeansUtf8 r text → (anchor : Anchor) (b a : ℕ) (m : Match)
        → next_match (anywhere r) text anchor b a ≡ Some m → IsTrue (is_permitted true text m.trace.end)
        → next_match (between_characters r) text anchor b a ≡ Some m }
    ensures empty { (r : Patterns) (text : List ℕ) → MeansUtf8 r text → (anchor : Anchor) (b a : ℕ) (m : Match)
        → next_match (anywhere r) text anchor b a ≡ Some m → IsFalse (is_permitted true text m.trace.end) → m.start ≡ m.trace.end }
    ensures free { (r : Patterns) (text : List ℕ) → MeansUtf8 r text → (b a : ℕ) (m : Match)
        → next_match (anywhere r) text free b a ≡ Some m → IsFalse (is_permitted true text m.trace.end)
        → next_match (between_characters r) text free b a ≡ next_match (between_characters r) text free b (m.start + 1) }
    ensures anchored { (r : Patterns) (text : List ℕ) → MeansUtf8 r text → (anchor : Anchor) → IsTrue (is_anchored anchor)
        → (b a : ℕ) (m : Match) → next_match (anywhere r) text anchor b a ≡ Some m → IsFalse (is_permitted true text m.trace.end)
        → next_match (between_characters r) text anchor b a ≡ None }
{}

/// Successive matches go on until there is no match, whatever greater bound is put on their number. Each
/// starts after those before it and not before their ends, and each lies in the span.
pub fn successive_matches_go_on()
    ensures successive { (r : Patterns) (text : List ℕ) (anchor : Anchor) (b a : ℕ)
        → AreSuccessive (next_match r text anchor b) (next_match r text anchor b a) (matches r text anchor b a) }
    ensures unbounded { (r : Patterns) (text : List ℕ) (anchor : Anchor) (b a n : ℕ) → b + 1 - a + 1 ≤ n
        → matches_from (next_match r text anchor b) n (next_match r text anchor b a) ≡ matches r text anchor b a }
    ensures rising { (r : Patterns) (text : List ℕ) (anchor : Anchor) (b a : ℕ)
        → AllPairs (λ (m n : Match). (m.start < n.start) × (m.trace.end ≤ n.start)) (matches r text anchor b a) }
    ensures within { (r : Patterns) (text : List ℕ) (anchor : Anchor) (b a : ℕ)
        → All (λ (m : Match). (a ≤ m.start) × (m.start ≤ m.trace.end) × (m.trace.end ≤ b)) (matches r text anchor b a) }
{}

/// The slots of the whole match are its span: slot 2p holds the start of a match of pattern p, and slot 2p + 1 its
/// end. Each other slot that has a place is one of the two of an explicit group that stands in that pattern's
/// expression, where such groups have slots, and its place lies in the span. So a match leaves nothing in any slot
/// that is not of its pattern.
pub fn the_slots_of_the_whole_match_are_its_span()
    ensures next { (r : Patterns) (text : List ℕ) (anchor : Anchor) (b a : ℕ) (m : Match)
        → next_match r text anchor b a ≡ Some m → (m.trace.pattern < length r.expressions)
        × (slot_value m (2 * m.trace.pattern) ≡ Some m.start) × (slot_value m (2 * m.trace.pattern + 1) ≡ Some m.trace.end) }
    ensures next_groups { (r : Patterns) (text : List ℕ) (anchor : Anchor) (b a : ℕ) (m : Match)
        → next_match r text anchor b a ≡ Some m → (h : Expression) → slice_get r.expressions m.trace.pattern ≡ Some h
        → (slot place : ℕ) → slot_value m slot ≡ Some place
        → IsSlotOf r m.trace.pattern h slot × (m.start ≤ place) × (place ≤ m.trace.end) }
    ensures next_others { (r : Patterns) (text : List ℕ) (anchor : Anchor) (b a : ℕ) (m : Match)
        → next_match r text anchor b a ≡ Some m → (h : Expression) → slice_get r.expressions m.trace.pattern ≡ Some h
        → (slot : ℕ) → (IsSlotOf r m.trace.pattern h slot → ⊥) → slot_value m slot ≡ None }
    ensures each { (r : Patterns) (text : List ℕ) (anchor : Anchor) (b a : ℕ) (m : Match)
        → IsMatch r text anchor b a m → (m.trace.pattern < length r.expressions)
        × (slot_value m (2 * m.trace.pattern) ≡ Some m.start) × (slot_value m (2 * m.trace.pattern + 1) ≡ Some m.trace.end) }
    ensures each_groups { (r : Patterns) (text : List ℕ) (anchor : Anchor) (b a : ℕ) (m : Match)
        → IsMatch r text anchor b a m → (h : Expression) → slice_get r.expressions m.trace.pattern ≡ Some h
        → (slot place : ℕ) → slot_value m slot ≡ Some place
        → IsSlotOf r m.trace.pattern h slot × (m.start ≤ place) × (place ≤ m.trace.end) }
    ensures each_others { (r : Patterns) (text : List ℕ) (anchor : Anchor) (b a : ℕ) (m : Match)
        → IsMatch r text anchor b a m → (h : Expression) → slice_get r.expressions m.trace.pattern ≡ Some h
        → (slot : ℕ) → (IsSlotOf r m.trace.pattern h slot → ⊥) → slot_value m slot ≡ None }
{}

/// The next match within an end is a match within each later end.
pub fn a_match_within_an_end_is_one_within_a_later_end()
    ensures { (r : Patterns) (text : List ℕ) (anchor : Anchor) (e b a : ℕ) (m : Match)
        → next_match r text anchor e a ≡ Some m → e ≤ b → IsMatch r text anchor b a m }
{}

/// Where there is a match, there is a next match, and it starts no later. A match lies in the span, and its
/// expression means it.
pub fn a_match_is_meant_and_a_next_match_is_there()
    ensures next { (r : Patterns) (text : List ℕ) (anchor : Anchor) (b a : ℕ) (m : Match)
        → IsMatch r text anchor b a m → next_match r text anchor b a ≢ None }
    ensures earliest { (r : Patterns) (text : List ℕ) (anchor : Anchor) (b a : ℕ) (m n : Match)
        → IsMatch r text anchor b a m → next_match r text anchor b a ≡ Some n → n.start ≤ m.start }
    ensures within { (r : Patterns) (text : List ℕ) (anchor : Anchor) (b a : ℕ) (m : Match)
        → IsMatch r text anchor b a m → (a ≤ m.start) × (m.start ≤ m.trace.end) × (m.trace.end ≤ b) }
    ensures meant { (r : Patterns) (text : List ℕ) (anchor : Anchor) (b a : ℕ) (m : Match)
        → IsMatch r text anchor b a m → (h : Expression) → slice_get r.expressions m.trace.pattern ≡ Some h → AreOrdered h
        → Means r.terminator text h m.start m.trace.end }
{}
