//! Laws of what captures and slots hold after a search.
ghost use Rattle.std.specs.Prelude.{◌≡◌, ◌≤◌, ℕ, true, false, List, Option, None, IfSome};
ghost use Rattle.rx_model.specs.Search.{Patterns, has_explicit_groups};
ghost use Rattle.rx_search.specs.Captures.{CapturesValue, captured_match, group_span};
ghost use Rattle.rx_search.specs.Input.{InputValue};
ghost use Rattle.rx_search.specs.Matches.{MatchValue, match_value};
ghost use Rattle.rx_search.specs.Promise.{Premises, Promised};
ghost use Rattle.rx_search.specs.Told.{tells, matched_pattern};
ghost use Rattle.rx_meta.specs.Captures.{emptied, AreTold, IsToldWith};
ghost use Rattle.rx_meta.specs.Laws.{HaveRoomFor, AreImplicitAlone, AreOfPatternAlone};
ghost use Rattle.rx_meta.specs.Regex.{RegexValue, Serves, given_needles, kind_in};
ghost use Rattle.rx_meta.specs.Search.{IsAnswer, AreSlotsOfAnswer};

/// The match of captures after a search is the one that a search of the same input finds. That of captures which an iterator
/// gives, or a finder holds, is the match that was found, whatever the kind of match is. And the span of the implicit group is
/// in order, as `Captures::get_match` asks.
pub fn captures_tell_the_match()
    ensures found { (regex : RegexValue) (r : Patterns) (v : InputValue)
        → Promised (Serves regex r) (given_needles regex) (kind_in regex) r v → (c : CapturesValue) (found : Option MatchValue)
        → HaveRoomFor r c → AreTold regex v c → IsAnswer regex v match_value found → captured_match c ≡ found }
    ensures given { (regex : RegexValue) (r : Patterns) (v : InputValue) → Premises (Serves regex r) (given_needles regex) r v
        → (c : CapturesValue) (found : Option MatchValue) → HaveRoomFor r c → IsToldWith regex v c found → captured_match c ≡ found }
    ensures in_order { (regex : RegexValue) (r : Patterns) (v : InputValue) → Premises (Serves regex r) (given_needles regex) r v
        → (c : CapturesValue) → HaveRoomFor r c → AreTold regex v c → IfSome (group_span c 0) (λ span. span.start ≤ span.end) }
{}

/// Where the configuration asks for no captures, a search finds nothing, and captures are empty after it. Where it asks for the
/// implicit groups alone, no slot of an explicit group holds a place, whatever is found.
pub fn groups_that_are_not_told_stay_empty()
    ensures untold { (regex : RegexValue) (r : Patterns) (v : InputValue) → Premises (Serves regex r) (given_needles regex) r v
        → tells r.which_captures ≡ false → (found : Option MatchValue) → IsAnswer regex v match_value found → found ≡ None }
    ensures no_pattern { (regex : RegexValue) (r : Patterns) (v : InputValue) → Premises (Serves regex r) (given_needles regex) r v
        → tells r.which_captures ≡ false → (found : Option ℕ) → IsAnswer regex v matched_pattern found → found ≡ None }
    ensures no_captures { (regex : RegexValue) (r : Patterns) (v : InputValue) → Premises (Serves regex r) (given_needles regex) r v
        → tells r.which_captures ≡ false → (c : CapturesValue) → AreTold regex v c → c ≡ emptied c }
    ensures implicit { (regex : RegexValue) (r : Patterns) (v : InputValue) → Premises (Serves regex r) (given_needles regex) r v
        → has_explicit_groups r.which_captures ≡ false → (slots : List (Option ℕ)) (found : Option ℕ)
        → AreSlotsOfAnswer regex v matched_pattern slots found → IfSome found (λ _. AreImplicitAlone r slots) }
    ensures implicit_captures { (regex : RegexValue) (r : Patterns) (v : InputValue) → Premises (Serves regex r) (given_needles regex) r v
        → has_explicit_groups r.which_captures ≡ false → (c : CapturesValue) → AreTold regex v c → AreImplicitAlone r c.slots }
{}

/// A search that finds something leaves no place in a slot of another pattern than the one that is found; and where groups are
/// not told, in none of theirs. So it is of captures too.
pub fn slots_of_other_patterns_stay_empty()
    ensures slots { (regex : RegexValue) (r : Patterns) (v : InputValue) → Premises (Serves regex r) (given_needles regex) r v
        → (slots : List (Option ℕ)) (found : Option ℕ) → AreSlotsOfAnswer regex v matched_pattern slots found
        → IfSome found (AreOfPatternAlone r slots) }
    ensures captures { (regex : RegexValue) (r : Patterns) (v : InputValue) → Premises (Serves regex r) (given_needles regex) r v
        → (c : CapturesValue) → AreTold regex v c → IfSome c.pattern (AreOfPatternAlone r c.slots) }
{}
