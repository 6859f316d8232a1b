//! The law of the sets that a regex fills.
ghost use Rattle.std.specs.Prelude.{◌≡◌, ◌↔◌, ℕ, Bool, true, false, List};
ghost use Rattle.rx_model.specs.Search.{Patterns};
ghost use Rattle.rx_search.specs.Input.{InputValue};
ghost use Rattle.rx_search.specs.PatternSet.{has};
ghost use Rattle.rx_search.specs.Promise.{Premises};
ghost use Rattle.rx_search.specs.declared.anchored.MatchKind.TheVariants.{All as AllMatches};
ghost use Rattle.rx_meta.specs.Laws.{MeansInSpan, MeansFromPermitted, HasNoEmptyMatch};
ghost use Rattle.rx_meta.specs.Regex.{RegexValue, Serves, given_needles, kind_in};
ghost use Rattle.rx_meta.specs.Sets.{AddsMatching, IsFilled};

/// Under `All`, where not just any match will do, the patterns that a search adds to a set are exactly those that mean a part
/// of the input's span, from its start where it is anchored, and from a place where a match may begin. Where no pattern means
/// an empty part of the haystack, a match may begin wherever a part does.
pub fn a_set_gains_what_means_a_part_of_the_span()
    ensures exactly { (regex : RegexValue) (r : Patterns) (v : InputValue) (old new : List Bool)
        → Premises (Serves regex r) (given_needles regex) r v → kind_in regex ≡ AllMatches → v.earliest ≡ false
        → AddsMatching regex v old new → IsFilled regex v old new
        → (p : ℕ) → has old p ≡ false → (has new p ≡ true) ↔ MeansFromPermitted r v p }
    ensures anywhere { (regex : RegexValue) (r : Patterns) (v : InputValue) (old new : List Bool)
        → Premises (Serves regex r) (given_needles regex) r v → kind_in regex ≡ AllMatches → v.earliest ≡ false
        → AddsMatching regex v old new → IsFilled regex v old new → HasNoEmptyMatch r v
        → (p : ℕ) → has old p ≡ false → (has new p ≡ true) ↔ MeansInSpan r v p }
{}
