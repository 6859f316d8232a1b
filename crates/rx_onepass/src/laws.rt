//! Laws of the searches of a one-pass DFA.
ghost use Rattle.std.specs.Prelude.{◌≡◌, ◌≤◌, ◌<◌, ℕ, Bool, true, List, length, Some, option_map, is_some};
ghost use Rattle.rx_model.specs.Expression.{Expression};
ghost use Rattle.rx_model.specs.Runs.{Trace};
ghost use Rattle.rx_model.specs.Search.{Patterns, free, anchored, next_match, slot_value};
ghost use Rattle.rx_model.specs.Matches.{IsMatch};
ghost use Rattle.rx_search.specs.Input.{InputValue, next_in};
ghost use Rattle.rx_search.specs.Told.{tells};
ghost use Rattle.rx_search.specs.declared.anchored.MatchKind.TheVariants.{LeftmostFirst};
ghost use Rattle.rx_nfa.specs.Compiled.{IsCompiled, patterns_of};
ghost use Rattle.rx_nfa.specs.Config.{terminator_of, captures_of};
ghost use Rattle.rx_nfa.specs.Nfa.{Nfa, IsInRange, IsNfaOf};
ghost use Rattle.rx_nfa.specs.NextMatch.{next_match_in};
ghost use Rattle.rx_nfa.specs.declared.compiler.config.Config.{Config};
ghost use Rattle.rx_onepass_build.specs.Config.{kind_of};
ghost use Rattle.rx_onepass.specs.Dfa.{Dfa};
ghost use Rattle.rx_onepass.specs.Search.{run_in, taken_as, slot_of, started_at};

/// Under `LeftmostFirst` the run that a search tells is that of the next match of the NFA from the span's start.
pub fn the_run_is_that_of_the_next_match()
    ensures { (d : Dfa) (v : InputValue) → kind_of d.config ≡ LeftmostFirst
        → next_match_in d.nfa (record v { anchor = taken_as v.anchor }) ≡ option_map (started_at v.start) (run_in d v) }
{}

/// Where the NFA has the runs of patterns, something is found exactly where the patterns have a next match from the span's start,
/// of either kind. Where captures are told, it is a match of the patterns, under `LeftmostFirst` that next match, and each slot
/// holds what the match leaves in it. So no slot of another pattern has a place, nor one past those of the NFA.
pub fn what_is_found_is_a_match_of_the_patterns()
    ensures exists { (d : Dfa) (r : Patterns) (v : InputValue) → IsNfaOf d.nfa r → v.end ≤ length v.haystack
        → is_some (run_in d v) ≡ is_some (next_in r (record v { anchor = taken_as v.anchor })) }
    ensures next { (d : Dfa) (r : Patterns) (v : InputValue) → IsNfaOf d.nfa r → v.end ≤ length v.haystack → tells r.which_captures ≡ true
        → kind_of d.config ≡ LeftmostFirst
        → option_map (started_at v.start) (run_in d v) ≡ next_in r (record v { anchor = taken_as v.anchor }) }
    ensures is_match { (d : Dfa) (r : Patterns) (v : InputValue) → IsNfaOf d.nfa r → v.end ≤ length v.haystack → tells r.which_captures ≡ true
        → (t : Trace) → run_in d v ≡ Some t → IsMatch r v.haystack (taken_as v.anchor) v.end v.start (started_at v.start t) }
    ensures slots { (d : Dfa) (r : Patterns) (v : InputValue) → IsNfaOf d.nfa r → v.end ≤ length v.haystack → tells r.which_captures ≡ true
        → IsInRange d.nfa → (t : Trace) → run_in d v ≡ Some t
        → (slot : ℕ) → slot_of d.nfa v.start t slot ≡ slot_value (started_at v.start t) slot }
{}

/// The run that a search tells, of either kind, ends in the span, its pattern is there, and each place that it leaves in a slot
/// lies in the span.
pub fn what_is_found_lies_in_the_span()
    ensures end { (d : Dfa) (v : InputValue) → IsInRange d.nfa → (t : Trace) → run_in d v ≡ Some t → (v.start ≤ t.end) × (t.end ≤ v.end) }
    ensures pattern { (d : Dfa) (v : InputValue) → IsInRange d.nfa → (t : Trace) → run_in d v ≡ Some t → t.pattern < length d.nfa.starts }
    ensures places { (d : Dfa) (v : InputValue) → IsInRange d.nfa → (t : Trace) → run_in d v ≡ Some t
        → (slot place : ℕ) → slot_of d.nfa v.start t slot ≡ Some place → (v.start ≤ place) × (place ≤ v.end) }
{}

/// Where an NFA is always start anchored, no match begins behind the start of the text: so a search that is not anchored finds
/// what an anchored one finds.
pub fn a_search_that_is_always_anchored_is_an_anchored_one()
    ensures { (config : Config) (hs : List Expression) (nfa : Nfa) → IsCompiled config hs nfa → nfa.always_start_anchored ≡ true
        → (utf8_empty : Bool) (text : List ℕ) (b a : ℕ)
        → next_match (patterns_of hs utf8_empty (terminator_of config) (captures_of config)) text anchored b a
        ≡ next_match (patterns_of hs utf8_empty (terminator_of config) (captures_of config)) text free b a }
{}
