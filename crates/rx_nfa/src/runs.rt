//! Laws of the steps and the runs of an NFA.

ghost use Rattle.std.specs.Prelude.{◌≡◌, ℕ, ◌+◌, ◌-◌, ◌<◌, ◌≤◌, ◌↔◌, Bool, true, List, length, map, Some, IsTrue, is_some, slice_get, slice_index};
ghost use Rattle.rx_model.specs.Expression.{Expression, AreOrdered};
ghost use Rattle.rx_model.specs.Look.{Look, byte_before, holds};
ghost use Rattle.rx_model.specs.Meaning.{Means};
ghost use Rattle.rx_model.specs.Runs.{sieved, ending_at, for_pattern, first_trace};
ghost use Rattle.rx_model.specs.Search.{Patterns};
ghost use Rattle.rx_nfa.specs.Automaton.{at, go_on, target_of, byte_at, byte_within, Surroundings, backwards, onward, state_at, asks_for, automaton, automaton_over};
ghost use Rattle.rx_nfa.specs.Nfa.{Nfa, HasRuns, HasFirstRuns};
ghost use Rattle.rx_nfa.specs.Row.{reading};
ghost use Rattle.rx_nfa.specs.declared.state.Transition.{Transition};
ghost use Rattle.rx_nfa.specs.declared.state.State.{State};

/// Where each pattern may be accepted at each place, the runs that an NFA has are its first runs.
pub fn what_has_the_runs_has_the_first_runs()
    ensures { (nfa : Nfa) (r : Patterns) → HasRuns nfa r → HasFirstRuns nfa r }
{}

/// Where acceptance is permitted at one place alone, the start of a pattern has a run exactly where the
/// expression means the span that ends there.
pub fn the_runs_of_one_span_are_meant()
    ensures { (nfa : Nfa) (r : Patterns) → HasRuns nfa r → (text : List ℕ) (end p i j : ℕ) (h : Expression)
        → end ≤ length text → j ≤ end → slice_get r.expressions p ≡ Some h → AreOrdered h
        → IsTrue (is_some (first_trace (sieved (ending_at j) (automaton nfa.terminator nfa.states text end)) (at (slice_index nfa.starts p) i)))
        ↔ Means r.terminator text h i j }
{}

/// Where one pattern alone may be accepted, the common start has the runs that the pattern's own start has.
pub fn the_common_start_has_the_runs_of_each_pattern()
    ensures { (nfa : Nfa) (r : Patterns) → HasRuns nfa r → (text : List ℕ) (end p i : ℕ) (h : Expression)
        → end ≤ length text → slice_get r.expressions p ≡ Some h → (may : ℕ → Bool)
        → first_trace (sieved (for_pattern p may) (automaton nfa.terminator nfa.states text end)) (at nfa.start_anchored i)
        ≡ first_trace (sieved (for_pattern p may) (automaton nfa.terminator nfa.states text end)) (at (slice_index nfa.starts p) i) }
{}

/// A state that can only read a byte goes on to the state that the byte at its place leads to, one place further on,
/// and nowhere else: whichever way a text is read, and in a text that is read forwards.
pub fn a_byte_leads_to_its_target()
    ensures over { (around : Surroundings) (states : List State) (end q i : ℕ) (ts : List Transition) → reading (state_at states q) ≡ Some ts
        → (automaton_over around states end).successors (at q i) ≡ go_on (target_of ts (byte_within around.byte end i)) (i + 1) }
    ensures forwards { (terminator : ℕ) (states : List State) (text : List ℕ) (end q i : ℕ) (ts : List Transition) → reading (state_at states q) ≡ Some ts
        → (automaton terminator states text end).successors (at q i) ≡ go_on (target_of ts (byte_at text end i)) (i + 1) }
{}

/// Where a step of a state leads, and whether the state accepts, depends on the byte at the place and on which of the
/// look-arounds that the state asks for hold there, and on nothing else: neither on the text, nor on the place, nor on
/// the way that the text is read.
pub fn a_step_depends_on_the_byte_and_the_look_arounds()
    ensures leads { (here there : Surroundings) (states : List State) (end last q i j : ℕ) → i ≤ end → j ≤ last
        → byte_within here.byte end i ≡ byte_within there.byte last j
        → ((kind : Look) → asks_for kind (state_at states q) ≡ true → here.looks kind i ≡ there.looks kind j)
        → map (onward i) ((automaton_over here states end).successors (at q i)) ≡ map (onward j) ((automaton_over there states last).successors (at q j)) }
    ensures accepts { (here there : Surroundings) (states : List State) (end last q i j : ℕ) → i ≤ end → j ≤ last
        → (automaton_over here states end).accepted (at q i) ≡ (automaton_over there states last).accepted (at q j) }
{}

/// A text that is read backwards is met from its end. At each place, which is a distance from the end, the byte that is
/// read is the one before it in the text, and the look-arounds are those that hold there.
pub fn a_text_read_backwards_is_met_from_its_end()
    ensures byte { (terminator : ℕ) (text : List ℕ) (place : ℕ) → place < length text
        → byte_before text (length text - place) ≡ Some ((backwards terminator text).byte place) }
    ensures looks { (terminator : ℕ) (text : List ℕ) (kind : Look) (place : ℕ)
        → (backwards terminator text).looks kind place ≡ holds terminator text kind (length text - place) }
{}
