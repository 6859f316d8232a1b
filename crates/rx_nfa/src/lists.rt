//! Laws of ordered lists of states: what a simulation keeps at each place. They hold of each graph that has the automaton's
//! steps: of the automaton, and of one that accepts less.

ghost use Rattle.std.specs.Prelude.{◌≡◌, ℕ, ◌+◌, ◌<◌, ◌≤◌, Bool, List, length, All, Option, Some, option_map};
ghost use Rattle.std.specs.Option.{option_or};
ghost use Rattle.rx_model.specs.Look as model;
ghost use Rattle.rx_model.specs.Runs.{PriorityGraph, nowhere};
ghost use Rattle.rx_model.specs.Search.{Anchor};
ghost use Rattle.rx_search.specs.Matches.{HalfMatchValue, half_match_value};
ghost use Rattle.rx_nfa.specs.Automaton.{NamesBelow, Surroundings};
ghost use Rattle.rx_nfa.specs.Nfa.{Nfa, IsInRange};
ghost use Rattle.rx_nfa.specs.NextMatch.{start_of, next_match_of};
ghost use Rattle.rx_nfa.specs.Ordered.{AreBelow, first_on, resting, threads_from, HoldsAt, targets, accepts_at, cut, match_here, HasSteps, first_of_starts, where_there, list_search, list_search_of};
ghost use Rattle.rx_nfa.specs.declared.state.State.{State};

// Engines share them (DECISIONS: ordered lists stand in rx_nfa).
/// The threads that begin in a list of states, by the closure at their place, have the first success of the list.
pub fn the_closure_keeps_the_first_success()
    ensures { (around : Surroundings) (states : List State) → All (NamesBelow (length states)) states
        → (end : ℕ) (g : PriorityGraph) → HasSteps around states end g
        → (holding : model.Look → Bool) (i : ℕ) → i ≤ end → HoldsAt around states holding i → (qs : List ℕ) → AreBelow (length states) qs
        → first_on g nowhere i (threads_from states holding qs) ≡ first_on g nowhere i qs }
{}

/// Over a byte, the first success of threads is that of the states that the byte leads to from those up to the first that
/// accepts, and then the match of that one; at the end it is the match of the first that accepts.
pub fn a_step_keeps_the_first_success()
    ensures byte { (around : Surroundings) (states : List State) (end : ℕ) (g : PriorityGraph) → HasSteps around states end g → (i : ℕ) → i < end
        → (qs : List ℕ)
        → first_on g nowhere i (resting states qs)
        ≡ option_or (first_on g nowhere (i + 1) (targets states (around.byte i) (cut (accepts_at g i) (resting states qs))))
        (match_here (accepts_at g i) i (resting states qs)) }
    ensures end { (around : Surroundings) (states : List State) (end : ℕ) (g : PriorityGraph) → HasSteps around states end g → (qs : List ℕ)
        → first_on g nowhere end (resting states qs) ≡ match_here (accepts_at g end) end (resting states qs) }
{}

/// A search by ordered lists answers the first success on the list, and then that of the starts to come, if they count, and
/// then the best match before. So from the start of an NFA's runs it answers the next match, anchored or not: its pattern and
/// its end.
pub fn the_first_success_on_the_list_and_then_later_starts()
    ensures list { (around : Surroundings) (states : List State) → All (NamesBelow (length states)) states
        → (end : ℕ) (g : PriorityGraph) → HasSteps around states end g
        → (may : ℕ → Bool) (start : ℕ) → start < length states → (n i : ℕ) → i + n ≡ end
        → (loops : Bool) (qs : List ℕ) → AreBelow (length states) qs → (best : Option HalfMatchValue)
        → list_search around states (accepts_at g) may start n i loops qs best
        ≡ option_or
        (option_or (first_on g nowhere i qs) (where_there loops (option_map half_match_value (first_of_starts g may start (n + 1) i nowhere))))
        best }
    ensures next { (nfa : Nfa) → IsInRange nfa → (utf8_empty : Bool) (text : List ℕ) (anchor : Anchor) (b a start : ℕ) → a ≤ b
        → start_of nfa anchor ≡ Some start
        → list_search_of nfa utf8_empty text anchor b a start ≡ option_map half_match_value (next_match_of nfa utf8_empty text anchor b a) }
{}
