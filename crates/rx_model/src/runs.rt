//! Laws of the runs of a priority graph.

ghost use Rattle.std.specs.Prelude.{◌≡◌, ℕ, ◌≤◌, Bool, List, Some, None, option_map, IsTrue, IsFalse};
ghost use Rattle.rx_model.specs.Runs.{Configuration, PriorityGraph, Passed, Sieve, everywhere, sieved, IsBounded, NeverFalls, IsClosed, IsRun, IsFirst, nowhere, and_at, first_run, Trace, trace, first_trace, found};
ghost use Rattle.rx_model.specs.Expression.{Expression};
ghost use Rattle.rx_model.specs.Graph.{at};
ghost use Rattle.rx_model.specs.Matches.{part_of, runs_of_pattern};
ghost use Rattle.rx_model.specs.Search.{Patterns, told, none, first, first_where, first_of_patterns, first_of_patterns_where};
ghost use Rattle.rx_model.specs.Refinement.{Refines, moved, AgreesButForWrites};

/// The search in order of preference finds the least accepting run, that one alone, and none only where
/// there is none.
pub fn the_first_run_is_least()
    ensures least { (g : PriorityGraph) → IsBounded g → (c : Configuration) (run : List Configuration)
        → first_run g c ≡ Some run → IsFirst g nowhere c run }
    ensures only { (g : PriorityGraph) → IsBounded g → (c : Configuration) (run : List Configuration)
        → IsFirst g nowhere c run → first_run g c ≡ Some run }
    ensures none { (g : PriorityGraph) → IsBounded g → (c : Configuration)
        → first_run g c ≡ None → (run : List Configuration) → IsRun g nowhere c run → ⊥ }
{}

/// What the first run of a pattern tells is what the least accepting run of its graph tells, and there is none only
/// where the graph has no accepting run. Where acceptance is permitted only so, the sieved graph takes its place.
pub fn the_first_run_of_a_pattern_is_least()
    ensures some { (r : Patterns) (text : List ℕ) (end p : ℕ) (h : Expression) (i : ℕ) (t : Trace)
        → first r text end p h i ≡ Some t → (run : List Configuration)
        × IsFirst (runs_of_pattern r text end p h) nowhere (at (part_of r p h).start i) run
        × (t ≡ trace (runs_of_pattern r text end p h) (at (part_of r p h).start i) run) }
    ensures only { (r : Patterns) (text : List ℕ) (end p : ℕ) (h : Expression) (i : ℕ) (run : List Configuration)
        → IsFirst (runs_of_pattern r text end p h) nowhere (at (part_of r p h).start i) run
        → first r text end p h i ≡ Some (trace (runs_of_pattern r text end p h) (at (part_of r p h).start i) run) }
    ensures none { (r : Patterns) (text : List ℕ) (end p : ℕ) (h : Expression) (i : ℕ)
        → first r text end p h i ≡ None → (run : List Configuration)
        → IsRun (runs_of_pattern r text end p h) nowhere (at (part_of r p h).start i) run → ⊥ }
    ensures some_where { (ok : Sieve) (r : Patterns) (text : List ℕ) (end p : ℕ) (h : Expression) (i : ℕ) (t : Trace)
        → first_where ok r text end p h i ≡ Some t → (run : List Configuration)
        × IsFirst (sieved ok (runs_of_pattern r text end p h)) nowhere (at (part_of r p h).start i) run
        × (t ≡ trace (sieved ok (runs_of_pattern r text end p h)) (at (part_of r p h).start i) run) }
    ensures only_where { (ok : Sieve) (r : Patterns) (text : List ℕ) (end p : ℕ) (h : Expression) (i : ℕ) (run : List Configuration)
        → IsFirst (sieved ok (runs_of_pattern r text end p h)) nowhere (at (part_of r p h).start i) run
        → first_where ok r text end p h i ≡ Some (trace (sieved ok (runs_of_pattern r text end p h)) (at (part_of r p h).start i) run) }
    ensures none_where { (ok : Sieve) (r : Patterns) (text : List ℕ) (end p : ℕ) (h : Expression) (i : ℕ)
        → first_where ok r text end p h i ≡ None → (run : List Configuration)
        → IsRun (sieved ok (runs_of_pattern r text end p h)) nowhere (at (part_of r p h).start i) run → ⊥ }
{}

/// What was passed in vain may count as passed: where nothing is found from `x`, no other answer changes.
/// Nor does it matter what was passed before the present place.
pub fn dead_ends_may_count_as_passed()
    ensures pruned { (g : PriorityGraph) (passed : Passed) (x : Configuration) → found g passed x ≡ None
        → (c : Configuration) → found g (and_at x passed) c ≡ found g passed c }
    ensures behind { (g : PriorityGraph) → NeverFalls g → (p q : Passed) (c : Configuration)
        → ((d : Configuration) → c.place ≤ d.place → p d ≡ q d) → found g p c ≡ found g q c }
{}

/// What cannot be reached may count as passed: only what was passed in the states that the present one can
/// lead to matters.
pub fn the_unreachable_may_count_as_passed()
    ensures alike { (g : PriorityGraph) (reached : ℕ → Bool) → IsClosed g (λ q. IsTrue (reached q))
        → (p q : Passed) → ((d : Configuration) → IsTrue (reached d.state) → p d ≡ q d)
        → (c : Configuration) → IsTrue (reached c.state) → found g p c ≡ found g q c }
    ensures outside { (g : PriorityGraph) (reached : ℕ → Bool) → IsClosed g (λ q. IsTrue (reached q))
        → (u : Configuration) → IsFalse (reached u.state)
        → (passed : Passed) (c : Configuration) → IsTrue (reached c.state) → found g (and_at u passed) c ≡ found g passed c }
{}

/// A graph that refines another has the same first runs, with pattern, end and slots, wherever acceptance
/// is permitted: the sieved graphs are a refinement too.
pub fn refined_graphs_have_equal_first_runs()
    ensures runs { (g m : PriorityGraph) → IsBounded g → IsBounded m → (image : ℕ → ℕ) (live : ℕ → Bool)
        → Refines g m image (λ q. IsTrue (live q)) → (ok : Sieve) (c : Configuration) → IsTrue (live c.state)
        → first_trace (sieved ok m) (moved image c) ≡ first_trace (sieved ok g) c }
    ensures sieved { (g m : PriorityGraph) → IsBounded g → IsBounded m → (image : ℕ → ℕ) (live : ℕ → Bool)
        → Refines g m image (λ q. IsTrue (live q)) → (ok : Sieve)
        → Refines (sieved ok g) (sieved ok m) image (λ q. IsTrue (live q)) }
{}

/// Where each pattern may be accepted at each place, the first runs are those of the graph.
pub fn the_sieve_that_lets_all_through_changes_no_run()
    ensures graph { (g : PriorityGraph) (c : Configuration) → first_trace (sieved everywhere g) c ≡ first_trace g c }
    ensures pattern { (r : Patterns) (text : List ℕ) (end p : ℕ) (h : Expression) (i : ℕ)
        → first_where everywhere r text end p h i ≡ first r text end p h i }
    ensures patterns { (r : Patterns) (text : List ℕ) (end p : ℕ) (hs : List Expression) (i : ℕ)
        → first_of_patterns_where everywhere r text end p hs i ≡ first_of_patterns r text end p hs i }
{}

/// What a graph writes has no part in which run is first: graphs that agree but for their writes have the
/// same first runs, with pattern and end.
pub fn writes_choose_no_run()
    ensures { (g m : PriorityGraph) → AgreesButForWrites g m → (passed : Passed) (c : Configuration)
        → option_map (told none) (found m passed c) ≡ option_map (told none) (found g passed c) }
{}
