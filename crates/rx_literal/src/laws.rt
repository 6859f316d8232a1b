//! Laws of the literals of an expression.

ghost use Rattle.std.specs.Prelude.{◌≡◌, ℕ, ◌+◌, List, length, Some, option_map, IsTrue};
ghost use Rattle.rx_model.specs.Expression.{Expression, AreOrdered};
ghost use Rattle.rx_model.specs.Meaning.{Means};
ghost use Rattle.rx_model.specs.Runs.{Trace};
ghost use Rattle.rx_model.specs.Search.{Patterns, first};
ghost use Rattle.rx_literal.specs.Literals.{Literal, Seq, finite, exact, inexact};
ghost use Rattle.rx_literal.specs.Extract.{prefixes, prefixes_of, suffixes};
ghost use Rattle.rx_literal.specs.Trim.{trimmed_by_preference, trimmed_for_all, longest_common_suffix};
ghost use Rattle.rx_literal.specs.First.{IsLookFree, all_exact, listed, first_literal, first_there};
ghost use Rattle.rx_literal.specs.Spans.{MeansSome, Begins, BeginsWith, Ends, OneIn, EndsWith, EachEndsWith};

/// Every span that an expression means begins with one of its prefixes, and is no more where that is exact; and
/// likewise of several patterns.
pub fn prefixes_begin_each_match()
    ensures one { (t : ℕ) (text : List ℕ) (h : Expression) (i j : ℕ) → Means t text h i j
        → OneIn (Begins text i j) (prefixes h) }
    ensures several { (t : ℕ) (text : List ℕ) (hs : List Expression) (i j : ℕ) → MeansSome t text hs i j
        → OneIn (Begins text i j) (prefixes_of hs) }
{}

/// Trimmed by preference, the prefixes still begin each match; where all are sought, one of them that is exact
/// is still the whole of it.
pub fn trimmed_prefixes_begin_each_match()
    ensures one { (t : ℕ) (text : List ℕ) (h : Expression) (i j : ℕ) → Means t text h i j
        → OneIn (BeginsWith text i j) (trimmed_by_preference (prefixes h)) }
    ensures several { (t : ℕ) (text : List ℕ) (hs : List Expression) (i j : ℕ) → MeansSome t text hs i j
        → OneIn (BeginsWith text i j) (trimmed_by_preference (prefixes_of hs)) }
    ensures one_of_all { (t : ℕ) (text : List ℕ) (h : Expression) (i j : ℕ) → Means t text h i j
        → OneIn (Begins text i j) (trimmed_for_all (prefixes h)) }
    ensures several_of_all { (t : ℕ) (text : List ℕ) (hs : List Expression) (i j : ℕ) → MeansSome t text hs i j
        → OneIn (Begins text i j) (trimmed_for_all (prefixes_of hs)) }
{}

/// Every span that an expression means ends with one of its suffixes, and with the longest that they have in
/// common.
pub fn suffixes_end_each_match()
    ensures one { (t : ℕ) (text : List ℕ) (h : Expression) (i j : ℕ) → Means t text h i j
        → OneIn (Ends text i j) (suffixes h) }
    ensures common { (t : ℕ) (text : List ℕ) (h : Expression) (s : List ℕ) → longest_common_suffix (suffixes h) ≡ Some s
        → (i j : ℕ) → Means t text h i j → Ends text i j (inexact s) }
{}

/// Of an expression without look-around an exact sequence of prefixes, untrimmed or trimmed by preference, gives
/// at each start the end of the first run by its first member that lies there, and no run where none lies there.
/// If the first prefix that lies there is exact, the first run ends with it, whatever the others are.
pub fn exact_prefixes_tell_the_first_run()
    ensures untrimmed { (r : Patterns) (text : List ℕ) (end p : ℕ) (h : Expression) → AreOrdered h → IsLookFree h
        → IsTrue (all_exact (prefixes h)) → (i : ℕ)
        → option_map (λ (t : Trace). t.end) (first r text end p h i) ≡ first_there text end i (listed (prefixes h)) }
    ensures trimmed { (r : Patterns) (text : List ℕ) (end p : ℕ) (h : Expression) → AreOrdered h → IsLookFree h
        → IsTrue (all_exact (trimmed_by_preference (prefixes h))) → (i : ℕ)
        → option_map (λ (t : Trace). t.end) (first r text end p h i) ≡ first_there text end i (listed (trimmed_by_preference (prefixes h))) }
    ensures first_one { (r : Patterns) (text : List ℕ) (end p : ℕ) (h : Expression) → AreOrdered h → IsLookFree h
        → (i : ℕ) (ls : List Literal) → prefixes h ≡ finite ls → (s : List ℕ) → first_literal text end i ls ≡ Some (exact s)
        → option_map (λ (t : Trace). t.end) (first r text end p h i) ≡ Some (i + length s) }
{}

/// An exact sequence that was trimmed by preference has the same first literal at each place as before.
pub fn trimming_keeps_the_first_literal()
    ensures { (ss : Seq) → IsTrue (all_exact (trimmed_by_preference ss)) → (text : List ℕ) (end i : ℕ)
        → first_literal text end i (listed (trimmed_by_preference ss)) ≡ first_literal text end i (listed ss) }
{}

/// The longest common suffix ends each literal, and each text that ends them all ends it.
pub fn the_common_suffix_is_the_longest()
    ensures ends { (ls : List Literal) (s : List ℕ) → longest_common_suffix (finite ls) ≡ Some s → EachEndsWith ls s }
    ensures longest { (ls : List Literal) (s : List ℕ) → longest_common_suffix (finite ls) ≡ Some s
        → (t : List ℕ) → EachEndsWith ls t → EndsWith s t }
{}
