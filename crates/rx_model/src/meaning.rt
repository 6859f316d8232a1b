//! Laws of what an expression means.

ghost use Rattle.std.specs.Prelude.{◌≡◌, ℕ, ◌+◌, ◌<◌, ◌≤◌, ◌↔◌, List, take, drop, length, slice_index, Option, Some, None, true, IsTrue, IsFalse, encode_utf8};
ghost use Rattle.std.specs.Char.{IsScalar, len_utf8};
ghost use Rattle.rx_model.specs.Text.{scalar_ranges, byte_ranges, is_member, member_len};
ghost use Rattle.rx_model.specs.Empty.{can_be_empty};
ghost use Rattle.rx_model.specs.Length.{minimum_len, shortest_member};
ghost use Rattle.rx_model.specs.Runs.{Configuration, IsRun, nowhere, last_of, Trace, Sieve};
ghost use Rattle.rx_model.specs.Expression.{Expression, AreOrdered};
ghost use Rattle.rx_model.specs.Meaning.{Means};
ghost use Rattle.rx_model.specs.Graph.{at, build_pattern, runs_of};
ghost use Rattle.rx_model.specs.Search.{Patterns, first, first_where};

/// The accepting runs of a pattern's graph from a place end exactly where a part that the expression
/// means ends, within the end of the search.
pub fn runs_cover_the_meaning()
    ensures run { (t : ℕ) (text : List ℕ) (end : ℕ) (slot_of : ℕ → Option ℕ) (p : ℕ) (h : Expression)
        → AreOrdered h → (i : ℕ) (run : List Configuration)
        → IsRun (runs_of t text end (build_pattern slot_of p h).states) nowhere (at (build_pattern slot_of p h).start i) run
        → Means t text h i (last_of (at (build_pattern slot_of p h).start i) run).place }
    ensures meant { (t : ℕ) (text : List ℕ) (end : ℕ) (slot_of : ℕ → Option ℕ) (p : ℕ) (h : Expression)
        → AreOrdered h → (i j : ℕ) → j ≤ end → Means t text h i j
        → (run : List Configuration)
        × IsRun (runs_of t text end (build_pattern slot_of p h).states) nowhere (at (build_pattern slot_of p h).start i) run
        × ((last_of (at (build_pattern slot_of p h).start i) run).place ≡ j) }
{}

/// The first run of a pattern ends where the expression means a part of the text, within the span, and
/// there is none only where it means none.
pub fn the_first_run_is_meant()
    ensures some { (r : Patterns) (text : List ℕ) (end p : ℕ) (h : Expression) → AreOrdered h → (i : ℕ) (t : Trace)
        → first r text end p h i ≡ Some t → (t.pattern ≡ p) × (t.end ≤ end) × Means r.terminator text h i t.end }
    ensures none { (r : Patterns) (text : List ℕ) (end p : ℕ) (h : Expression) → AreOrdered h → (i : ℕ)
        → first r text end p h i ≡ None → (j : ℕ) → j ≤ end → Means r.terminator text h i j → ⊥ }
{}

/// Where acceptance is permitted only so, the first run of a pattern ends where that permits and the expression
/// means a part of the text, within the span, and there is none only where it means none that ends so.
pub fn the_first_permitted_run_is_meant()
    ensures some { (ok : Sieve) (r : Patterns) (text : List ℕ) (end p : ℕ) (h : Expression) → AreOrdered h → (i : ℕ) (t : Trace)
        → first_where ok r text end p h i ≡ Some t
        → (t.pattern ≡ p) × IsTrue (ok p t.end) × (t.end ≤ end) × Means r.terminator text h i t.end }
    ensures none { (ok : Sieve) (r : Patterns) (text : List ℕ) (end p : ℕ) (h : Expression) → AreOrdered h → (i : ℕ)
        → first_where ok r text end p h i ≡ None
        → (j : ℕ) → j ≤ end → IsTrue (ok p j) → Means r.terminator text h i j → ⊥ }
{}

/// What an expression means has at least its least length, where one is known.
pub fn the_least_length_is_a_lower_bound()
    ensures { (t : ℕ) (text : List ℕ) (h : Expression) (n : ℕ) → minimum_len h ≡ Some n
        → (i j : ℕ) → Means t text h i j → i + n ≤ j }
{}

/// An expression that means the empty string somewhere can be empty.
pub fn what_means_the_empty_string_can_be_empty()
    ensures { (t : ℕ) (text : List ℕ) (h : Expression) (i : ℕ) → Means t text h i i → can_be_empty h ≡ true }
{}

/// The least length of a class is that of the encoding of a member, and none only where it has no members.
pub fn the_least_length_of_a_class_is_met()
    ensures scalar { (ranges : List (ℕ × ℕ)) (n : ℕ) → shortest_member (scalar_ranges ranges) ≡ Some n
        → (c : ℕ) × IsTrue (is_member ranges c) × (IsScalar c × (len_utf8 c ≡ n)) }
    ensures no_scalar { (ranges : List (ℕ × ℕ)) → shortest_member (scalar_ranges ranges) ≡ None
        → (c : ℕ) → IsScalar c → IsFalse (is_member ranges c) }
    ensures byte { (ranges : List (ℕ × ℕ)) (n : ℕ) → shortest_member (byte_ranges ranges) ≡ Some n
        → (b : ℕ) × IsTrue (is_member ranges b) × (n ≡ 1) }
    ensures no_byte { (ranges : List (ℕ × ℕ)) → shortest_member (byte_ranges ranges) ≡ None
        → (b : ℕ) → IsFalse (is_member ranges b) }
{}

/// A class of scalars means the UTF-8 encodings of its members, and a class of bytes means each member by
/// itself.
pub fn a_class_means_its_members()
    ensures scalars { (text : List ℕ) (ranges : List (ℕ × ℕ)) (i n : ℕ)
        → (member_len text (scalar_ranges ranges) i ≡ Some n)
        ↔ ((c : ℕ) × IsScalar c × IsTrue (is_member ranges c) × (n ≡ len_utf8 c) × (take n (drop i text) ≡ encode_utf8 c)) }
    ensures bytes { (text : List ℕ) (ranges : List (ℕ × ℕ)) (i n : ℕ)
        → (member_len text (byte_ranges ranges) i ≡ Some n)
        ↔ ((n ≡ 1) × (i < length text) × IsTrue (is_member ranges (slice_index text i))) }
{}
