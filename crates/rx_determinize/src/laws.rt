//! Laws of keys along the bytes of a span.

ghost use Rattle.std.specs.Prelude.{◌≡◌, ℕ, [], ◌-◌, ◌<◌, ◌≤◌, Bool, true, false, List, length, All, Option, Some, None, option_map, IfSome};
ghost use Rattle.rx_model.specs.Look.{Look, byte_before, byte_after};
ghost use Rattle.rx_model.specs.Beside.{IsTold};
ghost use Rattle.rx_model.specs.Runs.{PriorityGraph, nowhere};
ghost use Rattle.rx_model.specs.Search.{Anchor, free, anchored_to, is_permitted, Patterns, Match, next_match};
ghost use Rattle.rx_model.specs.Utf8.{MeansUtf8};
ghost use Rattle.rx_search.specs.Matches.{HalfMatchValue, half_match_value};
ghost use Rattle.rx_search.specs.LookSet.{has as has_look};
ghost use Rattle.rx_search.specs.declared.anchored.MatchKind.{MatchKind};
ghost use Rattle.rx_search.specs.declared.anchored.MatchKind.TheVariants.{All as AllMatches, LeftmostFirst};
ghost use Rattle.rx_nfa.specs.Automaton.{NamesBelow, Surroundings, forwards, backwards};
ghost use Rattle.rx_nfa.specs.ByteClasses.{AreOfOneClass};
ghost use Rattle.rx_nfa.specs.Nfa.{Nfa, IsInRange, HasRuns, HasReverseRuns};
ghost use Rattle.rx_nfa.specs.NextMatch.{start_of, next_match_of};
ghost use Rattle.rx_nfa.specs.Ordered.{AreBelow, HasSteps, first_on, has};
ghost use Rattle.rx_nfa.specs.declared.state.State.{State};
ghost use Rattle.rx_determinize.specs.Key.{Sight, Sees, Key, AreOnce, start_key, step_key, arrived};
ghost use Rattle.rx_determinize.specs.Sight.{class_beside, class_sight, AreClassesFor, AreTold, AreBytes};
ghost use Rattle.rx_determinize.specs.Span.{run_keys, run_from, told_at, loops_in, answer_of, SeesWhileAlive};
ghost use Rattle.rx_determinize.specs.Permitted.{KeepsCharacters, fresh, run_within, found_once, permitted_answer_of};
ghost use Rattle.rx_determinize.specs.Told.{HasRunTo, IsLast, IsLastWhere, MeansUpTo, IsLeastStart, IsLeastStartWhere, reverse_once, reverse_answer_of};

/// What stands for a list of states before the next byte is known has the first success of the list.
pub fn what_has_arrived_keeps_the_first_success()
    ensures { (around : Surroundings) (states : List State) → All (NamesBelow (length states)) states
        → (end : ℕ) (g : PriorityGraph) → HasSteps around states end g → (i : ℕ) → i ≤ end → (qs : List ℕ) → AreBelow (length states) qs
        → first_on g nowhere i (arrived states qs) ≡ first_on g nowhere i qs }
{}

/// Along the bytes of a span the keys find the next match, where it may start inside a character: its pattern and its end.
pub fn the_keys_find_the_next_match()
    ensures { (nfa : Nfa) → IsInRange nfa → (sight : Sight) (text : List ℕ) (b : ℕ) → b ≤ length text
        → (anchor : Anchor) (a : ℕ) (first : Option ℕ) → a ≤ b → Sees sight (forwards nfa.terminator text) (length text) nfa.states first b a
        → answer_of nfa sight text anchor first b a ≡ option_map half_match_value (next_match_of nfa false text anchor b a) }
{}

/// Under `All` the keys tell of a place the patterns that have a run which ends there, and no other.
pub fn the_keys_tell_every_match()
    ensures told { (around : Surroundings) (size : ℕ) (states : List State) → All (NamesBelow (length states)) states → (e start : ℕ) → start < length states
        → (sight : Sight) → e ≤ size → (pattern a : ℕ) (first : Option ℕ) → a ≤ e → Sees sight around size states first e a → (loops : Bool)
        → has (told_at AllMatches states start sight around size (e - a) a (start_key AllMatches states start loops first)) pattern ≡ true
        → HasRunTo around states start loops a pattern e }
    ensures every { (around : Surroundings) (size : ℕ) (states : List State) → All (NamesBelow (length states)) states → (e start : ℕ) → start < length states
        → (sight : Sight) → e ≤ size → (pattern a : ℕ) (first : Option ℕ) → a ≤ e → Sees sight around size states first e a → (loops : Bool)
        → HasRunTo around states start loops a pattern e
        → has (told_at AllMatches states start sight around size (e - a) a (start_key AllMatches states start loops first)) pattern ≡ true }
{}

/// Under `All` the keys along the bytes of a span find the last place in it at which a run ends, and the least pattern with a
/// run that ends there.
pub fn the_keys_find_the_last_match()
    ensures some { (around : Surroundings) (size : ℕ) (states : List State) → All (NamesBelow (length states)) states → (start : ℕ) → start < length states
        → (sight : Sight) (b a : ℕ) → a ≤ b → b ≤ size → (first : Option ℕ) → Sees sight around size states first b a → (loops : Bool) (h : HalfMatchValue)
        → run_from AllMatches states sight around size loops first b a (Some start) ≡ Some h → IsLast around states start loops b a h }
    ensures none { (around : Surroundings) (size : ℕ) (states : List State) → All (NamesBelow (length states)) states → (start : ℕ) → start < length states
        → (sight : Sight) (b a : ℕ) → a ≤ b → b ≤ size → (first : Option ℕ) → Sees sight around size states first b a → (loops : Bool)
        → run_from AllMatches states sight around size loops first b a (Some start) ≡ None
        → (pattern e : ℕ) → a ≤ e → e ≤ b → HasRunTo around states start loops a pattern e → ⊥ }
{}

/// From the end of a span the keys of an NFA that reads backwards find the least start in it of a part up to the end that a
/// pattern means, and the least pattern that means this part.
pub fn the_keys_find_the_least_start()
    ensures some { (nfa : Nfa) → IsInRange nfa → (r : Patterns) → HasReverseRuns nfa r → (sight : Sight) (text : List ℕ) (b a : ℕ) → a ≤ b → b ≤ length text
        → (anchor : Anchor) (last : Option ℕ) → Sees sight (backwards nfa.terminator text) (length text) nfa.states last (length text - a) (length text - b)
        → (h : HalfMatchValue) → reverse_answer_of nfa sight text anchor last b a ≡ Some h → IsLeastStart r text anchor b a h }
    ensures none { (nfa : Nfa) → IsInRange nfa → (r : Patterns) → HasReverseRuns nfa r → (sight : Sight) (text : List ℕ) (b a : ℕ) → a ≤ b → b ≤ length text
        → (anchor : Anchor) (last : Option ℕ) → Sees sight (backwards nfa.terminator text) (length text) nfa.states last (length text - a) (length text - b)
        → reverse_answer_of nfa sight text anchor last b a ≡ None
        → (pattern i : ℕ) → a ≤ i → i ≤ b → MeansUpTo r text anchor b pattern i → ⊥ }
{}

/// Where no match may start inside a character, and the text and what the patterns mean keep characters whole, the keys
/// find the next match too: a match that ends inside a character is not recorded, the threads that live go on, and an
/// unanchored search that recorded nothing begins again behind the first such end.
pub fn the_keys_find_the_next_match_between_characters()
    ensures { (nfa : Nfa) → IsInRange nfa → (sight : Sight) (text : List ℕ) (b : ℕ) → b ≤ length text
        → (anchor : Anchor) (a : ℕ) (first : Option ℕ) → a ≤ b → Sees sight (forwards nfa.terminator text) (length text) nfa.states first b a
        → ((q : ℕ) → start_of nfa anchor ≡ Some q → KeepsCharacters nfa.terminator nfa.states text b q)
        → permitted_answer_of nfa sight text anchor first b a ≡ option_map half_match_value (next_match_of nfa true text anchor b a) }
{}

/// The sight by classes of bytes tells of each look-around that the NFA asks for whether it holds, in a span in which the bytes
/// beside each place tell it: of a text that is read forwards, and of one that is read backwards.
pub fn the_sight_by_classes_tells_of_look_around()
    ensures forwards { (nfa : Nfa) → IsInRange nfa → (keeps : Bool) (classes bytes : List ℕ) → AreClassesFor nfa keeps classes bytes
        → (text : List ℕ) → AreBytes text → (b a : ℕ) → a ≤ b → b ≤ length text → AreTold nfa text b a
        → Sees (class_sight nfa.terminator false keeps classes bytes) (forwards nfa.terminator text) (length text) nfa.states
        (class_beside keeps classes bytes (byte_before text a)) b a }
    ensures backwards { (nfa : Nfa) → IsInRange nfa → (keeps : Bool) (classes bytes : List ℕ) → AreClassesFor nfa keeps classes bytes
        → (text : List ℕ) → AreBytes text → (b a : ℕ) → a ≤ b → b ≤ length text → AreTold nfa text b a
        → Sees (class_sight nfa.terminator true keeps classes bytes) (backwards nfa.terminator text) (length text) nfa.states
        (class_beside keeps classes bytes (byte_after text b))
        (length text - a) (length text - b) }
{}

/// Over two bytes of one class a key steps to the same key. Where the NFA asks for Unicode words, the byte is ASCII, and so is
/// the last one.
pub fn bytes_of_one_class_give_one_key()
    ensures { (nfa : Nfa) → IsInRange nfa → (keeps : Bool) (classes bytes : List ℕ) → AreClassesFor nfa keeps classes bytes
        → (b c : ℕ) → AreOfOneClass classes b c → (reverse : Bool) (kind : MatchKind) (start : ℕ) (k : Key) → IfSome k.before (λ x. x < 256)
        → ((look : Look) → has_look nfa.looks look ≡ true → IsTold look k.before (Some b))
        → step_key kind nfa.states start (class_sight nfa.terminator reverse keeps classes bytes) k b
        ≡ step_key kind nfa.states start (class_sight nfa.terminator reverse keeps classes bytes) k c }
{}

/// No state stands twice on the list of a key.
pub fn no_state_stands_twice()
    ensures start { (kind : MatchKind) (states : List State) (start : ℕ) (loops : Bool) (before : Option ℕ)
        → AreOnce (start_key kind states start loops before).threads }
    ensures step { (kind : MatchKind) (states : List State) (start : ℕ) (sight : Sight) (k : Key) (byte : ℕ)
        → AreOnce (step_key kind states start sight k byte).threads }
{}

/// A key without threads and without the loop steps to such a key, in which nothing matches, and along any bytes it meets
/// nothing more.
pub fn a_key_without_threads_meets_nothing_more()
    ensures step { (kind : MatchKind) (states : List State) (start : ℕ) (sight : Sight) (k : Key) → k.threads ≡ [] → k.loops ≡ false → (byte : ℕ)
        → step_key kind states start sight k byte ≡ record { threads = []; loops = false; matches = []; before = sight.class byte } }
    ensures run { (kind : MatchKind) (states : List State) (start : ℕ) (sight : Sight) (around : Surroundings) (size n i : ℕ) (k : Key) → k.threads ≡ []
        → k.loops ≡ false
        → (best : Option HalfMatchValue) → run_keys kind states start sight around size n i k best ≡ best }
{}

/// The walks of an NFA that has the runs of patterns that mean UTF-8 keep characters whole: the premise of
/// `the_keys_find_the_next_match_between_characters`.
pub fn patterns_that_mean_utf8_keep_characters()
    ensures { (nfa : Nfa) (r : Patterns) → HasRuns nfa r → (text : List ℕ) → MeansUtf8 r text → (end : ℕ) → end ≤ length text
        → (anchor : Anchor) (q : ℕ) → start_of nfa anchor ≡ Some q → KeepsCharacters nfa.terminator nfa.states text end q }
{}

/// From the end of the next match the keys of an NFA that reads backwards find its start, where they look for its pattern alone.
pub fn the_keys_find_the_start_of_the_next_match()
    ensures { (nfa : Nfa) → IsInRange nfa → (r : Patterns) → HasReverseRuns nfa r → (sight : Sight) (text : List ℕ) → MeansUtf8 r text → (b a : ℕ)
        → b ≤ length text
        → (m : Match) → next_match r text free b a ≡ Some m
        → (last : Option ℕ) → Sees sight (backwards nfa.terminator text) (length text) nfa.states last (length text - a) (length text - m.trace.end)
        → reverse_answer_of nfa sight text (anchored_to m.trace.pattern) last m.trace.end a ≡ Some (record { pattern = m.trace.pattern; offset = m.start }) }
{}

/// The sight has to tell of look-around only as long as the keys live: they find the next match also where they meet no more
/// match before they come to a place of which it tells nothing.
pub fn the_keys_find_the_next_match_while_they_live()
    ensures { (nfa : Nfa) → IsInRange nfa → (sight : Sight) (text : List ℕ) (b : ℕ) → b ≤ length text → (anchor : Anchor) (a : ℕ) (before : Option ℕ) → a ≤ b
        → (start : ℕ) → start_of nfa anchor ≡ Some start
        → SeesWhileAlive LeftmostFirst sight (forwards nfa.terminator text) (length text) nfa.states start
        (start_key LeftmostFirst nfa.states start (loops_in anchor) before) b a
        → answer_of nfa sight text anchor before b a ≡ option_map half_match_value (next_match_of nfa false text anchor b a) }
{}

/// One search of a span records the next match, or else the first end inside a character, behind which it is to begin again. The
/// sight has to tell of look-around only as long as the keys live.
pub fn one_search_finds_the_next_match_or_where_to_begin_again()
    ensures { (nfa : Nfa) → IsInRange nfa → (sight : Sight) (text : List ℕ) (b : ℕ) → b ≤ length text
        → (utf8 : Bool) (anchor : Anchor) (a : ℕ) (before : Option ℕ) → a ≤ b
        → (start : ℕ) → start_of nfa anchor ≡ Some start → (utf8 ≡ true → KeepsCharacters nfa.terminator nfa.states text b start)
        → SeesWhileAlive LeftmostFirst sight (forwards nfa.terminator text) (length text) nfa.states start
        (start_key LeftmostFirst nfa.states start (loops_in anchor) before) b a
        → option_map half_match_value (next_match_of nfa utf8 text anchor b a) ≡ found_once nfa sight utf8 text anchor start before b a }
{}

/// Under `All` one search of a span records the last place in it, of those at which a match may end, at which a run ends, and
/// the least pattern with a run that ends there.
pub fn one_search_finds_the_last_match()
    ensures some { (around : Surroundings) (size : ℕ) (states : List State) → All (NamesBelow (length states)) states → (start : ℕ) → start < length states
        → (sight : Sight) (may : ℕ → Bool) (b a : ℕ) → a ≤ b → b ≤ size → (before : Option ℕ) (loops : Bool)
        → SeesWhileAlive AllMatches sight around size states start (start_key AllMatches states start loops before) b a → (h : HalfMatchValue)
        → (run_within AllMatches states start sight around may size (b - a) a (start_key AllMatches states start loops before) fresh).best ≡ Some h
        → IsLastWhere may around states start loops b a h }
    ensures none { (around : Surroundings) (size : ℕ) (states : List State) → All (NamesBelow (length states)) states → (start : ℕ) → start < length states
        → (sight : Sight) (may : ℕ → Bool) (b a : ℕ) → a ≤ b → b ≤ size → (before : Option ℕ) (loops : Bool)
        → SeesWhileAlive AllMatches sight around size states start (start_key AllMatches states start loops before) b a
        → (run_within AllMatches states start sight around may size (b - a) a (start_key AllMatches states start loops before) fresh).best ≡ None
        → (pattern e : ℕ) → a ≤ e → e ≤ b → may e ≡ true → HasRunTo around states start loops a pattern e → ⊥ }
{}

/// One search from the end of a span records the least start in it, of those that are permitted, of a part up to the end that a
/// pattern means, and the least pattern that means this part.
pub fn one_search_finds_the_least_start()
    ensures some { (nfa : Nfa) → IsInRange nfa → (r : Patterns) → HasReverseRuns nfa r → (sight : Sight) (text : List ℕ) (b a : ℕ) → a ≤ b → b ≤ length text
        → (anchor : Anchor) (utf8 : Bool) (last : Option ℕ) (start : ℕ) → start_of nfa anchor ≡ Some start
        → SeesWhileAlive AllMatches sight (backwards nfa.terminator text) (length text) nfa.states start (start_key AllMatches nfa.states start false last)
        (length text - a) (length text - b)
        → (h : HalfMatchValue) → reverse_once nfa sight utf8 text start last b a ≡ Some h → IsLeastStartWhere r utf8 text anchor b a h }
    ensures none { (nfa : Nfa) → IsInRange nfa → (r : Patterns) → HasReverseRuns nfa r → (sight : Sight) (text : List ℕ) (b a : ℕ) → a ≤ b → b ≤ length text
        → (anchor : Anchor) (utf8 : Bool) (last : Option ℕ) (start : ℕ) → start_of nfa anchor ≡ Some start
        → SeesWhileAlive AllMatches sight (backwards nfa.terminator text) (length text) nfa.states start (start_key AllMatches nfa.states start false last)
        (length text - a) (length text - b)
        → reverse_once nfa sight utf8 text start last b a ≡ None
        → (pattern i : ℕ) → a ≤ i → i ≤ b → is_permitted utf8 text i ≡ true → MeansUpTo r text anchor b pattern i → ⊥ }
{}
