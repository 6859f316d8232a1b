//! Laws of properties and of names.
ghost use Rattle.std.specs.Prelude.{◌≡◌, ℕ, ◌+◌, ◌-◌, ◌≤◌, true, false, Bool, List, take, drop, Option, Some, IfSome, IsUtf8};
ghost use Rattle.rx_model.specs.Expression.{Expression, literal, class, repetition, concat, alternation, AreOrdered};
ghost use Rattle.rx_model.specs.Length.{minimum_len};
ghost use Rattle.rx_model.specs.Look.{Look, holds};
ghost use Rattle.rx_model.specs.Meaning.{Means};
ghost use Rattle.rx_search.specs.GroupInfo.{has_duplicate};
ghost use Rattle.rx_model.specs.Text.{Class, scalar_ranges, byte_ranges};
ghost use Rattle.rx_class.specs.Ranges.{AreScalarRanges, HaveScalarEnds, is_ascii};
ghost use Rattle.rx_hir.specs.Length.{maximum_len, saturated, in_64_bits};
ghost use Rattle.rx_hir.specs.Names.{IsNamed, IsNamedAmong, HasOneNameEach, name_in, group_names};
ghost use Rattle.rx_hir.specs.Normal.{expressions, literal_of, class_of, repetition_of, concat_of, alternation_of, MeanTheSame};
ghost use Rattle.rx_hir.specs.Properties.{looks_first, looks_last, is_utf8, are_utf8};
ghost use Rattle.rx_hir.specs.Sound.{IsSound};

/// What an expression means is as long as `minimum_len` says at least, and at most as long as `maximum_len`
/// says, where they are known.
pub fn lengths_bound_the_meaning()
    ensures least { (t : ℕ) (text : List ℕ) (h : Expression) (n : ℕ) → saturated (minimum_len h) ≡ Some n
        → (i j : ℕ) → Means t text h i j → i + n ≤ j }
    ensures greatest { (t : ℕ) (text : List ℕ) (h : Expression) (n : ℕ) → in_64_bits (maximum_len h) ≡ Some n
        → (i j : ℕ) → Means t text h i j → j ≤ i + n }
{}

/// The counts in a `Hir` are in order, so that the laws of rx_model that ask for it hold of each: `Hir::kind`
/// says that it is sound.
pub fn sound_expressions_are_ordered()
    ensures { (h : Expression) → IsSound h → AreOrdered h }
{}

/// A kind that is in the prefix set of an expression holds wherever a match of it starts, and one that is in the
/// suffix set holds wherever it ends.
pub fn look_sets_hold_at_the_ends()
    ensures first { (t : ℕ) (text : List ℕ) (h : Expression) (kind : Look) → looks_first kind h ≡ true
        → (i j : ℕ) → Means t text h i j → holds t text kind i ≡ true }
    ensures last { (t : ℕ) (text : List ℕ) (h : Expression) (kind : Look) → looks_last kind h ≡ true
        → (i j : ℕ) → Means t text h i j → holds t text kind j ≡ true }
{}

/// Whatever an expression that is UTF-8 means is UTF-8.
pub fn utf8_expressions_mean_utf8()
    ensures { (t : ℕ) (text : List ℕ) (h : Expression) → is_utf8 h ≡ true
        → (i j : ℕ) → Means t text h i j → IsUtf8 (take (j - i) (drop i text)) }
{}

/// The normal form of parts that are UTF-8 is UTF-8, and so are those of a text, of a class of scalars, and of a class of
/// bytes without one above 7F.
pub fn normal_forms_keep_utf8()
    ensures literals { (bytes : List ℕ) → IsUtf8 bytes → is_utf8 (literal_of bytes) ≡ true }
    ensures scalars { (rs : List (ℕ × ℕ)) → HaveScalarEnds rs → is_utf8 (class_of (scalar_ranges rs)) ≡ true }
    ensures bytes { (rs : List (ℕ × ℕ)) → is_ascii rs ≡ true → is_utf8 (class_of (byte_ranges rs)) ≡ true }
    ensures copies { (least : ℕ) (greatest : Option ℕ) (greedy : Bool) (h : Expression) → is_utf8 h ≡ true
        → is_utf8 (repetition_of least greatest greedy h) ≡ true }
    ensures rows { (hs : List Expression) → are_utf8 (expressions hs) ≡ true → is_utf8 (concat_of hs) ≡ true }
    ensures choices { (hs : List Expression) → are_utf8 (expressions hs) ≡ true → is_utf8 (alternation_of hs) ≡ true }
{}

/// A name that is told of a group stands at its number. Where each number has one name or none, and no name has two
/// numbers, each name that stands is told, and no name is told twice.
pub fn told_names_stand()
    ensures stands { (h : Expression) (g : ℕ) (name : List ℕ) → name_in g h ≡ Some name → IsNamed g (Some name) h }
    ensures told { (h : Expression) → HasOneNameEach h → (g : ℕ) (name : List ℕ) → IsNamed g (Some name) h → name_in g h ≡ Some name }
    ensures once { (h : Expression) → HasOneNameEach h → has_duplicate (group_names h) ≡ false }
{}

/// The normal form that a constructor gives means just what the expression of its parts does.
pub fn normal_forms_keep_the_meaning()
    ensures literals { (t : ℕ) (text bytes : List ℕ) → MeanTheSame t text (literal_of bytes) (literal bytes) }
    ensures scalars { (t : ℕ) (text : List ℕ) (rs : List (ℕ × ℕ)) → AreScalarRanges rs
        → MeanTheSame t text (class_of (scalar_ranges rs)) (class (scalar_ranges rs)) }
    ensures bytes { (t : ℕ) (text : List ℕ) (rs : List (ℕ × ℕ)) → MeanTheSame t text (class_of (byte_ranges rs)) (class (byte_ranges rs)) }
    ensures copies { (t : ℕ) (text : List ℕ) (least : ℕ) (greatest : Option ℕ) (greedy : Bool) (h : Expression) → IfSome greatest (λ m. least ≤ m)
        → MeanTheSame t text (repetition_of least greatest greedy h) (repetition least greatest greedy h) }
    ensures rows { (t : ℕ) (text : List ℕ) (hs : List Expression) → MeanTheSame t text (concat_of hs) (concat (expressions hs)) }
    ensures choices { (t : ℕ) (text : List ℕ) (hs : List Expression) → MeanTheSame t text (alternation_of hs) (alternation (expressions hs)) }
{}

/// A name in the normal form that a constructor gives is one of the parts.
pub fn normal_forms_add_no_names()
    ensures literals { (g : ℕ) (name : Option (List ℕ)) (bytes : List ℕ) → IsNamed g name (literal_of bytes) → ⊥ }
    ensures classes { (g : ℕ) (name : Option (List ℕ)) (members : Class) → IsNamed g name (class_of members) → ⊥ }
    ensures copies { (g : ℕ) (name : Option (List ℕ)) (least : ℕ) (greatest : Option ℕ) (greedy : Bool) (h : Expression)
        → IsNamed g name (repetition_of least greatest greedy h) → IsNamed g name h }
    ensures rows { (g : ℕ) (name : Option (List ℕ)) (hs : List Expression) → IsNamed g name (concat_of hs) → IsNamedAmong g name (expressions hs) }
    ensures choices { (g : ℕ) (name : Option (List ℕ)) (hs : List Expression) → IsNamed g name (alternation_of hs) → IsNamedAmong g name (expressions hs) }
{}
