//! Laws of what a pattern reads as.
ghost use Rattle.std.specs.Prelude.{◌≡◌, ℕ, ◌-◌, ◌≤◌, true, false, List, take, drop, Option, Some, Ok, slice_get, chars, IsUtf8};
ghost use Rattle.std.specs.List.{All, list_any};
ghost use lib.Utf8.{encodes, scalars};
ghost use Rattle.rx_model.specs.Expression.{Expression, AreOrdered};
ghost use Rattle.rx_model.specs.Meaning.{Means};
ghost use Rattle.rx_model.specs.Search.{Patterns};
ghost use Rattle.rx_model.specs.Utf8.{MeansUtf8};
ghost use Rattle.rx_search.specs.GroupInfo.{has_duplicate};
ghost use Rattle.rx_hir.specs.Names.{IsNamed, HasOneNameEach, group_names};
ghost use Rattle.rx_hir.specs.Normal.{literal_of};
ghost use Rattle.rx_reader.specs.declared.config.Config.{Config};
ghost use Rattle.rx_hir.specs.Properties.{is_utf8};
ghost use Rattle.rx_reader.specs.Config.{flags_of, utf8_of};
ghost use Rattle.rx_reader.specs.Plain.{is_meta, escaped_text, has_skipped};
ghost use Rattle.rx_syntax.specs.Pattern.{reads};
ghost use Rattle.rx_syntax.specs.Patterns.{each_read, all_read};

/// In the expression of a pattern each group has a number from 1 on and one name or none, and each name is that of one
/// number. So each name that stands in it is told at its number, and no name is told twice.
pub fn each_group_of_a_pattern_has_one_name()
    ensures numbers { (config : Config) (text : List ℕ) (h : Expression) → reads config text ≡ Ok h
        → (g : ℕ) (name : Option (List ℕ)) → IsNamed g name h → 1 ≤ g }
    ensures names { (config : Config) (text : List ℕ) (h : Expression) → reads config text ≡ Ok h → HasOneNameEach h }
    ensures told { (config : Config) (text : List ℕ) (h : Expression) → reads config text ≡ Ok h
        → (g : ℕ) (name : List ℕ) → IsNamed g (Some name) h → slice_get (group_names h) g ≡ Some (Some name) }
    ensures once { (config : Config) (text : List ℕ) (h : Expression) → reads config text ≡ Ok h → has_duplicate (group_names h) ≡ false }
{}

/// A text in which each character that can mean something else stands after a backslash is the literal of its
/// characters, and so is a text without such characters: under each configuration whose patterns begin with the flag `i`
/// off, as long as the flag `x` doesn't skip white space that stands in the text.
pub fn escaped_text_means_itself()
    ensures escaped { (config : Config) (cs : List ℕ) → (flags_of config).case_insensitive ≡ false → has_skipped (flags_of config) cs ≡ false
        → reads config (escaped_text cs) ≡ Ok (literal_of (encodes cs)) }
    ensures plain { (config : Config) (cs : List ℕ) → (flags_of config).case_insensitive ≡ false → has_skipped (flags_of config) cs ≡ false
        → list_any is_meta cs ≡ false → reads config cs ≡ Ok (literal_of (encodes cs)) }
{}

/// Under `utf8` the expression that a pattern of scalars reads as is UTF-8, and so is whatever it means: where the pattern
/// is a text in UTF-8, and of each pattern of a list. So the patterns of a list mean UTF-8 in each text that is UTF-8,
/// whatever ends lines, wherever matches may start and whichever groups are told.
pub fn patterns_read_under_utf8_mean_utf8()
    ensures property { (config : Config) (pattern : List ℕ) (h : Expression) → utf8_of config ≡ true → scalars pattern ≡ true
        → reads config pattern ≡ Ok h → is_utf8 h ≡ true }
    ensures meaning { (config : Config) (pattern : List ℕ) (h : Expression) → utf8_of config ≡ true → scalars pattern ≡ true
        → reads config pattern ≡ Ok h → (t : ℕ) (text : List ℕ) (i j : ℕ) → Means t text h i j → IsUtf8 (take (j - i) (drop i text)) }
    ensures parsed { (config : Config) (pattern : List ℕ) (h : Expression) → utf8_of config ≡ true → IsUtf8 pattern
        → reads config (chars pattern) ≡ Ok h → is_utf8 h ≡ true }
    ensures each { (config : Config) (patterns : List (List ℕ)) (hs : List Expression) → utf8_of config ≡ true → All IsUtf8 patterns
        → each_read config patterns ≡ Ok hs → All (λ h. is_utf8 h ≡ true) hs }
    ensures all { (config : Config) (patterns : List (List ℕ)) (hs : List Expression) → utf8_of config ≡ true → All IsUtf8 patterns
        → all_read config patterns ≡ Ok hs → All (λ h. is_utf8 h ≡ true) hs }
    ensures patterns { (config : Config) (patterns : List (List ℕ)) (r : Patterns) (text : List ℕ) → utf8_of config ≡ true → All IsUtf8 patterns
        → all_read config patterns ≡ Ok r.expressions → IsUtf8 text → MeansUtf8 r text }
{}

/// In the expression of a pattern the counts of each repetition are in order.
pub fn the_counts_of_a_pattern_are_in_order()
    ensures one { (config : Config) (text : List ℕ) (h : Expression) → reads config text ≡ Ok h → AreOrdered h }
    ensures each { (config : Config) (patterns : List (List ℕ)) (hs : List Expression) → each_read config patterns ≡ Ok hs → All AreOrdered hs }
    ensures all { (config : Config) (patterns : List (List ℕ)) (hs : List Expression) → all_read config patterns ≡ Ok hs → All AreOrdered hs }
{}
