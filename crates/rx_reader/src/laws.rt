//! Laws of what a pattern reads as.
ghost use Rattle.std.specs.Prelude.{◌≡◌, ℕ, ◌≤◌, true, false, List, length, Option, Some, Ok};
ghost use Rattle.std.specs.Char.{IsScalar};
ghost use Rattle.std.specs.List.{list_any, range_with_len};
ghost use lib.Utf8.{scalars};
ghost use Rattle.rx_reader.specs.declared.config.Config.{Config};
ghost use Rattle.rx_reader.specs.Characters.{AllIn};
ghost use Rattle.rx_reader.specs.Config.{flags_of, limit_of};
ghost use Rattle.rx_reader.specs.Grammar.{read};
ghost use Rattle.rx_reader.specs.Groups.{IsGroup, group_numbers};
ghost use Rattle.rx_reader.specs.Plain.{is_meta, escaped_text, has_skipped, characters};
ghost use Rattle.rx_reader.specs.Printable.{bare, IsPattern};
ghost use Rattle.rx_reader.specs.Printed.{printed};
ghost use Rattle.rx_reader.specs.Syntax.{Syntax, depth};

/// The capturing groups of a pattern are numbered from 1 on in the order of their opening parentheses, each with a
/// number of its own and none left out. A number stands always with the same name, or always without one, and no name
/// stands at two numbers.
pub fn groups_are_numbered_and_named_apart()
    ensures numbers { (config : Config) (text : List ℕ) (s : Syntax) → read config text ≡ Ok s
        → (g : ℕ) (name : Option (List ℕ)) → IsGroup g name s → 1 ≤ g }
    ensures in_order { (config : Config) (text : List ℕ) (s : Syntax) → read config text ≡ Ok s
        → group_numbers s ≡ range_with_len 1 (length (group_numbers s)) }
    ensures no_gap { (config : Config) (text : List ℕ) (s : Syntax) → read config text ≡ Ok s
        → (g k : ℕ) (name : Option (List ℕ)) → IsGroup g name s → 1 ≤ k → k ≤ g → (other : Option (List ℕ)) × IsGroup k other s }
    ensures one_name { (config : Config) (text : List ℕ) (s : Syntax) → read config text ≡ Ok s
        → (g : ℕ) (m n : Option (List ℕ)) → IsGroup g m s → IsGroup g n s → m ≡ n }
    ensures one_number { (config : Config) (text : List ℕ) (s : Syntax) → read config text ≡ Ok s
        → (g k : ℕ) (name : List ℕ) → IsGroup g (Some name) s → IsGroup k (Some name) s → g ≡ k }
{}

// It is said without the productions (DECISIONS: the grammar's definition has laws in words of its subject).
/// A text in which each character that can mean something else stands after a backslash reads as its characters one
/// after another, and so does a text without such characters: under each configuration, as long as the flag `x` doesn't
/// skip white space that stands in the text.
pub fn escaped_text_reads_as_its_characters()
    ensures escaped { (config : Config) (cs : List ℕ) → has_skipped (flags_of config) cs ≡ false
        → read config (escaped_text cs) ≡ Ok (characters (flags_of config) cs) }
    ensures plain { (config : Config) (cs : List ℕ) → has_skipped (flags_of config) cs ≡ false → list_any is_meta cs ≡ false
        → read config cs ≡ Ok (characters (flags_of config) cs) }
{}

/// In a text of scalars, each character that is read is a scalar: those that stand for themselves, and those that an
/// escape writes by a number.
pub fn each_character_of_a_pattern_is_a_scalar()
    ensures { (config : Config) (text : List ℕ) (s : Syntax) → scalars text ≡ true → read config text ≡ Ok s → AllIn IsScalar s }
{}

// One law for all forms (DECISIONS: what the forms of the grammar read as is said by printing).
/// A syntax tree has a text that reads back as it, where no flag `x` skips anything and the depth is within the limit: a
/// character stands for itself, after a backslash if it means something else; items stand one after another, branches
/// between bars, groups in parentheses; and an operator comes after its item. So it is told what each of these reads as,
/// whatever printed text stands in it. What is read has its own pieces, and its groups are numbered in order.
pub fn printed_text_reads_back()
    ensures { (config : Config) (s : Syntax) → IsPattern (flags_of config) s → (flags_of config).ignore_whitespace ≡ false
        → depth s ≤ limit_of config
        → (t : Syntax) × (bare t ≡ bare s) × (read config (printed (flags_of config).swap_greed s) ≡ Ok t) }
{}
