//! Laws of classes: which members they have.
ghost use Rattle.std.specs.Prelude.{◌≡◌, ◌↔◌, ◌<◌, ◌≤◌, ℕ, not, ◌||◌, ◌++◌, IsTrue, List};
ghost use Rattle.std.specs.Char.{IsScalar};
ghost use Rattle.rx_model.specs.Text.{is_member};
ghost use Rattle.rx_class.specs.Bytes.{byte_complement, byte_folded, other_case};
ghost use Rattle.rx_class.specs.Folding.{folded, SharesFolding};
ghost use Rattle.rx_class.specs.Ranges.{next_scalar, next_byte, fewest, union, is_ascii, HaveScalarEnds, AreScalarRanges, AreByteRanges};
ghost use Rattle.rx_class.specs.Scalars.{complement};

/// A class holds exactly the members of the ranges that it was made of, in fewest ranges, and no other list of
/// fewest ranges holds them.
pub fn fewest_ranges_hold_the_members()
    ensures scalars { (rs : List (ℕ × ℕ)) → HaveScalarEnds rs → (c : ℕ) → IsScalar c
        → is_member (fewest next_scalar rs) c ≡ is_member rs c }
    ensures scalar_ranges { (rs : List (ℕ × ℕ)) → HaveScalarEnds rs → AreScalarRanges (fewest next_scalar rs) }
    ensures one_list_of_scalars { (qs rs : List (ℕ × ℕ)) → AreScalarRanges qs → AreScalarRanges rs
        → ((c : ℕ) → IsScalar c → is_member qs c ≡ is_member rs c) → qs ≡ rs }
    ensures bytes { (rs : List (ℕ × ℕ)) (b : ℕ) → is_member (fewest next_byte rs) b ≡ is_member rs b }
    ensures byte_ranges { (rs : List (ℕ × ℕ)) → AreByteRanges (fewest next_byte rs) }
    ensures one_list_of_bytes { (qs rs : List (ℕ × ℕ)) → AreByteRanges qs → AreByteRanges rs
        → ((b : ℕ) → is_member qs b ≡ is_member rs b) → qs ≡ rs }
{}

/// The union of two classes holds exactly the members of one or the other, in fewest ranges.
pub fn union_holds_the_members()
    ensures scalars { (xs ys : List (ℕ × ℕ)) → HaveScalarEnds xs → HaveScalarEnds ys → (c : ℕ) → IsScalar c
        → is_member (union next_scalar xs ys) c ≡ (is_member xs c || is_member ys c) }
    ensures scalar_ranges { (xs ys : List (ℕ × ℕ)) → HaveScalarEnds xs → HaveScalarEnds ys
        → AreScalarRanges (union next_scalar xs ys) }
    ensures bytes { (xs ys : List (ℕ × ℕ)) (b : ℕ) → is_member (union next_byte xs ys) b ≡ (is_member xs b || is_member ys b) }
    ensures byte_ranges { (xs ys : List (ℕ × ℕ)) → AreByteRanges (union next_byte xs ys) }
{}

/// The ranges that were gathered so far may be merged at any time: the class of all ranges stays the same. And a class
/// whose members are already there changes nothing, also after further ranges.
pub fn ranges_may_be_merged_early()
    ensures scalars { (xs ys : List (ℕ × ℕ)) → HaveScalarEnds xs → HaveScalarEnds ys
        → fewest next_scalar (fewest next_scalar xs ++ ys) ≡ fewest next_scalar (xs ++ ys) }
    ensures bytes { (xs ys : List (ℕ × ℕ)) → fewest next_byte (fewest next_byte xs ++ ys) ≡ fewest next_byte (xs ++ ys) }
    ensures held { (xs ys zs : List (ℕ × ℕ)) → HaveScalarEnds xs → HaveScalarEnds ys → HaveScalarEnds zs
        → union next_scalar xs ys ≡ xs → union next_scalar (union next_scalar xs zs) ys ≡ union next_scalar xs zs }
    ensures twice { (xs ys : List (ℕ × ℕ)) → HaveScalarEnds xs → HaveScalarEnds ys
        → union next_scalar (union next_scalar xs ys) ys ≡ union next_scalar xs ys }
{}

/// The complement of a class holds exactly what the class doesn't hold, in fewest ranges: among the scalars, or
/// among the 256 bytes.
pub fn complement_holds_the_rest()
    ensures scalars { (rs : List (ℕ × ℕ)) → AreScalarRanges rs → (c : ℕ) → IsScalar c
        → is_member (complement rs) c ≡ not (is_member rs c) }
    ensures scalar_ranges { (rs : List (ℕ × ℕ)) → AreScalarRanges rs → AreScalarRanges (complement rs) }
    ensures bytes { (rs : List (ℕ × ℕ)) → AreByteRanges rs → (b : ℕ) → b < 256
        → is_member (byte_complement rs) b ≡ not (is_member rs b) }
    ensures byte_ranges { (rs : List (ℕ × ℕ)) → AreByteRanges rs → AreByteRanges (byte_complement rs) }
{}

/// Folding gives exactly the scalars that share a simple case folding with a member, in fewest ranges; among
/// bytes the members and the other case of the ASCII letters among them.
pub fn folding_holds_the_orbits()
    ensures scalars { (rs : List (ℕ × ℕ)) → HaveScalarEnds rs → (c : ℕ) → IsScalar c
        → IsTrue (is_member (folded rs) c) ↔ SharesFolding rs c }
    ensures scalar_ranges { (rs : List (ℕ × ℕ)) → HaveScalarEnds rs → AreScalarRanges (folded rs) }
    ensures bytes { (rs : List (ℕ × ℕ)) (b : ℕ) → is_member (byte_folded rs) b ≡ (is_member rs b || is_member rs (other_case b)) }
    ensures byte_ranges { (rs : List (ℕ × ℕ)) → AreByteRanges (byte_folded rs) }
{}

/// A class whose ranges all end by 7F is one whose members all lie up to 7F.
pub fn ascii_classes_have_ascii_members()
    ensures scalars { (rs : List (ℕ × ℕ)) → AreScalarRanges rs
        → IsTrue (is_ascii rs) ↔ ((c : ℕ) → IsTrue (is_member rs c) → c ≤ 0x7F) }
    ensures bytes { (rs : List (ℕ × ℕ)) → AreByteRanges rs
        → IsTrue (is_ascii rs) ↔ ((b : ℕ) → IsTrue (is_member rs b) → b ≤ 0x7F) }
{}
