//! What an expression keeps of itself: its lengths, its groups, its look-arounds, and whether it is UTF-8 or a
//! literal.
ghost use Rattle.std.specs.Prelude.{◌≡◌, ◌≢◌, ℕ, ◌<◌, List, Bool, Option, Some, None, length};
ghost use Rattle.rx_model.specs.Expression.{Expression, Expressions, empty, literal, class, look, repetition, capture, concat, alternation, nil, cons};
ghost use Rattle.rx_model.specs.Text.{scalar_ranges, byte_ranges};
ghost use Rattle.rx_search.specs.Look.{kind_of};
ghost use Rattle.rx_class.specs.Ranges.{AreScalarRanges, AreByteRanges};
ghost use Rattle.rx_hir.specs.Normal.{expressions, fail};
ghost use Rattle.rx_hir.specs.PropertiesViews.{AreOf, AreOfEach, AreSimple};

use super::parts::{
    checked_product, checked_sum, common, greater, groups_in_copies, is_utf8, lesser,
    looks_of_copies, looks_past, one_more, saturating_product, saturating_sum,
};
use rx_search::{Look, LookSet};

/// What is known of an expression, or of patterns, without a look at the parts. Each answer was found when the
/// expression was made.
#[derive(Clone, Copy, Debug, PartialEq, Eq)]
pub struct Properties {
    minimum_len: Option<usize>,
    maximum_len: Option<usize>,
    static_explicit_captures_len: Option<usize>,
    explicit_captures_len: usize,
    look_set: LookSet,
    look_set_prefix: LookSet,
    look_set_suffix: LookSet,
    is_utf8: bool,
    is_literal: bool,
    is_alternation_literal: bool,
}

impl Properties {
    /// The least length in bytes of what the expression matches, or the greatest `usize` where it is above.
    /// None: no bound is known.
    pub fn minimum_len(&self) -> Option<usize>
        ensures { result ≡ self.now.minimum_len }
    {
        self.minimum_len
    }

    /// The greatest length in bytes of what the expression matches. None: no bound is known, or it is above
    /// the greatest `usize`.
    pub fn maximum_len(&self) -> Option<usize>
        ensures { result ≡ self.now.maximum_len }
    {
        self.maximum_len
    }

    /// How many capture groups take part in a match, where it is the same number in each; the greatest `usize`
    /// where it is above. The group of the whole match is not counted.
    pub fn static_explicit_captures_len(&self) -> Option<usize>
        ensures { result ≡ self.now.static_explicit_captures_len }
    {
        self.static_explicit_captures_len
    }

    /// How many capture groups stand in the expression, or the greatest `usize` where they are more. The group
    /// of the whole match is not counted.
    pub fn explicit_captures_len(&self) -> usize
        ensures { result ≡ self.now.explicit_captures_len }
    {
        self.explicit_captures_len
    }

    /// The kinds of look-around that stand in the expression.
    pub fn look_set(&self) -> LookSet
        ensures { result ≡ self.now.look_set }
    {
        self.look_set
    }

    /// Kinds of look-around that hold where a match starts.
    pub fn look_set_prefix(&self) -> LookSet
        ensures { result ≡ self.now.look_set_prefix }
    {
        self.look_set_prefix
    }

    /// Kinds of look-around that hold where a match ends.
    pub fn look_set_suffix(&self) -> LookSet
        ensures { result ≡ self.now.look_set_suffix }
    {
        self.look_set_suffix
    }

    /// Whether each literal is UTF-8 and no byte class has a member above 7F, so that each match is UTF-8.
    pub fn is_utf8(&self) -> bool
        ensures { result ≡ self.now.is_utf8 }
    {
        self.is_utf8
    }

    /// Whether the expression is a literal.
    pub fn is_literal(&self) -> bool
        ensures { result ≡ self.now.is_literal }
    {
        self.is_literal
    }

    /// Whether the expression is a literal, or an alternation of literals.
    pub fn is_alternation_literal(&self) -> bool
        ensures { result ≡ self.now.is_alternation_literal }
    {
        self.is_alternation_literal
    }

    /// What the properties are accounted for in memory, in bytes.
    pub fn memory_usage(&self) -> usize
        ensures { result ≡ 64 }
    {
        64
    }

    /// The properties of patterns together, which are those of an alternation of them.
    pub fn union(patterns: &[Properties]) -> Properties
        ensures { (hs : List Expression) → AreOfEach hs patterns.now → AreOf (alternation (expressions hs)) result }
    {
        let mut i = patterns.len();
        if i == 0 {
            return Properties::of_no_choice();
        }
        i -= 1;
        let last = patterns[i];
        let mut union = last.alone();
        while i > 0 {
            i -= 1;
            let pattern = patterns[i];
            union = pattern.or(union);
        }
        union
    }

    /// Of the empty expression, and of no parts in a row.
    pub(crate) fn of_empty() -> Properties
        ensures one { AreOf empty result }
        ensures row { AreOf (concat nil) result }
    {
        Properties::simple(Some(0), Some(0), true)
    }

    /// Of what nothing matches.
    pub(crate) fn of_fail() -> Properties
        ensures { AreOf fail result }
    {
        Properties::simple(None, None, true)
    }

    /// Of no alternatives.
    fn of_no_choice() -> Properties
        ensures { AreOf (alternation nil) result }
    {
        Properties {
            static_explicit_captures_len: None,
            is_alternation_literal: true,
            ..Properties::simple(None, None, true)
        }
    }

    /// Of a literal.
    pub(crate) fn of_literal(bytes: &[u8]) -> Properties
        ensures { AreOf (literal bytes.now) result }
    {
        let len = Some(bytes.len());
        Properties {
            is_literal: true,
            is_alternation_literal: true,
            ..Properties::simple(len, len, is_utf8(bytes))
        }
    }

    /// Of a look-around.
    pub(crate) fn of_look(kind: Look) -> Properties
        ensures { AreOf (look (kind_of kind)) result }
    {
        let look_set = LookSet::empty().insert(kind);
        Properties {
            look_set,
            look_set_prefix: look_set,
            look_set_suffix: look_set,
            ..Properties::simple(Some(0), Some(0), true)
        }
    }

    /// Of a class of scalars, in fewest ranges.
    pub(crate) fn of_scalars(ranges: &[(char, char)]) -> Properties
        requires some { 0 < length ranges.now }
        requires fewest { AreScalarRanges ranges.now }
        ensures { AreOf (class (scalar_ranges ranges.now)) result }
    {
        let (first, _) = ranges[0];
        let (_, last) = ranges[ranges.len() - 1];
        Properties::simple(Some(first.len_utf8()), Some(last.len_utf8()), true)
    }

    /// Of a class of bytes, in fewest ranges.
    pub(crate) fn of_bytes(ranges: &[(u8, u8)]) -> Properties
        requires some { 0 < length ranges.now }
        requires fewest { AreByteRanges ranges.now }
        ensures { AreOf (class (byte_ranges ranges.now)) result }
    {
        let (_, last) = ranges[ranges.len() - 1];
        Properties::simple(Some(1), Some(1), last < 0x80)
    }

    /// Of copies.
    pub(crate) fn repeated(self, min: u32, max: Option<u32>) -> Properties
        requires { max ≢ Some 0 }
        ensures { (h : Expression) (greedy : Bool) → AreOf h self → AreOf (repetition min max greedy h) result }
    {
        Properties {
            minimum_len: saturating_product(self.minimum_len, min),
            maximum_len: checked_product(self.maximum_len, max),
            static_explicit_captures_len: groups_in_copies(min, self.static_explicit_captures_len),
            look_set_prefix: looks_of_copies(min, self.look_set_prefix),
            look_set_suffix: looks_of_copies(min, self.look_set_suffix),
            is_literal: false,
            is_alternation_literal: false,
            ..self
        }
    }

    /// Of a capture group.
    pub(crate) fn captured(self) -> Properties
        ensures { (h : Expression) (group : ℕ) (name : Option (List ℕ)) → AreOf h self → AreOf (capture group name h) result }
    {
        Properties {
            static_explicit_captures_len: one_more(self.static_explicit_captures_len),
            explicit_captures_len: self.explicit_captures_len.saturating_add(1),
            is_literal: false,
            is_alternation_literal: false,
            ..self
        }
    }

    /// Of this and then the parts of a concatenation.
    pub(crate) fn then(self, parts: Properties) -> Properties
        ensures { (h : Expression) (hs : Expressions) → AreOf h self → AreOf (concat hs) parts → AreOf (concat (cons h hs)) result }
    {
        Properties {
            minimum_len: saturating_sum(self.minimum_len, parts.minimum_len),
            maximum_len: checked_sum(self.maximum_len, parts.maximum_len),
            static_explicit_captures_len: saturating_sum(
                self.static_explicit_captures_len,
                parts.static_explicit_captures_len,
            ),
            explicit_captures_len: self
                .explicit_captures_len
                .saturating_add(parts.explicit_captures_len),
            look_set: self.look_set.union(parts.look_set),
            look_set_prefix: looks_past(
                self.look_set_prefix,
                self.maximum_len,
                parts.look_set_prefix,
            ),
            look_set_suffix: looks_past(
                parts.look_set_suffix,
                parts.maximum_len,
                self.look_set_suffix,
            ),
            is_utf8: self.is_utf8 && parts.is_utf8,
            is_literal: false,
            is_alternation_literal: false,
        }
    }

    /// Of this as the only alternative.
    pub(crate) fn alone(self) -> Properties
        ensures { (h : Expression) → AreOf h self → AreOf (alternation (cons h nil)) result }
    {
        Properties {
            is_literal: false,
            is_alternation_literal: self.is_literal,
            ..self
        }
    }

    /// Of this or else one of the alternatives of an alternation.
    pub(crate) fn or(self, others: Properties) -> Properties
        ensures { (h next : Expression) (hs : Expressions) → AreOf h self → AreOf (alternation (cons next hs)) others
            → AreOf (alternation (cons h (cons next hs))) result }
    {
        Properties {
            minimum_len: lesser(self.minimum_len, others.minimum_len),
            maximum_len: greater(self.maximum_len, others.maximum_len),
            static_explicit_captures_len: common(
                self.static_explicit_captures_len,
                others.static_explicit_captures_len,
            ),
            explicit_captures_len: self
                .explicit_captures_len
                .saturating_add(others.explicit_captures_len),
            look_set: self.look_set.union(others.look_set),
            look_set_prefix: self.look_set_prefix.intersect(others.look_set_prefix),
            look_set_suffix: self.look_set_suffix.intersect(others.look_set_suffix),
            is_utf8: self.is_utf8 && others.is_utf8,
            is_literal: false,
            is_alternation_literal: self.is_literal && others.is_alternation_literal,
        }
    }

    fn simple(minimum_len: Option<usize>, maximum_len: Option<usize>, is_utf8: bool) -> Properties
        ensures { AreSimple minimum_len maximum_len is_utf8 result }
    {
        Properties {
            minimum_len,
            maximum_len,
            static_explicit_captures_len: Some(0),
            explicit_captures_len: 0,
            look_set: LookSet::empty(),
            look_set_prefix: LookSet::empty(),
            look_set_suffix: LookSet::empty(),
            is_utf8,
            is_literal: false,
            is_alternation_literal: false,
        }
    }
}
