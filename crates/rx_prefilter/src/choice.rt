//! The kinds of search that a prefilter may be.
ghost use Rattle.std.specs.Prelude.{◌≡◌, map};
ghost use Rattle.std.specs.List.{list_all, list_any};
ghost use Rattle.std.specs.Vec.{vec_items};

/// The kinds of search that a prefilter may be.
#[derive(Clone, Copy, Debug, PartialEq, Eq)]
pub enum Choice {
    /// One needle of one byte.
    Memchr,
    /// Two needles of one byte.
    Memchr2,
    /// Three needles of one byte.
    Memchr3,
    /// One needle.
    Memmem,
    /// Two to 64 needles of at least two bytes.
    Multi,
    /// Needles of one byte.
    ByteSet,
    /// Any needles that are not empty.
    AhoCorasick,
}

impl Choice {
    ghost use Rattle.rx_prefilter.specs.Choices.{name_of};

    /// The name of the kind.
    #[tactic(auto, unfolding(crate::specs::Choices::name_of))]
    pub fn name(&self) -> &'static str
        ensures { result.now ≡ name_of self.now }
    {
        match self {
            Choice::Memchr => "memchr",
            Choice::Memchr2 => "memchr2",
            Choice::Memchr3 => "memchr3",
            Choice::Memmem => "memmem",
            Choice::Multi => "multi",
            Choice::ByteSet => "byteset",
            Choice::AhoCorasick => "aho-corasick",
        }
    }
}
