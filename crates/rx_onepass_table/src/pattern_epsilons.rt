//! What a state tells of a match, in one word.
ghost use Rattle.std.specs.Prelude.{◌≡◌, ◌^◌, ◌<◌, None, Some};
ghost use Rattle.rx_onepass_table.specs.Words.{Final, final_of, no_pattern, no_match};

use crate::epsilons::Epsilons;
use rx_search::PatternID;
use std::marker::Model;

/// The most patterns: this number stands for no pattern.
pub const PATTERN_LIMIT: usize = 4194303;

/// The first bit of the pattern.
const PATTERN_UNIT: u64 = 1 << 42;

/// Which pattern matches at the place of a state, if one does, and what is told on the way to its match: the pattern in bits 42
/// to 63, and what the walk tells in the bits below. A contract sees it as the record of these.
#[derive(Clone, Copy, PartialEq, Eq)]
pub struct PatternEpsilons {
    word: u64,
}

impl Model for PatternEpsilons {
    ghost use Rattle.std.specs.Prelude.{◌<◌, ◌^◌};
    ghost use Rattle.rx_onepass_table.specs.Words.{Final, final_of, word_of_final};

    ghost Value = { Final };

    ghost view = { λ p. final_of p.word };

    ghost inverse = { λ f. record { word = word_of_final f } };
}

impl PatternEpsilons {
    /// No match.
    pub fn empty() -> PatternEpsilons
        ensures { result ≡ no_match }
    {
        PatternEpsilons {
            word: PATTERN_LIMIT as u64 * PATTERN_UNIT,
        }
    }

    /// A match of this pattern, over a walk that tells this.
    pub fn new(pattern: PatternID, epsilons: Epsilons) -> PatternEpsilons
        requires pattern { pattern < no_pattern }
        requires looks { epsilons.looks < 2 ^ 10 }
        ensures { result ≡ record { pattern = Some pattern; slots = epsilons.slots; looks = epsilons.looks } }
    {
        PatternEpsilons {
            word: pattern.as_usize() as u64 * PATTERN_UNIT + epsilons.word(),
        }
    }

    /// What stands in this word.
    #[inline(always)]
    pub fn of_word(word: u64) -> PatternEpsilons
        ensures { result ≡ final_of word }
    {
        PatternEpsilons { word }
    }

    /// Its word.
    #[inline(always)]
    pub fn word(self) -> u64
        ensures { final_of result ≡ self }
    {
        self.word
    }

    /// The pattern that matches; None where none does.
    #[inline(always)]
    pub fn pattern(self) -> Option<PatternID>
        ensures { result ≡ self.pattern }
    {
        let pattern = (self.word / PATTERN_UNIT) as usize;
        if pattern == PATTERN_LIMIT {
            return None;
        }
        PatternID::new(pattern)
    }

    /// What is told on the way to the match.
    #[inline(always)]
    pub fn epsilons(self) -> Epsilons
        ensures { result ≡ record { slots = self.slots; looks = self.looks } }
    {
        Epsilons::of_word(self.word)
    }
}
