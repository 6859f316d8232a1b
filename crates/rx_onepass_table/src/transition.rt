//! A transition of the table, in one word.
ghost use Rattle.std.specs.Prelude.{◌≡◌, ◌+◌, ◌^◌, ◌<◌, ◌↔◌, IsTrue, false};
ghost use Rattle.rx_onepass_table.specs.Words.{Step, step_of, dead};

use crate::epsilons::Epsilons;
use std::marker::Model;

/// The bit that tells whether a match wins, and the first bit of the target.
const WINS_UNIT: u64 = 1 << 42;

const TARGET_UNIT: u64 = 1 << 43;

/// Where a byte leads, and what is told on the way: the target in bits 43 to 63, whether a match of the state is preferred in
/// bit 42, and what the walk tells in the bits below. A contract sees it as the record of these.
#[derive(Clone, Copy, PartialEq, Eq)]
pub struct Transition {
    word: u64,
}

impl Model for Transition {
    ghost use Rattle.std.specs.Prelude.{◌<◌, ◌^◌};
    ghost use Rattle.rx_onepass_table.specs.Words.{Step, step_of, word_of_step};

    ghost Value = { Step };

    ghost view = { λ t. step_of t.word };

    ghost inverse = { λ s. record { word = word_of_step s } };
}

impl Transition {
    /// To this target, over a walk that tells this.
    pub fn new(wins: bool, target: usize, epsilons: Epsilons) -> Transition
        requires target { target < 2 ^ 21 }
        requires looks { epsilons.looks < 2 ^ 10 }
        ensures { result ≡ record { target = target; wins = wins; slots = epsilons.slots; looks = epsilons.looks } }
    {
        let wins = if wins { WINS_UNIT } else { 0 };
        Transition {
            word: target as u64 * TARGET_UNIT + wins + epsilons.word(),
        }
    }

    /// The transition that stands in this word.
    #[inline(always)]
    pub fn of_word(word: u64) -> Transition
        ensures { result ≡ step_of word }
    {
        Transition { word }
    }

    /// Its word.
    #[inline(always)]
    pub fn word(self) -> u64
        ensures { step_of result ≡ self }
    {
        self.word
    }

    /// Whether it leads to the dead state.
    #[inline(always)]
    pub fn is_dead(self) -> bool
        ensures { IsTrue result ↔ (self.target ≡ dead) }
    {
        self.word < TARGET_UNIT
    }

    /// Whether it leads to this row, and tells nothing else.
    #[inline(always)]
    pub fn stays_in(self, row: usize) -> bool
        requires { row < 2 ^ 21 }
        ensures { IsTrue result → self ≡ record { target = row; wins = false; slots = 0; looks = 0 } }
    {
        self.word == row as u64 * TARGET_UNIT
    }

    /// The number of the row that it leads to.
    #[inline(always)]
    pub fn target(self) -> usize
        ensures { result ≡ self.target }
    {
        (self.word / TARGET_UNIT) as usize
    }

    /// Whether a match that the state tells is preferred.
    #[inline(always)]
    pub fn match_wins(self) -> bool
        ensures { result ≡ self.wins }
    {
        self.word / WINS_UNIT % 2 == 1
    }

    /// What is told on the way.
    #[inline(always)]
    pub fn epsilons(self) -> Epsilons
        ensures { result ≡ record { slots = self.slots; looks = self.looks } }
    {
        Epsilons::of_word(self.word)
    }
}
