//! Identifiers of patterns and states.
ghost use Rattle.std.specs.Prelude.{◌≡◌, ◌≤◌, ◌<◌, IfSome, IfNone, MatchOption};
ghost use Rattle.rx_search.specs.Limits.{id_limit};

use std::marker::Model;

/// The greatest number that an identifier has.
const GREATEST: u32 = 2147483646;

/// The number of a pattern, at most 2147483646. Patterns are numbered from 0, in the order in which
/// they were given.
#[derive(Clone, Copy, Debug, PartialEq, Eq, PartialOrd, Ord, Hash)]
pub struct PatternID {
    id: u32,
}

impl Model for PatternID {
    ghost use Rattle.std.specs.Prelude.{ℕ, ◌<◌};
    ghost use Rattle.rx_search.specs.Limits.{id_limit};

    ghost Value = { ℕ };

    ghost view = { λ p. p.id };

    ghost invariant = { λ p. p.id < id_limit };

    ghost inverse = { λ n. record { id = n } };
}

impl PatternID {
    /// The first pattern.
    pub const ZERO: PatternID = PatternID { id: 0 };

    /// The greatest number of a pattern.
    pub const MAX: PatternID = PatternID { id: GREATEST };

    /// How many patterns there can be: one more than the greatest number.
    pub const LIMIT: usize = GREATEST as usize + 1;

    /// The identifier of this number; None exactly above 2147483646.
    pub fn new(value: usize) -> Option<PatternID>
        ensures { MatchOption result (id_limit ≤ value) (λ p. (p ≡ value) × (value < id_limit)) }
    {
        if value < PatternID::LIMIT {
            Some(PatternID { id: value as u32 })
        } else {
            None
        }
    }

    /// The number.
    pub fn as_usize(self) -> usize
        ensures value { result ≡ self }
        ensures limit { result < id_limit }
    {
        self.id as usize
    }
}

/// The number of a state of an automaton, at most 2147483646.
#[derive(Clone, Copy, Debug, PartialEq, Eq, PartialOrd, Ord, Hash)]
pub struct StateID {
    id: u32,
}

impl Model for StateID {
    ghost use Rattle.std.specs.Prelude.{ℕ, ◌<◌};
    ghost use Rattle.rx_search.specs.Limits.{id_limit};

    ghost Value = { ℕ };

    ghost view = { λ p. p.id };

    ghost invariant = { λ p. p.id < id_limit };

    ghost inverse = { λ n. record { id = n } };
}

impl StateID {
    /// The first state.
    pub const ZERO: StateID = StateID { id: 0 };

    /// The greatest number of a state.
    pub const MAX: StateID = StateID { id: GREATEST };

    /// How many states there can be: one more than the greatest number.
    pub const LIMIT: usize = GREATEST as usize + 1;

    /// The identifier of this number; None exactly above 2147483646.
    pub fn new(value: usize) -> Option<StateID>
        ensures { MatchOption result (id_limit ≤ value) (λ p. (p ≡ value) × (value < id_limit)) }
    {
        if value < StateID::LIMIT {
            Some(StateID { id: value as u32 })
        } else {
            None
        }
    }

    /// The number.
    pub fn as_usize(self) -> usize
        ensures value { result ≡ self }
        ensures limit { result < id_limit }
    {
        self.id as usize
    }
}

/// A place, which is any number but the greatest `usize`.
#[derive(Clone, Copy, Debug, PartialEq, Eq, PartialOrd, Ord, Hash)]
pub struct NonMaxUsize {
    value: usize,
}

impl Model for NonMaxUsize {
    ghost use Rattle.std.specs.Prelude.{ℕ, ◌<◌, ◌^◌, ◌-◌};

    ghost Value = { ℕ };

    ghost view = { λ p. p.value };

    ghost invariant = { λ p. p.value < 2 ^ 64 - 1 };

    ghost inverse = { λ n. record { value = n } };
}

impl NonMaxUsize {
    /// The place of this number; None exactly at the greatest `usize`.
    pub fn new(value: usize) -> Option<NonMaxUsize>
        ensures { MatchOption result (value ≡ usize.MAX) (λ p. (p ≡ value) × (value < usize.MAX)) }
    {
        if value < usize::MAX {
            Some(NonMaxUsize { value })
        } else {
            None
        }
    }

    /// The number.
    pub fn get(self) -> usize
        ensures value { result ≡ self }
        ensures limit { result < usize.MAX }
    {
        self.value
    }
}
