//! The engines, and the calls that they are asked for.

/// An engine.
#[derive(Clone, Copy, PartialEq, Eq)]
pub enum Engine {
    /// The full DFA, forwards and backwards.
    Dense,
    /// Lazy DFAs, forwards and backwards.
    Lazy,
    /// The PikeVM.
    PikeVM,
    /// The bounded backtracker.
    Backtrack,
    /// The one-pass DFA.
    OnePass,
    /// The strategy of a regex.
    Core,
}

impl Engine {
    /// The engine of this name.
    pub fn of(name: &str) -> Option<Engine> {
        match name {
            "dense" => Some(Engine::Dense),
            "lazy" => Some(Engine::Lazy),
            "pikevm" => Some(Engine::PikeVM),
            "backtrack" => Some(Engine::Backtrack),
            "onepass" => Some(Engine::OnePass),
            "core" => Some(Engine::Core),
            _ => None,
        }
    }
}

/// What an engine is asked for.
#[derive(Clone, Copy, PartialEq, Eq)]
pub enum Call {
    /// The end of the next match, or under `All` the last end: `5 of 0`, where 0 is the pattern.
    End,
    /// The start of a match that ends where the span ends, by a search backwards.
    Start,
    /// The next match: `3..5 of 0`.
    Span,
    /// The successive matches: `0:3..5 0:6..7`.
    Matches,
    /// Whether there is a match: `yes` or `no`.
    Test,
    /// The next match's pattern, and the spans of its groups: `0: 3..5 - 4..5`.
    Slots,
    /// The next match's pattern, and what stands in each slot: `0: 3 5 -`.
    Places,
    /// The patterns that have a match: `0 2`.
    Set,
    /// The bytes that are accounted for a cache; of a lazy DFA before a search for an end, what that tells, and those after it.
    Memory,
    /// The bytes of a full DFA's table or of a one-pass DFA's, or those that are accounted for a strategy.
    Size,
}

impl Call {
    /// The call of this name.
    pub fn of(name: &str) -> Option<Call> {
        match name {
            "end" => Some(Call::End),
            "start" => Some(Call::Start),
            "span" => Some(Call::Span),
            "matches" => Some(Call::Matches),
            "test" => Some(Call::Test),
            "slots" => Some(Call::Slots),
            "places" => Some(Call::Places),
            "set" => Some(Call::Set),
            "memory" => Some(Call::Memory),
            "size" => Some(Call::Size),
            _ => None,
        }
    }
}
