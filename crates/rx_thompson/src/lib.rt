//! From patterns to automata.
//!
//! A `Compiler` takes patterns, or expressions, to the `NFA` that rx_nfa makes of them. Its contract says what the
//! patterns read as, and that the NFA has the first runs of these expressions; or it names the first refusal, of the
//! grammar or of a limit. It stands on rx_syntax and rx_nfa.
#![tactic(auto)]

mod compiler;
mod error;
mod limits;

pub use compiler::Compiler;
pub use error::BuildError;
pub use limits::read_within;
pub use rx_nfa::{
    Alternates, Config, NFA, PATTERN_LIMIT, State, Transition, Transitions, WhichCaptures,
    matches_byte,
};
