//! From expressions to automata that read bytes.
//!
//! An `NFA` is a list of states. A priority graph gives it its meaning: the runs of its states over
//! the places of a text. The compiler's contract says that its first runs are those of the graphs
//! of the expressions, with pattern, end and slots, wherever acceptance is permitted. One that reads
//! backwards tells where the matches start that end at a place. It stands on rx_hir.
#![tactic(auto)]

mod backwards;
mod builder;
mod byte_classes;
mod class;
mod compiler;
mod error;
mod lists;
mod looks;
mod nfa;
mod prefixes;
mod runs;
mod sparse;
mod state;
mod threads;
mod walks;

pub use byte_classes::{
    a_look_around_depends_on_the_classes_of_the_bytes_beside_it,
    a_step_depends_on_the_class_of_the_byte, two_bytes_of_one_class_are_alike,
};
pub use class::the_states_read_the_class;
pub use compiler::{Compiler, Config, PATTERN_LIMIT, SLOT_LIMIT, STATE_LIMIT, WhichCaptures};
pub use error::BuildError;
pub use lists::{
    a_step_keeps_the_first_success, the_closure_keeps_the_first_success,
    the_first_success_on_the_list_and_then_later_starts,
};
pub use nfa::{NFA, STATE_SIZE};
pub use runs::{
    a_byte_leads_to_its_target, a_step_depends_on_the_byte_and_the_look_arounds,
    a_text_read_backwards_is_met_from_its_end, the_common_start_has_the_runs_of_each_pattern,
    the_runs_of_one_span_are_meant, what_has_the_runs_has_the_first_runs,
};
pub use sparse::matches_byte;
pub use state::{Alternates, State, Transition, Transitions};
pub use walks::a_walk_leads_to_a_state;
