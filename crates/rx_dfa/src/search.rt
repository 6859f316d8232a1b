//! The searches of a DFA, each once for every automaton.

mod both;
mod course;
mod forward;
mod overlapping;
pub(crate) mod parts;
mod prefiltered;
mod progress;
mod reverse;
mod stop;

pub use both::{try_search, try_search_start};
pub use forward::try_search_half_fwd;
pub use overlapping::try_which_overlapping;
pub use prefiltered::try_search_half_fwd_by;
pub use reverse::try_search_half_rev;
