//! The named sets of characters of a pattern: `\d`, `\s` and `\w`, `[:alpha:]` and its like, `\p{Greek}`, and
//! what may stand in the name of a group.
//!
//! A set of scalars is a `ClassUnicode`, which a contract sees as the fewest ranges of the scalars that pass a
//! test (`scalars_where`). The sets are those of `unicode`. It stands on rx_class.
#![tactic(auto)]

mod ascii;
mod capture;
mod members;
mod named;
mod perl;

pub use ascii::ClassAsciiKind;
pub use capture::is_capture_char;
pub use members::scalars_where_pass_the_test;
pub use named::{PropertySet, property};
pub use perl::ClassPerlKind;
