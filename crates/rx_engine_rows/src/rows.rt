//! What the tests of rows share.

use std::process::Abort;

/// Fails where a row is wrong, and tells its number, counted from 0.
pub(crate) fn all_right(rt: &impl Abort, first_wrong: Option<usize>) {
    assert_eq!(rt; first_wrong, None);
}
