//! Prefixes or suffixes.

/// The end of a match at which its literals lie.
#[derive(Clone, Copy)]
pub enum Side {
    /// Where the match begins.
    Front,
    /// Where the match ends.
    Back,
}
