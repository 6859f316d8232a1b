//! Groups.

use crate::text::Text;
use std::num::NonZeroUsize;

/// Whether a group captures, and how it is then called.
#[derive(Drop)]
pub enum GroupKind {
    /// `(?:..)`, or with flags before the `:`.
    NonCapturing,
    /// `(..)`, with its number, counted from 1 by the openings.
    CaptureIndex(NonZeroUsize),
    /// `(?P<name>..)` or `(?<name>..)`, with its number.
    CaptureName { index: NonZeroUsize, name: Text },
}
