//! What is known of look-around at a place.

pub(crate) mod tell;

/// The bytes beside a place, by which it is told whether a look-around holds there.
#[derive(Clone, Copy)]
pub enum Beside {
    /// They are not known, and so of no look-around it is known that it holds.
    Unknown,
    /// These bytes. Where there is none, the text starts or ends.
    Known {
        before: Option<u8>,
        after: Option<u8>,
    },
}
