//! The gate of a scan.

/// Where a worker of a scan reports that it comes to a haystack. It holds a worker up in a test; it means
/// nothing, and no answer depends on it.
pub trait Gate {
    /// A worker is about to search the haystack of this index.
    fn reached(&self, index: usize);
}

/// The gate that holds no one up.
#[derive(Clone, Copy, Debug, PartialEq, Eq)]
pub struct Open;

impl Gate for Open {
    fn reached(&self, _index: usize) {}
}
