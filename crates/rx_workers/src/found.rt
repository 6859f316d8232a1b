//! What a worker finds.

/// The answers to the works of some numbers, one after another.
#[derive(Drop)]
pub struct Found<V> {
    /// The first of them.
    pub index: usize,
    /// How many they are, which is at least one.
    pub count: usize,
    pub value: V,
}
