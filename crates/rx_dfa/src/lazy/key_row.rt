//! Where a key lies in an arena.

/// Where the lists of a key lie in the arena, and what else the key has.
#[derive(Clone, Copy, Drop)]
pub struct KeyRow {
    /// The key's threads begin here among those of all keys, and end there.
    pub threads: usize,
    pub threads_end: usize,
    /// The same of its matches.
    pub matches: usize,
    pub matches_end: usize,
    pub loops: bool,
    pub before: Option<u8>,
}
