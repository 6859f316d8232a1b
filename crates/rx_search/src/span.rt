//! Spans of a haystack.
ghost use Rattle.std.specs.Prelude.{◌≡◌, ◌+◌, ◌-◌, ◌^◌, ◌<◌, ◌≤◌, ◌↔◌, IsTrue};

/// A part of a haystack, in byte offsets: from `start` on, and before `end`.
#[derive(Clone, Copy, Debug, PartialEq, Eq, Hash)]
pub struct Span {
    /// Where it begins.
    pub start: usize,
    /// The place after its last byte.
    pub end: usize,
}

impl Span {
    /// The number of bytes, which is 0 where the start is above the end.
    pub fn len(&self) -> usize
        ensures { result ≡ self.now.end - self.now.start }
    {
        self.end.saturating_sub(self.start)
    }

    /// Whether it has no byte.
    pub fn is_empty(&self) -> bool
        ensures { IsTrue result ↔ (self.now.end ≤ self.now.start) }
    {
        self.start >= self.end
    }

    /// Whether the byte at `offset` lies in it.
    pub fn contains(&self, offset: usize) -> bool
        ensures { IsTrue result ↔ ((self.now.start ≤ offset) × (offset < self.now.end)) }
    {
        self.start <= offset && offset < self.end
    }

    /// The span of the same length `by` bytes further on. Both of its ends must be numbers of a `usize`.
    pub fn offset(&self, by: usize) -> Span
        requires start { self.now.start + by < 2 ^ 64 }
        requires end { self.now.end + by < 2 ^ 64 }
        ensures start { result.start ≡ self.now.start + by }
        ensures end { result.end ≡ self.now.end + by }
    {
        Span {
            start: self.start + by,
            end: self.end + by,
        }
    }
}
