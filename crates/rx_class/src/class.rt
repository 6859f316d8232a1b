//! Classes of scalars and of bytes.
ghost use Rattle.std.specs.Prelude.{◌≡◌, [], length, ◌==◌, IfOk};
ghost use Rattle.rx_class.specs.Ranges.{AreScalarRanges, AreByteRanges, only_member, is_ascii};

use rx_memory::Memory;
use std::alloc::{AllocError, Global};
use std::marker::Model;
use std::sync::Arc;

/// A class.
#[derive(Drop)]
pub enum Class {
    /// Of scalars, each of which matches its encoding in UTF-8.
    Unicode(ClassUnicode),
    /// Of single bytes.
    Bytes(ClassBytes),
}

/// Scalars, which a contract sees as the fewest ranges that hold them, in ascending order. Copies of a class share its
/// ranges.
#[derive(Drop)]
pub struct ClassUnicode {
    pub(crate) ranges: Arc<Vec<(char, char)>>,
}

impl Model for ClassUnicode {
    ghost use Rattle.std.specs.Prelude.{List, ℕ};
    ghost use Rattle.std.specs.Arc.{arc_value};
    ghost use Rattle.rx_class.specs.Ranges.{AreScalarRanges};

    ghost Value = { List (ℕ × ℕ) };

    ghost view = { λ c. (arc_value c.ranges).items };

    ghost invariant = { λ c. AreScalarRanges (arc_value c.ranges).items };
}

/// Bytes, which a contract sees as the fewest ranges that hold them, in ascending order.
#[derive(Drop)]
pub struct ClassBytes {
    pub(crate) ranges: Vec<(u8, u8)>,
}

impl Model for ClassBytes {
    ghost use Rattle.std.specs.Prelude.{List, ℕ};
    ghost use Rattle.rx_class.specs.Ranges.{AreByteRanges};

    ghost Value = { List (ℕ × ℕ) };

    ghost view = { λ c. c.ranges.items };

    ghost invariant = { λ c. AreByteRanges c.ranges.items };
}

impl ClassUnicode {
    /// Of no scalars.
    pub fn empty(alloc: Global) -> Result<ClassUnicode, Memory>
        ensures { IfOk result (λ c. c ≡ []) }
    {
        ClassUnicode::of(alloc, Vec::new(alloc))
    }

    /// Of fewest ranges.
    pub(crate) fn of(alloc: Global, ranges: Vec<(char, char)>) -> Result<ClassUnicode, Memory>
        requires { AreScalarRanges ranges.items }
        ensures { IfOk result (λ c. c ≡ ranges.items) }
    {
        Ok(ClassUnicode {
            ranges: Arc::new(alloc, ranges)?,
        })
    }

    /// The ranges, each from its first member to its last.
    pub fn ranges(&self) -> &[(char, char)]
        ensures value { result.now ≡ self.now }
        ensures fewest { AreScalarRanges self.now }
    {
        self.ranges.as_slice()
    }

    /// The class has no members.
    pub fn is_empty(&self) -> bool
        ensures { result ≡ (length self.now == 0) }
    {
        self.ranges.is_empty()
    }

    /// The member of a class that has one.
    pub fn only_member(&self) -> Option<char>
        ensures { result ≡ only_member self.now }
    {
        if self.ranges.len() != 1 {
            return None;
        }
        let (low, high) = self.ranges[0];
        if low == high { Some(low) } else { None }
    }

    /// No member is above 7F.
    pub fn is_ascii(&self) -> bool
        ensures { result ≡ is_ascii self.now }
    {
        match self.ranges().last() {
            Some((_, greatest)) => *greatest <= '\u{7F}',
            None => true,
        }
    }
}

impl ClassBytes {
    /// Of no bytes.
    pub fn empty(alloc: Global) -> ClassBytes
        ensures { result ≡ [] }
    {
        ClassBytes {
            ranges: Vec::new(alloc),
        }
    }

    /// The ranges, each from its first member to its last.
    pub fn ranges(&self) -> &[(u8, u8)]
        ensures value { result.now ≡ self.now }
        ensures fewest { AreByteRanges self.now }
    {
        self.ranges.as_slice()
    }

    /// The class has no members.
    pub fn is_empty(&self) -> bool
        ensures { result ≡ (length self.now == 0) }
    {
        self.ranges.is_empty()
    }

    /// The member of a class that has one.
    pub fn only_member(&self) -> Option<u8>
        ensures { result ≡ only_member self.now }
    {
        if self.ranges.len() != 1 {
            return None;
        }
        let (low, high) = self.ranges[0];
        if low == high { Some(low) } else { None }
    }

    /// No member is above 7F.
    pub fn is_ascii(&self) -> bool
        ensures { result ≡ is_ascii self.now }
    {
        match self.ranges.last() {
            Some((_, greatest)) => *greatest <= 0x7F,
            None => true,
        }
    }
}

impl Clone for ClassUnicode {
    ghost use Rattle.std.specs.Prelude.{◌≡◌};

    ghost is_clone = { λ class copy. copy ≡ class };

    fn clone(&self) -> Result<ClassUnicode, AllocError> {
        Ok(ClassUnicode {
            ranges: Arc::try_clone(&self.ranges)?,
        })
    }
}

impl Clone for ClassBytes {
    ghost use Rattle.std.specs.Prelude.{◌≡◌};

    ghost is_clone = { λ class copy. copy ≡ class };

    fn clone(&self) -> Result<ClassBytes, AllocError> {
        let ranges = Vec::from_slice(*self.ranges.allocator(), &self.ranges)?;
        Ok(ClassBytes { ranges })
    }
}
