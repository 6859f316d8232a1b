//! Sets of patterns.
ghost use Rattle.std.specs.Prelude.{◌≡◌, ◌≤◌, ◌<◌, IfOk, not, IsTrue, ◌↔◌, ℕ, true, false, length, replicate, slice_set};
ghost use Rattle.std.specs.Iterator.{YieldsFirst, item_count};
ghost use Rattle.rx_search.specs.PatternSet.{has, count_of, members};
ghost use Rattle.rx_search.specs.Limits.{id_limit};

use crate::primitives::PatternID;
use rx_memory::Memory;
use std::alloc::Global;
use std::marker::Model;

/// A set of patterns, for the patterns below its capacity. It does not grow.
///
/// A contract sees it as a list with a `bool` for each pattern that it has room for: whether the pattern is in the set.
#[derive(Drop)]
pub struct PatternSet {
    /// Whether each pattern is in the set.
    which: Vec<bool>,
    /// The number of patterns in the set.
    len: usize,
}

impl Model for PatternSet {
    ghost use Rattle.std.specs.Prelude.{List, Bool, ◌≡◌};
    ghost use Rattle.rx_search.specs.PatternSet.{AreIdentifiers, count_of};

    ghost Value = { List Bool };

    ghost view = { λ s. s.which.items };

    ghost invariant = { λ s. (s.len ≡ count_of s.which.items) × AreIdentifiers s.which.items };
}

impl PatternSet {
    /// The empty set, with room for the patterns below this number.
    ///
    /// # Errors
    ///
    /// Only want of memory.
    ///
    /// # Examples
    ///
    /// ```
    /// let mut set = PatternSet::new(alloc, 3)?;
    /// assert!(rt; set.insert(PatternID::ZERO));
    /// assert!(rt; !set.insert(PatternID::ZERO));
    /// assert_eq!(rt; (set.len(), set.capacity()), (1, 3));
    /// ```
    pub fn new(alloc: Global, capacity: usize) -> Result<PatternSet, Memory>
        ensures { IfOk result (λ set. set ≡ replicate capacity false) }
    {
        let which = vec![in alloc; false; capacity]?;
        Ok(PatternSet { which, len: 0 })
    }

    /// Puts the pattern, which must be below the capacity, into the set, and tells whether it was not there before. It
    /// takes no memory.
    pub fn insert(&mut self, pid: PatternID) -> bool
        requires { pid < length self.old }
        ensures set { self.new ≡ slice_set self.old pid true }
        ensures is_new { result ≡ not (has self.old pid) }
    {
        let index = pid.as_usize();
        if self.which[index] {
            return false;
        }
        self.which[index] = true;
        self.len += 1;
        true
    }

    /// Whether the pattern is in the set. One that the set has no room for is not.
    pub fn contains(&self, pid: PatternID) -> bool
        ensures { result ≡ has self.now pid }
    {
        match self.which.get(pid.as_usize()) {
            None => false,
            Some(is_there) => *is_there,
        }
    }

    /// Whether no pattern is in the set.
    pub fn is_empty(&self) -> bool
        ensures { IsTrue result ↔ (count_of self.now ≡ 0) }
    {
        self.len == 0
    }

    /// Whether each pattern that there is room for is in the set.
    pub fn is_full(&self) -> bool
        ensures { IsTrue result ↔ (count_of self.now ≡ length self.now) }
    {
        self.len == self.which.len()
    }

    /// The number of patterns in the set.
    pub fn len(&self) -> usize
        ensures { result ≡ count_of self.now }
    {
        self.len
    }

    /// How many patterns there is room for: those below this number.
    pub fn capacity(&self) -> usize
        ensures { result ≡ length self.now }
    {
        self.which.len()
    }

    /// The patterns in the set, in order.
    pub fn iter(&self) -> PatternSetIter<'_>
        ensures { result ≡ members self.now }
    {
        PatternSetIter {
            which: self.which.as_slice(),
            next: 0,
        }
    }

    /// Takes all patterns out of the set. Its capacity stays.
    pub fn clear(&mut self)
        ensures { self.new ≡ replicate (length self.old) false }
    {
        take_all_out(self.which.as_mut_slice());
        self.len = 0;
    }

    /// A set of its own with the same patterns and the same capacity.
    ///
    /// # Errors
    ///
    /// Only want of memory.
    pub fn clone(&self) -> Result<PatternSet, Memory>
        ensures { IfOk result (λ copy. copy ≡ self.now) }
    {
        let which = self.which.clone()?;
        Ok(PatternSet {
            which,
            len: self.len,
        })
    }
}

/// Marks no pattern as one that is in the set.
fn take_all_out(which: &mut [bool])
    ensures { which.new ≡ replicate (length which.old) false }
{
    which.fill(false);
}

/// The patterns in a set, in order.
#[derive(Drop)]
pub struct PatternSetIter<'a> {
    which: &'a [bool],
    next: usize,
}

impl<'a> Model for PatternSetIter<'a> {
    ghost use Rattle.std.specs.Prelude.{List, ℕ, drop};
    ghost use Rattle.rx_search.specs.PatternSet.{members_from, AreIdentifiers};

    ghost Value = { List ℕ };

    ghost view = { λ it. members_from it.next (drop it.next it.which.now) };

    ghost invariant = { λ it. AreIdentifiers it.which.now };
}

impl Iterator for PatternSetIter<'_> {
    type Item = PatternID;

    ghost next_gives = { YieldsFirst (λ it. it) };

    ghost remaining = { item_count (λ it. it) };

    fn next(&mut self) -> Option<PatternID> {
        while let Some(is_there) = self.which.get(self.next) {
            let index = self.next;
            self.next += 1;
            if *is_there {
                return PatternID::new(index);
            }
        }
        None
    }
}
