//! Classes of scalars that are gathered item by item.
ghost use Rattle.std.specs.Prelude.{◌≡◌, [], ◌∷◌, ◌++◌, ℕ, List, IfOk, IsTrue};
ghost use Rattle.rx_class.specs.Ranges.{next_scalar, fewest};
ghost use Rattle.rx_syntax.specs.Named.{scalars_of};
ghost use Rattle.rx_syntax.specs.Partial.{IsOf, IsHeld, ranges_of};

use crate::known::KnownSets;
use crate::named::SetKey;
use rx_class::{ClassUnicode, GatheredUnicode};
use rx_search::Memory;
use std::alloc::Global;

/// What an item of a class adds to it.
pub(crate) enum Added {
    /// From one scalar to another.
    Range(char, char),
    /// A named set.
    Set(SetKey),
}

/// A class so far, and the named sets that are in it. Each is added once, however often it is named.
#[derive(Drop)]
pub(crate) struct PartialClass {
    members: GatheredUnicode,
    sets: Vec<SetKey>,
}

impl PartialClass {
    /// Of nothing yet.
    pub(crate) fn new(alloc: Global) -> PartialClass
        ensures { IsOf result [] }
    {
        PartialClass {
            members: GatheredUnicode::new(alloc),
            sets: Vec::new(alloc),
        }
    }

    /// Whether the set was added.
    fn has(&self, key: SetKey) -> bool
        ensures { (ranges : List (ℕ × ℕ)) → IsOf self.now ranges → IsTrue result → IsHeld ranges key }
    {
        for set in &self.sets {
            if set.is(key) {
                return true;
            }
        }
        false
    }

    fn with_range(self, low: char, high: char) -> Result<PartialClass, Memory>
        ensures { (ranges : List (ℕ × ℕ)) → IsOf self ranges → IfOk result (λ class. IsOf class (ranges ++ (low, high) ∷ [])) }
    {
        let members = self.members.with(low, high)?;
        Ok(PartialClass {
            members,
            sets: self.sets,
        })
    }

    fn with_new_set(self, key: SetKey, known: &mut KnownSets) -> Result<PartialClass, Memory>
        ensures { (ranges : List (ℕ × ℕ)) → IsOf self ranges → IfOk result (λ class. IsOf class (ranges ++ scalars_of key)) }
    {
        let scalars = match known.scalars(key) {
            Ok(scalars) => scalars,
            Err(error) => {
                // By a call (DECISIONS: large values are let go by name).
                drop(self);
                return Err(error);
            }
        };
        let gathered = self.members.with_class(&scalars);
        drop(scalars);
        let members = gathered?;
        let mut sets = self.sets;
        sets.push(key)?;
        Ok(PartialClass { members, sets })
    }

    fn with_set(self, key: SetKey, known: &mut KnownSets) -> Result<PartialClass, Memory>
        ensures { (ranges : List (ℕ × ℕ)) → IsOf self ranges → IfOk result (λ class. IsOf class (ranges ++ scalars_of key)) }
    {
        if self.has(key) {
            return Ok(self);
        }
        self.with_new_set(key, known)
    }

    /// With what an item adds.
    pub(crate) fn with(self, added: Added, known: &mut KnownSets) -> Result<PartialClass, Memory>
        ensures { (ranges : List (ℕ × ℕ)) → IsOf self ranges → IfOk result (λ class. IsOf class (ranges ++ ranges_of added)) }
    {
        match added {
            Added::Range(low, high) => self.with_range(low, high),
            Added::Set(key) => self.with_set(key, known),
        }
    }

    /// The class of all that was added.
    pub(crate) fn build(self) -> Result<ClassUnicode, Memory>
        ensures { (ranges : List (ℕ × ℕ)) → IsOf self ranges → IfOk result (λ class. class ≡ fewest next_scalar ranges) }
    {
        self.members.build()
    }
}
