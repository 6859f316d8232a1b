//! What a search writes to.
ghost use Rattle.std.specs.Prelude.{◌≡◌, ◌*◌, ◌-◌, ◌≤◌, ◌<◌, ◌^◌, ℕ, None, length, min, slice_index_or, IfOk, OnOk, OnErr, IsOk};
ghost use Rattle.rx_onepass.specs.Dfa.{explicit_slots, Fits};
ghost use Rattle.rx_onepass.specs.Walked.{IsWalked};

use crate::dfa::DFA;
use rx_search::{HalfMatch, Input, Memory, NonMaxUsize};
use std::alloc::Global;
use std::marker::Model;

/// The bytes that are accounted for a slot.
const SLOT_SIZE: usize = 8;

/// What a search writes to: room for the places of explicit slots. A search forgets what stands there. A contract sees it as the
/// number of slots.
#[derive(Drop)]
pub struct Cache {
    pub(crate) slots: Vec<Option<NonMaxUsize>>,
}

impl Model for Cache {
    ghost use Rattle.std.specs.Prelude.{ℕ, length};

    ghost Value = { ℕ };

    ghost view = { λ c. length c.slots.items };
}

impl Cache {
    /// A cache that serves searches of this automaton.
    ///
    /// # Errors
    ///
    /// Only want of memory.
    pub fn new(alloc: Global, dfa: &DFA) -> Result<Cache, Memory>
        ensures { IfOk result (λ c. c ≡ explicit_slots dfa.now.nfa) }
    {
        let len = dfa.explicit_slots();
        Ok(Cache {
            slots: vec![in alloc; None; len]?,
        })
    }

    /// Makes it a cache that serves searches of this automaton.
    ///
    /// # Errors
    ///
    /// Only want of memory; then it stays as it was.
    pub fn reset(&mut self, dfa: &DFA) -> Result<(), Memory>
        ensures ok { OnOk result (self.new ≡ explicit_slots dfa.now.nfa) }
        ensures err { OnErr result (self.new ≡ self.old) }
    {
        let len = dfa.explicit_slots();
        self.slots.resize(len, None)?;
        Ok(())
    }

    /// The walk of the automaton from this row, with the places here. No slot has a place before.
    pub(crate) fn walk(
        &mut self,
        dfa: &DFA,
        input: &Input<'_>,
        row: usize,
        slots: &mut [Option<NonMaxUsize>],
    ) -> Option<HalfMatch>
        requires fits { Fits dfa.now.nfa self.old }
        requires in_order { input.now.start ≤ input.now.end }
        requires row { row < dfa.now.table.rows }
        requires empty { (k : ℕ) → slice_index_or slots.old k None ≡ None }
        ensures walked { IsWalked dfa.now input.now row slots.old result slots.new }
        ensures room { length slots.new ≡ length slots.old }
        ensures cache { self.new ≡ self.old }
    {
        dfa.walk(self.slots.as_mut_slice(), input, row, slots)
    }

    /// The bytes that are accounted for the cache: 8 for each explicit slot, or the greatest `usize` where they are more.
    pub fn memory_usage(&self) -> usize
        ensures { result ≡ min (2 ^ 64 - 1) (8 * self.now) }
    {
        SLOT_SIZE.saturating_mul(self.slots.len())
    }

    /// A cache of its own with as many slots.
    ///
    /// # Errors
    ///
    /// Only want of memory.
    pub fn clone(&self) -> Result<Cache, Memory>
        ensures { IfOk result (λ c. c ≡ self.now) }
    {
        Ok(Cache {
            slots: self.slots.clone()?,
        })
    }
}
