//! What a search of the PikeVM writes to.
ghost use Rattle.std.specs.Prelude.{◌≡◌, ℕ, ◌^◌, ◌*◌, ◌<◌, ◌≤◌, [], length, is_some, Some, None, IfOk, OnOk, OnErr, IsOk, max, IfSome, IfNone, option_map, replicate, nat_lt, slice_index_or, if◌then◌else◌};
ghost use Rattle.rx_engines.specs.Search.{IsInside, IsAnswered};
ghost use Rattle.rx_engines.specs.Room.{Room, room_code, HasGrown};
ghost use Rattle.rx_engines.specs.Buffers.{AreAlike, held_by, room_for};
ghost use Rattle.rx_engines.specs.Engine.{PikeVMValue, HasRoom, Fits, accounted_memory};

use crate::accounting::memory_of;
use crate::pikevm::buffers::Buffers;
use crate::pikevm::row::SlotRow;
use crate::pikevm::simulate::simulate_slots;
use crate::pikevm::threads::Threads;
use crate::pikevm::vm::PikeVM;
use crate::search::Search;
use rx_search::{Match, Memory, NonMaxUsize};
use std::alloc::Global;
use std::marker::Model;

// A search empties it when it ends (DECISIONS: a search leaves nothing in its cache).
/// What a search writes to. It is made once for an engine, serves each engine for which it has room, and a search takes
/// no memory. Between searches it holds no thread and no slot.
#[derive(Drop)]
pub struct Cache {
    buffers: Buffers,
    memory: usize,
}

/// For how many states, slots and frames it has room, what is accounted for it, and how many threads and slots it holds.
impl Model for Cache {
    ghost Value = { Room };

    ghost coded = { room_code };

    ghost view = { λ c. room_for c.buffers c.memory };

    ghost invariant = { λ c. AreAlike c.buffers × (held_by c.buffers ≡ 0) };
}

impl Cache {
    /// A cache that serves this engine.
    pub fn new(alloc: Global, vm: &PikeVM) -> Result<Cache, Memory>
        ensures fits { IfOk result (Fits vm.now) }
        ensures memory { IfOk result (λ c. c.memory ≡ accounted_memory vm.now.nfa) }
    {
        let nfa = vm.get_nfa();
        let states = nfa.states_len();
        let slots = nfa.slot_len();
        let cells = states.saturating_mul(slots);
        Cache::with_room(alloc, states, cells, vm.frames(), slots, memory_of(nfa))
    }

    /// Makes the cache one that serves this engine, and keeps each buffer that is large enough: then it takes no memory, and
    /// the same time whatever was searched. No thread and no slot is left in it. Where there is no memory, it serves the
    /// engines that it served, with its accounted number as it was.
    pub fn reset(&mut self, alloc: Global, vm: &PikeVM) -> Result<(), Memory>
        ensures fits { OnOk result (Fits vm.now self.new) }
        ensures memory { OnOk result (self.new.memory ≡ accounted_memory vm.now.nfa) }
        ensures cleared { OnOk result (self.new.held ≡ 0) }
        ensures kept { (other : PikeVMValue) → Fits other self.old → Fits other self.new }
        ensures err { OnErr result (self.new.memory ≡ self.old.memory) }
        ensures sure { Fits vm.now self.old → IsOk result }
    {
        let nfa = vm.get_nfa();
        let states = nfa.states_len();
        let slots = nfa.slot_len();
        let cells = states.saturating_mul(slots);
        // Nothing else changes before there is room (DECISIONS: a cache fits where it has room enough).
        self.grow(alloc, states, cells, vm.frames(), slots)?;
        self.memory = memory_of(nfa);
        Ok(())
    }

    /// The bytes that are accounted for the cache: 16 for each slot of each accounted state, or the greatest
    /// `usize` where they are more. The number is fixed when the cache is made or reset.
    pub fn memory_usage(&self) -> usize
        ensures { result ≡ self.now.memory }
    {
        self.memory
    }

    /// A cache of its own with the same room.
    pub fn clone(&self, alloc: Global) -> Result<Cache, Memory>
        ensures { IfOk result (λ c. c ≡ self.now) }
    {
        let buffers = &self.buffers;
        let states = buffers.even.set.capacity();
        let cells = buffers.even.table.cells();
        let frames = buffers.walk.stack.room();
        Cache::with_room(
            alloc,
            states,
            cells,
            frames,
            buffers.best.room(),
            self.memory,
        )
    }

    /// Room for so many states with so many slots in all, for so many frames, and for the slots of a match, for which so
    /// much is accounted.
    fn with_room(
        alloc: Global,
        states: usize,
        cells: usize,
        frames: usize,
        slots: usize,
        memory: usize,
    ) -> Result<Cache, Memory>
        requires { states < 2 ^ 32 }
        ensures value { IfOk result (λ c. c
            ≡ record { states = states; cells = cells; stack = frames; slots = slots; memory = memory; held = 0 }) }
        ensures small { IfOk result (λ _. (cells < 2 ^ 63) × (frames < 2 ^ 63)) }
    {
        let buffers = Buffers::new(alloc, states, cells, frames, slots)?;
        Ok(Cache { buffers, memory })
    }

    /// Grows what has less room than this, and keeps the rest.
    fn grow(
        &mut self,
        alloc: Global,
        states: usize,
        cells: usize,
        frames: usize,
        slots: usize,
    ) -> Result<(), Memory>
        requires { states < 2 ^ 32 }
        ensures grown { HasGrown self.old self.new }
        ensures room { OnOk result ((states ≤ self.new.states) × (cells ≤ self.new.cells)
            × (frames ≤ self.new.stack) × (slots ≤ self.new.slots)) }
        ensures small { OnOk result ((self.new.cells < 2 ^ 63) × (self.new.stack < 2 ^ 63)) }
        ensures sure { states ≤ self.old.states → cells ≤ self.old.cells
            → frames ≤ self.old.stack → slots ≤ self.old.slots → IsOk result }
    {
        self.grow_threads(alloc, states, cells)?;
        self.buffers.walk.stack.grow(alloc, frames)?;
        self.grow_slots(alloc, slots)
    }

    /// As `grow`, of the threads.
    fn grow_threads(&mut self, alloc: Global, states: usize, cells: usize) -> Result<(), Memory>
        requires { states < 2 ^ 32 }
        ensures states { OnOk result (self.new.states ≡ max self.old.states states) }
        ensures cells { OnOk result (self.new.cells ≡ max self.old.cells cells) }
        ensures rest { OnOk result (self.new ≡ record self.old { states = self.new.states; cells = self.new.cells }) }
        ensures small { OnOk result (self.new.cells < 2 ^ 63) }
        ensures err { OnErr result (self.new ≡ self.old) }
        ensures sure { states ≤ self.old.states → cells ≤ self.old.cells → IsOk result }
    {
        let even = &self.buffers.even;
        if states <= even.set.capacity() && cells <= even.table.cells() {
            return Ok(());
        }
        let states = states.max(even.set.capacity());
        let cells = cells.max(even.table.cells());
        let even = Threads::new(alloc, states, cells)?;
        let odd = Threads::new(alloc, states, cells)?;
        self.buffers.even = even;
        self.buffers.odd = odd;
        Ok(())
    }

    /// As `grow`, of the slots of a match.
    fn grow_slots(&mut self, alloc: Global, slots: usize) -> Result<(), Memory>
        ensures slots { OnOk result (self.new ≡ record self.old { slots = max self.old.slots slots }) }
        ensures err { OnErr result (self.new ≡ self.old) }
        ensures sure { slots ≤ self.old.slots → IsOk result }
    {
        if slots <= self.buffers.best.room() {
            return Ok(());
        }
        let row = SlotRow::new(alloc, slots)?;
        let best = SlotRow::new(alloc, slots)?;
        self.buffers.walk.slots = row;
        self.buffers.best = best;
        Ok(())
    }

    /// The next match in the span. The slots get what it leaves in them. With `earliest` the search stops at the
    /// first place by which a match ends.
    pub(crate) fn find(
        &mut self,
        search: &Search<'_>,
        earliest: bool,
        slots: &mut [Option<NonMaxUsize>],
    ) -> Option<Match>
        requires search { IsInside search.now }
        requires room { HasRoom search.now.states.now search.now.slots self.old }
        ensures answer { IsAnswered search.now earliest result slots.new }
        ensures cleared { IfNone result (slots.new ≡ replicate (length slots.old) None) }
        ensures room { self.new ≡ self.old }
    {
        let width = slots.len().min(search.slots);
        self.buffers.reset(search.states.len(), width);
        let found = simulate_slots(search, earliest, &mut self.buffers, slots);
        self.buffers.clear();
        found
    }
}
