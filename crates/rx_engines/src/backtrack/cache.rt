//! What a search of the backtracker writes to.
ghost use Rattle.std.specs.Prelude.{◌≡◌, ◌^◌, [], vec_len, ℕ, ◌*◌, ◌+◌, ◌<◌, ◌≤◌, length, max, min, None, IfOk, OnOk, OnErr, IsOk, IfSome, IfNone, option_map, replicate, nat_lt, slice_index_or, if◌then◌else◌};
ghost use Rattle.rx_model.specs.Search.{slot_value};
ghost use Rattle.rx_search.specs.Matches.{match_value};
ghost use Rattle.rx_nfa.specs.Nfa.{Nfa};
ghost use Rattle.rx_engines.specs.Search.{IsInside, is_offered, next_of};
ghost use Rattle.rx_engines.specs.Backtrack.{extent, frames_of_span, words_used};
ghost use Rattle.rx_engines.specs.Bounded.{Room, room_code, HasGrown, Fits};
ghost use Rattle.rx_engines.specs.Engine.{accounted_memory};

use crate::accounting::memory_of;
use crate::backtrack::backtracker::BoundedBacktracker;
use crate::backtrack::find::find;
use crate::backtrack::visited::Visited;
use crate::search::Search;
use crate::slots::{Slot, empty, report};
use crate::stack::Stack;
use rx_search::{Match, Memory, NonMaxUsize};
use std::alloc::Global;
use std::marker::Model;

// A search empties it when it ends (DECISIONS: a search leaves nothing in its cache).
/// What a search writes to. It is made once for an engine, with room for the longest span, and a search takes no
/// memory. Between searches it holds no bit and no frame.
#[derive(Drop)]
pub struct Cache {
    visited: Visited,
    stack: Stack,
    slots: Vec<Slot>,
    memory: usize,
}

/// For how many bits, frames and slots it has room, what is accounted for it, and how many words and frames it holds.
impl Model for Cache {
    ghost Value = { Room };

    ghost coded = { room_code };

    ghost view = { λ c. record {
      bits = 64 * length c.visited;
      stack = c.stack.room;
      slots = vec_len c.slots;
      memory = c.memory;
      held = words_used c.visited + length c.stack.items;
    } };

    ghost invariant = { λ c. (words_used c.visited ≡ 0) × (c.stack.items ≡ []) };
}

impl Cache {
    /// A cache that serves this engine.
    pub fn new(alloc: Global, backtracker: &BoundedBacktracker) -> Result<Cache, Memory>
        ensures fits { IfOk result (Fits backtracker.now.nfa) }
        ensures memory { IfOk result (λ c. c.memory ≡ accounted_memory backtracker.now.nfa) }
    {
        let nfa = backtracker.get_nfa();
        let places = backtracker.max_haystack_len() + 1;
        let visited = Visited::new(alloc, places * nfa.states_len())?;
        // So a search takes no memory (DECISIONS: the backtracker's cache has room for each frame that a search can leave).
        let stack = Stack::new(alloc, backtracker.frames().saturating_mul(places))?;
        let none = Slot::none();
        let slots = vec![in alloc; none; nfa.slot_len()]?;
        Ok(Cache {
            visited,
            stack,
            slots,
            memory: memory_of(nfa),
        })
    }

    /// Makes the cache one that serves this engine, and keeps each buffer that is large enough: then it takes no memory, and
    /// the same time whatever was searched. No bit and no frame is left in it. Where there is no memory, it serves the
    /// engines that it served, with its accounted number as it was.
    pub fn reset(&mut self, alloc: Global, backtracker: &BoundedBacktracker) -> Result<(), Memory>
        ensures fits { OnOk result (Fits backtracker.now.nfa self.new) }
        ensures memory { OnOk result (self.new.memory ≡ accounted_memory backtracker.now.nfa) }
        ensures cleared { OnOk result (self.new.held ≡ 0) }
        ensures kept { (other : Nfa) → Fits other self.old → Fits other self.new }
        ensures err { OnErr result (self.new.memory ≡ self.old.memory) }
        ensures sure { Fits backtracker.now.nfa self.old → IsOk result }
    {
        let nfa = backtracker.get_nfa();
        let places = backtracker.max_haystack_len() + 1;
        let frames = backtracker.frames().saturating_mul(places);
        self.grow(alloc, places * nfa.states_len(), frames, nfa.slot_len())?;
        self.memory = memory_of(nfa);
        Ok(())
    }

    /// Empties the buffers, and grows those that have less room than this.
    fn grow(
        &mut self,
        alloc: Global,
        bits: usize,
        frames: usize,
        slots: usize,
    ) -> Result<(), Memory>
        requires { bits < 2 ^ 63 }
        ensures grown { HasGrown self.old self.new }
        ensures room { OnOk result ((bits ≤ self.new.bits) × (frames ≤ self.new.stack) × (slots ≤ self.new.slots)) }
        ensures small { OnOk result (self.new.stack < 2 ^ 63) }
        ensures sure { bits ≤ self.old.bits → frames ≤ self.old.stack → slots ≤ self.old.slots → IsOk result }
    {
        self.visited.grow(alloc, bits)?;
        self.stack.grow(alloc, frames)?;
        self.grow_slots(alloc, slots)
    }

    /// As `grow`, of the slots.
    fn grow_slots(&mut self, alloc: Global, slots: usize) -> Result<(), Memory>
        ensures slots { OnOk result (self.new ≡ record self.old { slots = max self.old.slots slots }) }
        ensures err { OnErr result (self.new ≡ self.old) }
        ensures sure { slots ≤ self.old.slots → IsOk result }
    {
        if slots <= self.slots.len() {
            return Ok(());
        }
        let none = Slot::none();
        self.slots = vec![in alloc; none; slots]?;
        Ok(())
    }

    /// The bytes that are accounted for the cache: 16 for each slot of each accounted state, or the greatest
    /// `usize` where they are more. The number is fixed when the cache is made or reset.
    pub fn memory_usage(&self) -> usize
        ensures { result ≡ self.now.memory }
    {
        self.memory
    }

    /// A cache of its own with the same room.
    pub fn clone(&self, alloc: Global) -> Result<Cache, Memory>
        ensures { IfOk result (λ c. c ≡ self.now) }
    {
        let visited = self.visited.same_room(alloc)?;
        let stack = Stack::new(alloc, self.stack.room())?;
        let none = Slot::none();
        let slots = vec![in alloc; none; self.slots.len()]?;
        Ok(Cache {
            visited,
            stack,
            slots,
            memory: self.memory,
        })
    }

    /// The next match in the span. The slots get what it leaves in them.
    pub(crate) fn find(
        &mut self,
        search: &Search<'_>,
        slots: &mut [Option<NonMaxUsize>],
    ) -> Option<Match>
        requires search { IsInside search.now }
        requires small { extent search.now < 2 ^ 63 }
        requires room { extent search.now ≤ self.old.bits }
        requires frames { frames_of_span search.now ≤ self.old.stack }
        requires slots { search.now.slots ≤ self.old.slots }
        ensures value { result ≡ option_map match_value (next_of (is_offered search.now) search.now) }
        ensures slots { IfSome (next_of (is_offered search.now) search.now)
            (λ m. (k : ℕ) → k < length slots.new → slice_index_or slots.new k None
            ≡ (if nat_lt k search.now.slots then slot_value m k else None)) }
        ensures none { IfNone result (slots.new ≡ replicate (length slots.old) None) }
        ensures room { self.new ≡ self.old }
    {
        let width = slots.len().min(search.slots);
        let found = find_slots(
            search,
            width,
            &mut self.visited,
            &mut self.stack,
            &mut self.slots,
            slots,
        );
        self.visited.clear();
        self.stack.clear();
        found
    }
}

/// As `find`, in the first `width` of the scratch slots. `slots` gets those of the match, as far as they go.
fn find_slots(
    search: &Search<'_>,
    width: usize,
    visited: &mut Visited,
    stack: &mut Stack,
    scratch: &mut [Slot],
    slots: &mut [Option<NonMaxUsize>],
) -> Option<Match>
    requires search { IsInside search.now }
    requires small { extent search.now < 2 ^ 63 }
    requires room { extent search.now ≤ 64 * length visited.old }
    requires frames { frames_of_span search.now ≤ stack.old.room }
    requires width { width ≡ min (length slots.old) search.now.slots }
    requires scratch { search.now.slots ≤ length scratch.old }
    ensures value { result ≡ option_map match_value (next_of (is_offered search.now) search.now) }
    ensures slots { IfSome (next_of (is_offered search.now) search.now)
        (λ m. (k : ℕ) → k < length slots.new → slice_index_or slots.new k None
        ≡ (if nat_lt k search.now.slots then slot_value m k else None)) }
    ensures none { IfNone result (slots.new ≡ replicate (length slots.old) None) }
    ensures room { length visited.new ≡ length visited.old }
    ensures stack { stack.new.room ≡ stack.old.room }
    ensures scratch { length scratch.new ≡ length scratch.old }
{
    match find(search, visited, stack, &mut scratch[..width]) {
        Some(found) => {
            report(&scratch[..width], slots);
            Some(found)
        }
        None => {
            empty(slots);
            None
        }
    }
}
