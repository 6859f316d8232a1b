//! What a search of the PikeVM writes to.
ghost use Rattle.std.specs.Prelude.{◌≡◌, ◌*◌, ◌^◌, ◌<◌, ◌≤◌, [], length, IfOk, None, replicate};
ghost use Rattle.rx_engines.specs.Buffers.{AreAlike, HasRows, KeepsRoom, curr_of, held_by};

use crate::pikevm::row::SlotRow;
use crate::pikevm::threads::Threads;
use crate::pikevm::walk::Walk;
use crate::stack::Stack;
use rx_search::Memory;
use std::alloc::Global;

// One record says what fits (DECISIONS: what a search of the PikeVM writes to is one struct).
/// What a search writes to: two lists of threads, a walk, and the slots of the best match so far.
///
/// One of the lists holds the threads at the place, and the other gets those at the next one. Then they change places.
#[derive(Drop)]
pub struct Buffers {
    pub even: Threads,
    pub odd: Threads,
    /// The odd list holds the threads at the place.
    pub turned: bool,
    pub walk: Walk,
    pub best: SlotRow,
}

impl Buffers {
    /// Room for so many states with so many slots in all, for so many frames, and for the slots of a match.
    pub fn new(
        alloc: Global,
        states: usize,
        cells: usize,
        frames: usize,
        slots: usize,
    ) -> Result<Buffers, Memory>
        requires { states < 2 ^ 32 }
        ensures alike { IfOk result AreAlike }
        ensures states { IfOk result (λ b. b.even.set.capacity ≡ states) }
        ensures cells { IfOk result (λ b. (b.even.table.cells ≡ cells) × (cells < 2 ^ 63)) }
        ensures stack { IfOk result (λ b. (b.walk.stack.room ≡ frames) × (frames < 2 ^ 63)) }
        ensures slots { IfOk result (λ b. b.best.room ≡ slots) }
        ensures held { IfOk result (λ b. held_by b ≡ 0) }
    {
        // The larger parts last: what is made is let go on each way out after it.
        let stack = Stack::new(alloc, frames)?;
        let row = SlotRow::new(alloc, slots)?;
        let best = SlotRow::new(alloc, slots)?;
        let even = Threads::new(alloc, states, cells)?;
        let odd = Threads::new(alloc, states, cells)?;
        Ok(Buffers {
            even,
            odd,
            turned: false,
            walk: Walk { slots: row, stack },
            best,
        })
    }

    /// No threads, of states below `states` and with `width` slots each.
    pub fn reset(&mut self, states: usize, width: usize)
        requires alike { AreAlike self.old }
        requires states { states ≤ self.old.even.set.capacity }
        requires cells { states * width ≤ self.old.even.table.cells }
        requires slots { width ≤ self.old.best.room }
        ensures even { HasRows states width self.new.even }
        ensures odd { HasRows states width self.new.odd }
        ensures none { (curr_of self.new).set.items ≡ [] }
        ensures slots { length self.new.walk.slots.items ≡ width }
        ensures best { self.new.best.items ≡ replicate width None }
        ensures stack { self.new.walk.stack ≡ self.old.walk.stack }
        ensures room { KeepsRoom self.old self.new }
    {
        self.even.reset(states, width);
        self.odd.reset(states, width);
        self.turned = false;
        self.walk.slots.reset(width);
        self.best.reset(width);
    }

    /// No threads and no slots. The stack is as it was.
    pub fn clear(&mut self)
        ensures held { held_by self.new ≡ 0 }
        ensures stack { self.new.walk.stack ≡ self.old.walk.stack }
        ensures room { KeepsRoom self.old self.new }
    {
        self.even.set.clear();
        self.odd.set.clear();
        self.walk.slots.reset(0);
        self.best.reset(0);
    }

    /// How many threads there are at the place.
    pub fn alive(&self) -> usize
        ensures { result ≡ length (curr_of self.now).set.items }
    {
        if self.turned {
            self.odd.set.len()
        } else {
            self.even.set.len()
        }
    }
}
