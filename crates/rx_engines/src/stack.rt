//! The stack of frames, within a fixed room.
ghost use Rattle.std.specs.Prelude.{◌≡◌, ◌+◌, ◌-◌, ◌^◌, ◌<◌, ◌≤◌, max, vec_capacity, [], ◌∷◌, ◌++◌, length, map, reverse, IfOk, OnOk, OnErr, IsOk, IfSome, IfNone};
ghost use Rattle.rx_nfa.specs.Automaton.{at};
ghost use Rattle.rx_engines.specs.Walk.{explore_all, going_to, Saves};
ghost use Rattle.rx_engines.specs.Threads.{Frames, frames_code};

use crate::frame::Frame;
use crate::slots::Slot;
use rx_search::{Memory, StateID};
use std::alloc::Global;
use std::marker::Model;

/// The frames of a search, within a fixed room. A contract sees them as a list whose first is the top.
#[derive(Drop)]
pub struct Stack {
    frames: Vec<Frame>,
    room: usize,
}

impl Model for Stack {
    ghost Value = { Frames };

    ghost coded = { frames_code };

    ghost view = { λ s. record { items = reverse s.frames.items; room = s.room } };

    ghost invariant = { λ s. s.room ≤ vec_capacity s.frames };
}

impl Stack {
    pub fn new(alloc: Global, room: usize) -> Result<Stack, Memory>
        ensures value { IfOk result (λ s. s ≡ record { items = []; room = room }) }
        ensures small { IfOk result (λ _. room < 2 ^ 63) }
    {
        let frames = Vec::with_capacity(alloc, room)?;
        Ok(Stack { frames, room })
    }

    /// Empties the stack, and gives it room for so many frames, if it has less. Where there is no memory, it stays as it
    /// was.
    pub fn grow(&mut self, alloc: Global, room: usize) -> Result<(), Memory>
        ensures value { OnOk result (self.new ≡ record { items = []; room = max self.old.room room }) }
        ensures small { OnOk result (self.new.room < 2 ^ 63) }
        ensures err { OnErr result (self.new ≡ self.old) }
        ensures sure { room ≤ self.old.room → IsOk result }
    {
        if room <= self.room {
            self.frames.clear();
            return Ok(());
        }
        *self = Stack::new(alloc, room)?;
        Ok(())
    }

    /// How many frames there may be.
    pub fn room(&self) -> usize
        ensures { result ≡ self.now.room }
    {
        self.room
    }

    pub fn clear(&mut self)
        ensures { self.new ≡ record self.old { items = [] } }
    {
        self.frames.clear();
    }

    pub fn push(&mut self, frame: Frame)
        requires { length self.old.items < self.old.room }
        ensures { self.new ≡ record self.old { items = frame ∷ self.old.items } }
    {
        self.frames.push_reserved(frame);
    }

    pub fn pop(&mut self) -> Option<Frame>
        ensures some { IfSome result (λ frame. self.old
            ≡ record self.new { items = frame ∷ self.new.items }) }
        ensures none { IfNone result ((self.old.items ≡ []) × (self.new ≡ self.old)) }
        ensures room { self.new.room ≡ self.old.room }
    {
        self.frames.pop()
    }
}

/// The first of the states. The others are on the stack, the preferred one on top.
pub fn choose(alternates: &[StateID], place: usize, stack: &mut Stack) -> Option<StateID>
    requires { length alternates.now - 1 + length stack.old.items ≤ stack.old.room }
    ensures chosen { going_to result place stack.new.items
        ≡ explore_all (map (λ q. at q place) alternates.now) ++ stack.old.items }
    ensures frames { length stack.new.items ≤ length alternates.now - 1 + length stack.old.items }
    ensures room { stack.new.room ≡ stack.old.room }
{
    let first = alternates.first()?;
    let mut left = alternates.len();
    while left > 1 {
        left -= 1;
        stack.push(Frame::Explore {
            state: alternates[left],
            place,
        });
    }
    Some(*first)
}

/// Writes the place into the slot, where there is room for it. The old value is on the stack.
pub fn save(stack: &mut Stack, slots: &mut [Slot], slot: usize, place: usize)
    requires place { place < usize.MAX }
    requires room { length stack.old.items < stack.old.room }
    ensures saved { Saves slot place stack.old.items stack.new.items slots.old slots.new }
    ensures frames { length stack.new.items ≤ 1 + length stack.old.items }
    ensures room { stack.new.room ≡ stack.old.room }
    ensures width { length slots.new ≡ length slots.old }
{
    if slot >= slots.len() {
        return;
    }
    stack.push(Frame::Restore {
        slot,
        old: slots[slot],
    });
    slots[slot] = Slot::at(place);
}
