//! The calls of [`Lock`].
ghost use Rattle.std.specs.Prelude.{◌≡◌, IfOk, MatchBool};
ghost use Rattle.rx_util.specs.Held.{IsHeld, IsWaiting, maker_of};

use super::{Holds, LetsGo, Lock};
use crate::maker::Maker;
use crate::stack::{Empty, Stack};
use atomic_table::{Seat, Table};
use rx_memory::Memory;
use std::alloc::Global;
use std::sync::Wait;

/// The word of a lock while nobody holds it.
const FREE: u64 = 0;

/// The word while somebody holds it.
const HELD: u64 = 1;

/// The same, where others may wait for it.
const AWAITED: u32 = 2;

/// The first word is the lock's. The others keep it apart from those of other locks.
const WORDS: usize = 8;

impl<T: Drop, M: Maker<Value = T>> Lock<T, M> {
    /// An empty stack for values of this maker.
    pub(crate) fn new(alloc: Global, maker: &M) -> Result<Lock<T, M>, Memory>
        ensures { IfOk result (λ lock. maker_of lock ≡ maker.now) }
    {
        let mut stacks = Vec::new(alloc);
        stacks.push(Stack::new(alloc))?;
        match Table::new(alloc, &[FREE; WORDS], stacks, maker) {
            Ok((table, _seat)) => Ok(Lock { table }),
            Err(_) => Err(Memory),
        }
    }

    /// Takes the value that was stored last, with its number.
    pub(crate) fn take<R: Wait>(&self, rt: &R) -> Result<(u128, T), Empty>
        ensures { IfOk result (λ taken. M.stands_for (maker_of self.now) taken.1) }
    {
        let mut seat = self.hold(rt);
        let taken = self.take_held(&mut seat);
        self.let_go(seat);
        taken
    }

    /// The next number, which is lent now.
    pub(crate) fn make<R: Wait>(&self, rt: &R, empty: Empty) -> Result<u128, Memory> {
        let mut seat = self.hold(rt);
        let made = self.make_held(&mut seat, empty);
        self.let_go(seat);
        made
    }

    /// Stores a value that the maker stands for under its number, where that is lent; else hands it back.
    pub(crate) fn put<R: Wait>(&self, rt: &R, number: u128, value: T) -> Result<(), T>
        requires { M.stands_for (maker_of self.now) value }
    {
        let mut seat = self.hold(rt);
        let put = self.put_held(&mut seat, number, value);
        self.let_go(seat);
        put
    }

    fn take_held(&self, seat: &mut Seat<Stack<T>, M>) -> Result<(u128, T), Empty>
        requires { IsHeld (M.stands_for (maker_of self.now)) self.now seat.old }
        ensures held { IsHeld (M.stands_for (maker_of self.now)) self.now seat.new }
        ensures made { IfOk result (λ taken. M.stands_for (maker_of self.now) taken.1) }
    {
        seat.slot_mut(&self.table.shared, 0).take()
    }

    fn make_held(&self, seat: &mut Seat<Stack<T>, M>, empty: Empty) -> Result<u128, Memory>
        requires { IsHeld (M.stands_for (maker_of self.now)) self.now seat.old }
        ensures { IsHeld (M.stands_for (maker_of self.now)) self.now seat.new }
    {
        seat.slot_mut(&self.table.shared, 0).make(empty)
    }

    fn put_held(&self, seat: &mut Seat<Stack<T>, M>, number: u128, value: T) -> Result<(), T>
        requires held { IsHeld (M.stands_for (maker_of self.now)) self.now seat.old }
        requires made { M.stands_for (maker_of self.now) value }
        ensures { IsHeld (M.stands_for (maker_of self.now)) self.now seat.new }
    {
        seat.slot_mut(&self.table.shared, 0).put(number, value)
    }

    /// Waits until the lock is free, and takes it.
    fn hold<R: Wait>(&self, rt: &R) -> Seat<Stack<T>, M>
        ensures { IsHeld (M.stands_for (maker_of self.now)) self.now result }
    {
        // Where others wait, this forgets it; the next step says it again (DECISIONS: the lock is the usual one of three states).
        let (found, mut seat) = self.table.shared.swap_new_seat::<Holds>(0, HELD);
        if found == FREE {
            return seat;
        }
        for _try in rt.forever() {
            if self.try_again(&mut seat) {
                return seat;
            }
            self.table.shared.park(rt, 0, AWAITED);
        }
        unreachable!()
    }

    /// Whether the lock is held now by this seat. Else whoever has it will wake one that waits.
    fn try_again(&self, seat: &mut Seat<Stack<T>, M>) -> bool
        requires { IsWaiting self.now seat.old }
        ensures { MatchBool result (IsHeld (M.stands_for (maker_of self.now)) self.now seat.new) (IsWaiting self.now seat.new) }
    {
        let found = self.table.shared.swap::<Holds>(seat, 0, u64::from(AWAITED));
        found == FREE
    }

    /// Lets the lock go, and wakes one that waits.
    fn let_go(&self, mut seat: Seat<Stack<T>, M>)
        requires { IsHeld (M.stands_for (maker_of self.now)) self.now seat }
    {
        let found = self.table.shared.swap::<LetsGo>(&mut seat, 0, FREE);
        if found == u64::from(AWAITED) {
            self.table.shared.wake_one(0);
        }
    }
}
