//! Pools of values that many threads use in turn.
ghost use Rattle.std.specs.Prelude.{◌≡◌, ◌<◌, All, IfOk, max, vec_len};
ghost use Rattle.rx_util.specs.Held.{maker_of};

use crate::lock::Lock;
use crate::maker::Maker;
use rx_memory::Memory;
use std::alloc::Global;
use std::sync::Wait;
use std::sync::atomic::{AtomicUsize, Ordering};

/// How many stacks a pool has, where nothing else is said.
const STACKS: usize = 8;

/// Values that many threads use in turn: each takes one, and puts it back. No value is ever in two hands.
///
/// The values lie on some stacks, each behind a lock of its own. A call picks a stack by its turn.
#[derive(Drop)]
pub struct Pool<T: Drop, M: Maker<Value = T>> {
    stacks: Vec<Lock<T, M>>,
    turn: AtomicUsize,
    maker: M,
    ghost some: { 0 < vec_len stacks },
    ghost alike: { All (λ lock. maker_of lock ≡ maker) stacks.items },
}

impl<T: Drop, M: Maker<Value = T> + Drop> Pool<T, M> {
    /// A pool of eight stacks, whose values this maker makes.
    ///
    /// # Errors
    ///
    /// Only want of memory.
    pub fn new(alloc: Global, maker: M) -> Result<Pool<T, M>, Memory>
        ensures maker { IfOk result (λ pool. pool.maker ≡ maker) }
        ensures stacks { IfOk result (λ pool. vec_len pool.stacks ≡ 8) }
    {
        Pool::with_capacity(alloc, STACKS, maker)
    }

    /// A pool of so many stacks, and at least one.
    ///
    /// # Errors
    ///
    /// Only want of memory.
    pub fn with_capacity(alloc: Global, stacks: usize, maker: M) -> Result<Pool<T, M>, Memory>
        ensures maker { IfOk result (λ pool. pool.maker ≡ maker) }
        ensures stacks { IfOk result (λ pool. vec_len pool.stacks ≡ max stacks 1) }
    {
        let mut all = Vec::new(alloc);
        for _count in 0..stacks.max(1) {
            all.push(Lock::new(alloc, &maker)?)?;
        }
        Ok(Pool {
            stacks: all,
            turn: AtomicUsize::new(0),
            maker,
        })
    }

    /// A pool of as many stacks as there are processors, which the caller says, and at least one.
    ///
    /// # Errors
    ///
    /// Only want of memory.
    pub fn with_available_parallelism_capacity(
        alloc: Global,
        parallelism: usize,
        maker: M,
    ) -> Result<Pool<T, M>, Memory>
        ensures maker { IfOk result (λ pool. pool.maker ≡ maker) }
        ensures stacks { IfOk result (λ pool. vec_len pool.stacks ≡ max parallelism 1) }
    {
        Pool::with_capacity(alloc, parallelism, maker)
    }

    /// The maker of its values.
    pub fn maker(&self) -> &M
        ensures { result.now ≡ self.now.maker }
    {
        &self.maker
    }

    /// A value of the pool, or else a new one: one that the maker stands for. It may wait for a lock.
    ///
    /// # Errors
    ///
    /// Only want of memory, of this call or of the maker. The pool then serves as before.
    pub fn get<R: Wait>(&self, rt: &R) -> Result<PoolGuard<'_, T, M>, Memory>
        requires { M.can_make self.now.maker }
        ensures stack { IfOk result (λ guard. guard.index < vec_len self.now.stacks) }
        ensures maker { IfOk result (λ guard. maker_of guard.stack.now ≡ self.now.maker) }
        ensures value { IfOk result (λ guard. M.stands_for self.now.maker guard.value) }
    {
        let turn = self.turn.fetch_add(1, Ordering::SeqCst);
        let index = turn % self.stacks.len();
        let stack = &self.stacks[index];
        match stack.take(rt) {
            Ok((number, value)) => Ok(PoolGuard {
                stack,
                index,
                number,
                value,
            }),
            Err(empty) => {
                let value = self.maker.make()?;
                let number = stack.make(rt, empty)?;
                Ok(PoolGuard {
                    stack,
                    index,
                    number,
                    value,
                })
            }
        }
    }
}

/// A value that was taken from a pool. Where it is dropped and not put back, the value is freed, and its number is never
/// lent again.
#[derive(Drop)]
pub struct PoolGuard<'p, T: Drop, M: Maker<Value = T>> {
    stack: &'p Lock<T, M>,
    index: usize,
    number: u128,
    // A proof follows what is written to a field (DECISIONS: a guard borrows the lock of its stack).
    /// The value, which [`PoolGuard::value_mut`] lends.
    pub value: T,
}

impl<'p, T: Drop, M: Maker<Value = T>> PoolGuard<'p, T, M> {
    /// The value.
    pub fn value(&self) -> &T
        ensures { result.now ≡ self.now.value }
    {
        &self.value
    }

    /// The value, to be changed.
    pub fn value_mut(&mut self) -> &mut T
        ensures { result.now ≡ self.old.value }
    {
        &mut self.value
    }

    /// The number of its stack.
    pub fn stack(&self) -> usize
        ensures { result ≡ self.now.index }
    {
        self.index
    }

    /// Its number on that stack.
    pub fn number(&self) -> u128
        ensures { result ≡ self.now.number }
    {
        self.number
    }

    /// Puts the value back on its stack, where the maker stands for it still. It takes no memory, and may wait for a lock.
    pub fn put<R: Wait>(guard: PoolGuard<'p, T, M>, rt: &R)
        requires { M.stands_for (maker_of guard.stack.now) guard.value }
    {
        let PoolGuard {
            stack,
            index: _,
            number,
            value,
        } = guard;
        // The lock's type alone does not tell that the number is lent; a value that is handed back is freed.
        let _handed_back = stack.put(rt, number, value);
    }
}
