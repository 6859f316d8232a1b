//! A stack of numbered values, which are lent.
ghost use Rattle.std.specs.Prelude.{◌≡◌, [], ◌∷◌, ◌++◌, ◌<◌, IfOk, MatchResult, Ok, Err, Some, None, IfSome, IsSome, IsOk};
ghost use Rattle.rx_util.specs.PoolMachine.{place_of, happens, NoneIsLentTwice, StaysSound};
ghost use Rattle.rx_util.specs.PoolMachine.{Take, Make, Put};
ghost use Rattle.rx_util.specs.Stack.{numbers_of, nothing, Takes, with_next, with_value};

use rx_memory::Memory;
use std::alloc::Global;
use std::marker::Model;

/// A token of a [`Stack::take`] that found nothing. No other call gives one, and none is copied.
#[derive(Drop)]
pub struct Empty {
    /// No code outside makes one.
    found: (),
}

// What is put back is looked up by its number (DECISIONS: a stack of a pool hands out numbers).
/// Values with numbers, of which some are stored and the others are lent. Numbers begin at 0, and no number is lent twice.
///
/// A contract sees the stored values with their numbers, the numbers that are lent, and the next number.
#[derive(Drop)]
pub struct Stack<T> {
    stored: Vec<(u128, T)>,
    lent: Vec<u128>,
    next: u128,
}

impl<T> Model for Stack<T> {
    ghost use Rattle.std.specs.Prelude.{◌≤◌, vec_capacity};
    ghost use Rattle.rx_util.specs.Stack.{StackValue, stack_code, numbers_of};
    ghost use Rattle.rx_util.specs.PoolMachine.{IsSound};

    ghost Value = { StackValue T };

    ghost coded = { stack_code T.code };

    ghost view = { λ s. record { stored = s.stored.items; lent = s.lent.items; next = s.next } };

    ghost invariant = { λ s. IsSound (numbers_of (record { stored = s.stored.items; lent = s.lent.items; next = s.next }))
        × (s.next ≤ vec_capacity s.stored) × (s.next ≤ vec_capacity s.lent) };
}

impl<T: Drop> Stack<T> {
    /// A stack in which nothing is stored or lent.
    pub fn new(alloc: Global) -> Stack<T>
        ensures { result ≡ nothing }
    {
        Stack {
            stored: Vec::new(alloc),
            lent: Vec::new(alloc),
            next: 0,
        }
    }

    /// The last value that was stored, with its number, which is lent now. It takes no memory.
    ///
    /// # Errors
    ///
    /// [`Empty`], exactly where nothing is stored; the stack stays as it is.
    pub fn take(&mut self) -> Result<(u128, T), Empty>
        ensures answer { MatchResult result (Takes self.old self.new) (λ _. (self.old.stored ≡ []) × (self.new ≡ self.old)) }
        ensures event { numbers_of self.new ≡ happens (numbers_of self.old) Take }
    {
        match self.stored.pop() {
            None => Err(Empty { found: () }),
            Some((number, value)) => {
                self.lent.push_reserved(number);
                Ok((number, value))
            }
        }
    }

    /// The next number, which is lent now. It spends the token of a `take` that found nothing.
    ///
    /// # Errors
    ///
    /// Only want of memory; the stack stays as it is.
    pub fn make(&mut self, empty: Empty) -> Result<u128, Memory>
        ensures answer { MatchResult result (λ number. (number ≡ self.old.next) × (self.new ≡ with_next self.old)) (λ _. self.new ≡ self.old) }
        ensures event { IfOk result (λ _. numbers_of self.new ≡ happens (numbers_of self.old) Make) }
    {
        let Empty { found: () } = empty;
        self.stored.reserve(self.lent.len() + 1)?;
        self.lent.reserve(self.stored.len() + 1)?;
        let number = self.next;
        self.lent.push_reserved(number);
        self.next += 1;
        Ok(number)
    }

    /// Stores the value under its number, where the number is lent. It takes no memory.
    ///
    /// # Errors
    ///
    /// The value, exactly where the number is not lent; the stack stays as it is.
    pub fn put(&mut self, number: u128, value: T) -> Result<(), T>
        ensures answer { MatchResult result
            (λ _. IfSome (place_of number self.old.lent) (λ place. self.new ≡ with_value self.old place number value))
            (λ back. (back ≡ value) × (place_of number self.old.lent ≡ None) × (self.new ≡ self.old)) }
        ensures stored { IsSome (place_of number self.old.lent) → IsOk result }
        ensures lent { IsOk result → IsSome (place_of number self.old.lent) }
        ensures event { numbers_of self.new ≡ happens (numbers_of self.old) (Put number) }
    {
        match place_in(self.lent.as_slice(), number) {
            None => Err(value),
            Some(place) => {
                self.lent.remove(place);
                self.stored.push_reserved((number, value));
                Ok(())
            }
        }
    }
}

/// The last place of a number. It is looked for from the back, where a number stands that was lent just before.
fn place_in(numbers: &[u128], number: u128) -> Option<usize>
    ensures { result ≡ place_of number numbers.now }
{
    let mut count = numbers.len();
    while count > 0 {
        count -= 1;
        if numbers[count] == number {
            return Some(count);
        }
    }
    None
}

/// Over every list of events of the machine no number is lent twice.
pub fn no_number_is_lent_twice()
    ensures lent { NoneIsLentTwice }
    ensures sound { StaysSound }
{}
