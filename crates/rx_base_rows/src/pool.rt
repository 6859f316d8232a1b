//! Tests of stacks, lazy values and pools.

use rx_search::Memory;
use rx_util::{FromFn, Lazy, Maker, Pool, PoolGuard, Stack};
use std::alloc::Global;
use std::process::Abort;
use std::sync::Wait;
use std::sync::atomic::{AtomicBool, AtomicUsize, Ordering};
use std::thread::{join, yield_now};

/// The next number of the stack, in which nothing is stored.
fn next(rt: &impl Abort, stack: &mut Stack<char>) -> u128 {
    let empty = stack.take().err().expect(rt, "nothing is stored");
    stack.make(empty).ok().expect(rt, "memory")
}

/// What is told of a value that is put in, then taken out, and of one of a number that was not given.
fn stored(stack: &mut Stack<char>) -> (bool, Option<(u128, char)>, Option<char>) {
    let is_stored = stack.put(0, 'a').is_ok();
    let taken = stack.take().ok();
    (is_stored, taken, stack.put(7, 'b').err())
}

#[test]
fn numbers_of_a_stack(rt: HostRuntime) {
    let mut stack = Stack::new(rt.alloc());
    let numbers = (next(&rt, &mut stack), next(&rt, &mut stack));
    assert!(rt; (numbers, stored(&mut stack)) == ((0, 1), (true, Some((0, 'a')), Some('b'))));
}

/// Makes the letter `a`, in a text of its own.
#[derive(Clone, Copy)]
struct Letters {
    alloc: Global,
}

impl Maker for Letters {
    type Value = String;

    fn make(&self) -> Result<String, Memory> {
        Ok(String::from_str(self.alloc, "a")?)
    }
}

/// Whether it is the letter.
fn is_letter(made: Result<&String, Memory>) -> bool {
    match made {
        Ok(text) => text.as_str() == "a",
        Err(_) => false,
    }
}

/// Whether the value is the letter, and a note that knows it gives it again.
fn is_known(alloc: Global, lazy: &Lazy<String, Letters>) -> bool {
    let mut note = lazy.note();
    let first = is_letter(lazy.get_as(alloc, &mut note));
    let again = is_letter(lazy.get_as(alloc, &mut note));
    first && again
}

#[test]
fn a_value_is_made_once(rt: HostRuntime) {
    let alloc = rt.alloc();
    let lazy = Lazy::new(alloc, Letters { alloc });
    assert!(rt; (is_letter(lazy.get(alloc)), is_known(alloc, &lazy)) == (true, true));
}

#[test]
fn a_closure_makes_a_value(rt: HostRuntime) {
    let alloc = rt.alloc();
    let lazy = Lazy::new(alloc, FromFn::new(|| -> Result<u8, Memory> { Ok(7) }));
    assert!(rt; lazy.get(alloc).ok().copied() == Some(7));
}

/// Makes the letter `a`, but at its second call finds no memory.
#[derive(Drop)]
struct FailsOnce {
    alloc: Global,
    calls: AtomicUsize,
}

impl Maker for FailsOnce {
    type Value = String;

    fn make(&self) -> Result<String, Memory> {
        if self.calls.fetch_add(1, Ordering::SeqCst) == 1 {
            return Err(Memory);
        }
        Ok(String::from_str(self.alloc, "a")?)
    }
}

/// Such a maker, which was called so many times.
fn fails_once(alloc: Global, calls: usize) -> FailsOnce {
    FailsOnce {
        alloc,
        calls: AtomicUsize::new(calls),
    }
}

/// Whether the pool refuses a value, which is dropped at once where it gives one.
fn is_refused<R: Wait>(rt: &R, pool: &Pool<String, FailsOnce>) -> bool {
    pool.get(rt).is_err()
}

/// The numbers of two values that are held at once, and whether one that was asked for in between was refused.
fn asked_again<R: Abort + Wait>(rt: &R, pool: &Pool<String, FailsOnce>) -> (u128, u128, bool) {
    let first = pool.get(rt).ok().expect(rt, "memory");
    let is_refused = is_refused(rt, pool);
    let second = pool.get(rt).ok().expect(rt, "memory");
    let told = (first.number(), second.number(), is_refused);
    PoolGuard::put(first, rt);
    PoolGuard::put(second, rt);
    told
}

#[test]
fn a_pool_serves_after_want_of_memory(rt: HostRuntime) {
    let alloc = rt.alloc();
    let made = Pool::with_capacity(alloc, 1, fails_once(alloc, 0)).ok();
    let pool = made.expect(&rt, "memory");
    let told = (asked_again(&rt, &pool), asked_again(&rt, &pool));
    // (the second time the value in between is number 0, which is dropped at once, so another one is made)
    assert!(rt; told == ((0, 1, true), (1, 2, false)));
}

/// Whether the value is refused, and then is the letter.
fn is_made_later(alloc: Global, lazy: &Lazy<String, FailsOnce>) -> bool {
    let is_refused = lazy.get(alloc).is_err();
    is_refused && is_letter(lazy.get(alloc))
}

#[test]
fn a_value_is_made_after_want_of_memory(rt: HostRuntime) {
    let alloc = rt.alloc();
    let lazy = Lazy::new(alloc, fails_once(alloc, 1));
    assert!(rt; is_made_later(alloc, &lazy));
}

/// A value of the pool.
fn taken<'p, R: Abort + Wait>(
    rt: &R,
    pool: &'p Pool<String, Letters>,
) -> PoolGuard<'p, String, Letters> {
    pool.get(rt).ok().expect(rt, "memory")
}

/// The stack of a value, and its number.
fn place_of(guard: &PoolGuard<'_, String, Letters>) -> (usize, u128) {
    (guard.stack(), guard.number())
}

/// Whether the letter makes the text of the value this one.
fn is_pushed(guard: &mut PoolGuard<'_, String, Letters>, letter: char, want: &str) -> bool {
    guard.value_mut().push(letter).is_ok() && guard.value().as_str() == want
}

/// Takes two values at once and makes them differ: whether each is as it is to be, and they differ by their stacks or numbers.
fn two_at_once<R: Abort + Wait>(rt: &R, pool: &Pool<String, Letters>) -> [bool; 3] {
    let mut one = taken(rt, pool);
    let mut two = taken(rt, pool);
    let told = [
        is_pushed(&mut one, 'b', "ab"),
        is_pushed(&mut two, 'c', "ac"),
        place_of(&one) != place_of(&two),
    ];
    PoolGuard::put(one, rt);
    PoolGuard::put(two, rt);
    told
}

/// The pool, where there is one.
fn made(rt: &impl Abort, pool: Result<Pool<String, Letters>, Memory>) -> Pool<String, Letters> {
    pool.ok().expect(rt, "memory")
}

/// Whether two values of such a pool are held at once.
fn holds_two<R: Abort + Wait>(rt: &R, pool: Result<Pool<String, Letters>, Memory>) -> bool {
    let pool = made(rt, pool);
    two_at_once(rt, &pool) == [true, true, true]
}

#[test]
fn two_guards_hold_two_values(rt: HostRuntime) {
    let alloc = rt.alloc();
    let letters = Letters { alloc };
    let any = Pool::with_available_parallelism_capacity(alloc, 4, letters);
    let any = holds_two(&rt, any);
    let new = holds_two(&rt, Pool::new(alloc, letters));
    assert!(rt; any && new && holds_two(&rt, Pool::with_capacity(alloc, 1, letters)));
}

/// Whether the value is in this place and is this text.
fn is_kept(guard: &PoolGuard<'_, String, Letters>, place: (usize, u128), text: &str) -> bool {
    place_of(guard) == place && guard.value().as_str() == text
}

/// Whether two values that are taken at once are the letters of `two_at_once`, the first of each stack.
fn are_kept<R: Abort + Wait>(rt: &R, pool: &Pool<String, Letters>) -> (bool, bool) {
    let one = taken(rt, pool);
    let two = taken(rt, pool);
    let are_kept = (is_kept(&one, (0, 0), "ab"), is_kept(&two, (1, 0), "ac"));
    PoolGuard::put(one, rt);
    PoolGuard::put(two, rt);
    are_kept
}

#[test]
fn values_come_back_from_each_stack(rt: HostRuntime) {
    let alloc = rt.alloc();
    let pool = made(&rt, Pool::with_capacity(alloc, 2, Letters { alloc }));
    let told = (two_at_once(&rt, &pool), are_kept(&rt, &pool));
    assert!(rt; told == ([true, true, true], (true, true)));
}

/// The number of a value that is taken, and then dropped or put back.
fn number_of<R: Wait>(rt: &R, pool: &Pool<String, Letters>, is_dropped: bool) -> Option<u128> {
    let guard = pool.get(rt).ok()?;
    let number = guard.number();
    if is_dropped {
        drop(guard);
    } else {
        PoolGuard::put(guard, rt);
    }
    Some(number)
}

#[test]
fn a_dropped_guard_keeps_its_number(rt: HostRuntime) {
    let alloc = rt.alloc();
    let pool = made(&rt, Pool::with_capacity(alloc, 1, Letters { alloc }));
    let dropped = number_of(&rt, &pool, true);
    let next = number_of(&rt, &pool, false);
    let again = number_of(&rt, &pool, false);
    assert!(rt; (dropped, next, again) == (Some(0), Some(1), Some(1)));
}

/// How often a caller yields until it has seen the other's guard.
const YIELDS: u32 = 1_000_000;

/// Whether the other caller says, before so many yields, that it holds a value.
fn is_seen(others: &AtomicBool) -> bool {
    for _ in 0..YIELDS {
        if others.load(Ordering::SeqCst) {
            return true;
        }
        yield_now();
    }
    false
}

/// Takes a value, says so, and holds it until the other caller said the same; whether it did.
fn holds_until_seen<R: Wait>(
    rt: &R,
    pool: &Pool<String, Letters>,
    mine: &AtomicBool,
    others: &AtomicBool,
) -> Result<bool, Memory> {
    let guard = pool.get(rt)?;
    mine.store(true, Ordering::SeqCst);
    let seen = is_seen(others);
    PoolGuard::put(guard, rt);
    Ok(seen)
}

#[test]
fn two_callers_hold_guards_at_once(rt: HostRuntime) {
    let alloc = rt.alloc();
    let pool = made(&rt, Pool::with_capacity(alloc, 1, Letters { alloc }));
    let one = AtomicBool::new(false);
    let two = AtomicBool::new(false);
    let seen = join(
        &rt,
        || holds_until_seen(&rt, &pool, &one, &two),
        || holds_until_seen(&rt, &pool, &two, &one),
    );
    assert!(rt; seen == (Ok(true), Ok(true)));
}
