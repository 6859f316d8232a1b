//! Tests of slots and draws.

use rx_slots::{Draws, SlotPool};

#[test]
fn a_slot_is_in_one_hand(rt: HostRuntime) {
    let alloc = rt.alloc();
    let values = vec![in alloc; 'a'; 1].ok().expect(&rt, "memory");
    let made = SlotPool::new(alloc, values).ok();
    let (pool, mut first) = made.expect(&rt, "memory");
    let mut second = pool.split(&mut first);
    let Ok((turn, value)) = pool.take(&mut first, 0) else {
        panic!(rt; "the slot is free")
    };
    let Err(found) = pool.take(&mut second, 0) else {
        panic!(rt; "the slot is in another hand")
    };
    pool.join(&mut first, second);
    pool.put(&mut first, 0, turn, value);
    let again = pool.take(&mut first, 0).ok();
    assert!(rt; (turn, value, found, again) == (1, 'a', 1, Some((3, 'a'))));
}

#[test]
fn each_number_is_drawn_once(rt: HostRuntime) {
    let made = Draws::new(rt.alloc(), 2, 1).ok();
    let (draws, mut seat) = made.expect(&rt, "memory");
    let Some(first) = draws.draw(&mut seat) else {
        panic!(rt; "two are left")
    };
    let Some(second) = draws.draw(&mut seat) else {
        panic!(rt; "one is left")
    };
    let last = draws.draw(&mut seat);
    assert!(rt; (first, second, last) == (0, 1, None));
}
