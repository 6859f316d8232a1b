//! Tests of sets of patterns.

use rx_search::*;

/// How many patterns there is room for, how many it has, and whether it has none or all.
fn sizes(set: &PatternSet) -> (usize, usize, bool, bool) {
    (set.capacity(), set.len(), set.is_empty(), set.is_full())
}

/// The first three members of a copy, and how many it has.
fn copied(set: &PatternSet) -> Option<([Option<PatternID>; 3], usize)> {
    match set.clone() {
        Ok(copy) => {
            let mut members = copy.iter();
            Some(([members.next(), members.next(), members.next()], copy.len()))
        }
        Err(_) => None,
    }
}

#[test]
fn has_what_was_put_in(rt: HostRuntime) {
    let last = PatternID::new(2).expect(&rt, "an identifier");
    let mut set = PatternSet::new(rt.alloc(), 3).ok().expect(&rt, "memory");
    let before = sizes(&set);
    let new = [
        set.insert(last),
        set.insert(last),
        set.insert(PatternID::ZERO),
    ];
    let after = sizes(&set);
    let has = [set.contains(last), set.contains(PatternID::MAX)];
    let copied = copied(&set);
    set.clear();
    assert!(rt; (before, after) == ((3, 0, true, false), (3, 2, false, false)));
    assert!(rt; new == [true, false, true]);
    assert!(rt; has == [true, false] && set.is_empty());
    assert!(rt; copied == Some(([Some(PatternID::ZERO), Some(last), None], 2)));
}
