//! Tests of captures.

use crate::group_info::info_of;
use rx_search::*;
use std::alloc::Global;
use std::process::Abort;

/// One pattern with a group that is named `k`.
fn groups(rt: &impl Abort, alloc: Global) -> GroupInfo {
    let info = info_of(alloc, &[&["", "k"]]);
    info.ok().expect(rt, "groups")
}

/// The number of slots, whether a match is told, how many groups are, and how many slots the groups have.
fn room(captures: Result<Captures, Memory>) -> Option<(usize, bool, usize, usize)> {
    match captures {
        Ok(captures) => Some((
            captures.slots().len(),
            captures.is_match(),
            captures.group_len(),
            captures.group_info().slot_len(),
        )),
        Err(_) => None,
    }
}

#[test]
fn room_for_all_groups_or_fewer(rt: HostRuntime) {
    let alloc = rt.alloc();
    let groups = groups(&rt, alloc);
    let rooms = [
        room(Captures::all(alloc, &groups)),
        room(Captures::matches(alloc, &groups)),
        room(Captures::empty(alloc, &groups)),
    ];
    assert!(rt;
        rooms
            == [
                Some((4, false, 0, 4)),
                Some((2, false, 0, 4)),
                Some((0, false, 0, 4))
            ]
    );
}

/// Puts these places into the slots.
fn put(slots: &mut [Option<NonMaxUsize>], places: [usize; 4]) {
    for k in 0..slots.len() {
        if k < 4 {
            slots[k] = NonMaxUsize::new(places[k]);
        }
    }
}

/// The match of `a(b)?` on `xab`.
fn matched(rt: &impl Abort, alloc: Global) -> Captures {
    let made = Captures::all(alloc, &groups(rt, alloc)).ok();
    let mut captures = made.expect(rt, "memory");
    captures.set_pattern(Some(PatternID::ZERO));
    put(captures.slots_mut(), [1, 3, 2, 3]);
    captures
}

/// The spans of the match and of its group, by its number and by its name, and of one that is not there.
fn spans(captures: &Captures) -> [Option<Span>; 4] {
    [
        captures.get_group(0),
        captures.get_group(1),
        captures.get_group_by_name("k"),
        captures.get_group(2),
    ]
}

/// The first three spans of a copy, in order.
fn copied(captures: &Captures) -> Option<[Option<Option<Span>>; 3]> {
    match captures.clone() {
        Ok(copy) => {
            let mut spans = copy.iter();
            Some([spans.next(), spans.next(), spans.next()])
        }
        Err(_) => None,
    }
}

/// What is told after `clear`: a match, the span of one, and the slots.
fn cleared(captures: &mut Captures) -> (bool, bool, usize) {
    captures.clear();
    (
        captures.get_match().is_some(),
        captures.get_group(0).is_some(),
        captures.slots().len(),
    )
}

#[test]
fn groups_of_a_match(rt: HostRuntime) {
    let mut captures = matched(&rt, rt.alloc());
    let (pattern, spans) = (captures.pattern(), spans(&captures));
    let (copied, cleared) = (copied(&captures), cleared(&mut captures));
    let whole = Some(Span { start: 1, end: 3 });
    let group = Some(Span { start: 2, end: 3 });
    assert!(rt; pattern == Some(PatternID::ZERO) && spans == [whole, group, group, None]);
    assert!(rt; copied == Some([Some(whole), Some(group), None]));
    assert!(rt; cleared == (false, false, 4));
}
