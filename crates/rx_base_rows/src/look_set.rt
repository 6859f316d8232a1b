//! Tests of sets of look-arounds.

use rx_search::{Look, LookSet};

/// The kinds of a set of at most three, in order.
fn kinds(set: LookSet) -> [Option<Look>; 4] {
    let mut kinds = set.iter();
    [kinds.next(), kinds.next(), kinds.next(), kinds.next()]
}

#[test]
fn has_what_was_put_in(rt: HostRuntime) {
    let ends = LookSet::empty().insert(Look::End).insert(Look::Start);
    let words = LookSet::empty()
        .insert(Look::WordEndHalfUnicode)
        .insert(Look::Start);
    let has = [
        ends.contains(Look::End),
        ends.contains(Look::EndLF),
        ends.is_empty(),
    ];
    assert!(rt; has == [true, false, false]);
    let common = ends.intersect(words);
    assert!(rt; kinds(common) == [Some(Look::Start), None, None, None]);
    let none = common.remove(Look::Start);
    assert!(rt; (none.is_empty(), none == LookSet::empty()) == (true, true));
    let both = [
        Some(Look::Start),
        Some(Look::End),
        Some(Look::WordEndHalfUnicode),
        None,
    ];
    assert!(rt; kinds(ends.union(words)) == both);
}
