//! Tests of byte classes.

use rx_search::*;
use std::alloc::Global;

/// How many classes there are, with that of the end, and the logarithm of a row's length.
fn sizes(classes: &ByteClasses) -> (usize, usize) {
    (classes.alphabet_len(), classes.stride2())
}

/// Whether these bytes stand for the classes.
fn are_representatives(alloc: Global, classes: &ByteClasses, want: &[u8]) -> bool {
    match classes.representatives(alloc) {
        Ok(bytes) => bytes.as_slice() == want,
        Err(_) => false,
    }
}

// The letters of `[a-c]` and of `[c-e]`: below, a-b, c, d-e, above.
#[test]
fn ranges_that_overlap_are_told_apart(rt: HostRuntime) {
    let mut set = ByteClassSet::new();
    set.set_range(b'a', b'c');
    set.set_range(b'c', b'e');
    let classes = set.byte_classes();
    let found = [
        classes.get(0),
        classes.get(b'a'),
        classes.get(b'b'),
        classes.get(b'c'),
        classes.get(b'd'),
        classes.get(b'e'),
        classes.get(b'f'),
        classes.get(0xFF),
    ];
    assert!(rt; found == [0, 1, 1, 2, 3, 3, 4, 4] && sizes(&classes) == (6, 3));
    assert!(rt; are_representatives(rt.alloc(), &classes, &[0, b'a', b'c', b'd', b'f']));
}

#[test]
fn all_bytes_or_each_alone(rt: HostRuntime) {
    let each = ByteClasses::singletons();
    let found = (sizes(&ByteClasses::empty()), sizes(&each), each.get(0x7F));
    assert!(rt; found == ((2, 1), (257, 9), 0x7F));
}
