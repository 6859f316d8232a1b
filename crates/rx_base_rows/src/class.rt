//! Tests of classes.

use rx_class::*;
use rx_search::Memory;
use std::alloc::Global;

/// Whether there is a class, these are its ranges, and it is one of ASCII or not.
fn has(class: Result<ClassUnicode, Memory>, ranges: &[(char, char)], is_ascii: bool) -> bool {
    match class {
        Ok(class) => class.ranges() == ranges && class.is_ascii() == is_ascii,
        Err(_) => false,
    }
}

/// The same of a class of bytes.
fn has_bytes(class: Result<ClassBytes, Memory>, ranges: &[(u8, u8)], is_ascii: bool) -> bool {
    match class {
        Ok(class) => class.ranges() == ranges && class.is_ascii() == is_ascii,
        Err(_) => false,
    }
}

/// Ranges that touch over the surrogates, and one that is none.
const TOUCHING: [(char, char); 4] = [
    ('\u{E000}', '\u{E001}'),
    ('b', '\u{D7FF}'),
    ('z', 'a'),
    ('a', 'a'),
];

#[test]
fn fewest_ranges(rt: HostRuntime) {
    let alloc = rt.alloc();
    assert!(rt;
        has(
            ClassUnicode::new(alloc, &TOUCHING),
            &[('a', '\u{E001}')],
            false
        )
    );
    let class = ClassBytes::new(alloc, &[(8, 9), (0xFF, 0xFF), (0, 6)]);
    assert!(rt; has_bytes(class, &[(0, 6), (8, 9), (0xFF, 0xFF)], false));
}

/// The digits, with `:` and the letters from `x` on.
fn both(alloc: Global) -> Result<ClassUnicode, Memory> {
    let digits = ClassUnicode::new(alloc, &[('0', '9')])?;
    digits.union(&ClassUnicode::new(alloc, &[(':', ':'), ('x', 'z')])?)
}

/// All bytes up to 9 but 7, with 7.
fn both_of_bytes(alloc: Global) -> Result<ClassBytes, Memory> {
    let bytes = ClassBytes::new(alloc, &[(8, 9), (0, 6)])?;
    bytes.union(&ClassBytes::new(alloc, &[(7, 7)])?)
}

#[test]
fn unions(rt: HostRuntime) {
    assert!(rt; has(both(rt.alloc()), &[('0', ':'), ('x', 'z')], true));
    assert!(rt; has_bytes(both_of_bytes(rt.alloc()), &[(0, 9)], true));
}

/// The complement of the class of these ranges.
fn rest(alloc: Global, ranges: &[(char, char)]) -> Result<ClassUnicode, Memory> {
    ClassUnicode::new(alloc, ranges)?.complement(alloc)
}

/// The complement of the empty class.
fn all(alloc: Global) -> Result<ClassUnicode, Memory> {
    ClassUnicode::empty(alloc)?.complement(alloc)
}

/// The complement of the class of this byte.
fn rest_of_byte(alloc: Global, byte: u8) -> Result<ClassBytes, Memory> {
    ClassBytes::new(alloc, &[(byte, byte)])?.complement(alloc)
}

#[test]
fn complements(rt: HostRuntime) {
    let alloc = rt.alloc();
    let class = rest(alloc, &[('b', '\u{D7FF}')]);
    assert!(rt; has(class, &[('\0', 'a'), ('\u{E000}', char::MAX)], false));
    assert!(rt; has(all(alloc), &[('\0', char::MAX)], false));
    let class = rest_of_byte(alloc, b'a');
    assert!(rt; has_bytes(class, &[(0, 0x60), (0x62, 0xFF)], false));
}

/// The folding of the class of one range.
fn folded(alloc: Global, range: (char, char)) -> Result<ClassUnicode, Memory> {
    ClassUnicode::new(alloc, &[range])?.case_fold_simple()
}

/// The same of bytes.
fn folded_bytes(alloc: Global, ranges: &[(u8, u8)]) -> Result<ClassBytes, Memory> {
    ClassBytes::new(alloc, ranges)?.case_fold_simple()
}

/// A range, the ranges of its folding, and whether they are ASCII.
const FOLDINGS: [((char, char), &[(char, char)], bool); 4] = [
    (('1', '1'), &[('1', '1')], true),
    (
        ('k', 'k'),
        &[('K', 'K'), ('k', 'k'), ('\u{212A}', '\u{212A}')],
        false,
    ),
    (('ſ', 'ſ'), &[('S', 'S'), ('s', 's'), ('ſ', 'ſ')], false),
    (('a', 'j'), &[('A', 'J'), ('a', 'j')], true),
];

#[test]
fn foldings(rt: HostRuntime) {
    let alloc = rt.alloc();
    for (range, ranges, is_ascii) in FOLDINGS {
        assert!(rt; has(folded(alloc, range), ranges, is_ascii));
    }
    let class = folded_bytes(alloc, &[(b'k', 0xFF), (b'B', b'C')]);
    let wanted = [(b'B', b'C'), (b'K', b'Z'), (b'b', b'c'), (b'k', 0xFF)];
    assert!(rt; has_bytes(class, &wanted, false));
}
