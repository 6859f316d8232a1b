//! Tests of named sets.

use rx_class::ClassUnicode;
use rx_search::Memory;
use rx_sets::*;
use std::alloc::Global;

/// A character, whether a group's name may begin with it, and whether a name may go on with it.
const CAPTURE_CHARS: [(char, bool, bool); 8] = [
    ('_', true, true),
    ('\u{3b2}', true, true),
    ('7', false, true),
    ('.', false, true),
    ('[', false, true),
    (']', false, true),
    ('-', false, false),
    ('\u{663}', false, false),
];

#[test]
fn names_of_groups(rt: HostRuntime) {
    for (c, begins, goes_on) in CAPTURE_CHARS {
        assert!(rt; (is_capture_char(c, true), is_capture_char(c, false)) == (begins, goes_on));
    }
}

/// How many ranges a class has, the first one and the last one.
fn ends(class: Result<ClassUnicode, Memory>) -> Option<(usize, (char, char), (char, char))> {
    match class {
        Ok(class) => match class.ranges() {
            [] => None,
            [first, .., last] => Some((class.ranges().len(), *first, *last)),
            [only] => Some((1, *only, *only)),
        },
        Err(_) => None,
    }
}

#[test]
fn perl_classes(rt: HostRuntime) {
    let alloc = rt.alloc();
    let spaces = Some((10, ('\t', '\r'), ('\u{3000}', '\u{3000}')));
    assert!(rt; ends(ClassPerlKind::Space.unicode(alloc)) == spaces);
    let digits = ends(ClassPerlKind::Digit.unicode(alloc)).map(|(_, first, _)| first);
    let words = ends(ClassPerlKind::Word.unicode(alloc)).map(|(_, first, _)| first);
    assert!(rt; (digits, words) == (Some(('0', '9')), Some(('0', '9'))));
    assert!(rt; ClassPerlKind::Word.ascii() == ClassAsciiKind::Word);
}

#[test]
fn ascii_classes(rt: HostRuntime) {
    let name = ['x', 'd', 'i', 'g', 'i', 't'];
    let named = (
        ClassAsciiKind::from_name(&name),
        ClassAsciiKind::from_name(&['w', 'o', 'r']),
    );
    assert!(rt; named == (Some(ClassAsciiKind::Xdigit), None));
    assert!(rt; ClassAsciiKind::Space.ranges().len() == 2);
}

/// How many ranges the class of this name has, if there is one.
fn ranges_of(alloc: Global, name: &[char]) -> Option<usize> {
    match property(alloc, name) {
        Ok(Some(class)) => Some(class.ranges().len()),
        _ => None,
    }
}

#[test]
fn properties(rt: HostRuntime) {
    let alloc = rt.alloc();
    let found = [
        ranges_of(alloc, &['A', 'S', 'C', 'I', 'I']),
        // The surrogates lie between two scalars that count as neighbours.
        ranges_of(alloc, &['a', 'n', 'y']),
        ranges_of(alloc, &['C', 's']),
        ranges_of(alloc, &['N', 'o', 'p', 'e']),
        ranges_of(alloc, &['s', 'c', '=', 'G', 'r', 'e', 'e', 'k']),
    ];
    assert!(rt; found == [Some(1), Some(1), Some(0), None, None]);
    let named = (
        ranges_of(alloc, &['G', 'r', 'e', 'e', 'k']).is_some(),
        ranges_of(alloc, &['N']).is_some(),
    );
    assert!(rt; named == (true, true));
}
