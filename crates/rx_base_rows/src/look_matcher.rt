//! Tests of look-arounds. Where each kind holds is shown by `tests/looks.txt`.

use rx_search::{Look, LookMatcher, LookSet};

/// The starts and ends of the text and of lines.
const LINES: [Look; 6] = [
    Look::Start,
    Look::End,
    Look::StartLF,
    Look::EndLF,
    Look::StartCRLF,
    Look::EndCRLF,
];

/// Whether this is told of a kind: `x` for each place of the text where it holds, and `-` for each other one.
fn is_told_of(matcher: &LookMatcher, kind: Look, text: &[u8], want: &[u8]) -> bool {
    if want.len() != text.len() + 1 {
        return false;
    }
    for at in 0..text.len() + 1 {
        if matcher.matches(kind, text, at) != (want[at] == b'x') {
            return false;
        }
    }
    true
}

/// Whether this is told of each kind in turn.
fn is_told(matcher: &LookMatcher, text: &[u8], want: &[&[u8]; 6]) -> bool {
    for k in 0..6 {
        if !is_told_of(matcher, LINES[k], text, want[k]) {
            return false;
        }
    }
    true
}

/// `a;b` and a line feed, where `;` ends a line.
const SEMICOLON: [&[u8]; 6] = [b"x----", b"----x", b"x-x--", b"-x--x", b"x---x", b"---xx"];

/// `a`, the byte 255 and a line feed, where that byte ends a line.
const LAST_BYTE: [&[u8]; 6] = [b"x---", b"---x", b"x-x-", b"-x-x", b"x--x", b"--xx"];

/// The line terminator before and after it is set, and whether this is told then.
fn told_by(matcher: &mut LookMatcher, byte: u8, text: &[u8], want: &[&[u8]; 6]) -> (u8, u8, bool) {
    let before = matcher.get_line_terminator();
    matcher.set_line_terminator(byte);
    let after = matcher.get_line_terminator();
    (before, after, is_told(matcher, text, want))
}

#[test]
fn lines_end_in_the_terminator(rt: HostRuntime) {
    let mut matcher = LookMatcher::new();
    let semicolon = told_by(&mut matcher, b';', b"a;b\n", &SEMICOLON);
    let last = told_by(&mut matcher, 0xFF, b"a\xFF\n", &LAST_BYTE);
    assert!(rt; (semicolon, last) == ((b'\n', b';', true), (b';', 0xFF, true)));
}

/// Whether a line starts and no word starts or ends, at each place of the text.
#[test]
fn sets_hold_where_each_kind_does(rt: HostRuntime) {
    let matcher = LookMatcher::new();
    let both = LookSet::empty()
        .insert(Look::StartLF)
        .insert(Look::WordAsciiNegate);
    let mut holds = [false; 6];
    for at in 0..6 {
        holds[at] = matcher.matches_set(both, b"\n\nab\n", at);
    }
    assert!(rt; holds == [true, true, false, false, false, true]);
    assert!(rt; matcher.matches_set(LookSet::empty(), b"a", 1));
}
