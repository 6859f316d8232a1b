//! Runs over ends in memory: some of the worked examples, and ends that give and take a few bytes at a time, or fail.

use crate::words::words_of;
use rx_scan::{Bytes, Kept, run};
use rx_search::{Gate, Open};
use std::alloc::Global;
use std::process::Abort;
use std::sync::Wait;
use std::thread::Threads;

/// A run: words, the bytes of the input, how many of them a read gives at most and which reads fail, how many a write takes at
/// most and which writes fail, the status, and what the sink has at the end.
#[derive(Drop)]
struct Row<'a> {
    words: &'a [&'a str],
    input: &'a [u8],
    reads: (usize, &'a [usize]),
    writes: (usize, &'a [usize]),
    status: u8,
    held: &'a [u8],
}

static ROWS: [Row<'static>; 8] = [
    Row {
        words: &["scan"],
        input: b"a*\n\nba\n",
        reads: (2, &[]),
        writes: (3, &[]),
        status: 0,
        held: b"1:0:0..0\n1:0:1..2\n",
    },
    Row {
        words: &["scan", "3", "off:bp"],
        input: b"b\n(a)|c(d)\n\nab\n\xe2\x98\x83cd",
        reads: (2, &[]),
        writes: (3, &[]),
        status: 0,
        held: b"1:1:0..1 1=0..1 2=-\n1:0:1..2\n2:1:3..5 1=- 2=4..5\n",
    },
    Row {
        words: &["scan"],
        input: b"a\nb)\n[\n\na\n",
        reads: (2, &[]),
        writes: (3, &[]),
        status: 1,
        held: b"pattern 1: unopened group\n",
    },
    Row {
        words: &["scan", "65"],
        input: b"a\n\na\n",
        reads: (2, &[]),
        writes: (3, &[]),
        status: 2,
        held: b"usage: rxscan scan [W] [off:LETTERS]\n",
    },
    Row {
        words: &["scan"],
        input: b"a\xff",
        reads: (2, &[]),
        writes: (3, &[]),
        status: 3,
        held: b"input is not UTF-8 at byte 1\n",
    },
    Row {
        words: &["scan"],
        input: b"a{327673}\n\na\n",
        reads: (2, &[]),
        writes: (3, &[]),
        status: 5,
        held: b"patterns too big\n",
    },
    Row {
        words: &["scan"],
        input: b"a*\n\nba\n",
        reads: (1, &[]),
        writes: (1, &[]),
        status: 0,
        held: b"1:0:0..0\n1:0:1..2\n",
    },
    Row {
        words: &["scan"],
        input: b"[a-zA-Z]+ing\n\ntingling\n",
        reads: (64, &[]),
        writes: (3, &[1]),
        status: 7,
        held: b"1:0",
    },
];

/// A source of these bytes.
pub(crate) fn source_of(
    rt: &impl Abort,
    alloc: Global,
    input: &[u8],
    reads: (usize, &[usize]),
) -> Bytes {
    let (most, failing) = reads;
    let input = Vec::from_slice(alloc, input).ok().expect(rt, "memory");
    let failing = Vec::from_slice(alloc, failing).ok().expect(rt, "memory");
    Bytes::new(input, most.max(1), failing)
}

/// A sink.
pub(crate) fn sink_of(rt: &impl Abort, alloc: Global, writes: (usize, &[usize])) -> Kept {
    let (most, failing) = writes;
    let failing = Vec::from_slice(alloc, failing).ok().expect(rt, "memory");
    Kept::new(alloc, most.max(1), failing)
}

/// The status with which a run ends.
pub(crate) fn status_of<R: Threads + Wait + Sync + Abort, G: Gate + Sync>(
    rt: &R,
    alloc: Global,
    words: &[&str],
    source: &mut Bytes,
    sink: &mut Kept,
    gate: &G,
) -> u8 {
    let words = words_of(alloc, words).ok().expect(rt, "memory");
    run(rt, alloc, &words, source, sink, gate)
}

/// Whether the run ends as the row says.
fn ends_so<R: Threads + Wait + Sync + Abort>(rt: &R, alloc: Global, row: &Row<'_>) -> bool {
    let mut source = source_of(rt, alloc, row.input, row.reads);
    let mut sink = sink_of(rt, alloc, row.writes);
    let status = status_of(rt, alloc, row.words, &mut source, &mut sink, &Open);
    status == row.status && sink.held() == Some(row.held)
}

/// The number of the first row whose run ends otherwise.
fn first_wrong<R: Threads + Wait + Sync + Abort>(
    rt: &R,
    alloc: Global,
    rows: &[Row<'_>],
) -> Option<usize> {
    for k in 0..rows.len() {
        if !ends_so(rt, alloc, &rows[k]) {
            return Some(k);
        }
    }
    None
}

#[test]
fn runs_end_as_the_rows_say(rt: HostRuntime) {
    assert_eq!(rt; first_wrong(&rt, rt.alloc(), &ROWS), None);
}

/// The run of the first row, with these ends of one byte at a time.
fn in_bytes<'a>(
    reads: &'a [usize],
    writes: &'a [usize],
    status: u8,
    held: &'static [u8],
) -> Row<'a> {
    Row {
        words: &["scan"],
        input: b"a*\n\nba\n",
        reads: (1, reads),
        writes: (1, writes),
        status,
        held,
    }
}

/// What the run of the first row writes.
const TEXT: &[u8] = b"1:0:0..0\n1:0:1..2\n";

/// Fails at each write in turn, of one byte each.
#[test]
fn a_sink_fails_at_each_write(rt: HostRuntime) {
    for call in 0..TEXT.len() {
        let failing = [call];
        let row = in_bytes(&[], &failing, 7, &TEXT[..call]);
        assert!(rt; ends_so(&rt, rt.alloc(), &row));
    }
}

/// Fails at each read in turn, of one byte each; the last one is that at the end of the input.
#[test]
fn a_source_fails_at_each_read(rt: HostRuntime) {
    for call in 0..8 {
        let failing = [call];
        let row = in_bytes(&failing, &[], 6, b"");
        assert!(rt; ends_so(&rt, rt.alloc(), &row));
    }
}
