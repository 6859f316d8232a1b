//! Scans with several workers.

use crate::ends::{sink_of, source_of, status_of};
use rx_meta::{Regex, WhichCaptures};
use rx_scan::{Row, Slots, scan};
use rx_search::{Gate, NonMaxUsize, Open};
use std::alloc::Global;
use std::process::Abort;
use std::sync::Wait;
use std::sync::atomic::{AtomicBool, AtomicU64, Ordering};
use std::thread::{Threads, yield_now};

/// A row: the number of its pattern, and the places in its slots.
type Told = (usize, &'static [Option<usize>]);

/// The place that a slot holds.
fn place(slot: Option<NonMaxUsize>) -> Option<usize> {
    match slot {
        Some(place) => Some(place.get()),
        None => None,
    }
}

/// Whether the slots hold these places.
fn hold(slots: &[Option<NonMaxUsize>], places: &[Option<usize>]) -> bool {
    for k in 0..slots.len() {
        if k >= places.len() || place(slots[k]) != places[k] {
            return false;
        }
    }
    slots.len() == places.len()
}

/// Whether this is the row.
fn is_told(row: &Row, told: Told) -> bool {
    let (pattern, places) = told;
    row.pattern.as_usize() == pattern && hold(row.slots.as_slice(), places)
}

/// Whether these are the rows of a haystack.
fn are_told(rows: &[Row], told: &[Told]) -> bool {
    for k in 0..rows.len() {
        if k >= told.len() || !is_told(&rows[k], told[k]) {
            return false;
        }
    }
    rows.len() == told.len()
}

/// Whether these are the rows of each haystack.
fn are_all_told(rows: &[Vec<Row>], told: &[&[Told]]) -> bool {
    for k in 0..rows.len() {
        if k >= told.len() || !are_told(&rows[k], told[k]) {
            return false;
        }
    }
    rows.len() == told.len()
}

/// Whether a scan of the haystacks, by so many workers, gives these rows.
fn scans_so<R: Threads + Wait + Sync + Abort>(
    rt: &R,
    alloc: Global,
    regex: &Regex,
    haystacks: &[&[u8]],
    workers: usize,
    told: &[&[Told]],
) -> bool {
    let rows = scan(rt, alloc, regex, haystacks, workers.max(1), &Open);
    are_all_told(&rows.ok().expect(rt, "memory"), told)
}

/// What a scan of `xab`, of nothing and of `ca` tells for two patterns.
const THREE: [&[Told]; 3] = [
    &[(0, &[Some(1), Some(3), Some(2), Some(3)])],
    &[],
    &[
        (1, &[Some(0), Some(1)]),
        (0, &[Some(1), Some(2), None, None]),
    ],
];

/// Whether so many workers, with so many caches at most to exchange, scan three haystacks for two patterns.
fn scan_three<R: Threads + Wait + Sync + Abort>(
    rt: &R,
    alloc: Global,
    workers: usize,
    caches: usize,
) -> bool {
    let mut builder = Regex::builder();
    builder.configure(Regex::config().pool_capacity(caches));
    let regex = builder.build_many(alloc, &["a(b)?", "c"]);
    let regex = regex.ok().expect(rt, "a regex");
    scans_so(rt, alloc, &regex, &[b"xab", b"", b"ca"], workers, &THREE)
}

/// One worker, two, and more than there are haystacks; and three with one cache, so that two may have to make their own.
#[test]
fn the_number_of_workers_changes_no_row(rt: HostRuntime) {
    for (workers, caches) in [(1, 8), (2, 8), (64, 8), (3, 1)] {
        assert!(rt; scan_three(&rt, rt.alloc(), workers, caches));
    }
}

/// Whether slots that are made of a vector come back in one.
fn come_back(rt: &impl Abort, alloc: Global, places: &[Option<NonMaxUsize>]) -> bool {
    let slots = Slots::new(Vec::from_slice(alloc, places).ok().expect(rt, "memory"));
    let are_there = slots.as_slice() == places;
    let slots = slots.into_vec(alloc).ok().expect(rt, "memory");
    are_there && slots.as_slice() == places
}

/// Whether or not they are kept in it.
#[test]
fn a_rows_slots_come_back(rt: HostRuntime) {
    let places = [
        NonMaxUsize::new(1),
        None,
        NonMaxUsize::new(2),
        NonMaxUsize::new(3),
    ];
    for len in 0..places.len() + 1 {
        assert!(rt; come_back(&rt, rt.alloc(), &places[..len]));
    }
}

/// Whether the rows of `(a)b` in `xab` are these where these groups are told.
fn are_told_under<R: Threads + Wait + Sync + Abort>(
    rt: &R,
    alloc: Global,
    which: WhichCaptures,
    told: &[&[Told]],
) -> bool {
    let mut builder = Regex::builder();
    builder.configure(Regex::config().which_captures(which));
    let regex = builder.build(alloc, "(a)b").ok().expect(rt, "a regex");
    scans_so(rt, alloc, &regex, &[b"xab"], 1, told)
}

#[test]
fn groups_that_are_left_out_have_no_place(rt: HostRuntime) {
    let whole: [&[Told]; 1] = [&[(0, &[Some(1), Some(3), None, None])]];
    assert!(rt; are_told_under(&rt, rt.alloc(), WhichCaptures::Implicit, &whole));
    let none: [&[Told]; 1] = [&[]];
    assert!(rt; are_told_under(&rt, rt.alloc(), WhichCaptures::None, &none));
}

/// A gate that is told of haystacks: the bits of those that it was told of, each of which comes after all before it, and
/// how often it was told.
#[derive(Drop)]
struct InOrder {
    told: AtomicU64,
    calls: AtomicU64,
}

impl InOrder {
    /// That was told of none yet.
    fn new() -> InOrder {
        InOrder {
            told: AtomicU64::new(0),
            calls: AtomicU64::new(0),
        }
    }

    /// The bits, and how often it was told.
    fn seen(&self) -> (u64, u64) {
        (
            self.told.load(Ordering::SeqCst),
            self.calls.load(Ordering::SeqCst),
        )
    }
}

impl Gate for InOrder {
    fn reached(&self, index: usize) {
        self.calls.fetch_add(1, Ordering::SeqCst);
        let bit = if index < 64 { 1u64 << index } else { 0 };
        // Where all before it were told, and no other, this is the number of those bits.
        if self.told.load(Ordering::SeqCst) == bit.wrapping_sub(1) {
            self.told.fetch_or(bit, Ordering::SeqCst);
        }
    }
}

/// What the gate of a scan of three haystacks was told.
fn seen_in_scan<R: Threads + Wait + Sync + Abort>(rt: &R, alloc: Global) -> (u64, u64) {
    let regex = Regex::new(alloc, "a").ok().expect(rt, "a regex");
    let gate = InOrder::new();
    let rows = scan(rt, alloc, &regex, &[b"a", b"", b"ba"], 1, &gate);
    rows.ok().expect(rt, "memory");
    gate.seen()
}

/// What the gate of a run over four haystacks was told.
fn seen_in_run<R: Threads + Wait + Sync + Abort>(rt: &R, alloc: Global) -> (u64, u64) {
    let mut source = source_of(rt, alloc, b"a\n\na\n\nba\nb", (64, &[]));
    let mut sink = sink_of(rt, alloc, (64, &[]));
    let gate = InOrder::new();
    status_of(rt, alloc, &["scan", "1"], &mut source, &mut sink, &gate);
    gate.seen()
}

#[test]
fn one_worker_comes_to_each_haystack_once_in_order(rt: HostRuntime) {
    assert!(rt; seen_in_scan(&rt, rt.alloc()) == (0b111, 3));
    assert!(rt; seen_in_run(&rt, rt.alloc()) == (0b1111, 4));
}

/// How often a held worker yields at most.
const YIELDS: usize = 1000000;

/// A gate that holds the worker of haystack 0 up until haystack 1 is reached.
#[derive(Drop)]
struct HoldFirst {
    reached: AtomicBool,
    seen: AtomicBool,
}

impl HoldFirst {
    /// That was told of no haystack yet.
    fn new() -> HoldFirst {
        HoldFirst {
            reached: AtomicBool::new(false),
            seen: AtomicBool::new(false),
        }
    }
}

impl Gate for HoldFirst {
    fn reached(&self, index: usize) {
        if index == 1 {
            self.reached.store(true, Ordering::SeqCst);
        }
        if index == 0 {
            for _ in 0..YIELDS {
                if self.reached.load(Ordering::SeqCst) {
                    self.seen.store(true, Ordering::SeqCst);
                    return;
                }
                yield_now();
            }
        }
    }
}

/// Whether haystack 1 was reached while the worker of haystack 0 was held, in a scan with two workers.
fn reached_meanwhile<R: Threads + Wait + Sync + Abort>(rt: &R, alloc: Global) -> bool {
    let regex = Regex::new(alloc, "a").ok().expect(rt, "a regex");
    let gate = HoldFirst::new();
    let rows = scan(rt, alloc, &regex, &[b"a", b"ba"], 2, &gate);
    rows.ok().expect(rt, "memory");
    gate.seen.load(Ordering::SeqCst)
}

#[test]
fn two_workers_search_at_once(rt: HostRuntime) {
    assert!(rt; reached_meanwhile(&rt, rt.alloc()));
}

/// Whether haystack 1 was reached while the worker of haystack 0 was held, in a run of these words.
fn reached_in_run<R: Threads + Wait + Sync + Abort>(rt: &R, alloc: Global, words: &[&str]) -> bool {
    let mut source = source_of(rt, alloc, b"a\n\na\nba\n", (64, &[]));
    let mut sink = sink_of(rt, alloc, (64, &[]));
    let gate = HoldFirst::new();
    status_of(rt, alloc, words, &mut source, &mut sink, &gate);
    gate.seen.load(Ordering::SeqCst)
}

/// Words of runs over two haystacks, each with two workers: by a number, by none, and under `gen`.
const RUNS: [&[&str]; 3] = [&["scan", "2"], &["scan"], &["gen", "1", "2", "2"]];

#[test]
fn a_run_has_the_workers_of_its_words(rt: HostRuntime) {
    for words in RUNS {
        assert!(rt; reached_in_run(&rt, rt.alloc(), words));
    }
}
