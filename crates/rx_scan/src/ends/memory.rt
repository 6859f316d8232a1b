//! Sources and sinks in memory.
ghost use Rattle.std.specs.Prelude.{◌≡◌, ◌<◌, ◌≤◌, ◌↔◌, [], min, length, take, Some, None, Contains, IfOk, IsErr, OnOk, OnErr};
ghost use Rattle.std.specs.Option.{option_map};
ghost use Rattle.rx_scan.specs.Ends.{HasRisen, Reads, Writes, Gains, CountsCall, counted, raised};

use crate::ends::{Failed, Sink, Source};
use crate::input::read_at_most;
use std::alloc::Global;
use std::marker::Model;

/// A source of these bytes that never fails. A contract sees the bytes that are still to come.
#[derive(Drop)]
pub struct BytesSure {
    bytes: Vec<u8>,
    at: usize,
}

impl Model for BytesSure {
    ghost use Rattle.std.specs.Prelude.{ℕ, ◌≤◌, List, drop, vec_len};

    ghost Value = { List ℕ };

    ghost view = { λ s. drop s.at s.bytes.items };

    ghost invariant = { λ s. s.at ≤ vec_len s.bytes };
}

impl BytesSure {
    /// All of these bytes are still to come.
    pub fn new(bytes: Vec<u8>) -> BytesSure
        ensures { result ≡ bytes.items }
    {
        BytesSure { bytes, at: 0 }
    }
}

/// Fills the front of the buffer with the front of the bytes, as far as both go, and answers how far.
fn copy_front(buf: &mut [u8], bytes: &[u8]) -> usize
    ensures len { (result ≤ length buf.new) × (result ≤ length bytes.now) }
    ensures most { result < length buf.new → result ≡ length bytes.now }
    ensures copied { take result buf.new ≡ take result bytes.now }
{
    let n = buf.len().min(bytes.len());
    buf[..n].copy_from_slice(&bytes[..n]);
    n
}

impl Source for BytesSure {
    ghost left = { λ s. Some s };

    ghost faults = { λ _. 0 };

    ghost reads = { λ _. None };

    fn read(&mut self, buf: &mut [u8]) -> Result<usize, Failed> {
        let n = copy_front(buf, &self.bytes[self.at..]);
        self.at += n;
        Ok(n)
    }
}

/// A source of these bytes that fails at some calls.
#[derive(Drop)]
pub struct Bytes {
    bytes: BytesSure,
    most: usize,
    failing: Vec<usize>,
    calls: usize,
    faults: u64,
}

impl Model for Bytes {
    ghost use Rattle.std.specs.Prelude.{◌<◌};
    ghost use Rattle.rx_scan.specs.Ends.{BytesValue};

    ghost Value = { BytesValue };

    ghost view = { λ s. record { left = s.bytes; most = s.most; failing = s.failing.items; calls = s.calls; faults = s.faults } };

    ghost invariant = { λ s. 0 < s.most };
}

impl Bytes {
    /// It gives at most `most` bytes at a time, and fails at the calls of these numbers, counted from 0.
    pub fn new(bytes: Vec<u8>, most: usize, failing: Vec<usize>) -> Bytes
        requires { 0 < most }
        ensures { result ≡ record { left = bytes.items; most = most; failing = failing.items; calls = 0; faults = 0 } }
    {
        Bytes {
            bytes: BytesSure::new(bytes),
            most,
            failing,
            calls: 0,
            faults: 0,
        }
    }
}

impl Source for Bytes {
    ghost left = { λ s. Some s.left };

    ghost faults = { λ s. s.faults };

    ghost reads = { λ s. counted s.calls };

    fn read(&mut self, buf: &mut [u8]) -> Result<usize, Failed>
        ensures bytes { Reads (Some self.old.left) (Some self.new.left) buf.new result }
        ensures counts { self.old.faults ≤ self.new.faults }
        ensures call { CountsCall (counted self.old.calls) (counted self.new.calls) }
        ensures failed { OnErr result (HasRisen self.old.faults self.new.faults) }
        ensures fails { IsErr result ↔ Contains self.old.failing self.old.calls }
        ensures most { IfOk result (λ n. n ≤ self.old.most) }
        ensures faults { OnOk result (self.new.faults ≡ self.old.faults) × OnErr result (self.new.faults ≡ raised self.old.faults) }
        ensures plan { (self.new.most ≡ self.old.most) × (self.new.failing ≡ self.old.failing) × (self.new.calls ≡ raised self.old.calls) }
    {
        let call = self.calls;
        self.calls = call.saturating_add(1);
        if self.failing.contains(&call) {
            self.faults = self.faults.saturating_add(1);
            return Err(Failed);
        }
        read_at_most(&mut self.bytes, buf, self.most)
    }
}

/// A sink in memory that never fails. A contract sees what it holds.
///
/// Where there is no memory for a piece, it takes the piece, and stops telling what it holds: from then on neither that
/// piece, nor what came before it or comes after it, is told.
#[derive(Drop)]
pub struct KeptSure {
    held: Vec<u8>,
    is_whole: bool,
}

impl Model for KeptSure {
    ghost use Rattle.std.specs.Prelude.{ℕ, List, Option, Some, None, if◌then◌else◌};

    ghost Value = { Option (List ℕ) };

    ghost view = { λ k. if k.is_whole then Some k.held.items else None };
}

impl KeptSure {
    /// It holds nothing yet.
    pub fn new(alloc: Global) -> KeptSure
        ensures { result ≡ Some [] }
    {
        KeptSure {
            held: Vec::new(alloc),
            is_whole: true,
        }
    }

    /// Holds these bytes too, or stops telling.
    fn keep(&mut self, piece: &[u8])
        ensures { Gains self.old self.new piece.now }
    {
        if self.is_whole && self.held.extend_from_slice(piece).is_err() {
            // The piece is taken all the same (DECISIONS: a sink in memory never fails for want of memory).
            self.is_whole = false;
        }
    }

    /// What it holds; None where memory ran out.
    pub fn held(&self) -> Option<&[u8]>
        ensures { self.now ≡ option_map (λ held. held.now) result }
    {
        if self.is_whole {
            Some(&self.held)
        } else {
            None
        }
    }
}

impl Sink for KeptSure {
    ghost held = { λ k. k };

    ghost faults = { λ _. 0 };

    fn write(&mut self, piece: &[u8]) -> Result<usize, Failed> {
        self.keep(piece);
        Ok(piece.len())
    }
}

/// A sink in memory that fails at some calls, and at no other.
///
/// What it holds is all that it may fall silent about: where there is no memory for a piece, it takes the piece and, from
/// then on, tells no bytes at all. How often it was called and has failed, how much it takes at a time, and at which calls
/// it fails it always tells.
#[derive(Drop)]
pub struct Kept {
    kept: KeptSure,
    most: usize,
    failing: Vec<usize>,
    calls: usize,
    faults: u64,
}

impl Model for Kept {
    ghost use Rattle.std.specs.Prelude.{◌<◌};
    ghost use Rattle.rx_scan.specs.Ends.{KeptValue};

    ghost Value = { KeptValue };

    ghost view = { λ k. record { held = k.kept; most = k.most; failing = k.failing.items; calls = k.calls; faults = k.faults } };

    ghost invariant = { λ k. 0 < k.most };
}

impl Kept {
    /// It takes at most `most` bytes at a time, and fails at the calls of these numbers, counted from 0.
    pub fn new(alloc: Global, most: usize, failing: Vec<usize>) -> Kept
        requires { 0 < most }
        ensures { result ≡ record { held = Some []; most = most; failing = failing.items; calls = 0; faults = 0 } }
    {
        Kept {
            kept: KeptSure::new(alloc),
            most,
            failing,
            calls: 0,
            faults: 0,
        }
    }

    /// What it holds; None where memory ran out.
    pub fn held(&self) -> Option<&[u8]>
        ensures { self.now.held ≡ option_map (λ held. held.now) result }
    {
        self.kept.held()
    }
}

impl Sink for Kept {
    ghost held = { λ k. k.held };

    ghost faults = { λ k. k.faults };

    fn write(&mut self, piece: &[u8]) -> Result<usize, Failed>
        ensures bytes { Writes self.old.held self.new.held piece.now result }
        ensures counts { self.old.faults ≤ self.new.faults }
        ensures failed { OnErr result (HasRisen self.old.faults self.new.faults) }
        ensures fails { IsErr result ↔ Contains self.old.failing self.old.calls }
        ensures takes { IfOk result (λ n. n ≡ min (length piece.now) self.old.most) }
        ensures faults { OnOk result (self.new.faults ≡ self.old.faults) × OnErr result (self.new.faults ≡ raised self.old.faults) }
        ensures plan { (self.new.most ≡ self.old.most) × (self.new.failing ≡ self.old.failing) × (self.new.calls ≡ raised self.old.calls) }
    {
        let call = self.calls;
        self.calls = call.saturating_add(1);
        if self.failing.contains(&call) {
            self.faults = self.faults.saturating_add(1);
            return Err(Failed);
        }
        let n = piece.len().min(self.most);
        self.kept.keep(&piece[..n]);
        Ok(n)
    }
}
