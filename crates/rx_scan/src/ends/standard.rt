//! Ends over a reader and a writer, as standard input and standard output, which tell no bytes.
ghost use Rattle.std.specs.Prelude.{◌≡◌, ◌≤◌, None, OnOk, OnErr};
ghost use Rattle.std.specs.Io.KnownBytes.{WriteAppends};
ghost use Rattle.rx_scan.specs.Ends.{HasRisen, CountsCall, Reads, Writes, raised};

use crate::ends::{Failed, Sink, Source};
use std::io::{Read, Write};

/// A source over a reader. It tells the bytes that are still to come where the reader does.
#[derive(Drop)]
pub struct StandardInput<R> {
    reader: R,
    faults: u64,
}

impl<R: Read> StandardInput<R> {
    /// Over this reader, without a fault.
    pub fn new(reader: R) -> StandardInput<R>
        ensures faults { ⟦<StandardInput<R> as Source>⟧.faults result ≡ 0 }
        ensures left { ⟦<StandardInput<R> as Source>⟧.left result ≡ R.remaining reader }
    {
        StandardInput { reader, faults: 0 }
    }

    /// How often it has failed.
    pub fn faults(&self) -> u64
        ensures { result ≡ ⟦<StandardInput<R> as Source>⟧.faults self.now }
    {
        self.faults
    }
}

impl<R: Read> Source for StandardInput<R> {
    // So `run` over a reader of known bytes is proved too (DECISIONS: `StandardInput` tells what its reader tells).
    ghost left = { λ s. R.remaining s.reader };

    ghost faults = { λ s. s.faults };

    ghost reads = { λ _. None };

    fn read(&mut self, buf: &mut [u8]) -> Result<usize, Failed>
        ensures bytes { Reads (R.remaining self.old.reader) (R.remaining self.new.reader) buf.new result }
        ensures counts { self.old.faults ≤ self.new.faults }
        ensures call { CountsCall None None }
        ensures failed { OnErr result (HasRisen self.old.faults self.new.faults) }
        ensures faults { OnOk result (self.new.faults ≡ self.old.faults) × OnErr result (self.new.faults ≡ raised self.old.faults) }
    {
        match self.reader.read(buf) {
            Ok(n) => Ok(n),
            Err(_) => {
                self.faults = self.faults.saturating_add(1);
                Err(Failed)
            }
        }
    }
}

/// A sink over a writer. It takes what the writer does; a write that takes nothing of a piece is a fault. It doesn't
/// tell what it holds.
#[derive(Drop)]
pub struct StandardOutput<W> {
    writer: W,
    faults: u64,
}

impl<W: Write> StandardOutput<W> {
    /// Over this writer, without a fault.
    pub fn new(writer: W) -> StandardOutput<W>
        ensures faults { ⟦<StandardOutput<W> as Sink>⟧.faults result ≡ 0 }
        ensures writer { result.writer ≡ writer }
    {
        StandardOutput { writer, faults: 0 }
    }

    /// How often it has failed.
    pub fn faults(&self) -> u64
        ensures { result ≡ ⟦<StandardOutput<W> as Sink>⟧.faults self.now }
    {
        self.faults
    }
}

impl<W: Write> Sink for StandardOutput<W> {
    ghost held = { λ _. None };

    ghost faults = { λ s. s.faults };

    fn write(&mut self, piece: &[u8]) -> Result<usize, Failed>
        ensures bytes { Writes None None piece.now result }
        ensures counts { self.old.faults ≤ self.new.faults }
        ensures failed { OnErr result (HasRisen self.old.faults self.new.faults) }
        ensures faults { OnOk result (self.new.faults ≡ self.old.faults) × OnErr result (self.new.faults ≡ raised self.old.faults) }
        ensures writer { WriteAppends (W.contents self.old.writer) (W.contents self.new.writer) result piece.now }
    {
        if piece.is_empty() {
            return Ok(0);
        }
        match self.writer.write(piece) {
            Ok(n) if n > 0 => Ok(n),
            _ => {
                self.faults = self.faults.saturating_add(1);
                Err(Failed)
            }
        }
    }
}
