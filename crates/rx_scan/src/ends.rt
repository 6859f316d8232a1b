//! Where the input comes from and where the text goes.
ghost use Rattle.std.specs.Prelude.{ℕ, ◌≤◌, List, Option, OnErr};
ghost use Rattle.rx_scan.specs.Ends.{HasRisen, Reads, Writes, CountsCall};

mod memory;
mod standard;

pub use memory::{Bytes, BytesSure, Kept, KeptSure};
pub use standard::{StandardInput, StandardOutput};

/// A source or a sink failed. It counted the fault.
#[derive(Clone, Copy, Debug, PartialEq, Eq)]
pub struct Failed;

/// Where the input comes from.
pub trait Source {
    /// The bytes that are still to come, where the source tells them.
    ghost left: { Self → Option (List ℕ) };

    /// How often the source has failed.
    ghost faults: { Self → ℕ };

    // None where it counts none (DECISIONS: a source may count its reads).
    /// How often the source was read, where it counts.
    ghost reads: { Self → Option ℕ };

    /// Reads the next bytes into the buffer and answers how many there are. It answers 0 only at the end of the input
    /// or where the buffer is empty.
    ///
    /// # Errors
    ///
    /// `Failed`, only with a fault; nothing was taken.
    fn read(&mut self, buf: &mut [u8]) -> Result<usize, Failed>
        ensures bytes { Reads (left self.old) (left self.new) buf.new result }
        ensures counts { faults self.old ≤ faults self.new }
        ensures call { CountsCall (reads self.old) (reads self.new) }
        ensures failed { OnErr result (HasRisen (faults self.old) (faults self.new)) };
}

/// Where the text goes.
pub trait Sink {
    /// The bytes that the sink holds, where it tells them.
    ghost held: { Self → Option (List ℕ) };

    /// How often the sink has failed.
    ghost faults: { Self → ℕ };

    /// Takes bytes from the front of the piece and answers how many, at least one unless the piece is empty.
    ///
    /// # Errors
    ///
    /// `Failed`, only with a fault; nothing was taken.
    fn write(&mut self, piece: &[u8]) -> Result<usize, Failed>
        ensures bytes { Writes (held self.old) (held self.new) piece.now result }
        ensures counts { faults self.old ≤ faults self.new }
        ensures failed { OnErr result (HasRisen (faults self.old) (faults self.new)) };
}
