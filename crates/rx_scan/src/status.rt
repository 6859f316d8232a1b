//! How a call of `run` ends.
ghost use Rattle.std.specs.Prelude.{◌≡◌};
ghost use Rattle.rx_scan.specs.Status.{code};

/// The status of a call of `run`.
#[derive(Clone, Copy, Debug, PartialEq, Eq)]
pub enum Status {
    /// The text is what the patterns of the input were asked for.
    Rows,
    /// The text is what was found in haystacks that a number gave; no input is read.
    Generated,
    /// A pattern is refused.
    Pattern,
    /// The words are not those of a command.
    Usage,
    /// The input is not UTF-8.
    NotUtf8,
    /// The input is too long.
    TooLong,
    /// The patterns are too big.
    TooBig,
    /// The source failed.
    SourceFailed,
    /// The sink failed.
    SinkFailed,
    /// There was no memory.
    OutOfMemory,
}

/// The number of a status.
pub fn code_of(status: Status) -> u8
    ensures { result ≡ code status }
{
    match status {
        Status::Rows => 0,
        Status::Generated => 0,
        Status::Pattern => 1,
        Status::Usage => 2,
        Status::NotUtf8 => 3,
        Status::TooLong => 4,
        Status::TooBig => 5,
        Status::SourceFailed => 6,
        Status::SinkFailed => 7,
        Status::OutOfMemory => 8,
    }
}
