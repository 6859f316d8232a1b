//! The adapters over readers and writers.

use rx_scan::{Failed, Sink, Source, StandardInput, StandardOutput};
use std::io;
use std::io::{ErrorKind, Read, Write};
use std::test::Fail;

/// A reader and a writer that fails at each call.
#[derive(Drop)]
struct Broken;

impl Read for Broken {
    fn read(&mut self, _buf: &mut [u8]) -> io::Result<usize> {
        Err(io::Error::from(ErrorKind::BrokenPipe))
    }
}

impl Write for Broken {
    fn write(&mut self, _piece: &[u8]) -> io::Result<usize> {
        Err(io::Error::from(ErrorKind::BrokenPipe))
    }

    fn flush(&mut self) -> io::Result<()> {
        Ok(())
    }
}

/// A writer that takes nothing.
#[derive(Drop)]
struct Full;

impl Write for Full {
    fn write(&mut self, _piece: &[u8]) -> io::Result<usize> {
        Ok(0)
    }

    fn flush(&mut self) -> io::Result<()> {
        Ok(())
    }
}

#[test]
fn the_input_passes_bytes_and_counts_faults(rt: HostRuntime) -> Result<(), Fail> {
    let mut buf = [0u8; 4];
    let mut source = StandardInput::new(b"abcde".as_slice());
    assert_eq!(rt; source.read(&mut buf), Ok(4));
    assert_eq!(rt; buf.as_slice(), b"abcd".as_slice());
    assert_eq!(rt; source.read(&mut []), Ok(0));
    assert_eq!(rt; source.read(&mut buf), Ok(1));
    assert_eq!(rt; &buf[..1], b"e".as_slice());
    assert_eq!(rt; source.read(&mut buf), Ok(0));
    assert_eq!(rt; source.faults(), 0);

    let mut broken = StandardInput::new(Broken);
    for faults in 1..4u64 {
        assert_eq!(rt; broken.read(&mut buf), Err(Failed));
        assert_eq!(rt; broken.faults(), faults);
    }
    Ok(())
}

#[test]
fn the_output_passes_bytes_and_counts_faults(rt: HostRuntime) -> Result<(), Fail> {
    let mut held = [0u8; 4];
    let mut sink = StandardOutput::new(held.as_mut_slice());
    assert_eq!(rt; sink.write(b"abc"), Ok(3));
    assert_eq!(rt; sink.write(b""), Ok(0));
    assert_eq!(rt; sink.write(b"de"), Ok(1));
    assert_eq!(rt; sink.faults(), 0);
    assert_eq!(rt; sink.write(b"e"), Err(Failed));
    assert_eq!(rt; sink.faults(), 1);
    assert_eq!(rt; held.as_slice(), b"abcd".as_slice());

    let mut broken = StandardOutput::new(Broken);
    let mut full = StandardOutput::new(Full);
    for faults in 1..4u64 {
        assert_eq!(rt; broken.write(b"a"), Err(Failed));
        assert_eq!(rt; broken.faults(), faults);
        assert_eq!(rt; full.write(b"a"), Err(Failed));
        assert_eq!(rt; full.faults(), faults);
    }
    assert_eq!(rt; broken.write(b""), Ok(0));
    assert_eq!(rt; full.write(b""), Ok(0));
    assert_eq!(rt; full.faults(), 3);
    Ok(())
}
