//! Prints where dates stand in standard input, and where their years begin. It is the whole program of docs/GUIDE.md.
#![tactic(auto)]

use rx_meta::{BuildError, Regex};
use rx_scan::{ScanError, scan};
use rx_search::{NonMaxUsize, Open};
use std::io;
use std::process::ExitCode;
use std::rt::Runtime;
use std::sync::Wait;
use std::thread::Threads;

/// Why dates are not printed.
#[derive(Drop)]
enum Failure {
    Build(BuildError),
    Scan(ScanError),
    System(io::Error),
}

impl From<BuildError> for Failure {
    fn from(error: BuildError) -> Failure {
        Failure::Build(error)
    }
}

impl From<ScanError> for Failure {
    fn from(error: ScanError) -> Failure {
        Failure::Scan(error)
    }
}

impl From<io::Error> for Failure {
    fn from(error: io::Error) -> Failure {
        Failure::System(error)
    }
}

fn main(rt: HostRuntime) -> ExitCode {
    match print_dates(&rt) {
        Ok(()) => ExitCode::SUCCESS,
        Err(Failure::Build(error)) => {
            let _printed = println!(rt; "{error}");
            ExitCode::from(2)
        }
        Err(_) => ExitCode::FAILURE,
    }
}

/// Reads the input, and prints a line for each date in it.
fn print_dates<R: Runtime + AllocGlobal + Threads + Wait + Sync>(rt: &R) -> Result<(), Failure> {
    let text = io::read_to_string(rt.alloc(), rt.reader())?;
    search(rt, text.as_bytes())
}

/// Builds the regex, and prints a line for each of its matches.
fn search<R: Runtime + AllocGlobal + Threads + Wait + Sync>(
    rt: &R,
    line: &[u8],
) -> Result<(), Failure> {
    let regex = Regex::new(rt.alloc(), r"([0-9]{4})-[0-9]{2}-[0-9]{2}")?;
    print_matches(rt, &regex, line)
}

/// Prints where each match stands, and where its first group begins.
fn print_matches<R: Runtime + AllocGlobal + Threads + Wait + Sync>(
    rt: &R,
    regex: &Regex,
    line: &[u8],
) -> Result<(), Failure> {
    for rows in &scan(rt, rt.alloc(), regex, &[line], 1, &Open)? {
        for row in rows {
            print_row(rt, row.slots.as_slice())?;
        }
    }
    Ok(())
}

fn print_row<R: Runtime>(rt: &R, slots: &[Option<NonMaxUsize>]) -> io::Result<()> {
    if let [Some(start), Some(end), Some(year), ..] = slots {
        println!(rt; "{}..{}, year from {}", start.get(), end.get(), year.get())?;
    }
    Ok(())
}
