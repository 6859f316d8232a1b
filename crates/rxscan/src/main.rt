//! `rxscan scan` reads patterns, an empty line and haystacks from standard input, and prints a row for each match; `explain`
//! prints how it would search for them, and `gen` what it finds in haystacks that a number gives.
#![tactic(auto)]

use rx_scan::{StandardInput, StandardOutput, run};
use rx_search::Open;
use std::io::ErrorKind;
use std::process::ExitCode;
use std::rt::Env;
use std::{env, io};

/// The status where there is no memory for the words.
const OUT_OF_MEMORY: u8 = 8;

fn main(rt: HostRuntime) -> ExitCode {
    let words = match words(&rt) {
        Ok(words) => words,
        Err(error) if error.kind() == ErrorKind::OutOfMemory => {
            // `run` is not called (DECISIONS: where there is no memory for the words).
            return ExitCode::from(OUT_OF_MEMORY);
        }
        // Words that are no text are no words of a command (DECISIONS: arguments that are no text are a faulty command line).
        Err(_) => Vec::new(rt.alloc()),
    };
    let mut source = StandardInput::new(rt.stdin());
    let mut sink = StandardOutput::new(rt.stdout());
    ExitCode::from(run(&rt, rt.alloc(), &words, &mut source, &mut sink, &Open))
}

/// The words after the program's name.
fn words(rt: &(impl Env + AllocGlobal)) -> io::Result<Vec<String>> {
    let mut words = Vec::new(rt.alloc());
    for word in env::args(rt)?.skip(1) {
        words.push(word)?;
    }
    Ok(words)
}
