//! Where the lines of a text end.
ghost use Rattle.std.specs.Prelude.{◌≡◌, ◌+◌, ◌<◌, ◌^◌, length, IfOk};
ghost use denote.Param.Send.{IsSync};
ghost use Rattle.rx_scan.specs.Input.{lines};
ghost use Rattle.rx_scan.specs.Lines.{AreEnds, cut_at, newlines};

use memchr::memchr_iter;
use rx_search::Memory;
use std::alloc::Global;
use std::thread::{Threads, join};

/// Where each line of a text ends: at a newline, or at the end of the text.
///
/// # Errors
///
/// `Memory`, where there was no memory for the list of them.
pub fn line_ends<R: Threads + Sync>(
    rt: &R,
    alloc: Global,
    text: &[u8],
    workers: usize,
) -> Result<Vec<usize>, Memory>
    ensures { IfOk result (λ ends. AreEnds (length text.now) 0 ends.items × (cut_at text.now 0 ends.items ≡ lines text.now)) }
{
    let mut ends = newlines_by(rt, alloc, text, 0, workers)?;
    // A last newline begins no line.
    if text.last().copied().unwrap_or(b'\n') == b'\n' {
        return Ok(ends);
    }
    ends.push(text.len())?;
    Ok(ends)
}

/// The places of the newlines of a text that begins at this place.
fn newlines(alloc: Global, text: &[u8], at: usize) -> Result<Vec<usize>, Memory>
    requires { at + length text.now < 2 ^ 64 }
    ensures { IfOk result (λ all. all.items ≡ newlines at text.now) }
{
    let mut all = Vec::new(alloc);
    'places: for place in memchr_iter(b'\n', text) {
        all.push(at + place)?;
    }
    Ok(all)
}

/// How long a text is, at least, where a thread for a part of it takes less time than it saves.
const IN_PARTS: usize = 1048576;

/// The same, by so many workers, each of which looks for them in a part of the text
/// (DECISIONS: newlines are looked for in parts).
#[cycle(newlines)]
fn newlines_by<R: Threads + Sync>(
    rt: &R,
    alloc: Global,
    text: &[u8],
    at: usize,
    workers: usize,
) -> Result<Vec<usize>, Memory>
    requires { at + length text.now < 2 ^ 64 }
    ensures { IfOk result (λ all. all.items ≡ newlines at text.now) }
{
    if workers < 2 || text.len() < IN_PARTS {
        return newlines(alloc, text, at);
    }
    let few = workers / 2;
    let many = workers - few;
    let (front, back) = text.split_at(text.len() / workers * few);
    let middle = at + front.len();
    let theirs = move || -> Result<Vec<usize>, Memory>
        requires { IsSync R.row × (0 < few) × (at + length front.now < 2 ^ 64) }
        ensures { IfOk result (λ all. all.items ≡ newlines at front.entry.now) }
    { newlines_by(rt, alloc, front, at, few) };
    let ours = move || -> Result<Vec<usize>, Memory>
        requires { IsSync R.row × (0 < many) × (middle + length back.now < 2 ^ 64) }
        ensures { IfOk result (λ all. all.items ≡ newlines middle back.entry.now) }
    { newlines_by(rt, alloc, back, middle, many) };
    let (low, high) = join(rt, theirs, ours);
    let mut all = low?;
    let mut rest = high?;
    all.append(&mut rest)?;
    Ok(all)
}
