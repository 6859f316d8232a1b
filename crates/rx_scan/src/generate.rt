//! A large input from a number, and what a scan of it finds, in numbers.
ghost use Rattle.std.specs.Prelude.{◌≡◌, ◌<◌, ◌^◌, length, map, sum_by, IfOk};
ghost use Rattle.std.specs.Vec.{vec_items};
ghost use Rattle.rx_gen.specs.Generated.{generated};
ghost use Rattle.rx_gen.specs.Totals.{matches_of, covered_of, totals_of, totals_text};
ghost use Rattle.rx_meta.specs.Build.{IsBuilt};
ghost use Rattle.rx_meta.specs.Config.{nothing_set};
ghost use Rattle.rx_scan.specs.Answer.{gen_expressions, gen_counts, generated_answer};
ghost use Rattle.rx_scan.specs.Arguments.{IsGenerating};
ghost use Rattle.rx_scan.specs.Patterns.{MeanUtf8};
ghost use Rattle.rx_scan.specs.declared.status.Status.TheVariants.{Generated};

use crate::answer::Answer;
use crate::arguments::Generating;
use crate::counted::Counted;
use crate::haystacks::scan_for;
use crate::lines::Slices;
use crate::status::Status;
use rx_gen::{Counts, haystacks, push_totals, totals_of};
use rx_meta::Regex;
use rx_search::{Gate, Memory};
use std::alloc::Global;
use std::sync::Wait;
use std::thread::Threads;

/// The patterns that are searched for.
const PATTERNS: [&str; 2] = ["([a-c]+)d", "[e-h]{2,3}"];

/// The answer to what generates haystacks and scans them. `gate` is told of each before it is searched.
///
/// # Errors
///
/// `Memory`, where there was no memory.
pub fn generate<R: Threads + Wait + Sync, G: Gate + Sync>(
    rt: &R,
    alloc: Global,
    asked: &Generating,
    gate: &G,
) -> Result<Answer, Memory>
    requires { IsGenerating asked.now }
    ensures { IfOk result (λ a. a ≡ generated_answer asked.now.seed asked.now.count) }
{
    // The patterns are right and small, so that want of memory alone refuses them.
    let Ok(regex) = Regex::new_many(alloc, &PATTERNS) else {
        return Err(Memory);
    };
    let texts = haystacks(alloc, asked.seed, asked.count)?;
    let found = count(rt, alloc, asked, &regex, &texts, gate)?;
    told(alloc, &texts, &found)
}

/// What is found in each haystack, in numbers.
fn count<R: Threads + Wait + Sync, G: Gate + Sync>(
    rt: &R,
    alloc: Global,
    asked: &Generating,
    regex: &Regex,
    texts: &[Vec<u8>],
    gate: &G,
) -> Result<Vec<Counts>, Memory>
    requires asked { IsGenerating asked.now }
    requires built { IsBuilt nothing_set gen_expressions regex.now }
    requires utf8 { MeanUtf8 gen_expressions }
    requires texts { map vec_items texts.now ≡ generated asked.now.seed asked.now.count }
    ensures { IfOk result (λ found. found.items ≡ map gen_counts (map vec_items texts.now)) }
{
    let all = slices(alloc, texts)?;
    let haystacks = Slices { all: &all };
    scan_for(rt, alloc, regex, &haystacks, asked.workers, gate, &Counted)
}

/// The haystacks, lent.
fn slices<'t>(alloc: Global, texts: &'t [Vec<u8>]) -> Result<Vec<&'t [u8]>, Memory>
    ensures { IfOk result (λ all. map (λ h. h.now) all.items ≡ map vec_items texts.now) }
{
    let mut all = Vec::with_capacity(alloc, texts.len())?;
    for text in texts {
        all.push(text.as_slice())?;
    }
    Ok(all)
}

/// The line that tells what was found in these haystacks.
fn told(alloc: Global, texts: &[Vec<u8>], found: &[Counts]) -> Result<Answer, Memory>
    requires bytes { sum_by length (map vec_items texts.now) < 2 ^ 64 }
    requires matches { sum_by matches_of found.now < 2 ^ 64 }
    requires covered { sum_by covered_of found.now < 2 ^ 64 }
    ensures { IfOk result (λ a. a ≡ record { status = Generated; text = totals_text (totals_of (map vec_items texts.now) found.now) }) }
{
    let totals = totals_of(texts, found);
    let mut text = Vec::new(alloc);
    push_totals(&mut text, totals)?;
    Answer::new(alloc, Status::Generated, text)
}
