//! The starts of the table.
ghost use Rattle.std.specs.Prelude.{◌≡◌, ◌≤◌, true, false, length};
ghost use Rattle.rx_search.specs.Anchored.{anchor_of};
ghost use Rattle.rx_determinize.specs.Key.{start_key};
ghost use Rattle.rx_dfa.specs.Scratch.{room_of};
ghost use Rattle.rx_dfa.specs.States.{IsRead};
ghost use Rattle.rx_dfa.specs.Table.{mode_of as place_of, context_count, context, AreStarts};
ghost use Rattle.rx_dfa.specs.Found.{IsNumber, AreFound, Grows, IsMade};
ghost use Rattle.rx_dfa.specs.Job.{dfa_in, IsJob};
ghost use Rattle.rx_dfa.specs.Work.{AreBegun, IsStart, IsContext};

use crate::dense::error::BuildError;
use crate::dense::found::Found;
use crate::dense::job::Job;
use crate::dense::numbers::QUIT;
use crate::dense::rows::Desk;
use rx_search::{Anchored, StateID};
use std::alloc::Global;

/// The place of a mode's starts among those of all modes.
pub fn mode_of(mode: Anchored) -> usize
    ensures value { result ≡ place_of (anchor_of mode) }
    ensures small { result ≤ 2147483648 }
{
    match mode {
        Anchored::No => 0,
        Anchored::Yes => 1,
        Anchored::Pattern(pattern) => pattern.as_usize() + 2,
    }
}

/// The starts of all modes: not anchored, anchored, and anchored to each pattern.
pub fn starts_of(
    alloc: Global,
    job: &Job<'_>,
    desk: &mut Desk,
    found: &mut Found,
) -> Result<Vec<StateID>, BuildError>
    requires job { IsJob job.now }
    requires room { room_of desk.old.scratch ≡ length job.now.source.states.now }
    requires found { AreFound (dfa_in job.now) found.old }
    ensures room { room_of desk.new.scratch ≡ length job.now.source.states.now }
    ensures grows { Grows found.old found.new }
    ensures made { IsMade (dfa_in job.now) found.old found.new (λ starts. AreStarts (dfa_in job.now) (IsNumber found.new) starts.items) result }
{
    let mut starts = Vec::new(alloc);
    push_starts(job, job.source.start, true, desk, found, &mut starts)?;
    push_starts(job, job.source.start, false, desk, found, &mut starts)?;
    let patterns = job.nfa.starts();
    for start in patterns {
        push_starts(job, *start, false, desk, found, &mut starts)?;
    }
    Ok(starts)
}

/// Appends the starts of one mode, by the class of what stands beside them.
fn push_starts(
    job: &Job<'_>,
    start: StateID,
    loops: bool,
    desk: &mut Desk,
    found: &mut Found,
    starts: &mut Vec<StateID>,
) -> Result<(), BuildError>
    requires job { IsJob job.now }
    requires room { room_of desk.old.scratch ≡ length job.now.source.states.now }
    requires found { AreFound (dfa_in job.now) found.old }
    requires start { IsStart (dfa_in job.now) start loops }
    ensures room { room_of desk.new.scratch ≡ length job.now.source.states.now }
    ensures grows { Grows found.old found.new }
    ensures made { IsMade (dfa_in job.now) found.old found.new
        (λ done. AreBegun (dfa_in job.now) (IsNumber found.new) start loops
        (context_count job.now.alphabet.now.keeps job.now.alphabet.now.bytes.items) starts.old.items starts.new.items) result }
{
    for class in 0..job.alphabet.contexts() {
        let before = job.alphabet.context(class);
        let state = start_cell(job, start, loops, before, desk, found)?;
        starts.push(state)?;
    }
    Ok(())
}

/// The state at the start, where this stands for the byte beside it.
fn start_cell(
    job: &Job<'_>,
    start: StateID,
    loops: bool,
    before: Option<u8>,
    desk: &mut Desk,
    found: &mut Found,
) -> Result<StateID, BuildError>
    requires job { IsJob job.now }
    requires room { room_of desk.old.scratch ≡ length job.now.source.states.now }
    requires found { AreFound (dfa_in job.now) found.old }
    requires start { IsStart (dfa_in job.now) start loops }
    requires before { IsContext (dfa_in job.now) before }
    ensures room { room_of desk.new.scratch ≡ length job.now.source.states.now }
    ensures grows { Grows found.old found.new }
    ensures made { IsMade (dfa_in job.now) found.old found.new
        (λ state. IsRead (dfa_in job.now).nfa before
        → IsNumber found.new state (start_key (dfa_in job.now).kind (dfa_in job.now).nfa.states start loops before)) result }
{
    if let Some(_) = job.alphabet.unread(before) {
        return Ok(QUIT);
    }
    job.source
        .start(start, loops, before, &mut desk.scratch, &mut desk.next)?;
    found.find(&desk.next)
}
