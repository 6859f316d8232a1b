//! What an attempt is made of.
ghost use Rattle.std.specs.Prelude.{◌≡◌, ◌≤◌, ◌<◌, ◌+◌, ◌-◌, false, None, IfOk, OnOk, IfSome, length};
ghost use Rattle.std.specs.Result.{IfErr};
ghost use Rattle.rx_model.specs.Search.{Patterns};
ghost use Rattle.rx_search.specs.Input.{span_len};
ghost use Rattle.rx_search.specs.Promise.{Premises};
ghost use Rattle.rx_search.specs.Told.{LiesIn, HalfLiesIn};
ghost use Rattle.rx_nfa.specs.Nfa.{IsNfaOf};
ghost use Rattle.rx_limited.specs.Calls.{calls_forwards};
ghost use Rattle.rx_limited.specs.Retry.{JustFails};
ghost use Rattle.rx_limited.specs.Stopat.{stop_forwards};
ghost use Rattle.rx_attempts.specs.Inputs.{up_to, from_start, ended_from};
ghost use Rattle.rx_attempts.specs.Candidates.{IsNextCandidate};
ghost use Rattle.rx_attempts.specs.Whole.{match_found, IsWhole};

use rx_dfa::Automaton;
use rx_limited::{RetryError, fwd_stopat};
use rx_prefilter::Prefilter;
use rx_search::{Anchored, HalfMatch, Input, Match, Span, Steps};
use std::sync::ledger::Ledger;

/// Where a needle lies in the input's span at this place or later: the least place, and there the first of the list.
pub(crate) fn next_candidate(pre: &Prefilter, input: &Input<'_>, from: usize) -> Option<Span>
    requires low { input.now.start ≤ from }
    requires high { from ≤ input.now.end }
    ensures { IsNextCandidate pre.now input.now from result }
{
    let haystack = input.haystack();
    let part = Span {
        start: from,
        end: input.end(),
    };
    pre.find(haystack, part)
}

/// The input's span up to this place, to be searched backwards from there.
pub(crate) fn up_to<'h>(input: &Input<'h>, end: usize) -> Input<'h>
    requires low { input.now.start ≤ end }
    requires high { end ≤ input.now.end }
    ensures { result ≡ up_to input.now end }
{
    let mut part = input.clone();
    part.set_end(end);
    part.set_anchored(Anchored::Yes);
    part
}

/// The input's span from this start on, to be searched for the end of a match of its pattern.
fn from_start<'h>(input: &Input<'h>, start: HalfMatch) -> Input<'h>
    requires { start.offset ≤ input.now.end }
    ensures { result ≡ from_start input.now start }
{
    let mut part = input.clone();
    part.set_start(start.offset());
    part.set_anchored(Anchored::Pattern(start.pattern()));
    part
}

/// The match from this start to this end, with the pattern that ends there.
fn from_half(start: HalfMatch, end: HalfMatch) -> Match
    requires { start.offset ≤ end.offset }
    ensures { result ≡ ended_from start end }
{
    Match::new(
        end.pattern(),
        Span {
            start: start.offset(),
            end: end.offset(),
        },
    )
}

/// The match from this start; or where the search for its end stopped.
pub(crate) fn match_or_stop<F: Automaton, L: Ledger>(
    fwd: &F,
    fwd_cache: &mut F::Cache,
    input: &Input<'_>,
    start: HalfMatch,
    steps: &mut Steps<L>,
) -> Result<Result<Match, usize>, RetryError>
    requires fits { F.fits fwd.now fwd_cache.old }
    requires forward { (F.dfa fwd.now).nfa.reverse ≡ false }
    requires lies { HalfLiesIn input.now start }
    ensures whole { (r : Patterns) → Premises (IsNfaOf (F.dfa fwd.now).nfa r) None r (from_start input.now start)
        → IfOk result (λ told. IsWhole (F.dfa fwd.now).kind r input.now start (match_found told)) }
    ensures stopped { IfOk result (λ told. IfErr told (λ place. place ≡ stop_forwards (F.dfa fwd.now) (from_start input.now start))) }
    ensures within { IfOk result (λ told. IfSome (match_found told) (LiesIn input.now)) }
    ensures in_range { IfOk result (λ told. IfSome (match_found told) (λ m. m.pattern < length (F.dfa fwd.now).nfa.starts)) }
    ensures err { IfErr result (JustFails (F.dfa fwd.now).nfa input.now (F.gives_up fwd.now fwd_cache.new) (F.wants fwd.now)) }
    ensures begins { IfOk result (λ told. IfSome (match_found told) (λ m. m.start ≡ start.offset)) }
    ensures ticks { input.now.earliest ≡ false → OnOk result (steps.new ≡ steps.old + calls_forwards (F.dfa fwd.now) (from_start input.now start)) }
    ensures most { steps.new ≤ steps.old + span_len input.now + 1 }
    ensures few { IfOk result (λ told. IfErr told (λ place. (place ≤ input.now.end) × (steps.new ≤ steps.old + (place - start.offset) + 1))) }
    ensures fits { F.fits fwd.now fwd_cache.new }
{
    let part = from_start(input, start);
    match fwd_stopat(fwd, fwd_cache, &part, steps) {
        Ok(Ok(end)) => Ok(Ok(from_half(start, end))),
        Ok(Err(place)) => Ok(Err(place)),
        Err(error) => Err(error),
    }
}
