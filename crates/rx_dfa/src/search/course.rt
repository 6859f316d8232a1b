//! One search forwards that stops where it may as well begin anew.
ghost use Rattle.std.specs.Prelude.{◌≡◌, ◌≤◌, true, false, IfOk};
ghost use Rattle.std.specs.Result.{IfErr};
ghost use Rattle.rx_model.specs.Search.{is_anchored};
ghost use Rattle.rx_search.specs.declared.anchored.MatchKind.TheVariants.{LeftmostFirst};
ghost use Rattle.rx_determinize.specs.Key.{Key};
ghost use Rattle.rx_determinize.specs.Permitted.{fresh};
ghost use Rattle.rx_dfa.specs.Automaton.{IsSound, IsStartKey};
ghost use Rattle.rx_dfa.specs.Candidates.{IsStopped};
ghost use Rattle.rx_dfa.specs.Search.{SearchFails};

use crate::automaton::Automaton;
use crate::search::parts::{byte_after, is_permitted_at, last_state, place_error, record};
use crate::search::progress::Met;
use crate::search::stop::Stop;
use rx_search::{Input, MatchError, StateID, Steps};
use std::sync::ledger::Ledger;

/// One search from the start of the input's span: what it met by the span's end, or with `earliest` by the first match; or the first
/// place behind the start at which it met nothing so far and is as if it began there. Such a place may be missed.
pub(crate) fn run_course<A: Automaton, L: Ledger>(
    dfa: &A,
    cache: &mut A::Cache,
    input: &Input<'_>,
    steps: &mut Steps<L>,
) -> Result<Stop, MatchError>
    requires fits { A.fits dfa.now cache.old }
    requires in_order { input.now.start ≤ input.now.end }
    requires forward { (A.dfa dfa.now).nfa.reverse ≡ false }
    requires leftmost { (A.dfa dfa.now).kind ≡ LeftmostFirst }
    requires free { is_anchored input.now.anchor ≡ false }
    ensures sound { IsSound (A.dfa dfa.now) }
    ensures stop { IfOk result (IsStopped (A.dfa dfa.now) input.now) }
    ensures err { IfErr result (SearchFails (A.dfa dfa.now).nfa input.now (A.gives_up dfa.now cache.new) (A.wants dfa.now)) }
    ensures fits { A.fits dfa.now cache.new }
{
    let haystack = input.haystack();
    let end = input.end();
    let utf8 = dfa.is_utf8();
    let mut met = Met::new();
    let start = match dfa.start_forward(cache, input) {
        Ok(state) => state,
        Err(error) => return Err(error),
    };
    if dfa.is_dead(cache, start) {
        return Ok(Stop::Met(met));
    }
    let mut state = start;
    let mut at = input.start();
    'bytes: while at < end {
        state = match dfa.next_state(cache, state, haystack[at], steps) {
            Ok(next) => next,
            Err(error) => return Err(place_error(error, at, at)),
        };
        if !dfa.is_special(cache, state) {
            at += 1;
            if is_back(dfa, cache, state, start, met) {
                return Ok(Stop::Back(at));
            }
            continue;
        }
        let may = is_permitted_at(utf8, haystack, at);
        met = record(dfa, cache, state, may, at, met);
        if dfa.is_dead(cache, state) {
            return Ok(Stop::Met(met));
        }
        if met.is_enough(input.get_earliest()) {
            return Ok(Stop::Met(met));
        }
        at += 1;
    }
    let byte = byte_after(haystack, end);
    let last = match last_state(dfa, cache, state, byte, end, end, steps) {
        Ok(last) => last,
        Err(error) => return Err(error),
    };
    let may_end = is_permitted_at(utf8, haystack, end);
    let all = record(dfa, cache, last, may_end, end, met);
    Ok(Stop::Met(all))
}

/// Whether the state is again that of a start, and nothing was met so far. The number alone may name another state, after a cache was
/// cleared, so the automaton is asked too.
fn is_back<A: Automaton>(
    dfa: &A,
    cache: &A::Cache,
    state: StateID,
    start: StateID,
    met: Met,
) -> bool
    requires fits { A.fits dfa.now cache.now }
    requires held { (key : Key) × A.holds dfa.now cache.now state key }
    ensures nothing { result ≡ true → met ≡ fresh }
    ensures start { (key : Key) → A.holds dfa.now cache.now state key → result ≡ true → IsStartKey (A.dfa dfa.now) key }
{
    if state != start {
        return false;
    }
    if !met.is_nothing() {
        return false;
    }
    dfa.is_start(cache, state)
}
