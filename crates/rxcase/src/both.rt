//! Searches for matches, by a DFA that reads forwards and one that reads backwards.
ghost use Rattle.std.specs.Prelude.{◌≡◌, true, false};

use crate::ask::Ask;
use crate::call::Call;
use crate::failure::Failure;
use crate::told::Told;
use rx_dfa::{Automaton, try_search};
use rx_search::{Input, MatchError};

/// Appends what the automata tell of the input: the next match, or the successive matches in each line, for all of which the same caches
/// serve.
pub fn tell<A: Automaton>(
    ask: &Ask<'_>,
    forward: &A,
    cache: &mut A::Cache,
    backward: &A,
    second: &mut A::Cache,
    told: &mut Told,
)
    requires fits { A.fits forward.now cache.old }
    requires second { A.fits backward.now second.old }
    requires forward { (A.dfa forward.now).nfa.reverse ≡ false }
    requires backward { (A.dfa backward.now).nfa.reverse ≡ true }
{
    if ask.call == Call::Matches {
        tell_lines(ask, forward, cache, backward, second, told);
        return;
    }
    match ask.input(ask.input) {
        Some(input) => told.tell_match(try_search(forward, cache, backward, second, &input)),
        None => told.refuse(Failure::Usage),
    }
}

/// Appends the successive matches in each line.
fn tell_lines<A: Automaton>(
    ask: &Ask<'_>,
    forward: &A,
    cache: &mut A::Cache,
    backward: &A,
    second: &mut A::Cache,
    told: &mut Told,
)
    requires fits { A.fits forward.now cache.old }
    requires second { A.fits backward.now second.old }
    requires forward { (A.dfa forward.now).nfa.reverse ≡ false }
    requires backward { (A.dfa backward.now).nfa.reverse ≡ true }
{
    let Some(text) = ask.text() else {
        told.refuse(Failure::Usage);
        return;
    };
    'lines: for line in text.split('\n') {
        tell_line(forward, cache, backward, second, line.as_bytes(), told);
    }
}

/// Appends the successive matches in a line, and why a search came to no end, if one did not.
fn tell_line<A: Automaton>(
    forward: &A,
    cache: &mut A::Cache,
    backward: &A,
    second: &mut A::Cache,
    line: &[u8],
    told: &mut Told,
)
    requires fits { A.fits forward.now cache.old }
    requires second { A.fits backward.now second.old }
    requires forward { (A.dfa forward.now).nfa.reverse ≡ false }
    requires backward { (A.dfa backward.now).nfa.reverse ≡ true }
    ensures fits { A.fits forward.now cache.new }
    ensures second { A.fits backward.now second.new }
{
    let before = told.len();
    let ended = tell_all(forward, cache, backward, second, line, told);
    tell_rest(told, before, ended);
}

/// Appends the successive matches, up to the first search that does not come to its end.
fn tell_all<A: Automaton>(
    forward: &A,
    cache: &mut A::Cache,
    backward: &A,
    second: &mut A::Cache,
    haystack: &[u8],
    told: &mut Told,
) -> Result<(), MatchError>
    requires fits { A.fits forward.now cache.old }
    requires second { A.fits backward.now second.old }
    requires forward { (A.dfa forward.now).nfa.reverse ≡ false }
    requires backward { (A.dfa backward.now).nfa.reverse ≡ true }
    ensures fits { A.fits forward.now cache.new }
    ensures second { A.fits backward.now second.new }
{
    let mut at = 0;
    let mut last = None;
    'starts: for _ in 0..usize::MAX {
        if at > haystack.len() {
            return Ok(());
        }
        let input = Input::new(haystack).range(at..haystack.len());
        let found = match try_search(forward, cache, backward, second, &input) {
            Ok(Some(found)) => found,
            Ok(None) => return Ok(()),
            Err(error) => return Err(error),
        };
        if found.is_empty() && last == Some(found.end()) {
            at += 1;
            continue;
        }
        told.tell_one(found, last.is_none());
        at = found.end();
        last = Some(at);
    }
    Ok(())
}

/// Appends the end of the line that begins behind so many bytes, before it why a search came to no end.
fn tell_rest(told: &mut Told, before: usize, ended: Result<(), MatchError>) {
    let Err(error) = ended else {
        told.push("\n");
        return;
    };
    if told.len() > before {
        told.push(" ");
    }
    told.tell_error(error);
}
