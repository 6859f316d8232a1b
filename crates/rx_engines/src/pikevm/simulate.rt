//! The search of the PikeVM, place by place.
ghost use Rattle.std.specs.Prelude.{◌≡◌, ◌≤◌, [], length, min, ◌&&◌, is_some, None, IfSome, IfNone, option_map, replicate};
ghost use Rattle.std.specs.Option.{option_or};
ghost use Rattle.rx_engines.specs.Simulation.{IsFound, until, GoesOn};
ghost use Rattle.rx_engines.specs.Buffers.{IsReady, KeepsRoom, curr_of};
ghost use Rattle.rx_engines.specs.Search.{IsInside, IsAnswered};

use crate::pikevm::buffers::Buffers;
use crate::pikevm::seed::seed;
use crate::pikevm::step::{Accepted, step};
use crate::search::Search;
use crate::slots::report;
use rx_search::{Match, NonMaxUsize};

/// The search for a match, with as many slots to a thread as there are, of those that a match has. `slots` gets those of
/// the match. With `earliest` it stops at the first place by which a match ends.
pub fn simulate_slots(
    search: &Search<'_>,
    earliest: bool,
    buffers: &mut Buffers,
    slots: &mut [Option<NonMaxUsize>],
) -> Option<Match>
    requires search { IsInside search.now }
    requires none { (curr_of buffers.old).set.items ≡ [] }
    requires cleared { buffers.old.best.items ≡ replicate (min (length slots.old) search.now.slots) None }
    requires ready { IsReady search.now.states.now (min (length slots.old) search.now.slots) buffers.old }
    ensures answer { IsAnswered search.now earliest result slots.new }
    ensures cleared { IfNone result (slots.new ≡ replicate (length slots.old) None) }
    ensures empty { buffers.new.walk.stack.items ≡ [] }
    ensures room { KeepsRoom buffers.old buffers.new }
{
    let found = simulate(search, earliest, buffers);
    report(buffers.best.as_slice(), slots);
    found
}

/// The search for a match, with as many slots as `best` has, which gets those of the match. With `earliest` it stops at the
/// first place by which a match ends.
fn simulate(search: &Search<'_>, earliest: bool, buffers: &mut Buffers) -> Option<Match>
    requires search { IsInside search.now }
    requires none { (curr_of buffers.old).set.items ≡ [] }
    requires cleared { buffers.old.best.items ≡ replicate (length buffers.old.best.items) None }
    requires ready { IsReady search.now.states.now (length buffers.old.best.items) buffers.old }
    ensures answer { IsFound search.now earliest (length buffers.old.best.items) result buffers.new.best.items }
    ensures cleared { IfNone result (buffers.new.best.items ≡ replicate (length buffers.old.best.items) None) }
    ensures ready { IsReady search.now.states.now (length buffers.old.best.items) buffers.new }
    ensures room { KeepsRoom buffers.old buffers.new }
{
    let mut best = None;
    let mut place = search.first;
    while place <= search.end {
        let matched = best.is_some();
        let threads = buffers.alive();
        let Some(here) = goes_on_at(search, place, matched, threads) else {
            return None;
        };
        seed(search, here, matched, buffers);
        if buffers.alive() == 0 {
            if matched {
                return best;
            }
            if search.last <= here {
                return None;
            }
        }
        let found = step(search, here, buffers);
        best = better(best, found, here);
        if is_enough(earliest, &best) {
            return best;
        }
        place = here + 1;
    }
    best
}

/// Where the search goes on from the place: there, while there is a match or a thread is alive, and else where a match may
/// begin next. None where there is no such place.
fn goes_on_at(search: &Search<'_>, place: usize, matched: bool, threads: usize) -> Option<usize>
    requires { (place ≤ search.now.end) × (search.now.end ≤ length search.now.text.now) }
    ensures { GoesOn search.now matched threads place result }
{
    if matched {
        return Some(place);
    }
    if threads > 0 {
        return Some(place);
    }
    search.next_start(place)
}

/// Whether the search may stop at the first match that was found, and there is one.
fn is_enough(earliest: bool, best: &Option<Match>) -> bool
    ensures { result ≡ (earliest && is_some best.now) }
{
    earliest && best.is_some()
}

/// A match that ends at the place comes before the best one so far.
fn better(best: Option<Match>, found: Option<Accepted>, place: usize) -> Option<Match>
    requires { IfSome found (λ f. f.start ≤ place) }
    ensures { result ≡ option_or (option_map (until place) found) best }
{
    match found {
        Some(accepted) => Some(accepted.until(place)),
        None => best,
    }
}
