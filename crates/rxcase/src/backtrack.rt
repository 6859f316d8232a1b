//! The bounded backtracker, and what it is asked for.
ghost use Rattle.std.specs.Prelude.{IfOk};
ghost use Rattle.rx_engines.specs.Bounded.{Fits};

use crate::ask::Ask;
use crate::call::Call;
use crate::compile::{prefilter, source};
use crate::failure::Failure;
use crate::told::Told;
use rx_engines::backtrack::{BoundedBacktracker, Cache};
use rx_search::{Input, NonMaxUsize};
use std::alloc::Global;

/// Appends what the backtracker tells of each haystack, with one cache.
pub fn tell(alloc: Global, ask: &Ask<'_>, told: &mut Told) {
    let ended = tell_made(alloc, ask, told);
    told.end(ended);
}

fn tell_made(alloc: Global, ask: &Ask<'_>, told: &mut Told) -> Result<(), Failure> {
    let backtracker = made(alloc, ask)?;
    tell_by(alloc, ask, &backtracker, told)
}

fn tell_by(
    alloc: Global,
    ask: &Ask<'_>,
    backtracker: &BoundedBacktracker,
    told: &mut Told,
) -> Result<(), Failure> {
    let mut cache = cache_for(alloc, ask, backtracker)?;
    tell_each(alloc, ask, backtracker, &mut cache, told);
    Ok(())
}

/// The backtracker that is asked for.
fn made(alloc: Global, ask: &Ask<'_>) -> Result<BoundedBacktracker, Failure> {
    let pre = prefilter(alloc, ask)?;
    let nfa = source(alloc, ask)?;
    Ok(BoundedBacktracker::build_from_nfa(nfa, pre))
}

/// A cache for it: a new one, or that of the earlier engine, reset.
fn cache_for(
    alloc: Global,
    ask: &Ask<'_>,
    backtracker: &BoundedBacktracker,
) -> Result<Cache, Failure>
    ensures { IfOk result (Fits backtracker.now.nfa) }
{
    match ask.earlier() {
        None => Ok(backtracker.create_cache(alloc)?),
        Some(earlier) => reset_for(alloc, &earlier, backtracker),
    }
}

fn reset_for(
    alloc: Global,
    earlier: &Ask<'_>,
    backtracker: &BoundedBacktracker,
) -> Result<Cache, Failure>
    ensures { IfOk result (Fits backtracker.now.nfa) }
{
    let mut cache = used(alloc, earlier)?;
    cache.reset(alloc, backtracker)?;
    Ok(cache)
}

/// A cache that served a search of the input.
fn used(alloc: Global, ask: &Ask<'_>) -> Result<Cache, Failure> {
    let backtracker = made(alloc, ask)?;
    used_by(alloc, ask, &backtracker)
}

fn used_by(
    alloc: Global,
    ask: &Ask<'_>,
    backtracker: &BoundedBacktracker,
) -> Result<Cache, Failure> {
    let mut cache = backtracker.create_cache(alloc)?;
    let _found = backtracker.try_find_slots(&mut cache, &Input::new(ask.input), &mut []);
    Ok(cache)
}

fn tell_each(
    alloc: Global,
    ask: &Ask<'_>,
    backtracker: &BoundedBacktracker,
    cache: &mut Cache,
    told: &mut Told,
)
    requires { Fits backtracker.now.nfa cache.old }
{
    let lines = ask.has("lines");
    'haystacks: for haystack in ask.haystacks().split(|byte| lines && *byte == b'\n') {
        let Some(input) = ask.input(haystack) else {
            told.refuse(Failure::Usage);
            return;
        };
        tell_input(alloc, ask, backtracker, cache, &input, told);
    }
}

/// Appends what it tells of an input.
fn tell_input(
    alloc: Global,
    ask: &Ask<'_>,
    backtracker: &BoundedBacktracker,
    cache: &mut Cache,
    input: &Input<'_>,
    told: &mut Told,
)
    requires { Fits backtracker.now.nfa cache.old }
    ensures { Fits backtracker.now.nfa cache.new }
{
    match ask.call {
        Call::Memory => told.tell_bytes(cache.memory_usage()),
        Call::Span => told.tell_match(backtracker.try_find_slots(cache, input, &mut [])),
        Call::Slots | Call::Places => tell_slots(alloc, ask, backtracker, cache, input, told),
        _ => told.refuse(Failure::Usage),
    }
}

/// Appends what stands in the slots after a search.
fn tell_slots(
    alloc: Global,
    ask: &Ask<'_>,
    backtracker: &BoundedBacktracker,
    cache: &mut Cache,
    input: &Input<'_>,
    told: &mut Told,
)
    requires { Fits backtracker.now.nfa cache.old }
    ensures { Fits backtracker.now.nfa cache.new }
{
    match ask.slots(alloc, backtracker.get_nfa().slot_len()) {
        Ok(mut slots) => tell_found(ask, backtracker, cache, input, &mut slots, told),
        Err(_) => told.refuse(Failure::Memory),
    }
}

/// The same of these slots.
fn tell_found(
    ask: &Ask<'_>,
    backtracker: &BoundedBacktracker,
    cache: &mut Cache,
    input: &Input<'_>,
    slots: &mut [Option<NonMaxUsize>],
    told: &mut Told,
)
    requires { Fits backtracker.now.nfa cache.old }
    ensures { Fits backtracker.now.nfa cache.new }
{
    match backtracker.try_search_slots(cache, input, slots) {
        Ok(found) => told.tell_slots(ask.call, found, slots),
        Err(error) => told.tell_error(error),
    }
}
