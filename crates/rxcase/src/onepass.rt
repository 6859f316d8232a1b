//! The one-pass DFA, and what it is asked for.
ghost use Rattle.std.specs.Prelude.{IfOk};
ghost use Rattle.rx_onepass.specs.Dfa.{Fits};

use crate::ask::Ask;
use crate::call::Call;
use crate::compile::texts;
use crate::failure::Failure;
use crate::told::Told;
use rx_onepass::{Builder, Cache, Config, DFA};
use rx_search::{Input, NonMaxUsize};
use std::alloc::Global;

/// Appends what the one-pass DFA tells of each haystack, with one cache.
pub fn tell(alloc: Global, ask: &Ask<'_>, told: &mut Told) {
    let ended = tell_made(alloc, ask, told);
    told.end(ended);
}

fn tell_made(alloc: Global, ask: &Ask<'_>, told: &mut Told) -> Result<(), Failure> {
    let dfa = made(alloc, ask)?;
    tell_by(alloc, ask, &dfa, told)
}

fn tell_by(alloc: Global, ask: &Ask<'_>, dfa: &DFA, told: &mut Told) -> Result<(), Failure> {
    if ask.call == Call::Size {
        told.tell_bytes(dfa.memory_usage());
        return Ok(());
    }
    let mut cache = cache_for(alloc, ask, dfa)?;
    tell_each(alloc, ask, dfa, &mut cache, told);
    Ok(())
}

/// The one-pass DFA that is asked for, with starts for each pattern.
fn made(alloc: Global, ask: &Ask<'_>) -> Result<DFA, Failure> {
    if ask.has("nfa:always") {
        return Ok(DFA::always_match(alloc)?);
    }
    if ask.has("nfa:never") {
        return Ok(DFA::never_match(alloc)?);
    }
    of_patterns(alloc, ask)
}

fn of_patterns(alloc: Global, ask: &Ask<'_>) -> Result<DFA, Failure> {
    let patterns = texts(alloc, ask.patterns)?;
    Ok(builder(ask).build_many(alloc, &patterns)?)
}

fn builder(ask: &Ask<'_>) -> Builder {
    let mut builder = Builder::new();
    builder.configure(config(ask));
    builder.thompson(
        rx_nfa::Config::new()
            .utf8(!ask.has("utf8:no"))
            .which_captures(ask.captures()),
    );
    builder
}

fn config(ask: &Ask<'_>) -> Config {
    Config::new()
        .match_kind(ask.kind())
        .starts_for_each_pattern(true)
        .byte_classes(!ask.has("classes:off"))
        .size_limit(ask.number("limit"))
}

/// A cache for it: a new one, or that of the earlier engine, reset.
fn cache_for(alloc: Global, ask: &Ask<'_>, dfa: &DFA) -> Result<Cache, Failure>
    ensures { IfOk result (Fits dfa.now.nfa) }
{
    match ask.earlier() {
        None => Ok(dfa.create_cache(alloc)?),
        Some(earlier) => reset_for(alloc, &earlier, dfa),
    }
}

fn reset_for(alloc: Global, earlier: &Ask<'_>, dfa: &DFA) -> Result<Cache, Failure>
    ensures { IfOk result (Fits dfa.now.nfa) }
{
    let mut cache = used(alloc, earlier)?;
    dfa.reset_cache(&mut cache)?;
    Ok(cache)
}

/// A cache that served a search of the input.
fn used(alloc: Global, ask: &Ask<'_>) -> Result<Cache, Failure> {
    let dfa = made(alloc, ask)?;
    used_by(alloc, ask, &dfa)
}

fn used_by(alloc: Global, ask: &Ask<'_>, dfa: &DFA) -> Result<Cache, Failure> {
    let mut cache = dfa.create_cache(alloc)?;
    let mut slots = ask.slots(alloc, dfa.get_nfa().slot_len())?;
    let _found = dfa.try_search_slots(&mut cache, &Input::new(ask.input), &mut slots);
    Ok(cache)
}

fn tell_each(alloc: Global, ask: &Ask<'_>, dfa: &DFA, cache: &mut Cache, told: &mut Told)
    requires { Fits dfa.now.nfa cache.old }
{
    let lines = ask.has("lines");
    'haystacks: for haystack in ask.haystacks().split(|byte| lines && *byte == b'\n') {
        let Some(input) = ask.input(haystack) else {
            told.refuse(Failure::Usage);
            return;
        };
        tell_input(alloc, ask, dfa, cache, &input, told);
    }
}

/// Appends what it tells of an input.
fn tell_input(
    alloc: Global,
    ask: &Ask<'_>,
    dfa: &DFA,
    cache: &mut Cache,
    input: &Input<'_>,
    told: &mut Told,
)
    requires { Fits dfa.now.nfa cache.old }
    ensures { Fits dfa.now.nfa cache.new }
{
    match ask.call {
        Call::Memory => told.tell_bytes(cache.memory_usage()),
        Call::Span => told.tell_match(dfa.try_find_slots(cache, input, &mut [])),
        Call::End => told.tell_end(dfa.try_find_slots(cache, input, &mut [])),
        Call::Test => match dfa.try_search_slots(cache, input, &mut []) {
            Ok(found) => told.tell_test(found.is_some()),
            Err(error) => told.tell_error(error),
        },
        Call::Slots | Call::Places => tell_slots(alloc, ask, dfa, cache, input, told),
        _ => told.refuse(Failure::Usage),
    }
}

/// Appends what stands in the slots after a search.
fn tell_slots(
    alloc: Global,
    ask: &Ask<'_>,
    dfa: &DFA,
    cache: &mut Cache,
    input: &Input<'_>,
    told: &mut Told,
)
    requires { Fits dfa.now.nfa cache.old }
    ensures { Fits dfa.now.nfa cache.new }
{
    match ask.slots(alloc, dfa.get_nfa().slot_len()) {
        Ok(mut slots) => tell_found(ask, dfa, cache, input, &mut slots, told),
        Err(_) => told.refuse(Failure::Memory),
    }
}

/// The same of these slots; of their places after an error too.
fn tell_found(
    ask: &Ask<'_>,
    dfa: &DFA,
    cache: &mut Cache,
    input: &Input<'_>,
    slots: &mut [Option<NonMaxUsize>],
    told: &mut Told,
)
    requires { Fits dfa.now.nfa cache.old }
    ensures { Fits dfa.now.nfa cache.new }
{
    match dfa.try_search_slots(cache, input, slots) {
        Ok(found) => told.tell_slots(ask.call, found, slots),
        Err(error) => told.tell_error_and_slots(ask.call, error, slots),
    }
}
