//! The PikeVM, and what it is asked for.
ghost use Rattle.std.specs.Prelude.{IfOk};
ghost use Rattle.rx_engines.specs.Engine.{Fits};

use crate::ask::Ask;
use crate::call::Call;
use crate::compile::{prefilter, source};
use crate::failure::Failure;
use crate::told::Told;
use rx_engines::pikevm::{Cache, PikeVM};
use rx_search::{Input, NonMaxUsize, PatternSet};
use std::alloc::Global;
use std::mem::drop;

/// Appends what the PikeVM tells of each haystack, with one cache.
pub fn tell(alloc: Global, ask: &Ask<'_>, told: &mut Told) {
    let ended = tell_made(alloc, ask, told);
    told.end(ended);
}

fn tell_made(alloc: Global, ask: &Ask<'_>, told: &mut Told) -> Result<(), Failure> {
    let vm = made(alloc, ask)?;
    tell_by(alloc, ask, &vm, told)
}

fn tell_by(alloc: Global, ask: &Ask<'_>, vm: &PikeVM, told: &mut Told) -> Result<(), Failure> {
    let mut cache = cache_for(alloc, ask, vm)?;
    tell_each(alloc, ask, vm, &mut cache, told);
    drop(cache);
    Ok(())
}

/// The PikeVM that is asked for.
fn made(alloc: Global, ask: &Ask<'_>) -> Result<PikeVM, Failure> {
    let pre = prefilter(alloc, ask)?;
    let nfa = source(alloc, ask)?;
    Ok(PikeVM::build_from_nfa(nfa, ask.kind(), pre))
}

/// A cache for it: a new one, or that of the earlier engine, reset.
fn cache_for(alloc: Global, ask: &Ask<'_>, vm: &PikeVM) -> Result<Cache, Failure>
    ensures { IfOk result (Fits vm.now) }
{
    match ask.earlier() {
        None => Ok(vm.create_cache(alloc)?),
        Some(earlier) => reset_for(alloc, &earlier, vm),
    }
}

fn reset_for(alloc: Global, earlier: &Ask<'_>, vm: &PikeVM) -> Result<Cache, Failure>
    ensures { IfOk result (Fits vm.now) }
{
    let mut cache = used(alloc, earlier)?;
    match cache.reset(alloc, vm) {
        Ok(()) => Ok(cache),
        Err(error) => {
            drop(cache);
            Err(error.into())
        }
    }
}

/// A cache that served a search of the input.
fn used(alloc: Global, ask: &Ask<'_>) -> Result<Cache, Failure> {
    let vm = made(alloc, ask)?;
    used_by(alloc, ask, &vm)
}

fn used_by(alloc: Global, ask: &Ask<'_>, vm: &PikeVM) -> Result<Cache, Failure> {
    let mut cache = vm.create_cache(alloc)?;
    let _found = vm.find(&mut cache, &Input::new(ask.input));
    Ok(cache)
}

fn tell_each(alloc: Global, ask: &Ask<'_>, vm: &PikeVM, cache: &mut Cache, told: &mut Told)
    requires { Fits vm.now cache.old }
{
    let lines = ask.has("lines");
    'haystacks: for haystack in ask.haystacks().split(|byte| lines && *byte == b'\n') {
        let Some(input) = ask.input(haystack) else {
            told.refuse(Failure::Usage);
            return;
        };
        tell_input(alloc, ask, vm, cache, &input, told);
    }
}

/// Appends what it tells of an input.
fn tell_input(
    alloc: Global,
    ask: &Ask<'_>,
    vm: &PikeVM,
    cache: &mut Cache,
    input: &Input<'_>,
    told: &mut Told,
)
    requires { Fits vm.now cache.old }
    ensures { Fits vm.now cache.new }
{
    match ask.call {
        Call::Memory => told.tell_bytes(cache.memory_usage()),
        Call::Span => told.tell_match(Ok(vm.find(cache, input))),
        Call::End => told.tell_end(Ok(vm.find(cache, input))),
        Call::Test => told.tell_test(vm.is_match(cache, input)),
        Call::Set => tell_set(alloc, vm, cache, input, told),
        Call::Slots | Call::Places => tell_slots(alloc, ask, vm, cache, input, told),
        _ => told.refuse(Failure::Usage),
    }
}

/// Appends what stands in the slots after a search.
fn tell_slots(
    alloc: Global,
    ask: &Ask<'_>,
    vm: &PikeVM,
    cache: &mut Cache,
    input: &Input<'_>,
    told: &mut Told,
)
    requires { Fits vm.now cache.old }
    ensures { Fits vm.now cache.new }
{
    match ask.slots(alloc, vm.get_nfa().slot_len()) {
        Ok(mut slots) => tell_found(ask, vm, cache, input, &mut slots, told),
        Err(_) => told.refuse(Failure::Memory),
    }
}

/// The same of these slots.
fn tell_found(
    ask: &Ask<'_>,
    vm: &PikeVM,
    cache: &mut Cache,
    input: &Input<'_>,
    slots: &mut [Option<NonMaxUsize>],
    told: &mut Told,
)
    requires { Fits vm.now cache.old }
    ensures { Fits vm.now cache.new }
{
    let found = vm.search_slots(cache, input, slots);
    told.tell_slots(ask.call, found, slots);
}

/// Appends the patterns that have a match.
fn tell_set(alloc: Global, vm: &PikeVM, cache: &mut Cache, input: &Input<'_>, told: &mut Told)
    requires { Fits vm.now cache.old }
    ensures { Fits vm.now cache.new }
{
    match PatternSet::new(alloc, vm.get_nfa().pattern_len()) {
        Ok(mut set) => {
            vm.which_overlapping_matches(cache, input, &mut set);
            told.tell_set(&set);
        }
        Err(_) => told.refuse(Failure::Memory),
    }
}
