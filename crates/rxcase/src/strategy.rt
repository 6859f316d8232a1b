//! The strategy of a regex, and what it is asked for.
ghost use Rattle.std.specs.Prelude.{IfOk};
ghost use Rattle.rx_strategy.specs.Cache.{Fits};

use crate::ask::Ask;
use crate::call::Call;
use crate::compile::{prefilter, texts};
use crate::failure::Failure;
use crate::told::Told;
use rx_hir::Hir;
use rx_nfa::BuildError;
use rx_search::{Input, MatchError, Memory, NonMaxUsize};
use rx_strategy::{Cache, Config, Strategy};
use rx_syntax::{ParseError, parse_many};
use std::alloc::Global;
use std::mem::drop;

/// Appends what the strategy tells.
pub fn tell(alloc: Global, ask: &Ask<'_>, told: &mut Told) {
    let ended = tell_made(alloc, ask, told);
    told.end(ended);
}

fn tell_made(alloc: Global, ask: &Ask<'_>, told: &mut Told) -> Result<(), Failure> {
    let strategy = made(alloc, ask)?;
    let ended = tell_by(alloc, ask, &strategy, told);
    drop(strategy);
    ended
}

fn tell_by(
    alloc: Global,
    ask: &Ask<'_>,
    strategy: &Strategy,
    told: &mut Told,
) -> Result<(), Failure> {
    if ask.call == Call::Size {
        told.tell_bytes(strategy.memory_usage());
        return Ok(());
    }
    let Some(input) = ask.input(ask.input) else {
        return Err(Failure::Usage);
    };
    let mut cache = cache_for(alloc, ask, strategy)?;
    tell_input(alloc, ask, strategy, &mut cache, &input, told);
    drop(cache);
    Ok(())
}

/// The strategy that is asked for.
fn made(alloc: Global, ask: &Ask<'_>) -> Result<Strategy, Failure> {
    let config = config(alloc, ask)?;
    made_under(alloc, ask, &config)
}

fn made_under(alloc: Global, ask: &Ask<'_>, config: &Config) -> Result<Strategy, Failure> {
    let exprs = expressions(alloc, ask)?;
    made_of(alloc, config, &exprs)
}

fn made_of(alloc: Global, config: &Config, exprs: &[Hir]) -> Result<Strategy, Failure> {
    match Strategy::new(alloc, config, exprs) {
        Ok(strategy) => Ok(strategy),
        Err(BuildError::ExceededSizeLimit { limit, size }) => Err(Failure::TooBig { limit, size }),
        Err(BuildError::Memory) => Err(Failure::Memory),
        Err(_) => Err(Failure::Patterns),
    }
}

/// The expressions of the patterns.
fn expressions(alloc: Global, ask: &Ask<'_>) -> Result<Vec<Hir>, Failure> {
    let patterns = texts(alloc, ask.patterns)?;
    parsed(alloc, &patterns)
}

fn parsed(alloc: Global, patterns: &[&str]) -> Result<Vec<Hir>, Failure> {
    match parse_many(alloc, patterns) {
        Ok(exprs) => Ok(exprs),
        Err(ParseError::Memory) => Err(Failure::Memory),
        Err(_) => Err(Failure::Patterns),
    }
}

/// The configuration that is asked for.
fn config(alloc: Global, ask: &Ask<'_>) -> Result<Config, Failure> {
    let pre = prefilter(alloc, ask)?;
    let config = Config::new()
        .match_kind(ask.kind())
        .utf8_empty(!ask.has("utf8:no"))
        .which_captures(ask.captures())
        .nfa_size_limit(ask.number("limit"))
        .auto_prefilter(!ask.is_off('p'))
        .dfa(!ask.is_off('d'))
        .hybrid(!ask.is_off('h'))
        .backtrack(!ask.is_off('b'));
    Ok(config.prefilter(pre))
}

/// A cache for it: a new one, or that of the earlier engine, reset.
fn cache_for(alloc: Global, ask: &Ask<'_>, strategy: &Strategy) -> Result<Cache, Failure>
    ensures { IfOk result (Fits strategy.now) }
{
    match ask.earlier() {
        None => Ok(Cache::new(alloc, strategy)?),
        Some(earlier) => reset_for(alloc, &earlier, strategy),
    }
}

fn reset_for(alloc: Global, earlier: &Ask<'_>, strategy: &Strategy) -> Result<Cache, Failure>
    ensures { IfOk result (Fits strategy.now) }
{
    let mut cache = used(alloc, earlier)?;
    match cache.reset(alloc, strategy) {
        Ok(()) => Ok(cache),
        Err(error) => {
            drop(cache);
            Err(error.into())
        }
    }
}

/// A cache that served a search of the input.
fn used(alloc: Global, ask: &Ask<'_>) -> Result<Cache, Failure> {
    let strategy = made(alloc, ask)?;
    let cache = used_by(alloc, ask, &strategy);
    drop(strategy);
    cache
}

fn used_by(alloc: Global, ask: &Ask<'_>, strategy: &Strategy) -> Result<Cache, Failure> {
    let mut cache = Cache::new(alloc, strategy)?;
    let _found = strategy.search(&mut cache, &Input::new(ask.input));
    Ok(cache)
}

/// What a search found that may fail for want of memory alone.
fn without_memory<T: Drop>(found: Result<T, Memory>) -> Result<T, MatchError> {
    match found {
        Ok(found) => Ok(found),
        Err(_) => Err(MatchError::Memory),
    }
}

/// Appends what it tells of an input.
fn tell_input(
    alloc: Global,
    ask: &Ask<'_>,
    strategy: &Strategy,
    cache: &mut Cache,
    input: &Input<'_>,
    told: &mut Told,
)
    requires { Fits strategy.now cache.old }
{
    match ask.call {
        Call::Memory => told.tell_bytes(cache.memory_usage()),
        Call::Span => told.tell_match(without_memory(strategy.search(cache, input))),
        Call::End => told.tell_half(without_memory(strategy.search_half(cache, input))),
        Call::Test => match strategy.is_match(cache, input) {
            Ok(is_there) => told.tell_test(is_there),
            Err(_) => told.refuse(Failure::Memory),
        },
        Call::Slots | Call::Places => tell_slots(alloc, ask, strategy, cache, input, told),
        _ => told.refuse(Failure::Usage),
    }
}

/// Appends what stands in the slots after a search.
fn tell_slots(
    alloc: Global,
    ask: &Ask<'_>,
    strategy: &Strategy,
    cache: &mut Cache,
    input: &Input<'_>,
    told: &mut Told,
)
    requires { Fits strategy.now cache.old }
{
    match ask.slots(alloc, strategy.group_info().slot_len()) {
        Ok(mut slots) => tell_found(ask, strategy, cache, input, &mut slots, told),
        Err(_) => told.refuse(Failure::Memory),
    }
}

/// The same of these slots.
fn tell_found(
    ask: &Ask<'_>,
    strategy: &Strategy,
    cache: &mut Cache,
    input: &Input<'_>,
    slots: &mut [Option<NonMaxUsize>],
    told: &mut Told,
)
    requires { Fits strategy.now cache.old }
{
    match strategy.search_slots(cache, input, slots) {
        Ok(found) => told.tell_slots(ask.call, found.map(|found| found.pattern()), slots),
        Err(_) => told.refuse(Failure::Memory),
    }
}
