//! The DFAs that are asked, and what they are asked for.
ghost use Rattle.std.specs.Prelude.{◌≡◌, ◌≤◌, IfOk, length, true, false};
ghost use Rattle.rx_dfa.specs.LazyCache.{IsCacheOf};

use crate::ask::Ask;
use crate::call::Call;
use crate::compile::nfa;
use crate::failure::Failure;
use crate::told::Told;
use crate::{ahead, behind, both, sets};
use rx_dfa::lazy::{Lazy, LazyCache};
use rx_dfa::{Dense, dense, lazy, try_search_half_fwd};
use rx_search::{Input, MatchKind, PatternSet};
use rx_thompson::NFA;
use std::alloc::Global;
use std::mem::drop;

/// Appends what the full DFA tells.
pub fn by_dense(alloc: Global, ask: &Ask<'_>, told: &mut Told) {
    let ended = match ask.call {
        Call::End => dense_ahead(alloc, ask, told),
        Call::Set => dense_set(alloc, ask, told),
        Call::Start => dense_behind(alloc, ask, told),
        Call::Span | Call::Matches => dense_both(alloc, ask, told),
        Call::Size => size(alloc, ask, told),
        _ => Err(Failure::Usage),
    };
    told.end(ended);
}

/// Appends what lazy DFAs tell.
pub fn by_lazy(alloc: Global, ask: &Ask<'_>, told: &mut Told) {
    let ended = match ask.call {
        Call::End => lazy_ahead(alloc, ask, told),
        Call::Memory => lazy_memory(alloc, ask, told),
        Call::Set => lazy_set(alloc, ask, told),
        Call::Start => lazy_behind(alloc, ask, told),
        Call::Span | Call::Matches => lazy_both(alloc, ask, told),
        _ => Err(Failure::Usage),
    };
    told.end(ended);
}

fn dense_ahead(alloc: Global, ask: &Ask<'_>, told: &mut Told) -> Result<(), Failure> {
    let dfa = full(alloc, ask, ask.kind(), false)?;
    ahead::tell(alloc, ask, &dfa, &mut (), told);
    Ok(())
}

fn dense_behind(alloc: Global, ask: &Ask<'_>, told: &mut Told) -> Result<(), Failure> {
    let dfa = full(alloc, ask, MatchKind::All, true)?;
    behind::tell(ask, &dfa, &mut (), told);
    Ok(())
}

fn dense_both(alloc: Global, ask: &Ask<'_>, told: &mut Told) -> Result<(), Failure> {
    let forward = full(alloc, ask, ask.kind(), false)?;
    dense_from(alloc, ask, &forward, told)
}

fn dense_from(alloc: Global, ask: &Ask<'_>, forward: &Dense, told: &mut Told) -> Result<(), Failure>
    requires { forward.now.dfa.nfa.reverse ≡ false }
{
    let backward = full(alloc, ask, MatchKind::All, true)?;
    both::tell(ask, forward, &mut (), &backward, &mut (), told);
    Ok(())
}

fn lazy_ahead(alloc: Global, ask: &Ask<'_>, told: &mut Told) -> Result<(), Failure> {
    let dfa = on_demand(alloc, ask, ask.kind(), false)?;
    let ended = lazy_ahead_by(alloc, ask, &dfa, told);
    drop(dfa);
    ended
}

fn lazy_ahead_by(alloc: Global, ask: &Ask<'_>, dfa: &Lazy, told: &mut Told) -> Result<(), Failure>
    requires { dfa.now.dfa.nfa.reverse ≡ false }
{
    let mut cache = LazyCache::new(alloc, dfa)?;
    ahead::tell(alloc, ask, dfa, &mut cache, told);
    drop(cache);
    Ok(())
}

fn lazy_memory(alloc: Global, ask: &Ask<'_>, told: &mut Told) -> Result<(), Failure> {
    let dfa = on_demand(alloc, ask, ask.kind(), false)?;
    let ended = lazy_memory_by(alloc, ask, &dfa, told);
    drop(dfa);
    ended
}

/// Appends the bytes that are accounted for a cache, what a search for an end tells, and the bytes after it.
fn lazy_memory_by(alloc: Global, ask: &Ask<'_>, dfa: &Lazy, told: &mut Told) -> Result<(), Failure>
    requires { dfa.now.dfa.nfa.reverse ≡ false }
{
    let mut cache = lazy_cache(alloc, ask, dfa)?;
    told.tell_bytes(cache.memory_usage());
    told.tell_half(try_search_half_fwd(dfa, &mut cache, &Input::new(ask.input)));
    told.tell_bytes(cache.memory_usage());
    drop(cache);
    Ok(())
}

/// A cache for the DFA: a new one, or that of the earlier engine, reset.
fn lazy_cache(alloc: Global, ask: &Ask<'_>, dfa: &Lazy) -> Result<LazyCache, Failure>
    ensures { IfOk result (IsCacheOf dfa.now) }
{
    match ask.earlier() {
        None => Ok(LazyCache::new(alloc, dfa)?),
        Some(earlier) => lazy_reset(alloc, &earlier, dfa),
    }
}

fn lazy_reset(alloc: Global, earlier: &Ask<'_>, dfa: &Lazy) -> Result<LazyCache, Failure>
    ensures { IfOk result (IsCacheOf dfa.now) }
{
    let mut cache = lazy_used(alloc, earlier)?;
    match cache.reset(alloc, dfa) {
        Ok(()) => Ok(cache),
        Err(error) => {
            drop(cache);
            Err(error.into())
        }
    }
}

/// A cache that served a search of the input.
fn lazy_used(alloc: Global, ask: &Ask<'_>) -> Result<LazyCache, Failure> {
    let dfa = on_demand(alloc, ask, ask.kind(), false)?;
    let cache = lazy_used_by(alloc, ask, &dfa);
    drop(dfa);
    cache
}

fn lazy_used_by(alloc: Global, ask: &Ask<'_>, dfa: &Lazy) -> Result<LazyCache, Failure>
    requires { dfa.now.dfa.nfa.reverse ≡ false }
{
    let mut cache = LazyCache::new(alloc, dfa)?;
    let _found = try_search_half_fwd(dfa, &mut cache, &Input::new(ask.input));
    Ok(cache)
}

fn lazy_behind(alloc: Global, ask: &Ask<'_>, told: &mut Told) -> Result<(), Failure> {
    let dfa = on_demand(alloc, ask, MatchKind::All, true)?;
    let ended = lazy_behind_by(alloc, ask, &dfa, told);
    drop(dfa);
    ended
}

fn lazy_behind_by(alloc: Global, ask: &Ask<'_>, dfa: &Lazy, told: &mut Told) -> Result<(), Failure>
    requires { dfa.now.dfa.nfa.reverse ≡ true }
{
    let mut cache = LazyCache::new(alloc, dfa)?;
    behind::tell(ask, dfa, &mut cache, told);
    drop(cache);
    Ok(())
}

fn lazy_both(alloc: Global, ask: &Ask<'_>, told: &mut Told) -> Result<(), Failure> {
    let forward = on_demand(alloc, ask, ask.kind(), false)?;
    let ended = lazy_from(alloc, ask, &forward, told);
    drop(forward);
    ended
}

fn lazy_from(alloc: Global, ask: &Ask<'_>, forward: &Lazy, told: &mut Told) -> Result<(), Failure>
    requires { forward.now.dfa.nfa.reverse ≡ false }
{
    let backward = on_demand(alloc, ask, MatchKind::All, true)?;
    let ended = lazy_between(alloc, ask, forward, &backward, told);
    drop(backward);
    ended
}

fn lazy_between(
    alloc: Global,
    ask: &Ask<'_>,
    forward: &Lazy,
    backward: &Lazy,
    told: &mut Told,
) -> Result<(), Failure>
    requires forward { forward.now.dfa.nfa.reverse ≡ false }
    requires backward { backward.now.dfa.nfa.reverse ≡ true }
{
    let mut first = LazyCache::new(alloc, forward)?;
    match LazyCache::new(alloc, backward) {
        Ok(mut second) => {
            both::tell(ask, forward, &mut first, backward, &mut second, told);
            drop(second);
            drop(first);
            Ok(())
        }
        Err(error) => {
            drop(first);
            Err(error.into())
        }
    }
}

fn dense_set(alloc: Global, ask: &Ask<'_>, told: &mut Told) -> Result<(), Failure> {
    let nfa = nfa(alloc, ask, false)?;
    let mut set = PatternSet::new(alloc, nfa.pattern_len())?;
    let dfa = full_of(alloc, ask, nfa, ask.kind())?;
    sets::tell(ask, &dfa, &mut (), &mut set, told);
    Ok(())
}

fn lazy_set(alloc: Global, ask: &Ask<'_>, told: &mut Told) -> Result<(), Failure> {
    let nfa = nfa(alloc, ask, false)?;
    let mut set = PatternSet::new(alloc, nfa.pattern_len())?;
    let dfa = on_demand_of(alloc, ask, nfa, ask.kind())?;
    lazy_filled(alloc, ask, &dfa, &mut set, told)
}

fn lazy_filled(
    alloc: Global,
    ask: &Ask<'_>,
    dfa: &Lazy,
    set: &mut PatternSet,
    told: &mut Told,
) -> Result<(), Failure>
    requires forward { dfa.now.dfa.nfa.reverse ≡ false }
    requires room { length dfa.now.dfa.nfa.starts ≤ length set.old }
{
    let mut cache = LazyCache::new(alloc, dfa)?;
    sets::tell(ask, dfa, &mut cache, set, told);
    Ok(())
}

/// A full DFA of the patterns, of this kind, whether it reads backwards.
fn full(alloc: Global, ask: &Ask<'_>, kind: MatchKind, reverse: bool) -> Result<Dense, Failure>
    ensures { IfOk result (λ d. d.dfa.nfa.reverse ≡ reverse) }
{
    let nfa = nfa(alloc, ask, reverse)?;
    full_of(alloc, ask, nfa, kind)
}

/// A full DFA of the NFA.
fn full_of(alloc: Global, ask: &Ask<'_>, nfa: NFA, kind: MatchKind) -> Result<Dense, Failure>
    ensures { IfOk result (λ d. d.dfa.nfa ≡ nfa) }
{
    let classes = !ask.has("classes:off");
    match Dense::build_from_nfa(alloc, nfa, kind, classes, ask.number("limit")) {
        Ok(dfa) => Ok(dfa),
        Err(dense::BuildError::TooBig { limit, size }) => Err(Failure::TooBig { limit, size }),
        Err(dense::BuildError::Memory) => Err(Failure::Memory),
    }
}

/// A lazy DFA of the patterns, of this kind, whether it reads backwards.
fn on_demand(alloc: Global, ask: &Ask<'_>, kind: MatchKind, reverse: bool) -> Result<Lazy, Failure>
    ensures { IfOk result (λ d. d.dfa.nfa.reverse ≡ reverse) }
{
    let nfa = nfa(alloc, ask, reverse)?;
    on_demand_of(alloc, ask, nfa, kind)
}

/// A lazy DFA of the NFA.
fn on_demand_of(alloc: Global, ask: &Ask<'_>, nfa: NFA, kind: MatchKind) -> Result<Lazy, Failure>
    ensures { IfOk result (λ d. d.dfa.nfa ≡ nfa) }
{
    let classes = !ask.has("classes:off");
    let capacity = ask.number("capacity").unwrap_or(1 << 20);
    match Lazy::build_from_nfa(alloc, nfa, kind, classes, capacity) {
        Ok(dfa) => Ok(dfa),
        Err(lazy::BuildError::CacheTooSmall { minimum, given }) => {
            Err(Failure::TooSmall { minimum, given })
        }
        Err(lazy::BuildError::Memory) => Err(Failure::Memory),
    }
}

/// Appends the bytes of a full DFA's table.
fn size(alloc: Global, ask: &Ask<'_>, told: &mut Told) -> Result<(), Failure> {
    let dfa = full(alloc, ask, ask.kind(), ask.has("backwards"))?;
    told.tell_bytes(dfa.memory_usage());
    Ok(())
}
