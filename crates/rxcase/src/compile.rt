//! The NFA of the patterns, and the prefilter of the needles.
ghost use Rattle.std.specs.Prelude.{◌≡◌, IfOk};
ghost use Rattle.rx_nfa.specs.Config.{reverse_of};

use crate::ask::Ask;
use crate::failure::Failure;
use rx_nfa::Config;
use rx_prefilter::Prefilter;
use rx_search::{MatchKind, Memory};
use rx_thompson::{Compiler, NFA};
use std::alloc::Global;

/// The NFA of the patterns, whether it reads backwards.
///
/// # Errors
///
/// `Patterns` where the grammar or a limit refuses them; else only `Memory`.
pub fn nfa(alloc: Global, ask: &Ask<'_>, reverse: bool) -> Result<NFA, Failure>
    ensures { IfOk result (λ nfa. nfa.reverse ≡ reverse) }
{
    let patterns = texts(alloc, ask.patterns)?;
    Ok(compiler(!ask.has("utf8:no"), reverse).build_many(alloc, &patterns)?)
}

/// The NFA that is asked for, which reads forwards.
///
/// # Errors
///
/// As `nfa`.
pub fn source(alloc: Global, ask: &Ask<'_>) -> Result<NFA, Failure> {
    if ask.has("nfa:always") {
        return Ok(NFA::always_match(alloc)?);
    }
    if ask.has("nfa:never") {
        return Ok(NFA::never_match(alloc)?);
    }
    nfa(alloc, ask, false)
}

/// A compiler of NFAs, whether no match of theirs splits a character, and whether they read backwards.
fn compiler(utf8: bool, reverse: bool) -> Compiler
    ensures { reverse_of result.nfa.config ≡ reverse }
{
    let mut compiler = Compiler::new();
    compiler.configure(Config::new().utf8(utf8).reverse(reverse));
    compiler
}

/// The words as texts.
pub fn texts<'w>(alloc: Global, words: &'w [String]) -> Result<Vec<&'w str>, Memory> {
    let mut texts = Vec::new(alloc);
    for word in words {
        texts.push(word.as_str())?;
    }
    Ok(texts)
}

/// The prefilter of the needles, if there are some that make one.
pub fn prefilter(alloc: Global, ask: &Ask<'_>) -> Result<Option<Prefilter>, Memory> {
    let needles = needles(alloc, ask)?;
    if needles.is_empty() {
        return Ok(None);
    }
    Prefilter::new(alloc, MatchKind::LeftmostFirst, &needles)
}

/// The needles.
fn needles(alloc: Global, ask: &Ask<'_>) -> Result<Vec<Vec<u8>>, Memory> {
    let mut needles = Vec::new(alloc);
    for option in ask.options {
        if let Some(needle) = option.strip_prefix("needle:") {
            add(alloc, &mut needles, needle.as_bytes())?;
        }
    }
    Ok(needles)
}

fn add(alloc: Global, needles: &mut Vec<Vec<u8>>, needle: &[u8]) -> Result<(), Memory> {
    needles.push(Vec::from_slice(alloc, needle)?)?;
    Ok(())
}
