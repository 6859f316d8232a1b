//! From where states are come to.
ghost use Rattle.std.specs.Prelude.{◌≡◌, ◌<◌, ◌≤◌, length, All, IfOk};
ghost use Rattle.rx_nfa.specs.Automaton.{NamesBelow};
ghost use Rattle.rx_nfa.specs.Prefixes.{LeadsInto};
ghost use Rattle.rx_nfa.specs.Named.{Spans, Widens, AreNamed, last_in};
ghost use Rattle.rx_nfa.specs.States.{AreClosed};
ghost use Rattle.rx_nfa.specs.declared.state.Transition.{Transition as OneTransition};

use crate::state::{State, Transition};
use rx_search::{Memory, StateID};
use std::alloc::Global;

/// The least and the greatest number of the states that go on to a state.
#[derive(Clone, Copy)]
pub struct Named {
    pub first: usize,
    pub last: usize,
}

/// From where each state is come to. A start counts as if a state behind the last one went on to it.
pub fn named_by(
    alloc: Global,
    states: &[State],
    start: StateID,
    starts: &[StateID],
) -> Result<Vec<Named>, Memory>
    requires closed { AreClosed states.now }
    requires start { start < length states.now }
    requires starts { All (λ q. q < length states.now) starts.now }
    ensures named { IfOk result (λ named. AreNamed states.now named.items) }
    ensures start { IfOk result (λ named. length states.now ≤ last_in named.items start) }
    ensures starts { IfOk result (λ named. All (λ q. length states.now ≤ last_in named.items q) starts.now) }
{
    let nobody = Named {
        first: states.len(),
        last: 0,
    };
    let mut named = vec![in alloc; nobody; states.len()]?;
    for by in 0..states.len() {
        note_targets(&mut named, &states[by], by);
    }
    note(&mut named, start, states.len());
    note_each(&mut named, starts, states.len());
    Ok(named)
}

/// Notes that each state that this one goes on to is come to from it.
fn note_targets(named: &mut Vec<Named>, state: &State, by: usize)
    requires inside { NamesBelow (length named.old.items) state.now }
    ensures spans { LeadsInto (Spans named.new.items by) state.now }
    ensures wider { Widens named.old.items named.new.items }
{
    match state {
        State::ByteRange { next, .. } => note(named, *next, by),
        State::Sparse { transitions } => { note_transitions(named, transitions.as_slice(), by) }
        State::Look { next, .. } => note(named, *next, by),
        State::Union { alternates } => note_each(named, alternates.as_slice(), by),
        State::Capture { next, .. } => note(named, *next, by),
        State::Fail => (),
        State::Match { .. } => (),
    }
}

/// Notes that the target of each of these is come to from there.
fn note_transitions(named: &mut Vec<Named>, transitions: &[Transition], by: usize)
    requires inside { All (λ (t : OneTransition). t.next < length named.old.items) transitions.now }
    ensures spans { All (λ (t : OneTransition). Spans named.new.items by t.next) transitions.now }
    ensures wider { Widens named.old.items named.new.items }
{
    for transition in transitions {
        note(named, transition.next, by);
    }
}

/// Notes that each of these is come to from there.
fn note_each(named: &mut Vec<Named>, ids: &[StateID], by: usize)
    requires inside { All (λ q. q < length named.old.items) ids.now }
    ensures spans { All (Spans named.new.items by) ids.now }
    ensures wider { Widens named.old.items named.new.items }
{
    for id in ids {
        note(named, *id, by);
    }
}

/// Notes that the state is come to from there.
fn note(named: &mut Vec<Named>, to: StateID, by: usize)
    requires inside { to < length named.old.items }
    ensures spans { Spans named.new.items by to }
    ensures wider { Widens named.old.items named.new.items }
{
    let Named { first, last } = named[to.as_usize()];
    named[to.as_usize()] = Named {
        first: if by < first { by } else { first },
        last: if last < by { by } else { last },
    };
}
