//! How keys start, step and end.
ghost use Rattle.std.specs.Prelude.{◌≡◌, ℕ, ◌<◌, [], ◌∷◌, ◌++◌, length, All, Bool, true, Some, None, OnOk, IfOk};
ghost use Rattle.rx_model.specs.Look.{Look};
ghost use Rattle.rx_nfa.specs.Automaton.{NamesBelow};
ghost use Rattle.rx_nfa.specs.Ordered.{AreBelow, threads_from as threads_of, targets, begun};
ghost use Rattle.rx_determinize.specs.Key.{Sight, Key, arrived as arrived_of, settled, counting, looping, matching, start_key, step_key, end_key};
ghost use Rattle.rx_determinize.specs.Sight.{holds_along};
ghost use Rattle.rx_dfa.specs.Beside.{known};
ghost use Rattle.rx_dfa.specs.Spread.{arrived_key};
ghost use Rattle.rx_dfa.specs.StateKey.{key_of, StandsBelow};
ghost use Rattle.rx_dfa.specs.Scratch.{room_of};
ghost use Rattle.rx_dfa.specs.Source.{IsWhole};

use crate::beside::Beside;
use crate::beside::tell::along;
use crate::close::{Walk, close};
use crate::determinize::Source;
use crate::scratch::Scratch;
use crate::state_key::{StateKey, make};
use crate::step_parts;
use rx_nfa::State;
use rx_search::{LookMatcher, Memory, StateID};

/// Puts into `into` the states at which the threads stay that begin in these.
fn threads_from(
    states: &[State],
    matcher: &LookMatcher,
    beside: Beside,
    from: &[StateID],
    walk: &mut Walk,
    into: &mut Vec<StateID>,
) -> Result<(), Memory>
    requires names { All (NamesBelow (length states.now)) states.now }
    requires from { AreBelow (length states.now) from.now }
    requires room { length walk.old.seen.marks.items ≡ length states.now }
    ensures threads { OnOk result (into.new.items ≡ threads_of states.now (known matcher.now beside) from.now) }
    ensures below { OnOk result (AreBelow (length states.now) into.new.items) }
    ensures room { length walk.new.seen.marks.items ≡ length states.now }
{
    close(states, matcher, beside, from, walk)?;
    into.clear();
    step_parts::resting(states, walk.seen.items.as_slice(), into)?;
    Ok(())
}

/// Puts into `into` the states at which the threads stay that begin in these, whatever look-around holds, and tells whether there are
/// such: none of the threads comes to look-around.
fn threads_whatever(
    states: &[State],
    matcher: &LookMatcher,
    from: &[StateID],
    walk: &mut Walk,
    into: &mut Vec<StateID>,
) -> Result<bool, Memory>
    requires names { All (NamesBelow (length states.now)) states.now }
    requires from { AreBelow (length states.now) from.now }
    requires room { length walk.old.seen.marks.items ≡ length states.now }
    ensures threads { IfOk result (λ same. same ≡ true → (holding : Look → Bool) → into.new.items ≡ threads_of states.now holding from.now) }
    ensures below { OnOk result (AreBelow (length states.now) into.new.items) }
    ensures room { length walk.new.seen.marks.items ≡ length states.now }
{
    close(states, matcher, Beside::Unknown, from, walk)?;
    into.clear();
    if step_parts::one_asks(states, walk.seen.items.as_slice()) {
        return Ok(false);
    }
    step_parts::resting(states, walk.seen.items.as_slice(), into)?;
    Ok(true)
}

/// Puts into `into` what stands for these states before the next byte is known.
fn arrived(
    states: &[State],
    matcher: &LookMatcher,
    from: &[StateID],
    walk: &mut Walk,
    into: &mut Vec<StateID>,
) -> Result<(), Memory>
    requires names { All (NamesBelow (length states.now)) states.now }
    requires from { AreBelow (length states.now) from.now }
    requires room { length walk.old.seen.marks.items ≡ length states.now }
    ensures arrived { OnOk result (into.new.items ≡ arrived_of states.now from.now) }
    ensures below { OnOk result (AreBelow (length states.now) into.new.items) }
    ensures room { length walk.new.seen.marks.items ≡ length states.now }
{
    close(states, matcher, Beside::Unknown, from, walk)?;
    into.clear();
    if step_parts::one_asks(states, walk.seen.items.as_slice()) {
        into.extend_from_slice(walk.seen.items.as_slice())?;
        return Ok(());
    }
    step_parts::resting(states, walk.seen.items.as_slice(), into)?;
    Ok(())
}

/// Appends the state, if a thread begins there.
fn begin(start: StateID, begins: bool, into: &mut Vec<StateID>) -> Result<(), Memory>
    ensures { OnOk result (into.new.items ≡ into.old.items ++ begun start begins) }
{
    if begins {
        into.push(start)?;
    }
    Ok(())
}

impl<'a> Source<'a> {
    /// Leaves the threads of the key that count, and the loop where it counts.
    fn settle(&self, key: &mut StateKey)
        requires below { StandsBelow (length self.now.states.now) key.old }
        ensures settled { key_of key.new ≡ settled self.now.kind self.now.states.now key.old.threads.items key.old.loops key.old.matches.items key.old.before }
        ensures below { StandsBelow (length self.now.states.now) key.new }
    {
        key.loops = step_parts::looping(self.kind, self.states, key.threads.as_slice(), key.loops);
        step_parts::cut(self.kind, self.states, &mut key.threads);
    }

    /// Makes `into` the key at the first place of a search whose runs start at this state, with the loop or without, where
    /// `before` stands for the byte before the place.
    pub fn start(
        &self,
        start: StateID,
        loops: bool,
        before: Option<u8>,
        scratch: &mut Scratch,
        into: &mut StateKey,
    ) -> Result<(), Memory>
        requires start { start < length self.now.states.now }
        requires whole { IsWhole self.now }
        requires room { room_of scratch.old ≡ length self.now.states.now }
        ensures key { OnOk result (key_of into.new ≡ start_key self.now.kind self.now.states.now start loops before) }
        ensures below { OnOk result (StandsBelow (length self.now.states.now) into.new) }
        ensures room { room_of scratch.new ≡ length self.now.states.now }
    {
        make::clear(into);
        arrived(
            self.states,
            &self.matcher,
            &[start],
            &mut scratch.walk,
            &mut into.threads,
        )?;
        into.loops = loops;
        into.before = before;
        self.settle(into);
        Ok(())
    }

    /// Makes `into` the key after this byte, where `before` is what is kept of the byte.
    pub fn step(
        &self,
        key: &StateKey,
        byte: u8,
        before: Option<u8>,
        scratch: &mut Scratch,
        into: &mut StateKey,
    ) -> Result<(), Memory>
        requires below { StandsBelow (length self.now.states.now) key.now }
        requires whole { IsWhole self.now }
        requires room { room_of scratch.old ≡ length self.now.states.now }
        ensures key { OnOk result ((sight : Sight) → sight.holds ≡ (λ b a kind. holds_along self.now.matcher self.now.reverse b a kind)
            → sight.class byte ≡ before → key_of into.new ≡ step_key self.now.kind self.now.states.now self.now.start sight (key_of key.now) byte) }
        ensures below { OnOk result (StandsBelow (length self.now.states.now) into.new) }
        ensures room { room_of scratch.new ≡ length self.now.states.now }
    {
        make::clear(into);
        self.stay(key, Some(byte), scratch)?;
        step_parts::matching(
            self.kind,
            self.states,
            scratch.threads.as_slice(),
            &mut into.matches,
        )?;
        into.loops = step_parts::looping(
            self.kind,
            self.states,
            scratch.threads.as_slice(),
            key.loops,
        );
        step_parts::cut(self.kind, self.states, &mut scratch.threads);
        scratch.reached.clear();
        step_parts::targets(
            self.states,
            scratch.threads.as_slice(),
            byte,
            &mut scratch.reached,
        )?;
        begin(self.start, into.loops, &mut scratch.reached)?;
        arrived(
            self.states,
            &self.matcher,
            scratch.reached.as_slice(),
            &mut scratch.walk,
            &mut into.threads,
        )?;
        into.before = before;
        self.settle(into);
        Ok(())
    }

    /// Makes `into` the key after the end of input, where this byte stands behind the span, or the text ends.
    pub fn end(
        &self,
        key: &StateKey,
        after: Option<u8>,
        scratch: &mut Scratch,
        into: &mut StateKey,
    ) -> Result<(), Memory>
        requires below { StandsBelow (length self.now.states.now) key.now }
        requires whole { IsWhole self.now }
        requires room { room_of scratch.old ≡ length self.now.states.now }
        ensures key { OnOk result ((sight : Sight) → sight.holds ≡ (λ b a kind. holds_along self.now.matcher self.now.reverse b a kind)
            → key_of into.new ≡ end_key self.now.kind self.now.states.now sight (key_of key.now) after) }
        ensures below { OnOk result (StandsBelow (length self.now.states.now) into.new) }
        ensures room { room_of scratch.new ≡ length self.now.states.now }
    {
        make::clear(into);
        self.stay(key, after, scratch)?;
        step_parts::matching(
            self.kind,
            self.states,
            scratch.threads.as_slice(),
            &mut into.matches,
        )?;
        Ok(())
    }

    /// Makes `into` the key after a byte, where threads come to these states over it, and behind them that of the loop.
    pub fn arrive(
        &self,
        reached: &StateKey,
        scratch: &mut Scratch,
        into: &mut StateKey,
    ) -> Result<(), Memory>
        requires below { StandsBelow (length self.now.states.now) reached.now }
        requires whole { IsWhole self.now }
        requires room { room_of scratch.old ≡ length self.now.states.now }
        ensures key { OnOk result (key_of into.new ≡ arrived_key self.now.kind self.now.states.now self.now.start (key_of reached.now)) }
        ensures below { OnOk result (StandsBelow (length self.now.states.now) into.new) }
        ensures room { room_of scratch.new ≡ length self.now.states.now }
    {
        scratch.reached.clear();
        scratch
            .reached
            .extend_from_slice(reached.threads.as_slice())?;
        begin(self.start, reached.loops, &mut scratch.reached)?;
        arrived(
            self.states,
            &self.matcher,
            scratch.reached.as_slice(),
            &mut scratch.walk,
            &mut into.threads,
        )?;
        into.matches.clear();
        into.matches.extend_from_slice(reached.matches.as_slice())?;
        into.loops = reached.loops;
        into.before = reached.before;
        self.settle(into);
        Ok(())
    }

    /// Puts into `scratch.threads` the states at which the key's threads stay whatever comes next, and tells whether there are
    /// such: none of the threads comes to look-around.
    pub fn stay_whatever(&self, key: &StateKey, scratch: &mut Scratch) -> Result<bool, Memory>
        requires below { StandsBelow (length self.now.states.now) key.now }
        requires whole { IsWhole self.now }
        requires room { room_of scratch.old ≡ length self.now.states.now }
        ensures threads { IfOk result (λ same. same ≡ true → (holding : Look → Bool)
            → scratch.new.threads.items ≡ threads_of self.now.states.now holding key.now.threads.items) }
        ensures below { OnOk result (AreBelow (length self.now.states.now) scratch.new.threads.items) }
        ensures room { room_of scratch.new ≡ length self.now.states.now }
    {
        threads_whatever(
            self.states,
            &self.matcher,
            key.threads.as_slice(),
            &mut scratch.walk,
            &mut scratch.threads,
        )
    }

    /// Puts into `scratch.threads` the states at which the key's threads stay, where this is the next byte, or the text ends.
    fn stay(&self, key: &StateKey, next: Option<u8>, scratch: &mut Scratch) -> Result<(), Memory>
        requires below { StandsBelow (length self.now.states.now) key.now }
        requires whole { IsWhole self.now }
        requires room { room_of scratch.old ≡ length self.now.states.now }
        ensures threads { OnOk result (scratch.new.threads.items
            ≡ threads_of self.now.states.now (holds_along self.now.matcher self.now.reverse key.now.before next) key.now.threads.items) }
        ensures below { OnOk result (AreBelow (length self.now.states.now) scratch.new.threads.items) }
        ensures room { room_of scratch.new ≡ length self.now.states.now }
    {
        threads_from(
            self.states,
            &self.matcher,
            along(self.reverse, key.before, next),
            key.threads.as_slice(),
            &mut scratch.walk,
            &mut scratch.threads,
        )?;
        Ok(())
    }
}
