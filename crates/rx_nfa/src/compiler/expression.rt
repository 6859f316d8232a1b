//! The states of an expression. Each function appends them, for a part that goes on to the state `next`, and answers
//! where the part starts. There are no more of them than are accounted for it.
ghost use Rattle.std.specs.Prelude.{◌≡◌, ◌+◌, ◌*◌, ◌-◌, ◌<◌, ◌≤◌, length, map, if◌then◌else◌, IfOk, IfSome, OnOk, None};
ghost use Rattle.std.specs.Int.NonZero.{non_zero_usize_get};
ghost use Rattle.rx_model.specs.Graph.{text, assertion, build_state, build_group, build_choice, build_repetition, loop, loop_once, options};
ghost use Rattle.rx_model.specs.Length.{minimum_len, is_positive};
ghost use Rattle.rx_model.specs.Search.{greatest_group, greatest_in};
ghost use Rattle.rx_search.specs.Look.{kind_of};
ghost use Rattle.rx_search.specs.Limits.{id_limit};
ghost use Rattle.rx_hir.specs.Cost.{states_of_copies, accounted_states, accounted_in};
ghost use Rattle.rx_hir.specs.Normal.{expressions};
ghost use Rattle.rx_hir.specs.Sound.{IsSound};
ghost use Rattle.rx_nfa.specs.Built.{Built, slot_from, ways};
ghost use Rattle.rx_nfa.specs.Directed.{in_order, build_row, build_sides, part_for};
ghost use Rattle.rx_nfa.specs.Repeated.{star, tail, leading, states_of_tail};
ghost use Rattle.rx_nfa.specs.Room.{HasRoom};
ghost use Rattle.rx_nfa.specs.declared.state.State.TheVariants.{Union};

use crate::builder::Builder;
use crate::compiler::groups::Groups;
use crate::state::{Alternates, State};
use rx_hir::{Capture, Hir, HirKind, Repetition};
use rx_search::{Look, Memory, StateID};
use std::alloc::Global;

#[cycle(compile)]
pub fn compile(
    alloc: Global,
    builder: &mut Builder,
    groups: &Groups,
    hir: &Hir,
    next: StateID,
) -> Result<StateID, Memory>
    requires next { next < length builder.old.states }
    requires room { HasRoom builder.old groups.now (greatest_group hir.now) }
    requires fits { length builder.old.states + accounted_states hir.now ≤ id_limit }
    ensures built { IfOk result (λ start. Built (part_for groups.now hir.now) next builder.old builder.new start) }
    ensures inside { IfOk result (λ start. start < length builder.new.states) }
    ensures count { OnOk result (length builder.new.states ≤ length builder.old.states + accounted_states hir.now) }
    ensures sound { IsSound hir.now }
{
    match hir.kind() {
        HirKind::Empty => Ok(next),
        HirKind::Literal(bytes) => compile_literal(builder, groups.reverse, bytes, next),
        HirKind::Class(class) => builder.push_class(alloc, groups.reverse, class, next),
        HirKind::Look(look) => compile_look(builder, *look, next),
        HirKind::Repetition(repetition) => {
            compile_repetition(alloc, builder, groups, repetition, next)
        }
        HirKind::Capture(capture) => compile_capture(alloc, builder, groups, capture, next),
        HirKind::Concat(subs) => compile_concat(alloc, builder, groups, subs, next),
        HirKind::Alternation(subs) => compile_alternation(alloc, builder, groups, subs, next),
    }
}

/// The place of the part that is read as this one among so many: the directions are told apart here, and by a class.
fn place_of(reverse: bool, len: usize, read_as: usize) -> usize
    requires { read_as < len }
    ensures value { result ≡ (if reverse then len - 1 - read_as else read_as) }
    ensures inside { result < len }
{
    if reverse { len - 1 - read_as } else { read_as }
}

/// A state for each byte, the one that is read last first.
fn compile_literal(
    builder: &mut Builder,
    reverse: bool,
    bytes: &[u8],
    next: StateID,
) -> Result<StateID, Memory>
    requires next { next < length builder.old.states }
    requires some { 0 < length bytes.now }
    requires fits { length builder.old.states + length bytes.now ≤ id_limit }
    ensures built { IfOk result (λ start. Built (build_state (text (in_order reverse bytes.now))) next builder.old builder.new start) }
    ensures inside { IfOk result (λ start. start < length builder.new.states) }
    ensures count { OnOk result (length builder.new.states ≤ length builder.old.states + length bytes.now) }
{
    let mut start = next;
    let mut left = bytes.len();
    while left > 0 {
        left -= 1;
        let byte = bytes[place_of(reverse, bytes.len(), left)];
        start = builder.push(State::ByteRange {
            start: byte,
            end: byte,
            next: start,
        })?;
    }
    Ok(start)
}

/// A state that asks whether the look-around holds.
fn compile_look(builder: &mut Builder, look: Look, next: StateID) -> Result<StateID, Memory>
    requires next { next < length builder.old.states }
    requires fits { length builder.old.states < id_limit }
    ensures built { IfOk result (λ start. Built (build_state (assertion (kind_of look))) next builder.old builder.new start) }
    ensures inside { IfOk result (λ start. start < length builder.new.states) }
    ensures count { OnOk result (length builder.new.states ≤ length builder.old.states + 1) }
{
    builder.push(State::Look { look, next })
}

/// A slot before the group, and one after it. The group alone, where groups have no slots.
#[cycle(compile)]
fn compile_capture(
    alloc: Global,
    builder: &mut Builder,
    groups: &Groups,
    capture: &Capture,
    next: StateID,
) -> Result<StateID, Memory>
    requires next { next < length builder.old.states }
    requires group { HasRoom builder.old groups.now (non_zero_usize_get capture.now.index) }
    requires room { HasRoom builder.old groups.now (greatest_group capture.now.sub.value) }
    requires fits { length builder.old.states + (accounted_states capture.now.sub.value + 2) ≤ id_limit }
    ensures built { IfOk result (λ start. Built (build_group (slot_from groups.now.first_slot (non_zero_usize_get capture.now.index))
        (part_for groups.now capture.now.sub.value))
        next builder.old builder.new start) }
    ensures inside { IfOk result (λ start. start < length builder.new.states) }
    ensures count { OnOk result (length builder.new.states ≤ length builder.old.states + (accounted_states capture.now.sub.value + 2)) }
{
    let Some(first) = groups.first_slot else {
        return compile(alloc, builder, groups, &capture.sub, next);
    };
    let slot = first + 2 * (capture.index.get() - 1);
    let close = builder.push(State::Capture {
        next,
        pattern: groups.pattern,
        slot: slot + 1,
    })?;
    let body = compile(alloc, builder, groups, &capture.sub, close)?;
    builder.push(State::Capture {
        next: body,
        pattern: groups.pattern,
        slot,
    })
}

/// One expression after another, the one that is read last first.
#[cycle(compile)]
fn compile_concat(
    alloc: Global,
    builder: &mut Builder,
    groups: &Groups,
    subs: &[Hir],
    next: StateID,
) -> Result<StateID, Memory>
    requires next { next < length builder.old.states }
    requires room { HasRoom builder.old groups.now (greatest_in (expressions subs.now)) }
    requires fits { length builder.old.states + accounted_in (expressions subs.now) ≤ id_limit }
    ensures built { IfOk result (λ start. Built (build_row (map (part_for groups.now) (in_order groups.now.reverse subs.now))) next builder.old
        builder.new start) }
    ensures inside { IfOk result (λ start. start < length builder.new.states) }
    ensures count { OnOk result (length builder.new.states ≤ length builder.old.states + accounted_in (expressions subs.now)) }
{
    let mut start = next;
    let mut left = subs.len();
    while left > 0 {
        left -= 1;
        let place = place_of(groups.reverse, subs.len(), left);
        start = compile(alloc, builder, groups, &subs[place], start)?;
    }
    Ok(start)
}

/// The alternatives, and a choice between them, the first one preferred.
#[cycle(compile)]
fn compile_alternation(
    alloc: Global,
    builder: &mut Builder,
    groups: &Groups,
    subs: &[Hir],
    next: StateID,
) -> Result<StateID, Memory>
    requires next { next < length builder.old.states }
    requires room { HasRoom builder.old groups.now (greatest_in (expressions subs.now)) }
    requires fits { length builder.old.states + (accounted_in (expressions subs.now) + 1) ≤ id_limit }
    ensures built { IfOk result (λ start. Built (build_choice (build_sides (map (part_for groups.now) subs.now))) next builder.old builder.new start) }
    ensures inside { IfOk result (λ start. start < length builder.new.states) }
    ensures count { OnOk result (length builder.new.states ≤ length builder.old.states + (accounted_in (expressions subs.now) + 1)) }
{
    let mut starts = Vec::new(alloc);
    for sub in subs {
        let start = compile(alloc, builder, groups, sub, next)?;
        starts.push(start)?;
    }
    builder.push(State::Union {
        alternates: Alternates::new(starts),
    })
}

/// The copies that must be there, and what may follow them.
#[cycle(compile)]
fn compile_repetition(
    alloc: Global,
    builder: &mut Builder,
    groups: &Groups,
    repetition: &Repetition,
    next: StateID,
) -> Result<StateID, Memory>
    requires next { next < length builder.old.states }
    requires room { HasRoom builder.old groups.now (greatest_group repetition.now.sub.value) }
    requires ordered { IfSome repetition.now.max (λ m. repetition.now.min ≤ m) }
    requires fits { length builder.old.states + states_of_copies repetition.now.min repetition.now.max (accounted_states repetition.now.sub.value) ≤ id_limit }
    ensures built { IfOk result (λ start. Built (build_repetition (is_positive (minimum_len repetition.now.sub.value)) repetition.now.min repetition.now.max
        repetition.now.greedy (part_for groups.now repetition.now.sub.value)) next builder.old builder.new start) }
    ensures inside { IfOk result (λ start. start < length builder.new.states) }
    ensures count { OnOk result (length builder.new.states ≤ length builder.old.states + states_of_copies repetition.now.min repetition.now.max
        (accounted_states repetition.now.sub.value)) }
{
    let copies = leading(repetition);
    let mut start = compile_tail(alloc, builder, groups, repetition, next)?;
    for _copy in 0..copies {
        start = compile(alloc, builder, groups, &repetition.sub, start)?;
    }
    Ok(start)
}

/// How many copies come before what may follow them.
fn leading(repetition: &Repetition) -> u32
    ensures { result ≡ leading repetition.now.min repetition.now.max }
{
    match repetition.max {
        Some(_) => repetition.min,
        None => repetition.min.saturating_sub(1),
    }
}

/// What follows the copies that must be there.
#[cycle(compile)]
fn compile_tail(
    alloc: Global,
    builder: &mut Builder,
    groups: &Groups,
    repetition: &Repetition,
    next: StateID,
) -> Result<StateID, Memory>
    requires next { next < length builder.old.states }
    requires room { HasRoom builder.old groups.now (greatest_group repetition.now.sub.value) }
    requires fits { length builder.old.states + states_of_tail repetition.now.min repetition.now.max (accounted_states repetition.now.sub.value) ≤ id_limit }
    ensures built { IfOk result (λ start. Built (tail (is_positive (minimum_len repetition.now.sub.value)) repetition.now.min repetition.now.max
        repetition.now.greedy (part_for groups.now repetition.now.sub.value)) next builder.old builder.new start) }
    ensures inside { IfOk result (λ start. start < length builder.new.states) }
    ensures count { OnOk result (length builder.new.states ≤ length builder.old.states + states_of_tail repetition.now.min repetition.now.max
        (accounted_states repetition.now.sub.value)) }
{
    match repetition.max {
        Some(max) => compile_options(
            alloc,
            builder,
            groups,
            repetition,
            max.saturating_sub(repetition.min),
            next,
        ),
        None => compile_unbounded(alloc, builder, groups, repetition, next),
    }
}

/// One copy and more where some must be there, else any number of them.
#[cycle(compile)]
fn compile_unbounded(
    alloc: Global,
    builder: &mut Builder,
    groups: &Groups,
    repetition: &Repetition,
    next: StateID,
) -> Result<StateID, Memory>
    requires next { next < length builder.old.states }
    requires room { HasRoom builder.old groups.now (greatest_group repetition.now.sub.value) }
    requires fits { length builder.old.states + states_of_tail repetition.now.min None (accounted_states repetition.now.sub.value) ≤ id_limit }
    ensures built { IfOk result (λ start. Built (tail (is_positive (minimum_len repetition.now.sub.value)) repetition.now.min None
        repetition.now.greedy (part_for groups.now repetition.now.sub.value)) next builder.old builder.new start) }
    ensures inside { IfOk result (λ start. start < length builder.new.states) }
    ensures count { OnOk result (length builder.new.states ≤ length builder.old.states + states_of_tail repetition.now.min None
        (accounted_states repetition.now.sub.value)) }
{
    if repetition.min > 0 {
        let turn = compile_loop(alloc, builder, groups, repetition, next)?;
        return Ok(turn.body);
    }
    if takes_bytes(&repetition.sub) {
        let turn = compile_loop(alloc, builder, groups, repetition, next)?;
        return Ok(turn.choice);
    }
    let choice = builder.push(State::Fail)?;
    let inner = compile_loop(alloc, builder, groups, repetition, next)?;
    let state = two_ways(alloc, repetition.greedy, inner.body, next)?;
    builder.patch(choice, state);
    Ok(choice)
}

/// Whether each match of the expression is known to take a byte.
fn takes_bytes(hir: &Hir) -> bool
    ensures { result ≡ is_positive (minimum_len hir.now) }
{
    match hir.minimum_len() {
        Some(len) => len > 0,
        None => false,
    }
}

/// A loop: where it chooses to go round or to leave, and where its body starts.
#[derive(Clone, Copy)]
struct Turn {
    choice: StateID,
    body: StateID,
}

/// The choice and the body, which goes back to the choice.
#[cycle(compile)]
fn compile_loop(
    alloc: Global,
    builder: &mut Builder,
    groups: &Groups,
    repetition: &Repetition,
    next: StateID,
) -> Result<Turn, Memory>
    requires next { next < length builder.old.states }
    requires room { HasRoom builder.old groups.now (greatest_group repetition.now.sub.value) }
    requires fits { length builder.old.states + (accounted_states repetition.now.sub.value + 1) ≤ id_limit }
    ensures from_choice { IfOk result (λ turn. Built (loop repetition.now.greedy (part_for groups.now repetition.now.sub.value)) next builder.old builder.new
        turn.choice) }
    ensures from_body { IfOk result (λ turn. Built (loop_once repetition.now.greedy (part_for groups.now repetition.now.sub.value)) next builder.old
        builder.new turn.body) }
    ensures inside { IfOk result (λ turn. (turn.choice < length builder.new.states) × (turn.body < length builder.new.states)) }
    ensures count { OnOk result (length builder.new.states ≤ length builder.old.states + (accounted_states repetition.now.sub.value + 1)) }
{
    let choice = builder.push(State::Fail)?;
    let body = compile(alloc, builder, groups, &repetition.sub, choice)?;
    let state = two_ways(alloc, repetition.greedy, body, next)?;
    builder.patch(choice, state);
    Ok(Turn { choice, body })
}

/// This many options, one inside the other, all with the same exit. The inmost comes first.
#[cycle(compile)]
fn compile_options(
    alloc: Global,
    builder: &mut Builder,
    groups: &Groups,
    repetition: &Repetition,
    count: u32,
    next: StateID,
) -> Result<StateID, Memory>
    requires next { next < length builder.old.states }
    requires room { HasRoom builder.old groups.now (greatest_group repetition.now.sub.value) }
    requires fits { length builder.old.states + count * (accounted_states repetition.now.sub.value + 1) ≤ id_limit }
    ensures built { IfOk result (λ start. Built (options repetition.now.greedy count (part_for groups.now repetition.now.sub.value)) next builder.old
        builder.new start) }
    ensures inside { IfOk result (λ start. start < length builder.new.states) }
    ensures count { OnOk result (length builder.new.states ≤ length builder.old.states + count * (accounted_states repetition.now.sub.value + 1)) }
{
    let mut start = next;
    for _option in 0..count {
        let choice = builder.push(State::Fail)?;
        let body = compile(alloc, builder, groups, &repetition.sub, start)?;
        let option = two_ways(alloc, repetition.greedy, body, next)?;
        builder.patch(choice, option);
        start = choice;
    }
    Ok(start)
}

/// The choice between the body and the exit. The body is preferred where it is greedy.
fn two_ways(alloc: Global, greedy: bool, body: StateID, exit: StateID) -> Result<State, Memory>
    ensures { IfOk result (λ state. state ≡ Union (ways greedy body exit)) }
{
    let (first, second) = if greedy { (body, exit) } else { (exit, body) };
    let mut ids = Vec::new(alloc);
    ids.push(first)?;
    ids.push(second)?;
    Ok(State::Union {
        alternates: Alternates::new(ids),
    })
}
