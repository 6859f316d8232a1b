//! The states of a class of scalar values that is read backwards: each encoding from its last byte to its first.
//!
//! A number is told by digits of 64, and what ends in the same range of last digits shares the state that reads these,
//! whichever ranges of the class it is of; so on with what stands before the last digit. Where more than one way leads on,
//! a union chooses: two of them may begin with the same byte.
ghost use Rattle.std.specs.Prelude.{◌≡◌, ◌+◌, ◌-◌, ◌*◌, ◌<◌, ◌≤◌, ◌/◌, ◌%◌, [], ◌∷◌, ◌++◌, if◌then◌else◌, All, IfOk, OnOk, length, map, sum_by};
ghost use Rattle.std.specs.List.{list_any};
ghost use Rattle.rx_class.specs.Ranges.{AreScalarRanges};
ghost use Rattle.rx_search.specs.Limits.{id_limit};
ghost use Rattle.rx_nfa.specs.Built.{Built, AddsParts, JoinsAll};
ghost use Rattle.rx_nfa.specs.Directed.{build_all, build_joined, build_last, build_behind, build_digits, scalar_digits, whole_from, whole_to, low_piece, middle_piece, high_piece, some_list, pieces_in, is_range, lasts_of, before_last};
ghost use Rattle.rx_nfa.specs.Draft.{pushed};
ghost use Rattle.rx_nfa.specs.Ranges.{size_of_block, clip, cost_of_parts, cost_of_class};
ghost use Rattle.rx_nfa.specs.Digits.{FitsDigits, IsDigits, IsPiece, joints, ways_of_digits, states_of_digits, states_of_group, states_behind};
ghost use Rattle.rx_nfa.specs.declared.state.State.TheVariants.{ByteRange};

use crate::builder::Builder;
use crate::class::ranges::{Range, clip};
use crate::state::{Alternates, State};
use rx_search::{Memory, StateID};
use std::alloc::Global;

/// Numbers whose last digits go from `low` to `high`, and what stands before these from `first` to `last`.
#[derive(Clone, Copy)]
pub struct Piece {
    pub first: u32,
    pub last: u32,
    pub low: u32,
    pub high: u32,
}

/// Scalar values whose encodings have one length.
#[derive(Clone, Copy)]
struct Band {
    low: u32,
    high: u32,
    /// How many bytes come after the first one.
    depth: u32,
    /// How much more than the first digit the first byte is.
    lead: u8,
}

const ONE_BYTE: Band = Band {
    low: 0,
    high: 0x7F,
    depth: 0,
    lead: 0,
};

const TWO_BYTES: Band = Band {
    low: 0x80,
    high: 0x7FF,
    depth: 1,
    lead: 0xC0,
};

/// Those below the surrogates.
const THREE_BYTES: Band = Band {
    low: 0x800,
    high: 0xD7FF,
    depth: 2,
    lead: 0xE0,
};

/// Those above the surrogates.
const THREE_BYTES_HIGH: Band = Band {
    low: 0xE000,
    high: 0xFFFF,
    depth: 2,
    lead: 0xE0,
};

const FOUR_BYTES: Band = Band {
    low: 0x1_0000,
    high: 0x10_FFFF,
    depth: 3,
    lead: 0xF0,
};

/// Appends the states of a class of scalar values that is read backwards, and goes on to the state `next`. Answers where
/// they start.
pub fn compile_class_backwards(
    alloc: Global,
    builder: &mut Builder,
    ranges: &[(char, char)],
    next: StateID,
) -> Result<StateID, Memory>
    requires next { next < length builder.old.states }
    requires fewest { AreScalarRanges ranges.now }
    requires fits { length builder.old.states + cost_of_class ranges.now ≤ id_limit }
    ensures built { IfOk result (λ start. Built (build_joined (build_all (scalar_digits ranges.now))) next builder.old builder.new start) }
    ensures inside { IfOk result (λ start. start < length builder.new.states) }
    ensures count { OnOk result (length builder.new.states ≤ length builder.old.states + cost_of_class ranges.now) }
{
    let mut starts = Vec::new(alloc);
    push_band(alloc, builder, ranges, ONE_BYTE, next, &mut starts)?;
    push_band(alloc, builder, ranges, TWO_BYTES, next, &mut starts)?;
    push_band(alloc, builder, ranges, THREE_BYTES, next, &mut starts)?;
    push_band(alloc, builder, ranges, THREE_BYTES_HIGH, next, &mut starts)?;
    push_band(alloc, builder, ranges, FOUR_BYTES, next, &mut starts)?;
    join(builder, starts)
}

/// Appends the states of the members within the band, and their starts to `starts`.
fn push_band(
    alloc: Global,
    builder: &mut Builder,
    ranges: &[(char, char)],
    band: Band,
    next: StateID,
    starts: &mut Vec<StateID>,
) -> Result<(), Memory>
    requires next { next < length builder.old.states }
    requires starts { All (λ q. q < length builder.old.states) starts.old.items }
    requires fewest { AreScalarRanges ranges.now }
    requires ordered { band.low ≤ band.high }
    requires deep { band.depth ≤ 3 }
    requires small { band.lead + band.high / size_of_block band.depth ≤ 255 }
    requires fits { length builder.old.states + cost_of_parts (band.depth + 1) (clip band.low band.high ranges.now) ≤ id_limit }
    ensures adds { OnOk result (AddsParts (build_digits band.lead band.depth (clip band.low band.high ranges.now)) next builder.old builder.new starts.old.items
        starts.new.items) }
    ensures inside { OnOk result (All (λ q. q < length builder.new.states) starts.new.items) }
    ensures longer { OnOk result (length builder.old.states ≤ length builder.new.states) }
    ensures count { OnOk result (length builder.new.states ≤ length builder.old.states + cost_of_parts (band.depth + 1) (clip band.low band.high ranges.now)) }
{
    let parts = clip(alloc, ranges, band.low, band.high)?;
    push_digits(alloc, builder, starts, band.lead, band.depth, &parts, next)
}

/// Appends the states of the numbers of the ranges, which have so many digits behind the first one, and their starts.
#[cycle(digits)]
fn push_digits(
    alloc: Global,
    builder: &mut Builder,
    starts: &mut Vec<StateID>,
    lead: u8,
    depth: u32,
    ranges: &[Range],
    next: StateID,
) -> Result<(), Memory>
    requires next { next < length builder.old.states }
    requires starts { All (λ q. q < length builder.old.states) starts.old.items }
    requires digits { All (FitsDigits lead depth) ranges.now }
    requires fits { length builder.old.states + states_of_digits depth ranges.now ≤ id_limit }
    ensures adds { OnOk result (AddsParts (build_digits lead depth ranges.now) next builder.old builder.new starts.old.items starts.new.items) }
    ensures inside { OnOk result (All (λ q. q < length builder.new.states) starts.new.items) }
    ensures count { OnOk result (length builder.new.states ≡ length builder.old.states + states_of_digits depth ranges.now) }
    ensures ways { OnOk result (length starts.new.items ≡ length starts.old.items + ways_of_digits depth ranges.now) }
{
    if depth == 0 {
        return push_first_digits(builder, starts, lead, ranges, next);
    }
    let pieces = pieces_in(alloc, ranges)?;
    push_groups(alloc, builder, starts, lead, depth, &pieces, next)
}

/// The same of numbers of one digit: a state for each range.
fn push_first_digits(
    builder: &mut Builder,
    starts: &mut Vec<StateID>,
    lead: u8,
    ranges: &[Range],
    next: StateID,
) -> Result<(), Memory>
    requires next { next < length builder.old.states }
    requires starts { All (λ q. q < length builder.old.states) starts.old.items }
    requires digits { All (FitsDigits lead 0) ranges.now }
    requires fits { length builder.old.states + length ranges.now ≤ id_limit }
    ensures adds { OnOk result (AddsParts (build_digits lead 0 ranges.now) next builder.old builder.new starts.old.items starts.new.items) }
    ensures inside { OnOk result (All (λ q. q < length builder.new.states) starts.new.items) }
    ensures count { OnOk result (length builder.new.states ≡ length builder.old.states + length ranges.now) }
    ensures ways { OnOk result (length starts.new.items ≡ length starts.old.items + length ranges.now) }
{
    for range in ranges {
        let start = push_bytes(builder, lead, *range, next)?;
        starts.push(start)?;
    }
    Ok(())
}

/// The same of numbers of more digits: those with last digits of the same range share the state that reads these.
#[cycle(digits)]
fn push_groups(
    alloc: Global,
    builder: &mut Builder,
    starts: &mut Vec<StateID>,
    lead: u8,
    depth: u32,
    pieces: &[Piece],
    next: StateID,
) -> Result<(), Memory>
    requires next { next < length builder.old.states }
    requires starts { All (λ q. q < length builder.old.states) starts.old.items }
    requires some { 0 < depth }
    requires digits { All (IsPiece lead depth) pieces.now }
    requires fits { length builder.old.states + sum_by (states_behind (depth - 1) pieces.now) (lasts_of pieces.now) ≤ id_limit }
    ensures adds { OnOk result (AddsParts (build_all (map (build_behind lead (depth - 1) pieces.now) (lasts_of pieces.now))) next builder.old builder.new
        starts.old.items starts.new.items) }
    ensures inside { OnOk result (All (λ q. q < length builder.new.states) starts.new.items) }
    ensures count { OnOk result (length builder.new.states ≡ length builder.old.states + sum_by (states_behind (depth - 1) pieces.now) (lasts_of pieces.now)) }
    ensures ways { OnOk result (length starts.new.items ≡ length starts.old.items + length (lasts_of pieces.now)) }
{
    let lasts = lasts_of(alloc, pieces)?;
    for last in &lasts {
        let before = before_last(alloc, *last, pieces)?;
        let start = push_last(alloc, builder, lead, depth, *last, &before, next)?;
        starts.push(start)?;
    }
    Ok(())
}

/// Appends the state that reads these last digits, and before it, as they are read behind it, the states of what stands
/// before them.
#[cycle(digits)]
fn push_last(
    alloc: Global,
    builder: &mut Builder,
    lead: u8,
    depth: u32,
    last: Range,
    before: &[Range],
    next: StateID,
) -> Result<StateID, Memory>
    requires next { next < length builder.old.states }
    requires some { 0 < depth }
    requires digits { All (FitsDigits lead (depth - 1)) before.now }
    requires last { IsDigits last }
    requires fits { length builder.old.states + states_of_group (depth - 1) before.now ≤ id_limit }
    ensures built { IfOk result (λ start. Built (build_last last (build_digits lead (depth - 1) before.now)) next builder.old builder.new start) }
    ensures inside { IfOk result (λ start. start < length builder.new.states) }
    ensures count { OnOk result (length builder.new.states ≡ length builder.old.states + states_of_group (depth - 1) before.now) }
{
    let mut ways = Vec::new(alloc);
    push_digits(alloc, builder, &mut ways, lead, depth - 1, before, next)?;
    let rest = join(builder, ways)?;
    push_bytes(builder, 0x80, last, rest)
}

/// The only one of these states, or else a choice between them.
fn join(builder: &mut Builder, starts: Vec<StateID>) -> Result<StateID, Memory>
    requires inside { All (λ q. q < length builder.old.states) starts.items }
    requires fits { length builder.old.states + joints (length starts.items) ≤ id_limit }
    ensures joined { IfOk result (JoinsAll builder.old builder.new starts.items) }
    ensures inside { IfOk result (λ start. start < length builder.new.states) }
    ensures count { OnOk result (length builder.new.states ≡ length builder.old.states + joints (length starts.items)) }
{
    if starts.len() == 1 {
        return Ok(starts[0]);
    }
    builder.push(State::Union {
        alternates: Alternates::new(starts),
    })
}

/// A state that reads the byte of a digit of the range, which is `lead` more than the digit.
fn push_bytes(
    builder: &mut Builder,
    lead: u8,
    digits: Range,
    next: StateID,
) -> Result<StateID, Memory>
    requires next { next < length builder.old.states }
    requires bytes { (digits.0 ≤ digits.1) × (lead + digits.1 ≤ 255) }
    requires fits { length builder.old.states < id_limit }
    ensures id { IfOk result (λ id. id ≡ length builder.old.states) }
    ensures states { IfOk result (λ id. builder.new ≡ pushed builder.old (ByteRange (lead + digits.0) (lead + digits.1) next)) }
{
    builder.push(State::ByteRange {
        start: lead + digits.0 as u8,
        end: lead + digits.1 as u8,
        next,
    })
}

/// The numbers of the ranges, by their last digits and by what stands before these.
fn pieces_in(alloc: Global, ranges: &[Range]) -> Result<Vec<Piece>, Memory>
    requires ordered { All (λ r. r.0 ≤ r.1) ranges.now }
    ensures { IfOk result (λ pieces. pieces.items ≡ pieces_in ranges.now) }
{
    let mut pieces = Vec::new(alloc);
    for range in ranges {
        push_piece(&mut pieces, low_piece(range.0, range.1))?;
        push_piece(&mut pieces, middle_piece(range.0, range.1))?;
        push_piece(&mut pieces, high_piece(range.0, range.1))?;
    }
    Ok(pieces)
}

fn push_piece(pieces: &mut Vec<Piece>, piece: Option<Piece>) -> Result<(), Memory>
    ensures { OnOk result (pieces.new.items ≡ pieces.old.items ++ some_list piece) }
{
    if let Some(piece) = piece {
        pieces.push(piece)?;
    }
    Ok(())
}

/// The ranges of last digits, each of them once.
fn lasts_of(alloc: Global, pieces: &[Piece]) -> Result<Vec<Range>, Memory>
    ensures { IfOk result (λ lasts. lasts.items ≡ lasts_of pieces.now) }
{
    let mut found = Vec::new(alloc);
    for piece in pieces {
        let last = (piece.low, piece.high);
        let is_new = !has_range(&found, last);
        push_if(&mut found, last, is_new)?;
    }
    Ok(found)
}

/// Whether the range is one of these.
fn has_range(ranges: &[Range], range: Range) -> bool
    ensures { result ≡ list_any (is_range range) ranges.now }
{
    for other in ranges {
        if is_range(range, *other) {
            return true;
        }
    }
    false
}

fn is_range(range: Range, other: Range) -> bool
    ensures { result ≡ is_range range other }
{
    range.0 == other.0 && range.1 == other.1
}

/// Appends the range, if it is to be.
fn push_if(ranges: &mut Vec<Range>, range: Range, yes: bool) -> Result<(), Memory>
    ensures { OnOk result (ranges.new.items ≡ (if yes then ranges.old.items ++ range ∷ [] else ranges.old.items)) }
{
    if yes {
        ranges.push(range)?;
    }
    Ok(())
}

/// What stands before these last digits.
fn before_last(alloc: Global, last: Range, pieces: &[Piece]) -> Result<Vec<Range>, Memory>
    ensures { IfOk result (λ before. before.items ≡ before_last last pieces.now) }
{
    let mut before = Vec::new(alloc);
    for piece in pieces {
        let is_behind = is_range(last, (piece.low, piece.high));
        push_if(&mut before, (piece.first, piece.last), is_behind)?;
    }
    Ok(before)
}

/// The numbers that differ from `low` in their last digit alone: all numbers, where `high` does. None where each such
/// number is there.
#[tactic(auto, unfolding(crate::specs::Directed::low_piece))]
fn low_piece(low: u32, high: u32) -> Option<Piece>
    ensures { result ≡ low_piece 64 low high }
{
    let digit = low / 64;
    if digit == high / 64 {
        return Some(Piece {
            first: digit,
            last: digit,
            low: low % 64,
            high: high % 64,
        });
    }
    if low % 64 == 0 {
        return None;
    }
    Some(Piece {
        first: digit,
        last: digit,
        low: low % 64,
        high: 63,
    })
}

/// The numbers whose last digit may be any.
#[tactic(auto, unfolding(crate::specs::Directed::middle_piece))]
fn middle_piece(low: u32, high: u32) -> Option<Piece>
    ensures { result ≡ middle_piece 64 low high }
{
    if low / 64 == high / 64 {
        return None;
    }
    let from = whole_from(low);
    let to = whole_to(high);
    if to <= from {
        return None;
    }
    Some(Piece {
        first: from,
        last: to - 1,
        low: 0,
        high: 63,
    })
}

/// What stands first before all last digits, from `low` on.
fn whole_from(low: u32) -> u32
    ensures { result ≡ whole_from 64 low }
{
    if low % 64 == 0 {
        low / 64
    } else {
        low / 64 + 1
    }
}

/// What follows on what stands last before all last digits, up to `high`.
fn whole_to(high: u32) -> u32
    ensures { result ≡ whole_to 64 high }
{
    if high % 64 + 1 == 64 {
        high / 64 + 1
    } else {
        high / 64
    }
}

/// The numbers that differ from `high` in their last digit alone, where `low` is none and not each of them is there.
#[tactic(auto, unfolding(crate::specs::Directed::high_piece))]
fn high_piece(low: u32, high: u32) -> Option<Piece>
    ensures { result ≡ high_piece 64 low high }
{
    let digit = high / 64;
    if low / 64 == digit {
        return None;
    }
    if high % 64 + 1 == 64 {
        return None;
    }
    Some(Piece {
        first: digit,
        last: digit,
        low: 0,
        high: high % 64,
    })
}
