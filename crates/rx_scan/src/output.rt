//! Writing: numbers, the text of rows, and a whole text into a sink.
ghost use Rattle.std.specs.Prelude.{◌≡◌, ◌++◌, ◌<◌, ◌≤◌, ℕ, List, Option, Some, decimal, length, take, true, false, IfOk, OnOk, OnErr};
ghost use Rattle.std.specs.List.{flat_map};
ghost use Rattle.std.specs.Vec.{vec_items};
ghost use Rattle.rx_scan.specs.Ends.{HasRisen, Gains, GainsPrefix};
ghost use Rattle.rx_scan.specs.Row.{span_text, group_text, groups_text, slots_text, row_text};

use crate::ends::{Failed, Sink};
use crate::row::Row;
use rx_gen::push_number;
use rx_search::{Memory, NonMaxUsize};
use std::alloc::Global;

/// Appends `START..END`, or `-` where one of them is not told.
fn push_span(
    text: &mut Vec<u8>,
    start: Option<NonMaxUsize>,
    end: Option<NonMaxUsize>,
) -> Result<(), Memory>
    ensures { OnOk result (text.new.items ≡ text.old.items ++ span_text start end) }
{
    let (Some(start), Some(end)) = (start, end) else {
        text.push(b'-')?;
        return Ok(());
    };
    push_number(text, start.get())?;
    text.extend_from_slice(b"..")?;
    push_number(text, end.get())?;
    Ok(())
}

/// Appends ` G=` and the group's span.
fn push_group(
    text: &mut Vec<u8>,
    group: usize,
    start: Option<NonMaxUsize>,
    end: Option<NonMaxUsize>,
) -> Result<(), Memory>
    ensures { OnOk result (text.new.items ≡ text.old.items ++ group_text group start end) }
{
    text.push(b' ')?;
    push_number(text, group)?;
    text.push(b'=')?;
    push_span(text, start, end)?;
    Ok(())
}

/// Appends the groups from 1 on, whose starts and ends these are.
fn push_groups(text: &mut Vec<u8>, slots: &[Option<NonMaxUsize>]) -> Result<(), Memory>
    ensures { OnOk result (text.new.items ≡ text.old.items ++ groups_text slots.now 1) }
{
    let mut group = 1;
    let mut at = 0;
    while at + 1 < slots.len() {
        push_group(text, group, slots[at], slots[at + 1])?;
        group += 1;
        at += 2;
    }
    Ok(())
}

/// Appends the text of a row of the haystack that is the line of this number, counted from 1: `LINE:PATTERN:START..END`, then
/// ` G=START..END` or ` G=-` for each group from 1 on, and a newline.
///
/// # Errors
///
/// `Memory`, where there was no memory for the text; a front of it may have been appended.
pub fn print_row(text: &mut Vec<u8>, line: usize, row: &Row) -> Result<(), Memory>
    ensures { OnOk result (text.new.items ≡ text.old.items ++ row_text line row.now) }
{
    // What is printed is what `scan` answers, as data (DECISIONS: the text of a row is defined from the row as data).
    push_number(text, line)?;
    text.push(b':')?;
    push_number(text, row.pattern.as_usize())?;
    text.push(b':')?;
    push_slots(text, row.slots.as_slice())?;
    text.push(b'\n')?;
    Ok(())
}

/// Appends the span of the whole match, and each group from 1 on.
fn push_slots(text: &mut Vec<u8>, slots: &[Option<NonMaxUsize>]) -> Result<(), Memory>
    ensures { OnOk result (text.new.items ≡ text.old.items ++ slots_text slots.now) }
{
    match slots {
        [start, end, groups @ ..] => {
            push_span(text, *start, *end)?;
            push_groups(text, groups)
        }
        _ => {
            text.push(b'-')?;
            Ok(())
        }
    }
}

/// Writes all of the text, or a front of it that ends where the sink failed.
///
/// # Errors
///
/// `Failed`, where the sink failed; it holds a front of the text.
pub fn write_text<K: Sink>(sink: &mut K, text: &[u8]) -> Result<(), Failed>
    ensures ok { OnOk result (Gains (K.held sink.old) (K.held sink.new) text.now) }
    ensures err { OnErr result (GainsPrefix (K.held sink.old) (K.held sink.new) text.now) }
    ensures counts { K.faults sink.old ≤ K.faults sink.new }
    ensures failed { OnErr result (HasRisen (K.faults sink.old) (K.faults sink.new)) }
{
    let mut done = 0;
    while done < text.len() {
        done += sink.write(&text[done..])?;
    }
    Ok(())
}

/// How many bytes are gathered before they are written, at most.
const GATHERED: usize = 65536;

/// How long a piece is, at most, that is gathered. A longer one costs less as a write of its own.
const SMALL: usize = 16384;

/// Writes all of a text that is in pieces, or a front of it that ends where the sink failed. Small pieces are gathered, so that
/// they are no writes of their own.
///
/// # Errors
///
/// `Failed`, where the sink failed; it holds a front of the text.
pub fn write_pieces<K: Sink>(alloc: Global, sink: &mut K, pieces: &[Vec<u8>]) -> Result<(), Failed>
    ensures ok { OnOk result (Gains (K.held sink.old) (K.held sink.new) (flat_map vec_items pieces.now)) }
    ensures err { OnErr result (GainsPrefix (K.held sink.old) (K.held sink.new) (flat_map vec_items pieces.now)) }
    ensures failed { OnErr result (HasRisen (K.faults sink.old) (K.faults sink.new)) }
{
    let mut gathered = Vec::new(alloc);
    for piece in pieces {
        write_piece(sink, &mut gathered, piece)?;
    }
    write_text(sink, &gathered)
}

/// Gathers a piece. Where it is too long beside what was gathered, that is written first.
fn write_piece<K: Sink>(sink: &mut K, gathered: &mut Vec<u8>, piece: &[u8]) -> Result<(), Failed>
    ensures ok { OnOk result ((written : List ℕ) × Gains (K.held sink.old) (K.held sink.new) written
        × (written ++ gathered.new.items ≡ gathered.old.items ++ piece.now)) }
    ensures err { OnErr result (GainsPrefix (K.held sink.old) (K.held sink.new) (gathered.old.items ++ piece.now)) }
    ensures counts { K.faults sink.old ≤ K.faults sink.new }
    ensures failed { OnErr result (HasRisen (K.faults sink.old) (K.faults sink.new)) }
{
    if gather(gathered, piece) {
        return Ok(());
    }
    write_text(sink, gathered)?;
    gathered.clear();
    if gather(gathered, piece) {
        return Ok(());
    }
    write_text(sink, piece)
}

/// Appends a piece to those that were gathered, unless it is long or they are too long then. False also where there is no
/// memory for it.
fn gather(gathered: &mut Vec<u8>, piece: &[u8]) -> bool
    ensures some { result ≡ true → gathered.new.items ≡ gathered.old.items ++ piece.now }
    ensures none { result ≡ false → gathered.new.items ≡ gathered.old.items }
{
    piece.len() <= SMALL
        && gathered.len().saturating_add(piece.len()) <= GATHERED
        && gathered.extend_from_slice(piece).is_ok()
}
