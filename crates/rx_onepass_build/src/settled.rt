//! The order of the rows in the end: those that tell a match come last.
ghost use Rattle.std.specs.Prelude.{◌≡◌, ℕ, suc, ◌+◌, ◌*◌, ◌^◌, ◌<◌, ◌≤◌, ◌==◌, IfOk, OnOk, length, is_some, if◌then◌else◌, slice_index};
ghost use Rattle.rx_onepass_table.specs.Words.{step_of, final_of};
ghost use Rattle.rx_onepass_build.specs.Settled.{AreInverse, IsOrder, IsSorting, AreCellsOf, LeadInside, final_before, step_before, settled_step};

use crate::rows::Rows;
use rx_onepass_table::{PatternEpsilons, Transition};
use rx_search::Memory;
use std::alloc::Global;

/// The order of the rows in the end.
#[derive(Drop)]
pub struct Order {
    /// The number that each row had, by the one that it has in the end.
    pub before: Vec<usize>,
    /// The number that each row has in the end, by the one that it had.
    pub after: Vec<usize>,
    /// The first row that tells a match.
    pub least_match: usize,
}

impl Order {
    /// The order of rows that tell this of matches: that of the dead state comes first, and those that tell a match last.
    pub fn new(alloc: Global, finals: &[PatternEpsilons]) -> Result<Order, Memory>
        requires { length finals.now < 2 ^ 21 }
        ensures { IfOk result (λ o. IsOrder finals.now o.before.items o.after.items o.least_match) }
    {
        let rows = finals.len() + 1;
        let mut before = numbers(alloc, rows)?;
        let mut after = numbers(alloc, rows)?;
        let least_match = sort(finals, &mut before, &mut after);
        Ok(Order {
            before,
            after,
            least_match,
        })
    }
}

/// The numbers from 0 on, so many.
fn numbers(alloc: Global, count: usize) -> Result<Vec<usize>, Memory>
    requires { count < 2 ^ 63 }
    ensures len { IfOk result (λ v. length v.items ≡ count) }
    ensures value { IfOk result (λ v. (k : ℕ) → k < count → slice_index v.items k ≡ k) }
{
    let mut numbers = Vec::new(alloc);
    for number in 0..count {
        numbers.push(number)?;
    }
    Ok(numbers)
}

/// Puts the rows that tell a match behind the others, and answers the first of them.
fn sort(finals: &[PatternEpsilons], before: &mut Vec<usize>, after: &mut Vec<usize>) -> usize
    requires few { length finals.now < 2 ^ 21 }
    requires before_len { length before.old.items ≡ suc (length finals.now) }
    requires before { (k : ℕ) → k < suc (length finals.now) → slice_index before.old.items k ≡ k }
    requires after_len { length after.old.items ≡ suc (length finals.now) }
    requires after { (k : ℕ) → k < suc (length finals.now) → slice_index after.old.items k ≡ k }
    ensures { IsOrder finals.now before.new.items after.new.items result }
{
    let mut low = 1;
    let mut high = finals.len() + 1;
    while low < high {
        if matches(finals, before[low]) {
            high -= 1;
            swap(before, after, low, high);
        } else {
            low += 1;
        }
    }
    low
}

/// Whether the row of this number tells a match.
fn matches(finals: &[PatternEpsilons], row: usize) -> bool
    requires { row < suc (length finals.now) }
    ensures { result ≡ is_some (final_before finals.now row).pattern }
{
    final_of(finals, row).pattern().is_some()
}

/// What the row of this number tells of a match.
fn final_of(finals: &[PatternEpsilons], row: usize) -> PatternEpsilons
    requires { row < suc (length finals.now) }
    ensures { result ≡ final_before finals.now row }
{
    if row == 0 {
        return PatternEpsilons::empty();
    }
    finals[row - 1]
}

/// Lets two rows change places.
fn swap(before: &mut Vec<usize>, after: &mut Vec<usize>, one: usize, other: usize)
    requires inverse { AreInverse (length before.old.items) before.old.items after.old.items }
    requires one { one < length before.old.items }
    requires other { other < length before.old.items }
    ensures inverse { AreInverse (length before.old.items) before.new.items after.new.items }
    ensures value { (k : ℕ) → slice_index before.new.items k ≡ (if k == one then slice_index before.old.items other else if k == other then
        slice_index before.old.items one else slice_index before.old.items k) }
{
    let first = before[one];
    let second = before[other];
    before[one] = second;
    before[other] = first;
    after[second] = one;
    after[first] = other;
}

/// The cells of all rows in their order, so many in a row: a transition for each of the classes, and then what is told of a match.
pub fn settle(
    alloc: Global,
    rows: &Rows,
    order: &Order,
    classes: usize,
    stride: usize,
) -> Result<Vec<u64>, Memory>
    requires few { length rows.now.finals.items < 2 ^ 21 }
    requires wide { classes < stride }
    requires narrow { stride ≤ 512 }
    requires len { length rows.now.steps.items ≡ length rows.now.finals.items * classes }
    requires inside { LeadInside rows.now.steps.items classes (length rows.now.finals.items) }
    requires order { AreInverse (suc (length rows.now.finals.items)) order.now.before.items order.now.after.items }
    requires small { (r : ℕ) → slice_index order.now.after.items r < 2 ^ 21 }
    ensures len { IfOk result (λ cells. length cells.items ≡ suc (length rows.now.finals.items) * stride) }
    ensures cells { IfOk result (λ cells. (k : ℕ) → k < suc (length rows.now.finals.items)
        → AreCellsOf rows.now.steps.items rows.now.finals.items order.now.after.items classes (slice_index order.now.before.items k) cells.items (k * stride)) }
{
    let mut cells = Vec::new(alloc);
    for row in 0..order.before.len() {
        let before = order.before[row];
        push_row(
            rows,
            order.after.as_slice(),
            classes,
            stride,
            before,
            &mut cells,
        )?;
    }
    Ok(cells)
}

/// Appends the cells of a row.
fn push_row(
    rows: &Rows,
    after: &[usize],
    classes: usize,
    stride: usize,
    before: usize,
    cells: &mut Vec<u64>,
) -> Result<(), Memory>
    requires few { length rows.now.finals.items < 2 ^ 21 }
    requires wide { classes < stride }
    requires narrow { stride ≤ 512 }
    requires before { before < suc (length rows.now.finals.items) }
    requires len { length rows.now.steps.items ≡ length rows.now.finals.items * classes }
    requires inside { LeadInside rows.now.steps.items classes (length rows.now.finals.items) }
    requires after { length after.now ≡ suc (length rows.now.finals.items) }
    requires small { (r : ℕ) → slice_index after.now r < 2 ^ 21 }
    ensures len { OnOk result (length cells.new.items ≡ length cells.old.items + stride) }
    ensures kept { OnOk result ((i : ℕ) → i < length cells.old.items → slice_index cells.new.items i ≡ slice_index cells.old.items i) }
    ensures cells { OnOk result (AreCellsOf rows.now.steps.items rows.now.finals.items after.now classes before cells.new.items (length cells.old.items)) }
{
    let from = cells.len();
    cells.resize(from + stride, 0)?;
    for class in 0..classes {
        cells[from + class] = cell_of(rows, after, classes, before, class);
    }
    cells[from + classes] = final_of(rows.finals.as_slice(), before).word();
    Ok(())
}

/// The word of the step of a row on a class of bytes, with its target by the number that this has in the end.
fn cell_of(rows: &Rows, after: &[usize], classes: usize, before: usize, class: usize) -> u64
    requires few { length rows.now.finals.items < 2 ^ 21 }
    requires before { before < suc (length rows.now.finals.items) }
    requires class { class < classes }
    requires len { length rows.now.steps.items ≡ length rows.now.finals.items * classes }
    requires inside { LeadInside rows.now.steps.items classes (length rows.now.finals.items) }
    requires after { length after.now ≡ suc (length rows.now.finals.items) }
    requires small { (r : ℕ) → slice_index after.now r < 2 ^ 21 }
    ensures { step_of result ≡ settled_step after.now (step_before rows.now.steps.items classes before class) }
{
    let step = step_of(rows, classes, before, class);
    let target = after[step.target()];
    Transition::new(step.match_wins(), target, step.epsilons()).word()
}

/// Where a class of bytes leads from the row of this number.
fn step_of(rows: &Rows, classes: usize, before: usize, class: usize) -> Transition
    requires before { before < suc (length rows.now.finals.items) }
    requires class { class < classes }
    requires len { length rows.now.steps.items ≡ length rows.now.finals.items * classes }
    requires inside { LeadInside rows.now.steps.items classes (length rows.now.finals.items) }
    ensures value { result ≡ step_before rows.now.steps.items classes before class }
    ensures inside { result.target < suc (length rows.now.finals.items) }
{
    if before == 0 {
        return Transition::of_word(0);
    }
    rows.steps[(before - 1) * classes + class]
}
