//! Ranges of scalar values, as numbers.
ghost use Rattle.std.specs.Prelude.{◌≡◌, ◌<◌, ◌≤◌, ◌+◌, length, IfOk};
ghost use Rattle.rx_nfa.specs.Ranges.{RisesFrom, IsRest, EndsFrom, size_of_block, has_block, whole_depth, clip};

use rx_search::Memory;
use std::alloc::Global;

/// The first and the last.
pub type Range = (u32, u32);

/// The ranges from the first on that ends at `start` or later.
pub fn skip_below(ranges: &[Range], start: u32) -> &[Range]
    requires { RisesFrom 0 ranges.now }
    ensures rest { IsRest start ranges.entry.now result.now }
    ensures first { EndsFrom start result.now }
{
    let mut skipped = 0;
    while skipped < ranges.len() && ranges[skipped].1 < start {
        skipped += 1;
    }
    &ranges[skipped..]
}

/// How many numbers this many continuation bytes tell apart.
pub fn block_size(depth: u32) -> u32
    requires { depth ≤ 3 }
    ensures { result ≡ size_of_block depth }
{
    match depth {
        0 => 1,
        1 => 64,
        2 => 64 * 64,
        _ => 64 * 64 * 64,
    }
}

/// Whether the range has a whole block of this depth.
fn has_block(range: Range, depth: u32) -> bool
    requires deep { depth ≤ 3 }
    requires small { (range.0 ≤ range.1) × (range.1 ≤ 0x10_FFFF) }
    ensures { result ≡ has_block range depth }
{
    let size = block_size(depth);
    (range.0 + (size - 1)) / size * size + size <= range.1 + 1
}

/// The greatest depth, up to `deepest`, of a block that the range has.
pub fn whole_depth(range: Range, deepest: u32) -> u32
    requires deep { deepest ≤ 3 }
    requires small { (range.0 ≤ range.1) × (range.1 ≤ 0x10_FFFF) }
    ensures { result ≡ whole_depth deepest range }
{
    let mut depth = deepest;
    while depth > 0 && !has_block(range, depth) {
        depth -= 1;
    }
    depth
}

/// The parts of the ranges within `low..=high`.
pub fn clip(
    alloc: Global,
    ranges: &[(char, char)],
    low: u32,
    high: u32,
) -> Result<Vec<Range>, Memory>
    ensures { IfOk result (λ parts. parts.items ≡ clip low high ranges.now) }
{
    let mut parts = Vec::new(alloc);
    for &(start, end) in ranges {
        let first = start as u32;
        let last = end as u32;
        if !(last < low || high < first) {
            parts.push((low.max(first), high.min(last)))?;
        }
    }
    Ok(parts)
}
