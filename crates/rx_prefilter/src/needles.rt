//! Searches that look at each needle.
ghost use Rattle.std.specs.Prelude.{◌≡◌, ◌≤◌, true, length, map, IfOk};
ghost use Rattle.std.specs.Vec.{vec_items};
ghost use Rattle.memchr.specs.Find.{occurs_at};
ghost use Rattle.rx_prefilter.specs.Needles.{span_at};
ghost use Rattle.std.specs.List.{list_all, list_any};
ghost use Rattle.rx_prefilter.specs.Choices.{total_length, greatest_length, saturated, is_empty, is_single, has_bytes};
ghost use Rattle.rx_prefilter.specs.Bytes.{single};

use rx_search::{Memory, Span};
use std::alloc::Global;

/// Whether the needle begins at `at`.
#[inline(always)]
pub(crate) fn occurs_at(text: &[u8], needle: &[u8], at: usize) -> bool
    requires { at ≤ length text.now }
    ensures { result ≡ occurs_at text.now needle.now at }
{
    needle.len() <= text.len() - at && &text[at..at + needle.len()] == needle
}

/// Where the first needle of the list lies that begins at `at`.
pub(crate) fn span_at(needles: &[Vec<u8>], text: &[u8], at: usize) -> Option<Span>
    requires { at ≤ length text.now }
    ensures { result ≡ span_at (map vec_items needles.now) text.now at }
{
    for needle in needles {
        if occurs_at(text, needle, at) {
            return Some(Span {
                start: at,
                end: at + needle.len(),
            });
        }
    }
    None
}

/// Needles of the caller's own.
pub(crate) fn copied(alloc: Global, needles: &[Vec<u8>]) -> Result<Vec<Vec<u8>>, Memory>
    ensures { IfOk result (λ copies. map vec_items copies.items ≡ map vec_items needles.now) }
{
    let mut copies = Vec::new(alloc);
    for needle in needles {
        copies.push(Vec::from_slice(alloc, needle)?)?;
    }
    Ok(copies)
}

/// The length of all needles together, or the greatest number where it is above that.
pub(crate) fn total_length(needles: &[Vec<u8>]) -> usize
    ensures { result ≡ saturated (total_length (map vec_items needles.now)) }
{
    let mut total: usize = 0;
    for needle in needles {
        total = total.saturating_add(needle.len());
    }
    total
}

/// The length of the longest needle.
pub(crate) fn greatest_length(needles: &[Vec<u8>]) -> usize
    ensures { result ≡ greatest_length (map vec_items needles.now) }
{
    let mut greatest = 0;
    for needle in needles {
        greatest = needle.len().max(greatest);
    }
    greatest
}

/// Whether one of the needles is empty.
pub(crate) fn has_empty(needles: &[Vec<u8>]) -> bool
    ensures { result ≡ list_any is_empty (map vec_items needles.now) }
{
    for needle in needles {
        if needle.is_empty() {
            return true;
        }
    }
    false
}

/// Whether each needle has one byte.
pub(crate) fn are_single(needles: &[Vec<u8>]) -> bool
    ensures { result ≡ list_all is_single (map vec_items needles.now) }
{
    for needle in needles {
        if needle.len() != 1 {
            return false;
        }
    }
    true
}

/// Whether each needle has at least this many bytes.
pub(crate) fn have_bytes(needles: &[Vec<u8>], least: usize) -> bool
    ensures { result ≡ list_all (has_bytes least) (map vec_items needles.now) }
{
    for needle in needles {
        if needle.len() < least {
            return false;
        }
    }
    true
}

/// The bytes of needles that have one each.
pub(crate) fn first_bytes(alloc: Global, needles: &[Vec<u8>]) -> Result<Vec<u8>, Memory>
    requires { list_all is_single (map vec_items needles.now) ≡ true }
    ensures { IfOk result (λ bytes. map single bytes.items ≡ map vec_items needles.now) }
{
    let mut bytes = Vec::new(alloc);
    for needle in needles {
        bytes.push(needle[0])?;
    }
    Ok(bytes)
}
