//! Searches for one, two or three bytes, by the kit's `memchr`.
ghost use Rattle.std.specs.Prelude.{◌≡◌, ◌+◌, ◌^◌, ◌<◌, ◌≤◌, [], ◌∷◌, length, map, IfSome, if◌then◌else◌, Some, None};
ghost use Rattle.std.specs.Option.{option_map};
ghost use Rattle.rx_prefilter.specs.Needles.{first_span, span_at};
ghost use Rattle.rx_prefilter.specs.Bytes.{single, byte_span};

use memchr::{memchr, memchr2, memchr3};
use rx_search::Span;

/// Where the byte stands that was found, counted from `from` on.
#[inline(always)]
fn found_from(from: usize, found: Option<usize>) -> Option<Span>
    requires { IfSome found (λ k. from + k + 1 < 2 ^ 64) }
    ensures { result ≡ option_map (λ k. byte_span (from + k)) found }
{
    let start = from + found?;
    Some(Span {
        start,
        end: start + 1,
    })
}

/// Where the byte at `at` stands, if it is wanted.
#[inline(always)]
fn wanted_at(at: usize, is_wanted: bool) -> Option<Span>
    requires { at + 1 < 2 ^ 64 }
    ensures { result ≡ (if is_wanted then Some (byte_span at) else None) }
{
    if is_wanted {
        return Some(Span {
            start: at,
            end: at + 1,
        });
    }
    None
}

/// The first place from `from` on at which the byte stands.
#[inline(always)]
pub(crate) fn find(a: u8, text: &[u8], from: usize) -> Option<Span>
    requires { from ≤ length text.now }
    ensures { result ≡ first_span (single a ∷ []) text.now from }
{
    found_from(from, memchr(a, &text[from..]))
}

/// The first place from `from` on at which one of the two bytes stands.
#[inline(always)]
pub(crate) fn find2(a: u8, b: u8, text: &[u8], from: usize) -> Option<Span>
    requires { from ≤ length text.now }
    ensures { result ≡ first_span (single a ∷ single b ∷ []) text.now from }
{
    found_from(from, memchr2(a, b, &text[from..]))
}

/// The first place from `from` on at which one of the three bytes stands.
#[inline(always)]
pub(crate) fn find3(a: u8, b: u8, c: u8, text: &[u8], from: usize) -> Option<Span>
    requires { from ≤ length text.now }
    ensures { result ≡ first_span (single a ∷ single b ∷ single c ∷ []) text.now from }
{
    found_from(from, memchr3(a, b, c, &text[from..]))
}

/// Where one of the bytes stands, if one stands at `at`.
pub(crate) fn prefix(bytes: &[u8], text: &[u8], at: usize) -> Option<Span>
    requires { at ≤ length text.now }
    ensures { result ≡ span_at (map single bytes.now) text.now at }
{
    if at == text.len() {
        return None;
    }
    wanted_at(at, bytes.contains(&text[at]))
}
