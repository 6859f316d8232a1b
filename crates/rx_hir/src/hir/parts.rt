//! What a whole has, from what its parts have.
ghost use Rattle.std.specs.Prelude.{◌≡◌, suc, ◌&&◌, ◌||◌, ◌*◌, ◌<◌, nat_lt, option_map};
ghost use Rattle.std.specs.Str.{is_utf8 as is_utf8_text};
ghost use Rattle.rx_model.specs.Length.{plus, lesser};
ghost use Rattle.rx_model.specs.Look as model;
ghost use Rattle.rx_search.specs.LookSet.{has};
ghost use Rattle.rx_hir.specs.Length.{times, greater, saturated, in_64_bits};
ghost use Rattle.rx_hir.specs.Normal.{is_zero};
ghost use Rattle.rx_hir.specs.Properties.{static_in_copies, common};

use rx_search::LookSet;

pub(super) fn is_utf8(bytes: &[u8]) -> bool
    ensures { result ≡ is_utf8_text bytes.now }
{
    match str::from_utf8(bytes) {
        Ok(_) => true,
        Err(_) => false,
    }
}

pub(super) fn saturating_product(len: Option<usize>, count: u32) -> Option<usize>
    ensures { result ≡ saturated (option_map (λ n. n * count) len) }
{
    match len {
        Some(n) => Some(n.saturating_mul(count as usize)),
        None => None,
    }
}

pub(super) fn checked_product(len: Option<usize>, count: Option<u32>) -> Option<usize>
    ensures { result ≡ in_64_bits (times len count) }
{
    match (len, count) {
        (Some(n), Some(count)) => n.checked_mul(count as usize),
        _ => None,
    }
}

pub(super) fn saturating_sum(a: Option<usize>, b: Option<usize>) -> Option<usize>
    ensures { result ≡ saturated (plus a b) }
{
    match (a, b) {
        (Some(a), Some(b)) => Some(a.saturating_add(b)),
        _ => None,
    }
}

pub(super) fn checked_sum(a: Option<usize>, b: Option<usize>) -> Option<usize>
    ensures { result ≡ in_64_bits (plus a b) }
{
    match (a, b) {
        (Some(a), Some(b)) => a.checked_add(b),
        _ => None,
    }
}

pub(super) fn lesser(a: Option<usize>, b: Option<usize>) -> Option<usize>
    ensures { result ≡ lesser a b }
{
    match (a, b) {
        (Some(a), Some(b)) => Some(a.min(b)),
        _ => None,
    }
}

pub(super) fn greater(a: Option<usize>, b: Option<usize>) -> Option<usize>
    ensures { result ≡ greater a b }
{
    match (a, b) {
        (Some(a), Some(b)) => Some(a.max(b)),
        _ => None,
    }
}

pub(super) fn one_more(count: Option<usize>) -> Option<usize>
    ensures { result ≡ saturated (option_map suc count) }
{
    match count {
        Some(n) => Some(n.saturating_add(1)),
        None => None,
    }
}

/// The number that two have in common.
pub(super) fn common(a: Option<usize>, b: Option<usize>) -> Option<usize>
    ensures { result ≡ common a b }
{
    match (a, b) {
        (Some(a), Some(b)) if a == b => Some(a),
        _ => None,
    }
}

/// How many groups take part in copies of a body.
pub(super) fn groups_in_copies(min: u32, body: Option<usize>) -> Option<usize>
    ensures { result ≡ static_in_copies min body }
{
    match body {
        Some(n) if min > 0 || n == 0 => Some(n),
        _ => None,
    }
}

/// What copies begin, or end, with.
pub(super) fn looks_of_copies(min: u32, body: LookSet) -> LookSet
    ensures { (kind : model.Look) → has result kind ≡ (nat_lt 0 min && has body kind) }
{
    if min == 0 { LookSet::empty() } else { body }
}

/// The kinds that are in the nearer set, and in the further one too where the part between has this greatest
/// length and it is 0.
pub(super) fn looks_past(near: LookSet, len: Option<usize>, far: LookSet) -> LookSet
    ensures { (kind : model.Look) → has result kind ≡ (has near kind || (is_zero len && has far kind)) }
{
    if len == Some(0) {
        near.union(far)
    } else {
        near
    }
}
