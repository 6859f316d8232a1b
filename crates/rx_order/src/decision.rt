//! Whether the first candidate that is confirmed begins the earliest match.
ghost use Rattle.std.specs.Prelude.{◌≡◌, ◌∷◌, [], ◌<◌, true, length, map, IfOk};
ghost use Rattle.std.specs.Vec.{vec_items};
ghost use Rattle.rx_model.specs.Expression.{Expression};
ghost use Rattle.rx_order.specs.Order.{IsThen, Begins, SuffixIsNoEarlier, InnerIsNoEarlier};
ghost use Rattle.rx_order.specs.Strip.{suffix_has_no_earlier_match, suffix_of_one_has_no_earlier_match};
ghost use Rattle.rx_order.specs.Tests.{suffix_has_no_earlier, inner_has_no_earlier, one_not_consumed, are_literals};

use crate::consumed::hir_can_contain_literal;
use crate::lengths::hir_has_fixed_length;
use crate::separator::has_disjoint_class_separator;
use crate::strip::strip_literal_suffix;
use rx_hir::Hir;
use rx_search::Memory;
use std::alloc::Global;

/// Whether a search for the suffix, and from where it lies backwards, finds the earliest match first. A yes is so in
/// every text and span. It is a no for an empty suffix, and for other than one expression.
///
/// # Errors
///
/// `Memory`, where there was no memory for what is left of the expression.
pub fn suffix_has_no_earlier_match(
    alloc: Global,
    hirs: &[Hir],
    suffix: &[u8],
) -> Result<bool, Memory>
    ensures value { IfOk result (λ yes. yes ≡ suffix_of_one_has_no_earlier_match hirs.now suffix.now) }
    ensures order { (h : Expression) → hirs.now ≡ h ∷ [] → IfOk result (λ yes. yes ≡ true → SuffixIsNoEarlier h suffix.now) }
{
    if suffix.is_empty() {
        return Ok(false);
    }
    if hirs.len() != 1 {
        return Ok(false);
    }
    of_one(alloc, &hirs[0], suffix)
}

fn of_one(alloc: Global, hir: &Hir, suffix: &[u8]) -> Result<bool, Memory>
    requires { 0 < length suffix.now }
    ensures value { IfOk result (λ yes. yes ≡ suffix_has_no_earlier_match hir.now suffix.now) }
    ensures order { IfOk result (λ yes. yes ≡ true → SuffixIsNoEarlier hir.now suffix.now) }
{
    let left = strip_literal_suffix(alloc, hir, suffix)?;
    match left {
        Some(rest) => rest_has_no_earlier(alloc, &rest, suffix),
        None => Ok(false),
    }
}

fn rest_has_no_earlier(alloc: Global, rest: &Hir, suffix: &[u8]) -> Result<bool, Memory>
    ensures { IfOk result (λ yes. yes ≡ suffix_has_no_earlier rest.now suffix.now) }
{
    if hir_has_fixed_length(rest) {
        return Ok(true);
    }
    if !hir_can_contain_literal(rest, suffix) {
        return Ok(true);
    }
    let mut literals = Vec::with_capacity(alloc, 1)?;
    literals.push(Vec::from_slice(alloc, suffix)?)?;
    Ok(has_disjoint_class_separator(rest, &literals))
}

/// Whether a search for the literals, and from where one lies backwards by the prefix, finds the earliest match first.
/// A yes is so in every text and span, for each expression that is the prefix and then something that begins with one
/// of the literals. It is a no where there is no literal, and where one is empty.
pub fn inner_has_no_earlier_match(prefix: &Hir, literals: &[Vec<u8>]) -> bool
    ensures value { result ≡ inner_has_no_earlier prefix.now (map vec_items literals.now) }
    ensures order { result ≡ true → (h q : Expression) → IsThen h prefix.now q → Begins (map vec_items literals.now) q
        → InnerIsNoEarlier h prefix.now (map vec_items literals.now) }
{
    passes_a_test(prefix, literals)
}

fn passes_a_test(prefix: &Hir, literals: &[Vec<u8>]) -> bool
    ensures { result ≡ inner_has_no_earlier prefix.now (map vec_items literals.now) }
{
    if !are_literals(literals) {
        return false;
    }
    if hir_has_fixed_length(prefix) {
        return true;
    }
    if has_disjoint_class_separator(prefix, literals) {
        return true;
    }
    one_is_not_consumed(prefix, literals)
}

/// Whether there is one literal, and the prefix can't consume some byte of it.
fn one_is_not_consumed(prefix: &Hir, literals: &[Vec<u8>]) -> bool
    ensures { result ≡ one_not_consumed prefix.now (map vec_items literals.now) }
{
    if literals.len() != 1 {
        return false;
    }
    !hir_can_contain_literal(prefix, &literals[0])
}

/// Whether there are literals, and none is empty.
fn are_literals(literals: &[Vec<u8>]) -> bool
    ensures { result ≡ are_literals (map vec_items literals.now) }
{
    if literals.is_empty() {
        return false;
    }
    for literal in literals {
        if literal.is_empty() {
            return false;
        }
    }
    true
}
