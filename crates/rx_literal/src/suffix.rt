//! The longest text that ends each literal.
ghost use Rattle.std.specs.Prelude.{◌≡◌, ◌≤◌, length, take, reverse, option_map};
ghost use Rattle.rx_literal.specs.Literals.{finite};
ghost use Rattle.rx_literal.specs.Trim.{common_prefix, common_from_behind, longest_common_suffix};

use crate::literal::Literal;
use crate::seq::Seq;

/// The longest text that ends each literal; none where there are no literals, or infinitely many.
pub fn longest_common_suffix(seq: &Seq) -> Option<&[u8]>
    ensures { option_map (λ s. s.now) result ≡ longest_common_suffix seq.now }
{
    match seq.literals() {
        Some(literals) => suffix_of_all(literals),
        None => None,
    }
}

fn suffix_of_all(literals: &[Literal]) -> Option<&[u8]>
    ensures { option_map (λ s. s.now) result ≡ longest_common_suffix (finite literals.now) }
{
    if literals.is_empty() {
        return None;
    }
    let first = &literals[0];
    Some(common_suffix(first.as_bytes(), &literals[1..]))
}

fn common_suffix<'a>(first: &'a [u8], others: &[Literal]) -> &'a [u8]
    ensures { result.now ≡ reverse (common_from_behind (reverse first.now) others.now) }
{
    let mut len = first.len();
    for other in others {
        len = common_len(first, len, other.as_bytes());
    }
    &first[first.len() - len..]
}

/// How many of the last `most` bytes of the first are also the last of the second.
fn common_len(first: &[u8], most: usize, second: &[u8]) -> usize
    requires { most ≤ length first.now }
    ensures value { result ≡ length (common_prefix (take most (reverse first.now)) (reverse second.now)) }
    ensures bound { result ≤ most }
{
    let mut len = 0;
    while len < most && len < second.len() {
        if first[first.len() - 1 - len] != second[second.len() - 1 - len] {
            return len;
        }
        len += 1;
    }
    len
}
