//! Members of classes that are given as ranges.
ghost use Rattle.std.specs.Prelude.{◌≡◌, ◌&&◌, not, chars};
ghost use Rattle.std.specs.List.{list_all};
ghost use Rattle.std.specs.Str.{is_utf8};
ghost use Rattle.rx_model.specs.Text.{is_member};
ghost use Rattle.rx_class.specs.Ranges.{AreScalarRanges, AreByteRanges};
ghost use Rattle.rx_order.specs.Tests.{is_clear, are_disjoint};

/// Whether no scalar lies in a range of both lists: of the first one few ranges are looked at for each of the other.
pub(crate) fn scalars_are_disjoint(ranges: &[(char, char)], others: &[(char, char)]) -> bool
    requires { AreScalarRanges ranges.now }
    ensures { result ≡ are_disjoint ranges.now others.now }
{
    for (low, high) in others {
        if !is_clear_of_scalars(ranges, *low, *high) {
            return false;
        }
    }
    true
}

/// Whether no byte lies in a range of both lists: of the first one few ranges are looked at for each of the other.
pub(crate) fn bytes_are_disjoint(ranges: &[(u8, u8)], others: &[(u8, u8)]) -> bool
    requires { AreByteRanges ranges.now }
    ensures { result ≡ are_disjoint ranges.now others.now }
{
    for (low, high) in others {
        if !is_clear_of_bytes(ranges, *low, *high) {
            return false;
        }
    }
    true
}

/// Whether no scalar from `low` to `high` lies in one of the ranges, which ascend: so half of them are left each time.
fn is_clear_of_scalars(ranges: &[(char, char)], low: char, high: char) -> bool
    requires { AreScalarRanges ranges.now }
    ensures { result ≡ is_clear ranges.now (low, high) }
{
    let mut from = 0;
    let mut to = ranges.len();
    'scalars: while from < to {
        let middle = from + (to - from) / 2;
        let (first, last) = ranges[middle];
        if last < low {
            from = middle + 1;
        } else if high < first {
            to = middle;
        } else {
            return false;
        }
    }
    true
}

/// Whether no byte from `low` to `high` lies in one of the ranges, which ascend: so half of them are left each time.
fn is_clear_of_bytes(ranges: &[(u8, u8)], low: u8, high: u8) -> bool
    requires { AreByteRanges ranges.now }
    ensures { result ≡ is_clear ranges.now (low, high) }
{
    let mut from = 0;
    let mut to = ranges.len();
    'bytes: while from < to {
        let middle = from + (to - from) / 2;
        let (first, last) = ranges[middle];
        if last < low {
            from = middle + 1;
        } else if high < first {
            to = middle;
        } else {
            return false;
        }
    }
    true
}

/// Whether the scalar lies in one of the ranges.
pub(crate) fn has_scalar(ranges: &[(char, char)], scalar: char) -> bool
    requires { AreScalarRanges ranges.now }
    ensures { result ≡ is_member ranges.now scalar }
{
    !is_clear_of_scalars(ranges, scalar, scalar)
}

/// Whether the byte lies in one of the ranges.
pub(crate) fn has_byte(ranges: &[(u8, u8)], byte: u8) -> bool
    requires { AreByteRanges ranges.now }
    ensures { result ≡ is_member ranges.now byte }
{
    !is_clear_of_bytes(ranges, byte, byte)
}

/// Whether the bytes are UTF-8, and no scalar of them lies in one of the ranges.
pub(crate) fn is_text_without(ranges: &[(char, char)], bytes: &[u8]) -> bool
    requires { AreScalarRanges ranges.now }
    ensures { result ≡ (is_utf8 bytes.now && list_all (λ c. not (is_member ranges.now c)) (chars bytes.now)) }
{
    match str::from_utf8(bytes) {
        Ok(text) => has_no_scalar(ranges, text),
        Err(_) => false,
    }
}

fn has_no_scalar(ranges: &[(char, char)], text: &str) -> bool
    requires { AreScalarRanges ranges.now }
    ensures { result ≡ list_all (λ c. not (is_member ranges.now c)) (chars text.now) }
{
    for c in text.chars() {
        if has_scalar(ranges, c) {
            return false;
        }
    }
    true
}

/// Whether none of the bytes lies in one of the ranges.
pub(crate) fn has_no_byte(ranges: &[(u8, u8)], bytes: &[u8]) -> bool
    requires { AreByteRanges ranges.now }
    ensures { result ≡ list_all (λ b. not (is_member ranges.now b)) bytes.now }
{
    for byte in bytes {
        if has_byte(ranges, *byte) {
            return false;
        }
    }
    true
}
