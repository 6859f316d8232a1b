//! How a replacement template is read.
ghost use Rattle.std.specs.Prelude.{◌≡◌, ◌==◌, ◌+◌, ◌-◌, ◌<◌, ◌≤◌, IfSome, IsTrue, length, drop, slice_index};
ghost use Rattle.std.specs.Option.{option_map};
ghost use Rattle.std.specs.List.{position, prefix_len};
ghost use Rattle.rx_util.specs.Template.{is_closing_brace, braced, bare, is_name_byte, reference_in, number_of};

/// The text of the reference that follows a `$`, and how many bytes it takes.
pub(crate) fn reference_in(after: &[u8]) -> Option<(&str, usize)>
    ensures value { option_map (λ found. (found.0.now, found.1)) result ≡ reference_in after.now }
    ensures end { IfSome result (λ found. (0 < found.1) × (found.1 ≤ length after.now) × (slice_index after.now (found.1 - 1) < 128)) }
{
    if begins_with(after, b'{') {
        return in_braces(past(after, 1));
    }
    without_braces(after)
}

/// The reference that stands in braces, after the opening one.
fn in_braces(inside: &[u8]) -> Option<(&str, usize)>
    ensures value { option_map (λ found. (found.0.now, found.1)) result ≡ braced inside.now (position is_closing_brace inside.now) }
    ensures end { IfSome result (λ found. (1 < found.1) × (found.1 ≤ length inside.now + 1) × (slice_index inside.now (found.1 - 2) ≡ 125)) }
{
    let Some(len) = place_of(inside, b'}') else {
        return None;
    };
    let Ok(name) = std::str::from_utf8(&inside[..len]) else {
        return None;
    };
    Some((name, len + 2))
}

/// The longest name at the front, as a reference.
fn without_braces(after: &[u8]) -> Option<(&str, usize)>
    ensures value { option_map (λ found. (found.0.now, found.1)) result ≡ bare after.now (prefix_len is_name_byte after.now) }
    ensures end { IfSome result (λ found. (0 < found.1) × (found.1 ≤ length after.now) × (slice_index after.now (found.1 - 1) < 128)) }
{
    let len = name_len(after);
    if len == 0 {
        return None;
    }
    let Ok(name) = std::str::from_utf8(&after[..len]) else {
        return None;
    };
    Some((name, len))
}

/// What follows the first so many bytes.
pub(crate) fn past(bytes: &[u8], count: usize) -> &[u8]
    requires { count ≤ length bytes.now }
    ensures { result.now ≡ drop count bytes.now }
{
    &bytes[count..]
}

/// The place of the first such byte.
pub(crate) fn place_of(bytes: &[u8], byte: u8) -> Option<usize>
    ensures value { result ≡ position (λ other. other == byte) bytes.now }
    ensures there { IfSome result (λ place. (place < length bytes.now) × (slice_index bytes.now place ≡ byte)) }
{
    bytes.iter().position(|other| *other == byte)
}

/// Whether this is the first of the bytes.
pub(crate) fn begins_with(bytes: &[u8], first: u8) -> bool
    requires { 0 < first }
    ensures value { result ≡ (slice_index bytes.now 0 == first) }
    ensures some { IsTrue result → 0 < length bytes.now }
{
    !bytes.is_empty() && bytes[0] == first
}

/// How many bytes at the front can stand in a name.
fn name_len(bytes: &[u8]) -> usize
    ensures { result ≡ prefix_len is_name_byte bytes.now }
{
    for place in 0..bytes.len() {
        if !is_name_byte(bytes[place]) {
            return place;
        }
    }
    bytes.len()
}

/// Whether the byte can stand in a name without braces.
fn is_name_byte(byte: u8) -> bool
    ensures { result ≡ is_name_byte byte }
{
    byte.is_ascii_alphanumeric() || byte == b'_'
}

/// The number that a reference is, if it is one.
pub(crate) fn number_of(name: &str) -> Option<usize>
    ensures { result ≡ number_of name.now }
{
    // `parse` would take a plus.
    if begins_with(name.as_bytes(), b'+') {
        return None;
    }
    match name.parse() {
        Ok(number) => Some(number),
        Err(_) => None,
    }
}
