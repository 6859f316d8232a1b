//! What a text begins with.
ghost use Rattle.std.specs.Prelude.{◌≡◌, ◌+◌, [], ◌∷◌, length, drop, chars, nat_eq, IfSome, MatchOption};
ghost use Rattle.std.specs.Char.{len_utf8, is_whitespace};
ghost use Rattle.std.specs.List.{prefix_len, starts_with};
ghost use Rattle.std.specs.Str.{IsUtf8};

/// The first character, and what follows it.
pub(crate) fn split_first(text: &str) -> Option<(char, &str)>
    ensures parts { MatchOption result (chars text.now ≡ []) (λ (c, rest). chars text.now ≡ c ∷ chars rest.now) }
    ensures size { IfSome result (λ (c, rest). length text.now ≡ len_utf8 c + length rest.now) }
    ensures utf8 { IfSome result (λ (c, rest). ∥ IsUtf8 rest.now ∥₁) }
{
    let mut chars = text.chars();
    match chars.next() {
        Some(c) => Some((c, chars.as_str())),
        None => None,
    }
}

/// What follows the first character.
pub(crate) fn after_first(text: &str) -> &str
    ensures { chars result.now ≡ drop 1 (chars text.now) }
{
    match split_first(text) {
        Some((_, rest)) => rest,
        None => text,
    }
}

/// What follows the white space in front.
pub(crate) fn after_white(text: &str) -> &str
    ensures { chars result.now ≡ drop (prefix_len is_whitespace (chars text.now)) (chars text.now) }
{
    text.trim_start()
}

/// Whether the text begins with this word.
pub(crate) fn begins_with(text: &str, word: &[char]) -> bool
    ensures { result ≡ starts_with nat_eq (chars text.now) word.now }
{
    let mut rest = text;
    for c in word {
        match split_first(rest) {
            Some((first, more)) if first == *c => rest = more,
            _ => return false,
        }
    }
    true
}
