//! What the words ask for.
ghost use Rattle.std.specs.Prelude.{◌≡◌, IfSome, true, false};
ghost use Rattle.rx_model.specs.Search.{is_anchored};

use crate::call::{Call, Engine};
use rx_nfa::WhichCaptures;
use rx_search::{Anchored, Input, MatchKind, Memory, NonMaxUsize, PatternID, Span};
use std::alloc::Global;
use std::str;

/// The options that are one word.
///
/// - `anchored`: a match begins where the span begins.
/// - `earliest`: any match will do.
/// - `lines`: each line is a haystack, for which the same cache serves, of the PikeVM and the backtracker. For `matches` it always is.
/// - `backwards`: the table whose size is asked for reads backwards.
/// - `kind:all`: the kind of match, of all but the backtracker and what reads backwards.
/// - `utf8:no`: a match may split a character.
/// - `classes:off`: a full, lazy or one-pass DFA has a column for each byte.
/// - `nfa:always`, `nfa:never`: what matches everywhere or nowhere, in the place of the patterns.
/// - `captures:implicit`, `captures:none`: which captures a strategy or a one-pass DFA tells.
const WORDS: [&str; 11] = [
    "anchored",
    "earliest",
    "lines",
    "backwards",
    "kind:all",
    "utf8:no",
    "classes:off",
    "nfa:always",
    "nfa:never",
    "captures:implicit",
    "captures:none",
];

/// The options with a number behind a colon.
///
/// - `capacity`: the bytes that a cache of a lazy DFA may account.
/// - `limit`: the bytes that the table of a full or a one-pass DFA may have, or those that are accounted for the NFA of a strategy.
/// - `pattern`: a match begins where the span begins, and is of this pattern.
/// - `reset`: how many of the patterns are those of an earlier engine, whose cache is reset for that of the others.
/// - `slots`: the number of slots, if they are not as many as there are.
const NUMBERS: [&str; 5] = ["capacity", "limit", "pattern", "reset", "slots"];

/// Whether the word is one of these.
fn is_among(words: &[&str], word: &str) -> bool {
    for known in words {
        if *known == word {
            return true;
        }
    }
    false
}

/// Whether a word is an option. Beside those above there are `span:3..13`; `needle:` and a needle; and `off:` and letters of what a strategy
/// does without: the full DFA (`d`), the lazy DFA (`h`), the backtracker (`b`), automatic prefilters (`p`).
fn is_option(word: &str) -> bool {
    match word.split_once(':') {
        Some((name, value)) => is_among(&WORDS, word) || has_value(name, value),
        None => is_among(&WORDS, word),
    }
}

/// Whether an option of this name may have this value.
fn has_value(name: &str, value: &str) -> bool {
    match name {
        "needle" | "off" => true,
        "span" => span_of(value).is_some(),
        _ => is_among(&NUMBERS, name) && value.parse::<usize>().is_ok(),
    }
}

/// The ends of a span.
fn span_of(value: &str) -> Option<(usize, usize)> {
    let (start, end) = value.split_once("..")?;
    Some((start.parse::<usize>().ok()?, end.parse::<usize>().ok()?))
}

/// This span of a haystack, if it has it.
fn part(haystack: &[u8], start: usize, end: usize) -> Option<Input<'_>> {
    if end > haystack.len() {
        return None;
    }
    if start > end + 1 {
        return None;
    }
    Some(Input::new(haystack).span(Span { start, end }))
}

/// What the words ask for.
#[derive(Clone, Copy)]
pub struct Ask<'w> {
    pub engine: Engine,
    pub call: Call,
    pub options: &'w [String],
    pub patterns: &'w [String],
    /// The patterns of an earlier engine, whose cache is reset.
    earlier: Option<&'w [String]>,
    pub input: &'w [u8],
}

impl<'w> Ask<'w> {
    /// Whether this option stands there.
    pub fn has(&self, option: &str) -> bool {
        for word in self.options {
            if word.as_str() == option {
                return true;
            }
        }
        false
    }

    /// What stands behind the name of an option and its colon.
    fn value(&self, name: &str) -> Option<&'w str> {
        for word in self.options {
            if let Some((before, behind)) = word.split_once(':') {
                if before == name {
                    return Some(behind);
                }
            }
        }
        None
    }

    /// The number of an option.
    pub fn number(&self, name: &str) -> Option<usize> {
        self.value(name)?.parse::<usize>().ok()
    }

    /// Whether a strategy does without what this letter stands for.
    pub fn is_off(&self, letter: char) -> bool {
        match self.value("off") {
            Some(letters) => letters.contains(letter),
            None => false,
        }
    }

    /// The kind of match.
    pub fn kind(&self) -> MatchKind {
        if self.has("kind:all") {
            return MatchKind::All;
        }
        MatchKind::LeftmostFirst
    }

    /// Which captures a strategy tells.
    pub fn captures(&self) -> WhichCaptures {
        if self.has("captures:implicit") {
            return WhichCaptures::Implicit;
        }
        if self.has("captures:none") {
            return WhichCaptures::None;
        }
        WhichCaptures::All
    }

    /// Where a match may begin.
    fn mode(&self) -> Anchored {
        if let Some(number) = self.number("pattern") {
            return Anchored::Pattern(PatternID::new(number).unwrap_or(PatternID::MAX));
        }
        if self.has("anchored") {
            return Anchored::Yes;
        }
        Anchored::No
    }

    /// The span of this haystack that is searched, if it has it.
    fn within<'h>(&self, haystack: &'h [u8]) -> Option<Input<'h>> {
        match self.value("span") {
            Some(value) => {
                let (start, end) = span_of(value)?;
                part(haystack, start, end)
            }
            None => Some(Input::new(haystack)),
        }
    }

    /// The input of a search of this haystack, if it has the span.
    pub fn input<'h>(&self, haystack: &'h [u8]) -> Option<Input<'h>> {
        let input = self.within(haystack)?;
        Some(input.anchored(self.mode()).earliest(self.has("earliest")))
    }

    /// The same where a match may begin anywhere, as it is to.
    pub fn free_input<'h>(&self, haystack: &'h [u8]) -> Option<Input<'h>>
        ensures { IfSome result (λ i. is_anchored i.anchor ≡ false) }
    {
        let input = self.within(haystack)?;
        match self.mode() {
            Anchored::No => Some(input.anchored(Anchored::No)),
            _ => None,
        }
    }

    /// The same where a match begins where the span begins, as it is to.
    pub fn bound_input<'h>(&self, haystack: &'h [u8]) -> Option<Input<'h>>
        ensures { IfSome result (λ i. is_anchored i.anchor ≡ true) }
    {
        let input = self.within(haystack)?;
        match self.mode() {
            Anchored::No => None,
            Anchored::Yes => Some(input.anchored(Anchored::Yes)),
            Anchored::Pattern(pattern) => Some(input.anchored(Anchored::Pattern(pattern))),
        }
    }

    /// The text whose lines are haystacks, if the input is a text. The end of the last line begins no other one.
    pub fn text(&self) -> Option<&'w str> {
        let input = self.input.strip_suffix(b"\n").unwrap_or(self.input);
        str::from_utf8(input).ok()
    }

    /// The haystacks, each of which is a line if the words say so. The end of the last line begins no other one.
    pub fn haystacks(&self) -> &'w [u8] {
        if !self.has("lines") {
            return self.input;
        }
        self.input.strip_suffix(b"\n").unwrap_or(self.input)
    }

    /// What is asked of the earlier engine.
    pub fn earlier(&self) -> Option<Ask<'w>> {
        let patterns = self.earlier?;
        Some(Ask { patterns, ..*self })
    }

    /// As many slots as are asked for, or else this number. A place in each of them shows that a search writes to all.
    ///
    /// # Errors
    ///
    /// `Memory`.
    pub fn slots(&self, alloc: Global, len: usize) -> Result<Vec<Option<NonMaxUsize>>, Memory> {
        let filled = NonMaxUsize::new(9);
        let len = self.number("slots").unwrap_or(len);
        Ok(vec![in alloc; filled; len]?)
    }
}

/// What these words ask for, of this input, if they are those of a case.
pub fn read<'w>(words: &'w [String], input: &'w [u8]) -> Option<Ask<'w>> {
    let (before, patterns) = parted(words)?;
    let (engine, rest) = before.split_first()?;
    let (call, options) = rest.split_first()?;
    if !are_options(options) {
        return None;
    }
    let ask = Ask {
        engine: Engine::of(engine)?,
        call: Call::of(call)?,
        options,
        patterns,
        earlier: None,
        input,
    };
    without_earlier(ask)
}

/// The words before `--`, and those behind it.
fn parted(words: &[String]) -> Option<(&[String], &[String])> {
    for k in 0..words.len() {
        if words[k].as_str() == "--" {
            return Some((&words[..k], &words[k + 1..]));
        }
    }
    None
}

/// Whether the words are options.
fn are_options(words: &[String]) -> bool {
    for word in words {
        if !is_option(word.as_str()) {
            return false;
        }
    }
    true
}

/// The same, with the patterns of an earlier engine apart, if there are so many.
fn without_earlier(ask: Ask<'_>) -> Option<Ask<'_>> {
    let Some(count) = ask.number("reset") else {
        return Some(ask);
    };
    if count > ask.patterns.len() {
        return None;
    }
    Some(Ask {
        patterns: &ask.patterns[count..],
        earlier: Some(&ask.patterns[..count]),
        ..ask
    })
}
