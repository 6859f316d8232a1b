//! A place in a pattern.
ghost use Rattle.std.specs.Prelude.{◌≡◌, ◌+◌, ◌<◌, ◌≤◌, not, ◌&&◌, length, drop, [], ◌∷◌, ◌^◌, chars, nat_eq, if◌then◌else◌, IfOk, MatchOption, IsTrue, IsFalse};
ghost use Rattle.std.specs.List.{starts_with};
ghost use Rattle.rx_reader.specs.Reading.{at_end, first, past, passes, is_among};
ghost use Rattle.std.specs.Char.{is_whitespace};
ghost use Rattle.std.specs.Str.{IsUtf8};

use crate::error::{ParseError, SyntaxError, SyntaxErrorKind};
use crate::names::Names;
use crate::piece::Piece;
use std::alloc::{AllocError, Global};
use std::num::NonZeroUsize;

mod ahead;
mod front;

use front::{after_first, after_white, begins_with, split_first};

/// A pattern, and how far it is read. Its characters are decoded one by one where they stand.
#[derive(Drop)]
pub(crate) struct Cursor<'a> {
    alloc: Global,
    /// What is still to read.
    rest: &'a str,
    /// How many bytes stand before the position.
    at: usize,
    /// How many capturing groups were opened before it.
    groups: usize,
    /// The names that they have.
    names: Names,
    ghost narrow: { at + length rest.now < 2 ^ 64 },
    ghost few: { groups ≤ at },
    ghost utf8: { ∥ IsUtf8 rest.now ∥₁ },
}

impl<'a> Cursor<'a> {
    ghost use Rattle.rx_reader.specs.Input.{place, unread, start_of, HasRoom, IsPieceAt};
    ghost use Rattle.rx_reader.specs.Classes.{next_text};
    ghost use Rattle.rx_reader.specs.Groups.{number_after};
    ghost use Rattle.rx_reader.specs.Reading.{count_group, has_name, add_name, past_white, past_all};

    pub(crate) fn new(alloc: Global, pattern: &'a str) -> Cursor<'a>
        ensures { place result ≡ start_of (chars pattern.now) }
    {
        Cursor {
            alloc,
            rest: pattern,
            at: 0,
            groups: 0,
            names: Names::new(alloc),
        }
    }

    pub(crate) fn alloc(&self) -> Global {
        self.alloc
    }

    /// How many bytes stand before the position.
    pub(crate) fn at(&self) -> usize
        ensures { result ≡ (place self.now).at }
    {
        self.at
    }

    /// The character at the position.
    pub(crate) fn current(&self) -> Option<char>
        ensures { MatchOption result (unread self.now ≡ 0) (λ c. (0 < unread self.now) × (c ≡ first (place self.now))) }
    {
        match split_first(self.rest) {
            Some((c, _)) => Some(c),
            None => None,
        }
    }

    /// The character at the position, which is not the end.
    pub(crate) fn first(&self) -> char
        requires { 0 < unread self.now }
        ensures { result ≡ first (place self.now) }
    {
        match self.current() {
            Some(c) => c,
            None => unreachable!(),
        }
    }

    pub(crate) fn is_at_end(&self) -> bool
        ensures value { result ≡ at_end (place self.now) }
        ensures more { IsFalse result → 0 < unread self.now }
    {
        match self.current() {
            Some(_) => false,
            None => true,
        }
    }

    /// Whether one of these characters stands at the position.
    pub(crate) fn is_at(&self, chars: &[char]) -> bool
        ensures value { result ≡ (not (at_end (place self.now)) && is_among (first (place self.now)) chars.now) }
        ensures more { IsTrue result → 0 < unread self.now }
    {
        match self.current() {
            Some(c) => chars.contains(&c),
            None => false,
        }
    }

    /// Whether this word stands at the position.
    pub(crate) fn begins(&self, word: &[char]) -> bool
        ensures { result ≡ starts_with nat_eq (place self.now).text word.now }
    {
        begins_with(self.rest, word)
    }

    /// Moves past one of these characters, if one stands at the position.
    pub(crate) fn bump_over(&mut self, chars: &[char]) -> bool
        ensures value { result ≡ (not (at_end (place self.old)) && is_among (first (place self.old)) chars.now) }
        ensures place { place self.new ≡ (if result then past (place self.old) else place self.old) }
        ensures progress { unread self.new ≤ unread self.old }
        ensures passed { IsTrue result → unread self.new < unread self.old }
        ensures kept { HasRoom self.old → HasRoom self.new }
    {
        let found = self.is_at(chars);
        if found {
            self.bump();
        }
        found
    }

    /// Moves past the character at the position, if there is one.
    pub(crate) fn bump(&mut self)
        ensures value { place self.new ≡ past (place self.old) }
        ensures progress { 0 < unread self.old → unread self.new < unread self.old }
        ensures room { 0 < unread self.old → HasRoom self.new }
        ensures kept { HasRoom self.old → HasRoom self.new }
    {
        if let Some((c, rest)) = split_first(self.rest) {
            self.rest = rest;
            self.at += c.len_utf8();
        }
    }

    // White space alone, and no comments: for classes and counts (DECISIONS: under `x`).
    /// Moves past the white space at the position, where it is to be skipped.
    pub(crate) fn skip_white(&mut self, skips: bool)
        ensures value { place self.new ≡ past_white skips (place self.old) }
        ensures progress { unread self.new ≤ unread self.old }
        ensures kept { HasRoom self.old → HasRoom self.new }
    {
        if skips {
            self.skip_spaces();
        }
    }

    fn skip_spaces(&mut self)
        ensures value { place self.new ≡ past_all is_whitespace (place self.old) }
        ensures progress { unread self.new ≤ unread self.old }
        ensures kept { HasRoom self.old → HasRoom self.new }
    {
        while self.is_at_white() {
            self.bump();
        }
    }

    /// Whether white space stands at the position.
    fn is_at_white(&self) -> bool
        ensures value { result ≡ passes is_whitespace (place self.now) }
        ensures more { IsTrue result → 0 < unread self.now }
    {
        match self.current() {
            Some(c) => c.is_whitespace(),
            None => false,
        }
    }

    /// Counts a capturing group, and tells its number.
    pub(crate) fn count_group(&mut self) -> NonZeroUsize
        requires { HasRoom self.old }
        ensures number { result ≡ number_after (place self.old).groups }
        ensures place { place self.new ≡ count_group (place self.old) }
    {
        let number = NonZeroUsize::MIN.saturating_add(self.groups);
        self.groups = number.get();
        number
    }

    /// Adds the name of a group, and tells whether no group before has it.
    pub(crate) fn add_name(&mut self, name: &[char]) -> Result<bool, AllocError>
        ensures fresh { IfOk result (λ fresh. fresh ≡ not (has_name name.now (place self.old))) }
        ensures value { IfOk result (λ _. place self.new ≡ add_name name.now (place self.old)) }
        ensures kept { HasRoom self.old → HasRoom self.new }
    {
        let alloc = self.alloc();
        self.names.insert(alloc, name)
    }

    /// Refuses the piece from `start` to the position.
    pub(crate) fn refuse_from(&self, start: usize, kind: SyntaxErrorKind) -> ParseError
        ensures { result ≡ ParseError.Syntax (record { kind = kind; start = start; end = (place self.now).at }) }
    {
        ParseError::Syntax(SyntaxError {
            kind,
            start,
            end: self.at,
        })
    }

    /// The piece of the character at the position.
    pub(crate) fn here(&self) -> Piece
        ensures { IsPieceAt result (place self.now) }
    {
        match split_first(self.rest) {
            Some((c, _)) => Piece {
                start: self.at,
                end: self.at + c.len_utf8(),
            },
            None => Piece {
                start: self.at,
                end: self.at,
            },
        }
    }

    /// The piece from `start` to the position.
    pub(crate) fn piece_from(&self, start: usize) -> Piece
        ensures { result ≡ record { start = start; end = (place self.now).at } }
    {
        Piece {
            start,
            end: self.at,
        }
    }

    /// Whether this character stands after the one at the position, and after white space where that is skipped.
    pub(crate) fn is_before(&self, c: char, skips: bool) -> bool
        requires { 0 < unread self.now }
        ensures { result ≡ starts_with nat_eq (next_text skips (drop 1 (place self.now).text)) (c ∷ []) }
    {
        let text = after_first(self.rest);
        if skips {
            begins_with(after_white(text), &[c])
        } else {
            begins_with(text, &[c])
        }
    }
}
