//! What stands ahead of a place.
ghost use Rattle.std.specs.Prelude.{◌≡◌, ◌≤◌, ◌<◌, chars, length, slice_get, false, if◌then◌else◌};
ghost use Rattle.std.specs.Char.{is_whitespace};
ghost use Rattle.rx_reader.specs.Reading.{begins, past};
ghost use Rattle.rx_reader.specs.Ahead.{past_n, is_blank, is_commented, blank_len, skipped_len, skip};

use super::Cursor;
use crate::flags::Flags;

/// Whether a character stands between tokens: it is white space, or one of a comment.
fn is_blank(in_comment: bool, c: char) -> bool
    ensures { result ≡ is_blank in_comment c }
{
    in_comment || c.is_whitespace() || c == '#'
}

/// Whether a comment goes on after a character.
fn is_commented(in_comment: bool, c: char) -> bool
    ensures { result ≡ is_commented in_comment c }
{
    if in_comment { c != '\n' } else { c == '#' }
}

/// What stands between tokens in front of a text.
#[derive(Clone, Copy)]
struct Gap {
    /// How many characters it has.
    len: usize,
    /// The character after it.
    next: Option<char>,
}

/// The white space and comments in front.
fn blank_gap(text: &str) -> Gap
    ensures len { result.len ≡ blank_len false (chars text.now) }
    ensures next { result.next ≡ slice_get (chars text.now) result.len }
{
    let mut in_comment = false;
    let mut len = 0;
    for c in text.chars() {
        if !is_blank(in_comment, c) {
            return Gap { len, next: Some(c) };
        }
        in_comment = is_commented(in_comment, c);
        len += 1;
    }
    Gap { len, next: None }
}

/// What is skipped in front.
fn skipped_gap(flags: Flags, text: &str) -> Gap
    ensures len { result.len ≡ skipped_len flags (chars text.now) }
    ensures next { result.next ≡ slice_get (chars text.now) result.len }
{
    if flags.ignore_whitespace {
        blank_gap(text)
    } else {
        Gap {
            len: 0,
            next: text.chars().next(),
        }
    }
}

impl<'a> Cursor<'a> {
    ghost use Rattle.rx_reader.specs.Input.{place, unread, HasRoom};

    /// What is still to read.
    pub(crate) fn rest(&self) -> &str
        ensures { chars result.now ≡ (place self.now).text }
    {
        self.rest
    }

    /// Moves past so many characters.
    pub(crate) fn bump_by(&mut self, count: usize)
        ensures value { place self.new ≡ past_n count (place self.old) }
        ensures progress { unread self.new ≤ unread self.old }
        ensures passed { 0 < count → 0 < unread self.old → unread self.new < unread self.old }
        ensures room { 0 < count → 0 < unread self.old → HasRoom self.new }
        ensures kept { HasRoom self.old → HasRoom self.new }
    {
        for _ in 0..count {
            self.bump();
        }
    }

    /// Moves past white space and comments, where the flags ask for it.
    pub(crate) fn skip(&mut self, flags: Flags)
        ensures value { place self.new ≡ skip flags (place self.old) }
        ensures progress { unread self.new ≤ unread self.old }
        ensures kept { HasRoom self.old → HasRoom self.new }
    {
        if !flags.ignore_whitespace {
            return;
        }
        let gap = blank_gap(self.rest);
        self.bump_by(gap.len);
    }

    /// Moves past a `?`, if it stands at the position.
    pub(crate) fn bump_over_question(&mut self) -> bool
        ensures value { result ≡ begins "?" (place self.old) }
        ensures place { place self.new ≡ (if result then past (place self.old) else place self.old) }
        ensures progress { unread self.new ≤ unread self.old }
        ensures kept { HasRoom self.old → HasRoom self.new }
    {
        let lazy = self.begins(&['?']);
        if lazy {
            self.bump();
        }
        lazy
    }

    /// Moves past a `?` and what is skipped before it, if it stands there.
    pub(crate) fn bump_over_lazy(&mut self, flags: Flags) -> bool
        ensures value { result ≡ begins "?" (skip flags (place self.old)) }
        ensures place { place self.new ≡ (if result then past (skip flags (place self.old)) else place self.old) }
        ensures progress { unread self.new ≤ unread self.old }
        ensures kept { HasRoom self.old → HasRoom self.new }
    {
        let gap = skipped_gap(flags, self.rest);
        let lazy = gap.next == Some('?');
        if lazy {
            self.bump_by(gap.len);
            self.bump();
        }
        lazy
    }
}
