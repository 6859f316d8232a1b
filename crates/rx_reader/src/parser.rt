//! Items, branches and groups.
ghost use Rattle.std.specs.Prelude.{◌≡◌, ◌<◌, ◌≤◌, ◌⊎◌, true, false, chars, Ok, Err, OnOk, MatchResult, IsTrue};
ghost use Rattle.rx_reader.specs.Reading.{Place, at_end, past};
ghost use Rattle.rx_reader.specs.Ahead.{skip};
ghost use Rattle.rx_reader.specs.Grammar.{all_repetitions, no_items, read};
ghost use Rattle.rx_reader.specs.Input.{place, unread, Reads, Refuses, IsPieceAt};

use crate::ast::Ast;
use crate::config::Config;
use crate::cursor::Cursor;
use crate::error::{ParseError, SyntaxErrorKind};
use crate::flags::Flags;
use crate::group_kind::GroupKind;
use crate::level::Level;
use crate::operator::read_operator;
use crate::piece::Piece;
use crate::token::{Token, read_token};
use std::alloc::Global;
use std::mem;

/// A group that is open, what was read around it, and the flags that stand there.
#[derive(Drop)]
pub(crate) struct Frame {
    level: Level,
    opening: Piece,
    kind: GroupKind,
    flags: Flags,
}

#[derive(Drop)]
pub(crate) struct Parser<'a> {
    cursor: Cursor<'a>,
    frames: Vec<Frame>,
    level: Level,
    flags: Flags,
    config: Config,
}

/// Puts the item under each operator that follows it.
fn repetitions(
    cursor: &mut Cursor,
    config: Config,
    flags: Flags,
    item: Ast,
) -> Result<Ast, ParseError>
    ensures value { Reads result (all_repetitions config flags item (place cursor.old)) (place cursor.new) }
    ensures progress { OnOk result (unread cursor.new ≤ unread cursor.old) }
{
    let mut item = item;
    cursor.skip(flags);
    while cursor.is_at(&['*', '+', '?', '{']) {
        let start = cursor.at();
        let operator = match read_operator(cursor, flags) {
            Ok(operator) => operator,
            Err(error) => {
                // By a call (DECISIONS: large values are let go by name).
                drop(item);
                return Err(error);
            }
        };
        if item.depth() >= config.get_nest_limit() {
            drop(item);
            return Err(cursor.refuse_from(start, SyntaxErrorKind::NestLimit));
        }
        item = Ast::repetition(
            cursor.alloc(),
            operator.min,
            operator.max,
            operator.greedy,
            item,
        )?;
        cursor.skip(flags);
    }
    Ok(item)
}

impl<'a> Parser<'a> {
    ghost use Rattle.rx_reader.specs.Stack.{answer, answer_with, answer_at_token, answer_at_item, answer_at_group, Continues};

    fn new(alloc: Global, pattern: &'a str, config: Config) -> Parser<'a>
        ensures { answer result ≡ read config (chars pattern.now) }
    {
        let flags = config.flags();
        Parser {
            cursor: Cursor::new(alloc, pattern),
            frames: Vec::new(alloc),
            level: Level::new(alloc, flags),
            flags,
            config,
        }
    }

    /// Takes an item, with the operators that follow it.
    fn take_item(&mut self, item: Ast) -> Result<(), ParseError>
        ensures value { Continues result self.new (answer_at_item self.old item (place self.old.cursor)) }
        ensures progress { OnOk result (unread self.new.cursor ≤ unread self.old.cursor) }
    {
        let item = repetitions(&mut self.cursor, self.config, self.flags, item)?;
        self.level.push(item)?;
        Ok(())
    }

    /// Opens a group, whose opening was read.
    fn open_group(
        &mut self,
        opening: Piece,
        kind: GroupKind,
        flags: Flags,
    ) -> Result<(), ParseError>
        ensures value { (p : Place) → IsPieceAt opening p → Continues result self.new (answer_at_group self.old p kind flags (place self.old.cursor)) }
        ensures progress { OnOk result (unread self.new.cursor ≤ unread self.old.cursor) }
    {
        // The opening was read in whole (DECISIONS: the piece of a nest limit refusal is the whole token).
        if self.frames.len() >= self.config.get_nest_limit() as usize {
            return Err(
                self.cursor
                    .refuse_from(opening.start, SyntaxErrorKind::NestLimit),
            );
        }
        let alloc = self.cursor.alloc();
        let level = mem::replace(&mut self.level, Level::new(alloc, flags));
        self.frames.push(Frame {
            level,
            opening,
            kind,
            flags: self.flags,
        })?;
        self.flags = flags;
        Ok(())
    }

    /// Closes a group, whose end was read.
    fn close_group(&mut self, start: usize) -> Result<(), ParseError>
        ensures value { (p : Place) → start ≡ p.at → at_end p ≡ false → place self.old.cursor ≡ past p
            → Continues result self.new (answer_with self.old (Ok (no_items, p))) }
        ensures progress { OnOk result (unread self.new.cursor ≤ unread self.old.cursor) }
    {
        let frame = match self.frames.pop() {
            Some(frame) => frame,
            None => {
                return Err(
                    self.cursor
                        .refuse_from(start, SyntaxErrorKind::UnopenedGroup),
                );
            }
        };
        let Frame {
            level,
            kind,
            flags,
            ..
        } = frame;
        let inside = mem::replace(&mut self.level, level);
        self.flags = flags;
        let body = match inside.whole() {
            Ok(body) => body,
            Err(_) => {
                drop(kind);
                return Err(ParseError::Memory);
            }
        };
        if body.depth() >= self.config.get_nest_limit() {
            drop(body);
            drop(kind);
            return Err(self.cursor.refuse_from(start, SyntaxErrorKind::NestLimit));
        }
        let group = Ast::group(self.cursor.alloc(), kind, body)?;
        self.take_item(group)
    }

    /// Takes the token at the position, and what follows it as far as that belongs to it.
    fn take_token(&mut self) -> Result<(), ParseError>
        ensures value { Continues result self.new (answer_at_token self.old (place self.old.cursor)) }
        ensures progress { OnOk result (IsTrue (at_end (place self.old.cursor)) ⊎ (unread self.new.cursor < unread self.old.cursor)) }
        ensures moves { OnOk result (unread self.new.cursor ≤ unread self.old.cursor) }
    {
        let piece = self.cursor.here();
        match read_token(&mut self.cursor, self.config, self.flags)? {
            Token::End => Ok(()),
            Token::Bar => Ok(self.level.end_branch()?),
            Token::Close => self.close_group(piece.start),
            Token::Opens { kind, flags } => self.open_group(piece, kind, flags),
            Token::Directive(flags) => {
                self.flags = flags;
                Ok(())
            }
            Token::Atom(ast) => self.take_item(ast),
        }
    }

    /// Takes the next token, and what stands before it.
    fn step(&mut self) -> Result<(), ParseError>
        requires { 0 < unread self.old.cursor }
        ensures value { Continues result self.new (answer self.old) }
        ensures progress { OnOk result (unread self.new.cursor < unread self.old.cursor) }
    {
        self.cursor.skip(self.flags);
        self.take_token()
    }

    /// What was read, where the pattern ends.
    fn finish(self) -> Result<Ast, ParseError>
        requires { at_end (place self.cursor) ≡ true }
        ensures { MatchResult result (λ a. answer self.entry ≡ Ok a) (λ e. Refuses e (answer self.entry)) }
    {
        // Each part by a call (DECISIONS: large values are let go by name).
        let Parser {
            cursor,
            mut frames,
            level,
            ..
        } = self;
        drop(cursor);
        match frames.pop() {
            Some(frame) => {
                let error = frame.opening.refuse(SyntaxErrorKind::UnclosedGroup);
                drop(frame);
                drop(frames);
                drop(level);
                Err(error)
            }
            None => {
                drop(frames);
                Ok(level.whole()?)
            }
        }
    }
}

/// What a pattern reads as under a configuration, or the first refusal from left to right, with its kind and its
/// piece in bytes. An empty pattern is a tree too. `Memory` comes only where memory runs out.
///
/// The flags of the configuration stand at the start of the pattern, and `(?flags)` and `(?flags:..)` change them.
/// Each atom of the tree has the flags that stand there. Groups and repetitions nest at most as deep as the
/// configuration permits.
///
/// # Errors
///
/// `Syntax`, the first refusal, with its kind and its piece in bytes; `Memory`, where there was no memory.
pub fn read(alloc: Global, pattern: &str, config: &Config) -> Result<Ast, ParseError>
    ensures { MatchResult result (λ a. read config.now (chars pattern.now) ≡ Ok a) (λ e. Refuses e (read config.now (chars pattern.now))) }
{
    let mut parser = Parser::new(alloc, pattern, *config);
    while !parser.cursor.is_at_end() {
        // The first fault ends it (DECISIONS: the reader goes from left to right).
        if let Err(error) = parser.step() {
            drop(parser);
            return Err(error);
        }
    }
    parser.finish()
}
