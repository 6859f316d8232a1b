//! Reading: the input to its end, its lines, and the syntax trees of its patterns.
ghost use Rattle.std.specs.Prelude.{◌≡◌, ◌+◌, ◌<◌, ◌≤◌, [], ◌∷◌, drop, length, map, take, vec_len, IfOk, OnErr, IsErrOf, MatchResult};
ghost use Rattle.std.specs.Io.KnownBytes.{Consumes, IsAtEnd};
ghost use Rattle.std.specs.List.{All};
ghost use Rattle.std.specs.Str.{IsUtf8};
ghost use Rattle.rx_reader.specs.Config.{default};
ghost use Rattle.rx_syntax.specs.Patterns.{all_syntaxes, RefusesAll};
ghost use Rattle.rx_scan.specs.Ends.{HasRisen, CountsCall, CountsAtMost, GivesAtMost};
ghost use Rattle.rx_scan.specs.Input.{lines, patterns, haystacks, ReadsSections};
ghost use Rattle.rx_scan.specs.declared.input.ReadError.TheVariants.{Source, Memory};

use crate::ends;
use crate::ends::Failed;
use memchr::memchr;
use rx_syntax::{Ast, Config, PatternsError, read_all};
use std::alloc::{AllocError, Global};

/// The length of the longest input.
pub const INPUT_LIMIT: usize = 16777216;

/// How many bytes are asked for at a time.
const PIECE: usize = 65536;

/// Why there is no input.
#[derive(Clone, Copy, Debug, PartialEq, Eq)]
pub enum ReadError {
    /// The source failed.
    Source,
    /// There was no memory.
    Memory,
}

impl From<AllocError> for ReadError {
    ghost from_gives = { λ _ e. e ≡ Memory };

    fn from(_error: AllocError) -> ReadError {
        ReadError::Memory
    }
}

impl From<rx_search::Memory> for ReadError {
    ghost from_gives = { λ _ e. e ≡ Memory };

    fn from(_error: rx_search::Memory) -> ReadError {
        ReadError::Memory
    }
}

impl From<Failed> for ReadError {
    ghost from_gives = { λ _ e. e ≡ Source };

    fn from(_error: Failed) -> ReadError {
        ReadError::Source
    }
}

/// Reads at most this many bytes into the front of the buffer.
///
/// # Errors
///
/// `Failed`, where the source failed; nothing was taken.
pub fn read_at_most<S: ends::Source>(
    source: &mut S,
    buf: &mut [u8],
    most: usize,
) -> Result<usize, Failed>
    ensures len { IfOk result (λ n. (n ≤ most) × (n ≤ length buf.new)) }
    ensures bytes { IfOk result (λ n. Consumes (S.left source.old) (S.left source.new) (take n buf.new)) }
    ensures end { IfOk result (λ n. n ≡ 0 → 0 < most → 0 < length buf.old → IsAtEnd (S.left source.new)) }
    ensures kept { OnErr result (Consumes (S.left source.old) (S.left source.new) []) }
    ensures counts { S.faults source.old ≤ S.faults source.new }
    ensures call { CountsCall (S.reads source.old) (S.reads source.new) }
    ensures failed { OnErr result (HasRisen (S.faults source.old) (S.faults source.new)) }
{
    let most = buf.len().min(most);
    source.read(&mut buf[..most])
}

/// Room for a piece.
fn make_piece(alloc: Global) -> Result<Vec<u8>, AllocError>
    ensures { IfOk result (λ piece. 0 < vec_len piece) }
{
    vec![in alloc; 0u8; PIECE]
}

/// The whole input, or one byte more than the limit of a longer one.
///
/// # Errors
///
/// `Source`, where the source failed; `Memory`, where there was no memory. What was read before is lost.
pub fn read_input<S: ends::Source>(alloc: Global, source: &mut S) -> Result<Vec<u8>, ReadError>
    ensures given { IfOk result (λ input. Consumes (S.left source.old) (S.left source.new) input.items) }
    ensures whole { IfOk result (λ input. vec_len input ≤ INPUT_LIMIT → IsAtEnd (S.left source.new)) }
    ensures limit { IfOk result (λ input. vec_len input ≤ INPUT_LIMIT + 1) }
    ensures failed { IsErrOf result ReadError.Source → HasRisen (S.faults source.old) (S.faults source.new) }
    ensures reads { CountsAtMost (S.reads source.old) (S.reads source.new) (INPUT_LIMIT + 1) }
    ensures takes { GivesAtMost (S.left source.old) (S.left source.new) (INPUT_LIMIT + 1) }
{
    let mut input = Vec::new(alloc);
    let mut piece = make_piece(alloc)?;
    while input.len() <= INPUT_LIMIT {
        let n = read_at_most(source, &mut piece, INPUT_LIMIT + 1 - input.len())?;
        if n == 0 {
            return Ok(input);
        }
        // The only copy of these bytes (DECISIONS: the input is copied once).
        input.extend_from_slice(&piece[..n])?;
    }
    Ok(input)
}

/// The syntax trees of the patterns, and the text of the haystacks.
///
/// # Errors
///
/// `Syntax`, the number of the first pattern that reading refuses, counted from 0, with its refusal; `Memory`, where there
/// was no memory.
pub fn read_patterns(alloc: Global, text: &str) -> Result<(Vec<Ast>, &str), PatternsError>
    ensures { MatchResult result
        (λ s. ReadsSections s.0.items s.1.now text.now)
        (λ e. RefusesAll e (all_syntaxes default (patterns (lines text.now)))) }
{
    let (patterns, haystacks) = split_patterns(alloc, text)?;
    // Reading refuses before translation does (DECISIONS: a regex's builder, and the program, read all patterns).
    let asts = read_all(alloc, &patterns, &Config::new())?;
    Ok((asts, haystacks))
}

/// The lines that are patterns, and the text of the haystacks.
fn split_patterns<'t>(
    alloc: Global,
    text: &'t str,
) -> Result<(Vec<&'t str>, &'t str), rx_search::Memory>
    ensures patterns { IfOk result (λ s. map (λ line. line.now) s.0.items ≡ patterns (lines text.now)) }
    ensures haystacks { IfOk result (λ s. lines s.1.now ≡ haystacks (lines text.now)) }
    ensures utf8 { IfOk result (λ s. All (λ line. IsUtf8 line.now) s.0.items × IsUtf8 s.1.now) }
{
    let mut patterns = Vec::new(alloc);
    let mut rest = text;
    'lines: while !rest.is_empty() {
        let (line, others) = split_line(rest);
        if line.is_empty() {
            return Ok((patterns, others));
        }
        patterns.push(line)?;
        rest = others;
    }
    Ok((patterns, rest))
}

/// The first line of a text, and what comes after its newline.
pub fn split_line(text: &str) -> (&str, &str)
    requires { 0 < length text.now }
    ensures lines { lines text.now ≡ result.0.now ∷ lines result.1.now }
    ensures line { result.0.now ≡ take (length result.0.now) text.now }
    ensures rest { result.1.now ≡ drop (length result.0.now + 1) text.now }
    ensures utf8 { IsUtf8 result.0.now × IsUtf8 result.1.now }
    ensures shorter { length result.1.now < length text.now }
{
    match memchr(b'\n', text.as_bytes()) {
        Some(at) => (&text[..at], &text[at + 1..]),
        None => (text, ""),
    }
}
