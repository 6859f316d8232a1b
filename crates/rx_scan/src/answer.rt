//! The answer to an input.
ghost use Rattle.std.specs.Prelude.{◌≡◌, ◌<◌, ℕ, [], length, Result, Ok, IfOk, MatchResult, List};
ghost use Rattle.rx_model.specs.Expression.{Expression};
ghost use Rattle.rx_meta.specs.Build.{IsBuilt};
ghost use Rattle.rx_reader.specs.Config.{default};
ghost use Rattle.rx_syntax.specs.Patterns.{Refusal, RefusesAll, all_translated};
ghost use Rattle.rx_syntax.specs.Weight.{AreWeightsOf};
ghost use Rattle.rx_scan.specs.declared.arguments.Command.{Command};
ghost use Rattle.rx_scan.specs.declared.arguments.Command.TheVariants.{Scanning, Explain};
ghost use Rattle.rx_scan.specs.Arguments.{HasWorkers, switched_off, config_without};
ghost use Rattle.rx_scan.specs.Answer.{too_long, not_utf8, refused, too_big, all_rows, explained, answer_patterns, answer_text, answer_input};
ghost use Rattle.rx_scan.specs.Input.{lines};
ghost use Rattle.rx_scan.specs.Patterns.{MeanUtf8, StandForUtf8};

use crate::arguments::{Command, Off, Scan};
use crate::haystacks::scan_for;
use crate::input::{INPUT_LIMIT, read_patterns};
use crate::lines::Lines;
use crate::outcome::RowsText;
use crate::size::are_small;
use crate::status::Status;
use rx_gen::push_number;
use rx_hir::Hir;
use rx_meta::{BuildError, Builder, Regex};
use rx_search::{Gate, Memory};
use rx_syntax::{Ast, Config, PatternsError, SyntaxErrorKind, Weights, translate_all, weigh_all};
use std::alloc::Global;
use std::marker::Model;
use std::str;
use std::sync::Wait;
use std::thread::Threads;

/// A status and the text that goes with it.
#[derive(Drop)]
pub struct Answer {
    /// The status of the call.
    pub status: Status,
    /// What is written, in bytes: one piece after another (DECISIONS: the text of a scan stays in pieces).
    pub pieces: Vec<Vec<u8>>,
}

impl Model for Answer {
    ghost use Rattle.std.specs.List.{flat_map};
    ghost use Rattle.std.specs.Vec.{vec_items};
    ghost use Rattle.rx_scan.specs.Answer.{AnswerValue};

    ghost Value = { AnswerValue };

    ghost view = { λ a. record { status = a.status; text = flat_map vec_items a.pieces.items } };
}

impl Answer {
    /// The answer with a text that is in one piece.
    ///
    /// # Errors
    ///
    /// `Memory`, where there was no memory.
    pub fn new(alloc: Global, status: Status, text: Vec<u8>) -> Result<Answer, Memory>
        ensures { IfOk result (λ a. a ≡ record { status = status; text = text.items }) }
    {
        let mut pieces = Vec::new(alloc);
        pieces.push(text)?;
        Ok(Answer { status, pieces })
    }
}

/// The answer to an input. `gate` is told of each haystack before it is searched.
///
/// # Errors
///
/// `Memory`, where there was no memory.
pub fn answer_input<R: Threads + Wait + Sync, G: Gate + Sync>(
    rt: &R,
    alloc: Global,
    command: &Command,
    input: &[u8],
    gate: &G,
) -> Result<Answer, Memory>
    requires { HasWorkers command.now }
    ensures { IfOk result (λ a. a ≡ answer_input command.now input.now) }
{
    // The first cause in this order decides (DECISIONS: where causes stand together).
    if input.len() > INPUT_LIMIT {
        return too_long(alloc);
    }
    match simdutf8::from_utf8_baseline(input) {
        Ok(text) => answer_text(rt, alloc, command, text, gate),
        Err(error) => not_utf8(alloc, error.valid_up_to()),
    }
}

/// The answer to a text that is not too long.
fn answer_text<R: Threads + Wait + Sync, G: Gate + Sync>(
    rt: &R,
    alloc: Global,
    command: &Command,
    text: &str,
    gate: &G,
) -> Result<Answer, Memory>
    requires { HasWorkers command.now }
    ensures { IfOk result (λ a. a ≡ answer_text command.now text.now) }
{
    match read_patterns(alloc, text) {
        Ok((asts, haystacks)) => answer_read(rt, alloc, command, asts, haystacks, gate),
        Err(error) => refusal(alloc, error),
    }
}

/// The answer to the syntax trees of the patterns and the text of the haystacks. The patterns are weighed before an
/// expression is made of one.
fn answer_read<R: Threads + Wait + Sync, G: Gate + Sync>(
    rt: &R,
    alloc: Global,
    command: &Command,
    asts: Vec<Ast>,
    haystacks: &str,
    gate: &G,
) -> Result<Answer, Memory>
    requires workers { HasWorkers command.now }
    requires utf8 { StandForUtf8 asts.items }
    ensures { IfOk result (λ a. a ≡ answer_patterns command.now (all_translated default asts.items) (lines haystacks.now)) }
{
    // What passes a limit is refused before an expression is made (DECISIONS: `run` weighs before it translates).
    match weigh_all(alloc, &asts, &Config::new()) {
        Ok(weights) => answer_weighed(rt, alloc, command, asts, weights, haystacks, gate),
        Err(error) => refusal(alloc, error),
    }
}

/// The same, where they weigh this.
fn answer_weighed<R: Threads + Wait + Sync, G: Gate + Sync>(
    rt: &R,
    alloc: Global,
    command: &Command,
    asts: Vec<Ast>,
    weights: Weights,
    haystacks: &str,
    gate: &G,
) -> Result<Answer, Memory>
    requires workers { HasWorkers command.now }
    requires utf8 { StandForUtf8 asts.items }
    requires weights { AreWeightsOf (all_translated default asts.items) (length asts.items) weights }
    ensures { IfOk result (λ a. a ≡ answer_patterns command.now (all_translated default asts.items) (lines haystacks.now)) }
{
    if !are_small(asts.len(), weights) {
        return too_big(alloc);
    }
    match translate_last(alloc, asts) {
        Ok(expressions) => answer_patterns(rt, alloc, command, &expressions, haystacks, gate),
        Err(error) => refusal(alloc, error),
    }
}

/// The expressions of the syntax trees, which are let go.
fn translate_last(alloc: Global, asts: Vec<Ast>) -> Result<Vec<Hir>, PatternsError>
    ensures { MatchResult result
        (λ exprs. all_translated default asts.items ≡ Ok exprs.items)
        (λ e. RefusesAll e (all_translated default asts.items)) }
{
    translate_all(alloc, &asts, &Config::new())
}

/// What is answered where a pattern is refused, or where there is no memory.
fn refusal(alloc: Global, error: PatternsError) -> Result<Answer, Memory>
    ensures { (command : Command) (r : Result (List Expression) Refusal) (texts : List (List ℕ)) → RefusesAll error r → IfOk result (λ a. a ≡ answer_patterns command r texts) }
{
    match error {
        PatternsError::Syntax { pattern, error } => refused(alloc, pattern, error.kind),
        PatternsError::Memory => Err(Memory),
    }
}

/// The answer to the expressions of the patterns and the text of the haystacks.
fn answer_patterns<R: Threads + Wait + Sync, G: Gate + Sync>(
    rt: &R,
    alloc: Global,
    command: &Command,
    expressions: &[Hir],
    haystacks: &str,
    gate: &G,
) -> Result<Answer, Memory>
    requires workers { HasWorkers command.now }
    requires utf8 { MeanUtf8 expressions.now }
    ensures { IfOk result (λ a. a ≡ answer_patterns command.now (Ok expressions.now) (lines haystacks.now)) }
{
    // No pattern is read twice (DECISIONS: `run` reads the patterns itself and builds the regex from their expressions).
    match command {
        Command::Scanning(asked) => answer_scan(rt, alloc, asked, expressions, haystacks, gate),
        Command::Explain => answer_explain(alloc, expressions),
    }
}

/// The answer of a scan to the expressions of the patterns and the text of the haystacks.
fn answer_scan<R: Threads + Wait + Sync, G: Gate + Sync>(
    rt: &R,
    alloc: Global,
    asked: &Scan,
    expressions: &[Hir],
    haystacks: &str,
    gate: &G,
) -> Result<Answer, Memory>
    requires workers { 0 < asked.now.workers }
    requires utf8 { MeanUtf8 expressions.now }
    ensures { IfOk result (λ a. a ≡ answer_patterns (Scanning asked.now) (Ok expressions.now) (lines haystacks.now)) }
{
    match builder_without(&asked.off).build_many_from_hir(alloc, expressions) {
        Ok(regex) => all_rows(rt, alloc, asked, &regex, haystacks, gate),
        Err(BuildError::NFA(_)) => too_big(alloc),
        Err(_) => Err(Memory),
    }
}

/// The answer to what explains the search for the expressions.
fn answer_explain(alloc: Global, expressions: &[Hir]) -> Result<Answer, Memory>
    ensures { (texts : List (List ℕ)) → IfOk result (λ a. a ≡ answer_patterns Explain (Ok expressions.now) texts) }
{
    match builder_without(&Off::NOTHING).build_many_from_hir(alloc, expressions) {
        Ok(regex) => explained(alloc, &regex),
        Err(BuildError::NFA(_)) => too_big(alloc),
        Err(_) => Err(Memory),
    }
}

/// The name of the regex's strategy.
fn explained(alloc: Global, regex: &Regex) -> Result<Answer, Memory>
    ensures { (hs : List Expression) → IsBuilt (config_without (switched_off [])) hs regex.now → IfOk result (λ a. a ≡ explained hs) }
{
    let mut text = Vec::from_slice(alloc, b"strategy ")?;
    text.extend_from_slice(regex.strategy_name().as_bytes())?;
    text.extend_from_slice(b"\n")?;
    Answer::new(alloc, Status::Rows, text)
}

/// A builder of regexes that do without these.
fn builder_without(off: &Off) -> Builder
    ensures { result.config ≡ config_without off.now }
{
    let mut builder = Regex::builder();
    builder.configure(off.config());
    builder
}

/// The rows of the regex's matches in each line of the haystacks.
fn all_rows<R: Threads + Wait + Sync, G: Gate + Sync>(
    rt: &R,
    alloc: Global,
    asked: &Scan,
    regex: &Regex,
    haystacks: &str,
    gate: &G,
) -> Result<Answer, Memory>
    requires { 0 < asked.now.workers }
    ensures { (hs : List Expression) → IsBuilt (config_without asked.now.off) hs regex.now → MeanUtf8 hs
        → IfOk result (λ a. a ≡ all_rows hs (lines haystacks.now)) }
{
    let haystacks = Lines::new(rt, alloc, haystacks, asked.workers)?;
    // The workers print what they find (DECISIONS: one scan for rows, their text and their numbers).
    let pieces = scan_for(rt, alloc, regex, &haystacks, asked.workers, gate, &RowsText)?;
    Ok(Answer {
        status: Status::Rows,
        pieces,
    })
}

/// This pattern is refused.
fn refused(alloc: Global, pattern: usize, kind: SyntaxErrorKind) -> Result<Answer, Memory>
    ensures { IfOk result (λ a. a ≡ refused pattern kind) }
{
    let mut text = Vec::from_slice(alloc, b"pattern ")?;
    push_number(&mut text, pattern)?;
    text.extend_from_slice(b": ")?;
    text.extend_from_slice(kind.to_string(alloc)?.as_bytes())?;
    text.extend_from_slice(b"\n")?;
    Answer::new(alloc, Status::Pattern, text)
}

fn too_big(alloc: Global) -> Result<Answer, Memory>
    ensures { IfOk result (λ a. a ≡ too_big) }
{
    let text = Vec::from_slice(alloc, b"patterns too big\n")?;
    Answer::new(alloc, Status::TooBig, text)
}

fn too_long(alloc: Global) -> Result<Answer, Memory>
    ensures { IfOk result (λ a. a ≡ too_long) }
{
    let text = Vec::from_slice(alloc, b"input too long\n")?;
    Answer::new(alloc, Status::TooLong, text)
}

/// The longest UTF-8 prefix of the input has this length.
fn not_utf8(alloc: Global, valid_up_to: usize) -> Result<Answer, Memory>
    ensures { IfOk result (λ a. a ≡ not_utf8 valid_up_to) }
{
    let mut text = Vec::from_slice(alloc, b"input is not UTF-8 at byte ")?;
    push_number(&mut text, valid_up_to)?;
    text.extend_from_slice(b"\n")?;
    Answer::new(alloc, Status::NotUtf8, text)
}
