//! The whole of a call: words and input in, text and status out.
ghost use Rattle.std.specs.Prelude.{◌≡◌, ◌<◌, ◌≤◌, ◌⊎◌, ℕ, List, map, IfOk, IsErrOf, IsSome, Some, true, false};
ghost use Rattle.std.specs.String.{string_bytes};
ghost use Rattle.rx_scan.specs.Answer.{answer_input, answer_call};
ghost use Rattle.rx_scan.specs.Arguments.{HasWorkers, IsCall, call_of, is_reading};
ghost use Rattle.rx_scan.specs.Ends.{HasRisen, CountsAtMost, GivesAtMost};
ghost use Rattle.rx_scan.specs.Run.{Gave, Answers, BreaksOff, Finished};

use crate::answer::{Answer, answer_input};
use crate::arguments::{Call, Command, call_of};
use crate::ends::{Sink, Source};
use crate::generate::generate;
use crate::input::{ReadError, read_input};
use crate::output::{write_pieces, write_text};
use crate::status::{Status, code_of};
use rx_search::Gate;
use std::alloc::Global;
use std::sync::Wait;
use std::thread::Threads;

const USAGE: &str = "usage: rxscan scan [W] [off:LETTERS]\n";

/// Answers the words and the input of the source, writes the text of the answer into the sink, and returns the status.
///
/// | Status | Text | When |
/// |---|---|---|
/// | 0 | the rows of all matches, or under `explain` the name of the strategy | the input was read to its end |
/// | 0 | under `gen` what a scan finds in the haystacks that a number gives, in numbers | nothing is read |
/// | 1 | `pattern P: KIND` | pattern P is refused: the first whose reading is refused, and else the first whose translation is |
/// | 2 | the usage line | the words are not those of a command; nothing is read, and 8 never comes in its place |
/// | 3 | `input is not UTF-8 at byte N` | N is the length of the input's longest UTF-8 prefix |
/// | 4 | `input too long` | there are more than 16777216 bytes |
/// | 5 | `patterns too big` | the cost of the patterns or a count passes its limit |
/// | 6 | none | the source failed |
/// | 7 | a front of the text | the sink failed |
/// | 8 | none | there was no memory |
///
/// The whole text is made before the first write. `gate` is told of each haystack before it is searched.
///
/// # Examples
///
/// ```
/// let mut words = Vec::new(alloc);
/// words.push(String::from_str(alloc, "scan")?)?;
/// let mut source = BytesSure::new(Vec::from_slice(alloc, b"a(b)?\n\nxab\na\n")?);
/// let mut sink = KeptSure::new(alloc);
/// let status = run(&rt, alloc, &words, &mut source, &mut sink, &Open);
/// assert_eq!(rt; status, 0);
/// assert!(rt; sink.held() == Some(b"1:0:1..3 1=2..3\n2:0:0..1 1=-\n".as_slice()));
/// ```
pub fn run<R: Threads + Wait + Sync, S: Source, K: Sink, G: Gate + Sync>(
    rt: &R,
    alloc: Global,
    words: &[String],
    source: &mut S,
    sink: &mut K,
    gate: &G,
) -> u8
    ensures statuses { result ≤ 8 }

    // Status 0 to 5: it is that of the answer to the words and the bytes given, and the sink gained the answer's text and nothing else.
    ensures answered { result ≤ 5 → Answers (map string_bytes words.now) (S.left source.old) (S.left source.new)
        (K.held sink.old) (K.held sink.new) result }

    ensures source_failed { result ≡ 6 → HasRisen (S.faults source.old) (S.faults source.new)
        × (sink.new ≡ sink.old) × (is_reading (call_of (map string_bytes words.now)) ≡ true) }

    ensures sink_failed { result ≡ 7 → HasRisen (K.faults sink.old) (K.faults sink.new)
        × BreaksOff (map string_bytes words.now) (S.left source.old) (S.left source.new) (K.held sink.old) (K.held sink.new) }

    ensures out_of_memory { result ≡ 8 → (sink.new ≡ sink.old) × IsSome (call_of (map string_bytes words.now)) }

    ensures reads_nothing { is_reading (call_of (map string_bytes words.now)) ≡ false → source.new ≡ source.old }

    // One read for each byte of the longest input, and one for its end. The source gives no more than that input and one
    // byte; as it may fill each buffer, no read asks for more than what is left to that.
    ensures reads { CountsAtMost (S.reads source.old) (S.reads source.new) 16777217 }
    ensures takes { GivesAtMost (S.left source.old) (S.left source.new) 16777217 }

    // Where no end failed, the status is the answer's, or there was no memory.
    ensures complete { ¬ (HasRisen (S.faults source.old) (S.faults source.new))
        → ¬ (HasRisen (K.faults sink.old) (K.faults sink.new)) → (result ≤ 5) ⊎ (result ≡ 8) }
{
    let Some(call) = call_of(words) else {
        return finish(sink, Status::Usage, USAGE.as_bytes());
    };
    // What is written is known in whole before the first write (DECISIONS: statuses 1 to 6 are decided before anything is searched).
    match answer_call(rt, alloc, &call, source, gate) {
        Ok(answer) => finish_answer(alloc, sink, answer),
        Err(ReadError::Source) => code_of(Status::SourceFailed),
        Err(ReadError::Memory) => code_of(Status::OutOfMemory),
    }
}

/// Writes the text, and returns the status of the call: this one, or that the sink failed.
fn finish<K: Sink>(sink: &mut K, status: Status, text: &[u8]) -> u8
    ensures { Finished (record { status = status; text = text.now }) (K.held sink.old) (K.held sink.new) (K.faults sink.old) (K.faults sink.new) result }
{
    match write_text(sink, text) {
        Ok(()) => code_of(status),
        Err(_) => code_of(Status::SinkFailed),
    }
}

/// Writes the text of an answer, and returns the status of the call.
fn finish_answer<K: Sink>(alloc: Global, sink: &mut K, answer: Answer) -> u8
    ensures { Finished answer (K.held sink.old) (K.held sink.new) (K.faults sink.old) (K.faults sink.new) result }
{
    match write_pieces(alloc, sink, &answer.pieces) {
        Ok(()) => code_of(answer.status),
        Err(_) => code_of(Status::SinkFailed),
    }
}

/// Answers the call, and reads the input where it asks for one.
fn answer_call<R: Threads + Wait + Sync, S: Source, G: Gate + Sync>(
    rt: &R,
    alloc: Global,
    call: &Call,
    source: &mut S,
    gate: &G,
) -> Result<Answer, ReadError>
    requires { IsCall call.now }
    ensures answered { IfOk result (λ a. (given : List ℕ) × Gave (S.left source.old) (S.left source.new) given a.status × (a ≡ answer_call call.now given)) }
    ensures failed { IsErrOf result ReadError.Source → HasRisen (S.faults source.old) (S.faults source.new) × (is_reading (Some call.now) ≡ true) }
    ensures reads_nothing { is_reading (Some call.now) ≡ false → source.new ≡ source.old }
    ensures reads { CountsAtMost (S.reads source.old) (S.reads source.new) 16777217 }
    ensures takes { GivesAtMost (S.left source.old) (S.left source.new) 16777217 }
{
    match call {
        Call::Reading(command) => answer_source(rt, alloc, command, source, gate),
        Call::Generate(asked) => {
            let answer = generate(rt, alloc, asked, gate)?;
            Ok(answer)
        }
    }
}

/// Reads the input and answers it.
fn answer_source<R: Threads + Wait + Sync, S: Source, G: Gate + Sync>(
    rt: &R,
    alloc: Global,
    command: &Command,
    source: &mut S,
    gate: &G,
) -> Result<Answer, ReadError>
    requires { HasWorkers command.now }
    ensures answered { IfOk result (λ a. (given : List ℕ) × Gave (S.left source.old) (S.left source.new) given a.status × (a ≡ answer_input command.now given)) }
    ensures failed { IsErrOf result ReadError.Source → HasRisen (S.faults source.old) (S.faults source.new) }
    ensures reads { CountsAtMost (S.reads source.old) (S.reads source.new) 16777217 }
    ensures takes { GivesAtMost (S.left source.old) (S.left source.new) 16777217 }
{
    let input = read_input(alloc, source)?;
    let answer = answer_input(rt, alloc, command, &input, gate)?;
    Ok(answer)
}
