//! The words of the command line.
ghost use Rattle.std.specs.Prelude.{◌≡◌, ◌<◌, ◌≤◌, ◌^◌, ◌∷◌, [], Some, None, codes, map, IfSome, if◌then◌else◌};
ghost use Rattle.std.specs.String.{string_bytes};
ghost use Rattle.rx_scan.specs.declared.arguments.Command.TheVariants.{Explain};
ghost use Rattle.rx_scan.specs.Arguments.{HasWorkers, IsGenerating, IsCall, call_of, generating_of, asked_for, has_none, command_of, options_of, workers_of, off_of, are_letters, is_letter, has, switched_off, config_without};
ghost use Rattle.rx_gen.specs.Numbers.{number_up_to};

use rx_gen::number_up_to;
use rx_meta::Config;

/// What a scan is to do without. None of it changes a row.
#[derive(Clone, Copy, Debug, PartialEq, Eq)]
pub struct Off {
    /// The full DFA: `d`.
    pub dfa: bool,
    /// The lazy DFA: `h`.
    pub hybrid: bool,
    /// The one-pass DFA: `o`.
    pub onepass: bool,
    /// The backtracker: `b`.
    pub backtrack: bool,
    /// Automatic prefilters: `p`.
    pub auto_prefilter: bool,
}

/// A scan that is asked for.
#[derive(Clone, Copy, Debug, PartialEq, Eq)]
pub struct Scan {
    /// How many workers it has.
    pub workers: usize,
    /// What is switched off.
    pub off: Off,
}

/// What the words ask for.
#[derive(Clone, Copy, Debug, PartialEq, Eq)]
pub enum Command {
    /// The rows of all matches.
    Scanning(Scan),
    /// The name of the strategy that would find them.
    Explain,
}

/// Haystacks that are asked for.
#[derive(Clone, Copy, Debug, PartialEq, Eq)]
pub struct Generating {
    /// What they are drawn from.
    pub seed: u32,
    /// How many there are.
    pub count: usize,
    /// How many workers search them.
    pub workers: usize,
}

/// What the words ask for, with an input or without.
#[derive(Clone, Copy, Debug, PartialEq, Eq)]
pub enum Call {
    /// A command over the input.
    Reading(Command),
    /// Haystacks that a number gives, and what a scan of them finds. No input is read.
    Generate(Generating),
}

impl Off {
    /// Nothing is switched off.
    pub const NOTHING: Off = Off {
        dfa: false,
        hybrid: false,
        onepass: false,
        backtrack: false,
        auto_prefilter: false,
    };

    /// The configuration of a regex without these.
    pub fn config(&self) -> Config
        ensures { result ≡ config_without self.now }
    {
        // It changes how a regex searches, and no row (DECISIONS: what a scan is to do without is the configuration of its regex).
        Config::new()
            .auto_prefilter(!self.auto_prefilter)
            .backtrack(!self.backtrack)
            .dfa(!self.dfa)
            .hybrid(!self.hybrid)
            .onepass(!self.onepass)
    }
}

/// The number of workers where the words name none.
const WORKERS: usize = 4;

/// The greatest number of workers.
const WORKERS_LIMIT: usize = 64;

/// The greatest seed.
const SEED_LIMIT: usize = u32::MAX as usize;

/// The most haystacks that may be generated.
const COUNT_LIMIT: usize = 1000000;

/// What the words ask for: `gen`, then a seed, a number of haystacks, and the number of workers, which may be left out; or a
/// command over the input. None where they are neither.
pub fn call_of(words: &[String]) -> Option<Call>
    ensures value { result ≡ call_of (map string_bytes words.now) }
    ensures within { IfSome result IsCall }
{
    let (name, options) = words.split_first()?;
    if name.as_str() == "gen" {
        return Some(Call::Generate(generating_of(options)?));
    }
    Some(Call::Reading(command_of(words)?))
}

/// What the options of `gen` ask for.
fn generating_of(options: &[String]) -> Option<Generating>
    ensures value { result ≡ generating_of (map string_bytes options.now) }
    ensures within { IfSome result IsGenerating }
{
    match options {
        [seed, count] => asked_for(WORKERS, seed.as_str(), count.as_str()),
        [seed, count, workers] => {
            let workers = workers_of(workers.as_str())?;
            asked_for(workers, seed.as_str(), count.as_str())
        }
        _ => None,
    }
}

/// The same with this number of workers.
fn asked_for(workers: usize, seed: &str, count: &str) -> Option<Generating>
    requires { 0 < workers }
    ensures value { result ≡ asked_for (Some workers) (number_up_to 4294967295 seed.now) (number_up_to 1000000 count.now) }
    ensures within { IfSome result IsGenerating }
{
    let seed = number_up_to(SEED_LIMIT, seed)?;
    let count = number_up_to(COUNT_LIMIT, count)?;
    Some(Generating {
        seed: seed as u32,
        count,
        workers,
    })
}

/// What the words ask for of an input: `explain` alone; or `scan`, then the number of workers, then what is switched off, of
/// which both may be left out. None where they are not those of a command.
pub fn command_of(words: &[String]) -> Option<Command>
    ensures value { result ≡ command_of (map string_bytes words.now) }
    ensures workers { IfSome result HasWorkers }
{
    let (name, options) = words.split_first()?;
    if name.as_str() == "scan" {
        return Some(Command::Scanning(options_of(options)?));
    }
    if name.as_str() == "explain" {
        return explain_of(options);
    }
    None
}

/// What explains a search, which has no options.
fn explain_of(options: &[String]) -> Option<Command>
    ensures value { result ≡ (if has_none (map string_bytes options.now) then Some Explain else None) }
    ensures workers { IfSome result HasWorkers }
{
    match options {
        [] => Some(Command::Explain),
        _ => None,
    }
}

/// What the options of a scan ask for.
fn options_of(options: &[String]) -> Option<Scan>
    ensures value { result ≡ options_of (map string_bytes options.now) }
    ensures workers { IfSome result (λ scan. 0 < scan.workers) }
{
    match options {
        [] => Some(Scan {
            workers: WORKERS,
            off: Off::NOTHING,
        }),
        [option] => one_option(option.as_str()),
        [workers, off] => Some(Scan {
            workers: workers_of(workers.as_str())?,
            off: off_of(off.as_bytes())?,
        }),
        _ => None,
    }
}

/// The same where there is one option.
fn one_option(option: &str) -> Option<Scan>
    ensures value { result ≡ options_of (option.now ∷ []) }
    ensures workers { IfSome result (λ scan. 0 < scan.workers) }
{
    if let Some(workers) = workers_of(option) {
        return Some(Scan {
            workers,
            off: Off::NOTHING,
        });
    }
    let off = off_of(option.as_bytes())?;
    Some(Scan {
        workers: WORKERS,
        off,
    })
}

/// The number of workers: 1 to 64, in decimal, without a sign or a leading zero.
fn workers_of(word: &str) -> Option<usize>
    ensures value { result ≡ workers_of word.now }
    ensures above { IfSome result (λ n. 0 < n) }
{
    let workers = number_up_to(WORKERS_LIMIT, word)?;
    if workers == 0 {
        return None;
    }
    Some(workers)
}

/// What is switched off: `off:`, and one to five of the letters `dhobp`, each at most once.
fn off_of(word: &[u8]) -> Option<Off>
    ensures { result ≡ off_of word.now }
{
    let letters = word.strip_prefix(b"off:")?;
    if letters.is_empty() || !are_letters(letters) {
        return None;
    }
    Some(Off {
        dfa: letters.contains(&b'd'),
        hybrid: letters.contains(&b'h'),
        onepass: letters.contains(&b'o'),
        backtrack: letters.contains(&b'b'),
        auto_prefilter: letters.contains(&b'p'),
    })
}

/// Each is one of the letters, and none comes twice.
fn are_letters(bytes: &[u8]) -> bool
    ensures { result ≡ are_letters bytes.now }
{
    match bytes.split_first() {
        None => true,
        Some((first, others)) => {
            is_letter(*first) && !others.contains(first) && are_letters(others)
        }
    }
}

/// Full DFA, lazy DFA, one-pass, backtracker, automatic prefilters.
fn is_letter(byte: u8) -> bool
    ensures { result ≡ is_letter byte }
{
    matches!(byte, b'd' | b'h' | b'o' | b'b' | b'p')
}
