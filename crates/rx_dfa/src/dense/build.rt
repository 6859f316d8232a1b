//! How the full DFA is built.
ghost use Rattle.std.specs.Prelude.{◌≡◌, ◌+◌, ◌*◌, ◌++◌, ◌<◌, ◌≤◌, ◌^◌, length, map, IfOk, IfErr, OnOk};
ghost use Rattle.std.specs.Vec.{vec_items};
ghost use Rattle.rx_search.specs.ByteClasses.{alphabet_len, IsLeastPower};
ghost use Rattle.rx_dfa.specs.Automaton.{Dfa};
ghost use Rattle.rx_dfa.specs.Alphabet.{IsAlphabetOf, dfa_of};
ghost use Rattle.rx_dfa.specs.Numbers.{settled};
ghost use Rattle.rx_dfa.specs.Table.{IsRow, AreRows, AreStarts, IsDense};
ghost use Rattle.rx_dfa.specs.DenseView.{value_of};
ghost use Rattle.rx_dfa.specs.Found.{AreFound, Grows, IsMade, keys_in, plain_keys, special_keys};
ghost use Rattle.rx_dfa.specs.Job.{dfa_in, IsServed, IsJob};
ghost use Rattle.rx_dfa.specs.Work.{AreDrawn};
ghost use Rattle.rx_dfa.specs.Dense.{IsDfaOf, IsFullTable, IsNoTable};

use crate::alphabet::Alphabet;
use crate::dense::Dense;
use crate::dense::error::BuildError;
use crate::dense::found::Found;
use crate::dense::job::Job;
use crate::dense::numbers::settle;
use crate::dense::rows::{Cells, Desk, fill};
use crate::dense::starts::starts_of;
use crate::determinize::Source;
use crate::state_key::StateKey;
use rx_nfa::NFA;
use rx_search::{ByteClasses, MatchKind, Memory, PatternID, StateID};
use std::alloc::Global;
use std::snapshot::Snapshot;

impl Dense {
    /// The full DFA of the NFA, which reports matches of this kind: with starts for each mode, and for each pattern. Bytes that
    /// the NFA does not tell apart share a column, or each byte has one of its own. Its rows are those of all states, and their
    /// size is within the limit.
    ///
    /// # Errors
    ///
    /// `TooBig` once the states that were made so far have a size above the limit: it has that size, and that of the whole table is
    /// above the limit too. `Memory` also where there are more states than numbers of states.
    pub fn build_from_nfa(
        alloc: Global,
        nfa: NFA,
        kind: MatchKind,
        byte_classes: bool,
        limit: Option<usize>,
    ) -> Result<Dense, BuildError>
        ensures dfa { IfOk result (λ d. IsDfaOf nfa kind byte_classes d.dfa) }
        ensures full { IfOk result (IsFullTable limit) }
        ensures err { IfErr result (IsNoTable nfa kind byte_classes limit) }
    {
        let parts = parts_of(alloc, &nfa, kind, byte_classes, limit)?;
        Ok(Dense {
            nfa,
            kind,
            alphabet: parts.alphabet,
            stride2: parts.stride2,
            table: parts.table,
            dead: parts.dead,
            starts: parts.starts,
            matches: parts.matches,
            found: parts.found,
        })
    }
}

/// What a full DFA has beside the NFA.
#[derive(Drop)]
struct Parts {
    alphabet: Alphabet,
    stride2: usize,
    table: Vec<StateID>,
    dead: StateID,
    starts: Vec<StateID>,
    matches: Vec<Vec<PatternID>>,
    found: Snapshot<Found>,
}

/// What the full DFA of the NFA has beside it.
fn parts_of(
    alloc: Global,
    nfa: &NFA,
    kind: MatchKind,
    byte_classes: bool,
    limit: Option<usize>,
) -> Result<Parts, BuildError>
    ensures dense { IfOk result (λ p. IsDense (value_of nfa.now kind p.alphabet p.stride2 p.table.items p.dead p.starts.items
        (map vec_items p.matches.items) p.found.value)) }
    ensures dfa { IfOk result (λ p. IsDfaOf nfa.now kind byte_classes (dfa_of nfa.now kind p.alphabet)) }
    ensures full { IfOk result (λ p. IsFullTable limit (value_of nfa.now kind p.alphabet p.stride2 p.table.items p.dead p.starts.items
        (map vec_items p.matches.items) p.found.value)) }
    ensures err { IfErr result (IsNoTable nfa.now kind byte_classes limit) }
{
    let alphabet = Alphabet::new(alloc, nfa, byte_classes)?;
    // That its parts fit together is what this call ensures.
    let _states = nfa.states_len();
    let stride2 = stride2_of(&alphabet.classes);
    let stride = stride_of(stride2);
    let mut found = Found::new(alloc, stride, limit)?;
    let laid = lay(alloc, nfa, kind, &alphabet, &mut found)?;
    Ok(Parts {
        alphabet,
        stride2,
        table: laid.table,
        dead: laid.dead,
        starts: laid.starts,
        matches: laid.matches,
        found: Snapshot::of(&found),
    })
}

/// The table and the starts, the dead state and the patterns that match.
#[derive(Drop)]
struct Laid {
    table: Vec<StateID>,
    starts: Vec<StateID>,
    dead: StateID,
    matches: Vec<Vec<PatternID>>,
}

/// Makes the table of this NFA's DFA, with all states that it leads to.
fn lay(
    alloc: Global,
    nfa: &NFA,
    kind: MatchKind,
    alphabet: &Alphabet,
    found: &mut Found,
) -> Result<Laid, BuildError>
    requires served { IsServed (dfa_of nfa.now kind alphabet.now) alphabet.now.words }
    requires wide { length alphabet.now.bytes.items < found.old.stride }
    requires found { AreFound (dfa_of nfa.now kind alphabet.now) found.old }
    ensures grows { Grows found.old found.new }
    ensures made { IsMade (dfa_of nfa.now kind alphabet.now) found.old found.new
        (λ laid. AreDrawn (dfa_of nfa.now kind alphabet.now) found.new laid.table.items laid.starts.items) result }
    ensures dead { IfOk result (λ laid. laid.dead ≡ length (plain_keys found.new) * found.new.stride) }
    ensures matches { IfOk result (λ laid. map vec_items laid.matches.items ≡ map (λ k. k.matches.items) found.new.special.keys) }
{
    let drawn = draw(alloc, nfa, kind, alphabet, found)?;
    let Drawn { table, starts } = drawn;
    let matches = matches_of(alloc, found.special.as_slice())?;
    let plain = found.plain.len();
    let Some(dead) = StateID::new(plain * found.stride) else {
        return Err(BuildError::Memory);
    };
    Ok(Laid {
        table,
        starts,
        dead,
        matches,
    })
}

/// How many cells a row has: 2 to this power.
fn stride2_of(classes: &ByteClasses) -> usize
    ensures power { IsLeastPower (alphabet_len classes.now) result }
    ensures small { result ≤ 9 }
{
    // That there are at most 257 is what this call ensures.
    let _len = classes.alphabet_len();
    classes.stride2()
}

/// How many cells a row has.
fn stride_of(stride2: usize) -> usize
    requires { stride2 ≤ 9 }
    ensures power { result ≡ 2 ^ stride2 }
    ensures some { 0 < result }
    ensures narrow { result ≤ 512 }
{
    1 << stride2
}

/// The table and the starts.
#[derive(Drop)]
struct Drawn {
    table: Vec<StateID>,
    starts: Vec<StateID>,
}

/// The table and the starts of this NFA's DFA.
fn draw(
    alloc: Global,
    nfa: &NFA,
    kind: MatchKind,
    alphabet: &Alphabet,
    found: &mut Found,
) -> Result<Drawn, BuildError>
    requires served { IsServed (dfa_of nfa.now kind alphabet.now) alphabet.now.words }
    requires wide { length alphabet.now.bytes.items < found.old.stride }
    requires found { AreFound (dfa_of nfa.now kind alphabet.now) found.old }
    ensures grows { Grows found.old found.new }
    ensures made { IsMade (dfa_of nfa.now kind alphabet.now) found.old found.new
        (λ drawn. AreDrawn (dfa_of nfa.now kind alphabet.now) found.new drawn.table.items drawn.starts.items) result }
{
    let job = Job {
        nfa,
        source: Source {
            states: nfa.states(),
            start: nfa.start_anchored(),
            matcher: *nfa.look_matcher(),
            reverse: nfa.is_reverse(),
            kind,
        },
        alphabet,
    };
    draw_all(alloc, &job, found)
}

/// The table and the starts, with all states that they lead to.
fn draw_all(alloc: Global, job: &Job<'_>, found: &mut Found) -> Result<Drawn, BuildError>
    requires job { IsJob job.now }
    requires wide { length job.now.alphabet.now.bytes.items < found.old.stride }
    requires found { AreFound (dfa_in job.now) found.old }
    ensures grows { Grows found.old found.new }
    ensures made { IsMade (dfa_in job.now) found.old found.new (λ drawn. AreDrawn (dfa_in job.now) found.new drawn.table.items drawn.starts.items) result }
{
    let mut desk = Desk::new(alloc, job.source.states.len())?;
    let mut cells = Cells::new(alloc);
    let starts = starts_of(alloc, job, &mut desk, found)?;
    fill(job, &mut desk, found, &mut cells)?;
    settle_all(alloc, starts.as_slice(), &cells)
}

/// The table of these cells and the starts, with the numbers that states have at the end.
fn settle_all(alloc: Global, starts: &[StateID], cells: &Cells) -> Result<Drawn, BuildError>
    ensures table { IfOk result (λ drawn. drawn.table.items ≡ map (settled (length cells.now.plain.items)) cells.now.plain.items ++ map
        (settled (length cells.now.plain.items)) cells.now.special.items) }
    ensures starts { IfOk result (λ drawn. drawn.starts.items ≡ map (settled (length cells.now.plain.items)) starts.now) }
    ensures err { IfErr result (λ e. e ≡ BuildError.Memory) }
{
    let first = cells.plain.len();
    let mut table = Vec::new(alloc);
    push_settled(cells.plain.as_slice(), first, &mut table)?;
    push_settled(cells.special.as_slice(), first, &mut table)?;
    let mut settled = Vec::new(alloc);
    push_settled(starts, first, &mut settled)?;
    Ok(Drawn {
        table,
        starts: settled,
    })
}

/// Appends the states with the numbers that they have at the end.
fn push_settled(states: &[StateID], first: usize, into: &mut Vec<StateID>) -> Result<(), BuildError>
    requires { first < 2 ^ 63 }
    ensures settled { OnOk result (into.new.items ≡ into.old.items ++ map (settled first) states.now) }
    ensures err { IfErr result (λ e. e ≡ BuildError.Memory) }
{
    for state in states {
        let Some(settled) = settle(*state, first) else {
            return Err(BuildError::Memory);
        };
        into.push(settled)?;
    }
    Ok(())
}

/// The patterns that match, of each of these keys.
fn matches_of(alloc: Global, keys: &[StateKey]) -> Result<Vec<Vec<PatternID>>, Memory>
    ensures { IfOk result (λ lists. map vec_items lists.items ≡ map (λ k. k.matches.items) keys.now) }
{
    let mut lists = Vec::new(alloc);
    for key in keys {
        let patterns = Vec::from_slice(alloc, key.matches.as_slice())?;
        lists.push(patterns)?;
    }
    Ok(lists)
}
