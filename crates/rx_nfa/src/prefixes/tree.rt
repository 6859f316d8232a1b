//! Prefix trees of words.
ghost use Rattle.std.specs.Prelude.{◌≡◌, ◌<◌, ◌≤◌, ◌+◌, ◌-◌, ◌++◌, ℕ, List, [], ◌∷◌, length, map, take, drop, All, IfOk, OnOk};
ghost use Rattle.std.specs.Vec.{vec_items};
ghost use Rattle.rx_nfa.specs.Prefixes.{IsBranch, IsWord, rests};
ghost use Rattle.rx_nfa.specs.Trees.{IsTree, IsTargetOf, Grown, ReadsByTree, LeadsByTree};

use crate::class::row::{add_target, reader};
use crate::state::{Alternates, State};
use rx_search::{Memory, StateID};
use std::alloc::{AllocError, AllocFailed, Global};

/// How many bytes there are.
const BYTES: usize = 256;

/// How many bytes deep words share states at most.
pub const LEVELS: usize = 64;

/// The states of a tree in the making. They are to stand from `low` on, there is room for so many of them, and they lead to
/// the state `next`.
#[derive(Drop)]
pub struct Tree {
    pub low: usize,
    pub room: usize,
    pub next: StateID,
    pub states: Vec<State>,
}

/// Why there is no tree.
#[derive(Clone, Copy, Debug, PartialEq, Eq)]
pub enum NoTree {
    /// It has more states than there is room for.
    Full,
    /// There was no memory.
    Memory,
}

impl From<Memory> for NoTree {
    fn from(_error: Memory) -> NoTree {
        NoTree::Memory
    }
}

impl From<AllocError> for NoTree {
    fn from(_error: AllocError) -> NoTree {
        NoTree::Memory
    }
}

impl<T: Drop> From<AllocFailed<T>> for NoTree {
    fn from(_error: AllocFailed<T>) -> NoTree {
        NoTree::Memory
    }
}

impl Tree {
    /// No states yet.
    pub fn new(alloc: Global, low: usize, room: usize, next: StateID) -> Tree
        ensures low { result.low ≡ low }
        ensures room { result.room ≡ room }
        ensures next { result.next ≡ next }
        ensures states { result.states.items ≡ [] }
    {
        Tree {
            low,
            room,
            next,
            states: Vec::new(alloc),
        }
    }

    /// Appends a state, and answers the number that it is to have.
    fn push(&mut self, state: State) -> Result<StateID, NoTree>
        requires tree { IsTree self.old }
        requires branch { IsBranch (IsTargetOf self.old) state }
        ensures tree { OnOk result (IsTree self.new) }
        ensures grown { OnOk result (Grown self.old self.new) }
        ensures id { IfOk result (λ id. id ≡ self.old.low + length self.old.states.items) }
        ensures states { OnOk result (self.new.states.items ≡ self.old.states.items ++ state ∷ []) }
    {
        if self.states.len() >= self.room {
            return Err(NoTree::Full);
        }
        let id = StateID::new(self.low + self.states.len()).unwrap();
        self.states.push(state)?;
        Ok(id)
    }
}

/// The states that read the words, in the order of preference. Words share the states of their first bytes, but for the last
/// byte of a word, and so many levels deep.
#[cycle(sides)]
pub fn sides(
    alloc: Global,
    tree: &mut Tree,
    words: &[Vec<u8>],
    levels: usize,
) -> Result<Vec<StateID>, NoTree>
    requires tree { IsTree tree.old }
    requires words { All IsWord (map vec_items words.now) }
    ensures tree { OnOk result (IsTree tree.new) }
    ensures grown { OnOk result (Grown tree.old tree.new) }
    ensures reads { IfOk result (λ starts. ReadsByTree tree.new starts.items (map vec_items words.now)) }
{
    let mut starts = Vec::new(alloc);
    let mut from = 0;
    for last in 0..words.len() {
        from = end_chunk(alloc, tree, words, levels, from, last, &mut starts)?;
    }
    chunk(alloc, tree, &words[from..], levels, &mut starts)?;
    Ok(starts)
}

/// Where this word has one byte, appends to `starts` the states that read the words from `from` on up to it. Answers from
/// where on words are left.
#[cycle(sides)]
fn end_chunk(
    alloc: Global,
    tree: &mut Tree,
    words: &[Vec<u8>],
    levels: usize,
    from: usize,
    last: usize,
    starts: &mut Vec<StateID>,
) -> Result<usize, NoTree>
    requires tree { IsTree tree.old }
    requires words { All IsWord (map vec_items words.now) }
    requires upto { from ≤ last }
    requires inside { last < length words.now }
    requires long { All (λ w. 1 < length (vec_items w)) (take (last - from) (drop from words.now)) }
    ensures tree { OnOk result (IsTree tree.new) }
    ensures grown { OnOk result (Grown tree.old tree.new) }
    ensures reads { IfOk result (λ next. ReadsByTree tree.old starts.old.items (map vec_items (take from words.now))
        → ReadsByTree tree.new starts.new.items (map vec_items (take next words.now))) }
    ensures upto { IfOk result (λ next. next ≤ last + 1) }
    ensures long { IfOk result (λ next. All (λ w. 1 < length (vec_items w)) (take (last + 1 - next) (drop next words.now))) }
{
    if words[last].len() > 1 {
        return Ok(from);
    }
    chunk(alloc, tree, &words[from..last], levels, starts)?;
    chunk(alloc, tree, &words[last..last + 1], 0, starts)?;
    Ok(last + 1)
}

/// Appends to `starts` the states that read these words: a chain for each where no levels are left.
#[cycle(sides)]
fn chunk(
    alloc: Global,
    tree: &mut Tree,
    words: &[Vec<u8>],
    levels: usize,
    starts: &mut Vec<StateID>,
) -> Result<(), NoTree>
    requires tree { IsTree tree.old }
    requires words { All IsWord (map vec_items words.now) }
    requires long { 0 < levels → All (λ w. 1 < length w) (map vec_items words.now) }
    ensures tree { OnOk result (IsTree tree.new) }
    ensures grown { OnOk result (Grown tree.old tree.new) }
    ensures reads { OnOk result ((before : List (List ℕ)) → ReadsByTree tree.old starts.old.items before
        → ReadsByTree tree.new starts.new.items (before ++ map vec_items words.now)) }
{
    if words.len() > 1 && levels > 0 {
        let start = branches(alloc, tree, words, levels - 1)?;
        starts.push(start)?;
        return Ok(());
    }
    for word in words {
        let start = chain(tree, word)?;
        starts.push(start)?;
    }
    Ok(())
}

/// The state that reads the first byte of one of the words, and goes on by those that begin with it.
#[cycle(sides)]
fn branches(
    alloc: Global,
    tree: &mut Tree,
    words: &[Vec<u8>],
    levels: usize,
) -> Result<StateID, NoTree>
    requires tree { IsTree tree.old }
    requires words { All IsWord (map vec_items words.now) }
    requires long { All (λ w. 1 < length w) (map vec_items words.now) }
    ensures tree { OnOk result (IsTree tree.new) }
    ensures grown { OnOk result (Grown tree.old tree.new) }
    ensures reads { IfOk result (λ start. ReadsByTree tree.new (start ∷ []) (map vec_items words.now)) }
{
    let mut row = Vec::new(alloc);
    for byte in 0..BYTES {
        let left = rests_of(alloc, words, byte as u8)?;
        let target = branch(alloc, tree, &left, levels)?;
        add_target(&mut row, byte as u8, target)?;
    }
    let start = tree.push(reader(row))?;
    Ok(start)
}

/// The state that reads these words, if there are any.
#[cycle(sides)]
fn branch(
    alloc: Global,
    tree: &mut Tree,
    words: &[Vec<u8>],
    levels: usize,
) -> Result<Option<StateID>, NoTree>
    requires tree { IsTree tree.old }
    requires words { All IsWord (map vec_items words.now) }
    ensures tree { OnOk result (IsTree tree.new) }
    ensures grown { OnOk result (Grown tree.old tree.new) }
    ensures reads { IfOk result (λ target. LeadsByTree tree.new target (map vec_items words.now)) }
{
    if words.len() == 0 {
        return Ok(None);
    }
    let starts = sides(alloc, tree, words, levels)?;
    let start = join(tree, starts)?;
    Ok(Some(start))
}

/// The only one of these states, or a choice between them.
fn join(tree: &mut Tree, starts: Vec<StateID>) -> Result<StateID, NoTree>
    requires tree { IsTree tree.old }
    requires inside { All (IsTargetOf tree.old) starts.items }
    ensures tree { OnOk result (IsTree tree.new) }
    ensures grown { OnOk result (Grown tree.old tree.new) }
    ensures reads { IfOk result (λ start. (words : List (List ℕ)) → All IsWord words → ReadsByTree tree.old starts.items words
        → ReadsByTree tree.new (start ∷ []) words) }
{
    if starts.len() == 1 {
        return Ok(starts[0]);
    }
    let start = tree.push(State::Union {
        alternates: Alternates::new(starts),
    })?;
    Ok(start)
}

/// The state that reads the word: a state for each byte, the last one first.
fn chain(tree: &mut Tree, word: &[u8]) -> Result<StateID, NoTree>
    requires tree { IsTree tree.old }
    ensures tree { OnOk result (IsTree tree.new) }
    ensures grown { OnOk result (Grown tree.old tree.new) }
    ensures reads { IfOk result (λ start. ReadsByTree tree.new (start ∷ []) (word.now ∷ [])) }
{
    let mut start = tree.next;
    let mut left = word.len();
    while left > 0 {
        left -= 1;
        start = tree.push(State::ByteRange {
            start: word[left],
            end: word[left],
            next: start,
        })?;
    }
    Ok(start)
}

/// What is left of the words that begin with the byte.
fn rests_of(alloc: Global, words: &[Vec<u8>], byte: u8) -> Result<Vec<Vec<u8>>, Memory>
    ensures { IfOk result (λ left. map vec_items left.items ≡ rests byte (map vec_items words.now)) }
{
    let mut left = Vec::new(alloc);
    for word in words {
        if let [first, rest @ ..] = word.as_slice() {
            if *first == byte {
                left.push(Vec::from_slice(alloc, rest)?)?;
            }
        }
    }
    Ok(left)
}
