//! Lists of states without repetition.
ghost use Rattle.std.specs.Prelude.{◌≡◌, ℕ, ◌<◌, ◌∷◌, ◌++◌, [], false, not, length, All, IfOk, IsTrue, slice_index_or, if◌then◌else◌};
ghost use Rattle.rx_nfa.specs.Ordered.{has};

use rx_search::{Memory, StateID};
use std::alloc::Global;

/// States in the order in which they came, each once.
#[derive(Drop)]
pub struct StateList {
    pub items: Vec<StateID>,
    /// Which states are on the list.
    marks: Vec<bool>,
    ghost marked: { (q : ℕ) → q < length marks.items → slice_index_or marks.items q false ≡ has items.items q },
    ghost below: { All (λ q. q < length marks.items) items.items },
}

impl StateList {
    /// An empty list, for states below `room`.
    pub fn new(alloc: Global, room: usize) -> Result<StateList, Memory>
        ensures room { IfOk result (λ list. length list.marks.items ≡ room) }
        ensures empty { IfOk result (λ list. list.items.items ≡ []) }
    {
        let marks = vec![in alloc; false; room]?;
        Ok(StateList {
            items: Vec::new(alloc),
            marks,
        })
    }

    /// Below which number its states are.
    pub fn room(&self) -> usize
        ensures { result ≡ length self.now.marks.items }
    {
        self.marks.len()
    }

    /// Empties the list.
    pub fn clear(&mut self)
        ensures empty { self.new.items.items ≡ [] }
        ensures room { length self.new.marks.items ≡ length self.old.marks.items }
    {
        unmark(self.items.as_slice(), self.marks.as_mut_slice());
        self.items.clear();
    }

    /// Appends the state, if it is new, and tells whether it was.
    pub fn insert(&mut self, state: StateID) -> Result<bool, Memory>
        requires { state < length self.old.marks.items }
        ensures new { IfOk result (λ new. new ≡ not (has self.old.items.items state)) }
        ensures items { IfOk result (λ new. self.new.items.items ≡ (if new then self.old.items.items ++ state ∷ [] else self.old.items.items)) }
        ensures room { length self.new.marks.items ≡ length self.old.marks.items }
    {
        let index = state.as_usize();
        if self.marks[index] {
            return Ok(false);
        }
        self.items.push(state)?;
        self.marks[index] = true;
        Ok(true)
    }
}

/// Takes the marks off these states.
fn unmark(items: &[StateID], marks: &mut [bool])
    requires { All (λ q. q < length marks.old) items.now }
    ensures { (q : ℕ) → slice_index_or marks.new q false ≡ (if has items.now q then false else slice_index_or marks.old q false) }
{
    for state in items {
        marks[state.as_usize()] = false;
    }
}
