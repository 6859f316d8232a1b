//! The lists as chains.
ghost use Rattle.std.specs.Prelude.{◌≡◌, ℕ, ◌<◌, ◌==◌, List, [], ◌∷◌, ◌++◌, length, IfOk, OnOk, if◌then◌else◌, slice_index};
ghost use Rattle.rx_dfa.specs.ClassLists.{AreLists, class_count};

use crate::dense::class_lists::ClassLists;
use rx_search::{Memory, StateID};
use std::alloc::Global;

impl ClassLists {
    /// An empty list for each of so many classes.
    pub fn new(alloc: Global, classes: usize) -> Result<ClassLists, Memory>
        ensures count { IfOk result (λ l. class_count l ≡ classes) }
        ensures lists { IfOk result (λ l. AreLists l (λ class. [])) }
    {
        let heads = vec![in alloc; 0usize; classes]?;
        Ok(ClassLists {
            heads,
            states: Vec::new(alloc),
            links: Vec::new(alloc),
        })
    }

    /// Empties all lists.
    pub fn clear(&mut self)
        ensures count { class_count self.new ≡ class_count self.old }
        ensures lists { AreLists self.new (λ class. []) }
    {
        self.states.clear();
        self.links.clear();
        zero(self.heads.as_mut_slice());
    }

    /// Puts the state before those of the class.
    pub fn put(&mut self, class: usize, state: StateID) -> Result<(), Memory>
        requires { class < class_count self.old }
        ensures count { class_count self.new ≡ class_count self.old }
        ensures lists { OnOk result ((lists : ℕ → List ℕ) → AreLists self.old lists
            → AreLists self.new (λ c. if c == class then state ∷ lists c else lists c)) }
    {
        self.states.reserve(1)?;
        self.links.reserve(1)?;
        let link = self.heads[class];
        self.states.push_reserved(state);
        self.links.push_reserved(link);
        self.heads[class] = self.states.len();
        Ok(())
    }

    /// Appends the states of the class to these.
    pub fn append(&self, class: usize, into: &mut Vec<StateID>) -> Result<(), Memory>
        requires class { class < class_count self.now }
        requires lists { (lists : ℕ → List ℕ) × AreLists self.now lists }
        ensures { OnOk result ((lists : ℕ → List ℕ) → AreLists self.now lists → into.new.items ≡ into.old.items ++ lists class) }
    {
        let mut limit = self.heads[class];
        'chain: while limit > 0 {
            let place = limit - 1;
            into.push(self.states[place])?;
            limit = self.links[place];
        }
        Ok(())
    }
}

/// Makes these numbers 0.
fn zero(numbers: &mut [usize])
    ensures { (k : ℕ) → slice_index numbers.new k ≡ 0 }
{
    for k in 0..numbers.len() {
        numbers[k] = 0;
    }
}
