//! Room for an NFA.
ghost use Rattle.std.specs.Prelude.{◌≡◌, IfOk};
ghost use Rattle.rx_dfa.specs.Scratch.{room_of};

use crate::close::Walk;
use crate::scratch::Scratch;
use crate::state_list::StateList;
use rx_search::Memory;
use std::alloc::Global;

impl Scratch {
    /// For an NFA of so many states.
    pub fn new(alloc: Global, states: usize) -> Result<Scratch, Memory>
        ensures { IfOk result (λ s. room_of s ≡ states) }
    {
        Ok(Scratch {
            walk: Walk {
                stack: Vec::new(alloc),
                seen: StateList::new(alloc, states)?,
            },
            threads: Vec::new(alloc),
            reached: Vec::new(alloc),
        })
    }
    /// For how many states it is.
    pub fn room(&self) -> usize
        ensures { result ≡ room_of self.now }
    {
        self.walk.seen.room()
    }
}
