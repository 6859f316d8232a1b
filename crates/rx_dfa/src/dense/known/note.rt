//! How states are noted, and found.
ghost use Rattle.std.specs.Prelude.{IfSome, IfNone, IfErr, OnOk, ◌≡◌};
ghost use Rattle.rx_dfa.specs.Automaton.{Dfa};
ghost use Rattle.rx_dfa.specs.StateKey.{key_of};
ghost use Rattle.rx_dfa.specs.Found.{IsNumber, IsNew, keys_in};
ghost use Rattle.rx_dfa.specs.Spread.{AreKnown, arrived_key};
ghost use Rattle.rx_dfa.specs.declared.dense.found.Found.{Found};

use crate::dense::error::BuildError;
use crate::dense::found::find::{append, position};
use crate::dense::known::Known;
use crate::state_key::StateKey;
use indexmap::IndexSet;
use rx_search::StateID;
use std::alloc::Global;

impl Known {
    /// None yet.
    pub fn new(alloc: Global) -> Known
        ensures { (d : Dfa) (f : Found) → AreKnown d f result }
    {
        let keys = IndexSet::new(alloc);
        let states = Vec::new(alloc);
        Known {
            keys,
            states,
            alloc,
        }
    }

    /// The state that these lead to, if it is known.
    pub fn state_of(&self, reached: &StateKey) -> Option<StateID>
        ensures some { (d : Dfa) (f : Found) → AreKnown d f self.now
            → IfSome result (λ n. IsNumber f n (arrived_key d.kind d.nfa.states d.nfa.start_anchored (key_of reached.now))) }
        ensures none { IfNone result (IsNew (keys_in self.now.keys.keys) (key_of reached.now)) }
    {
        let Some(row) = position(&self.keys, reached) else {
            return None;
        };
        Some(self.states[row])
    }

    /// Notes the state that these lead to, which was not known.
    pub fn note(&mut self, reached: &StateKey, state: StateID) -> Result<(), BuildError>
        requires { IsNew (keys_in self.old.keys.keys) (key_of reached.now) }
        ensures known { (d : Dfa) (f : Found) → AreKnown d f self.old
            → IsNumber f state (arrived_key d.kind d.nfa.states d.nfa.start_anchored (key_of reached.now)) → OnOk result (AreKnown d f self.new) }
        ensures err { IfErr result (λ e. e ≡ BuildError.Memory) }
    {
        self.states.reserve(1)?;
        append(self.alloc, &mut self.keys, reached)?;
        self.states.push_reserved(state);
        Ok(())
    }
}
