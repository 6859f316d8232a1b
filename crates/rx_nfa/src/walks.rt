//! A law of epsilon walks.

ghost use Rattle.std.specs.Prelude.{ℕ, ◌<◌, List, length};
ghost use Rattle.rx_nfa.specs.Nfa.{Nfa, IsInRange};
ghost use Rattle.rx_nfa.specs.Walks.{WalksTo};

/// A walk that begins at a state of the NFA leads to one that is there too.
pub fn a_walk_leads_to_a_state()
    ensures { (nfa : Nfa) → IsInRange nfa → (q : ℕ) (way : List ℕ) (r : ℕ) → q < length nfa.states → WalksTo nfa.states q way r → r < length nfa.states }
{}
