//! The look-arounds of states.
ghost use Rattle.std.specs.Prelude.{◌≡◌, ◌||◌};
ghost use Rattle.std.specs.List.{list_any};
ghost use Rattle.rx_model.specs.Look as model;
ghost use Rattle.rx_search.specs.LookSet.{has};
ghost use Rattle.rx_nfa.specs.Automaton.{asks_for};

use crate::State;
use rx_search::LookSet;

/// The kinds of look-around that the states ask for.
pub fn looks_of(states: &[State]) -> LookSet
    ensures { (kind : model.Look) → has result kind ≡ list_any (asks_for kind) states.now }
{
    let mut looks = LookSet::empty();
    for state in states {
        looks = with_asked(looks, state);
    }
    looks
}

/// The set with the kind that the state asks for, if it asks for one.
fn with_asked(looks: LookSet, state: &State) -> LookSet
    ensures { (kind : model.Look) → has result kind ≡ (has looks kind || asks_for kind state.now) }
{
    match state {
        State::Look { look, .. } => looks.insert(*look),
        _ => looks,
    }
}
