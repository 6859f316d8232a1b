//! The numbers of states.
ghost use Rattle.std.specs.Prelude.{◌≡◌, ◌+◌, ◌%◌, ◌<◌, not, if◌then◌else◌, nat_lt, ◌==◌};
ghost use Rattle.rx_search.specs.Limits.{id_limit};
ghost use Rattle.rx_dfa.specs.Lazy.{offsets, dead_state, unknown};

use rx_search::StateID;

/// No table has more cells: what is greater has its kind in the bits from here on.
pub const OFFSETS: usize = 1 << 29;

/// The dead state.
const DEAD: usize = 2 * OFFSETS;

/// A state that was not asked for yet.
const UNKNOWN: usize = 3 * OFFSETS;

/// The number, which is one of a state.
pub fn id(value: usize) -> StateID
    requires { value < id_limit }
    ensures { result ≡ value }
{
    match StateID::new(value) {
        Some(id) => id,
        None => unreachable!(),
    }
}

/// The dead state.
pub fn dead() -> StateID
    ensures { result ≡ dead_state }
{
    id(DEAD)
}

/// What a cell holds whose state was not asked for yet.
pub fn unknown() -> StateID
    ensures { result ≡ unknown }
{
    id(UNKNOWN)
}

/// The state of the row that begins at this place, which is plain or tells a match.
pub fn numbered(place: usize, plain: bool) -> StateID
    requires { place < offsets }
    ensures { result ≡ place + (if plain then 0 else offsets) }
{
    if plain {
        return id(place);
    }
    id(place + OFFSETS)
}

/// Where the state's row begins, if it has one.
pub fn place_of(state: StateID) -> usize
    ensures { result ≡ state % offsets }
{
    state.as_usize() % OFFSETS
}

/// Whether it is that of a row and tells no match.
pub fn is_plain(state: StateID) -> bool
    ensures { result ≡ nat_lt state offsets }
{
    state.as_usize() < OFFSETS
}

/// Whether it is the dead state.
pub fn is_dead_state(state: StateID) -> bool
    ensures { result ≡ (state == dead_state) }
{
    state.as_usize() == DEAD
}

/// Whether it was asked for.
pub fn is_known(state: StateID) -> bool
    ensures { result ≡ not (state == unknown) }
{
    state.as_usize() != UNKNOWN
}
