//! What a walk over the states does next.
ghost use Rattle.std.specs.Prelude.{◌≡◌};
ghost use Rattle.rx_engines.specs.Onward.{onto};

use rx_search::StateID;

/// What a walk over the states does after a look at one.
#[derive(Clone, Copy)]
pub enum Onward<T> {
    /// It stops at the state, which tells this.
    Stop(T),
    /// It goes on to this state at this place.
    To { state: StateID, place: usize },
    /// No way leads on, and it comes back to what it left.
    Back,
}

impl<T> Onward<T> {
    /// On to the state at the place, if there is one.
    pub fn to(next: Option<StateID>, place: usize) -> Onward<T>
        ensures { result ≡ onto next place }
    {
        match next {
            Some(state) => Onward::To { state, place },
            None => Onward::Back,
        }
    }
}
