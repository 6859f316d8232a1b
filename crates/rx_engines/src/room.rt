//! The room that the frames of a walk need.
ghost use Rattle.std.specs.Prelude.{◌≡◌, ◌-◌, ◌^◌, length, min};
ghost use Rattle.rx_engines.specs.Simulation.{frames_of_state, frames_of_states};

use rx_nfa::State;

/// How many frames the states leave on a stack, each state once, or the greatest `usize` where they are more.
pub fn frames_of_all(states: &[State]) -> usize
    ensures { result ≡ min (2 ^ 64 - 1) (frames_of_states states.now (length states.now)) }
{
    let mut frames: usize = 0;
    for q in 0..states.len() {
        frames = frames.saturating_add(frames_of(&states[q]));
    }
    frames
}

/// How many frames the state leaves on a stack.
fn frames_of(state: &State) -> usize
    ensures { result ≡ frames_of_state state.now }
{
    match state {
        State::Capture { .. } => 1,
        State::Union { alternates } => alternates.as_slice().len().saturating_sub(1),
        State::Look { .. }
        | State::ByteRange { .. }
        | State::Sparse { .. }
        | State::Fail
        | State::Match { .. } => 0,
    }
}
