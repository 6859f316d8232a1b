//! The bytes that can begin a run.
ghost use Rattle.std.specs.Prelude.{◌≡◌, ◌≤◌, ◌<◌, All, length, IfSome};
ghost use Rattle.rx_nfa.specs.Automaton.{NamesBelow, byte_at};
ghost use Rattle.rx_engines.specs.Candidates.{AreStartBytes, IsNext};
ghost use Rattle.rx_engines.specs.StartBytes.{has_byte};

mod mark;

use mark::mark_from;
use rx_nfa::State;
use rx_search::StateID;

// A bound on a walk that is made once (DECISIONS: the bytes that can begin a run are a set of starts).
/// At how many states the search for the set looks.
const LOOKS: usize = 1000;

/// A set of bytes, as a table of all bytes.
#[derive(Drop)]
pub struct StartBytes {
    pub has: [bool; 256],
}

impl StartBytes {
    /// The bytes that can begin a run from this state, where look-arounds are taken as passing. None where a run can be
    /// empty, and where the search for them looks at too many states.
    pub fn of(states: &[State], start: StateID) -> Option<StartBytes>
        requires start { start < length states.now }
        requires names { All (NamesBelow (length states.now)) states.now }
        ensures { IfSome result (AreStartBytes states.now start) }
    {
        let mut has = [false; 256];
        match mark_from(states, start, LOOKS, &mut has) {
            Some(_) => Some(StartBytes { has }),
            None => None,
        }
    }

    /// Whether a byte of the set stands at the place, before `end`.
    pub fn stand_at(&self, text: &[u8], end: usize, place: usize) -> bool
        requires { end ≤ length text.now }
        ensures { result ≡ has_byte self.now.has (byte_at text.now end place) }
    {
        place < end && self.has[text[place] as usize]
    }

    /// The first place from this one on at which a byte of the set stands, before `end`.
    pub fn next(&self, text: &[u8], end: usize, place: usize) -> Option<usize>
        requires { (place ≤ end) × (end ≤ length text.now) }
        ensures { IsNext (λ i. has_byte self.now.has (byte_at text.now end i)) end place result }
    {
        for at in place..end {
            if self.has[text[at] as usize] {
                return Some(at);
            }
        }
        None
    }
}
