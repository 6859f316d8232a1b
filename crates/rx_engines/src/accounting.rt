//! The bytes that are accounted for a cache.
ghost use Rattle.std.specs.Prelude.{◌≡◌};
ghost use Rattle.rx_engines.specs.Engine.{accounted_memory};

use rx_nfa::NFA;

/// The bytes that are accounted for a slot.
const SLOT_SIZE: usize = 16;

/// What is accounted for a cache of this NFA.
pub fn memory_of(nfa: &NFA) -> usize
    ensures { result ≡ accounted_memory nfa.now }
{
    (SLOT_SIZE * nfa.accounted_states()).saturating_mul(nfa.slot_len())
}
