//! What is accounted for an NFA before it is built.
ghost use Rattle.std.specs.Prelude.{◌≡◌, ◌+◌, ◌*◌, ◌^◌, length, min};
ghost use Rattle.rx_model.specs.Search.{groups_before};
ghost use Rattle.rx_hir.specs.Cost.{capped};
ghost use Rattle.rx_nfa.specs.Compiled.{slots_of, nfa_states};

use rx_hir::{Hir, accounted_states, greatest_group};

// Whichever groups are told (DECISIONS: `TooManyGroups` counts two slots for each group).
/// How many slots a match has: two for each pattern, and two for each group that one names. At most `usize::MAX`.
pub fn slot_len(exprs: &[Hir]) -> usize
    ensures { result ≡ capped (slots_of exprs.now) }
{
    let mut groups = exprs.len();
    for hir in exprs {
        groups = groups.saturating_add(greatest_group(hir));
    }
    groups.saturating_mul(2)
}

/// How many states are accounted for the NFA. At most `usize::MAX`.
pub fn nfa_states(exprs: &[Hir]) -> usize
    ensures { result ≡ capped (nfa_states exprs.now) }
{
    let mut states: u64 = 0;
    for hir in exprs {
        states = states.saturating_add(accounted_states(hir));
        states = states.saturating_add(3);
    }
    states.saturating_add(4) as usize
}
