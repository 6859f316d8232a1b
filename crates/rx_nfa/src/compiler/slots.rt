//! Which slots the states of patterns write.
ghost use Rattle.std.specs.Prelude.{◌≡◌, ◌+◌, ◌*◌, ◌<◌, ◌≤◌, suc, length, IfSome, option_map};
ghost use Rattle.rx_model.specs.Search.{greatest_group};
ghost use Rattle.rx_search.specs.Limits.{id_limit, slot_limit};
ghost use Rattle.rx_nfa.specs.Built.{whole_slot};
ghost use Rattle.rx_nfa.specs.Compiled.{slots_of, slots_written, first_slot_of};
ghost use Rattle.rx_nfa.specs.Config.{captures_kind, written_in};

use crate::compiler::config::WhichCaptures;
use rx_hir::{Hir, greatest_group};
use rx_search::PatternID;

/// The groups that states tell: none, where they read backwards.
pub fn written_in(reverse: bool, which: WhichCaptures) -> WhichCaptures
    ensures { captures_kind result ≡ written_in reverse (captures_kind which) }
{
    if reverse { WhichCaptures::None } else { which }
}

/// How many of the first slots the states may write, where there are so many slots.
pub fn slots_written(which: WhichCaptures, exprs: &[Hir], slot_len: usize) -> usize
    requires few { length exprs.now ≤ id_limit }
    requires slots { slot_len ≡ slots_of exprs.now }
    ensures { result ≡ slots_written (captures_kind which) exprs.now }
{
    match which {
        WhichCaptures::All => slot_len,
        WhichCaptures::Implicit => 2 * exprs.len(),
        WhichCaptures::None => 0,
    }
}

/// The first slot of the whole match of a pattern, if it is told.
pub fn whole_slot(which: WhichCaptures, pattern: PatternID) -> Option<usize>
    ensures { result ≡ whole_slot (captures_kind which) pattern }
{
    match which {
        WhichCaptures::All => Some(2 * pattern.as_usize()),
        WhichCaptures::Implicit => Some(2 * pattern.as_usize()),
        WhichCaptures::None => None,
    }
}

/// The first slot of the groups that the first pattern names, if they are told.
pub fn first_slot(which: WhichCaptures, exprs: &[Hir]) -> Option<usize>
    requires { length exprs.now ≤ id_limit }
    ensures { result ≡ first_slot_of (captures_kind which) exprs.now 0 }
{
    match which {
        WhichCaptures::All => Some(2 * exprs.len()),
        WhichCaptures::Implicit => None,
        WhichCaptures::None => None,
    }
}

/// The first slot of the groups that the pattern after this one names.
pub fn slot_after(first_slot: Option<usize>, hir: &Hir) -> Option<usize>
    requires { IfSome first_slot (λ first. first + 2 * greatest_group hir.now ≤ slot_limit) }
    ensures { result ≡ option_map (λ first. first + 2 * greatest_group hir.now) first_slot }
{
    match first_slot {
        Some(first) => Some(first + 2 * greatest_group(hir)),
        None => None,
    }
}

/// The second slot of a group.
pub fn second_slot(slot: Option<usize>) -> Option<usize>
    requires { IfSome slot (λ first. first < slot_limit) }
    ensures { result ≡ option_map suc slot }
{
    match slot {
        Some(first) => Some(first + 1),
        None => None,
    }
}
