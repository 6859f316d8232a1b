//! Whether the groups of some patterns are refused.
ghost use Rattle.std.specs.Prelude.{◌≡◌, ◌⊎◌, IfOk, MatchResult, None, Some, nat_lt, take};
ghost use Rattle.rx_search.specs.Limits.{id_limit, slot_limit};
ghost use Rattle.rx_search.specs.GroupInfo.{names_of, groups_of, fault_of, first_fault, has_duplicate, slot_count, refusal, IsFault, IsRefusal};

use crate::group_error::GroupInfoError;
use crate::primitives::PatternID;
use rx_memory::Memory;
use std::alloc::Global;
use std::collections::BTreeSet;

/// The greatest number of groups, which have at most 2147483646 slots.
const GROUP_LIMIT: usize = PatternID::LIMIT / 2;

/// Refuses the first pattern at fault, and then too many slots.
pub fn check(alloc: Global, patterns: &[Vec<Option<String>>]) -> Result<(), GroupInfoError>
    ensures { MatchResult result (λ _. refusal (groups_of patterns.now) ≡ None) (IsRefusal (groups_of patterns.now)) }
{
    check_patterns(alloc, patterns)?;
    if has_too_many(patterns) {
        return Err(GroupInfoError::TooMany);
    }
    Ok(())
}

/// Refuses the first pattern at fault. Where there are more patterns than identifiers, there are too many slots.
fn check_patterns(alloc: Global, patterns: &[Vec<Option<String>>]) -> Result<(), GroupInfoError>
    ensures { MatchResult result (λ _. first_fault 0 (take id_limit (groups_of patterns.now)) ≡ None) (IsRefusal (groups_of patterns.now)) }
{
    for (index, groups) in patterns.iter().enumerate() {
        let Some(pattern) = PatternID::new(index) else {
            return Err(GroupInfoError::TooMany);
        };
        check_pattern(alloc, pattern, groups.as_slice())?;
    }
    Ok(())
}

/// Refuses what is wrong with the groups of this pattern.
fn check_pattern(
    alloc: Global,
    pattern: PatternID,
    groups: &[Option<String>],
) -> Result<(), GroupInfoError>
    ensures { MatchResult result (λ _. fault_of pattern (names_of groups.now) ≡ None) (IsFault pattern (names_of groups.now)) }
{
    let Some((first, explicit)) = groups.split_first() else {
        return Err(GroupInfoError::MissingGroups { pattern });
    };
    if first.is_some() {
        return Err(GroupInfoError::FirstMustBeUnnamed { pattern });
    }
    if has_duplicate(alloc, explicit)? {
        return Err(GroupInfoError::Duplicate { pattern });
    }
    Ok(())
}

/// Whether a name stands twice among these groups.
fn has_duplicate(alloc: Global, groups: &[Option<String>]) -> Result<bool, Memory>
    ensures { IfOk result (λ twice. twice ≡ has_duplicate (names_of groups.now)) }
{
    let mut seen = BTreeSet::new(alloc);
    for group in groups {
        let Some(name) = group else {
            continue;
        };
        if !seen.insert(name.as_str())? {
            return Ok(true);
        }
    }
    Ok(false)
}

/// Whether the groups have more slots than a match may have.
fn has_too_many(patterns: &[Vec<Option<String>>]) -> bool
    ensures { result ≡ nat_lt slot_limit (slot_count (groups_of patterns.now)) }
{
    let mut count = 0;
    for groups in patterns {
        if groups.len() > GROUP_LIMIT - count {
            return true;
        }
        count += groups.len();
    }
    false
}
