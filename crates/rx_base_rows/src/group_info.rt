//! Tests of the groups of patterns.

use rx_search::*;
use std::alloc::{AllocError, Global};

/// The name of a group, of which an empty text has none.
fn name_of(alloc: Global, name: &str) -> Result<Option<String>, AllocError> {
    if name.is_empty() {
        return Ok(None);
    }
    Ok(Some(String::from_str(alloc, name)?))
}

/// The groups of one pattern, in which an empty text stands for a group without a name.
fn pattern_of(alloc: Global, names: &[&str]) -> Result<Vec<Option<String>>, AllocError> {
    let mut groups = Vec::new(alloc);
    for name in names {
        groups.push(name_of(alloc, name)?)?;
    }
    Ok(groups)
}

/// The groups of these patterns.
fn groups_of(alloc: Global, patterns: &[&[&str]]) -> Result<Vec<Vec<Option<String>>>, AllocError> {
    let mut all = Vec::new(alloc);
    for names in patterns {
        all.push(pattern_of(alloc, names)?)?;
    }
    Ok(all)
}

/// What is known of the groups of these patterns.
pub(crate) fn info_of(alloc: Global, patterns: &[&[&str]]) -> Result<GroupInfo, GroupInfoError> {
    let groups = groups_of(alloc, patterns)?;
    GroupInfo::new(alloc, groups.as_slice())
}

/// Of one pattern, whose last group is named `k`: whether its groups, their names and their numbers are right.
fn has_one_pattern(info: &GroupInfo) -> bool {
    let pid = PatternID::ZERO;
    let sizes = (info.slot_len(), info.all_group_len(), info.pattern_len());
    let numbers = [
        info.to_index(pid, "k"),
        info.to_index(pid, "j"),
        info.to_index(PatternID::MAX, "k"),
    ];
    let names = (
        info.to_name(pid, 0),
        info.to_name(pid, 1),
        info.to_name(pid, 2),
    );
    (sizes, numbers) == ((4, 2, 1), [Some(1), None, None]) && names == (None, Some("k"), None)
}

/// The same of a copy.
fn copy_has_one_pattern(info: &GroupInfo) -> bool {
    match info.clone() {
        Ok(copy) => has_one_pattern(&copy),
        Err(_) => false,
    }
}

/// The same of what is known of these patterns, and of a copy of it.
fn have_one_pattern(alloc: Global, patterns: &[&[&str]]) -> bool {
    match info_of(alloc, patterns) {
        Ok(info) => has_one_pattern(&info) && copy_has_one_pattern(&info),
        Err(_) => false,
    }
}

#[test]
fn groups_of_one_pattern(rt: HostRuntime) {
    assert!(rt; have_one_pattern(rt.alloc(), &[&["", "k"]]));
}

/// Of two patterns, with three groups and with two: the slots, those of whole matches and the others; the groups of both patterns and of
/// one that is not there; the slots of some groups, of which the second pattern has no third.
#[derive(Clone, Copy, PartialEq, Eq)]
struct Facts {
    sizes: [usize; 3],
    lens: [usize; 3],
    slots: [Option<(usize, usize)>; 3],
    firsts: [Option<usize>; 2],
}

fn told(info: &GroupInfo, second: PatternID) -> Facts {
    let first = PatternID::ZERO;
    Facts {
        sizes: [
            info.slot_len(),
            info.implicit_slot_len(),
            info.explicit_slot_len(),
        ],
        lens: [
            info.group_len(first),
            info.group_len(second),
            info.group_len(PatternID::MAX),
        ],
        slots: [
            info.slots(first, 0),
            info.slots(second, 0),
            info.slots(first, 2),
        ],
        firsts: [info.slot(second, 1), info.slot(second, 2)],
    }
}

const OF_TWO: Facts = Facts {
    sizes: [10, 4, 6],
    lens: [3, 2, 0],
    slots: [Some((0, 1)), Some((2, 3)), Some((6, 7))],
    firsts: [Some(8), None],
};

/// What is told of the groups, and the number of the group `a` of the second pattern.
fn told_of(info: Result<GroupInfo, GroupInfoError>) -> Option<(Facts, Option<usize>)> {
    let second = PatternID::new(1)?;
    match info {
        Ok(info) => Some((told(&info, second), info.to_index(second, "a"))),
        Err(_) => None,
    }
}

/// The same of groups without names.
fn told_of_unnamed(alloc: Global) -> Option<(Facts, Option<usize>)> {
    match GroupInfo::unnamed(alloc, &[3, 2]) {
        Ok(info) => told_of(Ok(info)),
        Err(_) => None,
    }
}

#[test]
fn slots_of_two_patterns(rt: HostRuntime) {
    let alloc = rt.alloc();
    let named = info_of(alloc, &[&["", "a", ""], &["", "a"]]);
    assert!(rt; told_of(named) == Some((OF_TWO, Some(1))));
    assert!(rt; told_of_unnamed(alloc) == Some((OF_TWO, None)));
}

/// What refuses the groups of these patterns.
fn refusal(alloc: Global, patterns: &[&[&str]]) -> Option<GroupInfoError> {
    info_of(alloc, patterns).err()
}

#[test]
fn groups_that_are_refused(rt: HostRuntime) {
    let alloc = rt.alloc();
    let pattern = PatternID::new(1).unwrap_or(PatternID::ZERO);
    let refusals = [
        refusal(alloc, &[&[""], &[]]),
        refusal(alloc, &[&[""], &["a", "b", "b"], &[]]),
        refusal(alloc, &[&["", "a"], &["", "a", "", "a"], &[]]),
        refusal(alloc, &[]),
    ];
    let wanted = [
        Some(GroupInfoError::MissingGroups { pattern }),
        Some(GroupInfoError::FirstMustBeUnnamed { pattern }),
        Some(GroupInfoError::Duplicate { pattern }),
        None,
    ];
    assert!(rt; refusals == wanted);
}
