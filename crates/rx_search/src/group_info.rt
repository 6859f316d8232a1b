//! The groups of patterns, their names and slots.
ghost use Rattle.std.specs.Prelude.{◌≡◌, ◌+◌, ◌-◌, ◌*◌, ◌≤◌, ◌<◌, IfOk, IfSome, MatchResult, All, map, length, sum, option_map, option_copied, string_bytes, position, slice_range, MatchOption, Some, None, ◌∷◌, ◌++◌, drop};
ghost use Rattle.rx_search.specs.Limits.{slot_limit};
ghost use Rattle.rx_search.specs.GroupInfo.{names_of, groups_of, unnamed_groups, is_named, BeginsUnnamed, refusal, IsRefusal, SlotsAreWritten};
ghost use Rattle.rx_search.specs.GroupTables.{AreOf, IsRowOf};
ghost use Rattle.std.specs.Arc.{arc_value};

use crate::group_check::check;
use crate::group_error::GroupInfoError;
use crate::primitives::PatternID;
use rx_memory::Memory;
use std::alloc::Global;
use std::marker::Model;
use std::sync::Arc;

/// Where the explicit groups of one pattern lie among those of all patterns.
#[derive(Clone, Copy, Debug)]
struct Explicit {
    start: usize,
    end: usize,
}

/// The groups of all patterns in flat tables.
#[derive(Drop)]
struct Tables {
    /// For each pattern, where its explicit groups lie.
    patterns: Vec<Explicit>,
    /// The name of each explicit group, in order of pattern and group.
    names: Vec<Option<String>>,
}

/// The capturing groups of some patterns, their names and their slots.
///
/// Each pattern has an implicit group, 0, which is the whole match and has no name, and maybe explicit ones,
/// numbered from 1 on. A group has two slots, where a match leaves its start and its end: those of the implicit
/// groups come first, pattern by pattern, and then those of the explicit ones, in order of pattern and group.
#[derive(Drop)]
pub struct GroupInfo {
    tables: Arc<Tables>,
}

impl Model for GroupInfo {
    ghost use Rattle.std.specs.Prelude.{ℕ, ◌+◌, ◌*◌, ◌≤◌, List, Option, length};
    ghost use Rattle.std.specs.Arc.{arc_value};

    ghost Value = { List (List (Option (List ℕ))) };

    ghost use Rattle.rx_search.specs.GroupInfo.{names_of};
    ghost use Rattle.rx_search.specs.GroupTables.{table_groups, AreInRow};
    ghost use Rattle.rx_search.specs.Limits.{slot_limit};

    ghost view = { λ a. table_groups (names_of (arc_value a.tables).names.items) (arc_value a.tables).patterns.items };

    ghost invariant = { λ a. AreInRow 0 (arc_value a.tables).patterns.items (length (arc_value a.tables).names.items)
        × (2 * (length (arc_value a.tables).patterns.items + length (arc_value a.tables).names.items) ≤ slot_limit) };
}

impl GroupInfo {
    ghost use Rattle.rx_search.specs.GroupInfo.{groups_at, group_count, slot_count, slot_at, index_of, name_at};

    /// The groups of these patterns, by their names.
    ///
    /// Refused is the first pattern at fault, of the first 2147483647: one without groups, or else one whose first
    /// group has a name, or else one in which a name stands twice. No pattern at all is no fault. Where there is none,
    /// more than 2147483646 slots in all are refused, which more than 2147483647 patterns have. Each call may want
    /// memory.
    pub fn new(alloc: Global, groups: &[Vec<Option<String>>]) -> Result<GroupInfo, GroupInfoError>
        ensures { MatchResult result (λ info. (info ≡ groups_of groups.now) × (refusal (groups_of groups.now) ≡ None)) (IsRefusal (groups_of groups.now)) }
    {
        check(alloc, groups)?;
        let tables = named_tables(alloc, groups)?;
        let tables = Arc::new(alloc, tables)?;
        Ok(GroupInfo { tables })
    }

    /// The groups of patterns by their names, where it is known that each begins with an unnamed group and that all
    /// have slots. A name that stands twice in a pattern is that of the first group that has it.
    pub fn named(alloc: Global, groups: &[Vec<Option<String>>]) -> Result<GroupInfo, Memory>
        requires each { All BeginsUnnamed (groups_of groups.now) }
        requires few { slot_count (groups_of groups.now) ≤ slot_limit }
        ensures { IfOk result (λ info. info ≡ groups_of groups.now) }
    {
        let tables = named_tables(alloc, groups)?;
        let tables = Arc::new(alloc, tables)?;
        Ok(GroupInfo { tables })
    }

    /// The groups of patterns of which each has this number of groups, above 0, and none of them a name.
    pub fn unnamed(alloc: Global, group_lens: &[usize]) -> Result<GroupInfo, Memory>
        requires each { All (λ n. 0 < n) group_lens.now }
        requires few { 2 * sum group_lens.now ≤ slot_limit }
        ensures { IfOk result (λ info. info ≡ map unnamed_groups group_lens.now) }
    {
        let tables = unnamed_tables(alloc, group_lens)?;
        let tables = Arc::new(alloc, tables)?;
        Ok(GroupInfo { tables })
    }

    /// The number of patterns.
    pub fn pattern_len(&self) -> usize
        ensures { result ≡ length self.now }
    {
        self.tables.patterns.len()
    }

    /// The number of groups of a pattern, which is 0 where there is no such pattern.
    pub fn group_len(&self, pid: PatternID) -> usize
        ensures value { result ≡ length (groups_at self.now pid) }
        ensures implicit { pid < length self.now → 0 < result }
    {
        match self.explicit(pid) {
            None => 0,
            Some(explicit) => explicit.end - explicit.start + 1,
        }
    }

    /// The number of groups of all patterns.
    pub fn all_group_len(&self) -> usize
        ensures value { result ≡ group_count self.now }
        ensures limit { 2 * result ≤ slot_limit }
    {
        self.tables.patterns.len() + self.tables.names.len()
    }

    /// The number of slots, two for each group: at most 2147483646.
    pub fn slot_len(&self) -> usize
        ensures value { result ≡ slot_count self.now }
        ensures limit { result ≤ slot_limit }
    {
        2 * self.all_group_len()
    }

    /// The number of slots of implicit groups, two for each pattern.
    pub fn implicit_slot_len(&self) -> usize
        ensures { result ≡ 2 * length self.now }
    {
        2 * self.tables.patterns.len()
    }

    /// The number of slots of explicit groups.
    pub fn explicit_slot_len(&self) -> usize
        ensures { result ≡ slot_count self.now - 2 * length self.now }
    {
        2 * self.tables.names.len()
    }

    /// The first slot of a group, which holds its start; None exactly where there is no such group. The next slot
    /// holds its end.
    pub fn slot(&self, pid: PatternID, group: usize) -> Option<usize>
        ensures value { result ≡ slot_at self.now pid group }
        ensures limit { IfSome result (λ slot. slot + 1 < slot_count self.now) }
    {
        let explicit = self.explicit(pid)?;
        if group == 0 {
            return Some(2 * pid.as_usize());
        }
        if group > explicit.end - explicit.start {
            return None;
        }
        Some(2 * (self.pattern_len() + explicit.start + (group - 1)))
    }

    /// Both slots of a group, which hold its start and its end; None exactly where there is no such group.
    pub fn slots(&self, pid: PatternID, group: usize) -> Option<(usize, usize)>
        ensures value { result ≡ option_map (λ slot. (slot, slot + 1)) (slot_at self.now pid group) }
        ensures limit { IfSome result (λ slots. slots.1 < slot_count self.now) }
    {
        let slot = self.slot(pid, group)?;
        Some((slot, slot + 1))
    }

    /// The group of a pattern with this name; None exactly where no group of the pattern has it.
    pub fn to_index(&self, pid: PatternID, name: &str) -> Option<usize>
        ensures { result ≡ index_of self.now pid name.now }
    {
        let names = self.explicit_names(pid)?;
        let place = position_of(names, name)?;
        Some(place + 1)
    }

    /// The name of a group; None exactly where there is no such group or it has no name.
    pub fn to_name(&self, pid: PatternID, group: usize) -> Option<&str>
        ensures { option_copied result ≡ name_at self.now pid group }
    {
        let names = self.explicit_names(pid)?;
        let index = group.checked_sub(1)?;
        match names.get(index)? {
            None => None,
            Some(name) => Some(name.as_str()),
        }
    }

    /// The same groups again. They are shared, and no name is copied.
    pub fn clone(&self) -> Result<GroupInfo, Memory>
        ensures { IfOk result (λ copy. copy ≡ self.now) }
    {
        let tables = Arc::try_clone(&self.tables)?;
        Ok(GroupInfo { tables })
    }

    /// Where the explicit groups of a pattern lie.
    fn explicit(&self, pid: PatternID) -> Option<Explicit>
        ensures { MatchOption result (length self.now ≤ pid) (IsRowOf self.now pid) }
    {
        let explicit = self.tables.patterns.get(pid.as_usize())?;
        Some(*explicit)
    }

    /// The names of the explicit groups of a pattern.
    fn explicit_names(&self, pid: PatternID) -> Option<&[Option<String>]>
        ensures { MatchOption result (length self.now ≤ pid) (λ names. groups_at self.now pid ≡ None ∷ names_of names.now) }
    {
        let explicit = *self.tables.patterns.get(pid.as_usize())?;
        Some(part(self.tables.names.as_slice(), explicit))
    }
}

/// The tables of these groups, of which the first of each pattern has no name.
fn named_tables(alloc: Global, groups: &[Vec<Option<String>>]) -> Result<Tables, Memory>
    requires { All BeginsUnnamed (groups_of groups.now) }
    ensures { IfOk result (λ tables. AreOf (groups_of groups.now) tables.names.items tables.patterns.items) }
{
    let mut patterns = Vec::new(alloc);
    let mut names = Vec::new(alloc);
    for pattern in groups {
        let start = names.len();
        push_explicit(&mut names, pattern.as_slice())?;
        let end = names.len();
        patterns.push(Explicit { start, end })?;
    }
    Ok(Tables { patterns, names })
}

/// The tables of patterns with so many groups, none of them with a name.
fn unnamed_tables(alloc: Global, group_lens: &[usize]) -> Result<Tables, Memory>
    requires { All (λ n. 0 < n) group_lens.now }
    ensures { IfOk result (λ tables. AreOf (map unnamed_groups group_lens.now) tables.names.items tables.patterns.items) }
{
    let mut patterns = Vec::new(alloc);
    let mut names = Vec::new(alloc);
    for group_len in group_lens {
        let start = names.len();
        push_unnamed(&mut names, *group_len)?;
        let end = names.len();
        patterns.push(Explicit { start, end })?;
    }
    Ok(Tables { patterns, names })
}

/// Appends the names of the groups but for the first.
fn push_explicit(names: &mut Vec<Option<String>>, groups: &[Option<String>]) -> Result<(), Memory>
    ensures { IfOk result (λ _. names_of names.new.items ≡ names_of names.old.items ++ drop 1 (names_of groups.now)) }
{
    let Some((_, explicit)) = groups.split_first() else {
        return Ok(());
    };
    for group in explicit {
        names.push(copy_of(group)?)?;
    }
    Ok(())
}

/// Appends that each of so many groups but the first has no name.
fn push_unnamed(names: &mut Vec<Option<String>>, group_len: usize) -> Result<(), Memory>
    ensures { IfOk result (λ _. names_of names.new.items ≡ names_of names.old.items ++ unnamed_groups (group_len - 1)) }
{
    for _ in 1..group_len {
        names.push(None)?;
    }
    Ok(())
}

/// The same name.
fn copy_of(group: &Option<String>) -> Result<Option<String>, Memory>
    ensures { IfOk result (λ copy. option_map string_bytes copy ≡ option_map string_bytes group.now) }
{
    match group {
        None => Ok(None),
        Some(name) => Ok(Some(name.clone()?)),
    }
}

/// The names of these groups.
fn part(names: &[Option<String>], explicit: Explicit) -> &[Option<String>]
    requires ordered { explicit.start ≤ explicit.end }
    requires within { explicit.end ≤ length names.now }
    ensures { result.now ≡ slice_range names.now explicit.start explicit.end }
{
    &names[explicit.start..explicit.end]
}

/// The place of the first group with this name.
fn position_of(names: &[Option<String>], name: &str) -> Option<usize>
    ensures { result ≡ position (λ group. is_named name.now (option_map string_bytes group)) names.now }
{
    names.iter().position(|group| is_named(group, name))
}

/// Whether a group has this name.
fn is_named(group: &Option<String>, name: &str) -> bool
    ensures { result ≡ is_named name.now (option_map string_bytes group.now) }
{
    match group {
        None => false,
        Some(other) => name == other.as_str(),
    }
}

/// The explicit groups of expressions have the slots that the graphs of the expressions write.
pub fn slots_are_written()
    ensures { SlotsAreWritten }
{}
