//! The groups of patterns.
ghost use Rattle.std.specs.Prelude.{◌≡◌, IfOk};
ghost use Rattle.rx_nfa.specs.Compiled.{AreFew, groups_of};

use rx_hir::{Hir, group_names};
use rx_search::{GroupInfo, Memory};
use std::alloc::Global;

// Also those that are not told (DECISIONS: an NFA's `GroupInfo` has for each pattern the groups from 0).
/// The whole match and the groups up to the greatest one, of each pattern, with their names.
pub fn group_info(alloc: Global, exprs: &[Hir]) -> Result<GroupInfo, Memory>
    requires { AreFew exprs.now }
    ensures { IfOk result (λ info. info ≡ groups_of exprs.now) }
{
    let mut groups = Vec::new(alloc);
    for hir in exprs {
        let names = group_names(alloc, hir)?;
        groups.push(names)?;
    }
    let info = GroupInfo::named(alloc, &groups)?;
    Ok(info)
}
