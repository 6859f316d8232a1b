//! Values that a search fills.

use rx_search::{Captures, GroupInfo, GroupInfoError, NonMaxUsize, PatternID, PatternSet, Span};
use std::alloc::Global;
use std::test::Fail;

/// The names of two groups, of which the first has none.
fn names(alloc: Global) -> Result<Vec<Option<String>>, GroupInfoError> {
    let names = vec![in alloc; None, Some(String::from_str(alloc, "k")?)]?;
    Ok(names)
}

/// The groups of one pattern, of which group 1 is named.
fn one_named_group(alloc: Global) -> Result<GroupInfo, GroupInfoError> {
    let names = vec![in alloc; names(alloc)?]?;
    GroupInfo::new(alloc, names.as_slice())
}

/// Puts a match of the whole and of group 1 into the slots.
fn put(slots: &mut [Option<NonMaxUsize>]) {
    let places = [1, 3, 2, 3];
    for (slot, place) in slots.iter_mut().zip(places.iter()) {
        *slot = NonMaxUsize::new(*place);
    }
}

#[test]
fn captures_of_a_named_group(rt: HostRuntime) -> Result<(), Fail> {
    let alloc = rt.alloc();
    let groups = one_named_group(alloc)?;
    let mut captures = Captures::all(alloc, &groups)?;
    assert_eq!(rt; captures.slots().len(), 4);
    captures.set_pattern(Some(PatternID::ZERO));
    put(captures.slots_mut());
    let named = captures.get_group_by_name("k");
    assert_eq!(rt; named, Some(Span { start: 2, end: 3 }));
    Ok(())
}

#[test]
fn a_set_of_patterns(rt: HostRuntime) -> Result<(), Fail> {
    let alloc = rt.alloc();
    let mut set = PatternSet::new(alloc, 3)?;
    assert!(rt; set.insert(PatternID::ZERO));
    assert!(rt; !set.insert(PatternID::ZERO));
    assert_eq!(rt; (set.len(), set.capacity()), (1, 3));
    Ok(())
}
