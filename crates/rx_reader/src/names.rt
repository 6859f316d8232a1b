//! The names of a pattern's groups.
ghost use Rattle.std.specs.Prelude.{◌≡◌, not, [], bytes_eq, if◌then◌else◌, IfOk};
ghost use Rattle.std.specs.List.{list_any};
ghost use Rattle.std.specs.Ordering.{nat_cmp};
ghost use Rattle.std.specs.BTreeSet.{insert_key};
ghost use Rattle.std.specs.Cmp.Lexicographic.{slice_cmp};

use std::alloc::{AllocError, Global};
use std::collections::BTreeSet;
use std::marker::Model;

/// Names, which a contract sees as their list in ascending order.
#[derive(Drop)]
pub(crate) struct Names {
    keys: BTreeSet<Vec<char>>,
}

impl Model for Names {
    ghost use Rattle.std.specs.Prelude.{List, ℕ, map, vec_items};

    ghost Value = { List (List ℕ) };

    ghost view = { λ n. map vec_items n.keys.keys };
}

impl Names {
    pub(crate) fn new(alloc: Global) -> Names
        ensures { result ≡ [] }
    {
        Names {
            keys: BTreeSet::new(alloc),
        }
    }

    /// Adds a name, and tells whether it wasn't there.
    pub(crate) fn insert(&mut self, alloc: Global, name: &[char]) -> Result<bool, AllocError>
        ensures fresh { IfOk result (λ fresh. fresh ≡ not (list_any (bytes_eq name.now) self.old)) }
        ensures names { IfOk result (λ _. self.new ≡ insert_key (slice_cmp nat_cmp) self.old name.now) }
    {
        Ok(self.keys.insert(name.to_vec(alloc)?)?)
    }
}
