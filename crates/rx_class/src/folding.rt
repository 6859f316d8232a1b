//! Folding of case among scalars.
ghost use Rattle.std.specs.Prelude.{◌≡◌, ℕ, ◌∷◌, [], ◌++◌, IfOk, OnOk};
ghost use Rattle.ucd_case.specs.CaseFolding.{fold_pairs};
ghost use Rattle.rx_class.specs.Folding.{joined_to, folded};
ghost use Rattle.std.specs.Char.{IsScalar};

use crate::class::ClassUnicode;
use rx_memory::Memory;

impl ClassUnicode {
    /// The scalars that share a simple case folding with one of the class, its own among them.
    pub fn case_fold_simple(&self) -> Result<ClassUnicode, Memory>
        ensures { IfOk result (λ c. c ≡ folded self.now) }
    {
        let alloc = *self.ranges.allocator();
        let ranges = self.ranges();
        let mut folded = Vec::from_slice(alloc, ranges)?;
        for (low, high) in ranges {
            push_joined(&mut folded, *low, *high)?;
        }
        ClassUnicode::new(alloc, &folded)
    }
}

/// Adds each scalar that shares a simple case folding with another one from `low` to `high`.
fn push_joined(found: &mut Vec<(char, char)>, low: char, high: char) -> Result<(), Memory>
    ensures { OnOk result (found.new.items ≡ found.old.items ++ joined_to fold_pairs ((low, high) ∷ [])) }
{
    let pairs = ucd_case::fold_pairs();
    let first = u32::from(low);
    let start = pairs.partition_point(|pair| pair.0 < first);
    for i in start..pairs.len() {
        let (member, joined) = pairs[i];
        if u32::from(high) < member {
            return Ok(());
        }
        push_scalar(found, joined)?;
    }
    Ok(())
}

/// Adds a scalar, by its number.
fn push_scalar(found: &mut Vec<(char, char)>, code: u32) -> Result<(), Memory>
    requires { IsScalar code }
    ensures { OnOk result (found.new.items ≡ found.old.items ++ (code, code) ∷ []) }
{
    match char::from_u32(code) {
        Some(c) => found.push((c, c))?,
        None => unreachable!(),
    }
    Ok(())
}
