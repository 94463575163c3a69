//! Sets of objects.

ghost use Rattle.std.specs.Prelude.{◌≡◌, ◌==◌, ℕ, true, not, nat_eq, IfOk, OnOk, if◌then◌else◌};
ghost use Rattle.std.specs.HashSet.{contains};

use super::Memory;
use std::collections::HashSet;

/// Puts an object into a set, and says whether it is new there.
pub(crate) fn put(set: &mut HashSet<u32>, object: u32) -> Result<bool, Memory>
    ensures tells { IfOk result (λ new. new ≡ not (contains nat_eq set.old object)) }
    ensures adds { OnOk result ((other : ℕ) → contains nat_eq set.new other ≡ (if object == other then true else contains nat_eq set.old other)) }
{
    match set.insert(object) {
        Ok(new) => Ok(new),
        Err(_) => Err(Memory),
    }
}
