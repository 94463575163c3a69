//! Objects with the numbers of lists.

ghost use Rattle.std.specs.Prelude.{◌≡◌, ◌==◌, ℕ, Some, IfOk, OnOk, if◌then◌else◌};
ghost use Rattle.containers.specs.Values.{value_of};

use containers::ObjectMap;
use ranked_list::Memory;

/// Gives an object this number, and says which it had before.
pub(crate) fn mark(
    numbers: &mut ObjectMap<u8>,
    object: u32,
    number: u8,
) -> Result<Option<u8>, Memory>
    ensures tells { IfOk result (λ before. before ≡ value_of numbers.old object) }
    ensures marks { OnOk result ((other : ℕ) → value_of numbers.new other ≡ (if object == other then Some number else value_of numbers.old other)) }
{
    let Ok(()) = numbers.reach(object) else {
        return Err(Memory);
    };
    match numbers.insert(object, number) {
        Ok(before) => Ok(before),
        Err(_) => Err(Memory),
    }
}
