//! Objects, each where it comes first.

ghost use Rattle.std.specs.Prelude.{◌≡◌, ◌==◌, [], ◌∷◌, ◌++◌, OnOk, if◌then◌else◌};
ghost use Rattle.std.specs.List.{list_any};

use super::Memory;

/// Adds an object, unless it is there.
pub fn add_object(objects: &mut Vec<u32>, object: u32) -> Result<(), Memory>
    ensures { OnOk result (objects.new.items
        ≡ (if list_any (λ other. other == object) objects.old.items then objects.old.items else objects.old.items ++ object ∷ [])) }
{
    if objects.contains(&object) {
        return Ok(());
    }
    objects.push(object)?;
    Ok(())
}
