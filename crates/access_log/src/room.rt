//! Room for one more access.

ghost use Rattle.std.specs.Prelude.{◌≡◌, ◌-◌, ◌<◌, ◌≤◌, ◌⊎◌, ℕ, List, None, is_some, length, vec_len, vec_capacity, OnOk, OnErr, if◌then◌else◌};
ghost use Rattle.topk_theory.specs.declared.access.Access.{Access as Made};
ghost use Rattle.access_log.specs.Objects.{AreObjects, HasRoom};

use super::objects::Objects;
use topk_base::{MAX_OBJECTS, Memory};
use topk_theory::Access;

/// Makes room for one more access, and for its object where that has no place yet.
pub fn make_room(
    accesses: &mut Vec<Access>,
    objects: &mut Objects,
    place: Option<u32>,
) -> Result<(), Memory>
    requires fits { place ≡ None → length objects.old.names.keys < MAX_OBJECTS }
    requires room { HasRoom objects.old }
    ensures accesses { accesses.new.items ≡ accesses.old.items }
    ensures capacity { vec_capacity accesses.old ≤ vec_capacity accesses.new }
    ensures access_room { OnOk result (vec_len accesses.new < vec_capacity accesses.new) }
    ensures object_room { OnOk result (place ≡ None → length objects.new.names.keys < objects.new.room) }
    ensures refused { OnErr result ((vec_capacity accesses.old ≤ vec_len accesses.old)
        ⊎ ((place ≡ None) × (objects.old.room ≤ length objects.old.names.keys))) }
    ensures no_less { objects.old.room ≤ objects.new.room }
    ensures room { HasRoom objects.new }
    ensures kept { (m : ℕ) (A : List Made) → AreObjects m A objects.old → AreObjects m A objects.new }
{
    let Ok(()) = accesses.reserve(1) else {
        return Err(Memory);
    };
    match place {
        Some(_) => Ok(()),
        None => objects.grow(),
    }
}

/// How many spare objects are left after an access whose object has this place.
pub fn spare_after(spare: u32, place: Option<u32>) -> u32
    ensures { result ≡ (if is_some place then spare else spare - 1) }
{
    match place {
        Some(_) => spare,
        None => spare.saturating_sub(1),
    }
}
