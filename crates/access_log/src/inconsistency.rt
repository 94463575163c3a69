//! The first kind of inconsistency of one access more.

ghost use Rattle.std.specs.Prelude.{◌≡◌, ◌<◌, ◌≤◌, ◌&&◌, List, length, is_none, nat_le, nat_eq, position, IfSome};
ghost use Rattle.topk_theory.specs.declared.access.Access.{Access as Made};
ghost use Rattle.topk_theory.specs.Transcript.{object_of, named_objects};
ghost use Rattle.topk_theory.specs.Consistent.{SomeAgrees};
ghost use Rattle.access_log.specs.RecordsKept.{AreEndsOf};
ghost use Rattle.access_log.specs.Objects.{AreObjects};
ghost use Rattle.access_log.specs.FirstKind.{IsFirstOf};

use super::ends::Ends;
use super::kinds::{ABOVE_TOP, NO_SUCH_LIST, TOO_MANY_OBJECTS, first_of_random, first_of_sorted};
use super::objects::Objects;
use topk_base::{MAX_LISTS, TOP_GRADE};
use topk_theory::Access;

/// Whether an object without a place is one more than there may be, where `len` have one.
fn is_too_many(place: Option<u32>, count: u32, len: usize) -> bool
    ensures { result ≡ (is_none place && nat_le count len) }
{
    place.is_none() && count as usize <= len
}

/// The number of the first kind of inconsistency of an access, whose object has this place.
pub fn first_kind(
    lists: u8,
    count: u32,
    objects: &Objects,
    ends: &Ends,
    place: Option<u32>,
    access: Access,
) -> Option<u8>
    requires few { lists ≤ MAX_LISTS }
    requires place { IfSome place (λ at. at < length objects.now.records.items) }
    requires heaps { length objects.now.ahead.heaps.items ≡ lists }
    ensures { (A : List Made) → SomeAgrees lists count A → AreObjects lists A objects.now
        → AreEndsOf lists A ends.now → place ≡ position (nat_eq (object_of access)) (named_objects A)
        → IsFirstOf lists count A access result }
{
    let list = access.list();
    if list >= lists {
        return Some(NO_SUCH_LIST);
    }
    if access.grade() > TOP_GRADE {
        return Some(ABOVE_TOP);
    }
    if is_too_many(place, count, objects.records.len()) {
        return Some(TOO_MANY_OBJECTS);
    }
    let bottom = ends.bottoms[list as usize];
    let known = objects.look(place, list);
    match access {
        Access::Sorted { grade, .. } => {
            first_of_sorted(bottom, known, objects.ahead.greatest(list), grade)
        }
        Access::Random { grade, .. } => first_of_random(bottom, known, grade),
    }
}
