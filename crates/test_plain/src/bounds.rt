//! What accesses tell of an object's aggregate.

ghost use Rattle.std.specs.Prelude.{◌≡◌, ◌≤◌, ◌==◌, ◌&&◌, IfOk, OnOk, List, [], ◌∷◌, ◌++◌, map, take};
ghost use Rattle.topk_theory.specs.declared.access.Access.{Access};
ghost use Rattle.topk_theory.specs.Transcript.{list_of, object_of, bottom_of, seen_objects, list_numbers};
ghost use Rattle.topk_theory.specs.Bounds.{known_grade, low, high, bounded};
ghost use Rattle.monotone_fn.specs.Shape.{list_count};
ghost use Rattle.monotone_fn.specs.Value.{value};
ghost use Rattle.test_plain.specs.Capped.{AreCapped};

use super::each_once::add_object;
use monotone_fn::Expr;
use ranked_list::Item;
use std::alloc::Global;
use topk_base::{MAX_LISTS, Memory, TOP_GRADE};
use topk_theory::Access;

/// Whether an access is of this list and object.
fn is_of(access: &Access, list: u8, object: u32) -> bool
    ensures { result ≡ (list_of access.now == list && object_of access.now == object) }
{
    access.list() == list && access.object() == object
}

/// The grade of an object in a list, where an access gave it.
pub fn known_grade(accesses: &[Access], list: u8, object: u32) -> Option<u32>
    ensures { result ≡ known_grade accesses.now object list }
{
    for access in accesses {
        if is_of(access, list, object) {
            return Some(access.grade());
        }
    }
    None
}

/// The last grade that a sorted access read from a list, and the greatest grade before the first.
fn bottom_of(accesses: &[Access], list: u8) -> u32
    ensures { result ≡ bottom_of list accesses.now }
{
    accesses.iter().fold(TOP_GRADE, |bottom, access| {
        if access.is_sorted() && access.list() == list {
            access.grade()
        } else {
            bottom
        }
    })
}

/// The known grades of an object, by the numbers of the lists.
fn known_grades(accesses: &[Access], lists: u8, object: u32) -> [Option<u32>; MAX_LISTS]
    requires { lists ≤ MAX_LISTS }
    ensures { take lists result ≡ map (λ list. known_grade accesses.now object list) (list_numbers lists) }
{
    let mut known = [None; MAX_LISTS];
    for list in 0..lists {
        known[list as usize] = known_grade(accesses, list, object);
    }
    known
}

/// The bottoms of the lists, by their numbers.
fn bottoms(accesses: &[Access], lists: u8) -> [u32; MAX_LISTS]
    requires { lists ≤ MAX_LISTS }
    ensures { take lists result ≡ map (λ list. bottom_of list accesses.now) (list_numbers lists) }
{
    let mut bottoms = [0; MAX_LISTS];
    for list in 0..lists {
        bottoms[list as usize] = bottom_of(accesses, list);
    }
    bottoms
}

/// The least aggregate that an object may have: the value with 0 in place of each unknown grade.
pub fn low(accesses: &[Access], expr: &Expr, object: u32) -> u64
    requires { AreCapped accesses.now }
    ensures { result ≡ low (value expr.now) (list_count expr.now) accesses.now object }
{
    let lists = expr.lists();
    let known = known_grades(accesses, lists, object);
    expr.eval_low(&known[..lists as usize])
}

/// The greatest aggregate that an object may have: the value with its list's bottom in place of each
/// unknown grade.
pub fn high(accesses: &[Access], expr: &Expr, object: u32) -> u64
    requires { AreCapped accesses.now }
    ensures { result ≡ high (value expr.now) (list_count expr.now) accesses.now object }
{
    let lists = expr.lists();
    let known = known_grades(accesses, lists, object);
    let bottoms = bottoms(accesses, lists);
    expr.eval_high(&known[..lists as usize], &bottoms[..lists as usize])
}

/// An object with its bounds.
pub fn bounded(accesses: &[Access], expr: &Expr, object: u32) -> Item
    requires { AreCapped accesses.now }
    ensures { result ≡ bounded (value expr.now) (list_count expr.now) accesses.now object }
{
    Item {
        object,
        low: low(accesses, expr, object),
        high: high(accesses, expr, object),
    }
}

/// Adds the object of a sorted access, unless it is there.
fn add_seen(objects: &mut Vec<u32>, access: &Access) -> Result<(), Memory>
    ensures { OnOk result ((A : List Access) → objects.old.items ≡ seen_objects A → objects.new.items ≡ seen_objects (A ++ access.now ∷ [])) }
{
    if !access.is_sorted() {
        return Ok(());
    }
    add_object(objects, access.object())?;
    Ok(())
}

/// The objects that sorted accesses gave, each once in the order of first sight.
pub fn seen_objects(alloc: Global, accesses: &[Access]) -> Result<Vec<u32>, Memory>
    ensures { IfOk result (λ objects. objects.items ≡ seen_objects accesses.now) }
{
    let mut objects = Vec::new(alloc);
    for access in accesses {
        add_seen(&mut objects, access)?;
    }
    Ok(objects)
}
