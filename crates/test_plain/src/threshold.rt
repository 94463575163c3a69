//! The threshold algorithm of Fagin, Lotem and Naor on a whole table: its depth and its answer.

ghost use Rattle.std.specs.Prelude.{◌≡◌, ◌≤◌, IfOk, length, map, take};
ghost use Rattle.topk_theory.specs.Threshold.{stands, objects_to, row_at, threshold_at, ta_stop, ta_depth, ta_answer, scored};
ghost use Rattle.monotone_fn.specs.Value.{value};
ghost use Rattle.test_plain.specs.Posed.{IsPosed};

use super::Memory;
use super::order::first_k;
use super::table::{aggregate, count_of, objects_of, place_in, row_at};
use monotone_fn::Expr;
use ranked_list::{Item, MemList};
use std::alloc::Global;
use topk_base::MAX_LISTS;

/// Whether an object stands in the first places of some list.
pub fn stands(lists: &[MemList], depth: u32, object: u32) -> bool
    ensures { result ≡ stands lists.now depth object }
{
    for list in lists {
        if place_in(list, object) < depth {
            return true;
        }
    }
    false
}

/// The objects that stand in the first places of some list.
fn objects_to(alloc: Global, lists: &[MemList], depth: u32) -> Result<Vec<u32>, Memory>
    ensures { IfOk result (λ objects. objects.items ≡ objects_to lists.now depth) }
{
    let mut objects = objects_of(alloc, lists)?;
    objects.retain(|object| stands(lists, depth, *object));
    Ok(objects)
}

/// The grades of at most eight lists at a depth.
fn grades_at(lists: &[MemList], depth: u32) -> [u32; MAX_LISTS]
    requires { length lists.now ≤ MAX_LISTS }
    ensures { take (length lists.now) result ≡ map (λ rows. (row_at rows depth).grade) lists.now }
{
    let mut grades = [0; MAX_LISTS];
    for (list, rows) in lists.iter().enumerate() {
        grades[list] = row_at(rows, depth).grade;
    }
    grades
}

/// The value of the grades at a depth.
fn threshold_at(lists: &[MemList], expr: &Expr, depth: u32) -> u64
    requires { IsPosed lists.now expr.now }
    ensures { result ≡ threshold_at (value expr.now) lists.now depth }
{
    let grades = grades_at(lists, depth);
    expr.eval(&grades[..lists.len()])
}

/// Whether at least k of the objects down to the depth have an aggregate of at least the threshold.
fn ta_stop(
    alloc: Global,
    lists: &[MemList],
    expr: &Expr,
    k: u32,
    depth: u32,
) -> Result<bool, Memory>
    requires { IsPosed lists.now expr.now }
    ensures { IfOk result (λ stops. stops ≡ ta_stop (value expr.now) k lists.now depth) }
{
    let threshold = threshold_at(lists, expr, depth);
    let mut objects = objects_to(alloc, lists, depth)?;
    objects.retain(|object| threshold <= aggregate(lists, expr, *object));
    Ok(k as usize <= objects.len())
}

/// The least depth at which the algorithm stops.
pub fn ta_depth(alloc: Global, lists: &[MemList], expr: &Expr, k: u32) -> Result<u32, Memory>
    requires { IsPosed lists.now expr.now }
    ensures { IfOk result (λ depth. depth ≡ ta_depth (value expr.now) k lists.now) }
{
    let count = count_of(lists);
    for depth in 1..count {
        if ta_stop(alloc, lists, expr, k, depth)? {
            return Ok(depth);
        }
    }
    Ok(count.max(1))
}

/// An object whose bounds are both its aggregate.
fn scored(lists: &[MemList], expr: &Expr, object: u32) -> Item
    requires { IsPosed lists.now expr.now }
    ensures { result ≡ scored (value expr.now) lists.now object }
{
    let value = aggregate(lists, expr, object);
    Item {
        object,
        low: value,
        high: value,
    }
}

/// Objects whose bounds are both their aggregates.
pub fn items_of(
    alloc: Global,
    lists: &[MemList],
    expr: &Expr,
    objects: &[u32],
) -> Result<Vec<Item>, Memory>
    requires { IsPosed lists.now expr.now }
    ensures { IfOk result (λ items. items.items ≡ map (scored (value expr.now) lists.now) objects.now) }
{
    let mut items = Vec::new(alloc);
    for object in objects {
        items.push(scored(lists, expr, *object))?;
    }
    Ok(items)
}

/// What the algorithm answers: the first k of the objects down to its depth, by aggregate falling,
/// then by number rising.
pub fn ta_answer(alloc: Global, lists: &[MemList], expr: &Expr, k: u32) -> Result<Vec<Item>, Memory>
    requires { IsPosed lists.now expr.now }
    ensures { IfOk result (λ items. items.items ≡ ta_answer (value expr.now) k lists.now) }
{
    let depth = ta_depth(alloc, lists, expr, k)?;
    let objects = objects_to(alloc, lists, depth)?;
    let items = items_of(alloc, lists, expr, &objects)?;
    Ok(first_k(items, k))
}
