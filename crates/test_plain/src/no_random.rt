//! The algorithm without random access of Fagin, Lotem and Naor on a whole table.

ghost use Rattle.std.specs.Prelude.{◌≡◌, ◌≤◌, ◌==◌, ◌||◌, IfOk, not, length};
ghost use Rattle.std.specs.List.{list_any, list_all};
ghost use Rattle.topk_theory.specs.Order.{kth_low};
ghost use Rattle.topk_theory.specs.Bounds.{high};
ghost use Rattle.topk_theory.specs.NoRandom.{seen_items, first_seen, exceeds, is_quiet, nra_run_to, nra_depth, nra_run, nra_answer};
ghost use Rattle.monotone_fn.specs.Shape.{list_count};
ghost use Rattle.monotone_fn.specs.Value.{value};
ghost use Rattle.test_plain.specs.Posed.{IsPosed};
ghost use Rattle.test_plain.specs.Capped.{AreCapped};

use super::blocks::add_sorted_block;
use super::bounds::{bounded, high, seen_objects};
use super::order::first_k;
use super::table::{count_of, objects_of};
use monotone_fn::Expr;
use ranked_list::{Item, MemList};
use std::alloc::Global;
use topk_base::{MAX_LISTS, Memory};
use topk_theory::Access;

/// The seen objects with their bounds.
fn seen_items(alloc: Global, accesses: &[Access], expr: &Expr) -> Result<Vec<Item>, Memory>
    requires { AreCapped accesses.now }
    ensures { IfOk result (λ items. items.items ≡ seen_items (value expr.now) (list_count expr.now) accesses.now) }
{
    let objects = seen_objects(alloc, accesses)?;
    let mut items = Vec::new(alloc);
    for object in &objects {
        items.push(bounded(accesses, expr, *object))?;
    }
    Ok(items)
}

/// The first k seen objects by low falling, then high falling, then number rising.
pub fn first_seen(
    alloc: Global,
    accesses: &[Access],
    expr: &Expr,
    k: u32,
) -> Result<Vec<Item>, Memory>
    requires { AreCapped accesses.now }
    ensures { IfOk result (λ items. items.items ≡ first_seen (value expr.now) k (list_count expr.now) accesses.now) }
{
    let items = seen_items(alloc, accesses, expr)?;
    Ok(first_k(items, k))
}

/// The k-th largest low of the seen objects, None where they are fewer.
pub fn kth_low(
    alloc: Global,
    accesses: &[Access],
    expr: &Expr,
    k: u32,
) -> Result<Option<u64>, Memory>
    requires { AreCapped accesses.now }
    ensures { IfOk result (λ bound. bound ≡ kth_low k (seen_items (value expr.now) (list_count expr.now) accesses.now)) }
{
    let items = seen_items(alloc, accesses, expr)?;
    Ok(crate::order::kth_low_of(items, k))
}

/// Whether a number is above the bound, or there is no bound.
pub fn exceeds(bound: Option<u64>, number: u64) -> bool
    ensures { result ≡ exceeds bound number }
{
    match bound {
        None => true,
        Some(bound) => bound < number,
    }
}

/// Whether an object has an item.
fn is_in(items: &[Item], object: u32) -> bool
    ensures { result ≡ list_any (λ item. item.object == object) items.now }
{
    for item in items {
        if item.object == object {
            return true;
        }
    }
    false
}

/// Whether none of these objects outside the first k is viable, where this is the k-th largest low.
fn none_viable(
    accesses: &[Access],
    expr: &Expr,
    first: &[Item],
    bound: Option<u64>,
    objects: &[u32],
) -> bool
    requires { AreCapped accesses.now }
    ensures { result ≡ list_all (λ object. list_any (λ item. item.object == object) first.now
        || not (exceeds bound (high (value expr.now) (list_count expr.now) accesses.now object))) objects.now }
{
    objects.iter().all(|object| is_in(first, *object)
        || !exceeds(bound, high(accesses, expr, *object)))
}

/// Whether at least k objects were seen, and no object of the table outside the first k is viable.
pub fn is_quiet(
    alloc: Global,
    lists: &[MemList],
    accesses: &[Access],
    expr: &Expr,
    k: u32,
) -> Result<bool, Memory>
    requires { AreCapped accesses.now }
    ensures { IfOk result (λ quiet. quiet ≡ is_quiet (value expr.now) k (list_count expr.now) lists.now accesses.now) }
{
    let bound = kth_low(alloc, accesses, expr, k)?;
    let seen = seen_objects(alloc, accesses)?;
    let enough_seen = k as usize <= seen.len();
    drop(seen);
    let first = first_seen(alloc, accesses, expr, k)?;
    let objects = objects_of(alloc, lists)?;
    let none_viable = none_viable(accesses, expr, &first, bound, &objects);
    Ok(enough_seen && none_viable)
}

/// The sorted accesses at each place down to a depth.
pub fn nra_run_to(alloc: Global, lists: &[MemList], depth: u32) -> Result<Vec<Access>, Memory>
    requires { length lists.now ≤ MAX_LISTS }
    ensures { IfOk result (λ accesses. accesses.items ≡ nra_run_to lists.now depth) }
{
    let mut accesses = Vec::new(alloc);
    for above in 0..depth {
        add_sorted_block(&mut accesses, lists, above + 1)?;
    }
    Ok(accesses)
}

/// The least depth at which the algorithm is quiet.
pub fn nra_depth(alloc: Global, lists: &[MemList], expr: &Expr, k: u32) -> Result<u32, Memory>
    requires { IsPosed lists.now expr.now }
    ensures { IfOk result (λ depth. depth ≡ nra_depth (value expr.now) k lists.now) }
{
    let count = count_of(lists);
    for depth in 1..count {
        let accesses = nra_run_to(alloc, lists, depth)?;
        if is_quiet(alloc, lists, &accesses, expr, k)? {
            return Ok(depth);
        }
    }
    Ok(count.max(1))
}

/// What the algorithm reads.
pub fn nra_run(alloc: Global, lists: &[MemList], expr: &Expr, k: u32) -> Result<Vec<Access>, Memory>
    requires { IsPosed lists.now expr.now }
    ensures { IfOk result (λ accesses. accesses.items ≡ nra_run (value expr.now) k lists.now) }
{
    let depth = nra_depth(alloc, lists, expr, k)?;
    nra_run_to(alloc, lists, depth)
}

/// What the algorithm answers: the first k seen objects, with their bounds.
pub fn nra_answer(
    alloc: Global,
    lists: &[MemList],
    expr: &Expr,
    k: u32,
) -> Result<Vec<Item>, Memory>
    requires { IsPosed lists.now expr.now }
    ensures { IfOk result (λ items. items.items ≡ nra_answer (value expr.now) k lists.now) }
{
    let accesses = nra_run(alloc, lists, expr, k)?;
    first_seen(alloc, &accesses, expr, k)
}
