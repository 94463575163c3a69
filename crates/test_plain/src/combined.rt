//! The combined algorithm of Fagin, Lotem and Naor on a whole table.

ghost use Rattle.std.specs.Prelude.{◌≡◌, ◌≤◌, IfOk, OnOk, ◌++◌};
ghost use Rattle.topk_theory.specs.Threshold.{sorted_block, item_objects};
ghost use Rattle.topk_theory.specs.Combined.{phase_length, phase_after, finish, ca_run_to, ca_depth, ca_blocks, ca_run, ca_answer};
ghost use Rattle.monotone_fn.specs.Value.{value};
ghost use Rattle.test_plain.specs.Posed.{IsPosed};
ghost use Rattle.test_plain.specs.Capped.{AreCapped};

use super::blocks::add_sorted_block;
use super::no_random::{first_seen, is_quiet};
use super::order::first_k;
use super::phases::{add_missing_grades, phase_after, phase_length};
use super::table::count_of;
use super::threshold::items_of;
use monotone_fn::{Costs, Expr};
use ranked_list::{Item, MemList};
use std::alloc::Global;
use topk_base::Memory;
use topk_theory::Access;

/// Adds the accesses of a depth: its rows, and what follows them.
fn add_combined_block(
    alloc: Global,
    accesses: &mut Vec<Access>,
    lists: &[MemList],
    expr: &Expr,
    k: u32,
    phase: u32,
    depth: u32,
) -> Result<(), Memory>
    requires posed { IsPosed lists.now expr.now }
    requires capped { AreCapped accesses.old.items }
    requires phase { 1 ≤ phase }
    ensures { OnOk result (accesses.new.items ≡ (accesses.old.items ++ sorted_block 0 depth lists.now)
        ++ phase_after (value expr.now) k phase depth lists.now (accesses.old.items ++ sorted_block 0 depth lists.now)) }
{
    add_sorted_block(accesses, lists, depth)?;
    let following = phase_after(alloc, lists, accesses, expr, k, phase, depth)?;
    accesses.extend_from_slice(&following)?;
    Ok(())
}

/// The blocks down to a depth.
fn ca_run_to(
    alloc: Global,
    lists: &[MemList],
    expr: &Expr,
    k: u32,
    phase: u32,
    depth: u32,
) -> Result<Vec<Access>, Memory>
    requires posed { IsPosed lists.now expr.now }
    requires phase { 1 ≤ phase }
    ensures { IfOk result (λ accesses. accesses.items ≡ ca_run_to (value expr.now) k phase lists.now depth) }
{
    let mut accesses = Vec::new(alloc);
    for above in 0..depth {
        add_combined_block(alloc, &mut accesses, lists, expr, k, phase, above + 1)?;
    }
    Ok(accesses)
}

/// The least depth at whose end the algorithm is quiet, at these costs of accesses.
pub fn ca_depth(
    alloc: Global,
    lists: &[MemList],
    expr: &Expr,
    k: u32,
    costs: Costs,
) -> Result<u32, Memory>
    requires posed { IsPosed lists.now expr.now }
    requires costs { 1 ≤ costs.sorted }
    ensures { IfOk result (λ depth. depth ≡ ca_depth (value expr.now) k (phase_length costs.sorted costs.random) lists.now) }
{
    let count = count_of(lists);
    let phase = phase_length(costs);
    for depth in 1..count {
        let accesses = ca_run_to(alloc, lists, expr, k, phase, depth)?;
        if is_quiet(alloc, lists, &accesses, expr, k)? {
            return Ok(depth);
        }
    }
    Ok(count.max(1))
}

/// The blocks down to this depth.
fn ca_blocks(
    alloc: Global,
    lists: &[MemList],
    expr: &Expr,
    k: u32,
    costs: Costs,
) -> Result<Vec<Access>, Memory>
    requires posed { IsPosed lists.now expr.now }
    requires costs { 1 ≤ costs.sorted }
    ensures { IfOk result (λ accesses. accesses.items ≡ ca_blocks (value expr.now) k (phase_length costs.sorted costs.random) lists.now) }
{
    let depth = ca_depth(alloc, lists, expr, k, costs)?;
    ca_run_to(alloc, lists, expr, k, phase_length(costs), depth)
}

/// The finish after these accesses: the unknown grades of the first k seen objects, in their order.
fn finish(
    alloc: Global,
    lists: &[MemList],
    accesses: &[Access],
    expr: &Expr,
    k: u32,
) -> Result<Vec<Access>, Memory>
    requires posed { IsPosed lists.now expr.now }
    requires capped { AreCapped accesses.now }
    ensures { IfOk result (λ asked. asked.items ≡ finish (value expr.now) k lists.now accesses.now) }
{
    let first = first_seen(alloc, accesses, expr, k)?;
    let mut asked = Vec::new(alloc);
    for item in &first {
        add_missing_grades(&mut asked, lists, accesses, item.object)?;
    }
    Ok(asked)
}

/// What the algorithm reads, at these costs of accesses.
pub fn ca_run(
    alloc: Global,
    lists: &[MemList],
    expr: &Expr,
    k: u32,
    costs: Costs,
) -> Result<Vec<Access>, Memory>
    requires posed { IsPosed lists.now expr.now }
    requires costs { 1 ≤ costs.sorted }
    ensures { IfOk result (λ accesses. accesses.items ≡ ca_run (value expr.now) k (phase_length costs.sorted costs.random) lists.now) }
{
    let mut accesses = ca_blocks(alloc, lists, expr, k, costs)?;
    let asked = finish(alloc, lists, &accesses, expr, k)?;
    accesses.extend_from_slice(&asked)?;
    Ok(accesses)
}

/// The objects of items.
fn item_objects(alloc: Global, items: &[Item]) -> Result<Vec<u32>, Memory>
    ensures { IfOk result (λ objects. objects.items ≡ item_objects items.now) }
{
    let objects = items.iter().map(|item| item.object).collect(alloc)?;
    Ok(objects)
}

/// What the algorithm answers: the first k seen objects at its depth, by aggregate falling, then by
/// number rising.
pub fn ca_answer(
    alloc: Global,
    lists: &[MemList],
    expr: &Expr,
    k: u32,
    costs: Costs,
) -> Result<Vec<Item>, Memory>
    requires posed { IsPosed lists.now expr.now }
    requires costs { 1 ≤ costs.sorted }
    ensures { IfOk result (λ items. items.items ≡ ca_answer (value expr.now) k (phase_length costs.sorted costs.random) lists.now) }
{
    let accesses = ca_blocks(alloc, lists, expr, k, costs)?;
    let first = first_seen(alloc, &accesses, expr, k)?;
    let objects = item_objects(alloc, &first)?;
    let items = items_of(alloc, lists, expr, &objects)?;
    Ok(first_k(items, k))
}
