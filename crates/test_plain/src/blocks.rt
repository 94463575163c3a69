//! What the threshold algorithm of Fagin, Lotem and Naor reads of a whole table.

ghost use Rattle.std.specs.Prelude.{◌≡◌, ◌≤◌, IfOk, length, map, OnOk, [], ◌∷◌, ◌++◌};
ghost use Rattle.topk_theory.specs.Transcript.{each_once};
ghost use Rattle.topk_theory.specs.Threshold.{row_at, ta_run, sorted_block, new_objects, random_block, ta_block};
ghost use Rattle.monotone_fn.specs.Value.{value};
ghost use Rattle.test_plain.specs.Posed.{IsPosed};

use super::Memory;
use super::each_once::add_object;
use super::table::{grade_in, place_in, row_at};
use super::threshold::{stands, ta_depth};
use monotone_fn::Expr;
use ranked_list::MemList;
use std::alloc::Global;
use topk_base::MAX_LISTS;
use topk_theory::Access;

/// Adds the sorted accesses of a depth, in the order of the lists.
pub fn add_sorted_block(
    accesses: &mut Vec<Access>,
    lists: &[MemList],
    depth: u32,
) -> Result<(), Memory>
    requires { length lists.now ≤ MAX_LISTS }
    ensures { OnOk result (accesses.new.items ≡ accesses.old.items ++ sorted_block 0 depth lists.now) }
{
    for (list, rows) in lists.iter().enumerate() {
        let row = row_at(rows, depth);
        accesses.push(Access::Sorted {
            list: list as u8,
            object: row.object,
            grade: row.grade,
        })?;
    }
    Ok(())
}

/// The objects of the rows at a depth, each once.
fn objects_at(alloc: Global, lists: &[MemList], depth: u32) -> Result<Vec<u32>, Memory>
    ensures { IfOk result (λ objects. objects.items ≡ each_once (map (λ rows. (row_at rows depth).object) lists.now)) }
{
    let mut objects = Vec::new(alloc);
    for rows in lists {
        add_object(&mut objects, row_at(rows, depth).object)?;
    }
    Ok(objects)
}

/// The objects at a depth that stand no higher in any list, each once, in the order of the lists.
fn new_objects(alloc: Global, lists: &[MemList], depth: u32) -> Result<Vec<u32>, Memory>
    ensures { IfOk result (λ objects. objects.items ≡ new_objects lists.now depth) }
{
    let above = depth.saturating_sub(1);
    let mut objects = objects_at(alloc, lists, depth)?;
    objects.retain(|object| !stands(lists, above, *object));
    Ok(objects)
}

/// Adds the random access of an object in a list where it stands lower than the depth.
fn add_missing(
    accesses: &mut Vec<Access>,
    list: u8,
    rows: &MemList,
    depth: u32,
    object: u32,
) -> Result<(), Memory>
    ensures { OnOk result (accesses.new.items ≡ accesses.old.items ++ random_block list depth object (rows.now ∷ [])) }
{
    if place_in(rows, object) < depth {
        return Ok(());
    }
    accesses.push(Access::Random {
        list,
        object,
        grade: grade_in(rows, object),
    })?;
    Ok(())
}

/// Adds the random accesses of an object at a depth: the lists in which it stands lower.
fn add_random_block(
    accesses: &mut Vec<Access>,
    lists: &[MemList],
    depth: u32,
    object: u32,
) -> Result<(), Memory>
    requires { length lists.now ≤ MAX_LISTS }
    ensures { OnOk result (accesses.new.items ≡ accesses.old.items ++ random_block 0 depth object lists.now) }
{
    for (list, rows) in lists.iter().enumerate() {
        add_missing(accesses, list as u8, rows, depth, object)?;
    }
    Ok(())
}

/// Adds the accesses of a depth: its rows, and then the missing grades of its new objects.
fn add_block(
    alloc: Global,
    accesses: &mut Vec<Access>,
    lists: &[MemList],
    depth: u32,
) -> Result<(), Memory>
    requires { length lists.now ≤ MAX_LISTS }
    ensures { OnOk result (accesses.new.items ≡ accesses.old.items ++ ta_block lists.now depth) }
{
    add_sorted_block(accesses, lists, depth)?;
    let objects = new_objects(alloc, lists, depth)?;
    for object in &objects {
        add_random_block(accesses, lists, depth, *object)?;
    }
    Ok(())
}

/// What the algorithm reads.
pub fn ta_run(alloc: Global, lists: &[MemList], expr: &Expr, k: u32) -> Result<Vec<Access>, Memory>
    requires { IsPosed lists.now expr.now }
    ensures { IfOk result (λ accesses. accesses.items ≡ ta_run (value expr.now) k lists.now) }
{
    let last = ta_depth(alloc, lists, expr, k)?;
    let mut accesses = Vec::new(alloc);
    for depth in 0..last {
        add_block(alloc, &mut accesses, lists, depth + 1)?;
    }
    Ok(accesses)
}
