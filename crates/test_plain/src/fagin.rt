//! Fagin's algorithm on a whole table.

ghost use Rattle.std.specs.Prelude.{◌≡◌, ◌≤◌, IfOk, length};
ghost use Rattle.std.specs.List.{flat_map};
ghost use Rattle.topk_theory.specs.Transcript.{seen_objects};
ghost use Rattle.topk_theory.specs.Combined.{missing_grades};
ghost use Rattle.algorithm_theory.specs.Fagin.{stands_in_all, fa_stop, fa_depth, fa_rows, fa_run, fa_answer};
ghost use Rattle.monotone_fn.specs.Value.{value};
ghost use Rattle.test_plain.specs.Posed.{IsPosed};

use super::bounds::seen_objects;
use super::no_random::nra_run_to;
use super::order::first_k;
use super::phases::add_missing_grades;
use super::table::{count_of, objects_of, place_in};
use super::threshold::items_of;
use monotone_fn::Expr;
use ranked_list::{Item, MemList};
use std::alloc::Global;
use topk_base::{MAX_LISTS, Memory};
use topk_theory::Access;

/// Whether an object stands in the first so many places of every list.
fn stands_in_all(lists: &[MemList], depth: u32, object: u32) -> bool
    ensures { result ≡ stands_in_all lists.now depth object }
{
    for list in lists {
        if place_in(list, object) >= depth {
            return false;
        }
    }
    true
}

/// Whether at least k objects do.
fn fa_stop(alloc: Global, lists: &[MemList], k: u32, depth: u32) -> Result<bool, Memory>
    ensures { IfOk result (λ stops. stops ≡ fa_stop k lists.now depth) }
{
    let mut objects = objects_of(alloc, lists)?;
    objects.retain(|object| stands_in_all(lists, depth, *object));
    Ok(k as usize <= objects.len())
}

/// The least depth at which the algorithm stops.
pub fn fa_depth(alloc: Global, lists: &[MemList], k: u32) -> Result<u32, Memory>
    ensures { IfOk result (λ depth. depth ≡ fa_depth k lists.now) }
{
    let count = count_of(lists);
    for depth in 1..count {
        if fa_stop(alloc, lists, k, depth)? {
            return Ok(depth);
        }
    }
    Ok(count.max(1))
}

/// The sorted accesses down to this depth.
fn fa_rows(alloc: Global, lists: &[MemList], k: u32) -> Result<Vec<Access>, Memory>
    requires { length lists.now ≤ MAX_LISTS }
    ensures { IfOk result (λ accesses. accesses.items ≡ fa_rows k lists.now) }
{
    let depth = fa_depth(alloc, lists, k)?;
    nra_run_to(alloc, lists, depth)
}

/// The unknown grades of each object that these accesses saw, in the order of first sight.
fn asks_after(alloc: Global, lists: &[MemList], accesses: &[Access]) -> Result<Vec<Access>, Memory>
    requires { length lists.now ≤ MAX_LISTS }
    ensures { IfOk result (λ asked. asked.items ≡ flat_map (missing_grades lists.now accesses.now) (seen_objects accesses.now)) }
{
    let seen = seen_objects(alloc, accesses)?;
    let mut asked = Vec::new(alloc);
    for object in &seen {
        add_missing_grades(&mut asked, lists, accesses, *object)?;
    }
    Ok(asked)
}

/// What the algorithm reads.
pub fn fa_run(alloc: Global, lists: &[MemList], k: u32) -> Result<Vec<Access>, Memory>
    requires { length lists.now ≤ MAX_LISTS }
    ensures { IfOk result (λ accesses. accesses.items ≡ fa_run k lists.now) }
{
    let mut accesses = fa_rows(alloc, lists, k)?;
    let asked = asks_after(alloc, lists, &accesses)?;
    accesses.extend_from_slice(&asked)?;
    Ok(accesses)
}

/// What the algorithm answers: the first k of the objects that it sees, by aggregate falling, then by number rising.
pub fn fa_answer(alloc: Global, lists: &[MemList], expr: &Expr, k: u32) -> Result<Vec<Item>, Memory>
    requires { IsPosed lists.now expr.now }
    ensures { IfOk result (λ items. items.items ≡ fa_answer (value expr.now) k lists.now) }
{
    let accesses = fa_rows(alloc, lists, k)?;
    let seen = seen_objects(alloc, &accesses)?;
    let items = items_of(alloc, lists, expr, &seen)?;
    Ok(first_k(items, k))
}
