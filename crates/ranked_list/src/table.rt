//! Whether lists form a table.

ghost use Rattle.std.specs.Prelude.{◌≡◌, ◌↔◌, ℕ, true, nat_eq, [], length, All, IsTrue, IfOk};
ghost use Rattle.std.specs.Set.{is_member};
ghost use Rattle.std.specs.HashSet.{contains};
ghost use Rattle.ranked_list.specs.Table.{IsRanked, IsTable, objects};
ghost use Rattle.ranked_list.specs.Rows.{TellsObjects, IsAlike};

use super::Memory;
use super::mem_list::MemList;
use super::objects::put;
use super::order::check_next;
use std::alloc::Global;
use std::collections::HashSet;

/// Puts the objects of a list into a set that has none, as far as the list is ranked, and says whether it is.
fn put_objects(rows: &MemList, set: &mut HashSet<u32>) -> Result<bool, Memory>
    requires { TellsObjects (contains nat_eq set.old) [] }
    ensures ranked { IfOk result (λ ranked. IsTrue ranked ↔ IsRanked rows.now) }
    ensures tells { IfOk result (λ ranked. IsTrue ranked → TellsObjects (contains nat_eq set.new) rows.now) }
{
    let mut last = None;
    for place in 0..rows.len() {
        let Some(row) = rows.get(place) else {
            return Ok(false);
        };
        if check_next(place, last, row).is_err() {
            return Ok(false);
        }
        if !put(set, row.object)? {
            return Ok(false);
        }
        last = Some(row);
    }
    Ok(true)
}

/// Whether each object of the rows is among these.
fn all_among(rows: &MemList, set: &HashSet<u32>) -> bool
    ensures { IsTrue result ↔ ((object : ℕ) → is_member nat_eq (objects rows.now) object ≡ true → contains nat_eq set.now object ≡ true) }
{
    for place in 0..rows.len() {
        let Some(row) = rows.get(place) else {
            return false;
        };
        if !set.contains(&row.object) {
            return false;
        }
    }
    true
}

/// Whether a list is ranked and has so many rows, all of objects in the set.
fn is_alike(alloc: Global, rows: &MemList, count: u32, set: &HashSet<u32>) -> Result<bool, Memory>
    ensures { IfOk result (λ answer. IsTrue answer ↔ IsAlike count (contains nat_eq set.now) rows.now) }
{
    if rows.len() != count {
        return Ok(false);
    }
    let mut own = HashSet::new(alloc);
    if !put_objects(rows, &mut own)? {
        return Ok(false);
    }
    Ok(all_among(rows, set))
}

/// Whether each of the lists is ranked and has as many rows as `first`, all of objects in the set.
fn are_alike(
    alloc: Global,
    lists: &[MemList],
    first: &MemList,
    set: &HashSet<u32>,
) -> Result<bool, Memory>
    ensures { IfOk result (λ answer. IsTrue answer ↔ All (IsAlike (length first.now) (contains nat_eq set.now)) lists.now) }
{
    for list in lists {
        if !is_alike(alloc, list, first.len(), set)? {
            return Ok(false);
        }
    }
    Ok(true)
}

/// Whether the lists form a table: each is ranked, and all have the same objects. No lists are a
/// table of none.
pub fn is_table(alloc: Global, lists: &[MemList]) -> Result<bool, Memory>
    ensures { IfOk result (λ answer. IsTrue answer ↔ ((n : ℕ) × IsTable n lists.now)) }
{
    let Some(first) = lists.first() else {
        return Ok(true);
    };
    let mut objects = HashSet::new(alloc);
    if !put_objects(first, &mut objects)? {
        return Ok(false);
    }
    are_alike(alloc, lists, first, &objects)
}
