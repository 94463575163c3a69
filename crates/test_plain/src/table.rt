//! Objects, grades and places of a table.

ghost use Rattle.std.specs.Prelude.{◌≡◌, ◌≤◌, IfOk, length, map, take, slice_index_or};
ghost use Rattle.ranked_list.specs.Table.{place_in, grade_in, objects};
ghost use Rattle.topk_theory.specs.Aggregate.{objects_of, aggregate};
ghost use Rattle.topk_theory.specs.Threshold.{row_at};
ghost use Rattle.monotone_fn.specs.Value.{value};
ghost use Rattle.test_plain.specs.Posed.{IsPosed, no_row};

use super::Memory;
use monotone_fn::Expr;
use ranked_list::{MemList, Row};
use std::alloc::Global;
use topk_base::MAX_LISTS;

/// The row of a list at a place from 0, or a row of zeros past the end.
fn row_in(list: &MemList, place: u32) -> Row
    ensures { result ≡ slice_index_or list.now place no_row }
{
    list.get(place).unwrap_or(Row {
        object: 0,
        grade: 0,
    })
}

/// The row of a list at a depth from 1, or a row of zeros.
pub fn row_at(list: &MemList, depth: u32) -> Row
    ensures { result ≡ row_at list.now depth }
{
    row_in(list, depth.saturating_sub(1))
}

/// The place of an object in a list, from 0, and the list's length where it isn't there.
pub fn place_in(list: &MemList, object: u32) -> u32
    ensures { result ≡ place_in list.now object }
{
    for place in 0..list.len() {
        let row = row_in(list, place);
        if row.object == object {
            return place;
        }
    }
    list.len()
}

/// The grade of an object in a list, and 0 where it isn't there.
pub fn grade_in(list: &MemList, object: u32) -> u32
    ensures { result ≡ grade_in list.now object }
{
    row_in(list, place_in(list, object)).grade
}

/// The objects of a list, from the top down.
fn objects(alloc: Global, list: &MemList) -> Result<Vec<u32>, Memory>
    ensures { IfOk result (λ found. found.items ≡ objects list.now) }
{
    let mut found = Vec::new(alloc);
    for place in 0..list.len() {
        found.push(row_in(list, place).object)?;
    }
    Ok(found)
}

/// The objects of a table: those of its first list.
pub fn objects_of(alloc: Global, lists: &[MemList]) -> Result<Vec<u32>, Memory>
    ensures { IfOk result (λ found. found.items ≡ objects_of lists.now) }
{
    match lists.first() {
        Some(list) => objects(alloc, list),
        None => Ok(Vec::new(alloc)),
    }
}

/// How many objects a table has.
pub fn count_of(lists: &[MemList]) -> u32
    ensures { result ≡ length (objects_of lists.now) }
{
    match lists.first() {
        Some(list) => list.len(),
        None => 0,
    }
}

/// The grades of an object in at most eight lists.
fn grades_of(lists: &[MemList], object: u32) -> [u32; MAX_LISTS]
    requires { length lists.now ≤ MAX_LISTS }
    ensures { take (length lists.now) result ≡ map (λ rows. grade_in rows object) lists.now }
{
    let mut grades = [0; MAX_LISTS];
    for (list, rows) in lists.iter().enumerate() {
        grades[list] = grade_in(rows, object);
    }
    grades
}

/// The aggregate of an object: the value at its grades.
pub fn aggregate(lists: &[MemList], expr: &Expr, object: u32) -> u64
    requires { IsPosed lists.now expr.now }
    ensures { result ≡ aggregate (value expr.now) lists.now object }
{
    let grades = grades_of(lists, object);
    expr.eval(&grades[..lists.len()])
}
