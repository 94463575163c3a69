//! Rows that a source holds.

ghost use Rattle.std.specs.Prelude.{◌≡◌, ℕ, nat_eq, take, drop, OnOk};
ghost use Rattle.std.specs.HashMap.{get};
ghost use Rattle.source_api.specs.Told.{kept_first};

use super::Memory;
use ranked_list::Row;
use std::collections::HashMap;

/// The items after the first `from`, at most `count` of them.
pub fn part_of<T>(items: &[T], from: u32, count: u32) -> &[T]
    ensures { result.now ≡ take count (drop from items.now) }
{
    let start = items.len().min(from as usize);
    let rest = &items[start..];
    let count = rest.len().min(count as usize);
    &rest[..count]
}

/// Puts the grade of a row, unless an earlier row of its object was put.
pub fn keep_first(grades: &mut HashMap<u32, u32>, row: Row) -> Result<(), Memory>
    ensures { OnOk result ((object : ℕ) → get nat_eq grades.new object ≡ kept_first (get nat_eq grades.old object) row object) }
{
    if grades.contains_key(&row.object) {
        return Ok(());
    }
    match grades.insert(row.object, row.grade) {
        Ok(_) => Ok(()),
        Err(_) => Err(Memory),
    }
}
