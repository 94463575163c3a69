//! The grades of objects in the records of a list file.

ghost use Rattle.std.specs.Prelude.{◌≡◌, ℕ, IfOk, OnOk};
ghost use Rattle.containers.specs.Values.{value_of};
ghost use Rattle.source_api.specs.Told.{first_grade};
ghost use Rattle.file_source.specs.ListFile.{rows_among};
ghost use Rattle.file_source.specs.Taking.{kept_record};

use super::Memory;
use containers::ObjectMap;
use ranked_list::Row;
use std::alloc::Global;
use topk_base::MAX_OBJECTS;

/// The grade of each object, by its first row. Objects below twice the number of records are found in a table, the others by their hash.
///
/// *Cost*: a look-up of an `ObjectMap` for each record.
pub(crate) fn grades_of(alloc: Global, records: &[Option<Row>]) -> Result<ObjectMap<u32>, Memory>
    ensures { IfOk result (λ grades. (object : ℕ) → value_of grades object ≡ first_grade (rows_among records.now) object) }
{
    let count = records.len().min(MAX_OBJECTS as usize) as u32;
    let mut grades = ObjectMap::make(alloc);
    grades.widen(2 * count)?;
    grades.reserve(count)?;
    for record in records {
        keep_record(&mut grades, *record)?;
    }
    Ok(grades)
}

/// Keeps the grade of a record's object, unless one is kept or the record is no row.
fn keep_record(grades: &mut ObjectMap<u32>, row: Option<Row>) -> Result<(), Memory>
    ensures { OnOk result ((object : ℕ) → value_of grades.new object ≡ kept_record (value_of grades.old object) row object) }
{
    let Some(row) = row else {
        return Ok(());
    };
    if grades.get(row.object).is_none() {
        grades.insert(row.object, row.grade)?;
    }
    Ok(())
}

/// The grade of an object, by its first row. Takes no memory.
///
/// *Cost*: each record is looked at.
pub(crate) fn grade_among(records: &[Option<Row>], object: u32) -> Option<u32>
    ensures { result ≡ first_grade (rows_among records.now) object }
{
    let mut kept = None;
    for record in records {
        kept = kept_with(kept, *record, object);
    }
    kept
}

/// The grade that is kept, or that of a record of the object where none is.
fn kept_with(kept: Option<u32>, row: Option<Row>, object: u32) -> Option<u32>
    ensures { result ≡ kept_record kept row object }
{
    let Some(row) = row else {
        return kept;
    };
    if kept.is_none() && row.object == object {
        return Some(row.grade);
    }
    kept
}
