//! A list that is told, as a query reads it.

ghost use Rattle.std.specs.Prelude.{◌≡◌, ◌-◌, ◌==◌, ℕ, slice_get, None, IfOk, OnOk, if◌then◌else◌};
ghost use Rattle.containers.specs.Values.{value_of};
ghost use Rattle.topk_theory.specs.Bounds.{grade_among};

use containers::{Memory, ObjectMap};
use ranked_list::{MemList, Row};
use std::alloc::Global;
use std::marker::Model;

/// A list that is read by depth, and by object. The grades by object are put together when the first
/// is asked for. Contracts see the rows.
#[derive(Drop)]
pub struct ToldList<'a> {
    rows: &'a MemList,
    grades: Option<ObjectMap<u32>>,
}

impl<'a> Model for ToldList<'a> {
    ghost use Rattle.std.specs.Prelude.{List};
    ghost use Rattle.ranked_list.specs.declared.row.Row.{Row};
    ghost use Rattle.bundle_calls.specs.Grades.{AreGradesOf};

    ghost Value = { List Row };

    ghost view = { λ a. a.rows.now };

    ghost invariant = { λ a. AreGradesOf a.grades a.rows.now };
}

impl<'a> ToldList<'a> {
    /// The whole list. Takes no memory.
    pub fn of(rows: &'a MemList) -> ToldList<'a>
        ensures { result ≡ rows.now }
    {
        ToldList { rows, grades: None }
    }

    /// The row at a depth from 1, or None below the last.
    pub fn row(&self, depth: u32) -> Option<Row>
        ensures { result ≡ slice_get self.now (depth - 1) }
    {
        self.rows.get(depth.saturating_sub(1))
    }

    /// The grade of an object, or None where the list hasn't the object.
    pub fn grade(&mut self, alloc: Global, object: u32) -> Result<Option<u32>, Memory>
        ensures same { self.new ≡ self.old }
        ensures grade { IfOk result (λ grade. grade ≡ grade_among self.old object) }
    {
        if let Some(grades) = &self.grades {
            return Ok(grades.get(object));
        }
        let grades = grades_of(alloc, self.rows)?;
        let grade = grades.get(object);
        self.grades = Some(grades);
        Ok(grade)
    }
}

/// The grades of a list by object.
fn grades_of(alloc: Global, rows: &MemList) -> Result<ObjectMap<u32>, Memory>
    ensures { IfOk result (λ grades. (object : ℕ) → value_of grades object ≡ grade_among rows.now object) }
{
    let mut grades = ObjectMap::make(alloc);
    match put_all(&mut grades, rows) {
        Ok(()) => Ok(grades),
        Err(fault) => {
            drop(grades);
            Err(fault)
        }
    }
}

/// Puts the grades of a list where there are none.
fn put_all(grades: &mut ObjectMap<u32>, rows: &MemList) -> Result<(), Memory>
    requires { (object : ℕ) → value_of grades.old object ≡ None }
    ensures { OnOk result ((object : ℕ) → value_of grades.new object ≡ grade_among rows.now object) }
{
    grades.widen(rows.len().saturating_mul(2))?;
    for place in (0..rows.len()).rev() {
        if let Some(row) = rows.get(place) {
            put(grades, row)?;
        }
    }
    Ok(())
}

/// Puts the grade of a row.
fn put(grades: &mut ObjectMap<u32>, row: Row) -> Result<(), Memory>
    ensures { OnOk result ((object : ℕ) → value_of grades.new object
        ≡ (if row.object == object then Some row.grade else value_of grades.old object)) }
{
    grades.insert(row.object, row.grade)?;
    Ok(())
}
