//! A made list as a source.

ghost use Rattle.std.specs.Prelude.{◌≡◌, ◌+◌, [], length, IfOk};
ghost use Rattle.bulk_run.specs.Held.{fresh, grade_at, AreSmall, AreGradesOf};

use super::Memory;
use ranked_list::{MemList, Row};
use source_api::{FailKind, Source, Trouble, part_of};
use std::alloc::Global;
use std::marker::Model;

/// The rows of a list in memory, whose objects are small numbers. A page is copied from the rows, and a grade is found by its object's
/// number. No call of it ever fails, is garbled or is moved: its version is 0. Contracts see it as `Held`.
#[derive(Drop)]
pub struct MadeSource {
    rows: Vec<Row>,
    grades: Vec<Option<u32>>,
    rows_given: u64,
    grades_given: u64,
}

impl Model for MadeSource {
    ghost use Rattle.bulk_run.specs.Held.{Held, AreGradesOf};

    ghost Value = { Held };

    ghost view = { λ m. record { rows = m.rows.items; rows_given = m.rows_given; grades_given = m.grades_given } };

    ghost invariant = { λ m. AreGradesOf m.rows.items m.grades.items };
}

/// The grade at the number of an object.
fn grade_at(grades: &[Option<u32>], object: u32) -> Option<u32>
    ensures { result ≡ grade_at grades.now object }
{
    match grades.get(object as usize) {
        Some(grade) => *grade,
        None => None,
    }
}

/// The rows of a list.
fn rows_of(alloc: Global, list: &MemList) -> Result<Vec<Row>, Memory>
    ensures { IfOk result (λ rows. rows.items ≡ list.now) }
{
    Ok(Vec::from_slice(alloc, list.iter().as_slice())?)
}

/// Keeps the grade of each row of a list, at the number of its object.
fn keep_grades(list: &MemList, grades: &mut Vec<Option<u32>>)
    requires small { AreSmall list.now }
    requires room { length grades.old.items ≡ length list.now + 1 }
    requires none { AreGradesOf [] grades.old.items }
    ensures { AreGradesOf list.now grades.new.items }
{
    for row in list.iter() {
        grades[row.object as usize] = Some(row.grade);
    }
}

/// The grades of a list, each at the number of its object.
fn grades_of(alloc: Global, list: &MemList) -> Result<Vec<Option<u32>>, Memory>
    requires { AreSmall list.now }
    ensures { IfOk result (λ grades. AreGradesOf list.now grades.items) }
{
    let mut grades = Vec::new(alloc);
    grades.resize(list.len() as usize + 1, None)?;
    keep_grades(list, &mut grades);
    Ok(grades)
}

impl MadeSource {
    /// A source of this list, of which nothing was asked yet. Takes memory for the rows and for a grade of each object.
    pub fn make(alloc: Global, list: &MemList) -> Result<MadeSource, Memory>
        requires { AreSmall list.now }
        ensures { IfOk result (λ source. source ≡ fresh list.now) }
    {
        let rows = rows_of(alloc, list)?;
        let grades = grades_of(alloc, list)?;
        Ok(MadeSource {
            rows,
            grades,
            rows_given: 0,
            grades_given: 0,
        })
    }
}

impl Source for MadeSource {
    ghost use Rattle.std.specs.Prelude.{Some};
    ghost use Rattle.bulk_run.specs.Held.{told_rows, told_once, counts_of, version_of};

    ghost list = { told_rows };

    ghost counts = { counts_of };

    ghost at_hand = { version_of };

    ghost states = { λ _. Some 0 };

    /// The number of rows.
    fn size(&mut self, _: Global) -> Result<u64, Trouble> {
        Ok(self.rows.len() as u64)
    }

    /// All of the rows that are asked for and are there.
    fn page(&mut self, alloc: Global, from: u32, count: u32) -> Result<Vec<Row>, Trouble> {
        let Ok(page) = Vec::from_slice(alloc, part_of(&self.rows, from, count)) else {
            return Err(Trouble::Fail(FailKind::Memory));
        };
        self.rows_given = self.rows_given.saturating_add(page.len() as u64);
        Ok(page)
    }

    /// The grade at the object's number.
    fn grade(&mut self, _: Global, object: u32) -> Result<Option<u32>, Trouble> {
        self.grades_given = self.grades_given.saturating_add(1);
        Ok(grade_at(&self.grades, object))
    }

    /// 0: a made list never changes.
    fn version(&self) -> u64 {
        0
    }

    ghost distinct = { told_once };
}
