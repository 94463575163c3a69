//! Tables from a number.

ghost use Rattle.std.specs.Prelude.{◌<◌};

use std::alloc::Global;
use test_support::{Numbers, shuffled};

/// The names of the lists.
pub(crate) const NAMES: &[&str] = &["A", "B", "C", "D", "E", "F", "G", "H"];

/// A table: the grades of each object, those of an object side by side in the order of the lists, and
/// the sections of its lists. The objects are 0, 1, 2 and so on, up to a count.
#[derive(Drop)]
pub struct Table {
    pub lists: usize,
    pub count: u32,
    pub grades: Vec<u64>,
    pub sections: String,
}

impl Table {
    /// The grades of an object, list by list.
    pub fn of_object(&self, object: usize) -> Option<&[u64]> {
        let start = object.saturating_mul(self.lists);
        let end = start.saturating_add(self.lists);
        self.grades.get(start..end)
    }

    /// Sets the grade of an object in a list, and tells whether it has a place.
    fn set_grade(&mut self, list: usize, object: u32, grade: u32) -> bool {
        let place = (object as usize)
            .saturating_mul(self.lists)
            .saturating_add(list);
        match self.grades.get_mut(place) {
            Some(held) => {
                *held = u64::from(grade);
                true
            }
            None => false,
        }
    }

    /// Adds a row of a list, and tells whether it was added.
    fn add_row(&mut self, alloc: Global, list: usize, object: u32, grade: u32) -> bool {
        let Ok(line) = format!(in alloc; "{object},{grade}\n") else {
            return false;
        };
        let is_added = self.sections.push_str(&line).is_ok();
        drop(line);
        is_added && self.set_grade(list, object, grade)
    }

    /// Adds the head of a list, and tells whether it was added.
    fn add_head(&mut self, list: usize) -> bool {
        match NAMES.get(list) {
            Some(name) => {
                self.sections.push_str("list ").is_ok()
                    && self.sections.push_str(*name).is_ok()
                    && self.sections.push_str("\n").is_ok()
            }
            None => false,
        }
    }
}

/// One list more of these objects: its grades fall from the greatest on by steps that are below `step`. It tells whether it was added.
fn add_list(
    alloc: Global,
    numbers: &mut Numbers,
    table: &mut Table,
    list: usize,
    objects: &[u32],
    step: u32,
) -> bool
    requires { 0 < step }
{
    if !table.add_head(list) {
        return false;
    }
    let mut grade: u32 = 1_000_000;
    for object in objects {
        grade = grade.saturating_sub(numbers.below(step));
        if !table.add_row(alloc, list, *object, grade) {
            return false;
        }
    }
    true
}

/// One list more of the objects, at random.
fn add_shuffled(
    alloc: Global,
    numbers: &mut Numbers,
    table: &mut Table,
    list: usize,
    step: u32,
) -> bool
    requires { 0 < step }
{
    let Ok(objects) = shuffled(alloc, numbers, table.count) else {
        return false;
    };
    let is_added = add_list(alloc, numbers, table, list, &objects, step);
    drop(objects);
    is_added
}

/// Adds each list of a table, and tells whether all were added.
fn add_lists(alloc: Global, numbers: &mut Numbers, table: &mut Table, step: u32) -> bool
    requires { 0 < step }
{
    for list in 0..table.lists {
        if !add_shuffled(alloc, numbers, table, list, step) {
            return false;
        }
    }
    true
}

/// So many zeros.
fn zeros(alloc: Global, count: usize) -> Option<Vec<u64>> {
    let mut grades = Vec::new(alloc);
    match grades.resize(count, 0) {
        Ok(()) => Some(grades),
        Err(_) => {
            drop(grades);
            None
        }
    }
}

/// A table of `count` objects over so many lists. A small `step` gives many ties. None where there is no memory.
pub fn table_of(
    alloc: Global,
    numbers: &mut Numbers,
    lists: usize,
    count: u32,
    step: u32,
) -> Option<Table>
    requires { 0 < step }
{
    let grades = zeros(alloc, (count as usize).saturating_mul(lists))?;
    let mut table = Table {
        lists,
        count,
        grades,
        sections: String::new(alloc),
    };
    if add_lists(alloc, numbers, &mut table, step) {
        Some(table)
    } else {
        drop(table);
        None
    }
}
