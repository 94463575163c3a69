//! Random bundles, with ties everywhere among their lists. A call that adds to a text tells whether it could.

use super::texts::{add_line, add_pieces};
use std::alloc::Global;
use test_support::{Numbers, shuffled};

/// The names of the lists, in the order in which each expression names them.
pub(crate) const NAMES: &[&str] = &["A", "B", "C"];

/// Adds the line of a row, and tells whether it was added.
fn add_row(alloc: Global, text: &mut String, object: u32, grade: u32) -> bool {
    add_line(text, format!(in alloc; "{object},{grade}\n"))
}

/// Adds rows of these objects, whose grades fall from the first on, often by 0.
fn add_rows(
    alloc: Global,
    numbers: &mut Numbers,
    objects: &[u32],
    first: u32,
    text: &mut String,
) -> bool {
    let mut grade = first;
    for object in objects {
        if !add_row(alloc, text, *object, grade) {
            return false;
        }
        let step = numbers.below(3);
        grade = grade.saturating_sub(step);
    }
    true
}

/// Adds a list of so many objects, whose greatest grade is a few.
fn add_list(
    alloc: Global,
    numbers: &mut Numbers,
    name: &str,
    count: u32,
    text: &mut String,
) -> bool {
    let first = numbers.below(5);
    let Ok(objects) = shuffled(alloc, numbers, count) else {
        return false;
    };
    let is_added = add_pieces(text, &["list ", name, "\n"])
        && add_rows(alloc, numbers, &objects, first, text);
    drop(objects);
    is_added
}

/// Adds so many lists of `count` objects.
fn add_lists(
    alloc: Global,
    numbers: &mut Numbers,
    lists: usize,
    count: u32,
    text: &mut String,
) -> bool {
    for name in NAMES.iter().take(lists) {
        if !add_list(alloc, numbers, name, count, text) {
            return false;
        }
    }
    true
}

/// A bundle of so many lists of `count` objects, and a query. None where there is no memory.
pub fn bundle_of(
    alloc: Global,
    numbers: &mut Numbers,
    lists: usize,
    count: u32,
    query: &str,
) -> Option<String> {
    let mut text = String::new(alloc);
    if add_lists(alloc, numbers, lists, count, &mut text)
        && add_pieces(&mut text, &["query ", query, "\n"])
    {
        Some(text)
    } else {
        drop(text);
        None
    }
}
