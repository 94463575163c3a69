//! Calls on a source with what they are to answer. A row is its object and its grade.

use ranked_list::Row;
use source_api::{Source, Trouble};
use std::alloc::Global;

/// A call and its answer. A page has its first place and the number of rows that are asked for, at least 1.
#[derive(Clone, Copy)]
pub enum Step {
    Size(u64),
    Page(u32, u32, Result<&'static [(u32, u32)], Trouble>),
    Grade(u32, Result<Option<u32>, Trouble>),
    /// The version that is at hand.
    Version(u64),
}

/// Whether the rows are these.
fn are_rows(rows: &[Row], pairs: &[(u32, u32)]) -> bool {
    if rows.len() != pairs.len() {
        return false;
    }
    for (row, pair) in rows.iter().zip(pairs) {
        if row.object != pair.0 || row.grade != pair.1 {
            return false;
        }
    }
    true
}

/// Whether a page is answered so.
fn gives_page<S: Source>(
    alloc: Global,
    source: &mut S,
    from: u32,
    count: u32,
    rows: Result<&[(u32, u32)], Trouble>,
) -> bool {
    if count == 0 {
        return false;
    }
    match source.page(alloc, from, count) {
        Ok(page) => match rows {
            Ok(pairs) => are_rows(&page, pairs),
            Err(_) => false,
        },
        Err(trouble) => rows == Err(trouble),
    }
}

/// Whether a call is answered so.
fn holds<S: Source>(alloc: Global, source: &mut S, step: Step) -> bool {
    match step {
        Step::Size(size) => source.size(alloc) == Ok(size),
        Step::Page(from, count, rows) => gives_page(alloc, source, from, count, rows),
        Step::Grade(object, grade) => source.grade(alloc, object) == grade,
        Step::Version(version) => source.version() == version,
    }
}

/// The place of the first call that is answered otherwise, None where each is answered as told.
pub fn first_wrong<S: Source>(alloc: Global, source: &mut S, steps: &[Step]) -> Option<usize> {
    for (place, step) in steps.iter().enumerate() {
        if !holds(alloc, source, *step) {
            return Some(place);
        }
    }
    None
}
