//! Sources in memory, and shelves of them, from plain data.

use super::edition::Later;
use super::mem_shelf::MemShelf;
use super::source_in_memory::MemSource;
use ranked_list::Row;
use std::alloc::Global;

/// How a source differs from an honest one. Calls are counted from 1.
#[derive(Clone, Copy)]
pub enum Kind {
    Honest,
    /// It states so many rows, whatever their number is.
    States(u64),
    /// This call for a page fails.
    FailsAtPage(u64),
    /// What this call for a page gives can't be read.
    GarblesAtPage(u64),
    /// This call for a grade fails.
    FailsAtGrade(u64),
    /// What this call for a grade gives can't be read.
    GarblesAtGrade(u64),
    /// Random access gives this object this grade, whatever the rows say.
    Lies(u32, u32),
    /// It states this version.
    IsAt(u64),
    /// It states this version at first, and another one, of the same rows, from a call on.
    Moves(Move),
}

/// A change from one version to another just before the call of a number, all calls counted together.
#[derive(Clone, Copy)]
pub struct Move {
    pub had: u64,
    pub call: u64,
    pub now: u64,
}

/// A source: its place on a shelf, its rows as objects with their grades, and how it differs from an honest one.
#[derive(Clone, Copy)]
pub struct Held {
    pub place: &'static str,
    pub rows: &'static [(u32, u32)],
    pub kind: Kind,
}

/// The rows of these objects with their grades. None without memory.
fn rows_of(alloc: Global, pairs: &[(u32, u32)]) -> Option<Vec<Row>> {
    let mut rows = Vec::new(alloc);
    for (object, grade) in pairs {
        let row = Row {
            object: *object,
            grade: *grade,
        };
        rows.push(row).ok()?;
    }
    Some(rows)
}

/// Makes a source change its version. None without memory.
fn change(alloc: Global, source: &mut MemSource, to: Move) -> Option<()> {
    let rows = Vec::from_slice(alloc, source.rows()).ok()?;
    source.stated_version = to.had;
    let later = Later {
        call: to.call,
        version: to.now,
        rows,
    };
    source.later.push(later).ok()
}

/// Makes an honest source differ. None without memory.
fn bend(alloc: Global, source: &mut MemSource, kind: Kind) -> Option<()> {
    match kind {
        Kind::Honest => Some(()),
        Kind::States(count) => {
            source.stated = Some(count);
            Some(())
        }
        Kind::FailsAtPage(call) => source.fail_pages.push(call).ok(),
        Kind::GarblesAtPage(call) => source.garble_pages.push(call).ok(),
        Kind::FailsAtGrade(call) => source.fail_grades.push(call).ok(),
        Kind::GarblesAtGrade(call) => source.garble_grades.push(call).ok(),
        Kind::Lies(object, grade) => source.lies.push(Row { object, grade }).ok(),
        Kind::IsAt(version) => {
            source.stated_version = version;
            Some(())
        }
        Kind::Moves(to) => change(alloc, source, to),
    }
}

/// A source that no call has reached. None without memory.
pub fn source_of(alloc: Global, held: &Held) -> Option<MemSource> {
    let rows = rows_of(alloc, held.rows)?;
    let mut source = MemSource::make(alloc, &rows).ok()?;
    match bend(alloc, &mut source, held.kind) {
        Some(()) => Some(source),
        None => None,
    }
}

/// Puts a source on a shelf. None without memory.
fn put(alloc: Global, shelf: &mut MemShelf, held: &Held) -> Option<()> {
    let source = source_of(alloc, held)?;
    shelf.add_source(held.place, source).ok()
}

/// A shelf of these sources. None without memory.
pub fn shelf_of(alloc: Global, sources: &[Held]) -> Option<MemShelf> {
    let mut shelf = MemShelf::make(alloc);
    for held in sources {
        if put(alloc, &mut shelf, held).is_none() {
            return None;
        }
    }
    Some(shelf)
}
