//! One drive of `run`, and rows of drives with what they are to come to.

use super::outcomes::ends_over;
use super::told_drives::Streams;
use command_line::Status;
use std::alloc::Global;
use std::sync::Wait;
use std::thread::Threads;
use test_mem_source::{Held, MemShelf, shelf_of};

/// The place of the catalog on the shelf.
pub(crate) const CATALOG: &str = "cat.csv";

/// The bytes of each piece in which the lines are given.
const PIECE: u32 = 50;

/// The most bytes that are written.
const ROOM: u32 = 4000;

/// The words of a run over the catalog at that place, without options.
pub const RUN: &[&str] = &["run", CATALOG];

/// A run: its words, the catalog's text, the sources on the shelf, and the query lines.
#[derive(Clone, Copy)]
pub struct Case {
    pub words: &'static [&'static str],
    pub catalog: &'static str,
    pub sources: &'static [Held],
    pub lines: &'static str,
}

/// A run, and how it is to end and what it is to write.
#[derive(Clone, Copy)]
pub struct Row {
    pub case: Case,
    pub status: Status,
    pub text: &'static str,
}

/// Whether the run of a row goes over this shelf as it says.
pub(crate) fn goes_on<W: Threads + Wait + Sync>(
    rt: &W,
    alloc: Global,
    shelf: &mut MemShelf,
    row: &Row,
) -> bool {
    let case = &row.case;
    if shelf.add_text(CATALOG, case.catalog.as_bytes()).is_err() {
        return false;
    }
    let streams = Streams {
        input: case.lines.as_bytes(),
        piece: PIECE,
        failing_reads: &[],
        room: ROOM,
    };
    let expected = (row.status, row.text.as_bytes());
    ends_over(rt, alloc, case.words, shelf, &streams, expected)
}

/// Whether the run of a row goes over a shelf of its sources as it says.
fn goes_so<W: Threads + Wait + Sync>(rt: &W, alloc: Global, row: &Row) -> bool {
    let Some(mut shelf) = shelf_of(alloc, row.case.sources) else {
        return false;
    };
    let goes = goes_on(rt, alloc, &mut shelf, row);
    drop(shelf);
    goes
}

/// The place of the first row that comes to something else.
pub fn first_wrong<W: Threads + Wait + Sync>(rt: &W, alloc: Global, rows: &[Row]) -> Option<usize> {
    for (place, row) in rows.iter().enumerate() {
        if !goes_so(rt, alloc, row) {
            return Some(place);
        }
    }
    None
}
