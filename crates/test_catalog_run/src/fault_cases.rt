//! Runs over one shelf, one after another, of which calls fail.

use super::outcomes::ends_over;
use super::told_cases::{CATALOG, RUN};
use super::told_drives::Streams;
use command_line::Status;
use std::alloc::Global;
use std::sync::Wait;
use std::thread::Threads;
use test_mem_source::{Held, MemShelf, shelf_of};

/// A run: how many bytes each piece of its input has, which calls of it fail, for how many bytes there is room, how it ends, what it writes,
/// and how many rows the source has given then.
#[derive(Clone, Copy)]
pub struct FaultyRun {
    pub piece: u32,
    pub failing_reads: &'static [u64],
    pub room: u32,
    pub status: Status,
    pub text: &'static [u8],
    pub given: u64,
}

/// Runs over the same shelf: the catalog's text, if there is one, the call for it that fails, if one does, the source, and the query line.
#[derive(Clone, Copy)]
pub struct FaultyShelf {
    pub catalog: Option<&'static str>,
    pub failing_text: Option<u64>,
    pub source: &'static Held,
    pub line: &'static [u8],
    pub runs: &'static [FaultyRun],
}

/// Puts the catalog's text on the shelf, where there is one, and the number of the call for it that fails. Whether there was memory.
fn add_catalog(shelf: &mut MemShelf, row: &FaultyShelf) -> bool {
    if let Some(text) = row.catalog {
        if shelf.add_text(CATALOG, text.as_bytes()).is_err() {
            return false;
        }
    }
    match row.failing_text {
        Some(call) => shelf.fail_texts.push(call).is_ok(),
        None => true,
    }
}

/// Whether a run over the shelf of a row goes as it is to.
fn goes_on<W: Threads + Wait + Sync>(
    rt: &W,
    alloc: Global,
    shelf: &mut MemShelf,
    row: &FaultyShelf,
    run: &FaultyRun,
) -> bool {
    let streams = Streams {
        input: row.line,
        piece: run.piece,
        failing_reads: run.failing_reads,
        room: run.room,
    };
    let expected = (run.status, run.text);
    let ends = ends_over(rt, alloc, RUN, shelf, &streams, expected);
    ends && shelf.rows_given_at(row.source.place) == run.given
}

/// Whether each run over the shelf of a row goes as it is to.
fn go_on<W: Threads + Wait + Sync>(
    rt: &W,
    alloc: Global,
    shelf: &mut MemShelf,
    row: &FaultyShelf,
) -> bool {
    if !add_catalog(shelf, row) {
        return false;
    }
    for run in row.runs {
        if !goes_on(rt, alloc, shelf, row, run) {
            return false;
        }
    }
    true
}

/// Whether the runs of a row go as they are to.
fn go_so<W: Threads + Wait + Sync>(rt: &W, alloc: Global, row: &FaultyShelf) -> bool {
    let Some(mut shelf) = shelf_of(alloc, &[*row.source]) else {
        return false;
    };
    let go = go_on(rt, alloc, &mut shelf, row);
    drop(shelf);
    go
}

/// The place of the first row of which a run goes otherwise.
pub fn first_wrong_fault<W: Threads + Wait + Sync>(
    rt: &W,
    alloc: Global,
    rows: &[FaultyShelf],
) -> Option<usize> {
    for (place, row) in rows.iter().enumerate() {
        if !go_so(rt, alloc, row) {
            return Some(place);
        }
    }
    None
}
