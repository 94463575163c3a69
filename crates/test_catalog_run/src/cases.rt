//! Runs of query lines as plain data, and what they write.

use super::drives::{run_into, settings_of};
use std::alloc::Global;
use std::sync::Wait;
use std::thread::Threads;
use test_mem_source::{Held, MemShelf, shelf_of};
use tk_io::MemSink;

/// A run with one worker that reads no page ahead: the catalog's text, the sources on the shelf, the lines, how many rows a page has,
/// and the call for a source that fails; and the text that it is to write, in pieces.
#[derive(Clone, Copy)]
pub struct Case {
    pub catalog: &'static str,
    pub sources: &'static [Held],
    pub lines: &'static [&'static [u8]],
    pub page: u32,
    pub fails_take: Option<u64>,
    pub text: &'static [&'static str],
}

/// Whether the bytes are these pieces, one after another.
fn is_text(bytes: &[u8], pieces: &[&'static str]) -> bool {
    let mut rest = bytes;
    for piece in pieces {
        match rest.strip_prefix(piece.as_bytes()) {
            Some(more) => rest = more,
            None => return false,
        }
    }
    rest.is_empty()
}

/// Whether a run over a shelf writes what it is to write.
fn writes_so<W: Threads + Wait + Sync>(
    rt: &W,
    alloc: Global,
    shelf: &mut MemShelf,
    case: &Case,
    out: &mut MemSink,
) -> bool {
    let settings = settings_of(1, case.page, 0);
    let catalog = case.catalog.as_bytes();
    run_into(rt, alloc, shelf, catalog, case.lines, settings, out)
        && is_text(out.taken(), case.text)
}

/// Whether a run over a shelf writes what it is to write, where a call for a source may fail.
pub fn runs_over<W: Threads + Wait + Sync>(
    rt: &W,
    alloc: Global,
    shelf: &mut MemShelf,
    case: &Case,
) -> bool {
    if let Some(call) = case.fails_take {
        if shelf.fail_takes.push(call).is_err() {
            return false;
        }
    }
    let Ok(mut out) = MemSink::make(alloc, 4000, &[]) else {
        return false;
    };
    let so = writes_so(rt, alloc, shelf, case, &mut out);
    drop(out);
    so
}

/// Whether a run writes what it is to write.
fn runs<W: Threads + Wait + Sync>(rt: &W, alloc: Global, case: &Case) -> bool {
    let Some(mut shelf) = shelf_of(alloc, case.sources) else {
        return false;
    };
    let so = runs_over(rt, alloc, &mut shelf, case);
    drop(shelf);
    so
}

/// The first of these runs, counted from 1, that doesn't write what it is to write; 0 where each does.
pub fn first_wrong<W: Threads + Wait + Sync>(rt: &W, alloc: Global, cases: &[Case]) -> u64 {
    let mut number: u64 = 0;
    for case in cases {
        number = number.saturating_add(1);
        if !runs(rt, alloc, case) {
            return number;
        }
    }
    0
}
