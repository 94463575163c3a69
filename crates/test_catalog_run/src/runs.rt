//! Made queries through `run`: what `bulk` comes to of them, and how many rows the lists gave.

use super::drives::{run_into, settings_of};
use super::figures::{Figures, figures_of};
use super::shelves::{PLACES, shelf_of};
use bundle_text::write_table;
use fetcher::reach;
use made_inputs::{made_query, make_table};
use query_text::print;
use ranked_list::MemList;
use std::alloc::Global;
use std::sync::Wait;
use std::thread::Threads;
use test_mem_source::MemShelf;
use tk_io::MemSink;
use topk_base::first_line;

/// A made table and made queries over it: what it is made from, and their number.
#[derive(Clone, Copy)]
pub struct Made {
    pub start: u64,
    pub count: u32,
    pub lists: u8,
    pub queries: u32,
}

const CATALOG: &[u8] =
    b"name,place,random\nl1,l1.csv,yes\nl2,l2.csv,yes\nl3,l3.csv,yes\nl4,l4.csv,yes\n";

/// The most bytes that are written.
const ROOM: u32 = 4_000_000;

/// The rows of a page.
const PAGE: u32 = 50;

/// The pages that are read ahead.
const AHEAD: u32 = 2;

/// The text of a made query.
fn line_of(alloc: Global, made: Made, number: u32) -> Option<Vec<u8>> {
    let count = made.count.max(1);
    let lists = made.lists.max(1).min(8);
    let Ok(query) = made_query(alloc, number, count, lists) else {
        return None;
    };
    let line = print(alloc, &query);
    query.let_go();
    line.ok()
}

/// Adds the line of a made query. False without memory.
fn add_line(alloc: Global, made: Made, number: u32, lines: &mut Vec<u8>) -> bool {
    let Some(line) = line_of(alloc, made, number) else {
        return false;
    };
    let is_added = lines.extend_from_slice(&line).is_ok();
    drop(line);
    is_added && lines.push(b'\n').is_ok()
}

/// Adds the made queries, a line each. False without memory.
fn add_lines(alloc: Global, made: Made, lines: &mut Vec<u8>) -> bool {
    for number in 0..made.queries {
        if !add_line(alloc, made, number, lines) {
            return false;
        }
    }
    true
}

/// The lists of a text that `make` wrote, on a shelf, with their catalog.
fn shelf_with_catalog(alloc: Global, text: &[u8], made: Made) -> Option<MemShelf> {
    let Some(mut shelf) = shelf_of(alloc, text, made.lists, made.count) else {
        return None;
    };
    match shelf.add_text("cat.csv", CATALOG) {
        Ok(()) => Some(shelf),
        Err(_) => {
            drop(shelf);
            None
        }
    }
}

/// The text of a table.
fn text_of(alloc: Global, lists: &[MemList]) -> Option<MemSink> {
    let Ok(mut out) = MemSink::make(alloc, ROOM, &[]) else {
        return None;
    };
    match write_table(&mut out, lists) {
        Ok(()) => Some(out),
        Err(_) => {
            drop(out);
            None
        }
    }
}

/// What `make` writes of a made table.
fn made_text(alloc: Global, made: Made) -> Option<MemSink> {
    let Ok(table) = make_table(alloc, made.start, made.count, made.lists) else {
        return None;
    };
    let text = text_of(alloc, &table);
    drop(table);
    text
}

/// The lists that `make` writes, on a shelf, with their catalog.
fn made_shelf(alloc: Global, made: Made) -> Option<MemShelf> {
    let Some(text) = made_text(alloc, made) else {
        return None;
    };
    let shelf = shelf_with_catalog(alloc, text.taken(), made);
    drop(text);
    shelf
}

/// The lines of a text.
fn lines_of<'t>(alloc: Global, text: &'t [u8]) -> Option<Vec<&'t [u8]>> {
    let mut lines = Vec::new(alloc);
    let mut rest = text;
    for _ in 0..text.len() {
        let Some((line, more)) = first_line(rest) else {
            break;
        };
        if lines.push(line).is_err() {
            return None;
        }
        rest = more;
    }
    Some(lines)
}

/// Writes what a run of the lines of a text comes to over a shelf, on so many workers. False where there is no memory or no room.
fn write_on<R: Threads + Wait + Sync>(
    rt: &R,
    alloc: Global,
    shelf: &mut MemShelf,
    text: &[u8],
    workers: u32,
    out: &mut MemSink,
) -> bool {
    let Some(lines) = lines_of(alloc, text) else {
        return false;
    };
    let settings = settings_of(workers, PAGE, AHEAD);
    let ran = run_into(rt, alloc, shelf, CATALOG, &lines, settings, out);
    drop(lines);
    ran
}

/// Writes what a run of the made queries comes to over a shelf of the lists, on so many workers. False where there is no memory or no room.
fn write_over<R: Threads + Wait + Sync>(
    rt: &R,
    alloc: Global,
    shelf: &mut MemShelf,
    made: Made,
    workers: u32,
    out: &mut MemSink,
) -> bool {
    let mut text = Vec::new(alloc);
    let ran = add_lines(alloc, made, &mut text) && write_on(rt, alloc, shelf, &text, workers, out);
    drop(text);
    ran
}

/// Whether no list gave more rows than are to be read for this depth.
fn are_within_reach(shelf: &MemShelf, depth: u32, count: u32) -> bool {
    let count = count.min(200_000);
    let rows = reach(depth.min(count), PAGE, AHEAD, count);
    for place in PLACES {
        if shelf.rows_given_at(*place) > u64::from(rows) {
            return false;
        }
    }
    true
}

/// What a run over a shelf comes to that wrote this. None where a list gave more rows than are to be read for the greatest depth that is
/// written.
fn figures_in(shelf: &MemShelf, made: Made, text: &[u8]) -> Option<Figures> {
    let (figures, deepest) = figures_of(text);
    if are_within_reach(shelf, deepest, made.count) {
        Some(figures)
    } else {
        None
    }
}

/// What the made queries come to over a shelf of the lists, on so many workers.
fn figures_on<R: Threads + Wait + Sync>(
    rt: &R,
    alloc: Global,
    shelf: &mut MemShelf,
    made: Made,
    workers: u32,
) -> Option<Figures> {
    let Ok(mut out) = MemSink::make(alloc, ROOM, &[]) else {
        return None;
    };
    let figures = if write_over(rt, alloc, shelf, made, workers, &mut out) {
        figures_in(shelf, made, out.taken())
    } else {
        None
    };
    drop(out);
    figures
}

/// What made queries come to over the lists that `make` writes, on so many workers, by what is written of them. None where a list gave
/// more rows than its pages and the read-ahead make of the greatest depth that is written, or where there is no memory.
pub fn figures_over<R: Threads + Wait + Sync>(
    rt: &R,
    alloc: Global,
    made: Made,
    workers: u32,
) -> Option<Figures> {
    let Some(mut shelf) = made_shelf(alloc, made) else {
        return None;
    };
    let figures = figures_on(rt, alloc, &mut shelf, made, workers);
    drop(shelf);
    figures
}
