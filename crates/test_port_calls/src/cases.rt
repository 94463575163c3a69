//! One drive of `node`, and rows of drives with what they are to come to.

use super::links::{Visit, all_took, port_of};
use command_line::{Command, NodeOptions, Status, read_command};
use port_calls::node;
use std::alloc::Global;
use test_mem_source::{Held, Kind, MemShelf, shelf_of};
use test_support::words_of;
use tk_io::{MemPort, MemSink};

/// The place of the catalog on the shelf, and a catalog of two lists.
pub(crate) const CATALOG: &str = "cat.csv";

pub(crate) const LISTS: &str = "name,place,random\nA,a,yes\nB,b,yes\n";

/// The words of a node of A, and those with at most one connection.
pub(crate) const NODE: &[&str] = &["node", CATALOG, "A", "--at", "8080"];

pub(crate) const ONE: &[&str] = &["node", CATALOG, "A", "--at", "8080", "--conns", "1"];

/// The sources of both lists.
pub(crate) const SOURCES: &[Held] = &[
    Held {
        place: "a",
        rows: &[(1, 900), (2, 800), (3, 100)],
        kind: Kind::Honest,
    },
    Held {
        place: "b",
        rows: &[(2, 700), (3, 600), (1, 500)],
        kind: Kind::Honest,
    },
];

/// A node: its words, the catalog's text, the sources on the shelf, the links that come, and which calls of the port fail.
#[derive(Clone, Copy)]
pub(crate) struct Case {
    pub(crate) words: &'static [&'static str],
    pub(crate) catalog: &'static str,
    pub(crate) sources: &'static [Held],
    pub(crate) visits: &'static [Visit],
    pub(crate) fails: &'static [u64],
}

/// A node, and how it is to end, what it is to write, how many of the links are served, and how many sources of `a` were taken and put back.
#[derive(Clone, Copy)]
pub(crate) struct Row {
    pub(crate) case: Case,
    pub(crate) status: Status,
    pub(crate) text: &'static str,
    pub(crate) served: usize,
    pub(crate) taken: u64,
}

/// The options of these words.
pub(crate) fn options_of(alloc: Global, texts: &[&str]) -> Option<NodeOptions> {
    let words = words_of(alloc, texts).ok()?;
    let read = read_command(alloc, &words);
    drop(words);
    match read {
        Ok(Command::Node(options)) => Some(options),
        Ok(other) => {
            drop(other);
            None
        }
        Err(_) => None,
    }
}

/// How a node over this shelf and this port ends, and whether it writes the row's text.
fn end_over(
    alloc: Global,
    row: &Row,
    options: &NodeOptions,
    shelf: &mut MemShelf,
    port: &mut MemPort,
) -> bool {
    let Ok(mut out) = MemSink::make(alloc, 1_000, &[]) else {
        return false;
    };
    let status = node(alloc, options, shelf, &mut out, port);
    let is_written = out.taken() == row.text.as_bytes();
    drop(out);
    is_written && status == row.status
}

/// Whether a node goes over this shelf and this port as its row says.
fn goes_on(alloc: Global, row: &Row, shelf: &mut MemShelf, port: &mut MemPort) -> bool {
    if shelf
        .add_text(CATALOG, row.case.catalog.as_bytes())
        .is_err()
    {
        return false;
    }
    let Some(options) = options_of(alloc, row.case.words) else {
        return false;
    };
    let ends = end_over(alloc, row, &options, shelf, port);
    drop(options);
    let counts = shelf.counts_at("a");
    ends && counts.taken == row.taken && counts.returned == row.taken
}

/// Whether the node of a row goes as it says.
fn goes_so(alloc: Global, row: &Row) -> bool {
    let Some(mut shelf) = shelf_of(alloc, row.case.sources) else {
        return false;
    };
    let Some(mut port) = port_of(alloc, row.case.visits, row.case.fails) else {
        drop(shelf);
        return false;
    };
    let goes = goes_on(alloc, row, &mut shelf, &mut port);
    let is_so = goes && all_took(alloc, &port, row.case.visits, row.served);
    drop(port);
    drop(shelf);
    is_so
}

/// The place of the first row that comes to something else.
pub(crate) fn first_wrong(alloc: Global, rows: &[Row]) -> Option<usize> {
    for (place, row) in rows.iter().enumerate() {
        if !goes_so(alloc, row) {
            return Some(place);
        }
    }
    None
}
