//! A node's replies, read by a source that asks a node.

ghost use Rattle.std.specs.Prelude.{All, IfOk};
ghost use Rattle.tk_io.specs.LinksInMemory.{IsUnused};

use super::cases::{CATALOG, LISTS, SOURCES, options_of};
use super::links::{Visit, port_of};
use http_source::HttpSource;
use port_calls::node;
use source_api::{Source, Trouble};
use std::alloc::Global;
use std::process::Abort;
use test_mem_source::shelf_of;
use tk_io::{MemDial, MemLink, MemPort, MemSink, Memory};
use wire::Place;

/// What a source asks of the list A: its size, two rows, a grade, and the grade of an object that isn't there.
const ASKED: &[Visit] = &[
    Visit {
        request: &[b"GET /lists/A/size HTTP/1.1\r\nHost: h:80\r\nConnection: close\r\n\r\n"],
        write_fails: &[],
        reply: &[],
    },
    Visit {
        request: &[
            b"GET /lists/A/page?from=1&count=2 HTTP/1.1\r\nHost: h:80\r\n",
            b"Connection: close\r\n\r\n",
        ],
        write_fails: &[],
        reply: &[],
    },
    Visit {
        request: &[
            b"GET /lists/A/grade?object=3 HTTP/1.1\r\nHost: h:80\r\n",
            b"Connection: close\r\n\r\n",
        ],
        write_fails: &[],
        reply: &[],
    },
    Visit {
        request: &[
            b"GET /lists/A/grade?object=4 HTTP/1.1\r\nHost: h:80\r\n",
            b"Connection: close\r\n\r\n",
        ],
        write_fails: &[],
        reply: &[],
    },
];

/// A node without a version, at version 7, and at version 8.
const AT_NONE: &[&str] = &["node", CATALOG, "A", "--at", "1"];

const AT_7: &[&str] = &["node", CATALOG, "A", "--at", "1", "--version", "7"];

const AT_8: &[&str] = &["node", CATALOG, "A", "--at", "1", "--version", "8"];

/// Serves a node of these words at the port, whose links have taken its replies then.
fn serve_at(alloc: Global, words: &[&str], port: &mut MemPort) -> Option<()> {
    let mut shelf = shelf_of(alloc, SOURCES)?;
    if shelf.add_text(CATALOG, LISTS.as_bytes()).is_err() {
        drop(shelf);
        return None;
    }
    let Some(options) = options_of(alloc, words) else {
        drop(shelf);
        return None;
    };
    let Ok(mut out) = MemSink::make(alloc, 100, &[]) else {
        drop(options);
        drop(shelf);
        return None;
    };
    let _ = node(alloc, &options, &mut shelf, &mut out, port);
    drop(out);
    drop(options);
    drop(shelf);
    Some(())
}

/// The port of a node of these words that has served what is asked.
fn served(alloc: Global, words: &[&str]) -> Option<MemPort> {
    let mut port = port_of(alloc, ASKED, &[])?;
    if serve_at(alloc, words, &mut port).is_none() {
        drop(port);
        return None;
    }
    Some(port)
}

/// A link that gives these bytes, three in one read.
fn link(alloc: Global, bytes: &[u8]) -> Result<MemLink, Memory>
    ensures { IfOk result IsUnused }
{
    MemLink::make(alloc, bytes, 3, 1_000, &[], &[], None)
}

/// The links that give the size of one node's replies, and then the others of another's.
fn links(alloc: Global, first: &MemPort, others: &MemPort) -> Result<Vec<MemLink>, Memory>
    ensures { IfOk result (λ links. All IsUnused links.items) }
{
    let mut links = Vec::new(alloc);
    for one in first.closed().iter().take(1) {
        links.push(link(alloc, one.taken())?)?;
    }
    for other in others.closed().iter().skip(1) {
        links.push(link(alloc, other.taken())?)?;
    }
    Ok(links)
}

/// The place of the list.
fn place(alloc: Global) -> Result<Place, Memory> {
    let host = String::from_str(alloc, "h")?;
    let path = String::from_str(alloc, "/lists/A")?;
    Ok(Place {
        host,
        port: 80,
        path,
    })
}

/// A source that gets its size from the replies of a node of these words, and the others from those of a node of those.
fn source_of(
    alloc: Global,
    first: &'static [&'static str],
    others: &'static [&'static str],
) -> Option<HttpSource<MemDial>> {
    let first = served(alloc, first)?;
    let Some(others) = served(alloc, others) else {
        drop(first);
        return None;
    };
    let given = links(alloc, &first, &others);
    drop(first);
    drop(others);
    let Ok(given) = given else {
        return None;
    };
    let dial = MemDial::make(alloc, given, &[]).ok()?;
    let Ok(place) = place(alloc) else {
        drop(dial);
        return None;
    };
    HttpSource::make(alloc, dial, &place).ok()
}

/// Whether the source reads the size of A at a version.
fn reads_size(alloc: Global, source: &mut HttpSource<MemDial>, version: u64) -> bool {
    source.size(alloc) == Ok(3) && source.version() == version
}

/// Whether the source reads the last two rows of A.
fn reads_rows(alloc: Global, source: &mut HttpSource<MemDial>) -> bool {
    match source.page(alloc, 1, 2) {
        Ok(rows) => {
            let is_so = match (rows.as_slice().get(0), rows.as_slice().get(1)) {
                (Some(one), Some(two)) => {
                    rows.len() == 2
                        && one.object == 2
                        && one.grade == 800
                        && two.object == 3
                        && two.grade == 100
                }
                _ => false,
            };
            drop(rows);
            is_so
        }
        Err(_) => false,
    }
}

/// Whether the replies of a node of these words are read back, at this version.
fn is_read_back(alloc: Global, words: &'static [&'static str], version: u64) -> bool {
    let Some(mut source) = source_of(alloc, words, words) else {
        return false;
    };
    let is_so = reads_size(alloc, &mut source, version)
        && reads_rows(alloc, &mut source)
        && source.grade(alloc, 3) == Ok(Some(100))
        && source.grade(alloc, 4) == Ok(None);
    drop(source);
    is_so
}

/// Whether rows and grades of version 8 are none of a list that is at version 7.
fn has_moved(alloc: Global) -> bool {
    let Some(mut source) = source_of(alloc, AT_7, AT_8) else {
        return false;
    };
    let moved = Trouble::Moved { had: 7, now: 8 };
    let is_size = reads_size(alloc, &mut source, 7);
    let page = source.page(alloc, 1, 2);
    let is_no_page = match &page {
        Ok(_) => false,
        Err(trouble) => *trouble == moved,
    };
    drop(page);
    let is_no_grade = source.grade(alloc, 3) == Err(moved);
    drop(source);
    is_size && is_no_page && is_no_grade
}

/// Fails where this doesn't hold.
fn holds(rt: &impl Abort, is_so: bool) {
    assert!(rt; is_so);
}

#[test]
fn replies_are_read_back(rt: HostRuntime) {
    holds(&rt, is_read_back(rt.alloc(), AT_NONE, 0));
    holds(&rt, is_read_back(rt.alloc(), AT_7, 7));
}

#[test]
fn another_version_has_moved(rt: HostRuntime) {
    holds(&rt, has_moved(rt.alloc()));
}
