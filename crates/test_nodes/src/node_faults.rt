//! Each call of a source, and each read and write of a link, failing in turn.

use super::node_visits::{A, FAILED, OK, comes_to};
use super::{holds, none_is_wrong};
use source_node::{ListRoutes, node_conn};
use std::alloc::Global;
use test_mem_source::visits::{CLOSE, Parts, joined};
use test_mem_source::{Held, Kind, source_of};
use tk_io::MemLink;
use wire::ConnEnd;

/// The calls for a page, in one page and to the end of the list, and for a grade.
const PAGE: Parts = &[b"GET /lists/A/page?from=0&count=3 HTTP/1.1\r\nHost: h\r\n\r\n"];

const TO_END: Parts = &[b"GET /lists/A/page?from=2&count=2 HTTP/1.1\r\nHost: h\r\n\r\n"];

const GRADE: Parts = &[b"GET /lists/A/grade?object=3 HTTP/1.1\r\nHost: h\r\n\r\n"];

const NOWHERE: Parts = &[b"GET /lists/A HTTP/1.1\r\nHost: h\r\n\r\n"];

/// The reply with all rows.
const ROWS: Parts = &[
    OK,
    b"Content-Length: 34\r\n",
    CLOSE,
    b"{\"rows\":[[1,900],[2,800],[3,100]]}",
];

/// Sources that fail or are garbled at a call, what is asked of them, and the reply.
static SOURCES: &[(Held, Parts, Parts)] = &[
    (
        Held {
            kind: Kind::FailsAtPage(1),
            ..A
        },
        PAGE,
        FAILED,
    ),
    (
        Held {
            kind: Kind::GarblesAtPage(1),
            ..A
        },
        PAGE,
        FAILED,
    ),
    (
        Held {
            kind: Kind::FailsAtGrade(1),
            ..A
        },
        GRADE,
        FAILED,
    ),
    (
        Held {
            kind: Kind::GarblesAtGrade(1),
            ..A
        },
        GRADE,
        FAILED,
    ),
    // One page that has all rows is enough; else another one is asked for.
    (
        Held {
            kind: Kind::FailsAtPage(2),
            ..A
        },
        PAGE,
        ROWS,
    ),
    (
        Held {
            kind: Kind::FailsAtPage(2),
            ..A
        },
        TO_END,
        FAILED,
    ),
];

/// The place of the first of these sources that gets another reply.
fn first_other(alloc: Global, sources: &[(Held, Parts, Parts)]) -> Option<usize> {
    for (place, (held, request, reply)) in sources.iter().enumerate() {
        if !comes_to(alloc, held, request, reply) {
            return Some(place);
        }
    }
    None
}

#[test]
fn a_call_of_the_source_fails(rt: HostRuntime) {
    none_is_wrong(&rt, first_other(rt.alloc(), SOURCES));
}

/// The number of the read or write of a link that fails.
#[derive(Clone, Copy)]
enum Fails {
    Read(u64),
    Write(u64),
}

/// The bytes that a node has written when a call of its link fails, or None where it ended otherwise.
fn written_at(alloc: Global, request: Parts, fails: Fails) -> Option<usize> {
    let bytes = joined(alloc, request)?;
    let link = match fails {
        Fails::Read(call) => MemLink::make(alloc, &bytes, 8, 1_000, &[call], &[], None),
        Fails::Write(call) => MemLink::make(alloc, &bytes, 8, 1_000, &[], &[call], None),
    };
    let mut link = link.ok()?;
    let mut source = source_of(alloc, &A)?;
    let routes = ListRoutes::make(alloc, "A").ok()?;
    let end = node_conn(alloc, &routes, None, &mut source, &mut link);
    let written = link.taken().len();
    drop(source);
    drop(link);
    if end == ConnEnd::LinkFault {
        Some(written)
    } else {
        None
    }
}

#[test]
fn a_call_of_the_link_fails(rt: HostRuntime) {
    let alloc = rt.alloc();
    holds(&rt, written_at(alloc, PAGE, Fails::Read(1)) == Some(0));
    holds(&rt, written_at(alloc, PAGE, Fails::Read(6)) == Some(0));
    holds(&rt, written_at(alloc, PAGE, Fails::Write(1)) == Some(0));
    holds(&rt, written_at(alloc, NOWHERE, Fails::Write(1)) == Some(0));
}
