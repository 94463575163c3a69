//! Requests to a node of the list A over a link in memory, and their replies.

use source_node::{ListRoutes, node_conn};
use std::alloc::Global;
use test_mem_source::visits::{CLOSE, PLAIN, Parts, joined, link_of, status_in};
use test_mem_source::{Held, Kind, MemSource, source_of};
use tk_io::MemLink;
use wire::ConnEnd;

/// The rows of the list A, at version 0.
pub(crate) const A: Held = Held {
    place: "A",
    rows: &[(1, 900), (2, 800), (3, 100)],
    kind: Kind::Honest,
};

/// The front of a reply with an answer.
pub(crate) const OK: &[u8] = b"HTTP/1.1 200 OK\r\nContent-Type: application/json\r\n";

/// The reply where a call of the source failed.
pub(crate) const FAILED: Parts = &[
    b"HTTP/1.1 500 Internal Server Error\r\n",
    PLAIN,
    b"Content-Length: 22\r\n",
    CLOSE,
    b"Internal Server Error\n",
];

/// The reply that says how many rows A has.
pub(crate) const SIZE: Parts = &[OK, b"Content-Length: 11\r\n", CLOSE, b"{\"count\":3}"];

/// Whether a connection ended with the reply of these parts and its status.
fn is_reply(alloc: Global, end: ConnEnd, link: &MemLink, parts: &[&[u8]]) -> bool {
    let Some(reply) = joined(alloc, parts) else {
        return false;
    };
    let is_so = match end {
        ConnEnd::Replied { status } => {
            Some(status) == status_in(&reply) && link.taken() == reply.as_slice()
        }
        _ => false,
    };
    drop(reply);
    is_so
}

/// Whether a source gets this reply to a request, so many bytes of which come in one read, where the node
/// is told a version or none.
pub(crate) fn replies(
    alloc: Global,
    source: &mut MemSource,
    version: Option<u64>,
    request: &[&[u8]],
    piece: u32,
    reply: &[&[u8]],
) -> bool {
    let Some(mut link) = link_of(alloc, request, piece, &[], &[]) else {
        return false;
    };
    let Ok(routes) = ListRoutes::make(alloc, "A") else {
        drop(link);
        return false;
    };
    let end = node_conn(alloc, &routes, version, source, &mut link);
    let is_so = is_reply(alloc, end, &link, reply);
    drop(link);
    is_so
}

/// Whether a list that no call has reached gets this reply to a request, whole and byte by byte.
pub(crate) fn comes_to(alloc: Global, held: &Held, request: &[&[u8]], reply: &[&[u8]]) -> bool {
    for piece in [1_000_000, 1] {
        let Some(mut source) = source_of(alloc, held) else {
            return false;
        };
        let is_so = replies(alloc, &mut source, None, request, piece, reply);
        drop(source);
        if !is_so {
            return false;
        }
    }
    true
}

/// The place of the first request to the list A that gets another reply.
pub(crate) fn first_other(alloc: Global, visits: &[(Parts, Parts)]) -> Option<usize> {
    for (place, (request, reply)) in visits.iter().enumerate() {
        if !comes_to(alloc, &A, request, reply) {
            return Some(place);
        }
    }
    None
}
