//! Messages that end too soon, after each of their bytes.

use super::messages::{BAD, Kind, OK, PAGE, Parts, came_of, joined};
use std::alloc::Global;
use test_support::wrong_rows;

/// A label, the kind of a message and its parts, and how many bytes of it aren't refused as no message.
type Row = (&'static str, (Kind, Parts), Option<usize>);

/// Messages of which no front is one. Where the connection ends the body, that is the head.
static CUT: &[Row] = &[
    (
        "a request",
        (
            Kind::Request,
            &[b"GET /top?q=x HTTP/1.1\r\nHost: h:80\r\nAccept: */*\r\n\r\n"],
        ),
        None,
    ),
    (
        "a body of a stated length",
        (Kind::Response, &[OK, b"Content-Length: 18\r\n\r\n", PAGE]),
        None,
    ),
    (
        "a head",
        (Kind::Response, &[OK, b"Server: a\r\n\r\n"]),
        None,
    ),
    (
        "one chunk",
        (
            Kind::Response,
            &[
                OK,
                b"Transfer-Encoding: chunked\r\n\r\n12\r\n",
                PAGE,
                b"\r\n0\r\n\r\n",
            ],
        ),
        None,
    ),
    (
        "two chunks and a trailer",
        (
            Kind::Response,
            &[
                OK,
                b"Transfer-Encoding: chunked\r\n\r\n5;a\r\n{\"row\r\nd\r\ns\":[[1,900]]}\r\n0\r\nSum: 1\r\n\r\n",
            ],
        ),
        None,
    ),
];

/// Whether bytes are refused as no message.
fn are_refused(alloc: Global, kind: Kind, bytes: &[u8]) -> bool {
    came_of(alloc, kind, bytes).as_deref() == Some(BAD.as_bytes())
}

/// After how many bytes a message may be cut without being refused, if it may.
fn first_cut(alloc: Global, given: &(Kind, Parts)) -> Option<usize> {
    let (kind, parts) = given;
    let Some(message) = joined(alloc, *parts) else {
        return Some(0);
    };
    let mut first = None;
    for length in 0..message.len() {
        if first.is_none() && !are_refused(alloc, *kind, &message[..length]) {
            first = Some(length);
        }
    }
    drop(message);
    first
}

#[test]
fn a_message_that_is_cut_is_refused(rt: HostRuntime) {
    assert_eq!(rt; wrong_rows(&rt, rt.alloc(), CUT, first_cut), 0);
}
