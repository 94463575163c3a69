//! Requests to a node that are refused by their heads, by the first cause.

use super::node_visits::{A, SIZE, comes_to, first_other};
use super::{holds, none_is_wrong};
use std::alloc::Global;
use test_mem_source::visits::{BAD, NO_HEAD, NOT_ALLOWED, NOT_FOUND, Parts, TOO_LARGE};

/// The end of a head.
const END: &[u8] = b" HTTP/1.1\r\nHost: h\r\n\r\n";

/// Requests by their methods and paths.
static TARGETS: &[(Parts, Parts)] = &[
    (&[b"GET /lists/A/size", END], SIZE),
    (&[b"GET /lists/A/size?", END], SIZE),
    (&[b"GET /lists/A/size?any=thing&", END], SIZE),
    // The method comes before the target, whatever that is.
    (&[b"POST /lists/A/size", END], NOT_ALLOWED),
    (&[b"HEAD /lists/A/size", END], NO_HEAD),
    (&[b"get /lists/A/size", END], NOT_ALLOWED),
    (&[b"POST * HTTP/1.1\r\nHost: h\r\n\r\n"], NOT_ALLOWED),
    (&[b"HEAD /nowhere", END], NO_HEAD),
    // So does a target that doesn't begin with a slash come before a path.
    (&[b"GET *", END], BAD),
    (&[b"GET lists/A/size", END], BAD),
    // Paths.
    (&[b"GET /", END], NOT_FOUND),
    (&[b"GET /lists/B/size", END], NOT_FOUND),
    (&[b"GET /lists/a/size", END], NOT_FOUND),
    (&[b"GET /lists/AA/size", END], NOT_FOUND),
    (&[b"GET /lists//size", END], NOT_FOUND),
    (&[b"GET /lists/A/sizes", END], NOT_FOUND),
    (&[b"GET /lists/A/size/", END], NOT_FOUND),
    (&[b"GET /lists/A", END], NOT_FOUND),
    (&[b"GET /Lists/A/size", END], NOT_FOUND),
    (&[b"GET /lists/%41/size", END], NOT_FOUND),
    (&[b"GET /list/A/page?from=0", END], NOT_FOUND),
];

#[test]
fn a_head_is_refused_by_the_first_cause(rt: HostRuntime) {
    none_is_wrong(&rt, first_other(rt.alloc(), TARGETS));
}

/// Requests whose targets stand in absolute form.
static ABSOLUTE: &[(Parts, Parts)] = &[
    (&[b"GET http://h/lists/A/size", END], SIZE),
    (&[b"GET HTTP://other:80/lists/A/size", END], SIZE),
    (&[b"GET hTTp://h/lists/B/size", END], NOT_FOUND),
    // Where the authority is followed by no slash one is put there.
    (&[b"GET http://h", END], NOT_FOUND),
    (&[b"GET http://h?/lists/A/size", END], NOT_FOUND),
    // An empty authority is none, and another scheme isn't looked at.
    (&[b"GET http:///lists/A/size", END], BAD),
    (&[b"GET http://?from=1", END], BAD),
    (&[b"GET http://", END], BAD),
    (&[b"GET http:/h/lists/A/size", END], BAD),
    (&[b"GET https://h/lists/A/size", END], BAD),
    (&[b"POST http://h/lists/A/size", END], NOT_ALLOWED),
];

#[test]
fn a_target_in_absolute_form_is_read(rt: HostRuntime) {
    none_is_wrong(&rt, first_other(rt.alloc(), ABSOLUTE));
}

/// Bytes that are no request, or pass a limit.
static BYTES: &[(Parts, Parts)] = &[
    (&[b""], BAD),
    (&[b"GET /lists/A/size HTTP/1.1\r\nHost: h\r\n"], BAD),
    (&[b"GET /lists/A/size HTTP/1.1\r\n\r\n"], BAD),
    (
        &[b"GET /lists/A/size HTTP/1.1\r\nHost: h\r\nhost: h\r\n\r\n"],
        BAD,
    ),
    (&[b"GET /lists/A/size HTTP/1.0\r\n\r\n"], SIZE),
    (&[b"HEAD /lists/A/size HTTP/1.1\r\n\r\n"], BAD),
    // The body isn't read.
    (
        &[b"GET /lists/A/size HTTP/1.1\r\nHost: h\r\nContent-Length: 4\r\n\r\nPOST"],
        SIZE,
    ),
];

#[test]
fn bytes_are_no_request(rt: HostRuntime) {
    none_is_wrong(&rt, first_other(rt.alloc(), BYTES));
}

/// A request for the size whose head has so many bytes.
fn of_length(alloc: Global, length: usize) -> Option<Vec<u8>> {
    let mut bytes = Vec::from_slice(alloc, b"GET /lists/A/size HTTP/1.1\r\nHost: h\r\nX: ").ok()?;
    let Ok(()) = bytes.resize(length.saturating_sub(4), b'x') else {
        return None;
    };
    let Ok(()) = bytes.extend_from_slice(b"\r\n\r\n") else {
        return None;
    };
    Some(bytes)
}

/// Whether a request whose head has so many bytes gets this reply.
fn length_gets(alloc: Global, length: usize, reply: &[&[u8]]) -> bool {
    let Some(request) = of_length(alloc, length) else {
        return false;
    };
    let is_so = comes_to(alloc, &A, &[request.as_slice()], reply);
    drop(request);
    is_so
}

#[test]
fn a_head_has_at_most_16_384_bytes(rt: HostRuntime) {
    holds(
        &rt,
        length_gets(rt.alloc(), 16_384, SIZE) && length_gets(rt.alloc(), 16_385, TOO_LARGE),
    );
}
