//! Requests to the query server that are refused by their heads, by the first cause.

use super::server_visits::{NO_QUERY, comes_to, first_other};
use super::{holds, none_is_wrong};
use std::alloc::Global;
use std::sync::Wait;
use test_mem_source::visits::{BAD, NO_HEAD, NOT_ALLOWED, NOT_FOUND, Parts, TOO_LARGE};

/// The end of a head.
const END: &[u8] = b" HTTP/1.1\r\nHost: h\r\n\r\n";

/// Requests by their methods, their targets and their bytes.
static HEADS: &[(Parts, Parts)] = &[
    (&[b"POST /other", END], NOT_ALLOWED),
    (&[b"HEAD /other", END], NO_HEAD),
    (&[b"GET /other", END], NOT_FOUND),
    (&[b"GET /top/?q=", END], NOT_FOUND),
    (&[b"GET /top", END], BAD),
    (&[b"GET /top?x=1", END], BAD),
    (&[b"GET /top?Q=", END], BAD),
    (&[b"GET top", END], BAD),
    (&[b"GET /top?q= HTTP/1.1\r\nHost: h\r\n"], BAD),
    (&[b"GET /top?q= HTTP/1.1\r\n\r\n"], BAD),
    (
        &[b"GET /top?q= HTTP/1.1\r\nHost: h\r\nHost: h\r\n\r\n"],
        BAD,
    ),
    (&[b"GET /top?q= HTTP/1.0\r\n\r\n"], NO_QUERY),
    (&[b""], BAD),
];

#[test]
fn a_head_is_refused_by_the_first_cause(rt: HostRuntime) {
    none_is_wrong(&rt, first_other(&rt, rt.alloc(), HEADS));
}

/// A request whose head has so many bytes.
fn of_length(alloc: Global, length: usize) -> Option<Vec<u8>> {
    let mut bytes = Vec::from_slice(alloc, b"GET /top?q= HTTP/1.1\r\nHost: h\r\nX: ").ok()?;
    let Ok(()) = bytes.resize(length.saturating_sub(4), b'x') else {
        return None;
    };
    let Ok(()) = bytes.extend_from_slice(b"\r\n\r\n") else {
        return None;
    };
    Some(bytes)
}

/// A request whose head has so many lines.
fn of_lines(alloc: Global, lines: u32) -> Option<Vec<u8>> {
    let mut bytes = Vec::from_slice(alloc, b"GET /top?q= HTTP/1.1\r\nHost: h\r\n").ok()?;
    for _ in 1..lines {
        let Ok(()) = bytes.extend_from_slice(b"X: x\r\n") else {
            return None;
        };
    }
    let Ok(()) = bytes.extend_from_slice(b"\r\n") else {
        return None;
    };
    Some(bytes)
}

/// Whether a request, where there is one, gets this reply.
fn gets(rt: &impl Wait, alloc: Global, request: Option<Vec<u8>>, reply: &[&[u8]]) -> bool {
    let Some(request) = request else {
        return false;
    };
    let is_so = comes_to(rt, alloc, &[request.as_slice()], reply);
    drop(request);
    is_so
}

#[test]
fn a_head_has_at_most_16_384_bytes(rt: HostRuntime) {
    let alloc = rt.alloc();
    let fits = gets(&rt, alloc, of_length(alloc, 16_384), NO_QUERY);
    holds(
        &rt,
        fits && gets(&rt, alloc, of_length(alloc, 16_385), TOO_LARGE),
    );
}

#[test]
fn a_head_has_at_most_64_lines(rt: HostRuntime) {
    let alloc = rt.alloc();
    let fits = gets(&rt, alloc, of_lines(alloc, 64), NO_QUERY);
    holds(
        &rt,
        fits && gets(&rt, alloc, of_lines(alloc, 65), TOO_LARGE),
    );
}
