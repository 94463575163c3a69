//! Heads, trailers and chunk lines at their greatest length.

use super::messages::{BAD, Kind, OK, PAGE, THE_PAGE, came_of};
use std::alloc::Global;
use test_support::wrong_texts;

/// How a message goes on behind its front.
#[derive(Clone, Copy)]
enum Filled {
    /// By a header line and the end of the head, which is that of so many bytes.
    ToLength(usize),
    /// By so many header lines and the end of the head.
    ByLines(u32),
    /// By so many bytes.
    ByBytes(usize),
}

/// The kind of a message, its front, how it goes on, and its end.
type Long = (Kind, &'static [u8], Filled, &'static [u8]);

/// The first two lines of a request.
const GET: &[u8] = b"GET / HTTP/1.1\r\nHost: h\r\n";

/// A response in one chunk, up to the extension of the chunk's line.
const UP_TO_EXTENSION: &[u8] = b"HTTP/1.1 200 OK\r\nTransfer-Encoding: chunked\r\n\r\n12;";

/// The end of that line, and what follows it.
const FROM_LINE_END: &[u8] = b"\r\n{\"rows\":[[1,900]]}\r\n0\r\n\r\n";

/// A response in one chunk, up to its trailers.
const UP_TO_TRAILERS: &[u8] =
    b"HTTP/1.1 200 OK\r\nTransfer-Encoding: chunked\r\n\r\n12\r\n{\"rows\":[[1,900]]}\r\n0\r\n";

const MORE_BYTES: &str = "more than 16384";

const MORE_LINES: &str = "more than 64";

static MESSAGES: &[(&str, Long, &str)] = &[
    (
        "a request's head of 16,384 bytes",
        (Kind::Request, GET, Filled::ToLength(16_384), b""),
        "GET /",
    ),
    (
        "one more",
        (Kind::Request, GET, Filled::ToLength(16_385), b""),
        MORE_BYTES,
    ),
    (
        "empty lines before it count",
        (
            Kind::Request,
            b"\r\n\r\nGET / HTTP/1.0\r\n",
            Filled::ToLength(16_385),
            b"",
        ),
        MORE_BYTES,
    ),
    (
        "a head that ends too soon, of 16,384 bytes",
        (
            Kind::Request,
            b"GET / HTTP/1.1\r\nHost: h\r\nA: ",
            Filled::ByBytes(16_356),
            b"",
        ),
        BAD,
    ),
    (
        "a request with 64 lines",
        (Kind::Request, GET, Filled::ByLines(63), b""),
        "GET /",
    ),
    (
        "a request with 65",
        (Kind::Request, GET, Filled::ByLines(64), b""),
        MORE_LINES,
    ),
    (
        "a response's head of 16,384 bytes",
        (Kind::Response, OK, Filled::ToLength(16_384), PAGE),
        THE_PAGE,
    ),
    (
        "a response's of one more",
        (Kind::Response, OK, Filled::ToLength(16_385), PAGE),
        MORE_BYTES,
    ),
    (
        "a response with 64 lines",
        (Kind::Response, OK, Filled::ByLines(64), PAGE),
        THE_PAGE,
    ),
    (
        "a response with 65",
        (Kind::Response, OK, Filled::ByLines(65), PAGE),
        MORE_LINES,
    ),
    (
        "64 lines of trailers",
        (Kind::Response, UP_TO_TRAILERS, Filled::ByLines(64), b""),
        THE_PAGE,
    ),
    (
        "65 of them",
        (Kind::Response, UP_TO_TRAILERS, Filled::ByLines(65), b""),
        MORE_LINES,
    ),
    (
        "long trailers",
        (
            Kind::Response,
            UP_TO_TRAILERS,
            Filled::ToLength(16_000),
            b"",
        ),
        THE_PAGE,
    ),
    (
        "longer ones",
        (
            Kind::Response,
            UP_TO_TRAILERS,
            Filled::ToLength(16_500),
            b"",
        ),
        MORE_BYTES,
    ),
    (
        "a chunk's long line",
        (
            Kind::Response,
            UP_TO_EXTENSION,
            Filled::ByBytes(16_000),
            FROM_LINE_END,
        ),
        THE_PAGE,
    ),
    (
        "a longer one",
        (
            Kind::Response,
            UP_TO_EXTENSION,
            Filled::ByBytes(16_400),
            FROM_LINE_END,
        ),
        MORE_BYTES,
    ),
];

/// Lets a message go on. False without memory.
fn is_filled(message: &mut Vec<u8>, filled: Filled) -> bool {
    match filled {
        Filled::ToLength(length) => {
            message.extend_from_slice(b"A: ").is_ok()
                && message.resize(length.saturating_sub(4), b'a').is_ok()
                && message.extend_from_slice(b"\r\n\r\n").is_ok()
        }
        Filled::ByLines(count) => are_lines_put(message, count)
            && message.extend_from_slice(b"\r\n").is_ok(),
        Filled::ByBytes(count) => message
            .resize(message.len().saturating_add(count), b'a')
            .is_ok(),
    }
}

/// Puts so many header lines behind a message. False without memory.
fn are_lines_put(message: &mut Vec<u8>, count: u32) -> bool {
    for _ in 0..count {
        if message.extend_from_slice(b"A: a\r\n").is_err() {
            return false;
        }
    }
    true
}

/// What comes of a long message. None without memory.
fn came_of_long(alloc: Global, given: &Long) -> Option<Vec<u8>> {
    let (kind, front, filled, end) = given;
    let Ok(mut message) = Vec::from_slice(alloc, *front) else {
        return None;
    };
    let text = if is_filled(&mut message, *filled) && message.extend_from_slice(*end).is_ok() {
        came_of(alloc, *kind, message.as_slice())
    } else {
        None
    };
    drop(message);
    text
}

#[test]
fn a_message_has_its_limits(rt: HostRuntime) {
    assert_eq!(rt; wrong_texts(&rt, rt.alloc(), MESSAGES, came_of_long), 0);
}
