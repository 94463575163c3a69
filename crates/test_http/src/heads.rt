//! Which bytes are the head of a response, and which statuses are read.

use super::messages::{BAD, PAGE, Row, THE_PAGE};
use test_support::row;

/// Heads of responses.
pub(crate) static HEADS: &[Row] = &[
    row!(&[b"HTTP/1.0 200 OK\r\n\r\n", PAGE], THE_PAGE),
    row!(&[b"HTTP/1.1 200 \r\n\r\n", PAGE], THE_PAGE),
    row!(&[b"HTTP/1.1 200\r\n\r\n", PAGE], THE_PAGE),
    row!(&[b"HTTP/1.1 200 as you wish\r\n\r\n", PAGE], THE_PAGE),
    row!(&[b"HTTP/1.2 200 OK\r\n\r\n", PAGE], BAD),
    row!(&[b"HTTP/2 200 OK\r\n\r\n", PAGE], BAD),
    row!(&[b"HTTP/2.0 200 OK\r\n\r\n", PAGE], BAD),
    row!(&[b"http/1.1 200 OK\r\n\r\n", PAGE], BAD),
    row!(&[b"ICY 200 OK\r\n\r\n", PAGE], BAD),
    row!(&[b"HTTP/1.1  200 OK\r\n\r\n", PAGE], BAD),
    row!(&[b"HTTP/1.1 20 OK\r\n\r\n", PAGE], BAD),
    row!(&[b"HTTP/1.1 2000 OK\r\n\r\n", PAGE], BAD),
    row!(&[b"HTTP/1.1 2x0 OK\r\n\r\n", PAGE], BAD),
    row!(&[b"GET / HTTP/1.1\r\nHost: h\r\n\r\n"], BAD),
    row!(&[PAGE], BAD),
    row!(&[b""], BAD),
    // Empty lines may come first, and LF alone may end a line.
    row!(&[b"\r\n\n\r\nHTTP/1.1 200 OK\r\n\r\n", PAGE], THE_PAGE),
    row!(&[b"\r\n\r\n"], BAD),
    row!(
        &[b"HTTP/1.1 200 OK\nContent-Length: 18\n\n", PAGE],
        THE_PAGE
    ),
    // Lines of the head.
    row!(&[b"HTTP/1.1 200 OK\r\nServer:\r\n\r\n", PAGE], THE_PAGE),
    row!(&[b"HTTP/1.1 200 OK\r\nServer : a\r\n\r\n", PAGE], BAD),
    row!(&[b"HTTP/1.1 200 OK\r\nServer\r\n\r\n", PAGE], BAD),
    row!(&[b"HTTP/1.1 200 OK\r\n: a\r\n\r\n", PAGE], BAD),
    row!(&[b"HTTP/1.1 200 OK\r\n Server: a\r\n\r\n", PAGE], BAD),
    row!(&[b"HTTP/1.1 200 OK\r\nServer: a\r\n b\r\n\r\n", PAGE], BAD),
    row!(&[b"HTTP/1.1 200 OK\r\nSer\0ver: a\r\n\r\n", PAGE], BAD),
    row!(&[b"HTTP/1.1 200 OK\r\nServer: a\0\r\n\r\n", PAGE], BAD),
    // Other statuses: interim ones are refused, the others have no body.
    row!(&[b"HTTP/1.1 100 Continue\r\n\r\n"], BAD),
    row!(
        &[
            b"HTTP/1.1 100 Continue\r\n\r\nHTTP/1.1 200 OK\r\n\r\n",
            PAGE
        ],
        BAD
    ),
    row!(&[b"HTTP/1.1 101 Switching Protocols\r\n\r\n"], BAD),
    row!(&[b"HTTP/1.1 199 Last\r\n\r\n"], BAD),
    row!(&[b"HTTP/1.1 201 Created\r\n\r\n", PAGE], "201"),
    row!(&[b"HTTP/1.1 204 No Content\r\n\r\n"], "204"),
    row!(&[b"HTTP/1.1 301 Moved Permanently\r\n\r\n"], "301"),
    row!(&[b"HTTP/1.1 404 Not Found\r\n\r\n", PAGE], "404"),
    row!(&[b"HTTP/1.1 503 Service Unavailable\r\n\r\n"], "503"),
    row!(&[b"HTTP/1.1 999 Greatest\r\n\r\n"], "999"),
    row!(&[b"HTTP/1.1 099 Small\r\n\r\n"], "99"),
    row!(&[b"HTTP/1.1 404 Not Found\r\n"], BAD),
];
