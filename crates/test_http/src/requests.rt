//! What is read of a request.

use super::messages::{BAD, Row, request_of};
use test_support::{row, wrong_texts};

/// Requests by their first line.
static LINES: &[Row] = &[
    row!(&[b"GET / HTTP/1.1\r\nHost: h\r\n\r\n"], "GET /"),
    row!(
        &[b"GET /top?q=top+1+by+A+using+nra HTTP/1.1\r\nHost: h\r\n\r\n"],
        "GET /top?q=top+1+by+A+using+nra"
    ),
    // Any method and target, as they stand; what follows the head isn't read as part of it.
    row!(
        &[b"POST /top HTTP/1.1\r\nHost: h\r\nContent-Length: 4\r\n\r\nbody"],
        "POST /top"
    ),
    row!(&[b"get / HTTP/1.1\r\nHost: h\r\n\r\n"], "get /"),
    row!(&[b"OPTIONS * HTTP/1.1\r\nHost: h\r\n\r\n"], "OPTIONS *"),
    row!(
        &[b"GET HTTP://h/a?b HTTP/1.1\r\nHost: other\r\n\r\n"],
        "GET HTTP://h/a?b"
    ),
    row!(
        &[b"GET /%zz#\xC3\xA9 HTTP/1.1\r\nHost: h\r\n\r\n"],
        "GET /%zz#\u{e9}"
    ),
    row!(&[b"GET /\xC3 HTTP/1.1\r\nHost: h\r\n\r\n"], BAD),
    // Versions.
    row!(&[b"GET / HTTP/1.0\r\nHost: h\r\n\r\n"], "GET /"),
    row!(&[b"GET / HTTP/1.2\r\nHost: h\r\n\r\n"], BAD),
    row!(&[b"GET / HTTP/2.0\r\nHost: h\r\n\r\n"], BAD),
    row!(&[b"GET / http/1.1\r\nHost: h\r\n\r\n"], BAD),
    row!(&[b"GET /\r\n\r\n"], BAD),
    // Other lines.
    row!(&[b"GET  / HTTP/1.1\r\nHost: h\r\n\r\n"], BAD),
    row!(&[b"GET /a b HTTP/1.1\r\nHost: h\r\n\r\n"], BAD),
    row!(&[b"GET  HTTP/1.1\r\nHost: h\r\n\r\n"], BAD),
    row!(&[b" GET / HTTP/1.1\r\nHost: h\r\n\r\n"], BAD),
    row!(&[b"G@T / HTTP/1.1\r\nHost: h\r\n\r\n"], BAD),
    row!(&[b"HTTP/1.1 200 OK\r\n\r\n"], BAD),
    row!(&[b"\0"], BAD),
    row!(&[b""], BAD),
    // Empty lines may come first, and LF alone may end a line.
    row!(&[b"\r\n\n\r\nGET / HTTP/1.1\r\nHost: h\r\n\r\n"], "GET /"),
    row!(&[b"GET / HTTP/1.1\nHost: h\n\n"], "GET /"),
    row!(&[b"\r\n\r\n"], BAD),
];

/// The first line of a request.
const GET: &[u8] = b"GET / HTTP/1.1\r\n";

/// The first line of a request of the version before.
const OLD: &[u8] = b"GET / HTTP/1.0\r\n";

/// Requests by their Host lines: exactly one in HTTP/1.1, else at most one.
static HOSTS: &[Row] = &[
    row!(&[GET, b"Host: h\r\n\r\n"], "GET /"),
    row!(&[GET, b"A: b\r\nHOST:h\r\nC: d\r\n\r\n"], "GET /"),
    row!(&[GET, b"\r\n"], BAD),
    row!(&[GET, b"Hosts: h\r\n\r\n"], BAD),
    row!(&[GET, b"Host: h\r\nHost: h\r\n\r\n"], BAD),
    row!(&[GET, b"Host: h\r\nA: b\r\nhost: i\r\n\r\n"], BAD),
    row!(&[OLD, b"\r\n"], "GET /"),
    row!(&[OLD, b"Host: h\r\n\r\n"], "GET /"),
    row!(&[OLD, b"Host: h\r\nHost: h\r\n\r\n"], BAD),
    row!(&[OLD, b"Host: h/i\r\n\r\n"], BAD),
    // Its value: letters, digits and some other characters, and nothing is one too.
    row!(&[GET, b"Host:\r\n\r\n"], "GET /"),
    row!(&[GET, b"Host: \t \r\n\r\n"], "GET /"),
    row!(&[GET, b"Host: \t 127.0.0.1:8080 \t\r\n\r\n"], "GET /"),
    row!(&[GET, b"Host: [::1]:80\r\n\r\n"], "GET /"),
    row!(
        &[
            GET,
            b"Host: abcdefghijklmnopqrstuvwxyzABCDEFGHIJKLMNOPQRSTUVWXYZ0123456789\r\n\r\n"
        ],
        "GET /"
    ),
    row!(&[GET, b"Host: -._~%!$&'()*+,;=:[]\r\n\r\n"], "GET /"),
    row!(&[GET, b"Host: h i\r\n\r\n"], BAD),
    row!(&[GET, b"Host: h\ti\r\n\r\n"], BAD),
    row!(&[GET, b"Host: h/\r\n\r\n"], BAD),
    row!(&[GET, b"Host: u@h\r\n\r\n"], BAD),
    row!(&[GET, b"Host: h?\r\n\r\n"], BAD),
    row!(&[GET, b"Host: h#\r\n\r\n"], BAD),
    row!(&[GET, b"Host: \"h\"\r\n\r\n"], BAD),
    row!(&[GET, b"Host: h\\\r\n\r\n"], BAD),
    row!(&[GET, b"Host: <h>\r\n\r\n"], BAD),
    row!(&[GET, b"Host: h^\r\n\r\n"], BAD),
    row!(&[GET, b"Host: h`\r\n\r\n"], BAD),
    row!(&[GET, b"Host: {h}\r\n\r\n"], BAD),
    row!(&[GET, b"Host: h|\r\n\r\n"], BAD),
    row!(&[GET, b"Host: \xC3\xA9\r\n\r\n"], BAD),
    // Other lines of the head.
    row!(&[GET, b"Host : h\r\n\r\n"], BAD),
    row!(&[GET, b" Host: h\r\n\r\n"], BAD),
    row!(&[GET, b"Host: h\r\n i\r\n\r\n"], BAD),
    row!(&[GET, b"Host: h\r\nA\r\n\r\n"], BAD),
];

#[test]
fn requests_are_read(rt: HostRuntime) {
    for rows in [LINES, HOSTS] {
        assert_eq!(rt; wrong_texts(&rt, rt.alloc(), rows, request_of), 0);
    }
}
