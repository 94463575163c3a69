//! Where the body of a response ends: at its stated length, or with the connection.

use super::messages::{BAD, OK, PAGE, Row, THE_PAGE};
use test_support::row;

/// Responses whose length is stated.
pub(crate) static STATED: &[Row] = &[
    row!(&[OK, b"Content-Length: 18\r\n\r\n", PAGE], THE_PAGE),
    row!(&[OK, b"content-LENGTH:18\r\n\r\n", PAGE], THE_PAGE),
    row!(&[OK, b"Content-Length: \t 18 \t\r\n\r\n", PAGE], THE_PAGE),
    row!(
        &[
            OK,
            b"Server: a\r\nContent-Length: 18\r\nETag: b\r\n\r\n",
            PAGE
        ],
        THE_PAGE
    ),
    row!(&[OK, b"Content-Length: 0\r\n\r\n"], "200 "),
    // The input ends before the body is whole, or after it.
    row!(
        &[OK, b"Content-Length: 18\r\n\r\n", b"{\"rows\":[[1,900]]"],
        BAD
    ),
    row!(&[OK, b"Content-Length: 19\r\n\r\n", PAGE], BAD),
    row!(
        &[OK, b"Content-Length: 18\r\n\r\n", PAGE, b"more"],
        THE_PAGE
    ),
    row!(&[OK, b"Content-Length: 0\r\n\r\n", PAGE], "200 "),
    // 1 to 18 digits and nothing else.
    row!(
        &[OK, b"Content-Length: 000000000000000018\r\n\r\n", PAGE],
        THE_PAGE
    ),
    row!(
        &[OK, b"Content-Length: 0000000000000000018\r\n\r\n", PAGE],
        BAD
    ),
    row!(&[OK, b"Content-Length: +18\r\n\r\n", PAGE], BAD),
    row!(&[OK, b"Content-Length: -18\r\n\r\n", PAGE], BAD),
    row!(&[OK, b"Content-Length: 1 8\r\n\r\n", PAGE], BAD),
    row!(&[OK, b"Content-Length: 18.\r\n\r\n", PAGE], BAD),
    row!(&[OK, b"Content-Length: 0x12\r\n\r\n", PAGE], BAD),
    row!(&[OK, b"Content-Length: 18, 18\r\n\r\n", PAGE], BAD),
    row!(&[OK, b"Content-Length:\r\n\r\n", PAGE], BAD),
    row!(&[OK, b"Content-Length: \t\r\n\r\n", PAGE], BAD),
    // Lines that say the same, byte for byte, and others.
    row!(
        &[
            OK,
            b"Content-Length: 18\r\nContent-Length: 18\r\n\r\n",
            PAGE
        ],
        THE_PAGE
    ),
    row!(
        &[
            OK,
            b"Content-Length: 18\r\nContent-Length:18 \r\n\r\n",
            PAGE
        ],
        THE_PAGE
    ),
    row!(
        &[
            OK,
            b"Content-Length: 18\r\nContent-Length: 19\r\n\r\n",
            PAGE
        ],
        BAD
    ),
    row!(
        &[
            OK,
            b"Content-Length: 18\r\nContent-Length: 018\r\n\r\n",
            PAGE
        ],
        BAD
    ),
    row!(
        &[
            OK,
            b"Content-Length: 18\r\nContent-Length: 18\r\nContent-Length: 17\r\n\r\n",
            PAGE
        ],
        BAD
    ),
    // More than a body may have.
    row!(
        &[OK, b"Content-Length: 16777217\r\n\r\n", PAGE],
        "more than 16777216"
    ),
    row!(
        &[OK, b"Content-Length: 999999999999999999\r\n\r\n"],
        "more than 16777216"
    ),
    row!(&[OK, b"Content-Length: 16777216\r\n\r\n", PAGE], BAD),
    // Another status has no body, whatever is said of one.
    row!(
        &[
            b"HTTP/1.1 404 Not Found\r\nContent-Length: 18\r\n\r\n",
            PAGE
        ],
        "404"
    ),
    row!(
        &[b"HTTP/1.1 404 Not Found\r\nContent-Length: x\r\n\r\n"],
        "404"
    ),
    row!(
        &[b"HTTP/1.1 500 Internal Server Error\r\nContent-Length: 16777217\r\n\r\n"],
        "500"
    ),
];

/// Responses without a length, whose body ends with the connection.
pub(crate) static TO_THE_END: &[Row] = &[
    row!(&[OK, b"\r\n", PAGE], THE_PAGE),
    row!(&[OK, b"\r\n"], "200 "),
    row!(&[OK, b"Connection: close\r\n\r\n", PAGE], THE_PAGE),
    row!(&[OK, b"X-Content-Length: 3\r\n\r\n", PAGE], THE_PAGE),
    row!(&[OK, b"\r\n", b"\r\n\r\n"], "200 \r\n\r\n"),
    row!(&[b"HTTP/1.0 200 OK\r\n\r\n", PAGE], THE_PAGE),
];
