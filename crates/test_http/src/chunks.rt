//! Bodies in chunks.

use super::messages::{BAD, OK, PAGE, Row, THE_PAGE};
use test_support::row;

/// The head of a response whose body is in chunks.
const CHUNKED: &[u8] = b"HTTP/1.1 200 OK\r\nTransfer-Encoding: chunked\r\n\r\n";

/// The line of a chunk that is the page.
const LINE: &[u8] = b"12\r\n";

/// The end of the chunk before, the last chunk and the end of a body without trailers.
const LAST: &[u8] = b"\r\n0\r\n\r\n";

/// Responses by the lines that say how the body is sent.
pub(crate) static CODINGS: &[Row] = &[
    row!(&[CHUNKED, LINE, PAGE, LAST], THE_PAGE),
    row!(
        &[
            OK,
            b"transfer-encoding:\tCHUNKed \r\n\r\n",
            LINE,
            PAGE,
            LAST
        ],
        THE_PAGE
    ),
    row!(&[OK, b"Transfer-Encoding: gzip\r\n\r\n", PAGE], BAD),
    row!(
        &[
            OK,
            b"Transfer-Encoding: gzip, chunked\r\n\r\n",
            LINE,
            PAGE,
            LAST
        ],
        BAD
    ),
    row!(&[OK, b"Transfer-Encoding: identity\r\n\r\n", PAGE], BAD),
    row!(&[OK, b"Transfer-Encoding:\r\n\r\n", LINE, PAGE, LAST], BAD),
    row!(
        &[
            OK,
            b"Transfer-Encoding: chunked\r\nTransfer-Encoding: chunked\r\n\r\n",
            LINE,
            PAGE,
            LAST
        ],
        BAD
    ),
    row!(
        &[
            OK,
            b"Transfer-Encoding: gzip\r\nTransfer-Encoding: chunked\r\n\r\n",
            LINE,
            PAGE,
            LAST
        ],
        BAD
    ),
    row!(
        &[
            OK,
            b"Transfer-Encoding: chunked\r\nContent-Length: 18\r\n\r\n",
            LINE,
            PAGE,
            LAST
        ],
        BAD
    ),
    row!(
        &[
            OK,
            b"Content-Length: 18\r\nTransfer-Encoding: chunked\r\n\r\n",
            PAGE
        ],
        BAD
    ),
];

/// Bodies in chunks.
pub(crate) static BODIES: &[Row] = &[
    row!(
        &[CHUNKED, b"5\r\n{\"row\r\nd\r\ns\":[[1,900]]}", LAST],
        THE_PAGE
    ),
    row!(
        &[CHUNKED, b"5\r\n{\"row\r\nD\r\ns\":[[1,900]]}", LAST],
        THE_PAGE
    ),
    row!(
        &[
            CHUNKED,
            b"5;a\r\n{\"row\r\nd\r\ns\":[[1,900]]}\r\n0\r\nSum: 1\r\n\r\n"
        ],
        THE_PAGE
    ),
    row!(&[CHUNKED, b"0\r\n\r\n"], "200 "),
    row!(&[CHUNKED, LINE, PAGE, LAST, b"more"], THE_PAGE),
    // The data of a chunk may be any bytes.
    row!(&[CHUNKED, b"5\r\n0\r\n\r\n", LAST], "200 0\r\n\r\n"),
    // Extensions are passed over.
    row!(&[CHUNKED, b"12;a=b\r\n", PAGE, LAST], THE_PAGE),
    row!(&[CHUNKED, b"12 \t; a=\"b;\"; c\r\n", PAGE, LAST], THE_PAGE),
    row!(
        &[CHUNKED, b"12;\r\n", PAGE, b"\r\n0;last\r\n\r\n"],
        THE_PAGE
    ),
    row!(&[CHUNKED, b"12 a\r\n", PAGE, LAST], BAD),
    // So are trailers, which say nothing of the body.
    row!(&[CHUNKED, LINE, PAGE, b"\r\n0\r\nSum: 1\r\n\r\n"], THE_PAGE),
    row!(
        &[
            CHUNKED,
            LINE,
            PAGE,
            b"\r\n0\r\nContent-Length: 3\r\nTransfer-Encoding: gzip\r\n\r\n"
        ],
        THE_PAGE
    ),
    row!(&[CHUNKED, LINE, PAGE, b"\r\n0\r\nSum\r\n\r\n"], BAD),
    row!(&[CHUNKED, LINE, PAGE, b"\r\n0\r\n folded: 1\r\n\r\n"], BAD),
    row!(&[CHUNKED, LINE, PAGE, b"\r\n0\r\nSum: 1\r\n"], BAD),
    // The last chunk is the first one of size 0, however it is written.
    row!(&[CHUNKED, LINE, PAGE, b"\r\n000\r\n\r\n"], THE_PAGE),
    row!(
        &[CHUNKED, LINE, PAGE, b"\r\n0000000000000000\r\n\r\n"],
        THE_PAGE
    ),
    row!(
        &[CHUNKED, LINE, PAGE, b"\r\n00000000000000000\r\n\r\n"],
        BAD
    ),
    // 1 to 16 digits.
    row!(&[CHUNKED, b"0000000000000012\r\n", PAGE, LAST], THE_PAGE),
    row!(&[CHUNKED, b"00000000000000012\r\n", PAGE, LAST], BAD),
    row!(&[CHUNKED, b"\r\n", PAGE, LAST], BAD),
    row!(&[CHUNKED, b" 12\r\n", PAGE, LAST], BAD),
    row!(&[CHUNKED, b"0x12\r\n", PAGE, LAST], BAD),
    row!(&[CHUNKED, b"+12\r\n", PAGE, LAST], BAD),
    row!(&[CHUNKED, b"12g\r\n", PAGE, LAST], BAD),
    // CR LF alone ends a chunk's line and its data.
    row!(&[CHUNKED, b"12\n", PAGE, LAST], BAD),
    row!(&[CHUNKED, LINE, PAGE, b"0\r\n\r\n"], BAD),
    row!(&[CHUNKED, LINE, PAGE, b"\n0\r\n\r\n"], BAD),
    row!(&[CHUNKED, LINE, PAGE, b"\r0\r\n\r\n"], BAD),
    row!(&[CHUNKED, b"11\r\n", PAGE, LAST], BAD),
    row!(&[CHUNKED, b"13\r\n", PAGE, LAST], BAD),
    // The input ends too soon.
    row!(&[CHUNKED], BAD),
    row!(&[CHUNKED, LINE, PAGE, b"\r\n"], BAD),
    row!(&[CHUNKED, LINE, PAGE, b"\r\n0\r\n"], BAD),
    // More than a body may have.
    row!(&[CHUNKED, b"1000001\r\n", PAGE, LAST], "more than 16777216"),
    row!(&[CHUNKED, b"FFFFFFFFFFFFFFFF\r\n"], "more than 16777216"),
    row!(&[CHUNKED, b"1000000\r\n", PAGE, LAST], BAD),
];
