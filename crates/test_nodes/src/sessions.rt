//! Replies of every kind, each to one call.

use super::stepping::Call::{Grade, Page, Size};
use super::stepping::Gives::{Count, Ends, Graded, Rows};
use super::stepping::{Step, first_wrong};
use source_api::{FailKind, Trouble};

/// The reply can't be read.
const GARBLED: Trouble = Trouble::Fail(FailKind::Garbled);

/// The head of a reply whose body ends with the connection.
const OK: &[u8] = b"HTTP/1.1 200 OK\r\n\r\n";

/// The head of a reply whose body is in chunks.
const CHUNKED: &[u8] = b"HTTP/1.1 200 OK\r\nTransfer-Encoding: chunked\r\n\r\n";

/// The tails of the requests that are sent for these calls.
const SIZE: &[u8] = b"/size";

const FIRST_TWO: &[u8] = b"/page?from=0&count=2";

const GRADE_OF_5: &[u8] = b"/grade?object=5";

/// Calls for the size.
static SIZES: &[&[Step]] = &[
    &[(Size, SIZE, &[OK, b"{\"count\":3}"], Count(3))],
    &[(Size, SIZE, &[OK, b"{\"count\":0,\"note\":1}"], Count(0))],
    // Any count is given, also one that is refused above.
    &[(Size, SIZE, &[OK, b"{\"count\":200001}"], Count(200_001))],
    &[(
        Size,
        SIZE,
        &[OK, b"{\"count\":18446744073709551615}"],
        Count(u64::MAX),
    )],
    &[(
        Size,
        SIZE,
        &[OK, b"{\"count\":18446744073709551616}"],
        Ends(GARBLED),
    )],
    &[(Size, SIZE, &[OK, b"{\"count\":3.0}"], Ends(GARBLED))],
    &[(Size, SIZE, &[OK, b"{\"grade\":3}"], Ends(GARBLED))],
    &[(Size, SIZE, &[OK, b"3"], Ends(GARBLED))],
    &[(Size, SIZE, &[OK], Ends(GARBLED))],
    &[(Size, SIZE, &[], Ends(GARBLED))],
    &[(
        Size,
        SIZE,
        &[OK, b"{\"count\":3,\"version\":-1}"],
        Ends(GARBLED),
    )],
    // The length of the body is stated, or it is in chunks.
    &[(
        Size,
        SIZE,
        &[b"HTTP/1.1 200 OK\r\nContent-Length: 11\r\n\r\n{\"count\":3}x"],
        Count(3),
    )],
    &[(
        Size,
        SIZE,
        &[b"HTTP/1.0 200 Fine\r\nContent-Length: 10\r\n\r\n{\"count\":3}"],
        Ends(GARBLED),
    )],
    &[(
        Size,
        SIZE,
        &[CHUNKED, b"4\r\n{\"co\r\n7\r\nunt\":3}\r\n0\r\n\r\n"],
        Count(3),
    )],
    &[(
        Size,
        SIZE,
        &[b"HTTP/1.1 200 OK\r\nContent-Length: 16777217\r\n\r\n{\"count\":3}"],
        Ends(GARBLED),
    )],
    // Another status than 200.
    &[(
        Size,
        SIZE,
        &[b"HTTP/1.1 404 Not Found\r\n\r\n{\"count\":3}"],
        Ends(GARBLED),
    )],
    &[(
        Size,
        SIZE,
        &[b"HTTP/1.1 500 Internal Server Error\r\n\r\n{\"count\":3}"],
        Ends(GARBLED),
    )],
    &[(
        Size,
        SIZE,
        &[b"HTTP/1.1 201 Created\r\n\r\n{\"count\":3}"],
        Ends(GARBLED),
    )],
    &[(
        Size,
        SIZE,
        &[b"HTTP/1.1 100 Continue\r\n\r\n", OK, b"{\"count\":3}"],
        Ends(GARBLED),
    )],
];

#[test]
fn sizes_are_read(rt: HostRuntime) {
    assert_eq!(rt; first_wrong(rt.alloc(), SIZES), None);
}

/// Calls for rows.
static PAGES: &[&[Step]] = &[
    &[(
        Page(0, 2),
        FIRST_TWO,
        &[OK, b"{\"rows\":[[1,900],[2,800]]}"],
        Rows(&[(1, 900), (2, 800)]),
    )],
    // Fewer rows than were asked for are a page, and so are none.
    &[(
        Page(7, 10_000),
        b"/page?from=7&count=10000",
        &[OK, b"{\"rows\":[[1,900]]}"],
        Rows(&[(1, 900)]),
    )],
    &[(Page(0, 2), FIRST_TWO, &[OK, b"{\"rows\":[]}"], Rows(&[]))],
    // More are none.
    &[(
        Page(0, 2),
        FIRST_TWO,
        &[OK, b"{\"rows\":[[1,900],[2,800],[3,700]]}"],
        Ends(GARBLED),
    )],
    &[(
        Page(4_294_967_295, 1),
        b"/page?from=4294967295&count=1",
        &[OK, b"{\"rows\":[[1,900],[2,800]]}"],
        Ends(GARBLED),
    )],
    &[(
        Page(0, 2),
        FIRST_TWO,
        &[OK, b"{\"rows\":[[1,4294967296]]}"],
        Ends(GARBLED),
    )],
    &[(
        Page(0, 2),
        FIRST_TWO,
        &[OK, b"{\"count\":3}"],
        Ends(GARBLED),
    )],
    &[(
        Page(0, 2),
        FIRST_TWO,
        &[
            CHUNKED,
            b"12\r\n{\"rows\":[[1,900]]}\r\n0\r\nSum: 1\r\n\r\n",
        ],
        Rows(&[(1, 900)]),
    )],
    // A status that isn't 200 is no empty list.
    &[(
        Page(0, 2),
        FIRST_TWO,
        &[b"HTTP/1.1 404 Not Found\r\n\r\n{\"rows\":[]}"],
        Ends(GARBLED),
    )],
    &[(
        Page(0, 2),
        FIRST_TWO,
        &[b"HTTP/1.1 500 Internal Server Error\r\nContent-Length: 11\r\n\r\n{\"rows\":[]}"],
        Ends(GARBLED),
    )],
];

#[test]
fn pages_are_read(rt: HostRuntime) {
    assert_eq!(rt; first_wrong(rt.alloc(), PAGES), None);
}

/// Calls for a grade.
static GRADES: &[&[Step]] = &[
    &[(
        Grade(5),
        GRADE_OF_5,
        &[OK, b"{\"grade\":500}"],
        Graded(Some(500)),
    )],
    &[(
        Grade(5),
        GRADE_OF_5,
        &[OK, b"{\"grade\":0}"],
        Graded(Some(0)),
    )],
    // The list hasn't the object.
    &[(
        Grade(4_294_967_295),
        b"/grade?object=4294967295",
        &[OK, b"{\"grade\":null}"],
        Graded(None),
    )],
    &[(
        Grade(5),
        GRADE_OF_5,
        &[OK, b"{\"grade\":-1}"],
        Ends(GARBLED),
    )],
    &[(Grade(5), GRADE_OF_5, &[OK, b"{}"], Ends(GARBLED))],
    &[(
        Grade(5),
        GRADE_OF_5,
        &[b"HTTP/1.1 404 Not Found\r\n\r\n{\"grade\":null}"],
        Ends(GARBLED),
    )],
    &[(
        Grade(5),
        GRADE_OF_5,
        &[b"HTTP/1.1 503 Service Unavailable\r\n\r\n"],
        Ends(GARBLED),
    )],
];

#[test]
fn grades_are_read(rt: HostRuntime) {
    assert_eq!(rt; first_wrong(rt.alloc(), GRADES), None);
}
