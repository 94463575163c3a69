//! Lists that are replaced while they are read.

use super::stepping::Call::{Grade, Page, Size};
use super::stepping::Gives::{Count, Ends, Graded, Rows};
use super::stepping::{Step, first_wrong};
use source_api::Trouble::Moved;
use source_api::{FailKind, Trouble};

/// The reply can't be read.
const GARBLED: Trouble = Trouble::Fail(FailKind::Garbled);

/// The head of a reply whose body ends with the connection.
const OK: &[u8] = b"HTTP/1.1 200 OK\r\n\r\n";

/// The tails of the requests that are sent for these calls.
const SIZE: &[u8] = b"/size";

const FIRST: &[u8] = b"/page?from=0&count=1";

const GRADE_OF_1: &[u8] = b"/grade?object=1";

/// Calls one after another.
static RUNS: &[&[Step]] = &[
    // The page of another version moved; after a size at that version it is given.
    &[
        (Size, SIZE, &[OK, b"{\"count\":3,\"version\":7}"], Count(3)),
        (
            Page(0, 1),
            FIRST,
            &[OK, b"{\"rows\":[[1,900]],\"version\":8}"],
            Ends(Moved { had: 7, now: 8 }),
        ),
        (Size, SIZE, &[OK, b"{\"count\":3,\"version\":8}"], Count(3)),
        (
            Page(0, 1),
            FIRST,
            &[OK, b"{\"rows\":[[1,900]],\"version\":8}"],
            Rows(&[(1, 900)]),
        ),
    ],
    // A version that isn't stated is 0, which is at hand before the first size.
    &[
        (
            Page(0, 1),
            FIRST,
            &[OK, b"{\"rows\":[[1,900]]}"],
            Rows(&[(1, 900)]),
        ),
        (
            Grade(1),
            GRADE_OF_1,
            &[OK, b"{\"grade\":900,\"version\":3}"],
            Ends(Moved { had: 0, now: 3 }),
        ),
        (Size, SIZE, &[OK, b"{\"count\":3,\"version\":3}"], Count(3)),
        (
            Grade(1),
            GRADE_OF_1,
            &[OK, b"{\"grade\":900,\"version\":3}"],
            Graded(Some(900)),
        ),
        (
            Grade(1),
            GRADE_OF_1,
            &[OK, b"{\"grade\":null}"],
            Ends(Moved { had: 3, now: 0 }),
        ),
    ],
    // A move is told before the rows are counted, and a page of too many rows at the version at hand is garbled.
    &[
        (
            Page(0, 1),
            FIRST,
            &[OK, b"{\"rows\":[[1,900],[2,800]],\"version\":8}"],
            Ends(Moved { had: 0, now: 8 }),
        ),
        (Size, SIZE, &[OK, b"{\"count\":3,\"version\":8}"], Count(3)),
        (
            Page(0, 1),
            FIRST,
            &[OK, b"{\"rows\":[[1,900],[2,800]],\"version\":8}"],
            Ends(GARBLED),
        ),
    ],
    // A size that is garbled, a page and a grade leave the version at hand.
    &[
        (Size, SIZE, &[OK, b"{\"count\":3,\"version\":7}"], Count(3)),
        (
            Size,
            SIZE,
            &[OK, b"{\"count\":null,\"version\":8}"],
            Ends(GARBLED),
        ),
        (
            Page(0, 1),
            FIRST,
            &[b"HTTP/1.1 404 Not Found\r\n\r\n{\"rows\":[[1,900]],\"version\":8}"],
            Ends(GARBLED),
        ),
        (
            Page(0, 1),
            FIRST,
            &[OK, b"{\"rows\":[[1,900]],\"version\":7}"],
            Rows(&[(1, 900)]),
        ),
        (
            Grade(1),
            GRADE_OF_1,
            &[OK, b"{\"grade\":900,\"version\":18446744073709551615}"],
            Ends(Moved {
                had: 7,
                now: u64::MAX,
            }),
        ),
        (
            Grade(1),
            GRADE_OF_1,
            &[OK, b"{\"grade\":900,\"version\":18446744073709551616}"],
            Ends(GARBLED),
        ),
        (
            Grade(1),
            GRADE_OF_1,
            &[OK, b"{\"grade\":900,\"version\":7}"],
            Graded(Some(900)),
        ),
    ],
];

#[test]
fn versions_are_followed(rt: HostRuntime) {
    assert_eq!(rt; first_wrong(rt.alloc(), RUNS), None);
}
