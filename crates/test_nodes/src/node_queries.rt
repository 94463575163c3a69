//! The numbers of query parts.

use super::node_visits::{OK, first_other};
use super::none_is_wrong;
use test_mem_source::visits::{BAD, CLOSE, Parts};

/// The call for a page, the call for a grade, and the end of a head.
const PAGE: &[u8] = b"GET /lists/A/page?";

const GRADE: &[u8] = b"GET /lists/A/grade?";

const END: &[u8] = b" HTTP/1.1\r\nHost: h\r\n\r\n";

/// The reply with the row of object 2.
const SECOND: Parts = &[
    OK,
    b"Content-Length: 18\r\n",
    CLOSE,
    b"{\"rows\":[[2,800]]}",
];

/// The reply without a row.
const NONE: Parts = &[OK, b"Content-Length: 11\r\n", CLOSE, b"{\"rows\":[]}"];

/// The reply that the list hasn't the object.
const NO_OBJECT: Parts = &[OK, b"Content-Length: 14\r\n", CLOSE, b"{\"grade\":null}"];

/// Pages by their numbers.
static PAGES: &[(Parts, Parts)] = &[
    (&[PAGE, b"from=1&count=1", END], SECOND),
    (&[PAGE, b"count=1&from=1", END], SECOND),
    // Of two pairs with one name the first counts, also where it is refused; other names are free.
    (&[PAGE, b"from=1&from=0&count=1&count=x", END], SECOND),
    (&[PAGE, b"count=0&from=1&count=1", END], BAD),
    (&[PAGE, b"a=b&&from=1&FROM=2&c&count=1", END], SECOND),
    // Names and values are decoded.
    (&[PAGE, b"%66rom=%31&c%6Fun%74=1", END], SECOND),
    (&[PAGE, b"from=+1&count=1", END], BAD),
    (&[PAGE, b"from=%2B1&count=1", END], BAD),
    // The least and the greatest of each.
    (&[PAGE, b"from=1&count=0", END], BAD),
    (&[PAGE, b"from=3&count=10000", END], NONE),
    (&[PAGE, b"from=3&count=10001", END], BAD),
    (&[PAGE, b"from=4294967295&count=10000", END], NONE),
    (&[PAGE, b"from=4294967296&count=1", END], BAD),
    (&[PAGE, b"from=18446744073709551616&count=1", END], BAD),
    // What is no number, or isn't there.
    (&[PAGE, b"from=01&count=1", END], BAD),
    (&[PAGE, b"from=-1&count=1", END], BAD),
    (&[PAGE, b"from=1.0&count=1", END], BAD),
    (&[PAGE, b"from=&count=1", END], BAD),
    (&[PAGE, b"from&count=1", END], BAD),
    (&[PAGE, b"from=1", END], BAD),
    (&[PAGE, b"count=1", END], BAD),
    (&[b"GET /lists/A/page", END], BAD),
];

#[test]
fn a_page_wants_its_first_row_and_a_count(rt: HostRuntime) {
    none_is_wrong(&rt, first_other(rt.alloc(), PAGES));
}

/// Grades by their numbers.
static GRADES: &[(Parts, Parts)] = &[
    (&[GRADE, b"object=4294967295", END], NO_OBJECT),
    (&[GRADE, b"object=4294967296", END], BAD),
    (&[GRADE, b"object=9?object=1", END], BAD),
    (&[GRADE, b"from=1&object=0", END], NO_OBJECT),
    (&[GRADE, b"object=", END], BAD),
    (&[GRADE, b"", END], BAD),
    (&[b"GET /lists/A/grade", END], BAD),
];

#[test]
fn a_grade_wants_an_object(rt: HostRuntime) {
    none_is_wrong(&rt, first_other(rt.alloc(), GRADES));
}
