//! What a node answers of the list A, at each version that it states.

use super::node_visits::{A, FAILED, OK, replies};
use super::none_is_wrong;
use std::alloc::Global;
use test_mem_source::visits::{CLOSE, Parts};
use test_mem_source::{Held, Kind, Move, source_of};

/// The requests for the size, for a page, and for a grade.
const SIZE: Parts = &[b"GET /lists/A/size HTTP/1.1\r\nHost: h\r\n\r\n"];

const PAGE: Parts = &[b"GET /lists/A/page?from=0&count=2 HTTP/1.1\r\nHost: h\r\n\r\n"];

const GRADE: Parts = &[b"GET /lists/A/grade?object=3 HTTP/1.1\r\nHost: h\r\n\r\n"];

/// What an answer is of: requests one after another to one source, of which the last gets the reply.
type Visit = (Held, Option<u64>, &'static [Parts], Parts);

/// The list A whose source states 7, and one that states 8 from the second call on.
const AT_7: Held = Held {
    kind: Kind::IsAt(7),
    ..A
};

const MOVES: Held = Held {
    kind: Kind::Moves(Move {
        had: 7,
        call: 2,
        now: 8,
    }),
    ..A
};

/// Answers at version 0, which isn't written, and at others: the one that the node is told, or else the one at hand.
static VISITS: &[Visit] = &[
    (
        A,
        None,
        &[SIZE],
        &[OK, b"Content-Length: 11\r\n", CLOSE, b"{\"count\":3}"],
    ),
    (
        A,
        None,
        &[PAGE],
        &[
            OK,
            b"Content-Length: 26\r\n",
            CLOSE,
            b"{\"rows\":[[1,900],[2,800]]}",
        ],
    ),
    (
        A,
        None,
        &[GRADE],
        &[OK, b"Content-Length: 13\r\n", CLOSE, b"{\"grade\":100}"],
    ),
    (
        A,
        Some(7),
        &[SIZE],
        &[
            OK,
            b"Content-Length: 23\r\n",
            CLOSE,
            b"{\"count\":3,\"version\":7}",
        ],
    ),
    (
        A,
        Some(7),
        &[PAGE],
        &[
            OK,
            b"Content-Length: 38\r\n",
            CLOSE,
            b"{\"rows\":[[1,900],[2,800]],\"version\":7}",
        ],
    ),
    (
        A,
        Some(7),
        &[GRADE],
        &[
            OK,
            b"Content-Length: 25\r\n",
            CLOSE,
            b"{\"grade\":100,\"version\":7}",
        ],
    ),
    (
        AT_7,
        None,
        &[SIZE],
        &[
            OK,
            b"Content-Length: 23\r\n",
            CLOSE,
            b"{\"count\":3,\"version\":7}",
        ],
    ),
    (
        AT_7,
        Some(0),
        &[SIZE],
        &[OK, b"Content-Length: 11\r\n", CLOSE, b"{\"count\":3}"],
    ),
    (
        AT_7,
        None,
        &[SIZE, PAGE],
        &[
            OK,
            b"Content-Length: 38\r\n",
            CLOSE,
            b"{\"rows\":[[1,900],[2,800]],\"version\":7}",
        ],
    ),
    // A page or a grade of another version than the one at hand is none.
    (AT_7, None, &[PAGE], FAILED),
    (MOVES, None, &[SIZE, GRADE], FAILED),
    (MOVES, Some(7), &[SIZE, PAGE], FAILED),
    (
        MOVES,
        None,
        &[SIZE, SIZE],
        &[
            OK,
            b"Content-Length: 23\r\n",
            CLOSE,
            b"{\"count\":3,\"version\":8}",
        ],
    ),
];

/// Whether the last of these requests gets the reply.
fn is_answered(alloc: Global, visit: &Visit) -> bool {
    let (held, version, requests, reply) = visit;
    let Some(mut source) = source_of(alloc, held) else {
        return false;
    };
    let mut is_so = false;
    for request in *requests {
        is_so = replies(alloc, &mut source, *version, request, 64, reply);
    }
    drop(source);
    is_so
}

/// The place of the first visit that ends with another reply.
fn first_other(alloc: Global, visits: &[Visit]) -> Option<usize> {
    for (place, visit) in visits.iter().enumerate() {
        if !is_answered(alloc, visit) {
            return Some(place);
        }
    }
    None
}

#[test]
fn an_answer_states_its_version(rt: HostRuntime) {
    none_is_wrong(&rt, first_other(rt.alloc(), VISITS));
}
