//! A source that moves ends a generation, and lines that are asked again.

use super::asked::{Visit, ends};
use super::holds_with_memory;
use super::server_visits::OK;
use query_server::Served;
use std::alloc::Global;
use std::sync::Wait;
use std::thread::Threads;
use std::time::Clock;
use test_mem_source::visits::{CLOSE, Parts};
use test_mem_source::{Kind, Move};

/// The best object by the sum of both lists.
const ASKS: Parts = &[b"GET /top?q=top+1+by+sum(A,B)+using+ta HTTP/1.1\r\nHost: h\r\n\r\n"];

/// All three objects: their third rows are read too.
const ASKS_ALL: Parts = &[b"GET /top?q=top+3+by+sum(A,B)+using+ta HTTP/1.1\r\nHost: h\r\n\r\n"];

/// The source of A states another version.
const MOVED: Parts = &[
    OK,
    b"Content-Length: 22\r\n",
    CLOSE,
    b"refused 1 Moved A 7 8\n",
];

/// The certificates at both versions, which were worked out by hand: at depth 2 nothing else can have more than 1400.
const BEST: Parts = &[
    OK,
    b"Content-Length: 198\r\n",
    CLOSE,
    b"certificate 1\nquery top 1 by sum(A,B) using ta\ncount 3\nversion A 7\nanswer 2 1500 1500\n",
    COURSE,
];

const BEST_NOW: Parts = &[
    OK,
    b"Content-Length: 198\r\n",
    CLOSE,
    b"certificate 1\nquery top 1 by sum(A,B) using ta\ncount 3\nversion A 8\nanswer 2 1500 1500\n",
    COURSE,
];

/// The end of both.
const COURSE: &[u8] =
    b"stop depth 2 sorted 4 random 3 cost 7\ns A 1 900\ns B 2 700\nr B 1 500\nr A 2 800\ns A 2 800\ns B 3 600\nr A 3 100\nend\n";

/// Whether requests one after another get these replies of one worker, where A states version 8 from this call on, and 7 before.
fn goes_on<R: Threads + Wait + Clock + Sync>(
    rt: &R,
    alloc: Global,
    call: u64,
    visits: &[Visit],
) -> Option<bool> {
    let moves = Kind::Moves(Move {
        had: 7,
        call,
        now: 8,
    });
    let conns = visits.len() as u64;
    let end = Served::Ended { conns };
    ends(rt, alloc, moves, 1, conns, &[], end, visits)
}

/// The third call of A is the first for a grade.
static MOVED_FIRST: &[Visit] = &[(ASKS, &[], MOVED, true), (ASKS, &[], BEST_NOW, true)];

#[test]
fn the_next_generation_is_of_the_new_version(rt: HostRuntime) {
    let is_so = goes_on(&rt, rt.alloc(), 3, MOVED_FIRST);
    holds_with_memory(&rt, is_so);
}

/// The sixth call of A is for its third row, after those that the first line needs.
static ASKED_AGAIN: &[Visit] = &[
    (ASKS, &[], BEST, true),
    (ASKS, &[], BEST, true),
    (ASKS_ALL, &[], MOVED, true),
    (ASKS, &[], BEST_NOW, true),
    (ASKS, &[], BEST_NOW, true),
];

#[test]
fn an_answer_is_remembered_for_its_generation_alone(rt: HostRuntime) {
    let is_so = goes_on(&rt, rt.alloc(), 6, ASKED_AGAIN);
    holds_with_memory(&rt, is_so);
}

/// The best object of the list that isn't open at first.
const ASKS_C: Parts = &[b"GET /top?q=top+1+by+C+using+ta HTTP/1.1\r\nHost: h\r\n\r\n"];

const CLOSED: Parts = &[
    OK,
    b"Content-Length: 22\r\n",
    CLOSE,
    b"refused 1 NotOpened C\n",
];

/// One row of C is enough.
const BEST_OF_C: Parts = &[
    OK,
    b"Content-Length: 117\r\n",
    CLOSE,
    b"certificate 1\nquery top 1 by C using ta\ncount 3\nanswer 3 950 950\nstop depth 1 sorted 1 random 0 cost 1\ns C 3 950\nend\n",
];

/// C is asked again when A moved.
static COMES_BACK: &[Visit] = &[
    (ASKS_C, &[], CLOSED, true),
    (ASKS, &[], MOVED, true),
    (ASKS_C, &[], BEST_OF_C, true),
    (ASKS, &[], BEST_NOW, true),
];

#[test]
fn a_list_that_was_not_open_at_first_comes_back(rt: HostRuntime) {
    let is_so = goes_on(&rt, rt.alloc(), 3, COMES_BACK);
    holds_with_memory(&rt, is_so);
}
