//! One line alone, of which one call of a source fails, is answered by what can't be read, or of another version of the list.

use super::none_is_wrong;
use super::told_cases::{CATALOG, Case, Row, goes_on};
use command_line::Status;
use std::alloc::Global;
use std::sync::Wait;
use std::thread::Threads;
use test_mem_source::{Held, Kind, Move, shelf_of};

/// Ways in which the source of a place differs from an honest one, each alone, and how the run ends and what it writes then.
struct Calls {
    place: &'static str,
    kinds: &'static [Kind],
    status: Status,
    text: &'static str,
}

/// A row a page, and nothing is read ahead.
const ONE_ROW: &[&str] = &[
    "run",
    CATALOG,
    "--workers",
    "1",
    "--page",
    "1",
    "--ahead",
    "0",
];

/// What is written where no call goes wrong that is made: the size, two rows and both other grades of A, and of B two rows and one grade.
const ANSWER: &str =
    "certificate 1\nquery top 1 by sum(A,B) using ta\ncount 3\nanswer 2 1500 1500\nstop depth 2 sorted 4 random 3 cost 7\ns A 1 900\ns B 2 700\nr B 1 500\nr A 2 800\ns A 2 800\ns B 3 600\nr A 3 100\nend\n";

/// The same where A is at version 7: one line more, 12 bytes.
const ANSWER_AT_7: &str =
    "certificate 1\nquery top 1 by sum(A,B) using ta\ncount 3\nversion A 7\nanswer 2 1500 1500\nstop depth 2 sorted 4 random 3 cost 7\ns A 1 900\ns B 2 700\nr B 1 500\nr A 2 800\ns A 2 800\ns B 3 600\nr A 3 100\nend\n";

/// Version 7 of a list is replaced by version 8 just before the grade of object 2 is asked of it, which is the third call; after the last call.
const AT_A_GRADE: Kind = Kind::Moves(Move {
    had: 7,
    call: 3,
    now: 8,
});

const AT_THE_END: Kind = Kind::Moves(Move {
    had: 7,
    call: 6,
    now: 8,
});

/// Each call that the line makes, and of those that it doesn't make the next ones.
static CALLS: [Calls; 8] = [
    Calls {
        place: "a",
        kinds: &[
            Kind::FailsAtPage(1),
            Kind::FailsAtPage(2),
            Kind::FailsAtGrade(1),
            Kind::FailsAtGrade(2),
        ],
        status: Status::Partial,
        text: "refused 1 Failed A\n",
    },
    Calls {
        place: "b",
        kinds: &[
            Kind::FailsAtPage(1),
            Kind::FailsAtPage(2),
            Kind::FailsAtGrade(1),
        ],
        status: Status::Partial,
        text: "refused 1 Failed B\n",
    },
    Calls {
        place: "a",
        kinds: &[
            Kind::GarblesAtPage(1),
            Kind::GarblesAtGrade(1),
            Kind::GarblesAtGrade(2),
        ],
        status: Status::Partial,
        text: "refused 1 Garbled A\n",
    },
    Calls {
        place: "b",
        kinds: &[Kind::GarblesAtPage(2), Kind::GarblesAtGrade(1)],
        status: Status::Partial,
        text: "refused 1 Garbled B\n",
    },
    Calls {
        place: "a",
        kinds: &[AT_A_GRADE],
        status: Status::Partial,
        text: "refused 1 Moved A 7 8\n",
    },
    Calls {
        place: "a",
        kinds: &[Kind::FailsAtPage(3), Kind::GarblesAtGrade(3)],
        status: Status::Done,
        text: ANSWER,
    },
    Calls {
        place: "a",
        kinds: &[Kind::IsAt(7), AT_THE_END],
        status: Status::Done,
        text: ANSWER_AT_7,
    },
    Calls {
        place: "b",
        kinds: &[Kind::FailsAtGrade(2), Kind::GarblesAtPage(3)],
        status: Status::Done,
        text: ANSWER,
    },
];

/// The source of a place, which differs so where it is the one that does.
fn held_at(place: &'static str, rows: &'static [(u32, u32)], calls: &Calls, kind: Kind) -> Held {
    let kind = if place == calls.place {
        kind
    } else {
        Kind::Honest
    };
    Held { place, rows, kind }
}

/// Whether the line comes to what it is to where one source differs so.
fn goes_so<W: Threads + Wait + Sync>(rt: &W, alloc: Global, calls: &Calls, kind: Kind) -> bool {
    let first = held_at("a", &[(1, 900), (2, 800), (3, 100)], calls, kind);
    let second = held_at("b", &[(2, 700), (3, 600), (1, 500)], calls, kind);
    let Some(mut shelf) = shelf_of(alloc, &[first, second]) else {
        return false;
    };
    let row = Row {
        case: Case {
            words: ONE_ROW,
            catalog: "name,place,random\nA,a,yes\nB,b,yes\n",
            sources: &[],
            lines: "top 1 by sum(A,B) using ta\n",
        },
        status: calls.status,
        text: calls.text,
    };
    let goes = goes_on(rt, alloc, &mut shelf, &row);
    drop(shelf);
    goes
}

/// Whether the line comes to what it is to in each of these ways.
fn go_so<W: Threads + Wait + Sync>(rt: &W, alloc: Global, calls: &Calls) -> bool {
    for kind in calls.kinds {
        if !goes_so(rt, alloc, calls, *kind) {
            return false;
        }
    }
    true
}

/// The place of the first ways of which one comes to something else.
fn first_wrong<W: Threads + Wait + Sync>(rt: &W, alloc: Global, rows: &[Calls]) -> Option<usize> {
    for (place, calls) in rows.iter().enumerate() {
        if !go_so(rt, alloc, calls) {
            return Some(place);
        }
    }
    None
}

#[test]
fn refuses_a_line_for_its_own_calls(rt: HostRuntime) {
    none_is_wrong(&rt, first_wrong(&rt, rt.alloc(), &CALLS));
}
