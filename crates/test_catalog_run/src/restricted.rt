//! Runs over a list that offers no sorted access.

use super::cases::{Case, first_wrong, runs_over};
use std::alloc::Global;
use std::sync::Wait;
use std::thread::Threads;
use test_mem_source::{Held, Kind, shelf_of};

/// The two lists; the second offers random access alone.
const CATALOG: &str = "name,place,random,sorted\nA,a,yes,yes\nB,b,yes,no\n";

const SOURCES: &[Held] = &[
    Held {
        place: "a",
        rows: &[(1, 900), (2, 800), (3, 100)],
        kind: Kind::Honest,
    },
    Held {
        place: "b",
        rows: &[(2, 700), (3, 600), (1, 500)],
        kind: Kind::Honest,
    },
];

/// The queries that are answered, each by reading the first list alone.
const ANSWERED: &[&[u8]] = &[
    b"top 1 by sum(A,B) using taz",
    b"top 1 by wsum(1*A,0*B) using taz",
];

const FIRST: &str =
    "certificate 1\nquery top 1 by sum(A,B) using taz\ncount 3\nanswer 2 1500 1500\nstop depth 3 sorted 3 random 3 cost 6\ns A 1 900\nr B 1 500\ns A 2 800\nr B 2 700\ns A 3 100\nr B 3 600\nend\n";

const SECOND: &str =
    "certificate 2\nquery top 1 by wsum(1*A,0*B) using taz\ncount 3\nanswer 1 900 900\nstop depth 1 sorted 1 random 1 cost 2\ns A 1 900\nr B 1 500\nend\n";

static TWO_LINES: Case = Case {
    catalog: CATALOG,
    sources: SOURCES,
    lines: ANSWERED,
    page: 1,
    fails_take: None,
    text: &[FIRST, SECOND],
};

/// What is refused: every other algorithm for the first list that isn't read in order, and this one where no list is.
static REFUSED: [Case; 2] = [
    Case {
        catalog: CATALOG,
        sources: SOURCES,
        lines: &[
            b"top 1 by sum(A,B) using taz",
            b"top 1 by wsum(1*A,0*B) using taz",
            b"top 1 by sum(A,B) using nra",
            b"top 1 by B using taz",
            b"top 1 by max(A,B) using early 2",
            b"top 1 by A using theta 7/8",
        ],
        page: 1,
        fails_take: None,
        text: &[
            FIRST,
            SECOND,
            "refused 3 NoSorted B\nrefused 4 NoSorted B\nrefused 5 NoSorted B\nrefused 6 BadTheta 7 8\n",
        ],
    },
    Case {
        catalog: "name,place,random,sorted\nA,a,no,yes\nB,b,yes,no\n",
        sources: SOURCES,
        lines: &[
            b"top 1 by sum(B,A) using ta",
            b"top 1 by sum(B,A) using taz",
            b"top 1 by sum(A,B) using nra",
            b"top 1 by A using nra",
        ],
        page: 1,
        fails_take: None,
        text: &[
            "refused 1 NoRandom A\nrefused 2 NoRandom A\nrefused 3 NoSorted B\n",
            "certificate 4\nquery top 1 by A using nra\ncount 3\nanswer 1 900 900\nstop depth 1 sorted 1 random 0 cost 1\ns A 1 900\nend\n",
        ],
    },
];

/// Every run writes what it is to write: there is no first one that doesn't.
#[test]
fn reads_what_can_be_read(rt: HostRuntime) {
    assert_eq!(rt; first_wrong(&rt, rt.alloc(), &REFUSED), 0);
}

/// Whether the run of the two lines takes three grades and no row of the second list.
fn takes_grades_alone<W: Threads + Wait + Sync>(rt: &W, alloc: Global) -> bool {
    let Some(mut shelf) = shelf_of(alloc, TWO_LINES.sources) else {
        return false;
    };
    let ran = runs_over(rt, alloc, &mut shelf, &TWO_LINES);
    let given = shelf.counts_at("b").sources;
    drop(shelf);
    ran && given.rows_given == 0 && given.grades_given == 3
}

#[test]
fn takes_no_row_of_a_list_without_them(rt: HostRuntime) {
    assert!(rt; takes_grades_alone(&rt, rt.alloc()));
}
