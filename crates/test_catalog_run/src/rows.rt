//! The outcomes of lines.

use super::cases::{Case, first_wrong};
use test_mem_source::{Held, Kind};

/// The first lists: their objects' grades don't rise.
const A: &[(u32, u32)] = &[(1, 900), (2, 800), (3, 100)];

const B: &[(u32, u32)] = &[(2, 700), (3, 600), (1, 500)];

/// The sources of the first lists, both honest; and the second one alone.
const BOTH: &[Held] = &[
    Held {
        place: "a",
        rows: A,
        kind: Kind::Honest,
    },
    SECOND,
];

const SECOND: Held = Held {
    place: "b",
    rows: B,
    kind: Kind::Honest,
};

const TWO: &str = "name,place,random\nA,a,yes\nB,b,yes\n";

/// The line that most runs ask, and the certificate of its answer, but for the certificate's number.
const LINE: &[u8] = b"top 1 by sum(A,B) using ta";

const BEST: &str =
    "query top 1 by sum(A,B) using ta\ncount 3\nanswer 2 1500 1500\nstop depth 2 sorted 4 random 3 cost 7\n";

const STEPS: &str =
    "s A 1 900\ns B 2 700\nr B 1 500\nr A 2 800\ns A 2 800\ns B 3 600\nr A 3 100\nend\n";

/// What shows before a source is asked for more than its size.
static BEFORE: [Case; 3] = [
    Case {
        catalog: "name,place,random\nA,nowhere,yes\n",
        sources: &[],
        lines: &[
            b"top 01 by A using ta",
            b"top 0 by A using ta",
            b"top 1 by",
            b"top 1 by foo(A) using ta",
        ],
        page: 100,
        fails_take: None,
        text: &[
            "refused 1 Syntax 5\nrefused 2 Number 4\nrefused 3 Syntax 8\nrefused 4 Syntax 12\n",
        ],
    },
    Case {
        catalog: "name,place,random\nA,a,yes\nB,b,yes\nS,s,no\nN,nowhere,yes\nM,nowhere,yes\n",
        sources: &[
            Held {
                place: "a",
                rows: A,
                kind: Kind::Honest,
            },
            SECOND,
            Held {
                place: "s",
                rows: &[(1, 5), (2, 4)],
                kind: Kind::Honest,
            },
        ],
        lines: &[
            LINE,
            b"top 1 by sum(A,S) using nra",
            b"top 1 by S using ta",
            b"top 1 by Z using nra",
            b"top 1 by max(A,N) using ta",
            b"top 4 by A using ta",
        ],
        page: 100,
        fails_take: None,
        text: &[
            "certificate 1\n",
            BEST,
            STEPS,
            "refused 2 CountsDiffer A 3 S 2\nrefused 3 NoRandom S\nrefused 4 UnknownList Z\nrefused 5 NotOpened N\nrefused 6 KAboveCount 4 3\n",
        ],
    },
    Case {
        catalog: TWO,
        sources: BOTH,
        lines: &[],
        page: 1,
        fails_take: None,
        text: &[],
    },
];

/// Lists whose rows or sizes are at fault.
static ROWS: [Case; 3] = [
    Case {
        catalog: TWO,
        sources: &[
            Held {
                place: "a",
                rows: &[(1, 500), (2, 600)],
                kind: Kind::Honest,
            },
            Held {
                place: "b",
                rows: &[(1, 400), (2, 300)],
                kind: Kind::Honest,
            },
        ],
        lines: &[LINE, b"top 2 by sum(A,B) using ta"],
        page: 100,
        fails_take: None,
        text: &[
            "certificate 1\nquery top 1 by sum(A,B) using ta\ncount 2\nanswer 1 900 900\nstop depth 1 sorted 2 random 0 cost 2\n",
            "s A 1 500\ns B 1 400\nend\nrefused 2 OutOfOrder A 2 500 600\n",
        ],
    },
    Case {
        catalog: "name,place,random\nA,a,yes\n",
        sources: &[Held {
            place: "a",
            rows: &[(7, 9), (8, 8), (7, 7)],
            kind: Kind::Honest,
        }],
        lines: &[b"top 3 by A using nra"],
        page: 2,
        fails_take: None,
        text: &["refused 1 Repeated A 7 3\n"],
    },
    Case {
        catalog: TWO,
        sources: &[
            Held {
                place: "a",
                rows: A,
                kind: Kind::States(5),
            },
            SECOND,
        ],
        lines: &[b"top 5 by A using nra"],
        page: 1,
        fails_take: None,
        text: &["refused 1 ShortList A 5 3\n"],
    },
];

/// Lists over objects that differ, a room that is too small, and one place under two names.
static OBJECTS: [Case; 4] = [
    Case {
        catalog: "name,place,random\nA,a,yes\nB,b,yes\nC,c,yes\nD,d,yes\n",
        sources: &[
            Held {
                place: "a",
                rows: &[(1, 9), (2, 8)],
                kind: Kind::Honest,
            },
            Held {
                place: "b",
                rows: &[(3, 7), (1, 6)],
                kind: Kind::Honest,
            },
            Held {
                place: "c",
                rows: &[(4, 7), (1, 6)],
                kind: Kind::Honest,
            },
            Held {
                place: "d",
                rows: &[(5, 7), (1, 6)],
                kind: Kind::Honest,
            },
        ],
        lines: &[
            LINE,
            b"top 1 by sum(A,C) using ta",
            b"top 1 by sum(A,D) using ta",
        ],
        page: 1,
        fails_take: None,
        text: &["refused 1 Missing A 3\nrefused 2 Missing A 4\nrefused 3 AsksFull A 2\n"],
    },
    Case {
        catalog: TWO,
        sources: &[
            Held {
                place: "a",
                rows: &[(1, 9), (2, 8)],
                kind: Kind::Honest,
            },
            Held {
                place: "b",
                rows: &[(1, 7), (3, 6)],
                kind: Kind::Honest,
            },
        ],
        lines: &[b"top 2 by sum(A,B) using ta"],
        page: 100,
        fails_take: None,
        text: &["refused 1 Strangers 3 2\n"],
    },
    Case {
        catalog: TWO,
        sources: BOTH,
        lines: &[b"top 1 by sum(A,B) using ta room 2", LINE],
        page: 100,
        fails_take: None,
        text: &["refused 1 RoomFull 2\ncertificate 2\n", BEST, STEPS],
    },
    Case {
        catalog: "name,place,random\nA,b,yes\nB,b,yes\n",
        sources: &[SECOND],
        lines: &[b"top 1 by sum(A,B) using nra"],
        page: 100,
        fails_take: None,
        text: &[
            "certificate 1\nquery top 1 by sum(A,B) using nra\ncount 3\nanswer 2 1400 1400\nstop depth 1 sorted 2 random 0 cost 2\n",
            "s A 2 700\ns B 2 700\nend\n",
        ],
    },
];

/// Calls that fail, are garbled or answered by another grade than before.
static CALLS: [Case; 4] = [
    Case {
        catalog: TWO,
        sources: &[
            Held {
                place: "a",
                rows: A,
                kind: Kind::FailsAtPage(2),
            },
            SECOND,
        ],
        lines: &[LINE, LINE],
        page: 1,
        fails_take: None,
        text: &["refused 1 Failed A\ncertificate 2\n", BEST, STEPS],
    },
    Case {
        catalog: TWO,
        sources: &[
            Held {
                place: "b",
                rows: B,
                kind: Kind::GarblesAtPage(1),
            },
            Held {
                place: "a",
                rows: A,
                kind: Kind::Honest,
            },
        ],
        lines: &[LINE],
        page: 1,
        fails_take: None,
        text: &["refused 1 Garbled B\n"],
    },
    Case {
        catalog: TWO,
        sources: &[
            Held {
                place: "a",
                rows: A,
                kind: Kind::FailsAtGrade(1),
            },
            SECOND,
        ],
        lines: &[LINE],
        page: 1,
        fails_take: None,
        text: &["refused 1 Failed A\n"],
    },
    Case {
        catalog: TWO,
        sources: BOTH,
        lines: &[
            LINE,
            b"top 1 by B using nra",
            b"top 9 by min(B,A) using nra",
        ],
        page: 1,
        fails_take: Some(1),
        text: &[
            "refused 1 NotOpened A\ncertificate 2\nquery top 1 by B using nra\ncount 3\nanswer 2 700 700\n",
            "stop depth 1 sorted 1 random 0 cost 1\ns B 2 700\nend\nrefused 3 NotOpened A\n",
        ],
    },
];

/// Sources that give another grade for an object by random access.
static GRADES: [Case; 2] = [
    Case {
        catalog: TWO,
        sources: &[
            Held {
                place: "a",
                rows: A,
                kind: Kind::Lies(2, 850),
            },
            SECOND,
        ],
        lines: &[LINE],
        page: 1,
        fails_take: None,
        text: &["refused 1 Clash A 2 800 850\n"],
    },
    Case {
        catalog: TWO,
        sources: &[
            Held {
                place: "a",
                rows: A,
                kind: Kind::Lies(2, 950),
            },
            SECOND,
        ],
        lines: &[LINE],
        page: 1,
        fails_take: None,
        text: &["refused 1 Above A 2 950 900\n"],
    },
];

/// Every run writes what it is to write: there is no first one that doesn't.
#[test]
fn writes_the_outcomes_of_lines(rt: HostRuntime) {
    let wrong = [
        first_wrong(&rt, rt.alloc(), &BEFORE),
        first_wrong(&rt, rt.alloc(), &ROWS),
        first_wrong(&rt, rt.alloc(), &OBJECTS),
        first_wrong(&rt, rt.alloc(), &CALLS),
        first_wrong(&rt, rt.alloc(), &GRADES),
    ];
    assert_eq!(rt; wrong, [0, 0, 0, 0, 0]);
}
