//! Query lines that are refused.

use super::none_is_wrong;
use super::told_cases::{Case, RUN, Row, first_wrong};
use command_line::Status;
use test_mem_source::{Held, Kind};

const TWO: &str = "name,place,random\nA,a,yes\nB,b,yes\n";

/// The sources of these rows give one row in each page, and nothing is read ahead.
const ONE_ROW: &[&str] = &["run", "cat.csv", "--page", "1", "--ahead", "0"];

const A: &[(u32, u32)] = &[(1, 900), (2, 800), (3, 100)];

const SECOND: Held = Held {
    place: "b",
    rows: &[(2, 700), (3, 600), (1, 500)],
    kind: Kind::Honest,
};

/// Lines that are refused by their text and the catalog, by the rows of their sources, and by the grades and sizes that sources give.
static REFUSED: [Row; 9] = [
    // by the text and the catalog
    Row {
        case: Case {
            words: RUN,
            catalog: "name,place,random\nA,nowhere,yes\n",
            sources: &[],
            lines: "top 01 by A using ta\ntop 0 by A using ta\ntop 1 by\ntop 1 by foo(A) using ta\n",
        },
        status: Status::Partial,
        text: "refused 1 Syntax 5\nrefused 2 Number 4\nrefused 3 Syntax 8\nrefused 4 Syntax 12\n",
    },
    Row {
        case: Case {
            words: RUN,
            catalog: "name,place,random\nN,nowhere,yes\nM,nowhere,yes\n",
            sources: &[],
            lines: "top 1 by N using ta\ntop 1 by sum(M,N) using ta\ntop 1 by sum(Z,N) using ta\n",
        },
        status: Status::Partial,
        text: "refused 1 NotOpened N\nrefused 2 NotOpened M\nrefused 3 UnknownList Z\n",
    },
    // by the rows
    Row {
        case: Case {
            words: &["run", "cat.csv", "--page", "2"],
            catalog: "name,place,random\nA,a,yes\n",
            sources: &[Held {
                place: "a",
                rows: &[(7, 9), (8, 8), (7, 7)],
                kind: Kind::Honest,
            }],
            lines: "top 3 by A using nra",
        },
        status: Status::Partial,
        text: "refused 1 Repeated A 7 3\n",
    },
    Row {
        case: Case {
            words: RUN,
            catalog: TWO,
            sources: &[
                Held {
                    place: "a",
                    rows: &[(1, 9), (2, 8)],
                    kind: Kind::Honest,
                },
                Held {
                    place: "b",
                    rows: &[(1, 7), (3, 6)],
                    kind: Kind::Honest,
                },
            ],
            lines: "top 2 by sum(A,B) using ta",
        },
        status: Status::Partial,
        text: "refused 1 Strangers 3 2\n",
    },
    Row {
        case: Case {
            words: &[
                "run",
                "cat.csv",
                "--workers",
                "1",
                "--page",
                "1",
                "--ahead",
                "0",
            ],
            catalog: "name,place,random\nA,a,yes\nB,b,yes\nC,c,yes\nD,d,yes\n",
            sources: &[
                Held {
                    place: "a",
                    rows: &[(1, 9), (2, 8)],
                    kind: Kind::Honest,
                },
                Held {
                    place: "b",
                    rows: &[(3, 7), (1, 6)],
                    kind: Kind::Honest,
                },
                Held {
                    place: "c",
                    rows: &[(4, 7), (1, 6)],
                    kind: Kind::Honest,
                },
                Held {
                    place: "d",
                    rows: &[(5, 7), (1, 6)],
                    kind: Kind::Honest,
                },
            ],
            lines: "top 1 by sum(A,B) using ta\ntop 1 by sum(A,C) using ta\ntop 1 by sum(A,D) using ta\n",
        },
        status: Status::Partial,
        text: "refused 1 Missing A 3\nrefused 2 Missing A 4\nrefused 3 AsksFull A 2\n",
    },
    // by the grades and sizes that are given
    Row {
        case: Case {
            words: ONE_ROW,
            catalog: TWO,
            sources: &[
                Held {
                    place: "a",
                    rows: A,
                    kind: Kind::Lies(2, 850),
                },
                SECOND,
            ],
            lines: "top 1 by sum(A,B) using ta",
        },
        status: Status::Partial,
        text: "refused 1 Clash A 2 800 850\n",
    },
    Row {
        case: Case {
            words: ONE_ROW,
            catalog: TWO,
            sources: &[
                Held {
                    place: "a",
                    rows: A,
                    kind: Kind::Lies(2, 950),
                },
                SECOND,
            ],
            lines: "top 1 by sum(A,B) using ta",
        },
        status: Status::Partial,
        text: "refused 1 Above A 2 950 900\n",
    },
    Row {
        case: Case {
            words: ONE_ROW,
            catalog: TWO,
            sources: &[
                Held {
                    place: "a",
                    rows: A,
                    kind: Kind::States(5),
                },
                SECOND,
            ],
            lines: "top 5 by A using nra",
        },
        status: Status::Partial,
        text: "refused 1 ShortList A 5 3\n",
    },
    Row {
        case: Case {
            words: RUN,
            catalog: TWO,
            sources: &[
                Held {
                    place: "a",
                    rows: A,
                    kind: Kind::States(200_001),
                },
                SECOND,
            ],
            lines: "top 1 by A using nra\ntop 1 by B using nra\n",
        },
        status: Status::Partial,
        text: "refused 1 TooLarge A 200001\ncertificate 2\nquery top 1 by B using nra\ncount 3\nanswer 2 700 700\nstop depth 1 sorted 1 random 0 cost 1\ns B 2 700\nend\n",
    },
];

#[test]
fn refuses_lines(rt: HostRuntime) {
    none_is_wrong(&rt, first_wrong(&rt, rt.alloc(), &REFUSED));
}
