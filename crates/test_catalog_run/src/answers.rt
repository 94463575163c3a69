//! Query lines that are answered, and those beside them.

use super::none_is_wrong;
use super::told_cases::{Case, RUN, Row, first_wrong};
use command_line::Status;
use test_mem_source::{Held, Kind};

/// Two lists of the same objects.
const A: &[(u32, u32)] = &[(1, 900), (2, 800), (3, 100)];

const B: &[(u32, u32)] = &[(2, 700), (3, 600), (1, 500)];

/// Each of these is read a row at a time, and nothing is read ahead: one query runs after another.
const ONE_BY_ONE: &[&str] = &[
    "run",
    "cat.csv",
    "--workers",
    "1",
    "--page=1",
    "--ahead",
    "0",
];

const TWO: &str = "name,place,random\r\nA,lists/a.csv,yes\r\nB,lists/b.csv,yes\r\n";

/// Of these a list has fewer objects than the others, one isn't there, and no query names it.
const FOUR: &str =
    "name,place,random\nA,lists/a.csv,yes\nB,lists/b.csv,yes\nS,lists/s.csv,no\nN,lists/n.csv,yes\n";

const SHELF: &[Held] = &[
    Held {
        place: "lists/a.csv",
        rows: A,
        kind: Kind::Honest,
    },
    Held {
        place: "lists/b.csv",
        rows: B,
        kind: Kind::Honest,
    },
    Held {
        place: "lists/s.csv",
        rows: &[(1, 5), (2, 4)],
        kind: Kind::Honest,
    },
];

/// The second call for a page of the first list fails.
const FAILING: &[Held] = &[
    Held {
        place: "lists/a.csv",
        rows: A,
        kind: Kind::FailsAtPage(2),
    },
    Held {
        place: "lists/b.csv",
        rows: B,
        kind: Kind::Honest,
    },
];

/// The second row of the first list is at fault, and the second query alone comes to it, whatever was read before.
const RISING: &[Held] = &[
    Held {
        place: "a",
        rows: &[(1, 500), (2, 600)],
        kind: Kind::Honest,
    },
    Held {
        place: "b",
        rows: &[(1, 400), (2, 300)],
        kind: Kind::Honest,
    },
];

const RISING_CATALOG: &str = "name,place,random\nA,a,yes\nB,b,yes\n";

const RISING_LINES: &str = "top 1 by sum(A,B) using ta\ntop 2 by sum(A,B) using ta\n";

const RISING_TEXT: &str =
    "certificate 1\nquery top 1 by sum(A,B) using ta\ncount 2\nanswer 1 900 900\nstop depth 1 sorted 2 random 0 cost 2\ns A 1 500\ns B 1 400\nend\nrefused 2 OutOfOrder A 2 500 600\n";

static ANSWERED: [Row; 8] = [
    Row {
        case: Case {
            words: RUN,
            catalog: TWO,
            sources: SHELF,
            lines: "top 1 by sum(A,B) using ta\n",
        },
        status: Status::Done,
        text: "certificate 1\nquery top 1 by sum(A,B) using ta\ncount 3\nanswer 2 1500 1500\nstop depth 2 sorted 4 random 3 cost 7\ns A 1 900\ns B 2 700\nr B 1 500\nr A 2 800\ns A 2 800\ns B 3 600\nr A 3 100\nend\n",
    },
    Row {
        case: Case {
            words: RUN,
            catalog: TWO,
            sources: SHELF,
            lines: "",
        },
        status: Status::Done,
        text: "",
    },
    Row {
        case: Case {
            words: &["run", "cat.csv", "--page", "2"],
            catalog: FOUR,
            sources: SHELF,
            lines: "top 1 by sum(A,B) using ta\r\ntop 1 by sum(A,S) using nra\r\ntop 1 by S using ta\r\ntop 1 by Z using nra",
        },
        status: Status::Partial,
        text: "certificate 1\nquery top 1 by sum(A,B) using ta\ncount 3\nanswer 2 1500 1500\nstop depth 2 sorted 4 random 3 cost 7\ns A 1 900\ns B 2 700\nr B 1 500\nr A 2 800\ns A 2 800\ns B 3 600\nr A 3 100\nend\nrefused 2 CountsDiffer A 3 S 2\nrefused 3 NoRandom S\nrefused 4 UnknownList Z\n",
    },
    Row {
        case: Case {
            words: ONE_BY_ONE,
            catalog: TWO,
            sources: FAILING,
            lines: "top 1 by sum(A,B) using ta\ntop 1 by sum(A,B) using ta\n",
        },
        status: Status::Partial,
        text: "refused 1 Failed A\ncertificate 2\nquery top 1 by sum(A,B) using ta\ncount 3\nanswer 2 1500 1500\nstop depth 2 sorted 4 random 3 cost 7\ns A 1 900\ns B 2 700\nr B 1 500\nr A 2 800\ns A 2 800\ns B 3 600\nr A 3 100\nend\n",
    },
    Row {
        case: Case {
            words: &["run", "cat.csv", "--workers", "2"],
            catalog: RISING_CATALOG,
            sources: RISING,
            lines: RISING_LINES,
        },
        status: Status::Partial,
        text: RISING_TEXT,
    },
    Row {
        case: Case {
            words: &["run", "cat.csv", "--page", "1", "--ahead", "0"],
            catalog: RISING_CATALOG,
            sources: RISING,
            lines: RISING_LINES,
        },
        status: Status::Partial,
        text: RISING_TEXT,
    },
    Row {
        case: Case {
            words: RUN,
            catalog: "name,place,random\nA,lists/a.csv,yes\nC,lists/a.csv,no\n",
            sources: SHELF,
            lines: "top 1 by sum(A,C) using nra\n",
        },
        status: Status::Done,
        text: "certificate 1\nquery top 1 by sum(A,C) using nra\ncount 3\nanswer 1 1800 1800\nstop depth 1 sorted 2 random 0 cost 2\ns A 1 900\ns C 1 900\nend\n",
    },
    Row {
        case: Case {
            words: RUN,
            catalog: "name,place,random,sorted\nA,lists/a.csv,yes,yes\nB,lists/b.csv,yes,no\n",
            sources: SHELF,
            lines: "top 1 by sum(A,B) using taz\ntop 1 by wsum(1*A,0*B) using taz\ntop 1 by sum(A,B) using nra\ntop 1 by B using taz\n",
        },
        status: Status::Partial,
        text: "certificate 1\nquery top 1 by sum(A,B) using taz\ncount 3\nanswer 2 1500 1500\nstop depth 3 sorted 3 random 3 cost 6\ns A 1 900\nr B 1 500\ns A 2 800\nr B 2 700\ns A 3 100\nr B 3 600\nend\ncertificate 2\nquery top 1 by wsum(1*A,0*B) using taz\ncount 3\nanswer 1 900 900\nstop depth 1 sorted 1 random 1 cost 2\ns A 1 900\nr B 1 500\nend\nrefused 3 NoSorted B\nrefused 4 NoSorted B\n",
    },
];

#[test]
fn answers_lines_in_their_order(rt: HostRuntime) {
    none_is_wrong(&rt, first_wrong(&rt, rt.alloc(), &ANSWERED));
}
