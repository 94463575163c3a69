//! Batches over sources that give other grades than their rows have, or no grade.

use super::cases::{A, B, Case, PLAIN, ROWS_A};
use source_state::{LookFault, SourceFault};
use test_mem_source::{Held, Kind};
use test_query_support::{Expected, FIRST};

/// Two lists that have one object each that the other one lacks.
const ONE: Held = Held {
    place: "a",
    rows: &[(1, 9), (2, 8)],
    kind: Kind::Honest,
};

const OTHER: Held = Held {
    place: "b",
    rows: &[(3, 7), (1, 6)],
    kind: Kind::Honest,
};

/// Other grades, and none.
pub static CASES: [Case; 3] = [
    // a grade that isn't the one of the row that comes later
    Case {
        held: &[
            Held {
                place: "a",
                rows: ROWS_A,
                kind: Kind::Lies(2, 850),
            },
            B,
        ],
        counts: &[3, 3],
        asked: &[FIRST],
        by_grades: &[],
        settings: PLAIN,
        ends: &[Expected::Look(
            0,
            LookFault::Source(SourceFault::Clash {
                object: 2,
                sorted: 800,
                random: 850,
            }),
        )],
        used: &[(2, 1, 2, 1), (1, 1, 1, 1)],
    },
    // a grade above the last row's
    Case {
        held: &[
            Held {
                place: "a",
                rows: ROWS_A,
                kind: Kind::Lies(2, 950),
            },
            B,
        ],
        counts: &[3, 3],
        asked: &[FIRST],
        by_grades: &[],
        settings: PLAIN,
        ends: &[Expected::Look(
            0,
            LookFault::Source(SourceFault::Above {
                object: 2,
                grade: 950,
                bottom: 900,
            }),
        )],
        used: &[(1, 1, 1, 1), (1, 1, 1, 1)],
    },
    // the first list hasn't the objects of the others, and takes no more asks than it has objects
    Case {
        held: &[
            ONE,
            OTHER,
            Held {
                rows: &[(4, 7), (1, 6)],
                ..OTHER
            },
            Held {
                rows: &[(5, 7), (1, 6)],
                ..OTHER
            },
        ],
        counts: &[2, 2, 2, 2],
        asked: &[
            FIRST,
            ("top 1 by sum(A,B) using ta", &[0, 2]),
            ("top 1 by sum(A,B) using ta", &[0, 3]),
        ],
        by_grades: &[],
        settings: PLAIN,
        ends: &[
            Expected::Look(0, LookFault::Missing { object: 3 }),
            Expected::Look(0, LookFault::Missing { object: 4 }),
            Expected::Look(0, LookFault::AsksFull { kept: 2 }),
        ],
        used: &[(1, 2, 1, 2), (1, 1, 1, 1)],
    },
];
