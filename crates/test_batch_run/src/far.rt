//! Queries over sources that are far.
//!
//! Each call waits until the other lists' calls that the query is certain to need are made too, so that a program that makes one call after another
//! answers none of these lines.

use super::beside::{B_ENDS, C, C_ENDS};
use super::cases::{A, B, PLAIN, ROWS_B};
use super::gated_runs::{Case, GATE, Waiter};
use super::waiting::{Far, Gate};
use batch_run::Settings;
use source_api::FailKind;
use source_state::LookFault;
use test_mem_source::{Held, Kind};
use test_query_support::{Asked, Expected, FIRST_ENDS, Figures};

/// Four lists of four objects, each with another object first. Object 1 has 259 in all, each other one 250.
const LISTS: &[Waiter] = &[
    (
        Held {
            place: "a",
            rows: &[(1, 109), (2, 90), (3, 50), (4, 10)],
            kind: Kind::Honest,
        },
        None,
    ),
    (
        Held {
            place: "b",
            rows: &[(2, 100), (3, 90), (4, 50), (1, 10)],
            kind: Kind::Honest,
        },
        None,
    ),
    (
        Held {
            place: "c",
            rows: &[(3, 100), (4, 90), (1, 50), (2, 10)],
            kind: Kind::Honest,
        },
        None,
    ),
    (
        Held {
            place: "d",
            rows: &[(4, 100), (1, 90), (2, 50), (3, 10)],
            kind: Kind::Honest,
        },
        None,
    ),
];

const TA: Asked = ("top 1 by sum(A,B,C,D) using ta", &[0, 1, 2, 3]);

/// The bound of depth 2 is 360, that of depth 3 is 200. Each grade is asked for at depth 1.
const TA_ENDS: Expected = Expected::Answered(
    &[(1, 259, 259)],
    Figures {
        depth: 3,
        sorted: 12,
        random: 12,
        cost: 24,
    },
);

/// In a depth all rows are called for side by side, and then the first missing grade of each list, the second and the third.
pub const BY_TA: Case = Case {
    waiters: LISTS,
    far: &[
        Far {
            pages: 1,
            grades: (1, 3),
        },
        Far {
            pages: 2,
            grades: (2, 3),
        },
        Far {
            pages: 3,
            grades: (3, 3),
        },
        Far {
            pages: 0,
            grades: (0, 3),
        },
    ],
    counts: &[4, 4, 4, 4],
    asked: &[TA, TA, TA, TA],
    settings: PLAIN,
    ends: &[TA_ENDS, TA_ENDS, TA_ENDS, TA_ENDS],
    faults: 0,
};

const NRA: Asked = ("top 1 by sum(A,B,C,D) using nra", &[0, 1, 2, 3]);

/// At depth 3 object 1 has at least 249, and each other one at most 290.
const NRA_ENDS: Expected = Expected::Answered(
    &[(1, 259, 259)],
    Figures {
        depth: 4,
        sorted: 16,
        random: 0,
        cost: 16,
    },
);

/// In a depth all rows are called for side by side.
pub const BY_NRA: Case = Case {
    asked: &[NRA, NRA, NRA, NRA],
    ends: &[NRA_ENDS, NRA_ENDS, NRA_ENDS, NRA_ENDS],
    ..BY_TA
};

const CA: Asked = ("top 1 by sum(A,B,C,D) using ca", &[0, 1, 2, 3]);

/// The objects 1, 2 and 3 are chosen at the depths 1, 2 and 3, where they lack three grades, two and one. Object 4 may have 290 at depth 3.
const CA_ENDS: Expected = Expected::Answered(
    &[(1, 259, 259)],
    Figures {
        depth: 4,
        sorted: 16,
        random: 6,
        cost: 22,
    },
);

/// The three missing grades of the first choice are called for side by side.
pub const BY_CA: Case = Case {
    far: &[
        Far {
            pages: 1,
            grades: (0, 0),
        },
        Far {
            pages: 2,
            grades: (2, 1),
        },
        Far {
            pages: 3,
            grades: (3, 1),
        },
        Far {
            pages: 0,
            grades: (1, 1),
        },
    ],
    asked: &[CA, CA, CA, CA],
    ends: &[CA_ENDS, CA_ENDS, CA_ENDS, CA_ENDS],
    ..BY_TA
};

/// The second line needs the first page of source 0, which fails. By then the third line, which comes after the first one, has foreseen the same
/// page, and waits for that of source 1 until the fourth line, which comes after the second one, has begun. So it isn't refused, but asks again.
pub const FAILS: Case = Case {
    waiters: &[
        (
            Held {
                place: "b",
                rows: ROWS_B,
                kind: Kind::FailsAtPage(1),
            },
            Some(Gate { source: 1, ..GATE }),
        ),
        (A, Some(Gate { source: 3, ..GATE })),
        (B, Some(Gate { source: 0, ..GATE })),
        (C, None),
    ],
    far: &[
        Far {
            pages: 0,
            grades: (0, 0),
        },
        Far {
            pages: 1,
            grades: (1, 0),
        },
    ],
    counts: &[3, 3, 3, 3],
    asked: &[
        ("top 1 by B using nra", &[2]),
        ("top 1 by B using nra", &[0]),
        ("top 1 by sum(A,B) using ta", &[1, 0]),
        ("top 1 by C using nra", &[3]),
    ],
    settings: Settings {
        workers: 2,
        page: 1,
        ahead: 0,
    },
    ends: &[
        B_ENDS,
        Expected::Look(0, LookFault::Call(FailKind::Failed)),
        FIRST_ENDS,
        C_ENDS,
    ],
    faults: 1,
};
