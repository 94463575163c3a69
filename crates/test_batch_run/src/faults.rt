//! Batches over sources whose rows are at fault, or whose calls fail.

use super::cases::{A, B, Case, PLAIN, ROWS_A, ROWS_B};
use batch_run::Settings;
use machine_base::CoreFault;
use source_api::FailKind;
use source_state::{LookFault, SourceFault};
use test_mem_source::{Held, Kind};
use test_query_support::{Asked, Expected, FIRST, FIRST_ENDS, Figures};

/// The second row's grade rises.
const RISING: Held = Held {
    place: "a",
    rows: &[(1, 500), (2, 600)],
    kind: Kind::Honest,
};

const FALLING: Held = Held {
    place: "b",
    rows: &[(1, 400), (2, 300)],
    kind: Kind::Honest,
};

/// Both objects of two lists.
const BOTH: Asked = ("top 2 by sum(A,B) using ta", &[0, 1]);

/// The first query doesn't reach the row at fault, the second one does.
const RISING_ENDS: &[Expected] = &[
    Expected::Answered(
        &[(1, 900, 900)],
        Figures {
            depth: 1,
            sorted: 2,
            random: 0,
            cost: 2,
        },
    ),
    Expected::Look(
        0,
        LookFault::Source(SourceFault::OutOfOrder {
            place: 2,
            before: 500,
            after: 600,
        }),
    ),
];

/// Rows at fault.
pub static ROWS: [Case; 5] = [
    // the row at fault isn't read before it is needed
    Case {
        held: &[RISING, FALLING],
        counts: &[2, 2],
        asked: &[FIRST, BOTH],
        by_grades: &[],
        settings: PLAIN,
        ends: RISING_ENDS,
        used: &[(2, 0, 2, 0), (1, 0, 1, 0)],
    },
    // it comes with the first row, before either query has what it needs, so that nobody has to want it
    Case {
        held: &[RISING, FALLING],
        counts: &[2, 2],
        asked: &[FIRST, BOTH],
        by_grades: &[],
        settings: Settings {
            workers: 2,
            page: 2,
            ahead: 1,
        },
        ends: RISING_ENDS,
        used: &[(2, 0, 1, 0), (2, 0, 1, 0)],
    },
    // a row of the second page repeats an object
    Case {
        held: &[Held {
            place: "a",
            rows: &[(7, 9), (8, 8), (7, 7)],
            kind: Kind::Honest,
        }],
        counts: &[3],
        asked: &[("top 3 by A using nra", &[0])],
        by_grades: &[],
        settings: Settings { page: 2, ..PLAIN },
        ends: &[Expected::Look(
            0,
            LookFault::Source(SourceFault::Repeated {
                object: 7,
                place: 3,
            }),
        )],
        used: &[(3, 0, 3, 0)],
    },
    // three rows where five are stated
    Case {
        held: &[A],
        counts: &[5],
        asked: &[("top 5 by A using nra", &[0])],
        by_grades: &[],
        settings: PLAIN,
        ends: &[Expected::Look(
            0,
            LookFault::Source(SourceFault::ShortList { stated: 5, got: 3 }),
        )],
        used: &[(3, 0, 4, 0)],
    },
    // each list has an object that the other one lacks
    Case {
        held: &[
            Held {
                place: "a",
                rows: &[(1, 9), (2, 8)],
                kind: Kind::Honest,
            },
            Held {
                place: "b",
                rows: &[(1, 7), (3, 6)],
                kind: Kind::Honest,
            },
        ],
        counts: &[2, 2],
        asked: &[BOTH],
        by_grades: &[],
        settings: PLAIN,
        ends: &[Expected::Core(CoreFault::Strangers {
            object: 3,
            count: 2,
        })],
        used: &[(2, 0, 2, 0), (2, 0, 2, 0)],
    },
];

/// One failed call isn't for ever: the query that waits for it is refused, and the next one is answered.
pub static CALLS: [Case; 2] = [
    Case {
        held: &[
            Held {
                place: "a",
                rows: ROWS_A,
                kind: Kind::FailsAtPage(2),
            },
            B,
        ],
        counts: &[3, 3],
        asked: &[FIRST, FIRST],
        by_grades: &[],
        settings: PLAIN,
        ends: &[
            Expected::Look(0, LookFault::Call(FailKind::Failed)),
            FIRST_ENDS,
        ],
        used: &[(2, 2, 2, 2), (2, 1, 2, 1)],
    },
    Case {
        held: &[
            A,
            Held {
                place: "b",
                rows: ROWS_B,
                kind: Kind::FailsAtGrade(1),
            },
        ],
        counts: &[3, 3],
        asked: &[FIRST, FIRST, FIRST],
        by_grades: &[],
        settings: PLAIN,
        ends: &[
            Expected::Look(1, LookFault::Call(FailKind::Failed)),
            FIRST_ENDS,
            FIRST_ENDS,
        ],
        used: &[(2, 2, 2, 2), (2, 1, 2, 1)],
    },
];
