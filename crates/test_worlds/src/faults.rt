//! Lists that are no table.

use super::acts::Sources;
use super::cases::Case;
use machine_base::CoreFault;
use source_state::{LookFault, SourceFault};
use test_query_support::{Expected, FIRST, Figures};

/// The worlds, and how their queries end.
pub static CASES: [Case; 6] = [
    // a row out of order, which one query doesn't reach, whatever is read ahead
    Case {
        sources: Sources {
            lists: &[&[(1, 500), (2, 600)], &[(1, 400), (2, 300)]],
            grades: &[],
            page: 2,
            fails: None,
        },
        counts: &[2, 2],
        asked: &[FIRST, ("top 2 by sum(A,B) using ta", &[0, 1])],
        acts: &[],
        workers: 1,
        ends: &[
            Expected::Answered(
                &[(1, 900, 900)],
                Figures {
                    depth: 1,
                    sorted: 2,
                    random: 0,
                    cost: 2,
                },
            ),
            Expected::Look(
                0,
                LookFault::Source(SourceFault::OutOfOrder {
                    place: 2,
                    before: 500,
                    after: 600,
                }),
            ),
        ],
    },
    // a row that repeats an object, in the second page
    Case {
        sources: Sources {
            lists: &[&[(7, 9), (8, 8), (7, 7)]],
            grades: &[],
            page: 2,
            fails: None,
        },
        counts: &[3],
        asked: &[("top 3 by A using nra", &[0])],
        acts: &[],
        workers: 1,
        ends: &[Expected::Look(
            0,
            LookFault::Source(SourceFault::Repeated {
                object: 7,
                place: 3,
            }),
        )],
    },
    // an object that the other list hasn't
    Case {
        sources: Sources {
            lists: &[&[(1, 9), (2, 8)], &[(3, 7), (1, 6)]],
            grades: &[],
            page: 1,
            fails: None,
        },
        counts: &[2, 2],
        asked: &[FIRST],
        acts: &[],
        workers: 1,
        ends: &[Expected::Look(0, LookFault::Missing { object: 3 })],
    },
    // a third object of lists of two
    Case {
        sources: Sources {
            lists: &[&[(1, 9), (2, 8)], &[(1, 7), (3, 6)]],
            grades: &[],
            page: 1,
            fails: None,
        },
        counts: &[2, 2],
        asked: &[("top 2 by sum(A,B) using ta", &[0, 1])],
        acts: &[],
        workers: 1,
        ends: &[Expected::Core(CoreFault::Strangers {
            object: 3,
            count: 2,
        })],
    },
    // fewer rows than are stated
    Case {
        sources: Sources {
            lists: &[&[(1, 900), (2, 800), (3, 100)]],
            grades: &[],
            page: 1,
            fails: None,
        },
        counts: &[5],
        asked: &[("top 5 by A using nra", &[0])],
        acts: &[],
        workers: 1,
        ends: &[Expected::Look(
            0,
            LookFault::Source(SourceFault::ShortList { stated: 5, got: 3 }),
        )],
    },
    // asks that queries over other objects fill up
    Case {
        sources: Sources {
            lists: &[
                &[(1, 9), (2, 8)],
                &[(3, 7), (1, 6)],
                &[(4, 7), (1, 6)],
                &[(5, 7), (1, 6)],
            ],
            grades: &[],
            page: 1,
            fails: None,
        },
        counts: &[2, 2, 2, 2],
        asked: &[
            FIRST,
            ("top 1 by sum(A,B) using ta", &[0, 2]),
            ("top 1 by sum(A,B) using ta", &[0, 3]),
        ],
        acts: &[],
        workers: 1,
        ends: &[
            Expected::Look(0, LookFault::Missing { object: 3 }),
            Expected::Look(0, LookFault::Missing { object: 4 }),
            Expected::Look(0, LookFault::AsksFull { kept: 2 }),
        ],
    },
];
