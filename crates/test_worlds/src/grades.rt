//! Grades that do not go with the rows.

use super::acts::{Act, Sources};
use super::cases::Case;
use super::three::{THREE, THREE_LISTS};
use source_state::{LookFault, SourceFault};
use test_query_support::{Expected, FIRST, FIRST_ENDS};

/// The first row of either source, and the grade of object 1; the query asks for that of object 2, whose row comes before it.
const GRADE_AFTER: &[Act] = &[
    Act::Page(0, 1),
    Act::Page(1, 1),
    Act::Turn(0),
    Act::Turn(0),
    Act::Turn(0),
    Act::Grade(1, 1),
    Act::Turn(0),
    Act::Turn(0),
    Act::Page(0, 1),
    Act::Grade(0, 2),
];

/// The same, with a turn between the row and the grade.
const GRADE_TOO_LATE: &[Act] = &[
    Act::Page(0, 1),
    Act::Page(1, 1),
    Act::Turn(0),
    Act::Turn(0),
    Act::Turn(0),
    Act::Grade(1, 1),
    Act::Turn(0),
    Act::Turn(0),
    Act::Page(0, 1),
    Act::Turn(0),
    Act::Grade(0, 2),
];

/// The three objects, where random access gives object 2 another grade in the first list.
const OTHER_GRADE: Sources = Sources {
    lists: THREE_LISTS,
    grades: &[(0, 2, 850)],
    page: 1,
    fails: None,
};

/// The worlds, and how their queries end.
pub static CASES: [Case; 4] = [
    // a grade that clashes with the row that comes later
    Case {
        sources: OTHER_GRADE,
        counts: &[3, 3],
        asked: &[FIRST],
        acts: &[],
        workers: 1,
        ends: &[Expected::Look(
            0,
            LookFault::Source(SourceFault::Clash {
                object: 2,
                sorted: 800,
                random: 850,
            }),
        )],
    },
    // a grade that clashes with the row that came before it
    Case {
        sources: OTHER_GRADE,
        counts: &[3, 3],
        asked: &[FIRST],
        acts: GRADE_AFTER,
        workers: 1,
        ends: &[Expected::Look(
            0,
            LookFault::Source(SourceFault::Clash {
                object: 2,
                sorted: 800,
                random: 850,
            }),
        )],
    },
    // the same, where the query took the row's grade before
    Case {
        sources: OTHER_GRADE,
        counts: &[3, 3],
        asked: &[FIRST],
        acts: GRADE_TOO_LATE,
        workers: 1,
        ends: &[FIRST_ENDS],
    },
    // a grade above the last row's
    Case {
        sources: Sources {
            lists: THREE_LISTS,
            grades: &[(0, 2, 950)],
            page: 1,
            fails: None,
        },
        counts: &[3, 3],
        asked: &[FIRST],
        acts: &[],
        workers: 1,
        ends: &[Expected::Look(
            0,
            LookFault::Source(SourceFault::Above {
                object: 2,
                grade: 950,
                bottom: 900,
            }),
        )],
    },
];
