//! Batches over lists that are a table: queries by each of the algorithms.

use super::batch_runs::Used;
use super::cases::{A, B, Case, PLAIN};
use batch_run::Settings;
use machine_base::CoreFault;
use test_query_support::{
    Asked, EARLY, EARLY_ENDS, Expected, FIRST, FIRST_ENDS, Figures, NEAR, NEAR_ENDS, RESTRICTED,
    RESTRICTED_ENDS, SORTED, SORTED_ENDS,
};

/// Two rows of each list, the grades of both other objects of the first, and of one of the second.
const FIRST_USES: &[Used] = &[(2, 2, 2, 2), (2, 1, 2, 1)];

/// All three objects of both lists: each grade that comes before its row is asked for.
const ALL: Asked = ("top 3 by sum(A,B) using ta", &[0, 1]);

const ALL_ENDS: Expected = Expected::Answered(
    &[(2, 1500, 1500), (1, 1400, 1400), (3, 700, 700)],
    Figures {
        depth: 3,
        sorted: 6,
        random: 3,
        cost: 9,
    },
);

/// A third object doesn't fit.
const SMALL: Asked = ("top 1 by sum(A,B) using ta room 2", &[0, 1]);

const SMALL_ENDS: Expected = Expected::Core(CoreFault::RoomFull { room: 2 });

/// The grade of object 1 alone is asked for: at depth 1 both seen objects can come to 1600, and it has the smaller number.
const COMBINED: Asked = ("top 1 by sum(A,B) using ca", &[0, 1]);

const COMBINED_ENDS: Expected = Expected::Answered(
    &[(2, 1500, 1500)],
    Figures {
        depth: 2,
        sorted: 4,
        random: 1,
        cost: 5,
    },
);

/// The second list counts nothing, and is asked for one grade.
const LEADING: Asked = ("top 1 by wsum(1*A,0*B) using taz", &[0, 1]);

const LEADING_ENDS: Expected = Expected::Answered(
    &[(1, 900, 900)],
    Figures {
        depth: 1,
        sorted: 1,
        random: 1,
        cost: 2,
    },
);

/// Batches over lists that are a table.
pub static CASES: [Case; 10] = [
    // a row of each list for each depth, and a call for each grade that is needed above its row
    Case {
        held: &[A, B],
        counts: &[3, 3],
        asked: &[FIRST],
        by_grades: &[],
        settings: PLAIN,
        ends: &[FIRST_ENDS],
        used: FIRST_USES,
    },
    // what three queries need is read of the sources once
    Case {
        held: &[A, B],
        counts: &[3, 3],
        asked: &[FIRST, FIRST, FIRST],
        by_grades: &[],
        settings: PLAIN,
        ends: &[FIRST_ENDS, FIRST_ENDS, FIRST_ENDS],
        used: FIRST_USES,
    },
    // the same with workers that have nothing to do
    Case {
        held: &[A, B],
        counts: &[3, 3],
        asked: &[FIRST, FIRST, FIRST, FIRST],
        by_grades: &[],
        settings: Settings {
            workers: 8,
            page: 1,
            ahead: 0,
        },
        ends: &[FIRST_ENDS, FIRST_ENDS, FIRST_ENDS, FIRST_ENDS],
        used: FIRST_USES,
    },
    // one worker has the first, third and fifth query, the other one the second and fourth
    Case {
        held: &[A, B],
        counts: &[3, 3],
        asked: &[FIRST, SORTED, ALL, SMALL, COMBINED],
        by_grades: &[],
        settings: Settings {
            workers: 2,
            page: 1,
            ahead: 0,
        },
        ends: &[FIRST_ENDS, SORTED_ENDS, ALL_ENDS, SMALL_ENDS, COMBINED_ENDS],
        used: &[],
    },
    // a page has all, and no more than all is read ahead
    Case {
        held: &[A, B],
        counts: &[3, 3],
        asked: &[COMBINED, SMALL, ALL, SORTED, FIRST],
        by_grades: &[],
        settings: Settings {
            workers: 3,
            page: 10_000,
            ahead: 100,
        },
        ends: &[COMBINED_ENDS, SMALL_ENDS, ALL_ENDS, SORTED_ENDS, FIRST_ENDS],
        used: &[],
    },
    // a row of each list, and the grade of each of both objects in the other one
    Case {
        held: &[A, B],
        counts: &[3, 3],
        asked: &[NEAR, EARLY],
        by_grades: &[],
        settings: Settings {
            workers: 2,
            page: 1,
            ahead: 0,
        },
        ends: &[NEAR_ENDS, EARLY_ENDS],
        used: &[(1, 1, 1, 1), (1, 1, 1, 1)],
    },
    // the first list can be read in order: a page has all that is wanted later, too; the second gives no row, whatever is read ahead
    Case {
        held: &[A, B],
        counts: &[3, 3],
        asked: &[RESTRICTED, LEADING],
        by_grades: &[1],
        settings: Settings {
            workers: 2,
            page: 10_000,
            ahead: 100,
        },
        ends: &[RESTRICTED_ENDS, LEADING_ENDS],
        used: &[(3, 0, 1, 0), (0, 3, 0, 3)],
    },
    // the same a row a page
    Case {
        held: &[A, B],
        counts: &[3, 3],
        asked: &[RESTRICTED],
        by_grades: &[1],
        settings: PLAIN,
        ends: &[RESTRICTED_ENDS],
        used: &[(3, 0, 3, 0), (0, 3, 0, 3)],
    },
    // where all can be read in order, it reads them all
    Case {
        held: &[A, B],
        counts: &[3, 3],
        asked: &[RESTRICTED],
        by_grades: &[],
        settings: PLAIN,
        ends: &[FIRST_ENDS],
        used: FIRST_USES,
    },
    // no queries, and sources that nobody reads
    Case {
        held: &[A, B],
        counts: &[3, 3],
        asked: &[],
        by_grades: &[],
        settings: Settings {
            workers: 1,
            page: 1,
            ahead: 100,
        },
        ends: &[],
        used: &[(0, 0, 0, 0), (0, 0, 0, 0)],
    },
];
