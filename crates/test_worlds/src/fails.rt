//! Calls that fail.

use super::acts::{Act, Sources};
use super::cases::Case;
use super::three::{THREE, THREE_LISTS};
use source_api::FailKind;
use source_state::LookFault;
use test_query_support::{Expected, FIRST, FIRST_ENDS};

/// The worlds, and how their queries end.
pub static CASES: [Case; 5] = [
    // the second page fails: one query waited for it, the other looks later
    Case {
        sources: Sources {
            lists: THREE_LISTS,
            grades: &[],
            page: 1,
            fails: Some((0, 1)),
        },
        counts: &[3, 3],
        asked: &[FIRST, FIRST],
        acts: &[],
        workers: 1,
        ends: &[
            Expected::Look(0, LookFault::Call(FailKind::Failed)),
            FIRST_ENDS,
        ],
    },
    // a fail between a want and its page
    Case {
        sources: THREE,
        counts: &[3, 3],
        asked: &[FIRST, FIRST],
        acts: &[Act::Turn(0), Act::Fail(0), Act::Turn(1), Act::Page(0, 1)],
        workers: 2,
        ends: &[FIRST_ENDS, FIRST_ENDS],
    },
    // the same, where the query looks before the page
    Case {
        sources: THREE,
        counts: &[3, 3],
        asked: &[FIRST, FIRST],
        acts: &[
            Act::Turn(0),
            Act::Fail(0),
            Act::Turn(1),
            Act::Turn(0),
            Act::Page(0, 1),
        ],
        workers: 2,
        ends: &[
            Expected::Look(0, LookFault::Call(FailKind::Failed)),
            FIRST_ENDS,
        ],
    },
    // a fail before the want
    Case {
        sources: THREE,
        counts: &[3, 3],
        asked: &[FIRST],
        acts: &[Act::Fail(0), Act::Turn(0), Act::Turn(0)],
        workers: 1,
        ends: &[FIRST_ENDS],
    },
    // a fail of the other source
    Case {
        sources: THREE,
        counts: &[3, 3],
        asked: &[FIRST],
        acts: &[Act::Turn(0), Act::Fail(1), Act::Turn(0)],
        workers: 1,
        ends: &[FIRST_ENDS],
    },
];
