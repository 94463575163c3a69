//! Lists that are replaced.

use super::acts::{Act, Sources};
use super::cases::Case;
use super::three::THREE;
use source_state::{LookFault, SourceFault};
use test_query_support::{Expected, FIRST, SORTED, SORTED_ENDS};

/// A query that is refused since its first list was replaced, or its second one.
const FIRST_MOVED: Expected = Expected::Look(
    0,
    LookFault::Source(SourceFault::Moved { had: 7, now: 8 }),
);

const SECOND_MOVED: Expected = Expected::Look(
    1,
    LookFault::Source(SourceFault::Moved { had: 7, now: 8 }),
);

/// The same of a first list that was replaced by a later one.
const FIRST_MOVED_ON: Expected = Expected::Look(
    0,
    LookFault::Source(SourceFault::Moved { had: 7, now: 9 }),
);

/// The worlds, and how their queries end.
pub static CASES: [Case; 5] = [
    // the query that waits is told, and the one that comes later; a second move, after the row fault, isn't lawful
    Case {
        sources: THREE,
        counts: &[3, 3],
        asked: &[FIRST, FIRST],
        acts: &[
            Act::Turn(0),
            Act::Move(0, None, 7, 8),
            Act::Move(0, None, 7, 9),
        ],
        workers: 1,
        ends: &[FIRST_MOVED, FIRST_MOVED],
    },
    // a move to the same version isn't lawful, nor is one of an object that wasn't asked, nor one behind the last row
    Case {
        sources: THREE,
        counts: &[3, 3],
        asked: &[SORTED],
        acts: &[
            Act::Move(0, None, 7, 7),
            Act::Move(0, Some(1), 7, 8),
            Act::Page(1, 3),
            Act::Move(1, None, 7, 8),
        ],
        workers: 1,
        ends: &[SORTED_ENDS],
    },
    // rows that were kept before answer a query, and another one needs a further row
    Case {
        sources: THREE,
        counts: &[3, 3],
        asked: &[SORTED, ("top 2 by sum(A,B) using nra", &[0, 1])],
        acts: &[Act::Page(0, 2), Act::Page(1, 2), Act::Move(1, None, 7, 8)],
        workers: 1,
        ends: &[SORTED_ENDS, SECOND_MOVED],
    },
    // a move of an object that the rows hold: its grade was asked for, and is told as moved; the rows go on
    Case {
        sources: THREE,
        counts: &[3, 3],
        asked: &[FIRST, FIRST, SORTED],
        acts: &[
            Act::Turn(0),
            Act::Page(0, 1),
            Act::Turn(0),
            Act::Turn(0),
            Act::Page(1, 1),
            Act::Turn(0),
            Act::Turn(0),
            Act::Page(1, 2),
            Act::Move(1, Some(1), 7, 8),
        ],
        workers: 1,
        ends: &[SECOND_MOVED, SECOND_MOVED, SORTED_ENDS],
    },
    // moves of two objects, to two versions
    Case {
        sources: Sources {
            lists: &[&[(1, 9), (2, 8)], &[(3, 7), (1, 6)], &[(4, 7), (1, 6)]],
            grades: &[],
            page: 1,
            fails: None,
        },
        counts: &[2, 2, 2],
        asked: &[FIRST, ("top 1 by sum(A,B) using ta", &[0, 2])],
        acts: &[
            Act::Page(0, 1),
            Act::Page(1, 1),
            Act::Page(2, 1),
            Act::Turn(0),
            Act::Turn(0),
            Act::Turn(0),
            Act::Grade(1, 1),
            Act::Turn(0),
            Act::Turn(0),
            Act::Turn(1),
            Act::Turn(1),
            Act::Turn(1),
            Act::Grade(2, 1),
            Act::Turn(1),
            Act::Turn(1),
            Act::Move(0, Some(3), 7, 8),
            Act::Move(0, Some(4), 7, 9),
        ],
        workers: 1,
        ends: &[FIRST_MOVED, FIRST_MOVED_ON],
    },
];
