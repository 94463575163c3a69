//! Lists that are a table.

use super::acts::Act;
use super::cases::Case;
use super::three::THREE;
use machine_base::CoreFault;
use test_query_support::{Expected, FIRST, FIRST_ENDS, Figures, SORTED, SORTED_ENDS};

/// The worlds, and how their queries end.
pub static CASES: [Case; 4] = [
    // the table, by both algorithms at once
    Case {
        sources: THREE,
        counts: &[3, 3],
        asked: &[FIRST, SORTED],
        acts: &[],
        workers: 2,
        ends: &[FIRST_ENDS, SORTED_ENDS],
    },
    // the combined algorithm, which asks for a grade at every second depth, and at each
    Case {
        sources: THREE,
        counts: &[3, 3],
        asked: &[
            ("top 1 by sum(A,B) using ca cost 1 2", &[0, 1]),
            ("top 1 by sum(A,B) using ca", &[0, 1]),
        ],
        acts: &[],
        workers: 2,
        ends: &[
            SORTED_ENDS,
            Expected::Answered(
                &[(2, 1500, 1500)],
                Figures {
                    depth: 2,
                    sorted: 4,
                    random: 1,
                    cost: 5,
                },
            ),
        ],
    },
    // room for two objects of three
    Case {
        sources: THREE,
        counts: &[3, 3],
        asked: &[("top 1 by sum(A,B) using ta room 2", &[0, 1])],
        acts: &[],
        workers: 1,
        ends: &[Expected::Core(CoreFault::RoomFull { room: 2 })],
    },
    // no queries at all
    Case {
        sources: THREE,
        counts: &[3, 3],
        asked: &[],
        acts: &[Act::Page(0, 3), Act::Fail(1)],
        workers: 1,
        ends: &[],
    },
];
