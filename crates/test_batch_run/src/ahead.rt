//! What fetchers read ahead, beside a query that doesn't need it.

use super::cases::{A, B};
use super::gated_runs::Case;
use super::waiting::{Call, Gate};
use batch_run::Settings;
use source_api::{FailKind, Trouble};
use test_mem_source::{Held, Kind};
use test_query_support::{Expected, FIRST, FIRST_ENDS, Figures};

/// The query needs a grade of the second list before a second row of the first one, and the call for it waits until the first list is
/// read to its end.
pub static AHEAD: Case = Case {
    waiters: &[
        (A, None),
        (
            B,
            Some(Gate {
                call: Call::Grade(1),
                source: 0,
                until: 3,
                patience: 1_000_000_000,
                trouble: Trouble::Fail(FailKind::Failed),
            }),
        ),
    ],
    far: &[],
    counts: &[3, 3],
    asked: &[FIRST],
    settings: Settings {
        workers: 1,
        page: 1,
        ahead: 2,
    },
    ends: &[FIRST_ENDS],
    faults: 0,
};

/// A list whose first row is enough beside that of the same list.
const SAME: Held = Held {
    place: "a",
    rows: &[(1, 9), (2, 8)],
    kind: Kind::Honest,
};

/// The call for the second page of the first list, which nobody needs, is under way when the query ends, and fails.
pub static UNDER_WAY: Case = Case {
    waiters: &[
        (
            SAME,
            Some(Gate {
                call: Call::Page(2),
                source: 0,
                until: u64::MAX,
                patience: 20_000_000,
                trouble: Trouble::Fail(FailKind::Failed),
            }),
        ),
        (
            SAME,
            Some(Gate {
                call: Call::Page(1),
                source: 0,
                until: 2,
                patience: 1_000_000_000,
                trouble: Trouble::Fail(FailKind::Failed),
            }),
        ),
    ],
    far: &[],
    counts: &[2, 2],
    asked: &[FIRST],
    settings: Settings {
        workers: 1,
        page: 1,
        ahead: 1,
    },
    ends: &[Expected::Answered(
        &[(1, 18, 18)],
        Figures {
            depth: 1,
            sorted: 2,
            random: 0,
            cost: 2,
        },
    )],
    faults: 1,
};
