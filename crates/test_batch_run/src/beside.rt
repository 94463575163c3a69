//! Queries beside queries.

use super::cases::{A, B};
use super::gated_runs::{Case, GATE};
use super::waiting::{Call, Gate};
use batch_run::Settings;
use source_api::{FailKind, Trouble};
use test_mem_source::{Held, Kind};
use test_query_support::{Expected, Figures};

/// A row a page, nothing read ahead.
const TWO_WORKERS: Settings = Settings {
    workers: 2,
    page: 1,
    ahead: 0,
};

/// The figures of a query that reads one row.
const ONE_ROW: Figures = Figures {
    depth: 1,
    sorted: 1,
    random: 0,
    cost: 1,
};

const A_ENDS: Expected = Expected::Answered(&[(1, 900, 900)], ONE_ROW);

pub const B_ENDS: Expected = Expected::Answered(&[(2, 700, 700)], ONE_ROW);

/// A third list.
pub const C: Held = Held {
    place: "a",
    rows: &[(3, 300), (1, 200), (2, 100)],
    kind: Kind::Honest,
};

pub const C_ENDS: Expected = Expected::Answered(&[(3, 300, 300)], ONE_ROW);

/// Each of two queries needs a call that waits for the call that the other one needs.
pub static BOTH: Case = Case {
    waiters: &[
        (
            A,
            Some(Gate {
                call: Call::Page(1),
                source: 1,
                until: 1,
                patience: 1_000_000_000,
                trouble: Trouble::Fail(FailKind::Failed),
            }),
        ),
        (B, Some(GATE)),
    ],
    far: &[],
    counts: &[3, 3],
    asked: &[
        ("top 1 by A using nra", &[0]),
        ("top 1 by B using nra", &[1]),
    ],
    settings: TWO_WORKERS,
    ends: &[A_ENDS, B_ENDS],
    faults: 0,
};

/// The first query ends after the second one: it needs a call that waits for the call that the fourth one needs, which the worker
/// of the second one runs.
pub static LATE: Case = Case {
    waiters: &[
        (
            A,
            Some(Gate {
                call: Call::Page(1),
                source: 2,
                until: 1,
                patience: 1_000_000_000,
                trouble: Trouble::Fail(FailKind::Failed),
            }),
        ),
        (B, None),
        (C, None),
    ],
    far: &[],
    counts: &[3, 3, 3],
    asked: &[
        ("top 1 by A using nra", &[0]),
        ("top 1 by B using nra", &[1]),
        ("top 1 by B using ta", &[1]),
        ("top 1 by C using nra", &[2]),
    ],
    settings: TWO_WORKERS,
    ends: &[A_ENDS, B_ENDS, B_ENDS, C_ENDS],
    faults: 0,
};
