//! A source that runs out of memory for the first row that a query waits for. The query is alone: another one that wanted the row after the
//! fault would have it read again, and the first one might find it there before it learns of the fault.

use super::cases::{A, B};
use super::gated_runs::Case;
use super::waiting::{Call, Gate};
use batch_run::Settings;
use source_api::{FailKind, Trouble};
use test_query_support::{FIRST, FIRST_ENDS};

/// The first call for a page runs out of memory, at once.
pub static SHORT: Case = Case {
    waiters: &[
        (
            A,
            Some(Gate {
                call: Call::Page(1),
                source: 0,
                until: 1,
                patience: 0,
                trouble: Trouble::Fail(FailKind::Memory),
            }),
        ),
        (B, None),
    ],
    far: &[],
    counts: &[3, 3],
    asked: &[FIRST],
    settings: Settings {
        workers: 2,
        page: 1,
        ahead: 0,
    },
    ends: &[FIRST_ENDS],
    faults: 0,
};
