//! Two passes of one pool, and how far is read.

ghost use Rattle.std.specs.Prelude.{◌≤◌};

use fetcher::Turned;
use ranked_list::{Need, Row};
use source_api::{FailKind, Trouble};
use source_state::{Look, LookFault};
use std::alloc::Global;
use std::sync::Wait;
use std::test::Fail;
use test_mem_source::{Held, Kind, MemSource, source_of};
use test_query_support::{Desk, Step, first_wrong};

const TEN: &[(u32, u32)] = &[
    (1, 90),
    (2, 80),
    (3, 70),
    (4, 60),
    (5, 50),
    (6, 40),
    (7, 30),
    (8, 20),
    (9, 10),
    (10, 0),
];

const ROW_1: Need = Need::Row { list: 0, depth: 1 };

const ROW_5: Need = Need::Row { list: 0, depth: 5 };

const GRADE_7: Need = Need::Grade { list: 0, object: 7 };

const FIRST: Look = Look::Row(Row {
    object: 1,
    grade: 90,
});

/// Pages of two rows with one page ahead: idle at the reach, and again after the next want. A grade comes before a page.
static AHEAD: [Step; 9] = [
    Step::Turn(Turned::Idle),
    Step::Look(ROW_1, Look::NotYet),
    Step::Turn(Turned::Paged { rows: 2 }),
    Step::Turn(Turned::Paged { rows: 2 }),
    Step::Turn(Turned::Idle),
    Step::Look(ROW_5, Look::NotYet),
    Step::Other(GRADE_7, Look::NotYet),
    Step::Turn(Turned::Graded { object: 7 }),
    Step::Turn(Turned::Paged { rows: 2 }),
];

/// Both passes waited when a page failed, and each is told once; what one wants the other finds there.
static SHARED: [Step; 9] = [
    Step::Look(ROW_1, Look::NotYet),
    Step::Other(ROW_1, Look::NotYet),
    Step::Turn(Turned::Troubled(Trouble::Fail(FailKind::Failed))),
    Step::Look(ROW_1, Look::Fault(LookFault::Call(FailKind::Failed))),
    Step::Look(ROW_1, Look::NotYet),
    Step::Other(ROW_1, Look::Fault(LookFault::Call(FailKind::Failed))),
    Step::Turn(Turned::Paged { rows: 1 }),
    Step::Other(ROW_1, FIRST),
    Step::Look(ROW_1, FIRST),
];

/// The first step that answers otherwise over a source of ten rows, or 100, and then the want, the number of asks and the number of
/// rows at the close. None without memory.
fn over_source(
    rt: &impl Wait,
    alloc: Global,
    source: &mut MemSource,
    page: u32,
    ahead: u32,
    steps: &[Step],
    to_other: bool,
) -> Option<(usize, u32, u32, u32)>
    requires page { (1 ≤ page) × (page ≤ 10000) }
    requires ahead { ahead ≤ 100 }
{
    let mut desk = Desk::open(alloc, 10, page, ahead)?;
    let wrong = first_wrong(rt, alloc, &mut desk, source, steps).unwrap_or(100);
    let (want, asks, rows) = desk.close(alloc, to_other)?;
    Some((wrong, want, asks, rows))
}

/// The same over the ten rows.
fn over_ten(
    rt: &impl Wait,
    alloc: Global,
    kind: Kind,
    page: u32,
    ahead: u32,
    steps: &[Step],
    to_other: bool,
) -> Option<(usize, u32, u32, u32)>
    requires page { (1 ≤ page) × (page ≤ 10000) }
    requires ahead { ahead ≤ 100 }
{
    let held = Held {
        place: "a",
        rows: TEN,
        kind,
    };
    let mut source = source_of(alloc, &held)?;
    let figures = over_source(rt, alloc, &mut source, page, ahead, steps, to_other);
    drop(source);
    figures
}

/// Nothing is read further than the reach, and one page is read for both passes.
#[test]
fn reads_as_far_as_the_passes_want(rt: HostRuntime) -> Result<(), Fail> {
    let ahead = over_ten(&rt, rt.alloc(), Kind::Honest, 2, 1, &AHEAD, false);
    let shared = over_ten(&rt, rt.alloc(), Kind::FailsAtPage(1), 1, 0, &SHARED, true);
    let are_so = [
        ahead == Some((100, 5, 1, 6)),
        shared == Some((100, 1, 0, 1)),
    ];
    assert_eq!(rt; are_so, [true, true]);
    Ok(())
}
