//! Looks that a pass's window answers, and rows that it has or hasn't.

ghost use Rattle.std.specs.Prelude.{◌≤◌};

use fetcher::Turned;
use ranked_list::{Need, Row};
use source_state::Look;
use std::alloc::Global;
use std::sync::Wait;
use std::test::Fail;
use test_mem_source::{Held, Kind, MemSource, source_of};
use test_query_support::{Desk, Step, first_wrong};

const FIRST: Row = Row {
    object: 1,
    grade: 900,
};

const SECOND: Row = Row {
    object: 2,
    grade: 800,
};

const THIRD: Row = Row {
    object: 3,
    grade: 100,
};

/// A list of three rows.
const SHORT: Held = Held {
    place: "a",
    rows: &[(1, 900), (2, 800), (3, 100)],
    kind: Kind::Honest,
};

/// How many rows the long list has.
const MANY: u32 = 300;

/// The row of the long list at a depth.
macro_rules! long_row {
    ($depth:expr) => {
        Row {
            object: $depth,
            grade: 1000 - $depth,
        }
    };
}

/// The need for the row at a depth.
macro_rules! row {
    ($depth:expr) => {
        Need::Row {
            list: 0,
            depth: $depth,
        }
    };
}

/// A row that was looked for brings those below it; other passes, grades and depths past the end have none.
const WHOLE_LIST: [Step; 12] = [
    Step::Look(row!(1), Look::NotYet),
    Step::Turn(Turned::Paged { rows: 3 }),
    Step::Peek(row!(1), None),
    Step::Look(row!(1), Look::Row(FIRST)),
    Step::Peek(row!(1), Some(FIRST)),
    Step::Peek(row!(3), Some(THIRD)),
    Step::Look(row!(2), Look::Row(SECOND)),
    Step::Peek(Need::Grade { list: 0, object: 1 }, None),
    Step::Other(row!(3), Look::Row(THIRD)),
    Step::Peek(row!(2), Some(SECOND)),
    Step::Look(row!(3), Look::Row(THIRD)),
    Step::Peek(row!(1), Some(FIRST)),
];

/// A row that was looked for below the first leaves those above it out.
const FROM_SECOND: [Step; 7] = [
    Step::Look(row!(2), Look::NotYet),
    Step::Turn(Turned::Paged { rows: 3 }),
    Step::Look(row!(2), Look::Row(SECOND)),
    Step::Peek(row!(1), None),
    Step::Peek(row!(2), Some(SECOND)),
    Step::Look(row!(1), Look::Row(FIRST)),
    Step::Peek(row!(1), Some(FIRST)),
];

/// A page that comes later isn't in the window until a row of it is looked for.
const BY_PAGES: [Step; 8] = [
    Step::Look(row!(1), Look::NotYet),
    Step::Turn(Turned::Paged { rows: 2 }),
    Step::Look(row!(1), Look::Row(FIRST)),
    Step::Peek(row!(3), None),
    Step::Look(row!(3), Look::NotYet),
    Step::Turn(Turned::Paged { rows: 1 }),
    Step::Peek(row!(2), Some(SECOND)),
    Step::Look(row!(3), Look::Row(THIRD)),
];

/// All rows of the long list are kept: its first rows fill the window, and a look at the one below them brings the rest in their place.
const PAST_THE_WINDOW: [Step; 13] = [
    Step::Look(row!(MANY), Look::NotYet),
    Step::Turn(Turned::Paged { rows: 150 }),
    Step::Turn(Turned::Paged { rows: 150 }),
    Step::Look(row!(1), Look::Row(long_row!(1))),
    Step::Peek(row!(1), Some(long_row!(1))),
    Step::Peek(row!(256), Some(long_row!(256))),
    Step::Held(row!(256), Look::Row(long_row!(256))),
    Step::Peek(row!(257), None),
    Step::Look(row!(257), Look::Row(long_row!(257))),
    Step::Peek(row!(256), None),
    Step::Peek(row!(257), Some(long_row!(257))),
    Step::Peek(row!(300), Some(long_row!(300))),
    Step::Held(row!(300), Look::Row(long_row!(300))),
];

/// Whether each step answers as it is to, over a source of `count` rows read by pages of so many. None without memory.
fn answers(
    rt: &impl Wait,
    alloc: Global,
    source: &mut MemSource,
    count: u32,
    page: u32,
    steps: &[Step],
) -> Option<bool>
    requires count { count ≤ 200000 }
    requires page { (1 ≤ page) × (page ≤ 10000) }
{
    let mut desk = Desk::open(alloc, count, page, 0)?;
    let wrong = first_wrong(rt, alloc, &mut desk, source, steps);
    desk.let_go();
    Some(wrong.is_none())
}

/// The same over the short list.
fn goes_so(rt: &impl Wait, alloc: Global, page: u32, steps: &[Step]) -> Option<bool>
    requires { (1 ≤ page) × (page ≤ 10000) }
{
    let mut source = source_of(alloc, &SHORT)?;
    let so = answers(rt, alloc, &mut source, 3, page, steps);
    drop(source);
    so
}

/// The long list. None without memory.
fn long_list(alloc: Global) -> Option<MemSource> {
    let mut rows = Vec::new(alloc);
    for place in 0..MANY {
        rows.push(long_row!(place + 1)).ok()?;
    }
    MemSource::make(alloc, &rows).ok()
}

/// The same over the long list by pages of half of it.
fn goes_so_over_many(rt: &impl Wait, alloc: Global, steps: &[Step]) -> Option<bool> {
    let mut source = long_list(alloc)?;
    let so = answers(rt, alloc, &mut source, MANY, 150, steps);
    drop(source);
    so
}

#[test]
fn brings_the_rows_below(rt: HostRuntime) -> Result<(), Fail> {
    assert_eq!(rt; goes_so(&rt, rt.alloc(), 3, &WHOLE_LIST), Some(true));
    assert_eq!(rt; goes_so(&rt, rt.alloc(), 3, &FROM_SECOND), Some(true));
    Ok(())
}

#[test]
fn ends_where_the_rows_ended(rt: HostRuntime) -> Result<(), Fail> {
    assert_eq!(rt; goes_so(&rt, rt.alloc(), 2, &BY_PAGES), Some(true));
    Ok(())
}

#[test]
fn has_256_rows_at_most(rt: HostRuntime) -> Result<(), Fail> {
    assert_eq!(rt;
        goes_so_over_many(&rt, rt.alloc(), &PAST_THE_WINDOW),
        Some(true)
    );
    Ok(())
}
