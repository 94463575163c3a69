//! Looks and turns of the fetcher over sources that fail, garble, lie, are short or are replaced.

ghost use Rattle.std.specs.Prelude.{◌≤◌};

use fetcher::Turned;
use ranked_list::{Need, Row};
use source_api::{FailKind, Trouble};
use source_state::{Look, LookFault, SourceFault};
use std::alloc::Global;
use std::sync::Wait;
use std::test::Fail;
use test_mem_source::{Held, Kind, MemSource, Move, source_of};
use test_query_support::{Desk, Step, first_wrong};

const ROWS: &[(u32, u32)] = &[(1, 900), (2, 800), (3, 100)];

const ROW_1: Need = Need::Row { list: 0, depth: 1 };

const ROW_2: Need = Need::Row { list: 0, depth: 2 };

const ROW_4: Need = Need::Row { list: 0, depth: 4 };

const GRADE_2: Need = Need::Grade { list: 0, object: 2 };

const GRADE_3: Need = Need::Grade { list: 0, object: 3 };

const GRADE_4: Need = Need::Grade { list: 0, object: 4 };

const GRADE_5: Need = Need::Grade { list: 0, object: 5 };

const FIRST: Look = Look::Row(Row {
    object: 1,
    grade: 900,
});

const SECOND: Look = Look::Row(Row {
    object: 2,
    grade: 800,
});

const MOVED: Look = Look::Fault(LookFault::Source(SourceFault::Moved { had: 0, now: 8 }));

/// Another version of the list from the second call on.
const REPLACED: Kind = Kind::Moves(Move {
    had: 0,
    call: 2,
    now: 8,
});

/// One failed page isn't for ever: who waited is told once, and waits anew.
const FAILED_PAGE: [Step; 11] = [
    Step::Look(ROW_1, Look::NotYet),
    Step::Turn(Turned::Paged { rows: 1 }),
    Step::Look(ROW_1, FIRST),
    Step::Turn(Turned::Idle),
    Step::Look(ROW_2, Look::NotYet),
    Step::Turn(Turned::Troubled(Trouble::Fail(FailKind::Failed))),
    Step::Turn(Turned::Idle),
    Step::Look(ROW_2, Look::Fault(LookFault::Call(FailKind::Failed))),
    Step::Look(ROW_2, Look::NotYet),
    Step::Turn(Turned::Paged { rows: 1 }),
    Step::Look(ROW_2, SECOND),
];

/// A grade that was given before its row, with another grade than the row's.
const CLASH: [Step; 9] = [
    Step::Look(ROW_1, Look::NotYet),
    Step::Turn(Turned::Paged { rows: 1 }),
    Step::Look(GRADE_2, Look::NotYet),
    Step::Turn(Turned::Graded { object: 2 }),
    Step::Look(GRADE_2, Look::Grade(850)),
    Step::Look(ROW_2, Look::NotYet),
    Step::Turn(Turned::Paged { rows: 1 }),
    Step::Look(
        ROW_2,
        Look::Fault(LookFault::Source(SourceFault::Clash {
            object: 2,
            sorted: 800,
            random: 850,
        })),
    ),
    Step::Turn(Turned::Idle),
];

/// A grade above the last row's, beside a row that stays.
const ABOVE: [Step; 6] = [
    Step::Look(ROW_1, Look::NotYet),
    Step::Turn(Turned::Paged { rows: 1 }),
    Step::Look(GRADE_2, Look::NotYet),
    Step::Turn(Turned::Graded { object: 2 }),
    Step::Look(
        GRADE_2,
        Look::Fault(LookFault::Source(SourceFault::Above {
            object: 2,
            grade: 950,
            bottom: 900,
        })),
    ),
    Step::Look(ROW_1, FIRST),
];

/// A grade that couldn't be read, beside a row that stays, and the next call for it.
const GARBLED: [Step; 8] = [
    Step::Look(ROW_1, Look::NotYet),
    Step::Turn(Turned::Paged { rows: 1 }),
    Step::Look(GRADE_2, Look::NotYet),
    Step::Turn(Turned::Troubled(Trouble::Fail(FailKind::Garbled))),
    Step::Look(GRADE_2, Look::Fault(LookFault::Call(FailKind::Garbled))),
    Step::Look(ROW_1, FIRST),
    Step::Look(GRADE_2, Look::NotYet),
    Step::Turn(Turned::Graded { object: 2 }),
];

/// A list of three rows that was stated to have five.
const SHORT: [Step; 6] = [
    Step::Look(ROW_4, Look::NotYet),
    Step::Turn(Turned::Paged { rows: 1 }),
    Step::Turn(Turned::Paged { rows: 1 }),
    Step::Turn(Turned::Paged { rows: 1 }),
    Step::Turn(Turned::Paged { rows: 0 }),
    Step::Look(
        ROW_4,
        Look::Fault(LookFault::Source(SourceFault::ShortList { stated: 5, got: 3 })),
    ),
];

/// A list of two objects that is asked for three others: no third ask is taken.
const STRANGERS: [Step; 7] = [
    Step::Look(GRADE_3, Look::NotYet),
    Step::Turn(Turned::Missed { object: 3 }),
    Step::Look(GRADE_3, Look::Fault(LookFault::Missing { object: 3 })),
    Step::Look(GRADE_4, Look::NotYet),
    Step::Turn(Turned::Missed { object: 4 }),
    Step::Look(GRADE_4, Look::Fault(LookFault::Missing { object: 4 })),
    Step::Look(GRADE_5, Look::Fault(LookFault::AsksFull { kept: 2 })),
];

/// A list that was replaced before its second page: rows that were kept stay, and nothing more is fetched but grades.
const MOVED_PAGE: [Step; 10] = [
    Step::Look(ROW_1, Look::NotYet),
    Step::Turn(Turned::Paged { rows: 1 }),
    Step::Look(ROW_2, Look::NotYet),
    Step::Turn(Turned::Troubled(Trouble::Moved { had: 0, now: 8 })),
    Step::Look(ROW_2, MOVED),
    Step::Look(ROW_1, FIRST),
    Step::Turn(Turned::Idle),
    Step::Look(GRADE_3, Look::NotYet),
    Step::Turn(Turned::Troubled(Trouble::Moved { had: 0, now: 8 })),
    Step::Look(GRADE_3, MOVED),
];

/// A list that was replaced before a grade of it was asked for, and then read on.
const MOVED_GRADE: [Step; 8] = [
    Step::Look(ROW_1, Look::NotYet),
    Step::Turn(Turned::Paged { rows: 1 }),
    Step::Look(GRADE_2, Look::NotYet),
    Step::Turn(Turned::Troubled(Trouble::Moved { had: 0, now: 8 })),
    Step::Look(GRADE_2, MOVED),
    Step::Turn(Turned::Idle),
    Step::Look(ROW_2, Look::NotYet),
    Step::Turn(Turned::Troubled(Trouble::Moved { had: 0, now: 8 })),
];

/// A source, how many objects it is stated to have, and steps with what they are to answer.
type Tried = (Held, u32, &'static [Step]);

/// A source of these rows.
macro_rules! held {
    ($rows:expr, $kind:expr) => {
        Held {
            place: "a",
            rows: $rows,
            kind: $kind,
        }
    };
}

static TRIED: [Tried; 8] = [
    (held!(ROWS, Kind::FailsAtPage(2)), 3, &FAILED_PAGE),
    (held!(ROWS, Kind::Lies(2, 850)), 3, &CLASH),
    (held!(ROWS, Kind::Lies(2, 950)), 3, &ABOVE),
    (held!(ROWS, Kind::GarblesAtGrade(1)), 3, &GARBLED),
    (held!(ROWS, Kind::Honest), 5, &SHORT),
    (held!(ROWS, REPLACED), 3, &MOVED_PAGE),
    (held!(ROWS, REPLACED), 3, &MOVED_GRADE),
    (held!(&[(1, 9), (2, 8)], Kind::Honest), 2, &STRANGERS),
];

/// Whether each step answers as it is to, over a source of `count` objects that is read by pages of one row. None without memory.
fn answers(
    rt: &impl Wait,
    alloc: Global,
    source: &mut MemSource,
    count: u32,
    steps: &[Step],
) -> Option<bool>
    requires { count ≤ 200000 }
{
    let mut desk = Desk::open(alloc, count, 1, 0)?;
    let wrong = first_wrong(rt, alloc, &mut desk, source, steps);
    desk.let_go();
    Some(wrong.is_none())
}

/// The same of a row.
fn goes_so(rt: &impl Wait, alloc: Global, tried: &Tried) -> Option<bool> {
    let (held, count, steps) = *tried;
    let mut source = source_of(alloc, &held)?;
    let so = answers(rt, alloc, &mut source, count.min(200_000), steps);
    drop(source);
    so
}

/// The number of the first row of which a step answers otherwise.
fn first_other(rt: &impl Wait, alloc: Global, rows: &[Tried]) -> Option<usize> {
    for (number, tried) in rows.iter().enumerate() {
        if goes_so(rt, alloc, tried) != Some(true) {
            return Some(number);
        }
    }
    None
}

#[test]
fn tells_what_the_calls_come_to(rt: HostRuntime) -> Result<(), Fail> {
    assert_eq!(rt; first_other(&rt, rt.alloc(), &TRIED), None);
    Ok(())
}
