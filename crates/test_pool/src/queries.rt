//! Queries over rows that were worked out by hand.

use super::query_cases::{Case, first_wrong};
use machine_base::CoreFault;
use source_api::FailKind;
use source_state::{LookFault, SourceFault};
use std::process::Abort;
use std::test::Fail;
use test_mem_source::{Held, Kind};
use test_query_support::{
    EARLY, EARLY_ENDS, Expected, FIRST, FIRST_ENDS, Figures, NEAR, NEAR_ENDS, RESTRICTED, SORTED,
    SORTED_ENDS,
};

/// Two lists of three objects.
const ROWS_A: &[(u32, u32)] = &[(1, 900), (2, 800), (3, 100)];

const ROWS_B: &[(u32, u32)] = &[(2, 700), (3, 600), (1, 500)];

/// The same as honest sources.
const A: Held = Held {
    place: "a",
    rows: ROWS_A,
    kind: Kind::Honest,
};

const B: Held = Held {
    place: "b",
    rows: ROWS_B,
    kind: Kind::Honest,
};

/// A list of three other objects.
const OTHERS: Held = Held {
    place: "b",
    rows: &[(4, 700), (5, 600), (6, 500)],
    kind: Kind::Honest,
};

/// A list whose second row's grade rises.
const RISING: Held = Held {
    place: "a",
    rows: &[(1, 500), (2, 600)],
    kind: Kind::Honest,
};

const FALLING: Held = Held {
    place: "b",
    rows: &[(1, 400), (2, 300)],
    kind: Kind::Honest,
};

/// Queries that are answered.
const ANSWERED: &[Case] = &[
    Case {
        asked: FIRST,
        held: (&A, &B),
        count: 3,
        ends: FIRST_ENDS,
    },
    // at depth 2 object 2 is known whole, and nothing else can have more than 1500
    Case {
        asked: SORTED,
        held: (&A, &B),
        count: 3,
        ends: SORTED_ENDS,
    },
    Case {
        asked: NEAR,
        held: (&A, &B),
        count: 3,
        ends: NEAR_ENDS,
    },
    Case {
        asked: EARLY,
        held: (&A, &B),
        count: 3,
        ends: EARLY_ENDS,
    },
    // both lists can be read in order
    Case {
        asked: RESTRICTED,
        held: (&A, &B),
        count: 3,
        ends: FIRST_ENDS,
    },
    // the row out of order isn't reached
    Case {
        asked: FIRST,
        held: (&RISING, &FALLING),
        count: 2,
        ends: Expected::Answered(
            &[(1, 900, 900)],
            Figures {
                depth: 1,
                sorted: 2,
                random: 0,
                cost: 2,
            },
        ),
    },
];

/// A room that is too small, an object too many, an object that a list lacks.
const OBJECTS: &[Case] = &[
    // there is room for object 1, and the first row of B has another
    Case {
        asked: ("top 1 by sum(A,B) using ta room 1", &[0, 1]),
        held: (&A, &B),
        count: 3,
        ends: Expected::Core(CoreFault::RoomFull { room: 1 }),
    },
    // of three objects the second row of B is the fourth
    Case {
        asked: SORTED,
        held: (&A, &OTHERS),
        count: 3,
        ends: Expected::Core(CoreFault::Strangers {
            object: 5,
            count: 3,
        }),
    },
    // B hasn't the object of A's first row, whose grade is asked for first
    Case {
        asked: FIRST,
        held: (&A, &OTHERS),
        count: 3,
        ends: Expected::Look(1, LookFault::Missing { object: 1 }),
    },
];

/// Random access gives another grade than the row has.
const GRADES: &[Case] = &[
    // the grade of object 2 in A is above that of the row that was read
    Case {
        asked: FIRST,
        held: (
            &Held {
                place: "a",
                rows: ROWS_A,
                kind: Kind::Lies(2, 950),
            },
            &B,
        ),
        count: 3,
        ends: Expected::Look(
            0,
            LookFault::Source(SourceFault::Above {
                object: 2,
                grade: 950,
                bottom: 900,
            }),
        ),
    },
    // it isn't that of the row which is read next
    Case {
        asked: FIRST,
        held: (
            &Held {
                place: "a",
                rows: ROWS_A,
                kind: Kind::Lies(2, 850),
            },
            &B,
        ),
        count: 3,
        ends: Expected::Look(
            0,
            LookFault::Source(SourceFault::Clash {
                object: 2,
                sorted: 800,
                random: 850,
            }),
        ),
    },
];

/// Rows out of order, an object twice, fewer rows than are stated.
const ROWS: &[Case] = &[
    Case {
        asked: ("top 2 by sum(A,B) using ta", &[0, 1]),
        held: (&RISING, &FALLING),
        count: 2,
        ends: Expected::Look(
            0,
            LookFault::Source(SourceFault::OutOfOrder {
                place: 2,
                before: 500,
                after: 600,
            }),
        ),
    },
    // the second row of A has the object of the first one
    Case {
        asked: SORTED,
        held: (
            &Held {
                place: "a",
                rows: &[(1, 9), (1, 8), (2, 7)],
                kind: Kind::Honest,
            },
            &B,
        ),
        count: 3,
        ends: Expected::Look(
            0,
            LookFault::Source(SourceFault::Repeated {
                object: 1,
                place: 2,
            }),
        ),
    },
    // A has two rows of the three that are stated
    Case {
        asked: ("top 3 by sum(A,B) using ta", &[0, 1]),
        held: (
            &Held {
                place: "a",
                rows: &[(1, 900), (2, 800)],
                kind: Kind::Honest,
            },
            &Held {
                place: "b",
                rows: &[(2, 700), (1, 600)],
                kind: Kind::Honest,
            },
        ),
        count: 3,
        ends: Expected::Look(
            0,
            LookFault::Source(SourceFault::ShortList { stated: 3, got: 2 }),
        ),
    },
];

/// Calls that fail, and answers that cannot be read.
const CALLS: &[Case] = &[
    // the first page of A fails: nothing is needed before it, so it isn't foreseen
    Case {
        asked: FIRST,
        held: (
            &Held {
                place: "a",
                rows: ROWS_A,
                kind: Kind::FailsAtPage(1),
            },
            &B,
        ),
        count: 3,
        ends: Expected::Look(0, LookFault::Call(FailKind::Failed)),
    },
    // the second page of A can't be read
    Case {
        asked: FIRST,
        held: (
            &Held {
                place: "a",
                rows: ROWS_A,
                kind: Kind::GarblesAtPage(2),
            },
            &B,
        ),
        count: 3,
        ends: Expected::Look(0, LookFault::Call(FailKind::Garbled)),
    },
];

/// Every case ends as it is to: there is no first one that doesn't.
fn none_is_wrong(rt: &impl Abort, first_wrong: Option<usize>) {
    assert_eq!(rt; first_wrong, None);
}

#[test]
fn answers_beside_two_fetchers(rt: HostRuntime) -> Result<(), Fail> {
    none_is_wrong(&rt, first_wrong(&rt, rt.alloc(), ANSWERED)?);
    Ok(())
}

#[test]
fn refuses_objects_beside_two_fetchers(rt: HostRuntime) -> Result<(), Fail> {
    none_is_wrong(&rt, first_wrong(&rt, rt.alloc(), OBJECTS)?);
    Ok(())
}

#[test]
fn refuses_grades_beside_two_fetchers(rt: HostRuntime) -> Result<(), Fail> {
    none_is_wrong(&rt, first_wrong(&rt, rt.alloc(), GRADES)?);
    Ok(())
}

#[test]
fn refuses_rows_beside_two_fetchers(rt: HostRuntime) -> Result<(), Fail> {
    none_is_wrong(&rt, first_wrong(&rt, rt.alloc(), ROWS)?);
    Ok(())
}

#[test]
fn refuses_calls_beside_two_fetchers(rt: HostRuntime) -> Result<(), Fail> {
    none_is_wrong(&rt, first_wrong(&rt, rt.alloc(), CALLS)?);
    Ok(())
}
