//! Grades that a pass remembers.

use fetcher::Turned;
use ranked_list::Need;
use source_pool::Remembered;
use source_state::{Asked, Event, Look, SourceState};
use std::alloc::Global;
use std::sync::Wait;
use std::test::Fail;
use test_mem_source::{Held, Kind, MemSource, source_of};
use test_query_support::{Desk, Step, first_wrong};

/// A list of three rows.
const SHORT: Held = Held {
    place: "a",
    rows: &[(1, 900), (2, 800), (3, 100)],
    kind: Kind::Honest,
};

/// The need for the grade of an object.
macro_rules! grade {
    ($object:expr) => {
        Need::Grade {
            list: 0,
            object: $object,
        }
    };
}

/// A grade that the source gave is answered without a turn once it was looked for again, and so is the next one. Each pass has its own.
const ONCE: [Step; 10] = [
    Step::Look(grade!(2), Look::NotYet),
    Step::Turn(Turned::Graded { object: 2 }),
    Step::Look(grade!(2), Look::Grade(800)),
    Step::Look(grade!(2), Look::Grade(800)),
    Step::Held(grade!(2), Look::Grade(800)),
    Step::Other(grade!(3), Look::NotYet),
    Step::Turn(Turned::Graded { object: 3 }),
    Step::Look(grade!(3), Look::Grade(100)),
    Step::Look(grade!(3), Look::Grade(100)),
    Step::Held(grade!(3), Look::Grade(100)),
];

/// Whether each step answers as it is to over the list. None without memory.
fn goes_so(rt: &impl Wait, alloc: Global, steps: &[Step]) -> Option<bool> {
    let mut source: MemSource = source_of(alloc, &SHORT)?;
    let Some(mut desk) = Desk::open(alloc, 3, 1, 0) else {
        drop(source);
        return None;
    };
    let wrong = first_wrong(rt, alloc, &mut desk, &mut source, steps);
    desk.let_go();
    drop(source);
    Some(wrong.is_none())
}

#[test]
fn are_answered_without_a_turn(rt: HostRuntime) -> Result<(), Fail> {
    assert_eq!(rt; goes_so(&rt, rt.alloc(), &ONCE), Some(true));
    Ok(())
}

/// Asks a state for the grade of an object, where there is room for it.
fn ask(state: &mut SourceState, object: u32) {
    if state.asks() < state.count() {
        state.apply(Event::Ask { object });
    }
}

/// Asks a state for the grade of an object, and settles it.
fn settle(state: &mut SourceState, object: u32, grade: u32) {
    ask(state, object);
    if state.asked(object) == Some(Asked::Pending) {
        state.apply(Event::Grade { object, grade });
    }
}

/// Keeps the grade that a state has of an object, and what is remembered of it then.
fn kept(remembered: &mut Remembered, state: &SourceState, object: u32) -> Option<Look> {
    remembered.keep(state, grade!(object), Look::Grade(0), false);
    remembered.answer(grade!(object))
}

/// Whether what is remembered is as it should be: of an object before and after its grade is kept, of one with the same place, of the first
/// again, and of one that is pending. None without memory.
fn are_so(alloc: Global) -> Option<[bool; 5]> {
    let mut state = SourceState::open(alloc, 0, 20_000).ok()?;
    let Ok(mut remembered) = Remembered::make(alloc, 20_000) else {
        drop(state);
        return None;
    };
    settle(&mut state, 7, 500);
    settle(&mut state, 32_775, 400);
    ask(&mut state, 9);
    let before = remembered.answer(grade!(7));
    let first = kept(&mut remembered, &state, 7);
    let second = kept(&mut remembered, &state, 32_775);
    let again = remembered.answer(grade!(7));
    let pending = kept(&mut remembered, &state, 9);
    drop(remembered);
    drop(state);
    Some([
        before.is_none(),
        first == Some(Look::Grade(500)),
        second == Some(Look::Grade(400)),
        again.is_none(),
        pending.is_none(),
    ])
}

#[test]
fn give_way_to_another_object(rt: HostRuntime) -> Result<(), Fail> {
    assert_eq!(rt; are_so(rt.alloc()), Some([true; 5]));
    Ok(())
}
