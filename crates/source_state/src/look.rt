//! A look at the state for what a query needs.

ghost use Rattle.std.specs.Prelude.{◌≡◌, ◌≤◌, false};
ghost use Rattle.turn_lock.specs.Facts.{FactsGrow, AreFactsKept};
ghost use Rattle.source_state.specs.State.{IsSound, facts_of};
ghost use Rattle.source_state.specs.Looking.{is_same, waits_for, newer, told, decided_row, decided_grade, decided, is_full, called, Looks, MayLook};

use super::entry::{Asked, SourceFault};
use super::state::SourceState;
use ranked_list::{Need, Row};
use source_api::FailKind;
use turn_lock::Tally;

/// What is waited for, and the tally that was noted when the waiting began.
#[derive(Clone, Copy)]
pub struct Waiting {
    pub need: Option<Need>,
    pub noted: Tally,
}

/// What a look answers.
#[derive(Clone, Copy, PartialEq, Eq)]
pub enum Look {
    /// The row is there.
    Row(Row),
    /// The grade is there.
    Grade(u32),
    /// It isn't there yet, and is waited for.
    NotYet,
    /// It can't be had.
    Fault(LookFault),
}

/// Why a need can't be met.
#[derive(Clone, Copy, PartialEq, Eq)]
pub enum LookFault {
    /// The source's rows or this grade of it are at fault, or its list was replaced.
    Source(SourceFault),
    /// The source hasn't the object.
    Missing { object: u32 },
    /// As many objects were asked as the list has, and this one is neither among them nor in the rows.
    AsksFull { kept: u32 },
    /// A call failed so since the waiting began.
    Call(FailKind),
}

/// Whether two needs are for the same row or the same grade.
fn is_same(one: Need, other: Need) -> bool
    ensures { result ≡ is_same one other }
{
    match (one, other) {
        (Need::Row { depth, .. }, Need::Row { depth: another, .. }) => depth == another,
        (
            Need::Grade { object, .. },
            Need::Grade {
                object: another,
                ..
            },
        ) => object == another,
        _ => false,
    }
}

/// Whether this is what is waited for.
fn waits_for(waited: Option<Need>, need: Need) -> bool
    ensures { result ≡ waits_for waited need }
{
    match waited {
        Some(waited) => is_same(waited, need),
        None => false,
    }
}

/// The first kind of fail of which more came than were noted.
fn newer(noted: Tally, now: Tally) -> Option<FailKind>
    ensures { result ≡ newer noted now }
{
    if noted.failed < now.failed {
        return Some(FailKind::Failed);
    }
    if noted.garbled < now.garbled {
        return Some(FailKind::Garbled);
    }
    if noted.memory < now.memory {
        return Some(FailKind::Memory);
    }
    None
}

/// The kind of fail that came since this need began to wait, if it waits.
fn told(waiting: Waiting, need: Need, now: Tally) -> Option<FailKind>
    ensures { result ≡ told waiting need now }
{
    if waits_for(waiting.need, need) {
        newer(waiting.noted, now)
    } else {
        None
    }
}

/// The row at a depth, or the row fault.
fn decided_row(state: &SourceState, depth: u32) -> Option<Look>
    requires { 1 ≤ depth }
    ensures { result ≡ decided_row state.now depth }
{
    if let Some(row) = state.row(depth - 1) {
        return Some(Look::Row(row));
    }
    match state.row_fault() {
        Some(fault) => Some(Look::Fault(LookFault::Source(fault))),
        None => None,
    }
}

/// What the ask of an object settled as, or its grade in the rows.
fn decided_grade(state: &SourceState, object: u32) -> Option<Look>
    ensures { result ≡ decided_grade state.now object }
{
    match state.asked(object) {
        Some(Asked::Graded(grade)) => return Some(Look::Grade(grade)),
        Some(Asked::Bad(fault)) => return Some(Look::Fault(LookFault::Source(fault))),
        Some(Asked::Missed) => return Some(Look::Fault(LookFault::Missing { object })),
        Some(Asked::Pending) | None => {}
    }
    match state.grade_in_rows(object) {
        Some(grade) => Some(Look::Grade(grade)),
        None => None,
    }
}

/// What the log says of a need.
fn decided(state: &SourceState, need: Need) -> Option<Look>
    requires { MayLook state.now need }
    ensures { result ≡ decided state.now need }
{
    match need {
        Need::Row { depth, .. } => decided_row(state, depth),
        Need::Grade { object, .. } => decided_grade(state, object),
        Need::Done => None,
    }
}

/// Whether no room is left for the ask of a need.
fn is_full(state: &SourceState, need: Need) -> bool
    ensures { result ≡ is_full state.now need }
{
    match need {
        Need::Grade { object, .. } => {
            state.asked(object).is_none() && state.asks() == state.count()
        }
        Need::Row { .. } | Need::Done => false,
    }
}

/// The want or the ask of a need.
fn call(state: &mut SourceState, need: Need)
    requires may { MayLook state.old need }
    requires room { is_full state.old need ≡ false }
    requires sound { IsSound state.old }
    ensures state { state.new ≡ called state.old need }
    ensures grows { FactsGrow (facts_of state.old) (facts_of state.new) }
    ensures keeps { AreFactsKept (facts_of state.old) (facts_of state.new) }
    ensures sound { IsSound state.new }
{
    match need {
        Need::Row { depth, .. } => state.add_want(depth),
        Need::Grade { object, .. } => state.add_ask(object),
        Need::Done => {}
    }
}

/// Looks for what a query needs. What the log decides comes first, then a fail since the need began to wait, then that no room is
/// left for one more ask; else the need waits, and where it begins to wait the state gets its want or its ask. The number of the
/// need's list is not compared. Each answer but `NotYet` ends the waiting. It takes no memory.
///
/// *Cost*: a look-up or two.
pub fn look_at(state: &mut SourceState, waiting: &mut Waiting, need: Need) -> Look
    requires { MayLook state.old need }
    ensures looks { Looks need state.old state.new waiting.old waiting.new result }
    ensures grows { FactsGrow (facts_of state.old) (facts_of state.new) }
    ensures keeps { AreFactsKept (facts_of state.old) (facts_of state.new) }
    ensures sound { IsSound state.new }
{
    let kept = state.asks();
    if let Some(answer) = decided(state, need) {
        waiting.need = None;
        return answer;
    }
    if let Some(what) = told(*waiting, need, state.tally()) {
        waiting.need = None;
        return Look::Fault(LookFault::Call(what));
    }
    if is_full(state, need) {
        waiting.need = None;
        return Look::Fault(LookFault::AsksFull { kept });
    }
    if waits_for(waiting.need, need) {
        return Look::NotYet;
    }
    call(state, need);
    *waiting = Waiting {
        need: Some(need),
        noted: state.tally(),
    };
    Look::NotYet
}
