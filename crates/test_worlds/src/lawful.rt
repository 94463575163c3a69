//! Which steps are lawful.

ghost use Rattle.std.specs.Prelude.{◌≡◌, ◌<◌, true, None, Some, All, length, slice_get};
ghost use Rattle.source_state.specs.declared.entry.Asked.TheVariants.{Pending};
ghost use Rattle.source_state.specs.declared.event.Event.TheVariants.{Page, Move};
ghost use Rattle.source_state.specs.State.{asked_in, state_at};
ghost use Rattle.source_state.specs.Events.{MayPage, MayMove};
ghost use Rattle.query_run.specs.Inquiries.{is_ended};
ghost use Rattle.test_worlds.specs.Worlds.{world_of};
ghost use Rattle.test_worlds.specs.Steps.{IsTestOf, MayComeTo, IsOpen, MayStep};

use super::step::Step;
use query_run::RunningQuery;
use ranked_list::PageRows;
use source_state::{Asked, SourceState};

/// Whether no row fault stands and a row is missing.
fn lacks_rows(state: &SourceState) -> bool
    ensures { IsTestOf result (MayMove state.now None) }
{
    state.row_fault().is_none() && state.rows() < state.count()
}

/// Whether the rows of a page may follow those that are kept.
fn fits(state: &SourceState, rows: &PageRows) -> bool
    ensures { IsTestOf result (MayPage state.now rows.now) }
{
    let count = state.count();
    let kept = state.rows();
    if state.row_fault().is_some() || kept >= count {
        return false;
    }
    rows.len() <= count - kept
}

/// Whether a page may come to a source.
fn may_page(states: &[SourceState], source: u32, rows: &PageRows) -> bool
    ensures { IsTestOf result (MayComeTo states.now source (Page rows.now)) }
{
    match states.get(source as usize) {
        Some(state) => fits(state, rows),
        None => false,
    }
}

/// Whether what an object settles as may come to a source: its ask is pending.
fn may_settle(states: &[SourceState], source: u32, object: u32) -> bool
    ensures { IsTestOf result ((source < length states.now) × (asked_in (state_at states.now source) object ≡ Some Pending)) }
{
    match states.get(source as usize) {
        Some(state) => state.asked(object) == Some(Asked::Pending),
        None => false,
    }
}

/// Whether a reply of a source may tell that its list was replaced: one of a page, or of the grade of an object.
fn may_move(states: &[SourceState], source: u32, object: Option<u32>) -> bool
    ensures { IsTestOf result ((source < length states.now) × MayMove (state_at states.now source) object) }
{
    match object {
        Some(object) => may_settle(states, source, object),
        None => match states.get(source as usize) {
            Some(state) => lacks_rows(state),
            None => false,
        },
    }
}

/// Whether a move from one version to another may come to a source.
fn may_move_on(states: &[SourceState], source: u32, object: Option<u32>, had: u64, now: u64) -> bool
    ensures { IsTestOf result (MayComeTo states.now source (Move object had now)) }
{
    had != now && may_move(states, source, object)
}

/// Whether a query may take a turn.
fn may_turn(queries: &[RunningQuery], query: u32) -> bool
    ensures { IsTestOf result (IsOpen (slice_get queries.now query)) }
{
    match queries.get(query as usize) {
        Some(query) => !query.is_ended(),
        None => false,
    }
}

/// Whether a step of these sources and queries is lawful.
pub(crate) fn may_take(states: &[SourceState], queries: &[RunningQuery], step: &Step) -> bool
    ensures { IsTestOf result (MayStep (world_of states.now queries.now) step.now) }
{
    match step {
        Step::Page { source, rows } => may_page(states, *source, rows),
        Step::Grade { source, object, .. } | Step::Miss { source, object } => {
            may_settle(states, *source, *object)
        }
        Step::Fail { source, .. } => (*source as usize) < states.len(),
        Step::Move {
            source,
            object,
            had,
            now,
        } => may_move_on(states, *source, *object, *had, *now),
        Step::Turn { query } => may_turn(queries, *query),
    }
}

/// Whether all of these queries have ended.
pub(crate) fn are_ended(queries: &[RunningQuery]) -> bool
    ensures { IsTestOf result (All (λ query. is_ended query ≡ true) queries.now) }
{
    for place in 0..queries.len() {
        if !queries[place].is_ended() {
            return false;
        }
    }
    true
}
