//! The turns of a fetcher.

ghost use Rattle.std.specs.Prelude.{◌≡◌, ◌≢◌, ◌≤◌, ◌+◌, ◌<◌, ℕ, Some, None, length};
ghost use Rattle.source_state.specs.State.{State as StateOf};
ghost use Rattle.source_state.specs.Events.{MayCome};
ghost use Rattle.source_state.specs.Looking.{reach_of};
ghost use Rattle.source_pool.specs.Passes.{IsIdleOf};
ghost use Rattle.source_api.specs.Counting.{NoneFell};
ghost use Rattle.fetcher.specs.Turning.{IsFound, Feeds, IsPlanned, IsFed, Brings, MayTellPage, MayTellGrade, MayFetch, IsNext};
ghost use Rattle.fetcher.specs.Turning.{settled_by, answer_by, troubled_by, IsOfSource};
ghost use Rattle.fetcher.specs.Calling.{IsLooked, PutsEvent, CalledForPage, CalledForGrade, IsFetchTurn};
ghost use Rattle.fetcher.specs.Moving.{IsMovedAs};
ghost use Rattle.fetcher.specs.Metering.{HasCountOf, counted_by};

use super::turned::{Fetched, Turned};
use ranked_list::PageRows;
use source_api::{Source, Trouble};
use source_pool::{Feeder, Pool};
use source_state::{Event, Plan};
use std::alloc::Global;
use std::sync::Wait;

/// What is to be fetched next, read in one turn.
fn read_plan(rt: &impl Wait, pool: &Pool, feeder: &mut Feeder, page: u32, ahead: u32) -> Plan
    requires own { IsIdleOf pool.now feeder.old }
    requires page { (1 ≤ page) × (page ≤ 10000) }
    requires ahead { ahead ≤ 100 }
    ensures own { IsIdleOf pool.now feeder.new }
    ensures source { feeder.new.source ≡ feeder.old.source }
    ensures feeds { Feeds feeder.old.pass.1 feeder.new.pass.1 }
    ensures turns { feeder.new.pass.1.turns ≡ feeder.old.pass.1.turns + 1 }
    ensures plan { IsPlanned page ahead feeder.old.pass.1 feeder.new.pass.1 result }
    ensures looked { IsLooked page ahead feeder.old.pass.1 feeder.new.pass.1 result }
    ensures next { MayFetch page ahead feeder.new.pass.1 result }
{
    let state = pool.take(rt, feeder);
    let next = state.plan(page, ahead);
    pool.give(feeder, state);
    next
}

/// Applies an event in one turn, and wakes who sleeps until something is told.
fn tell(rt: &impl Wait, pool: &Pool, feeder: &mut Feeder, event: Event)
    requires own { IsIdleOf pool.now feeder.old }
    requires source { IsOfSource event }
    requires may { (state : StateOf) → IsFound state feeder.old.pass.1 → MayCome state event }
    ensures own { IsIdleOf pool.now feeder.new }
    ensures source { feeder.new.source ≡ feeder.old.source }
    ensures feeds { Feeds feeder.old.pass.1 feeder.new.pass.1 }
    ensures fed { IsFed event feeder.old.pass.1 feeder.new.pass.1 }
    ensures told { PutsEvent event feeder.old.pass.1 feeder.new.pass.1 }
{
    let mut state = pool.take(rt, feeder);
    // Serves the prover alone: `count` promises that the state is sound.
    let _ = state.count();
    state.apply(event);
    pool.give(feeder, state);
    pool.wake_lookers(feeder);
}

/// Applies the rows of a page.
fn tell_page(rt: &impl Wait, pool: &Pool, feeder: &mut Feeder, rows: PageRows) -> Turned
    requires own { IsIdleOf pool.now feeder.old }
    requires may { MayTellPage rows feeder.old.pass.1 }
    ensures own { IsIdleOf pool.now feeder.new }
    ensures source { feeder.new.source ≡ feeder.old.source }
    ensures feeds { Feeds feeder.old.pass.1 feeder.new.pass.1 }
    ensures fed { IsFed (Event.Page rows) feeder.old.pass.1 feeder.new.pass.1 }
    ensures told { PutsEvent (Event.Page rows) feeder.old.pass.1 feeder.new.pass.1 }
    ensures answer { result ≡ Turned.Paged (length rows) }
{
    let given = rows.len();
    tell(rt, pool, feeder, Event::Page { rows });
    Turned::Paged { rows: given }
}

/// The event that an answered call for a grade makes.
fn event_of(object: u32, grade: Option<u32>) -> Event
    ensures { result ≡ settled_by object grade }
{
    match grade {
        Some(grade) => Event::Grade { object, grade },
        None => Event::Miss { object },
    }
}

/// What an answered call for a grade makes of the turn.
fn answer_of(object: u32, grade: Option<u32>) -> Turned
    ensures { result ≡ answer_by object grade }
{
    match grade {
        Some(_) => Turned::Graded { object },
        None => Turned::Missed { object },
    }
}

/// Applies the grade of an object, or that the source hasn't it.
fn tell_grade(
    rt: &impl Wait,
    pool: &Pool,
    feeder: &mut Feeder,
    object: u32,
    grade: Option<u32>,
) -> Turned
    requires own { IsIdleOf pool.now feeder.old }
    requires may { MayTellGrade object feeder.old.pass.1 }
    ensures own { IsIdleOf pool.now feeder.new }
    ensures source { feeder.new.source ≡ feeder.old.source }
    ensures feeds { Feeds feeder.old.pass.1 feeder.new.pass.1 }
    ensures fed { IsFed (settled_by object grade) feeder.old.pass.1 feeder.new.pass.1 }
    ensures told { PutsEvent (settled_by object grade) feeder.old.pass.1 feeder.new.pass.1 }
    ensures answer { result ≡ answer_by object grade }
{
    let event = event_of(object, grade);
    tell(rt, pool, feeder, event);
    answer_of(object, grade)
}

/// The event that a call makes that gave nothing: one for the grade of `object`, or for a page where there is none.
fn trouble_event(object: Option<u32>, trouble: Trouble) -> Event
    ensures { result ≡ troubled_by object trouble }
{
    match trouble {
        Trouble::Fail(what) => Event::Fail { what },
        Trouble::Moved { had, now } => Event::Move { object, had, now },
    }
}

/// Applies that a call of the source, for the grade of `object` or for a page, gave nothing.
fn tell_trouble(
    rt: &impl Wait,
    pool: &Pool,
    feeder: &mut Feeder,
    object: Option<u32>,
    trouble: Trouble,
) -> Turned
    requires own { IsIdleOf pool.now feeder.old }
    requires may { (state : StateOf) → IsFound state feeder.old.pass.1 → MayCome state (troubled_by object trouble) }
    ensures own { IsIdleOf pool.now feeder.new }
    ensures source { feeder.new.source ≡ feeder.old.source }
    ensures feeds { Feeds feeder.old.pass.1 feeder.new.pass.1 }
    ensures fed { IsFed (troubled_by object trouble) feeder.old.pass.1 feeder.new.pass.1 }
    ensures told { PutsEvent (troubled_by object trouble) feeder.old.pass.1 feeder.new.pass.1 }
    ensures answer { result ≡ Turned.Troubled trouble }
{
    let event = trouble_event(object, trouble);
    tell(rt, pool, feeder, event);
    Turned::Troubled(trouble)
}

/// Calls the source for a page, outside any turn, and applies what it answers.
fn fetch_page<S: Source>(
    rt: &impl Wait,
    alloc: Global,
    pool: &Pool,
    feeder: &mut Feeder,
    source: &mut S,
    from: u32,
    count: u32,
) -> Turned
    requires own { IsIdleOf pool.now feeder.old }
    requires next { IsNext from count feeder.old.pass.1 }
    ensures own { IsIdleOf pool.now feeder.new }
    ensures source { feeder.new.source ≡ feeder.old.source }
    ensures feeds { Feeds feeder.old.pass.1 feeder.new.pass.1 }
    ensures list { S.list source.new ≡ S.list source.old }
    ensures at_hand { S.at_hand source.new ≡ S.at_hand source.old }
    ensures states { S.states source.new ≡ S.states source.old }
    ensures later { NoneFell (S.counts source.old) (S.counts source.new) }
    ensures brings { (page ahead : ℕ) → 1 ≤ page → from + count ≤ reach_of feeder.old.pass.1.sight.mark page ahead feeder.old.pass.1.name.1
        → Brings page ahead (S.list source.old) (S.counts source.old) (S.counts source.new) feeder.old.pass.1 feeder.new.pass.1 result }
    ensures busy { result ≢ Turned.Idle }
    ensures moved { IsMovedAs (S.at_hand source.old) (S.states source.old) result }
    ensures called { CalledForPage from count (S.calls source.old) (S.calls source.new) feeder.old.pass.1 feeder.new.pass.1 result }
{
    match source.page(alloc, from, count) {
        Ok(rows) => tell_page(rt, pool, feeder, PageRows::from_vec(rows)),
        Err(trouble) => tell_trouble(rt, pool, feeder, None, trouble),
    }
}

/// Calls the source for the grade of an object, outside any turn, and applies what it answers.
fn fetch_grade<S: Source>(
    rt: &impl Wait,
    alloc: Global,
    pool: &Pool,
    feeder: &mut Feeder,
    source: &mut S,
    object: u32,
) -> Turned
    requires own { IsIdleOf pool.now feeder.old }
    requires may { MayTellGrade object feeder.old.pass.1 }
    ensures own { IsIdleOf pool.now feeder.new }
    ensures source { feeder.new.source ≡ feeder.old.source }
    ensures feeds { Feeds feeder.old.pass.1 feeder.new.pass.1 }
    ensures list { S.list source.new ≡ S.list source.old }
    ensures at_hand { S.at_hand source.new ≡ S.at_hand source.old }
    ensures states { S.states source.new ≡ S.states source.old }
    ensures later { NoneFell (S.counts source.old) (S.counts source.new) }
    ensures brings { (page ahead : ℕ)
        → Brings page ahead (S.list source.old) (S.counts source.old) (S.counts source.new) feeder.old.pass.1 feeder.new.pass.1 result }
    ensures busy { result ≢ Turned.Idle }
    ensures moved { IsMovedAs (S.at_hand source.old) (S.states source.old) result }
    ensures called { CalledForGrade object (S.calls source.old) (S.calls source.new) feeder.old.pass.1 feeder.new.pass.1 result }
{
    match source.grade(alloc, object) {
        Ok(grade) => tell_grade(rt, pool, feeder, object, grade),
        Err(trouble) => tell_trouble(rt, pool, feeder, Some(object), trouble),
    }
}

/// A turn of a fetcher: what is to be fetched next is read in a turn of the state, and then the source is called once, outside the
/// turn, and what it answers is applied in one further turn. Where nothing is to be fetched the source isn't called.
///
/// *Cost*: one turn for `plan`; unless that is idle, one call of the source and one turn for `apply`.
pub fn fetch_turn<S: Source>(
    rt: &impl Wait,
    alloc: Global,
    pool: &Pool,
    feeder: &mut Feeder,
    source: &mut S,
    page: u32,
    ahead: u32,
) -> Turned
    requires own { IsIdleOf pool.now feeder.old }
    requires page { (1 ≤ page) × (page ≤ 10000) }
    requires ahead { ahead ≤ 100 }
    ensures own { IsIdleOf pool.now feeder.new }
    ensures source { feeder.new.source ≡ feeder.old.source }
    ensures feeds { Feeds feeder.old.pass.1 feeder.new.pass.1 }
    ensures list { S.list source.new ≡ S.list source.old }
    ensures at_hand { S.at_hand source.new ≡ S.at_hand source.old }
    ensures states { S.states source.new ≡ S.states source.old }
    ensures later { NoneFell (S.counts source.old) (S.counts source.new) }
    ensures brings { Brings page ahead (S.list source.old) (S.counts source.old) (S.counts source.new) feeder.old.pass.1 feeder.new.pass.1 result }
    ensures moved { IsMovedAs (S.at_hand source.old) (S.states source.old) result }
    ensures calls { IsFetchTurn page ahead (S.calls source.old) (S.calls source.new) feeder.old.pass.1 feeder.new.pass.1 result }
{
    match read_plan(rt, pool, feeder, page, ahead) {
        Plan::Idle => Turned::Idle,
        Plan::Page { from, count } => fetch_page(rt, alloc, pool, feeder, source, from, count),
        Plan::Grade { object } => fetch_grade(rt, alloc, pool, feeder, source, object),
    }
}

/// What was fetched, with what one more turn brought.
pub(crate) fn counted(fetched: Fetched, turned: Turned) -> Fetched
    requires { HasCountOf fetched turned }
    ensures { result ≡ counted_by fetched turned }
{
    match turned {
        Turned::Paged { rows } => Fetched {
            rows: fetched.rows + rows,
            ..fetched
        },
        Turned::Graded { .. } | Turned::Missed { .. } => Fetched {
            grades: fetched.grades + 1,
            ..fetched
        },
        Turned::Troubled(_) | Turned::Idle => fetched,
    }
}
