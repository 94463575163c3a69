//! Steps as plain data, taken where they are lawful.

ghost use Rattle.std.specs.Prelude.{◌≡◌, true, All, OnSome};
ghost use Rattle.query_run.specs.Inquiries.{is_ended};

use super::step::Step;
use super::world::World;
use ranked_list::{PageRows, Row};
use source_api::FailKind;
use source_state::Plan;
use std::alloc::Global;

/// What the sources of a world hold, and how they answer.
#[derive(Clone, Copy)]
pub struct Sources {
    /// The rows of each, objects with their grades, from the top down.
    pub lists: &'static [&'static [(u32, u32)]],
    /// The grades, of a source and an object, that random access gives otherwise than the rows.
    pub grades: &'static [(u32, u32, u32)],
    /// How many rows a page has.
    pub page: u32,
    /// The source whose page behind so many rows fails once.
    pub fails: Option<(u32, u32)>,
}

/// A step as plain data.
#[derive(Clone, Copy)]
pub enum Act {
    Turn(u32),
    /// The next rows of a source, so many.
    Page(u32, u32),
    /// What random access of a source brings of an object.
    Grade(u32, u32),
    Fail(u32),
    /// A source's list was replaced, as the reply of a page or of the grade of an object told, with the version that it had and the one
    /// now.
    Move(u32, Option<u32>, u64, u64),
}

/// Takes a step if it is lawful.
fn take(world: &mut World, step: Step) -> bool {
    let may = world.may_step(&step);
    if may {
        world.step(step);
    }
    may
}

/// Adds the rows of a list behind the first, so many of them. False without memory.
fn add_rows(list: &[(u32, u32)], from: u32, count: u32, rows: &mut Vec<Row>) -> bool {
    for (object, grade) in list.iter().skip(from as usize).take(count as usize) {
        let row = Row {
            object: *object,
            grade: *grade,
        };
        if rows.push(row).is_err() {
            return false;
        }
    }
    true
}

/// A page of these rows. None without memory, or where they are too many for a small page.
fn page_of(alloc: Global, list: &[(u32, u32)], from: u32, count: u32) -> Option<PageRows> {
    let mut rows = Vec::new(alloc);
    if !add_rows(list, from, count, &mut rows) || rows.len() > 1000 {
        return None;
    }
    Some(PageRows::from_vec(rows))
}

/// The grade of an object of a source among those that random access gives otherwise than the rows.
fn other_grade(grades: &[(u32, u32, u32)], source: u32, object: u32) -> Option<u32> {
    for (of, graded, grade) in grades {
        if *of == source && *graded == object {
            return Some(*grade);
        }
    }
    None
}

/// The grade of an object in the rows of a list.
fn grade_in(rows: &[(u32, u32)], object: u32) -> Option<u32> {
    for (held, grade) in rows {
        if *held == object {
            return Some(*grade);
        }
    }
    None
}

/// The grade that random access gives.
fn grade_of(sources: &Sources, source: u32, object: u32) -> Option<u32> {
    if let Some(grade) = other_grade(sources.grades, source, object) {
        return Some(grade);
    }
    match sources.lists.get(source as usize) {
        Some(rows) => grade_in(*rows, object),
        None => None,
    }
}

/// What random access of an object brings.
fn graded(sources: &Sources, source: u32, object: u32) -> Step {
    match grade_of(sources, source, object) {
        Some(grade) => Step::Grade {
            source,
            object,
            grade,
        },
        None => Step::Miss { source, object },
    }
}

/// Takes a page of a source, if it is lawful. None where there is no page.
fn take_page(
    alloc: Global,
    world: &mut World,
    sources: &Sources,
    source: u32,
    count: u32,
) -> Option<bool> {
    if source >= world.sources() {
        return Some(false);
    }
    let from = world.state(source).rows();
    let list: &[(u32, u32)] = match sources.lists.get(source as usize) {
        Some(list) => *list,
        None => &[],
    };
    match page_of(alloc, list, from, count) {
        Some(rows) => Some(take(world, Step::Page { source, rows })),
        None => None,
    }
}

/// Takes a step, if it is lawful. None where there is no memory for it, or its page is no small one.
pub fn take_act(alloc: Global, world: &mut World, sources: &Sources, step: Act) -> Option<bool> {
    let step = match step {
        Act::Turn(query) => Step::Turn { query },
        Act::Page(source, count) => return take_page(alloc, world, sources, source, count),
        Act::Grade(source, object) => graded(sources, source, object),
        Act::Fail(source) => Step::Fail {
            source,
            what: FailKind::Failed,
        },
        Act::Move(source, object, had, now) => Step::Move {
            source,
            object,
            had,
            now,
        },
    };
    Some(take(world, step))
}

/// The step of a call that a source plans, None where it is idle.
fn act_of(sources: &Sources, source: u32, plan: Plan) -> Option<Act> {
    match plan {
        Plan::Idle => None,
        Plan::Page { from, .. } if sources.fails == Some((source, from)) => Some(Act::Fail(source)),
        Plan::Page { count, .. } => Some(Act::Page(source, count)),
        Plan::Grade { object } => Some(Act::Grade(source, object)),
    }
}

/// The step of the next call of a source, None where it is idle. A call that fails does so once.
fn next_act(world: &World, sources: &mut Sources, source: u32) -> Option<Act> {
    if source >= world.sources() || sources.page == 0 || sources.page > 1000 {
        return None;
    }
    let plan = world.state(source).plan(sources.page, 0);
    let act = act_of(sources, source, plan);
    if let Some(Act::Fail(_)) = act {
        sources.fails = None;
    }
    act
}

/// One call of a source that isn't idle, and its step, if it is lawful. None where there is no memory for it.
fn serve(alloc: Global, world: &mut World, sources: &mut Sources, source: u32) -> Option<bool> {
    match next_act(world, sources, source) {
        Some(act) => take_act(alloc, world, sources, act),
        None => Some(false),
    }
}

/// One call of each source. False without memory.
fn serve_all(alloc: Global, world: &mut World, sources: &mut Sources) -> bool {
    for source in 0..world.sources() {
        if serve(alloc, world, sources, source).is_none() {
            return false;
        }
    }
    true
}

/// Turns of the first queries that haven't ended, so many, in their order.
fn turn_first(world: &mut World, workers: u32) {
    let mut turned = 0;
    for query in 0..world.queries() {
        if turned < workers && take(world, Step::Turn { query }) {
            turned += 1;
        }
    }
}

/// Rounds of turns and of calls of the sources, until all queries have ended. None where they don't, or where the pages aren't of 1 to
/// 1,000 rows.
pub fn end_by_rounds(
    alloc: Global,
    world: &mut World,
    sources: &Sources,
    workers: u32,
) -> Option<()>
    ensures { OnSome result (All (λ query. is_ended query ≡ true) world.new.queries) }
{
    if sources.page == 0 || sources.page > 1000 {
        return None;
    }
    let mut sources = *sources;
    for _round in 0..1000 {
        if world.all_ended() {
            return Some(());
        }
        turn_first(world, workers);
        if !serve_all(alloc, world, &mut sources) {
            return None;
        }
    }
    None
}
