//! Worlds.

ghost use Rattle.std.specs.Prelude.{◌≡◌, ◌<◌, ◌≤◌, ◌^◌, [], true, List, All, length, IfOk, OnOk};
ghost use Rattle.std.specs.List.{AllZip};
ghost use Rattle.ranked_list.specs.declared.row.Row.{Row};
ghost use Rattle.source_state.specs.State.{state_at};
ghost use Rattle.query_core.specs.declared.ready.Ready.{Ready as AnyReady};
ghost use Rattle.query_core.specs.Ready.{IsReady};
ghost use Rattle.query_run.specs.Inquiries.{is_ended};
ghost use Rattle.test_worlds.specs.Worlds.{world_of};
ghost use Rattle.test_worlds.specs.Steps.{IsTestOf, MayStep, MayComeTo, Steps, with_event};
ghost use Rattle.test_worlds.specs.Kept.{IsWorld, IsAfter};
ghost use Rattle.query_run.specs.Made.{IsReadyFor, IsFresh, opened_from};
ghost use Rattle.test_worlds.specs.Made.{IsMade, AreOf};
ghost use Rattle.query_run.specs.Honest.{IsOnItsRun};
ghost use Rattle.test_worlds.specs.Honest.{IsHonest, IsTrueWorld};
ghost use Rattle.query_run.specs.Endings.{EndsAs, IsRight};

use super::lawful::{are_ended, may_take};
use super::step::Step;
use query_core::Ready;
use query_run::{Ended, Endings, Memory, RunningQuery, let_go, turn};
use source_state::{Event, SourceState};
use std::alloc::Global;
use std::marker::Model;
use topk_base::MAX_OBJECTS;

/// Sources, and the queries that share them. Contracts see it as `WorldState`.
#[derive(Drop)]
pub struct World {
    states: Vec<SourceState>,
    queries: Vec<RunningQuery>,
}

impl Model for World {
    ghost use Rattle.std.specs.Prelude.{◌<◌, ◌^◌, vec_len};
    ghost use Rattle.test_worlds.specs.Worlds.{WorldState, world_of};
    ghost use Rattle.test_worlds.specs.Kept.{IsWorld};
    ghost use Rattle.std.specs.Coded.{codes};
    ghost use Rattle.monotone_fn.specs.Code.{tree_code};

    ghost coded = { Prim.hlevel (codes, tree_code) };

    ghost Value = { WorldState };

    ghost view = { λ a. world_of a.states.items a.queries.items };

    ghost invariant = { λ a. IsWorld (world_of a.states.items a.queries.items)
        × (vec_len a.states < 2 ^ 32) × (vec_len a.queries < 2 ^ 32) };
}

/// Opens the sources with these counts, before any event. Room for each is taken before it is opened.
fn open_all(alloc: Global, counts: &[u32], states: &mut Vec<SourceState>) -> Result<(), Memory>
    requires none { states.old.items ≡ [] }
    requires few { length counts.now < 2 ^ 32 }
    requires counts { All (λ count. count ≤ MAX_OBJECTS) counts.now }
    ensures { OnOk result (states.new.items ≡ opened_from 0 counts.now) }
{
    for place in 0..counts.len() {
        let Ok(()) = states.reserve(1) else {
            return Err(Memory);
        };
        let Ok(state) = SourceState::open(alloc, place as u32, counts[place]) else {
            return Err(Memory);
        };
        states.push_reserved(state);
    }
    Ok(())
}

/// Makes the queries, before any access. Room for each is taken before it is made.
fn make_all(alloc: Global, readies: &[Ready], queries: &mut Vec<RunningQuery>) -> Result<(), Memory>
    requires none { queries.old.items ≡ [] }
    requires ready { All IsReady readies.now }
    ensures { OnOk result (AllZip IsFresh readies.now queries.new.items) }
{
    for place in 0..readies.len() {
        let Ok(()) = queries.reserve(1) else {
            return Err(Memory);
        };
        let query = RunningQuery::make(alloc, &readies[place])?;
        queries.push_reserved(query);
    }
    Ok(())
}

/// Opens the sources and makes the queries.
fn fill(
    alloc: Global,
    counts: &[u32],
    readies: &[Ready],
    states: &mut Vec<SourceState>,
    queries: &mut Vec<RunningQuery>,
) -> Result<(), Memory>
    requires sources { length counts.now < 2 ^ 32 }
    requires counts { All (λ count. count ≤ MAX_OBJECTS) counts.now }
    requires ready { All (IsReadyFor counts.now) readies.now }
    requires no_states { states.old.items ≡ [] }
    requires no_queries { queries.old.items ≡ [] }
    ensures { OnOk result (IsMade counts.now readies.now (world_of states.new.items queries.new.items)) }
{
    open_all(alloc, counts, states)?;
    make_all(alloc, readies, queries)?;
    Ok(())
}

/// An event comes to a source.
fn come(states: &mut Vec<SourceState>, source: u32, event: Event)
    requires { MayComeTo states.old.items source event }
    ensures { states.new.items ≡ with_event states.old.items source event }
{
    states[source as usize].apply(event);
}

/// Takes a step.
fn take(states: &mut Vec<SourceState>, queries: &mut Vec<RunningQuery>, step: Step)
    requires world { IsWorld (world_of states.old.items queries.old.items) }
    requires may { MayStep (world_of states.old.items queries.old.items) step }
    ensures { Steps step (world_of states.old.items queries.old.items) (world_of states.new.items queries.new.items) }
{
    match step {
        Step::Page { source, rows } => come(states, source, Event::Page { rows }),
        Step::Grade {
            source,
            object,
            grade,
        } => come(states, source, Event::Grade { object, grade }),
        Step::Miss { source, object } => come(states, source, Event::Miss { object }),
        Step::Fail { source, what } => come(states, source, Event::Fail { what }),
        Step::Move {
            source,
            object,
            had,
            now,
        } => come(states, source, Event::Move { object, had, now }),
        Step::Turn { query } => turn(states, &mut queries[query as usize]),
    }
}

/// How queries end, in their order. They are taken out. Room for the endings is taken first.
fn end_all(queries: &mut Vec<RunningQuery>, endings: &mut Vec<Ended>) -> Result<(), Memory>
    requires none { endings.old.items ≡ [] }
    requires ended { All (λ query. is_ended query ≡ true) queries.old.items }
    ensures { OnOk result (AllZip EndsAs queries.old.items endings.new.items) }
{
    queries.reverse();
    let Ok(()) = endings.reserve(queries.len()) else {
        return Err(Memory);
    };
    while let Some(query) = queries.pop() {
        let ended = query.end()?;
        endings.push_reserved(ended);
    }
    Ok(())
}

impl World {
    /// The world of sources with these counts and of queries that are ready, before any step. The expressions of the queries are
    /// copied.
    pub fn make(alloc: Global, counts: &[u32], queries: &[Ready]) -> Result<World, Memory>
        requires sources { length counts.now < 2 ^ 32 }
        requires counts { All (λ count. count ≤ MAX_OBJECTS) counts.now }
        requires queries { length queries.now < 2 ^ 32 }
        requires ready { All (IsReadyFor counts.now) queries.now }
        ensures made { IfOk result (IsMade counts.now queries.now) }
        ensures world { IfOk result IsWorld }
        ensures queries { IfOk result (AreOf queries.now) }
    {
        let mut states = Vec::new(alloc);
        let mut inquiries = Vec::new(alloc);
        let Ok(()) = fill(alloc, counts, queries, &mut states, &mut inquiries) else {
            drop(states);
            let_go(inquiries);
            return Err(Memory);
        };
        Ok(World {
            states,
            queries: inquiries,
        })
    }

    /// Whether a step is lawful.
    pub fn may_step(&self, step: &Step) -> bool
        ensures { IsTestOf result (MayStep self.now step.now) }
    {
        may_take(&self.states, &self.queries, step)
    }

    /// Takes a step, and no memory.
    ///
    /// A page comes where no row fault stands and a row is missing, and its rows are no more than are missing; a grade and a miss
    /// are of an object whose ask is pending; a move tells of two versions that differ, and has an object whose ask is pending, or
    /// comes where no row fault stands and a row is missing; a query that has ended takes no turn.
    ///
    /// *Cost*: `SourceState::apply`, or one `look_at` and the feeding of a machine. Takes no memory.
    pub fn step(&mut self, step: Step)
        requires { MayStep self.old step }
        ensures steps { Steps step self.old self.new }
        ensures world { IsWorld self.new }
        ensures later { IsAfter self.old self.new }
        ensures queries { (readies : List AnyReady) → AreOf readies self.old → AreOf readies self.new }
        ensures honest { (lists : List (List Row)) → IsTrueWorld lists self.old → IsHonest lists self.old step → IsTrueWorld lists self.new }
    {
        take(&mut self.states, &mut self.queries, step);
    }

    /// How many sources there are.
    pub fn sources(&self) -> u32
        ensures { result ≡ length self.now.states }
    {
        self.states.len() as u32
    }

    /// How many queries there are.
    pub fn queries(&self) -> u32
        ensures { result ≡ length self.now.queries }
    {
        self.queries.len() as u32
    }

    /// The state of a source.
    pub fn state(&self, source: u32) -> &SourceState
        requires { source < length self.now.states }
        ensures { result.now ≡ state_at self.now.states source }
    {
        &self.states[source as usize]
    }

    /// Whether all queries have ended.
    pub fn all_ended(&self) -> bool
        ensures { IsTestOf result (All (λ query. is_ended query ≡ true) self.now.queries) }
    {
        are_ended(&self.queries)
    }

    /// Lets the world go, before its queries have ended or after.
    pub fn close(self) {
        let World { states, queries } = self;
        drop(states);
        let_go(queries);
    }

    /// How the queries ended, in their order, once all have.
    pub fn finish(self) -> Result<Endings, Memory>
        requires { All (λ query. is_ended query ≡ true) self.queries }
        ensures ends { IfOk result (AllZip EndsAs self.queries) }
        ensures world { IsWorld self }
        ensures right { (readies : List AnyReady) → AreOf readies self → IfOk result (AllZip IsRight readies) }
        ensures honest { (lists : List (List Row)) → IsTrueWorld lists self → All (IsOnItsRun lists) self.queries }
    {
        let World {
            states,
            mut queries,
        } = self;
        drop(states);
        let mut endings = Vec::new(*queries.allocator());
        let Ok(()) = end_all(&mut queries, &mut endings) else {
            let_go(queries);
            drop(endings);
            return Err(Memory);
        };
        let_go(queries);
        Ok(Endings::from_vec(endings))
    }
}
