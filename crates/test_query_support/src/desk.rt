//! A pool of one source with two passes and its feeder, and steps with what they are to answer.

ghost use Rattle.std.specs.Prelude.{◌≡◌, ◌≤◌, ◌<◌, ◌+◌, ◌∷◌, [], true, length, IfSome};
ghost use Rattle.source_pool.specs.Passes.{hold_at, feed_at, IsPassOf, AreFeedersOf};
ghost use Rattle.turn_lock.specs.Known.{all_parts};
ghost use Rattle.test_query_support.specs.Ready.{IsReady, MayAsk};

use fetcher::{Turned, fetch_turn};
use ranked_list::{Need, Row};
use source_pool::{Feeder, Feeders, Pool, PoolPass};
use source_state::Look;
use std::alloc::Global;
use std::sync::Wait;
use test_mem_source::MemSource;

/// A pool of one source with so many objects, two passes and the feeder, and how far is read.
#[derive(Drop)]
pub struct Desk {
    pub pool: Pool,
    pub pass: PoolPass,
    pub other: PoolPass,
    pub feeder: Feeder,
    pub count: u32,
    pub page: u32,
    pub ahead: u32,
}

/// A step, and what it is to answer.
#[derive(Clone, Copy)]
pub enum Step {
    /// A look through the first pass.
    Look(Need, Look),
    /// A look through the other pass.
    Other(Need, Look),
    /// The row of the first pass's window.
    Peek(Need, Option<Row>),
    /// A look through the first pass while the fetcher has the source's turn.
    Held(Need, Look),
    /// A turn of the fetcher.
    Turn(Turned),
}

/// Whether a need may be looked for in a list of so many objects.
fn may_ask(count: u32, need: Need) -> bool
    ensures { result ≡ true → MayAsk count need }
{
    match need {
        Need::Row { depth, .. } => depth >= 1 && depth <= count,
        Need::Grade { .. } => true,
        Need::Done => false,
    }
}

/// The feeder of a pool of one source.
pub fn only(feeders: Feeders) -> Option<Feeder>
    requires { length feeders ≡ 1 }
    ensures { IfSome result (λ feeder. feeder ≡ feed_at feeders 0) }
{
    let mut feeders = feeders.into_vec();
    feeders.pop()
}

/// The feeders of a pool of one source.
fn alone(alloc: Global, feeder: Feeder) -> Option<Feeders>
    ensures { IfSome result (λ feeders. feeders ≡ feeder ∷ []) }
{
    let Ok(mut feeders) = Vec::with_capacity(alloc, 1) else {
        drop(feeder);
        return None;
    };
    feeders.push_reserved(feeder);
    Some(Feeders::from_vec(feeders))
}

/// Joins one pass to the other, and closes the pool: the want, the number of asks and the number of rows then.
fn close_by(
    pool: Pool,
    mut pass: PoolPass,
    late: PoolPass,
    feeders: Feeders,
) -> Option<(u32, u32, u32)>
    requires one { length pool ≡ 1 }
    requires own { IsPassOf pool pass }
    requires late { IsPassOf pool late }
    requires feeders { AreFeedersOf pool feeders }
    requires parts { (hold_at pass 0).pass.1.parts + (hold_at late 0).pass.1.parts + (feed_at feeders 0).pass.1.parts ≡ all_parts }
{
    pool.join(&mut pass, late);
    let states = pool.close(pass, feeders);
    let closed = states.into_vec();
    let figures = match closed.first() {
        Some(state) => Some((state.want(), state.asks(), state.rows())),
        None => None,
    };
    drop(closed);
    figures
}

impl Desk {
    /// A pool of one source, of which `count` objects are stated. None without memory.
    pub fn open(alloc: Global, count: u32, page: u32, ahead: u32) -> Option<Desk>
        requires count { count ≤ 200000 }
        requires page { (1 ≤ page) × (page ≤ 10000) }
        requires ahead { ahead ≤ 100 }
        ensures { IfSome result IsReady }
    {
        let Ok((pool, mut pass, feeders)) = Pool::open(alloc, &[count]) else {
            return None;
        };
        let Some(feeder) = only(feeders) else {
            drop(pass);
            drop(pool);
            return None;
        };
        let Ok(other) = pool.split(alloc, &mut pass) else {
            drop(feeder);
            drop(pass);
            drop(pool);
            return None;
        };
        Some(Desk {
            pool,
            pass,
            other,
            feeder,
            count,
            page,
            ahead,
        })
    }

    /// A look through the first pass, where the need may be looked for.
    pub fn look(&mut self, rt: &impl Wait, need: Need) -> Option<Look>
        requires { IsReady self.old }
        ensures { IsReady self.new }
    {
        if !may_ask(self.count, need) {
            return None;
        }
        Some(self.pool.look(rt, &mut self.pass, 0, need))
    }

    /// A look through the other pass.
    pub fn look_too(&mut self, rt: &impl Wait, need: Need) -> Option<Look>
        requires { IsReady self.old }
        ensures { IsReady self.new }
    {
        if !may_ask(self.count, need) {
            return None;
        }
        Some(self.pool.look(rt, &mut self.other, 0, need))
    }

    /// A look through the first pass while the fetcher has the source's turn: one for what isn't remembered never ends.
    fn look_held(&mut self, rt: &impl Wait, need: Need) -> Option<Look>
        requires { IsReady self.old }
        ensures { IsReady self.new }
    {
        if !may_ask(self.count, need) {
            return None;
        }
        let state = self.pool.take(rt, &mut self.feeder);
        let look = self.pool.look(rt, &mut self.pass, 0, need);
        self.pool.give(&mut self.feeder, state);
        Some(look)
    }

    /// A turn of the fetcher over a source.
    pub fn turn(&mut self, rt: &impl Wait, alloc: Global, source: &mut MemSource) -> Turned
        requires { IsReady self.old }
        ensures { IsReady self.new }
    {
        fetch_turn(
            rt,
            alloc,
            &self.pool,
            &mut self.feeder,
            source,
            self.page,
            self.ahead,
        )
    }

    /// Whether a step answers as it is to.
    fn answers(&mut self, rt: &impl Wait, alloc: Global, source: &mut MemSource, step: Step) -> bool
        requires { IsReady self.old }
        ensures { IsReady self.new }
    {
        match step {
            Step::Look(need, look) => self.look(rt, need) == Some(look),
            Step::Other(need, look) => self.look_too(rt, need) == Some(look),
            Step::Peek(need, row) => self.pool.peek(&self.pass, 0, need) == row,
            Step::Held(need, look) => self.look_held(rt, need) == Some(look),
            Step::Turn(turned) => self.turn(rt, alloc, source) == turned,
        }
    }

    /// Lets the pool go, with its passes and its feeder.
    pub fn let_go(self) {
        drop(self);
    }

    /// Joins the passes, the first to the other or the other to the first, and closes the pool: the want, the number of asks and the number
    /// of rows then. None without memory.
    pub fn close(self, alloc: Global, to_other: bool) -> Option<(u32, u32, u32)>
        requires { IsReady self }
    {
        let Desk {
            pool,
            pass,
            other,
            feeder,
            ..
        } = self;
        let Some(feeders) = alone(alloc, feeder) else {
            drop(other);
            drop(pass);
            drop(pool);
            return None;
        };
        if to_other {
            return close_by(pool, other, pass, feeders);
        }
        close_by(pool, pass, other, feeders)
    }
}

/// The place of the first step that answers otherwise over a source.
pub fn first_wrong(
    rt: &impl Wait,
    alloc: Global,
    desk: &mut Desk,
    source: &mut MemSource,
    steps: &[Step],
) -> Option<usize>
    requires { IsReady desk.old }
    ensures { IsReady desk.new }
{
    for (place, step) in steps.iter().enumerate() {
        if !desk.answers(rt, alloc, source, *step) {
            return Some(place);
        }
    }
    None
}
