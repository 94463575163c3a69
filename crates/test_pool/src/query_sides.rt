//! The sides of a run over two sources.

ghost use Rattle.std.specs.Prelude.{◌≤◌, ◌∷◌, []};
ghost use Rattle.source_pool.specs.Passes.{IsIdleOf};
ghost use Rattle.test_query_support.specs.Pairs.{IsPair};
ghost use Rattle.query_run.specs.Made.{IsReadyFor};
ghost use Rattle.test_pool.specs.Running.{MayRun};

use fetcher::Stop;
use query_core::Ready;
use query_run::run_query;
use source_pool::{Feeder, Pool, PoolPass};
use std::alloc::Global;
use std::sync::Wait;
use std::thread::{Threads, join_mut};
use test_mem_source::MemSource;
use test_query_support::{Expected, Pair, fetch_both_till_set, has_ended_so};

/// The query's side: it runs the query, tells whether it ended as it is to, and sets the sign.
fn ask(
    rt: &impl Wait,
    alloc: Global,
    pool: &Pool,
    pass: &mut PoolPass,
    ready: &Ready,
    expected: &Expected,
    so: &mut bool,
    stop: &Stop,
)
    requires { MayRun pool.now pass.old ready.now }
{
    *so = has_ended_so(run_query(rt, alloc, pool, pass, ready), expected);
    stop.set(pool);
}

/// All sides: whether the query ended as it is to.
fn run_all<R: Threads + Wait + Sync>(
    rt: &R,
    alloc: Global,
    pool: &Pool,
    pass: &mut PoolPass,
    ready: &Ready,
    first: &mut Feeder,
    second: &mut Feeder,
    sources: &mut (MemSource, MemSource),
    expected: &Expected,
) -> bool
    requires may { MayRun pool.now pass.old ready.now }
    requires first { IsIdleOf pool.now first.old }
    requires second { IsIdleOf pool.now second.old }
{
    let stop = Stop::make();
    let sign = &stop;
    let mut so = false;
    let found = &mut so;
    join_mut(
        rt,
        &mut ||
            requires { (IsIdleOf pool.now first.now) × IsIdleOf pool.now second.now }
        { fetch_both_till_set(rt, alloc, pool, first, second, sources, sign) },
        &mut ||
            requires { MayRun pool.now pass.now ready.now }
        { ask(rt, alloc, pool, pass, ready, expected, found, sign) },
    );
    so
}

/// Over a pool that was just opened a query that is ready for its sources may run, and both its feeders are idle.
fn opened_may_run(count: u32, pair: &Pair, ready: &Ready)
    requires pair { IsPair count pair.now }
    requires ready { IsReadyFor (count ∷ count ∷ []) ready.now }
    ensures may { MayRun pair.now.pool pair.now.pass ready.now }
    ensures first { IsIdleOf pair.now.pool pair.now.first }
    ensures second { IsIdleOf pair.now.pool pair.now.second }
{}

/// Runs a query over two sources of so many objects, each with a fetcher in a thread of its own that reads a row a page, and tells whether
/// it ended as it is to. Without memory it didn't.
pub(crate) fn ends_beside<R: Threads + Wait + Sync>(
    rt: &R,
    alloc: Global,
    count: u32,
    sources: &mut (MemSource, MemSource),
    ready: &Ready,
    expected: &Expected,
) -> bool
    requires count { count ≤ 200000 }
    requires ready { IsReadyFor (count ∷ count ∷ []) ready.now }
{
    let Some(mut pair) = Pair::open(alloc, count) else {
        return false;
    };
    opened_may_run(count, &pair, ready);
    let so = run_all(
        rt,
        alloc,
        &pair.pool,
        &mut pair.pass,
        ready,
        &mut pair.first,
        &mut pair.second,
        sources,
        expected,
    );
    pair.let_go();
    so
}
