//! The two sides of a run over one source.

ghost use Rattle.std.specs.Prelude.{◌≤◌, ◌<◌, ◌+◌};
ghost use Rattle.source_pool.specs.Passes.{IsIdleOf};
ghost use Rattle.test_pool.specs.Reading.{IsReader};

use fetcher::Stop;
use ranked_list::Need;
use source_api::Source;
use source_pool::{Feeder, Pool, PoolPass};
use source_state::Look;
use std::alloc::Global;
use std::sync::Wait;
use std::sync::atomic::{AtomicU64, Ordering};
use std::thread;
use std::thread::{Threads, join_mut};
use test_query_support::{fetch_till_set, only};

/// Looks for a row until it is there or can't be had, and counts the looks.
fn wait_for(
    rt: &impl Wait,
    pool: &Pool,
    pass: &mut PoolPass,
    count: u32,
    depth: u32,
    looks: &AtomicU64,
) -> Look
    requires reader { IsReader pool.now count pass.old }
    requires depth { (1 ≤ depth) × (depth ≤ count) }
    ensures { IsReader pool.now count pass.new }
{
    for _ in rt.forever() {
        let look = pool.look(rt, pass, 0, Need::Row { list: 0, depth });
        looks.fetch_add(1, Ordering::SeqCst);
        if look != Look::NotYet {
            return look;
        }
        thread::yield_now();
    }
    unreachable!()
}

/// The reader's side: it reads the rows from the top, adds their grades up, and sets the sign.
pub fn read_side(
    rt: &impl Wait,
    pool: &Pool,
    pass: &mut PoolPass,
    count: u32,
    sum: &mut u32,
    looks: &AtomicU64,
    stop: &Stop,
)
    requires { IsReader pool.now count pass.old }
    ensures { IsReader pool.now count pass.new }
{
    for place in 0..count {
        if let Look::Row(row) = wait_for(rt, pool, pass, count, place + 1, looks) {
            *sum = sum.saturating_add(row.grade);
        }
    }
    stop.set(pool);
}

/// A fetcher and a reader of a list of `count` rows at the same time: the sum of the grades that were read, and how many rows were fetched.
pub fn read_beside<R: Threads + Wait + Sync, S: Source>(
    rt: &R,
    alloc: Global,
    source: &mut S,
    count: u32,
    looks: &AtomicU64,
) -> Option<(u32, u32)>
    requires { count ≤ 200000 }
{
    let Ok((pool, mut pass, feeders)) = Pool::open(alloc, &[count]) else {
        return None;
    };
    let mut feeder = only(feeders)?;
    let mut given = 0;
    let stop = Stop::make();
    let mut sum: u32 = 0;
    run_both(
        rt,
        alloc,
        &pool,
        &mut pass,
        &mut feeder,
        source,
        &mut given,
        count,
        &mut sum,
        looks,
        &stop,
    );
    Some((sum, given))
}

/// Both sides, each in a thread of its own.
fn run_both<R: Threads + Wait + Sync, S: Source>(
    rt: &R,
    alloc: Global,
    pool: &Pool,
    pass: &mut PoolPass,
    feeder: &mut Feeder,
    source: &mut S,
    given: &mut u32,
    count: u32,
    sum: &mut u32,
    looks: &AtomicU64,
    stop: &Stop,
)
    requires feeder { IsIdleOf pool.now feeder.old }
    requires reader { IsReader pool.now count pass.old }
{
    join_mut(
        rt,
        &mut ||
            requires { IsIdleOf pool.now feeder.now }
        { *given = fetch_till_set(rt, alloc, pool, feeder, source, stop) },
        &mut ||
            requires { IsReader pool.now count pass.now }
        { read_side(rt, pool, pass, count, sum, looks, stop) },
    );
}
