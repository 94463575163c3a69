//! Fetchers beside those that look.

ghost use Rattle.source_pool.specs.Passes.{IsIdleOf};

use fetcher::{Stop, Turned, fetch_turn};
use source_api::Source;
use source_pool::{Feeder, Pool};
use std::alloc::Global;
use std::sync::Wait;
use std::thread::{Threads, join_mut};
use test_mem_source::MemSource;

/// Takes turns, with a row a page, until the sign is set, and tells how many rows the source gave. Where nothing is to be fetched it sleeps until
/// something is wanted or the sign is set.
pub fn fetch_till_set<S: Source>(
    rt: &impl Wait,
    alloc: Global,
    pool: &Pool,
    feeder: &mut Feeder,
    source: &mut S,
    stop: &Stop,
) -> u32
    requires { IsIdleOf pool.now feeder.old }
    ensures { IsIdleOf pool.now feeder.new }
{
    let mut given: u32 = 0;
    for _ in rt.forever() {
        let wanted = pool.wanted(feeder);
        if stop.is_set() {
            return given;
        }
        match fetch_turn(rt, alloc, pool, feeder, source, 1, 0) {
            Turned::Paged { rows } => given = given.saturating_add(rows),
            Turned::Idle => pool.wait_till_wanted(rt, feeder, wanted),
            _ => {}
        }
    }
    unreachable!()
}

/// A source's side: it is fetched a row a page until the sign is set.
fn fetch(
    rt: &impl Wait,
    alloc: Global,
    pool: &Pool,
    feeder: &mut Feeder,
    source: &mut MemSource,
    stop: &Stop,
)
    requires { IsIdleOf pool.now feeder.old }
{
    fetch_till_set(rt, alloc, pool, feeder, source, stop);
}

/// Fetches from two sources, each in a thread of its own, until the sign is set.
pub fn fetch_both_till_set<R: Threads + Wait + Sync>(
    rt: &R,
    alloc: Global,
    pool: &Pool,
    first: &mut Feeder,
    second: &mut Feeder,
    sources: &mut (MemSource, MemSource),
    stop: &Stop,
)
    requires first { IsIdleOf pool.now first.old }
    requires second { IsIdleOf pool.now second.old }
{
    let (one, other) = sources;
    join_mut(
        rt,
        &mut ||
            requires { IsIdleOf pool.now first.now }
        { fetch(rt, alloc, pool, first, one, stop) },
        &mut ||
            requires { IsIdleOf pool.now second.now }
        { fetch(rt, alloc, pool, second, other, stop) },
    );
}
