//! A query whose worker fetches what it needs.

ghost use Rattle.std.specs.Prelude.{◌≡◌, ◌<◌, IfOk, OnErr, length};
ghost use Rattle.source_pool.specs.Passes.{IsPassOf};
ghost use Rattle.fetcher.specs.SlotTables.{MayServe};
ghost use Rattle.query_core.specs.Ready.{IsReady};
ghost use Rattle.query_run.specs.Endings.{IsRight};
ghost use Rattle.query_run.specs.Advancing.{WaitsForNothing, HasSourcesIn, Advances};
ghost use Rattle.query_run.specs.Ran.{Ran, RanSome};

use fetcher::{Slot, SlotTable, serve_or_wait};
use keyed_lock::Pass;
use query_core::Ready;
use query_run::{Ended, Memory, run_query_by};
use source_api::Source;
use source_pool::{Pool, PoolPass};
use std::alloc::Global;
use std::sync::Wait;

/// Runs a query over the sources of a pool, as `run_query_by`, and may wait. What isn't there yet this thread fetches itself, by one turn at the slot of
/// the source; where another thread has the slot, it waits until that gives it back. `own` is its pass to the slot table.
pub fn run_and_fetch<W: Wait, S: Source>(
    rt: &W,
    alloc: Global,
    pool: &Pool,
    table: &SlotTable<S>,
    own: &mut Pass<Slot<S>>,
    pass: &mut PoolPass,
    ready: &Ready,
) -> Result<Ended, Memory>
    requires serves { MayServe table.now pool.now own.old }
    requires ready { IsReady ready.now }
    requires own { IsPassOf pool.now pass.old }
    requires rests { WaitsForNothing pass.old }
    requires sources { HasSourcesIn pass.old ready.now }
    ensures served { own.new ≡ own.old }
    ensures own { IsPassOf pool.now pass.new }
    ensures rests { WaitsForNothing pass.new }
    ensures advances { Advances ready.now.sources.items pass.old pass.new }
    ensures ran { IfOk result (Ran ready.now pass.old pass.new) }
    ensures short { OnErr result (RanSome ready.now pass.old pass.new) }
    ensures right { IfOk result (IsRight ready.now) }
{
    let serve = |source: u32, _seen: u64, own: &mut Pass<Slot<S>>|
        requires { MayServe table.now pool.now own.now × (source < length pool.now) }
        ensures { own.exit.now ≡ own.entry.now }
    { serve_or_wait(rt, alloc, pool, table, own, source as usize) };
    let far = |source: u32| table.is_far(source as usize);
    let wake = |source: u32| table.wake_fetcher(source as usize);
    run_query_by(rt, alloc, pool, pass, ready, &serve, own, &far, &wake)
}
