//! The sides of a batch: its workers beside the fetchers.

ghost use Rattle.std.specs.Prelude.{◌≡◌, ◌≤◌, ◌<◌, ◌^◌, All, length};
ghost use Rattle.topk_base.specs.Ranges.{AreSettings};
ghost use Rattle.fetcher.specs.Metering.{nothing};
ghost use Rattle.keyed_lock.specs.Hold.{share_of};
ghost use Rattle.fetcher.specs.SlotTables.{IsSlotTable};
ghost use Rattle.workers.specs.Sides.{HasFeeder, AreFetchers, AreHandles, KeepPasses};
ghost use Rattle.batch_run.specs.Working.{IsAtWork, AllWorked};
ghost use Rattle.batch_run.specs.Slots.{AllFetch};
ghost use Rattle.batch_run.specs.Handles.{AllHandles};

use super::work::{Worker, work};
use batch_result::Settings;
use fetcher::{Slot, SlotTable};
use keyed_lock::WorkerHandle;
use query_core::Ready;
use source_api::Source;
use source_pool::Pool;
use std::alloc::Global;
use std::sync::Wait;
use std::thread::Threads;
use tickets::Tickets;
use workers::{WorkerHandles, close_sides, open_sides, run_beside};

/// All workers work, beside the fetchers.
fn work_all<W: Threads + Wait + Sync, S: Source>(
    rt: &W,
    alloc: Global,
    pool: &Pool,
    table: &SlotTable<S>,
    tickets: &Tickets,
    handles: &mut WorkerHandles<Worker, S>,
    queries: &[Ready],
)
    requires table { IsSlotTable table.now pool.now }
    requires handles { AreHandles table.now.lock (length pool.now) handles.old }
    requires workers { All (λ handle. IsAtWork pool.now tickets.now queries.now handle.worker) handles.old.workers.items }
    ensures worked { AllHandles pool.now tickets.now queries.now handles.old.workers.items handles.new.workers.items }
    ensures keep { KeepPasses handles.old.workers.items handles.new.workers.items }
    ensures fetchers { AreFetchers table.now.lock (length pool.now) handles.new.fetchers.items }
    ensures first { handles.new.first ≡ handles.old.first }
{
    let WorkerHandles {
        workers,
        fetchers,
        first: _,
    } = handles;
    run_beside(
        rt,
        alloc,
        pool,
        table,
        fetchers,
        workers,
        &|_, handle: &mut WorkerHandle<Worker, Slot<S>>|
            requires { IsSlotTable table.now pool.now × IsAtWork pool.now tickets.now queries.now handle.now.worker × (handle.now.pass ≡ share_of table.now.lock 1) }
        { work(rt, alloc, pool, table, tickets, handle, queries) },
    );
}

/// The slot table is opened, and both sides run over it: the workers run the queries, the fetchers read ahead. Where memory runs out no query
/// runs.
pub(crate) fn run_sides<W: Threads + Wait + Sync, S: Source>(
    rt: &W,
    alloc: Global,
    pool: &Pool,
    tickets: &Tickets,
    workers: &mut Vec<Worker>,
    slots: &mut Vec<Slot<S>>,
    queries: &[Ready],
    settings: Settings,
)
    requires settings { AreSettings settings }
    requires feeders { All (λ slot. HasFeeder pool.now slot.feeder) slots.old.items }
    requires fresh { All (λ slot. slot.fetched ≡ nothing) slots.old.items }
    requires many { length slots.old.items ≡ length pool.now }
    requires few { (length workers.old.items ≤ 32) × (length slots.old.items < 2 ^ 32) }
    requires workers { All (IsAtWork pool.now tickets.now queries.now) workers.old.items }
    ensures fetched { AllFetch S.list S.counts S.calls S.at_hand pool.now settings slots.old.items slots.new.items }
    ensures worked { AllWorked pool.now tickets.now queries.now workers.old.items workers.new.items }
{
    let Some((table, mut handles)) = open_sides(alloc, pool, workers, slots, settings) else {
        return;
    };
    work_all(rt, alloc, pool, &table, tickets, &mut handles, queries);
    close_sides(table, handles, workers, slots);
}
