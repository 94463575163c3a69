//! The sides of a generation: the workers, which take links from the queue, beside the fetchers.

ghost use Rattle.std.specs.Prelude.{◌≡◌, ◌≤◌, ◌<◌, ◌^◌, All, length};
ghost use Rattle.topk_base.specs.Ranges.{AreSettings};
ghost use Rattle.keyed_lock.specs.Hold.{share_of};
ghost use Rattle.fetcher.specs.Metering.{nothing};
ghost use Rattle.fetcher.specs.SlotTables.{IsSlotTable, MayServe};
ghost use Rattle.workers.specs.Sides.{HasFeeder, AreFetchers, AreHandles, KeepPasses};
ghost use Rattle.batch_run.specs.Slots.{AllFetch};
ghost use Rattle.server_conn.specs.Entries.{view_in, MayAnswer};
ghost use Rattle.server_conn.specs.Answers.{Remembers};

use super::queue::LinkQueue;
use batch_run::Worker;
use fetcher::{Slot, SlotTable};
use keyed_lock::{Pass, WorkerHandle};
use server_conn::{Answers, OpenedCatalog, serve_conn};
use source_api::Source;
use source_pool::{Pool, PoolPass};
use std::alloc::Global;
use std::sync::Wait;
use std::thread::Threads;
use tk_io::Link;
use topk_base::{Memory, Settings};
use workers::{WorkerHandles, close_sides, open_sides, run_beside};

/// Serves a link, and lets it go once its connection has ended. Where a source had moved no more links are taken in this generation.
fn serve_link<W: Wait, S: Source, L: Link + Send + Drop>(
    rt: &W,
    alloc: Global,
    catalog: &OpenedCatalog,
    pool: &Pool,
    table: &SlotTable<S>,
    own: &mut Pass<Slot<S>>,
    pass: &mut PoolPass,
    answers: &mut Answers,
    queue: &LinkQueue<L>,
    mut link: L,
)
    requires serves { MayServe table.now pool.now own.old }
    requires fit { MayAnswer catalog.now pool.now pass.old }
    requires remembers { Remembers (view_in catalog.now) pass.old answers.old }
    ensures served { own.new ≡ own.old }
    ensures fit { MayAnswer catalog.now pool.now pass.new }
    ensures remembers { Remembers (view_in catalog.now) pass.new answers.new }
{
    let turn = serve_conn(
        rt, alloc, catalog, pool, table, own, pass, answers, &mut link,
    );
    if turn.moved {
        queue.pause(rt);
    }
    link.close();
}

/// A worker serves links, one after another, until there are none to take. Meanwhile it remembers its last answers. Where there is no memory for what it
/// keeps it takes none, and nobody takes links any more.
fn serve_links<W: Wait, S: Source, L: Link + Send + Drop>(
    rt: &W,
    alloc: Global,
    catalog: &OpenedCatalog,
    pool: &Pool,
    table: &SlotTable<S>,
    handle: &mut WorkerHandle<Worker, Slot<S>>,
    queue: &LinkQueue<L>,
)
    requires table { IsSlotTable table.now pool.now }
    requires share { handle.old.pass ≡ share_of table.now.lock 1 }
    requires fit { MayAnswer catalog.now pool.now handle.old.worker.pass }
    ensures pass { handle.new.pass ≡ handle.old.pass }
{
    let Ok(mut answers) = Answers::make(alloc) else {
        queue.leave(rt);
        return;
    };
    let WorkerHandle { worker, pass: own } = handle;
    let pass = &mut worker.pass;
    for _ in rt.forever() {
        let Some(link) = queue.take(rt) else {
            return;
        };
        serve_link(
            rt,
            alloc,
            catalog,
            pool,
            table,
            own,
            pass,
            &mut answers,
            queue,
            link,
        );
    }
}

/// All workers serve links, beside the fetchers.
fn work_all<W: Threads + Wait + Sync, S: Source, L: Link + Send + Drop>(
    rt: &W,
    alloc: Global,
    catalog: &OpenedCatalog,
    pool: &Pool,
    table: &SlotTable<S>,
    handles: &mut WorkerHandles<Worker, S>,
    queue: &LinkQueue<L>,
)
    requires table { IsSlotTable table.now pool.now }
    requires handles { AreHandles table.now.lock (length pool.now) handles.old }
    requires workers { All (λ handle. MayAnswer catalog.now pool.now handle.worker.pass) handles.old.workers.items }
    ensures keep { KeepPasses handles.old.workers.items handles.new.workers.items }
    ensures fetchers { AreFetchers table.now.lock (length pool.now) handles.new.fetchers.items }
    ensures first { handles.new.first ≡ handles.old.first }
{
    let WorkerHandles {
        workers,
        fetchers,
        first: _,
    } = handles;
    run_beside(
        rt,
        alloc,
        pool,
        table,
        fetchers,
        workers,
        &|_, handle: &mut WorkerHandle<Worker, Slot<S>>|
            requires { IsSlotTable table.now pool.now × MayAnswer catalog.now pool.now handle.now.worker.pass × (handle.now.pass ≡ share_of table.now.lock 1) }
        { serve_links(rt, alloc, catalog, pool, table, handle, queue) },
    );
}

/// The slot table is opened, and both sides run over it: the workers serve links, the fetchers read ahead. Where memory runs out no link is taken.
pub(crate) fn serve_sides<W: Threads + Wait + Sync, S: Source, L: Link + Send + Drop>(
    rt: &W,
    alloc: Global,
    catalog: &OpenedCatalog,
    pool: &Pool,
    workers: &mut Vec<Worker>,
    slots: &mut Vec<Slot<S>>,
    queue: &LinkQueue<L>,
    settings: Settings,
) -> Result<(), Memory>
    requires settings { AreSettings settings }
    requires feeders { All (λ slot. HasFeeder pool.now slot.feeder) slots.old.items }
    requires fresh { All (λ slot. slot.fetched ≡ nothing) slots.old.items }
    requires many { length slots.old.items ≡ length pool.now }
    requires few { (length workers.old.items ≤ 32) × (length slots.old.items < 2 ^ 32) }
    requires workers { All (λ worker. MayAnswer catalog.now pool.now worker.pass) workers.old.items }
    ensures { AllFetch S.list S.counts S.calls S.at_hand pool.now settings slots.old.items slots.new.items }
{
    let Some((table, mut handles)) = open_sides(alloc, pool, workers, slots, settings) else {
        return Err(Memory);
    };
    work_all(rt, alloc, catalog, pool, &table, &mut handles, queue);
    close_sides(table, handles, workers, slots);
    Ok(())
}
