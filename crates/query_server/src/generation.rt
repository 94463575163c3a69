//! Generations of a server.

ghost use Rattle.std.specs.Prelude.{◌≡◌, ◌<◌, ◌^◌, ℕ, List, None, All, IfOk, IfSome, OnErr, OnOk, false, length, map};
ghost use Rattle.topk_base.specs.Ranges.{AreSettings};
ghost use Rattle.batch_run.specs.WorkerPools.{IsNewWorkerPool};
ghost use Rattle.query_server.specs.Homes.{AreHomes, IsCounted, home_of};
ghost use Rattle.query_server.specs.Reopening.{AsksSome, IsAtHand, ReopensAll};
ghost use Rattle.query_server.specs.Serving.{KeepsSources, KeepsVersions, Leaves, WereReopened};

use super::counting::counts_of;
use super::lifetime::{lifetime_of, pause_after};
use super::queue::LinkQueue;
use super::reopening::entries_again;
use super::sides::serve_sides;
use batch_run::{WorkerPool, lend, take_back};
use fetcher::Slot;
use server_conn::OpenedCatalog;
use source_api::Source;
use std::alloc::Global;
use std::sync::Wait;
use std::thread::Threads;
use std::time::Clock;
use tk_io::Link;
use topk_base::{Memory, Settings};

/// A worker pool serves links until there are none to take, or takes none where memory runs out. The feeders stand in the slots meanwhile.
fn serve_workers<W: Threads + Wait + Sync, S: Source, L: Link + Send + Drop>(
    rt: &W,
    alloc: Global,
    catalog: &OpenedCatalog,
    worker_pool: &mut WorkerPool,
    slots: &mut Vec<Slot<S>>,
    queue: &LinkQueue<L>,
    settings: Settings,
) -> Result<(), Memory>
    requires settings { AreSettings settings }
    requires few { length slots.old.items < 2 ^ 32 }
    requires new { (counts : List ℕ) × IsNewWorkerPool counts 0 settings.workers worker_pool.old × (length counts ≡ length slots.old.items)
        × All (IsCounted counts) catalog.now.entries }
    ensures kept { KeepsSources S.list S.counts slots.old.items slots.new.items }
    ensures versions { KeepsVersions S.at_hand slots.old.items slots.new.items }
    ensures empty { All (λ slot. slot.feeder ≡ None) slots.new.items }
{
    lend(&mut worker_pool.feeders, slots);
    let served = serve_sides(
        rt,
        alloc,
        catalog,
        &worker_pool.pool,
        &mut worker_pool.workers,
        slots,
        queue,
        settings,
    );
    take_back(slots, &mut worker_pool.feeders);
    served
}

/// One generation: a pool is opened over the sources of the lists that are open, links are served until there are none to take, and the
/// pool is taken down.
fn serve_generation<W: Threads + Wait + Sync, S: Source, L: Link + Send + Drop>(
    rt: &W,
    alloc: Global,
    catalog: &OpenedCatalog,
    slots: &mut Vec<Slot<S>>,
    queue: &LinkQueue<L>,
    settings: Settings,
) -> Result<(), Memory>
    requires settings { AreSettings settings }
    requires few { length slots.old.items < 2 ^ 32 }
    requires homes { AreHomes (length slots.old.items) (map home_of catalog.now.entries) }
    requires at_hand { All (IsAtHand S.at_hand slots.old.items) catalog.now.entries }
    requires empty { All (λ slot. slot.feeder ≡ None) slots.old.items }
    ensures kept { KeepsSources S.list S.counts slots.old.items slots.new.items }
    ensures versions { KeepsVersions S.at_hand slots.old.items slots.new.items }
    ensures empty { All (λ slot. slot.feeder ≡ None) slots.new.items }
{
    let Ok(counts) = counts_of(alloc, catalog.entries(), slots.len()) else {
        return Err(Memory);
    };
    let Ok(mut worker_pool) = WorkerPool::make(alloc, counts.as_slice(), 0, settings.workers) else {
        return Err(Memory);
    };
    let served = serve_workers(rt, alloc, catalog, &mut worker_pool, slots, queue, settings);
    worker_pool.let_go();
    served
}

/// Asks each source for its size again, and gives the catalog what became of its lists. It tells whether that is something else.
fn reopen<S: Source>(
    alloc: Global,
    catalog: &mut OpenedCatalog,
    slots: &mut Vec<Slot<S>>,
) -> Result<bool, Memory>
    requires homes { AreHomes (length slots.old.items) (map home_of catalog.old.entries) }
    requires empty { All (λ slot. slot.feeder ≡ None) slots.old.items }
    ensures asks { AsksSome S.list S.counts S.calls (map home_of catalog.old.entries) slots.old.items slots.new.items }
    ensures stay { OnErr result (catalog.new.entries ≡ catalog.old.entries) }
    ensures reopens { OnOk result (ReopensAll S.list S.counts S.calls S.at_hand catalog.old.entries catalog.new.entries slots.old.items slots.new.items) }
    ensures empty { All (λ slot. slot.feeder ≡ None) slots.new.items }
    ensures catalog { catalog.new.catalog ≡ catalog.old.catalog }
    ensures homes { map home_of catalog.new.entries ≡ map home_of catalog.old.entries }
{
    let Ok(entries) = entries_again(alloc, catalog.entries(), slots) else {
        return Err(Memory);
    };
    let changed = entries.as_slice() != catalog.entries();
    catalog.reopen(entries);
    Ok(changed)
}

/// One generation. Where more links come then its sources are asked again, and it tells whether that made other lists of them. None where no
/// more links come.
fn serve_once<W: Threads + Wait + Sync, S: Source, L: Link + Send + Drop>(
    rt: &W,
    alloc: Global,
    catalog: &mut OpenedCatalog,
    slots: &mut Vec<Slot<S>>,
    queue: &LinkQueue<L>,
    settings: Settings,
) -> Result<Option<bool>, Memory>
    requires settings { AreSettings settings }
    requires few { length slots.old.items < 2 ^ 32 }
    requires homes { AreHomes (length slots.old.items) (map home_of catalog.old.entries) }
    requires at_hand { All (IsAtHand S.at_hand slots.old.items) catalog.old.entries }
    requires empty { All (λ slot. slot.feeder ≡ None) slots.old.items }
    ensures left { Leaves S.list S.counts S.calls S.at_hand slots.old.items slots.new.items catalog.old catalog.new }
    ensures asked { IfOk result (λ more. IfSome more (λ changed.
        WereReopened S.list S.counts S.calls S.at_hand slots.old.items slots.new.items catalog.old.entries catalog.new.entries)) }
    ensures at_hand { OnOk result (All (IsAtHand S.at_hand slots.new.items) catalog.new.entries) }
{
    let Ok(()) = serve_generation(rt, alloc, catalog, slots, queue, settings) else {
        return Err(Memory);
    };
    if !queue.has_more(rt) {
        return Ok(None);
    }
    let Ok(changed) = reopen(alloc, catalog, slots) else {
        return Err(Memory);
    };
    Ok(Some(changed))
}

/// Generations one after another, until no more links come in this round. The next round goes on with the pause.
fn serve_generations<W: Threads + Wait + Clock + Sync, S: Source, L: Link + Send + Drop>(
    rt: &W,
    alloc: Global,
    catalog: &mut OpenedCatalog,
    slots: &mut Vec<Slot<S>>,
    queue: &LinkQueue<L>,
    settings: Settings,
    pause: &mut u64,
) -> Result<(), Memory>
    requires settings { AreSettings settings }
    requires few { length slots.old.items < 2 ^ 32 }
    requires homes { AreHomes (length slots.old.items) (map home_of catalog.old.entries) }
    requires at_hand { All (IsAtHand S.at_hand slots.old.items) catalog.old.entries }
    requires empty { All (λ slot. slot.feeder ≡ None) slots.old.items }
    ensures left { Leaves S.list S.counts S.calls S.at_hand slots.old.items slots.new.items catalog.old catalog.new }
    ensures at_hand { OnOk result (All (IsAtHand S.at_hand slots.new.items) catalog.new.entries) }
{
    for _ in rt.forever() {
        let Ok(more) = serve_once(rt, alloc, catalog, slots, queue, settings) else {
            return Err(Memory);
        };
        let Some(changed) = more else {
            return Ok(());
        };
        *pause = pause_after(changed, *pause);
        queue.resume(rt, lifetime_of(catalog.entries(), *pause));
    }
    Ok(())
}

/// The side of the workers and the fetchers, for a round. It tells whether memory ran out: then nobody takes links any more.
pub(crate) fn serve_side<W: Threads + Wait + Clock + Sync, S: Source, L: Link + Send + Drop>(
    rt: &W,
    alloc: Global,
    catalog: &mut OpenedCatalog,
    slots: &mut Vec<Slot<S>>,
    queue: &LinkQueue<L>,
    settings: Settings,
    pause: &mut u64,
) -> bool
    requires settings { AreSettings settings }
    requires few { length slots.old.items < 2 ^ 32 }
    requires homes { AreHomes (length slots.old.items) (map home_of catalog.old.entries) }
    requires at_hand { All (IsAtHand S.at_hand slots.old.items) catalog.old.entries }
    requires empty { All (λ slot. slot.feeder ≡ None) slots.old.items }
    ensures left { Leaves S.list S.counts S.calls S.at_hand slots.old.items slots.new.items catalog.old catalog.new }
    ensures at_hand { result ≡ false → All (IsAtHand S.at_hand slots.new.items) catalog.new.entries }
{
    queue.begin(rt);
    let served = serve_generations(rt, alloc, catalog, slots, queue, settings, pause);
    if served.is_err() {
        queue.leave(rt);
        return true;
    }
    false
}
