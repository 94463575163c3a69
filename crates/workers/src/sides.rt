//! The two sides of a run: the fetchers, and the workers.

ghost use Rattle.std.specs.Prelude.{◌≡◌, ◌≤◌, ◌<◌, ◌^◌, [], All, map, length, IfOk, IfSome, IfNone, vec_len, vec_capacity};
ghost use Rattle.std.specs.Fork.{AcceptsEach};
ghost use Rattle.topk_base.specs.Ranges.{AreSettings};
ghost use Rattle.keyed_lock.specs.Hold.{share_of};
ghost use Rattle.fetcher.specs.Metering.{nothing};
ghost use Rattle.fetcher.specs.SlotTables.{IsSlotTable, AreServed};
ghost use Rattle.workers.specs.Sides.{HasFeeder, IsOpenedOver, AreFetchers, AreHandles, WorkDone};

use fetcher::{Slot, SlotTable, serve_loop};
use keyed_lock::{Pass, WorkerHandle};
use source_api::Source;
use source_pool::Pool;
use std::alloc::{AllocError, Global};
use std::sync::Wait;
use std::thread;
use std::thread::Threads;
use topk_base::Settings;

/// The workers with their passes to the slot table, the pass of each source's fetcher, and the first pass, of which these were split off.
#[derive(Drop)]
pub struct WorkerHandles<K: Drop, S: Source> {
    pub workers: Vec<WorkerHandle<K, Slot<S>>>,
    pub fetchers: Vec<Pass<Slot<S>>>,
    pub first: Pass<Slot<S>>,
}

/// One fetcher a source, each in a thread of its own. They end once the sign is set.
fn fetch_all<W: Threads + Wait + Sync, S: Source>(
    rt: &W,
    alloc: Global,
    pool: &Pool,
    table: &SlotTable<S>,
    fetchers: &mut [Pass<Slot<S>>],
)
    requires table { IsSlotTable table.now pool.now }
    requires fetchers { AreFetchers table.now.lock (length pool.now) fetchers.old }
    ensures { AreFetchers table.now.lock (length pool.now) fetchers.new }
{
    let threads = fetchers.len().max(1);
    thread::for_each_mut(
        rt,
        fetchers,
        threads,
        &|place, own: &mut Pass<Slot<S>>|
            requires { IsSlotTable table.now pool.now × (place < length pool.now) × (own.now ≡ share_of table.now.lock 1) }
        { serve_loop(rt, alloc, pool, table, own, place) },
    );
}

/// The workers, each in a thread of its own. Once all have worked the sign is set.
fn work_all<W: Threads + Wait + Sync, S: Source, H: Send, F: Fn(usize, &mut H) + Sync>(
    rt: &W,
    pool: &Pool,
    table: &SlotTable<S>,
    workers: &mut [H],
    work: &F,
)
    requires work { AcceptsEach F.Fn work.now workers.old }
    ensures { WorkDone F.Fn work.now workers.old workers.new }
{
    let threads = workers.len().max(1);
    thread::for_each_mut(rt, workers, threads, work);
    table.stop.set(pool);
    table.wake_all();
}

/// Both sides at the same time: `work` for each worker, with its place, and a fetcher for each source, which ends after the workers.
pub fn run_beside<W: Threads + Wait + Sync, S: Source, H: Send, F: Fn(usize, &mut H) + Sync>(
    rt: &W,
    alloc: Global,
    pool: &Pool,
    table: &SlotTable<S>,
    fetchers: &mut Vec<Pass<Slot<S>>>,
    workers: &mut Vec<H>,
    work: &F,
)
    requires table { IsSlotTable table.now pool.now }
    requires fetchers { AreFetchers table.now.lock (length pool.now) fetchers.old.items }
    requires work { AcceptsEach F.Fn work.now workers.old.items }
    ensures worked { WorkDone F.Fn work.now workers.old.items workers.new.items }
    ensures fetchers { AreFetchers table.now.lock (length pool.now) fetchers.new.items }
{
    thread::join_mut(
        rt,
        &mut ||
            requires { IsSlotTable table.now pool.now × AreFetchers table.now.lock (length pool.now) fetchers.now.items }
        { fetch_all(rt, alloc, pool, table, fetchers) },
        &mut ||
            requires { AcceptsEach F.Fn work.now workers.now.items }
        { work_all(rt, pool, table, workers, work) },
    );
}

/// Room for so many workers and fetchers.
fn make_room<K: Drop, S: Source>(
    alloc: Global,
    workers: usize,
    sources: usize,
) -> Result<(Vec<WorkerHandle<K, Slot<S>>>, Vec<Pass<Slot<S>>>), AllocError>
    ensures { IfOk result (λ room. (room.0.items ≡ []) × (room.1.items ≡ []) × (workers ≤ vec_capacity room.0) × (sources ≤ vec_capacity room.1)) }
{
    let workers = Vec::with_capacity(alloc, workers)?;
    let fetchers = Vec::with_capacity(alloc, sources)?;
    Ok((workers, fetchers))
}

/// The slot table of these slots, which have their feeders, with a handle for each worker and a pass for each fetcher. Where memory runs out
/// workers and slots stay.
pub fn open_sides<K: Drop, S: Source>(
    alloc: Global,
    pool: &Pool,
    workers: &mut Vec<K>,
    slots: &mut Vec<Slot<S>>,
    settings: Settings,
) -> Option<(SlotTable<S>, WorkerHandles<K, S>)>
    requires settings { AreSettings settings }
    requires feeders { All (λ slot. HasFeeder pool.now slot.feeder) slots.old.items }
    requires fresh { All (λ slot. slot.fetched ≡ nothing) slots.old.items }
    requires many { length slots.old.items ≡ length pool.now }
    requires few { (length workers.old.items ≤ 32) × (length slots.old.items < 2 ^ 32) }
    ensures fresh { AreServed S.list S.counts S.calls S.at_hand S.states pool.now settings.page settings.ahead slots.old.items slots.old.items }
    ensures table { IfSome result (λ r. IsSlotTable r.0 pool.now) }
    ensures began { IfSome result (λ r. IsOpenedOver settings slots.old.items r.0) }
    ensures handles { IfSome result (λ r. AreHandles r.0.lock (length pool.now) r.1) }
    ensures workers { IfSome result (λ r. map (λ handle. handle.worker) r.1.workers.items ≡ workers.old.items) }
    ensures taken { IfSome result (λ _. (workers.new.items ≡ []) × (slots.new.items ≡ [])) }
    ensures room { (vec_capacity workers.new ≡ vec_capacity workers.old) × (vec_capacity slots.new ≡ vec_capacity slots.old) }
    ensures stay { IfNone result ((workers.new.items ≡ workers.old.items) × (slots.new.items ≡ slots.old.items)) }
{
    let sources = slots.len();
    let Ok((mut handles, mut fetchers)) = make_room::<K, S>(alloc, workers.len(), sources) else {
        return None;
    };
    let Some((table, mut first)) = SlotTable::open(
        alloc,
        pool,
        slots,
        settings.page,
        settings.ahead,
    ) else {
        return None;
    };
    table.lock.hand_out(&mut first, workers, &mut handles);
    table.lock.split_all(&mut first, &mut fetchers, sources);
    Some((
        table,
        WorkerHandles {
            workers: handles,
            fetchers,
            first,
        },
    ))
}

/// Takes the slot table down, and gives workers and slots back, each in their order. Takes no memory.
pub fn close_sides<K: Drop, S: Source>(
    table: SlotTable<S>,
    handles: WorkerHandles<K, S>,
    workers: &mut Vec<K>,
    slots: &mut Vec<Slot<S>>,
)
    requires handles { AreHandles table.lock table.lock.size handles }
    requires size { table.lock.size ≡ length table.lock.key.slots.value.items }
    requires none { (workers.old.items ≡ []) × (slots.old.items ≡ []) }
    requires room { (vec_len handles.workers ≤ vec_capacity workers.old) × (table.lock.size ≤ vec_capacity slots.old) }
    ensures workers { workers.new.items ≡ map (λ handle. handle.worker) handles.workers.items }
    ensures served { AreServed S.list S.counts S.calls S.at_hand S.states table.lock.key.pool.value table.lock.key.page table.lock.key.ahead
        table.lock.key.slots.value.items slots.new.items }
{
    let WorkerHandles {
        workers: mut handles,
        mut fetchers,
        mut first,
    } = handles;
    table.lock.hand_in(&mut first, &mut handles, workers);
    table.lock.join_all(&mut first, &mut fetchers);
    table.close(first, slots);
}
