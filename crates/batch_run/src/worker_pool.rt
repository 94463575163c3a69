//! Workers, and what a run needs before it begins.

ghost use Rattle.std.specs.Prelude.{◌≡◌, ◌≤◌, ◌<◌, ◌+◌, ◌^◌, [], ℕ, None, List, All, length, replicate, IfOk, OnOk, vec_len, vec_capacity};
ghost use Rattle.source_pool.specs.Passes.{IsPassOf};
ghost use Rattle.batch_run.specs.WorkerPools.{AreNewWorkers, IsNewWorkerPool};

use super::work::Worker;
use batch_result::Use;
use query_run::{Ended, Memory};
use source_pool::{Feeder, Pool, PoolPass};
use std::alloc::{AllocError, Global};
use tickets::{TicketPass, Tickets};
use topk_base::MAX_OBJECTS;

/// The pool of a batch with its first pass and its feeders, the tickets for its queries, the workers, and room for what the batch gives.
#[derive(Drop)]
pub struct WorkerPool {
    /// The sources, each behind a lock of its own.
    pub pool: Pool,
    /// The first pass, of which the workers' passes were split off.
    pub pass: PoolPass,
    /// The places of the queries, of which each worker draws the next one.
    pub tickets: Tickets,
    /// The first pass of the tickets, of which the workers' passes were split off.
    pub draws: TicketPass,
    /// The feeder of each source.
    pub feeders: Vec<Feeder>,
    /// The workers.
    pub workers: Vec<Worker>,
    /// The place of each query, where its ending is put.
    pub places: Vec<Option<Ended>>,
    /// Room for how the queries end, in their order.
    pub endings: Vec<Ended>,
    /// Room for what is used of the sources.
    pub uses: Vec<Use>,
}

/// One more worker, for whom there is room. The first passes give it passes of its own.
fn make_worker(
    alloc: Global,
    pool: &Pool,
    pass: &mut PoolPass,
    tickets: &Tickets,
    draws: &mut TicketPass,
    workers: &mut Vec<Worker>,
) -> Result<(), Memory>
    requires few { vec_len workers.old < 32 }
    requires room { vec_len workers.old < vec_capacity workers.old }
    requires own { IsPassOf pool.now pass.old }
    requires new_workers { (counts : List ℕ) × AreNewWorkers pool.now tickets.now counts pass.old draws.old workers.old.items }
    ensures made { OnOk result ((counts : List ℕ) → AreNewWorkers pool.now tickets.now counts pass.old draws.old workers.old.items
        → AreNewWorkers pool.now tickets.now counts pass.new draws.new workers.new.items) }
    ensures size { OnOk result (vec_len workers.new ≡ vec_len workers.old + 1) }
    ensures room { vec_capacity workers.new ≡ vec_capacity workers.old }
{
    let Ok(own) = pool.split(alloc, pass) else {
        return Err(Memory);
    };
    workers.push_reserved(Worker {
        pass: own,
        draws: tickets.split(draws, 1),
        ended: Vec::new(alloc),
    });
    Ok(())
}

/// So many workers.
fn make_workers(
    alloc: Global,
    pool: &Pool,
    pass: &mut PoolPass,
    tickets: &Tickets,
    draws: &mut TicketPass,
    workers: &mut Vec<Worker>,
    count: u32,
) -> Result<(), Memory>
    requires few { count ≤ 32 }
    requires none { workers.old.items ≡ [] }
    requires own { (counts : List ℕ) × AreNewWorkers pool.now tickets.now counts pass.old draws.old workers.old.items }
    ensures made { OnOk result ((counts : List ℕ) → AreNewWorkers pool.now tickets.now counts pass.old draws.old workers.old.items
        → AreNewWorkers pool.now tickets.now counts pass.new draws.new workers.new.items) }
    ensures size { OnOk result (vec_len workers.new ≡ count) }
{
    let Ok(()) = workers.reserve(count as usize) else {
        return Err(Memory);
    };
    for _ in 0..count {
        make_worker(alloc, pool, pass, tickets, draws, workers)?;
    }
    Ok(())
}

/// So many places, at which nothing stands yet.
fn empty_places(alloc: Global, queries: usize) -> Result<Vec<Option<Ended>>, AllocError>
    ensures { IfOk result (λ places. places.items ≡ replicate queries None) }
{
    let mut places = Vec::with_capacity(alloc, queries)?;
    for _ in 0..queries {
        places.push_reserved(None);
    }
    Ok(places)
}

/// Makes room for the endings of so many queries, and for what is used of so many sources.
fn make_room(
    endings: &mut Vec<Ended>,
    queries: usize,
    uses: &mut Vec<Use>,
    sources: usize,
) -> Result<(), Memory>
    ensures endings { endings.new.items ≡ endings.old.items }
    ensures uses { uses.new.items ≡ uses.old.items }
    ensures endings_room { OnOk result (vec_len endings.old + queries ≤ vec_capacity endings.new) }
    ensures uses_room { OnOk result (vec_len uses.old + sources ≤ vec_capacity uses.new) }
{
    let Ok(()) = endings.reserve(queries) else {
        return Err(Memory);
    };
    match uses.reserve(sources) {
        Ok(()) => Ok(()),
        Err(_) => Err(Memory),
    }
}

impl WorkerPool {
    /// The pool of sources with these counts of objects, with so many workers, and room for the endings of so many queries.
    pub fn make(
        alloc: Global,
        counts: &[u32],
        queries: usize,
        workers: u32,
    ) -> Result<WorkerPool, Memory>
        requires few { length counts.now < 2 ^ 32 }
        requires counts { All (λ count. count ≤ MAX_OBJECTS) counts.now }
        requires workers { workers ≤ 32 }
        ensures { IfOk result (IsNewWorkerPool counts.now queries workers) }
    {
        let Ok((tickets, draws)) = Tickets::open(alloc) else {
            return Err(Memory);
        };
        let Ok(places) = empty_places(alloc, queries) else {
            return Err(Memory);
        };
        let Ok((pool, pass, feeders)) = Pool::open(alloc, counts) else {
            return Err(Memory);
        };
        let mut worker_pool = WorkerPool {
            pool,
            pass,
            tickets,
            draws,
            feeders: feeders.into_vec(),
            workers: Vec::new(alloc),
            places,
            endings: Vec::new(alloc),
            uses: Vec::new(alloc),
        };
        let Ok(()) = make_room(
            &mut worker_pool.endings,
            queries,
            &mut worker_pool.uses,
            counts.len(),
        ) else {
            worker_pool.let_go();
            return Err(Memory);
        };
        let Ok(()) = make_workers(
            alloc,
            &worker_pool.pool,
            &mut worker_pool.pass,
            &worker_pool.tickets,
            &mut worker_pool.draws,
            &mut worker_pool.workers,
            workers,
        ) else {
            worker_pool.let_go();
            return Err(Memory);
        };
        Ok(worker_pool)
    }

    /// Lets a worker pool go. Who owns one lets it go by this call, so that it is proved once.
    pub fn let_go(self) {}
}
