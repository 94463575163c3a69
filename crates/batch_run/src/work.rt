//! What a worker does.

ghost use Rattle.std.specs.Prelude.{◌≡◌};
ghost use Rattle.keyed_lock.specs.Hold.{share_of};
ghost use Rattle.fetcher.specs.SlotTables.{IsSlotTable, MayServe};
ghost use Rattle.batch_run.specs.Working.{IsAtWork, Worked};

use fetcher::{Slot, SlotTable};
use keyed_lock::{Pass, WorkerHandle};
use query_core::Ready;
use query_run::Ended;
use source_api::Source;
use source_pool::{Pool, PoolPass};
use std::alloc::Global;
use std::sync::Wait;
use tickets::{Done, TicketPass, Tickets};
use workers::run_and_fetch;

/// A worker, with a pass of the pool and one of the tickets.
pub struct Worker {
    /// Its own pass of the pool.
    pub pass: PoolPass,
    /// Its own pass of the tickets, which tells the places of the queries that it drew.
    pub draws: TicketPass,
    /// How its queries ended, each with its place.
    pub ended: Vec<Done<Ended>>,
}

/// Written here, and not derived, so that a crate that lets a worker go calls this.
impl Drop for Worker {
    fn drop(self) {
        let Worker {
            pass: _pass,
            draws: _draws,
            ended: _ended,
        } = self;
    }
}

impl Worker {
    /// Its passes, and how its queries ended.
    pub(crate) fn into_parts(self) -> (PoolPass, TicketPass, Vec<Done<Ended>>)
        ensures { result ≡ (self.pass, self.draws, self.ended) }
    {
        let Worker { pass, draws, ended } = self;
        (pass, draws, ended)
    }
}

/// Draws the next query, runs it, and keeps how it ended with its place. Room for its ending is taken first. Whether there was a query, and
/// memory for it.
fn run_next<W: Wait, S: Source>(
    rt: &W,
    alloc: Global,
    pool: &Pool,
    table: &SlotTable<S>,
    own: &mut Pass<Slot<S>>,
    tickets: &Tickets,
    worker: &mut Worker,
    queries: &[Ready],
) -> bool
    requires serves { MayServe table.now pool.now own.old }
    requires work { IsAtWork pool.now tickets.now queries.now worker.old }
    ensures served { own.new ≡ own.old }
    ensures worked { Worked pool.now tickets.now queries.now worker.old worker.new }
{
    if worker.ended.reserve(1).is_err() {
        return false;
    }
    let Some(number) = tickets.draw(&mut worker.draws, queries.len() as u64) else {
        return false;
    };
    let place = number as usize;
    let ready = &queries[place];
    let pass = &mut worker.pass;
    match run_and_fetch(rt, alloc, pool, table, own, pass, ready) {
        Ok(answer) => {
            worker.ended.push_reserved(Done { place, answer });
            true
        }
        Err(_) => false,
    }
}

/// Runs queries, each time the next one that no worker has drawn, and takes turns over the slot table itself. Where memory runs out it draws no more.
pub(crate) fn work<W: Wait, S: Source>(
    rt: &W,
    alloc: Global,
    pool: &Pool,
    table: &SlotTable<S>,
    tickets: &Tickets,
    handle: &mut WorkerHandle<Worker, Slot<S>>,
    queries: &[Ready],
)
    requires table { IsSlotTable table.now pool.now }
    requires share { handle.old.pass ≡ share_of table.now.lock 1 }
    requires work { IsAtWork pool.now tickets.now queries.now handle.old.worker }
    ensures worked { Worked pool.now tickets.now queries.now handle.old.worker handle.new.worker }
    ensures pass { handle.new.pass ≡ handle.old.pass }
{
    let WorkerHandle { worker, pass: own } = handle;
    for _ in 0..queries.len() {
        let more = run_next(rt, alloc, pool, table, own, tickets, worker, queries);
        if !more {
            return;
        }
    }
}
