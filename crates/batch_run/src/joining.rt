//! How a worker pool that has run comes apart.

ghost use Rattle.std.specs.Prelude.{◌≡◌, ◌<◌, ◌+◌, ℕ, None, All, length, map};
ghost use Rattle.std.specs.List.{flat_map, slice_index_or, sum_by};
ghost use Rattle.source_pool.specs.Passes.{IsPassOf};
ghost use Rattle.tickets.specs.Draws.{times};
ghost use Rattle.tickets.specs.Places.{standing};
ghost use Rattle.batch_run.specs.WorkerPools.{Rejoins};

use super::work::Worker;
use query_run::Ended;
use source_pool::{Pool, PoolPass};
use tickets::{TicketPass, Tickets, place_all};

/// Joins the passes of the workers to the first ones, and puts how their queries ended at their places.
pub(crate) fn rejoin(
    pool: &Pool,
    pass: &mut PoolPass,
    tickets: &Tickets,
    draws: &mut TicketPass,
    mut workers: Vec<Worker>,
    places: &mut [Option<Ended>],
)
    requires own { IsPassOf pool.now pass.old }
    requires first { draws.old.0 ≡ tickets.now }
    requires others { All (λ worker. IsPassOf pool.now worker.pass × (worker.draws.0 ≡ tickets.now)) workers.items }
    requires within { All (λ worker. All (λ done. done.place < length places.old) worker.ended.items) workers.items }
    ensures joined { Rejoins pool.now (map (λ worker. worker.pass) workers.items) pass.old pass.new }
    ensures whole { (draws.new.0 ≡ tickets.now)
        × (draws.new.1.parts ≡ draws.old.1.parts + sum_by (λ worker. worker.draws.1.parts) workers.items) }
    ensures drawn { (number : ℕ) → times number draws.new.1.drawn
        ≡ times number draws.old.1.drawn + sum_by (λ worker. times number worker.draws.1.drawn) workers.items }
    ensures size { length places.new ≡ length places.old }
    ensures placed { (place : ℕ) → slice_index_or places.new place None
        ≡ standing place (flat_map (λ worker. worker.ended.items) workers.items) (slice_index_or places.old place None) }
{
    while let Some(worker) = workers.pop() {
        let (other, drawn, ended) = worker.into_parts();
        pool.join(pass, other);
        tickets.join(draws, drawn);
        place_all(ended, places);
    }
}
