//! What a worker pool gives once it has run.

ghost use Rattle.std.specs.Prelude.{◌≡◌, ◌≤◌, ◌<◌, [], ℕ, true, Some, List, length, map, is_some, IfOk, OnErr, vec_len, vec_capacity};
ghost use Rattle.std.specs.List.{list_all};
ghost use Rattle.source_state.specs.State.{state_at};
ghost use Rattle.query_core.specs.declared.ready.Ready.{Ready};
ghost use Rattle.topk_base.specs.declared.settings.Settings.{Settings};
ghost use Rattle.batch_run.specs.Slots.{SlotState, states_of, slot_at};
ghost use Rattle.batch_result.specs.Batches.{IsBatch, use_at};
ghost use Rattle.batch_result.specs.Cut.{IsCut};
ghost use Rattle.batch_run.specs.Finishing.{slots_run, CanFinish, UsedOf};

use super::joining::rejoin;
use super::worker_pool::WorkerPool;
use batch_result::{Batch, Use};
use fetcher::{Fetched, Slot};
use query_run::{Ended, Memory};
use source_api::Source;
use source_pool::{Feeders, States};

/// Moves how the queries ended out of their places, in their order. Whether each has ended.
fn gather(mut places: Vec<Option<Ended>>, endings: &mut Vec<Ended>) -> bool
    requires none { endings.old.items ≡ [] }
    requires room { vec_len places ≤ vec_capacity endings.old }
    ensures all { result ≡ list_all is_some places.items }
    ensures moved { result ≡ true → places.items ≡ map Some endings.new.items }
{
    places.reverse();
    while let Some(place) = places.pop() {
        let Some(ended) = place else {
            return false;
        };
        endings.push_reserved(ended);
    }
    true
}

/// What was used of a source, by its closing state and by what its fetcher fetched.
fn used(states: &States, source: u32, fetched: Fetched) -> Use
    requires { source < length states.now }
    ensures { UsedOf (state_at states.now source) fetched result }
{
    let state = states.get(source).unwrap();
    Use {
        rows: fetched.rows,
        grades: fetched.grades,
        want: state.want(),
        asks: state.asks(),
    }
}

/// What was used of each source.
fn use_all<S: Source>(states: &States, slots: &[Slot<S>], uses: &mut Vec<Use>)
    requires states { length states.now ≡ length slots.now }
    requires none { uses.old.items ≡ [] }
    requires room { length slots.now ≤ vec_capacity uses.old }
    ensures size { length uses.new.items ≡ length slots.now }
    ensures each { (source : ℕ) → source < length slots.now
        → UsedOf (state_at states.now source) (slot_at (states_of S.list S.counts S.calls S.at_hand slots.now) source).fetched (use_at uses.new.items source) }
{
    for source in 0..states.len() {
        uses.push_reserved(used(states, source, slots[source as usize].fetched));
    }
}

/// What the batch gives, once its worker pool has run; none where a query hasn't ended, since memory ran out. The pool is closed in either case.
pub(crate) fn finish<S: Source>(worker_pool: WorkerPool, slots: &[Slot<S>]) -> Result<Batch, Memory>
    requires { (settings : Settings) × (counts : List ℕ) × (readies : List Ready) × (before : List SlotState)
        × CanFinish settings counts readies before (states_of S.list S.counts S.calls S.at_hand slots.now) worker_pool }
    ensures batch { IfOk result (λ batch. (settings : Settings) (counts : List ℕ) (readies : List Ready) (before : List SlotState)
        → CanFinish settings counts readies before (states_of S.list S.counts S.calls S.at_hand slots.now) worker_pool
        → IsBatch (slots_run settings counts readies before (states_of S.list S.counts S.calls S.at_hand slots.now)) batch) }
    ensures cut { OnErr result ((settings : Settings) (counts : List ℕ) (readies : List Ready) (before : List SlotState)
        → CanFinish settings counts readies before (states_of S.list S.counts S.calls S.at_hand slots.now) worker_pool
        → IsCut (slots_run settings counts readies before (states_of S.list S.counts S.calls S.at_hand slots.now))) }
{
    let WorkerPool {
        pool,
        mut pass,
        tickets,
        mut draws,
        feeders,
        workers,
        mut places,
        mut endings,
        mut uses,
    } = worker_pool;
    rejoin(&pool, &mut pass, &tickets, &mut draws, workers, &mut places);
    tickets.close(draws);
    let states = pool.close(pass, Feeders::from_vec(feeders));
    use_all(&states, slots, &mut uses);
    drop(states);
    if !gather(places, &mut endings) {
        drop(endings);
        drop(uses);
        return Err(Memory);
    }
    Ok(Batch::make(endings, uses))
}
