//! The run.

ghost use Rattle.std.specs.Prelude.{◌≡◌, IfOk, map, replicate};
ghost use Rattle.topk_base.specs.Ranges.{AreSettings};
ghost use Rattle.bulk_run.specs.Held.{fresh_slot};
ghost use Rattle.bulk_run.specs.Sums.{IsInput, table_of, bulk_sums};
ghost use Rattle.bulk_run.specs.Endings.{AreMadeReady, AllEndInOne};
ghost use Rattle.bulk_run.specs.Reads.{AreReadSparingly};

use super::Memory;
use super::input::BulkInput;
use super::made_source::MadeSource;
use super::readies::made_readies;
use super::slots::{let_go, table_slots};
use super::sums::{BulkSums, sums_of};
use batch_result::{
    told_tables_bound_a_cut_batch, told_tables_bound_the_uses, told_tables_give_the_one_ending,
};
use batch_run::{Ended, Settings, run_all};
use fetcher::Slot;
use query_core::Ready;
use std::alloc::Global;
use std::sync::Wait;
use std::thread::Threads;

/// Makes a table and queries over it, runs all of these over sources in memory, on as many workers at the same time as the settings
/// say, and gives the sums over their answers. It may wait for ever.
///
/// Each query is answered, and by its one answer: the sums are the same for all settings.
///
/// # Errors
///
/// [`Memory`] where no memory was left.
///
/// *Cost*: `make_table`, the rows and a vector of grades for each list, `run_all`, and one pass over the answers.
pub fn run_bulk<W: Threads + Wait + Sync>(
    rt: &W,
    alloc: Global,
    input: BulkInput,
    settings: Settings,
) -> Result<BulkSums, Memory>
    requires input { IsInput input }
    requires settings { AreSettings settings }
    ensures { IfOk result (λ sums. sums ≡ bulk_sums input) }
{
    let endings = run_made(rt, alloc, input, settings)?;
    Ok(sums_of(&endings))
}

/// Makes the sources of the table and the queries, runs these, and gives how they ended.
fn run_made<W: Threads + Wait + Sync>(
    rt: &W,
    alloc: Global,
    input: BulkInput,
    settings: Settings,
) -> Result<Vec<Ended>, Memory>
    requires input { IsInput input }
    requires settings { AreSettings settings }
    ensures { IfOk result (λ endings. AllEndInOne input endings.items) }
{
    let mut slots = table_slots(alloc, input.start, input.count, input.lists)?;
    let endings = run_over(rt, alloc, input, &mut slots, settings);
    let_go(slots);
    endings
}

/// How many objects each list of the table has.
fn list_counts(alloc: Global, input: BulkInput) -> Result<Vec<u32>, Memory>
    ensures { IfOk result (λ counts. counts.items ≡ replicate input.lists input.count) }
{
    let mut counts = Vec::new(alloc);
    counts.resize(usize::from(input.lists), input.count)?;
    Ok(counts)
}

/// Makes the queries and runs them over the sources of the table, for who keeps these to see what was read. Whether memory ran out or not, no
/// source gives a row beyond the reach of the greatest depth to which the one run of a query reads it, nor more grades than these runs make random
/// accesses to it.
///
/// # Errors
///
/// [`Memory`] where no memory was left.
pub fn run_over<W: Threads + Wait + Sync>(
    rt: &W,
    alloc: Global,
    input: BulkInput,
    slots: &mut Vec<Slot<MadeSource>>,
    settings: Settings,
) -> Result<Vec<Ended>, Memory>
    requires input { IsInput input }
    requires settings { AreSettings settings }
    requires slots { slots.old.items ≡ map fresh_slot (table_of input) }
    ensures read { AreReadSparingly input settings slots.new.items }
    ensures ended { IfOk result (λ endings. AllEndInOne input endings.items) }
{
    let counts = list_counts(alloc, input)?;
    let readies = made_readies(alloc, input)?;
    run_queries(rt, alloc, input, &counts, &readies, slots, settings)
}

/// Runs queries that are ready over the sources of the table, and gives how they ended.
fn run_queries<W: Threads + Wait + Sync>(
    rt: &W,
    alloc: Global,
    input: BulkInput,
    counts: &[u32],
    readies: &[Ready],
    slots: &mut Vec<Slot<MadeSource>>,
    settings: Settings,
) -> Result<Vec<Ended>, Memory>
    requires input { IsInput input }
    requires settings { AreSettings settings }
    requires counts { counts.now ≡ replicate input.lists input.count }
    requires readies { AreMadeReady input readies.now }
    requires slots { slots.old.items ≡ map fresh_slot (table_of input) }
    ensures read { AreReadSparingly input settings slots.new.items }
    ensures ended { IfOk result (λ endings. AllEndInOne input endings.items) }
{
    // Made sources tell a table: by these laws no more is read of it than by the one runs of the queries, where memory runs out too.
    told_tables_bound_the_uses();
    told_tables_bound_a_cut_batch();
    let Ok(batch) = run_all(rt, alloc, slots, counts, readies, settings) else {
        return Err(Memory);
    };
    // Made sources tell a table and count no failed call, and made queries state no room: by this law each ends with its one answer.
    told_tables_give_the_one_ending();
    Ok(batch.into_endings())
}
