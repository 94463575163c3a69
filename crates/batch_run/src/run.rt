//! The run of a batch.

ghost use Rattle.std.specs.Prelude.{◌≡◌, ◌≤◌, ◌<◌, ◌^◌, None, All, map, length, IfOk, OnErr};
ghost use Rattle.std.specs.List.{AllZip};
ghost use Rattle.source_api.specs.Counting.{NoneFell};
ghost use Rattle.query_run.specs.Made.{IsReadyFor};
ghost use Rattle.query_run.specs.Endings.{IsRight};
ghost use Rattle.topk_base.specs.Ranges.{AreSettings};
ghost use Rattle.batch_result.specs.Batches.{run_of, IsBatch};
ghost use Rattle.batch_result.specs.Cut.{IsCut};

use super::finish::finish;
use super::lending::{lend, take_back};
use super::sides::run_sides;
use super::worker_pool::WorkerPool;
use batch_result::{Batch, Settings};
use fetcher::Slot;
use query_core::Ready;
use query_run::Memory;
use source_api::Source;
use std::alloc::Global;
use std::sync::Wait;
use std::thread::Threads;
use topk_base::MAX_OBJECTS;

/// Runs all queries over the sources, those of the same numbers, which have so many objects each: as many workers as the settings say, at
/// the same time, and beside them one fetcher a source. The next free worker takes the next query. What it needs of a source and no other
/// thread fetches it fetches itself, so that no query needs another thread; the fetchers read ahead. A call may wait for ever.
///
/// A batch comes only once all queries have ended. Where memory ran out there is none; what the sources gave by then is within the same
/// bounds, those of what the queries that had begun asked for, and nothing where none had.
///
/// *Cost*: a pool, a pass for each worker, a lock of the slots, and room for the endings; then each query one `run_query_by`, each source
/// the turns that its queries need and those that read ahead; at the end a join for each worker, `Pool::close`, and two passes over the endings.
pub fn run_all<W: Threads + Wait + Sync, S: Source>(
    rt: &W,
    alloc: Global,
    sources: &mut Vec<Slot<S>>,
    counts: &[u32],
    queries: &[Ready],
    settings: Settings,
) -> Result<Batch, Memory>
    requires settings { AreSettings settings }
    requires sources { length counts.now ≡ length sources.old.items }
    requires few_sources { length counts.now < 2 ^ 32 }
    requires counts { All (λ count. count ≤ MAX_OBJECTS) counts.now }
    requires few_queries { length queries.now < 2 ^ 32 }
    requires ready { All (IsReadyFor counts.now) queries.now }
    requires empty { All (λ slot. slot.feeder ≡ None) sources.old.items }
    ensures empty { All (λ slot. slot.feeder ≡ None) sources.new.items }
    ensures lists { map (λ slot. S.list slot.source) sources.new.items ≡ map (λ slot. S.list slot.source) sources.old.items }
    ensures versions { map (λ slot. S.at_hand slot.source) sources.new.items ≡ map (λ slot. S.at_hand slot.source) sources.old.items }
    ensures later { AllZip NoneFell (map (λ slot. S.counts slot.source) sources.old.items) (map (λ slot. S.counts slot.source) sources.new.items) }
    ensures cut { OnErr result (IsCut (run_of S.list S.counts S.calls S.at_hand settings counts.now queries.now sources.old.items sources.new.items)) }
    ensures batch { IfOk result (IsBatch (run_of S.list S.counts S.calls S.at_hand settings counts.now queries.now sources.old.items sources.new.items)) }
    ensures right { IfOk result (λ batch. AllZip IsRight queries.now batch.endings) }
{
    let mut worker_pool = WorkerPool::make(alloc, counts, queries.len(), settings.workers)?;
    lend(&mut worker_pool.feeders, sources);
    run_sides(
        rt,
        alloc,
        &worker_pool.pool,
        &worker_pool.tickets,
        &mut worker_pool.workers,
        sources,
        queries,
        settings,
    );
    take_back(sources, &mut worker_pool.feeders);
    finish(worker_pool, sources)
}
