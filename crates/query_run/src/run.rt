//! Running a query over a pool.

ghost use Rattle.std.specs.Prelude.{◌≡◌, ◌<◌, true, false, None, IfOk, IfSome, OnErr, length};
ghost use Rattle.source_pool.specs.Passes.{IsPassOf};
ghost use Rattle.query_core.specs.Ready.{IsReady};
ghost use Rattle.query_run.specs.Inquiries.{needed, list_needed, is_ended};
ghost use Rattle.query_run.specs.Endings.{IsRight};
ghost use Rattle.query_run.specs.Advancing.{WaitsForNothing, HasSourcesIn, Advances};
ghost use Rattle.query_run.specs.Ran.{Ran, RanSome};
ghost use Rattle.query_run.specs.Serving.{MayServe, Leaves, ServesAll};
ghost use Rattle.query_core.specs.Machines.{state_of};
ghost use Rattle.query_run.specs.Looking.{IsReading, LooksOnce, LooksAhead, LooksAndAhead, HasLooked, HasStopped, wants_memory};
ghost use Rattle.query_run.specs.Prefetching.{ForeseesIfFar, HasPrefetchedBelow};

use super::ended::{Ended, Refusal};
use super::running_query::{RunningQuery, is_done, list_needed};
use access_log::Memory;
use query_core::Ready;
use source_api::FailKind;
use source_pool::{Pool, PoolPass};
use source_state::{Look, LookFault};
use std::alloc::Global;
use std::sync::Wait;

/// Calls who serves what is needed.
fn rest<P, F: Fn(u32, u64, &mut P)>(serve: &F, by: &mut P, source: u32, seen: u64)
    requires may { MayServe F.Fn serve.now source by.old }
    requires stays { Leaves F.Fn serve.now source by.old }
    ensures { by.new ≡ by.old }
{
    serve(source, seen, by);
}

/// Has who serves a source woken, where something was asked of it.
fn wake_for<H: Fn(u32)>(open: bool, source: u32, wake: &H)
    requires { H.IsAlwaysCallable wake.now }
{
    if open {
        wake(source);
    }
}

/// Asks the source of a list, where it is far, for what is certain of that list, and has who serves it woken.
#[tactic(auto, using(crate::proofs::Ahead::ahead_none))]
fn prefetch<G: Fn(u32) -> bool, H: Fn(u32)>(
    rt: &impl Wait,
    pool: &Pool,
    pass: &mut PoolPass,
    query: &RunningQuery,
    list: u8,
    far: &G,
    wake: &H,
)
    requires own { IsPassOf pool.now pass.old }
    requires reading { IsReading pass.old query.now }
    requires listed { list < (state_of query.now.machine).log.lists }
    requires far { G.IsAlwaysCallable far.now }
    requires wake { H.IsAlwaysCallable wake.now }
    ensures own { IsPassOf pool.now pass.new }
    ensures ahead { LooksAhead pass.old pass.new query.now }
    ensures asked { ForeseesIfFar (λ source answer. G.post far.now source answer) query.now list pass.old pass.new }
{
    let source = query.sources[usize::from(list)];
    if !far(source) {
        return;
    }
    let need = query.machine.certain_next(list);
    if is_done(need) {
        return;
    }
    let open = pool.prefetch(rt, pass, source, need);
    wake_for(open, source, wake);
}

/// Asks the sources of all lists but that of its need for what is certain of them, where they are far, so that their calls go side by side.
fn look_ahead<G: Fn(u32) -> bool, H: Fn(u32)>(
    rt: &impl Wait,
    pool: &Pool,
    pass: &mut PoolPass,
    query: &RunningQuery,
    far: &G,
    wake: &H,
)
    requires own { IsPassOf pool.now pass.old }
    requires reading { IsReading pass.old query.now }
    requires far { G.IsAlwaysCallable far.now }
    requires wake { H.IsAlwaysCallable wake.now }
    ensures own { IsPassOf pool.now pass.new }
    ensures ahead { LooksAhead pass.old pass.new query.now }
    ensures asked { HasPrefetchedBelow (λ source answer. G.post far.now source answer) query.now (state_of query.now.machine).log.lists (list_needed (needed query.now)) pass.old pass.new }
{
    let needed = list_needed(query.machine.need());
    for list in 0..query.machine.transcript().lists() {
        if list == needed {
            continue;
        }
        prefetch(rt, pool, pass, query, list, far, wake);
    }
}

/// What is to be served where a look isn't answered yet.
fn missing(look: Look, source: u32, seen: u64) -> Option<(u32, u64)>
    ensures { IfSome result (λ m. (m.0 ≡ source) × (look ≡ Look.NotYet)) }
{
    match look {
        Look::NotYet => Some((source, seen)),
        Look::Row(_) | Look::Grade(_) | Look::Fault(_) => None,
    }
}

/// One look at the source of what a query needs, and what the query makes of the answer. Where it isn't there yet, the source, and how often its
/// feeder had brought news before the look.
fn look_once(
    rt: &impl Wait,
    pool: &Pool,
    pass: &mut PoolPass,
    query: &mut RunningQuery,
) -> Option<(u32, u64)>
    requires own { IsPassOf pool.now pass.old }
    requires reading { IsReading pass.old query.old }
    requires going { is_ended query.old ≡ false }
    ensures own { IsPassOf pool.now pass.new }
    ensures look { LooksOnce pass.old pass.new query.old query.new }
    ensures missing { IfSome result (λ m. (m.0 < length pool.now) × (query.new.refusal ≡ None) × IsReading pass.new query.new) }
{
    let need = query.machine.need();
    let list = list_needed(need);
    let source = query.sources[usize::from(list)];
    let seen = pool.news(source);
    let look = pool.look(rt, pass, source, need);
    query.answer(list, look);
    missing(look, source, seen)
}

/// One look for what a query needs. Where it isn't there yet, what is certain is asked for at other sources that are far, and then the need is
/// served or waited for.
#[tactic(auto, using(crate::proofs::Ahead::looked_only, crate::proofs::Ahead::looked_and_ahead))]
fn look_and_wait<P, F: Fn(u32, u64, &mut P), G: Fn(u32) -> bool, H: Fn(u32)>(
    rt: &impl Wait,
    pool: &Pool,
    pass: &mut PoolPass,
    query: &mut RunningQuery,
    serve: &F,
    by: &mut P,
    far: &G,
    wake: &H,
)
    requires own { IsPassOf pool.now pass.old }
    requires reading { IsReading pass.old query.old }
    requires going { is_ended query.old ≡ false }
    requires serves { ServesAll F.Fn serve.now (length pool.now) by.old }
    requires far { G.IsAlwaysCallable far.now }
    requires wake { H.IsAlwaysCallable wake.now }
    ensures served { by.new ≡ by.old }
    ensures own { IsPassOf pool.now pass.new }
    ensures step { LooksAndAhead pass.old pass.new query.old query.new }
{
    if let Some((source, seen)) = look_once(rt, pool, pass, query) {
        look_ahead(rt, pool, pass, query, far, wake);
        rest(serve, by, source, seen);
    }
}

/// Looks for what a query needs until it has ended.
fn look_on<P, F: Fn(u32, u64, &mut P), G: Fn(u32) -> bool, H: Fn(u32)>(
    rt: &impl Wait,
    pool: &Pool,
    pass: &mut PoolPass,
    query: &mut RunningQuery,
    serve: &F,
    by: &mut P,
    far: &G,
    wake: &H,
)
    requires own { IsPassOf pool.now pass.old }
    requires rests { WaitsForNothing pass.old }
    requires reading { IsReading pass.old query.old }
    requires unrefused { query.old.refusal ≡ None }
    requires serves { ServesAll F.Fn serve.now (length pool.now) by.old }
    requires far { G.IsAlwaysCallable far.now }
    requires wake { H.IsAlwaysCallable wake.now }
    ensures served { by.new ≡ by.old }
    ensures own { IsPassOf pool.now pass.new }
    ensures ended { is_ended query.new ≡ true }
    ensures looked { HasLooked pass.old pass.new query.old query.new }
    ensures stopped { HasStopped pass.old pass.new query.new }
{
    for _ in rt.forever() {
        if query.is_ended() {
            return;
        }
        look_and_wait(rt, pool, pass, query, serve, by, far, wake);
    }
    unreachable!()
}

/// Whether a refusal is for lack of memory.
fn wants_memory(refusal: Option<Refusal>) -> bool
    ensures { result ≡ wants_memory refusal }
{
    match refusal {
        Some(Refusal::Look { fault, .. }) => fault == LookFault::Call(FailKind::Memory),
        Some(Refusal::Core { .. }) | None => false,
    }
}

/// Runs a query over the sources of a pool, through a pass of it, and may wait. It looks for what the query's machine needs next until that
/// is there or can't be had, and ends with the answer, or with why the query is refused. Where a call of a source ran out of memory while the
/// query waited for it, this runs out of memory too; no more was wanted of the sources then than the query had asked for. What isn't there yet is
/// served by a call of `serve`, of the source's number, how much news its feeder had brought before the look, and what this thread serves by; or the
/// call waits until it was served. It may return for no reason: the query looks again. Before that what is certain is asked for at the other
/// sources of which `far` says that they are far, and `wake` is called for each of these that hasn't it yet. A call of these that fails
/// refuses nobody; who comes to need it asks again.
///
/// *Cost*: for each access one `Pool::look` and the feeding of the machine, and a look more each time that it is woken.
/// No memory from the making of the machine to its answer.
pub fn run_query_by<P, F: Fn(u32, u64, &mut P), G: Fn(u32) -> bool, H: Fn(u32)>(
    rt: &impl Wait,
    alloc: Global,
    pool: &Pool,
    pass: &mut PoolPass,
    ready: &Ready,
    serve: &F,
    by: &mut P,
    far: &G,
    wake: &H,
) -> Result<Ended, Memory>
    requires ready { IsReady ready.now }
    requires own { IsPassOf pool.now pass.old }
    requires rests { WaitsForNothing pass.old }
    requires sources { HasSourcesIn pass.old ready.now }
    requires serves { ServesAll F.Fn serve.now (length pool.now) by.old }
    requires far { G.IsAlwaysCallable far.now }
    requires wake { H.IsAlwaysCallable wake.now }
    ensures served { by.new ≡ by.old }
    ensures own { IsPassOf pool.now pass.new }
    ensures rests { WaitsForNothing pass.new }
    ensures advances { Advances ready.now.sources.items pass.old pass.new }
    ensures ran { IfOk result (Ran ready.now pass.old pass.new) }
    ensures short { OnErr result (RanSome ready.now pass.old pass.new) }
    ensures right { IfOk result (IsRight ready.now) }
{
    let mut query = RunningQuery::make(alloc, ready)?;
    look_on(rt, pool, pass, &mut query, serve, by, far, wake);
    if wants_memory(query.refusal) {
        drop(query);
        return Err(Memory);
    }
    query.end()
}

/// Runs a query over the sources of a pool, as `run_query_by`, where fetchers serve all that it waits for. Each source is far there, as its fetcher
/// has to be woken for a call.
pub fn run_query(
    rt: &impl Wait,
    alloc: Global,
    pool: &Pool,
    pass: &mut PoolPass,
    ready: &Ready,
) -> Result<Ended, Memory>
    requires ready { IsReady ready.now }
    requires own { IsPassOf pool.now pass.old }
    requires rests { WaitsForNothing pass.old }
    requires sources { HasSourcesIn pass.old ready.now }
    ensures own { IsPassOf pool.now pass.new }
    ensures rests { WaitsForNothing pass.new }
    ensures advances { Advances ready.now.sources.items pass.old pass.new }
    ensures ran { IfOk result (Ran ready.now pass.old pass.new) }
    ensures short { OnErr result (RanSome ready.now pass.old pass.new) }
    ensures right { IfOk result (IsRight ready.now) }
{
    let sleep = |source: u32, seen: u64, _: &mut ()|
        requires { source < length pool.now }
    { pool.wait_for_news(rt, source, seen) };
    let far = |_: u32| true;
    let wake = |_: u32| {};
    run_query_by(rt, alloc, pool, pass, ready, &sleep, &mut (), &far, &wake)
}
